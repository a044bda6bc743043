//! What a disk in memory held at one moment.

ghost use Rattle.std.specs.Prelude.{◌≡◌, ◌≤◌, ◌∷◌, [], IfOk, OnOk, length};
ghost use Rattle.outside.specs.History.{overwritten};
ghost use Rattle.outside_mem.specs.DiskHistory.{all_len, behind, call_len};
ghost use Rattle.outside_mem.specs.Moments.{filled, filled_all, moment_after, moment_after_all, picked};

use crate::disk_log::{DiskCall, overwrite};
use std::alloc::AllocError;
use std::marker::Model;

/// What a crash at a moment leaves is made of: the bytes at the last sync, and the ranges that were
/// written since.
#[derive(Debug, Drop)]
pub struct DiskMoment {
    /// What was held at the last sync.
    pub synced: Vec<u8>,
    /// What a read gave.
    pub held: Vec<u8>,
    /// The place and the length of each write since the last sync, in their order.
    pub written: Vec<(u64, u64)>,
}

/// Which of the images that a crash at a moment may leave.
#[derive(Debug, Clone, Copy, PartialEq, Eq)]
pub enum Pick {
    /// Without what was written since the last sync.
    Old,
    /// With all of it.
    New,
    /// With this byte at each place that was written since the last sync.
    Torn(u8),
}

impl Model for DiskMoment {
    ghost use Rattle.std.specs.Prelude.{reverse};
    ghost use Rattle.outside.specs.History.{Moment};

    ghost Value = { Moment };

    ghost view = { λ m. record { synced = m.synced.items; held = m.held.items; written = reverse m.written.items } };
}

/// Puts the same byte at each place of a range that there is.
fn fill(held: &mut Vec<u8>, at: u64, len: u64, byte: u8)
    ensures { held.new.items ≡ filled byte (at, len) held.old.items }
{
    let from = held.len().min(at as usize);
    let count = (held.len() - from).min(len as usize);
    held[from..from + count].fill(byte);
}

/// Puts the same byte at each place of these ranges.
fn fill_all(held: Vec<u8>, ranges: &[(u64, u64)], byte: u8) -> Vec<u8>
    ensures { result.items ≡ filled_all byte ranges.now held.items }
{
    let mut filled = held;
    for (at, len) in ranges {
        fill(&mut filled, *at, *len, byte);
    }
    filled
}

impl DiskMoment {
    /// These bytes, all of them synced. An `Err` is want of memory.
    fn of(bytes: Vec<u8>) -> Result<DiskMoment, AllocError>
        ensures { IfOk result (λ m. m ≡ record { synced = bytes.items; held = bytes.items; written = [] }) }
    {
        let alloc = *bytes.allocator();
        Ok(DiskMoment {
            synced: bytes.clone()?,
            held: bytes,
            written: Vec::new(alloc),
        })
    }

    /// Writes a piece. An `Err` is want of memory.
    fn write(&mut self, at: u64, piece: &[u8]) -> Result<(), AllocError>
        ensures { OnOk result (self.new ≡ record { synced = self.old.synced; held = overwritten at piece.now self.old.held; written = (at, length piece.now) ∷ self.old.written }) }
    {
        self.held.try_reserve(piece.len())?;
        overwrite(&mut self.held, at as usize, piece);
        self.written.push((at, piece.len() as u64))?;
        Ok(())
    }

    /// Syncs. An `Err` is want of memory.
    fn sync(&mut self) -> Result<(), AllocError>
        ensures { OnOk result (self.new ≡ record { synced = self.old.held; held = self.old.held; written = [] }) }
    {
        self.synced = self.held.clone()?;
        self.written.clear();
        Ok(())
    }

    /// One image that a crash may leave; takes no memory.
    pub fn into_image(self, pick: Pick) -> Vec<u8>
        ensures { result.items ≡ picked pick self }
    {
        match pick {
            Pick::Old => self.synced,
            Pick::New => self.held,
            Pick::Torn(byte) => fill_all(self.held, &self.written, byte),
        }
    }

    /// The moment after a call, whose bytes are the first of these; answers those behind them. An
    /// `Err` is want of memory.
    fn go_on<'a>(&mut self, call: DiskCall, bytes: &'a [u8]) -> Result<&'a [u8], AllocError>
        requires { call_len call ≤ length bytes.now }
        ensures moment { OnOk result (self.new ≡ moment_after bytes.now call self.old) }
        ensures behind { IfOk result (λ rest. rest.now ≡ behind bytes.now call) }
    {
        match call {
            DiskCall::Write { at, len } => {
                let (piece, rest) = bytes.split_at(len as usize);
                self.write(at, piece)?;
                Ok(rest)
            }
            DiskCall::Sync => {
                self.sync()?;
                Ok(bytes)
            }
        }
    }
}

/// The moment after calls, from a disk that held the first bytes. An `Err` is want of memory.
pub(crate) fn replay(
    first: Vec<u8>,
    bytes: &[u8],
    calls: &[DiskCall],
) -> Result<DiskMoment, AllocError>
    requires { all_len calls.now ≤ length bytes.now }
    ensures { IfOk result (λ m. m ≡ moment_after_all bytes.now calls.now (record { synced = first.items; held = first.items; written = [] })) }
{
    let mut moment = DiskMoment::of(first)?;
    let mut rest = bytes;
    for call in calls {
        rest = moment.go_on(*call, rest)?;
    }
    Ok(moment)
}
