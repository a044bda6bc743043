//! What a disk in memory holds, and the calls that it keeps.

ghost use Rattle.std.specs.Prelude.{◌≡◌, ◌<◌, ◌≤◌, ◌+◌, ◌-◌, ◌*◌, ◌∷◌, ◌++◌, [], IfOk, OnOk, OnErr, drop, length, min, replicate, take, vec_capacity, vec_len};
ghost use Rattle.outside.specs.History.{IsCovered, after_sync, beginning, overwritten, written};
ghost use Rattle.outside_mem.specs.DiskHistory.{all_len, first_of, history_by, spent};
ghost use Rattle.outside_mem.specs.Moments.{moment_at};

use crate::moment::{DiskMoment, replay};
use std::alloc::AllocError;

/// A call of a disk in memory that it keeps.
#[derive(Debug, Clone, Copy, PartialEq, Eq)]
pub enum DiskCall {
    /// So many bytes were written from a place on.
    Write { at: u64, len: u64 },
    /// What was written survives a crash from then on.
    Sync,
}

/// What a disk holds, what it held at first, and its calls since, in their order.
#[derive(Debug, Drop)]
pub(crate) struct DiskLog {
    /// What a read gives.
    held: Vec<u8>,
    /// What was held at first. It is copied by a `reserve`, and until a call is kept it counts for
    /// nothing.
    first: Vec<u8>,
    /// The bytes of all writes, one after another.
    bytes: Vec<u8>,
    calls: Vec<DiskCall>,
    /// The greatest end of a call that is reserved.
    to: u64,
    /// The most bytes of one.
    most: u64,
    /// How many are left.
    left: u32,
    ghost replay: { held.items ≡ (history_by held.items first.items bytes.items calls.items).now.held },
    ghost sum: { all_len calls.items ≡ length bytes.items },
    ghost copied: { calls.items ≡ [] → 0 < left → first.items ≡ held.items },
    ghost held_room: { to ≤ vec_capacity held },
    ghost bytes_room: { vec_len bytes + left * most ≤ vec_capacity bytes },
    ghost calls_room: { vec_len calls + left ≤ vec_capacity calls },
}

/// Puts a call behind the others, where there is room for it.
fn keep(calls: &mut Vec<DiskCall>, call: DiskCall)
    requires { vec_len calls.old < vec_capacity calls.old }
    ensures items { calls.new.items ≡ calls.old.items ++ call ∷ [] }
    ensures len { vec_len calls.new ≡ vec_len calls.old + 1 }
    ensures capacity { vec_capacity calls.old ≤ vec_capacity calls.new }
{
    calls.push_reserved(call);
}

/// Puts a piece behind the others, where there is room for it.
fn append(bytes: &mut Vec<u8>, piece: &[u8])
    requires { vec_len bytes.old + length piece.now ≤ vec_capacity bytes.old }
    ensures items { bytes.new.items ≡ bytes.old.items ++ piece.now }
    ensures len { vec_len bytes.new ≡ vec_len bytes.old + length piece.now }
    ensures capacity { vec_capacity bytes.old ≤ vec_capacity bytes.new }
{
    bytes.extend_from_slice(piece).unwrap();
}

/// Puts so many times the same byte behind the others, where there is room for it.
fn append_filler(bytes: &mut Vec<u8>, len: usize, byte: u8)
    requires { vec_len bytes.old + len ≤ vec_capacity bytes.old }
    ensures items { bytes.new.items ≡ bytes.old.items ++ replicate len byte }
    ensures len { vec_len bytes.new ≡ vec_len bytes.old + len }
    ensures capacity { vec_capacity bytes.old ≤ vec_capacity bytes.new }
{
    let end = bytes.len() + len;
    bytes.resize(end, byte).unwrap();
}

/// Writes a piece over what is there and past its end, where there is room for it.
pub(crate) fn overwrite(held: &mut Vec<u8>, at: usize, piece: &[u8])
    requires { min at (vec_len held.old) + length piece.now ≤ vec_capacity held.old }
    ensures items { held.new.items ≡ overwritten at piece.now held.old.items }
    ensures capacity { vec_capacity held.old ≤ vec_capacity held.new }
{
    let from = at.min(held.len());
    let over = piece.len().min(held.len() - from);
    let (front, back) = piece.split_at(over);
    held[from..from + over].copy_from_slice(front);
    held.extend_from_slice(back).unwrap();
}

/// Puts the bytes from a place on at the front of a buffer, and answers how many these are.
pub(crate) fn read_from(held: &[u8], at: u64, buf: &mut [u8]) -> usize
    ensures count { result ≡ min (length buf.old) (length held.now - at) }
    ensures bytes { buf.new ≡ take result (drop at held.now) ++ drop result buf.old }
{
    let from = held.len().min(at as usize);
    let count = buf.len().min(held.len() - from);
    buf[..count].copy_from_slice(&held[from..from + count]);
    count
}

/// Makes room for so many bytes in all.
fn grow(held: &mut Vec<u8>, to: u64) -> Result<(), AllocError>
    ensures room { OnOk result (to ≤ vec_capacity held.new) }
    ensures items { held.new.items ≡ held.old.items }
    ensures capacity { vec_capacity held.old ≤ vec_capacity held.new }
{
    let len = held.len() as u64;
    if len < to {
        held.try_reserve((to - len) as usize)?;
    }
    Ok(())
}

impl DiskLog {
    ghost use Rattle.outside_mem.specs.DiskLogs.{log_history, log_spare};

    /// These bytes, and no calls; takes no memory.
    pub(crate) fn new(bytes: Vec<u8>) -> DiskLog
        ensures history { log_history result ≡ beginning bytes.items }
        ensures spare { log_spare result ≡ record { to = 0; bytes = 0; calls = 0 } }
    {
        let alloc = *bytes.allocator();
        DiskLog {
            held: bytes,
            first: Vec::new(alloc),
            bytes: Vec::new(alloc),
            calls: Vec::new(alloc),
            to: 0,
            most: 0,
            left: 0,
        }
    }

    /// What a read gives.
    pub(crate) fn held(&self) -> &[u8]
        ensures { result.now ≡ (log_history self.now).now.held }
    {
        self.held.as_slice()
    }

    /// What a read gives; takes no memory.
    pub(crate) fn into_held(self) -> Vec<u8>
        ensures { result.items ≡ (log_history self).now.held }
    {
        self.held
    }

    /// How many calls there were.
    pub(crate) fn clock(&self) -> u64
        ensures { result ≡ length (log_history self.now).past }
    {
        self.calls.len() as u64
    }

    /// What was held at first.
    fn first(&self) -> &[u8]
        ensures { result.now ≡ first_of self.now.held.items self.now.first.items self.now.calls.items }
    {
        if self.calls.is_empty() {
            return self.held.as_slice();
        }
        self.first.as_slice()
    }

    /// What was held after so many calls, where there were as many. An `Err` is want of memory.
    pub(crate) fn moment(&self, number: u64) -> Result<Option<DiskMoment>, AllocError>
        ensures { IfOk result (λ moment. moment ≡ moment_at (log_history self.now) number) }
    {
        let Some(calls) = self.calls.get(..number as usize) else {
            return Ok(None);
        };
        let first = Vec::from_slice(*self.held.allocator(), self.first())?;
        Ok(Some(replay(first, &self.bytes, calls)?))
    }

    /// Makes room for so many calls, of so many bytes each at most, that end at or below `to`.
    pub(crate) fn reserve(&mut self, to: u64, most: u64, calls: u32) -> Result<(), AllocError>
        ensures ok { OnOk result (log_spare self.new ≡ record { to = to; bytes = most; calls = calls }) }
        ensures err { OnErr result (log_spare self.new ≡ log_spare self.old) }
        ensures history { log_history self.new ≡ log_history self.old }
    {
        if self.calls.is_empty() {
            self.first = self.held.clone()?;
        }
        grow(&mut self.held, to)?;
        let bytes = most.checked_mul(calls as u64).ok_or(AllocError)?;
        self.bytes.try_reserve(bytes as usize)?;
        self.calls.try_reserve(calls as usize)?;
        self.to = to;
        self.most = most;
        self.left = calls;
        Ok(())
    }

    /// Lets go of one reserved call.
    pub(crate) fn spend(&mut self)
        ensures history { log_history self.new ≡ log_history self.old }
        ensures spare { log_spare self.new ≡ spent (log_spare self.old) }
    {
        self.left = self.left.saturating_sub(1);
    }

    /// A piece is written, and kept.
    pub(crate) fn write(&mut self, at: u64, piece: &[u8])
        requires within { at ≤ length (log_history self.old).now.held }
        requires covered { IsCovered (log_spare self.old) (at + length piece.now) (length piece.now) }
        ensures history { log_history self.new ≡ written at piece.now (log_history self.old) }
        ensures spare { log_spare self.new ≡ spent (log_spare self.old) }
    {
        append(&mut self.bytes, piece);
        overwrite(&mut self.held, at as usize, piece);
        keep(
            &mut self.calls,
            DiskCall::Write {
                at,
                len: piece.len() as u64,
            },
        );
        self.left -= 1;
    }

    /// So many times the same byte is written, and kept.
    pub(crate) fn fill(&mut self, at: u64, len: usize, byte: u8)
        requires within { at ≤ length (log_history self.old).now.held }
        requires covered { IsCovered (log_spare self.old) (at + len) len }
        ensures history { log_history self.new ≡ written at (replicate len byte) (log_history self.old) }
        ensures spare { log_spare self.new ≡ spent (log_spare self.old) }
    {
        let from = self.bytes.len();
        append_filler(&mut self.bytes, len, byte);
        overwrite(&mut self.held, at as usize, &self.bytes[from..]);
        keep(
            &mut self.calls,
            DiskCall::Write {
                at,
                len: len as u64,
            },
        );
        self.left -= 1;
    }

    /// A sync is kept.
    pub(crate) fn sync(&mut self)
        requires covered { IsCovered (log_spare self.old) 0 0 }
        ensures history { log_history self.new ≡ after_sync (log_history self.old) }
        ensures spare { log_spare self.new ≡ spent (log_spare self.old) }
    {
        keep(&mut self.calls, DiskCall::Sync);
        self.left -= 1;
    }
}
