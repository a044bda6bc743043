//! A disk in memory.

ghost use Rattle.std.specs.Prelude.{◌≡◌, ℕ, ◌+◌, ◌-◌, ◌≤◌, ◌++◌, length, take, drop, min, true, is_err, option_map, IfOk, IfSome, IsTrue, OnOk, OnErr};
ghost use Rattle.outside.specs.Causes.{HasCause};
ghost use Rattle.outside.specs.History.{IsCovered, MayWrite, Spends, after_sync, beginning, written};
ghost use Rattle.outside_mem.specs.Counts.{counted};
ghost use Rattle.outside_mem.specs.Calls.{AreUnused, after_call, after_change, fails_next};
ghost use Rattle.outside_mem.specs.DiskHistory.{spent};
ghost use Rattle.outside_mem.specs.DiskLaws.{read_image};
ghost use Rattle.outside_mem.specs.Moments.{IsImageAt, moment_at, picked};

use crate::calls::DiskCalls;
use crate::disk_log::{DiskLog, read_from};
use crate::failures::{counted, ended};
use crate::moment::{DiskMoment, Pick};
use outside::disk::Disk;
use outside::stream::Fault;
use std::alloc::{AllocError, Global};

/// A disk in memory, which tells all that it holds and held. It keeps what it held at first, and
/// each write and sync that changed it.
#[derive(Debug, Drop)]
pub struct MemDisk {
    /// Which calls are to fail, and how many there were.
    pub calls: DiskCalls,
    /// The byte that a torn write leaves at each place of its range.
    pub torn: u8,
    /// How many calls failed, up to 2^64 - 1.
    pub faults: u64,
    log: DiskLog,
}

impl MemDisk {
    ghost use Rattle.outside_mem.specs.Disks.{disk_history, disk_spare, history_after_write, write_fails};

    /// A disk that holds these bytes, all of them synced, and of which no call fails; takes no
    /// memory.
    pub fn new(bytes: Vec<u8>) -> MemDisk
        ensures history { disk_history result ≡ beginning bytes.items }
        ensures spare { disk_spare result ≡ record { to = 0; bytes = 0; calls = 0 } }
        ensures calls { AreUnused result.calls }
        ensures faults { result.faults ≡ 0 }
    {
        MemDisk {
            calls: DiskCalls::new(*bytes.allocator()),
            torn: 0,
            faults: 0,
            log: DiskLog::new(bytes),
        }
    }

    /// What a read gives.
    pub fn bytes(&self) -> &[u8]
        ensures { result.now ≡ (disk_history self.now).now.held }
    {
        self.log.held()
    }

    /// What a read gives; takes no memory.
    pub fn into_bytes(self) -> Vec<u8>
        ensures { result.items ≡ (disk_history self).now.held }
    {
        self.log.into_held()
    }

    /// How many writes and syncs it has kept: the number of the moment now.
    pub fn clock(&self) -> u64
        ensures { result ≡ length (disk_history self.now).past }
    {
        self.log.clock()
    }

    /// What it held at the moment of a number, where there was one; 0 is that of the first bytes. An
    /// `Err` is want of memory.
    pub fn moment(&self, number: u64) -> Result<Option<DiskMoment>, AllocError>
        ensures { IfOk result (λ moment. moment ≡ moment_at (disk_history self.now) number) }
    {
        self.log.moment(number)
    }

    /// What a crash at the moment of a number may have left, where there was the moment. An `Err` is
    /// want of memory.
    pub fn image(&self, number: u64, pick: Pick) -> Result<Option<Vec<u8>>, AllocError>
        ensures picked { IfOk result (λ image. option_map (λ bytes. bytes.items) image ≡ option_map (picked pick) (moment_at (disk_history self.now) number)) }
        ensures crash { IfOk result (λ image. IfSome image (λ bytes. IsImageAt (disk_history self.now) number bytes.items)) }
    {
        let Some(moment) = self.log.moment(number)? else {
            return Ok(None);
        };
        Ok(Some(moment.into_image(pick)))
    }

    /// Writes a piece; its clauses tell what becomes of the call.
    fn try_write(&mut self, at: u64, piece: &[u8]) -> Result<(), Fault>
        requires within { at ≤ length (disk_history self.old).now.held }
        requires covered { IsCovered (disk_spare self.old) (at + length piece.now) (length piece.now) }
        ensures answer { is_err result ≡ write_fails self.old }
        ensures after { disk_history self.new ≡ history_after_write self.old at piece.now }
        ensures spent { disk_spare self.new ≡ spent (disk_spare self.old) }
        ensures calls { self.new.calls ≡ record self.old.calls { writes = after_change self.old.calls.writes } }
        ensures faults { self.new.faults ≡ counted self.old.faults (write_fails self.old) }
        ensures later { self.old.faults ≤ self.new.faults }
        ensures torn { self.new.torn ≡ self.old.torn }
    {
        let fate = self.calls.writes.next(false);
        self.faults = counted(self.faults, fate.fails);
        if !fate.happens {
            self.log.spend();
        } else if fate.fails {
            self.log.fill(at, piece.len(), self.torn);
        } else {
            self.log.write(at, piece);
        }
        ended((), fate.fails)
    }
}

impl Disk for MemDisk {
    ghost use Rattle.outside_mem.specs.Disks.{disk_history, disk_spare, history_after_sync, history_after_write, write_fails};

    ghost tells = { λ disk. true };

    ghost history = { λ disk. disk_history disk };

    ghost spare = { λ disk. disk_spare disk };

    ghost faults = { λ disk. disk.faults };

    /// Fails exactly where it was told to. The call is counted.
    fn len(&mut self) -> Result<u64, Fault>
        ensures len { IsTrue true → IfOk result (λ n. n ≡ length (disk_history self.old).now.held) }
        ensures tells { true ≡ true }
        ensures history { disk_history self.new ≡ disk_history self.old }
        ensures spare { disk_spare self.new ≡ disk_spare self.old }
        ensures cause { HasCause self.old.faults self.new.faults result }

        ensures answer { is_err result ≡ fails_next self.old.calls.lens }
        ensures calls { self.new.calls ≡ record self.old.calls { lens = after_call self.old.calls.lens } }
        ensures faults { self.new.faults ≡ counted self.old.faults (fails_next self.old.calls.lens) }
        ensures torn { self.new.torn ≡ self.old.torn }
    {
        let fails = self.calls.lens.next();
        self.faults = counted(self.faults, fails);
        ended(self.log.held().len() as u64, fails)
    }

    /// Fails exactly where it was told to, and then leaves the buffer. The call is counted.
    fn read_at(&mut self, at: u64, buf: &mut [u8]) -> Result<usize, Fault>
        ensures bound { IfOk result (λ n. n ≤ length buf.old) }
        ensures bytes { IsTrue true → IfOk result (λ n. (n ≡ min (length buf.old) (length (disk_history self.old).now.held - at))
            × (buf.new ≡ take n (drop at (disk_history self.old).now.held) ++ drop n buf.old)) }
        ensures tells { true ≡ true }
        ensures history { disk_history self.new ≡ disk_history self.old }
        ensures spare { disk_spare self.new ≡ disk_spare self.old }
        ensures cause { HasCause self.old.faults self.new.faults result }

        ensures answer { is_err result ≡ fails_next self.old.calls.reads }
        ensures nothing { OnErr result (buf.new ≡ buf.old) }
        ensures calls { self.new.calls ≡ record self.old.calls { reads = after_call self.old.calls.reads } }
        ensures faults { self.new.faults ≡ counted self.old.faults (fails_next self.old.calls.reads) }
        ensures torn { self.new.torn ≡ self.old.torn }
    {
        let fails = self.calls.reads.next();
        self.faults = counted(self.faults, fails);
        if fails {
            return Err(Fault);
        }
        Ok(read_from(self.log.held(), at, buf))
    }

    /// Fails for want of memory alone.
    fn reserve(&mut self, to: u64, bytes: u64, calls: u32) -> Result<(), AllocError>
        ensures ok { OnOk result (disk_spare self.new ≡ record { to = to; bytes = bytes; calls = calls }) }
        ensures err { OnErr result (disk_spare self.new ≡ disk_spare self.old) }
        ensures tells { true ≡ true }
        ensures history { disk_history self.new ≡ disk_history self.old }
        ensures faults { self.new.faults ≡ self.old.faults }

        ensures calls { self.new.calls ≡ self.old.calls }
        ensures torn { self.new.torn ≡ self.old.torn }
    {
        self.log.reserve(to, bytes, calls)
    }

    /// Fails exactly where it was told to; then it has left the byte `torn` at each place of its
    /// range where it was told to happen all the same, and else it has not begun. The call is
    /// counted, and a reserved one is spent.
    fn write_at(&mut self, at: u64, piece: &[u8]) -> Result<(), Fault>
        requires within { IsTrue true → at ≤ length (disk_history self.old).now.held }
        requires covered { IsCovered (disk_spare self.old) (at + length piece.now) (length piece.now) }

        ensures ok { IsTrue true → OnOk result (disk_history self.new ≡ written at piece.now (disk_history self.old)) }
        ensures err { IsTrue true → OnErr result (MayWrite at piece.now (disk_history self.old) (disk_history self.new)) }
        ensures tells { true ≡ true }
        ensures spare { Spends (disk_spare self.old) (disk_spare self.new) }
        ensures cause { HasCause self.old.faults self.new.faults result }

        ensures answer { is_err result ≡ write_fails self.old }
        ensures after { disk_history self.new ≡ history_after_write self.old at piece.now }
        ensures spent { disk_spare self.new ≡ spent (disk_spare self.old) }
        ensures calls { self.new.calls ≡ record self.old.calls { writes = after_change self.old.calls.writes } }
        ensures faults { self.new.faults ≡ counted self.old.faults (write_fails self.old) }
        ensures torn { self.new.torn ≡ self.old.torn }
    {
        self.try_write(at, piece)
    }

    /// Fails exactly where it was told to. The call is counted, and a reserved one is spent.
    fn sync(&mut self) -> Result<(), Fault>
        requires covered { IsCovered (disk_spare self.old) 0 0 }

        ensures ok { IsTrue true → OnOk result (disk_history self.new ≡ after_sync (disk_history self.old)) }
        ensures err { IsTrue true → OnErr result (disk_history self.new ≡ disk_history self.old) }
        ensures tells { true ≡ true }
        ensures spare { Spends (disk_spare self.old) (disk_spare self.new) }
        ensures cause { HasCause self.old.faults self.new.faults result }

        ensures answer { is_err result ≡ fails_next self.old.calls.syncs }
        ensures after { disk_history self.new ≡ history_after_sync self.old }
        ensures spent { disk_spare self.new ≡ spent (disk_spare self.old) }
        ensures calls { self.new.calls ≡ record self.old.calls { syncs = after_call self.old.calls.syncs } }
        ensures faults { self.new.faults ≡ counted self.old.faults (fails_next self.old.calls.syncs) }
        ensures torn { self.new.torn ≡ self.old.torn }
    {
        let fails = self.calls.syncs.next();
        self.faults = counted(self.faults, fails);
        if fails {
            self.log.spend();
            return Err(Fault);
        }
        self.log.sync();
        Ok(())
    }

    ghost read_is_image = { λ disk tells. read_image disk.log.held.items disk.log.first.items disk.log.bytes.items disk.log.calls.items };
}
