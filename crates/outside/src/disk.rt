//! A disk: bytes by place, which survive a crash once they were synced.

ghost use Rattle.std.specs.Prelude.{◌≡◌, ℕ, Bool, ◌+◌, ◌-◌, ◌≤◌, ◌++◌, length, take, drop, min, IfOk, IsTrue, OnOk, OnErr};
ghost use Rattle.outside.specs.Causes.{HasCause};
ghost use Rattle.outside.specs.History.{History, IsCovered, IsImage, MayWrite, Spare, Spends, after_sync, written};

use crate::stream::Fault;
use std::alloc::AllocError;

/// Bytes that are read and written by place.
///
/// A write may reach the disk at any time from its call to the next sync, in pieces and in any order
/// of bytes; once a sync has succeeded, all that was written before it survives a crash. A crash
/// leaves any byte in a range that was written, or tried to be, since the last sync, each other byte
/// as it was at that sync, and a length from the one at that sync to the greatest end of such a
/// write. Nothing is said of sectors. This disk model is this project's own.
///
/// Where a disk tells, that is what its `history` says. Whether it tells never changes.
pub trait Disk: Drop {
    /// Whether the disk tells what it holds.
    ghost tells: { Self → Bool };

    /// What it holds, and held at each moment before, where it tells.
    ghost history: { Self → History };

    /// The writes and syncs that are still covered by the last `reserve`.
    ghost spare: { Self → Spare };

    /// How often a call of it has failed, up to 2^64 - 1; it never falls.
    ghost faults: { Self → ℕ };

    /// The length, in bytes.
    ///
    /// `Fault` comes only where `faults` rose in this call. Nothing changes.
    fn len(&mut self) -> Result<u64, Fault>
        ensures len { IsTrue (tells self.old) → IfOk result (λ n. n ≡ length (history self.old).now.held) }
        ensures tells { tells self.new ≡ tells self.old }
        ensures history { history self.new ≡ history self.old }
        ensures spare { spare self.new ≡ spare self.old }
        ensures cause { HasCause (faults self.old) (faults self.new) result };

    /// Puts the bytes from `at` on at the front of `buf`, as many as there are and as it has room
    /// for, and answers how many.
    ///
    /// `Fault` comes only where `faults` rose in this call. The disk stays as it was.
    fn read_at(&mut self, at: u64, buf: &mut [u8]) -> Result<usize, Fault>
        ensures bound { IfOk result (λ n. n ≤ length buf.old) }
        ensures bytes { IsTrue (tells self.old) → IfOk result (λ n. (n ≡ min (length buf.old) (length (history self.old).now.held - at))
            × (buf.new ≡ take n (drop at (history self.old).now.held) ++ drop n buf.old)) }
        ensures tells { tells self.new ≡ tells self.old }
        ensures history { history self.new ≡ history self.old }
        ensures spare { spare self.new ≡ spare self.old }
        ensures cause { HasCause (faults self.old) (faults self.new) result };

    /// Makes sure that the next `calls` writes and syncs, of at most `bytes` bytes each that end at
    /// or below `to`, take no memory. What was reserved before no longer counts.
    ///
    /// `AllocError` where there is no memory for it; what was reserved before then still counts. It
    /// is no call of the disk: what is held and `faults` stay.
    fn reserve(&mut self, to: u64, bytes: u64, calls: u32) -> Result<(), AllocError>
        ensures ok { OnOk result (spare self.new ≡ record { to = to; bytes = bytes; calls = calls }) }
        ensures err { OnErr result (spare self.new ≡ spare self.old) }
        ensures tells { tells self.new ≡ tells self.old }
        ensures history { history self.new ≡ history self.old }
        ensures faults { faults self.new ≡ faults self.old };

    /// Writes a piece at a place no greater than the length; the length grows to its end where that
    /// is greater.
    ///
    /// `Fault` comes only where `faults` rose in this call; then either nothing was begun, or the
    /// piece's range holds any bytes and the length is any from the one before to the piece's end.
    fn write_at(&mut self, at: u64, piece: &[u8]) -> Result<(), Fault>
        requires within { IsTrue (tells self.old) → at ≤ length (history self.old).now.held }
        requires covered { IsCovered (spare self.old) (at + length piece.now) (length piece.now) }

        ensures ok { IsTrue (tells self.old) → OnOk result (history self.new ≡ written at piece.now (history self.old)) }
        ensures err { IsTrue (tells self.old) → OnErr result (MayWrite at piece.now (history self.old) (history self.new)) }
        ensures tells { tells self.new ≡ tells self.old }
        ensures spare { Spends (spare self.old) (spare self.new) }
        ensures cause { HasCause (faults self.old) (faults self.new) result };

    /// Lets all that was written survive a crash.
    ///
    /// `Fault` comes only where `faults` rose in this call; what was written may then still be lost.
    fn sync(&mut self) -> Result<(), Fault>
        requires covered { IsCovered (spare self.old) 0 0 }

        ensures ok { IsTrue (tells self.old) → OnOk result (history self.new ≡ after_sync (history self.old)) }
        ensures err { IsTrue (tells self.old) → OnErr result (history self.new ≡ history self.old) }
        ensures tells { tells self.new ≡ tells self.old }
        ensures spare { Spends (spare self.old) (spare self.new) }
        ensures cause { HasCause (faults self.old) (faults self.new) result };

    // What a read gives is one of the images that a crash may leave now.
    ghost read_is_image: { (disk : Self) → IsTrue (tells disk) → IsImage (history disk).now (history disk).now.held };
}
