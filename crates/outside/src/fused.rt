//! A disk with a fuse.

ghost use Rattle.std.specs.Prelude.{◌≡◌, ℕ, ◌+◌, ◌-◌, ◌≤◌, ◌++◌, length, take, drop, min, IfOk, IsTrue, OnOk, OnErr};
ghost use Rattle.std.specs.declared.option.Option.TheVariants.{None};
ghost use Rattle.outside.specs.Causes.{HasCause};
ghost use Rattle.outside.specs.Fuse.{Burns, Fusing, OnSpent};
ghost use Rattle.outside.specs.History.{IsCovered, MayWrite, Spends, after_sync, written};

use crate::disk::Disk;
use crate::stream::Fault;
use std::alloc::AllocError;
use std::marker::Model;

/// A disk, of which only so many further calls pass where a fuse is set.
///
/// A call that the fuse stops fails, and doesn't reach the disk; it counts in `blown`, not among
/// the disk's own faults. `reserve` is no call of the disk, and is neither counted nor stopped. This
/// project's own.
#[derive(Debug, Drop)]
pub struct Fused<D> {
    disk: D,
    fuse: Option<u64>,
    blown: u64,
}

impl<D> Model for Fused<D> {
    ghost Value = { Fusing D };

    ghost view = { λ f. record { disk = f.disk; fuse = f.fuse; blown = f.blown } };
}

impl<D> Fused<D> {
    /// The disk with no fuse.
    pub fn new(disk: D) -> Fused<D>
        ensures { result ≡ record { disk = disk; fuse = None; blown = 0 } }
    {
        Fused {
            disk,
            fuse: None,
            blown: 0,
        }
    }

    /// Sets the fuse to so many calls, 0 and up, or clears it.
    pub fn set_fuse(&mut self, calls: Option<u64>)
        ensures { self.new ≡ record self.old { fuse = calls } }
    {
        self.fuse = calls;
    }

    /// How many calls still pass; `None` where no fuse is set.
    pub fn left(&self) -> Option<u64>
        ensures { result ≡ self.now.fuse }
    {
        self.fuse
    }

    /// The disk by itself.
    pub fn into_disk(self) -> D
        ensures { result ≡ self.disk }
    {
        self.disk
    }

    // Counts one call, or stops it.
    fn pass(&mut self) -> Result<(), Fault>
        ensures disk { self.new.disk ≡ self.old.disk }
        ensures burns { Burns 1 self.old.fuse self.new.fuse 0 0 result }
        ensures cause { HasCause self.old.blown self.new.blown result }
    {
        if let Some(left) = self.fuse {
            if left == 0 {
                self.blown = self.blown.saturating_add(1);
                return Err(Fault);
            }
            self.fuse = Some(left - 1);
        }
        Ok(())
    }
}

impl<D: Disk> Disk for Fused<D> {
    ghost tells = { λ f. D.tells f.disk };

    ghost history = { λ f. D.history f.disk };

    ghost spare = { λ f. D.spare f.disk };

    ghost faults = { λ f. D.faults f.disk + f.blown };

    fn len(&mut self) -> Result<u64, Fault>
        ensures len { IsTrue (D.tells self.old.disk) → IfOk result (λ n. n ≡ length (D.history self.old.disk).now.held) }
        ensures tells { D.tells self.new.disk ≡ D.tells self.old.disk }
        ensures history { D.history self.new.disk ≡ D.history self.old.disk }
        ensures spare { D.spare self.new.disk ≡ D.spare self.old.disk }
        ensures cause { HasCause (D.faults self.old.disk + self.old.blown) (D.faults self.new.disk + self.new.blown) result }
        ensures spent { OnSpent self.old.fuse (self.new.disk ≡ self.old.disk) }
        ensures burns { Burns 1 self.old.fuse self.new.fuse (D.faults self.old.disk) (D.faults self.new.disk) result }
    {
        self.pass()?;
        self.disk.len()
    }

    fn read_at(&mut self, at: u64, buf: &mut [u8]) -> Result<usize, Fault>
        ensures bound { IfOk result (λ n. n ≤ length buf.old) }
        ensures bytes { IsTrue (D.tells self.old.disk) → IfOk result (λ n. (n ≡ min (length buf.old) (length (D.history self.old.disk).now.held - at))
            × (buf.new ≡ take n (drop at (D.history self.old.disk).now.held) ++ drop n buf.old)) }
        ensures tells { D.tells self.new.disk ≡ D.tells self.old.disk }
        ensures history { D.history self.new.disk ≡ D.history self.old.disk }
        ensures spare { D.spare self.new.disk ≡ D.spare self.old.disk }
        ensures cause { HasCause (D.faults self.old.disk + self.old.blown) (D.faults self.new.disk + self.new.blown) result }
        ensures spent { OnSpent self.old.fuse (self.new.disk ≡ self.old.disk) }
        ensures burns { Burns 1 self.old.fuse self.new.fuse (D.faults self.old.disk) (D.faults self.new.disk) result }
    {
        self.pass()?;
        self.disk.read_at(at, buf)
    }

    fn reserve(&mut self, to: u64, bytes: u64, calls: u32) -> Result<(), AllocError>
        ensures ok { OnOk result (D.spare self.new.disk ≡ record { to = to; bytes = bytes; calls = calls }) }
        ensures err { OnErr result (D.spare self.new.disk ≡ D.spare self.old.disk) }
        ensures tells { D.tells self.new.disk ≡ D.tells self.old.disk }
        ensures history { D.history self.new.disk ≡ D.history self.old.disk }
        ensures faults { D.faults self.new.disk + self.new.blown ≡ D.faults self.old.disk + self.old.blown }
        ensures own { D.faults self.new.disk ≡ D.faults self.old.disk }
        ensures fuse { self.new.fuse ≡ self.old.fuse }
    {
        self.disk.reserve(to, bytes, calls)
    }

    fn write_at(&mut self, at: u64, piece: &[u8]) -> Result<(), Fault>
        requires within { IsTrue (D.tells self.old.disk) → at ≤ length (D.history self.old.disk).now.held }
        requires covered { IsCovered (D.spare self.old.disk) (at + length piece.now) (length piece.now) }

        ensures ok { IsTrue (D.tells self.old.disk) → OnOk result (D.history self.new.disk ≡ written at piece.now (D.history self.old.disk)) }
        ensures err { IsTrue (D.tells self.old.disk) → OnErr result (MayWrite at piece.now (D.history self.old.disk) (D.history self.new.disk)) }
        ensures tells { D.tells self.new.disk ≡ D.tells self.old.disk }
        ensures spare { Spends (D.spare self.old.disk) (D.spare self.new.disk) }
        ensures cause { HasCause (D.faults self.old.disk + self.old.blown) (D.faults self.new.disk + self.new.blown) result }
        ensures spent { OnSpent self.old.fuse (self.new.disk ≡ self.old.disk) }
        ensures burns { Burns 1 self.old.fuse self.new.fuse (D.faults self.old.disk) (D.faults self.new.disk) result }
    {
        self.pass()?;
        self.disk.write_at(at, piece)
    }

    fn sync(&mut self) -> Result<(), Fault>
        requires covered { IsCovered (D.spare self.old.disk) 0 0 }

        ensures ok { IsTrue (D.tells self.old.disk) → OnOk result (D.history self.new.disk ≡ after_sync (D.history self.old.disk)) }
        ensures err { IsTrue (D.tells self.old.disk) → OnErr result (D.history self.new.disk ≡ D.history self.old.disk) }
        ensures tells { D.tells self.new.disk ≡ D.tells self.old.disk }
        ensures spare { Spends (D.spare self.old.disk) (D.spare self.new.disk) }
        ensures cause { HasCause (D.faults self.old.disk + self.old.blown) (D.faults self.new.disk + self.new.blown) result }
        ensures spent { OnSpent self.old.fuse (self.new.disk ≡ self.old.disk) }
        ensures burns { Burns 1 self.old.fuse self.new.fuse (D.faults self.old.disk) (D.faults self.new.disk) result }
    {
        self.pass()?;
        self.disk.sync()
    }

    ghost read_is_image = { λ f tells. D.read_is_image f.disk tells };
}
