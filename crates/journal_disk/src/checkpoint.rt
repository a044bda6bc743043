//! A checkpoint: the entries that stand for all names so far, in the area that isn't current.

ghost use Rattle.std.specs.Prelude.{◌≡◌, ◌+◌, ◌≤◌, ◌^◌, List, false, Err, IsErrOf, IsTrue, OnOk};
ghost use Rattle.std.specs.List.{AllPass};
ghost use Rattle.outside.specs.Fuse.{IsBelow, burnt};
ghost use Rattle.journal_entry.specs.declared.entry.Entry.{Entry};
ghost use Rattle.journal_entry.specs.EntryText.{fits};
ghost use Rattle.journal_disk.specs.AreaText.{IsAreaText};
ghost use Rattle.journal_disk.specs.Areas.{IsBeforeOrAfter};
ghost use Rattle.journal_disk.specs.Journaling.{BothTell, GoesOn, HadCause, HasCheckpoint, HasFailed, IsFull, IsReady, LeavesAreas, StaysAs, checkpoint_calls, current_in, pieces_of, with_checkpoint};
ghost use Rattle.journal_disk.specs.declared.fault.AppendFault.TheVariants.{Failed, Full, Memory};

use crate::closing::replace;
use crate::fault::AppendFault;
use crate::journal::Journal;
use crate::text::{gate_behind, text_of};
use journal_entry::entry::Entries;
use outside::disk::Disk;
use std::alloc::Global;
use std::mem::swap;

// One for each started 65,536 bytes.
fn pieces(len: u64) -> u32
    requires { len ≤ 2 ^ 30 }
    ensures { result ≡ pieces_of len }
{
    len.div_ceil(65536) as u32
}

impl<D: Disk> Journal<D> {
    /// Writes these entries into the area that isn't current, under the next generation: its head gate
    /// is closed, or synced where it is closed already, and synced; all behind it is written, in writes
    /// of at most 65,536 bytes, and synced; and the head gate is opened and synced. Then that area is
    /// current. A fresh journal's first checkpoint goes into area 0 with generation 1.
    ///
    /// At every moment, each pair of images of both areas stands for the entries so far, or for these
    /// ones; after `Ok` for these. `Full` exactly where the area would be longer than the limit, or the
    /// generation is 2^64 - 1. `Memory` where there was no memory for it. Either changes nothing.
    /// `Failed` only where the own count of an area rose in this call, or the fuse was smaller than the
    /// calls: five, and one for each started 65,536 bytes behind the head gate. The checkpoint is then
    /// there or not, and the journal takes no more. The procedure is this project's own.
    pub fn checkpoint(&mut self, alloc: Global, entries: &Entries) -> Result<(), AppendFault>
        requires fit { AllPass fits entries.now }
        requires sound { self.old.failed ≡ false }

        // The journal stands for the given entries, in the other area, whose text they are.
        ensures acknowledged { OnOk result (IsReady D.Disk self.new entries.now) }
        ensures renewed { OnOk result (HasCheckpoint self.old self.new entries.now) }
        ensures text { OnOk result (IsTrue (D.tells self.old.there.disk) → IsAreaText (self.old.generation + 1) entries.now (D.history self.new.here.disk).now.held) }

        // A crash at any moment of the call leaves the entries so far, or the given ones.
        ensures any_moment { (was : List Entry) → IsReady D.Disk self.old was → BothTell D.Disk self.old
            → LeavesAreas D.Disk self.old self.new (IsBeforeOrAfter (current_in self.old was) (with_checkpoint self.old entries.now)) }
        ensures goes_on { GoesOn D.Disk self.old self.new }

        // What the fuse lost, and that it was enough.
        ensures burnt { OnOk result (self.new.here.fuse ≡ burnt (checkpoint_calls entries.now) self.old.here.fuse) }
        ensures enough { OnOk result (IsBelow self.old.here.fuse (checkpoint_calls entries.now) → ⊥) }

        // The causes of an error, and what stands after it.
        ensures failed { IsErrOf result Failed → HadCause (checkpoint_calls entries.now) D.Disk self.old self.new × HasFailed self.old self.new }
        ensures full { IsErrOf result Full → IsFull self.old entries.now }
        ensures unless { IsFull self.old entries.now → result ≡ Err Full }
        ensures full_stays { IsErrOf result Full → StaysAs D.Disk self.old self.new }
        ensures memory_stays { IsErrOf result Memory → StaysAs D.Disk self.old self.new }
    {
        if self.generation == u64::MAX {
            return Err(AppendFault::Full);
        }
        let Some(gate) = gate_behind(entries, self.limit) else {
            return Err(AppendFault::Full);
        };
        let text = text_of(alloc, self.generation + 1, entries)?;
        self.there.reserve(gate + 1, 65536, 5 + pieces(gate))?;
        let done = replace(&mut self.there, self.there_shut, &text);
        self.here.set_fuse(self.there.left());
        self.prepared = 0;
        match done {
            Ok(()) => {
                swap(&mut self.here, &mut self.there);
                self.second = !self.second;
                self.there_shut = self.here_shut;
                self.here_shut = false;
                self.fresh = false;
                self.generation += 1;
                self.gate = gate;
                Ok(())
            }
            Err(_) => {
                self.failed = true;
                Err(AppendFault::Failed)
            }
        }
    }
}
