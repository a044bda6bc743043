//! The names as a checkpoint of the journal.

ghost use Rattle.std.specs.Prelude.{◌≡◌, ◌⊎◌, Err, IsErrOf, OnErr, OnOk};
ghost use Rattle.outside.specs.Fuse.{IsBelow, burnt};
ghost use Rattle.journal_entry.specs.Meaning.{checkpoint_entries};
ghost use Rattle.journal_disk.specs.Journaling.{BothTell, GoesOn, HadCause, HasCheckpoint, HasFailed, IsFull, StaysAs, checkpoint_calls};
ghost use Rattle.journal_disk.specs.declared.fault.AppendFault.TheVariants.{Failed, Full, Memory};
ghost use Rattle.master_node.specs.Mastering.{IsKept, IsUp, LeavesStanding, names_of, standing_of, renewed};

use crate::master::Master;
use journal_disk::AppendFault;
use outside::disk::Disk;
use std::alloc::Global;

impl<D: Disk> Master<D> {
    /// Writes the names as a checkpoint into the area that isn't current, which is then current.
    ///
    /// The names stay as they are, and at every moment each pair of images of both areas stands for them.
    /// `Full` exactly where the checkpoint would be longer than the limit, or the generation has no next
    /// one; `Memory` where there was no memory for it: neither changes an area. `Failed` only where the
    /// own count of an area rose in this call or the fuse was smaller than the checkpoint's calls; the
    /// checkpoint is then in doubt and the master is stopped.
    pub fn checkpoint(&mut self, alloc: Global) -> Result<(), AppendFault>
        requires up { IsUp self.old }

        ensures kept { self.new.kept ≡ self.old.kept }
        ensures renewed { OnOk result (HasCheckpoint self.old.journal self.new.journal (checkpoint_entries (names_of self.old))) }
        ensures any_moment { BothTell D.Disk self.old.journal → LeavesStanding D.Disk self.old self.new (renewed (standing_of self.old)) }
        ensures later { OnOk result (IsKept D.Disk self.new) }
        ensures goes_on { GoesOn D.Disk self.old.journal self.new.journal }
        ensures burnt { OnOk result (self.new.journal.here.fuse ≡ burnt (checkpoint_calls (checkpoint_entries (names_of self.old))) self.old.journal.here.fuse) }
        ensures enough { OnOk result (IsBelow self.old.journal.here.fuse (checkpoint_calls (checkpoint_entries (names_of self.old))) → ⊥) }
        ensures failed { IsErrOf result Failed → HadCause (checkpoint_calls (checkpoint_entries (names_of self.old))) D.Disk self.old.journal self.new.journal × HasFailed self.old.journal self.new.journal }
        ensures full { IsErrOf result Full → IsFull self.old.journal (checkpoint_entries (names_of self.old)) }
        ensures unless { IsFull self.old.journal (checkpoint_entries (names_of self.old)) → (result ≡ Err Full) ⊎ (result ≡ Err Memory) }
        ensures full_stays { IsErrOf result Full → StaysAs D.Disk self.old.journal self.new.journal }
        ensures memory_stays { IsErrOf result Memory → StaysAs D.Disk self.old.journal self.new.journal }
    {
        let entries = self.names.entries(alloc)?;
        match self.journal.checkpoint(alloc, &entries) {
            Ok(()) => Ok(()),
            Err(fault) => Err(fault),
        }
    }
}
