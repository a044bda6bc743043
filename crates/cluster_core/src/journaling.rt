//! What the core does with its master's journal.

ghost use Rattle.std.specs.Prelude.{◌≡◌, ◌<◌, ◌+◌, true, Some, OnOk, IsErrOf, length};
ghost use Rattle.fs_model.specs.declared.event.Event.{Event};
ghost use Rattle.journal_disk.specs.Journaling.{IsFull, IsPrepared, checkpoint_calls};
ghost use Rattle.journal_entry.specs.EntryText.{entry_text, fits};
ghost use Rattle.journal_entry.specs.Meaning.{checkpoint_entries};
ghost use Rattle.journal_disk.specs.declared.fault.AppendFault.TheVariants.{Failed, Full, Memory};
ghost use Rattle.master_state.specs.View.{need_of};
ghost use Rattle.master_node.specs.Mastering.{IsUp, entered, names_of, renewed, standing_of};
ghost use Rattle.cluster_core.specs.Causes.{IsCaused};
ghost use Rattle.cluster_core.specs.Crashes.{Crashes};
ghost use Rattle.cluster_core.specs.Entering.{Entered, HasStopped, Renewed, Stays, fault_reply};
ghost use Rattle.cluster_core.specs.Goes.{Steps};
ghost use Rattle.cluster_core.specs.Media.{MediaStays};
ghost use Rattle.cluster_core.specs.Steady.{IsSteady};

use crate::cluster::Core;
use fs_model::numbers::Actor;
use fs_model::reply::{Refusal, Reply, Which};
use journal_disk::AppendFault;
use journal_entry::entry::Entry;
use master_node::Master;
use outside::disk::Disk;
use outside::objects::Objects;
use std::alloc::Global;

/// The answer where the journal takes no entry or no checkpoint.
pub(crate) fn fault_reply(fault: AppendFault) -> Reply
    ensures { result ≡ fault_reply fault }
{
    match fault {
        AppendFault::Full => Reply::Refused(Refusal::Limit(Which::Area)),
        AppendFault::Failed => Reply::Refused(Refusal::JournalFault),
        AppendFault::Memory => Reply::Refused(Refusal::Memory),
    }
}

/// Journals an entry, and does what it stands for, as `Master::names_event` does.
pub(crate) fn enter<D: Disk>(master: &mut Master<D>, entry: &Entry) -> Result<(), AppendFault>
    requires fits { fits entry.now ≡ true }
    requires up { IsUp master.old }
    ensures done { OnOk result (Entered D.Disk entry.now master.old master.new) }
    ensures stopped { IsErrOf result Failed → HasStopped D.Disk 4 (entered entry.now (standing_of master.old)) master.old master.new }
    ensures short { IsErrOf result Memory → Stays D.Disk master.old master.new }
    ensures full { IsErrOf result Full → master.old.journal.limit < master.old.journal.gate + 2 + length (entry_text entry.now) }
{
    master.names_event(entry)
}

/// Journals an entry that was made ready, and does what it stands for, as `Master::go_on` does.
pub(crate) fn enter_ready<D: Disk>(master: &mut Master<D>, entry: &Entry) -> Result<(), AppendFault>
    requires fits { fits entry.now ≡ true }
    requires up { IsUp master.old }
    requires ready { master.old.kept.ready ≡ need_of entry.now }
    requires spare { IsPrepared master.old.journal entry.now }
    ensures done { OnOk result (Entered D.Disk entry.now master.old master.new) }
    ensures stopped { IsErrOf result Failed → HasStopped D.Disk 4 (entered entry.now (standing_of master.old)) master.old master.new }
    ensures short { IsErrOf result Memory → Stays D.Disk master.old master.new }
    ensures full { IsErrOf result Full → master.old.journal.limit < master.old.journal.gate + 2 + length (entry_text entry.now) }
    ensures spared { IsErrOf result Memory → ⊥ }
{
    master.go_on(entry)
}

/// Writes the names as a checkpoint, as `Master::checkpoint` does.
fn renew<D: Disk>(alloc: Global, master: &mut Master<D>) -> Result<(), AppendFault>
    requires { IsUp master.old }
    ensures done { OnOk result (Renewed D.Disk master.old master.new) }
    ensures stopped { IsErrOf result Failed → HasStopped D.Disk (checkpoint_calls (checkpoint_entries (names_of master.old))) (renewed (standing_of master.old)) master.old master.new }
    ensures fits { IsErrOf result Failed → IsFull master.old.journal (checkpoint_entries (names_of master.old)) → ⊥ }
    ensures short { IsErrOf result Memory → Stays D.Disk master.old master.new }
    ensures full { IsErrOf result Full → IsFull master.old.journal (checkpoint_entries (names_of master.old)) × Stays D.Disk master.old master.new }
{
    master.checkpoint(alloc)
}

impl<D: Disk, O: Objects> Core<D, O, O::Reader, O::Writer> {
    /// `checkpoint`: writes the names as a checkpoint into the area that isn't current.
    pub(crate) fn checkpoint(&mut self, alloc: Global, actor: Actor) -> Reply
        ensures steps { Steps D.Disk O.Objects O.Reader.ObjectRead O.Writer.ObjectWrite self.old self.new actor Event.Checkpoint result }
        ensures media { MediaStays D.Disk O.Objects self.old self.new }
        ensures cause { IsCaused D.Disk O.Objects O.Reader.ObjectRead O.Writer.ObjectWrite self.old self.new actor Event.Checkpoint result }
        ensures crash { Crashes D.Disk self.old self.new actor Event.Checkpoint result }
        ensures steady { IsSteady D.Disk O.Objects O.Reader.ObjectRead O.Writer.ObjectWrite self.old → IsSteady D.Disk O.Objects O.Reader.ObjectRead O.Writer.ObjectWrite self.new }
    {
        if self.master.is_stopped() {
            return Reply::Refused(Refusal::Stopped);
        }
        match renew(alloc, &mut self.master) {
            Ok(()) => Reply::Done,
            Err(fault) => fault_reply(fault),
        }
    }

    /// `fuse`: lets so many calls of areas pass, until an opening; each further one fails with nothing done.
    pub(crate) fn set_fuse(&mut self, actor: Actor, calls: u64) -> Reply
        ensures steps { Steps D.Disk O.Objects O.Reader.ObjectRead O.Writer.ObjectWrite self.old self.new actor (Event.Fuse calls) result }
        ensures media { MediaStays D.Disk O.Objects self.old self.new }
        ensures cause { IsCaused D.Disk O.Objects O.Reader.ObjectRead O.Writer.ObjectWrite self.old self.new actor (Event.Fuse calls) result }
        ensures crash { Crashes D.Disk self.old self.new actor (Event.Fuse calls) result }
        ensures steady { IsSteady D.Disk O.Objects O.Reader.ObjectRead O.Writer.ObjectWrite self.old → IsSteady D.Disk O.Objects O.Reader.ObjectRead O.Writer.ObjectWrite self.new }
    {
        self.master.set_fuse(Some(calls));
        Reply::Done
    }
}
