//! What the core does at each event on names.

ghost use Rattle.std.specs.Prelude.{◌≡◌, ◌<◌, ◌+◌, IsErrOf, length, true, Some, None, OnOk, option_map};
ghost use Rattle.fs_model.specs.declared.event.Event.{Event};
ghost use Rattle.fs_model.specs.declared.reply.Reply.{Reply};
ghost use Rattle.journal_entry.specs.declared.entry.Entry.{Entry};
ghost use Rattle.journal_disk.specs.declared.fault.AppendFault.TheVariants.{Failed, Full, Memory};
ghost use Rattle.journal_entry.specs.EntryText.{entry_text};
ghost use Rattle.master_state.specs.Effect.{counts_in};
ghost use Rattle.master_node.specs.Mastering.{names_of, entered, standing_of};
ghost use Rattle.cluster_core.specs.Causes.{IsCaused};
ghost use Rattle.cluster_core.specs.Crashes.{Crashes};
ghost use Rattle.cluster_core.specs.Entering.{Entered, HasStopped, Stays};
ghost use Rattle.cluster_core.specs.Tests.{mkdir_test};
ghost use Rattle.cluster_core.specs.Goes.{Steps};
ghost use Rattle.cluster_core.specs.Media.{MediaStays};
ghost use Rattle.cluster_core.specs.Steady.{IsSteady};

use crate::cluster::Core;
use crate::journaling::{enter, fault_reply};
use fs_model::items::Items;
use fs_model::numbers::Actor;
use fs_model::path::Path;
use fs_model::reply::{Refusal, Reply, Which};
use inode_tree::row::Walk;
use journal_disk::AppendFault;
use outside::disk::Disk;
use outside::objects::Objects;
use std::alloc::Global;

/// The length of the journal entry of a new directory, without its path: its length, its kind and the path's length.
const MKDIR_ENTRY: u64 = 7;

impl<D: Disk, O: Objects> Core<D, O, O::Reader, O::Writer> {
    /// Why a new directory is refused, if it is.
    fn mkdir_refusal(&self, path: &Path) -> Option<Refusal>
        ensures { option_map Reply.Refused result ≡ mkdir_test self.now.master path.now }
    {
        if self.master.is_stopped() {
            return Some(Refusal::Stopped);
        }
        let place = self.master.names().place_refusal(path);
        if place.is_some() {
            return place;
        }
        if self.master.names().is_full() {
            return Some(Refusal::Limit(Which::Nodes));
        }
        if self.master.lacks_room(MKDIR_ENTRY + path.text_len()) {
            return Some(Refusal::Limit(Which::Area));
        }
        None
    }

    /// Journals a directory that nothing refuses, and adds it.
    fn make_directory(&mut self, path: &Path) -> Result<(), AppendFault>
        requires { mkdir_test self.old.master path.now ≡ None }
        ensures done { OnOk result (Entered D.Disk (Entry.Mkdir path.now) self.old.master self.new.master) }
        ensures stopped { IsErrOf result Failed → HasStopped D.Disk 4 (entered (Entry.Mkdir path.now) (standing_of self.old.master)) self.old.master self.new.master }
        ensures short { IsErrOf result Memory → Stays D.Disk self.old.master self.new.master }
        ensures full { IsErrOf result Full → self.old.master.journal.limit < self.old.master.journal.gate + 2 + length (entry_text (Entry.Mkdir path.now)) }
        ensures counts { OnOk result (counts_in (Entry.Mkdir path.now) (names_of self.old.master) ≡ true) }
        ensures counted { IsErrOf result Failed → counts_in (Entry.Mkdir path.now) (names_of self.old.master) ≡ true }
        ensures block { self.new.block ≡ self.old.block }
        ensures workers { self.new.workers ≡ self.old.workers }
        ensures hands { self.new.hands ≡ self.old.hands }
        ensures stores { self.new.stores ≡ self.old.stores }
    {
        let entry = self.master.names().mkdir(path)?;
        enter(&mut self.master, &entry)
    }

    /// `mkdir`: adds a directory.
    pub(crate) fn mkdir(&mut self, actor: Actor, path: &Path) -> Reply
        ensures steps { Steps D.Disk O.Objects O.Reader.ObjectRead O.Writer.ObjectWrite self.old self.new actor (Event.Mkdir path.now) result }
        ensures media { MediaStays D.Disk O.Objects self.old self.new }
        ensures cause { IsCaused D.Disk O.Objects O.Reader.ObjectRead O.Writer.ObjectWrite self.old self.new actor (Event.Mkdir path.now) result }
        ensures crash { Crashes D.Disk self.old self.new actor (Event.Mkdir path.now) result }
        ensures steady { IsSteady D.Disk O.Objects O.Reader.ObjectRead O.Writer.ObjectWrite self.old → IsSteady D.Disk O.Objects O.Reader.ObjectRead O.Writer.ObjectWrite self.new }
    {
        if let Some(refusal) = self.mkdir_refusal(path) {
            return Reply::Refused(refusal);
        }
        match self.make_directory(path) {
            Ok(()) => Reply::Done,
            Err(fault) => fault_reply(fault),
        }
    }

    /// `ls`: the names in a directory.
    pub(crate) fn list(&self, alloc: Global, actor: Actor, path: &Path) -> Reply
        ensures steps { Steps D.Disk O.Objects O.Reader.ObjectRead O.Writer.ObjectWrite self.now self.now actor (Event.List path.now) result }
        ensures cause { IsCaused D.Disk O.Objects O.Reader.ObjectRead O.Writer.ObjectWrite self.now self.now actor (Event.List path.now) result }
    {
        if self.master.is_stopped() {
            return Reply::Refused(Refusal::Stopped);
        }
        match self.master.names().walk(path) {
            Walk::Absent => Reply::Refused(Refusal::NotFound),
            Walk::Blocked => Reply::Refused(Refusal::NotDirectory),
            Walk::Found(row) => {
                if !row.dir {
                    return Reply::Refused(Refusal::NotDirectory);
                }
                match self.master.names().list(alloc, path) {
                    Ok(names) => Reply::Names(Items::from_vec(names)),
                    Err(_) => Reply::Refused(Refusal::Memory),
                }
            }
        }
    }
}
