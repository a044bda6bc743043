//! The end of a writer: its file is done.

ghost use Rattle.std.specs.Prelude.{◌≡◌, ◌<◌, ◌≤◌, ◌+◌, true, false, not, pred, length, Some, None, IfNone, IsErrOf, OnOk, option_map};
ghost use Rattle.fs_model.specs.declared.event.Event.{Event};
ghost use Rattle.fs_model.specs.declared.reply.Reply.{Reply};
ghost use Rattle.fs_model.specs.Spelled.{is_actor};
ghost use Rattle.journal_entry.specs.declared.entry.Entry.{Entry};
ghost use Rattle.journal_entry.specs.EntryText.{entry_text, fits};
ghost use Rattle.journal_disk.specs.Journaling.{IsPrepared};
ghost use Rattle.journal_disk.specs.declared.fault.AppendFault.TheVariants.{Failed, Full};
ghost use Rattle.master_state.specs.Effect.{counts_in};
ghost use Rattle.master_state.specs.View.{need_of};
ghost use Rattle.master_node.specs.Mastering.{IsUp, entered, names_of, standing_of};
ghost use Rattle.cluster_core.specs.Causes.{IsCaused, JournalCaused, OnlyFrom, TierCounted};
ghost use Rattle.cluster_core.specs.Crashes.{Crashes, Leads, done_entry};
ghost use Rattle.cluster_core.specs.Entering.{Stays};
ghost use Rattle.cluster_core.specs.Goes.{Steps};
ghost use Rattle.cluster_core.specs.Media.{MediaStays};
ghost use Rattle.cluster_core.specs.Steady.{IsHandSteady, IsSteady};
ghost use Rattle.cluster_core.specs.Writers.{MayPut, StepsFrom, finish_test};
ghost use Rattle.cluster_core.specs.declared.hand.Hand.{Hand};

use crate::cluster::Core;
use crate::hand::Writer;
use crate::journaling::{enter_ready, fault_reply};
use fs_model::label::Label;
use fs_model::numbers::Actor;
use fs_model::reply::{Refusal, Reply, Which};
use journal_disk::AppendFault;
use journal_entry::entry::Entry;
use outside::disk::Disk;
use outside::objects::Objects;
use outside::world::Fail;
use std::alloc::Global;

/// The length of the journal entry of a file that is done.
const DONE_ENTRY: u64 = 30;

impl<D: Disk, O: Objects> Core<D, O, O::Reader, O::Writer> {
    /// Why a writer's file can't be done, if it can't. No writer has a file that is done already.
    fn finish_refusal(&self, writer: &Writer<O::Writer>) -> Option<Refusal>
        ensures refused { option_map Reply.Refused result ≡ finish_test self.now.master self.now.workers.items writer.now }
        ensures some { IfNone result (0 < writer.now.worker) }
        ensures there { IfNone result (pred writer.now.worker < length self.now.workers.items) }
    {
        if self.master.is_stopped() {
            return Some(Refusal::Stopped);
        }
        if !self.master.names().is_undone(writer.file) {
            return Some(Refusal::NotFound);
        }
        if self.master.lacks_room(DONE_ENTRY) {
            return Some(Refusal::Limit(Which::Area));
        }
        if !self.runs_since(writer.worker, writer.started) {
            return Some(Refusal::NoWorker(writer.worker));
        }
        None
    }

    /// Makes ready what the entry of a file that is done needs, so that journaling it takes no memory. No area is called.
    fn prepare_done(&mut self, entry: &Entry) -> Result<(), AppendFault>
        requires fits { fits entry.now ≡ true }
        requires up { IsUp self.old.master }
        ensures stays { Stays D.Disk self.old.master self.new.master }
        ensures ready { OnOk result (self.new.master.kept.ready ≡ need_of entry.now) }
        ensures spare { OnOk result (IsPrepared self.new.master.journal entry.now) }
        ensures within { IsErrOf result Full → self.old.master.journal.limit < self.old.master.journal.gate + 2 + length (entry_text entry.now) }
        ensures failed { IsErrOf result Failed → ⊥ }
        ensures block { self.new.block ≡ self.old.block }
        ensures workers { self.new.workers ≡ self.old.workers }
        ensures hands { self.new.hands ≡ self.old.hands }
        ensures stores { self.new.stores ≡ self.old.stores }
    {
        self.master.prepare(entry)
    }

    /// The end of a writer that was taken out of its label, where nothing refuses it and its entry was made ready.
    fn finish_ready(
        &mut self,
        alloc: Global,
        actor: Actor,
        label: Label,
        mut writer: Writer<O::Writer>,
        entry: &Entry,
    ) -> Reply
        requires actor { is_actor actor ≡ true }
        requires back { MayPut self.old.hands.items actor label }
        requires passes { finish_test self.old.master self.old.workers.items writer ≡ None }
        requires some { 0 < writer.worker }
        requires there { pred writer.worker < length self.old.workers.items }
        requires entry { entry.now ≡ done_entry writer }
        requires fits { fits entry.now ≡ true }
        requires counts { counts_in entry.now (names_of self.old.master) ≡ true }
        requires ready { self.old.master.kept.ready ≡ need_of entry.now }
        requires spare { IsPrepared self.old.master.journal entry.now }
        ensures steps { StepsFrom D.Disk O.Objects O.Reader.ObjectRead O.Writer.ObjectWrite self.old self.new actor label writer (Event.Finish label) result }
        ensures media { MediaStays D.Disk O.Objects self.old self.new }
        ensures cause { OnlyFrom (TierCounted O.Objects self.old self.new) (JournalCaused D.Disk self.old.master self.new.master (Event.Finish label)) result }
        ensures leads { Leads D.Disk self.old.master self.new.master (entered (done_entry writer) (standing_of self.old.master)) result }
        ensures steady { IsSteady D.Disk O.Objects O.Reader.ObjectRead O.Writer.ObjectWrite self.old → IsHandSteady O.Reader.ObjectRead O.Writer.ObjectWrite (Hand.Writing writer) → IsSteady D.Disk O.Objects O.Reader.ObjectRead O.Writer.ObjectWrite self.new }
    {
        let worker = writer.worker;
        match self.commit_block(alloc, &mut writer) {
            Ok(()) => match enter_ready(&mut self.master, entry) {
                Ok(()) => Reply::Done,
                Err(fault) => {
                    writer.broken = true;
                    self.put_writer(actor, label, writer, fault_reply(fault))
                }
            },
            Err(Fail::Memory) => {
                self.put_writer(actor, label, writer, Reply::Refused(Refusal::Memory))
            }
            Err(Fail::Failed) => {
                let fault = Reply::Refused(Refusal::TierFault(worker));
                self.put_writer(actor, label, writer, fault)
            }
        }
    }

    /// The end of a writer that was taken out of its label.
    ///
    /// What its entry needs is made ready before the block is committed, so that no want of memory comes between that
    /// and the entry.
    fn finish_for(
        &mut self,
        alloc: Global,
        actor: Actor,
        label: Label,
        writer: Writer<O::Writer>,
    ) -> Reply
        requires actor { is_actor actor ≡ true }
        requires back { MayPut self.old.hands.items actor label }
        ensures steps { StepsFrom D.Disk O.Objects O.Reader.ObjectRead O.Writer.ObjectWrite self.old self.new actor label writer (Event.Finish label) result }
        ensures media { MediaStays D.Disk O.Objects self.old self.new }
        ensures cause { OnlyFrom (TierCounted O.Objects self.old self.new) (JournalCaused D.Disk self.old.master self.new.master (Event.Finish label)) result }
        ensures leads { Leads D.Disk self.old.master self.new.master (entered (done_entry writer) (standing_of self.old.master)) result }
        ensures steady { IsSteady D.Disk O.Objects O.Reader.ObjectRead O.Writer.ObjectWrite self.old → IsHandSteady O.Reader.ObjectRead O.Writer.ObjectWrite (Hand.Writing writer) → IsSteady D.Disk O.Objects O.Reader.ObjectRead O.Writer.ObjectWrite self.new }
    {
        if let Some(refusal) = self.finish_refusal(&writer) {
            return self.put_writer(actor, label, writer, Reply::Refused(refusal));
        }
        let entry = self.master.names().finish(writer.file, writer.bytes.len());
        match self.prepare_done(&entry) {
            Ok(()) => self.finish_ready(alloc, actor, label, writer, &entry),
            Err(fault) => self.put_writer(actor, label, writer, fault_reply(fault)),
        }
    }

    /// `done`: commits the open block of a writer, journals that its file is done, and ends its label.
    ///
    /// After a fault of the journal the block is a copy, the label is broken, and the master is stopped: whether the file
    /// is done is in doubt until the areas are opened again.
    pub(crate) fn finish(&mut self, alloc: Global, actor: Actor, label: &Label) -> Reply
        requires { is_actor actor ≡ true }
        ensures steps { Steps D.Disk O.Objects O.Reader.ObjectRead O.Writer.ObjectWrite self.old self.new actor (Event.Finish label.now) result }
        ensures media { MediaStays D.Disk O.Objects self.old self.new }
        ensures cause { IsCaused D.Disk O.Objects O.Reader.ObjectRead O.Writer.ObjectWrite self.old self.new actor (Event.Finish label.now) result }
        ensures crash { Crashes D.Disk self.old self.new actor (Event.Finish label.now) result }
        ensures steady { IsSteady D.Disk O.Objects O.Reader.ObjectRead O.Writer.ObjectWrite self.old → IsSteady D.Disk O.Objects O.Reader.ObjectRead O.Writer.ObjectWrite self.new }
    {
        match self.take_writer(actor, label) {
            None => Reply::Refused(Refusal::BadLabel),
            Some((label, writer)) => self.finish_for(alloc, actor, label, writer),
        }
    }
}
