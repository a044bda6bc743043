//! A new file, with its writer under a label.

ghost use Rattle.std.specs.Prelude.{◌≡◌, ◌+◌, IsErrOf, length, ◌<◌, true, false, pred, None, IfOk, OnOk, OnErr, option_map};
ghost use Rattle.fs_model.specs.declared.event.Event.{Event};
ghost use Rattle.fs_model.specs.declared.event.WriteType.{WriteType};
ghost use Rattle.fs_model.specs.declared.reply.Reply.{Reply};
ghost use Rattle.fs_model.specs.Spelled.{is_actor};
ghost use Rattle.journal_entry.specs.declared.entry.Entry.{Entry};
ghost use Rattle.journal_disk.specs.declared.fault.AppendFault.TheVariants.{Failed, Full, Memory};
ghost use Rattle.journal_entry.specs.EntryText.{entry_text};
ghost use Rattle.master_state.specs.Effect.{counts_in};
ghost use Rattle.master_state.specs.Places.{is_numbered_out, place_test};
ghost use Rattle.master_node.specs.Mastering.{IsUp, names_of, entered, standing_of};
ghost use Rattle.cluster_core.specs.Causes.{IsCaused};
ghost use Rattle.cluster_core.specs.Crashes.{Crashes};
ghost use Rattle.cluster_core.specs.Entering.{Entered, HasStopped, Stays};
ghost use Rattle.cluster_core.specs.Creating.{new_writer};
ghost use Rattle.cluster_core.specs.Openings.{here};
ghost use Rattle.cluster_core.specs.Goes.{Steps};
ghost use Rattle.cluster_core.specs.HandChanges.{AddsHand, KeepsHands};
ghost use Rattle.cluster_core.specs.Here.{started_here};
ghost use Rattle.cluster_core.specs.Media.{MediaStays};
ghost use Rattle.cluster_core.specs.Steady.{IsSteady};
ghost use Rattle.cluster_core.specs.Tests.{create_test};
ghost use Rattle.cluster_core.specs.Tiers.{ChangesAt};

use crate::cluster::Core;
use crate::hand::{Hand, Writer};
use crate::journaling::{enter, fault_reply};
use file_writer::writer::FileWriter;
use fs_model::label::Label;
use fs_model::numbers::{Actor, FileId, WorkerNo};
use fs_model::path::Path;
use fs_model::reply::{Refusal, Reply, Which};
use journal_disk::AppendFault;
use outside::disk::Disk;
use outside::objects::{ObjectWrite, Objects};

/// The length of the journal entry of a new file, without its path.
const CREATE_ENTRY: u64 = 15;

/// The most labels of one actor.
const LABELS: usize = 64;

/// The writer of a new file in blocks of `block` bytes.
fn fresh<W: ObjectWrite>(block: u32, file: FileId, worker: WorkerNo, started: u64) -> Writer<W>
    requires { 0 < block }
    ensures { result ≡ new_writer file worker started block }
{
    Writer {
        file,
        worker,
        started,
        bytes: FileWriter::new(block, Some(worker), None),
        room: None,
        broken: false,
    }
}

impl<D: Disk, O: Objects> Core<D, O, O::Reader, O::Writer> {
    /// How often the worker was started; number 0 counts as the first worker.
    fn started_of(&self, worker: WorkerNo) -> u64
        ensures { result ≡ started_here self.now.workers.items worker }
    {
        match self.workers.get((worker.0 as usize).saturating_sub(1)) {
            None => 0,
            Some(node) => node.started,
        }
    }

    /// Why a new file is refused, if it is.
    fn create_refusal(
        &self,
        actor: Actor,
        label: &Label,
        path: &Path,
        worker: WorkerNo,
    ) -> Option<Refusal>
        requires { is_actor actor ≡ true }
        ensures { option_map Reply.Refused result ≡ create_test self.now.master (here self.now.workers.items self.now.hands.items actor label.now worker) path.now }
    {
        if self.has_label(actor, label) {
            return Some(Refusal::BadLabel);
        }
        if self.master.is_stopped() {
            return Some(Refusal::Stopped);
        }
        let place = self.master.names().place_refusal(path);
        if place.is_some() {
            return place;
        }
        if worker.0 != 0 && !self.is_configured(worker) {
            return Some(Refusal::NoWorker(worker));
        }
        if self.master.names().is_full() {
            return Some(Refusal::Limit(Which::Nodes));
        }
        if self.label_count(actor) >= LABELS {
            return Some(Refusal::Limit(Which::Labels));
        }
        if self.master.names().is_numbered_out() {
            return Some(Refusal::Limit(Which::Ids));
        }
        if self.master.lacks_room(CREATE_ENTRY + path.text_len()) {
            return Some(Refusal::Limit(Which::Area));
        }
        if worker.0 != 0 && !self.is_live(worker) {
            return Some(Refusal::NoWorker(worker));
        }
        None
    }

    /// Journals a file that nothing refuses, and adds it; answers its number.
    fn make_file(&mut self, path: &Path) -> Result<FileId, AppendFault>
        requires stopped { IsUp self.old.master }
        requires place { place_test (names_of self.old.master) path.now ≡ None }
        requires number { is_numbered_out (names_of self.old.master) ≡ false }
        ensures done { OnOk result (Entered D.Disk (Entry.Create (names_of self.old.master).next_id path.now) self.old.master self.new.master) }
        ensures stopped { IsErrOf result Failed → HasStopped D.Disk 4 (entered (Entry.Create (names_of self.old.master).next_id path.now) (standing_of self.old.master)) self.old.master self.new.master }
        ensures short { IsErrOf result Memory → Stays D.Disk self.old.master self.new.master }
        ensures full { IsErrOf result Full → self.old.master.journal.limit < self.old.master.journal.gate + 2 + length (entry_text (Entry.Create (names_of self.old.master).next_id path.now)) }
        ensures counts { OnOk result (counts_in (Entry.Create (names_of self.old.master).next_id path.now) (names_of self.old.master) ≡ true) }
        ensures counted { IsErrOf result Failed → counts_in (Entry.Create (names_of self.old.master).next_id path.now) (names_of self.old.master) ≡ true }
        ensures id { IfOk result (λ id. id ≡ (names_of self.old.master).next_id) }
        ensures block { self.new.block ≡ self.old.block }
        ensures workers { self.new.workers ≡ self.old.workers }
        ensures hands { self.new.hands ≡ self.old.hands }
        ensures stores { self.new.stores ≡ self.old.stores }
    {
        let file = self.master.names().next_numbers().0;
        let entry = self.master.names().create(path)?;
        enter(&mut self.master, &entry)?;
        Ok(file)
    }

    /// Makes the file, and its writer under the label, where nothing refuses it. After an `Err` what is under each
    /// label is as it was.
    fn make_writer(
        &mut self,
        actor: Actor,
        label: &Label,
        path: &Path,
        worker: WorkerNo,
    ) -> Result<(), AppendFault>
        requires actor { is_actor actor ≡ true }
        requires passes { create_test self.old.master (here self.old.workers.items self.old.hands.items actor label.now worker) path.now ≡ None }
        ensures done { OnOk result (Entered D.Disk (Entry.Create (names_of self.old.master).next_id path.now) self.old.master self.new.master) }
        ensures stopped { IsErrOf result Failed → HasStopped D.Disk 4 (entered (Entry.Create (names_of self.old.master).next_id path.now) (standing_of self.old.master)) self.old.master self.new.master }
        ensures short { IsErrOf result Memory → Stays D.Disk self.old.master self.new.master }
        ensures full { IsErrOf result Full → self.old.master.journal.limit < self.old.master.journal.gate + 2 + length (entry_text (Entry.Create (names_of self.old.master).next_id path.now)) }
        ensures counts { OnOk result (counts_in (Entry.Create (names_of self.old.master).next_id path.now) (names_of self.old.master) ≡ true) }
        ensures counted { IsErrOf result Failed → counts_in (Entry.Create (names_of self.old.master).next_id path.now) (names_of self.old.master) ≡ true }
        ensures block { self.new.block ≡ self.old.block }
        ensures workers { self.new.workers ≡ self.old.workers }
        ensures stores { self.new.stores ≡ self.old.stores }
        ensures hands { OnOk result (ChangesAt self.old.hands.items self.new.hands.items (pred actor) (AddsHand label.now (Hand.Writing (new_writer (names_of self.old.master).next_id worker (started_here self.old.workers.items worker) self.old.block)))) }
        ensures same_hands { OnErr result (ChangesAt self.old.hands.items self.new.hands.items (pred actor) KeepsHands) }
    {
        self.reserve_hand(actor)?;
        let label = label.clone()?;
        let file = self.make_file(path)?;
        let started = self.started_of(worker);
        let writer = fresh(self.block, file, worker, started);
        self.add_hand(actor, label, Hand::Writing(writer));
        Ok(())
    }

    /// `create`: makes a file, with its writer under a label.
    pub(crate) fn create(
        &mut self,
        actor: Actor,
        label: &Label,
        path: &Path,
        worker: WorkerNo,
    ) -> Reply
        requires actor { is_actor actor ≡ true }
        requires some { 0 < worker }
        ensures steps { Steps D.Disk O.Objects O.Reader.ObjectRead O.Writer.ObjectWrite self.old self.new actor (Event.Create label.now path.now WriteType.MustCache worker) result }
        ensures media { MediaStays D.Disk O.Objects self.old self.new }
        ensures cause { IsCaused D.Disk O.Objects O.Reader.ObjectRead O.Writer.ObjectWrite self.old self.new actor (Event.Create label.now path.now WriteType.MustCache worker) result }
        ensures crash { Crashes D.Disk self.old self.new actor (Event.Create label.now path.now WriteType.MustCache worker) result }
        ensures steady { IsSteady D.Disk O.Objects O.Reader.ObjectRead O.Writer.ObjectWrite self.old → IsSteady D.Disk O.Objects O.Reader.ObjectRead O.Writer.ObjectWrite self.new }
    {
        if let Some(refusal) = self.create_refusal(actor, label, path, worker) {
            return Reply::Refused(refusal);
        }
        match self.make_writer(actor, label, path, worker) {
            Ok(()) => Reply::Done,
            Err(fault) => fault_reply(fault),
        }
    }
}
