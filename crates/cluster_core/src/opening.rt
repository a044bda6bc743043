//! Opening a file for reading.

ghost use Rattle.std.specs.Prelude.{◌≡◌, ◌<◌, ◌*◌, ◌^◌, true, false, pred, slice_get, nat_lt, Some, None, IfOk, IfErr, OnOk, IsSomeAnd};
ghost use Rattle.fs_model.specs.declared.event.Event.{Event};
ghost use Rattle.fs_model.specs.declared.event.ReadType.{ReadType};
ghost use Rattle.fs_model.specs.declared.reply.Reply.{Reply};
ghost use Rattle.fs_model.specs.Spelled.{is_actor};
ghost use Rattle.fs_model.specs.Words.{block_count};
ghost use Rattle.inode_tree.specs.Rows.{file_in_row};
ghost use Rattle.cluster_core.specs.Causes.{IsCaused};
ghost use Rattle.cluster_core.specs.Goes.{Steps};
ghost use Rattle.cluster_core.specs.HandChanges.{KeepsHands};
ghost use Rattle.cluster_core.specs.Kept.{KeepsRest};
ghost use Rattle.cluster_core.specs.LabelsView.{HasRoom};
ghost use Rattle.cluster_core.specs.Media.{MediaStays};
ghost use Rattle.cluster_core.specs.Steady.{IsSteady};
ghost use Rattle.cluster_core.specs.Openings.{has_here, here};
ghost use Rattle.cluster_core.specs.Tests.{done_test, file_there, open_test};
ghost use Rattle.cluster_core.specs.Tiers.{ChangesAt};

use crate::cluster::Core;
use crate::hand::{Hand, Stream};
use fs_model::label::Label;
use fs_model::numbers::{Actor, FileId, WorkerNo};
use fs_model::path::Path;
use fs_model::reply::{Refusal, Reply, Which};
use inode_tree::row::{Row, Walk};
use master_node::Master;
use outside::disk::Disk;
use outside::objects::Objects;
use std::alloc::AllocError;

/// The most labels that an actor may have.
const LABELS: usize = 64;

/// The most blocks that a file may have.
const BLOCKS: u64 = 65_536;

/// The row of the file at the path, where one is there and is done.
fn done_file<D: Disk>(master: &Master<D>, path: &Path) -> Result<Row, Refusal>
    ensures ok { IfOk result (λ row. (done_test master.now path.now ≡ None) × (file_there master.now path.now ≡ Some (file_in_row row)) × (row.done ≡ true)) }
    ensures err { IfErr result (λ why. done_test master.now path.now ≡ Some (Reply.Refused why)) }
{
    match master.names().walk(path) {
        Walk::Absent => Err(Refusal::NotFound),
        Walk::Blocked => Err(Refusal::NotDirectory),
        Walk::Found(row) => {
            if row.dir {
                return Err(Refusal::IsDirectory);
            }
            if !row.done {
                return Err(Refusal::Incomplete);
            }
            Ok(row)
        }
    }
}

/// Whether a file of `len` bytes has more blocks than a file may have.
fn is_past(len: u64, block: u32) -> bool
    requires { 0 < block }
    ensures { result ≡ nat_lt 65536 (block_count len block) }
{
    len > BLOCKS * block as u64
}

impl<D: Disk, O: Objects> Core<D, O, O::Reader, O::Writer> {
    /// The row of the file at the path, where the actor may open it for the worker under the label.
    fn row_to_open(
        &self,
        actor: Actor,
        label: &Label,
        path: &Path,
        worker: WorkerNo,
    ) -> Result<Row, Refusal>
        requires { is_actor actor ≡ true }
        ensures ok { IfOk result (λ row. (open_test self.now.block self.now.master (here self.now.workers.items self.now.hands.items actor label.now worker) path.now ≡ None) × (file_there self.now.master path.now ≡ Some (file_in_row row)) × (row.done ≡ true)) }
        ensures free { OnOk result (has_here self.now.hands.items actor label.now ≡ false) }
        ensures err { IfErr result (λ why. open_test self.now.block self.now.master (here self.now.workers.items self.now.hands.items actor label.now worker) path.now ≡ Some (Reply.Refused why)) }
    {
        if self.has_label(actor, label) {
            return Err(Refusal::BadLabel);
        }
        if self.master.is_stopped() {
            return Err(Refusal::Stopped);
        }
        let row = done_file(&self.master, path)?;
        if worker.0 != 0 && !self.is_configured(worker) {
            return Err(Refusal::NoWorker(worker));
        }
        if self.label_count(actor) >= LABELS {
            return Err(Refusal::Limit(Which::Labels));
        }
        if is_past(row.len, self.block) {
            return Err(Refusal::Limit(Which::Blocks));
        }
        Ok(row)
    }

    /// Makes room for one label more of the actor, and a copy of it. An `Err` is want of memory. Either way each label
    /// has what it had.
    fn prepare_label(&mut self, actor: Actor, label: &Label) -> Result<Label, AllocError>
        requires { is_actor actor ≡ true }
        ensures rest { KeepsRest self.old self.new }
        ensures workers { self.new.workers ≡ self.old.workers }
        ensures hands { ChangesAt self.old.hands.items self.new.hands.items (pred actor) KeepsHands }
        ensures room { OnOk result (IsSomeAnd (slice_get self.new.hands.items (pred actor)) HasRoom) }
        ensures label { IfOk result (λ copy. copy ≡ label.now) }
    {
        self.reserve_hand(actor)?;
        let copy = label.clone()?;
        Ok(copy)
    }

    /// `open`: a stream over a file that is done, at its first byte.
    pub(crate) fn open_file(
        &mut self,
        actor: Actor,
        label: &Label,
        path: &Path,
        worker: WorkerNo,
    ) -> Reply
        requires { is_actor actor ≡ true }
        ensures steps { Steps D.Disk O.Objects O.Reader.ObjectRead O.Writer.ObjectWrite self.old self.new actor (Event.OpenFile label.now path.now ReadType.NoCache worker) result }
        ensures media { MediaStays D.Disk O.Objects self.old self.new }
        ensures kept { self.new.master ≡ self.old.master }
        ensures cause { IsCaused D.Disk O.Objects O.Reader.ObjectRead O.Writer.ObjectWrite self.old self.new actor (Event.OpenFile label.now path.now ReadType.NoCache worker) result }
        ensures steady { IsSteady D.Disk O.Objects O.Reader.ObjectRead O.Writer.ObjectWrite self.old → IsSteady D.Disk O.Objects O.Reader.ObjectRead O.Writer.ObjectWrite self.new }
    {
        match self.row_to_open(actor, label, path, worker) {
            Err(refusal) => Reply::Refused(refusal),
            Ok(row) => match self.prepare_label(actor, label) {
                Err(_) => Reply::Refused(Refusal::Memory),
                Ok(copy) => {
                    let stream = Stream {
                        file: FileId(row.id),
                        len: row.len,
                        at: 0,
                        worker,
                        source: None,
                    };
                    self.add_hand(actor, copy, Hand::Reading(stream));
                    Reply::Opened(row.len)
                }
            },
        }
    }
}
