//! Opening the next block of a writer at its worker.

ghost use Rattle.std.specs.Prelude.{◌≡◌, ◌≤◌, ◌<◌, ◌⊎◌, ℕ, List, [], true, false, pred, length, slice_get, Some, None, Ok, Err, IfOk, IfSome, IfNone, IsSomeAnd, OnOk, OnErr, option_map};
ghost use Rattle.outside.specs.declared.world.Fail.{Fail};
ghost use Rattle.file_writer.specs.Parts.{empty_block};
ghost use Rattle.file_writer.specs.Pens.{HasSpare, Tells};
ghost use Rattle.file_writer.specs.Taken.{HasTaken};
ghost use Rattle.file_writer.specs.Writing.{block_writer, wants_room};
ghost use Rattle.cluster_core.specs.Kept.{KeepsRest};
ghost use Rattle.cluster_core.specs.Opened.{FailsNode, IsFull, KeepsNode, OpensBlock, SameBytes, Spaces, TellsAt, WritesAt};
ghost use Rattle.cluster_core.specs.Tiers.{ChangesAt};

use crate::cluster::Core;
use crate::hand::Writer;
use crate::node::{Node, Space};
use file_writer::writer::FileWriter;
use fs_model::numbers::WorkerNo;
use outside::disk::Disk;
use outside::objects::{ObjectWrite, Objects};
use outside::world::Fail;

/// Makes space for a block at a worker, as `Node::make_space` does.
fn make_at<O: Objects>(node: &mut Node<O>, len: u64) -> Result<Option<Space<O::Writer>>, Fail>
    ensures none { IfOk result (λ found. IfNone found (IsFull O.Objects len node.old node.new)) }
    ensures space { IfOk result (λ found. IfSome found (λ space. Spaces O.Objects space.room len node.old node.new)) }
    ensures empty { IfOk result (λ found. IfSome found (λ space. (O.Writer.written space.writer ≡ 0) × (len ≤ O.Writer.spare space.writer))) }
    ensures tells { IfOk result (λ found. IfSome found (λ space. TellsAt O.Objects len (Some space.writer) O.Writer.ObjectWrite node.old)) }
    ensures writes { IfOk result (λ found. IfSome found (λ space. WritesAt O.Objects len (Some space.writer) O.Writer.ObjectWrite node.old)) }
    ensures failed { result ≡ Err Fail.Failed → FailsNode O.Objects len node.old node.new }
    ensures memory { result ≡ Err Fail.Memory → KeepsNode O.Objects len node.old node.new }
{
    node.make_space(len)
}

/// Opens an empty block with this writer.
fn fill<W: ObjectWrite>(bytes: &mut FileWriter<W>, writer: W)
    requires wanted { wants_room bytes.old ≡ true }
    requires empty { W.written writer ≡ 0 }
    requires spare { bytes.old.bs ≤ W.spare writer }
    requires object { IfSome bytes.old.object (λ o. HasSpare W.ObjectWrite bytes.old.bs o.pen) }
    ensures fields { bytes.new ≡ record bytes.old { block = Some (empty_block (Some writer)) } }
    ensures has { (taken : List ℕ) → HasTaken W.ObjectWrite bytes.old taken → Tells W.ObjectWrite [] writer → HasTaken W.ObjectWrite bytes.new taken }
{
    let _gone = bytes.take_block();
    bytes.supply(Some(writer));
}

impl<D: Disk, O: Objects> Core<D, O, O::Reader, O::Writer> {
    /// Makes space for a block at a worker that is there, as `Node::make_space` does.
    fn space_at(&mut self, worker: WorkerNo, len: u64) -> Result<Option<Space<O::Writer>>, Fail>
        requires some { 0 < worker }
        requires there { pred worker < length self.old.workers.items }
        ensures rest { KeepsRest self.old self.new }
        ensures hands { self.new.hands ≡ self.old.hands }
        ensures none { IfOk result (λ found. IfNone found (ChangesAt self.old.workers.items self.new.workers.items (pred worker) (IsFull O.Objects len))) }
        ensures space { IfOk result (λ found. IfSome found (λ space. ChangesAt self.old.workers.items self.new.workers.items (pred worker) (Spaces O.Objects space.room len))) }
        ensures empty { IfOk result (λ found. IfSome found (λ space. (O.Writer.written space.writer ≡ 0) × (len ≤ O.Writer.spare space.writer))) }
        ensures tells { IfOk result (λ found. IfSome found (λ space. IsSomeAnd (slice_get self.old.workers.items (pred worker)) (TellsAt O.Objects len (Some space.writer) O.Writer.ObjectWrite))) }
        ensures writes { IfOk result (λ found. IfSome found (λ space. IsSomeAnd (slice_get self.old.workers.items (pred worker)) (WritesAt O.Objects len (Some space.writer) O.Writer.ObjectWrite))) }
        ensures failed { result ≡ Err Fail.Failed → ChangesAt self.old.workers.items self.new.workers.items (pred worker) (FailsNode O.Objects len) }
        ensures memory { result ≡ Err Fail.Memory → ChangesAt self.old.workers.items self.new.workers.items (pred worker) (KeepsNode O.Objects len) }
    {
        make_at(&mut self.workers[worker.0 as usize - 1], len)
    }

    /// Opens an empty block of a writer that wants one, in a reservation at its worker, which is there. `Ok(false)`
    /// exactly where no tier has room.
    ///
    /// `Failed` comes only where the count of the tier rose. Unless a block was opened the writer has what it had, and
    /// the worker the same blocks and reservations.
    pub(crate) fn open_block(&mut self, writer: &mut Writer<O::Writer>) -> Result<bool, Fail>
        requires some { 0 < writer.old.worker }
        requires there { pred writer.old.worker < length self.old.workers.items }
        requires wanted { wants_room writer.old.bytes ≡ true }
        ensures rest { KeepsRest self.old self.new }
        ensures hands { self.new.hands ≡ self.old.hands }

        ensures opened { result ≡ Ok true → OpensBlock O.Writer.ObjectWrite writer.old writer.new }
        ensures space { result ≡ Ok true → IsSomeAnd writer.new.room (λ n. ChangesAt self.old.workers.items self.new.workers.items (pred writer.old.worker) (Spaces O.Objects n writer.old.bytes.bs)) }
        ensures tells { result ≡ Ok true → IsSomeAnd (slice_get self.old.workers.items (pred writer.old.worker)) (TellsAt O.Objects writer.old.bytes.bs (block_writer writer.new.bytes) O.Writer.ObjectWrite) }
        ensures writes { result ≡ Ok true → IsSomeAnd (slice_get self.old.workers.items (pred writer.old.worker)) (WritesAt O.Objects writer.old.bytes.bs (block_writer writer.new.bytes) O.Writer.ObjectWrite) }
        ensures has { result ≡ Ok true → (bytes : List ℕ) → HasTaken O.Writer.ObjectWrite writer.old.bytes bytes → HasTaken O.Writer.ObjectWrite writer.new.bytes bytes }

        ensures full { result ≡ Ok false → ChangesAt self.old.workers.items self.new.workers.items (pred writer.old.worker) (IsFull O.Objects writer.old.bytes.bs) }
        ensures none { result ≡ Ok false → SameBytes O.Writer.ObjectWrite writer.old writer.new }
        ensures failed { result ≡ Err Fail.Failed → ChangesAt self.old.workers.items self.new.workers.items (pred writer.old.worker) (FailsNode O.Objects writer.old.bytes.bs) }
        ensures memory { result ≡ Err Fail.Memory → (self.new.workers ≡ self.old.workers) ⊎ ChangesAt self.old.workers.items self.new.workers.items (pred writer.old.worker) (KeepsNode O.Objects writer.old.bytes.bs) }
        ensures err { OnErr result (SameBytes O.Writer.ObjectWrite writer.old writer.new) }
    {
        let worker = writer.worker;
        let len = u64::from(writer.bytes.block_size());
        writer.bytes.reserve_object(len)?;
        let Some(space) = self.space_at(worker, len)? else {
            return Ok(false);
        };
        fill(&mut writer.bytes, space.writer);
        writer.room = Some(space.room);
        Ok(true)
    }
}
