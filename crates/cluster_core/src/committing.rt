//! Committing the open block of a writer at its worker.

ghost use Rattle.std.specs.Prelude.{◌≡◌, ◌≤◌, ◌<◌, ◌+◌, ◌-◌, ◌*◌, ◌/◌, ◌%◌, ◌^◌, true, false, pred, Some, None, Err, IsOk, IfOk, IfSome, length, OnOk, OnErr, option_map};
ghost use Rattle.outside.specs.declared.world.Fail.{Fail};
ghost use Rattle.fs_model.specs.Lookups.{stored_is_yes};
ghost use Rattle.inode_tree.specs.Rows.{node_of};
ghost use Rattle.file_writer.specs.Writing.{block_writer, wants_room};
ghost use Rattle.cluster_core.specs.Causes.{TierCounted};
ghost use Rattle.cluster_core.specs.Kept.{KeepsRest};
ghost use Rattle.cluster_core.specs.Media.{MediaStays, TiersStay};
ghost use Rattle.cluster_core.specs.Tiers.{ChangesAt};
ghost use Rattle.cluster_core.specs.Writers.{Commits, Loses, open_len, open_number};
ghost use Rattle.cluster_core.specs.Committed.{closed_writer, finished_of, keeps, key_at, pins};

use crate::cluster::Core;
use crate::hand::Writer;
use crate::node::{Finished, Node};
use file_writer::writer::FileWriter;
use fs_model::numbers::{BlockNo, WorkerNo};
use fs_model::reply::Stored;
use inode_tree::row::Row;
use outside::disk::Disk;
use outside::key::Key;
use outside::objects::{ObjectWrite, Objects};
use outside::stream::Fault;
use outside::world::Fail;
use std::alloc::{AllocError, Global};
use tier_book::room::RoomNo;

/// How many bytes the open block has; 0 where none is open.
fn open_len<W: ObjectWrite>(bytes: &FileWriter<W>) -> u64
    ensures { result ≡ open_len bytes.now.block }
{
    match bytes.open_len() {
        None => 0,
        Some(len) => len,
    }
}

/// Which block of the file the open one is.
fn open_number<W: ObjectWrite>(bytes: &FileWriter<W>, block: u32) -> BlockNo
    requires { 0 < block }
    ensures { result ≡ open_number block bytes.now }
{
    let number = bytes.len().saturating_sub(open_len(bytes)) / u64::from(block);
    BlockNo(number.min(u64::from(u32::MAX)) as u32)
}

/// Whether the file is in its store.
fn is_stored(stored: Stored) -> bool
    ensures { result ≡ stored_is_yes stored }
{
    match stored {
        Stored::Yes => true,
        Stored::No | Stored::Wanted => false,
    }
}

/// Whether the blocks of a file must be kept, and whether it is pinned.
fn flags_of(row: Option<Row>) -> (bool, bool)
    ensures { result ≡ (keeps (option_map node_of row), pins (option_map node_of row)) }
{
    match row {
        None => (false, false),
        Some(row) => {
            if row.dir {
                return (false, false);
            }
            (!is_stored(row.stored), row.pinned)
        }
    }
}

/// Commits a block at a worker, as `Node::commit` does.
fn commit_at<O: Objects>(
    node: &mut Node<O>,
    room: RoomNo,
    key: Key,
    pen: O::Writer,
    block: Finished,
) -> Result<(), Fault>
    ensures done { OnOk result (Commits O.Objects O.Writer.ObjectWrite room key pen block node.old node.new) }
    ensures lost { OnErr result (Loses O.Objects O.Writer.ObjectWrite room key pen block node.old node.new) }
    ensures stays { TiersStay O.Objects node.old node.new }
{
    node.commit(room, key, pen, block)
}

impl<D: Disk, O: Objects> Core<D, O, O::Reader, O::Writer> {
    /// What the open block of a writer is committed as.
    fn finished(&self, writer: &Writer<O::Writer>) -> Finished
        ensures { result ≡ finished_of self.now.master.kept.names.nodes self.now.block writer.now }
    {
        let (keep, pin) = flags_of(self.master.names().file(writer.file));
        Finished {
            file: writer.file,
            block: open_number(&writer.bytes, self.block),
            len: open_len(&writer.bytes),
            keep,
            pin,
        }
    }

    /// Commits a block at a worker that is there, as `Node::commit` does.
    fn commit_pen(
        &mut self,
        worker: WorkerNo,
        room: RoomNo,
        key: Key,
        pen: O::Writer,
        block: Finished,
    ) -> Result<(), Fault>
        requires some { 0 < worker }
        requires there { pred worker < length self.old.workers.items }
        ensures rest { KeepsRest self.old self.new }
        ensures hands { self.new.hands ≡ self.old.hands }
        ensures done { OnOk result (ChangesAt self.old.workers.items self.new.workers.items (pred worker) (Commits O.Objects O.Writer.ObjectWrite room key pen block)) }
        ensures lost { OnErr result (ChangesAt self.old.workers.items self.new.workers.items (pred worker) (Loses O.Objects O.Writer.ObjectWrite room key pen block)) }
        ensures stays { ChangesAt self.old.workers.items self.new.workers.items (pred worker) (TiersStay O.Objects) }
    {
        commit_at(
            &mut self.workers[worker.0 as usize - 1],
            room,
            key,
            pen,
            block,
        )
    }

    /// The key of a reservation at a worker that is there. An `Err` is want of memory.
    fn room_key(&self, alloc: Global, worker: WorkerNo, room: RoomNo) -> Result<Key, AllocError>
        requires some { 0 < worker }
        requires there { pred worker < length self.now.workers.items }
        ensures { IfOk result (λ key. key ≡ key_at self.now.workers.items worker room) }
    {
        self.workers[worker.0 as usize - 1].key_of(alloc, room)
    }

    /// Commits the open block of a writer at its worker, which runs as it did when the file was made; without a
    /// reservation there is nothing to do. `Failed` comes only where the commit failed; then the writer is broken, and
    /// its reservation is gone. `Memory` leaves all as it was.
    pub(crate) fn commit_block(
        &mut self,
        alloc: Global,
        writer: &mut Writer<O::Writer>,
    ) -> Result<(), Fail>
        requires some { 0 < writer.old.worker }
        requires there { pred writer.old.worker < length self.old.workers.items }
        ensures rest { KeepsRest self.old self.new }
        ensures hands { self.new.hands ≡ self.old.hands }
        ensures workers { length self.new.workers.items ≡ length self.old.workers.items }
        ensures none { writer.old.room ≡ None → IsOk result × (self.new.workers ≡ self.old.workers) × (writer.new ≡ writer.old) }
        ensures wants { OnOk result (wants_room writer.new.bytes ≡ wants_room writer.old.bytes) }
        ensures done { OnOk result (IfSome writer.old.room (λ n. IfSome (block_writer writer.old.bytes) (λ pen. ChangesAt self.old.workers.items self.new.workers.items (pred writer.old.worker) (Commits O.Objects O.Writer.ObjectWrite n (key_at self.old.workers.items writer.old.worker n) pen (finished_of self.old.master.kept.names.nodes self.old.block writer.old))))) }
        ensures lost { result ≡ Err Fail.Failed → IfSome writer.old.room (λ n. IfSome (block_writer writer.old.bytes) (λ pen. ChangesAt self.old.workers.items self.new.workers.items (pred writer.old.worker) (Loses O.Objects O.Writer.ObjectWrite n (key_at self.old.workers.items writer.old.worker n) pen (finished_of self.old.master.kept.names.nodes self.old.block writer.old)))) }
        ensures closed { OnOk result (writer.new ≡ closed_writer false writer.old) }
        ensures broken { result ≡ Err Fail.Failed → writer.new ≡ closed_writer true writer.old }
        ensures memory { result ≡ Err Fail.Memory → (self.new.workers ≡ self.old.workers) × (writer.new ≡ writer.old) }
        ensures media { MediaStays D.Disk O.Objects self.old self.new }
        ensures counted { result ≡ Err Fail.Failed → TierCounted O.Objects self.old self.new writer.old.worker }
    {
        let reserved = writer.room;
        let worker = writer.worker;
        let Some(room) = reserved else {
            return Ok(());
        };
        let key = self.room_key(alloc, worker, room)?;
        let block = self.finished(writer);
        let Some(pen) = writer.bytes.take_block() else {
            writer.room = None;
            return Ok(());
        };
        writer.room = None;
        match self.commit_pen(worker, room, key, pen, block) {
            Ok(()) => Ok(()),
            Err(Fault) => {
                writer.broken = true;
                Err(Fail::Failed)
            }
        }
    }
}
