//! A file's writer.

ghost use Rattle.std.specs.Prelude.{◌≡◌, ◌≤◌, ◌<◌, ◌+◌, ◌++◌, List, ℕ, [], min, length, take, true, false, None, Some, IfSome, IsSomeAnd, IsOk, OnOk, option_map};
ghost use Rattle.fs_model.specs.BytesOutcomes.{lacks};
ghost use Rattle.outside.specs.Causes.{Rose};
ghost use Rattle.file_writer.specs.Pens.{HasSpare, IsBroken, Tells, WriterHas};
ghost use Rattle.file_writer.specs.Parts.{BlockStops, BlockTakes, ObjectBreaks, ObjectKeeps, ObjectTakes, block_faults, block_tells, empty_block, is_block_steady, is_object_steady, object_faults, object_of, object_tells, open_block};
ghost use Rattle.file_writer.specs.Writing.{Stops, TakesPiece, block_writer, counted, number_of, object_writer, wants_room, without_writer};
ghost use Rattle.file_writer.specs.Steps.{IfTaken, IfTierFault, IfUnderFault, OnNeedsRoom, fault_of};
ghost use Rattle.file_writer.specs.Taken.{HasTaken, open_bytes};

use crate::parts::{Block, Failed, Object, put_in};
use crate::pen::Pen;
use fs_model::numbers::{StoreNo, WorkerNo};
use outside::objects::ObjectWrite;
use std::alloc::AllocError;
use std::marker::Model;

/// What a put did.
#[derive(Debug, Clone, Copy, PartialEq, Eq)]
pub enum PutStep {
    /// It took so many bytes, the first of the piece.
    Taken(usize),
    /// No block is open, or the open one is full; nothing was taken.
    NeedsRoom,
    /// The writer of this worker failed.
    TierFault(WorkerNo),
    /// The writer of this store failed.
    UnderFault(StoreNo),
}

/// A file's writer: the bytes go block by block into a worker's writer, or into none, and where the
/// file has an object in a store, also into that object's writer.
///
/// A contract sees the size of its blocks, how many bytes it took, the worker, the open block and
/// the object.
#[derive(Debug, Drop)]
pub struct FileWriter<T: ObjectWrite> {
    block_size: u32,
    total: u64,
    worker: Option<WorkerNo>,
    block: Option<Block<T>>,
    object: Option<Object<T>>,
}

impl<T: ObjectWrite> Model for FileWriter<T> {
    ghost use Rattle.file_writer.specs.Writing.{Writing};
    ghost use Rattle.file_writer.specs.Parts.{Fits};

    ghost Value = { Writing T };

    ghost view = { λ x. record { bs = x.block_size; len = x.total; worker = x.worker; block = x.block; object = x.object } };

    ghost invariant = { λ x. Fits T.ObjectWrite x.block_size x.block x.object };
}

impl<T: ObjectWrite> FileWriter<T> {
    /// The writer of a file that has no byte yet, in blocks of `block` bytes: for the blocks of a
    /// worker, or of none, and with an object in a store, or without one. No block is open.
    pub fn new(block: u32, worker: Option<WorkerNo>, object: Option<(StoreNo, T)>) -> FileWriter<T>
        requires size { 0 < block }
        requires empty { IfSome object (λ o. T.written o.1 ≡ 0) }
        ensures fields { result ≡ record { bs = block; len = 0; worker = worker; block = None; object = option_map object_of object } }
        ensures bytes { IfSome object (λ o. Tells T.ObjectWrite [] o.1) → HasTaken T.ObjectWrite result [] }
    {
        FileWriter {
            block_size: block,
            total: 0,
            worker,
            block: None,
            object: match object {
                None => None,
                Some((store, writer)) => Some(Object {
                    store,
                    pen: Pen::Open(writer),
                }),
            },
        }
    }

    /// How many bytes a block has.
    pub fn block_size(&self) -> u32
        ensures size { result ≡ self.now.bs }
        ensures some { 0 < result }
    {
        self.block_size
    }

    /// How many bytes it took in all; from 2^64 - 1 on it stays there.
    pub fn len(&self) -> u64
        ensures { result ≡ self.now.len }
    {
        self.total
    }

    /// How many bytes the open block has; `None` where no block is open.
    pub fn open_len(&self) -> Option<u64>
        ensures { result ≡ option_map (λ b. b.len) self.now.block }
    {
        match &self.block {
            None => None,
            Some(block) => Some(u64::from(block.len)),
        }
    }

    /// Whether no block is open, or the open one is full, so that a put wants a block first.
    pub fn needs_room(&self) -> bool
        ensures { result ≡ wants_room self.now }
    {
        match &self.block {
            None => true,
            Some(block) => self.block_size <= block.len,
        }
    }

    /// Takes the first bytes of the piece, as many as the open block lacks or all; takes no memory.
    /// They go into the open block's writer first, then into the object's.
    ///
    /// `NeedsRoom` comes exactly where no block is open or the open one is full, and changes nothing.
    /// Else it is `Taken` with the lesser of the piece's length and what the block lacks, or a fault:
    /// `TierFault` with the worker (0 for none) only where the faults of the open block's writer rose
    /// in this call, `UnderFault` with the store only where those of the object's writer did; that of
    /// a steady writer never comes. After a
    /// fault the lengths stand and the open block's writer takes no more; nothing is promised of
    /// bytes then, and what is left is to drop it or to take its parts out.
    pub fn put(&mut self, piece: &[u8]) -> PutStep
        ensures room { OnNeedsRoom result (wants_room self.old ≡ true) }
        ensures wanted { wants_room self.old ≡ true → result ≡ PutStep.NeedsRoom }
        ensures same { OnNeedsRoom result (self.new ≡ self.old) }

        ensures count { IfTaken result (λ n. n ≡ min (length piece.now) (lacks self.old.bs (open_block self.old.block))) }
        ensures taken { IfTaken result (λ n. TakesPiece T.ObjectWrite (take n piece.now) self.old self.new) }
        ensures bytes { (bytes : List ℕ) → HasTaken T.ObjectWrite self.old bytes → IfTaken result (λ n. HasTaken T.ObjectWrite self.new (bytes ++ take n piece.now)) }

        // Whether its writers tell stays.
        ensures block_tells { IfTaken result (λ _. block_tells T.ObjectWrite self.new.block ≡ block_tells T.ObjectWrite self.old.block) }
        ensures object_tells { IfTaken result (λ _. object_tells T.ObjectWrite self.new.object ≡ object_tells T.ObjectWrite self.old.object) }

        ensures tier { IfTierFault result (λ worker. (worker ≡ number_of self.old.worker) × Rose (block_faults T.ObjectWrite self.old.block) (block_faults T.ObjectWrite self.new.block)) }
        ensures tier_stops { IfTierFault result (λ _. Stops self.old self.new × (self.new.object ≡ self.old.object)) }
        ensures under { IfUnderFault result (λ store. IsSomeAnd self.old.object (λ o. store ≡ o.store) × Rose (object_faults T.ObjectWrite self.old.object) (object_faults T.ObjectWrite self.new.object)) }
        ensures under_stops { IfUnderFault result (λ _. Stops self.old self.new × ObjectBreaks self.old.object self.new.object) }

        ensures block_later { block_faults T.ObjectWrite self.old.block ≤ block_faults T.ObjectWrite self.new.block }
        ensures object_later { object_faults T.ObjectWrite self.old.object ≤ object_faults T.ObjectWrite self.new.object }

        // A steady writer doesn't fail.
        ensures tier_unsteady { IfTierFault result (λ _. is_block_steady T.ObjectWrite self.old.block ≡ false) }
        ensures under_unsteady { IfUnderFault result (λ _. is_object_steady T.ObjectWrite self.old.object ≡ false) }
        ensures block_steady { is_block_steady T.ObjectWrite self.new.block ≡ is_block_steady T.ObjectWrite self.old.block }
        ensures object_steady { is_object_steady T.ObjectWrite self.new.object ≡ is_object_steady T.ObjectWrite self.old.object }
    {
        let block = match &mut self.block {
            None => return PutStep::NeedsRoom,
            Some(block) => block,
        };
        if self.block_size <= block.len {
            return PutStep::NeedsRoom;
        }
        let piece = front(piece, self.block_size - block.len);
        match put_in(block, &mut self.object, piece) {
            Ok(()) => {
                self.total = self.total.saturating_add(piece.len() as u64);
                PutStep::Taken(piece.len())
            }
            Err(failed) => failed_step(failed, self.worker),
        }
    }

    /// Opens an empty block, with the worker's writer or with none.
    pub fn supply(&mut self, block: Option<T>)
        requires room { wants_room self.old ≡ true }
        requires taken_out { IfSome self.old.block (λ b. b.pen ≡ Pen.Gone) }
        requires empty { IfSome block (λ writer. T.written writer ≡ 0) }
        requires spare { IfSome block (λ writer. self.old.bs ≤ T.spare writer) }
        requires object { IfSome self.old.object (λ o. HasSpare T.ObjectWrite self.old.bs o.pen) }
        ensures fields { self.new ≡ record self.old { block = Some (empty_block block) } }
        ensures bytes { (bytes : List ℕ) → HasTaken T.ObjectWrite self.old bytes → IfSome block (Tells T.ObjectWrite []) → HasTaken T.ObjectWrite self.new bytes }
    {
        self.block = Some(Block {
            len: 0,
            pen: Pen::of(block),
        });
    }

    /// Gives out the open block's writer, a broken one too; `None` exactly where there is none. The
    /// block stays open, without a writer. Takes no memory.
    pub fn take_block(&mut self) -> Option<T>
        ensures writer { result ≡ block_writer self.old }
        ensures fields { self.new ≡ record self.old { block = option_map without_writer self.old.block } }

        // The writer has the block's bytes, and those of the file stay taken.
        ensures has { (bytes : List ℕ) → HasTaken T.ObjectWrite self.old bytes → IfSome self.old.block (λ b. IfSome result (WriterHas T.ObjectWrite (open_bytes self.old.bs b.len bytes))) }
        ensures bytes { (bytes : List ℕ) → HasTaken T.ObjectWrite self.old bytes → HasTaken T.ObjectWrite self.new bytes }
    {
        match &mut self.block {
            None => None,
            Some(block) => block.pen.take(),
        }
    }

    /// Gives out the object's writer, a broken one too; `None` exactly where there is none. There is
    /// no object any more. Takes no memory.
    pub fn take_object(&mut self) -> Option<T>
        ensures writer { result ≡ object_writer self.old }
        ensures fields { self.new ≡ record self.old { object = None } }

        // The writer has all bytes, and they stay taken.
        ensures has { (bytes : List ℕ) → HasTaken T.ObjectWrite self.old bytes → IfSome result (WriterHas T.ObjectWrite bytes) }
        ensures bytes { (bytes : List ℕ) → HasTaken T.ObjectWrite self.old bytes → HasTaken T.ObjectWrite self.new bytes }
    {
        match self.object.take() {
            None => None,
            Some(mut object) => object.pen.take(),
        }
    }

    /// Makes the spare of the object's writer at least `count`; `Ok` where there is no object.
    ///
    /// An `Err` is want of memory. In either case what was taken stays, and the spare doesn't fall.
    pub fn reserve_object(&mut self, count: u64) -> Result<(), AllocError>
        ensures spare { OnOk result (IfSome self.new.object (λ o. HasSpare T.ObjectWrite count o.pen)) }
        ensures none { self.old.object ≡ None → IsOk result }
        ensures fields { self.new ≡ record self.old { object = self.new.object } }
        ensures object { ObjectKeeps T.ObjectWrite self.old.object self.new.object }
        ensures tells { object_tells T.ObjectWrite self.new.object ≡ object_tells T.ObjectWrite self.old.object }
        ensures steady { is_object_steady T.ObjectWrite self.new.object ≡ is_object_steady T.ObjectWrite self.old.object }
        ensures bytes { (bytes : List ℕ) → HasTaken T.ObjectWrite self.old bytes → HasTaken T.ObjectWrite self.new bytes }
    {
        match &mut self.object {
            None => Ok(()),
            Some(object) => object.pen.reserve(count),
        }
    }
}

/// The first bytes of a piece, at most so many.
fn front(piece: &[u8], most: u32) -> &[u8]
    ensures { result.now ≡ take (min (length piece.now) most) piece.now }
{
    &piece[..piece.len().min(most as usize)]
}

/// What a put answers where a writer failed.
fn failed_step(failed: Failed, worker: Option<WorkerNo>) -> PutStep
    ensures { result ≡ fault_of worker failed }
{
    match failed {
        Failed::Block => match worker {
            None => PutStep::TierFault(WorkerNo(0)),
            Some(worker) => PutStep::TierFault(worker),
        },
        Failed::Object(store) => PutStep::UnderFault(store),
    }
}
