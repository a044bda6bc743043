//! What a worker does with blocks: room for one, its object, and reading it.

ghost use Rattle.std.specs.Prelude.{◌≡◌, ◌≤◌, ◌<◌, ◌+◌, ◌^◌, ◌⊎◌, ◌++◌, ◌∷◌, [], true, Ok, Err, None, Some, length, option_map, slice_get, IfOk, IfErr, IfSome, IfNone, IsOk, IsSome, IsSomeAnd, OnOk, OnErr, vec_len, vec_capacity};
ghost use Rattle.fs_model.specs.Lookups.{no_worker};
ghost use Rattle.outside.specs.Causes.{Rose};
ghost use Rattle.outside.specs.Contents.{IsRange};
ghost use Rattle.tier_book.specs.Rows.{copied_of, fitting, free_at, room_numbered, row_of};
ghost use Rattle.cluster_core.specs.Media.{TiersStay};
ghost use Rattle.cluster_core.specs.Tiers.{ChangesAt, IsFaultOrCrossed, IsFaultOrShort, IsPut, IsPutOrNot, Keeps, object_key};
ghost use Rattle.cluster_core.specs.Nodes.{HasSpace, IsAsBefore, IsCommitted, IsFreed, IsUsed, commit_as, node_row};

#[cfg(test)]
mod tests;

use crate::node::{Finished, Node, Opened, Space};
use fs_model::numbers::{BlockNo, FileId, TierNo};
use outside::key::Key;
use outside::objects::{ObjectWrite, Objects};
use outside::stream::Fault;
use outside::world::Fail;
use std::alloc::{AllocError, Global};
use tier_book::book::Book;
use tier_book::room::RoomNo;
use tier_book::row::BlockRow;

impl<O: Objects> Node<O> {
    /// A worker that never ran, over these tiers, of which each has so many bytes and a `TierNo`. Want of memory gives
    /// the tiers back.
    pub fn new(alloc: Global, sizes: &[u64], tiers: Vec<O>) -> Result<Node<O>, Vec<O>>
        requires sized { length tiers.items ≡ length sizes.now }
        requires few { length sizes.now < 2 ^ 32 }
        ensures row { IfOk result (λ node. node_row node ≡ no_worker) }
        ensures sizes { IfOk result (λ node. node.book.sizes ≡ sizes.now) }
        ensures tiers { IfOk result (λ node. node.tiers ≡ tiers) }
        ensures err { IfErr result (λ back. back ≡ tiers) }
    {
        match Book::new(alloc, sizes) {
            Ok(book) => Ok(Node {
                running: false,
                started: 0,
                book,
                litter: Vec::new(alloc),
                tiers,
            }),
            Err(_) => Err(tiers),
        }
    }

    /// The key of the object of a reservation. An `Err` is want of memory.
    pub fn key_of(&self, alloc: Global, room: RoomNo) -> Result<Key, AllocError>
        ensures { IfOk result (λ key. key ≡ object_key self.now.started room) }
    {
        Key::of_numbers(alloc, self.started, room.0)
    }

    /// Reserves room for a block of `len` bytes at a tier that has them free, and begins its object there, with
    /// spare for the block. `Failed` comes only where the count of that tier rose. After an error what the worker
    /// keeps of its blocks is as it was.
    fn begin_at(&mut self, tier: TierNo, len: u64) -> Result<Space<O::Writer>, Fail>
        requires tier { tier < length self.old.book.sizes }
        requires fits { len ≤ free_at self.old.book tier }
        ensures space { IfOk result (λ space. HasSpace self.old self.new len space.room tier) }
        ensures written { IfOk result (λ space. O.Writer.written space.writer ≡ 0) }
        ensures spare { IfOk result (λ space. len ≤ O.Writer.spare space.writer) }
        ensures empty { IfOk result (λ space. IsSomeAnd (slice_get self.old.tiers.items tier) (λ s. O.Writer.taken space.writer ≡ option_map (λ _. []) (O.told s))) }
        ensures writes { IfOk result (λ space. IsSomeAnd (slice_get self.old.tiers.items tier) (λ s. O.steady s ≡ true → O.Writer.steady space.writer ≡ true)) }
        ensures err { OnErr result (IsAsBefore self.old self.new) }
        ensures tiers { ChangesAt self.old.tiers.items self.new.tiers.items tier (Keeps O.Objects) }
        ensures misses { ChangesAt self.old.tiers.items self.new.tiers.items tier (λ old new. O.misses new ≡ O.misses old) }
        ensures failed { result ≡ Err Fail.Failed → ChangesAt self.old.tiers.items self.new.tiers.items tier (λ old new. Rose (O.faults old) (O.faults new)) }
    {
        let mut writer = self.tiers[tier.0 as usize].begin_write()?;
        writer.reserve(len)?;
        self.litter.reserve(self.book.rooms().len() + 1)?;
        let room = self.book.reserve(tier, len)?;
        Ok(Space { room, writer })
    }

    /// Reserves room for a block of `len` bytes at the first tier that has them free, and begins its object there,
    /// with spare for the block. `None` exactly where no tier has them free; then nothing changes.
    ///
    /// `Failed` comes only where the count of that tier rose. After an error what the worker keeps of its blocks is as
    /// it was. Whatever the answer, that tier's objects are as they were, and the other tiers too.
    pub fn make_space(&mut self, len: u64) -> Result<Option<Space<O::Writer>>, Fail>
        ensures none { IfOk result (λ found. IfNone found ((fitting self.old.book len ≡ None) × (self.new ≡ self.old))) }
        ensures full { fitting self.old.book len ≡ None → result ≡ Ok None }
        ensures space { IfOk result (λ found. IfSome found (λ space. IsSomeAnd (fitting self.old.book len) (HasSpace self.old self.new len space.room))) }
        ensures writer { IfOk result (λ found. IfSome found (λ space. (O.Writer.written space.writer ≡ 0) × (len ≤ O.Writer.spare space.writer))) }
        ensures empty { IfOk result (λ found. IfSome found (λ space. IsSomeAnd (fitting self.old.book len) (λ t. IsSomeAnd (slice_get self.old.tiers.items t) (λ s. O.Writer.taken space.writer ≡ option_map (λ _. []) (O.told s))))) }
        ensures writes { IfOk result (λ found. IfSome found (λ space. IsSomeAnd (fitting self.old.book len) (λ t. IsSomeAnd (slice_get self.old.tiers.items t) (λ s. O.steady s ≡ true → O.Writer.steady space.writer ≡ true)))) }
        ensures err { OnErr result (IsAsBefore self.old self.new) }
        ensures tiers { IfSome (fitting self.old.book len) (λ t. ChangesAt self.old.tiers.items self.new.tiers.items t (Keeps O.Objects)) }
        ensures misses { IfSome (fitting self.old.book len) (λ t. ChangesAt self.old.tiers.items self.new.tiers.items t (λ old new. O.misses new ≡ O.misses old)) }
        ensures failed { result ≡ Err Fail.Failed → IsSomeAnd (fitting self.old.book len) (λ t. ChangesAt self.old.tiers.items self.new.tiers.items t (λ old new. Rose (O.faults old) (O.faults new))) }
    {
        let Some(tier) = self.book.first_fit(len) else {
            return Ok(None);
        };
        match self.begin_at(tier, len) {
            Ok(space) => Ok(Some(space)),
            Err(fail) => Err(fail),
        }
    }

    /// Makes the object of a reservation from its writer, and the reservation a row of the worker. After `Fault` the
    /// reservation is freed, and its number joins the litter, since the object may be there. It takes no memory.
    fn finish_row(
        &mut self,
        room: RoomNo,
        key: Key,
        writer: O::Writer,
        row: BlockRow,
    ) -> Result<(), Fault>
        requires tier { IsSomeAnd (room_numbered room self.old.book.rooms) (λ r. row.tier ≡ r.tier) }
        requires len { IsSomeAnd (room_numbered room self.old.book.rooms) (λ r. row.len ≤ r.bytes) }
        requires absent { row_of row.file row.block self.old.book.rows ≡ None }
        requires place { row.tier < length self.old.book.sizes }
        ensures row { OnOk result (IsCommitted self.old self.new room (copied_of row)) }
        ensures freed { OnErr result (IsFreed self.old self.new room (self.old.litter.items ++ room ∷ [])) }
        ensures done { OnOk result (ChangesAt self.old.tiers.items self.new.tiers.items row.tier (IsPut O.Objects O.Writer.ObjectWrite writer key)) }
        ensures tiers { ChangesAt self.old.tiers.items self.new.tiers.items row.tier (IsPutOrNot O.Objects O.Writer.ObjectWrite writer key) }
        ensures failed { OnErr result (ChangesAt self.old.tiers.items self.new.tiers.items row.tier (IsFaultOrCrossed O.Objects key)) }
    {
        match self.tiers[row.tier.0 as usize].finish(writer, key) {
            Ok(()) => {
                self.book.commit(room, row);
                Ok(())
            }
            Err(fault) => {
                self.book.cancel(room);
                note(&mut self.litter, room.0);
                Err(fault)
            }
        }
    }

    /// Commits a block: the object of a reservation is made from its writer, and the reservation becomes the row of
    /// the block. Where the worker has that block already, the reservation is freed instead. So is one that is smaller
    /// than the block, and where the reservation isn't there nothing changes; the answer is `Ok` in these cases, and
    /// the tiers stay as they were.
    ///
    /// `Fault` comes only where the count of the reservation's tier rose, or its key can't stand beside another's.
    /// The reservation is then freed, and its number joins the litter, since the object may be there: that tier has
    /// the object whole or holds what it held, and the other tiers stay as they were. It takes no memory.
    pub fn commit(
        &mut self,
        room: RoomNo,
        key: Key,
        writer: O::Writer,
        block: Finished,
    ) -> Result<(), Fault>
        ensures row { OnOk result (IsSomeAnd (room_numbered room self.old.book.rooms) (λ r. block.len ≤ r.bytes) → node_row self.new ≡ commit_as block.keep block.pin room block.file block.block block.len (node_row self.old)) }
        ensures sizes { self.new.book.sizes ≡ self.old.book.sizes }
        ensures stays { TiersStay O.Objects self.old self.new }

        ensures done { OnOk result (row_of block.file block.block self.old.book.rows ≡ None → IfSome (room_numbered room self.old.book.rooms) (λ r. block.len ≤ r.bytes → ChangesAt self.old.tiers.items self.new.tiers.items r.tier (IsPut O.Objects O.Writer.ObjectWrite writer key))) }
        ensures there { IsSome (row_of block.file block.block self.old.book.rows) → IsOk result × (self.new.tiers ≡ self.old.tiers) }
        ensures missing { room_numbered room self.old.book.rooms ≡ None → IsOk result × (self.new ≡ self.old) }
        ensures small { IsSomeAnd (room_numbered room self.old.book.rooms) (λ r. r.bytes < block.len) → IsOk result × IsFreed self.old self.new room self.old.litter.items }
        ensures kept { IsSomeAnd (room_numbered room self.old.book.rooms) (λ r. r.bytes < block.len) → self.new.tiers ≡ self.old.tiers }

        ensures lost { OnErr result (IsFreed self.old self.new room (self.old.litter.items ++ room ∷ [])) }
        ensures fault { OnErr result (row_of block.file block.block self.old.book.rows ≡ None) }
        ensures tiers { OnErr result (IsSomeAnd (room_numbered room self.old.book.rooms) (λ r. ChangesAt self.old.tiers.items self.new.tiers.items r.tier (IsPutOrNot O.Objects O.Writer.ObjectWrite writer key))) }
        ensures failed { OnErr result (IsSomeAnd (room_numbered room self.old.book.rooms) (λ r. ChangesAt self.old.tiers.items self.new.tiers.items r.tier (IsFaultOrCrossed O.Objects key))) }
    {
        let Some(space) = self.book.room(room) else {
            return Ok(());
        };
        if space.bytes < block.len || self.book.row(block.file, block.block).is_some() {
            self.book.cancel(room);
            return Ok(());
        }
        let row = BlockRow {
            file: block.file,
            block: block.block,
            tier: space.tier,
            len: block.len,
            number: room.0,
            keep: block.keep,
            pin: block.pin,
            free: false,
        };
        self.finish_row(room, key, writer, row)
    }

    /// Frees a reservation, if it is there. It takes no memory.
    pub fn free(&mut self, room: RoomNo)
        ensures freed { IsFreed self.old self.new room self.old.litter.items }
        ensures tiers { self.new.tiers ≡ self.old.tiers }
    {
        if self.book.room(room).is_some() {
            self.book.cancel(room);
        }
    }

    /// Begins to read a row's object, `len` bytes from place `at` on, and notes the use of the row. After an error
    /// what the worker keeps of its blocks is as it was.
    fn read_row(
        &mut self,
        alloc: Global,
        row: BlockRow,
        at: u64,
        len: u64,
    ) -> Result<O::Reader, Fail>
        requires { row.tier < length self.old.book.sizes }
        ensures row { OnOk result (IsUsed self.old self.new row.number) }
        ensures due { IfOk result (λ reader. O.Reader.to_give reader ≡ len) }
        ensures range { IfOk result (λ reader. IsSomeAnd (slice_get self.old.tiers.items row.tier) (λ s. IsRange (O.told s) (object_key self.old.started row.number) at len (O.Reader.left reader))) }
        ensures reads { IfOk result (λ reader. IsSomeAnd (slice_get self.old.tiers.items row.tier) (λ s. O.steady s ≡ true → O.Reader.steady reader ≡ true)) }
        ensures err { OnErr result (IsAsBefore self.old self.new) }
        ensures tiers { ChangesAt self.old.tiers.items self.new.tiers.items row.tier (Keeps O.Objects) }
        ensures failed { result ≡ Err Fail.Failed → ChangesAt self.old.tiers.items self.new.tiers.items row.tier (IsFaultOrShort O.Objects (object_key self.old.started row.number) (at + len)) }
    {
        let key = Key::of_numbers(alloc, self.started, row.number)?;
        let number = row.number;
        let reader = self.tiers[row.tier.0 as usize].begin_read(&key, at, len)?;
        self.book.used(number);
        Ok(reader)
    }

    /// Opens a block for reading, `len` bytes from place `at` on; it becomes the one that was used last. `None`
    /// exactly where the worker has no such block; then nothing changes.
    ///
    /// `Failed` comes only where the count of the block's tier rose, or the tier tells and its object is absent or
    /// shorter. After an error what the worker keeps of its blocks is as it was. Whatever the answer, that tier's
    /// objects are as they were, and the other tiers too.
    pub fn open_row(
        &mut self,
        alloc: Global,
        file: FileId,
        block: BlockNo,
        at: u64,
        len: u64,
    ) -> Result<Option<Opened<O::Reader>>, Fail>
        ensures none { IfOk result (λ found. IfNone found ((row_of file block self.old.book.rows ≡ None) × (self.new ≡ self.old))) }
        ensures absent { row_of file block self.old.book.rows ≡ None → result ≡ Ok None }
        ensures row { IfOk result (λ found. IfSome found (λ opened. IsSomeAnd (row_of file block self.old.book.rows) (λ c. (opened.tier ≡ c.tier) × IsUsed self.old self.new c.number))) }
        ensures due { IfOk result (λ found. IfSome found (λ opened. O.Reader.to_give opened.reader ≡ len)) }
        ensures range { IfOk result (λ found. IfSome found (λ opened. IsSomeAnd (row_of file block self.old.book.rows) (λ c. IsSomeAnd (slice_get self.old.tiers.items c.tier) (λ s. IsRange (O.told s) (object_key self.old.started c.number) at len (O.Reader.left opened.reader))))) }
        ensures reads { IfOk result (λ found. IfSome found (λ opened. IsSomeAnd (row_of file block self.old.book.rows) (λ c. IsSomeAnd (slice_get self.old.tiers.items c.tier) (λ s. O.steady s ≡ true → O.Reader.steady opened.reader ≡ true)))) }
        ensures err { OnErr result (IsAsBefore self.old self.new) }
        ensures tiers { IfSome (row_of file block self.old.book.rows) (λ c. ChangesAt self.old.tiers.items self.new.tiers.items c.tier (Keeps O.Objects)) }
        ensures failed { result ≡ Err Fail.Failed → IsSomeAnd (row_of file block self.old.book.rows) (λ c. ChangesAt self.old.tiers.items self.new.tiers.items c.tier (IsFaultOrShort O.Objects (object_key self.old.started c.number) (at + len))) }
    {
        let Some(row) = self.book.row(file, block) else {
            return Ok(None);
        };
        let tier = row.tier;
        let reader = self.read_row(alloc, row, at, len)?;
        Ok(Some(Opened { reader, tier }))
    }
}

/// Adds a number to the litter, which has a place for it.
fn note(litter: &mut Vec<u64>, number: u64)
    requires { vec_len litter.old + 1 ≤ vec_capacity litter.old }
    ensures items { litter.new.items ≡ litter.old.items ++ number ∷ [] }
    ensures capacity { vec_capacity litter.old ≤ vec_capacity litter.new }
{
    match litter.push(number) {
        Ok(()) => {}
        Err(_) => unreachable!(),
    }
}
