//! The book of one worker.

ghost use Rattle.std.specs.Prelude.{◌≡◌, ℕ, ◌≤◌, ◌<◌, ◌+◌, ◌^◌, ◌∷◌, [], ◌++◌, map, length, None, IfSome, IfOk, OnOk, OnErr, is_some, IsTrue, option_map};
ghost use Rattle.std.specs.Option.{IsSomeAnd};
ghost use Rattle.fs_model.specs.Updates.{used};
ghost use Rattle.tier_book.specs.Rows.{copied_of, room_row, free_at, fitting, next_number, room_numbered, rooms_without, row_of, row_numbered, rows_without, flagged};

use crate::room::{Room, RoomNo, find_room, free_rooms, remove_rooms};
use crate::row::{
    BlockRow, Flags, append_row, find_number, find_row, free_rows, move_last, remove_rows,
    set_flags,
};
use crate::tier::take_bytes;
use fs_model::numbers::{BlockNo, FileId, TierNo};
use std::alloc::{AllocError, Global};
use std::marker::Model;

/// The book of one worker. A contract sees the bytes of each tier, the reservations in the order in which they
/// were made, the rows in the order of use, the least recent first, and the number of the next reservation.
///
/// What is reserved at a tier and the bytes of the rows there are never more than the tier has.
#[derive(Debug, Drop)]
pub struct Book {
    // The bytes of each tier.
    sizes: Vec<u64>,
    // The bytes of each tier that are reserved or a row's.
    taken: Vec<u64>,
    rooms: Vec<Room>,
    // It has a place for each row and each reservation.
    rows: Vec<BlockRow>,
    next: u64,
}

impl Model for Book {
    ghost use Rattle.std.specs.Prelude.{◌+◌, ◌≤◌, ◌<◌, map, length, vec_capacity, ◌^◌};
    ghost use Rattle.tier_book.specs.Rows.{BookView, copied_of, room_row};
    ghost use Rattle.tier_book.specs.Kept.{IsKept};

    ghost Value = { BookView };

    ghost view = { λ b. record { sizes = b.sizes.items; rooms = map room_row b.rooms.items; rows = map copied_of b.rows.items; next = b.next } };

    ghost invariant = { λ b. IsKept b.sizes.items b.taken.items (map room_row b.rooms.items) (map copied_of b.rows.items) × (length b.rooms.items + length b.rows.items ≤ vec_capacity b.rows) };
}

impl Book {
    /// The book of a worker with tiers of these sizes in bytes, where nothing is reserved and no block is there. Each
    /// tier has a `TierNo`.
    ///
    /// An `Err` is want of memory.
    pub fn new(alloc: Global, sizes: &[u64]) -> Result<Book, AllocError>
        requires { length sizes.now < 2 ^ 32 }
        ensures sizes { IfOk result (λ book. book.sizes ≡ sizes.now) }
        ensures rooms { IfOk result (λ book. book.rooms ≡ []) }
        ensures rows { IfOk result (λ book. book.rows ≡ []) }
        ensures next { IfOk result (λ book. book.next ≡ 1) }
    {
        let taken = vec![in alloc; 0; sizes.len()]?;
        Ok(Book {
            sizes: Vec::from_slice(alloc, sizes)?,
            taken,
            rooms: Vec::new(alloc),
            rows: Vec::new(alloc),
            next: 1,
        })
    }

    /// How many tiers the worker has.
    pub fn tiers(&self) -> usize
        ensures { result ≡ length self.now.sizes }
    {
        self.sizes.len()
    }

    /// How many bytes of the tier are neither reserved nor a row's. The tier is one of the worker's. It takes the
    /// same time whatever the book has.
    pub fn free_bytes(&self, tier: TierNo) -> u64
        requires { tier < length self.now.sizes }
        ensures { result ≡ free_at self.now tier }
    {
        let tier = tier.0 as usize;
        self.sizes[tier] - self.taken[tier]
    }

    /// The first tier at which at least `n` bytes are free; `None` where there is none.
    pub fn first_fit(&self, n: u64) -> Option<TierNo>
        ensures first { result ≡ fitting self.now n }
        ensures fits { IfSome result (λ t. (t < length self.now.sizes) × (n ≤ free_at self.now t)) }
    {
        for tier in 0..self.sizes.len() as u32 {
            if self.free_bytes(TierNo(tier)) >= n {
                return Some(TierNo(tier));
            }
        }
        None
    }

    /// The rows in the order of use, the least recent first.
    pub fn rows(&self) -> &[BlockRow]
        ensures { map copied_of result.now ≡ self.now.rows }
    {
        &self.rows
    }

    /// The reservations in the order in which they were made.
    pub fn rooms(&self) -> &[Room]
        ensures { map room_row result.now ≡ self.now.rooms }
    {
        &self.rooms
    }

    /// The row of a block, if the worker has it.
    pub fn row(&self, file: FileId, block: BlockNo) -> Option<BlockRow>
        ensures found { option_map copied_of result ≡ row_of file block self.now.rows }
        ensures tier { IfSome result (λ r. r.tier < length self.now.sizes) }
    {
        find_row(&self.rows, file, block)
    }

    /// The row with this object number; the least recently used if there are several.
    pub fn numbered(&self, number: u64) -> Option<BlockRow>
        ensures { option_map copied_of result ≡ row_numbered number self.now.rows }
    {
        find_number(&self.rows, number)
    }

    /// The reservation with this number, if it is there.
    pub fn room(&self, room: RoomNo) -> Option<Room>
        ensures found { option_map room_row result ≡ room_numbered room self.now.rooms }
        ensures tier { IfSome result (λ r. r.tier < length self.now.sizes) }
    {
        find_room(&self.rooms, room)
    }

    /// The number of the next reservation.
    pub fn next(&self) -> u64
        ensures { result ≡ self.now.next }
    {
        self.next
    }

    /// Reserves `n` bytes at a tier of the worker that has them free, and gives the reservation's number. The
    /// numbers go up by one from 1, and stay at 2^64 - 1. The place of the later row is made too, so no other
    /// call takes memory.
    ///
    /// An `Err` is want of memory, and leaves the book as it was.
    pub fn reserve(&mut self, tier: TierNo, n: u64) -> Result<RoomNo, AllocError>
        requires tier { tier < length self.old.sizes }
        requires fits { n ≤ free_at self.old tier }
        ensures number { IfOk result (λ room. room ≡ self.old.next) }
        ensures rooms { OnOk result (self.new.rooms ≡ self.old.rooms ++ record { number = self.old.next; tier = tier; bytes = n } ∷ []) }
        ensures next { OnOk result (self.new.next ≡ next_number self.old.next) }
        ensures rows { self.new.rows ≡ self.old.rows }
        ensures sizes { self.new.sizes ≡ self.old.sizes }
        ensures err { OnErr result (self.new ≡ self.old) }
    {
        let number = RoomNo(self.next);
        self.rows.reserve(self.rooms.len() + 1)?;
        self.rooms.push(Room {
            number,
            tier,
            bytes: n,
        })?;
        take_bytes(&mut self.taken, &self.sizes, tier, n);
        self.next = self.next.saturating_add(1);
        Ok(number)
    }

    /// Makes a row of a reservation: its bytes are free again but for those of the row, which comes behind all
    /// others. The reservation is there, the row has its tier and at most its bytes, and no row of its block is
    /// there. It takes no memory.
    pub fn commit(&mut self, room: RoomNo, row: BlockRow)
        requires tier { IsSomeAnd (room_numbered room self.old.rooms) (λ r. row.tier ≡ r.tier) }
        requires len { IsSomeAnd (room_numbered room self.old.rooms) (λ r. row.len ≤ r.bytes) }
        requires absent { row_of row.file row.block self.old.rows ≡ None }
        ensures rooms { self.new.rooms ≡ rooms_without room self.old.rooms }
        ensures fewer { length self.new.rooms + 1 ≤ length self.old.rooms }
        ensures rows { self.new.rows ≡ self.old.rows ++ copied_of row ∷ [] }
        ensures next { self.new.next ≡ self.old.next }
        ensures sizes { self.new.sizes ≡ self.old.sizes }
    {
        free_rooms(&mut self.taken, &self.rooms, room);
        remove_rooms(&mut self.rooms, room);
        take_bytes(&mut self.taken, &self.sizes, row.tier, row.len);
        append_row(&mut self.rows, row);
    }

    /// Frees the bytes of a reservation that is there. It takes no memory.
    pub fn cancel(&mut self, room: RoomNo)
        requires { IsTrue (is_some (room_numbered room self.old.rooms)) }
        ensures rooms { self.new.rooms ≡ rooms_without room self.old.rooms }
        ensures fewer { length self.new.rooms + 1 ≤ length self.old.rooms }
        ensures rows { self.new.rows ≡ self.old.rows }
        ensures next { self.new.next ≡ self.old.next }
        ensures sizes { self.new.sizes ≡ self.old.sizes }
    {
        free_rooms(&mut self.taken, &self.rooms, room);
        remove_rooms(&mut self.rooms, room);
    }

    /// Drops the row of a block and frees its bytes; false exactly where there is no such row. It takes no memory.
    pub fn drop_row(&mut self, file: FileId, block: BlockNo) -> bool
        ensures there { result ≡ is_some (row_of file block self.old.rows) }
        ensures rows { self.new.rows ≡ rows_without file block self.old.rows }
        ensures rooms { self.new.rooms ≡ self.old.rooms }
        ensures next { self.new.next ≡ self.old.next }
        ensures sizes { self.new.sizes ≡ self.old.sizes }
    {
        let there = find_row(&self.rows, file, block).is_some();
        free_rows(&mut self.taken, &self.rows, file, block);
        remove_rows(&mut self.rows, file, block);
        there
    }

    /// Sets the flags of the row of a block; false exactly where there is no such row. It takes no memory.
    pub fn flag(&mut self, file: FileId, block: BlockNo, flags: Flags) -> bool
        ensures there { result ≡ is_some (row_of file block self.old.rows) }
        ensures rows { self.new.rows ≡ flagged file block flags self.old.rows }
        ensures rooms { self.new.rooms ≡ self.old.rooms }
        ensures next { self.new.next ≡ self.old.next }
        ensures sizes { self.new.sizes ≡ self.old.sizes }
    {
        let there = find_row(&self.rows, file, block).is_some();
        set_flags(&mut self.rows, file, block, flags);
        there
    }

    /// Makes the row with this object number the one that was used last; nothing changes where there is none. It
    /// takes no memory.
    pub fn used(&mut self, number: u64)
        ensures rows { self.new.rows ≡ used number self.old.rows }
        ensures rooms { self.new.rooms ≡ self.old.rooms }
        ensures next { self.new.next ≡ self.old.next }
        ensures sizes { self.new.sizes ≡ self.old.sizes }
    {
        move_last(&mut self.rows, number);
    }
}
