//! A worker, as the core keeps it.

ghost use Rattle.std.specs.Prelude.{◌≡◌, ◌≤◌, ◌+◌, length, vec_len, vec_capacity};

use fs_model::numbers::{BlockNo, FileId, TierNo};
use tier_book::book::Book;
use tier_book::room::RoomNo;

/// A worker: its tiers, and the book of what they hold. The book has the sizes of these tiers.
#[derive(Debug, Drop)]
pub struct Node<O> {
    /// Whether it runs.
    pub running: bool,
    /// How often it was started.
    pub started: u64,
    /// Its blocks and reservations. The number of a reservation is also that of its object.
    pub book: Book,
    /// The numbers of objects that belong to no block, the oldest first. It has a place for each reservation.
    pub litter: Vec<u64>,
    /// Its tiers.
    pub tiers: Vec<O>,
    ghost sized: { length tiers.items ≡ length book.sizes },
    ghost spare: { vec_len litter + length book.rooms ≤ vec_capacity litter },
}

/// Room for a block, and the writer of its object.
#[derive(Debug, Drop)]
pub struct Space<W> {
    pub room: RoomNo,
    pub writer: W,
}

/// A block that is read: its reader, and the tier of its object.
#[derive(Debug, Drop)]
pub struct Opened<R> {
    pub reader: R,
    pub tier: TierNo,
}

/// A block that is committed: which one, how many bytes it has, and the flags of its row.
#[derive(Debug, Clone, Copy, PartialEq, Eq)]
pub struct Finished {
    pub file: FileId,
    pub block: BlockNo,
    pub len: u64,
    pub keep: bool,
    pub pin: bool,
}
