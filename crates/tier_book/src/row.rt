//! Rows: the blocks that a worker has.

ghost use Rattle.std.specs.Prelude.{◌≡◌, ℕ, ◌+◌, ◌-◌, ◌≤◌, ◌<◌, ◌∷◌, [], ◌++◌, length, map, take, drop, get_or, option_map, vec_len, vec_capacity};
ghost use Rattle.std.specs.List.{All};
ghost use Rattle.fs_model.specs.Updates.{used};
ghost use Rattle.tier_book.specs.Rows.{copied_of, row_sum, is_block, with_flags, row_of, row_numbered, rows_with, rows_without, flagged};

use crate::tier::give_bytes;
use fs_model::numbers::{BlockNo, FileId, TierNo};

/// A block that a worker has.
#[derive(Clone, Copy, Debug, PartialEq, Eq)]
pub struct BlockRow {
    /// The file that the block is of.
    pub file: FileId,
    /// Which block of the file.
    pub block: BlockNo,
    /// The tier at which its bytes lie.
    pub tier: TierNo,
    /// How many bytes it has.
    pub len: u64,
    /// The number of the object with its bytes.
    pub number: u64,
    /// Whether it must be kept, since its file isn't stored.
    pub keep: bool,
    /// Whether its file is pinned.
    pub pin: bool,
    /// Whether it goes once nobody holds it.
    pub free: bool,
}

/// The flags of a row.
#[derive(Clone, Copy, Debug, PartialEq, Eq)]
pub struct Flags {
    /// Whether the block must be kept, since its file isn't stored.
    pub keep: bool,
    /// Whether its file is pinned.
    pub pin: bool,
    /// Whether it goes once nobody holds it.
    pub free: bool,
}

impl BlockRow {
    /// Whether the row is of this block.
    fn is_of(&self, file: FileId, block: BlockNo) -> bool
        ensures { result ≡ is_block file block (copied_of self.now) }
    {
        self.file == file && self.block == block
    }

    /// Gives the row these flags.
    fn set(&mut self, flags: Flags)
        ensures { copied_of self.new ≡ with_flags flags (copied_of self.old) }
    {
        self.keep = flags.keep;
        self.pin = flags.pin;
        self.free = flags.free;
    }
}

/// The row of a block.
pub(crate) fn find_row(rows: &[BlockRow], file: FileId, block: BlockNo) -> Option<BlockRow>
    ensures { option_map copied_of result ≡ row_of file block (map copied_of rows.now) }
{
    for row in rows {
        if row.is_of(file, block) {
            return Some(*row);
        }
    }
    None
}

/// The row with this object number.
pub(crate) fn find_number(rows: &[BlockRow], number: u64) -> Option<BlockRow>
    ensures { option_map copied_of result ≡ row_numbered number (map copied_of rows.now) }
{
    for row in rows {
        if row.number == number {
            return Some(*row);
        }
    }
    None
}

/// Takes the bytes of the rows of this block off what is taken of their tiers.
pub(crate) fn free_rows(taken: &mut [u64], rows: &[BlockRow], file: FileId, block: BlockNo)
    requires tiers { All (λ c. c.tier < length taken.old) (map copied_of rows.now) }
    requires taken { (t : ℕ) → t < length taken.old → row_sum t (map copied_of rows.now) ≤ get_or taken.old t 0 }
    ensures len { length taken.new ≡ length taken.old }
    ensures freed { (t : ℕ) → t < length taken.old → get_or taken.new t 0 + row_sum t (rows_with file block (map copied_of rows.now)) ≡ get_or taken.old t 0 }
{
    for row in rows {
        if row.is_of(file, block) {
            give_bytes(taken, row.tier, row.len);
        }
    }
}

/// Takes the rows of this block out of the list.
pub(crate) fn remove_rows(rows: &mut Vec<BlockRow>, file: FileId, block: BlockNo)
    ensures items { map copied_of rows.new.items ≡ rows_without file block (map copied_of rows.old.items) }
    ensures bound { length rows.new.items ≤ length rows.old.items }
    ensures capacity { vec_capacity rows.new ≡ vec_capacity rows.old }
{
    rows.retain(|row| !row.is_of(file, block));
}

/// Puts a row at the end of a list that has a place for it.
pub(crate) fn append_row(rows: &mut Vec<BlockRow>, row: BlockRow)
    requires { vec_len rows.old < vec_capacity rows.old }
    ensures items { rows.new.items ≡ rows.old.items ++ row ∷ [] }
    ensures capacity { vec_capacity rows.old ≤ vec_capacity rows.new }
{
    let _appended = rows.push(row);
}

/// Sets the flags of the rows of this block.
pub(crate) fn set_flags(rows: &mut [BlockRow], file: FileId, block: BlockNo, flags: Flags)
    ensures { map copied_of rows.new ≡ flagged file block flags (map copied_of rows.old) }
{
    for row in rows.iter_mut() {
        if row.is_of(file, block) {
            row.set(flags);
        }
    }
}

/// Moves the row at `place` before those from `front` on.
fn move_forward(rows: &mut [BlockRow], front: usize, place: usize)
    requires order { front ≤ place }
    requires within { place < length rows.old }
    ensures { rows.new ≡ take front rows.old ++ take 1 (drop place rows.old) ++ take (place - front) (drop front rows.old) ++ drop (place + 1) rows.old }
{
    rows[front..=place].rotate_right(1);
}

/// Moves the rows with this object number behind all others, and keeps the order else.
pub(crate) fn move_last(rows: &mut [BlockRow], number: u64)
    ensures { map copied_of rows.new ≡ used number (map copied_of rows.old) }
{
    let mut passed = 0;
    for place in 0..rows.len() {
        if rows[place].number != number {
            move_forward(rows, passed, place);
            passed += 1;
        }
    }
}
