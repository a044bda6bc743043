//! What a book answers after each call.

use crate::book::Book;
use crate::room::RoomNo;
use crate::row::{BlockRow, Flags};
use fs_model::numbers::{BlockNo, FileId, TierNo};
use std::alloc::Global;
use std::test::Fail;

/// The row of block 3 of a file.
fn row(file: u64, tier: u32, len: u64, number: u64) -> BlockRow {
    BlockRow {
        file: FileId(file),
        block: BlockNo(3),
        tier: TierNo(tier),
        len,
        number,
        keep: true,
        pin: false,
        free: false,
    }
}

/// The free bytes of a tier; 0 where there is no such tier.
fn free(book: &Book, tier: u32) -> u64 {
    if tier as usize >= book.tiers() {
        return 0;
    }
    book.free_bytes(TierNo(tier))
}

/// Reserves bytes where they are free, and gives the number, or else 0.
fn reserve(book: &mut Book, tier: u32, n: u64) -> Result<u64, Fail> {
    if tier as usize >= book.tiers() {
        return Ok(0);
    }
    if n > book.free_bytes(TierNo(tier)) {
        return Ok(0);
    }
    let room = book.reserve(TierNo(tier), n)?;
    Ok(room.0)
}

/// Makes a row of a reservation where it may be made, and says whether it was.
fn commit(book: &mut Book, room: u64, row: BlockRow) -> bool {
    let Some(kept) = book.room(RoomNo(room)) else {
        return false;
    };
    if kept.tier != row.tier {
        return false;
    }
    if row.len > kept.bytes {
        return false;
    }
    if book.row(row.file, row.block).is_some() {
        return false;
    }
    book.commit(RoomNo(room), row);
    true
}

/// Cancels a reservation that is there, and says whether it was.
fn cancel(book: &mut Book, room: u64) -> bool {
    if book.room(RoomNo(room)).is_none() {
        return false;
    }
    book.cancel(RoomNo(room));
    true
}

/// A book of two tiers with the rows of the files 7, 8 and 9, of 10, 20 and 30 bytes.
fn sample(alloc: Global) -> Result<Book, Fail> {
    let mut book = Book::new(alloc, &[100, 50])?;
    for (file, tier, len) in [(7, 0, 10), (8, 1, 20), (9, 0, 30)] {
        let room = reserve(&mut book, tier, len)?;
        commit(&mut book, room, row(file, tier, len, room));
    }
    Ok(book)
}

#[test]
fn reserved_bytes_are_not_free(rt: HostRuntime) -> Result<(), Fail> {
    let mut book = Book::new(rt.alloc(), &[100, 50])?;
    for (tier, n, number, left) in [
        (0, 60, 1, 40),
        (0, 41, 0, 40),
        (1, 50, 2, 0),
        (0, 40, 3, 0),
        (0, 0, 4, 0),
        (2, 0, 0, 0),
    ] {
        assert_eq!(rt; reserve(&mut book, tier, n)?, number);
        assert_eq!(rt; free(&book, tier), left);
    }
    assert_eq!(rt; book.rooms().len(), 4);
    for (room, there, first, second) in [
        (2, true, 0, 50),
        (2, false, 0, 50),
        (1, true, 60, 50),
        (5, false, 60, 50),
    ] {
        assert_eq!(rt; cancel(&mut book, room), there);
        assert_eq!(rt; free(&book, 0), first);
        assert_eq!(rt; free(&book, 1), second);
    }
    Ok(())
}

#[test]
fn a_row_takes_its_own_bytes(rt: HostRuntime) -> Result<(), Fail> {
    let mut book = Book::new(rt.alloc(), &[100, 50])?;
    for (file, tier, n, len, made, left) in [
        (7, 0, 60, 10, true, 90),
        (7, 0, 20, 20, false, 70),
        (8, 0, 20, 21, false, 50),
        (8, 1, 50, 50, true, 0),
        (9, 1, 0, 0, true, 0),
    ] {
        let room = reserve(&mut book, tier, n)?;
        assert_eq!(rt; commit(&mut book, room, row(file, tier, len, room)), made);
        assert_eq!(rt; free(&book, tier), left);
    }
    for (file, there, first, second) in [
        (8, true, 50, 50),
        (8, false, 50, 50),
        (7, true, 60, 50),
        (6, false, 60, 50),
    ] {
        assert_eq!(rt; book.drop_row(FileId(file), BlockNo(3)), there);
        assert_eq!(rt; free(&book, 0), first);
        assert_eq!(rt; free(&book, 1), second);
    }
    Ok(())
}

#[test]
fn the_first_tier_with_room_is_found(rt: HostRuntime) -> Result<(), Fail> {
    let book = sample(rt.alloc())?;
    for (n, tier) in [(0, Some(TierNo(0))), (60, Some(TierNo(0))), (61, None)] {
        assert_eq!(rt; book.first_fit(n), tier);
    }
    let wide = Book::new(rt.alloc(), &[10, 30, 20])?;
    for (n, tier) in [(11, Some(TierNo(1))), (30, Some(TierNo(1))), (31, None)] {
        assert_eq!(rt; wide.first_fit(n), tier);
    }
    Ok(())
}

#[test]
fn the_row_used_last_stands_last(rt: HostRuntime) -> Result<(), Fail> {
    let mut book = sample(rt.alloc())?;
    for (number, order) in [
        (1, [8, 9, 7]),
        (3, [8, 7, 9]),
        (3, [8, 7, 9]),
        (4, [8, 7, 9]),
        (2, [7, 9, 8]),
    ] {
        book.used(number);
        for (place, row) in book.rows().iter().enumerate() {
            assert_eq!(rt; Some(&row.file.0), order.get(place));
        }
    }
    Ok(())
}

#[test]
fn flags_are_set_on_one_row(rt: HostRuntime) -> Result<(), Fail> {
    let mut book = sample(rt.alloc())?;
    let flags = Flags {
        keep: false,
        pin: true,
        free: true,
    };
    assert!(rt; book.flag(FileId(8), BlockNo(3), flags));
    assert!(rt; !book.flag(FileId(8), BlockNo(4), flags));
    for (file, number, pin) in [(7, 1, false), (8, 2, true), (9, 3, false)] {
        let row = book.row(FileId(file), BlockNo(3));
        assert_eq!(rt; row.map(|row| row.pin), Some(pin));
        assert_eq!(rt; book.numbered(number), row);
    }
    assert_eq!(rt; book.numbered(4), None);
    Ok(())
}
