//! Room, commits and reads of a worker over tiers in memory.

use crate::node::{Finished, Node, Opened, Space};
use fs_model::numbers::{BlockNo, FileId, TierNo};
use outside::objects::{Got, ObjectRead, ObjectWrite};
use outside::world::Fail;
use outside_mem::{Failing, MemObjects, MemReader, MemWriter};
use std::alloc::{AllocError, Global};
use std::test::Fail as Failure;
use tier_book::room::RoomNo;

/// A tier of which these calls fail.
fn tier_of(alloc: Global, finishes: &[u64], reads: &[u64]) -> Result<MemObjects, AllocError> {
    let mut tier = MemObjects::new(alloc);
    tier.calls.finishes.failing = Failing::listed(alloc, finishes)?;
    tier.calls.begin_reads.failing = Failing::listed(alloc, reads)?;
    Ok(tier)
}

/// A worker with tiers of 10 and 20 bytes, of which these calls fail at each.
fn worker(alloc: Global, finishes: &[u64], reads: &[u64]) -> Result<Node<MemObjects>, AllocError> {
    let mut tiers = Vec::new(alloc);
    tiers.push(tier_of(alloc, finishes, reads)?)?;
    tiers.push(tier_of(alloc, finishes, reads)?)?;
    match Node::new(alloc, &[10, 20], tiers) {
        Ok(node) => Ok(node),
        Err(_) => Err(AllocError),
    }
}

/// The block 3 of a file, of so many bytes.
fn block(file: u64, len: u64) -> Finished {
    Finished {
        file: FileId(file),
        block: BlockNo(3),
        len,
        keep: true,
        pin: true,
    }
}

/// Whether the writer took the bytes.
fn takes(writer: &mut MemWriter, bytes: &[u8]) -> bool {
    match writer.reserve(bytes.len() as u64) {
        Ok(()) => writer.put(bytes).is_ok(),
        Err(_) => false,
    }
}

/// Commits a block of a file from a room with these bytes: `.`, or `!` where that failed.
fn commit(
    node: &mut Node<MemObjects>,
    alloc: Global,
    space: Space<MemWriter>,
    file: u64,
    len: u64,
) -> Result<u8, AllocError> {
    let Space { room, writer } = space;
    let key = node.key_of(alloc, room)?;
    match node.commit(room, key, writer, block(file, len)) {
        Ok(()) => Ok(b'.'),
        Err(_) => Ok(b'!'),
    }
}

/// Commits the bytes as the block of a file: `n` where there is no room for them.
fn store(node: &mut Node<MemObjects>, alloc: Global, file: u64, bytes: &[u8]) -> Result<u8, Fail> {
    let len = bytes.len() as u64;
    let Some(mut space) = node.make_space(len)? else {
        return Ok(b'n');
    };
    if !takes(&mut space.writer, bytes) {
        return Err(Fail::Failed);
    }
    Ok(commit(node, alloc, space, file, len)?)
}

/// The number of the tier of a block that is read as these bytes; `?` for other bytes.
fn told(opened: Opened<MemReader>, want: &[u8]) -> u8 {
    let mut reader = opened.reader;
    if reader.due() != want.len() as u64 || want.is_empty() {
        return b'?';
    }
    let mut buf = [0; 32];
    match reader.poll_read(&mut buf) {
        Got::Bytes(count) if &buf[..count] == want => tier_digit(opened.tier),
        _ => b'?',
    }
}

/// The digit of one of the worker's tiers.
fn tier_digit(tier: TierNo) -> u8 {
    match tier.0 {
        0 => b'0',
        1 => b'1',
        _ => b'?',
    }
}

/// What a block is read as from one place on: `n` where there is no such block.
fn read(
    node: &mut Node<MemObjects>,
    alloc: Global,
    file: u64,
    at: u64,
    want: &[u8],
) -> Result<u8, Fail> {
    let len = want.len() as u64;
    match node.open_row(alloc, FileId(file), BlockNo(3), at, len)? {
        None => Ok(b'n'),
        Some(opened) => Ok(told(opened, want)),
    }
}

/// How many bytes are free at a tier; 0 where there is no such tier.
fn free(node: &Node<MemObjects>, tier: u32) -> u64 {
    if tier as usize >= node.book.tiers() {
        return 0;
    }
    node.book.free_bytes(TierNo(tier))
}

/// How many bytes are free at each tier, and how many rooms, rows and numbers of litter there are.
fn counts(node: &Node<MemObjects>) -> (u64, u64, usize, usize, usize) {
    (
        free(node, 0),
        free(node, 1),
        node.book.rooms().len(),
        node.book.rows().len(),
        node.litter.len(),
    )
}

/// The file of the block that was used last; 0 where there is none.
fn last_file(node: &Node<MemObjects>) -> u64 {
    match node.book.rows().last() {
        None => 0,
        Some(row) => row.file.0,
    }
}

#[test]
fn a_block_goes_to_the_first_tier_with_room(rt: HostRuntime) -> Result<(), Failure> {
    let mut node = worker(rt.alloc(), &[], &[])?;
    for (file, text, want, first, second) in [
        (1, "12345678", b'.', 2, 20),
        (2, "abcde", b'.', 2, 15),
        (3, "0123456789abcdef", b'n', 2, 15),
        (4, "yz", b'.', 0, 15),
        (5, "", b'.', 0, 15),
    ] {
        let got = store(&mut node, rt.alloc(), file, text.as_bytes());
        assert_eq!(rt; got, Ok(want), "{text}");
        assert_eq!(rt; (free(&node, 0), free(&node, 1)), (first, second));
    }
    for (file, at, text, want, last) in [
        (1, 0, "12345678", b'0', 1),
        (2, 1, "bcd", b'1', 2),
        (4, 1, "z", b'0', 4),
        (6, 0, "x", b'n', 4),
    ] {
        let got = read(&mut node, rt.alloc(), file, at, text.as_bytes());
        assert_eq!(rt; got, Ok(want), "{text}");
        assert_eq!(rt; last_file(&node), last);
    }
    Ok(())
}

#[test]
fn a_lost_object_frees_its_room(rt: HostRuntime) -> Result<(), Failure> {
    let mut node = worker(rt.alloc(), &[1], &[])?;
    for (text, want, all) in [
        ("abc", b'!', (10, 20, 0, 0, 1)),
        ("xyz", b'.', (7, 20, 0, 1, 1)),
        ("abc", b'.', (7, 20, 0, 1, 1)),
    ] {
        let got = store(&mut node, rt.alloc(), 1, text.as_bytes());
        assert_eq!(rt; got, Ok(want), "{text}");
        assert_eq!(rt; counts(&node), all);
    }
    assert_eq!(rt; node.litter.first(), Some(&1));
    assert_eq!(rt; read(&mut node, rt.alloc(), 1, 0, b"xyz"), Ok(b'0'));
    Ok(())
}

/// Makes room for two bytes, and commits so many from that room, or from the one with this number.
fn misfit(node: &mut Node<MemObjects>, alloc: Global, number: u64, len: u64) -> Result<u8, Fail> {
    let Some(mut space) = node.make_space(2)? else {
        return Ok(b'n');
    };
    if number > 0 {
        space.room = RoomNo(number);
    }
    Ok(commit(node, alloc, space, 1, len)?)
}

#[test]
fn a_room_that_is_small_or_missing_commits_nothing(rt: HostRuntime) -> Result<(), Failure> {
    let mut node = worker(rt.alloc(), &[], &[])?;
    for (number, len, all) in [
        (0, 3, (10, 20, 0, 0, 0)),
        (9, 1, (8, 20, 1, 0, 0)),
        (0, 1, (7, 20, 1, 1, 0)),
    ] {
        let got = misfit(&mut node, rt.alloc(), number, len);
        assert_eq!(rt; got, Ok(b'.'), "{number}");
        assert_eq!(rt; counts(&node), all);
    }
    for number in [2, 2, 7] {
        node.free(RoomNo(number));
        assert_eq!(rt; counts(&node), (9, 20, 0, 1, 0));
    }
    Ok(())
}

#[test]
fn a_read_that_fails_is_no_use(rt: HostRuntime) -> Result<(), Failure> {
    let mut node = worker(rt.alloc(), &[], &[2])?;
    for (file, text) in [(1, "abc"), (2, "xyz")] {
        let got = store(&mut node, rt.alloc(), file, text.as_bytes());
        assert_eq!(rt; got, Ok(b'.'), "{text}");
    }
    for (file, at, text, want, last) in [
        (1, 0, "abc", Ok(b'0'), 1),
        (2, 0, "xyz", Err(Fail::Failed), 1),
        (2, 1, "yz_", Err(Fail::Failed), 1),
        (2, 0, "xyz", Ok(b'0'), 2),
    ] {
        let got = read(&mut node, rt.alloc(), file, at, text.as_bytes());
        assert_eq!(rt; got, want, "{text}");
        assert_eq!(rt; last_file(&node), last);
    }
    Ok(())
}
