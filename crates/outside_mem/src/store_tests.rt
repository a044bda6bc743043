//! The readers, writers and objects in memory, on small tables of listed calls.

mod areas;
mod lending;

use crate::{ByNumber, Failing, MemObject, MemObjects, MemReader, MemWriter};
use outside::key::Key;
use outside::objects::{Got, ObjectRead, ObjectWrite, Objects};
use outside::stream::Fault;
use outside::world::Fail;
use std::alloc::{AllocError, Global};
use std::test::Fail as Failure;

/// The key whose names stand in a text with a slash between them.
fn key_of(alloc: Global, text: &str) -> Result<Key, AllocError> {
    let mut names = Vec::new(alloc);
    for name in text.split('/') {
        names.push(String::from_str(alloc, name)?)?;
    }
    Ok(Key::from_names(names))
}

fn object_of(alloc: Global, key: &str, text: &str) -> Result<MemObject, AllocError> {
    Ok(MemObject {
        key: key_of(alloc, key)?,
        bytes: Vec::from_slice(alloc, text.as_bytes())?,
    })
}

/// A store that holds these texts under these keys.
fn store_of(alloc: Global, objects: &[(&str, &str)]) -> Result<MemObjects, AllocError> {
    let mut store = MemObjects::new(alloc);
    for (key, text) in objects {
        store.objects.push_back(object_of(alloc, key, text)?)?;
    }
    Ok(store)
}

/// Single calls by their numbers, and all from one number on.
fn failing_of(alloc: Global, calls: &[u64], from: u64) -> Result<Failing, AllocError> {
    let mut failing = Failing::listed(alloc, calls)?;
    failing.from = Some(from);
    Ok(failing)
}

fn by_number(alloc: Global, number: u64, calls: &[u64]) -> Result<Vec<ByNumber>, AllocError> {
    let mut told = Vec::new(alloc);
    told.push(ByNumber {
        number,
        failing: Failing::listed(alloc, calls)?,
    })?;
    Ok(told)
}

fn append_object(text: &mut Vec<u8>, object: &MemObject) -> Result<(), AllocError> {
    for name in object.key.as_slice() {
        text.extend_from_slice(name.as_bytes())?;
        text.push(b'/')?;
    }
    text.push(b'=')?;
    text.extend_from_slice(&object.bytes)?;
    text.push(b' ')?;
    Ok(())
}

/// Whether this text tells all that a store holds.
fn holds(alloc: Global, store: &MemObjects, want: &str) -> Result<bool, AllocError> {
    let mut text = Vec::new(alloc);
    for object in &store.objects {
        append_object(&mut text, object)?;
    }
    Ok(text.as_slice() == want.as_bytes())
}

/// What polls with this room give: the bytes, `~` where one wasn't ready, `!` where one failed, and
/// `.` where nothing was due.
fn polled<R: ObjectRead>(
    alloc: Global,
    reader: &mut R,
    polls: u32,
    room: usize,
) -> Result<Vec<u8>, AllocError> {
    let mut text = Vec::new(alloc);
    for _ in 0..polls {
        if reader.due() == 0 {
            text.push(b'.')?;
            continue;
        }
        let mut buf = [b'-'; 8];
        match reader.poll_read(&mut buf[..room.clamp(1, 8)]) {
            Got::Bytes(count) => text.extend_from_slice(&buf[..count])?,
            Got::NotReady => text.push(b'~')?,
            Got::Fault => text.push(b'!')?,
        }
    }
    Ok(text)
}

/// Whether this is what polls with this room give.
fn gives<R: ObjectRead>(
    alloc: Global,
    reader: &mut R,
    polls: u32,
    room: usize,
    want: &str,
) -> Result<bool, AllocError> {
    Ok(polled(alloc, reader, polls, room)?.as_slice() == want.as_bytes())
}

/// Writes a text to a key, as a program does that knows the trait alone.
fn write_object<O: Objects>(objects: &mut O, key: Key, text: &str) -> Result<(), Fail> {
    let mut writer = objects.begin_write()?;
    writer.reserve(text.len() as u64)?;
    if writer.put(text.as_bytes()).is_err() || objects.finish(writer, key).is_err() {
        return Err(Fail::Failed);
    }
    Ok(())
}

/// Whether three polls of a range of an object give this, read so.
fn reads_as<O: Objects>(
    alloc: Global,
    objects: &mut O,
    key: &Key,
    at: u64,
    len: u64,
    want: &str,
) -> Result<bool, Fail> {
    let mut reader = objects.begin_read(key, at, len)?;
    Ok(gives(alloc, &mut reader, 3, 4, want)?)
}

fn writes(alloc: Global, store: &mut MemObjects, key: &str, text: &str) -> Result<(), Fail> {
    write_object(store, key_of(alloc, key)?, text)
}

fn reads(
    alloc: Global,
    store: &mut MemObjects,
    key: &str,
    at: u64,
    len: u64,
    want: &str,
) -> Result<bool, Fail> {
    reads_as(alloc, store, &key_of(alloc, key)?, at, len, want)
}

fn begins(alloc: Global, store: &mut MemObjects, key: &str, len: u64) -> Result<MemReader, Fail> {
    store.begin_read(&key_of(alloc, key)?, 0, len)
}

fn renames(alloc: Global, store: &mut MemObjects, from: &str, to: &str) -> Result<bool, Fail> {
    let from = key_of(alloc, from)?;
    match store.rename(&from, key_of(alloc, to)?) {
        Ok(there) => Ok(there),
        Err(Fault) => Err(Fail::Failed),
    }
}

fn removes(alloc: Global, store: &mut MemObjects, key: &str) -> Result<bool, Fail> {
    match store.remove(&key_of(alloc, key)?) {
        Ok(there) => Ok(there),
        Err(Fault) => Err(Fail::Failed),
    }
}

/// Whether the next key is this one, with this length, or there is none for an empty text.
fn finds(
    alloc: Global,
    store: &mut MemObjects,
    under: &str,
    after: &str,
    want: &str,
    len: u64,
) -> Result<bool, Fail> {
    let under = key_of(alloc, under)?;
    let after = key_of(alloc, after)?;
    match store.next_key(&under, Some(&after))? {
        None => Ok(want.is_empty()),
        Some((key, found_len)) => Ok(key == key_of(alloc, want)? && found_len == len),
    }
}

/// The length of the object with the least key of all, if there is one.
fn first_len(alloc: Global, store: &mut MemObjects) -> Result<Option<u64>, Fail> {
    match store.next_key(&Key::from_names(Vec::new(alloc)), None)? {
        None => Ok(None),
        Some((key, len)) => {
            drop(key);
            Ok(Some(len))
        }
    }
}

#[test]
fn polls_give_bytes_or_wait_or_fail(rt: HostRuntime) -> Result<(), Failure> {
    let mut reader = MemReader::new(Vec::from_slice(rt.alloc(), b"abcdefg")?);
    reader.waiting = Failing::listed(rt.alloc(), &[2, 4])?;
    reader.failing = Failing::listed(rt.alloc(), &[5, 4])?;
    assert!(rt; gives(rt.alloc(), &mut reader, 7, 3, "abc~def!!g.")?);
    assert_eq!(rt; (reader.calls, reader.faults, reader.waits), (6, 2, 1));
    Ok(())
}

/// A writer of which the listed puts fail, and all from one number on.
fn writer_of(alloc: Global, calls: &[u64], from: u64) -> Result<MemWriter, AllocError> {
    let mut writer = MemWriter::new(alloc)?;
    writer.failing = failing_of(alloc, calls, from)?;
    Ok(writer)
}

fn puts(writer: &mut MemWriter, piece: &str) -> Result<(), Fail> {
    writer.reserve(piece.len() as u64)?;
    match writer.put(piece.as_bytes()) {
        Ok(()) => Ok(()),
        Err(Fault) => Err(Fail::Failed),
    }
}

#[test]
fn puts_take_whole_pieces_or_fail(rt: HostRuntime) -> Result<(), Failure> {
    let mut writer = writer_of(rt.alloc(), &[2], 4)?;
    for (piece, want) in [
        ("ab", Ok(())),
        ("cd", Err(Fail::Failed)),
        ("cde", Ok(())),
        ("f", Err(Fail::Failed)),
        ("f", Err(Fail::Failed)),
    ] {
        assert_eq!(rt; puts(&mut writer, piece), want, "{piece}");
    }
    assert_eq!(rt; writer.bytes.as_slice(), b"abcde".as_slice());
    assert_eq!(rt; (writer.len(), writer.calls, writer.faults), (5, 5, 3));
    Ok(())
}

#[test]
fn what_is_written_is_read_moved_and_removed(rt: HostRuntime) -> Result<(), Failure> {
    let alloc = rt.alloc();
    let mut store = MemObjects::new(alloc);
    assert_eq!(rt; writes(alloc, &mut store, "a/b", "old"), Ok(()));
    assert_eq!(rt; writes(alloc, &mut store, "a/b", "text"), Ok(()));
    assert_eq!(rt; reads(alloc, &mut store, "a/b", 1, 2, "ex.."), Ok(true));
    assert_eq!(rt; renames(alloc, &mut store, "a/b", "a/c"), Ok(true));
    assert_eq!(rt; renames(alloc, &mut store, "a/b", "a/c"), Ok(false));
    assert_eq!(rt; holds(alloc, &store, "a/c/=text "), Ok(true));
    assert_eq!(rt; removes(alloc, &mut store, "a/b"), Ok(false));
    assert_eq!(rt; removes(alloc, &mut store, "a/c"), Ok(true));
    assert_eq!(rt; writes(alloc, &mut store, "a", "x"), Ok(()));
    assert_eq!(rt; store.clear(), Ok(()));
    assert!(rt; store.objects.is_empty());
    assert_eq!(rt; (store.faults, store.misses, store.changes), (0, 0, 6));
    Ok(())
}

#[test]
fn reads_fail_where_listed_and_at_a_miss(rt: HostRuntime) -> Result<(), Failure> {
    let mut store = store_of(rt.alloc(), &[("a", "text")])?;
    store.calls.begin_reads.failing = failing_of(rt.alloc(), &[2, 4], 7)?;
    for (key, at, len, want, faults, misses) in [
        ("a", 0, 4, Ok(true), 0, 0),
        ("a", 0, 4, Err(Fail::Failed), 1, 0),
        ("a", 2, 3, Err(Fail::Failed), 1, 1),
        ("b", 0, 0, Err(Fail::Failed), 2, 2),
        ("a", u64::MAX, u64::MAX, Err(Fail::Failed), 2, 3),
        ("a", 4, 0, Ok(false), 2, 3),
        ("a", 0, 4, Err(Fail::Failed), 3, 3),
        ("a", 0, 4, Err(Fail::Failed), 4, 3),
    ] {
        let got = reads(rt.alloc(), &mut store, key, at, len, "text..");
        assert_eq!(rt; got, want, "{at} {len}");
        assert_eq!(rt; (store.faults, store.misses), (faults, misses));
    }
    assert_eq!(rt; (store.calls.begin_reads.count, store.changes), (8, 0));
    Ok(())
}

#[test]
fn each_reader_has_its_own_polls(rt: HostRuntime) -> Result<(), Failure> {
    let mut store = store_of(rt.alloc(), &[("a", "text")])?;
    store.calls.failing_polls = by_number(rt.alloc(), 2, &[1])?;
    store.calls.waiting_polls = by_number(rt.alloc(), 1, &[1, 2])?;
    for want in ["~~text", "!text.", "text.."] {
        let got = reads(rt.alloc(), &mut store, "a", 0, 4, want);
        assert_eq!(rt; got, Ok(true), "{want}");
    }
    Ok(())
}

#[test]
fn each_writer_has_its_own_puts(rt: HostRuntime) -> Result<(), Failure> {
    let mut store = MemObjects::new(rt.alloc());
    store.calls.begin_writes.failing = failing_of(rt.alloc(), &[2], 5)?;
    store.calls.failing_puts = by_number(rt.alloc(), 3, &[1])?;
    for (key, want) in [
        ("a", Ok(())),
        ("b", Err(Fail::Failed)),
        ("c", Err(Fail::Failed)),
        ("d", Ok(())),
        ("e", Err(Fail::Failed)),
        ("f", Err(Fail::Failed)),
    ] {
        assert_eq!(rt; writes(rt.alloc(), &mut store, key, "x"), want, "{key}");
    }
    assert_eq!(rt; (store.faults, store.calls.begin_writes.count), (3, 6));
    assert!(rt; holds(rt.alloc(), &store, "d/=x a/=x ")?);
    Ok(())
}

#[test]
fn an_end_fails_where_listed_and_happens_where_told(rt: HostRuntime) -> Result<(), Failure> {
    let mut store = store_of(rt.alloc(), &[("m/n", "old")])?;
    store.calls.finishes.failing = failing_of(rt.alloc(), &[2, 3, 4], 8)?;
    store.calls.finishes.happening = Failing::listed(rt.alloc(), &[3, 4, 9])?;
    for (key, fails, faults, misses) in [
        ("a", false, 0, 0),
        ("b", true, 1, 0),
        ("c", true, 2, 0),
        ("m", true, 3, 1),
        ("m/n/o", true, 3, 2),
        ("m/n", false, 3, 2),
        ("e", false, 3, 2),
        ("f", true, 4, 2),
        ("g", true, 5, 2),
    ] {
        let got = writes(rt.alloc(), &mut store, key, "x").is_err();
        assert_eq!(rt; got, fails, "{key}");
        assert_eq!(rt; (store.faults, store.misses), (faults, misses));
    }
    assert!(rt; holds(rt.alloc(), &store, "g/=x e/=x m/n/=x c/=x a/=x ")?);
    assert_eq!(rt; (store.calls.finishes.count, store.changes), (9, 5));
    Ok(())
}

#[test]
fn a_rename_fails_where_listed_and_happens_where_told(rt: HostRuntime) -> Result<(), Failure> {
    let mut store = store_of(rt.alloc(), &[("a", "1"), ("b", "2"), ("m/n", "3")])?;
    store.calls.renames.failing = failing_of(rt.alloc(), &[2, 3], 8)?;
    store.calls.renames.happening = Failing::listed(rt.alloc(), &[3, 9])?;
    for (from, to, want, faults, misses) in [
        ("a", "b", Ok(true), 0, 0),
        ("b", "c", Err(Fail::Failed), 1, 0),
        ("b", "d", Err(Fail::Failed), 2, 0),
        ("d", "m", Err(Fail::Failed), 2, 1),
        ("m/n", "m", Ok(true), 2, 1),
        ("d", "m/o", Err(Fail::Failed), 2, 2),
        ("x", "m/o", Ok(false), 2, 2),
        ("m", "e", Err(Fail::Failed), 3, 2),
        ("m", "f", Err(Fail::Failed), 4, 2),
    ] {
        let got = renames(rt.alloc(), &mut store, from, to);
        assert_eq!(rt; got, want, "{from} {to}");
        assert_eq!(rt; (store.faults, store.misses), (faults, misses));
    }
    assert!(rt; holds(rt.alloc(), &store, "f/=3 d/=1 ")?);
    assert_eq!(rt; (store.calls.renames.count, store.changes), (9, 4));
    Ok(())
}

#[test]
fn a_removal_fails_where_listed_and_happens_where_told(rt: HostRuntime) -> Result<(), Failure> {
    let mut store = store_of(
        rt.alloc(),
        &[("a", "1"), ("b", "2"), ("c", "3"), ("d", "4")],
    )?;
    store.calls.removes.failing = failing_of(rt.alloc(), &[2, 3], 6)?;
    store.calls.removes.happening = Failing::listed(rt.alloc(), &[3])?;
    for (key, want, faults) in [
        ("a", Ok(true), 0),
        ("b", Err(Fail::Failed), 1),
        ("c", Err(Fail::Failed), 2),
        ("c", Ok(false), 2),
        ("d", Ok(true), 2),
        ("b", Err(Fail::Failed), 3),
        ("b", Err(Fail::Failed), 4),
    ] {
        assert_eq!(rt; removes(rt.alloc(), &mut store, key), want, "{key}");
        assert_eq!(rt; (store.faults, store.misses), (faults, 0));
    }
    assert!(rt; holds(rt.alloc(), &store, "b/=2 ")?);
    assert_eq!(rt; (store.calls.removes.count, store.changes), (7, 3));
    Ok(())
}

#[test]
fn a_clear_that_fails_removes_one_object(rt: HostRuntime) -> Result<(), Failure> {
    let mut store = store_of(rt.alloc(), &[("a", "1"), ("b", "2"), ("c", "3")])?;
    store.calls.clears.failing = failing_of(rt.alloc(), &[1], 4)?;
    for (want, left, faults, changes) in [
        (Err(Fault), 2, 1, 1),
        (Ok(()), 0, 1, 2),
        (Ok(()), 0, 1, 2),
        (Err(Fault), 0, 2, 2),
        (Err(Fault), 0, 3, 2),
    ] {
        assert_eq!(rt; store.clear(), want);
        assert_eq!(rt; store.objects.len(), left);
        assert_eq!(rt; (store.faults, store.changes), (faults, changes));
    }
    assert_eq!(rt; store.calls.clears.count, 5);
    Ok(())
}

#[test]
fn no_change_is_made_that_can_not_be_counted(rt: HostRuntime) -> Result<(), Failure> {
    let alloc = rt.alloc();
    let mut store = store_of(alloc, &[("a", "1")])?;
    store.changes = u64::MAX;
    assert_eq!(rt; writes(alloc, &mut store, "a", "2"), Err(Fail::Failed));
    assert_eq!(rt; renames(alloc, &mut store, "a", "b"), Err(Fail::Failed));
    assert_eq!(rt; removes(alloc, &mut store, "a"), Err(Fail::Failed));
    assert_eq!(rt; store.clear(), Err(Fault));
    assert_eq!(rt; holds(alloc, &store, "a/=1 "), Ok(true));
    assert_eq!(rt; (store.faults, store.changes), (4, u64::MAX));
    Ok(())
}

#[test]
fn keys_are_found_in_the_order_of_their_bytes(rt: HostRuntime) -> Result<(), Failure> {
    let held = [
        ("n/2", "two"),
        ("m", ""),
        ("n/10", "ten10"),
        ("na", "x"),
        ("n/1/x", "y"),
    ];
    let mut store = store_of(rt.alloc(), &held)?;
    for (under, after, want, len) in [
        ("n", "a", "n/1/x", 1),
        ("n", "n/1/x", "n/10", 5),
        ("n", "n/10", "n/2", 3),
        ("n", "n/2", "", 0),
        ("n/2", "n/10", "n/2", 3),
        ("n/3", "a", "", 0),
        ("m", "a", "m", 0),
    ] {
        let found = finds(rt.alloc(), &mut store, under, after, want, len);
        assert_eq!(rt; found, Ok(true), "{under} {after}");
    }
    assert_eq!(rt; (store.calls.next_keys.count, store.changes), (7, 0));
    Ok(())
}

#[test]
fn a_search_for_a_key_fails_where_listed(rt: HostRuntime) -> Result<(), Failure> {
    let mut store = store_of(rt.alloc(), &[("b", "22"), ("a", "1")])?;
    store.calls.next_keys.failing = failing_of(rt.alloc(), &[2], 4)?;
    for want in [
        Ok(Some(1)),
        Err(Fail::Failed),
        Ok(Some(1)),
        Err(Fail::Failed),
        Err(Fail::Failed),
    ] {
        assert_eq!(rt; first_len(rt.alloc(), &mut store), want);
    }
    assert_eq!(rt; (store.faults, store.misses, store.changes), (3, 0, 0));
    Ok(())
}

/// What befalls an object whose reader goes on.
#[derive(Debug, Clone, Copy)]
enum Change {
    Replaced,
    Renamed,
    Removed,
    Cleared,
}

/// Whether it could be done.
fn befalls(alloc: Global, store: &mut MemObjects, change: Change) -> bool {
    match change {
        Change::Replaced => writes(alloc, store, "a", "new").is_ok(),
        Change::Renamed => renames(alloc, store, "a", "b").is_ok(),
        Change::Removed => removes(alloc, store, "a").is_ok(),
        Change::Cleared => store.clear().is_ok(),
    }
}

/// Whether a reader gives what its object had, whatever befalls it after the first byte.
fn goes_on(alloc: Global, store: &mut MemObjects, change: Change) -> Result<bool, Fail> {
    let mut reader = begins(alloc, store, "a", 4)?;
    let first = gives(alloc, &mut reader, 1, 1, "t")?;
    let done = befalls(alloc, store, change);
    let rest = gives(alloc, &mut reader, 2, 8, "ext.")?;
    Ok(first && done && rest)
}

#[test]
fn a_reader_goes_on_whatever_befalls_its_object(rt: HostRuntime) -> Result<(), Failure> {
    for change in [
        Change::Replaced,
        Change::Renamed,
        Change::Removed,
        Change::Cleared,
    ] {
        let mut store = store_of(rt.alloc(), &[("a", "text")])?;
        assert_eq!(rt;
            goes_on(rt.alloc(), &mut store, change),
            Ok(true),
            "{change:?}"
        );
        assert_eq!(rt; store.changes, 1);
    }
    Ok(())
}
