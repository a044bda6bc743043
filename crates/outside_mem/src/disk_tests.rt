//! The disk in memory, by itself and with a fuse before it, on small tables of calls.

ghost use Rattle.std.specs.Prelude.{◌≡◌, IsTrue, OnOk};
ghost use Rattle.outside.specs.History.{after_sync, written};

use crate::{DiskMoment, Failing, MemDisk, Pick};
use outside::disk::Disk;
use outside::fused::Fused;
use outside::stream::Fault;
use outside::world::Fail;
use std::alloc::{AllocError, Global};
use std::test::Fail as Failure;

fn disk_of(alloc: Global, text: &str) -> Result<MemDisk, AllocError> {
    Ok(MemDisk::new(Vec::from_slice(alloc, text.as_bytes())?))
}

/// Single calls by their numbers, and all from one number on.
fn failing_of(alloc: Global, calls: &[u64], from: u64) -> Result<Failing, AllocError> {
    let mut failing = Failing::listed(alloc, calls)?;
    failing.from = Some(from);
    Ok(failing)
}

fn done(call: Result<(), Fault>) -> Result<(), Fail> {
    match call {
        Ok(()) => Ok(()),
        Err(Fault) => Err(Fail::Failed),
    }
}

/// Writes a text, for which it reserves one call. The place is within the disk.
fn writes(disk: &mut MemDisk, at: u64, text: &str) -> Result<(), Fail> {
    let len = text.len() as u64;
    let Some(end) = at.checked_add(len) else {
        return Err(Fail::Memory);
    };
    if at > disk.bytes().len() as u64 {
        return Err(Fail::Memory);
    }
    disk.reserve(end, len, 1)?;
    done(disk.write_at(at, text.as_bytes()))
}

/// Syncs, for which it reserves one call.
fn syncs(disk: &mut MemDisk) -> Result<(), Fail> {
    disk.reserve(0, 0, 1)?;
    done(disk.sync())
}

/// How many bytes a read gives, where it leaves this in a buffer of which it had a part.
fn reads(disk: &mut MemDisk, at: u64, room: usize, want: &str) -> Option<usize> {
    let mut buf = [b'-'; 8];
    let count = disk.read_at(at, &mut buf[..room.min(8)]).ok()?;
    if buf.as_slice() == want.as_bytes() {
        Some(count)
    } else {
        None
    }
}

fn append_number(text: &mut Vec<u8>, number: u64) -> Result<(), AllocError> {
    text.push(b'0' + (number % 10) as u8)?;
    Ok(())
}

/// A moment as a text: what was synced, what was held, and the ranges that were written since.
fn text_of(alloc: Global, moment: &DiskMoment) -> Result<Vec<u8>, AllocError> {
    let mut text = Vec::from_slice(alloc, &moment.synced)?;
    text.push(b'|')?;
    text.extend_from_slice(&moment.held)?;
    text.push(b'|')?;
    for (at, len) in &moment.written {
        append_number(&mut text, *at)?;
        text.push(b'+')?;
        append_number(&mut text, *len)?;
        text.push(b' ')?;
    }
    Ok(text)
}

/// Whether a moment of the disk is told by this text; an empty one says that there is none.
fn was(alloc: Global, disk: &MemDisk, number: u64, want: &str) -> Result<bool, AllocError> {
    match disk.moment(number)? {
        None => Ok(want.is_empty()),
        Some(moment) => Ok(text_of(alloc, &moment)?.as_slice() == want.as_bytes()),
    }
}

/// Writes two texts at the beginning, one over the other, and syncs, as a program does that knows
/// the trait alone and reserves once.
fn replace<D: Disk>(disk: &mut D, first: &str, second: &str) -> Result<(), Fail>
    ensures { IsTrue (D.tells disk.old) → OnOk result (D.history disk.new ≡ after_sync (written 0 second.now (written 0 first.now (D.history disk.old)))) }
{
    let most = first.len().max(second.len()) as u64;
    disk.reserve(most, most, 3)?;
    let Ok(()) = disk.write_at(0, first.as_bytes()) else {
        return Err(Fail::Failed);
    };
    let Ok(()) = disk.write_at(0, second.as_bytes()) else {
        return Err(Fail::Failed);
    };
    let Ok(()) = disk.sync() else {
        return Err(Fail::Failed);
    };
    Ok(())
}

#[test]
fn writes_go_over_what_is_there_and_past_the_end(rt: HostRuntime) -> Result<(), Failure> {
    let mut disk = disk_of(rt.alloc(), "abcdef")?;
    for (at, text, want) in [
        (0, "", "abcdef"),
        (2, "XY", "abXYef"),
        (5, "123", "abXYe123"),
        (8, "z", "abXYe123z"),
        (9, "", "abXYe123z"),
        (0, "ABCDEFGHIJ", "ABCDEFGHIJ"),
    ] {
        assert_eq!(rt; writes(&mut disk, at, text), Ok(()), "{at} {text}");
        assert_eq!(rt; disk.bytes(), want.as_bytes());
        assert_eq!(rt; disk.len(), Ok(want.len() as u64));
    }
    assert_eq!(rt; (disk.calls.writes.count, disk.calls.lens.count), (6, 6));
    assert_eq!(rt; disk.faults, 0);
    assert_eq!(rt; disk.into_bytes().as_slice(), b"ABCDEFGHIJ".as_slice());
    Ok(())
}

#[test]
fn reads_give_what_is_there_and_fits(rt: HostRuntime) -> Result<(), Failure> {
    let mut disk = disk_of(rt.alloc(), "abcdef")?;
    for (at, room, want, count) in [
        (0, 8, "abcdef--", 6),
        (0, 3, "abc-----", 3),
        (4, 8, "ef------", 2),
        (4, 0, "--------", 0),
        (6, 8, "--------", 0),
        (7, 8, "--------", 0),
        (u64::MAX, 8, "--------", 0),
    ] {
        assert_eq!(rt;
            reads(&mut disk, at, room, want),
            Some(count),
            "{at} {room}"
        );
    }
    assert_eq!(rt; disk.calls.reads.count, 7);
    Ok(())
}

#[test]
fn a_write_fails_where_listed_and_is_torn_where_told(rt: HostRuntime) -> Result<(), Failure> {
    let mut disk = disk_of(rt.alloc(), "abcdef")?;
    disk.calls.writes.failing = failing_of(rt.alloc(), &[2, 3, 4], 6)?;
    disk.calls.writes.happening = Failing::listed(rt.alloc(), &[1, 3, 4, 7])?;
    disk.torn = b'?';
    for (at, text, want, faults, held) in [
        (0, "A", Ok(()), 0, "Abcdef"),
        (1, "B", Err(Fail::Failed), 1, "Abcdef"),
        (1, "BC", Err(Fail::Failed), 2, "A??def"),
        (5, "FG", Err(Fail::Failed), 3, "A??de??"),
        (1, "BC", Ok(()), 3, "ABCde??"),
        (0, "abc", Err(Fail::Failed), 4, "ABCde??"),
        (7, "", Err(Fail::Failed), 5, "ABCde??"),
    ] {
        assert_eq!(rt; writes(&mut disk, at, text), want, "{at} {text}");
        assert_eq!(rt; disk.bytes(), held.as_bytes());
        assert_eq!(rt; disk.faults, faults);
    }
    assert_eq!(rt; (disk.calls.writes.count, disk.clock()), (7, 5));
    Ok(())
}

#[test]
fn other_calls_fail_where_listed(rt: HostRuntime) -> Result<(), Failure> {
    let mut disk = disk_of(rt.alloc(), "ab")?;
    disk.calls.lens.failing = failing_of(rt.alloc(), &[2], 4)?;
    disk.calls.reads.failing = failing_of(rt.alloc(), &[1], 3)?;
    disk.calls.syncs.failing = failing_of(rt.alloc(), &[3], 4)?;
    for (len, read, sync, faults) in [
        (Ok(2), None, Ok(()), 1),
        (Err(Fault), Some(1), Ok(()), 2),
        (Ok(2), None, Err(Fail::Failed), 4),
        (Err(Fault), None, Err(Fail::Failed), 7),
    ] {
        assert_eq!(rt; disk.len(), len);
        assert_eq!(rt; reads(&mut disk, 1, 2, "b-------"), read);
        assert_eq!(rt; syncs(&mut disk), sync);
        assert_eq!(rt; disk.faults, faults);
    }
    assert_eq!(rt; (disk.calls.syncs.count, disk.clock()), (4, 2));
    Ok(())
}

#[test]
fn each_moment_is_kept(rt: HostRuntime) -> Result<(), Failure> {
    let mut disk = disk_of(rt.alloc(), "abc")?;
    disk.calls.writes.failing = Failing::listed(rt.alloc(), &[3])?;
    disk.calls.writes.happening = Failing::listed(rt.alloc(), &[3])?;
    disk.torn = b'?';
    assert_eq!(rt; writes(&mut disk, 1, "XY"), Ok(()));
    assert_eq!(rt; writes(&mut disk, 3, "d"), Ok(()));
    assert_eq!(rt; syncs(&mut disk), Ok(()));
    assert_eq!(rt; writes(&mut disk, 2, "123"), Err(Fail::Failed));
    assert_eq!(rt; syncs(&mut disk), Ok(()));
    for (number, want) in [
        (0, "abc|abc|"),
        (1, "abc|aXY|1+2 "),
        (2, "abc|aXYd|1+2 3+1 "),
        (3, "aXYd|aXYd|"),
        (4, "aXYd|aX???|2+3 "),
        (5, "aX???|aX???|"),
        (6, ""),
        (u64::MAX, ""),
    ] {
        assert!(rt; was(rt.alloc(), &disk, number, want)?, "{number}");
    }
    assert_eq!(rt; disk.clock(), 5);
    Ok(())
}

/// Whether a place is in a range that was written since the last sync.
fn is_written(moment: &DiskMoment, place: u64) -> bool {
    for (at, len) in &moment.written {
        if *at <= place && place - *at < *len {
            return true;
        }
    }
    false
}

/// The length at the last sync, or the greatest end of a write since.
fn greatest_end(moment: &DiskMoment) -> u64 {
    let mut greatest = moment.synced.len() as u64;
    for (at, len) in &moment.written {
        greatest = greatest.max(at.saturating_add(*len));
    }
    greatest
}

/// Whether a crash at the moment may leave these bytes, place by place.
fn is_image(moment: &DiskMoment, bytes: &[u8]) -> bool {
    let len = bytes.len();
    if len < moment.synced.len() || len as u64 > greatest_end(moment) {
        return false;
    }
    for (place, byte) in moment.synced.iter().enumerate() {
        if !is_written(moment, place as u64) && bytes.get(place) != Some(byte) {
            return false;
        }
    }
    true
}

/// Whether these bytes may be left by a crash at the moment of a number; none where there was none.
fn may_leave(disk: &MemDisk, number: u64, text: &str) -> Result<Option<bool>, AllocError> {
    match disk.moment(number)? {
        None => Ok(None),
        Some(moment) => Ok(Some(is_image(&moment, text.as_bytes()))),
    }
}

/// Whether what is picked of a moment is this, which a crash may leave; an empty text says that
/// there was no moment.
fn picks(disk: &MemDisk, number: u64, pick: Pick, want: &str) -> Result<bool, AllocError> {
    match disk.image(number, pick)? {
        None => Ok(want.is_empty()),
        Some(image) => {
            let left = may_leave(disk, number, want)?;
            Ok(image.as_slice() == want.as_bytes() && left == Some(true))
        }
    }
}

/// Two writes and a sync.
fn write_twice(disk: &mut MemDisk) -> Result<(), Fail> {
    writes(disk, 1, "XY")?;
    writes(disk, 3, "Z12")?;
    syncs(disk)
}

#[test]
fn each_moment_has_its_images(rt: HostRuntime) -> Result<(), Failure> {
    let mut disk = disk_of(rt.alloc(), "abcd")?;
    assert_eq!(rt; write_twice(&mut disk), Ok(()));
    for (number, old, new, torn) in [
        (0, "abcd", "abcd", "abcd"),
        (1, "abcd", "aXYd", "a??d"),
        (2, "abcd", "aXYZ12", "a?????"),
        (3, "aXYZ12", "aXYZ12", "aXYZ12"),
        (4, "", "", ""),
    ] {
        assert!(rt; picks(&disk, number, Pick::Old, old)?, "{number}");
        assert!(rt; picks(&disk, number, Pick::New, new)?, "{number}");
        assert!(rt; picks(&disk, number, Pick::Torn(b'?'), torn)?, "{number}");
    }
    for (number, text, left) in [
        (0, "abc", Some(false)),
        (0, "abcde", Some(false)),
        (1, "aX?d", Some(true)),
        (1, "aXYD", Some(false)),
        (1, "aXYdZ", Some(false)),
        (2, "a-Yd-", Some(true)),
        (2, "?XYZ12", Some(false)),
        (2, "aXY", Some(false)),
        (3, "aXYZ1", Some(false)),
        (4, "aXYZ12", None),
    ] {
        assert_eq!(rt; may_leave(&disk, number, text)?, left, "{number} {text}");
    }
    Ok(())
}

#[test]
fn several_calls_are_reserved_at_once(rt: HostRuntime) -> Result<(), Failure> {
    let mut disk = disk_of(rt.alloc(), "")?;
    assert_eq!(rt; replace(&mut disk, "abcd", "12"), Ok(()));
    assert_eq!(rt; replace(&mut disk, "A", "xyz56"), Ok(()));
    assert!(rt; was(rt.alloc(), &disk, 3, "12cd|12cd|")?);
    assert!(rt; was(rt.alloc(), &disk, 5, "12cd|xyz56|0+1 0+5 ")?);
    assert!(rt; was(rt.alloc(), &disk, 6, "xyz56|xyz56|")?);
    Ok(())
}

#[test]
fn a_fuse_stops_the_calls_behind_it(rt: HostRuntime) -> Result<(), Failure> {
    let mut disk = Fused::new(disk_of(rt.alloc(), "ab")?);
    assert_eq!(rt; replace(&mut disk, "A", "xy"), Ok(()));
    assert_eq!(rt; disk.left(), None);
    disk.set_fuse(Some(2));
    assert_eq!(rt; replace(&mut disk, "B", "z"), Err(Fail::Failed));
    assert_eq!(rt; disk.left(), Some(0));
    assert_eq!(rt; disk.len(), Err(Fault));
    let disk = disk.into_disk();
    assert!(rt; was(rt.alloc(), &disk, 5, "xy|zy|0+1 0+1 ")?);
    assert_eq!(rt; (disk.clock(), disk.calls.syncs.count), (5, 1));
    assert_eq!(rt; (disk.calls.lens.count, disk.faults), (0, 0));
    Ok(())
}
