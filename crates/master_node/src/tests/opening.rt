//! Openings, and what is written after them.

use super::{FIRST, SECOND, change, checkpoint, has_bytes, has_names, mkdir, open, opened};
use crate::master::Master;
use fs_model::stop::Stop;
use journal_disk::AppendFault;
use journal_entry::entry::Entry;
use outside_mem::MemDisk;
use std::alloc::Global;
use std::process::Abort;
use std::test::Fail;

/// So many of the bytes.
fn cut(bytes: &[u8], end: usize) -> &[u8] {
    bytes.get(..end).unwrap_or(bytes)
}

/// A master over fresh areas, after `mkdir /a`.
fn begun(rt: &impl Abort, alloc: Global) -> Result<Master<MemDisk>, Fail> {
    let mut master = opened(alloc, b"", b"")?;
    let entry = mkdir(alloc, "/a")?;
    assert_eq!(rt; change(rt, &mut master, &entry), Ok(()));
    Ok(master)
}

#[test]
fn a_fresh_opening_writes_the_first_checkpoint(rt: HostRuntime) -> Result<(), Fail> {
    let alloc = rt.alloc();
    let master = opened(alloc, b"", b"")?;
    has_names(&rt, alloc, &master, &[])?;
    let mut first = Vec::from_slice(alloc, cut(FIRST, 54))?;
    first.push(0)?;
    has_bytes(&rt, master, &first, b"");
    Ok(())
}

#[test]
fn a_change_is_appended(rt: HostRuntime) -> Result<(), Fail> {
    let alloc = rt.alloc();
    let master = begun(&rt, alloc)?;
    has_names(&rt, alloc, &master, &["a"])?;
    has_bytes(&rt, master, FIRST, b"");
    Ok(())
}

#[test]
fn a_checkpoint_goes_into_the_other_area(rt: HostRuntime) -> Result<(), Fail> {
    let alloc = rt.alloc();
    let mut master = begun(&rt, alloc)?;
    assert_eq!(rt; checkpoint(&rt, alloc, &mut master), Ok(()));
    has_names(&rt, alloc, &master, &["a"])?;
    has_bytes(&rt, master, FIRST, SECOND);
    Ok(())
}

/// Checks that an opening ends so.
fn stops(rt: &impl Abort, alloc: Global, a: &[u8], why: Stop) -> Result<(), Fail> {
    match open(alloc, a, b"")? {
        Ok(_) => Err(Fail::from("the areas are opened")),
        Err(stop) => {
            assert_eq!(rt; stop, why);
            Ok(())
        }
    }
}

/// The first area with another byte at this place.
fn changed(alloc: Global, place: usize, byte: u8) -> Result<Vec<u8>, Fail> {
    let mut area = Vec::from_slice(alloc, FIRST)?;
    if let Some(at) = area.get_mut(place) {
        *at = byte;
    }
    Ok(area)
}

#[test]
fn a_mount_that_is_missing_or_in_no_store_stops(rt: HostRuntime) -> Result<(), Fail> {
    let alloc = rt.alloc();
    // The mount's gate is closed.
    stops(&rt, alloc, &changed(alloc, 31, 0)?, Stop::Setup)?;
    // Store 2 isn't configured, and there is no store 0.
    stops(&rt, alloc, &changed(alloc, 43, 2)?, Stop::Setup)?;
    stops(&rt, alloc, &changed(alloc, 43, 0)?, Stop::Setup)
}

#[test]
fn damage_has_its_place(rt: HostRuntime) -> Result<(), Fail> {
    let alloc = rt.alloc();
    let damaged = |place| Stop::Damaged { area: 0, place };
    stops(&rt, alloc, cut(FIRST, 64), damaged(64))?;
    stops(&rt, alloc, cut(FIRST, 60), damaged(54))?;
    stops(&rt, alloc, &changed(alloc, 64, 2)?, damaged(64))?;
    stops(&rt, alloc, &changed(alloc, 59, 255)?, damaged(54))
}

/// Checks which names an opening finds.
fn finds(rt: &impl Abort, alloc: Global, a: &[u8], names: &[&str]) -> Result<(), Fail> {
    let master = opened(alloc, a, b"")?;
    has_names(rt, alloc, &master, names)
}

#[test]
fn a_gate_is_open_or_closed(rt: HostRuntime) -> Result<(), Fail> {
    let alloc = rt.alloc();
    finds(&rt, alloc, FIRST, &["a"])?;
    finds(&rt, alloc, &changed(alloc, 54, 2)?, &["a"])?;
    finds(&rt, alloc, &changed(alloc, 54, 0)?, &[])?;
    // An area that isn't open is written anew.
    finds(&rt, alloc, &changed(alloc, 0, 0)?, &[])?;
    finds(&rt, alloc, cut(FIRST, 9), &[])
}

/// The first area with so many more entries `mkdir /a`, which mean nothing.
fn longer(alloc: Global, count: usize) -> Result<Vec<u8>, Fail> {
    let entry = FIRST.get(54..64).unwrap_or(b"".as_slice());
    let mut area = Vec::from_slice(alloc, cut(FIRST, 64))?;
    for _ in 0..count {
        area.extend_from_slice(entry)?;
    }
    area.push(0)?;
    Ok(area)
}

#[test]
fn an_area_beyond_its_limit_takes_no_more(rt: HostRuntime) -> Result<(), Fail> {
    let alloc = rt.alloc();
    let mut master = opened(alloc, &longer(alloc, 500)?, b"")?;
    has_names(&rt, alloc, &master, &["a"])?;
    let entry = mkdir(alloc, "/b")?;
    assert_eq!(rt; change(&rt, &mut master, &entry), Err(AppendFault::Full));
    has_names(&rt, alloc, &master, &["a"])?;
    // A checkpoint is short again.
    assert_eq!(rt; checkpoint(&rt, alloc, &mut master), Ok(()));
    assert_eq!(rt; change(&rt, &mut master, &entry), Ok(()));
    has_names(&rt, alloc, &master, &["a", "b"])
}

/// Journals an entry as often as this.
fn change_often(
    rt: &impl Abort,
    master: &mut Master<MemDisk>,
    entry: &Entry,
    count: usize,
) -> Result<(), Fail> {
    for _ in 0..count {
        assert_eq!(rt; change(rt, master, entry), Ok(()));
    }
    Ok(())
}

#[test]
fn an_area_is_filled_to_its_limit(rt: HostRuntime) -> Result<(), Fail> {
    let alloc = rt.alloc();
    let mut master = opened(alloc, FIRST, b"")?;
    let entry = mkdir(alloc, "/b")?;
    // Each takes ten bytes, from place 64 on, with the closed gate within 4,096 bytes.
    assert!(rt; !master.lacks_room(9));
    change_often(&rt, &mut master, &entry, 403)?;
    assert!(rt; master.lacks_room(9));
    assert_eq!(rt; change(&rt, &mut master, &entry), Err(AppendFault::Full));
    Ok(())
}

/// The first area with the last generation.
fn last_generation(alloc: Global) -> Result<Vec<u8>, Fail> {
    let mut area = Vec::from_slice(alloc, FIRST)?;
    for place in 1..9 {
        if let Some(at) = area.get_mut(place) {
            *at = 255;
        }
    }
    Ok(area)
}

#[test]
fn the_last_generation_has_no_next(rt: HostRuntime) -> Result<(), Fail> {
    let alloc = rt.alloc();
    let mut master = opened(alloc, &last_generation(alloc)?, SECOND)?;
    assert_eq!(rt; checkpoint(&rt, alloc, &mut master), Err(AppendFault::Full));
    let entry = mkdir(alloc, "/b")?;
    assert_eq!(rt; change(&rt, &mut master, &entry), Ok(()));
    has_names(&rt, alloc, &master, &["a", "b"])
}
