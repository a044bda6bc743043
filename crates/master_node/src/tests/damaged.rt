//! Areas that are cut or changed at each place, and what their openings answer.

use super::{FIRST, SECOND, disk, open};
use fs_model::path::Path;
use fs_model::stop::Stop;
use journal_disk::{Journal, RecoverFault};
use journal_entry::entry::Entry;
use std::alloc::Global;
use std::process::Abort;
use std::test::Fail;

/// What an opening finds: the name in `/`, if there is one, or why it stops.
type Answer = Result<Option<Vec<u8>>, Stop>;

/// The name of a directory right below `/` that the entry makes.
fn made(entry: &Entry) -> Option<&[u8]> {
    let path = match entry {
        Entry::Mkdir { path } => path,
        Entry::Node {
            path,
            dir: true,
            ..
        } => path,
        _ => return None,
    };
    match path.as_slice() {
        [name] => Some(name.as_bytes()),
        _ => None,
    }
}

/// Whether the entry mounts store 1 at `/`.
fn mounts(entry: &Entry) -> bool {
    match entry {
        Entry::Mount {
            path,
            store,
            plan,
            ..
        } => path.as_slice().is_empty() && store.0 == 1 && plan.0 == 0,
        _ => false,
    }
}

/// What entries stand for, of which at most one makes a directory.
fn plain(alloc: Global, entries: &[Entry]) -> Result<Answer, Fail> {
    let mut mounted = false;
    let mut name = None;
    for entry in entries {
        if mounts(entry) {
            mounted = true;
        }
        if let Some(text) = made(entry) {
            name = Some(Vec::from_slice(alloc, text)?);
        }
    }
    if !mounted {
        return Ok(Err(Stop::Setup));
    }
    Ok(Ok(name))
}

/// What the opening of these areas is to find, by the entries that their journal has.
fn expected(alloc: Global, a: &[u8], b: &[u8]) -> Result<Answer, Fail> {
    let (first, second) = (disk(alloc, a)?, disk(alloc, b)?);
    match Journal::recover(alloc, first, second, 4096) {
        Ok(recovered) => {
            if recovered.fresh {
                return Ok(Ok(None));
            }
            plain(alloc, recovered.entries.as_slice())
        }
        Err(broken) => match broken.why {
            RecoverFault::Damaged { area, place } => Ok(Err(Stop::Damaged { area, place })),
            _ => Err(Fail::from("the areas are not read")),
        },
    }
}

/// What it finds.
fn found(alloc: Global, a: &[u8], b: &[u8]) -> Result<Answer, Fail> {
    match open(alloc, a, b)? {
        Ok(master) => {
            let names = master.names().list(alloc, &Path::root(alloc))?;
            match names.first() {
                None => Ok(Ok(None)),
                Some(name) => Ok(Ok(Some(Vec::from_slice(alloc, name.as_bytes())?))),
            }
        }
        Err(why) => Ok(Err(why)),
    }
}

/// Checks the opening of an area alone, and beside the worked areas.
fn check(rt: &impl Abort, alloc: Global, area: &[u8]) -> Result<(), Fail> {
    assert!(rt; found(alloc, area, b"")? == expected(alloc, area, b"")?);
    assert!(rt; found(alloc, area, SECOND)? == expected(alloc, area, SECOND)?);
    assert!(rt; found(alloc, FIRST, area)? == expected(alloc, FIRST, area)?);
    Ok(())
}

/// Checks each front of an area.
fn check_cuts(rt: &impl Abort, alloc: Global, area: &[u8]) -> Result<(), Fail> {
    for end in 0..area.len() {
        check(rt, alloc, area.get(..end).unwrap_or(area))?;
    }
    Ok(())
}

/// Checks an area with another byte at this place.
fn check_byte(
    rt: &impl Abort,
    alloc: Global,
    area: &[u8],
    place: usize,
    byte: u8,
) -> Result<(), Fail> {
    let mut changed = Vec::from_slice(alloc, area)?;
    if let Some(at) = changed.get_mut(place) {
        *at = byte;
    }
    check(rt, alloc, &changed)
}

/// Checks an area with each byte replaced.
fn check_bytes(rt: &impl Abort, alloc: Global, area: &[u8], byte: u8) -> Result<(), Fail> {
    for place in 0..area.len() {
        check_byte(rt, alloc, area, place, byte)?;
    }
    Ok(())
}

#[test]
fn each_front_is_read(rt: HostRuntime) -> Result<(), Fail> {
    check_cuts(&rt, rt.alloc(), FIRST)?;
    check_cuts(&rt, rt.alloc(), SECOND)
}

/// Checks both worked areas with each byte replaced by this one.
fn check_worked(rt: &impl Abort, alloc: Global, byte: u8) -> Result<(), Fail> {
    check_bytes(rt, alloc, FIRST, byte)?;
    check_bytes(rt, alloc, SECOND, byte)
}

#[test]
fn each_other_byte_is_read(rt: HostRuntime) -> Result<(), Fail> {
    check_worked(&rt, rt.alloc(), 0)?;
    check_worked(&rt, rt.alloc(), 1)?;
    check_worked(&rt, rt.alloc(), 2)?;
    check_worked(&rt, rt.alloc(), 255)
}
