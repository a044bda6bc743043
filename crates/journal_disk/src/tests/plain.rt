//! A plain reading of areas, to compare openings with.

use journal_entry::decode::decode;
use journal_entry::entry::Entry;
use std::alloc::{AllocError, Global};

/// What two areas stand for.
#[derive(Drop)]
pub(super) enum Plain {
    /// Neither is open.
    Fresh,
    /// The entries of the current one.
    Entries(Vec<Entry>),
    /// The area and the place of the damage.
    Damaged(u32, u64),
}

/// The generation of an area that is open.
fn generation(area: &[u8]) -> Option<u64> {
    match area {
        [gate, a, b, c, d, e, f, g, h, _, ..] if *gate != 0 => {
            Some(u64::from_be_bytes([*a, *b, *c, *d, *e, *f, *g, *h]))
        }
        _ => None,
    }
}

/// The entries of an area, or the place of the damage.
fn entries_of(alloc: Global, area: &[u8]) -> Result<Result<Vec<Entry>, u64>, AllocError> {
    let mut entries = Vec::new(alloc);
    let mut rest = area.get(9..).unwrap_or(b"".as_slice());
    for _ in 0..area.len() {
        let place = area.len().saturating_sub(rest.len()) as u64;
        let Some((gate, behind)) = rest.split_first() else {
            return Ok(Err(place));
        };
        if *gate == 0 {
            return Ok(Ok(entries));
        }
        let Some((entry, taken)) = decode(alloc, behind)? else {
            return Ok(Err(place));
        };
        entries.push(entry)?;
        rest = behind.get(taken..).unwrap_or(b"".as_slice());
    }
    Ok(Err(area.len() as u64))
}

/// What area 0 and area 1 stand for.
pub(super) fn read(alloc: Global, a: &[u8], b: &[u8]) -> Result<Plain, AllocError> {
    let (number, area) = match (generation(a), generation(b)) {
        (None, None) => return Ok(Plain::Fresh),
        (Some(x), Some(y)) if x < y => (1, b),
        (None, Some(_)) => (1, b),
        (Some(_), _) => (0, a),
    };
    match entries_of(alloc, area)? {
        Ok(entries) => Ok(Plain::Entries(entries)),
        Err(place) => Ok(Plain::Damaged(number, place)),
    }
}
