//! Openings of areas that are damaged, cut or changed.

use super::bytes::{FIRST, SECOND};
use super::open;
use super::plain::{Plain, read};
use crate::fault::RecoverFault;
use std::alloc::Global;
use std::process::Abort;
use std::test::Fail;

/// What an opening is to answer: the damage, or how many entries; none is fresh.
type Answer = Result<Option<usize>, (u32, u64)>;

/// What the opening of these areas answers.
fn answer(alloc: Global, a: &[u8], b: &[u8]) -> Result<Answer, Fail> {
    match open(alloc, a, b)? {
        Ok(recovered) => {
            let count = recovered.entries.as_slice().len();
            Ok(Ok(if recovered.fresh { None } else { Some(count) }))
        }
        Err(RecoverFault::Damaged { area, place }) => Ok(Err((area, place))),
        Err(_) => Err(Fail::from("the opening has no other answer")),
    }
}

/// So many of the bytes.
fn cut(bytes: &[u8], end: usize) -> &[u8] {
    bytes.get(..end).unwrap_or(bytes)
}

/// The bytes with another one at this place.
fn changed(alloc: Global, bytes: &[u8], place: usize, byte: u8) -> Result<Vec<u8>, Fail> {
    let mut area = Vec::from_slice(alloc, bytes)?;
    if let Some(at) = area.get_mut(place) {
        *at = byte;
    }
    Ok(area)
}

/// Checks what the opening of an area answers that stands alone.
fn check(rt: &impl Abort, alloc: Global, area: &[u8], expected: Answer) -> Result<(), Fail> {
    assert_eq!(rt; answer(alloc, area, b"")?, expected);
    Ok(())
}

/// The same for the first area, cut to so many bytes.
fn check_cut(rt: &impl Abort, alloc: Global, end: usize, expected: Answer) -> Result<(), Fail> {
    check(rt, alloc, cut(FIRST, end), expected)
}

/// The same for the first area with another byte at this place.
fn check_byte(
    rt: &impl Abort,
    alloc: Global,
    place: usize,
    byte: u8,
    expected: Answer,
) -> Result<(), Fail> {
    let area = changed(alloc, FIRST, place, byte)?;
    check(rt, alloc, &area, expected)
}

#[test]
fn a_cut_area_is_damaged_at_its_end(rt: HostRuntime) -> Result<(), Fail> {
    let alloc = rt.alloc();
    check_cut(&rt, alloc, 65, Ok(Some(3)))?;
    check_cut(&rt, alloc, 64, Err((0, 64)))?;
    check_cut(&rt, alloc, 60, Err((0, 54)))?;
    check_cut(&rt, alloc, 54, Err((0, 54)))?;
    check_cut(&rt, alloc, 9, Ok(None))
}

#[test]
fn damage_has_its_place(rt: HostRuntime) -> Result<(), Fail> {
    let alloc = rt.alloc();
    check_byte(&rt, alloc, 0, 0, Ok(None))?;
    check_byte(&rt, alloc, 64, 2, Err((0, 64)))?;
    check_byte(&rt, alloc, 63, b'/', Err((0, 54)))?;
    check_byte(&rt, alloc, 54, 2, Ok(Some(3)))?;
    check_byte(&rt, alloc, 54, 0, Ok(Some(2)))
}

/// Checks what the opening of two areas answers.
fn check_both(
    rt: &impl Abort,
    alloc: Global,
    a: &[u8],
    b: &[u8],
    expected: Answer,
) -> Result<(), Fail> {
    assert_eq!(rt; answer(alloc, a, b)?, expected);
    Ok(())
}

#[test]
fn the_greater_generation_counts(rt: HostRuntime) -> Result<(), Fail> {
    let alloc = rt.alloc();
    check_both(&rt, alloc, FIRST, SECOND, Ok(Some(3)))?;
    check_both(&rt, alloc, cut(FIRST, 60), SECOND, Ok(Some(3)))?;
    check_both(&rt, alloc, FIRST, cut(SECOND, 60), Err((1, 54)))?;
    check_both(&rt, alloc, SECOND, cut(FIRST, 60), Ok(Some(3)))?;
    let equal = changed(alloc, SECOND, 8, 1)?;
    check_both(&rt, alloc, cut(FIRST, 60), &equal, Err((0, 54)))
}

/// Checks that an opening answers what a plain reading does.
fn is_read(rt: &impl Abort, alloc: Global, a: &[u8], b: &[u8]) -> Result<(), Fail> {
    match (open(alloc, a, b)?, read(alloc, a, b)?) {
        (Ok(recovered), Plain::Fresh) => {
            assert!(rt; recovered.fresh && recovered.entries.as_slice().is_empty());
            Ok(())
        }
        (Ok(recovered), Plain::Entries(entries)) => {
            assert!(rt; !recovered.fresh);
            assert!(rt; recovered.entries.as_slice() == entries.as_slice());
            Ok(())
        }
        (Err(RecoverFault::Damaged { area, place }), Plain::Damaged(number, at)) => {
            assert_eq!(rt; (area, place), (number, at));
            Ok(())
        }
        _ => Err(Fail::from("the opening answers otherwise")),
    }
}

/// Checks the opening of an area alone, and beside the worked areas.
fn is_read_beside(rt: &impl Abort, alloc: Global, area: &[u8]) -> Result<(), Fail> {
    is_read(rt, alloc, area, b"")?;
    is_read(rt, alloc, b"", area)?;
    is_read(rt, alloc, area, SECOND)?;
    is_read(rt, alloc, FIRST, area)
}

/// Checks all cuts of an area, and each of its bytes replaced.
fn are_read(rt: &impl Abort, alloc: Global, area: &[u8]) -> Result<(), Fail> {
    for end in 0..area.len() {
        is_read_beside(rt, alloc, cut(area, end))?;
    }
    for place in 0..area.len() {
        for byte in [0u8, 1, 2, 255] {
            is_read_beside(rt, alloc, &changed(alloc, area, place, byte)?)?;
        }
    }
    Ok(())
}

#[test]
fn each_change_of_the_first_area_is_read(rt: HostRuntime) -> Result<(), Fail> {
    are_read(&rt, rt.alloc(), FIRST)
}

#[test]
fn each_change_of_the_second_area_is_read(rt: HostRuntime) -> Result<(), Fail> {
    are_read(&rt, rt.alloc(), SECOND)
}
