//! The journal's areas: what a play writes there, and what a later one finds.

use super::{AREA, Outcome, empty_area, played_over, script_of};
use fs_model::stop::Stop;
use outside::fused::Fused;
use outside::media::Media;
use outside_mem::{Failing, MemDisk, MemObjects, MemSink};
use std::alloc::{AllocError, Global};
use std::process::Abort;
use std::test::Fail;

/// Area 0 after the first checkpoint and `mkdir /a`.
const FIRST: &[u8; 65] = b"\x01\x00\x00\x00\x00\x00\x00\x00\x01\
\x01\x00\x00\x00\x11\x0f\x00\x00\x00\x00\x00\x00\x00\x01\x00\x00\x00\x00\x00\x00\x00\x01\
\x01\x00\x00\x00\x12\x0a\x00\x01/\x00\x00\x00\x01\x00\x00\x00\x00\x00\x00\x00\x00\x00\x00\
\x01\x00\x00\x00\x05\x01\x00\x02/a\x00";

/// Area 1 after the checkpoint that follows.
const SECOND: &[u8; 85] = b"\x01\x00\x00\x00\x00\x00\x00\x00\x02\
\x01\x00\x00\x00\x11\x0f\x00\x00\x00\x00\x00\x00\x00\x01\x00\x00\x00\x00\x00\x00\x00\x01\
\x01\x00\x00\x00\x12\x0a\x00\x01/\x00\x00\x00\x01\x00\x00\x00\x00\x00\x00\x00\x00\x00\x00\
\x01\x00\x00\x00\x19\x10\x00\x02/a\x00\x00\x00\x00\x00\x00\x00\x00\x00\x00\x00\x00\x00\x00\x00\x00\x00\x01\x00\x00\x00";

/// An area that holds these bytes.
fn area_with(alloc: Global, bytes: &[u8]) -> Result<Fused<MemDisk>, AllocError> {
    Ok(Fused::new(MemDisk::new(Vec::from_slice(alloc, bytes)?)))
}

/// What a play told, and the areas that it left.
#[derive(Drop)]
struct Left {
    text: String,
    areas: (Fused<MemDisk>, Fused<MemDisk>),
}

/// What the script of these lines leaves over these areas. An `Err` came before the play.
fn outcome_over(
    alloc: Global,
    lines: &str,
    areas: (Fused<MemDisk>, Fused<MemDisk>),
) -> Result<Outcome, Fail> {
    let script = script_of(alloc, lines)?;
    let first = MemObjects::new(alloc);
    Ok(played_over(alloc, AREA, &script, areas, first, MemSink::new(alloc))?)
}

/// What was told, and the areas, after a play that went on to the end.
fn left_by(outcome: Outcome) -> Result<Left, Fail> {
    let Outcome { end, sink, media } = outcome;
    end.map_err(|_| "the play stopped")?;
    let MemSink { bytes, .. } = sink;
    let Media { areas, .. } = media;
    Ok(Left {
        text: String::from_utf8(bytes)?,
        areas,
    })
}

/// Plays the script of these lines over these areas, checks that the lines are told, and gives the areas back.
fn goes_on(
    rt: &impl Abort,
    alloc: Global,
    lines: &str,
    areas: (Fused<MemDisk>, Fused<MemDisk>),
) -> Result<(Fused<MemDisk>, Fused<MemDisk>), Fail> {
    let left = left_by(outcome_over(alloc, lines, areas)?)?;
    let Left { text, areas } = left;
    assert_eq!(rt; text.as_str(), lines);
    Ok(areas)
}

/// Checks the bytes of both areas.
fn has_bytes(
    rt: &impl Abort,
    areas: (Fused<MemDisk>, Fused<MemDisk>),
    first: &[u8],
    second: &[u8],
) {
    let (a, b) = areas;
    let a = a.into_disk().into_bytes();
    let b = b.into_disk().into_bytes();
    assert_eq!(rt; a.as_slice(), first);
    assert_eq!(rt; b.as_slice(), second);
}

/// The areas that hold nothing.
fn empty_areas(alloc: Global) -> (Fused<MemDisk>, Fused<MemDisk>) {
    (empty_area(alloc), empty_area(alloc))
}

/// A directory, told.
const ONE: &str = "1 mkdir /a -> done
";

/// The same with a checkpoint behind it.
const TWO: &str = "1 mkdir /a -> done
1 checkpoint -> done
";

#[test]
fn a_play_writes_the_example(rt: HostRuntime) -> Result<(), Fail> {
    let alloc = rt.alloc();
    let after_one = goes_on(&rt, alloc, ONE, empty_areas(alloc))?;
    has_bytes(&rt, after_one, FIRST, b"");
    let after_two = goes_on(&rt, alloc, TWO, empty_areas(alloc))?;
    has_bytes(&rt, after_two, FIRST, SECOND);
    Ok(())
}

/// Names in a first play.
const BEFORE: &str = "1 mkdir /a -> done
1 create f /t MUST_CACHE 1 -> done
1 room f -> done
1 put f x:61626364 -> taken 4
1 done f -> done
2 create g /u MUST_CACHE 1 -> done
1 mkdir /a/b -> done
1 ls / -> names a t u
";

/// What a second play over the same areas finds: the names, but neither labels nor blocks, so that the
/// file's bytes are lost.
const AFTER: &str = "1 ls / -> names a t u
1 ls /a -> names b
1 stat /t -> stat file 1 4 LOST -
1 stat /u -> stat file 2 0 INCOMPLETE -
1 create f /t MUST_CACHE 1 -> refused 3 Exists
2 put g x:00 -> refused 19 BadLabel
1 open r /t NO_CACHE 0 -> opened 4
1 poll r 4 -> needblock 0
1 create f /c MUST_CACHE 1 -> done
1 stat /c -> stat file 3 0 INCOMPLETE -
1 checkpoint -> done
1 mkdir /d -> done
";

/// What a third one finds.
const THIRD: &str = "1 ls / -> names a c d t u
1 ls /a -> names b
1 checkpoint -> done
1 ls / -> names a c d t u
";

#[test]
fn a_later_play_finds_the_names(rt: HostRuntime) -> Result<(), Fail> {
    let alloc = rt.alloc();
    let mut areas = empty_areas(alloc);
    for lines in [BEFORE, AFTER, THIRD, THIRD] {
        areas = goes_on(&rt, alloc, lines, areas)?;
    }
    Ok(())
}

/// Plays a directory with a fuse of so many calls over the example's areas, then plays over what it left.
fn fuses(rt: &impl Abort, alloc: Global, lines: &str, later: &str) -> Result<(), Fail> {
    let areas = (area_with(alloc, FIRST)?, empty_area(alloc));
    let left = goes_on(rt, alloc, lines, areas)?;
    let last = goes_on(rt, alloc, later, left)?;
    goes_on(rt, alloc, later, last)?;
    Ok(())
}

#[test]
fn a_fuse_stops_the_journal(rt: HostRuntime) -> Result<(), Fail> {
    let alloc = rt.alloc();
    for (calls, names) in [(0u32, "a"), (1, "a"), (2, "a"), (3, "a x")] {
        let lines = format!(in alloc;
            "1 fuse {calls} -> done
1 mkdir /x -> refused 25 JournalFault
1 ls / -> refused 21 Stopped
1 checkpoint -> refused 21 Stopped
1 mkdir /y -> refused 21 Stopped
"
        )?;
        let later = format!(in alloc; "1 ls / -> names {names}\n")?;
        fuses(&rt, alloc, &lines, &later)?;
    }
    Ok(())
}

#[test]
fn a_fuse_that_is_long_enough_stops_nothing(rt: HostRuntime) -> Result<(), Fail> {
    let alloc = rt.alloc();
    let lines = "1 fuse 4 -> done
1 mkdir /x -> done
1 ls / -> names a x
1 mkdir /y -> refused 25 JournalFault
1 ls / -> refused 21 Stopped
";
    fuses(&rt, alloc, lines, "1 ls / -> names a x\n")
}

#[test]
fn a_fuse_stops_a_checkpoint(rt: HostRuntime) -> Result<(), Fail> {
    let alloc = rt.alloc();
    for calls in 0u32..6 {
        let lines = format!(in alloc;
            "1 fuse {calls} -> done
1 checkpoint -> refused 25 JournalFault
1 ls / -> refused 21 Stopped
"
        )?;
        fuses(&rt, alloc, &lines, "1 ls / -> names a\n")?;
    }
    Ok(())
}

/// A checkpoint that takes all six calls that its fuse lets pass.
const SIX: &str = "1 fuse 6 -> done
1 checkpoint -> done
1 checkpoint -> refused 25 JournalFault
1 ls / -> refused 21 Stopped
";

#[test]
fn a_checkpoint_takes_six_calls(rt: HostRuntime) -> Result<(), Fail> {
    fuses(&rt, rt.alloc(), SIX, "1 ls / -> names a\n")
}

#[test]
fn a_file_in_doubt_is_done_or_not(rt: HostRuntime) -> Result<(), Fail> {
    let alloc = rt.alloc();
    for (calls, shown) in [
        (0u32, "1 0 INCOMPLETE"),
        (2, "1 0 INCOMPLETE"),
        (3, "1 4 LOST"),
    ] {
        let lines = format!(in alloc;
            "1 create f /f MUST_CACHE 1 -> done
1 room f -> done
1 put f x:61626364 -> taken 4
1 fuse {calls} -> done
1 done f -> refused 25 JournalFault
1 put f x:65 -> refused 19 BadLabel
1 done f -> refused 19 BadLabel
1 stat /f -> refused 21 Stopped
1 close f -> done
"
        )?;
        let later = format!(in alloc; "1 stat /f -> stat file {shown} -\n")?;
        fuses(&rt, alloc, &lines, &later)?;
    }
    Ok(())
}

/// Checks that a play over these areas doesn't begin, for this reason, and leaves them with these bytes.
fn stops(
    rt: &impl Abort,
    alloc: Global,
    areas: (Fused<MemDisk>, Fused<MemDisk>),
    why: Stop,
    bytes: &[u8],
) -> Result<(), Fail> {
    let Outcome { end, sink, media } = outcome_over(alloc, "1 ls / -> names a\n", areas)?;
    assert!(rt; end == Err(why));
    assert_eq!(rt; sink.calls, 0);
    let Media { areas, .. } = media;
    has_bytes(rt, areas, bytes, b"");
    Ok(())
}

/// The first area with another byte at this place.
fn changed(alloc: Global, place: usize, byte: u8) -> Result<Vec<u8>, AllocError> {
    let mut area = Vec::from_slice(alloc, FIRST)?;
    if let Some(at) = area.get_mut(place) {
        *at = byte;
    }
    Ok(area)
}

/// The same where a play over such an area is to stop.
fn stops_at(rt: &impl Abort, alloc: Global, place: usize, byte: u8, why: Stop) -> Result<(), Fail> {
    let bytes = changed(alloc, place, byte)?;
    let areas = (area_with(alloc, &bytes)?, empty_area(alloc));
    stops(rt, alloc, areas, why, &bytes)
}

#[test]
fn areas_that_cannot_be_opened_stop_a_play(rt: HostRuntime) -> Result<(), Fail> {
    let alloc = rt.alloc();
    let damaged = |place| Stop::Damaged { area: 0, place };
    stops_at(&rt, alloc, 64, 2, damaged(64))?;
    stops_at(&rt, alloc, 59, 255, damaged(54))?;
    // There is no store 3.
    stops_at(&rt, alloc, 43, 3, Stop::Setup)
}

/// An area with these bytes of which the first length fails.
fn without_length(alloc: Global, bytes: &[u8]) -> Result<Fused<MemDisk>, AllocError> {
    let mut disk = MemDisk::new(Vec::from_slice(alloc, bytes)?);
    disk.calls.lens.failing = Failing::listed(alloc, &[1])?;
    Ok(Fused::new(disk))
}

#[test]
fn an_area_that_fails_stops_a_play(rt: HostRuntime) -> Result<(), Fail> {
    let alloc = rt.alloc();
    let areas = (without_length(alloc, FIRST)?, empty_area(alloc));
    stops(&rt, alloc, areas, Stop::JournalFault, FIRST)
}
