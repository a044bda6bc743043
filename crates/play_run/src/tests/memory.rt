//! Want of memory: an event that found none is refused, and goes on when it comes again.
//!
//! The script says each event twice, so that after a refused one the second does what the first would have, and all
//! that follows is as ever. `rt try --test --fail-alloc N` refuses the Nth allocation of each test; the test of want of
//! memory must then pass too, whatever N is (the others may not).

use super::{AREA, Outcome, answered, played, script_of};
use fs_model::stop::Stop;
use outside::media::Media;
use outside_mem::{MemDisk, MemObjects, MemSink};
use script_text::read::ScriptFault;
use std::alloc::Global;
use std::test::Fail;

/// Each event twice: a file of two blocks in a directory, written and read back.
const TWICE: &str = "1 mkdir /d -> done
1 mkdir /d -> refused 3 Exists
1 create f /d/t MUST_CACHE 1 -> done
1 create f /d/t MUST_CACHE 1 -> refused 19 BadLabel
1 put f g:0:0:8 -> needroom
1 put f g:0:0:8 -> needroom
1 room f -> done
1 room f -> done
1 put f g:0:0:8 -> taken 4
1 put f g:0:0:8 -> needroom
1 room f -> done
1 room f -> done
1 put f x:04050607 -> taken 4
1 put f x:04050607 -> needroom
1 done f -> done
1 done f -> refused 19 BadLabel
1 ls /d -> names t
1 ls /d -> names t
1 stat /d/t -> stat file 1 8 NOT_PERSISTED -
1 stat /d/t -> stat file 1 8 NOT_PERSISTED -
1 open r /d/t NO_CACHE 0 -> opened 8
1 open r /d/t NO_CACHE 0 -> refused 19 BadLabel
1 poll r 65536 -> needblock 0
1 poll r 65536 -> needblock 0
1 next r -> from worker 1 0
1 next r -> from worker 1 0
1 poll r 65536 -> piece 00010203
1 poll r 65536 -> needblock 1
1 next r -> from worker 1 0
1 next r -> from worker 1 0
1 poll r 65536 -> piece 04050607
1 poll r 65536 -> end
1 next r -> end
1 next r -> end
1 close r -> done
1 close r -> refused 19 BadLabel
";

#[test]
fn events_come_twice(rt: HostRuntime) -> Result<(), Fail> {
    assert_eq!(rt; answered(rt.alloc(), TWICE)?.as_str(), TWICE);
    Ok(())
}

/// Whether a line has the event of the other, and was refused for want of memory.
fn is_short(line: &str, wanted: &str) -> bool {
    match (line.split_once(" -> "), wanted.split_once(" -> ")) {
        (Some((event, reply)), Some((same, _))) => event == same && reply == "refused 26 Memory",
        _ => false,
    }
}

/// Whether the lines are the first of the script's, but that an event may have found no memory; where it was the first
/// of two, the second is answered what the first would have been.
fn goes_on(told: &str) -> bool {
    let mut owed = None;
    let mut first = true;
    for (line, wanted) in told.lines().zip(TWICE.lines()) {
        let due = owed.take().unwrap_or(wanted);
        if line != due {
            if !is_short(line, wanted) {
                return false;
            }
            if first {
                owed = Some(wanted);
            }
        }
        first = !first;
    }
    true
}

/// Whether the text has whole lines; all of them, where the play didn't stop.
fn is_whole(told: &str, stopped: bool) -> bool {
    if !stopped {
        return told.lines().count() == TWICE.lines().count() && told.ends_with('\n');
    }
    told.is_empty() || told.ends_with('\n')
}

/// How many stores, workers and tiers of worker 1 there are.
fn counts(media: &Media<MemDisk, MemObjects>) -> (usize, usize, usize) {
    let first = match media.tiers.first() {
        None => 0,
        Some(tiers) => tiers.len(),
    };
    (media.stores.len(), media.tiers.len(), first)
}

/// What the script leaves. An `Err` came before the play.
fn left(alloc: Global) -> Result<Outcome, ScriptFault> {
    let script = script_of(alloc, TWICE)?;
    let first = MemObjects::new(alloc);
    played(alloc, AREA, &script, first, MemSink::new(alloc))
}

/// Whether this is what a play may tell and leave where one allocation was refused.
fn is_well(outcome: &Outcome, told: &str) -> bool {
    goes_on(told)
        && is_whole(told, outcome.end.is_err())
        && (outcome.end == Err(Stop::WriteFault)) == (outcome.sink.faults > 0)
        && counts(&outcome.media) == (2, 2, 2)
}

#[test]
fn want_of_memory_passes(rt: HostRuntime) -> Result<(), Fail> {
    match left(rt.alloc()) {
        Err(fault) => assert!(rt; matches!(fault, ScriptFault::Memory)),
        Ok(outcome) => {
            let told = str::from_utf8(&outcome.sink.bytes)?;
            assert!(rt; is_well(&outcome, told), "{told}");
        }
    }
    Ok(())
}
