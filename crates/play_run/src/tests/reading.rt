//! Readers of which a call fails or isn't ready: the source is dropped, and a new one goes on.

use super::failing::{Call, Seen, some_lines, tier, watched};
use super::scripts::{EMPTY, TWO_BLOCKS};
use std::alloc::{AllocError, Global};
use std::test::Fail;

/// The lines of the file of two blocks, with these in the place of those from `kept` up to `from`.
fn instead(alloc: Global, kept: usize, own: &str, from: usize) -> Result<String, AllocError> {
    let mut lines = some_lines(alloc, TWO_BLOCKS, 0, kept)?;
    lines.push_str(own)?;
    lines.push_str(&some_lines(alloc, TWO_BLOCKS, from, 17)?)?;
    Ok(lines)
}

/// `next r` failed in the first block.
const NEXT: &str = "1 next r -> refused 24 TierFault 1
1 poll r 65536 -> needblock 0
";

/// In the second.
const NEXT_2: &str = "1 next r -> refused 24 TierFault 1
1 poll r 65536 -> needblock 1
";

/// Each did, in the first block.
const NO_NEXT: &str = "1 next r -> refused 24 TierFault 1
1 poll r 65536 -> needblock 0
1 next r -> refused 24 TierFault 1
1 next r -> refused 24 TierFault 1
1 poll r 65536 -> needblock 0
1 stat /t -> stat file 1 8 NOT_PERSISTED -
2 open r /t NO_CACHE 0 -> opened 8
2 next r -> refused 24 TierFault 1
1 close r -> done
1 poll r 1 -> refused 19 BadLabel
";

/// In the second.
const NO_NEXT_2: &str = "1 next r -> refused 24 TierFault 1
1 poll r 65536 -> needblock 1
1 next r -> refused 24 TierFault 1
1 poll r 65536 -> needblock 1
1 close r -> done
1 open r /t NO_CACHE 0 -> opened 8
1 next r -> refused 24 TierFault 1
";

/// The first poll of the first block failed.
const POLL: &str = "1 poll r 65536 -> refused 24 TierFault 1
1 poll r 65536 -> needblock 0
1 next r -> from worker 1 0
";

/// Of the second.
const POLL_2: &str = "1 poll r 65536 -> refused 24 TierFault 1
1 poll r 65536 -> needblock 1
1 next r -> from worker 1 0
";

/// The second poll of the first block failed; the position stands, and the new source goes on there.
const POLL_MORE: &str = "1 poll r 2 -> piece 0001
1 poll r 2 -> refused 24 TierFault 1
1 poll r 2 -> needblock 0
1 next r -> from worker 1 0
1 next r -> from worker 1 0
1 poll r 65536 -> piece 0203
";

/// Straight to a new source.
const POLL_NEXT: &str = "1 poll r 3 -> piece 000102
1 poll r 3 -> refused 24 TierFault 1
1 next r -> from worker 1 0
1 poll r 3 -> piece 03
";

/// A poll wasn't ready.
const WAIT: &str = "1 poll r 65536 -> notready\n";

/// The second poll of the first block wasn't.
const WAIT_MORE: &str = "1 poll r 2 -> piece 0001
1 poll r 2 -> notready
1 next r -> from worker 1 0
1 poll r 2 -> piece 0203
";

/// No poll of the first source is; another stream has a source of its own.
const WAIT_ON: &str = "1 poll r 65536 -> notready
1 poll r 1 -> notready
1 next r -> from worker 1 0
1 poll r 65536 -> notready
2 open r /t NO_CACHE 0 -> opened 8
2 next r -> from worker 1 0
2 poll r 65536 -> piece 00010203
1 poll r 65536 -> notready
1 close r -> done
";

/// None of the second.
const WAIT_ON_2: &str = "1 poll r 65536 -> notready
1 next r -> from worker 1 0
1 poll r 65536 -> notready
1 close r -> done
1 open r /t NO_CACHE 0 -> opened 8
1 next r -> from worker 1 0
1 poll r 4 -> piece 00010203
";

#[test]
fn a_fault_drops_a_readers_source(rt: HostRuntime) -> Result<(), Fail> {
    let alloc = rt.alloc();
    for (call, number, on, kept, own, from, faults) in [
        (Call::BeginRead, 1, false, 10, NEXT, 10, 1),
        (Call::BeginRead, 2, false, 13, NEXT_2, 13, 1),
        (Call::BeginRead, 1, true, 10, NO_NEXT, 17, 4),
        (Call::BeginRead, 2, true, 13, NO_NEXT_2, 17, 3),
        (Call::Poll(1), 1, false, 11, POLL, 11, 0),
        (Call::Poll(1), 1, true, 11, POLL, 11, 0),
        (Call::Poll(2), 1, false, 14, POLL_2, 14, 0),
        (Call::Poll(2), 1, true, 14, POLL_2, 14, 0),
        (Call::Poll(1), 2, false, 11, POLL_MORE, 12, 0),
        (Call::Poll(1), 2, true, 11, POLL_NEXT, 12, 0),
        (Call::Wait(1), 1, false, 11, WAIT, 11, 0),
        (Call::Wait(1), 2, false, 11, WAIT_MORE, 12, 0),
        (Call::Wait(1), 1, true, 11, WAIT_ON, 17, 0),
        (Call::Wait(2), 1, false, 14, WAIT, 14, 0),
        (Call::Wait(2), 1, true, 14, WAIT_ON_2, 17, 0),
    ] {
        let lines = instead(alloc, kept, own, from)?;
        let first = tier(alloc, call, number, on)?;
        let seen = watched(alloc, &lines, first)?;
        assert_eq!(rt;
            seen.text.as_str(),
            lines.as_str(),
            "{call:?} {number} {on}"
        );
        assert_eq!(rt; seen.faults, faults, "{call:?} {number} {on}");
        assert_eq!(rt; seen.objects, 2, "{call:?} {number} {on}");
    }
    Ok(())
}

/// A stream fails, and another over the same block isn't touched by it.
const TWO_READERS: &str = "2 open s /t NO_CACHE 1 -> opened 8
2 next s -> from worker 1 0
2 poll s 2 -> piece 0001
1 open r /t NO_CACHE 0 -> opened 8
1 next r -> from worker 1 0
2 poll s 2 -> refused 24 TierFault 1
1 poll r 2 -> piece 0001
2 poll s 2 -> needblock 0
1 poll r 2 -> piece 0203
2 next s -> from worker 1 0
2 poll s 4 -> piece 0203
2 close s -> done
1 poll r 2 -> needblock 1
";

/// A file of four bytes, of which the first poll isn't ready.
const NOT_READY: &str = "1 create f /a MUST_CACHE 1 -> done
1 room f -> done
1 put f g:0:0:4 -> taken 4
1 done f -> done
1 open r /a NO_CACHE 0 -> opened 4
1 next r -> from worker 1 0
1 poll r 4 -> notready
1 poll r 4 -> piece 00010203
";

/// What the first tier sees of it, where the second poll of its first reader fails or its first isn't ready.
fn two_readers(alloc: Global) -> Result<(Seen, String), Fail> {
    let lines = instead(alloc, 8, TWO_READERS, 17)?;
    let seen = watched(alloc, &lines, tier(alloc, Call::Poll(1), 2, false)?)?;
    Ok((seen, lines))
}

#[test]
fn a_fault_is_one_readers_own(rt: HostRuntime) -> Result<(), Fail> {
    let (seen, lines) = two_readers(rt.alloc())?;
    assert_eq!(rt; seen.text.as_str(), lines.as_str());
    assert_eq!(rt; seen.faults, 0);
    Ok(())
}

#[test]
fn a_reader_that_is_not_ready_is_polled_again(rt: HostRuntime) -> Result<(), Fail> {
    let alloc = rt.alloc();
    let seen = watched(alloc, NOT_READY, tier(alloc, Call::Wait(1), 1, false)?)?;
    assert_eq!(rt; seen.text.as_str(), NOT_READY);
    assert_eq!(rt; seen.faults, 0);
    Ok(())
}

#[test]
fn no_other_call_is_made(rt: HostRuntime) -> Result<(), Fail> {
    let alloc = rt.alloc();
    for (lines, call, number, objects) in [
        (TWO_BLOCKS, Call::BeginWrite, 3, 2),
        (TWO_BLOCKS, Call::Finish, 3, 2),
        (TWO_BLOCKS, Call::LateFinish, 3, 2),
        (TWO_BLOCKS, Call::BeginRead, 3, 2),
        (TWO_BLOCKS, Call::Put(1), 2, 2),
        (TWO_BLOCKS, Call::Put(2), 2, 2),
        (TWO_BLOCKS, Call::Put(3), 1, 2),
        (TWO_BLOCKS, Call::Poll(1), 2, 2),
        (TWO_BLOCKS, Call::Poll(2), 2, 2),
        (TWO_BLOCKS, Call::Poll(3), 1, 2),
        (TWO_BLOCKS, Call::Wait(1), 2, 2),
        (TWO_BLOCKS, Call::Wait(2), 2, 2),
        (TWO_BLOCKS, Call::Wait(3), 1, 2),
        (EMPTY, Call::BeginWrite, 1, 0),
        (EMPTY, Call::Finish, 1, 0),
        (EMPTY, Call::LateFinish, 1, 0),
        (EMPTY, Call::BeginRead, 1, 0),
    ] {
        let first = tier(alloc, call, number, true)?;
        let seen = watched(alloc, lines, first)?;
        assert_eq!(rt; seen.text.as_str(), lines, "{call:?} {number}");
        assert_eq!(rt; seen.faults, 0, "{call:?} {number}");
        assert_eq!(rt; seen.objects, objects, "{call:?} {number}");
    }
    Ok(())
}
