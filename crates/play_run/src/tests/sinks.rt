//! What a play leaves: a front of the text at a sink that fails, and the media.

use super::failing::{first_tier, some_lines};
use super::scripts::TWO_BLOCKS;
use super::{AREA, Outcome, played, script_of};
use fs_model::stop::Stop;
use outside::fused::Fused;
use outside::media::Media;
use outside_mem::{Failing, MemDisk, MemObject, MemObjects, MemSink};
use script_text::read::ScriptFault;
use std::alloc::{AllocError, Global};
use std::test::Fail;

/// A sink of which the push of this number fails, and that takes at most so many bytes in one push.
fn sink(alloc: Global, push: u64, greatest: usize) -> Result<MemSink, AllocError> {
    let mut sink = MemSink::new(alloc);
    sink.failing = Failing::listed(alloc, &[push])?;
    sink.greatest_piece = greatest;
    Ok(sink)
}

/// What the script of these lines leaves at this sink.
fn left_at(alloc: Global, lines: &str, sink: MemSink) -> Result<Outcome, ScriptFault> {
    let script = script_of(alloc, lines)?;
    played(alloc, AREA, &script, MemObjects::new(alloc), sink)
}

/// How many writers, ended objects and readers were asked of a tier.
fn asked(tier: &MemObjects) -> [u64; 3] {
    [
        tier.calls.begin_writes.count,
        tier.calls.finishes.count,
        tier.calls.begin_reads.count,
    ]
}

/// The same of the first tier of worker 1.
fn asked_first(outcome: &Outcome) -> [u64; 3] {
    match first_tier(&outcome.media) {
        None => [u64::MAX; 3],
        Some(tier) => asked(tier),
    }
}

#[test]
fn a_sink_that_fails_has_the_lines_before(rt: HostRuntime) -> Result<(), Fail> {
    let alloc = rt.alloc();
    // The event whose line fails was done, and none behind it.
    for (push, told, calls) in [
        (1, 0, [0, 0, 0]),
        (2, 1, [0, 0, 0]),
        (3, 2, [1, 0, 0]),
        (4, 3, [1, 0, 0]),
        (5, 4, [1, 0, 0]),
        (6, 5, [2, 1, 0]),
        (7, 6, [2, 1, 0]),
        (8, 7, [2, 2, 0]),
        (9, 8, [2, 2, 0]),
        (10, 9, [2, 2, 0]),
        (11, 10, [2, 2, 1]),
        (12, 11, [2, 2, 1]),
        (13, 12, [2, 2, 1]),
        (14, 13, [2, 2, 2]),
        (15, 14, [2, 2, 2]),
        (16, 15, [2, 2, 2]),
        (17, 16, [2, 2, 2]),
    ] {
        let outcome = left_at(alloc, TWO_BLOCKS, sink(alloc, push, 65_536)?)?;
        let front = some_lines(alloc, TWO_BLOCKS, 0, told)?;
        assert!(rt; outcome.end == Err(Stop::WriteFault), "{push}");
        assert_eq!(rt; outcome.sink.bytes.as_slice(), front.as_bytes(), "{push}");
        assert_eq!(rt; outcome.sink.calls, push);
        assert_eq!(rt; outcome.sink.faults, 1, "{push}");
        assert_eq!(rt; asked_first(&outcome), calls, "{push}");
    }
    Ok(())
}

/// Two lines, of 19 and 18 bytes.
const SHORT: &str = "1 mkdir /a -> done
1 ls / -> names a
";

#[test]
fn a_line_may_be_cut(rt: HostRuntime) -> Result<(), Fail> {
    let alloc = rt.alloc();
    // The pushes take five bytes each, and the rest of each line one of four or three.
    for (push, told) in [
        (1, ""),
        (2, "1 mkd"),
        (3, "1 mkdir /a"),
        (4, "1 mkdir /a -> d"),
        (5, "1 mkdir /a -> done\n"),
        (6, "1 mkdir /a -> done\n1 ls "),
        (7, "1 mkdir /a -> done\n1 ls / -> "),
        (8, "1 mkdir /a -> done\n1 ls / -> names"),
    ] {
        let outcome = left_at(alloc, SHORT, sink(alloc, push, 5)?)?;
        assert!(rt; outcome.end == Err(Stop::WriteFault), "{push}");
        assert_eq!(rt; outcome.sink.bytes.as_slice(), told.as_bytes(), "{push}");
        assert_eq!(rt; outcome.sink.calls, push);
    }
    let whole = left_at(alloc, SHORT, sink(alloc, 9, 5)?)?;
    assert!(rt; whole.end == Ok(()));
    assert_eq!(rt; whole.sink.bytes.as_slice(), SHORT.as_bytes());
    assert_eq!(rt; whole.sink.calls, 8);
    Ok(())
}

/// Whether a store was never called, and holds nothing.
fn is_untouched(store: &MemObjects) -> bool {
    asked(store) == [0; 3]
        && store.calls.renames.count == 0
        && store.calls.removes.count == 0
        && store.calls.next_keys.count == 0
        && store.calls.clears.count == 0
        && store.objects.is_empty()
}

/// Whether they are so many, and none was ever called.
fn are_untouched(stores: &[MemObjects], count: usize) -> bool {
    stores.len() == count && stores.iter().all(is_untouched)
}

/// How many bytes an area holds.
fn len_of(area: Fused<MemDisk>) -> usize {
    area.into_disk().bytes().len()
}

/// How many bytes either area holds.
fn area_lens(media: Media<MemDisk, MemObjects>) -> (usize, usize) {
    let Media { areas, .. } = media;
    let (a, b) = areas;
    (len_of(a), len_of(b))
}

/// Whether there are both stores and each tier, of which the first tier alone was called.
fn is_whole(media: &Media<MemDisk, MemObjects>) -> bool {
    let [first, second] = media.tiers.as_slice() else {
        return false;
    };
    are_untouched(media.stores.as_slice(), 2)
        && first.len() == 2
        && first.iter().skip(1).all(is_untouched)
        && are_untouched(second.as_slice(), 1)
}

/// Whether the object is the one of this number of a worker's first start, with this text.
fn is_object(object: &MemObject, number: &str, text: &str) -> bool {
    let [start, own] = object.key.as_slice() else {
        return false;
    };
    start.as_str() == "0" && own.as_str() == number && object.bytes.as_slice() == text.as_bytes()
}

/// Whether the tier holds these two objects.
fn holds_both(tier: &MemObjects, one: &str, two: &str) -> bool {
    tier.objects.len() == 2
        && tier
            .objects
            .iter()
            .any(|object| is_object(object, "1", one))
        && tier
            .objects
            .iter()
            .any(|object| is_object(object, "2", two))
}

/// A file of two blocks, the second with two bytes.
const SIX_BYTES: &str = "1 create f /t MUST_CACHE 1 -> done
1 room f -> done
1 put f x:61626364 -> taken 4
1 room f -> done
1 put f x:6566 -> taken 2
1 done f -> done
";

#[test]
fn the_media_come_back_with_the_blocks(rt: HostRuntime) -> Result<(), Fail> {
    let alloc = rt.alloc();
    let outcome = left_at(alloc, SIX_BYTES, MemSink::new(alloc))?;
    assert!(rt; is_whole(&outcome.media));
    let tier = first_tier(&outcome.media).ok_or("no tier")?;
    assert_eq!(rt; asked(tier), [2, 2, 0]);
    assert_eq!(rt; (tier.changes, tier.faults, tier.misses), (2, 0, 0));
    assert!(rt; holds_both(tier, "abcd", "ef"));
    // Behind the first checkpoint there are a file and its end.
    assert_eq!(rt; area_lens(outcome.media), (104, 0));
    Ok(())
}

#[test]
fn a_script_without_an_event_opens_alone(rt: HostRuntime) -> Result<(), Fail> {
    let alloc = rt.alloc();
    let outcome = left_at(alloc, "", sink(alloc, 1, 1)?)?;
    assert!(rt; outcome.end == Ok(()));
    assert_eq!(rt; outcome.sink.calls, 0);
    assert!(rt; is_whole(&outcome.media));
    assert_eq!(rt; asked_first(&outcome), [0, 0, 0]);
    // The first checkpoint was made.
    assert_eq!(rt; area_lens(outcome.media), (55, 0));
    Ok(())
}
