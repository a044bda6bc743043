//! The fakes and the two loops over them, on small tables of failing calls and small pieces.

ghost use Rattle.std.specs.Prelude.{◌≡◌, List, ℕ, Some, IsTrue, IfSome};
ghost use Rattle.std.specs.declared.option.Option.{Option};
ghost use Rattle.outside.specs.Streams.{Takes};
ghost use Rattle.outside.specs.Inputs.{named};

use crate::{Failing, MemSink, MemSource, MemWorld};
use outside::stream::{Fault, ReadStop, Sink, Source, push_all, read_all};
use outside::world::{Fail, World};
use std::alloc::Global;
use std::test::Fail as Failure;

/// A source over these bytes, in pieces up to `greatest`, of which the listed pulls fail.
fn source_of(
    alloc: Global,
    bytes: &[u8],
    greatest: usize,
    failing: &[u64],
) -> Result<MemSource, Failure> {
    let mut source = MemSource::new(Vec::from_slice(alloc, bytes)?);
    source.greatest_piece = greatest;
    source.failing = Failing::listed(alloc, failing)?;
    Ok(source)
}

/// A sink that takes pieces up to `greatest`, and of which the listed pushes fail.
fn sink_of(alloc: Global, greatest: usize, failing: &[u64]) -> Result<MemSink, Failure> {
    let mut sink = MemSink::new(alloc);
    sink.greatest_piece = greatest;
    sink.failing = Failing::listed(alloc, failing)?;
    Ok(sink)
}

#[test]
fn listed_calls_and_all_from_a_number_on_fail(rt: HostRuntime) -> Result<(), Failure> {
    let mut failing = Failing::none(rt.alloc());
    assert!(rt; !failing.fails(1));
    failing = Failing::listed(rt.alloc(), &[5, 2])?;
    failing.from = Some(7);
    for (call, fails) in [
        (1, false),
        (2, true),
        (3, false),
        (5, true),
        (6, false),
        (7, true),
        (u64::MAX, true),
    ] {
        assert_eq!(rt; failing.fails(call), fails, "call {call}");
    }
    Ok(())
}

#[test]
fn pulls_give_the_next_bytes_or_fail(rt: HostRuntime) -> Result<(), Failure> {
    let mut source = source_of(rt.alloc(), b"abcdefg", 3, &[2, 4])?;
    let mut text = Vec::new(rt.alloc());
    for (room, want) in [
        (2, Ok(2)),
        (8, Err(Fault)),
        (8, Ok(3)),
        (8, Err(Fault)),
        (0, Ok(0)),
        (8, Ok(2)),
        (8, Ok(0)),
    ] {
        let mut buf = [b'-'; 8];
        let got = source.pull(&mut buf[..room]);
        assert_eq!(rt; got, want, "room {room}");
        text.extend_from_slice(&buf[..got.unwrap_or(0)])?;
    }
    assert_eq!(rt; text.as_slice(), b"abcdefg".as_slice());
    assert_eq!(rt; (source.calls, source.faults), (7, 2));

    source.reopen(Vec::from_slice(rt.alloc(), b"xy")?);
    source.greatest_piece = 0;
    let mut buf = [b'-'; 8];
    assert_eq!(rt; source.pull(&mut buf), Ok(1));
    assert_eq!(rt; buf[0], b'x');
    source.failing.from = Some(9);
    assert_eq!(rt; source.pull(&mut buf), Err(Fault));
    assert_eq!(rt; (source.calls, source.faults), (9, 3));
    Ok(())
}

#[test]
fn pushes_take_the_first_bytes_or_fail(rt: HostRuntime) -> Result<(), Failure> {
    let mut sink = sink_of(rt.alloc(), 3, &[2])?;
    for (piece, want) in [
        (b"ab".as_slice(), Ok(2)),
        (b"c".as_slice(), Err(Fault)),
        (b"cdefg".as_slice(), Ok(3)),
    ] {
        assert!(rt; !piece.is_empty());
        assert_eq!(rt; sink.push(piece), want);
    }
    sink.greatest_piece = 0;
    assert_eq!(rt; sink.push(b"fg"), Ok(1));
    sink.failing.from = Some(5);
    assert_eq!(rt; sink.push(b"g"), Err(Fault));
    assert_eq!(rt; sink.bytes.as_slice(), b"abcdef".as_slice());
    assert_eq!(rt; (sink.calls, sink.faults), (5, 2));
    Ok(())
}

#[test]
fn a_text_is_pushed_whole_or_up_to_the_failing_push(rt: HostRuntime) -> Result<(), Failure> {
    for (text, greatest, failing, want, taken, calls) in [
        ("", 9, 1, Ok(()), "", 0),
        ("abcdef", 9, 2, Ok(()), "abcdef", 1),
        ("abcdef", 4, 3, Ok(()), "abcdef", 2),
        ("abcdef", 1, 7, Ok(()), "abcdef", 6),
        ("abcdef", 1, 6, Err(Fault), "abcde", 6),
        ("abcdef", 4, 2, Err(Fault), "abcd", 2),
        ("abcdef", 0, 2, Err(Fault), "a", 2),
        ("abcdef", 9, 1, Err(Fault), "", 1),
    ] {
        let mut sink = sink_of(rt.alloc(), greatest, &[failing])?;
        assert_eq!(rt;
            push_all(&mut sink, text.as_bytes()),
            want,
            "{text} {greatest} {failing}"
        );
        assert_eq!(rt; sink.bytes.as_slice(), taken.as_bytes());
        assert_eq!(rt; sink.calls, calls);
    }
    Ok(())
}

#[test]
fn a_source_is_read_whole_up_to_the_limit(rt: HostRuntime) -> Result<(), Failure> {
    for (text, limit, greatest, failing, want, left) in [
        ("", 0, 9, 3, Ok(""), 0),
        ("", 5, 9, 3, Ok(""), 0),
        ("a", 0, 9, 3, Err(ReadStop::TooLong), 0),
        ("abcde", 5, 9, 3, Ok("abcde"), 0),
        ("abcde", usize::MAX, 9, 3, Ok("abcde"), 0),
        ("abcde", 6, 1, 7, Ok("abcde"), 0),
        ("abcde", 5, 2, 9, Ok("abcde"), 0),
        ("abcdef", 5, 9, 3, Err(ReadStop::TooLong), 0),
        ("abcdefgh", 5, 2, 9, Err(ReadStop::TooLong), 2),
        ("abcdefgh", 5, 9, 2, Err(ReadStop::Fault), 3),
        ("abcdefgh", 9, 3, 1, Err(ReadStop::Fault), 8),
        ("abcdefgh", 9, 3, 4, Err(ReadStop::Fault), 0),
    ] {
        let mut source = source_of(rt.alloc(), text.as_bytes(), greatest, &[failing])?;
        let got = read_all(rt.alloc(), &mut source, limit);
        let same = match (&got, want) {
            (Ok(bytes), Ok(text)) => bytes.as_slice() == text.as_bytes(),
            (Err(got), Err(want)) => *got == want,
            _ => false,
        };
        assert!(rt; same, "{text} {limit} {greatest} {failing}");
        assert!(rt; source.at <= source.bytes.len());
        assert_eq!(rt; source.bytes.len() - source.at, left);
    }
    Ok(())
}

#[test]
fn a_large_text_is_read(rt: HostRuntime) -> Result<(), Failure> {
    const LARGE: usize = 16 * 1024 * 1024;
    let mut text = Vec::new(rt.alloc());
    text.resize(LARGE, b'x')?;
    let mut source = MemSource::new(text);
    let read = read_all(rt.alloc(), &mut source, LARGE)?;
    assert_eq!(rt; read.len(), LARGE);
    Ok(())
}

/// Copies what is held under a name to the output, as a program does that knows the trait alone,
/// and answers whether it could.
fn copy_script<W: World>(alloc: Global, script: &str, world: &mut W) -> bool
    ensures held { W.held world.new ≡ W.held world.old }
    ensures copied { IsTrue result → (held : List ℕ → Option (List ℕ)) → W.held world.old ≡ Some held → IfSome (named held script.now) (λ text. Takes (W.Out.taken (W.output world.old)) (W.Out.taken (W.output world.new)) text) }
{
    if world.choose("", script).is_err() {
        return false;
    }
    let Ok(text) = read_all(alloc, world.script(), 100) else {
        return false;
    };
    push_all(world.out(), &text).is_ok()
}

#[test]
fn a_world_opens_what_it_holds(rt: HostRuntime) -> Result<(), Failure> {
    let mut world = MemWorld::new(rt.alloc());
    world.hold("script", b"old")?;
    world.hold("config", b"key")?;
    world.hold("script", b"text")?;
    world.choose_failing = Failing::listed(rt.alloc(), &[2])?;
    world.script.greatest_piece = 3;
    world.script.failing = Failing::listed(rt.alloc(), &[5])?;
    for (config, script, want, faults, misses) in [
        ("config", "script", Ok(()), 0, 0),
        ("config", "script", Err(Fail::Failed), 1, 0),
        ("config", "other", Err(Fail::Failed), 1, 1),
        ("other", "", Err(Fail::Failed), 1, 2),
        ("config", "script", Ok(()), 1, 2),
        ("config", "", Ok(()), 1, 2),
    ] {
        assert_eq!(rt; world.choose(config, script), want, "{config} {script}");
        assert_eq!(rt; (world.faults, world.misses), (faults, misses));
    }
    assert_eq!(rt; world.choose_calls, 6);
    assert_eq!(rt; world.config.bytes.as_slice(), b"key".as_slice());
    assert_eq!(rt;
        (world.script.bytes.len(), world.script.greatest_piece),
        (0, 3)
    );

    assert!(rt; copy_script(rt.alloc(), "script", &mut world));
    assert_eq!(rt; world.out.bytes.as_slice(), b"text".as_slice());
    assert_eq!(rt; world.script.calls, 3);
    assert!(rt; !copy_script(rt.alloc(), "script", &mut world));
    assert_eq!(rt; (world.script.calls, world.script.faults), (5, 1));
    assert_eq!(rt; world.out.bytes.as_slice(), b"text".as_slice());
    Ok(())
}
