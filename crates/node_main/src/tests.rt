ghost use Rattle.std.specs.Prelude.{◌≡◌, IfOk, None};

use crate::run::run;
use outside_mem::{ByNumber, Failing, MemDisk, MemObjects, MemWorld};
use std::alloc::Global;
use std::process::Abort;
use std::test::Fail;

/// A world that holds an empty configuration `c` and this script `s`.
fn world_of(alloc: Global, script: &[u8]) -> Result<MemWorld, Fail>
    ensures { IfOk result (λ world. world.shelf.lent ≡ None) }
{
    let mut world = MemWorld::new(alloc);
    world.hold("c", b"")?;
    world.hold("s", script)?;
    Ok(world)
}

/// The words of a text, with one space between them.
fn words_of(alloc: Global, text: &str) -> Result<Vec<String>, Fail> {
    let mut words = Vec::new(alloc);
    for word in text.split(' ') {
        words.push(String::from_str(alloc, word)?)?;
    }
    Ok(words)
}

/// The status of a play of the script, with what was written.
fn played(alloc: Global, script: &[u8]) -> Result<(u8, Vec<u8>), Fail> {
    let mut world = world_of(alloc, script)?;
    let words = words_of(alloc, "play c s")?;
    let status = run(alloc, &words, &mut world);
    let written = Vec::from_slice(alloc, &world.out.bytes)?;
    Ok((status, written))
}

#[test]
fn scripts_end_so(rt: HostRuntime) -> Result<(), Fail> {
    let alloc = rt.alloc();
    for (script, status, text) in [
        ("", 0u8, ""),
        ("\n# nothing\n\n", 0, ""),
        (
            "1 mkdir /a\n1 mkdir /a\n1 mkdir /x/y\n1 ls /\n1 stat /a",
            0,
            "1 mkdir /a -> done\n1 mkdir /a -> refused 3 Exists\n1 mkdir /x/y -> refused 2 NotFound\n1 ls / -> names a\n1 stat /a -> stat dir\n",
        ),
        (
            "1 mkdir /b\n2 mkdir /ab\n3 mkdir /a\n64 mkdir /a/c\n1 ls /\n1 ls /a\n1 ls /b\n1 ls /c\n1 stat /\n",
            0,
            "1 mkdir /b -> done\n2 mkdir /ab -> done\n3 mkdir /a -> done\n64 mkdir /a/c -> done\n1 ls / -> names a ab b\n1 ls /a -> names c\n1 ls /b -> names\n1 ls /c -> refused 2 NotFound\n1 stat / -> stat dir\n",
        ),
        (
            "1 mkdir /a%2fb\n1 mkdir /a\n1 mkdir /a%2Fb%20c\r\n1 ls /a",
            0,
            "1 mkdir /a/b -> refused 2 NotFound\n1 mkdir /a -> done\n1 mkdir /a/b%20c%0D -> done\n1 ls /a -> names b%20c%0D\n",
        ),
        ("1 ls /\n0 ls /\n1 ls /", 4, "stopped 4 BadScript 2\n"),
        ("1 create f /a THROUGH 0", 4, "stopped 4 BadScript 1\n"),
        ("1 ls /\n1 ls /.tierfs\n", 4, "stopped 4 BadScript 2\n"),
    ] {
        let (ended, written) = played(alloc, script.as_bytes())?;
        assert_eq!(rt; ended, status, "at {script}");
        assert_eq!(rt; written.as_slice(), text.as_bytes(), "at {script}");
    }
    Ok(())
}

#[test]
fn words_of_no_form_are_bad(rt: HostRuntime) -> Result<(), Fail> {
    let alloc = rt.alloc();
    for text in [
        "",
        "play",
        "play c",
        "play c s s",
        "play  s",
        "play c -s",
        "storm c s",
    ] {
        let mut world = world_of(alloc, b"1 ls /\n")?;
        let words = words_of(alloc, text)?;
        assert_eq!(rt; run(alloc, &words, &mut world), 2);
        assert_eq!(rt;
            world.out.bytes.as_slice(),
            b"stopped 2 BadWords\n".as_slice()
        );
    }
    Ok(())
}

/// A path of 16 names, `last` bytes the last of them, after `1 mkdir `.
fn long_line(alloc: Global, last: usize) -> Result<Vec<u8>, Fail> {
    let mut line = Vec::from_slice(alloc, b"1 mkdir ")?;
    for place in 0..16 {
        line.push(b'/')?;
        let bytes = if place == 15 { last } else { 255 };
        for _ in 0..bytes {
            line.push(b'n')?;
        }
    }
    Ok(line)
}

#[test]
fn paths_have_a_greatest_length(rt: HostRuntime) -> Result<(), Fail> {
    let alloc = rt.alloc();
    let (status, written) = played(alloc, &long_line(alloc, 255)?)?;
    assert_eq!(rt; status, 0);
    assert!(rt; written.ends_with(b" -> refused 2 NotFound\n"));
    let mut script = Vec::from_slice(alloc, b"1 ls /\n")?;
    script.extend_from_slice(&long_line(alloc, 256)?)?;
    let (status, written) = played(alloc, &script)?;
    assert_eq!(rt; status, 4);
    assert_eq!(rt; written.as_slice(), b"stopped 4 BadScript 2\n".as_slice());
    Ok(())
}

#[test]
fn scripts_have_a_greatest_length(rt: HostRuntime) -> Result<(), Fail> {
    let alloc = rt.alloc();
    let mut script = vec![in alloc; b'\n'; 1_000_000]?;
    assert_eq!(rt; played(alloc, &script)?.0, 0);
    script.push(b'\n')?;
    let (status, written) = played(alloc, &script)?;
    assert_eq!(rt; status, 4);
    assert_eq!(rt;
        written.as_slice(),
        b"stopped 4 BadScript 1000001\n".as_slice()
    );
    let longest = vec![in alloc; b'#'; 16_777_217]?;
    let (status, written) = played(alloc, &longest)?;
    assert_eq!(rt; status, 9);
    assert_eq!(rt; written.as_slice(), b"stopped 9 TooLong\n".as_slice());
    Ok(())
}

/// The status of a play of `1 ls /` twice over this world, with what was written.
fn played_in(alloc: Global, mut world: MemWorld) -> Result<(u8, Vec<u8>), Fail>
    requires { world.shelf.lent ≡ None }
{
    let words = words_of(alloc, "play c s")?;
    let status = run(alloc, &words, &mut world);
    let written = Vec::from_slice(alloc, &world.out.bytes)?;
    Ok((status, written))
}

#[test]
fn a_failed_write_ends_the_run(rt: HostRuntime) -> Result<(), Fail> {
    let alloc = rt.alloc();
    let mut world = world_of(alloc, b"1 ls /\n1 ls /\n")?;
    world.out.failing = Failing::listed(alloc, &[2])?;
    let (status, written) = played_in(alloc, world)?;
    assert_eq!(rt; status, 6);
    assert_eq!(rt; written.as_slice(), b"1 ls / -> names\n".as_slice());
    Ok(())
}

#[test]
fn a_failed_read_ends_the_run(rt: HostRuntime) -> Result<(), Fail> {
    let alloc = rt.alloc();
    let mut world = world_of(alloc, b"1 ls /\n1 ls /\n")?;
    world.script.failing = Failing::listed(alloc, &[1])?;
    let (status, written) = played_in(alloc, world)?;
    assert_eq!(rt; status, 5);
    assert_eq!(rt; written.as_slice(), b"stopped 5 ReadFault\n".as_slice());
    Ok(())
}

#[test]
fn an_input_that_is_not_there_ends_the_run(rt: HostRuntime) -> Result<(), Fail> {
    let alloc = rt.alloc();
    let mut world = MemWorld::new(alloc);
    world.hold("s", b"1 ls /\n")?;
    let (status, written) = played_in(alloc, world)?;
    assert_eq!(rt; status, 10);
    assert_eq!(rt; written.as_slice(), b"stopped 10 OpenFault\n".as_slice());
    Ok(())
}

/// A file without bytes: made, read, and shown.
const EMPTY: &str = "1 create f /e MUST_CACHE 1 -> done
1 done f -> done
1 open r /e NO_CACHE 0 -> opened 0
1 poll r 10 -> end
1 close r -> done
1 stat /e -> stat file 1 0 NOT_PERSISTED -
";

/// A file of two blocks, written and read back.
const TWO_BLOCKS: &str = "1 create f /t MUST_CACHE 1 -> done
1 put f g:0:0:8 -> needroom
1 room f -> done
1 put f g:0:0:8 -> taken 4
1 put f g:0:4:4 -> needroom
1 room f -> done
1 put f g:0:4:4 -> taken 4
1 done f -> done
1 open r /t NO_CACHE 0 -> opened 8
1 poll r 65536 -> needblock 0
1 next r -> from worker 1 0
1 poll r 65536 -> piece 00010203
1 poll r 65536 -> needblock 1
1 next r -> from worker 1 0
1 poll r 65536 -> piece 04050607
1 poll r 65536 -> end
1 close r -> done
";

/// A file that is opened before it is done, and a label that ended.
const TOO_EARLY: &str = "1 create f /a MUST_CACHE 1 -> done
1 open r /a NO_CACHE 0 -> refused 7 Incomplete
1 done f -> done
1 open r /a NO_CACHE 0 -> opened 0
1 next r -> end
1 put f x:00 -> refused 19 BadLabel
";

/// A file whose first poll isn't ready.
const NOT_READY: &str = "1 create f /a MUST_CACHE 1 -> done
1 put f g:0:0:4 -> needroom
1 room f -> done
1 put f g:0:0:4 -> taken 4
1 done f -> done
1 open r /a NO_CACHE 0 -> opened 4
1 next r -> from worker 1 0
1 poll r 4 -> notready
1 poll r 4 -> piece 00010203
";

/// The script of lines: each without its reply.
fn script_of(alloc: Global, lines: &str) -> Result<Vec<u8>, Fail> {
    let mut script = Vec::new(alloc);
    for line in lines.lines() {
        let (event, _) = line.split_once(" -> ").ok_or("a line without a reply")?;
        script.extend_from_slice(event.as_bytes())?;
        script.push(b'\n')?;
    }
    Ok(script)
}

#[test]
fn files_are_written_and_read(rt: HostRuntime) -> Result<(), Fail> {
    let alloc = rt.alloc();
    for text in [EMPTY, TWO_BLOCKS, TOO_EARLY] {
        let script = script_of(alloc, text)?;
        let (status, written) = played(alloc, &script)?;
        assert_eq!(rt; status, 0);
        assert_eq!(rt; written.as_slice(), text.as_bytes());
    }
    Ok(())
}

/// The lines of 64 files that actor 1 makes under 64 labels, and of two more, of which only actor 2's is made.
fn many_labels(alloc: Global) -> Result<Vec<u8>, Fail> {
    let mut lines = Vec::new(alloc);
    for number in 1..65u32 {
        let text = number.to_string(alloc)?;
        lines.extend_from_slice(b"1 create f")?;
        lines.extend_from_slice(text.as_bytes())?;
        lines.extend_from_slice(b" /f")?;
        lines.extend_from_slice(text.as_bytes())?;
        lines.extend_from_slice(b" MUST_CACHE 1 -> done\n")?;
    }
    lines.extend_from_slice(b"1 create z /z MUST_CACHE 1 -> refused 22 Limit Labels\n")?;
    lines.extend_from_slice(b"2 create z /z MUST_CACHE 1 -> done\n")?;
    Ok(lines)
}

#[test]
fn an_actor_has_64_labels_at_most(rt: HostRuntime) -> Result<(), Fail> {
    let alloc = rt.alloc();
    let lines = many_labels(alloc)?;
    let text = str::from_utf8(&lines).map_err(|_| "no text")?;
    let script = script_of(alloc, text)?;
    let (status, written) = played(alloc, &script)?;
    assert_eq!(rt; status, 0);
    assert_eq!(rt; written.as_slice(), lines.as_slice());
    Ok(())
}

/// A tier whose first reader's first poll isn't ready.
fn waiting_tier(alloc: Global) -> Result<MemObjects, Fail> {
    let mut tier = MemObjects::new(alloc);
    let first = ByNumber {
        number: 1,
        failing: Failing::listed(alloc, &[1])?,
    };
    tier.calls.waiting_polls.push(first)?;
    Ok(tier)
}

#[test]
fn a_reader_that_is_not_ready_goes_on(rt: HostRuntime) -> Result<(), Fail> {
    let alloc = rt.alloc();
    let script = script_of(alloc, NOT_READY)?;
    let mut world = world_of(alloc, &script)?;
    world.hold_store("m1", waiting_tier(alloc)?)?;
    let (status, written) = played_in(alloc, world)?;
    assert_eq!(rt; status, 0);
    assert_eq!(rt; written.as_slice(), NOT_READY.as_bytes());
    Ok(())
}

/// Area 0 after the first checkpoint and `mkdir /a`.
const FIRST: &[u8; 65] = b"\x01\x00\x00\x00\x00\x00\x00\x00\x01\
\x01\x00\x00\x00\x11\x0f\x00\x00\x00\x00\x00\x00\x00\x01\x00\x00\x00\x00\x00\x00\x00\x01\
\x01\x00\x00\x00\x12\x0a\x00\x01/\x00\x00\x00\x01\x00\x00\x00\x00\x00\x00\x00\x00\x00\x00\
\x01\x00\x00\x00\x05\x01\x00\x02/a\x00";

/// Area 1 after the checkpoint that follows.
const SECOND: &[u8; 85] = b"\x01\x00\x00\x00\x00\x00\x00\x00\x02\
\x01\x00\x00\x00\x11\x0f\x00\x00\x00\x00\x00\x00\x00\x01\x00\x00\x00\x00\x00\x00\x00\x01\
\x01\x00\x00\x00\x12\x0a\x00\x01/\x00\x00\x00\x01\x00\x00\x00\x00\x00\x00\x00\x00\x00\x00\
\x01\x00\x00\x00\x19\x10\x00\x02/a\x00\x00\x00\x00\x00\x00\x00\x00\x00\x00\x00\x00\x00\x00\x00\x00\x00\x01\x00\x00\x00";

/// An area in memory that holds these bytes.
fn area(alloc: Global, bytes: &[u8]) -> Result<MemDisk, Fail> {
    Ok(MemDisk::new(Vec::from_slice(alloc, bytes)?))
}

/// What the world holds in the areas of this journal.
fn areas_in<'a>(world: &'a MemWorld, journal: &str) -> Result<(&'a [u8], &'a [u8]), Fail> {
    let (first, second) = world.shelf.find_areas(journal).ok_or("no areas")?;
    Ok((first.bytes(), second.bytes()))
}

/// Checks what the world holds in the areas of the journal that is played over.
fn has_areas(rt: &impl Abort, world: &MemWorld, first: &[u8], second: &[u8]) -> Result<(), Fail> {
    let (a, b) = areas_in(world, "j")?;
    assert_eq!(rt; a, first);
    assert_eq!(rt; b, second);
    Ok(())
}

#[test]
fn a_play_leaves_its_names_in_the_first_area(rt: HostRuntime) -> Result<(), Fail> {
    let alloc = rt.alloc();
    let mut world = world_of(alloc, b"1 mkdir /a\n")?;
    world.hold_areas("k", area(alloc, b"third")?, area(alloc, b"")?)?;
    let words = words_of(alloc, "play c s")?;
    assert_eq!(rt; run(alloc, &words, &mut world), 0);
    has_areas(&rt, &world, FIRST, b"")?;
    let (third, _) = areas_in(&world, "k")?;
    assert_eq!(rt; third, b"third".as_slice());
    Ok(())
}

#[test]
fn a_second_play_has_the_names_of_the_first(rt: HostRuntime) -> Result<(), Fail> {
    let alloc = rt.alloc();
    let mut world = world_of(alloc, b"1 mkdir /a\n")?;
    let words = words_of(alloc, "play c s")?;
    assert_eq!(rt; run(alloc, &words, &mut world), 0);
    world.hold("s", b"1 ls /\n1 mkdir /a\n")?;
    assert_eq!(rt; run(alloc, &words, &mut world), 0);
    assert_eq!(rt;
        world.out.bytes.as_slice(),
        b"1 mkdir /a -> done\n1 ls / -> names a\n1 mkdir /a -> refused 3 Exists\n".as_slice()
    );
    has_areas(&rt, &world, FIRST, b"")
}

/// A world with this script whose journal has areas with these bytes.
fn world_over(alloc: Global, script: &[u8], a: &[u8], b: &[u8]) -> Result<MemWorld, Fail>
    ensures { IfOk result (λ world. world.shelf.lent ≡ None) }
{
    let mut world = world_of(alloc, script)?;
    world.hold_areas("j", area(alloc, a)?, area(alloc, b)?)?;
    Ok(world)
}

#[test]
fn an_area_that_is_not_open_is_begun_anew(rt: HostRuntime) -> Result<(), Fail> {
    let alloc = rt.alloc();
    let mut world = world_over(alloc, b"1 mkdir /a\n", b"first", b"second")?;
    let words = words_of(alloc, "play c s")?;
    assert_eq!(rt; run(alloc, &words, &mut world), 0);
    has_areas(&rt, &world, FIRST, b"second")
}

/// Checks a play of `1 ls /` over areas with these bytes: its status, what it writes, and that it leaves the areas so.
fn ends_over(
    rt: &impl Abort,
    alloc: Global,
    a: &[u8],
    b: &[u8],
    status: u8,
    text: &str,
) -> Result<(), Fail> {
    let mut world = world_over(alloc, b"1 ls /\n", a, b)?;
    let words = words_of(alloc, "play c s")?;
    assert_eq!(rt; run(alloc, &words, &mut world), status);
    assert_eq!(rt; world.out.bytes.as_slice(), text.as_bytes());
    has_areas(rt, &world, a, b)
}

/// Bytes with another byte at this place.
fn changed(alloc: Global, bytes: &[u8], place: usize, byte: u8) -> Result<Vec<u8>, Fail> {
    let mut area = Vec::from_slice(alloc, bytes)?;
    if let Some(at) = area.get_mut(place) {
        *at = byte;
    }
    Ok(area)
}

#[test]
fn an_open_area_is_read(rt: HostRuntime) -> Result<(), Fail> {
    let alloc = rt.alloc();
    ends_over(&rt, alloc, FIRST, b"", 0, "1 ls / -> names a\n")?;
    ends_over(&rt, alloc, FIRST, SECOND, 0, "1 ls / -> names a\n")
}

#[test]
fn a_damaged_area_has_its_status_and_place(rt: HostRuntime) -> Result<(), Fail> {
    let alloc = rt.alloc();
    let cut = FIRST.get(..60).ok_or("too short")?;
    ends_over(&rt, alloc, cut, b"", 7, "stopped 7 Damaged 0 54\n")?;
    let longer = changed(alloc, SECOND, 84, 2)?;
    ends_over(&rt, alloc, FIRST, &longer, 7, "stopped 7 Damaged 1 84\n")?;
    // The area that isn't current may be damaged.
    ends_over(&rt, alloc, cut, SECOND, 0, "1 ls / -> names a\n")
}

#[test]
fn a_mount_in_no_store_is_a_bad_setup(rt: HostRuntime) -> Result<(), Fail> {
    let alloc = rt.alloc();
    let text = "stopped 3 BadConfig store\n";
    // There are two stores, and `/` is to be mounted.
    let second = changed(alloc, FIRST, 43, 2)?;
    ends_over(&rt, alloc, &second, b"", 0, "1 ls / -> names a\n")?;
    ends_over(&rt, alloc, &changed(alloc, FIRST, 43, 3)?, b"", 3, text)?;
    ends_over(&rt, alloc, &changed(alloc, FIRST, 43, 0)?, b"", 3, text)?;
    ends_over(&rt, alloc, &changed(alloc, FIRST, 31, 0)?, b"", 3, text)
}

/// An area in memory that holds these bytes, and whose first read fails.
fn unreadable(alloc: Global, bytes: &[u8]) -> Result<MemDisk, Fail> {
    let mut disk = area(alloc, bytes)?;
    disk.calls.reads.failing = Failing::listed(alloc, &[1])?;
    Ok(disk)
}

#[test]
fn an_area_that_fails_ends_the_run(rt: HostRuntime) -> Result<(), Fail> {
    let alloc = rt.alloc();
    let mut world = world_of(alloc, b"1 ls /\n")?;
    world.hold_areas("j", area(alloc, FIRST)?, unreadable(alloc, SECOND)?)?;
    let (status, written) = played_in(alloc, world)?;
    assert_eq!(rt; status, 11);
    assert_eq!(rt; written.as_slice(), b"stopped 11 JournalFault\n".as_slice());
    Ok(())
}

/// An area in memory that holds nothing, and whose first write fails.
fn unwritable(alloc: Global) -> Result<MemDisk, Fail> {
    let mut disk = area(alloc, b"")?;
    disk.calls.writes.failing = Failing::listed(alloc, &[1])?;
    Ok(disk)
}

#[test]
fn an_area_that_cannot_be_begun_ends_the_run(rt: HostRuntime) -> Result<(), Fail> {
    let alloc = rt.alloc();
    let mut world = world_of(alloc, b"1 ls /\n")?;
    world.hold_areas("j", unwritable(alloc)?, area(alloc, b"")?)?;
    let (status, written) = played_in(alloc, world)?;
    assert_eq!(rt; status, 11);
    assert_eq!(rt; written.as_slice(), b"stopped 11 JournalFault\n".as_slice());
    Ok(())
}

#[test]
fn stores_that_cannot_be_lent_end_the_run(rt: HostRuntime) -> Result<(), Fail> {
    let alloc = rt.alloc();
    let mut world = world_of(alloc, b"1 ls /\n")?;
    world.assemble_failing = Failing::listed(alloc, &[1])?;
    let (status, written) = played_in(alloc, world)?;
    assert_eq!(rt; status, 10);
    assert_eq!(rt; written.as_slice(), b"stopped 10 OpenFault\n".as_slice());
    Ok(())
}
