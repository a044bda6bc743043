use crate::line::write_line;
use crate::read::{ScriptFault, read_script};
use crate::script::{Command, Script, Verb};
use fs_model::event::{Event, Fill, ReadType, WriteType};
use fs_model::items::Items;
use fs_model::label::Label;
use fs_model::name::Name;
use fs_model::numbers::{Actor, BlockNo, FileId, PlanNo, StoreNo, TierNo, WorkerNo};
use fs_model::path::Path;
use fs_model::piece::Piece;
use fs_model::prefix::Prefix;
use fs_model::reply::{CopyRow, FileState, Line, Refusal, Reply, Which};
use std::alloc::Global;
use std::test::Fail;

#[test]
fn bad_lines_are_named(rt: HostRuntime) {
    let cases = [
        (b"01 ls /".as_slice(), 1),
        (b"65 ls /", 1),
        (b"0 ls /", 1),
        (b"100 ls /", 1),
        (b"-1 ls /", 1),
        (b"a ls /", 1),
        (b"ls /", 1),
        (b"1", 1),
        (b"1 ls", 1),
        (b"1 ls ", 1),
        (b"1  ls /", 1),
        (b"1 ls  /", 1),
        (b"1 ls / ", 1),
        (b" 1 ls /", 1),
        (b" ", 1),
        (b" # a comment", 1),
        (b"1 ls / /", 1),
        (b"1 list /", 1),
        (b"1 LS /", 1),
        (b"1 copyin f /a THROUGH 0 1 1", 1),
        (b"1 cat r /a NO_CACHE 0", 1),
        (b"1 up 1", 1),
        (b"1 rename /a /b", 1),
        (b"1 job j /a", 1),
        (b"1 pump 1", 1),
        (b"1 tick", 1),
        (b"1 ls /a//b", 1),
        (b"1 ls /a/", 1),
        (b"1 ls a", 1),
        (b"1 ls /.", 1),
        (b"1 ls /..", 1),
        (b"1 ls /.tierfs", 1),
        (b"1 ls /.tierfs-new", 1),
        (b"1 ls /%2e%2e", 1),
        (b"1 ls /%2F", 1),
        (b"1 ls /\x00", 1),
        (b"1 ls /%00", 1),
        (b"1 ls /\xff", 1),
        (b"1 ls /%c3", 1),
        (b"1 ls\t/", 1),
        (b"1\tls /", 1),
        (b"1 ls /\n\n#\n2 ls\n3 ls", 4),
        (b"1 ls /\r\n1 ls\r\n", 2),
    ];
    for (text, line) in cases {
        let fault = match read_script(rt.alloc(), text) {
            Ok(_) => 0,
            Err(ScriptFault::BadLine(line)) => line,
            Err(ScriptFault::Memory) => u32::MAX,
        };
        assert_eq!(rt; fault, line, "at {text:?}");
    }
}

#[test]
fn bad_events_are_named(rt: HostRuntime) {
    let cases = [
        b"1 create f /a THROUGH 0".as_slice(),
        b"1 create f /a CACHE_THROUGH 1",
        b"1 create f /a ASYNC_THROUGH 1",
        b"1 create f /a must_cache 1",
        b"1 create f /a MUST_CACHE",
        b"1 create f /a MUST_CACHE 0",
        b"1 create f /a MUST_CACHE 1001",
        b"1 create f /a MUST_CACHE 01",
        b"1 create f /a MUST_CACHE +1",
        b"1 create f /a MUST_CACHE 1 1",
        b"1 create /a f MUST_CACHE 1",
        b"1 create F /a MUST_CACHE 1",
        b"1 create %66 /a MUST_CACHE 1",
        b"1 create f a MUST_CACHE 1",
        b"1 open f /a NO_CACHE",
        b"1 open f /a NO_CACHE 1001",
        b"1 open f /a NO_CACHE 00",
        b"1 open f /a CACHE 1",
        b"1 open f /a CACHE_PROMOTE 1",
        b"1 open f /a MUST_CACHE 1",
        b"1 open /a f NO_CACHE 1",
        b"1 room",
        b"1 room f g",
        b"1 room a1b2c3d4e5f6g7h8i",
        b"1 done /a",
        b"1 next f 1",
        b"1 close f ",
        b"1 finish f",
        b"1 poll f",
        b"1 poll f 0",
        b"1 poll f 65537",
        b"1 poll f 010",
        b"1 poll f -1",
        b"1 poll f 18446744073709551617",
        b"1 poll 4 f",
        b"1 put f",
        b"1 put f x:",
        b"1 put f x:0",
        b"1 put f x:012",
        b"1 put f x:0g",
        b"1 put f x:00 00",
        b"1 put f X:00",
        b"1 put f y:00",
        b"1 put f x00",
        b"1 put f 00",
        b"1 put f g:0:0",
        b"1 put f g:0:0:",
        b"1 put f g:0:0:0",
        b"1 put f g:0:0:1:1",
        b"1 put f g:256:0:1",
        b"1 put f g:0:4398046511104:1",
        b"1 put f g:0:0:65537",
        b"1 put f g:00:0:1",
        b"1 put f g:0::1",
        b"1 put f g::0:1",
        b"1 put f x:0:0:1",
    ];
    for text in cases {
        let fault = read_script(rt.alloc(), text).err();
        assert_eq!(rt; fault, Some(ScriptFault::BadLine(1)), "at {text:?}");
    }
}

#[test]
fn bad_events_of_the_journal_are_named(rt: HostRuntime) {
    let cases = [
        b"1 checkpoint ".as_slice(),
        b"1 checkpoint x",
        b"1 checkpoint 1",
        b"1 check",
        b"1 CHECKPOINT",
        b"1 fuse",
        b"1 fuse ",
        b"1 fuse x",
        b"1 fuse 1 1",
        b"1 fuse -1",
        b"1 fuse +1",
        b"1 fuse 01",
        b"1 fuse 00",
        b"1 fuse 0x1",
        b"1 fuse 1.0",
        b"1 fuse 1_000",
        b"1 fuse 9223372036854775808",
        b"1 fuse 18446744073709551615",
        b"1 fuse 18446744073709551616",
        b"1 fuse 18446744073709551617",
        b"1 fuse 100000000000000000000000000000000000000000",
        b"1 fuse f 1",
        b"1 restart",
    ];
    for text in cases {
        let fault = read_script(rt.alloc(), text).err();
        assert_eq!(rt; fault, Some(ScriptFault::BadLine(1)), "at {text:?}");
    }
}

/// The line of a command of one event, with the reply `done` and actor 1.
fn told(alloc: Global, command: &Command) -> Result<Vec<u8>, Fail> {
    match &command.verb {
        Verb::One(event) => written(alloc, event.clone()?, Reply::Done),
        _ => Err(Fail::new("no event")),
    }
}

#[test]
fn events_are_read(rt: HostRuntime) -> Result<(), Fail> {
    let alloc = rt.alloc();
    let cases = [
        (
            b"1 create f /big MUST_CACHE 1".as_slice(),
            b"1 create f /big MUST_CACHE 1 -> done\n".as_slice(),
        ),
        (
            b"1 create a1b2c3d4e5f6g7h8 %2fa%20b MUST_CACHE 1000\n",
            b"1 create a1b2c3d4e5f6g7h8 /a%20b MUST_CACHE 1000 -> done\n",
        ),
        (b"1 room f", b"1 room f -> done\n"),
        (b"1 put f x:00", b"1 put f x:00 -> done\n"),
        (b"1 put f x:0aAF09", b"1 put f x:0aaf09 -> done\n"),
        (
            b"1 put f g:7:65536:3392",
            b"1 put f g:7:65536:3392 -> done\n",
        ),
        (
            b"1 put f g:255:4398046511103:65536",
            b"1 put f g:255:4398046511103:65536 -> done\n",
        ),
        (b"1 put 0 g:0:0:1", b"1 put 0 g:0:0:1 -> done\n"),
        (b"1 done f", b"1 done f -> done\n"),
        (
            b"1 open r /big NO_CACHE 0",
            b"1 open r /big NO_CACHE 0 -> done\n",
        ),
        (
            b"1 open r / NO_CACHE 1000",
            b"1 open r / NO_CACHE 1000 -> done\n",
        ),
        (b"1 next r", b"1 next r -> done\n"),
        (b"1 poll r 1", b"1 poll r 1 -> done\n"),
        (b"1 poll r 65536", b"1 poll r 65536 -> done\n"),
        (b"1 close r", b"1 close r -> done\n"),
        (b"1 checkpoint", b"1 checkpoint -> done\n"),
        (b"1 checkpoint\n", b"1 checkpoint -> done\n"),
        (b"1 fuse 0", b"1 fuse 0 -> done\n"),
        (b"1 fuse 3\n", b"1 fuse 3 -> done\n"),
        (
            b"1 fuse 9223372036854775807",
            b"1 fuse 9223372036854775807 -> done\n",
        ),
    ];
    for (text, line) in cases {
        let script = read_script(alloc, text)?;
        let [command] = script.commands() else {
            return Err(Fail::new("no command"));
        };
        assert_eq!(rt; told(alloc, command)?.as_slice(), line, "at {text:?}");
    }
    Ok(())
}

/// The text of a put of this many bytes, each 0.
fn put_of(alloc: Global, count: u32) -> Result<Vec<u8>, Fail> {
    let mut text = Vec::from_slice(alloc, b"1 put f x:")?;
    for _ in 0..count {
        text.extend_from_slice(b"00")?;
    }
    Ok(text)
}

#[test]
fn puts_have_a_greatest_length(rt: HostRuntime) -> Result<(), Fail> {
    let alloc = rt.alloc();
    let most = put_of(alloc, 65_536)?;
    assert_eq!(rt; read_script(alloc, &most)?.commands().len(), 1);
    let more = put_of(alloc, 65_537)?;
    assert_eq!(rt;
        read_script(alloc, &more).err(),
        Some(ScriptFault::BadLine(1))
    );
    Ok(())
}

/// The word and the path of a command.
fn word_and_path(command: &Command) -> (&'static [u8], Option<&Path>) {
    match &command.verb {
        Verb::One(Event::Mkdir { path }) => (b"mkdir", Some(path)),
        Verb::One(Event::List { path }) => (b"ls", Some(path)),
        Verb::One(Event::Stat { path }) => (b"stat", Some(path)),
        _ => (b"", None),
    }
}

#[test]
fn good_lines_are_read(rt: HostRuntime) -> Result<(), Fail> {
    let alloc = rt.alloc();
    let cases = [
        (
            b"1 mkdir /a".as_slice(),
            1,
            b"mkdir".as_slice(),
            b"/a".as_slice(),
        ),
        (b"64 ls /\n", 64, b"ls", b"/"),
        (b"9 stat /a/b\n\n", 9, b"stat", b"/a/b"),
        (b"10 ls %2fa", 10, b"ls", b"/a"),
        (b"# one\n\n1 ls /a%2fb", 1, b"ls", b"/a/b"),
        (b"1 ls /%2", 1, b"ls", b"/%2"),
        (b"1 ls /%zz%41", 1, b"ls", b"/%zzA"),
        (b"1 ls /%c3%a9\n#\xff\x00\r", 1, b"ls", b"/\xc3\xa9"),
        (b"1 ls /a\r\n", 1, b"ls", b"/a\r"),
        (b"1 ls /a\tb", 1, b"ls", b"/a\tb"),
        (b"1 ls /%20%0a", 1, b"ls", b"/ \n"),
    ];
    for (text, actor, word, path) in cases {
        let script = read_script(alloc, text)?;
        let [command] = script.commands() else {
            return Err(Fail::new("no command"));
        };
        assert_eq!(rt; command.actor.0, actor, "at {text:?}");
        let (verb, found) = word_and_path(command);
        assert_eq!(rt; verb, word, "at {text:?}");
        let path = Path::read(alloc, path)?;
        assert!(rt; found == Some(&path), "at {text:?}");
    }
    for text in [
        b"".as_slice(),
        b"\n",
        b"\n\n",
        b"#",
        b"#\n",
        b"##\n\n# 1 ls",
    ] {
        assert_eq!(rt;
            read_script(alloc, text)?.commands().len(),
            0,
            "at {text:?}"
        );
    }
    Ok(())
}

/// This many bytes, each the same.
fn repeated(alloc: Global, byte: u8, count: u32) -> Result<Vec<u8>, Fail> {
    let mut text = Vec::new(alloc);
    for _ in 0..count {
        text.push(byte)?;
    }
    Ok(text)
}

#[test]
fn limits_are_exact(rt: HostRuntime) -> Result<(), Fail> {
    let alloc = rt.alloc();
    let mut lines = repeated(alloc, b'\n', 1_000_000)?;
    assert_eq!(rt; read_script(alloc, &lines)?.commands().len(), 0);
    lines.push(b'\n')?;
    assert_eq!(rt;
        read_script(alloc, &lines).err(),
        Some(ScriptFault::BadLine(1_000_001))
    );
    let mut comment = repeated(alloc, b'#', 262_144)?;
    comment.extend_from_slice(b"\n1 ls /\n")?;
    assert_eq!(rt; read_script(alloc, &comment)?.commands().len(), 1);
    let mut longer = Vec::from_slice(alloc, b"#\n")?;
    longer.extend_from_slice(&repeated(alloc, b'#', 262_145)?)?;
    assert_eq!(rt;
        read_script(alloc, &longer).err(),
        Some(ScriptFault::BadLine(2))
    );
    Ok(())
}

#[test]
fn commands_are_kept(rt: HostRuntime) -> Result<(), Fail> {
    let alloc = rt.alloc();
    let mut commands = Vec::new(alloc);
    commands.push(Command {
        actor: Actor(2),
        verb: Verb::Up {
            worker: WorkerNo(1),
        },
    })?;
    let script = Script::from_vec(commands);
    assert_eq!(rt; script.commands().len(), 1);
    Ok(())
}

/// The text of a line of actor 1.
fn written(alloc: Global, event: Event, reply: Reply) -> Result<Vec<u8>, Fail> {
    let line = Line {
        actor: Actor(1),
        event,
        reply,
    };
    let mut out = Vec::new(alloc);
    write_line(alloc, &line, &mut out)?;
    Ok(out)
}

/// A reply by its place in the table of its test.
fn reply_at(place: usize) -> Reply {
    match place {
        0 => Reply::Done,
        1 => Reply::Begun(PlanNo(4)),
        2 => Reply::Opened(200_000),
        3 => Reply::FromWorker(WorkerNo(1), TierNo(0)),
        4 => Reply::FromStore(StoreNo(1)),
        5 => Reply::Copied(4),
        6 => Reply::NeedsBlock(BlockNo(1)),
        7 => Reply::StatFile {
            id: FileId(1),
            len: 0,
            state: FileState::NotPersisted,
            pinned: false,
        },
        8 => Reply::Refused(Refusal::Exists),
        9 => Reply::Refused(Refusal::Busy(PlanNo(4))),
        10 => Reply::Refused(Refusal::Limit(Which::Area)),
        _ => Reply::Refused(Refusal::Damaged(0, 54)),
    }
}

#[test]
fn replies_are_written(rt: HostRuntime) -> Result<(), Fail> {
    let texts = [
        b"1 tick -> done\n".as_slice(),
        b"1 tick -> begun 4\n",
        b"1 tick -> opened 200000\n",
        b"1 tick -> from worker 1 0\n",
        b"1 tick -> from store 1\n",
        b"1 tick -> copied 4\n",
        b"1 tick -> needblock 1\n",
        b"1 tick -> stat file 1 0 NOT_PERSISTED -\n",
        b"1 tick -> refused 3 Exists\n",
        b"1 tick -> refused 8 Busy 4\n",
        b"1 tick -> refused 22 Limit Area\n",
        b"1 tick -> refused 28 Damaged 0 54\n",
    ];
    for (place, text) in texts.iter().enumerate() {
        let line = written(rt.alloc(), Event::Tick, reply_at(place))?;
        assert_eq!(rt; line.as_slice(), *text);
    }
    Ok(())
}

/// An event by its place in the table of its test.
fn event_at(place: usize, label: Label, path: Path) -> Event {
    match place {
        0 => Event::Mkdir { path },
        1 => Event::Remove { path, deep: true },
        2 => Event::Pin { path, on: false },
        3 => Event::Create {
            label,
            path,
            kind: WriteType::MustCache,
            worker: WorkerNo(1),
        },
        4 => Event::OpenFile {
            label,
            path,
            kind: ReadType::NoCache,
            worker: WorkerNo(0),
        },
        5 => Event::Put {
            label,
            fill: Fill::Made {
                num: 7,
                at: 65_536,
                len: 3_392,
            },
        },
        6 => Event::Checkpoint,
        7 => Event::Fuse { calls: u64::MAX },
        _ => Event::Shift {
            label,
            worker: WorkerNo(1),
            path,
            block: BlockNo(0),
            tier: TierNo(1),
        },
    }
}

fn event_written(alloc: Global, place: usize) -> Result<Vec<u8>, Fail> {
    let label = Label::read(alloc, b"f")?.ok_or("no label")?;
    let path = Path::read(alloc, b"/a b/\xc3\xa9")?;
    written(alloc, event_at(place, label, path), Reply::Done)
}

#[test]
fn events_are_written(rt: HostRuntime) -> Result<(), Fail> {
    let texts = [
        b"1 mkdir /a%20b/%C3%A9 -> done\n".as_slice(),
        b"1 rmr /a%20b/%C3%A9 -> done\n",
        b"1 unpin /a%20b/%C3%A9 -> done\n",
        b"1 create f /a%20b/%C3%A9 MUST_CACHE 1 -> done\n",
        b"1 open f /a%20b/%C3%A9 NO_CACHE 0 -> done\n",
        b"1 put f g:7:65536:3392 -> done\n",
        b"1 checkpoint -> done\n",
        b"1 fuse 18446744073709551615 -> done\n",
        b"1 move f 1 /a%20b/%C3%A9 0 1 -> done\n",
    ];
    for (place, text) in texts.iter().enumerate() {
        let line = event_written(rt.alloc(), place)?;
        assert_eq!(rt; line.as_slice(), *text);
    }
    Ok(())
}

fn mount(alloc: Global) -> Event {
    Event::Mount {
        path: Path::root(alloc),
        store: StoreNo(2),
        key: Prefix::empty(alloc),
    }
}

fn names(alloc: Global) -> Result<Reply, Fail> {
    let mut names = Vec::new(alloc);
    names.push(Name::read(alloc, b"x")?.ok_or("no name")?)?;
    names.push(Name::read(alloc, b"y z")?.ok_or("no name")?)?;
    Ok(Reply::Names(Items::from_vec(names)))
}

fn piece(alloc: Global) -> Result<Reply, Fail> {
    let bytes = Vec::from_slice(alloc, b"\x00\x01\xab")?;
    Ok(Reply::Given(Piece::from_vec(bytes)))
}

fn copies(alloc: Global) -> Result<Reply, Fail> {
    let mut rows = Vec::new(alloc);
    for (block, keep) in [(0, true), (1, false)] {
        rows.push(CopyRow {
            block: BlockNo(block),
            worker: WorkerNo(2),
            tier: TierNo(1),
            keep,
            pin: keep,
            free: false,
        })?;
    }
    Ok(Reply::Copies(Items::from_vec(rows)))
}

#[test]
fn lists_are_written(rt: HostRuntime) -> Result<(), Fail> {
    let alloc = rt.alloc();
    assert_eq!(rt;
        written(alloc, mount(alloc), Reply::Done)?.as_slice(),
        b"1 mount / 2 - -> done\n".as_slice()
    );
    assert_eq!(rt;
        written(alloc, Event::Tick, names(alloc)?)?.as_slice(),
        b"1 tick -> names x y%20z\n".as_slice()
    );
    assert_eq!(rt;
        written(alloc, Event::Tick, piece(alloc)?)?.as_slice(),
        b"1 tick -> piece 0001ab\n".as_slice()
    );
    assert_eq!(rt;
        written(alloc, Event::Tick, copies(alloc)?)?.as_slice(),
        b"1 tick -> copies 0:2:1:kp 1:2:1:-\n".as_slice()
    );
    Ok(())
}
