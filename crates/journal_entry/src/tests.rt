//! Texts of entries from outside, both ways, and bytes that are none.

use crate::decode::decode;
use crate::encode::encode;
use crate::entry::{Entries, Entry};
use fs_model::change::PlanKind;
use fs_model::items::Items;
use fs_model::numbers::{FileId, PlanNo, StoreNo, WorkerNo};
use fs_model::path::Path;
use fs_model::prefix::Prefix;
use fs_model::reply::Stored;
use std::alloc::{AllocError, Global};
use std::process::Abort;
use std::test::Fail;

fn path(alloc: Global, text: &str) -> Result<Path, Fail> {
    Ok(Path::read(alloc, text.as_bytes())?)
}

fn key(alloc: Global, text: &str) -> Result<Prefix, Fail> {
    Ok(Prefix::read(alloc, text.as_bytes())?.ok_or("the text is a key")?)
}

/// Whether this entry and this length were read.
fn is_read(found: Option<(Entry, usize)>, entry: &Entry, len: usize) -> bool {
    match found {
        Some((read, taken)) => read == *entry && taken == len,
        None => false,
    }
}

/// The text of an entry that fits.
fn text_of(rt: &impl Abort, alloc: Global, entry: &Entry) -> Result<Vec<u8>, AllocError> {
    assert!(rt; entry.fits());
    let mut out = Vec::with_capacity(alloc, 8256)?;
    encode(entry, &mut out);
    Ok(out)
}

/// Checks that a text is read as an entry, whatever follows, and that no shorter front of it is.
fn is_read_alone(rt: &impl Abort, alloc: Global, text: &[u8], entry: &Entry) -> Result<(), Fail> {
    for after in [0u8, 1, 255] {
        let mut longer = Vec::from_slice(alloc, text)?;
        longer.push(after)?;
        assert!(rt;
            is_read(decode(alloc, &longer)?, entry, text.len()),
            "before {after}"
        );
    }
    for end in 0..text.len() {
        assert!(rt; decode(alloc, &text[..end])?.is_none(), "up to {end}");
    }
    Ok(())
}

/// Checks both ways that a text is that of an entry.
fn are_one(rt: &impl Abort, alloc: Global, text: &[u8], entry: &Entry) -> Result<(), Fail> {
    let written = text_of(rt, alloc, entry)?;
    assert_eq!(rt; written.as_slice(), text);
    assert!(rt; entry.fits());
    assert_eq!(rt; entry.text_len(), text.len() as u64);
    is_read_alone(rt, alloc, text, entry)
}

/// Checks both ways that a text is that of an entry, which is let go.
fn check(rt: &impl Abort, alloc: Global, text: &[u8], entry: Entry) -> Result<(), Fail> {
    are_one(rt, alloc, text, &entry)
}

#[test]
fn made_names_have_their_texts(rt: HostRuntime) -> Result<(), Fail> {
    let alloc = rt.alloc();
    let mkdir = Entry::Mkdir {
        path: path(alloc, "/a")?,
    };
    check(&rt, alloc, b"\x00\x00\x00\x05\x01\x00\x02/a", mkdir)?;
    let create = Entry::Create {
        id: FileId(7),
        path: path(alloc, "/a/b")?,
    };
    check(
        &rt,
        alloc,
        b"\x00\x00\x00\x0f\x02\x00\x00\x00\x00\x00\x00\x00\x07\x00\x04/a/b",
        create,
    )?;
    let loaded = Entry::Loaded {
        id: FileId(7),
        path: path(alloc, "/m/é")?,
        len: 258,
    };
    check(
        &rt,
        alloc,
        b"\x00\x00\x00\x18\x0e\x00\x00\x00\x00\x00\x00\x00\x07\x00\x05/m/\xc3\xa9\x00\x00\x00\x00\x00\x00\x01\x02",
        loaded,
    )
}

#[test]
fn removed_names_have_their_texts(rt: HostRuntime) -> Result<(), Fail> {
    let alloc = rt.alloc();
    let remove = Entry::Remove {
        path: path(alloc, "/a")?,
        plan: PlanNo(0),
    };
    check(
        &rt,
        alloc,
        b"\x00\x00\x00\x0d\x04\x00\x02/a\x00\x00\x00\x00\x00\x00\x00\x00",
        remove,
    )?;
    let to = path(alloc, "/b")?;
    let relink = Entry::Move {
        path: path(alloc, "/a")?,
        to,
        plan: PlanNo(3),
    };
    check(
        &rt,
        alloc,
        b"\x00\x00\x00\x11\x05\x00\x02/a\x00\x02/b\x00\x00\x00\x00\x00\x00\x00\x03",
        relink,
    )
}

#[test]
fn done_files_have_their_texts(rt: HostRuntime) -> Result<(), Fail> {
    let alloc = rt.alloc();
    let kept_here = Entry::Done {
        id: FileId(7),
        len: 258,
        stored: Stored::No,
        plan: PlanNo(0),
    };
    check(
        &rt,
        alloc,
        b"\x00\x00\x00\x1a\x03\x00\x00\x00\x00\x00\x00\x00\x07\x00\x00\x00\x00\x00\x00\x01\x02\x00\x00\x00\x00\x00\x00\x00\x00\x00",
        kept_here,
    )?;
    let greatest = Entry::Done {
        id: FileId((1 << 63) - 1),
        len: u64::MAX,
        stored: Stored::Yes,
        plan: PlanNo((1 << 63) - 1),
    };
    check(
        &rt,
        alloc,
        b"\x00\x00\x00\x1a\x03\x7f\xff\xff\xff\xff\xff\xff\xff\xff\xff\xff\xff\xff\xff\xff\xff\x02\x7f\xff\xff\xff\xff\xff\xff\xff",
        greatest,
    )
}

#[test]
fn kept_files_have_their_texts(rt: HostRuntime) -> Result<(), Fail> {
    let alloc = rt.alloc();
    let pin = Entry::Pin {
        path: path(alloc, "/a")?,
        on: true,
    };
    check(&rt, alloc, b"\x00\x00\x00\x06\x06\x00\x02/a\x01", pin)?;
    check(
        &rt,
        alloc,
        b"\x00\x00\x00\x09\x07\x00\x00\x00\x00\x00\x00\x00\x07",
        Entry::Want { id: FileId(7) },
    )?;
    let persisted = Entry::Persisted {
        id: FileId(7),
        plan: PlanNo(3),
    };
    check(
        &rt,
        alloc,
        b"\x00\x00\x00\x11\x09\x00\x00\x00\x00\x00\x00\x00\x07\x00\x00\x00\x00\x00\x00\x00\x03",
        persisted,
    )?;
    let plan = PlanNo(0x0102_0304_0506_0708);
    check(
        &rt,
        alloc,
        b"\x00\x00\x00\x09\x08\x01\x02\x03\x04\x05\x06\x07\x08",
        Entry::PlanEnd { plan },
    )
}

#[test]
fn mounts_have_their_texts(rt: HostRuntime) -> Result<(), Fail> {
    let alloc = rt.alloc();
    let root = Entry::Mount {
        path: Path::root(alloc),
        store: StoreNo(1),
        key: Prefix::empty(alloc),
        plan: PlanNo(0),
    };
    check(
        &rt,
        alloc,
        b"\x00\x00\x00\x12\x0a\x00\x01/\x00\x00\x00\x01\x00\x00\x00\x00\x00\x00\x00\x00\x00\x00",
        root,
    )?;
    let under = key(alloc, ".tierfs/k")?;
    let mount = Entry::Mount {
        path: path(alloc, "/m")?,
        store: StoreNo(2),
        key: under,
        plan: PlanNo(3),
    };
    check(
        &rt,
        alloc,
        b"\x00\x00\x00\x1c\x0a\x00\x02/m\x00\x00\x00\x02\x00\x09.tierfs/k\x00\x00\x00\x00\x00\x00\x00\x03",
        mount,
    )?;
    let unmount = Entry::Unmount {
        path: path(alloc, "/m")?,
    };
    check(&rt, alloc, b"\x00\x00\x00\x05\x0b\x00\x02/m", unmount)
}

#[test]
fn workers_have_their_texts(rt: HostRuntime) -> Result<(), Fail> {
    let alloc = rt.alloc();
    let worker = WorkerNo(64);
    check(
        &rt,
        alloc,
        b"\x00\x00\x00\x05\x0c\x00\x00\x00@",
        Entry::Seen { worker },
    )?;
    let workers = Items::from_vec(Vec::from_slice(alloc, &[WorkerNo(1), WorkerNo(64)])?);
    check(
        &rt,
        alloc,
        b"\x00\x00\x00\x0b\x0d\x00\x02\x00\x00\x00\x01\x00\x00\x00@",
        Entry::Lost { workers },
    )
}

#[test]
fn checkpoint_nodes_have_their_texts(rt: HostRuntime) -> Result<(), Fail> {
    let alloc = rt.alloc();
    let directory = Entry::Node {
        path: path(alloc, "/a")?,
        dir: true,
        id: FileId(0),
        len: 0,
        done: true,
        stored: Stored::No,
        pinned: false,
    };
    check(
        &rt,
        alloc,
        b"\x00\x00\x00\x19\x10\x00\x02/a\x00\x00\x00\x00\x00\x00\x00\x00\x00\x00\x00\x00\x00\x00\x00\x00\x00\x01\x00\x00",
        directory,
    )?;
    let file = Entry::Node {
        path: path(alloc, "/f")?,
        dir: false,
        id: FileId(7),
        len: 258,
        done: true,
        stored: Stored::Wanted,
        pinned: true,
    };
    check(
        &rt,
        alloc,
        b"\x00\x00\x00\x19\x10\x00\x02/f\x01\x00\x00\x00\x00\x00\x00\x00\x07\x00\x00\x00\x00\x00\x00\x01\x02\x01\x01\x01",
        file,
    )?;
    let unfinished = Entry::Node {
        path: path(alloc, "/f")?,
        dir: false,
        id: FileId(7),
        len: 0,
        done: false,
        stored: Stored::No,
        pinned: true,
    };
    check(
        &rt,
        alloc,
        b"\x00\x00\x00\x19\x10\x00\x02/f\x01\x00\x00\x00\x00\x00\x00\x00\x07\x00\x00\x00\x00\x00\x00\x00\x00\x00\x00\x01",
        unfinished,
    )
}

#[test]
fn checkpoint_plans_have_their_texts(rt: HostRuntime) -> Result<(), Fail> {
    let alloc = rt.alloc();
    let next = Entry::Next {
        id: FileId(1),
        plan: PlanNo(1 << 63),
    };
    check(
        &rt,
        alloc,
        b"\x00\x00\x00\x11\x0f\x00\x00\x00\x00\x00\x00\x00\x01\x80\x00\x00\x00\x00\x00\x00\x00",
        next,
    )?;
    let to = path(alloc, "/b")?;
    let relink = Entry::Pending {
        plan: PlanNo(3),
        kind: PlanKind::Move,
        path: path(alloc, "/a")?,
        to,
    };
    check(
        &rt,
        alloc,
        b"\x00\x00\x00\x12\x11\x00\x00\x00\x00\x00\x00\x00\x03\x01\x00\x02/a\x00\x02/b",
        relink,
    )?;
    let load = Entry::Pending {
        plan: PlanNo(3),
        kind: PlanKind::Load,
        path: path(alloc, "/m")?,
        to: Path::root(alloc),
    };
    check(
        &rt,
        alloc,
        b"\x00\x00\x00\x11\x11\x00\x00\x00\x00\x00\x00\x00\x03\x04\x00\x02/m\x00\x01/",
        load,
    )?;
    let leaf = Entry::Leaf {
        plan: PlanNo(3),
        path: path(alloc, "/a/f")?,
    };
    check(
        &rt,
        alloc,
        b"\x00\x00\x00\x0f\x12\x00\x00\x00\x00\x00\x00\x00\x03\x00\x04/a/f",
        leaf,
    )
}

#[test]
fn bad_lengths_and_paths_are_no_entry(rt: HostRuntime) -> Result<(), Fail> {
    for (name, bytes) in [
        ("a kind of 0", b"\x00\x00\x00\x01\x00".as_slice()),
        ("a kind of 19", b"\x00\x00\x00\x05\x13\x00\x02/a"),
        ("a kind of 255", b"\x00\x00\x00\x01\xff"),
        ("no body", b"\x00\x00\x00\x00"),
        ("no fields", b"\x00\x00\x00\x01\x01"),
        ("a byte left", b"\x00\x00\x00\x06\x01\x00\x02/a\x00"),
        ("a body that ends early", b"\x00\x00\x00\x04\x01\x00\x02/a"),
        (
            "a length of more than there is",
            b"\x00\x00\x00\x06\x01\x00\x02/a",
        ),
        ("a length of 8,249", b"\x00\x00\x209\x01\x00\x02/a"),
        ("the greatest length", b"\xff\xff\xff\xff\x01\x00\x02/a"),
        ("a path without a slash", b"\x00\x00\x00\x04\x01\x00\x01a"),
        ("no path", b"\x00\x00\x00\x03\x01\x00\x00"),
        (
            "a path with an empty name",
            b"\x00\x00\x00\x05\x01\x00\x02//",
        ),
        (
            "a path with a slash at its end",
            b"\x00\x00\x00\x06\x01\x00\x03/a/",
        ),
        ("a path with a dot", b"\x00\x00\x00\x05\x01\x00\x02/."),
        ("a path with two dots", b"\x00\x00\x00\x08\x01\x00\x05/a/.."),
        (
            "a path of a kept name",
            b"\x00\x00\x00\x0b\x01\x00\x08/.tierfs",
        ),
        (
            "a path with a zero byte",
            b"\x00\x00\x00\x05\x01\x00\x02/\x00",
        ),
        (
            "a path that is no text",
            b"\x00\x00\x00\x05\x01\x00\x02/\xff",
        ),
        ("a path past its body", b"\x00\x00\x00\x05\x01\x00\x03/a"),
        ("a path of 65,535 bytes", b"\x00\x00\x00\x05\x01\xff\xff/a"),
    ] {
        assert!(rt; decode(rt.alloc(), bytes)?.is_none(), "at {name}");
    }
    Ok(())
}

#[test]
fn bad_numbers_and_flags_are_no_entry(rt: HostRuntime) -> Result<(), Fail> {
    for (name, bytes) in [
        (
            "a file 0",
            b"\x00\x00\x00\x09\x07\x00\x00\x00\x00\x00\x00\x00\x00".as_slice(),
        ),
        (
            "a file 2^63",
            b"\x00\x00\x00\x09\x07\x80\x00\x00\x00\x00\x00\x00\x00",
        ),
        (
            "a plan 2^63",
            b"\x00\x00\x00\x09\x08\x80\x00\x00\x00\x00\x00\x00\x00",
        ),
        (
            "a file that is kept without a plan",
            b"\x00\x00\x00\x1a\x03\x00\x00\x00\x00\x00\x00\x00\x07\x00\x00\x00\x00\x00\x00\x00\x00\x02\x00\x00\x00\x00\x00\x00\x00\x00",
        ),
        (
            "a file that isn't kept with a plan",
            b"\x00\x00\x00\x1a\x03\x00\x00\x00\x00\x00\x00\x00\x07\x00\x00\x00\x00\x00\x00\x00\x00\x00\x00\x00\x00\x00\x00\x00\x00\x01",
        ),
        (
            "a file that is wanted with a plan",
            b"\x00\x00\x00\x1a\x03\x00\x00\x00\x00\x00\x00\x00\x07\x00\x00\x00\x00\x00\x00\x00\x00\x01\x00\x00\x00\x00\x00\x00\x00\x01",
        ),
        (
            "how a file stands is 3",
            b"\x00\x00\x00\x1a\x03\x00\x00\x00\x00\x00\x00\x00\x07\x00\x00\x00\x00\x00\x00\x00\x00\x03\x00\x00\x00\x00\x00\x00\x00\x00",
        ),
        ("a flag of 2", b"\x00\x00\x00\x06\x06\x00\x02/a\x02"),
        ("a flag of 255", b"\x00\x00\x00\x06\x06\x00\x02/a\xff"),
        ("no flag", b"\x00\x00\x00\x05\x06\x00\x02/a"),
        (
            "a file persisted without a plan",
            b"\x00\x00\x00\x11\x09\x00\x00\x00\x00\x00\x00\x00\x07\x00\x00\x00\x00\x00\x00\x00\x00",
        ),
        (
            "a key with a slash in front",
            b"\x00\x00\x00\x15\x0a\x00\x02/m\x00\x00\x00\x02\x00\x02/k\x00\x00\x00\x00\x00\x00\x00\x00",
        ),
        (
            "a key with an empty name",
            b"\x00\x00\x00\x17\x0a\x00\x02/m\x00\x00\x00\x02\x00\x04k//l\x00\x00\x00\x00\x00\x00\x00\x00",
        ),
        (
            "a key with a reserved name inside",
            b"\x00\x00\x00\x1c\x0a\x00\x02/m\x00\x00\x00\x02\x00\x09k/.tierfs\x00\x00\x00\x00\x00\x00\x00\x00",
        ),
        ("worker 0", b"\x00\x00\x00\x05\x0c\x00\x00\x00\x00"),
        ("worker 65", b"\x00\x00\x00\x05\x0c\x00\x00\x00A"),
        ("no worker lost", b"\x00\x00\x00\x03\x0d\x00\x00"),
        (
            "65 workers lost",
            b"\x00\x00\x00\x07\x0d\x00A\x00\x00\x00\x01",
        ),
        (
            "more workers than there are",
            b"\x00\x00\x00\x07\x0d\x00\x02\x00\x00\x00\x01",
        ),
        (
            "workers that fall",
            b"\x00\x00\x00\x0b\x0d\x00\x02\x00\x00\x00\x02\x00\x00\x00\x01",
        ),
        (
            "a worker twice",
            b"\x00\x00\x00\x0b\x0d\x00\x02\x00\x00\x00\x02\x00\x00\x00\x02",
        ),
        (
            "worker 0 lost",
            b"\x00\x00\x00\x07\x0d\x00\x01\x00\x00\x00\x00",
        ),
        (
            "worker 65 lost",
            b"\x00\x00\x00\x07\x0d\x00\x01\x00\x00\x00A",
        ),
        (
            "a next file of 0",
            b"\x00\x00\x00\x11\x0f\x00\x00\x00\x00\x00\x00\x00\x00\x00\x00\x00\x00\x00\x00\x00\x01",
        ),
        (
            "a next plan of 2^63 + 1",
            b"\x00\x00\x00\x11\x0f\x00\x00\x00\x00\x00\x00\x00\x01\x80\x00\x00\x00\x00\x00\x00\x01",
        ),
    ] {
        assert!(rt; decode(rt.alloc(), bytes)?.is_none(), "at {name}");
    }
    Ok(())
}

#[test]
fn bad_rows_of_a_checkpoint_are_no_entry(rt: HostRuntime) -> Result<(), Fail> {
    for (name, bytes) in [
        (
            "a node that is 2",
            b"\x00\x00\x00\x19\x10\x00\x02/a\x02\x00\x00\x00\x00\x00\x00\x00\x00\x00\x00\x00\x00\x00\x00\x00\x00\x01\x00\x00".as_slice(),
        ),
        (
            "a directory with an id",
            b"\x00\x00\x00\x19\x10\x00\x02/a\x00\x00\x00\x00\x00\x00\x00\x00\x01\x00\x00\x00\x00\x00\x00\x00\x00\x01\x00\x00",
        ),
        (
            "a directory with bytes",
            b"\x00\x00\x00\x19\x10\x00\x02/a\x00\x00\x00\x00\x00\x00\x00\x00\x00\x00\x00\x00\x00\x00\x00\x00\x01\x01\x00\x00",
        ),
        (
            "a directory that isn't done",
            b"\x00\x00\x00\x19\x10\x00\x02/a\x00\x00\x00\x00\x00\x00\x00\x00\x00\x00\x00\x00\x00\x00\x00\x00\x00\x00\x00\x00",
        ),
        (
            "a directory that is wanted",
            b"\x00\x00\x00\x19\x10\x00\x02/a\x00\x00\x00\x00\x00\x00\x00\x00\x00\x00\x00\x00\x00\x00\x00\x00\x00\x01\x01\x00",
        ),
        (
            "a directory that is pinned",
            b"\x00\x00\x00\x19\x10\x00\x02/a\x00\x00\x00\x00\x00\x00\x00\x00\x00\x00\x00\x00\x00\x00\x00\x00\x00\x01\x00\x01",
        ),
        (
            "a node that is file 0",
            b"\x00\x00\x00\x19\x10\x00\x02/f\x01\x00\x00\x00\x00\x00\x00\x00\x00\x00\x00\x00\x00\x00\x00\x00\x00\x01\x00\x00",
        ),
        (
            "a file with bytes that isn't done",
            b"\x00\x00\x00\x19\x10\x00\x02/f\x01\x00\x00\x00\x00\x00\x00\x00\x07\x00\x00\x00\x00\x00\x00\x00\x01\x00\x00\x00",
        ),
        (
            "a file that is wanted and isn't done",
            b"\x00\x00\x00\x19\x10\x00\x02/f\x01\x00\x00\x00\x00\x00\x00\x00\x07\x00\x00\x00\x00\x00\x00\x00\x00\x00\x01\x00",
        ),
        (
            "a done flag of 2",
            b"\x00\x00\x00\x19\x10\x00\x02/f\x01\x00\x00\x00\x00\x00\x00\x00\x07\x00\x00\x00\x00\x00\x00\x00\x00\x02\x00\x00",
        ),
        (
            "a pinned flag of 2",
            b"\x00\x00\x00\x19\x10\x00\x02/f\x01\x00\x00\x00\x00\x00\x00\x00\x07\x00\x00\x00\x00\x00\x00\x00\x00\x01\x00\x02",
        ),
        (
            "a pending plan 0",
            b"\x00\x00\x00\x12\x11\x00\x00\x00\x00\x00\x00\x00\x00\x01\x00\x02/a\x00\x02/b",
        ),
        (
            "a pending plan of kind 0",
            b"\x00\x00\x00\x11\x11\x00\x00\x00\x00\x00\x00\x00\x03\x00\x00\x02/a\x00\x01/",
        ),
        (
            "a pending plan of kind 5",
            b"\x00\x00\x00\x11\x11\x00\x00\x00\x00\x00\x00\x00\x03\x05\x00\x02/a\x00\x01/",
        ),
        (
            "a removal with a second path",
            b"\x00\x00\x00\x12\x11\x00\x00\x00\x00\x00\x00\x00\x03\x02\x00\x02/a\x00\x02/b",
        ),
        (
            "a publication with a second path",
            b"\x00\x00\x00\x12\x11\x00\x00\x00\x00\x00\x00\x00\x03\x03\x00\x02/a\x00\x02/b",
        ),
        (
            "a load with a second path",
            b"\x00\x00\x00\x12\x11\x00\x00\x00\x00\x00\x00\x00\x03\x04\x00\x02/a\x00\x02/b",
        ),
        (
            "a leaf of plan 0",
            b"\x00\x00\x00\x0d\x12\x00\x00\x00\x00\x00\x00\x00\x00\x00\x02/a",
        ),
    ] {
        assert!(rt; decode(rt.alloc(), bytes)?.is_none(), "at {name}");
    }
    Ok(())
}

/// Names of 255 bytes, so many, each behind a slash.
fn push_long_names(out: &mut Vec<u8>, count: u32) -> Result<(), AllocError> {
    for _ in 0..count {
        out.push(b'/')?;
        for _ in 0..255 {
            out.push(b'n')?;
        }
    }
    Ok(())
}

/// The text of a mount whose path has 4,096 bytes and whose key has 4,096 and so many more.
fn long_mount(alloc: Global, more: u8) -> Result<Vec<u8>, AllocError> {
    let mut key = Vec::new(alloc);
    push_long_names(&mut key, 16)?;
    key.push(b'/')?;
    for _ in 0..more {
        key.push(b'k')?;
    }
    let mut text = Vec::new(alloc);
    let key_len = 4096u32 + u32::from(more);
    text.extend_from_slice(&(17 + 4096 + key_len).to_be_bytes())?;
    text.push(10)?;
    text.extend_from_slice(&4096u16.to_be_bytes())?;
    push_long_names(&mut text, 16)?;
    text.extend_from_slice(&2u32.to_be_bytes())?;
    text.extend_from_slice(&(key_len as u16).to_be_bytes())?;
    text.extend_from_slice(key.get(1..).unwrap_or(b"".as_slice()))?;
    text.extend_from_slice(&0u64.to_be_bytes())?;
    Ok(text)
}

/// Checks that what was read is written as its text.
fn is_written(
    rt: &impl Abort,
    alloc: Global,
    found: Option<(Entry, usize)>,
    text: &[u8],
) -> Result<bool, Fail> {
    match found {
        Some((entry, _)) => Ok(text_of(rt, alloc, &entry)?.as_slice() == text),
        None => Ok(false),
    }
}

#[test]
fn a_body_has_at_most_8248_bytes(rt: HostRuntime) -> Result<(), Fail> {
    let alloc = rt.alloc();
    let longest = long_mount(alloc, 39)?;
    assert_eq!(rt; longest.len(), 8252);
    assert!(rt; is_written(&rt, alloc, decode(alloc, &longest)?, &longest)?);
    let longer = long_mount(alloc, 40)?;
    assert_eq!(rt; longer.len(), 8253);
    assert!(rt; decode(alloc, &longer)?.is_none());
    Ok(())
}

#[test]
fn what_does_not_fit_is_known(rt: HostRuntime) -> Result<(), Fail> {
    assert!(rt; !Entry::Want { id: FileId(0) }.fits());
    assert!(rt;
        !Entry::Seen {
            worker: WorkerNo(65)
        }
        .fits()
    );
    let short = key(rt.alloc(), "k")?;
    let mount = Entry::Mount {
        path: Path::root(rt.alloc()),
        store: StoreNo(1),
        key: short,
        plan: PlanNo(1 << 63),
    };
    assert!(rt; !mount.fits());
    Ok(())
}

#[test]
fn entries_are_a_list(rt: HostRuntime) -> Result<(), Fail> {
    let mut entries = Vec::new(rt.alloc());
    entries.push(Entry::Want { id: FileId(7) })?;
    entries.push(Entry::PlanEnd { plan: PlanNo(3) })?;
    let list = Entries::from_vec(entries);
    assert_eq!(rt; list.as_slice().len(), 2);
    let back = list.into_vec();
    assert!(rt; back.first() == Some(&Entry::Want { id: FileId(7) }));
    Ok(())
}
