//! What small journals stand for.

ghost use Rattle.std.specs.Prelude.{◌≡◌, true};
ghost use Rattle.fs_model.specs.Spelled.{is_setup};

use crate::names::Names;
use fs_model::items::Items;
use fs_model::numbers::{FileId, PlanNo, StoreNo};
use fs_model::path::Path;
use fs_model::prefix::Prefix;
use fs_model::reply::{Refusal, Stored};
use fs_model::setup::Setup;
use inode_tree::row::{DIRECTORY, Row, Walk};
use journal_entry::entry::{Entries, Entry};
use std::alloc::Global;
use std::process::Abort;
use std::test::Fail;

fn path(alloc: Global, text: &str) -> Result<Path, Fail> {
    Ok(Path::read(alloc, text.as_bytes())?)
}

fn mkdir(alloc: Global, text: &str) -> Result<Entry, Fail> {
    Ok(Entry::Mkdir {
        path: path(alloc, text)?,
    })
}

fn create(alloc: Global, id: u64, text: &str) -> Result<Entry, Fail> {
    Ok(Entry::Create {
        id: FileId(id),
        path: path(alloc, text)?,
    })
}

fn done(id: u64, len: u64, stored: Stored, plan: u64) -> Entry {
    Entry::Done {
        id: FileId(id),
        len,
        stored,
        plan: PlanNo(plan),
    }
}

fn mount(alloc: Global, text: &str, plan: u64) -> Result<Entry, Fail> {
    Ok(Entry::Mount {
        path: path(alloc, text)?,
        store: StoreNo(1),
        key: Prefix::empty(alloc),
        plan: PlanNo(plan),
    })
}

fn node(alloc: Global, text: &str, row: Row) -> Result<Entry, Fail> {
    Ok(Entry::Node {
        path: path(alloc, text)?,
        dir: row.dir,
        id: FileId(row.id),
        len: row.len,
        done: row.done,
        stored: row.stored,
        pinned: row.pinned,
    })
}

/// A file that is done.
fn file(id: u64, stored: Stored) -> Row {
    Row {
        dir: false,
        id,
        len: 3,
        done: true,
        stored,
        pinned: false,
    }
}

/// Takes an entry, and says whether it counts.
fn take(rt: &impl Abort, names: &mut Names, entry: &Entry) -> Result<bool, Fail> {
    let counts = names.counts(entry);
    assert!(rt; entry.fits());
    names.take(entry)?;
    Ok(counts)
}

/// Takes an entry that is let go, and says whether it counts.
fn takes(rt: &impl Abort, names: &mut Names, entry: Entry) -> Result<bool, Fail> {
    take(rt, names, &entry)
}

/// A directory `/a` with a file, whose number is 7, in a store that is mounted at `/`.
fn sample(rt: &impl Abort, alloc: Global) -> Result<Names, Fail> {
    let mut names = Names::new(alloc)?;
    assert!(rt; takes(rt, &mut names, mount(alloc, "/", 0)?)?);
    assert!(rt; takes(rt, &mut names, mkdir(alloc, "/a")?)?);
    assert!(rt; takes(rt, &mut names, create(alloc, 7, "/a/f")?)?);
    assert!(rt; takes(rt, &mut names, done(7, 3, Stored::Wanted, 0))?);
    Ok(names)
}

/// Where a path leads.
fn walk(alloc: Global, names: &Names, text: &str) -> Result<Walk, Fail> {
    Ok(names.walk(&path(alloc, text)?))
}

#[test]
fn directories_count_where_they_fit(rt: HostRuntime) -> Result<(), Fail> {
    let alloc = rt.alloc();
    let mut names = sample(&rt, alloc)?;
    for (text, counts) in [
        ("/a", false),
        ("/", false),
        ("/a/f/g", false),
        ("/b/c", false),
        ("/b", true),
        ("/b/c", true),
    ] {
        assert_eq!(rt;
            takes(&rt, &mut names, mkdir(alloc, text)?)?,
            counts,
            "{text}"
        );
    }
    assert_eq!(rt; names.nodes(), 5);
    assert_eq!(rt; walk(alloc, &names, "/b/c")?, Walk::Found(DIRECTORY));
    assert_eq!(rt; walk(alloc, &names, "/a/f/g")?, Walk::Blocked);
    Ok(())
}

#[test]
fn files_count_where_they_fit(rt: HostRuntime) -> Result<(), Fail> {
    let alloc = rt.alloc();
    let mut names = sample(&rt, alloc)?;
    for (id, text, counts) in [(7, "/b", false), (8, "/a/f", false), (9, "/b", true)] {
        assert_eq!(rt;
            takes(&rt, &mut names, create(alloc, id, text)?)?,
            counts,
            "{text}"
        );
    }
    for (id, stored, plan, counts) in [
        (7, Stored::No, 0, false),
        (10, Stored::No, 0, false),
        (9, Stored::Yes, 1, false),
        (9, Stored::No, 0, true),
        (9, Stored::No, 0, false),
    ] {
        assert_eq!(rt;
            takes(&rt, &mut names, done(id, 3, stored, plan))?,
            counts,
            "{id}"
        );
    }
    assert_eq!(rt;
        walk(alloc, &names, "/b")?,
        Walk::Found(file(9, Stored::No))
    );
    assert_eq!(rt; names.next_numbers().0.0, 10);
    Ok(())
}

#[test]
fn nodes_of_a_checkpoint_count_where_they_fit(rt: HostRuntime) -> Result<(), Fail> {
    let alloc = rt.alloc();
    let mut names = sample(&rt, alloc)?;
    for (text, row, counts) in [
        ("/b", file(7, Stored::No), false),
        ("/b", file(8, Stored::Yes), false),
        ("/b", file(8, Stored::No), true),
        ("/a", DIRECTORY, false),
        ("/c", DIRECTORY, true),
    ] {
        assert_eq!(rt;
            takes(&rt, &mut names, node(alloc, text, row)?)?,
            counts,
            "{text}"
        );
    }
    for (text, plan) in [("/", 0), ("/m", 0), ("/m", 1)] {
        assert!(rt;
            !takes(&rt, &mut names, mount(alloc, text, plan)?)?,
            "{text}"
        );
    }
    assert_eq!(rt;
        walk(alloc, &names, "/b")?,
        Walk::Found(file(8, Stored::No))
    );
    assert_eq!(rt; names.nodes(), 5);
    Ok(())
}

/// Whether the entry at a place is this one, which is let go.
fn is_at(entries: &Entries, at: usize, entry: Entry) -> bool {
    match entries.as_slice().get(at) {
        None => false,
        Some(kept) => *kept == entry,
    }
}

/// Names that were read from the checkpoint of a sample.
fn read_again(rt: &impl Abort, alloc: Global, kept: &Entries, names: &Names) -> Result<(), Fail> {
    assert_eq!(rt; names.nodes(), 3);
    assert_eq!(rt;
        walk(alloc, names, "/a/f")?,
        Walk::Found(file(7, Stored::Wanted))
    );
    assert!(rt; names.mount().is_some());
    let again = names.entries(alloc)?;
    assert!(rt; kept.as_slice() == again.as_slice());
    Ok(())
}

#[test]
fn a_checkpoint_is_read_again(rt: HostRuntime) -> Result<(), Fail> {
    let alloc = rt.alloc();
    let names = sample(&rt, alloc)?;
    let kept = names.entries(alloc)?;
    assert_eq!(rt; kept.as_slice().len(), 4);
    assert!(rt; is_at(&kept, 1, mount(alloc, "/", 0)?));
    assert!(rt; is_at(&kept, 2, node(alloc, "/a", DIRECTORY)?));
    assert!(rt; is_at(&kept, 3, node(alloc, "/a/f", file(7, Stored::Wanted))?));
    let again = Names::read(alloc, kept.as_slice())?;
    read_again(&rt, alloc, &kept, &again)
}

/// Makes an entry ready, lets it go, makes it ready again and applies it.
fn apply(rt: &impl Abort, names: &mut Names, entry: &Entry) -> Result<(), Fail> {
    assert!(rt; entry.fits());
    names.reserve_for(entry)?;
    names.drop_for();
    names.reserve_for(entry)?;
    assert_eq!(rt; names.nodes(), 3);
    names.apply(entry);
    Ok(())
}

/// Applies an entry that is let go.
fn applies(rt: &impl Abort, names: &mut Names, entry: Entry) -> Result<(), Fail> {
    apply(rt, names, &entry)
}

#[test]
fn an_entry_that_is_ready_is_applied(rt: HostRuntime) -> Result<(), Fail> {
    let alloc = rt.alloc();
    let mut names = sample(&rt, alloc)?;
    applies(&rt, &mut names, create(alloc, 8, "/a/g")?)?;
    assert_eq!(rt; names.nodes(), 4);
    assert!(rt; names.contains(&path(alloc, "/a/g")?));
    assert!(rt; names.path_of(alloc, FileId(8))?.is_some());
    assert!(rt; names.file(FileId(9)).is_none());
    assert_eq!(rt; names.list(alloc, &path(alloc, "/a")?)?.len(), 2);
    assert_eq!(rt; names.walk_above(&path(alloc, "/a/g/h")?), Walk::Blocked);
    Ok(())
}

/// A configuration with `/` at the empty key.
fn setup(alloc: Global) -> Setup
    ensures { is_setup result ≡ true }
{
    Setup {
        block: 4,
        patience: 3,
        area: 1024,
        root: Items::from_vec(Vec::new(alloc)),
        stores: 1,
        tiers: Items::from_vec(Vec::new(alloc)),
    }
}

/// Makes a directory where one can be made, and answers why not.
fn make(names: &mut Names, path: &Path) -> Result<Option<Refusal>, Fail> {
    let refusal = names.place_refusal(path);
    if refusal.is_some() {
        return Ok(refusal);
    }
    let entry = names.mkdir(path)?;
    names.take(&entry)?;
    Ok(None)
}

/// Makes a file where one can be made, finishes it, and says whether it could be.
fn make_file(names: &mut Names, path: &Path) -> Result<bool, Fail> {
    if names.place_refusal(path).is_some() || names.is_full() || names.is_numbered_out() {
        return Ok(false);
    }
    let (id, _) = names.next_numbers();
    let entry = names.create(path)?;
    names.take(&entry)?;
    if !names.is_undone(id) {
        return Ok(false);
    }
    names.take(&names.finish(id, 5))?;
    Ok(true)
}

#[test]
fn nodes_are_made_where_they_can_be(rt: HostRuntime) -> Result<(), Fail> {
    let alloc = rt.alloc();
    let mut names = Names::fresh(alloc, &setup(alloc))?;
    assert!(rt; names.mount().is_some());
    for (text, refusal) in [
        ("/", Some(Refusal::Exists)),
        ("/a/b", Some(Refusal::NotFound)),
        ("/a", None),
        ("/a", Some(Refusal::Exists)),
        ("/a/b", None),
    ] {
        assert!(rt; make(&mut names, &path(alloc, text)?)? == refusal, "{text}");
    }
    assert!(rt; make_file(&mut names, &path(alloc, "/a/f")?)?);
    assert!(rt; !make_file(&mut names, &path(alloc, "/a/f")?)?);
    assert!(rt; make(&mut names, &path(alloc, "/a/f/g")?)? == Some(Refusal::NotDirectory));
    assert_eq!(rt; names.nodes(), 4);
    Ok(())
}
