//! The journal over disks in memory.

mod bytes;
mod damaged;
mod plain;

ghost use Rattle.std.specs.Prelude.{◌≡◌};
ghost use Rattle.std.specs.List.{list_all};
ghost use Rattle.journal_entry.specs.EntryText.{fits};

use crate::fault::{AppendFault, RecoverFault};
use crate::journal::Journal;
use crate::recover::Recovered;
use fs_model::numbers::{FileId, PlanNo, StoreNo};
use fs_model::path::Path;
use fs_model::prefix::Prefix;
use fs_model::reply::Stored;
use journal_entry::entry::{Entries, Entry};
use outside::fused::Fused;
use outside_mem::MemDisk;
use std::alloc::{AllocError, Global};
use std::process::Abort;
use std::test::Fail;

/// The most bytes of an area in these tests.
const LIMIT: u64 = 4096;

/// A disk that holds these bytes.
fn disk(alloc: Global, bytes: &[u8]) -> Result<Fused<MemDisk>, AllocError> {
    Ok(Fused::new(MemDisk::new(Vec::from_slice(alloc, bytes)?)))
}

/// Opens areas with these bytes.
fn open(
    alloc: Global,
    a: &[u8],
    b: &[u8],
) -> Result<Result<Recovered<MemDisk>, RecoverFault>, AllocError> {
    let first = disk(alloc, a)?;
    let second = disk(alloc, b)?;
    match Journal::recover(alloc, first, second, LIMIT) {
        Ok(recovered) => Ok(Ok(recovered)),
        Err(broken) => Ok(Err(broken.why)),
    }
}

/// The journal over areas with these bytes, which are those of a journal.
fn opened(alloc: Global, a: &[u8], b: &[u8]) -> Result<Recovered<MemDisk>, Fail> {
    match open(alloc, a, b)? {
        Ok(recovered) => Ok(recovered),
        Err(_) => Err(Fail::from("the areas are no journal")),
    }
}

/// Adds an entry that fits to a journal that has a current area and in which no call failed.
fn append(
    rt: &impl Abort,
    journal: &mut Journal<MemDisk>,
    entry: &Entry,
) -> Result<(), AppendFault> {
    assert!(rt; entry.fits());
    assert!(rt; !journal.has_failed() && !journal.is_fresh());
    journal.append(entry)
}

/// Whether each entry fits.
fn all_fit(entries: &[Entry]) -> bool
    ensures { result ≡ list_all fits entries.now }
{
    entries.iter().all(|e| e.fits())
}

/// Makes a checkpoint of these entries, which fit, in a journal in which no call failed.
fn checkpoint(
    rt: &impl Abort,
    alloc: Global,
    journal: &mut Journal<MemDisk>,
    entries: Vec<Entry>,
) -> Result<(), AppendFault> {
    let list = Entries::from_vec(entries);
    assert!(rt; all_fit(list.as_slice()));
    assert!(rt; !journal.has_failed());
    journal.checkpoint(alloc, &list)
}

/// The bytes of area 0 and area 1.
fn bytes_of(journal: Journal<MemDisk>) -> (Vec<u8>, Vec<u8>) {
    let (a, b) = journal.into_areas();
    (a.into_disk().into_bytes(), b.into_disk().into_bytes())
}

fn path(alloc: Global, text: &str) -> Result<Path, Fail> {
    Ok(Path::read(alloc, text.as_bytes())?)
}

/// The entry of `mkdir`.
fn mkdir(alloc: Global, text: &str) -> Result<Entry, Fail> {
    Ok(Entry::Mkdir {
        path: path(alloc, text)?,
    })
}

/// The entries of a checkpoint of `/` alone, and of a directory in it where one is given.
fn names(alloc: Global, directory: Option<&str>) -> Result<Vec<Entry>, Fail> {
    let mut entries = Vec::new(alloc);
    entries.push(Entry::Next {
        id: FileId(1),
        plan: PlanNo(1),
    })?;
    entries.push(Entry::Mount {
        path: Path::root(alloc),
        store: StoreNo(1),
        key: Prefix::empty(alloc),
        plan: PlanNo(0),
    })?;
    if let Some(text) = directory {
        entries.push(Entry::Node {
            path: path(alloc, text)?,
            dir: true,
            id: FileId(0),
            len: 0,
            done: true,
            stored: Stored::No,
            pinned: false,
        })?;
    }
    Ok(entries)
}
