//! The master over disks in memory.

mod damaged;
mod fuses;
mod opening;

ghost use Rattle.std.specs.Prelude.{◌≡◌, true};
ghost use Rattle.fs_model.specs.Spelled.{is_setup};

use crate::master::Master;
use fs_model::items::Items;
use fs_model::path::Path;
use fs_model::setup::Setup;
use fs_model::stop::Stop;
use journal_disk::AppendFault;
use journal_entry::entry::Entry;
use outside::fused::Fused;
use outside_mem::MemDisk;
use std::alloc::{AllocError, Global};
use std::process::Abort;
use std::test::Fail;

/// Area 0 after the first checkpoint and `mkdir /a`.
const FIRST: &[u8; 65] = b"\x01\x00\x00\x00\x00\x00\x00\x00\x01\
\x01\x00\x00\x00\x11\x0f\x00\x00\x00\x00\x00\x00\x00\x01\x00\x00\x00\x00\x00\x00\x00\x01\
\x01\x00\x00\x00\x12\x0a\x00\x01/\x00\x00\x00\x01\x00\x00\x00\x00\x00\x00\x00\x00\x00\x00\
\x01\x00\x00\x00\x05\x01\x00\x02/a\x00";

/// Area 1 after the checkpoint that follows.
const SECOND: &[u8; 85] = b"\x01\x00\x00\x00\x00\x00\x00\x00\x02\
\x01\x00\x00\x00\x11\x0f\x00\x00\x00\x00\x00\x00\x00\x01\x00\x00\x00\x00\x00\x00\x00\x01\
\x01\x00\x00\x00\x12\x0a\x00\x01/\x00\x00\x00\x01\x00\x00\x00\x00\x00\x00\x00\x00\x00\x00\
\x01\x00\x00\x00\x19\x10\x00\x02/a\x00\x00\x00\x00\x00\x00\x00\x00\x00\x00\x00\x00\x00\x00\x00\x00\x00\x01\x00\x00\x00";

/// A setup of one store and no worker, with areas of 4,096 bytes.
fn setup(alloc: Global) -> Setup
    ensures { is_setup result ≡ true }
{
    Setup {
        block: 4,
        patience: 3,
        area: 4096,
        root: Items::from_vec(Vec::new(alloc)),
        stores: 1,
        tiers: Items::from_vec(Vec::new(alloc)),
    }
}

/// A disk that holds these bytes.
fn disk(alloc: Global, bytes: &[u8]) -> Result<Fused<MemDisk>, AllocError> {
    Ok(Fused::new(MemDisk::new(Vec::from_slice(alloc, bytes)?)))
}

/// Opens areas with these bytes.
fn open(alloc: Global, a: &[u8], b: &[u8]) -> Result<Result<Master<MemDisk>, Stop>, AllocError> {
    let first = disk(alloc, a)?;
    let second = disk(alloc, b)?;
    match Master::recover(alloc, &setup(alloc), first, second) {
        Ok(master) => Ok(Ok(master)),
        Err(broken) => Ok(Err(broken.why)),
    }
}

/// The master over areas with these bytes, which are those of a journal.
fn opened(alloc: Global, a: &[u8], b: &[u8]) -> Result<Master<MemDisk>, Fail> {
    match open(alloc, a, b)? {
        Ok(master) => Ok(master),
        Err(_) => Err(Fail::from("the areas are not opened")),
    }
}

fn path(alloc: Global, text: &str) -> Result<Path, Fail> {
    Ok(Path::read(alloc, text.as_bytes())?)
}

/// The entry of `mkdir`.
fn mkdir(alloc: Global, text: &str) -> Result<Entry, Fail> {
    Ok(Entry::Mkdir {
        path: path(alloc, text)?,
    })
}

/// Journals an entry, which fits, with a master that is up.
fn change(rt: &impl Abort, master: &mut Master<MemDisk>, entry: &Entry) -> Result<(), AppendFault> {
    assert!(rt; entry.fits());
    assert!(rt; !master.is_stopped());
    master.names_event(entry)
}

/// Makes a checkpoint with a master that is up.
fn checkpoint(
    rt: &impl Abort,
    alloc: Global,
    master: &mut Master<MemDisk>,
) -> Result<(), AppendFault> {
    assert!(rt; !master.is_stopped());
    master.checkpoint(alloc)
}

/// Checks the bytes of both areas.
fn has_bytes(rt: &impl Abort, master: Master<MemDisk>, first: &[u8], second: &[u8]) {
    let (a, b) = master.into_areas();
    let a = a.into_disk().into_bytes();
    let b = b.into_disk().into_bytes();
    assert_eq!(rt; a.as_slice(), first);
    assert_eq!(rt; b.as_slice(), second);
}

/// Checks the names right below `/`.
fn has_names(
    rt: &impl Abort,
    alloc: Global,
    master: &Master<MemDisk>,
    expected: &[&str],
) -> Result<(), Fail> {
    let names = master.names().list(alloc, &Path::root(alloc))?;
    assert_eq!(rt; names.len(), expected.len());
    for (name, text) in names.iter().zip(expected) {
        assert_eq!(rt; name.as_bytes(), text.as_bytes());
    }
    Ok(())
}
