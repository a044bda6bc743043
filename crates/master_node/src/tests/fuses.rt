//! Fuses before a change or a checkpoint, and the areas opened anew.

use super::{change, checkpoint, opened, setup};
use crate::master::Master;
use fs_model::path::Path;
use journal_disk::AppendFault;
use journal_entry::entry::Entry;
use outside_mem::MemDisk;
use std::alloc::Global;
use std::process::Abort;
use std::test::Fail;

/// Opens the areas of a master anew.
fn restart(rt: &impl Abort, alloc: Global, master: &mut Master<MemDisk>) {
    let setup = setup(alloc);
    assert!(rt; master.limit() == setup.area);
    assert!(rt; master.restart(alloc, &setup).is_ok());
    assert!(rt; !master.is_stopped());
}

/// The path of the change of this number.
fn place(alloc: Global, number: u8) -> Result<Path, Fail> {
    Ok(Path::read(alloc, &[b'/', b'a'.saturating_add(number)])?)
}

/// The entry of a new directory or file at a path.
fn entry_at(
    rt: &impl Abort,
    master: &Master<MemDisk>,
    path: &Path,
    directory: bool,
) -> Result<Entry, Fail> {
    assert!(rt; master.names().place_refusal(path).is_none());
    if directory {
        return Ok(master.names().mkdir(path)?);
    }
    assert!(rt; !master.names().is_numbered_out());
    Ok(master.names().create(path)?)
}

/// Makes a change with a fuse of so many calls, opens the areas anew, and checks that the change is there exactly where
/// the third call of the append passed; where it isn't, it is made then.
fn change_fused(
    rt: &impl Abort,
    alloc: Global,
    master: &mut Master<MemDisk>,
    calls: u64,
    number: u8,
) -> Result<(), Fail> {
    let path = place(alloc, number)?;
    let entry = entry_at(rt, master, &path, number % 2 == 0)?;
    master.set_fuse(Some(calls));
    let done = change(rt, master, &entry);
    assert_eq!(rt;
        done,
        if calls < 4 {
            Err(AppendFault::Failed)
        } else {
            Ok(())
        }
    );
    restart(rt, alloc, master);
    assert_eq!(rt; master.names().contains(&path), calls >= 3);
    if calls < 3 {
        assert_eq!(rt; change(rt, master, &entry), Ok(()));
    }
    Ok(())
}

/// Makes twenty changes, each with a fuse of so many calls.
fn changes_fused(rt: &impl Abort, alloc: Global, calls: u64) -> Result<(), Fail> {
    let mut master = opened(alloc, b"", b"")?;
    for number in 0..20 {
        change_fused(rt, alloc, &mut master, calls, number)?;
    }
    assert_eq!(rt; master.names().nodes(), 21);
    Ok(())
}

#[test]
fn a_change_is_there_or_not_by_its_fuse(rt: HostRuntime) -> Result<(), Fail> {
    for calls in 0..13 {
        changes_fused(&rt, rt.alloc(), calls)?;
    }
    Ok(())
}

/// Makes a checkpoint with a fuse of so many calls, and opens the areas anew: the names are as before, in the other
/// area exactly where all calls but the last sync passed.
fn checkpoint_fused(rt: &impl Abort, alloc: Global, calls: u64) -> Result<(), Fail> {
    let mut master = opened(alloc, b"", b"")?;
    let path = place(alloc, 0)?;
    let entry = entry_at(rt, &master, &path, true)?;
    assert_eq!(rt; change(rt, &mut master, &entry), Ok(()));
    master.set_fuse(Some(calls));
    let done = checkpoint(rt, alloc, &mut master);
    assert_eq!(rt;
        done,
        if calls < 6 {
            Err(AppendFault::Failed)
        } else {
            Ok(())
        }
    );
    restart(rt, alloc, &mut master);
    assert!(rt; master.names().contains(&path));
    assert_eq!(rt; master.names().nodes(), 2);
    let (_, second) = master.into_areas();
    let bytes = second.into_disk().into_bytes();
    assert_eq!(rt; bytes.first() == Some(&1), calls >= 5);
    Ok(())
}

#[test]
fn a_checkpoint_is_current_or_not_by_its_fuse(rt: HostRuntime) -> Result<(), Fail> {
    for calls in 0..13 {
        checkpoint_fused(&rt, rt.alloc(), calls)?;
    }
    Ok(())
}
