//! The bytes that a journal writes.

use super::{append, bytes_of, checkpoint, mkdir, names, opened};
use crate::fault::AppendFault;
use crate::journal::Journal;
use outside_mem::MemDisk;
use std::alloc::Global;
use std::process::Abort;
use std::test::Fail;

/// Area 0 after the first checkpoint and `mkdir /a`.
pub(super) const FIRST: &[u8; 65] = b"\x01\x00\x00\x00\x00\x00\x00\x00\x01\
\x01\x00\x00\x00\x11\x0f\x00\x00\x00\x00\x00\x00\x00\x01\x00\x00\x00\x00\x00\x00\x00\x01\
\x01\x00\x00\x00\x12\x0a\x00\x01/\x00\x00\x00\x01\x00\x00\x00\x00\x00\x00\x00\x00\x00\x00\
\x01\x00\x00\x00\x05\x01\x00\x02/a\x00";

/// Area 1 after the checkpoint that follows.
pub(super) const SECOND: &[u8; 85] = b"\x01\x00\x00\x00\x00\x00\x00\x00\x02\
\x01\x00\x00\x00\x11\x0f\x00\x00\x00\x00\x00\x00\x00\x01\x00\x00\x00\x00\x00\x00\x00\x01\
\x01\x00\x00\x00\x12\x0a\x00\x01/\x00\x00\x00\x01\x00\x00\x00\x00\x00\x00\x00\x00\x00\x00\
\x01\x00\x00\x00\x19\x10\x00\x02/a\x00\x00\x00\x00\x00\x00\x00\x00\x00\x00\x00\x00\x00\x00\x00\x00\x00\x01\x00\x00\x00";

/// Makes the first checkpoint of a fresh journal, and adds `mkdir /a`.
fn begin(rt: &impl Abort, alloc: Global, journal: &mut Journal<MemDisk>) -> Result<(), Fail> {
    assert_eq!(rt; checkpoint(rt, alloc, journal, names(alloc, None)?), Ok(()));
    assert_eq!(rt; journal.gate(), 54);
    assert_eq!(rt; add(rt, alloc, journal, "/a")?, Ok(()));
    assert_eq!(rt; journal.gate(), 64);
    Ok(())
}

/// Adds the entry of `mkdir`.
fn add(
    rt: &impl Abort,
    alloc: Global,
    journal: &mut Journal<MemDisk>,
    text: &str,
) -> Result<Result<(), AppendFault>, Fail> {
    let entry = mkdir(alloc, text)?;
    Ok(append(rt, journal, &entry))
}

/// Checks the bytes of both areas.
fn has_bytes(rt: &impl Abort, journal: Journal<MemDisk>, first: &[u8], second: &[u8]) {
    let (a, b) = bytes_of(journal);
    assert_eq!(rt; a.as_slice(), first);
    assert_eq!(rt; b.as_slice(), second);
}

#[test]
fn a_fresh_journal_has_the_worked_bytes(rt: HostRuntime) -> Result<(), Fail> {
    let alloc = rt.alloc();
    let recovered = opened(alloc, b"", b"")?;
    assert!(rt; recovered.fresh);
    let mut journal = recovered.journal;
    begin(&rt, alloc, &mut journal)?;
    has_bytes(&rt, journal, FIRST, b"");
    Ok(())
}

#[test]
fn a_checkpoint_has_the_worked_bytes(rt: HostRuntime) -> Result<(), Fail> {
    let alloc = rt.alloc();
    let mut journal = opened(alloc, FIRST, b"")?.journal;
    assert_eq!(rt;
        checkpoint(&rt, alloc, &mut journal, names(alloc, Some("/a"))?),
        Ok(())
    );
    assert_eq!(rt; journal.generation(), 2);
    has_bytes(&rt, journal, FIRST, SECOND);
    Ok(())
}
