//! A file's writer in blocks of four bytes, over writers of which one put may fail.

ghost use Rattle.std.specs.Prelude.{◌≡◌, ◌≤◌, [], Some, false, IfSome, IfOk, OnOk, length};

use crate::writer::{FileWriter, PutStep};
use fs_model::numbers::{StoreNo, WorkerNo};
use outside::objects::ObjectWrite;
use outside::stream::Fault;
use std::alloc::{AllocError, Global};
use std::test::Fail as Failure;

/// A writer that keeps what it took. It takes memory as it goes, and the put of one number, from 1,
/// fails.
#[derive(Drop)]
struct Page {
    bytes: Vec<u8>,
    room: u64,
    puts: u64,
    failing: u64,
    faults: u64,
}

impl Page {
    /// An empty writer whose put of this number fails; none, where it is 0.
    fn failing(alloc: Global, failing: u64) -> Page
        ensures bytes { result.bytes.items ≡ [] }
        ensures room { result.room ≡ 4 }
    {
        Page {
            bytes: Vec::new(alloc),
            room: 4,
            puts: 0,
            failing,
            faults: 0,
        }
    }
}

impl ObjectWrite for Page {
    ghost taken = { λ page. Some page.bytes.items };

    ghost written = { λ page. length page.bytes.items };

    ghost spare = { λ page. page.room };

    ghost faults = { λ page. page.faults };

    ghost steady = { λ _. false };

    fn reserve(&mut self, count: u64) -> Result<(), AllocError> {
        self.room = self.room.max(count);
        Ok(())
    }

    fn put(&mut self, piece: &[u8]) -> Result<(), Fault> {
        self.puts = self.puts.saturating_add(1);
        if self.puts == self.failing || self.bytes.extend_from_slice(piece).is_err() {
            self.faults = self.faults.saturating_add(1);
            return Err(Fault);
        }
        self.room -= piece.len() as u64;
        Ok(())
    }

    fn len(&self) -> u64 {
        self.bytes.len() as u64
    }
}

/// A put, after which the blocks have four bytes still.
fn put(file: &mut FileWriter<Page>, piece: &[u8]) -> PutStep
    requires { file.old.bs ≡ 4 }
    ensures { file.new.bs ≡ 4 }
{
    file.put(piece)
}

/// Takes the writer of the open block out where that is full, and opens a block with this one.
fn next_block(file: &mut FileWriter<Page>, page: Option<Page>) -> Result<Option<Page>, Failure>
    requires size { file.old.bs ≡ 4 }
    requires empty { IfSome page (λ p. length p.bytes.items ≡ 0) }
    requires room { IfSome page (λ p. 4 ≤ p.room) }
    ensures { OnOk result (file.new.bs ≡ 4) }
{
    if !file.needs_room() {
        return Err(Failure::new("no block is wanted"));
    }
    let full = file.take_block();
    file.reserve_object(4)?;
    file.supply(page);
    Ok(full)
}

/// Whether there is a writer that took just these bytes.
fn has(page: &Option<Page>, bytes: &[u8]) -> bool {
    match page {
        None => false,
        Some(page) => page.bytes.as_slice() == bytes && page.len() == bytes.len() as u64,
    }
}

/// Whether a put answers this, and the open block is so long after it.
fn answers(file: &mut FileWriter<Page>, piece: &[u8], step: PutStep, open_len: Option<u64>) -> bool
    requires { file.old.bs ≡ 4 }
    ensures { file.new.bs ≡ 4 }
{
    let answered = put(file, piece);
    answered == step && file.open_len() == open_len
}

#[test]
fn a_block_takes_what_it_lacks(rt: HostRuntime) -> Result<(), Failure> {
    let mut file = FileWriter::new(4, Some(WorkerNo(2)), None);
    assert!(rt; answers(&mut file, b"abc", PutStep::NeedsRoom, None));
    next_block(&mut file, Some(Page::failing(rt.alloc(), 0)))?;
    assert!(rt; answers(&mut file, b"abc", PutStep::Taken(3), Some(3)));
    assert!(rt; answers(&mut file, b"", PutStep::Taken(0), Some(3)));
    assert!(rt; answers(&mut file, b"defgh", PutStep::Taken(1), Some(4)));
    assert!(rt; answers(&mut file, b"efgh", PutStep::NeedsRoom, Some(4)));
    assert!(rt; answers(&mut file, b"", PutStep::NeedsRoom, Some(4)));
    assert!(rt; has(&file.take_block(), b"abcd"));
    Ok(())
}

#[test]
fn the_last_block_is_as_long_as_its_bytes(rt: HostRuntime) -> Result<(), Failure> {
    let mut file = FileWriter::new(4, Some(WorkerNo(2)), None);
    next_block(&mut file, Some(Page::failing(rt.alloc(), 0)))?;
    assert!(rt; answers(&mut file, b"abcd", PutStep::Taken(4), Some(4)));
    let full = next_block(&mut file, Some(Page::failing(rt.alloc(), 0)))?;
    assert!(rt; has(&full, b"abcd"));
    assert!(rt; answers(&mut file, b"ef", PutStep::Taken(2), Some(2)));
    assert_eq!(rt; file.len(), 6);
    assert!(rt; has(&file.take_block(), b"ef"));
    assert!(rt; file.take_block().is_none());
    assert!(rt; file.take_object().is_none());
    Ok(())
}

/// A file's writer for worker 2 with an object in store 3, with an open block over the first writer.
fn with_object(block: Option<Page>, object: Page) -> Result<FileWriter<Page>, Failure>
    requires empty { IfSome block (λ p. length p.bytes.items ≡ 0) }
    requires room { IfSome block (λ p. 4 ≤ p.room) }
    requires object { object.bytes.items ≡ [] }
    ensures { IfOk result (λ file. file.bs ≡ 4) }
{
    let mut file = FileWriter::new(4, Some(WorkerNo(2)), Some((StoreNo(3), object)));
    next_block(&mut file, block)?;
    Ok(file)
}

#[test]
fn an_object_gets_all_bytes(rt: HostRuntime) -> Result<(), Failure> {
    let page = Page::failing(rt.alloc(), 0);
    let mut file = with_object(Some(page), Page::failing(rt.alloc(), 0))?;
    assert_eq!(rt; put(&mut file, b"abcdef"), PutStep::Taken(4));
    assert!(rt; has(&next_block(&mut file, None)?, b"abcd"));
    assert_eq!(rt; put(&mut file, b"ef"), PutStep::Taken(2));
    assert!(rt; file.take_block().is_none());
    assert!(rt; has(&file.take_object(), b"abcdef"));
    assert!(rt; file.take_object().is_none());
    assert_eq!(rt; file.len(), 6);
    Ok(())
}

/// What the second put answers where the put of these numbers fails, of the block's writer and of
/// the object's; `None` where the lengths changed with it or a writer is gone.
fn second_put(alloc: Global, block: u64, object: u64) -> Result<Option<PutStep>, Failure> {
    let page = Page::failing(alloc, block);
    let mut file = with_object(Some(page), Page::failing(alloc, object))?;
    put(&mut file, b"ab");
    let step = file.put(b"c");
    if file.len() != 2 || file.open_len() != Some(2) {
        return Ok(None);
    }
    if file.take_block().is_none() || file.take_object().is_none() {
        return Ok(None);
    }
    Ok(Some(step))
}

#[test]
fn a_fault_names_its_writer_and_the_lengths_stand(rt: HostRuntime) -> Result<(), Failure> {
    for (block, object, step) in [
        (2, 0, PutStep::TierFault(WorkerNo(2))),
        (0, 2, PutStep::UnderFault(StoreNo(3))),
        (2, 2, PutStep::TierFault(WorkerNo(2))),
    ] {
        assert_eq!(rt; second_put(rt.alloc(), block, object)?, Some(step));
    }
    Ok(())
}
