//! Reading the words of an event: the first one, and what stands behind it. `None` is no event, or one that isn't
//! built yet; an `Err` is want of memory.

ghost use Rattle.std.specs.Prelude.{◌≡◌, IfOk};
ghost use Rattle.fs_model.specs.PathText.{slices};
ghost use Rattle.script_text.specs.EventText.{only_path, only_label, mkdir_of, create_of, list_of, stat_of, room_of, put_of, finish_of, open_of, next_of, poll_of, close_of, checkpoint_of, fuse_of, event_of};

use crate::argument::{fill_of, label_of, number_of, path_of, read_type_of, write_type_of};
use fs_model::event::Event;
use fs_model::label::Label;
use fs_model::numbers::WorkerNo;
use fs_model::path::Path;
use std::alloc::{AllocError, Global};

/// The greatest number of calls that a fuse may let pass.
const MOST_CALLS: u64 = (1 << 63) - 1;

/// The path that the only word stands for.
#[tactic(auto, unfolding(crate::specs::EventText::only_path))]
fn only_path(alloc: Global, words: &[&[u8]]) -> Result<Option<Path>, AllocError>
    ensures { IfOk result (λ found. found ≡ only_path (slices words.now)) }
{
    match words {
        [word] => path_of(alloc, word),
        _ => Ok(None),
    }
}

/// The label that the only word is.
#[tactic(auto, unfolding(crate::specs::EventText::only_label))]
fn only_label(alloc: Global, words: &[&[u8]]) -> Result<Option<Label>, AllocError>
    ensures { IfOk result (λ found. found ≡ only_label (slices words.now)) }
{
    match words {
        [word] => label_of(alloc, word),
        _ => Ok(None),
    }
}

/// `mkdir P`.
#[tactic(auto, unfolding(crate::specs::EventText::mkdir_of))]
fn mkdir_of(alloc: Global, words: &[&[u8]]) -> Result<Option<Event>, AllocError>
    ensures { IfOk result (λ found. found ≡ mkdir_of (slices words.now)) }
{
    Ok(only_path(alloc, words)?.map(|path| Event::Mkdir { path }))
}

/// `create L P T W`.
#[tactic(auto, unfolding(crate::specs::EventText::create_of))]
fn create_of(alloc: Global, words: &[&[u8]]) -> Result<Option<Event>, AllocError>
    ensures { IfOk result (λ found. found ≡ create_of (slices words.now)) }
{
    let [label, path, kind, worker] = words else {
        return Ok(None);
    };
    let Some(label) = label_of(alloc, label)? else {
        return Ok(None);
    };
    let Some(path) = path_of(alloc, path)? else {
        return Ok(None);
    };
    let Some(kind) = write_type_of(kind) else {
        return Ok(None);
    };
    let Some(worker) = number_of(worker, 1, 1000) else {
        return Ok(None);
    };
    Ok(Some(Event::Create {
        label,
        path,
        kind,
        worker: WorkerNo(worker as u32),
    }))
}

/// `ls P`.
#[tactic(auto, unfolding(crate::specs::EventText::list_of))]
fn list_of(alloc: Global, words: &[&[u8]]) -> Result<Option<Event>, AllocError>
    ensures { IfOk result (λ found. found ≡ list_of (slices words.now)) }
{
    Ok(only_path(alloc, words)?.map(|path| Event::List { path }))
}

/// `stat P`.
#[tactic(auto, unfolding(crate::specs::EventText::stat_of))]
fn stat_of(alloc: Global, words: &[&[u8]]) -> Result<Option<Event>, AllocError>
    ensures { IfOk result (λ found. found ≡ stat_of (slices words.now)) }
{
    Ok(only_path(alloc, words)?.map(|path| Event::Stat { path }))
}

/// `room L`.
#[tactic(auto, unfolding(crate::specs::EventText::room_of))]
fn room_of(alloc: Global, words: &[&[u8]]) -> Result<Option<Event>, AllocError>
    ensures { IfOk result (λ found. found ≡ room_of (slices words.now)) }
{
    Ok(only_label(alloc, words)?.map(|label| Event::Room { label }))
}

/// `put L F`.
#[tactic(auto, unfolding(crate::specs::EventText::put_of))]
fn put_of(alloc: Global, words: &[&[u8]]) -> Result<Option<Event>, AllocError>
    ensures { IfOk result (λ found. found ≡ put_of (slices words.now)) }
{
    let [label, fill] = words else {
        return Ok(None);
    };
    let Some(label) = label_of(alloc, label)? else {
        return Ok(None);
    };
    let Some(fill) = fill_of(alloc, fill)? else {
        return Ok(None);
    };
    Ok(Some(Event::Put { label, fill }))
}

/// `done L`.
#[tactic(auto, unfolding(crate::specs::EventText::finish_of))]
fn finish_of(alloc: Global, words: &[&[u8]]) -> Result<Option<Event>, AllocError>
    ensures { IfOk result (λ found. found ≡ finish_of (slices words.now)) }
{
    Ok(only_label(alloc, words)?.map(|label| Event::Finish { label }))
}

/// `open L P R W`.
#[tactic(auto, unfolding(crate::specs::EventText::open_of))]
fn open_of(alloc: Global, words: &[&[u8]]) -> Result<Option<Event>, AllocError>
    ensures { IfOk result (λ found. found ≡ open_of (slices words.now)) }
{
    let [label, path, kind, worker] = words else {
        return Ok(None);
    };
    let Some(label) = label_of(alloc, label)? else {
        return Ok(None);
    };
    let Some(path) = path_of(alloc, path)? else {
        return Ok(None);
    };
    let Some(kind) = read_type_of(kind) else {
        return Ok(None);
    };
    let Some(worker) = number_of(worker, 0, 1000) else {
        return Ok(None);
    };
    Ok(Some(Event::OpenFile {
        label,
        path,
        kind,
        worker: WorkerNo(worker as u32),
    }))
}

/// `next L`.
#[tactic(auto, unfolding(crate::specs::EventText::next_of))]
fn next_of(alloc: Global, words: &[&[u8]]) -> Result<Option<Event>, AllocError>
    ensures { IfOk result (λ found. found ≡ next_of (slices words.now)) }
{
    Ok(only_label(alloc, words)?.map(|label| Event::Next { label }))
}

/// `poll L N`.
#[tactic(auto, unfolding(crate::specs::EventText::poll_of))]
fn poll_of(alloc: Global, words: &[&[u8]]) -> Result<Option<Event>, AllocError>
    ensures { IfOk result (λ found. found ≡ poll_of (slices words.now)) }
{
    let [label, max] = words else {
        return Ok(None);
    };
    let Some(label) = label_of(alloc, label)? else {
        return Ok(None);
    };
    let Some(max) = number_of(max, 1, 65_536) else {
        return Ok(None);
    };
    Ok(Some(Event::Poll {
        label,
        max: max as u32,
    }))
}

/// `close L`.
#[tactic(auto, unfolding(crate::specs::EventText::close_of))]
fn close_of(alloc: Global, words: &[&[u8]]) -> Result<Option<Event>, AllocError>
    ensures { IfOk result (λ found. found ≡ close_of (slices words.now)) }
{
    Ok(only_label(alloc, words)?.map(|label| Event::Close { label }))
}

/// `checkpoint`.
#[tactic(auto, unfolding(crate::specs::EventText::checkpoint_of))]
fn checkpoint_of(words: &[&[u8]]) -> Option<Event>
    ensures { result ≡ checkpoint_of (slices words.now) }
{
    match words {
        [] => Some(Event::Checkpoint),
        _ => None,
    }
}

/// `fuse K`.
#[tactic(auto, unfolding(crate::specs::EventText::fuse_of))]
fn fuse_of(words: &[&[u8]]) -> Option<Event>
    ensures { result ≡ fuse_of (slices words.now) }
{
    let [calls] = words else {
        return None;
    };
    let calls = number_of(calls, 0, MOST_CALLS)?;
    Some(Event::Fuse { calls })
}

/// The event of these words.
#[tactic(auto, unfolding(crate::specs::EventText::event_of))]
pub fn event_of(alloc: Global, words: &[&[u8]]) -> Result<Option<Event>, AllocError>
    ensures { IfOk result (λ found. found ≡ event_of (slices words.now)) }
{
    let [verb, words @ ..] = words else {
        return Ok(None);
    };
    if *verb == b"mkdir".as_slice() {
        return mkdir_of(alloc, words);
    }
    if *verb == b"create".as_slice() {
        return create_of(alloc, words);
    }
    if *verb == b"ls".as_slice() {
        return list_of(alloc, words);
    }
    if *verb == b"stat".as_slice() {
        return stat_of(alloc, words);
    }
    if *verb == b"room".as_slice() {
        return room_of(alloc, words);
    }
    if *verb == b"put".as_slice() {
        return put_of(alloc, words);
    }
    if *verb == b"done".as_slice() {
        return finish_of(alloc, words);
    }
    if *verb == b"open".as_slice() {
        return open_of(alloc, words);
    }
    if *verb == b"next".as_slice() {
        return next_of(alloc, words);
    }
    if *verb == b"poll".as_slice() {
        return poll_of(alloc, words);
    }
    if *verb == b"close".as_slice() {
        return close_of(alloc, words);
    }
    if *verb == b"checkpoint".as_slice() {
        return Ok(checkpoint_of(words));
    }
    if *verb == b"fuse".as_slice() {
        return Ok(fuse_of(words));
    }
    Ok(None)
}
