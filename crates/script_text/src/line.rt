//! The text of a line: what an actor asked for, and the answer.

ghost use Rattle.std.specs.Prelude.{◌≡◌, ◌∷◌, ◌++◌, [], OnOk, OnErr, codes, map};
ghost use Rattle.std.specs.Fmt.{decimal};
ghost use Rattle.script_text.specs.Words.{name_word, path_word, key_word, hex_word, spaced};
ghost use Rattle.script_text.specs.LineText.{write_type_word, read_type_word, fill_word, event_words, which_word, refusal_words, state_word, flags_word, copy_word, reply_words, line_text};

use crate::word::{
    push_hex, push_key, push_label_word, push_name, push_number, push_number_word, push_path_word,
    push_verb_label, push_verb_number, push_verb_path, push_word,
};
use fs_model::event::{Event, Fill, ReadType, WriteType};
use fs_model::name::Name;
use fs_model::numbers::PlanNo;
use fs_model::path::Path;
use fs_model::reply::{CopyRow, FileState, Line, Refusal, Reply, Which};
use std::alloc::{AllocError, Global};

fn write_type_word(kind: WriteType) -> &'static [u8]
    ensures { result.now ≡ write_type_word kind }
{
    match kind {
        WriteType::MustCache => b"MUST_CACHE",
        WriteType::CacheThrough => b"CACHE_THROUGH",
        WriteType::Through => b"THROUGH",
        WriteType::AsyncThrough => b"ASYNC_THROUGH",
    }
}

fn read_type_word(kind: ReadType) -> &'static [u8]
    ensures { result.now ≡ read_type_word kind }
{
    match kind {
        ReadType::Cache => b"CACHE",
        ReadType::CachePromote => b"CACHE_PROMOTE",
        ReadType::NoCache => b"NO_CACHE",
    }
}

fn push_fill_word(alloc: Global, out: &mut Vec<u8>, fill: &Fill) -> Result<(), AllocError>
    ensures { OnOk result (out.new.items ≡ out.old.items ++ spaced (fill_word fill.now ∷ [])) }
{
    match fill {
        Fill::Listed(bytes) => {
            push_word(out, b"x:")?;
            push_hex(out, bytes.as_slice())
        }
        Fill::Made { num, at, len } => {
            push_word(out, b"g:")?;
            push_number(alloc, out, u64::from(*num))?;
            out.push(b':')?;
            push_number(alloc, out, *at)?;
            out.push(b':')?;
            push_number(alloc, out, u64::from(*len))
        }
    }
}

/// The words of an event.
fn push_event(alloc: Global, out: &mut Vec<u8>, event: &Event) -> Result<(), AllocError>
    ensures { OnOk result (out.new.items ≡ out.old.items ++ spaced (event_words event.now)) }
{
    match event {
        Event::Mkdir { path } => push_verb_path(out, b"mkdir", path),
        Event::Create {
            label,
            path,
            kind,
            worker,
        } => {
            push_verb_label(out, b"create", label)?;
            push_path_word(out, path)?;
            push_word(out, write_type_word(*kind))?;
            push_number_word(alloc, out, u64::from(worker.0))
        }
        Event::Rename { path, to } => {
            push_verb_path(out, b"rename", path)?;
            push_path_word(out, to)
        }
        Event::Remove { path, deep } => push_verb_path(
            out,
            if *deep { b"rmr" } else { b"rm" },
            path,
        ),
        Event::Pin { path, on } => push_verb_path(out, if *on { b"pin" } else { b"unpin" }, path),
        Event::Persist { path } => push_verb_path(out, b"persist", path),
        Event::Free { path } => push_verb_path(out, b"free", path),
        Event::Mount { path, store, key } => {
            push_verb_path(out, b"mount", path)?;
            push_number_word(alloc, out, u64::from(store.0))?;
            out.push(b' ')?;
            push_key(out, key)
        }
        Event::Unmount { path } => push_verb_path(out, b"unmount", path),
        Event::List { path } => push_verb_path(out, b"ls", path),
        Event::Stat { path } => push_verb_path(out, b"stat", path),
        Event::Where { path } => push_verb_path(out, b"where", path),
        Event::Plans => push_word(out, b"plans"),
        Event::Wanted => push_word(out, b"wanted"),
        Event::Room { label } => push_verb_label(out, b"room", label),
        Event::Put { label, fill } => {
            push_verb_label(out, b"put", label)?;
            push_fill_word(alloc, out, fill)
        }
        Event::Finish { label } => push_verb_label(out, b"done", label),
        Event::OpenFile {
            label,
            path,
            kind,
            worker,
        } => {
            push_verb_label(out, b"open", label)?;
            push_path_word(out, path)?;
            push_word(out, read_type_word(*kind))?;
            push_number_word(alloc, out, u64::from(worker.0))
        }
        Event::Next { label } => push_verb_label(out, b"next", label),
        Event::Poll { label, max } => {
            push_verb_label(out, b"poll", label)?;
            push_number_word(alloc, out, u64::from(*max))
        }
        Event::Close { label } => push_verb_label(out, b"close", label),
        Event::Job { label, path } => {
            push_verb_label(out, b"job", label)?;
            push_path_word(out, path)
        }
        Event::Shift {
            label,
            worker,
            path,
            block,
            tier,
        } => {
            push_verb_label(out, b"move", label)?;
            push_number_word(alloc, out, u64::from(worker.0))?;
            push_path_word(out, path)?;
            push_number_word(alloc, out, u64::from(block.0))?;
            push_number_word(alloc, out, u64::from(tier.0))
        }
        Event::Copy { label } => push_verb_label(out, b"copy", label),
        Event::Start { worker } => push_verb_number(alloc, out, b"start", u64::from(worker.0)),
        Event::Register { worker } => push_verb_number(
            alloc,
            out,
            b"register",
            u64::from(worker.0),
        ),
        Event::Beat { worker } => push_verb_number(alloc, out, b"beat", u64::from(worker.0)),
        Event::Tick => push_word(out, b"tick"),
        Event::Kill { worker } => push_verb_number(alloc, out, b"kill", u64::from(worker.0)),
        Event::Sweep { worker } => push_verb_number(alloc, out, b"sweep", u64::from(worker.0)),
        Event::Pump { plan } => push_verb_number(alloc, out, b"pump", plan.0),
        Event::Checkpoint => push_word(out, b"checkpoint"),
        Event::Fuse { calls } => push_verb_number(alloc, out, b"fuse", *calls),
        Event::Restart => push_word(out, b"restart"),
    }
}

fn which_word(which: Which) -> &'static [u8]
    ensures { result.now ≡ which_word which }
{
    match which {
        Which::Path => b"Path",
        Which::Nodes => b"Nodes",
        Which::Labels => b"Labels",
        Which::Blocks => b"Blocks",
        Which::Plans => b"Plans",
        Which::Mounts => b"Mounts",
        Which::Tier => b"Tier",
        Which::Store => b"Store",
        Which::Ids => b"Ids",
        Which::Area => b"Area",
    }
}

/// The number, the name and the arguments of a refusal.
fn push_refusal(alloc: Global, out: &mut Vec<u8>, refusal: &Refusal) -> Result<(), AllocError>
    ensures { OnOk result (out.new.items ≡ out.old.items ++ spaced (refusal_words refusal.now)) }
{
    match refusal {
        Refusal::NotFound => push_word(out, b"2 NotFound"),
        Refusal::Exists => push_word(out, b"3 Exists"),
        Refusal::NotDirectory => push_word(out, b"4 NotDirectory"),
        Refusal::IsDirectory => push_word(out, b"5 IsDirectory"),
        Refusal::NotEmpty => push_word(out, b"6 NotEmpty"),
        Refusal::Incomplete => push_word(out, b"7 Incomplete"),
        Refusal::Busy(plan) => push_verb_number(alloc, out, b"8 Busy", plan.0),
        Refusal::IsMount => push_word(out, b"9 IsMount"),
        Refusal::CrossMount => push_word(out, b"10 CrossMount"),
        Refusal::MountOverlap(path) => push_verb_path(out, b"11 MountOverlap", path),
        Refusal::InsideItself => push_word(out, b"12 InsideItself"),
        Refusal::Unavailable(block) => push_verb_number(
            alloc,
            out,
            b"13 Unavailable",
            u64::from(block.0),
        ),
        Refusal::SafeMode(worker) => push_verb_number(
            alloc,
            out,
            b"14 SafeMode",
            u64::from(worker.0),
        ),
        Refusal::NoRoom(worker) => push_verb_number(alloc, out, b"15 NoRoom", u64::from(worker.0)),
        Refusal::NoWorker(worker) => push_verb_number(
            alloc,
            out,
            b"16 NoWorker",
            u64::from(worker.0),
        ),
        Refusal::NotPersisted => push_word(out, b"17 NotPersisted"),
        Refusal::Pinned => push_word(out, b"18 Pinned"),
        Refusal::BadLabel => push_word(out, b"19 BadLabel"),
        Refusal::Held(worker) => push_verb_number(alloc, out, b"20 Held", u64::from(worker.0)),
        Refusal::Stopped => push_word(out, b"21 Stopped"),
        Refusal::Limit(which) => {
            push_word(out, b"22 Limit")?;
            push_word(out, which_word(*which))
        }
        Refusal::UnderFault(store) => push_verb_number(
            alloc,
            out,
            b"23 UnderFault",
            u64::from(store.0),
        ),
        Refusal::TierFault(worker) => push_verb_number(
            alloc,
            out,
            b"24 TierFault",
            u64::from(worker.0),
        ),
        Refusal::JournalFault => push_word(out, b"25 JournalFault"),
        Refusal::Memory => push_word(out, b"26 Memory"),
        Refusal::NotMount => push_word(out, b"27 NotMount"),
        Refusal::Damaged(area, place) => {
            push_verb_number(alloc, out, b"28 Damaged", u64::from(*area))?;
            push_number_word(alloc, out, *place)
        }
    }
}

fn state_word(state: FileState) -> &'static [u8]
    ensures { result.now ≡ state_word state }
{
    match state {
        FileState::Incomplete => b"INCOMPLETE",
        FileState::Persisted => b"PERSISTED",
        FileState::Lost => b"LOST",
        FileState::ToBePersisted => b"TO_BE_PERSISTED",
        FileState::NotPersisted => b"NOT_PERSISTED",
    }
}

/// The letters of the flags that are set, or `-`.
fn flags_word(row: &CopyRow) -> &'static [u8]
    ensures { result.now ≡ flags_word row.now }
{
    match (row.keep, row.pin, row.free) {
        (false, false, false) => b"-",
        (false, false, true) => b"f",
        (false, true, false) => b"p",
        (false, true, true) => b"pf",
        (true, false, false) => b"k",
        (true, false, true) => b"kf",
        (true, true, false) => b"kp",
        (true, true, true) => b"kpf",
    }
}

/// A space and a copy.
fn push_copy_word(alloc: Global, out: &mut Vec<u8>, row: &CopyRow) -> Result<(), AllocError>
    ensures { OnOk result (out.new.items ≡ out.old.items ++ spaced (copy_word row.now ∷ [])) }
{
    push_number_word(alloc, out, u64::from(row.block.0))?;
    out.push(b':')?;
    push_number(alloc, out, u64::from(row.worker.0))?;
    out.push(b':')?;
    push_number(alloc, out, u64::from(row.tier.0))?;
    out.push(b':')?;
    out.extend_from_slice(flags_word(row))
}

/// A space before each copy.
fn push_copies(alloc: Global, out: &mut Vec<u8>, rows: &[CopyRow]) -> Result<(), AllocError>
    ensures { OnOk result (out.new.items ≡ out.old.items ++ spaced (map copy_word rows.now)) }
{
    for row in rows {
        push_copy_word(alloc, out, row)?;
    }
    Ok(())
}

/// A space before each name.
fn push_name_words(out: &mut Vec<u8>, names: &[Name]) -> Result<(), AllocError>
    ensures { OnOk result (out.new.items ≡ out.old.items ++ spaced (map name_word names.now)) }
{
    for name in names {
        out.push(b' ')?;
        push_name(out, name)?;
    }
    Ok(())
}

/// A space before each path.
fn push_path_words(out: &mut Vec<u8>, paths: &[Path]) -> Result<(), AllocError>
    ensures { OnOk result (out.new.items ≡ out.old.items ++ spaced (map path_word paths.now)) }
{
    for path in paths {
        push_path_word(out, path)?;
    }
    Ok(())
}

/// A space before each plan.
fn push_plans(alloc: Global, out: &mut Vec<u8>, plans: &[PlanNo]) -> Result<(), AllocError>
    ensures { OnOk result (out.new.items ≡ out.old.items ++ spaced (map decimal plans.now)) }
{
    for plan in plans {
        push_number_word(alloc, out, plan.0)?;
    }
    Ok(())
}

/// The words of a reply.
fn push_reply(alloc: Global, out: &mut Vec<u8>, reply: &Reply) -> Result<(), AllocError>
    ensures { OnOk result (out.new.items ≡ out.old.items ++ spaced (reply_words reply.now)) }
{
    match reply {
        Reply::Done => push_word(out, b"done"),
        Reply::Begun(plan) => push_verb_number(alloc, out, b"begun", plan.0),
        Reply::Stepped => push_word(out, b"stepped"),
        Reply::Ended => push_word(out, b"ended"),
        Reply::Opened(len) => push_verb_number(alloc, out, b"opened", *len),
        Reply::FromWorker(worker, tier) => {
            push_verb_number(alloc, out, b"from worker", u64::from(worker.0))?;
            push_number_word(alloc, out, u64::from(tier.0))
        }
        Reply::FromStore(store) => push_verb_number(alloc, out, b"from store", u64::from(store.0)),
        Reply::Taken(count) => push_verb_number(alloc, out, b"taken", *count),
        Reply::NeedsRoom => push_word(out, b"needroom"),
        Reply::Given(bytes) => {
            push_word(out, b"piece ")?;
            push_hex(out, bytes.as_slice())
        }
        Reply::Copied(count) => push_verb_number(alloc, out, b"copied", u64::from(*count)),
        Reply::NeedsBlock(block) => push_verb_number(alloc, out, b"needblock", u64::from(block.0)),
        Reply::End => push_word(out, b"end"),
        Reply::NotReady => push_word(out, b"notready"),
        Reply::Idle => push_word(out, b"idle"),
        Reply::Register => push_word(out, b"register"),
        Reply::Names(names) => {
            push_word(out, b"names")?;
            push_name_words(out, names.as_slice())
        }
        Reply::Paths(paths) => {
            push_word(out, b"paths")?;
            push_path_words(out, paths.as_slice())
        }
        Reply::Plans(plans) => {
            push_word(out, b"plans")?;
            push_plans(alloc, out, plans.as_slice())
        }
        Reply::StatDir => push_word(out, b"stat dir"),
        Reply::StatFile {
            id,
            len,
            state,
            pinned,
        } => {
            push_verb_number(alloc, out, b"stat file", id.0)?;
            push_number_word(alloc, out, *len)?;
            push_word(out, state_word(*state))?;
            push_word(out, if *pinned { b"p" } else { b"-" })
        }
        Reply::Copies(rows) => {
            push_word(out, b"copies")?;
            push_copies(alloc, out, rows.as_slice())
        }
        Reply::Refused(refusal) => {
            push_word(out, b"refused")?;
            push_refusal(alloc, out, refusal)
        }
    }
}

/// The whole line, of which an `Err` may leave a part.
fn push_line(alloc: Global, out: &mut Vec<u8>, line: &Line) -> Result<(), AllocError>
    ensures { OnOk result (out.new.items ≡ out.old.items ++ line_text line.now) }
{
    push_number(alloc, out, u64::from(line.actor.0))?;
    push_event(alloc, out, &line.event)?;
    push_word(out, b"->")?;
    push_reply(alloc, out, &line.reply)?;
    out.push(b'\n')?;
    Ok(())
}

/// Adds the text of a line to `out`: the actor, the event's words, `->` and the reply's words, with a space
/// between them, and a line feed.
///
/// An `Err` is want of memory, and leaves the bytes of `out` as they were.
pub fn write_line(alloc: Global, line: &Line, out: &mut Vec<u8>) -> Result<(), AllocError>
    ensures ok { OnOk result (out.new.items ≡ out.old.items ++ line_text line.now) }
    ensures err { OnErr result (out.new.items ≡ out.old.items) }
{
    let mut text = Vec::with_capacity(alloc, 128)?;
    push_line(alloc, &mut text, line)?;
    out.extend_from_slice(&text)
}
