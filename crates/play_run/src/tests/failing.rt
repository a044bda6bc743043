//! Tiers of which a call fails, or a poll isn't ready.

use super::{AREA, Outcome, played, script_of, text_in};
use outside::media::Media;
use outside_mem::{ByNumber, Failing, MemDisk, MemObjects, MemSink};
use std::alloc::{AllocError, Global};
use std::test::Fail;

/// A kind of call of a tier, or of one of its readers or writers.
#[derive(Debug, Clone, Copy)]
pub(super) enum Call {
    BeginWrite,
    /// A finish that does nothing.
    Finish,
    /// A finish that does its work, and fails all the same.
    LateFinish,
    BeginRead,
    /// A put of the writer of this `begin_write`.
    Put(u64),
    /// A poll of the reader of this `begin_read`.
    Poll(u64),
    /// The same, where it isn't ready.
    Wait(u64),
}

/// The call of this number, or all from it on.
fn calls(alloc: Global, number: u64, on: bool) -> Result<Failing, AllocError> {
    if on {
        let mut failing = Failing::none(alloc);
        failing.from = Some(number);
        return Ok(failing);
    }
    Failing::listed(alloc, &[number])
}

/// A reader's or writer's calls, by its number.
fn of(alloc: Global, number: u64, failing: Failing) -> Result<Vec<ByNumber>, AllocError> {
    let mut told = Vec::new(alloc);
    told.push(ByNumber { number, failing })?;
    Ok(told)
}

/// A tier of which the call of this number fails, or isn't ready, or all from it on.
pub(super) fn tier(
    alloc: Global,
    call: Call,
    number: u64,
    on: bool,
) -> Result<MemObjects, AllocError> {
    let mut tier = MemObjects::new(alloc);
    let failing = calls(alloc, number, on)?;
    match call {
        Call::BeginWrite => tier.calls.begin_writes.failing = failing,
        Call::Finish => tier.calls.finishes.failing = failing,
        Call::LateFinish => {
            tier.calls.finishes.happening = calls(alloc, number, on)?;
            tier.calls.finishes.failing = failing;
        }
        Call::BeginRead => tier.calls.begin_reads.failing = failing,
        Call::Put(writer) => tier.calls.failing_puts = of(alloc, writer, failing)?,
        Call::Poll(reader) => tier.calls.failing_polls = of(alloc, reader, failing)?,
        Call::Wait(reader) => tier.calls.waiting_polls = of(alloc, reader, failing)?,
    }
    Ok(tier)
}

/// What a play told, how many calls of the first tier failed, and how many objects it holds.
#[derive(Drop)]
pub(super) struct Seen {
    pub(super) text: String,
    pub(super) faults: u64,
    pub(super) objects: usize,
}

/// The first tier of worker 1.
pub(super) fn first_tier(media: &Media<MemDisk, MemObjects>) -> Option<&MemObjects> {
    media.tiers.first()?.first()
}

/// How many calls of the first tier failed, and how many objects it holds.
fn counts_in(media: &Media<MemDisk, MemObjects>) -> (u64, usize) {
    match first_tier(media) {
        None => (0, 0),
        Some(tier) => (tier.faults, tier.objects.len()),
    }
}

/// What was told, and what the first tier counted.
fn seen_in(outcome: Outcome) -> Result<Seen, Fail> {
    let (faults, objects) = counts_in(&outcome.media);
    Ok(Seen {
        text: text_in(outcome)?,
        faults,
        objects,
    })
}

/// Plays the script of these lines with this first tier of worker 1.
pub(super) fn watched(alloc: Global, lines: &str, first: MemObjects) -> Result<Seen, Fail> {
    let script = script_of(alloc, lines)?;
    seen_in(played(alloc, AREA, &script, first, MemSink::new(alloc))?)
}

/// So many lines of a text, behind the first `skip` of them.
pub(super) fn some_lines(
    alloc: Global,
    text: &str,
    skip: usize,
    count: usize,
) -> Result<String, AllocError> {
    let mut part = String::new(alloc);
    for line in text.lines().skip(skip).take(count) {
        part.push_str(line)?;
        part.push('\n')?;
    }
    Ok(part)
}
