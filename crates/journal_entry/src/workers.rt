//! Reading the workers of an entry.

ghost use Rattle.journal_entry.specs.Reading.{Gives, above_at, workers_from, workers_at};

use crate::fault::Fault;
use crate::field::{u16_at, u32_at};
use fs_model::items::Items;
use fs_model::numbers::WorkerNo;
use std::alloc::Global;

/// A worker above this number.
#[tactic(auto, unfolding(crate::specs::Reading::above_at))]
fn above_at(bytes: &[u8], last: u32) -> Result<(u32, &[u8]), Fault>
    ensures { Gives (λ x. (x.0, x.1.now)) result (above_at last bytes.now) }
{
    let (worker, rest) = u32_at(bytes)?;
    if worker <= last || 64 < worker {
        return Err(Fault::NoEntry);
    }
    Ok((worker, rest))
}

/// So many workers, each above the one before.
fn rising_at(alloc: Global, count: u16, bytes: &[u8]) -> Result<(Vec<WorkerNo>, &[u8]), Fault>
    ensures { Gives (λ x. (x.0.items, x.1.now)) result (workers_from count 0 bytes.now) }
{
    let mut workers = Vec::new(alloc);
    let mut last = 0;
    let mut rest = bytes;
    for _ in 0..count {
        let (worker, after) = above_at(rest, last)?;
        workers.push(WorkerNo(worker))?;
        last = worker;
        rest = after;
    }
    Ok((workers, rest))
}

/// 1 to 64 workers behind their number, rising.
#[tactic(auto, unfolding(crate::specs::Reading::workers_at))]
pub fn workers_at(alloc: Global, bytes: &[u8]) -> Result<(Items<WorkerNo>, &[u8]), Fault>
    ensures { Gives (λ x. (x.0, x.1.now)) result (workers_at bytes.now) }
{
    let (count, rest) = u16_at(bytes)?;
    if count == 0 || 64 < count {
        return Err(Fault::NoEntry);
    }
    let (workers, rest) = rising_at(alloc, count, rest)?;
    Ok((Items::from_vec(workers), rest))
}
