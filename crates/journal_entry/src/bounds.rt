//! Which numbers an entry may have.

ghost use Rattle.std.specs.Prelude.{◌≡◌};
ghost use Rattle.journal_entry.specs.Fields.{is_file_id, is_plan, is_plan_or_none, is_plan_of, is_next, is_worker, are_above, are_workers, is_no, is_move, is_root};
ghost use Rattle.journal_entry.specs.EntryText.{is_node};

use fs_model::change::PlanKind;
use fs_model::numbers::WorkerNo;
use fs_model::path::Path;
use fs_model::reply::Stored;

/// No id of a file and no plan is as great as this.
const MOST: u64 = 1 << 63;

/// Whether a number is a file's id: 1 to 2^63 - 1.
pub fn is_file_id(number: u64) -> bool
    ensures { result ≡ is_file_id number }
{
    0 < number && number < MOST
}

/// Whether a number is a plan: 1 to 2^63 - 1.
pub fn is_plan(number: u64) -> bool
    ensures { result ≡ is_plan number }
{
    0 < number && number < MOST
}

/// Whether a number is a plan, or 0 for none.
pub fn is_plan_or_none(number: u64) -> bool
    ensures { result ≡ is_plan_or_none number }
{
    number < MOST
}

/// Whether a number is the plan of a file that is finished so: there is one exactly where it is to be published.
pub fn is_plan_of(stored: Stored, number: u64) -> bool
    ensures { result ≡ is_plan_of stored number }
{
    match stored {
        Stored::Yes => is_plan(number),
        Stored::No | Stored::Wanted => number == 0,
    }
}

/// Whether the next file or plan may get this number: 1 to 2^63.
pub fn is_next(number: u64) -> bool
    ensures { result ≡ is_next number }
{
    0 < number && number <= MOST
}

/// Whether a number is a worker: 1 to 64.
pub fn is_worker(number: u32) -> bool
    ensures { result ≡ is_worker number }
{
    0 < number && number <= 64
}

/// Whether a file isn't to be in its under-store.
fn is_no(stored: Stored) -> bool
    ensures { result ≡ is_no stored }
{
    match stored {
        Stored::No => true,
        Stored::Wanted | Stored::Yes => false,
    }
}

/// Whether a plan moves objects, so that it has a second path.
pub fn is_move(kind: PlanKind) -> bool
    ensures { result ≡ is_move kind }
{
    match kind {
        PlanKind::Move => true,
        PlanKind::Remove | PlanKind::Publish | PlanKind::Load => false,
    }
}

/// Whether a path is the root.
pub fn is_root(path: &Path) -> bool
    ensures { result ≡ is_root path.now }
{
    path.as_slice().is_empty()
}

/// Whether these are fields of a checkpoint's node: a directory has none, and a file that isn't done has no bytes yet.
pub fn is_node(dir: bool, id: u64, len: u64, done: bool, stored: Stored, pinned: bool) -> bool
    ensures { result ≡ is_node dir id len done stored pinned }
{
    if dir {
        return id == 0 && len == 0 && done && is_no(stored) && !pinned;
    }
    is_file_id(id) && (done || (len == 0 && is_no(stored)))
}

/// Whether workers are at most 64, each above the one before and above this number.
fn are_above(last: u32, workers: &[WorkerNo]) -> bool
    ensures { result ≡ are_above last workers.now }
{
    match workers {
        [] => true,
        [worker, rest @ ..] => last < worker.0 && worker.0 <= 64 && are_above(worker.0, rest),
    }
}

/// Whether these are 1 to 64 workers, rising.
pub fn are_workers(workers: &[WorkerNo]) -> bool
    ensures { result ≡ are_workers workers.now }
{
    !workers.is_empty() && workers.len() <= 64 && are_above(0, workers)
}
