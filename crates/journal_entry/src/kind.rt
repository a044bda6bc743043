//! Reading the fields of each kind of entry, to the end of its body.

ghost use Rattle.journal_entry.specs.Reading.{Gives, mkdir_of, create_of, done_of, remove_of, move_of, pin_of, want_of, plan_end_of, persisted_of, mount_of, unmount_of, seen_of, lost_of, loaded_of, next_of, row_of, pending_of, leaf_of, change_of, checkpoint_of, entry_of};
ghost use Rattle.std.specs.Prelude.{Some, None, if◌then◌else◌, ◌==◌, length};

use crate::bounds::{is_file_id, is_move, is_node, is_plan_of, is_root};
use crate::entry::Entry;
use crate::fault::Fault;
use crate::field::{
    flag_at, id_at, key_at, len_at, next_at, node_at, path_at, plan_at, plan_kind_at,
    plan_or_none_at, store_at, stored_at, u64_at, worker_at,
};
use crate::workers::workers_at;
use fs_model::numbers::{FileId, PlanNo, StoreNo, WorkerNo};
use std::alloc::Global;

/// Whether nothing is left of a body.
fn end(rest: &[u8]) -> Result<(), Fault>
    ensures { Gives (λ x. x) result (if length rest.now == 0 then Some tt else None) }
{
    if !rest.is_empty() {
        return Err(Fault::NoEntry);
    }
    Ok(())
}

/// A directory that is made: its path.
#[tactic(auto, unfolding(crate::specs::Reading::mkdir_of))]
fn mkdir_of(alloc: Global, fields: &[u8]) -> Result<Entry, Fault>
    ensures { Gives (λ e. e) result (mkdir_of fields.now) }
{
    let (path, rest) = path_at(alloc, fields)?;
    end(rest)?;
    Ok(Entry::Mkdir { path })
}

/// A file that is made: its id and path.
#[tactic(auto, unfolding(crate::specs::Reading::create_of))]
fn create_of(alloc: Global, fields: &[u8]) -> Result<Entry, Fault>
    ensures { Gives (λ e. e) result (create_of fields.now) }
{
    let (id, rest) = id_at(fields)?;
    let (path, rest) = path_at(alloc, rest)?;
    end(rest)?;
    Ok(Entry::Create {
        id: FileId(id),
        path,
    })
}

/// A file that is done: its id, its length, how it stands to its under-store, and its plan.
#[tactic(auto, unfolding(crate::specs::Reading::done_of))]
fn done_of(fields: &[u8]) -> Result<Entry, Fault>
    ensures { Gives (λ e. e) result (done_of fields.now) }
{
    let (id, rest) = id_at(fields)?;
    let (len, rest) = len_at(rest)?;
    let (stored, rest) = stored_at(rest)?;
    let (plan, rest) = u64_at(rest)?;
    if !is_plan_of(stored, plan) {
        return Err(Fault::NoEntry);
    }
    end(rest)?;
    Ok(Entry::Done {
        id: FileId(id),
        len,
        stored,
        plan: PlanNo(plan),
    })
}

/// A node that goes: its path, and a plan.
#[tactic(auto, unfolding(crate::specs::Reading::remove_of))]
fn remove_of(alloc: Global, fields: &[u8]) -> Result<Entry, Fault>
    ensures { Gives (λ e. e) result (remove_of fields.now) }
{
    let (path, rest) = path_at(alloc, fields)?;
    let (plan, rest) = plan_or_none_at(rest)?;
    end(rest)?;
    Ok(Entry::Remove {
        path,
        plan: PlanNo(plan),
    })
}

/// A node that moves: its path before and afterwards, and a plan.
#[tactic(auto, unfolding(crate::specs::Reading::move_of))]
fn move_of(alloc: Global, fields: &[u8]) -> Result<Entry, Fault>
    ensures { Gives (λ e. e) result (move_of fields.now) }
{
    let (path, rest) = path_at(alloc, fields)?;
    let (to, rest) = path_at(alloc, rest)?;
    let (plan, rest) = plan_or_none_at(rest)?;
    end(rest)?;
    Ok(Entry::Move {
        path,
        to,
        plan: PlanNo(plan),
    })
}

/// A file that is pinned or not: its path, and a flag.
#[tactic(auto, unfolding(crate::specs::Reading::pin_of))]
fn pin_of(alloc: Global, fields: &[u8]) -> Result<Entry, Fault>
    ensures { Gives (λ e. e) result (pin_of fields.now) }
{
    let (path, rest) = path_at(alloc, fields)?;
    let (on, rest) = flag_at(rest)?;
    end(rest)?;
    Ok(Entry::Pin { path, on })
}

/// A file that is to be kept: its id.
#[tactic(auto, unfolding(crate::specs::Reading::want_of))]
fn want_of(fields: &[u8]) -> Result<Entry, Fault>
    ensures { Gives (λ e. e) result (want_of fields.now) }
{
    let (id, rest) = id_at(fields)?;
    end(rest)?;
    Ok(Entry::Want { id: FileId(id) })
}

/// A plan that is done.
#[tactic(auto, unfolding(crate::specs::Reading::plan_end_of))]
fn plan_end_of(fields: &[u8]) -> Result<Entry, Fault>
    ensures { Gives (λ e. e) result (plan_end_of fields.now) }
{
    let (plan, rest) = plan_or_none_at(fields)?;
    end(rest)?;
    Ok(Entry::PlanEnd { plan: PlanNo(plan) })
}

/// A file that was written to its under-store: its id, and its plan.
#[tactic(auto, unfolding(crate::specs::Reading::persisted_of))]
fn persisted_of(fields: &[u8]) -> Result<Entry, Fault>
    ensures { Gives (λ e. e) result (persisted_of fields.now) }
{
    let (id, rest) = id_at(fields)?;
    let (plan, rest) = plan_at(rest)?;
    end(rest)?;
    Ok(Entry::Persisted {
        id: FileId(id),
        plan: PlanNo(plan),
    })
}

/// A mount: its path, its store and key, and a plan.
#[tactic(auto, unfolding(crate::specs::Reading::mount_of))]
fn mount_of(alloc: Global, fields: &[u8]) -> Result<Entry, Fault>
    ensures { Gives (λ e. e) result (mount_of fields.now) }
{
    let (path, rest) = path_at(alloc, fields)?;
    let (store, rest) = store_at(rest)?;
    let (key, rest) = key_at(alloc, rest)?;
    let (plan, rest) = plan_or_none_at(rest)?;
    end(rest)?;
    Ok(Entry::Mount {
        path,
        store: StoreNo(store),
        key,
        plan: PlanNo(plan),
    })
}

/// A mount that goes: its path.
#[tactic(auto, unfolding(crate::specs::Reading::unmount_of))]
fn unmount_of(alloc: Global, fields: &[u8]) -> Result<Entry, Fault>
    ensures { Gives (λ e. e) result (unmount_of fields.now) }
{
    let (path, rest) = path_at(alloc, fields)?;
    end(rest)?;
    Ok(Entry::Unmount { path })
}

/// A worker that registered.
#[tactic(auto, unfolding(crate::specs::Reading::seen_of))]
fn seen_of(fields: &[u8]) -> Result<Entry, Fault>
    ensures { Gives (λ e. e) result (seen_of fields.now) }
{
    let (worker, rest) = worker_at(fields)?;
    end(rest)?;
    Ok(Entry::Seen {
        worker: WorkerNo(worker),
    })
}

/// Workers that went silent.
#[tactic(auto, unfolding(crate::specs::Reading::lost_of))]
fn lost_of(alloc: Global, fields: &[u8]) -> Result<Entry, Fault>
    ensures { Gives (λ e. e) result (lost_of fields.now) }
{
    let (workers, rest) = workers_at(alloc, fields)?;
    end(rest)?;
    Ok(Entry::Lost { workers })
}

/// A file that was found: its id, its path and its length.
#[tactic(auto, unfolding(crate::specs::Reading::loaded_of))]
fn loaded_of(alloc: Global, fields: &[u8]) -> Result<Entry, Fault>
    ensures { Gives (λ e. e) result (loaded_of fields.now) }
{
    let (id, rest) = id_at(fields)?;
    let (path, rest) = path_at(alloc, rest)?;
    let (len, rest) = len_at(rest)?;
    end(rest)?;
    Ok(Entry::Loaded {
        id: FileId(id),
        path,
        len,
    })
}

/// The numbers that the next file and the next plan get.
#[tactic(auto, unfolding(crate::specs::Reading::next_of))]
fn next_of(fields: &[u8]) -> Result<Entry, Fault>
    ensures { Gives (λ e. e) result (next_of fields.now) }
{
    let (id, rest) = next_at(fields)?;
    let (plan, rest) = next_at(rest)?;
    end(rest)?;
    Ok(Entry::Next {
        id: FileId(id),
        plan: PlanNo(plan),
    })
}

/// A node of a checkpoint: its path, what it is, and what is kept of it.
#[tactic(auto, unfolding(crate::specs::Reading::row_of))]
fn row_of(alloc: Global, fields: &[u8]) -> Result<Entry, Fault>
    ensures { Gives (λ e. e) result (row_of fields.now) }
{
    let (path, rest) = path_at(alloc, fields)?;
    let (dir, rest) = node_at(rest)?;
    let (id, rest) = u64_at(rest)?;
    let (len, rest) = len_at(rest)?;
    let (done, rest) = flag_at(rest)?;
    let (stored, rest) = stored_at(rest)?;
    let (pinned, rest) = flag_at(rest)?;
    if !is_node(dir, id, len, done, stored, pinned) {
        return Err(Fault::NoEntry);
    }
    end(rest)?;
    Ok(Entry::Node {
        path,
        dir,
        id: FileId(id),
        len,
        done,
        stored,
        pinned,
    })
}

/// A pending plan: its number, what it does, and its paths.
#[tactic(auto, unfolding(crate::specs::Reading::pending_of))]
fn pending_of(alloc: Global, fields: &[u8]) -> Result<Entry, Fault>
    ensures { Gives (λ e. e) result (pending_of fields.now) }
{
    let (plan, rest) = plan_at(fields)?;
    let (kind, rest) = plan_kind_at(rest)?;
    let (path, rest) = path_at(alloc, rest)?;
    let (to, rest) = path_at(alloc, rest)?;
    if !is_move(kind) && !is_root(&to) {
        return Err(Fault::NoEntry);
    }
    end(rest)?;
    Ok(Entry::Pending {
        plan: PlanNo(plan),
        kind,
        path,
        to,
    })
}

/// A file whose object a plan removes: the plan, and the path.
#[tactic(auto, unfolding(crate::specs::Reading::leaf_of))]
fn leaf_of(alloc: Global, fields: &[u8]) -> Result<Entry, Fault>
    ensures { Gives (λ e. e) result (leaf_of fields.now) }
{
    let (plan, rest) = plan_at(fields)?;
    let (path, rest) = path_at(alloc, rest)?;
    end(rest)?;
    Ok(Entry::Leaf {
        plan: PlanNo(plan),
        path,
    })
}

/// The change that fields of this kind are.
#[tactic(auto, unfolding(crate::specs::Reading::change_of))]
fn change_of(alloc: Global, kind: u8, fields: &[u8]) -> Result<Entry, Fault>
    ensures { Gives (λ e. e) result (change_of kind fields.now) }
{
    match kind {
        1 => mkdir_of(alloc, fields),
        2 => create_of(alloc, fields),
        3 => done_of(fields),
        4 => remove_of(alloc, fields),
        5 => move_of(alloc, fields),
        6 => pin_of(alloc, fields),
        7 => want_of(fields),
        8 => plan_end_of(fields),
        9 => persisted_of(fields),
        10 => mount_of(alloc, fields),
        11 => unmount_of(alloc, fields),
        12 => seen_of(fields),
        13 => lost_of(alloc, fields),
        14 => loaded_of(alloc, fields),
        _ => Err(Fault::NoEntry),
    }
}

/// The entry of a checkpoint alone that fields of this kind are.
#[tactic(auto, unfolding(crate::specs::Reading::checkpoint_of))]
fn checkpoint_of(alloc: Global, kind: u8, fields: &[u8]) -> Result<Entry, Fault>
    ensures { Gives (λ e. e) result (checkpoint_of kind fields.now) }
{
    match kind {
        15 => next_of(fields),
        16 => row_of(alloc, fields),
        17 => pending_of(alloc, fields),
        18 => leaf_of(alloc, fields),
        _ => Err(Fault::NoEntry),
    }
}

/// The entry that a body is, its kind byte first.
#[tactic(auto, unfolding(crate::specs::Reading::entry_of))]
pub fn entry_of(alloc: Global, body: &[u8]) -> Result<Entry, Fault>
    ensures { Gives (λ e. e) result (entry_of body.now) }
{
    match body {
        [] => Err(Fault::NoEntry),
        [kind, fields @ ..] => {
            if *kind < 15 {
                change_of(alloc, *kind, fields)
            } else {
                checkpoint_of(alloc, *kind, fields)
            }
        }
    }
}
