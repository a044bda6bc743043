//! What a journaled change says.

use crate::items::Items;
use crate::numbers::{FileId, PlanNo, StoreNo, WorkerNo};
use crate::path::Path;
use crate::prefix::Prefix;
use crate::reply::Stored;

/// What a plan does in the under-stores.
#[derive(Clone, Copy, PartialEq, Eq, Debug)]
pub enum PlanKind {
    Move,
    Remove,
    Publish,
    Load,
}

/// One journaled change of the names. A plan of 0 means that no plan is made.
#[derive(Debug, Clone, PartialEq, Eq, Drop)]
pub enum Change {
    Mkdir {
        path: Path,
    },
    Create {
        id: FileId,
        path: Path,
    },
    Done {
        id: FileId,
        len: u64,
        stored: Stored,
        plan: PlanNo,
    },
    Remove {
        path: Path,
        plan: PlanNo,
    },
    Move {
        path: Path,
        to: Path,
        plan: PlanNo,
    },
    Pin {
        path: Path,
        on: bool,
    },
    Want {
        id: FileId,
    },
    PlanEnd {
        plan: PlanNo,
    },
    Persisted {
        id: FileId,
        plan: PlanNo,
    },
    Mount {
        path: Path,
        store: StoreNo,
        key: Prefix,
        plan: PlanNo,
    },
    Unmount {
        path: Path,
    },
    Seen {
        worker: WorkerNo,
    },
    Lost {
        workers: Items<WorkerNo>,
    },
    Loaded {
        id: FileId,
        path: Path,
        len: u64,
    },
}
