//! What an actor may ask for.

use crate::label::Label;
use crate::numbers::{BlockNo, PlanNo, StoreNo, TierNo, WorkerNo};
use crate::path::Path;
use crate::piece::Piece;
use crate::prefix::Prefix;

/// How a file is written (the write types of the Alluxio 2 documentation).
#[derive(Clone, Copy, PartialEq, Eq, Debug)]
pub enum WriteType {
    MustCache,
    CacheThrough,
    Through,
    AsyncThrough,
}

/// How a file is read (the read types of the Alluxio 2 documentation).
#[derive(Clone, Copy, PartialEq, Eq, Debug)]
pub enum ReadType {
    Cache,
    CachePromote,
    NoCache,
}

/// Bytes to be written: listed, or `len` bytes from `at` on of the generator `num`.
#[derive(Debug, Clone, PartialEq, Eq, Drop)]
pub enum Fill {
    Listed(Piece),
    Made { num: u8, at: u64, len: u32 },
}

/// One event. The comments name its word in a script, where that is another.
#[derive(Debug, Clone, PartialEq, Eq, Drop)]
pub enum Event {
    Mkdir {
        path: Path,
    },
    Create {
        label: Label,
        path: Path,
        kind: WriteType,
        worker: WorkerNo,
    },
    Rename {
        path: Path,
        to: Path,
    },
    /// `rmr` where `deep`, else `rm`.
    Remove {
        path: Path,
        deep: bool,
    },
    /// `pin` where `on`, else `unpin`.
    Pin {
        path: Path,
        on: bool,
    },
    Persist {
        path: Path,
    },
    Free {
        path: Path,
    },
    Mount {
        path: Path,
        store: StoreNo,
        key: Prefix,
    },
    Unmount {
        path: Path,
    },
    /// `ls`.
    List {
        path: Path,
    },
    Stat {
        path: Path,
    },
    Where {
        path: Path,
    },
    Plans,
    Wanted,
    Room {
        label: Label,
    },
    Put {
        label: Label,
        fill: Fill,
    },
    /// `done`.
    Finish {
        label: Label,
    },
    /// `open`.
    OpenFile {
        label: Label,
        path: Path,
        kind: ReadType,
        worker: WorkerNo,
    },
    Next {
        label: Label,
    },
    Poll {
        label: Label,
        max: u32,
    },
    Close {
        label: Label,
    },
    Job {
        label: Label,
        path: Path,
    },
    /// `move`.
    Shift {
        label: Label,
        worker: WorkerNo,
        path: Path,
        block: BlockNo,
        tier: TierNo,
    },
    Copy {
        label: Label,
    },
    Start {
        worker: WorkerNo,
    },
    Register {
        worker: WorkerNo,
    },
    Beat {
        worker: WorkerNo,
    },
    Tick,
    Kill {
        worker: WorkerNo,
    },
    Sweep {
        worker: WorkerNo,
    },
    Pump {
        plan: PlanNo,
    },
    Checkpoint,
    Fuse {
        calls: u64,
    },
    Restart,
}
