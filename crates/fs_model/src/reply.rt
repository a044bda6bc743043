//! What an actor is told.

use crate::event::Event;
use crate::items::Items;
use crate::name::Name;
use crate::numbers::{Actor, BlockNo, FileId, PlanNo, StoreNo, TierNo, WorkerNo};
use crate::path::Path;
use crate::piece::Piece;

/// How a file stands to its under-store: not to be kept there, to be kept, kept.
#[derive(Clone, Copy, PartialEq, Eq, Debug)]
pub enum Stored {
    No,
    Wanted,
    Yes,
}

/// The state that `stat` shows of a file.
#[derive(Clone, Copy, PartialEq, Eq, Debug)]
pub enum FileState {
    Incomplete,
    Persisted,
    Lost,
    ToBePersisted,
    NotPersisted,
}

/// A live copy of a block, with its flags.
#[derive(Clone, Copy, PartialEq, Eq, Debug)]
pub struct CopyRow {
    pub block: BlockNo,
    pub worker: WorkerNo,
    pub tier: TierNo,
    pub keep: bool,
    pub pin: bool,
    pub free: bool,
}

/// A quantity that has a limit.
#[derive(Clone, Copy, PartialEq, Eq, Debug)]
pub enum Which {
    Path,
    Nodes,
    Labels,
    Blocks,
    Plans,
    Mounts,
    Tier,
    Store,
    Ids,
    Area,
}

/// Why an event was refused.
#[derive(Debug, Clone, PartialEq, Eq, Drop)]
pub enum Refusal {
    NotFound,
    Exists,
    NotDirectory,
    IsDirectory,
    NotEmpty,
    Incomplete,
    Busy(PlanNo),
    IsMount,
    CrossMount,
    MountOverlap(Path),
    InsideItself,
    Unavailable(BlockNo),
    SafeMode(WorkerNo),
    NoRoom(WorkerNo),
    NoWorker(WorkerNo),
    NotPersisted,
    Pinned,
    BadLabel,
    Held(WorkerNo),
    Stopped,
    Limit(Which),
    UnderFault(StoreNo),
    TierFault(WorkerNo),
    JournalFault,
    Memory,
    NotMount,
    /// The area and the place in it.
    Damaged(u32, u64),
}

/// The answer to an event.
#[derive(Debug, Clone, PartialEq, Eq, Drop)]
pub enum Reply {
    Done,
    Begun(PlanNo),
    Stepped,
    Ended,
    Opened(u64),
    FromWorker(WorkerNo, TierNo),
    FromStore(StoreNo),
    Taken(u64),
    NeedsRoom,
    Given(Piece),
    Copied(u32),
    NeedsBlock(BlockNo),
    End,
    NotReady,
    Idle,
    Register,
    Names(Items<Name>),
    Paths(Items<Path>),
    Plans(Items<PlanNo>),
    StatDir,
    StatFile {
        id: FileId,
        len: u64,
        state: FileState,
        pinned: bool,
    },
    Copies(Items<CopyRow>),
    Refused(Refusal),
}

/// One event of an actor with its answer.
#[derive(Debug, Clone, PartialEq, Eq, Drop)]
pub struct Line {
    pub actor: Actor,
    pub event: Event,
    pub reply: Reply,
}
