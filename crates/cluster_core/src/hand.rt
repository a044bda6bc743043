//! What an actor has under a label.

use block_stream::BlockStream;
use file_writer::writer::FileWriter;
use fs_model::numbers::{FileId, TierNo, WorkerNo};
use outside::objects::ObjectWrite;
use tier_book::room::RoomNo;

/// What an actor has under a label: a stream or a writer.
#[derive(Debug, Drop)]
pub enum Hand<R, W: ObjectWrite> {
    Reading(Stream<R>),
    Writing(Writer<W>),
}

/// Where a stream reads the block of its position from.
#[derive(Debug, Drop)]
pub struct BlockSource<R> {
    pub worker: WorkerNo,
    pub tier: TierNo,
    pub stream: BlockStream<R>,
    /// Whether a poll failed; it then stays, without use, until the stream's next `next` or `close`.
    pub failed: bool,
}

/// A stream over a file that is done.
#[derive(Debug, Drop)]
pub struct Stream<R> {
    pub file: FileId,
    /// The length of the file in bytes.
    pub len: u64,
    /// The position: how many bytes it gave.
    pub at: u64,
    /// The worker whose copies it reads first; 0 for none.
    pub worker: WorkerNo,
    pub source: Option<BlockSource<R>>,
}

/// A writer of a file that isn't done.
#[derive(Debug, Drop)]
pub struct Writer<W: ObjectWrite> {
    pub file: FileId,
    /// The worker of its blocks; 0 for none.
    pub worker: WorkerNo,
    /// How often that worker had been started when the file was made.
    pub started: u64,
    pub bytes: FileWriter<W>,
    /// The reservation of its open block at the worker.
    pub room: Option<RoomNo>,
    /// Whether a fault broke it; nothing but its end is left then.
    pub broken: bool,
}
