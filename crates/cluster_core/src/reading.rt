//! The source that a stream reads the block of its position from.

ghost use Rattle.std.specs.Prelude.{◌≡◌, ◌<◌, ◌-◌, ◌%◌, true, false, Err, None, Some, min, IfNone, IfOk, IfSome, OnErr, is_some};
ghost use Rattle.fs_model.specs.State.{Source};
ghost use Rattle.fs_model.specs.declared.event.Event.{Event};
ghost use Rattle.fs_model.specs.Spelled.{is_actor};
ghost use Rattle.inode_tree.specs.Rows.{file_row};
ghost use Rattle.cluster_core.specs.Causes.{IsCaused};
ghost use Rattle.cluster_core.specs.Goes.{Steps};
ghost use Rattle.cluster_core.specs.HandFits.{source_of};
ghost use Rattle.cluster_core.specs.Kept.{KeepsRest};
ghost use Rattle.cluster_core.specs.Media.{MediaStays};
ghost use Rattle.cluster_core.specs.Steady.{IsSteady};
ghost use Rattle.cluster_core.specs.Polls.{block_number};
ghost use Rattle.cluster_core.specs.Seeks.{FailsRow, Halts, HandSeeks, OpensRow, SeeksOf, TriesRow, first_copy, found_reply, left_of, place_in, wanted};
ghost use Rattle.cluster_core.specs.Sources.{MaySource};
ghost use Rattle.cluster_core.specs.Tiers.{ChangesAt};

use crate::cluster::Core;
use crate::hand::{BlockSource, Hand, Stream};
use crate::node::Opened;
use crate::polling::block_at;
use block_stream::BlockStream;
use fs_model::label::Label;
use fs_model::numbers::{Actor, BlockNo, FileId, TierNo, WorkerNo};
use fs_model::reply::{Refusal, Reply};
use outside::disk::Disk;
use outside::objects::{ObjectRead, Objects};
use outside::world::Fail;
use std::alloc::Global;

/// The first worker. Until workers are started by a script, no other runs.
const FIRST: WorkerNo = WorkerNo(1);

/// What a search for a source gave.
#[derive(Debug, Clone, Copy, PartialEq, Eq)]
pub(crate) enum Found {
    /// There is no stream under the label.
    BadLabel,
    /// The master is stopped.
    Stopped,
    /// There is no such file any more.
    NotFound,
    /// All bytes of the file have been given.
    End,
    /// The stream has this source still.
    Still(WorkerNo, TierNo),
    /// The stream has a new source, at this tier of the first worker.
    Opened(TierNo),
    /// No worker that runs has this block.
    Unavailable(BlockNo),
    /// The first worker failed.
    Fault,
    /// There was no memory for it.
    Memory,
}

/// The answer of what a search gave.
fn found_reply(found: Found) -> Reply
    ensures { result ≡ found_reply found }
{
    match found {
        Found::BadLabel => Reply::Refused(Refusal::BadLabel),
        Found::Stopped => Reply::Refused(Refusal::Stopped),
        Found::NotFound => Reply::Refused(Refusal::NotFound),
        Found::End => Reply::End,
        Found::Still(worker, tier) => Reply::FromWorker(worker, tier),
        Found::Opened(tier) => Reply::FromWorker(FIRST, tier),
        Found::Unavailable(block) => Reply::Refused(Refusal::Unavailable(block)),
        Found::Fault => Reply::Refused(Refusal::TierFault(FIRST)),
        Found::Memory => Reply::Refused(Refusal::Memory),
    }
}

/// Where a stream reads from, where its source hasn't failed.
fn place_of<R: ObjectRead>(source: &Option<BlockSource<R>>) -> Option<(WorkerNo, TierNo)>
    ensures { MaySource (source_of source.now) result }
{
    match source {
        None => None,
        Some(source) => {
            if source.failed {
                return None;
            }
            Some((source.worker, source.tier))
        }
    }
}

/// How many bytes of the block of its position a stream has still to give.
fn left_of<R: ObjectRead>(stream: &Stream<R>, block: u32) -> u64
    requires block { 0 < block }
    requires inside { stream.now.at < stream.now.len }
    ensures { result ≡ min (stream.now.len - stream.now.at) (block - stream.now.at % block) }
{
    let block = block as u64;
    (stream.len - stream.at).min(block - stream.at % block)
}

impl<D: Disk, O: Objects> Core<D, O, O::Reader, O::Writer> {
    /// Opens the first worker's copy of a block, where that worker runs and has one, for `len` bytes from place `at`
    /// on.
    fn open_first(
        &mut self,
        alloc: Global,
        file: FileId,
        block: BlockNo,
        at: u64,
        len: u64,
    ) -> Result<Option<Opened<O::Reader>>, Fail>
        ensures rest { KeepsRest self.old self.new }
        ensures hands { self.new.hands ≡ self.old.hands }
        ensures none { IfOk result (λ found. IfNone found ((first_copy self.old.workers.items file block ≡ None) × (self.new.workers.items ≡ self.old.workers.items))) }
        ensures due { IfOk result (λ found. IfSome found (λ opened. O.Reader.to_give opened.reader ≡ len)) }
        ensures row { IfOk result (λ found. IfSome found (λ opened. ChangesAt self.old.workers.items self.new.workers.items 0 (OpensRow O.Objects O.Reader.ObjectRead file block at len opened.reader opened.tier))) }
        ensures err { OnErr result (ChangesAt self.old.workers.items self.new.workers.items 0 (TriesRow O.Objects O.Reader.ObjectRead file block at len)) }
        ensures failed { result ≡ Err Fail.Failed → ChangesAt self.old.workers.items self.new.workers.items 0 (FailsRow O.Objects O.Reader.ObjectRead file block at len) }
    {
        if self.workers.is_empty() || !self.workers[0].running {
            return Ok(None);
        }
        self.workers[0].open_row(alloc, file, block, at, len)
    }

    /// Seeks a source for a stream that isn't at its end and has none.
    fn seek_source(&mut self, alloc: Global, stream: &mut Stream<O::Reader>) -> Found
        requires inside { stream.old.at < stream.old.len }
        requires none { source_of stream.old.source ≡ None }
        requires there { is_some (file_row self.old.master.kept.names.nodes stream.old.file) ≡ true }
        ensures rest { KeepsRest self.old self.new }
        ensures hands { self.new.hands ≡ self.old.hands }
        ensures found { SeeksOf O.Objects O.Reader.ObjectRead self.old.master.kept.names.nodes self.old.block self.old.workers.items self.new.workers.items stream.old stream.new result }
        ensures halts { Halts false result }
    {
        let block = block_at(stream.at, self.block);
        let place = stream.at % self.block as u64;
        let left = left_of(stream, self.block);
        match self.open_first(alloc, stream.file, block, place, left) {
            Ok(None) => Found::Unavailable(block),
            Ok(Some(opened)) => {
                let tier = opened.tier;
                stream.source = Some(BlockSource {
                    worker: FIRST,
                    tier,
                    stream: BlockStream::new(opened.reader),
                    failed: false,
                });
                Found::Opened(tier)
            }
            Err(Fail::Failed) => Found::Fault,
            Err(Fail::Memory) => Found::Memory,
        }
    }

    /// Seeks a source for a stream, if it wants one.
    fn seek(&mut self, alloc: Global, stream: &mut Stream<O::Reader>) -> Found
        ensures rest { KeepsRest self.old self.new }
        ensures hands { self.new.hands ≡ self.old.hands }
        ensures found { SeeksOf O.Objects O.Reader.ObjectRead self.old.master.kept.names.nodes self.old.block self.old.workers.items self.new.workers.items stream.old stream.new result }
        ensures halts { Halts self.old.master.journal.failed result }
    {
        if self.master.is_stopped() {
            return Found::Stopped;
        }
        if self.master.names().file(stream.file).is_none() {
            return Found::NotFound;
        }
        if stream.at >= stream.len {
            stream.source = None;
            return Found::End;
        }
        if let Some((worker, tier)) = place_of(&stream.source) {
            return Found::Still(worker, tier);
        }
        self.seek_source(alloc, stream)
    }

    /// Seeks a source for what is under a label.
    fn seek_hand(&mut self, alloc: Global, hand: &mut Hand<O::Reader, O::Writer>) -> Found
        ensures rest { KeepsRest self.old self.new }
        ensures hands { self.new.hands ≡ self.old.hands }
        ensures found { HandSeeks O.Objects O.Reader.ObjectRead self.old.master.kept.names.nodes self.old.block self.old.workers.items self.new.workers.items hand.old hand.new result }
        ensures halts { Halts self.old.master.journal.failed result }
    {
        match hand {
            Hand::Reading(stream) => self.seek(alloc, stream),
            Hand::Writing(_) => Found::BadLabel,
        }
    }

    /// `next`: a source for the block of a stream's position.
    pub(crate) fn next(&mut self, alloc: Global, actor: Actor, label: &Label) -> Reply
        requires { is_actor actor ≡ true }
        ensures steps { Steps D.Disk O.Objects O.Reader.ObjectRead O.Writer.ObjectWrite self.old self.new actor (Event.Next label.now) result }
        ensures media { MediaStays D.Disk O.Objects self.old self.new }
        ensures kept { self.new.master ≡ self.old.master }
        ensures cause { IsCaused D.Disk O.Objects O.Reader.ObjectRead O.Writer.ObjectWrite self.old self.new actor (Event.Next label.now) result }
        ensures steady { IsSteady D.Disk O.Objects O.Reader.ObjectRead O.Writer.ObjectWrite self.old → IsSteady D.Disk O.Objects O.Reader.ObjectRead O.Writer.ObjectWrite self.new }
    {
        match self.take_hand(actor, label) {
            None => Reply::Refused(Refusal::BadLabel),
            Some(mut row) => {
                let found = self.seek_hand(alloc, &mut row.hand);
                self.put_hand(actor, row);
                found_reply(found)
            }
        }
    }
}
