//! The next bytes of a stream.

ghost use Rattle.std.specs.Prelude.{◌≡◌, ◌<◌, ◌≤◌, ◌/◌, ◌^◌, true, IfOk, length, take};
ghost use Rattle.fs_model.specs.declared.event.Event.{Event};
ghost use Rattle.fs_model.specs.Spelled.{is_actor, is_piece_len};
ghost use Rattle.cluster_core.specs.Causes.{IsCaused};
ghost use Rattle.cluster_core.specs.Goes.{Steps};
ghost use Rattle.cluster_core.specs.Media.{MediaStays};
ghost use Rattle.cluster_core.specs.Steady.{IsSteady};
ghost use Rattle.cluster_core.specs.Polls.{block_number, due_of, reply_of, HandPolls, PollOf, SourcePolls};

use crate::cluster::Core;
use crate::hand::{BlockSource, Hand, Stream};
use block_stream::Polled;
use fs_model::label::Label;
use fs_model::numbers::{Actor, BlockNo, WorkerNo};
use fs_model::piece::Piece;
use fs_model::reply::{Refusal, Reply};
use outside::disk::Disk;
use outside::objects::{ObjectRead, ObjectWrite, Objects};
use std::alloc::{AllocError, Global};

/// What a poll of a label gave.
#[derive(Debug, Drop)]
pub(crate) enum Gave {
    /// There is no stream under the label.
    BadLabel,
    /// All bytes of the file have been given.
    End,
    /// A source of this block is wanted first.
    NeedsBlock(BlockNo),
    /// These bytes.
    Given(Piece),
    /// Nothing yet; a later poll may give bytes.
    NotReady,
    /// The source at this worker failed.
    Fault(WorkerNo),
    /// There was no memory for the bytes.
    Memory,
}

/// A source after a poll, where it is still wanted, and what it gave.
#[derive(Debug, Drop)]
pub(crate) struct SourcePolled<R> {
    pub(crate) left: Option<BlockSource<R>>,
    pub(crate) gave: Gave,
}

/// A buffer of so many bytes. An `Err` is want of memory.
fn buffer(alloc: Global, len: usize) -> Result<Vec<u8>, AllocError>
    ensures { IfOk result (λ buf. length buf.items ≡ len) }
{
    let mut buf = Vec::new(alloc);
    buf.resize(len, 0)?;
    Ok(buf)
}

/// The block of a position, where its number is one.
pub(crate) fn block_at(at: u64, block: u32) -> BlockNo
    requires { 0 < block }
    ensures number { at / block < 2 ^ 32 → result ≡ at / block }
    ensures exact { result ≡ block_number at block }
{
    BlockNo((at / block as u64).min(u32::MAX as u64) as u32)
}

/// How many bytes the source has still to give; a source that failed has none.
pub(crate) fn due_at<R: ObjectRead>(source: &Option<BlockSource<R>>) -> u64
    ensures { result ≡ due_of R.ObjectRead source.now }
{
    match source {
        None => 0,
        Some(source) => {
            if source.failed {
                return 0;
            }
            source.stream.reader.due()
        }
    }
}

/// Polls a source that has bytes to give, into a buffer.
fn poll_source<R: ObjectRead>(mut source: BlockSource<R>, mut buf: Vec<u8>) -> SourcePolled<R>
    requires room { 0 < length buf.items }
    requires due { 0 < R.to_give source.stream.reader }
    ensures { SourcePolls R.ObjectRead (length buf.items) source result.left result.gave }
{
    match source.stream.poll_into(buf.as_mut_slice()) {
        Polled::Piece(n) => {
            buf.truncate(n);
            let gave = Gave::Given(Piece::from_vec(buf));
            if source.stream.reader.due() == 0 {
                return SourcePolled { left: None, gave };
            }
            SourcePolled {
                left: Some(source),
                gave,
            }
        }
        Polled::NotReady => SourcePolled {
            left: Some(source),
            gave: Gave::NotReady,
        },
        Polled::End => unreachable!(),
        Polled::Fault => {
            let worker = source.worker;
            source.failed = true;
            SourcePolled {
                left: Some(source),
                gave: Gave::Fault(worker),
            }
        }
    }
}

/// Polls a stream, for at most so many bytes.
fn poll_stream<R: ObjectRead>(alloc: Global, stream: &mut Stream<R>, block: u32, max: u32) -> Gave
    requires block { 0 < block }
    requires some { 0 < max }
    ensures { PollOf R.ObjectRead block max stream.old stream.new result }
{
    if stream.at >= stream.len {
        return Gave::End;
    }
    let due = due_at(&stream.source);
    if due == 0 {
        return Gave::NeedsBlock(block_at(stream.at, block));
    }
    let most = due.min(max as u64).min(stream.len - stream.at);
    let Ok(buf) = buffer(alloc, most as usize) else {
        return Gave::Memory;
    };
    let Some(source) = stream.source.take() else {
        unreachable!()
    };
    let polled = poll_source(source, buf);
    stream.source = polled.left;
    if let Gave::Given(bytes) = &polled.gave {
        stream.at += bytes.as_slice().len() as u64;
    }
    polled.gave
}

/// Polls what is under a label, for at most so many bytes.
fn poll_hand<R: ObjectRead, W: ObjectWrite>(
    alloc: Global,
    hand: &mut Hand<R, W>,
    block: u32,
    max: u32,
) -> Gave
    requires block { 0 < block }
    requires some { 0 < max }
    ensures { HandPolls R.ObjectRead block max hand.old hand.new result }
{
    match hand {
        Hand::Reading(stream) => poll_stream(alloc, stream, block, max),
        Hand::Writing(_) => Gave::BadLabel,
    }
}

/// The answer of what a poll gave.
fn reply_of(gave: Gave) -> Reply
    ensures { result ≡ reply_of gave }
{
    match gave {
        Gave::BadLabel => Reply::Refused(Refusal::BadLabel),
        Gave::End => Reply::End,
        Gave::NeedsBlock(block) => Reply::NeedsBlock(block),
        Gave::Given(bytes) => Reply::Given(bytes),
        Gave::NotReady => Reply::NotReady,
        Gave::Fault(worker) => Reply::Refused(Refusal::TierFault(worker)),
        Gave::Memory => Reply::Refused(Refusal::Memory),
    }
}

impl<D: Disk, O: Objects> Core<D, O, O::Reader, O::Writer> {
    /// `poll`: the next bytes of a stream, at most so many.
    pub(crate) fn poll(&mut self, alloc: Global, actor: Actor, label: &Label, max: u32) -> Reply
        requires actor { is_actor actor ≡ true }
        requires max { is_piece_len max ≡ true }
        ensures steps { Steps D.Disk O.Objects O.Reader.ObjectRead O.Writer.ObjectWrite self.old self.new actor (Event.Poll label.now max) result }
        ensures media { MediaStays D.Disk O.Objects self.old self.new }
        ensures kept { self.new.master ≡ self.old.master }
        ensures cause { IsCaused D.Disk O.Objects O.Reader.ObjectRead O.Writer.ObjectWrite self.old self.new actor (Event.Poll label.now max) result }
        ensures steady { IsSteady D.Disk O.Objects O.Reader.ObjectRead O.Writer.ObjectWrite self.old → IsSteady D.Disk O.Objects O.Reader.ObjectRead O.Writer.ObjectWrite self.new }
    {
        match self.take_hand(actor, label) {
            None => Reply::Refused(Refusal::BadLabel),
            Some(mut row) => {
                let gave = poll_hand(alloc, &mut row.hand, self.block, max);
                self.put_hand(actor, row);
                reply_of(gave)
            }
        }
    }
}
