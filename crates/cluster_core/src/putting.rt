//! Bytes into the file of a writer.

ghost use Rattle.std.specs.Prelude.{◌≡◌, ◌<◌, ◌^◌, true, false, map, min, IfOk};
ghost use Rattle.std.specs.List.{range_with_len};
ghost use Rattle.fs_model.specs.declared.event.Event.{Event};
ghost use Rattle.fs_model.specs.declared.event.Fill.{Fill};
ghost use Rattle.fs_model.specs.BytesOutcomes.{made_byte};
ghost use Rattle.fs_model.specs.Spelled.{is_actor, is_fill};
ghost use Rattle.file_writer.specs.Writing.{wants_room};
ghost use Rattle.cluster_core.specs.Causes.{IsCaused};
ghost use Rattle.cluster_core.specs.Goes.{Steps};
ghost use Rattle.cluster_core.specs.Media.{MediaStays};
ghost use Rattle.cluster_core.specs.Steady.{IsSteady};
ghost use Rattle.cluster_core.specs.Putting.{DidIn, DidPiece, DidPut, missing, put_reply};

use crate::cluster::Core;
use crate::hand::{Hand, Writer};
use file_writer::writer::PutStep;
use fs_model::event::Fill;
use fs_model::label::Label;
use fs_model::numbers::{Actor, StoreNo, WorkerNo};
use fs_model::reply::{Refusal, Reply};
use outside::disk::Disk;
use outside::objects::{ObjectWrite, Objects};
use std::alloc::{AllocError, Global};

/// How a put ended.
pub(crate) enum PutEnd {
    /// There is no writer, or a broken one.
    BadLabel,
    /// A new block is wanted first.
    NeedsRoom,
    /// Memory was wanted.
    Short,
    /// It took so many bytes, the first of those that were given.
    Taken(usize),
    /// The writer of this worker failed.
    TierFault(WorkerNo),
    /// The writer of this store failed.
    UnderFault(StoreNo),
}

/// What is answered where a put ended so.
fn reply_of(end: PutEnd) -> Reply
    ensures { result ≡ put_reply end }
{
    match end {
        PutEnd::BadLabel => Reply::Refused(Refusal::BadLabel),
        PutEnd::NeedsRoom => Reply::NeedsRoom,
        PutEnd::Short => Reply::Refused(Refusal::Memory),
        PutEnd::Taken(count) => Reply::Taken(count as u64),
        PutEnd::TierFault(worker) => Reply::Refused(Refusal::TierFault(worker)),
        PutEnd::UnderFault(store) => Reply::Refused(Refusal::UnderFault(store)),
    }
}

/// Byte `at` of generator `num`.
fn byte_at(num: u8, at: u64) -> u8
    requires { at < 2 ^ 43 }
    ensures { result ≡ made_byte num at }
{
    ((u64::from(num) + at + at / 256) % 256) as u8
}

/// `count` bytes from `at` on of generator `num`. An `Err` is want of memory.
fn made(alloc: Global, num: u8, at: u64, count: u32) -> Result<Vec<u8>, AllocError>
    requires { at < 2 ^ 42 }
    ensures { IfOk result (λ bytes. bytes.items ≡ map (made_byte num) (range_with_len at count)) }
{
    (at..at + u64::from(count))
        .map(|k| byte_at(num, k))
        .collect(alloc)
}

/// Puts a piece into the open block of a writer that isn't broken. A fault breaks it.
fn put_piece<W: ObjectWrite>(writer: &mut Writer<W>, piece: &[u8]) -> PutEnd
    ensures { DidPiece W.ObjectWrite piece.now result writer.old writer.new }
{
    match writer.bytes.put(piece) {
        PutStep::Taken(count) => PutEnd::Taken(count),
        PutStep::NeedsRoom => PutEnd::NeedsRoom,
        PutStep::TierFault(_) => {
            writer.broken = true;
            PutEnd::TierFault(writer.worker)
        }
        PutStep::UnderFault(store) => {
            writer.broken = true;
            PutEnd::UnderFault(store)
        }
    }
}

/// How many of `len` bytes fit into an open block that has so many of its `block` bytes; none without one.
fn fitting(block: u32, has: Option<u64>, len: u32) -> u32
    ensures { result ≡ min len (missing block has) }
{
    match has {
        None => 0,
        Some(has) => u64::from(len).min(u64::from(block).saturating_sub(has)) as u32,
    }
}

/// Puts made bytes into the open block, which isn't full, of a writer that isn't broken, in blocks of `block` bytes: at
/// most as many as the open block lacks are made.
fn put_made<W: ObjectWrite>(
    alloc: Global,
    block: u32,
    writer: &mut Writer<W>,
    num: u8,
    at: u64,
    len: u32,
) -> PutEnd
    requires { at < 2 ^ 42 }
    ensures { wants_room writer.old.bytes ≡ false → writer.old.broken ≡ false → DidPut W.ObjectWrite block (Fill.Made num at len) result writer.old writer.new }
{
    let count = fitting(block, writer.bytes.open_len(), len);
    match made(alloc, num, at, count) {
        Ok(bytes) => put_piece(writer, bytes.as_slice()),
        Err(_) => PutEnd::Short,
    }
}

/// Puts bytes into the open block of a writer in blocks of `block` bytes.
fn put_fill<W: ObjectWrite>(
    alloc: Global,
    block: u32,
    writer: &mut Writer<W>,
    fill: &Fill,
) -> PutEnd
    requires { is_fill fill.now ≡ true }
    ensures { DidPut W.ObjectWrite block fill.now result writer.old writer.new }
{
    if writer.broken {
        return PutEnd::BadLabel;
    }
    if writer.bytes.needs_room() {
        return PutEnd::NeedsRoom;
    }
    match fill {
        Fill::Listed(piece) => put_piece(writer, piece.as_slice()),
        Fill::Made { num, at, len } => put_made(alloc, block, writer, *num, *at, *len),
    }
}

/// Puts bytes into what is under a label, in blocks of `block` bytes.
fn put_under<R, W: ObjectWrite>(
    alloc: Global,
    block: u32,
    hand: &mut Hand<R, W>,
    fill: &Fill,
) -> PutEnd
    requires { is_fill fill.now ≡ true }
    ensures { DidIn W.ObjectWrite block fill.now result hand.old hand.new }
{
    match hand {
        Hand::Reading(_) => PutEnd::BadLabel,
        Hand::Writing(writer) => put_fill(alloc, block, writer, fill),
    }
}

impl<D: Disk, O: Objects> Core<D, O, O::Reader, O::Writer> {
    /// `put`: gives bytes to a label's writer.
    pub(crate) fn put(&mut self, alloc: Global, actor: Actor, label: &Label, fill: &Fill) -> Reply
        requires actor { is_actor actor ≡ true }
        requires fill { is_fill fill.now ≡ true }
        ensures steps { Steps D.Disk O.Objects O.Reader.ObjectRead O.Writer.ObjectWrite self.old self.new actor (Event.Put label.now fill.now) result }
        ensures media { MediaStays D.Disk O.Objects self.old self.new }
        ensures kept { self.new.master ≡ self.old.master }
        ensures cause { IsCaused D.Disk O.Objects O.Reader.ObjectRead O.Writer.ObjectWrite self.old self.new actor (Event.Put label.now fill.now) result }
        ensures steady { IsSteady D.Disk O.Objects O.Reader.ObjectRead O.Writer.ObjectWrite self.old → IsSteady D.Disk O.Objects O.Reader.ObjectRead O.Writer.ObjectWrite self.new }
    {
        match self.take_hand(actor, label) {
            None => Reply::Refused(Refusal::BadLabel),
            Some(taken) => {
                let mut row = taken;
                let end = put_under(alloc, self.block, &mut row.hand, fill);
                self.put_hand(actor, row);
                reply_of(end)
            }
        }
    }
}
