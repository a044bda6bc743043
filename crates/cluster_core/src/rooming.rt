//! Room for the next block of a writer.

ghost use Rattle.std.specs.Prelude.{◌≡◌, ◌<◌, ◌^◌, ◌&&◌, true, nat_le, pred, length, Some, None, Option, IfNone, option_map};
ghost use Rattle.fs_model.specs.declared.event.Event.{Event};
ghost use Rattle.fs_model.specs.declared.reply.Reply.{Reply};
ghost use Rattle.fs_model.specs.Spelled.{is_actor};
ghost use Rattle.fs_model.specs.Lookups.{at_number};
ghost use Rattle.fs_model.specs.Words.{block_count};
ghost use Rattle.file_writer.specs.Writing.{wants_room};
ghost use Rattle.cluster_core.specs.Causes.{IsCaused, OnlyTier, TierCounted};
ghost use Rattle.cluster_core.specs.declared.hand.Hand.{Hand};
ghost use Rattle.cluster_core.specs.Goes.{Steps};
ghost use Rattle.cluster_core.specs.HandChanges.{AddsHand};
ghost use Rattle.cluster_core.specs.Kept.{KeepsRest};
ghost use Rattle.cluster_core.specs.Media.{MediaStays};
ghost use Rattle.cluster_core.specs.Steady.{IsHandSteady, IsSteady};
ghost use Rattle.cluster_core.specs.Tiers.{ChangesAt};
ghost use Rattle.cluster_core.specs.Writers.{MayPut, StepsFrom, lacks_room, next_of, room_test};

use crate::cluster::Core;
use crate::hand::{Hand, Writer};
use crate::labels::Labelled;
use fs_model::label::Label;
use fs_model::numbers::Actor;
use fs_model::reply::{Refusal, Reply, Which};
use outside::disk::Disk;
use outside::objects::Objects;
use outside::world::Fail;
use std::alloc::Global;

/// The most blocks that a file may have.
const BLOCKS: u64 = 65_536;

/// No object gets this number or one above it.
const NUMBERS: u64 = 1 << 63;

/// How many blocks a file of so many bytes has.
fn blocks_of(len: u64, block: u32) -> u64
    requires { 0 < block }
    ensures { result ≡ block_count len block }
{
    len.div_ceil(u64::from(block))
}

/// Whether a file of so many bytes has all blocks that it may have.
fn is_long(len: u64, block: u32) -> bool
    requires { 0 < block }
    ensures { result ≡ nat_le 65536 (block_count len block) }
{
    blocks_of(len, block) >= BLOCKS
}

impl<D: Disk, O: Objects> Core<D, O, O::Reader, O::Writer> {
    /// Whether a new block is one too many.
    fn is_past_blocks(&self, writer: &Writer<O::Writer>) -> bool
        ensures { result ≡ (wants_room writer.now.bytes && nat_le 65536 (block_count writer.now.bytes.len self.now.block)) }
    {
        if !writer.bytes.needs_room() {
            return false;
        }
        is_long(writer.bytes.len(), self.block)
    }

    /// Whether no number is left for a new block's object.
    fn is_past_numbers(&self, writer: &Writer<O::Writer>) -> bool
        ensures { result ≡ (wants_room writer.now.bytes && nat_le (2 ^ 63) (next_of (at_number self.now.workers.items writer.now.worker))) }
    {
        if !writer.bytes.needs_room() {
            return false;
        }
        self.next_of(writer.worker) >= NUMBERS
    }

    /// Whether no tier has room for a new block.
    fn is_past_room(&self, writer: &Writer<O::Writer>) -> bool
        ensures { result ≡ (wants_room writer.now.bytes && lacks_room writer.now.bytes.bs (at_number self.now.workers.items writer.now.worker)) }
    {
        if !writer.bytes.needs_room() {
            return false;
        }
        self.lacks_room(writer.worker, u64::from(writer.bytes.block_size()))
    }

    /// Why a writer gets no room, if it gets none.
    fn room_refusal(&self, writer: &Writer<O::Writer>) -> Option<Refusal>
        ensures refused { option_map Reply.Refused result ≡ room_test self.now.master self.now.workers.items self.now.block writer.now }
        ensures some { IfNone result (0 < writer.now.worker) }
        ensures there { IfNone result (pred writer.now.worker < length self.now.workers.items) }
    {
        if self.master.is_stopped() {
            return Some(Refusal::Stopped);
        }
        if self.master.names().file(writer.file).is_none() {
            return Some(Refusal::NotFound);
        }
        if self.is_past_blocks(writer) {
            return Some(Refusal::Limit(Which::Blocks));
        }
        if self.is_past_numbers(writer) {
            return Some(Refusal::Limit(Which::Ids));
        }
        if !self.runs_since(writer.worker, writer.started) {
            return Some(Refusal::NoWorker(writer.worker));
        }
        if self.is_past_room(writer) {
            return Some(Refusal::NoRoom(writer.worker));
        }
        None
    }

    /// Puts a writer back under its label.
    pub(crate) fn put_writer(
        &mut self,
        actor: Actor,
        label: Label,
        writer: Writer<O::Writer>,
        reply: Reply,
    ) -> Reply
        requires actor { is_actor actor ≡ true }
        requires back { MayPut self.old.hands.items actor label }
        ensures rest { KeepsRest self.old self.new }
        ensures workers { self.new.workers ≡ self.old.workers }
        ensures put { ChangesAt self.old.hands.items self.new.hands.items (pred actor) (AddsHand label (Hand.Writing writer)) }
        ensures reply { result ≡ reply }
    {
        self.put_hand(
            actor,
            Labelled {
                label,
                hand: Hand::Writing(writer),
            },
        );
        reply
    }

    /// Room for a writer that was taken out of its label.
    fn room_for(
        &mut self,
        alloc: Global,
        actor: Actor,
        label: Label,
        mut writer: Writer<O::Writer>,
    ) -> Reply
        requires actor { is_actor actor ≡ true }
        requires back { MayPut self.old.hands.items actor label }
        ensures steps { StepsFrom D.Disk O.Objects O.Reader.ObjectRead O.Writer.ObjectWrite self.old self.new actor label writer (Event.Room label) result }
        ensures media { MediaStays D.Disk O.Objects self.old self.new }
        ensures kept { self.new.master ≡ self.old.master }
        ensures cause { OnlyTier (TierCounted O.Objects self.old self.new) result }
        ensures steady { IsSteady D.Disk O.Objects O.Reader.ObjectRead O.Writer.ObjectWrite self.old → IsHandSteady O.Reader.ObjectRead O.Writer.ObjectWrite (Hand.Writing writer) → IsSteady D.Disk O.Objects O.Reader.ObjectRead O.Writer.ObjectWrite self.new }
    {
        if let Some(refusal) = self.room_refusal(&writer) {
            return self.put_writer(actor, label, writer, Reply::Refused(refusal));
        }
        if !writer.bytes.needs_room() {
            return self.put_writer(actor, label, writer, Reply::Done);
        }
        let worker = writer.worker;
        match self.commit_block(alloc, &mut writer) {
            Ok(()) => {}
            Err(Fail::Memory) => {
                return self.put_writer(actor, label, writer, Reply::Refused(Refusal::Memory));
            }
            Err(Fail::Failed) => {
                let fault = Reply::Refused(Refusal::TierFault(worker));
                return self.put_writer(actor, label, writer, fault);
            }
        }
        match self.open_block(&mut writer) {
            Ok(true) => self.put_writer(actor, label, writer, Reply::Done),
            Ok(false) => {
                let refused = Reply::Refused(Refusal::NoRoom(worker));
                self.put_writer(actor, label, writer, refused)
            }
            Err(Fail::Memory) => {
                self.put_writer(actor, label, writer, Reply::Refused(Refusal::Memory))
            }
            Err(Fail::Failed) => {
                writer.broken = true;
                let fault = Reply::Refused(Refusal::TierFault(worker));
                self.put_writer(actor, label, writer, fault)
            }
        }
    }

    /// `room`: opens the next block of a writer where one is wanted, and commits the full one before.
    pub(crate) fn room(&mut self, alloc: Global, actor: Actor, label: &Label) -> Reply
        requires { is_actor actor ≡ true }
        ensures steps { Steps D.Disk O.Objects O.Reader.ObjectRead O.Writer.ObjectWrite self.old self.new actor (Event.Room label.now) result }
        ensures media { MediaStays D.Disk O.Objects self.old self.new }
        ensures kept { self.new.master ≡ self.old.master }
        ensures cause { IsCaused D.Disk O.Objects O.Reader.ObjectRead O.Writer.ObjectWrite self.old self.new actor (Event.Room label.now) result }
        ensures steady { IsSteady D.Disk O.Objects O.Reader.ObjectRead O.Writer.ObjectWrite self.old → IsSteady D.Disk O.Objects O.Reader.ObjectRead O.Writer.ObjectWrite self.new }
    {
        match self.take_writer(actor, label) {
            None => Reply::Refused(Refusal::BadLabel),
            Some((label, writer)) => self.room_for(alloc, actor, label, writer),
        }
    }
}
