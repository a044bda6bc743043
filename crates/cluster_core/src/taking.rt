//! Taking what an actor has under a label out of the core, and putting it back.

ghost use Rattle.std.specs.Prelude.{◌≡◌, true, pred, slice_get, IfSome, IfNone, OnOk, IsSomeAnd, None};
ghost use Rattle.fs_model.specs.Spelled.{is_actor};
ghost use Rattle.cluster_core.specs.LabelsView.{HasRoom, hand_in};
ghost use Rattle.cluster_core.specs.HandChanges.{AddsHand, EndsHand, KeepsHands};
ghost use Rattle.cluster_core.specs.Tiers.{ChangesAt};
ghost use Rattle.cluster_core.specs.Kept.{KeepsRest};
ghost use Rattle.cluster_core.specs.Openings.{count_here, has_here};

use crate::cluster::Core;
use crate::hand::Hand;
use crate::labels::Labelled;
use fs_model::label::Label;
use fs_model::numbers::Actor;
use outside::disk::Disk;
use outside::objects::Objects;
use std::alloc::AllocError;

impl<D: Disk, O: Objects> Core<D, O, O::Reader, O::Writer> {
    /// Whether the actor has the label.
    pub(crate) fn has_label(&self, actor: Actor, label: &Label) -> bool
        requires { is_actor actor ≡ true }
        ensures { result ≡ has_here self.now.hands.items actor label.now }
    {
        self.hands[actor.0 as usize - 1].contains(label)
    }

    /// How many labels the actor has.
    pub(crate) fn label_count(&self, actor: Actor) -> usize
        requires { is_actor actor ≡ true }
        ensures { result ≡ count_here self.now.hands.items actor }
    {
        self.hands[actor.0 as usize - 1].len()
    }

    /// Takes what the actor has under the label out, with the label; `None` exactly where it has no such label.
    pub(crate) fn take_hand(
        &mut self,
        actor: Actor,
        label: &Label,
    ) -> Option<Labelled<Hand<O::Reader, O::Writer>>>
        requires { is_actor actor ≡ true }
        ensures rest { KeepsRest self.old self.new }
        ensures workers { self.new.workers ≡ self.old.workers }
        ensures taken { IfSome result (λ row. ChangesAt self.old.hands.items self.new.hands.items (pred actor) (EndsHand label.now row.hand)) }
        ensures label { IfSome result (λ row. row.label ≡ label.now) }
        ensures back { IfSome result (λ row. IsSomeAnd (slice_get self.new.hands.items (pred actor)) (λ s. (hand_in s row.label ≡ None) × HasRoom s)) }
        ensures none { IfNone result (IsSomeAnd (slice_get self.old.hands.items (pred actor)) (λ s. hand_in s label.now ≡ None)) }
        ensures same { IfNone result (ChangesAt self.old.hands.items self.new.hands.items (pred actor) KeepsHands) }
    {
        self.hands[actor.0 as usize - 1].take(label)
    }

    /// Puts a row back that `take_hand` gave.
    pub(crate) fn put_hand(&mut self, actor: Actor, row: Labelled<Hand<O::Reader, O::Writer>>)
        requires actor { is_actor actor ≡ true }
        requires back { IsSomeAnd (slice_get self.old.hands.items (pred actor)) (λ s. (hand_in s row.label ≡ None) × HasRoom s) }
        ensures rest { KeepsRest self.old self.new }
        ensures workers { self.new.workers ≡ self.old.workers }
        ensures put { ChangesAt self.old.hands.items self.new.hands.items (pred actor) (AddsHand row.label row.hand) }
    {
        self.hands[actor.0 as usize - 1].put(row);
    }

    /// Gives the actor a label that it doesn't have, where there is room for it.
    pub(crate) fn add_hand(&mut self, actor: Actor, label: Label, hand: Hand<O::Reader, O::Writer>)
        requires actor { is_actor actor ≡ true }
        requires room { IsSomeAnd (slice_get self.old.hands.items (pred actor)) (λ s. (hand_in s label ≡ None) × HasRoom s) }
        ensures rest { KeepsRest self.old self.new }
        ensures workers { self.new.workers ≡ self.old.workers }
        ensures put { ChangesAt self.old.hands.items self.new.hands.items (pred actor) (AddsHand label hand) }
    {
        self.put_hand(actor, Labelled { label, hand });
    }

    /// Makes room for one label more of the actor. An `Err` is want of memory. Either way each label has what it had.
    pub(crate) fn reserve_hand(&mut self, actor: Actor) -> Result<(), AllocError>
        requires { is_actor actor ≡ true }
        ensures rest { KeepsRest self.old self.new }
        ensures workers { self.new.workers ≡ self.old.workers }
        ensures hands { ChangesAt self.old.hands.items self.new.hands.items (pred actor) KeepsHands }
        ensures room { OnOk result (IsSomeAnd (slice_get self.new.hands.items (pred actor)) HasRoom) }
    {
        self.hands[actor.0 as usize - 1].reserve()
    }
}
