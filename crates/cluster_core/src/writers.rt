//! Taking a writer out of the labels, and its open block at its worker.

ghost use Rattle.std.specs.Prelude.{◌≡◌, ◌≤◌, ◌<◌, ◌+◌, ◌-◌, ◌*◌, ◌/◌, ◌%◌, ◌^◌, true, false, pred, slice_get, Some, None, Ok, Err, IfOk, IfErr, IfSome, IfNone, IsSomeAnd, OnOk, OnErr, OnSome, option_map};
ghost use Rattle.fs_model.specs.Spelled.{is_actor};
ghost use Rattle.cluster_core.specs.HandChanges.{AddsHand, KeepsHands};
ghost use Rattle.cluster_core.specs.LabelsView.{hand_in};
ghost use Rattle.cluster_core.specs.Kept.{KeepsRest};
ghost use Rattle.cluster_core.specs.Tiers.{ChangesAt};
ghost use Rattle.cluster_core.specs.Writers.{IsNoWriter, MayPut, TookWriter};

use crate::cluster::Core;
use crate::hand::{Hand, Writer};
use crate::labels::Labelled;
use fs_model::label::Label;
use fs_model::numbers::Actor;
use outside::disk::Disk;
use outside::objects::{ObjectWrite, Objects};

/// The unbroken writer that the hand is, or the hand again.
fn writer_of<R, W: ObjectWrite>(hand: Hand<R, W>) -> Result<Writer<W>, Hand<R, W>>
    ensures writer { IfOk result (λ x. (hand ≡ Hand.Writing x) × (x.broken ≡ false)) }
    ensures other { IfErr result (λ h. (h ≡ hand) × IsNoWriter (Some hand)) }
{
    match hand {
        Hand::Writing(writer) => {
            if writer.broken {
                Err(Hand::Writing(writer))
            } else {
                Ok(writer)
            }
        }
        Hand::Reading(stream) => Err(Hand::Reading(stream)),
    }
}

impl<D: Disk, O: Objects> Core<D, O, O::Reader, O::Writer> {
    /// Takes the unbroken writer under the actor's label out, with the label; `None` exactly where there is none, and
    /// then each label has what it had.
    pub(crate) fn take_writer(
        &mut self,
        actor: Actor,
        label: &Label,
    ) -> Option<(Label, Writer<O::Writer>)>
        requires { is_actor actor ≡ true }
        ensures took { IfSome result (λ t. TookWriter self.old self.new actor label.now t.1) }
        ensures label { IfSome result (λ t. t.0 ≡ label.now) }
        ensures back { IfSome result (λ t. MayPut self.new.hands.items actor t.0) }
        ensures rest { IfNone result (KeepsRest self.old self.new) }
        ensures workers { IfNone result (self.new.workers ≡ self.old.workers) }
        ensures same { IfNone result (ChangesAt self.old.hands.items self.new.hands.items (pred actor) KeepsHands) }
        ensures none { IfNone result (IsSomeAnd (slice_get self.old.hands.items (pred actor)) (λ s. IsNoWriter (hand_in s label.now))) }
    {
        let Labelled { label, hand } = self.take_hand(actor, label)?;
        match writer_of(hand) {
            Ok(writer) => Some((label, writer)),
            Err(hand) => {
                self.put_hand(actor, Labelled { label, hand });
                None
            }
        }
    }
}
