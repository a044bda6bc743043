//! The end of a label.

ghost use Rattle.std.specs.Prelude.{◌≡◌, ℕ, true, false, pred, Some, None};
ghost use Rattle.fs_model.specs.declared.event.Event.{Event};
ghost use Rattle.fs_model.specs.Spelled.{is_actor};
ghost use Rattle.cluster_core.specs.Causes.{IsCaused};
ghost use Rattle.cluster_core.specs.Goes.{Steps};
ghost use Rattle.cluster_core.specs.Reserved.{room_in};
ghost use Rattle.cluster_core.specs.Here.{runs_here};
ghost use Rattle.cluster_core.specs.Kept.{KeepsRest};
ghost use Rattle.cluster_core.specs.Media.{MediaStays};
ghost use Rattle.cluster_core.specs.Steady.{IsSteady};
ghost use Rattle.cluster_core.specs.Nodes.{FreesRoom};
ghost use Rattle.cluster_core.specs.Tiers.{ChangesAt};

use crate::cluster::Core;
use crate::hand::Hand;
use fs_model::label::Label;
use fs_model::numbers::{Actor, WorkerNo};
use fs_model::reply::{Refusal, Reply};
use outside::disk::Disk;
use outside::objects::{ObjectWrite, Objects};
use tier_book::room::RoomNo;

/// The worker, the number of its starts, and the reservation there that the hand has, if it has one.
fn room_of<R, W: ObjectWrite>(hand: &Hand<R, W>) -> Option<(WorkerNo, u64, RoomNo)>
    ensures { result ≡ room_in hand.now }
{
    match hand {
        Hand::Reading(_) => None,
        Hand::Writing(writer) => match writer.room {
            None => None,
            Some(room) => Some((writer.worker, writer.started, room)),
        },
    }
}

impl<D: Disk, O: Objects> Core<D, O, O::Reader, O::Writer> {
    /// Frees what the hand reserved at a worker that wasn't started anew since.
    fn free_reserved(&mut self, hand: &Hand<O::Reader, O::Writer>)
        ensures rest { KeepsRest self.old self.new }
        ensures hands { self.new.hands ≡ self.old.hands }
        ensures freed { (worker started room : ℕ) → room_in hand.now ≡ Some (worker, started, room) → runs_here self.old.workers.items worker started ≡ true → ChangesAt self.old.workers.items self.new.workers.items (pred worker) (FreesRoom room) }
        ensures stopped { (worker started room : ℕ) → room_in hand.now ≡ Some (worker, started, room) → runs_here self.old.workers.items worker started ≡ false → self.new.workers ≡ self.old.workers }
        ensures none { room_in hand.now ≡ None → self.new.workers ≡ self.old.workers }
    {
        if let Some((worker, started, room)) = room_of(hand) {
            self.free_room(worker, started, room);
        }
    }

    /// `close`: ends a label, and frees what it reserved.
    pub(crate) fn close_label(&mut self, actor: Actor, label: &Label) -> Reply
        requires { is_actor actor ≡ true }
        ensures steps { Steps D.Disk O.Objects O.Reader.ObjectRead O.Writer.ObjectWrite self.old self.new actor (Event.Close label.now) result }
        ensures media { MediaStays D.Disk O.Objects self.old self.new }
        ensures kept { self.new.master ≡ self.old.master }
        ensures cause { IsCaused D.Disk O.Objects O.Reader.ObjectRead O.Writer.ObjectWrite self.old self.new actor (Event.Close label.now) result }
        ensures steady { IsSteady D.Disk O.Objects O.Reader.ObjectRead O.Writer.ObjectWrite self.old → IsSteady D.Disk O.Objects O.Reader.ObjectRead O.Writer.ObjectWrite self.new }
    {
        match self.take_hand(actor, label) {
            None => Reply::Refused(Refusal::BadLabel),
            Some(row) => {
                self.free_reserved(&row.hand);
                Reply::Done
            }
        }
    }
}
