//! What the core does at one of its workers.

ghost use Rattle.std.specs.Prelude.{◌≡◌, ◌<◌, true, false, pred, length};
ghost use Rattle.std.specs.Bool.{OnTrue};
ghost use Rattle.std.specs.Option.{option_copied};
ghost use Rattle.fs_model.specs.Lookups.{at_number};
ghost use Rattle.cluster_core.specs.Here.{configured_here, live_here, runs_here};
ghost use Rattle.cluster_core.specs.Kept.{KeepsRest};
ghost use Rattle.cluster_core.specs.Nodes.{FreesRoom};
ghost use Rattle.cluster_core.specs.Tiers.{ChangesAt};
ghost use Rattle.cluster_core.specs.Writers.{lacks_room, next_of};

use crate::cluster::Core;
use crate::node::Node;
use fs_model::numbers::WorkerNo;
use outside::disk::Disk;
use outside::objects::Objects;
use tier_book::room::RoomNo;

/// The worker with this number, if there is one.
fn node_at<O>(workers: &[Node<O>], worker: WorkerNo) -> Option<&Node<O>>
    ensures { option_copied result ≡ at_number workers.now worker }
{
    if worker.0 == 0 {
        return None;
    }
    workers.get(worker.0 as usize - 1)
}

impl<D: Disk, O: Objects> Core<D, O, O::Reader, O::Writer> {
    /// Whether the number is that of a worker.
    pub(crate) fn is_configured(&self, worker: WorkerNo) -> bool
        ensures { result ≡ configured_here self.now.workers.items worker }
    {
        worker.0 > 0 && worker.0 as usize <= self.workers.len()
    }

    /// Whether the worker is live.
    pub(crate) fn is_live(&self, worker: WorkerNo) -> bool
        ensures { result ≡ live_here self.now.workers.items worker }
    {
        match node_at(&self.workers, worker) {
            None => false,
            Some(node) => node.running,
        }
    }

    /// Whether the worker runs and was started so often.
    pub(crate) fn runs_since(&self, worker: WorkerNo, started: u64) -> bool
        ensures runs { result ≡ runs_here self.now.workers.items worker started }
        ensures there { OnTrue result (pred worker < length self.now.workers.items) }
        ensures some { OnTrue result (0 < worker) }
    {
        match node_at(&self.workers, worker) {
            None => false,
            Some(node) => node.running && node.started == started,
        }
    }

    /// The next object number of a worker; 1 where there is no such worker.
    pub(crate) fn next_of(&self, worker: WorkerNo) -> u64
        ensures { result ≡ next_of (at_number self.now.workers.items worker) }
    {
        match node_at(&self.workers, worker) {
            None => 1,
            Some(node) => node.book.next(),
        }
    }

    /// Whether no tier of the worker has so many bytes free, or there is no such worker.
    pub(crate) fn lacks_room(&self, worker: WorkerNo, len: u64) -> bool
        ensures { result ≡ lacks_room len (at_number self.now.workers.items worker) }
    {
        match node_at(&self.workers, worker) {
            None => true,
            Some(node) => node.book.first_fit(len).is_none(),
        }
    }

    /// Frees a reservation at a worker that wasn't started anew since it was made; else nothing is left of it.
    pub(crate) fn free_room(&mut self, worker: WorkerNo, started: u64, room: RoomNo)
        ensures rest { KeepsRest self.old self.new }
        ensures hands { self.new.hands ≡ self.old.hands }
        ensures freed { runs_here self.old.workers.items worker started ≡ true → ChangesAt self.old.workers.items self.new.workers.items (pred worker) (FreesRoom room) }
        ensures same { runs_here self.old.workers.items worker started ≡ false → self.new.workers ≡ self.old.workers }
    {
        if self.runs_since(worker, started) {
            self.workers[worker.0 as usize - 1].free(room);
        }
    }
}
