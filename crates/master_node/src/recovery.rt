//! The opening of a master's areas, at the start and anew.

ghost use Rattle.std.specs.Prelude.{◌≡◌, ◌⊎◌, [], true, false, Err, None, IfErr, IfOk, OnErr, OnOk};
ghost use Rattle.std.specs.List.{list_all};
ghost use Rattle.fs_model.specs.Opening.{fresh_names};
ghost use Rattle.fs_model.specs.Spelled.{is_setup};
ghost use Rattle.outside.specs.Fuse.{Fusing};
ghost use Rattle.journal_entry.specs.EntryText.{fits, is_entry};
ghost use Rattle.journal_entry.specs.Meaning.{checkpoint_entries};
ghost use Rattle.journal_disk.specs.Journaling.{BothTell, GoesOn, HasCheckpoint, IsReady, LeavesAreas, area_0, area_1, fused_0, fused_1};
ghost use Rattle.journal_disk.specs.Opening.{IsRecovered};
ghost use Rattle.master_state.specs.Effect.{meaning};
ghost use Rattle.master_node.specs.Mastering.{IsKept, Stands};
ghost use Rattle.master_node.specs.Recovery.{IsClosed, IsFreshOr, IsOver, IsTooLong, first_standing, is_served, stop_of};
ghost use Rattle.outside.specs.Causes.{Rose};

use crate::master::Master;
use fs_model::setup::Setup;
use fs_model::stop::Stop;
use journal_disk::{AppendFault, Journal, RecoverFault};
use journal_entry::entry::Entries;
use master_state::names::Names;
use outside::disk::Disk;
use outside::fused::Fused;
use std::alloc::{AllocError, Global};

/// Why no master is up, and both areas back.
#[derive(Debug, Drop)]
pub struct MasterBroken<D: Disk> {
    /// Why.
    pub why: Stop,
    /// Area 0.
    pub a: Fused<D>,
    /// Area 1.
    pub b: Fused<D>,
}

// Why a journal isn't open, as the end of an opening.
fn stop_of(fault: RecoverFault) -> Stop
    ensures { result ≡ stop_of fault }
{
    match fault {
        RecoverFault::Damaged { area, place } => Stop::Damaged { area, place },
        RecoverFault::Failed => Stop::JournalFault,
        RecoverFault::Memory => Stop::Memory,
    }
}

// Whether `/` is mounted, in a store that is configured.
fn is_served(setup: &Setup, names: &Names) -> bool
    ensures { result ≡ is_served setup.now names.now.names }
{
    match names.mount() {
        None => false,
        Some(mount) => 1 <= mount.store.0 && mount.store.0 <= setup.stores,
    }
}

// The names over a fresh journal, and the entries of its first checkpoint.
fn first_names(alloc: Global, setup: &Setup) -> Result<(Names, Entries), AllocError>
    requires { is_setup setup.now ≡ true }

    ensures names { IfOk result (λ x. x.0.names ≡ fresh_names setup.now) }
    ensures entries { IfOk result (λ x. x.1 ≡ checkpoint_entries (fresh_names setup.now)) }
    ensures texts { IfOk result (λ x. list_all fits x.1 ≡ true) }
    ensures again { IfOk result (λ x. meaning x.1 ≡ fresh_names setup.now) }
{
    let names = Names::fresh(alloc, setup)?;
    let entries = names.entries(alloc)?;
    Ok((names, entries))
}

// Makes the first checkpoint, over a journal of which no area is current.
fn begin<D: Disk>(alloc: Global, setup: &Setup, journal: &mut Journal<D>) -> Result<Names, Stop>
    requires setup { is_setup setup.now ≡ true }
    requires sound { journal.old.failed ≡ false }
    requires fresh { journal.old.fresh ≡ true }
    requires first { journal.old.generation ≡ 0 }
    requires limited { journal.old.limit ≡ setup.now.area }
    requires ready { IsReady D.Disk journal.old [] }
    requires unfused { journal.old.here.fuse ≡ None }

    ensures names { IfOk result (λ n. n.names ≡ fresh_names setup.now) }
    ensures begun { OnOk result (HasCheckpoint journal.old journal.new (checkpoint_entries (fresh_names setup.now))) }
    ensures ready { OnOk result (IsReady D.Disk journal.new (checkpoint_entries (fresh_names setup.now))) }
    ensures again { OnOk result (meaning (checkpoint_entries (fresh_names setup.now)) ≡ fresh_names setup.now) }
    ensures short { OnOk result (IsTooLong setup.now → ⊥) }
    ensures any_moment { BothTell D.Disk journal.old → LeavesAreas D.Disk journal.old journal.new (IsFreshOr (first_standing setup.now)) }
    ensures goes_on { GoesOn D.Disk journal.old journal.new }
    ensures long { result ≡ Err Stop.Setup → IsTooLong setup.now }
    ensures failed { result ≡ Err Stop.JournalFault → Rose (D.faults (area_0 journal.old)) (D.faults (area_0 journal.new)) ⊎ Rose (D.faults (area_1 journal.old)) (D.faults (area_1 journal.new)) }
    ensures ends { IfErr result (λ why. (why ≡ Stop.Setup) ⊎ (why ≡ Stop.JournalFault) ⊎ (why ≡ Stop.Memory)) }
{
    let Ok((names, entries)) = first_names(alloc, setup) else {
        return Err(Stop::Memory);
    };
    match journal.checkpoint(alloc, &entries) {
        Ok(()) => Ok(names),
        Err(AppendFault::Full) => Err(Stop::Setup),
        Err(AppendFault::Failed) => Err(Stop::JournalFault),
        Err(AppendFault::Memory) => Err(Stop::Memory),
    }
}

// The names that the entries of an area stand for.
fn read(alloc: Global, setup: &Setup, entries: &Entries) -> Result<Names, Stop>
    requires { list_all fits entries.now ≡ true }

    ensures names { IfOk result (λ n. n.names ≡ meaning entries.now) }
    ensures served { OnOk result (is_served setup.now (meaning entries.now) ≡ true) }
    ensures unserved { result ≡ Err Stop.Setup → is_served setup.now (meaning entries.now) ≡ false }
    ensures ends { IfErr result (λ why. (why ≡ Stop.Setup) ⊎ (why ≡ Stop.Memory)) }
{
    let Ok(names) = Names::read(alloc, entries.as_slice()) else {
        return Err(Stop::Memory);
    };
    if !is_served(setup, &names) {
        return Err(Stop::Setup);
    }
    Ok(names)
}

// The names over a journal that was opened, and then stood for these entries.
fn names_over<D: Disk>(
    alloc: Global,
    setup: &Setup,
    journal: &mut Journal<D>,
    entries: &Entries,
) -> Result<Names, Stop>
    requires setup { is_setup setup.now ≡ true }
    requires sound { journal.old.failed ≡ false }
    requires first { journal.old.fresh ≡ true → journal.old.generation ≡ 0 }
    requires limited { journal.old.limit ≡ setup.now.area }
    requires ready { IsReady D.Disk journal.old entries.now }
    requires texts { list_all is_entry entries.now ≡ true }
    requires unfused { journal.old.here.fuse ≡ None }

    ensures over { IfOk result (λ n. (a b : Fusing D) → IsRecovered D.Disk a b setup.now.area journal.old entries.now → IsOver D.Disk setup.now a b (record { journal = journal.new; kept = n })) }
    ensures stands { IfOk result (λ n. Stands D.Disk (record { journal = journal.new; kept = n })) }
    ensures kept { IfOk result (λ n. IsKept D.Disk (record { journal = journal.new; kept = n })) }
    ensures closed { IfErr result (λ why. (a b : Fusing D) → IsRecovered D.Disk a b setup.now.area journal.old entries.now → IsClosed D.Disk setup.now a b (fused_0 journal.new) (fused_1 journal.new) why) }
    ensures limit { journal.new.limit ≡ journal.old.limit }
    ensures unfused { journal.new.here.fuse ≡ None }
{
    if journal.is_fresh() {
        match begin(alloc, setup, journal) {
            Ok(names) => Ok(names),
            Err(why) => Err(why),
        }
    } else {
        match read(alloc, setup, entries) {
            Ok(names) => Ok(names),
            Err(why) => Err(why),
        }
    }
}

impl<D: Disk> Master<D> {
    /// Opens both areas of a journal, which a crash may have left, and reads the names that they keep.
    ///
    /// Where neither area is open, the names are `/` alone, mounted in store 1 under the root names, and their first
    /// checkpoint is made. The areas have no fuse afterwards.
    ///
    /// An error gives both areas back. `Damaged` exactly where the current area is no area's text. `Setup` exactly
    /// where `/` isn't mounted in what an open area keeps, or a mount names a store that isn't configured, or where
    /// the first checkpoint is longer than an area may be. `JournalFault` only where the own count of an area rose
    /// in this call; `Memory` where there was no memory for it; no other comes. At every moment, each pair of images
    /// of both areas is one that a crash before the call could leave, or, over a fresh journal, it is still fresh or
    /// stands for the first checkpoint.
    pub fn recover(
        alloc: Global,
        setup: &Setup,
        a: Fused<D>,
        b: Fused<D>,
    ) -> Result<Master<D>, MasterBroken<D>>
        requires { is_setup setup.now ≡ true }

        ensures over { IfOk result (λ m. IsOver D.Disk setup.now a b m) }
        ensures kept { IfOk result (λ m. IsKept D.Disk m) }
        ensures closed { IfErr result (λ e. IsClosed D.Disk setup.now a b e.a e.b e.why) }
    {
        let (mut journal, entries) = match Journal::recover(alloc, a, b, setup.area) {
            Ok(recovered) => (recovered.journal, recovered.entries),
            Err(broken) => {
                return Err(MasterBroken {
                    why: stop_of(broken.why),
                    a: broken.a,
                    b: broken.b,
                });
            }
        };
        match names_over(alloc, setup, &mut journal, &entries) {
            Ok(names) => Ok(Master { journal, names }),
            Err(why) => {
                let (a, b) = journal.into_areas();
                Err(MasterBroken { why, a, b })
            }
        }
    }

    /// Opens its areas anew, as `recover` does, and takes the names that they keep for its own.
    ///
    /// After an error it is stopped, and has the names that it had.
    pub fn restart(&mut self, alloc: Global, setup: &Setup) -> Result<(), Stop>
        requires setup { is_setup setup.now ≡ true }
        requires limited { self.old.journal.limit ≡ setup.now.area }

        ensures over { OnOk result (IsOver D.Disk setup.now (fused_0 self.old.journal) (fused_1 self.old.journal) self.new) }
        ensures kept { OnOk result (IsKept D.Disk self.new) }
        ensures closed { IfErr result (λ why. IsClosed D.Disk setup.now (fused_0 self.old.journal) (fused_1 self.old.journal) (fused_0 self.new.journal) (fused_1 self.new.journal) why) }
        ensures stopped { OnErr result (self.new.journal.failed ≡ true) }
        ensures unfused { self.new.journal.here.fuse ≡ None }
        ensures names { OnErr result (self.new.kept ≡ self.old.kept) }
        ensures limit { self.new.journal.limit ≡ self.old.journal.limit }
    {
        let entries = match self.journal.reopen(alloc) {
            Ok(entries) => entries,
            Err(fault) => return Err(stop_of(fault)),
        };
        match names_over(alloc, setup, &mut self.journal, &entries) {
            Ok(names) => {
                self.names = names;
                Ok(())
            }
            Err(why) => {
                self.journal.stop();
                Err(why)
            }
        }
    }

    /// Area 0 and area 1.
    pub fn into_areas(self) -> (Fused<D>, Fused<D>)
        ensures first { result.0 ≡ fused_0 self.journal }
        ensures second { result.1 ≡ fused_1 self.journal }
    {
        self.journal.into_areas()
    }
}
