//! Names that a journal keeps: each change is appended before it is applied.

ghost use Rattle.std.specs.Prelude.{◌≡◌, ◌+◌, ◌<◌, ◌≤◌, ◌^◌, List, length, nat_lt, true, Err, IsErrOf, OnErr, OnOk};
ghost use Rattle.outside.specs.Fuse.{IsBelow, burnt};
ghost use Rattle.journal_entry.specs.EntryText.{entry_text, fits};
ghost use Rattle.journal_disk.specs.Journaling.{BothTell, GoesOn, HadCause, HasAppended, HasFailed, IsPrepared, LeavesAreas, StaysAs};
ghost use Rattle.journal_disk.specs.declared.fault.AppendFault.TheVariants.{Failed, Full, Memory};
ghost use Rattle.master_state.specs.Effect.{taken};
ghost use Rattle.master_state.specs.View.{Need, need_of};
ghost use Rattle.master_node.specs.Mastering.{IsKept, IsUp, LeavesStanding, StandsFor, names_of, standing_of, entered};

use journal_disk::{AppendFault, Journal};
use journal_entry::entry::Entry;
use master_state::names::Names;
use outside::disk::Disk;
use std::marker::Model;

/// The names, and the journal that they survive in.
///
/// While it is up, the journal stands for entries that mean its names. From the first call on that an
/// area failed, it is stopped: what was to be changed is in doubt until the areas are opened again.
#[derive(Debug, Drop)]
pub struct Master<D: Disk> {
    pub(crate) journal: Journal<D>,
    pub(crate) names: Names,
}

impl<D: Disk> Model for Master<D> {
    ghost use Rattle.master_node.specs.Mastering.{Mastering, Stands};

    ghost Value = { Mastering D };

    ghost view = { λ m. record { journal = m.journal; kept = m.names } };

    ghost invariant = { λ m. Stands D.Disk (record { journal = m.journal; kept = m.names }) };
}

impl<D: Disk> Master<D> {
    /// Whether it is stopped: a call of an area has failed.
    pub fn is_stopped(&self) -> bool
        ensures { result ≡ self.now.journal.failed }
    {
        self.journal.has_failed()
    }

    /// The names.
    pub fn names(&self) -> &Names
        ensures { result.now ≡ self.now.kept }
    {
        &self.names
    }

    /// The most bytes of an area.
    pub fn limit(&self) -> u64
        ensures { result ≡ self.now.journal.limit }
    {
        self.journal.limit()
    }

    /// Whether an entry whose text has so many bytes finds no room in the journal.
    pub fn lacks_room(&self, len: u64) -> bool
        requires { len ≤ 2 ^ 32 }
        ensures { result ≡ nat_lt self.now.journal.limit (self.now.journal.gate + 2 + len) }
    {
        self.journal.lacks_room(len)
    }

    /// Sets the fuse of both areas to so many calls together, or clears it.
    pub fn set_fuse(&mut self, calls: Option<u64>)
        ensures journal { self.new.journal ≡ record self.old.journal { here = record self.old.journal.here { fuse = calls }; there = record self.old.journal.there { fuse = calls } } }
        ensures kept { self.new.kept ≡ self.old.kept }
    {
        self.journal.set_fuse(calls);
    }

    /// Makes sure that `go_on` with this entry takes no memory.
    ///
    /// `Full` exactly where an append is, and `Memory` where there was no memory for it. No area changes.
    pub fn prepare(&mut self, entry: &Entry) -> Result<(), AppendFault>
        requires fits { fits entry.now ≡ true }
        requires up { IsUp self.old }

        ensures ready { OnOk result ((self.new.kept.ready ≡ need_of entry.now) × IsPrepared self.new.journal entry.now) }
        ensures dropped { OnErr result (self.new.kept.ready ≡ Need.Nothing) }
        ensures within { OnOk result (self.old.journal.gate + 2 + length (entry_text entry.now) ≤ self.old.journal.limit) }
        ensures full { IsErrOf result Full → self.old.journal.limit < self.old.journal.gate + 2 + length (entry_text entry.now) }
        ensures failed { IsErrOf result Failed → ⊥ }
        ensures stays { StaysAs D.Disk self.old.journal self.new.journal }
        ensures any_moment { BothTell D.Disk self.old.journal → LeavesAreas D.Disk self.old.journal self.new.journal (StandsFor (standing_of self.old)) }
        ensures names { names_of self.new ≡ names_of self.old }
    {
        if self.names.reserve_for(entry).is_err() {
            self.names.drop_for();
            return Err(AppendFault::Memory);
        }
        let done = self.journal.prepare(entry);
        if done.is_err() {
            self.names.drop_for();
        }
        done
    }

    /// Gives back what was prepared; no memory.
    pub fn unprepare(&mut self)
        ensures journal { self.new.journal ≡ self.old.journal }
        ensures names { names_of self.new ≡ names_of self.old }
    {
        self.names.drop_for();
    }

    /// Journals an entry whose need is ready, and then does what it stands for, in four calls of an area.
    ///
    /// At every moment, each pair of images of both areas stands for the names so far, or for those with
    /// the change; after `Ok` for those with it. After an error the names are as they were: `Full` and
    /// `Memory` change nothing, and after `Failed` the change is in doubt and the master is stopped.
    pub fn go_on(&mut self, entry: &Entry) -> Result<(), AppendFault>
        requires fits { fits entry.now ≡ true }
        requires up { IsUp self.old }
        requires ready { self.old.kept.ready ≡ need_of entry.now }

        ensures applied { OnOk result (names_of self.new ≡ taken entry.now (names_of self.old)) }
        ensures moved { OnOk result (HasAppended self.old.journal self.new.journal entry.now) }
        ensures kept { OnErr result (names_of self.new ≡ names_of self.old) }
        ensures ready { self.new.kept.ready ≡ Need.Nothing }
        ensures any_moment { BothTell D.Disk self.old.journal → LeavesStanding D.Disk self.old self.new (entered entry.now (standing_of self.old)) }
        ensures later { OnOk result (IsKept D.Disk self.new) }
        ensures goes_on { GoesOn D.Disk self.old.journal self.new.journal }
        ensures burnt { OnOk result (self.new.journal.here.fuse ≡ burnt 4 self.old.journal.here.fuse) }
        ensures enough { OnOk result (IsBelow self.old.journal.here.fuse 4 → ⊥) }
        ensures failed { IsErrOf result Failed → HadCause 4 D.Disk self.old.journal self.new.journal × HasFailed self.old.journal self.new.journal }
        ensures full { IsErrOf result Full → self.old.journal.limit < self.old.journal.gate + 2 + length (entry_text entry.now) }
        ensures unless { self.old.journal.limit < self.old.journal.gate + 2 + length (entry_text entry.now) → result ≡ Err Full }
        ensures full_stays { IsErrOf result Full → StaysAs D.Disk self.old.journal self.new.journal }
        ensures memory_stays { IsErrOf result Memory → StaysAs D.Disk self.old.journal self.new.journal }
        ensures spare { IsPrepared self.old.journal entry.now → IsErrOf result Memory → ⊥ }
    {
        match self.journal.append(entry) {
            Ok(()) => {
                self.names.apply(entry);
                Ok(())
            }
            Err(fault) => {
                self.names.drop_for();
                Err(fault)
            }
        }
    }
    /// Makes ready what an entry needs, journals it and then does what it stands for, in four calls of an area.
    ///
    /// It is `prepare` and then `go_on`: all that takes memory comes before the first of these calls. At every
    /// moment, each pair of images of both areas stands for the names so far, or for those with the change; after
    /// `Ok`, and from then on, for those with it. After an error the names are as they were. `Full` exactly where
    /// the area would be longer than its limit, and `Memory` where there was no memory for it: neither changes an
    /// area. `Failed` only where the own count of an area rose in this call or the fuse was smaller than four calls:
    /// the change is then in doubt and the master is stopped.
    pub fn names_event(&mut self, entry: &Entry) -> Result<(), AppendFault>
        requires fits { fits entry.now ≡ true }
        requires up { IsUp self.old }

        ensures applied { OnOk result (names_of self.new ≡ taken entry.now (names_of self.old)) }
        ensures moved { OnOk result (HasAppended self.old.journal self.new.journal entry.now) }
        ensures kept { OnErr result (names_of self.new ≡ names_of self.old) }
        ensures any_moment { BothTell D.Disk self.old.journal → LeavesStanding D.Disk self.old self.new (entered entry.now (standing_of self.old)) }
        ensures later { OnOk result (IsKept D.Disk self.new) }
        ensures goes_on { GoesOn D.Disk self.old.journal self.new.journal }
        ensures burnt { OnOk result (self.new.journal.here.fuse ≡ burnt 4 self.old.journal.here.fuse) }
        ensures enough { OnOk result (IsBelow self.old.journal.here.fuse 4 → ⊥) }
        ensures failed { IsErrOf result Failed → HadCause 4 D.Disk self.old.journal self.new.journal × HasFailed self.old.journal self.new.journal }
        ensures within { OnOk result (self.old.journal.gate + 2 + length (entry_text entry.now) ≤ self.old.journal.limit) }
        ensures full { IsErrOf result Full → self.old.journal.limit < self.old.journal.gate + 2 + length (entry_text entry.now) }
        ensures full_stays { IsErrOf result Full → StaysAs D.Disk self.old.journal self.new.journal }
        ensures memory_stays { IsErrOf result Memory → StaysAs D.Disk self.old.journal self.new.journal }
    {
        self.prepare(entry)?;
        match self.go_on(entry) {
            Ok(()) => Ok(()),
            Err(fault) => Err(fault),
        }
    }
}
