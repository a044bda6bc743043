//! A journal whose areas were read: what it stands for, and one entry more.

ghost use Rattle.std.specs.Prelude.{◌≡◌, ℕ, ◌+◌, ◌<◌, ◌≤◌, ◌^◌, ◌++◌, ◌∷◌, [], List, length, nat_lt, true, false, Err, IfNone, IfSome, IsErrOf, IsOk, OnErr, OnOk, vec_len};
ghost use Rattle.std.specs.Vec.{vec_capacity};
ghost use Rattle.outside.specs.Fuse.{IsBelow, burnt};
ghost use Rattle.journal_entry.specs.declared.entry.Entry.{Entry};
ghost use Rattle.journal_entry.specs.EntryText.{entry_text, fits};
ghost use Rattle.journal_disk.specs.Areas.{IsBeforeOrAfter, first_of, second_of};
ghost use Rattle.journal_disk.specs.Journaling.{BothTell, GoesOn, HadCause, HasAppended, HasFailed, IsPrepared, IsReady, LeavesAreas, StaysAs, current_in, with_entry};
ghost use Rattle.journal_disk.specs.declared.fault.AppendFault.TheVariants.{Failed, Full, Memory};

use crate::fault::AppendFault;
use crate::staging::append_text;
use journal_entry::encode::encode;
use journal_entry::entry::Entry;
use outside::disk::Disk;
use outside::fused::Fused;
use std::marker::Model;

/// The entries of a master on two areas of a disk, of which one is current. Both areas share one fuse.
///
/// A contract sees where the journal stands in them, and no entries: a clause speaks of any entries
/// that it stands for (`IsReady`). From the first call on that an area failed, it stands for none, and
/// takes no more.
#[derive(Debug, Drop)]
pub struct Journal<D: Disk> {
    // The current area, and the other one.
    pub(crate) here: Fused<D>,
    pub(crate) there: Fused<D>,
    // Whether the current area is area 1.
    pub(crate) second: bool,
    // Whether either head gate is there and closed.
    pub(crate) here_shut: bool,
    pub(crate) there_shut: bool,
    // Whether no area is current. The other one is then area 0.
    pub(crate) fresh: bool,
    pub(crate) generation: u64,
    // The place of the current area's closed gate.
    pub(crate) gate: u64,
    pub(crate) limit: u64,
    // Up to which place an append takes no memory, 0 where nothing was prepared.
    pub(crate) prepared: u64,
    pub(crate) failed: bool,
    // Room for the text of an entry.
    pub(crate) text: Vec<u8>,
}

impl<D: Disk> Model for Journal<D> {
    ghost use Rattle.std.specs.Prelude.{◌≤◌};
    ghost use Rattle.std.specs.Vec.{vec_capacity};
    ghost use Rattle.journal_disk.specs.Journaling.{Fits, Journaling};

    ghost Value = { Journaling D };

    ghost view = { λ j. record {
      here = j.here;
      there = j.there;
      second = j.second;
      here_shut = j.here_shut;
      there_shut = j.there_shut;
      fresh = j.fresh;
      generation = j.generation;
      gate = j.gate;
      limit = j.limit;
      prepared = j.prepared;
      failed = j.failed;
    } };

    ghost invariant = { λ j. Fits D.Disk (record {
      here = j.here;
      there = j.there;
      second = j.second;
      here_shut = j.here_shut;
      there_shut = j.there_shut;
      fresh = j.fresh;
      generation = j.generation;
      gate = j.gate;
      limit = j.limit;
      prepared = j.prepared;
      failed = j.failed;
    }) × (8256 ≤ vec_capacity j.text) };
}

impl<D: Disk> Journal<D> {
    /// Whether no area is current: nothing was ever acknowledged in these areas.
    pub fn is_fresh(&self) -> bool
        ensures { result ≡ self.now.fresh }
    {
        self.fresh
    }

    /// Whether a call of an area has failed. The journal then takes no more.
    pub fn has_failed(&self) -> bool
        ensures { result ≡ self.now.failed }
    {
        self.failed
    }

    /// The place of the closed gate, in bytes from the front of the current area.
    pub fn gate(&self) -> u64
        ensures { result ≡ self.now.gate }
    {
        self.gate
    }

    /// The generation of the current area; 0 where none is.
    pub fn generation(&self) -> u64
        ensures { result ≡ self.now.generation }
    {
        self.generation
    }

    /// The most bytes of an area.
    pub fn limit(&self) -> u64
        ensures { result ≡ self.now.limit }
    {
        self.limit
    }

    /// Whether an append of an entry whose text has so many bytes would make the current area longer than its limit.
    pub fn lacks_room(&self, len: u64) -> bool
        requires { len ≤ 2 ^ 32 }
        ensures { result ≡ nat_lt self.now.limit (self.now.gate + 2 + len) }
    {
        self.gate + 2 + len > self.limit
    }

    /// How many calls of the areas still pass; `None` where no fuse is set.
    pub fn left(&self) -> Option<u64>
        ensures { result ≡ self.now.here.fuse }
    {
        self.here.left()
    }

    /// Sets the fuse of both areas to so many calls together, or clears it.
    pub fn set_fuse(&mut self, calls: Option<u64>)
        ensures set { self.new ≡ record self.old { here = record self.old.here { fuse = calls }; there = record self.old.there { fuse = calls } } }
        ensures ready { (entries : List Entry) → IsReady D.Disk self.old entries → IsReady D.Disk self.new entries }
    {
        self.here.set_fuse(calls);
        self.there.set_fuse(calls);
    }

    /// Area 0 and area 1.
    pub fn into_areas(self) -> (Fused<D>, Fused<D>)
        ensures first { result.0 ≡ first_of self.second self.here self.there }
        ensures second { result.1 ≡ second_of self.second self.here self.there }
    {
        if self.second {
            (self.there, self.here)
        } else {
            (self.here, self.there)
        }
    }

    // Where the area would end with the entry, if that is within the limit.
    fn room_for(&self, entry: &Entry) -> Option<u64>
        requires fits { fits entry.now ≡ true }

        ensures end { IfSome result (λ end. end ≡ self.now.gate + 2 + length (entry_text entry.now)) }
        ensures within { IfSome result (λ end. end ≤ self.now.limit) }
        ensures full { IfNone result (self.now.limit < self.now.gate + 2 + length (entry_text entry.now)) }
    {
        let end = self.gate + 2 + entry.text_len();
        if end <= self.limit { Some(end) } else { None }
    }

    /// Makes sure that the next `append` of this entry takes no memory, whatever else is called before.
    ///
    /// `Full` and `Memory` as at `append`, and never `Failed`. No area changes, and no call of one is
    /// made.
    pub fn prepare(&mut self, entry: &Entry) -> Result<(), AppendFault>
        requires fits { fits entry.now ≡ true }
        requires current { self.old.fresh ≡ false }

        ensures prepared { OnOk result (IsPrepared self.new entry.now) }
        ensures within { OnOk result (self.old.gate + 2 + length (entry_text entry.now) ≤ self.old.limit) }
        ensures full { IsErrOf result Full → self.old.limit < self.old.gate + 2 + length (entry_text entry.now) }
        ensures unless { self.old.limit < self.old.gate + 2 + length (entry_text entry.now) → result ≡ Err Full }
        ensures failed { IsErrOf result Failed → ⊥ }
        ensures stays { StaysAs D.Disk self.old self.new }
    {
        let Some(end) = self.room_for(entry) else {
            return Err(AppendFault::Full);
        };
        self.reserve_to(end)
    }

    // Reserves an append that ends there.
    fn reserve_to(&mut self, end: u64) -> Result<(), AppendFault>
        requires room { self.old.gate + 2 ≤ end }

        ensures prepared { OnOk result (end ≤ self.new.prepared) }
        ensures memory { OnErr result (IsErrOf result Memory) }
        ensures spare { end ≤ self.old.prepared → IsOk result }
        ensures stays { StaysAs D.Disk self.old self.new }
    {
        if self.prepared < end {
            self.here.reserve(end, end - (self.gate + 1), 4)?;
            self.prepared = end;
        }
        Ok(())
    }

    /// Adds an entry, in four calls of the current area: its text and a closed gate are written behind
    /// the closed gate and synced, and that gate is opened and synced.
    ///
    /// At every moment, each pair of images of both areas stands for the entries so far, with or without
    /// the one in hand; after `Ok` it is with it. `Full` exactly where the area would be longer than the
    /// limit. `Memory` where there was no memory for it, which `prepare` rules out. Either changes
    /// nothing. `Failed` only where the own count of an area rose in this call, or the fuse was smaller
    /// than four calls; the entry is then there or not, and the journal takes no more. The procedure is
    /// this project's own.
    pub fn append(&mut self, entry: &Entry) -> Result<(), AppendFault>
        requires fits { fits entry.now ≡ true }
        requires sound { self.old.failed ≡ false }
        requires current { self.old.fresh ≡ false }

        // The journal stands for one entry more.
        ensures acknowledged { OnOk result ((entries : List Entry) → IsReady D.Disk self.old entries → IsReady D.Disk self.new (entries ++ entry.now ∷ [])) }
        ensures moved { OnOk result (HasAppended self.old self.new entry.now) }
        ensures within { OnOk result (self.old.gate + 2 + length (entry_text entry.now) ≤ self.old.limit) }

        // A crash at any moment of the call leaves the entries so far, or the one more.
        ensures any_moment { (entries : List Entry) → IsReady D.Disk self.old entries → BothTell D.Disk self.old
            → LeavesAreas D.Disk self.old self.new (IsBeforeOrAfter (current_in self.old entries) (with_entry self.old entries entry.now)) }
        ensures goes_on { GoesOn D.Disk self.old self.new }

        // What the fuse lost, and that it was enough.
        ensures burnt { OnOk result (self.new.here.fuse ≡ burnt 4 self.old.here.fuse) }
        ensures enough { OnOk result (IsBelow self.old.here.fuse 4 → ⊥) }

        // The causes of an error, and what stands after it.
        ensures failed { IsErrOf result Failed → HadCause 4 D.Disk self.old self.new × HasFailed self.old self.new }
        ensures full { IsErrOf result Full → self.old.limit < self.old.gate + 2 + length (entry_text entry.now) }
        ensures unless { self.old.limit < self.old.gate + 2 + length (entry_text entry.now) → result ≡ Err Full }
        ensures full_stays { IsErrOf result Full → StaysAs D.Disk self.old self.new }
        ensures memory_stays { IsErrOf result Memory → StaysAs D.Disk self.old self.new }
        ensures spare { IsPrepared self.old entry.now → IsErrOf result Memory → ⊥ }
    {
        let Some(end) = self.room_for(entry) else {
            return Err(AppendFault::Full);
        };
        self.reserve_to(end)?;
        self.text.clear();
        encode(entry, &mut self.text);
        push_gate(&mut self.text);
        let done = append_text(&mut self.here, self.gate, &self.text);
        self.there.set_fuse(self.here.left());
        self.prepared = 0;
        match done {
            Ok(()) => {
                self.gate = end - 1;
                Ok(())
            }
            Err(_) => {
                self.failed = true;
                Err(AppendFault::Failed)
            }
        }
    }
}

// Puts a closed gate behind a text; takes no memory.
fn push_gate(text: &mut Vec<u8>)
    requires { vec_len text.old + 1 ≤ vec_capacity text.old }
    ensures items { text.new.items ≡ text.old.items ++ 0 ∷ [] }
    ensures capacity { vec_capacity text.old ≤ vec_capacity text.new }
{
    match text.push(0) {
        Ok(()) => {}
        Err(_) => unreachable!(),
    }
}
