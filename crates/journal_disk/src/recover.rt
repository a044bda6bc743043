//! The opening of two areas that a crash may have left.

ghost use Rattle.std.specs.Prelude.{◌≡◌, ℕ, ◌≤◌, ◌^◌, [], true, false, Some, None, IfErr, IfNone, IfOk, IfSome, IsErrOf, OnErr, OnOk, IsTrue};
ghost use Rattle.std.specs.List.{list_all};
ghost use Rattle.std.specs.Vec.{vec_capacity};
ghost use Rattle.outside.specs.Causes.{Rose};
ghost use Rattle.journal_entry.specs.EntryText.{is_entry};
ghost use Rattle.journal_disk.specs.Areas.{area_number, chosen, first_of, second_of};
ghost use Rattle.journal_disk.specs.Journaling.{IsAtRest, IsReady, fused_0, fused_1};
ghost use Rattle.journal_disk.specs.Opening.{IsBroken, IsHeaded, IsOpened, IsRead, IsRecovered, IsUnread, Opens, OwnRose};
ghost use Rattle.journal_disk.specs.declared.fault.RecoverFault.TheVariants.{Damaged, Failed};

use crate::fault::RecoverFault;
use crate::journal::Journal;
use crate::reading::{Head, read_all, read_area, read_head};
use journal_entry::entry::Entries;
use outside::disk::Disk;
use outside::fused::Fused;
use std::alloc::{AllocError, Global};
use std::mem::swap;

/// A journal, and the entries that it stands for.
#[derive(Debug, Drop)]
pub struct Recovered<D: Disk> {
    /// The journal.
    pub journal: Journal<D>,
    /// The entries of the current area, in order.
    pub entries: Entries,
    /// Whether no area is current. The first call must then be a checkpoint.
    pub fresh: bool,
}

/// Why there is no journal, and both areas back.
#[derive(Debug, Drop)]
pub struct Broken<D: Disk> {
    /// Why.
    pub why: RecoverFault,
    /// Area 0.
    pub a: Fused<D>,
    /// Area 1.
    pub b: Fused<D>,
}

/// Clears the fuse of both areas, and lets all that was written survive a crash: area 0, and then
/// area 1.
fn settle<D: Disk>(a: &mut Fused<D>, b: &mut Fused<D>) -> Result<(), RecoverFault>
    ensures rest_0 { IsTrue (D.tells a.old.disk) → OnOk result (IsAtRest (D.history a.new.disk).now) }
    ensures rest_1 { IsTrue (D.tells b.old.disk) → OnOk result (IsAtRest (D.history b.new.disk).now) }
    ensures areas { Opens D.Disk a.old b.old a.new b.new }
    ensures failed { IsErrOf result Failed → OwnRose D.Disk a.old b.old a.new b.new }
    ensures whole { (area place : ℕ) → IsErrOf result (Damaged area place) → ⊥ }
{
    a.set_fuse(None);
    b.set_fuse(None);
    a.reserve(0, 0, 1)?;
    b.reserve(0, 0, 1)?;
    a.sync()?;
    b.sync()?;
    Ok(())
}

// Settles both areas, and reads their heads.
fn read_heads<D: Disk>(a: &mut Fused<D>, b: &mut Fused<D>) -> Result<(Head, Head), RecoverFault>
    ensures first { IfOk result (λ heads. IsHeaded D.Disk a.new heads.0.generation heads.0.shut) }
    ensures second { IfOk result (λ heads. IsHeaded D.Disk b.new heads.1.generation heads.1.shut) }
    ensures areas { Opens D.Disk a.old b.old a.new b.new }
    ensures failed { IsErrOf result Failed → OwnRose D.Disk a.old b.old a.new b.new }
    ensures whole { (area place : ℕ) → IsErrOf result (Damaged area place) → ⊥ }
{
    settle(a, b)?;
    let first = read_head(a)?;
    let second = read_head(b)?;
    Ok((first, second))
}

// Whether area 1 is current, of the generations of those that are open, and the generation.
fn current(first: Option<u64>, second: Option<u64>) -> Option<(bool, u64)>
    ensures none { IfNone result ((first ≡ None) × (second ≡ None)) }
    ensures here { IfSome result (λ x. first_of x.0 first second ≡ Some x.1) }
    ensures chosen { IfSome result (λ x. chosen x.0 (Some x.1) (second_of x.0 first second) ≡ Some x.0) }
{
    match (first, second) {
        (None, None) => None,
        (Some(a), None) => Some((false, a)),
        (None, Some(b)) => Some((true, b)),
        (Some(a), Some(b)) => Some(if a < b { (true, b) } else { (false, a) }),
    }
}

// The number of an area.
fn number(second: bool) -> u32
    ensures { result ≡ area_number second }
{
    if second { 1 } else { 0 }
}

// Room for the text of an entry.
fn text_room(alloc: Global) -> Result<Vec<u8>, AllocError>
    ensures { IfOk result (λ text. 8256 ≤ vec_capacity text) }
{
    let mut text = Vec::new(alloc);
    text.reserve(8256)?;
    Ok(text)
}

// The area with no fuse.
fn unfused<D: Disk>(area: Fused<D>) -> Fused<D>
    ensures { result ≡ record area { fuse = None } }
{
    let mut area = area;
    area.set_fuse(None);
    area
}

// A journal over these areas that takes nothing yet.
fn closed<D: Disk>(text: Vec<u8>, limit: u64, a: Fused<D>, b: Fused<D>) -> Journal<D>
    requires limit { limit ≤ 2 ^ 30 }
    requires text { 8256 ≤ vec_capacity text }
    requires fuses { (a.fuse ≡ None) × (b.fuse ≡ None) }

    ensures first { fused_0 result ≡ a }
    ensures second { fused_1 result ≡ b }
    ensures limited { result.limit ≡ limit }
{
    Journal {
        here: a,
        there: b,
        second: false,
        here_shut: false,
        there_shut: false,
        fresh: false,
        generation: 0,
        gate: 0,
        limit,
        prepared: 0,
        failed: true,
        text,
    }
}

impl<D: Disk> Journal<D> {
    // Takes nothing more, and takes area 0 for the current one.
    fn line_up(&mut self)
        ensures { self.new ≡ record self.old {
          here = fused_0 self.old;
          there = fused_1 self.old;
          second = false;
          fresh = false;
          prepared = 0;
          failed = true;
        } }
    {
        if self.second {
            swap(&mut self.here, &mut self.there);
        }
        self.second = false;
        self.fresh = false;
        self.prepared = 0;
        self.failed = true;
    }

    // Takes area 1 for the current one.
    fn turn(&mut self)
        requires failed { self.old.failed ≡ true }
        requires unprepared { self.old.prepared ≡ 0 }
        requires some { self.old.fresh ≡ false }

        ensures { self.new ≡ record self.old { here = self.old.there; there = self.old.here; second = true } }
    {
        swap(&mut self.here, &mut self.there);
        self.second = true;
    }

    // Stands for no entries, as neither area is open. Both were settled, and the other one is area 0.
    fn begin(&mut self, here_shut: bool, there_shut: bool)
        requires turned { self.old.second ≡ true }
        requires unprepared { self.old.prepared ≡ 0 }
        requires here { IsHeaded D.Disk self.old.here None here_shut }
        requires there { IsHeaded D.Disk self.old.there None there_shut }

        ensures begun { self.new ≡ record self.old {
          here_shut = here_shut;
          there_shut = there_shut;
          fresh = true;
          generation = 0;
          gate = 0;
          failed = false;
        } }
        ensures ready { IsReady D.Disk self.new [] }
    {
        self.here_shut = here_shut;
        self.there_shut = there_shut;
        self.fresh = true;
        self.generation = 0;
        self.gate = 0;
        self.failed = false;
    }

    // Reads the current area, which is open under this generation; the other one has this head.
    fn read_current(
        &mut self,
        alloc: Global,
        generation: u64,
        other: Head,
    ) -> Result<Entries, RecoverFault>
        requires failed { self.old.failed ≡ true }
        requires unprepared { self.old.prepared ≡ 0 }
        requires some { self.old.fresh ≡ false }
        requires fuses { (self.old.here.fuse ≡ None) × (self.old.there.fuse ≡ None) }
        requires here { IsHeaded D.Disk self.old.here (Some generation) false }
        requires there { IsHeaded D.Disk self.old.there other.generation other.shut }
        requires current { chosen self.old.second (Some generation) other.generation ≡ Some self.old.second }

        ensures ok { IfOk result (λ entries. IsOpened D.Disk self.old.second self.old.here self.old.there generation self.old.limit self.new entries) }
        ensures entries { IfOk result (λ entries. list_all is_entry entries ≡ true) }
        ensures unread { IfErr result (λ why. IsUnread D.Disk self.old.second self.old.here self.old.there self.new.here self.new.there why) }
        ensures stopped { OnErr result ((self.new.failed ≡ true) × (self.new.second ≡ self.old.second)) }
        ensures limit { self.new.limit ≡ self.old.limit }
    {
        let bytes = read_all(alloc, &mut self.here)?;
        let (entries, gate) = read_area(alloc, number(self.second), &bytes)?;
        self.here_shut = false;
        self.there_shut = other.shut;
        self.generation = generation;
        self.gate = gate;
        self.failed = false;
        Ok(entries)
    }

    /// Takes nothing more until its areas are opened anew; no call of one is made.
    pub fn stop(&mut self)
        ensures { self.new ≡ record self.old { prepared = 0; failed = true } }
    {
        self.prepared = 0;
        self.failed = true;
    }

    /// Opens its areas anew, as `recover` does, and answers the entries that they stand for.
    ///
    /// After an error it takes nothing, whatever it took before, until a further call succeeds.
    pub fn reopen(&mut self, alloc: Global) -> Result<Entries, RecoverFault>
        ensures recovered { IfOk result (λ entries. IsRecovered D.Disk (fused_0 self.old) (fused_1 self.old) self.old.limit self.new entries) }
        ensures entries { IfOk result (λ entries. list_all is_entry entries ≡ true) }
        ensures broken { IfErr result (λ why. IsBroken D.Disk (fused_0 self.old) (fused_1 self.old) (fused_0 self.new) (fused_1 self.new) why) }
        ensures stopped { OnErr result (self.new.failed ≡ true) }
        ensures limit { self.new.limit ≡ self.old.limit }
    {
        self.line_up();
        let (first, second) = read_heads(&mut self.here, &mut self.there)?;
        match current(first.generation, second.generation) {
            None => {
                self.turn();
                self.begin(second.shut, first.shut);
                Ok(Entries::from_vec(Vec::new(alloc)))
            }
            Some((false, generation)) => match self.read_current(alloc, generation, second) {
                Ok(entries) => Ok(entries),
                Err(why) => Err(why),
            },
            Some((true, generation)) => {
                self.turn();
                match self.read_current(alloc, generation, first) {
                    Ok(entries) => Ok(entries),
                    Err(why) => Err(why),
                }
            }
        }
    }

    /// Opens two areas that a crash may have left: clears their fuse, syncs area 0 and area 1, reads
    /// both heads, and reads the current area. It is the open one with the greater generation, area 0
    /// where they are equal; where neither is open, the journal is fresh.
    ///
    /// The answer is what the bytes of both areas stand for. `Damaged` comes exactly where the current
    /// area is no area's text, `Failed` only where the own count of an area rose in this call, and
    /// `Memory` where there was no memory for it; both areas are then given back. At every moment, each
    /// pair of images is one that a crash before the call could leave. The procedure is this project's
    /// own.
    pub fn recover(
        alloc: Global,
        a: Fused<D>,
        b: Fused<D>,
        limit: u64,
    ) -> Result<Recovered<D>, Broken<D>>
        requires { limit ≤ 2 ^ 30 }

        ensures recovered { IfOk result (λ r. IsRecovered D.Disk a b limit r.journal r.entries) }
        ensures fresh { IfOk result (λ r. r.fresh ≡ r.journal.fresh) }
        ensures entries { IfOk result (λ r. list_all is_entry r.entries ≡ true) }
        ensures broken { IfErr result (λ e. IsBroken D.Disk a b e.a e.b e.why) }
    {
        let a = unfused(a);
        let b = unfused(b);
        let Ok(text) = text_room(alloc) else {
            let why = RecoverFault::Memory;
            return Err(Broken { why, a, b });
        };
        let mut journal = closed(text, limit, a, b);
        match journal.reopen(alloc) {
            Ok(entries) => {
                let fresh = journal.fresh;
                Ok(Recovered {
                    journal,
                    entries,
                    fresh,
                })
            }
            Err(why) => {
                let (a, b) = journal.into_areas();
                Err(Broken { why, a, b })
            }
        }
    }
}
