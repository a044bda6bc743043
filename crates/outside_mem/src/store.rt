//! A store of objects in memory.

ghost use Rattle.std.specs.Prelude.{◌≡◌, ◌⊎◌, ◌<◌, ◌≤◌, ◌+◌, ◌-◌, ◌^◌, ℕ, List, [], ◌∷◌, length, take, Ok, Err, Some, None, IfOk, IfSome, OnOk, OnErr, IsErr, IsTrue, false, is_err, is_none, is_some, nat_lt, not, ◌&&◌, ◌||◌, option_map, if◌then◌else◌};
ghost use Rattle.std.specs.Option.{option_copied};
ghost use Rattle.outside.specs.Causes.{HasCause, Rose, next_count};
ghost use Rattle.outside.specs.Contents.{Changes, Happens, IsCrossed, IsFirst, IsMoveCrossed, IsRange, IsSame, IsThinned, SaysThere, emptied, is_after, is_short, moved, put_at};
ghost use Rattle.outside_mem.specs.Counts.{counted};
ghost use Rattle.outside_mem.specs.Failures.{is_failing, is_quiet};
ghost use Rattle.outside_mem.specs.Calls.{IsFresh, after_call, after_change, are_polls_quiet, fails_next, is_last, is_listed_for, is_steady};
ghost use Rattle.outside_mem.specs.Readers.{is_steady_reader, unread_of};
ghost use Rattle.outside_mem.specs.Stored.{held, renamed, without};

use crate::calls::{StoreCalls, listed_for};
use crate::failures::{counted, ended};
use crate::lists;
use crate::readers::MemReader;
use crate::writers::{MemObject, MemWriter};
use outside::key::Key;
use outside::objects::Objects;
use outside::stream::Fault;
use outside::world::Fail;
use std::alloc::{AllocError, Global};
use std::collections::LinkedList;

/// The most objects that a list can have.
const MOST_OBJECTS: usize = 0x7fff_ffff_ffff_ffff;

/// A store of objects in memory, which tells all that it holds.
#[derive(Debug, Drop)]
pub struct MemObjects {
    /// What readers, writers and copies of keys are made with.
    pub alloc: Global,
    /// What it holds; of several objects with one key the first counts.
    pub objects: LinkedList<MemObject>,
    /// Which calls are to fail, and how many there were.
    pub calls: StoreCalls,
    /// How many calls failed other than by a miss, up to 2^64 - 1.
    pub faults: u64,
    /// How many calls were a miss, up to 2^64 - 1.
    pub misses: u64,
    /// How often an object changed. Where it stands at 2^64 - 1, each call that changes objects
    /// fails and changes none.
    pub changes: u64,
}

/// A reader over a copy of a range, with the polls that are listed for the newest `begin_read`. An
/// `Err` is want of memory.
fn reader_over(alloc: Global, range: &[u8], calls: &StoreCalls) -> Result<MemReader, AllocError>
    ensures left { IfOk result (λ reader. unread_of reader ≡ range.now) }
    ensures failing_polls { IfOk result (λ reader. (poll : ℕ) → is_failing reader.failing poll ≡ is_listed_for calls.now.failing_polls.items calls.now.begin_reads.count poll) }
    ensures waiting_polls { IfOk result (λ reader. (poll : ℕ) → is_failing reader.waiting poll ≡ is_listed_for calls.now.waiting_polls.items calls.now.begin_reads.count poll) }
    ensures steady { IsTrue (are_polls_quiet calls.now) → IfOk result (λ reader. IsTrue (is_steady_reader reader)) }
    ensures fresh { IfOk result (λ reader. (reader.calls ≡ 0) × (reader.faults ≡ 0) × (reader.waits ≡ 0)) }
{
    let number = calls.begin_reads.count;
    let mut reader = MemReader::new(Vec::from_slice(alloc, range)?);
    reader.failing = listed_for(alloc, &calls.failing_polls, number)?;
    reader.waiting = listed_for(alloc, &calls.waiting_polls, number)?;
    Ok(reader)
}

impl MemObjects {
    ghost use Rattle.outside_mem.specs.Fates.{clear_fails, finish_fails, finish_happens, finish_misses, is_full, remove_fails, remove_happens, rename_fails, rename_happens, rename_misses};

    /// A store that holds nothing, and of which no call fails; takes no memory.
    pub fn new(alloc: Global) -> MemObjects
        ensures objects { result.objects ≡ [] }
        ensures calls { IsFresh result.calls }
        ensures steady { IsTrue (is_steady result.calls) }
        ensures counts { (result.faults ≡ 0) × (result.misses ≡ 0) × (result.changes ≡ 0) }
    {
        MemObjects {
            alloc,
            objects: LinkedList::new(alloc),
            calls: StoreCalls::new(alloc),
            faults: 0,
            misses: 0,
            changes: 0,
        }
    }

    /// Whether no object can be ended: no more changes can be counted, or the list is as long as it
    /// can be.
    fn is_full(&self) -> bool
        ensures { result ≡ is_full self.now }
    {
        self.changes == u64::MAX || self.objects.len() >= MOST_OBJECTS
    }

    /// Counts what became of a call.
    fn count(&mut self, fails: bool, missed: bool, changed: bool)
        requires { IsTrue changed → self.old.changes < 2 ^ 64 - 1 }
        ensures later { self.old.faults ≤ self.new.faults }
        ensures counted { self.new ≡ record self.old { faults = counted self.old.faults fails; misses = counted self.old.misses missed; changes = if changed then self.old.changes + 1 else self.old.changes } }
    {
        self.faults = counted(self.faults, fails);
        self.misses = counted(self.misses, missed);
        if changed {
            self.changes += 1;
        }
    }

    /// Ends a writer; its clauses tell what becomes of the call.
    fn try_finish(&mut self, writer: MemWriter, key: Key) -> Result<(), Fault>
        ensures answer { is_err result ≡ (finish_fails self.old || finish_misses self.old key) }
        ensures calls { self.new.calls ≡ record self.old.calls { finishes = after_change self.old.calls.finishes } }
        ensures faults { self.new.faults ≡ counted self.old.faults (finish_fails self.old) }
        ensures misses { self.new.misses ≡ counted self.old.misses (finish_misses self.old key) }
        ensures objects { self.new.objects ≡ (if finish_happens self.old key then (record { key = key; bytes = writer.bytes }) ∷ without key self.old.objects else self.old.objects) }
        ensures changed { self.new.changes ≡ (if finish_happens self.old key then self.old.changes + 1 else self.old.changes) }
        ensures later { self.old.faults ≤ self.new.faults }
    {
        let full = self.is_full();
        let fate = self.calls.finishes.next(full);
        let missed = lists::is_crossed(&self.objects, &key, &key);
        let happens = fate.happens && !missed;
        lists::put(&mut self.objects, writer, key, happens);
        self.count(fate.fails, missed, happens);
        ended((), fate.fails || missed)
    }

    /// Renames an object; its clauses tell what becomes of the call.
    fn try_rename(&mut self, from: &Key, to: Key) -> Result<bool, Fault>
        ensures there { IfOk result (SaysThere (Some (held self.old.objects)) from.now) }
        ensures answer { is_err result ≡ (rename_fails self.old || rename_misses self.old from.now to) }
        ensures calls { self.new.calls ≡ record self.old.calls { renames = after_change self.old.calls.renames } }
        ensures faults { self.new.faults ≡ counted self.old.faults (rename_fails self.old) }
        ensures misses { self.new.misses ≡ counted self.old.misses (rename_misses self.old from.now to) }
        ensures objects { self.new.objects ≡ (if rename_happens self.old from.now to then renamed from.now to self.old.objects else self.old.objects) }
        ensures changed { self.new.changes ≡ (if rename_happens self.old from.now to && is_some (held self.old.objects from.now) then self.old.changes + 1 else self.old.changes) }
        ensures later { self.old.faults ≤ self.new.faults }
    {
        let last = self.changes == u64::MAX;
        let fate = self.calls.renames.next(last);
        let there = lists::find(&self.objects, from).is_some();
        let missed = there && lists::is_crossed(&self.objects, from, &to);
        let happens = fate.happens && !missed;
        lists::rename(&mut self.objects, from, to, happens);
        self.count(fate.fails, missed, happens && there);
        ended(there, fate.fails || missed)
    }

    /// Removes an object; its clauses tell what becomes of the call.
    fn try_remove(&mut self, key: &Key) -> Result<bool, Fault>
        ensures there { IfOk result (SaysThere (Some (held self.old.objects)) key.now) }
        ensures misses { self.new.misses ≡ self.old.misses }
        ensures answer { is_err result ≡ remove_fails self.old }
        ensures calls { self.new.calls ≡ record self.old.calls { removes = after_change self.old.calls.removes } }
        ensures faults { self.new.faults ≡ counted self.old.faults (remove_fails self.old) }
        ensures objects { self.new.objects ≡ (if remove_happens self.old then without key.now self.old.objects else self.old.objects) }
        ensures changed { self.new.changes ≡ (if remove_happens self.old && is_some (held self.old.objects key.now) then self.old.changes + 1 else self.old.changes) }
        ensures later { self.old.faults ≤ self.new.faults }
    {
        let last = self.changes == u64::MAX;
        let fate = self.calls.removes.next(last);
        let there = lists::find(&self.objects, key).is_some();
        lists::remove(&mut self.objects, key, fate.happens);
        self.count(fate.fails, false, fate.happens && there);
        ended(there, fate.fails)
    }

    /// Removes all objects; its clauses tell what becomes of the call.
    fn try_clear(&mut self) -> Result<(), Fault>
        ensures misses { self.new.misses ≡ self.old.misses }
        ensures answer { is_err result ≡ clear_fails self.old }
        ensures calls { self.new.calls ≡ record self.old.calls { clears = after_call self.old.calls.clears } }
        ensures faults { self.new.faults ≡ counted self.old.faults (clear_fails self.old) }
        ensures objects { self.new.objects ≡ (if not (is_last self.old.changes) then (if fails_next self.old.calls.clears then take (length self.old.objects - 1) self.old.objects else []) else self.old.objects) }
        ensures changed { self.new.changes ≡ (if not (is_last self.old.changes) && nat_lt 0 (length self.old.objects) then self.old.changes + 1 else self.old.changes) }
        ensures later { self.old.faults ≤ self.new.faults }
    {
        let last = self.changes == u64::MAX;
        let listed = self.calls.clears.next();
        let some = !self.objects.is_empty();
        lists::clear(&mut self.objects, listed, !last);
        self.count(listed || last, false, !last && some);
        ended((), listed || last)
    }
}

impl Objects for MemObjects {
    ghost use Rattle.outside_mem.specs.Fates.{clear_fails, finish_fails, finish_happens, finish_misses, remove_fails, remove_happens, rename_fails, rename_happens, rename_misses};

    type Reader = MemReader;

    type Writer = MemWriter;

    ghost told = { λ store. Some (held store.objects) };

    ghost faults = { λ store. store.faults };

    ghost misses = { λ store. store.misses };

    ghost changes = { λ store. store.changes };

    ghost steady = { λ store. is_steady store.calls };

    /// Fails exactly where it was told to, and at a miss. The reader is told its polls by the number
    /// of the call.
    fn begin_read(&mut self, key: &Key, at: u64, len: u64) -> Result<MemReader, Fail>
        ensures range { IfOk result (λ reader. IsRange (Some (held self.old.objects)) key.now at len (Some (unread_of reader))) }
        ensures due { IfOk result (λ reader. length (unread_of reader) ≡ len) }
        ensures reads { IfOk result (λ reader. IsTrue (is_steady self.old.calls) → IsTrue (is_steady_reader reader)) }

        ensures failed { result ≡ Err Fail.Failed → Rose self.old.faults self.new.faults ⊎ IsTrue (is_short (Some (held self.old.objects)) key.now (at + len)) }
        ensures missed { IsTrue (is_short (Some (held self.old.objects)) key.now (at + len)) → (result ≡ Err Fail.Failed) × Rose self.old.misses self.new.misses }
        ensures met { is_short (Some (held self.old.objects)) key.now (at + len) ≡ false → self.new.misses ≡ self.old.misses }
        ensures later { self.old.faults ≤ self.new.faults }

        ensures told { Some (held self.new.objects) ≡ Some (held self.old.objects) }
        ensures changes { self.new.changes ≡ self.old.changes }
        ensures steady { is_steady self.new.calls ≡ is_steady self.old.calls }

        ensures listed { IsTrue (fails_next self.old.calls.begin_reads) → result ≡ Err Fail.Failed }
        ensures unlisted { fails_next self.old.calls.begin_reads ≡ false → result ≡ Err Fail.Failed → IsTrue (is_short (Some (held self.old.objects)) key.now (at + len)) }
        ensures failing_polls { IfOk result (λ reader. (poll : ℕ) → is_failing reader.failing poll ≡ is_listed_for self.old.calls.failing_polls.items self.new.calls.begin_reads.count poll) }
        ensures waiting_polls { IfOk result (λ reader. (poll : ℕ) → is_failing reader.waiting poll ≡ is_listed_for self.old.calls.waiting_polls.items self.new.calls.begin_reads.count poll) }
        ensures fresh { IfOk result (λ reader. (reader.calls ≡ 0) × (reader.faults ≡ 0) × (reader.waits ≡ 0)) }
        ensures calls { self.new.calls ≡ record self.old.calls { begin_reads = after_call self.old.calls.begin_reads } }
        ensures faults { self.new.faults ≡ counted self.old.faults (fails_next self.old.calls.begin_reads) }
        ensures misses { self.new.misses ≡ counted self.old.misses (is_short (Some (held self.old.objects)) key.now (at + len)) }
        ensures objects { self.new.objects ≡ self.old.objects }
    {
        let listed = self.calls.begin_reads.next();
        self.faults = counted(self.faults, listed);
        let range = lists::find_range(&self.objects, key, at, len);
        self.misses = counted(self.misses, range.is_none());
        let (Some(range), false) = (range, listed) else {
            return Err(Fail::Failed);
        };
        Ok(reader_over(self.alloc, range, &self.calls)?)
    }

    /// Fails exactly where it was told to. The writer is told its puts by the number of the call.
    fn begin_write(&mut self) -> Result<MemWriter, Fail>
        ensures empty { IfOk result (λ writer. Some writer.bytes.items ≡ option_map (λ _. []) (Some (held self.old.objects))) }
        ensures written { IfOk result (λ writer. length writer.bytes.items ≡ 0) }
        ensures writes { IfOk result (λ writer. IsTrue (is_steady self.old.calls) → IsTrue (is_quiet writer.failing)) }

        ensures failed { result ≡ Err Fail.Failed → Rose self.old.faults self.new.faults }
        ensures later { self.old.faults ≤ self.new.faults }
        ensures misses { self.new.misses ≡ self.old.misses }

        ensures told { Some (held self.new.objects) ≡ Some (held self.old.objects) }
        ensures changes { self.new.changes ≡ self.old.changes }
        ensures steady { is_steady self.new.calls ≡ is_steady self.old.calls }

        ensures listed { IsTrue (fails_next self.old.calls.begin_writes) → result ≡ Err Fail.Failed }
        ensures unlisted { fails_next self.old.calls.begin_writes ≡ false → result ≡ Err Fail.Failed → ⊥ }
        ensures failing_puts { IfOk result (λ writer. (put : ℕ) → is_failing writer.failing put ≡ is_listed_for self.old.calls.failing_puts.items self.new.calls.begin_writes.count put) }
        ensures fresh { IfOk result (λ writer. (writer.calls ≡ 0) × (writer.faults ≡ 0)) }
        ensures calls { self.new.calls ≡ record self.old.calls { begin_writes = after_call self.old.calls.begin_writes } }
        ensures faults { self.new.faults ≡ counted self.old.faults (fails_next self.old.calls.begin_writes) }
        ensures objects { self.new.objects ≡ self.old.objects }
    {
        let listed = self.calls.begin_writes.next();
        self.faults = counted(self.faults, listed);
        if listed {
            return Err(Fail::Failed);
        }
        let number = self.calls.begin_writes.count;
        let mut writer = MemWriter::new(self.alloc)?;
        writer.failing = listed_for(self.alloc, &self.calls.failing_puts, number)?;
        Ok(writer)
    }

    /// Fails exactly where it was told to, at a miss, and where no more changes can be counted or no
    /// list has place for one more object.
    fn finish(&mut self, writer: MemWriter, key: Key) -> Result<(), Fault>
        ensures bytes { (bytes : List ℕ) → Some writer.bytes.items ≡ option_map (λ _. bytes) (Some (held self.old.objects)) → Happens (put_at key (Some bytes)) (Some (held self.old.objects)) (Some (held self.new.objects)) result }

        ensures failed { OnErr result (Rose self.old.faults self.new.faults ⊎ IsCrossed (Some (held self.old.objects)) key) }
        ensures missed { IsCrossed (Some (held self.old.objects)) key → IsErr result × Rose self.old.misses self.new.misses × IsSame (Some (held self.old.objects)) (Some (held self.new.objects)) }
        ensures met { (IsCrossed (Some (held self.old.objects)) key → ⊥) → self.new.misses ≡ self.old.misses }
        ensures later { self.old.faults ≤ self.new.faults }

        ensures changes { Changes (Some (held self.old.objects)) (Some (held self.new.objects)) self.old.changes self.new.changes }
        ensures steady { is_steady self.new.calls ≡ is_steady self.old.calls }

        ensures answer { is_err result ≡ (finish_fails self.old || finish_misses self.old key) }
        ensures calls { self.new.calls ≡ record self.old.calls { finishes = after_change self.old.calls.finishes } }
        ensures faults { self.new.faults ≡ counted self.old.faults (finish_fails self.old) }
        ensures misses { self.new.misses ≡ counted self.old.misses (finish_misses self.old key) }
        ensures objects { self.new.objects ≡ (if finish_happens self.old key then (record { key = key; bytes = writer.bytes }) ∷ without key self.old.objects else self.old.objects) }
        ensures changed { self.new.changes ≡ (if finish_happens self.old key then self.old.changes + 1 else self.old.changes) }
    {
        self.try_finish(writer, key)
    }

    /// Fails exactly where it was told to, at a miss, and where no more changes can be counted.
    fn rename(&mut self, from: &Key, to: Key) -> Result<bool, Fault>
        ensures moves { Happens (moved from.now to) (Some (held self.old.objects)) (Some (held self.new.objects)) result }
        ensures there { IfOk result (SaysThere (Some (held self.old.objects)) from.now) }

        ensures failed { OnErr result (Rose self.old.faults self.new.faults ⊎ IsMoveCrossed (Some (held self.old.objects)) from.now to) }
        ensures missed { IsMoveCrossed (Some (held self.old.objects)) from.now to → IsErr result × Rose self.old.misses self.new.misses × IsSame (Some (held self.old.objects)) (Some (held self.new.objects)) }
        ensures met { (IsMoveCrossed (Some (held self.old.objects)) from.now to → ⊥) → self.new.misses ≡ self.old.misses }
        ensures later { self.old.faults ≤ self.new.faults }

        ensures changes { Changes (Some (held self.old.objects)) (Some (held self.new.objects)) self.old.changes self.new.changes }
        ensures steady { is_steady self.new.calls ≡ is_steady self.old.calls }

        ensures answer { is_err result ≡ (rename_fails self.old || rename_misses self.old from.now to) }
        ensures calls { self.new.calls ≡ record self.old.calls { renames = after_change self.old.calls.renames } }
        ensures faults { self.new.faults ≡ counted self.old.faults (rename_fails self.old) }
        ensures misses { self.new.misses ≡ counted self.old.misses (rename_misses self.old from.now to) }
        ensures objects { self.new.objects ≡ (if rename_happens self.old from.now to then renamed from.now to self.old.objects else self.old.objects) }
        ensures changed { self.new.changes ≡ (if rename_happens self.old from.now to && is_some (held self.old.objects from.now) then self.old.changes + 1 else self.old.changes) }
    {
        self.try_rename(from, to)
    }

    /// Fails exactly where it was told to, and where no more changes can be counted.
    fn remove(&mut self, key: &Key) -> Result<bool, Fault>
        ensures removes { Happens (put_at key.now None) (Some (held self.old.objects)) (Some (held self.new.objects)) result }
        ensures there { IfOk result (SaysThere (Some (held self.old.objects)) key.now) }

        ensures cause { HasCause self.old.faults self.new.faults result }
        ensures misses { self.new.misses ≡ self.old.misses }

        ensures changes { Changes (Some (held self.old.objects)) (Some (held self.new.objects)) self.old.changes self.new.changes }
        ensures steady { is_steady self.new.calls ≡ is_steady self.old.calls }

        ensures answer { is_err result ≡ remove_fails self.old }
        ensures calls { self.new.calls ≡ record self.old.calls { removes = after_change self.old.calls.removes } }
        ensures faults { self.new.faults ≡ counted self.old.faults (remove_fails self.old) }
        ensures objects { self.new.objects ≡ (if remove_happens self.old then without key.now self.old.objects else self.old.objects) }
        ensures changed { self.new.changes ≡ (if remove_happens self.old && is_some (held self.old.objects key.now) then self.old.changes + 1 else self.old.changes) }
    {
        self.try_remove(key)
    }

    /// Fails exactly where it was told to.
    fn next_key(&mut self, under: &Key, after: Option<&Key>) -> Result<Option<(Key, u64)>, Fail>
        ensures first { IfOk result (λ found. IfSome (Some (held self.old.objects)) (IsFirst (is_after under.now (option_copied after.entry)) found)) }

        ensures failed { result ≡ Err Fail.Failed → Rose self.old.faults self.new.faults }
        ensures later { self.old.faults ≤ self.new.faults }
        ensures misses { self.new.misses ≡ self.old.misses }

        ensures told { Some (held self.new.objects) ≡ Some (held self.old.objects) }
        ensures changes { self.new.changes ≡ self.old.changes }
        ensures steady { is_steady self.new.calls ≡ is_steady self.old.calls }

        ensures listed { IsTrue (fails_next self.old.calls.next_keys) → result ≡ Err Fail.Failed }
        ensures unlisted { fails_next self.old.calls.next_keys ≡ false → result ≡ Err Fail.Failed → ⊥ }
        ensures calls { self.new.calls ≡ record self.old.calls { next_keys = after_call self.old.calls.next_keys } }
        ensures faults { self.new.faults ≡ counted self.old.faults (fails_next self.old.calls.next_keys) }
        ensures objects { self.new.objects ≡ self.old.objects }
    {
        let listed = self.calls.next_keys.next();
        self.faults = counted(self.faults, listed);
        if listed {
            return Err(Fail::Failed);
        }
        match lists::first_after(&self.objects, under, after) {
            None => Ok(None),
            Some(first) => Ok(Some(lists::found_as(first)?)),
        }
    }

    /// Fails exactly where it was told to, and then removes one object alone, and where no more
    /// changes can be counted, and then removes none.
    fn clear(&mut self) -> Result<(), Fault>
        ensures empty { OnOk result (IsSame (option_map emptied (Some (held self.old.objects))) (Some (held self.new.objects))) }
        ensures thinned { IsThinned (Some (held self.old.objects)) (Some (held self.new.objects)) }

        ensures cause { HasCause self.old.faults self.new.faults result }
        ensures misses { self.new.misses ≡ self.old.misses }

        ensures changes { Changes (Some (held self.old.objects)) (Some (held self.new.objects)) self.old.changes self.new.changes }
        ensures steady { is_steady self.new.calls ≡ is_steady self.old.calls }

        ensures answer { is_err result ≡ clear_fails self.old }
        ensures calls { self.new.calls ≡ record self.old.calls { clears = after_call self.old.calls.clears } }
        ensures faults { self.new.faults ≡ counted self.old.faults (clear_fails self.old) }
        ensures objects { self.new.objects ≡ (if not (is_last self.old.changes) then (if fails_next self.old.calls.clears then take (length self.old.objects - 1) self.old.objects else []) else self.old.objects) }
        ensures changed { self.new.changes ≡ (if not (is_last self.old.changes) && nat_lt 0 (length self.old.objects) then self.old.changes + 1 else self.old.changes) }
    {
        self.try_clear()
    }
}
