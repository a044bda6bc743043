//! Which calls of a store or of a disk in memory are to fail, and how many of each kind there were.

ghost use Rattle.std.specs.Prelude.{◌≡◌, [], IfOk, IsTrue, ℕ};
ghost use Rattle.outside_mem.specs.Calls.{AreUnused, IsFresh, fails_next, after_call, change_fails, change_happens, after_change, is_listed_for, is_none_listed};
ghost use Rattle.outside_mem.specs.Failures.{is_failing, is_quiet, IsQuiet};

use crate::failures::Failing;
use std::alloc::{AllocError, Global};

/// The calls of one kind.
#[derive(Debug, Drop)]
pub struct Calls {
    /// Those that fail.
    pub failing: Failing,
    /// How many there were, up to 2^64 - 1.
    pub count: u64,
}

/// The calls of one kind that changes objects.
#[derive(Debug, Drop)]
pub struct ChangingCalls {
    /// Those that fail.
    pub failing: Failing,
    /// Of those that fail, the ones that do their work all the same.
    pub happening: Failing,
    /// How many there were, up to 2^64 - 1.
    pub count: u64,
}

/// What is to become of a call that changes objects.
#[derive(Debug, Clone, Copy)]
pub(crate) struct Fate {
    pub(crate) fails: bool,
    pub(crate) happens: bool,
}

/// The calls of one reader or writer that are listed.
#[derive(Debug, Drop)]
pub struct ByNumber {
    /// The number of the call that began it.
    pub number: u64,
    /// Its polls or puts.
    pub failing: Failing,
}

/// Which calls of a store and of its readers and writers are to fail, and how many calls there were.
/// Where two entries of a list by number have one number, the first counts.
#[derive(Debug, Drop)]
pub struct StoreCalls {
    pub begin_reads: Calls,
    pub begin_writes: Calls,
    pub finishes: ChangingCalls,
    pub renames: ChangingCalls,
    pub removes: ChangingCalls,
    pub next_keys: Calls,
    pub clears: Calls,
    /// By the number of its `begin_read`, the polls of a reader that fail.
    pub failing_polls: Vec<ByNumber>,
    /// By the number of its `begin_read`, the polls of a reader that aren't ready.
    pub waiting_polls: Vec<ByNumber>,
    /// By the number of its `begin_write`, the puts of a writer that fail.
    pub failing_puts: Vec<ByNumber>,
}

/// Which calls of a disk are to fail, and how many there were.
#[derive(Debug, Drop)]
pub struct DiskCalls {
    pub lens: Calls,
    pub reads: Calls,
    /// Of the writes that fail, those that are listed as happening are torn, and the others don't
    /// begin.
    pub writes: ChangingCalls,
    pub syncs: Calls,
}

impl Calls {
    /// There were none, and none fails; takes no memory.
    pub fn new(alloc: Global) -> Calls
        ensures failing { IsQuiet result.failing }
        ensures count { result.count ≡ 0 }
    {
        Calls {
            failing: Failing::none(alloc),
            count: 0,
        }
    }

    /// Counts a call, and says whether it is to fail.
    pub(crate) fn next(&mut self) -> bool
        ensures fails { result ≡ fails_next self.old }
        ensures counted { self.new ≡ after_call self.old }
    {
        self.count = self.count.saturating_add(1);
        self.failing.fails(self.count)
    }
}

impl ChangingCalls {
    /// There were none, and none fails; takes no memory.
    pub fn new(alloc: Global) -> ChangingCalls
        ensures failing { IsQuiet result.failing }
        ensures happening { IsQuiet result.happening }
        ensures count { result.count ≡ 0 }
    {
        ChangingCalls {
            failing: Failing::none(alloc),
            happening: Failing::none(alloc),
            count: 0,
        }
    }

    /// Counts a call, and says what is to become of it; where it is barred it can only fail.
    pub(crate) fn next(&mut self, barred: bool) -> Fate
        ensures fails { result.fails ≡ change_fails self.old barred }
        ensures happens { result.happens ≡ change_happens self.old barred }
        ensures counted { self.new ≡ after_change self.old }
    {
        self.count = self.count.saturating_add(1);
        let listed = self.failing.fails(self.count);
        let happening = self.happening.fails(self.count);
        Fate {
            fails: listed || barred,
            happens: !barred && (!listed || happening),
        }
    }
}

impl StoreCalls {
    /// There were none, and none fails; takes no memory.
    pub fn new(alloc: Global) -> StoreCalls
        ensures { IsFresh result }
    {
        StoreCalls {
            begin_reads: Calls::new(alloc),
            begin_writes: Calls::new(alloc),
            finishes: ChangingCalls::new(alloc),
            renames: ChangingCalls::new(alloc),
            removes: ChangingCalls::new(alloc),
            next_keys: Calls::new(alloc),
            clears: Calls::new(alloc),
            failing_polls: Vec::new(alloc),
            waiting_polls: Vec::new(alloc),
            failing_puts: Vec::new(alloc),
        }
    }
}

impl DiskCalls {
    /// There were none, and none fails; takes no memory.
    pub fn new(alloc: Global) -> DiskCalls
        ensures { AreUnused result }
    {
        DiskCalls {
            lens: Calls::new(alloc),
            reads: Calls::new(alloc),
            writes: ChangingCalls::new(alloc),
            syncs: Calls::new(alloc),
        }
    }
}

/// The listed calls of the reader or writer of a number, of which the first entry counts. An `Err`
/// is want of memory.
pub(crate) fn listed_for(
    alloc: Global,
    told: &[ByNumber],
    number: u64,
) -> Result<Failing, AllocError>
    ensures each { IfOk result (λ failing. (call : ℕ) → is_failing failing call ≡ is_listed_for told.now number call) }
    ensures none { IsTrue (is_none_listed told.now) → IfOk result (λ failing. IsTrue (is_quiet failing)) }
{
    for one in told {
        if one.number == number {
            return one.failing.clone();
        }
    }
    Ok(Failing::none(alloc))
}
