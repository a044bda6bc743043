//! Which calls are to fail.

ghost use Rattle.std.specs.Prelude.{◌≡◌, [], IfOk, None, Ok, false, is_err};
ghost use Rattle.outside_mem.specs.Counts.{counted};
ghost use Rattle.outside_mem.specs.Failures.{is_failing};

use outside::stream::Fault;
use std::alloc::{AllocError, Global};

/// The calls of one kind that are to fail, by their numbers. The first call has the number 1.
#[derive(Debug, Drop)]
pub struct Failing {
    /// The numbers of single calls, in any order.
    pub calls: Vec<u64>,
    /// The number from which on every call fails, if there is one.
    pub from: Option<u64>,
}

impl Failing {
    /// No call fails; takes no memory.
    pub fn none(alloc: Global) -> Failing
        ensures calls { result.calls.items ≡ [] }
        ensures from { result.from ≡ None }
    {
        Failing {
            calls: Vec::new(alloc),
            from: None,
        }
    }

    /// The calls of these numbers fail. An `Err` is want of memory.
    pub fn listed(alloc: Global, calls: &[u64]) -> Result<Failing, AllocError>
        ensures calls { IfOk result (λ failing. failing.calls.items ≡ calls.now) }
        ensures from { IfOk result (λ failing. failing.from ≡ None) }
    {
        Ok(Failing {
            calls: Vec::from_slice(alloc, calls)?,
            from: None,
        })
    }

    /// Whether the call of this number is to fail.
    pub fn fails(&self, call: u64) -> bool
        ensures { result ≡ is_failing self.now call }
    {
        self.calls.contains(&call) || self.from.is_some_and(|first| first <= call)
    }
}

impl Clone for Failing {
    ghost use Rattle.std.specs.Prelude.{◌≡◌};

    ghost is_clone = { λ failing copy. (copy.calls.items ≡ failing.calls.items) × (copy.from ≡ failing.from) };

    fn clone(&self) -> Result<Failing, AllocError> {
        Ok(Failing {
            calls: self.calls.clone()?,
            from: self.from,
        })
    }
}

/// A count, one higher where something happened; it stays at its last value.
pub(crate) fn counted(count: u64, happened: bool) -> u64
    ensures { result ≡ counted count happened }
{
    if happened {
        return count.saturating_add(1);
    }
    count
}

/// A value, or a fault.
pub(crate) fn ended<T: Drop>(value: T, fails: bool) -> Result<T, Fault>
    ensures ok { fails ≡ false → result ≡ Ok value }
    ensures err { is_err result ≡ fails }
{
    if fails {
        return Err(Fault);
    }
    Ok(value)
}
