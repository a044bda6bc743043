//! A sink in memory.

ghost use Rattle.std.specs.Prelude.{◌≡◌, ◌<◌, ◌≤◌, ◌+◌, ◌-◌, ◌^◌, [], Some, None, false, length, take, vec_len, vec_capacity, is_err, IsTrue, IfOk, OnErr, IsOk, IsErr};
ghost use Rattle.outside.specs.Causes.{HasCause, next_count};
ghost use Rattle.outside.specs.Streams.{Pushes};
ghost use Rattle.outside_mem.specs.Counts.{counted, piece_len};
ghost use Rattle.outside_mem.specs.Failures.{is_failing};

use crate::failures::Failing;
use outside::stream::{Fault, Sink};
use std::alloc::Global;

/// A sink that keeps its bytes in memory, and tells all that it took.
#[derive(Debug, Drop)]
pub struct MemSink {
    /// The bytes that it took.
    pub bytes: Vec<u8>,
    /// The pushes that fail.
    pub failing: Failing,
    /// The greatest number of bytes that one push takes; 0 stands for 1.
    pub greatest_piece: usize,
    /// How many pushes there were, up to 2^64 - 1.
    pub calls: u64,
    /// How many of them failed, up to 2^64 - 1.
    pub faults: u64,
}

impl MemSink {
    /// A sink that took nothing yet, takes pieces of any length, and whose pushes don't fail; takes
    /// no memory.
    pub fn new(alloc: Global) -> MemSink
        ensures taken { result.bytes.items ≡ [] }
        ensures failing { (result.failing.calls.items ≡ []) × (result.failing.from ≡ None) }
        ensures greatest { result.greatest_piece ≡ 2 ^ 64 - 1 }
        ensures counts { (result.calls ≡ 0) × (result.faults ≡ 0) }
    {
        MemSink {
            bytes: Vec::new(alloc),
            failing: Failing::none(alloc),
            greatest_piece: usize::MAX,
            calls: 0,
            faults: 0,
        }
    }
}

impl Sink for MemSink {
    ghost taken = { λ sink. Some sink.bytes.items };

    ghost faults = { λ sink. sink.faults };

    /// Takes as many bytes as there are, up to the greatest piece. Fails where it was told to, and
    /// for want of memory, which doesn't come while they fit into the room that `bytes` has; then it
    /// has taken nothing. The call is counted.
    fn push(&mut self, piece: &[u8]) -> Result<usize, Fault>
        requires { 0 < length piece.now }
        ensures bytes { Pushes (Some self.old.bytes.items) (Some self.new.bytes.items) piece.now result }
        ensures cause { HasCause self.old.faults self.new.faults result }

        ensures count { IfOk result (λ n. n ≡ piece_len (length piece.now) (length piece.now) self.old.greatest_piece) }
        ensures listed { IsTrue (is_failing self.old.failing (next_count self.old.calls)) → IsErr result }
        ensures unlisted { is_failing self.old.failing (next_count self.old.calls) ≡ false → vec_len self.old.bytes + piece_len (length piece.now) (length piece.now) self.old.greatest_piece ≤ vec_capacity self.old.bytes → IsOk result }
        ensures nothing { OnErr result (self.new.bytes.items ≡ self.old.bytes.items) }
        ensures calls { self.new.calls ≡ next_count self.old.calls }
        ensures faults { self.new.faults ≡ counted self.old.faults (is_err result) }
        ensures kept { (self.new.failing ≡ self.old.failing) × (self.new.greatest_piece ≡ self.old.greatest_piece) }
    {
        self.calls = self.calls.saturating_add(1);
        let count = piece.len().min(self.greatest_piece.max(1));
        if self.failing.fails(self.calls)
            || self.bytes.extend_from_slice(&piece[..count]).is_err()
        {
            self.faults = self.faults.saturating_add(1);
            return Err(Fault);
        }
        Ok(count)
    }
}
