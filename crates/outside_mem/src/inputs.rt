//! A source in memory.

ghost use Rattle.std.specs.Prelude.{◌≡◌, ◌≤◌, [], drop, take, length};
ghost use Rattle.outside_mem.specs.Counts.{piece_len};

use crate::failures::Failing;
use outside::stream::{Fault, Source};

/// A source over bytes in memory, which tells all that is left.
#[derive(Debug, Drop)]
pub struct MemSource {
    /// All its bytes, also those that were pulled.
    pub bytes: Vec<u8>,
    /// How many of them were pulled.
    pub at: usize,
    /// The pulls that fail.
    pub failing: Failing,
    /// The greatest number of bytes that one pull gives; 0 stands for 1.
    pub greatest_piece: usize,
    /// How many pulls there were, up to 2^64 - 1.
    pub calls: u64,
    /// How many of them failed, up to 2^64 - 1.
    pub faults: u64,
    ghost within: { at ≤ length bytes.items },
}

/// Copies as many bytes as there are and as fit, up to `greatest`, and answers how many.
pub(crate) fn copy_front(from: &[u8], to: &mut [u8], greatest: usize) -> usize
    ensures count { result ≡ piece_len (length from.now) (length to.old) greatest }
    ensures copied { take result to.new ≡ take result from.now }
{
    let count = from.len().min(to.len()).min(greatest.max(1));
    to[..count].copy_from_slice(&from[..count]);
    count
}

impl MemSource {
    ghost use Rattle.std.specs.Prelude.{◌^◌, ◌-◌};
    ghost use Rattle.outside_mem.specs.Fakes.{left_of};

    /// A source that has all of these bytes left, in pieces of any length, and whose pulls don't
    /// fail; takes no memory.
    pub fn new(bytes: Vec<u8>) -> MemSource
        ensures left { left_of result ≡ bytes.items }
        ensures failing { (result.failing.calls.items ≡ []) × (result.failing.from ≡ None) }
        ensures greatest { result.greatest_piece ≡ 2 ^ 64 - 1 }
        ensures counts { (result.calls ≡ 0) × (result.faults ≡ 0) }
    {
        let failing = Failing::none(*bytes.allocator());
        MemSource {
            bytes,
            at: 0,
            failing,
            greatest_piece: usize::MAX,
            calls: 0,
            faults: 0,
        }
    }

    /// Puts these bytes in the place of its own, none of them pulled. What was told to fail, the
    /// greatest piece and the counts stay; takes no memory.
    pub fn reopen(&mut self, bytes: Vec<u8>)
        ensures left { left_of self.new ≡ bytes.items }
        ensures kept { (self.new.failing ≡ self.old.failing) × (self.new.greatest_piece ≡ self.old.greatest_piece) }
        ensures counts { (self.new.calls ≡ self.old.calls) × (self.new.faults ≡ self.old.faults) }
    {
        self.bytes = bytes;
        self.at = 0;
    }
}

impl Source for MemSource {
    ghost use Rattle.std.specs.Prelude.{Some, None, if◌then◌else◌};
    ghost use Rattle.std.specs.Result.{result_ok};
    ghost use Rattle.outside.specs.Causes.{HasCause, next_count};
    ghost use Rattle.outside.specs.Streams.{Pulls};
    ghost use Rattle.outside_mem.specs.Counts.{counted};
    ghost use Rattle.outside_mem.specs.Failures.{is_failing};
    ghost use Rattle.outside_mem.specs.Fakes.{left_of};

    ghost left = { λ source. Some (left_of source) };

    ghost faults = { λ source. source.faults };

    /// Fails exactly where it was told to; else it gives as many bytes as there are and as fit, up
    /// to the greatest piece. The call is counted.
    fn pull(&mut self, buf: &mut [u8]) -> Result<usize, Fault>
        ensures bytes { Pulls (Some (left_of self.old)) (Some (left_of self.new)) buf.new result }
        ensures cause { HasCause self.old.faults self.new.faults result }

        ensures answer { result_ok result ≡ (if is_failing self.old.failing (next_count self.old.calls) then None else Some (piece_len (length (left_of self.old)) (length buf.old) self.old.greatest_piece)) }
        ensures calls { self.new.calls ≡ next_count self.old.calls }
        ensures faults { self.new.faults ≡ counted self.old.faults (is_failing self.old.failing (next_count self.old.calls)) }
        ensures kept { (self.new.bytes ≡ self.old.bytes) × (self.new.failing ≡ self.old.failing) × (self.new.greatest_piece ≡ self.old.greatest_piece) }
    {
        self.calls = self.calls.saturating_add(1);
        if self.failing.fails(self.calls) {
            self.faults = self.faults.saturating_add(1);
            return Err(Fault);
        }
        let count = copy_front(&self.bytes[self.at..], buf, self.greatest_piece);
        self.at += count;
        Ok(count)
    }
}
