//! The readers of a store in memory.

ghost use Rattle.std.specs.Prelude.{◌≡◌, ◌≤◌, ◌<◌, ◌+◌, [], None, Some, IsTrue, length, take};

use crate::failures::Failing;
use crate::inputs::copy_front;
use outside::objects::{Got, ObjectRead};

/// A reader over its own copy of the bytes of a range, which tells all that is left. Nothing that
/// befalls the object changes what it gives.
#[derive(Debug, Drop)]
pub struct MemReader {
    /// All its bytes, also those that were given.
    pub bytes: Vec<u8>,
    /// How many of them were given.
    pub at: usize,
    /// The polls that fail.
    pub failing: Failing,
    /// The polls that aren't ready; one that is also to fail fails.
    pub waiting: Failing,
    /// How many polls there were, up to 2^64 - 1.
    pub calls: u64,
    /// How many of them failed, up to 2^64 - 1.
    pub faults: u64,
    /// How many of them weren't ready, up to 2^64 - 1.
    pub waits: u64,
    ghost within: { at ≤ length bytes.items },
}

impl MemReader {
    ghost use Rattle.outside_mem.specs.Readers.{is_steady_reader, unread_of};

    /// A reader that has all of these bytes left, whose polls don't fail and are ready; takes no
    /// memory.
    pub fn new(bytes: Vec<u8>) -> MemReader
        ensures left { unread_of result ≡ bytes.items }
        ensures failing { (result.failing.calls.items ≡ []) × (result.failing.from ≡ None) }
        ensures waiting { (result.waiting.calls.items ≡ []) × (result.waiting.from ≡ None) }
        ensures steady { IsTrue (is_steady_reader result) }
        ensures counts { (result.calls ≡ 0) × (result.faults ≡ 0) × (result.waits ≡ 0) }
    {
        let alloc = *bytes.allocator();
        MemReader {
            bytes,
            at: 0,
            failing: Failing::none(alloc),
            waiting: Failing::none(alloc),
            calls: 0,
            faults: 0,
            waits: 0,
        }
    }
}

impl ObjectRead for MemReader {
    ghost use Rattle.outside.specs.Causes.{next_count, Rose};
    ghost use Rattle.outside.specs.Polls.{IfBytes, IsBytes, OnFault, OnNotReady, is_fault, is_not_ready};
    ghost use Rattle.outside.specs.Streams.{Gives};
    ghost use Rattle.outside_mem.specs.Counts.{counted};
    ghost use Rattle.outside_mem.specs.Failures.{is_failing};
    ghost use Rattle.outside_mem.specs.Readers.{is_steady_reader, poll_of, unread_of};

    ghost left = { λ reader. Some (unread_of reader) };

    ghost to_give = { λ reader. length (unread_of reader) };

    ghost faults = { λ reader. reader.faults };

    ghost waits = { λ reader. reader.waits };

    ghost steady = { is_steady_reader };

    fn due(&self) -> u64 {
        (self.bytes.len() - self.at) as u64
    }

    /// Fails exactly where it was told to, and isn't ready exactly where it was told not to be and
    /// not to fail; else it gives as many bytes as are left and as fit. The poll is counted.
    fn poll_read(&mut self, buf: &mut [u8]) -> Got
        requires buffer { 0 < length buf.old }
        requires due { 0 < length (unread_of self.old) }

        ensures few { IfBytes result (λ n. (0 < n) × (n ≤ length buf.old)) }
        ensures due { IfBytes result (λ n. length (unread_of self.new) + n ≡ length (unread_of self.old)) }
        ensures bytes { IfBytes result (λ n. Gives (Some (unread_of self.old)) (Some (unread_of self.new)) (take n buf.new)) }

        ensures waiting { OnNotReady result ((length (unread_of self.new) ≡ length (unread_of self.old)) × (Some (unread_of self.new) ≡ Some (unread_of self.old))) }
        ensures waited { OnNotReady result (Rose self.old.waits self.new.waits) }
        ensures waits_later { self.old.waits ≤ self.new.waits }

        ensures failed { OnFault result (Rose self.old.faults self.new.faults) }
        ensures faults_later { self.old.faults ≤ self.new.faults }

        ensures gives { IsTrue (is_steady_reader self.old) → IsBytes result }
        ensures steady { is_steady_reader self.new ≡ is_steady_reader self.old }

        ensures answer { result ≡ poll_of self.old (length buf.old) }
        ensures calls { self.new.calls ≡ next_count self.old.calls }
        ensures faults { self.new.faults ≡ counted self.old.faults (is_fault result) }
        ensures waits { self.new.waits ≡ counted self.old.waits (is_not_ready result) }
        ensures kept { (self.new.bytes ≡ self.old.bytes) × (self.new.failing ≡ self.old.failing) × (self.new.waiting ≡ self.old.waiting) }
        ensures place { OnFault result (self.new.at ≡ self.old.at) }
    {
        self.calls = self.calls.saturating_add(1);
        if self.failing.fails(self.calls) {
            self.faults = self.faults.saturating_add(1);
            return Got::Fault;
        }
        if self.waiting.fails(self.calls) {
            self.waits = self.waits.saturating_add(1);
            return Got::NotReady;
        }
        let count = copy_front(&self.bytes[self.at..], buf, usize::MAX);
        self.at += count;
        Got::Bytes(count)
    }
}
