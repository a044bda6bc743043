//! The writers of a store in memory, and the objects that they make.

ghost use Rattle.std.specs.Prelude.{◌≡◌, ◌≤◌, ◌+◌, ◌-◌, ◌∷◌, [], None, Some, length, IfOk, OnOk, OnErr, IsOk, IsTrue, is_err, vec_len, vec_capacity};
ghost use Rattle.std.specs.LinkedList.{linked_list_len};
ghost use Rattle.outside.specs.Causes.{HasCause, next_count};
ghost use Rattle.outside.specs.Streams.{Takes};
ghost use Rattle.outside_mem.specs.Counts.{counted};
ghost use Rattle.outside_mem.specs.Failures.{is_failing, is_quiet};

use crate::failures::Failing;
use outside::key::Key;
use outside::objects::ObjectWrite;
use outside::stream::Fault;
use std::alloc::{AllocError, Global};
use std::collections::LinkedList;

/// An object of a store in memory.
#[derive(Debug, Drop)]
pub struct MemObject {
    pub key: Key,
    pub bytes: Vec<u8>,
}

/// A writer that keeps its bytes in memory, and tells all that it took. It has the place in a list
/// that its object is to have, so that an end takes no memory.
#[derive(Debug, Drop)]
pub struct MemWriter {
    /// The bytes that it took.
    pub bytes: Vec<u8>,
    /// The puts that fail.
    pub failing: Failing,
    /// How many puts there were, up to 2^64 - 1.
    pub calls: u64,
    /// How many of them failed, up to 2^64 - 1.
    pub faults: u64,
    /// One object, in whose place the writer's object comes.
    place: LinkedList<MemObject>,
    ghost single: { linked_list_len place ≡ 1 },
}

impl MemWriter {
    /// A writer that took nothing yet, and whose puts don't fail. An `Err` is want of memory.
    pub fn new(alloc: Global) -> Result<MemWriter, AllocError>
        ensures taken { IfOk result (λ writer. writer.bytes.items ≡ []) }
        ensures failing { IfOk result (λ writer. (writer.failing.calls.items ≡ []) × (writer.failing.from ≡ None)) }
        ensures counts { IfOk result (λ writer. (writer.calls ≡ 0) × (writer.faults ≡ 0)) }
    {
        let mut place = LinkedList::new(alloc);
        place.push_back(MemObject {
            key: Key::from_names(Vec::new(alloc)),
            bytes: Vec::new(alloc),
        })?;
        Ok(MemWriter {
            bytes: Vec::new(alloc),
            failing: Failing::none(alloc),
            calls: 0,
            faults: 0,
            place,
        })
    }

    /// Its object at a key, as a list of one; takes no memory.
    pub(crate) fn into_object(self, key: Key) -> LinkedList<MemObject>
        ensures { result ≡ (record { key = key; bytes = self.bytes }) ∷ [] }
    {
        let MemWriter {
            bytes,
            mut place,
            ..
        } = self;
        if let Some(object) = place.front_mut() {
            *object = MemObject { key, bytes };
        }
        place
    }
}

impl ObjectWrite for MemWriter {
    ghost taken = { λ writer. Some writer.bytes.items };

    ghost written = { λ writer. length writer.bytes.items };

    ghost spare = { λ writer. vec_capacity writer.bytes - length writer.bytes.items };

    ghost faults = { λ writer. writer.faults };

    ghost steady = { λ writer. is_quiet writer.failing };

    /// Fails for want of memory alone, which doesn't come while so many bytes fit.
    fn reserve(&mut self, count: u64) -> Result<(), AllocError>
        ensures spare { OnOk result (count ≤ vec_capacity self.new.bytes - length self.new.bytes.items) }
        ensures no_less { vec_capacity self.old.bytes - length self.old.bytes.items ≤ vec_capacity self.new.bytes - length self.new.bytes.items }
        ensures taken { Some self.new.bytes.items ≡ Some self.old.bytes.items }
        ensures written { length self.new.bytes.items ≡ length self.old.bytes.items }
        ensures faults { self.new.faults ≡ self.old.faults }
        ensures steady { is_quiet self.new.failing ≡ is_quiet self.old.failing }

        ensures fits { count ≤ vec_capacity self.old.bytes - length self.old.bytes.items → IsOk result }
        ensures kept { (self.new.failing ≡ self.old.failing) × (self.new.calls ≡ self.old.calls) }
    {
        self.bytes.try_reserve(count as usize)
    }

    /// Fails exactly where it was told to, and then has taken nothing. The call is counted.
    fn put(&mut self, piece: &[u8]) -> Result<(), Fault>
        requires { length piece.now ≤ vec_capacity self.old.bytes - length self.old.bytes.items }
        ensures bytes { OnOk result (Takes (Some self.old.bytes.items) (Some self.new.bytes.items) piece.now) }
        ensures written { OnOk result (length self.new.bytes.items ≡ length self.old.bytes.items + length piece.now) }
        ensures spare { OnOk result (vec_capacity self.old.bytes - length self.old.bytes.items ≤ vec_capacity self.new.bytes - length self.new.bytes.items + length piece.now) }
        ensures cause { HasCause self.old.faults self.new.faults result }

        ensures takes { IsTrue (is_quiet self.old.failing) → IsOk result }
        ensures steady { is_quiet self.new.failing ≡ is_quiet self.old.failing }

        ensures answer { is_err result ≡ is_failing self.old.failing (next_count self.old.calls) }
        ensures nothing { OnErr result (self.new.bytes.items ≡ self.old.bytes.items) }
        ensures calls { self.new.calls ≡ next_count self.old.calls }
        ensures faults { self.new.faults ≡ counted self.old.faults (is_err result) }
        ensures kept { self.new.failing ≡ self.old.failing }
    {
        self.calls = self.calls.saturating_add(1);
        if self.failing.fails(self.calls) {
            self.faults = self.faults.saturating_add(1);
            return Err(Fault);
        }
        self.bytes.extend_from_slice(piece).unwrap();
        Ok(())
    }

    fn len(&self) -> u64 {
        self.bytes.len() as u64
    }
}
