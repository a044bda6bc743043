//! Stores of objects, with their readers and writers: under-stores and the tiers of workers alike.

ghost use Rattle.std.specs.Prelude.{◌≡◌, ◌⊎◌, ◌<◌, ◌≤◌, ◌+◌, ℕ, Bool, List, [], ◌++◌, length, take, IfOk, IfSome, OnOk, OnErr, IsOk, IsErr, IsTrue, Err, Some, None, false, option_map};
ghost use Rattle.std.specs.declared.option.Option.{Option};
ghost use Rattle.std.specs.Option.{option_copied};
ghost use Rattle.outside.specs.Causes.{HasCause, Rose};
ghost use Rattle.outside.specs.Streams.{Gives, Takes};
ghost use Rattle.outside.specs.Contents.{Changes, Contents, Happens, IsCrossed, IsFirst, IsMoveCrossed, IsRange, IsSame, IsThinned, SaysThere, emptied, is_after, is_short, moved, put_at};
ghost use Rattle.outside.specs.Polls.{IfBytes, IsBytes, OnFault, OnNotReady};

use crate::key::Key;
use crate::stream::Fault;
use crate::world::Fail;
use std::alloc::AllocError;

/// What a poll of a reader gave.
#[derive(Debug, Clone, Copy, PartialEq, Eq)]
pub enum Got {
    /// So many bytes, at the front of the buffer.
    Bytes(usize),
    /// Nothing yet; a later poll may give bytes.
    NotReady,
    /// The poll failed; the reader can only be dropped.
    Fault,
}

/// A reader of a range of an object. It goes on with the object's bytes after the key is renamed,
/// removed or cleared.
pub trait ObjectRead: Drop {
    /// The bytes of its range that are left, where it tells.
    ghost left: { Self → Option (List ℕ) };

    /// How many bytes it still has to give.
    ghost to_give: { Self → ℕ };

    /// How often it has failed, up to 2^64 - 1; it never falls.
    ghost faults: { Self → ℕ };

    /// How often it wasn't ready, up to 2^64 - 1; it never falls.
    ghost waits: { Self → ℕ };

    /// Whether it tells that it is steady: no poll of a steady reader fails or isn't ready.
    ghost steady: { Self → Bool };

    /// How many bytes it still has to give.
    fn due(&self) -> u64
        ensures { result ≡ to_give self.now };

    /// Puts the next bytes at the front of `buf`, one or more and at most as many as it has room for
    /// and as are due; takes no memory.
    ///
    /// `NotReady` comes only where `waits` rose in this call, and leaves what is due and what is
    /// left as they were. `Fault` comes only where `faults` rose in this call. Of a steady reader
    /// neither comes.
    fn poll_read(&mut self, buf: &mut [u8]) -> Got
        requires buffer { 0 < length buf.old }
        requires due { 0 < to_give self.old }

        ensures few { IfBytes result (λ n. (0 < n) × (n ≤ length buf.old)) }
        ensures due { IfBytes result (λ n. to_give self.new + n ≡ to_give self.old) }
        ensures bytes { IfBytes result (λ n. Gives (left self.old) (left self.new) (take n buf.new)) }

        ensures waiting { OnNotReady result ((to_give self.new ≡ to_give self.old) × (left self.new ≡ left self.old)) }
        ensures waited { OnNotReady result (Rose (waits self.old) (waits self.new)) }
        ensures waits_later { waits self.old ≤ waits self.new }

        ensures failed { OnFault result (Rose (faults self.old) (faults self.new)) }
        ensures faults_later { faults self.old ≤ faults self.new }

        ensures gives { IsTrue (steady self.old) → IsBytes result }
        ensures steady { steady self.new ≡ steady self.old };
}

/// A writer of the bytes of an object to be.
pub trait ObjectWrite: Drop {
    /// The bytes that it took, where it tells.
    ghost taken: { Self → Option (List ℕ) };

    /// How many bytes it took.
    ghost written: { Self → ℕ };

    /// How many bytes more it takes without memory.
    ghost spare: { Self → ℕ };

    /// How often it has failed, up to 2^64 - 1; it never falls.
    ghost faults: { Self → ℕ };

    /// Whether it tells that it is steady: no put of a steady writer fails.
    ghost steady: { Self → Bool };

    /// Makes `spare` at least `count`. An `Err` is want of memory. In either case what it took stays,
    /// and `spare` doesn't fall.
    fn reserve(&mut self, count: u64) -> Result<(), AllocError>
        ensures spare { OnOk result (count ≤ spare self.new) }
        ensures no_less { spare self.old ≤ spare self.new }
        ensures taken { taken self.new ≡ taken self.old }
        ensures written { written self.new ≡ written self.old }
        ensures faults { faults self.new ≡ faults self.old }
        ensures steady { steady self.new ≡ steady self.old };

    /// Takes the whole piece; takes no memory. `Fault` comes only where `faults` rose in this call,
    /// and never of a steady writer; then the writer can only be dropped.
    fn put(&mut self, piece: &[u8]) -> Result<(), Fault>
        requires { length piece.now ≤ spare self.old }
        ensures bytes { OnOk result (Takes (taken self.old) (taken self.new) piece.now) }
        ensures written { OnOk result (written self.new ≡ written self.old + length piece.now) }
        ensures spare { OnOk result (spare self.old ≤ spare self.new + length piece.now) }
        ensures cause { HasCause (faults self.old) (faults self.new) result }

        ensures takes { IsTrue (steady self.old) → IsOk result }
        ensures steady { steady self.new ≡ steady self.old };

    /// How many bytes it took.
    fn len(&self) -> u64
        ensures { result ≡ written self.now };
}

/// A store of objects: bytes at keys, which it may tell. Its calls keep it so that no key is a proper
/// prefix of another as a list of names.
///
/// A call answers `Fault` or `Failed` only where one of its counts rose in that call: `misses` where
/// the object that it needs isn't there, or its key can't stand beside another's, on a store that
/// tells; else `faults`. An object changes only where `changes` rises, by 1.
pub trait Objects {
    type Reader: ObjectRead;

    type Writer: ObjectWrite;

    /// What it holds, where it tells.
    ghost told: { Self → Option Contents };

    /// How often it has failed, up to 2^64 - 1; it never falls.
    ghost faults: { Self → ℕ };

    /// How often a call was a miss, up to 2^64 - 1; it never falls.
    ghost misses: { Self → ℕ };

    /// How often an object may have changed; it never falls.
    ghost changes: { Self → ℕ };

    /// Whether it tells that it is steady: the readers and writers of a steady store are steady.
    ghost steady: { Self → Bool };

    /// A reader of `len` bytes of an object, from place `at` on. An object that is absent or shorter
    /// is a miss. No object changes.
    fn begin_read(&mut self, key: &Key, at: u64, len: u64) -> Result<Self::Reader, Fail>
        ensures range { IfOk result (λ reader. IsRange (told self.old) key.now at len (Self.Reader.left reader)) }
        ensures due { IfOk result (λ reader. Self.Reader.to_give reader ≡ len) }
        ensures reads { IfOk result (λ reader. IsTrue (steady self.old) → IsTrue (Self.Reader.steady reader)) }

        ensures failed { result ≡ Err Fail.Failed → Rose (faults self.old) (faults self.new) ⊎ IsTrue (is_short (told self.old) key.now (at + len)) }
        ensures missed { IsTrue (is_short (told self.old) key.now (at + len)) → (result ≡ Err Fail.Failed) × Rose (misses self.old) (misses self.new) }
        ensures met { is_short (told self.old) key.now (at + len) ≡ false → misses self.new ≡ misses self.old }
        ensures later { faults self.old ≤ faults self.new }

        ensures told { told self.new ≡ told self.old }
        ensures changes { changes self.new ≡ changes self.old }
        ensures steady { steady self.new ≡ steady self.old };

    /// An empty writer, which tells where the store does. There is no object yet.
    fn begin_write(&mut self) -> Result<Self::Writer, Fail>
        ensures empty { IfOk result (λ writer. Self.Writer.taken writer ≡ option_map (λ _. []) (told self.old)) }
        ensures written { IfOk result (λ writer. Self.Writer.written writer ≡ 0) }
        ensures writes { IfOk result (λ writer. IsTrue (steady self.old) → IsTrue (Self.Writer.steady writer)) }

        ensures failed { result ≡ Err Fail.Failed → Rose (faults self.old) (faults self.new) }
        ensures later { faults self.old ≤ faults self.new }
        ensures misses { misses self.new ≡ misses self.old }

        ensures told { told self.new ≡ told self.old }
        ensures changes { changes self.new ≡ changes self.old }
        ensures steady { steady self.new ≡ steady self.old };

    /// The key has the writer's bytes from now on, in place of any that it had; takes no memory. A
    /// key that can't stand beside another's is a miss. After `Fault` this has happened whole or not
    /// at all, and at a miss not at all.
    fn finish(&mut self, writer: Self::Writer, key: Key) -> Result<(), Fault>
        ensures bytes { (bytes : List ℕ) → Self.Writer.taken writer ≡ option_map (λ _. bytes) (told self.old) → Happens (put_at key (Some bytes)) (told self.old) (told self.new) result }

        ensures failed { OnErr result (Rose (faults self.old) (faults self.new) ⊎ IsCrossed (told self.old) key) }
        ensures missed { IsCrossed (told self.old) key → IsErr result × Rose (misses self.old) (misses self.new) × IsSame (told self.old) (told self.new) }
        ensures met { (IsCrossed (told self.old) key → ⊥) → misses self.new ≡ misses self.old }
        ensures later { faults self.old ≤ faults self.new }

        ensures changes { Changes (told self.old) (told self.new) (changes self.old) (changes self.new) }
        ensures steady { steady self.new ≡ steady self.old };

    /// Moves an object to another key, in place of any that stands there, and says whether it was
    /// there; takes no memory. A key that can't stand beside another's is a miss. After `Fault` this
    /// has happened whole or not at all, and at a miss not at all.
    fn rename(&mut self, from: &Key, to: Key) -> Result<bool, Fault>
        ensures moves { Happens (moved from.now to) (told self.old) (told self.new) result }
        ensures there { IfOk result (SaysThere (told self.old) from.now) }

        ensures failed { OnErr result (Rose (faults self.old) (faults self.new) ⊎ IsMoveCrossed (told self.old) from.now to) }
        ensures missed { IsMoveCrossed (told self.old) from.now to → IsErr result × Rose (misses self.old) (misses self.new) × IsSame (told self.old) (told self.new) }
        ensures met { (IsMoveCrossed (told self.old) from.now to → ⊥) → misses self.new ≡ misses self.old }
        ensures later { faults self.old ≤ faults self.new }

        ensures changes { Changes (told self.old) (told self.new) (changes self.old) (changes self.new) }
        ensures steady { steady self.new ≡ steady self.old };

    /// Removes an object, and says whether it was there; takes no memory. After `Fault` this has
    /// happened or not.
    fn remove(&mut self, key: &Key) -> Result<bool, Fault>
        ensures removes { Happens (put_at key.now None) (told self.old) (told self.new) result }
        ensures there { IfOk result (SaysThere (told self.old) key.now) }

        ensures cause { HasCause (faults self.old) (faults self.new) result }
        ensures misses { misses self.new ≡ misses self.old }

        ensures changes { Changes (told self.old) (told self.new) (changes self.old) (changes self.new) }
        ensures steady { steady self.new ≡ steady self.old };

    /// The least key at or below `under` and after `after`, if there is one, with the length of its
    /// object; `None` where there is no such object. No object changes.
    fn next_key(&mut self, under: &Key, after: Option<&Key>) -> Result<Option<(Key, u64)>, Fail>
        ensures first { IfOk result (λ found. IfSome (told self.old) (IsFirst (is_after under.now (option_copied after.entry)) found)) }

        ensures failed { result ≡ Err Fail.Failed → Rose (faults self.old) (faults self.new) }
        ensures later { faults self.old ≤ faults self.new }
        ensures misses { misses self.new ≡ misses self.old }

        ensures told { told self.new ≡ told self.old }
        ensures changes { changes self.new ≡ changes self.old }
        ensures steady { steady self.new ≡ steady self.old };

    /// Removes every object; takes no memory. After `Fault` some are gone.
    fn clear(&mut self) -> Result<(), Fault>
        ensures empty { OnOk result (IsSame (option_map emptied (told self.old)) (told self.new)) }
        ensures thinned { IsThinned (told self.old) (told self.new) }

        ensures cause { HasCause (faults self.old) (faults self.new) result }
        ensures misses { misses self.new ≡ misses self.old }

        ensures changes { Changes (told self.old) (told self.new) (changes self.old) (changes self.new) }
        ensures steady { steady self.new ≡ steady self.old };
}
