//! Where bytes come from and go to, and whole texts read from and given to them.

ghost use Rattle.std.specs.Prelude.{◌≡◌, ◌<◌, ◌≤◌, ◌+◌, List, ℕ, [], length, take, vec_len, OnOk, OnErr, IfOk, IfSome, IsOk, Err};
ghost use Rattle.std.specs.declared.option.Option.{Option};
ghost use Rattle.outside.specs.Causes.{HasCause, Rose};
ghost use Rattle.outside.specs.Streams.{Gives, GivesAll, Pulls, Pushes, Takes};

use std::alloc::{AllocError, Global};

/// A call of the outside failed.
#[derive(Debug, Clone, Copy, PartialEq, Eq)]
pub struct Fault;

/// Bytes that come one after the other.
pub trait Source {
    /// The bytes that are left, where the source tells them.
    ghost left: { Self → Option (List ℕ) };

    /// How often it has failed, up to 2^64 - 1; it never falls.
    ghost faults: { Self → ℕ };

    /// Puts the next bytes at the front of `buf`, at most as many as it has room for, and answers
    /// how many. 0 for a buffer that isn't empty is the end.
    ///
    /// `Fault` comes only where `faults` rose in this call; what is left is then as before. Whether
    /// the source tells is the same before and after each call.
    fn pull(&mut self, buf: &mut [u8]) -> Result<usize, Fault>
        ensures bytes { Pulls (left self.old) (left self.new) buf.new result }
        ensures cause { HasCause (faults self.old) (faults self.new) result };
}

/// What takes bytes, one after the other.
pub trait Sink {
    /// The bytes that it took, where the sink tells them.
    ghost taken: { Self → Option (List ℕ) };

    /// How often it has failed, up to 2^64 - 1; it never falls.
    ghost faults: { Self → ℕ };

    /// Takes the first bytes of a piece, at least one, and answers how many.
    ///
    /// `Fault` comes only where `faults` rose in this call; the sink has then taken a prefix of the
    /// piece, perhaps nothing. Whether the sink tells is the same before and after each call.
    fn push(&mut self, piece: &[u8]) -> Result<usize, Fault>
        requires { 0 < length piece.now }
        ensures bytes { Pushes (taken self.old) (taken self.new) piece.now result }
        ensures cause { HasCause (faults self.old) (faults self.new) result };
}

/// Gives a whole text to a sink, in as many pushes as it needs; an empty text needs none.
///
/// `Fault` comes only where the sink's count rose in this call; the sink has then taken a prefix of
/// the text, perhaps nothing. No memory.
pub fn push_all<S: Sink>(sink: &mut S, text: &[u8]) -> Result<(), Fault>
    ensures whole { OnOk result (Takes (S.taken sink.old) (S.taken sink.new) text.now) }
    ensures partly { OnErr result ((n : ℕ) × Takes (S.taken sink.old) (S.taken sink.new) (take n text.now)) }
    ensures cause { HasCause (S.faults sink.old) (S.faults sink.new) result }
    ensures empty { text.now ≡ [] → IsOk result × (sink.new ≡ sink.old) }
{
    let mut at = 0;
    'pushing: while at < text.len() {
        at += sink.push(&text[at..])?;
    }
    Ok(())
}

/// Why a source was not read to its end.
#[derive(Debug, Clone, Copy, PartialEq, Eq)]
pub enum ReadStop {
    /// A pull failed.
    Fault,
    /// The source had more bytes than were asked for.
    TooLong,
    /// There was no memory for the bytes.
    Memory,
}

impl From<Fault> for ReadStop {
    ghost use Rattle.outside.specs.declared.stream.ReadStop.TheVariants.{Fault};

    ghost from_gives = { λ _ stop. stop ≡ Fault };

    fn from(_fault: Fault) -> ReadStop {
        ReadStop::Fault
    }
}

impl From<AllocError> for ReadStop {
    ghost use Rattle.outside.specs.declared.stream.ReadStop.TheVariants.{Memory};

    ghost from_gives = { λ _ stop. stop ≡ Memory };

    fn from(_error: AllocError) -> ReadStop {
        ReadStop::Memory
    }
}

/// How many bytes are pulled at once.
const PIECE: usize = 8192;

/// Reads a source to its end and answers all that it had left, `limit` bytes at the most.
///
/// It pulls at most `limit + 1` bytes, and each pull gives a byte, the end or a fault. `TooLong`
/// comes exactly where it pulled `limit + 1`: the source had more than `limit` bytes left. `Fault`
/// comes only where the source's count rose in this call. After each error the bytes that it pulled
/// are lost; after `Fault` and `Memory` these are at most `limit`.
pub fn read_all<S: Source>(alloc: Global, source: &mut S, limit: usize) -> Result<Vec<u8>, ReadStop>
    ensures whole { IfOk result (λ bytes. GivesAll (S.left source.old) (S.left source.new) bytes.items) }
    ensures short { IfOk result (λ bytes. vec_len bytes ≤ limit) }

    ensures long { result ≡ Err ReadStop.TooLong → (bytes : List ℕ) × (length bytes ≡ limit + 1) × Gives (S.left source.old) (S.left source.new) bytes }
    ensures longer { result ≡ Err ReadStop.TooLong → IfSome (S.left source.old) (λ text. limit < length text) }
    ensures failed { result ≡ Err ReadStop.Fault → (bytes : List ℕ) × (length bytes ≤ limit) × Gives (S.left source.old) (S.left source.new) bytes }
    ensures memory { result ≡ Err ReadStop.Memory → (bytes : List ℕ) × (length bytes ≤ limit) × Gives (S.left source.old) (S.left source.new) bytes }

    ensures cause { result ≡ Err ReadStop.Fault → Rose (S.faults source.old) (S.faults source.new) }
    ensures later { S.faults source.old ≤ S.faults source.new }
{
    let mut bytes = Vec::new(alloc);
    let mut buf = [0u8; PIECE];
    'pulling: while bytes.len() < limit {
        let room = (limit - bytes.len()).min(PIECE);
        let count = source.pull(&mut buf[..room])?;
        if count == 0 {
            return Ok(bytes);
        }
        bytes.extend_from_slice(&buf[..count])?;
    }
    if source.pull(&mut buf[..1])? > 0 {
        return Err(ReadStop::TooLong);
    }
    Ok(bytes)
}
