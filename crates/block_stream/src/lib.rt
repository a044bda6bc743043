//! The bytes of a block as they come, poll by poll.
#![tactic(auto)]

#[cfg(test)]
mod tests;

ghost use Rattle.std.specs.Prelude.{◌≡◌, ◌<◌, ◌≤◌, ◌+◌, false, length, take};
ghost use Rattle.outside.specs.Causes.{Rose};
ghost use Rattle.outside.specs.Streams.{Gives};
ghost use Rattle.block_stream.specs.Polls.{IfPiece, OnNotReady, OnEnd, OnFault};

use outside::objects::{Got, ObjectRead};

/// What a poll of a block's stream gave.
#[derive(Debug, Clone, Copy, PartialEq, Eq)]
pub enum Polled {
    /// So many bytes, at the front of the buffer.
    Piece(usize),
    /// Nothing yet; a later poll may give bytes.
    NotReady,
    /// All bytes have been given.
    End,
    /// The poll failed; the stream can only be dropped.
    Fault,
}

/// The bytes that a reader still has to give, as a stream.
#[derive(Debug, Drop)]
pub struct BlockStream<R> {
    pub reader: R,
}

impl<R: ObjectRead> BlockStream<R> {
    /// The stream of what the reader still has to give.
    pub fn new(reader: R) -> BlockStream<R>
        ensures { result.reader ≡ reader }
    {
        BlockStream { reader }
    }

    /// Puts the next bytes at the front of `buf`, one or more and at most as many as it has room for
    /// and as are due; takes no memory.
    ///
    /// `End` comes exactly where no byte is due, and leaves the stream as it was. `NotReady` comes
    /// only where the reader's waits rose in this call, and leaves what is due and what is left as
    /// they were. `Fault` comes only where the reader's faults rose in this call. Of a steady reader
    /// neither comes.
    pub fn poll_into(&mut self, buf: &mut [u8]) -> Polled
        requires { 0 < length buf.old }

        ensures few { IfPiece result (λ n. (0 < n) × (n ≤ length buf.old)) }
        ensures due { IfPiece result (λ n. R.to_give self.new.reader + n ≡ R.to_give self.old.reader) }
        ensures bytes { IfPiece result (λ n. Gives (R.left self.old.reader) (R.left self.new.reader) (take n buf.new)) }

        ensures end { OnEnd result (R.to_give self.old.reader ≡ 0) }
        ensures at_end { R.to_give self.old.reader ≡ 0 → result ≡ Polled.End }
        ensures ended { OnEnd result (self.new ≡ self.old) }

        ensures waiting { OnNotReady result ((R.to_give self.new.reader ≡ R.to_give self.old.reader) × (R.left self.new.reader ≡ R.left self.old.reader)) }
        ensures waited { OnNotReady result (Rose (R.waits self.old.reader) (R.waits self.new.reader)) }
        ensures waits_later { R.waits self.old.reader ≤ R.waits self.new.reader }

        ensures failed { OnFault result (Rose (R.faults self.old.reader) (R.faults self.new.reader)) }
        ensures faults_later { R.faults self.old.reader ≤ R.faults self.new.reader }

        ensures waits_unsteady { OnNotReady result (R.steady self.old.reader ≡ false) }
        ensures fails_unsteady { OnFault result (R.steady self.old.reader ≡ false) }
        ensures steady { R.steady self.new.reader ≡ R.steady self.old.reader }
    {
        if self.reader.due() == 0 {
            return Polled::End;
        }
        match self.reader.poll_read(buf) {
            Got::Bytes(n) => Polled::Piece(n),
            Got::NotReady => Polled::NotReady,
            Got::Fault => Polled::Fault,
        }
    }
}
