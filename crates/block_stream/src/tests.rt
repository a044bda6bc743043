//! A block's stream over a reader that plays a list of polls.

ghost use Rattle.std.specs.Prelude.{◌≡◌, None, false};

use crate::{BlockStream, Polled};
use outside::objects::{Got, ObjectRead};
use std::alloc::Global;
use std::test::Fail as Failure;

/// A reader of the bytes 1, 2, 3 and so on. Its polls go as the list says, and after that each gives
/// all that it may.
#[derive(Drop)]
struct Listed {
    polls: Vec<Got>,
    next_poll: usize,
    next_byte: u8,
    due: u64,
    faults: u64,
    waits: u64,
}

/// Fills a buffer with bytes that rise from the first one, and answers the next.
fn fill(buf: &mut [u8], first: u8) -> u8 {
    let mut next = first;
    for byte in buf {
        *byte = next;
        next = next.wrapping_add(1);
    }
    next
}

impl Listed {
    /// A reader of so many bytes.
    fn of(alloc: Global, due: u64, polls: &[Got]) -> Result<Listed, Failure> {
        Ok(Listed {
            polls: Vec::from_slice(alloc, polls)?,
            next_poll: 0,
            next_byte: 1,
            due,
            faults: 0,
            waits: 0,
        })
    }

    /// What the next poll is to give.
    fn planned(&mut self) -> Got
        ensures due { self.new.due ≡ self.old.due }
        ensures faults { self.new.faults ≡ self.old.faults }
        ensures waits { self.new.waits ≡ self.old.waits }
    {
        match self.polls.get(self.next_poll) {
            None => Got::Bytes(usize::MAX),
            Some(got) => {
                self.next_poll = self.next_poll.saturating_add(1);
                *got
            }
        }
    }
}

impl ObjectRead for Listed {
    ghost left = { λ _. None };

    ghost to_give = { λ reader. reader.due };

    ghost faults = { λ reader. reader.faults };

    ghost waits = { λ reader. reader.waits };

    ghost steady = { λ _. false };

    fn due(&self) -> u64 {
        self.due
    }

    fn poll_read(&mut self, buf: &mut [u8]) -> Got {
        match self.planned() {
            Got::Bytes(count) => {
                let count = count.max(1).min(buf.len()).min(self.due as usize);
                self.due -= count as u64;
                self.next_byte = fill(&mut buf[..count], self.next_byte);
                Got::Bytes(count)
            }
            Got::NotReady => {
                self.waits = self.waits.saturating_add(1);
                Got::NotReady
            }
            Got::Fault => {
                self.faults = self.faults.saturating_add(1);
                Got::Fault
            }
        }
    }
}

#[test]
fn bytes_come_in_order_up_to_the_end(rt: HostRuntime) -> Result<(), Failure> {
    let polls = [Got::Bytes(2), Got::NotReady, Got::Bytes(9), Got::NotReady];
    let mut stream = BlockStream::new(Listed::of(rt.alloc(), 6, &polls)?);
    for (want, bytes) in [
        (Polled::Piece(2), [1, 2, 0]),
        (Polled::NotReady, [0, 0, 0]),
        (Polled::Piece(3), [3, 4, 5]),
        (Polled::NotReady, [0, 0, 0]),
        (Polled::Piece(1), [6, 0, 0]),
        (Polled::End, [0, 0, 0]),
        (Polled::End, [0, 0, 0]),
    ] {
        let mut buf = [0; 3];
        assert_eq!(rt; stream.poll_into(&mut buf), want);
        assert_eq!(rt; buf, bytes, "at {want:?}");
    }
    assert_eq!(rt; stream.reader.waits, 2);
    Ok(())
}

#[test]
fn a_reader_of_nothing_is_at_its_end(rt: HostRuntime) -> Result<(), Failure> {
    let mut stream = BlockStream::new(Listed::of(rt.alloc(), 0, &[Got::NotReady, Got::Fault])?);
    assert_eq!(rt; stream.poll_into(&mut [7; 4]), Polled::End);
    assert_eq!(rt; stream.reader.waits, 0);
    Ok(())
}

#[test]
fn a_failed_poll_is_a_fault(rt: HostRuntime) -> Result<(), Failure> {
    let mut stream = BlockStream::new(Listed::of(rt.alloc(), 4, &[Got::Bytes(1), Got::Fault])?);
    assert_eq!(rt; stream.poll_into(&mut [7; 4]), Polled::Piece(1));
    assert_eq!(rt; stream.poll_into(&mut [7; 4]), Polled::Fault);
    assert_eq!(rt; stream.reader.faults, 1);
    Ok(())
}
