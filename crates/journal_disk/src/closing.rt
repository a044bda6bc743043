//! Writing an area anew.

ghost use Rattle.std.specs.Prelude.{◌≡◌, ℕ, ◌+◌, ◌<◌, ◌≤◌, ◌^◌, List, length, IsTrue, OnOk};
ghost use Rattle.outside.specs.Fuse.{Burns};
ghost use Rattle.outside.specs.History.{IsImage, Since};
ghost use Rattle.journal_disk.specs.Closing.{IsClosed, IsKnown, IsReplaced, IsShut, IsWriting, KeepsHead, Replaces};
ghost use Rattle.journal_disk.specs.Journaling.{CoversCalls, pieces_of};
ghost use Rattle.journal_disk.specs.Staging.{SpendsCalls};

use crate::staging::write_synced;
use outside::disk::Disk;
use outside::fused::Fused;
use outside::stream::Fault;

/// The most bytes of one write.
const PIECE: usize = 65536;

/// Closes the head gate of an area: two calls.
///
/// A gate that is closed already isn't written: a crash in that write could open what a checkpoint
/// that was stopped has left behind it. At every moment the area is closed, or under the head that it
/// had.
fn close_head<D: Disk>(area: &mut Fused<D>, shut: bool) -> Result<(), Fault>
    requires known { IsTrue (D.tells area.old.disk) → IsKnown shut (D.history area.old.disk).now }
    requires covered { CoversCalls 2 (D.spare area.old.disk) 1 1 }

    ensures ok { IsTrue (D.tells area.old.disk) → OnOk result (IsClosed (D.history area.new.disk).now) }
    ensures any_moment { IsTrue (D.tells area.old.disk) → Since (D.history area.old.disk) (D.history area.new.disk)
        (λ m. (c : List ℕ) → IsImage m c → KeepsHead (D.history area.old.disk).now.held c) }
    ensures tells { D.tells area.new.disk ≡ D.tells area.old.disk }
    ensures spare { SpendsCalls 2 (D.spare area.old.disk) (D.spare area.new.disk) }
    ensures burns { Burns 2 area.old.fuse area.new.fuse (D.faults area.old.disk) (D.faults area.new.disk) result }
{
    if shut {
        area.sync()?;
        area.sync()
    } else {
        write_synced(area, 0, &[0])
    }
}

/// Writes a text from place 1 on, in pieces of 65,536 bytes and a last one: a call for each. At every
/// moment the head gate is closed.
fn write_pieces<D: Disk>(area: &mut Fused<D>, text: &[u8]) -> Result<(), Fault>
    requires small { length text.now < 2 ^ 62 }
    requires closed { IsTrue (D.tells area.old.disk) → IsClosed (D.history area.old.disk).now }
    requires covered { CoversCalls (pieces_of (length text.now)) (D.spare area.old.disk) (1 + length text.now) 65536 }

    ensures ok { IsTrue (D.tells area.old.disk) → OnOk result (IsWriting text.now (length text.now) (D.history area.old.disk) (D.history area.new.disk)) }
    ensures any_moment { IsTrue (D.tells area.old.disk) → Since (D.history area.old.disk) (D.history area.new.disk) IsShut }
    ensures tells { D.tells area.new.disk ≡ D.tells area.old.disk }
    ensures spare { SpendsCalls (pieces_of (length text.now)) (D.spare area.old.disk) (D.spare area.new.disk) }
    ensures burns { Burns (pieces_of (length text.now)) area.old.fuse area.new.fuse (D.faults area.old.disk) (D.faults area.new.disk) result }
{
    let mut at: usize = 0;
    let mut count: u64 = 0;
    while at < text.len() {
        let n = if text.len() - at < PIECE {
            text.len() - at
        } else {
            PIECE
        };
        area.write_at(1 + at as u64, &text[at..at + n])?;
        at += n;
        count += 1;
    }
    Ok(())
}

/// Writes an area anew, with the text from place 1 on: five calls, and one for each piece of 65,536
/// bytes of it. The head gate is closed, the text is written and synced, and the head gate is opened.
///
/// At every moment the area is closed, under the head that it had, or open with the whole text.
pub(crate) fn replace<D: Disk>(area: &mut Fused<D>, shut: bool, text: &[u8]) -> Result<(), Fault>
    requires small { length text.now < 2 ^ 62 }
    requires known { IsTrue (D.tells area.old.disk) → IsKnown shut (D.history area.old.disk).now }
    requires covered { CoversCalls (5 + pieces_of (length text.now)) (D.spare area.old.disk) (1 + length text.now) 65536 }

    ensures ok { IsTrue (D.tells area.old.disk) → OnOk result (IsReplaced text.now (D.history area.new.disk).now) }
    ensures any_moment { IsTrue (D.tells area.old.disk) → Since (D.history area.old.disk) (D.history area.new.disk)
        (λ m. (c : List ℕ) → IsImage m c → Replaces text.now (D.history area.old.disk).now.held c) }
    ensures tells { D.tells area.new.disk ≡ D.tells area.old.disk }
    ensures burns { Burns (5 + pieces_of (length text.now)) area.old.fuse area.new.fuse (D.faults area.old.disk) (D.faults area.new.disk) result }
{
    close_head(area, shut)?;
    write_pieces(area, text)?;
    area.sync()?;
    write_synced(area, 0, &[1])
}
