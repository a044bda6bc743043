//! A write that survives a crash, and what an append makes of two of them.

ghost use Rattle.std.specs.Prelude.{◌≡◌, ℕ, ◌+◌, ◌<◌, ◌≤◌, ◌^◌, ◌++◌, ◌∷◌, [], List, length, IsTrue, OnOk};
ghost use Rattle.outside.specs.Fuse.{Burns};
ghost use Rattle.outside.specs.History.{IsImage, Since, after_sync, written};
ghost use Rattle.journal_entry.specs.declared.entry.Entry.{Entry};
ghost use Rattle.journal_disk.specs.AreaText.{next_gate};
ghost use Rattle.journal_disk.specs.Journaling.{CoversCalls};
ghost use Rattle.journal_disk.specs.Staging.{IsAreaOrMore, IsPiece, IsResting, IsStage, SpendsCalls};

use outside::disk::Disk;
use outside::fused::Fused;
use outside::stream::Fault;

/// Writes a piece and lets it survive a crash: two calls.
pub(crate) fn write_synced<D: Disk>(area: &mut Fused<D>, at: u64, piece: &[u8]) -> Result<(), Fault>
    requires within { IsTrue (D.tells area.old.disk) → at ≤ length (D.history area.old.disk).now.held }
    requires covered { CoversCalls 2 (D.spare area.old.disk) (at + length piece.now) (length piece.now) }

    ensures ok { IsTrue (D.tells area.old.disk) → OnOk result (D.history area.new.disk ≡ after_sync (written at piece.now (D.history area.old.disk))) }
    ensures any_moment { IsTrue (D.tells area.old.disk) → Since (D.history area.old.disk) (D.history area.new.disk) (IsStage at piece.now (D.history area.old.disk)) }
    ensures tells { D.tells area.new.disk ≡ D.tells area.old.disk }
    ensures spare { SpendsCalls 2 (D.spare area.old.disk) (D.spare area.new.disk) }
    ensures burns { Burns 2 area.old.fuse area.new.fuse (D.faults area.old.disk) (D.faults area.new.disk) result }
{
    area.write_at(at, piece)?;
    area.sync()
}

/// Writes an entry's text and a closed gate behind the closed gate of an area, and opens that gate:
/// four calls, each write synced before the next.
///
/// At every moment the area has the entries that it had, or the one more.
pub(crate) fn append_text<D: Disk>(
    area: &mut Fused<D>,
    gate: u64,
    piece: &[u8],
) -> Result<(), Fault>
    requires small { gate < 2 ^ 63 }
    requires entry { (e : Entry) × IsPiece piece.now e }
    requires area { (generation : ℕ) × (entries : List Entry) × (IsTrue (D.tells area.old.disk) → IsResting (D.history area.old.disk) generation entries gate) }
    requires covered { CoversCalls 4 (D.spare area.old.disk) (gate + 1 + length piece.now) (length piece.now) }

    ensures ok { IsTrue (D.tells area.old.disk) → (generation : ℕ) (entries : List Entry) (e : Entry) → IsPiece piece.now e → IsResting (D.history area.old.disk) generation entries gate
        → OnOk result (IsResting (D.history area.new.disk) generation (entries ++ e ∷ []) (next_gate gate e)) }
    ensures any_moment { IsTrue (D.tells area.old.disk) → (generation : ℕ) (entries : List Entry) (e : Entry) → IsPiece piece.now e → IsResting (D.history area.old.disk) generation entries gate
        → Since (D.history area.old.disk) (D.history area.new.disk) (λ m. (c : List ℕ) → IsImage m c → IsAreaOrMore generation entries gate e c) }
    ensures tells { D.tells area.new.disk ≡ D.tells area.old.disk }
    ensures spare { SpendsCalls 4 (D.spare area.old.disk) (D.spare area.new.disk) }
    ensures burns { Burns 4 area.old.fuse area.new.fuse (D.faults area.old.disk) (D.faults area.new.disk) result }
{
    write_synced(area, gate + 1, piece)?;
    write_synced(area, gate, &[1])
}
