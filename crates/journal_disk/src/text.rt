//! The text of an area: where its closed gate stands, and its bytes.

ghost use Rattle.std.specs.Prelude.{◌≡◌, ◌+◌, ◌<◌, ◌≤◌, ◌^◌, ◌++◌, true, IfNone, IfOk, IfSome, OnOk};
ghost use Rattle.std.specs.List.{AllPass, flat_map};
ghost use Rattle.journal_entry.specs.EntryText.{fits, is_entry};
ghost use Rattle.journal_disk.specs.AreaText.{behind_head, gate_behind, gated};

use journal_entry::encode::encode;
use journal_entry::entry::{Entries, Entry};
use std::alloc::{AllocError, Global};

/// The room that an entry wants: its open gate, and what `encode` asks for.
const ROOM: usize = 8257;

/// The place of the closed gate behind these entries, in bytes from the area's front, where it is
/// below the limit.
fn gate_below(entries: &[Entry], limit: u64) -> Option<u64>
    requires limit { limit ≤ 2 ^ 30 }
    requires fit { AllPass fits entries.now }

    ensures some { IfSome result (λ gate. (gate ≡ gate_behind entries.now) × (gate < limit)) }
    ensures none { IfNone result (limit ≤ gate_behind entries.now) }
{
    let mut gate: u64 = 9;
    for entry in entries {
        if limit <= gate {
            return None;
        }
        gate += 1 + entry.text_len();
    }
    if gate < limit { Some(gate) } else { None }
}

/// The place of the closed gate behind these entries, in bytes from the area's front; `None` exactly
/// where an area up to that gate is longer than the limit.
pub(crate) fn gate_behind(entries: &Entries, limit: u64) -> Option<u64>
    requires limit { limit ≤ 2 ^ 30 }
    requires fit { AllPass fits entries.now }

    ensures some { IfSome result (λ gate. (gate ≡ gate_behind entries.now) × (gate + 1 ≤ limit)) }
    ensures none { IfNone result (limit < gate_behind entries.now + 1) }
{
    gate_below(entries.as_slice(), limit)
}

/// Writes an entry's text at the end of some bytes, behind an open gate.
///
/// An `Err` is want of memory.
fn put_one(out: &mut Vec<u8>, entry: &Entry) -> Result<(), AllocError>
    requires fit { fits entry.now ≡ true }

    ensures text { OnOk result (out.new.items ≡ out.old.items ++ gated entry.now) }
    ensures entry { OnOk result (is_entry entry.now ≡ true) }
{
    out.reserve(ROOM)?;
    out.push(1)?;
    encode(entry, out);
    Ok(())
}

/// Writes each entry's text at the end of some bytes, behind an open gate.
///
/// An `Err` is want of memory.
fn put_gated(out: &mut Vec<u8>, entries: &[Entry]) -> Result<(), AllocError>
    requires fit { AllPass fits entries.now }

    ensures text { OnOk result (out.new.items ≡ out.old.items ++ flat_map gated entries.now) }
    ensures entries { OnOk result (AllPass is_entry entries.now) }
{
    for entry in entries {
        put_one(out, entry)?;
    }
    Ok(())
}

/// What stands behind the head gate of an area: the generation, each entry behind an open gate, and a
/// closed gate.
///
/// An `Err` is want of memory.
pub(crate) fn text_of(
    alloc: Global,
    generation: u64,
    entries: &Entries,
) -> Result<Vec<u8>, AllocError>
    requires fit { AllPass fits entries.now }

    ensures text { IfOk result (λ text. text.items ≡ behind_head generation entries.now) }
    ensures entries { OnOk result (AllPass is_entry entries.now) }
{
    let mut text = Vec::from_slice(alloc, &generation.to_be_bytes())?;
    put_gated(&mut text, entries.as_slice())?;
    text.push(0)?;
    Ok(text)
}
