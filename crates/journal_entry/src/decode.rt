//! Reading an entry from its text.

ghost use Rattle.std.specs.Prelude.{◌≡◌, ◌≤◌, ◌++◌, List, ℕ, true, IfOk, IfSome, IfNone, length, take};
ghost use Rattle.journal_entry.specs.declared.entry.Entry.{Entry};
ghost use Rattle.journal_entry.specs.EntryText.{IsEntryText, entry_text, is_entry};
ghost use Rattle.journal_entry.specs.Reading.{Gives, entry_at};

use crate::entry::{Entry, MOST_BODY};
use crate::fault::Fault;
use crate::field::{part_at, u32_at};
use crate::kind::entry_of;
use std::alloc::{AllocError, Global};

/// The entry whose text is at the front, and how many bytes that takes.
#[tactic(auto, unfolding(crate::specs::Reading::entry_at))]
fn entry_at(alloc: Global, text: &[u8]) -> Result<(Entry, usize), Fault>
    ensures { Gives (λ x. x) result (entry_at text.now) }
{
    let (len, rest) = u32_at(text)?;
    if len > MOST_BODY {
        return Err(Fault::NoEntry);
    }
    let (body, _) = part_at(rest, len as usize)?;
    let entry = entry_of(alloc, body)?;
    Ok((entry, 4 + len as usize))
}

/// Reads the entry whose text is at the front of some bytes, and tells how many bytes that text has. `None` exactly
/// where no front of the bytes is the text of an entry. Other bytes may follow, and make no difference. (This
/// project's own rule; the format of entries stands in `docs/FORMATS.md`.)
///
/// An `Err` is want of memory.
pub fn decode(alloc: Global, text: &[u8]) -> Result<Option<(Entry, usize)>, AllocError>
    // What is read is the text of the entry.
    ensures found { IfOk result (λ found. IfSome found (λ x. IsEntryText (take x.1 text.now) x.0 × (x.1 ≤ length text.now))) }

    // Nothing is read only where no front is the text of an entry.
    ensures none { IfOk result (λ found. IfNone found ((e : Entry) (n : ℕ) → IsEntryText (take n text.now) e → ⊥)) }

    // The text of an entry is read as it, whatever follows.
    ensures only { (e : Entry) (rest : List ℕ) → is_entry e ≡ true → text.now ≡ entry_text e ++ rest → IfOk result (λ found. found ≡ Some (e, length (entry_text e))) }

    // Which entry it is.
    ensures exact { IfOk result (λ found. found ≡ entry_at text.now) }
{
    match entry_at(alloc, text) {
        Ok(found) => Ok(Some(found)),
        Err(Fault::NoEntry) => Ok(None),
        Err(Fault::Memory) => Err(AllocError),
    }
}
