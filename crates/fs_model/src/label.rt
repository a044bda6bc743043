//! The label under which an actor knows a stream, a writer, a mover or a job.

ghost use Rattle.std.specs.Prelude.{◌≡◌, true, false, IfOk, MatchOption, nat_eq};
ghost use Rattle.fs_model.specs.PathForm.{is_label, is_label_byte};
ghost use Rattle.std.specs.List.{list_all};
ghost use Rattle.std.specs.Cmp.Lexicographic.{pointwise, nat_list_eq_equiv};
ghost use Rattle.std.specs.Cmp.{partial_equiv_from_equiv};

use std::alloc::{AllocError, Global};
use std::marker::Model;

/// A label: 1 to 16 lower-case letters or digits. A contract sees it as its bytes. (This project's own rule.)
#[derive(Debug, Drop)]
pub struct Label {
    bytes: Vec<u8>,
}

impl Model for Label {
    ghost use Rattle.std.specs.Prelude.{ℕ, List, ◌≡◌, true};
    ghost use Rattle.fs_model.specs.PathForm.{is_label};

    ghost Value = { List ℕ };

    ghost view = { λ n. n.bytes.items };

    ghost invariant = { λ n. is_label n.bytes.items ≡ true };
}

/// Whether each byte may stand in a label.
fn has_label_bytes(bytes: &[u8]) -> bool
    ensures { result ≡ list_all is_label_byte bytes.now }
{
    bytes
        .iter()
        .all(|b| b.is_ascii_lowercase() || b.is_ascii_digit())
}

/// Whether the bytes are a label.
pub fn is_label(bytes: &[u8]) -> bool
    ensures { result ≡ is_label bytes.now }
{
    if bytes.is_empty() || bytes.len() > 16 {
        return false;
    }
    has_label_bytes(bytes)
}

impl Label {
    /// The label that the bytes are; `None` exactly where they are none.
    ///
    /// An `Err` is want of memory.
    pub fn read(alloc: Global, bytes: &[u8]) -> Result<Option<Label>, AllocError>
        ensures { IfOk result (λ found. MatchOption found (is_label bytes.now ≡ false) (λ n. (n ≡ bytes.now) × (is_label n ≡ true))) }
    {
        if !is_label(bytes) {
            return Ok(None);
        }
        Ok(Some(Label {
            bytes: Vec::from_slice(alloc, bytes)?,
        }))
    }

    /// The bytes of the label.
    pub fn as_bytes(&self) -> &[u8]
        ensures { result.now ≡ self.now }
    {
        self.bytes.as_slice()
    }
}

impl Clone for Label {
    ghost is_clone = { λ label copy. copy ≡ label };

    fn clone(&self) -> Result<Label, AllocError> {
        Ok(Label {
            bytes: self.bytes.clone()?,
        })
    }
}

impl PartialEq for Label {
    ghost eq = { pointwise nat_eq };

    ghost laws = { partial_equiv_from_equiv nat_list_eq_equiv };

    fn eq(&self, other: &Label) -> bool {
        self.as_bytes() == other.as_bytes()
    }
}

impl Eq for Label {
    ghost laws = { nat_list_eq_equiv };
}
