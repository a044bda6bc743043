//! Text in parts.

ghost use Rattle.std.specs.Prelude.{◌≡◌, ◌==◌, ◌+◌, ◌≤◌, IfOk, length};
ghost use Rattle.fs_model.specs.PathText.{parts_at, slices};

use std::alloc::{AllocError, Global};

/// The parts of a text, cut at each byte `at`: one more than there are such bytes.
///
/// An `Err` is want of memory.
pub fn cut(alloc: Global, text: &[u8], at: u8) -> Result<Vec<&[u8]>, AllocError>
    ensures parts { IfOk result (λ v. slices v.items ≡ parts_at at text.now) }
    ensures few { IfOk result (λ v. length v.items ≤ length text.now + 1) }
{
    text.split(|b| *b == at).collect(alloc)
}
