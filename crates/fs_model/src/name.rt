//! A name: what stands between two slashes of a path.

ghost use Rattle.std.specs.Prelude.{◌≡◌, ◌<◌, ◌^◌, true, false, IfOk, MatchOption, nat_eq, refl, Some};
ghost use Rattle.fs_model.specs.PathForm.{is_name, is_name_byte, is_kept_name};
ghost use Rattle.fs_model.specs.PathLength.{path_bytes};
ghost use Rattle.std.specs.List.{list_all};
ghost use Rattle.std.specs.Str.{is_utf8};
ghost use Rattle.std.specs.Ordering.{nat_cmp};
ghost use Rattle.std.specs.Cmp.Lexicographic.{pointwise, slice_cmp, nat_list_eq_equiv, nat_list_cmp_total, texts_ties, texts_po};
ghost use Rattle.std.specs.Cmp.{partial_equiv_from_equiv};

use std::alloc::{AllocError, Global};
use std::cmp::Ordering;
use std::marker::Model;
use std::str;

/// A name: 1 to 255 bytes of UTF-8 without `/` and without a zero byte, other than `.` and `..`,
/// that don't begin with `.tierfs`. A contract sees it as its bytes. (This project's own rule.)
#[derive(Debug, Drop)]
pub struct Name {
    bytes: Vec<u8>,
}

impl Model for Name {
    ghost use Rattle.std.specs.Prelude.{ℕ, List, ◌≡◌, true};
    ghost use Rattle.fs_model.specs.PathForm.{is_name};

    ghost Value = { List ℕ };

    ghost view = { λ n. n.bytes.items };

    ghost invariant = { λ n. is_name n.bytes.items ≡ true };
}

/// Whether the bytes are UTF-8.
fn is_text(bytes: &[u8]) -> bool
    ensures { result ≡ is_utf8 bytes.now }
{
    str::from_utf8(bytes).is_ok()
}

/// Whether the bytes are a name that the file layer keeps to itself.
fn is_kept(bytes: &[u8]) -> bool
    ensures { result ≡ is_kept_name bytes.now }
{
    bytes == b".".as_slice() || bytes == b"..".as_slice() || bytes.starts_with(b".tierfs")
}

/// Whether each byte may stand in a name.
fn has_name_bytes(bytes: &[u8]) -> bool
    ensures { result ≡ list_all is_name_byte bytes.now }
{
    bytes.iter().all(|b| *b != b'/' && *b != 0)
}

/// Whether the bytes are a name.
pub fn is_name(bytes: &[u8]) -> bool
    ensures { result ≡ is_name bytes.now }
{
    if bytes.is_empty() || bytes.len() > 255 {
        return false;
    }
    if !has_name_bytes(bytes) {
        return false;
    }
    if !is_text(bytes) {
        return false;
    }
    !is_kept(bytes)
}

/// The length of the text of these names, each behind a slash.
pub fn names_len(names: &[Name]) -> u64
    requires { path_bytes names.now < 2 ^ 64 }
    ensures { result ≡ path_bytes names.now }
{
    let mut len = 0;
    for name in names {
        len += 1 + name.as_bytes().len() as u64;
    }
    len
}

impl Name {
    /// The name that the bytes are; `None` exactly where they are none.
    ///
    /// An `Err` is want of memory.
    pub fn read(alloc: Global, bytes: &[u8]) -> Result<Option<Name>, AllocError>
        ensures { IfOk result (λ found. MatchOption found (is_name bytes.now ≡ false) (λ n. (n ≡ bytes.now) × (is_name n ≡ true))) }
    {
        if !is_name(bytes) {
            return Ok(None);
        }
        Ok(Some(Name {
            bytes: Vec::from_slice(alloc, bytes)?,
        }))
    }

    /// The bytes of the name.
    pub fn as_bytes(&self) -> &[u8]
        ensures { result.now ≡ self.now }
    {
        self.bytes.as_slice()
    }
}

impl Clone for Name {
    ghost is_clone = { λ name copy. copy ≡ name };

    fn clone(&self) -> Result<Name, AllocError> {
        Ok(Name {
            bytes: self.bytes.clone()?,
        })
    }
}

impl PartialEq for Name {
    ghost eq = { pointwise nat_eq };

    ghost laws = { partial_equiv_from_equiv nat_list_eq_equiv };

    fn eq(&self, other: &Name) -> bool {
        self.as_bytes() == other.as_bytes()
    }
}

impl Eq for Name {
    ghost laws = { nat_list_eq_equiv };
}

impl PartialOrd for Name {
    ghost partial_cmp = { λ x y. Some (slice_cmp nat_cmp x y) };

    ghost laws = { texts_po };

    fn partial_cmp(&self, other: &Name) -> Option<Ordering> {
        Some(self.cmp(other))
    }
}

impl Ord for Name {
    ghost cmp = { slice_cmp nat_cmp };

    ghost total = { nat_list_cmp_total };

    ghost matches_partial_cmp = { λ x y. refl };

    ghost matches_eq = { texts_ties };

    fn cmp(&self, other: &Name) -> Ordering {
        self.as_bytes().cmp(other.as_bytes())
    }
}
