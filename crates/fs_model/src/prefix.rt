//! The names of a key, as mounts and journal entries hold them.

ghost use Rattle.std.specs.Prelude.{◌≡◌, ◌≤◌, ◌<◌, ◌^◌, ◌||◌, [], List, ℕ, true, nat_eq, refl, IfOk, IfSome, option_map};
ghost use Rattle.std.specs.List.{list_all};
ghost use Rattle.std.specs.Str.{bytes_eq};
ghost use Rattle.fs_model.specs.PathForm.{are_key_names, is_key, is_name, key_text, reserved_name};
ghost use Rattle.fs_model.specs.PathLength.{path_bytes};
ghost use Rattle.fs_model.specs.PathText.{slices};
ghost use Rattle.fs_model.specs.KeyText.{key_parts, read_key};
ghost use Rattle.fs_model.specs.Changes.{key_len};
ghost use Rattle.std.specs.Cmp.Lexicographic.{pointwise};
ghost use Rattle.std.specs.Cmp.{partial_equiv_from_equiv};
ghost use Rattle.fs_model.specs.Equal.{names_eq_equiv};

use crate::cut::cut;
use crate::items::Items;
use crate::name::is_name;
use std::alloc::{AllocError, Global};
use std::marker::Model;

/// The names of a key: texts of which the first may be `.tierfs`, else names, written with a slash between
/// them in at most 8,192 bytes. A contract sees it as the list of these texts. (This project's own rule.)
#[derive(Debug, Drop)]
pub struct Prefix {
    names: Vec<Items<u8>>,
}

impl Model for Prefix {
    ghost use Rattle.std.specs.Prelude.{ℕ, List, ◌≡◌, true};
    ghost use Rattle.fs_model.specs.PathForm.{is_key};

    ghost Value = { List (List ℕ) };

    ghost view = { λ p. p.names.items };

    ghost invariant = { λ p. is_key p.names.items ≡ true };
}

/// The greatest length of a key's text in bytes.
const MOST_KEY: usize = 8192;

/// Whether a text is a name of a key's front: a name, or the reserved one.
fn is_first_name(text: &[u8]) -> bool
    ensures { result ≡ (is_name text.now || bytes_eq text.now reserved_name) }
{
    is_name(text) || text == b".tierfs".as_slice()
}

/// Whether each text is a name.
fn are_names(parts: &[&[u8]]) -> bool
    ensures { result ≡ list_all is_name (slices parts.now) }
{
    match parts {
        [] => true,
        [first, rest @ ..] => is_name(first) && are_names(rest),
    }
}

/// Whether these are the names of a key.
fn are_key_names(parts: &[&[u8]]) -> bool
    ensures { result ≡ are_key_names (slices parts.now) }
{
    match parts {
        [] => true,
        [first, rest @ ..] => is_first_name(first) && are_names(rest),
    }
}

/// The parts of a text between its slashes, none where it is empty.
fn key_parts(alloc: Global, text: &[u8]) -> Result<Vec<&[u8]>, AllocError>
    ensures { IfOk result (λ v. slices v.items ≡ key_parts text.now) }
{
    match text {
        [] => Ok(Vec::new(alloc)),
        [_, ..] => cut(alloc, text, b'/'),
    }
}

/// Copies of texts.
fn copies(alloc: Global, parts: &[&[u8]]) -> Result<Vec<Items<u8>>, AllocError>
    ensures { IfOk result (λ v. v.items ≡ slices parts.now) }
{
    let mut names = Vec::new(alloc);
    for part in parts {
        names.push(Items::from_vec(Vec::from_slice(alloc, part)?))?;
    }
    Ok(names)
}

/// The names of the key that a text spells, if it spells one.
#[tactic(auto, unfolding(crate::specs::KeyText::read_key))]
fn names_in(alloc: Global, text: &[u8]) -> Result<Option<Vec<Items<u8>>>, AllocError>
    ensures { IfOk result (λ found. option_map (λ v. v.items) found ≡ read_key text.now) }
{
    if text.len() > MOST_KEY {
        return Ok(None);
    }
    let parts = key_parts(alloc, text)?;
    if !are_key_names(&parts) {
        return Ok(None);
    }
    Ok(Some(copies(alloc, &parts)?))
}

/// The length of the text of these names, each behind a slash.
fn names_len(names: &[Items<u8>]) -> u64
    requires { path_bytes names.now < 2 ^ 64 }
    ensures { result ≡ path_bytes names.now }
{
    let mut len = 0;
    for name in names {
        len += 1 + name.as_slice().len() as u64;
    }
    len
}

impl Prefix {
    /// The key that a text spells: names with a slash between them, and the empty text for the empty key; `None`
    /// exactly where the text spells none.
    ///
    /// An `Err` is want of memory.
    pub fn read(alloc: Global, text: &[u8]) -> Result<Option<Prefix>, AllocError>
        // What is read is spelled so.
        ensures found { IfOk result (λ found. IfSome found (λ k. (is_key k ≡ true) × (text.now ≡ key_text k))) }

        // What is spelled so is read.
        ensures only { (k : List (List ℕ)) → is_key k ≡ true → text.now ≡ key_text k → IfOk result (λ found. found ≡ Some k) }

        // Which key it is.
        ensures exact { IfOk result (λ found. found ≡ read_key text.now) }
    {
        let Some(names) = names_in(alloc, text)? else {
            return Ok(None);
        };
        Ok(Some(Prefix { names }))
    }

    /// The names of the empty key; takes no memory.
    pub fn empty(alloc: Global) -> Prefix
        ensures { result ≡ [] }
    {
        Prefix {
            names: Vec::new(alloc),
        }
    }

    /// The names.
    pub fn as_slice(&self) -> &[Items<u8>]
        ensures names { result.now ≡ self.now }
        ensures key { is_key self.now ≡ true }
    {
        self.names.as_slice()
    }

    /// The length of the key's text in bytes, at most 8,192.
    pub fn text_len(&self) -> u64
        ensures len { result ≡ key_len self.now }
        ensures short { result ≤ 8192 }
    {
        let names = self.as_slice();
        if names.is_empty() {
            return 0;
        }
        names_len(names) - 1
    }
}

impl Clone for Prefix {
    ghost is_clone = { λ key copy. copy ≡ key };

    fn clone(&self) -> Result<Prefix, AllocError> {
        Ok(Prefix {
            names: self.names.clone()?,
        })
    }
}

impl PartialEq for Prefix {
    ghost eq = { pointwise (pointwise nat_eq) };

    ghost laws = { partial_equiv_from_equiv names_eq_equiv };

    fn eq(&self, other: &Prefix) -> bool {
        self.as_slice() == other.as_slice()
    }
}

impl Eq for Prefix {
    ghost laws = { names_eq_equiv };
}
