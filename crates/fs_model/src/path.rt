//! Paths of the tree of names.

ghost use Rattle.std.specs.Prelude.{◌≡◌, true, ◌<◌, ◌≤◌, ◌^◌, IfOk, List, ℕ, Ok, length, map, nat_eq, Some, refl, []};
ghost use Rattle.fs_model.specs.PathForm.{is_path, path_text};
ghost use Rattle.fs_model.specs.PathText.{names_of, slices, read_path, Gives};
ghost use Rattle.fs_model.specs.PathLength.{path_len};
ghost use Rattle.fs_model.specs.Words.{under};
ghost use Rattle.std.specs.Ordering.{nat_cmp};
ghost use Rattle.std.specs.Cmp.Lexicographic.{pointwise, slice_cmp};
ghost use Rattle.std.specs.Cmp.{partial_equiv_from_equiv};
ghost use Rattle.fs_model.specs.Equal.{names_eq_equiv, names_cmp_total, names_ties, names_po};

use crate::cut::cut;
use crate::name::{Name, names_len};
use std::alloc::{AllocError, AllocFailed, Global};
use std::cmp::Ordering;
use std::marker::Model;
use thiserror::Error;

/// Why a text is no path.
#[derive(Clone, Copy, Debug, PartialEq, Eq, Error)]
pub enum PathFault {
    /// The text has more than 4,096 bytes.
    #[error("the path has more than 4096 bytes")]
    TooLong,
    /// The part at this place, from 0, is the first that is no name; 0 also where the text doesn't begin with `/`.
    #[error("part {0} of the path is no name")]
    BadName(u32),
    /// There was no memory for the path.
    #[error("no memory for the path")]
    Memory,
}

impl From<AllocError> for PathFault {
    ghost use Rattle.std.specs.Prelude.{◌≡◌};
    ghost use Rattle.fs_model.specs.declared.path.PathFault.TheVariants.{Memory};

    ghost from_gives = { λ _ e. e ≡ Memory };

    fn from(_: AllocError) -> PathFault {
        PathFault::Memory
    }
}

impl<T: Drop> From<AllocFailed<T>> for PathFault {
    ghost use Rattle.std.specs.Prelude.{◌≡◌};
    ghost use Rattle.fs_model.specs.declared.path.PathFault.TheVariants.{Memory};

    ghost from_gives = { λ _ e. e ≡ Memory };

    fn from(_: AllocFailed<T>) -> PathFault {
        PathFault::Memory
    }
}

/// A path: names from the root, whose text has at most 4,096 bytes. A contract sees it as the list of its
/// names; the root is the empty one.
#[derive(Debug, Drop)]
pub struct Path {
    names: Vec<Name>,
}

impl Model for Path {
    ghost use Rattle.std.specs.Prelude.{ℕ, List, ◌≡◌, true};
    ghost use Rattle.fs_model.specs.PathForm.{is_path};

    ghost Value = { List (List ℕ) };

    ghost view = { λ p. p.names.items };

    ghost invariant = { λ p. is_path p.names.items ≡ true };
}

/// The names that the parts of a text are, or the first that is none.
fn names_of(alloc: Global, parts: &[&[u8]]) -> Result<Vec<Name>, PathFault>
    requires { length parts.now < 2 ^ 32 }
    ensures { Gives (λ v. v.items) result (names_of 0 (slices parts.now)) }
{
    let mut names = Vec::new(alloc);
    for (place, part) in parts.iter().enumerate() {
        match Name::read(alloc, part)? {
            Some(name) => names.push(name)?,
            None => return Err(PathFault::BadName(place as u32)),
        }
    }
    Ok(names)
}

/// The names of the path that a text spells, or its first fault.
fn names_in(alloc: Global, text: &[u8]) -> Result<Vec<Name>, PathFault>
    ensures { Gives (λ v. v.items) result (read_path text.now) }
{
    if text.len() > 4096 {
        return Err(PathFault::TooLong);
    }
    match text {
        [b'/'] => Ok(Vec::new(alloc)),
        [b'/', rest @ ..] => names_of(alloc, &cut(alloc, rest, b'/')?),
        _ => Err(PathFault::BadName(0)),
    }
}

/// Whether the names begin with those of an upper path.
fn under_names(names: &[Name], upper: &[Name]) -> bool
    ensures { result ≡ under names.now upper.now }
{
    match upper {
        [] => true,
        [b, above @ ..] => match names {
            [] => false,
            [a, rest @ ..] => a == b && under_names(rest, above),
        },
    }
}

impl Path {
    /// The path that a text spells: `/`, or a slash before each name.
    ///
    /// An `Err` is `TooLong` above 4,096 bytes, else `BadName` with the place of the first part that is no name,
    /// or want of memory.
    pub fn read(alloc: Global, text: &[u8]) -> Result<Path, PathFault>
        // What is read is spelled so.
        ensures found { IfOk result (λ p. (is_path p ≡ true) × (text.now ≡ path_text p)) }

        // What is spelled so is read, unless memory runs out.
        ensures only { (p : List (List ℕ)) → is_path p ≡ true → text.now ≡ path_text p → Gives (λ q. q) result (Ok p) }

        // Which fault it is.
        ensures exact { Gives (λ p. p) result (read_path text.now) }
    {
        Ok(Path {
            names: names_in(alloc, text)?,
        })
    }

    /// The root, `/`; takes no memory.
    pub fn root(alloc: Global) -> Path
        ensures { result ≡ [] }
    {
        Path {
            names: Vec::new(alloc),
        }
    }

    /// The names from the root.
    pub fn as_slice(&self) -> &[Name]
        ensures names { result.now ≡ self.now }
        ensures path { is_path self.now ≡ true }
    {
        self.names.as_slice()
    }

    /// The length of the path's text in bytes, at most 4,096.
    pub fn text_len(&self) -> u64
        ensures len { result ≡ path_len self.now }
        ensures short { result ≤ 4096 }
    {
        let names = self.as_slice();
        if names.is_empty() {
            return 1;
        }
        names_len(names)
    }

    /// Whether this path is under another one, equal allowed: its names begin with the other's.
    pub fn under(&self, upper: &Path) -> bool
        ensures { result ≡ under self.now upper.now }
    {
        under_names(self.as_slice(), upper.as_slice())
    }
}

impl Clone for Path {
    ghost is_clone = { λ path copy. copy ≡ path };

    fn clone(&self) -> Result<Path, AllocError> {
        Ok(Path {
            names: self.names.clone()?,
        })
    }
}

impl PartialEq for Path {
    ghost eq = { pointwise (pointwise nat_eq) };

    ghost laws = { partial_equiv_from_equiv names_eq_equiv };

    fn eq(&self, other: &Path) -> bool {
        self.as_slice() == other.as_slice()
    }
}

impl Eq for Path {
    ghost laws = { names_eq_equiv };
}

impl PartialOrd for Path {
    ghost partial_cmp = { λ x y. Some (slice_cmp (slice_cmp nat_cmp) x y) };

    ghost laws = { names_po };

    fn partial_cmp(&self, other: &Path) -> Option<Ordering> {
        Some(self.cmp(other))
    }
}

impl Ord for Path {
    ghost cmp = { slice_cmp (slice_cmp nat_cmp) };

    ghost total = { names_cmp_total };

    ghost matches_partial_cmp = { λ x y. refl };

    ghost matches_eq = { names_ties };

    fn cmp(&self, other: &Path) -> Ordering {
        self.as_slice().cmp(other.as_slice())
    }
}
