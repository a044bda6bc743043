//! Keys of objects.

ghost use Rattle.std.specs.Prelude.{◌≡◌, [], ◌∷◌, map, refl, Some, IfOk};
ghost use Rattle.std.specs.Cmp.{partial_equiv_from_equiv};
ghost use Rattle.std.specs.Cmp.Lexicographic.{slice_cmp};
ghost use Rattle.std.specs.Ordering.{nat_cmp};
ghost use Rattle.std.specs.String.{string_bytes};
ghost use Rattle.std.specs.Fmt.{decimal};
ghost use Rattle.outside.specs.Keys.{key_eq, is_below, crosses};
ghost use Rattle.outside.specs.KeyOrder.{key_equiv, key_total, key_ties, key_po};

use std::alloc::{AllocError, Global};
use std::cmp::Ordering;
use std::marker::Model;

/// The key of an object: names, written with a slash between them. A contract sees it as the list
/// of its names, each as its bytes. (Alluxio's under-stores name objects so.)
#[derive(Debug, Drop)]
pub struct Key {
    names: Vec<String>,
}

impl Model for Key {
    ghost use Rattle.std.specs.Prelude.{ℕ, List, map};
    ghost use Rattle.std.specs.String.{string_bytes};

    ghost Value = { List (List ℕ) };

    ghost view = { λ k. map string_bytes k.names.items };
}

/// Whether two lists have equal names in the same order.
fn are_same_names(names: &[String], others: &[String]) -> bool
    ensures { result ≡ key_eq (map string_bytes names.now) (map string_bytes others.now) }
{
    match names {
        [] => others.is_empty(),
        [name, rest @ ..] => match others {
            [] => false,
            [other, others @ ..] => name == other && are_same_names(rest, others),
        },
    }
}

/// The order of two lists of names: the first two names that differ decide, and else a prefix comes
/// first.
fn order_of_names(names: &[String], others: &[String]) -> Ordering
    ensures { result ≡ slice_cmp (slice_cmp nat_cmp) (map string_bytes names.now) (map string_bytes others.now) }
{
    match names {
        [] => match others {
            [] => Ordering::Equal,
            [..] => Ordering::Less,
        },
        [name, rest @ ..] => match others {
            [] => Ordering::Greater,
            [other, others @ ..] => name.cmp(other).then(order_of_names(rest, others)),
        },
    }
}

/// Whether the names begin with those of an upper key.
fn begin_with(names: &[String], upper: &[String]) -> bool
    ensures { result ≡ is_below (map string_bytes names.now) (map string_bytes upper.now) }
{
    match upper {
        [] => true,
        [first, upper @ ..] => match names {
            [] => false,
            [name, rest @ ..] => name == first && begin_with(rest, upper),
        },
    }
}

impl Key {
    /// The key of these names; takes no memory.
    pub fn from_names(names: Vec<String>) -> Key
        ensures { result ≡ map string_bytes names.items }
    {
        Key { names }
    }

    /// The key whose names are two numbers, each in its decimal spelling. An `Err` is want of memory.
    pub fn of_numbers(alloc: Global, first: u64, second: u64) -> Result<Key, AllocError>
        ensures { IfOk result (λ key. key ≡ decimal first ∷ decimal second ∷ []) }
    {
        let mut names = Vec::new(alloc);
        names.push(first.to_string(alloc)?)?;
        names.push(second.to_string(alloc)?)?;
        Ok(Key { names })
    }

    /// Its names.
    pub fn as_slice(&self) -> &[String]
        ensures { map string_bytes result.now ≡ self.now }
    {
        self.names.as_slice()
    }

    /// Whether its names begin with those of another key, equal allowed.
    pub fn is_below(&self, upper: &Key) -> bool
        ensures { result ≡ is_below self.now upper.now }
    {
        begin_with(self.as_slice(), upper.as_slice())
    }

    /// Whether one of the two keys is a proper prefix of the other as a list of names, so that both
    /// can't have objects.
    pub fn crosses(&self, other: &Key) -> bool
        ensures { result ≡ crosses self.now other.now }
    {
        self != other && (self.is_below(other) || other.is_below(self))
    }
}

impl Clone for Key {
    ghost is_clone = { λ key copy. copy ≡ key };

    fn clone(&self) -> Result<Key, AllocError> {
        Ok(Key {
            names: self.names.clone()?,
        })
    }
}

impl PartialEq for Key {
    ghost eq = { key_eq };

    ghost laws = { partial_equiv_from_equiv key_equiv };

    fn eq(&self, other: &Key) -> bool {
        are_same_names(self.as_slice(), other.as_slice())
    }
}

impl Eq for Key {
    ghost laws = { key_equiv };
}

impl PartialOrd for Key {
    ghost partial_cmp = { λ k l. Some (slice_cmp (slice_cmp nat_cmp) k l) };

    ghost laws = { key_po };

    fn partial_cmp(&self, other: &Key) -> Option<Ordering> {
        Some(self.cmp(other))
    }
}

impl Ord for Key {
    ghost cmp = { slice_cmp (slice_cmp nat_cmp) };

    ghost total = { key_total };

    ghost matches_partial_cmp = { λ k l. refl };

    ghost matches_eq = { key_ties };

    fn cmp(&self, other: &Key) -> Ordering {
        order_of_names(self.as_slice(), other.as_slice())
    }
}
