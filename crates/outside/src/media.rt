//! The areas, stores and tiers that a cluster works over.

ghost use Rattle.std.specs.Prelude.{◌≡◌, ◌++◌, map};
ghost use Rattle.std.specs.String.{string_bytes};
ghost use Rattle.outside.specs.Shelf.{all_names, are_distinct, is_among, name_lists, tier_names};

use crate::fused::Fused;
use std::alloc::AllocError;

/// The names of media in a world.
#[derive(Debug, Drop)]
pub struct MediaNames {
    /// The name of the journal's areas.
    pub journal: String,
    /// The name of each under-store, from number 1 on.
    pub stores: Vec<String>,
    /// The names of each worker's tiers, from worker 1 and tier 0 on.
    pub tiers: Vec<Vec<String>>,
}

/// Whether a name is one of these.
fn is_one_of(names: &[String], name: &str) -> bool
    ensures { result ≡ is_among (map string_bytes names.now) name.now }
{
    for one in names {
        if name == one.as_str() {
            return true;
        }
    }
    false
}

/// Whether a name is that of a worker's tier.
fn is_of_a_tier(tiers: &[Vec<String>], name: &str) -> bool
    ensures { result ≡ is_among (tier_names (map (λ worker. map string_bytes worker.items) tiers.now)) name.now }
{
    for worker in tiers {
        if is_one_of(worker, name) {
            return true;
        }
    }
    false
}

/// Whether no two of some names and those of the tiers are equal.
fn are_apart(names: &[String], tiers: &[Vec<String>]) -> bool
    ensures { result ≡ are_distinct (map string_bytes names.now ++ tier_names (map (λ worker. map string_bytes worker.items) tiers.now)) }
{
    match names {
        [] => match tiers {
            [] => true,
            [worker, rest @ ..] => are_apart(worker, rest),
        },
        [name, rest @ ..] => {
            !is_one_of(rest, name) && !is_of_a_tier(tiers, name) && are_apart(rest, tiers)
        }
    }
}

impl MediaNames {
    /// Whether no two of the names of stores and tiers are equal.
    pub fn are_distinct(&self) -> bool
        ensures { result ≡ are_distinct (all_names (name_lists self.now)) }
    {
        are_apart(&self.stores, &self.tiers)
    }
}

impl Clone for MediaNames {
    ghost is_clone = { λ names copy. name_lists copy ≡ name_lists names };

    fn clone(&self) -> Result<MediaNames, AllocError> {
        Ok(MediaNames {
            journal: self.journal.clone()?,
            stores: self.stores.clone()?,
            tiers: self.tiers.clone()?,
        })
    }
}

/// What a cluster works over: the areas of its journal, under-stores, and the tiers of workers.
#[derive(Debug, Drop)]
pub struct Media<D, O> {
    /// The journal's areas 0 and 1.
    pub areas: (Fused<D>, Fused<D>),
    /// The under-stores, from number 1 on.
    pub stores: Vec<O>,
    /// The tiers of each worker, from worker 1 and tier 0 on.
    pub tiers: Vec<Vec<O>>,
}
