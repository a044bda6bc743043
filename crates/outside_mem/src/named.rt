//! What stands under names, and stores in memory by name. No exchange takes memory, since the places
//! of the names are made before.

ghost use Rattle.std.specs.Prelude.{◌≡◌, ◌∷◌, [], length, map, IsSome, IsTrue, OnOk};
ghost use Rattle.std.specs.Option.{option_copied};
ghost use Rattle.std.specs.String.{string_bytes};
ghost use Rattle.outside.specs.Shelf.{EachNamed, HasShape, all_names, are_distinct, name_lists, tier_names};
ghost use Rattle.outside_mem.specs.Named.{GetsPlaces, HasPlaces, IsNew, IsSameBut, IsUnder, found_or, item_under, taken, taken_tiers, with_item, with_stores, with_tiers};

use crate::disk::MemDisk;
use crate::store::MemObjects;
use outside::media::{Media, MediaNames};
use std::alloc::{AllocError, Global};
use std::mem::swap;

/// Something under a name.
#[derive(Debug, Drop)]
pub struct Named<T> {
    pub name: String,
    pub item: T,
}

/// The first under a name.
pub(crate) fn find<'a, T>(items: &'a [Named<T>], name: &str) -> Option<&'a T>
    ensures { option_copied result ≡ item_under items.now name.now }
{
    for one in items {
        if one.name.as_str() == name {
            return Some(&one.item);
        }
    }
    None
}

/// Puts something under a name that has something, and that in its place.
pub(crate) fn exchange<T>(items: &mut [Named<T>], name: &str, item: &mut T)
    ensures items { items.new ≡ with_item name.now item.old items.old }
    ensures item { item.new ≡ found_or item.old (item_under items.old name.now) }
{
    for one in items {
        if one.name.as_str() == name {
            swap(&mut one.item, item);
            return;
        }
    }
}

/// Puts stores under names, and those that were there in their places.
fn exchange_each(stores: &mut [Named<MemObjects>], names: &[String], given: &mut [MemObjects])
    requires { length given.old ≡ length names.now }
    ensures stores { stores.new ≡ with_stores (map string_bytes names.now) given.old stores.old }
    ensures taken { given.new ≡ taken (map string_bytes names.now) given.old stores.old }
{
    for (at, store) in given.iter_mut().enumerate() {
        exchange(stores, &names[at], store);
    }
}

/// Puts tiers under names, and those that were there in their places.
fn exchange_tiers(
    stores: &mut [Named<MemObjects>],
    names: &[Vec<String>],
    given: &mut [Vec<MemObjects>],
)
    requires { map (λ tiers. length tiers.items) given.old ≡ map (λ worker. length worker.items) names.now }
    ensures stores { stores.new ≡ with_tiers (map (λ worker. map string_bytes worker.items) names.now) (map (λ tiers. tiers.items) given.old) stores.old }
    ensures taken { map (λ tiers. tiers.items) given.new ≡ taken_tiers (map (λ worker. map string_bytes worker.items) names.now) (map (λ tiers. tiers.items) given.old) stores.old }
{
    for (at, tiers) in given.iter_mut().enumerate() {
        exchange_each(stores, &names[at], tiers);
    }
}

/// Puts stores and tiers under their names, which have some, and what was there in their places.
pub(crate) fn exchange_media(
    stores: &mut [Named<MemObjects>],
    names: &MediaNames,
    media: &mut Media<MemDisk, MemObjects>,
)
    requires shape { HasShape (name_lists names.now) media.old }
    requires distinct { IsTrue (are_distinct (all_names (name_lists names.now))) }
    requires places { HasPlaces stores.old (all_names (name_lists names.now)) }
    ensures taken { EachNamed (IsUnder stores.old) (name_lists names.now) media.new }
    ensures given { EachNamed (IsUnder stores.new) (name_lists names.now) media.old }
    ensures others { IsSameBut (all_names (name_lists names.now)) stores.old stores.new }
    ensures places { HasPlaces stores.new (all_names (name_lists names.now)) }
    ensures areas { media.new.areas ≡ media.old.areas }
{
    exchange_each(stores, &names.stores, &mut media.stores);
    exchange_tiers(stores, &names.tiers, &mut media.tiers);
}

/// Makes a new store for a name that has none. An `Err` is want of memory.
fn make_place(
    alloc: Global,
    stores: &mut Vec<Named<MemObjects>>,
    name: &str,
) -> Result<(), AllocError>
    ensures place { OnOk result (IsSome (item_under stores.new.items name.now)) }
    ensures made { GetsPlaces IsNew (name.now ∷ []) stores.old.items stores.new.items }
{
    if find(stores, name).is_some() {
        return Ok(());
    }
    let name = String::from_str(alloc, name)?;
    let store = MemObjects::new(alloc);
    stores.push(Named { name, item: store })?;
    Ok(())
}

/// Makes a new store for each name that has none. An `Err` is want of memory; then some have none.
fn make_places(
    alloc: Global,
    stores: &mut Vec<Named<MemObjects>>,
    names: &[String],
) -> Result<(), AllocError>
    ensures places { OnOk result (HasPlaces stores.new.items (map string_bytes names.now)) }
    ensures made { GetsPlaces IsNew (map string_bytes names.now) stores.old.items stores.new.items }
{
    for name in names {
        make_place(alloc, stores, name)?;
    }
    Ok(())
}

/// Makes a new tier for each name that has none. An `Err` is want of memory; then some have none.
fn make_tier_places(
    alloc: Global,
    stores: &mut Vec<Named<MemObjects>>,
    names: &[Vec<String>],
) -> Result<(), AllocError>
    ensures places { OnOk result (HasPlaces stores.new.items (tier_names (map (λ worker. map string_bytes worker.items) names.now))) }
    ensures made { GetsPlaces IsNew (tier_names (map (λ worker. map string_bytes worker.items) names.now)) stores.old.items stores.new.items }
{
    for worker in names {
        make_places(alloc, stores, worker)?;
    }
    Ok(())
}

/// Makes a new store or tier for each name that has none. An `Err` is want of memory; then some have
/// none.
pub(crate) fn make_media_places(
    alloc: Global,
    stores: &mut Vec<Named<MemObjects>>,
    names: &MediaNames,
) -> Result<(), AllocError>
    ensures places { OnOk result (HasPlaces stores.new.items (all_names (name_lists names.now))) }
    ensures made { GetsPlaces IsNew (all_names (name_lists names.now)) stores.old.items stores.new.items }
{
    make_places(alloc, stores, &names.stores)?;
    make_tier_places(alloc, stores, &names.tiers)
}
