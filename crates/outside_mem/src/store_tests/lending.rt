//! A world in memory that lends its stores and tiers, and takes them back.

ghost use Rattle.std.specs.Prelude.{◌≡◌, [], None, IsTrue, OnOk, length, map, option_map};
ghost use Rattle.outside.specs.AreaShelf.{KeepsAreas};
ghost use Rattle.outside.specs.Shelf.{KeepsBut, all_names, are_distinct, name_lists};

use super::{holds, key_of, store_of, write_object};
use crate::{Failing, MemDisk, MemObjects, MemWorld};
use outside::media::{Media, MediaNames};
use outside::objects::Objects;
use outside::world::{Fail, World};
use std::alloc::{AllocError, Global};
use std::test::Fail as Failure;

fn texts_of(alloc: Global, texts: &[&str]) -> Result<Vec<String>, AllocError> {
    let mut names = Vec::new(alloc);
    for text in texts {
        names.push(String::from_str(alloc, text)?)?;
    }
    Ok(names)
}

/// A journal's name, these names of stores, and those of the tiers of two workers.
fn names_of(
    alloc: Global,
    stores: &[&str],
    first: &[&str],
    second: &[&str],
) -> Result<MediaNames, AllocError> {
    let mut tiers = Vec::new(alloc);
    tiers.push(texts_of(alloc, first)?)?;
    tiers.push(texts_of(alloc, second)?)?;
    Ok(MediaNames {
        journal: String::from_str(alloc, "journal")?,
        stores: texts_of(alloc, stores)?,
        tiers,
    })
}

/// Holds a store with one object under the name, whose text is the name.
fn hold_named(alloc: Global, world: &mut MemWorld, name: &str) -> Result<(), AllocError>
    ensures { world.new.shelf.lent ≡ world.old.shelf.lent }
{
    let store = store_of(alloc, &[("name", name)])?;
    world.hold_store(name, store)
}

/// Whether a world holds under a name what this text tells; for an empty text nothing.
fn is_held(alloc: Global, world: &MemWorld, name: &str, want: &str) -> Result<bool, AllocError> {
    match world.shelf.find(name) {
        Some(store) => holds(alloc, store, want),
        None => Ok(want.is_empty()),
    }
}

/// Writes an object into the store at a place.
fn write_into<O: Objects>(
    alloc: Global,
    stores: &mut [O],
    at: usize,
    text: &str,
) -> Result<(), Fail> {
    let key = key_of(alloc, "a/b")?;
    match stores.get_mut(at) {
        Some(store) => write_object(store, key, text),
        None => Err(Fail::Failed),
    }
}

/// Writes an object into a store of the world, as a program does that knows the trait alone.
fn write_to_store<W: World>(
    alloc: Global,
    world: &mut W,
    names: &MediaNames,
    at: usize,
    text: &str,
) -> Result<(), Fail>
    requires idle { W.lent world.old ≡ None }
    requires distinct { IsTrue (are_distinct (all_names (name_lists names.now))) }
    ensures idle { W.lent world.new ≡ None }
    ensures held { W.held world.new ≡ W.held world.old }
{
    let mut media = world.assemble(names)?;
    let written = write_into(alloc, media.stores.as_mut_slice(), at, text);
    world.give_back(media);
    written
}

/// Writes an object into the tier at a place of a worker's.
fn write_into_tier<O: Objects>(
    alloc: Global,
    tiers: &mut [Vec<O>],
    worker: usize,
    at: usize,
    text: &str,
) -> Result<(), Fail>
    ensures { map (λ own. length own.items) tiers.new ≡ map (λ own. length own.items) tiers.old }
{
    if worker >= tiers.len() {
        return Err(Fail::Failed);
    }
    write_into(alloc, tiers[worker].as_mut_slice(), at, text)
}

/// Writes an object into a tier of a worker, of which the first is 0.
fn write_to_tier<W: World>(
    alloc: Global,
    world: &mut W,
    names: &MediaNames,
    worker: usize,
    at: usize,
    text: &str,
) -> Result<(), Fail>
    requires idle { W.lent world.old ≡ None }
    requires distinct { IsTrue (are_distinct (all_names (name_lists names.now))) }
    ensures idle { W.lent world.new ≡ None }
{
    let mut media = world.assemble(names)?;
    let written = write_into_tier(alloc, media.tiers.as_mut_slice(), worker, at, text);
    world.give_back(media);
    written
}

/// Lends the media and gives them back as they are: the world holds what it held.
fn lend_and_give_back<W: World>(world: &mut W, names: &MediaNames) -> Result<(), Fail>
    requires idle { W.lent world.old ≡ None }
    requires distinct { IsTrue (are_distinct (all_names (name_lists names.now))) }
    ensures idle { W.lent world.new ≡ None }
    ensures same { OnOk result (KeepsBut [] (W.shelf world.old) (W.shelf world.new)) }
    ensures same_areas { OnOk result (KeepsAreas (W.areas world.old) (W.areas world.new)) }
{
    let media = world.assemble(names)?;
    world.give_back(media);
    Ok(())
}

/// Lends the media, and gives the first two stores back in each other's place.
fn swap_stores<W: World>(world: &mut W, names: &MediaNames) -> Result<(), Fail>
    requires idle { W.lent world.old ≡ None }
    requires distinct { IsTrue (are_distinct (all_names (name_lists names.now))) }
    ensures idle { W.lent world.new ≡ None }
{
    let mut media = world.assemble(names)?;
    if media.stores.len() > 1 {
        media.stores.swap(0, 1);
    }
    world.give_back(media);
    Ok(())
}

/// The bytes of all objects of each store, with a comma behind each, and a semicolon at the end.
fn append_stores(text: &mut Vec<u8>, stores: &[MemObjects]) -> Result<(), AllocError> {
    for store in stores {
        for object in &store.objects {
            text.extend_from_slice(&object.bytes)?;
        }
        text.push(b',')?;
    }
    text.push(b';')?;
    Ok(())
}

/// What all stores hold, and the tiers of each worker, in their order.
fn text_of(alloc: Global, media: &Media<MemDisk, MemObjects>) -> Result<Vec<u8>, AllocError> {
    let mut text = Vec::new(alloc);
    append_stores(&mut text, &media.stores)?;
    for tiers in &media.tiers {
        append_stores(&mut text, tiers)?;
    }
    Ok(text)
}

/// Whether the lent media hold this, each in its order.
fn lends<W: World<Area = MemDisk, Store = MemObjects>>(
    alloc: Global,
    world: &mut W,
    names: &MediaNames,
    want: &str,
) -> Result<bool, Fail>
    requires idle { W.lent world.old ≡ None }
    requires distinct { IsTrue (are_distinct (all_names (name_lists names.now))) }
    ensures idle { W.lent world.new ≡ None }
{
    let media = world.assemble(names)?;
    let text = text_of(alloc, &media);
    world.give_back(media);
    Ok(text?.as_slice() == want.as_bytes())
}

/// Whether nothing is held under a name while it is lent.
fn is_away(world: &mut MemWorld, names: &MediaNames, name: &str) -> Result<bool, Fail>
    requires idle { option_map name_lists world.old.shelf.lent ≡ None }
    requires distinct { IsTrue (are_distinct (all_names (name_lists names.now))) }
    ensures idle { option_map name_lists world.new.shelf.lent ≡ None }
{
    let media = world.assemble(names)?;
    let away = match world.shelf.find(name) {
        Some(store) => store.objects.is_empty(),
        None => true,
    };
    world.give_back(media);
    Ok(away)
}

#[test]
fn what_was_written_is_lent_again(rt: HostRuntime) -> Result<(), Failure> {
    let alloc = rt.alloc();
    let mut world = MemWorld::new(alloc);
    let names = names_of(alloc, &["one", "two"], &["mem"], &[])?;
    assert!(rt; names.are_distinct());
    assert_eq!(rt;
        write_to_store(alloc, &mut world, &names, 1, "text"),
        Ok(())
    );
    assert!(rt; is_held(alloc, &world, "two", "a/b/=text ")?);
    assert!(rt; is_held(alloc, &world, "one", "")?);
    assert!(rt; is_held(alloc, &world, "mem", "")?);
    assert_eq!(rt; lends(alloc, &mut world, &names, ",text,;,;;"), Ok(true));
    assert_eq!(rt;
        write_to_store(alloc, &mut world, &names, 1, "more"),
        Ok(())
    );
    assert!(rt; is_held(alloc, &world, "two", "a/b/=more ")?);
    Ok(())
}

#[test]
fn only_lent_names_change(rt: HostRuntime) -> Result<(), Failure> {
    let alloc = rt.alloc();
    let mut world = MemWorld::new(alloc);
    hold_named(alloc, &mut world, "one")?;
    hold_named(alloc, &mut world, "mem")?;
    hold_named(alloc, &mut world, "other")?;
    let names = names_of(alloc, &["one"], &["mem"], &["ssd"])?;
    assert!(rt; names.are_distinct());
    assert_eq!(rt;
        write_to_store(alloc, &mut world, &names, 0, "text"),
        Ok(())
    );
    assert!(rt; is_held(alloc, &world, "one", "a/b/=text name/=one ")?);
    assert!(rt; is_held(alloc, &world, "mem", "name/=mem ")?);
    assert!(rt; is_held(alloc, &world, "other", "name/=other ")?);
    assert_eq!(rt; lend_and_give_back(&mut world, &names), Ok(()));
    assert!(rt; is_held(alloc, &world, "one", "a/b/=text name/=one ")?);
    assert!(rt; is_held(alloc, &world, "other", "name/=other ")?);
    Ok(())
}

#[test]
fn tiers_come_in_the_order_of_their_names(rt: HostRuntime) -> Result<(), Failure> {
    let alloc = rt.alloc();
    let mut world = MemWorld::new(alloc);
    hold_named(alloc, &mut world, "e")?;
    hold_named(alloc, &mut world, "c")?;
    hold_named(alloc, &mut world, "a")?;
    hold_named(alloc, &mut world, "d")?;
    let names = names_of(alloc, &["a", "b"], &["c"], &["d", "x", "e"])?;
    assert!(rt; names.are_distinct());
    assert_eq!(rt; lends(alloc, &mut world, &names, "a,,;c,;d,,e,;"), Ok(true));
    assert_eq!(rt; write_to_tier(alloc, &mut world, &names, 1, 1, "X"), Ok(()));
    assert_eq!(rt;
        lends(alloc, &mut world, &names, "a,,;c,;d,X,e,;"),
        Ok(true)
    );
    assert!(rt; is_held(alloc, &world, "x", "a/b/=X ")?);
    assert_eq!(rt;
        write_to_tier(alloc, &mut world, &names, 2, 0, "X"),
        Err(Fail::Failed)
    );
    Ok(())
}

#[test]
fn each_name_gets_what_stands_at_its_place(rt: HostRuntime) -> Result<(), Failure> {
    let alloc = rt.alloc();
    let mut world = MemWorld::new(alloc);
    hold_named(alloc, &mut world, "one")?;
    hold_named(alloc, &mut world, "two")?;
    let names = names_of(alloc, &["one", "two"], &[], &[])?;
    assert!(rt; names.are_distinct());
    assert_eq!(rt; is_away(&mut world, &names, "one"), Ok(true));
    assert_eq!(rt; swap_stores(&mut world, &names), Ok(()));
    assert!(rt; is_held(alloc, &world, "one", "name/=two ")?);
    assert!(rt; is_held(alloc, &world, "two", "name/=one ")?);
    Ok(())
}

#[test]
fn listed_calls_fail_and_lend_nothing(rt: HostRuntime) -> Result<(), Failure> {
    let alloc = rt.alloc();
    let mut world = MemWorld::new(alloc);
    hold_named(alloc, &mut world, "one")?;
    world.assemble_failing = Failing::listed(alloc, &[1, 3])?;
    let names = names_of(alloc, &["one"], &[], &[])?;
    assert!(rt; names.are_distinct());
    assert_eq!(rt;
        write_to_store(alloc, &mut world, &names, 0, "text"),
        Err(Fail::Failed)
    );
    assert_eq!(rt; (world.faults, world.assemble_calls), (1, 1));
    assert!(rt; is_held(alloc, &world, "one", "name/=one ")?);
    assert_eq!(rt;
        write_to_store(alloc, &mut world, &names, 0, "text"),
        Ok(())
    );
    assert_eq!(rt; (world.faults, world.assemble_calls), (1, 2));
    assert_eq!(rt; lend_and_give_back(&mut world, &names), Err(Fail::Failed));
    assert_eq!(rt; (world.faults, world.misses, world.choose_calls), (2, 0, 0));
    assert!(rt; is_held(alloc, &world, "one", "a/b/=text name/=one ")?);
    Ok(())
}
