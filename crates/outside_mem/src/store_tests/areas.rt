//! A world in memory that lends the areas of a journal, and takes them back.

ghost use Rattle.std.specs.Prelude.{◌≡◌, None, IsTrue, option_map};
ghost use Rattle.outside.specs.Shelf.{all_names, are_distinct, name_lists};

use crate::{Failing, MemDisk, MemWorld};
use outside::disk::Disk;
use outside::fused::Fused;
use outside::media::MediaNames;
use outside::world::{Fail, World};
use std::alloc::{AllocError, Global};
use std::test::Fail as Failure;

/// The name of a journal, and one store of the same name.
fn names_of(alloc: Global, journal: &str) -> Result<MediaNames, AllocError> {
    let mut stores = Vec::new(alloc);
    stores.push(String::from_str(alloc, journal)?)?;
    Ok(MediaNames {
        journal: String::from_str(alloc, journal)?,
        stores,
        tiers: Vec::new(alloc),
    })
}

fn disk_of(alloc: Global, text: &str) -> Result<MemDisk, AllocError> {
    Ok(MemDisk::new(Vec::from_slice(alloc, text.as_bytes())?))
}

/// Holds areas with these texts under the name.
fn hold_texts(
    alloc: Global,
    world: &mut MemWorld,
    name: &str,
    first: &str,
    second: &str,
) -> Result<(), AllocError>
    ensures { world.new.shelf.lent ≡ world.old.shelf.lent }
{
    let first = disk_of(alloc, first)?;
    let second = disk_of(alloc, second)?;
    world.hold_areas(name, first, second)
}

/// Whether a world holds areas with these texts under a name; where it has none, both are empty.
fn are_held(world: &MemWorld, name: &str, first: &str, second: &str) -> bool {
    match world.shelf.find_areas(name) {
        Some((a, b)) => a.bytes() == first.as_bytes() && b.bytes() == second.as_bytes(),
        None => first.is_empty() && second.is_empty(),
    }
}

/// Writes a text at the beginning of an area, and syncs.
fn write_into<D: Disk>(area: &mut D, text: &str) -> Result<(), Fail> {
    let len = text.len() as u64;
    area.reserve(len, len, 2)?;
    let Ok(()) = area.write_at(0, text.as_bytes()) else {
        return Err(Fail::Failed);
    };
    let Ok(()) = area.sync() else {
        return Err(Fail::Failed);
    };
    Ok(())
}

/// Whether an area's first bytes, up to 8, are these.
fn gives<D: Disk>(area: &mut D, want: &str) -> bool {
    let mut buf = [b'-'; 8];
    match area.read_at(0, &mut buf) {
        Ok(count) => &buf[..count] == want.as_bytes(),
        Err(_) => false,
    }
}

/// Writes a text into the first or the second of two areas.
fn write_into_one<D: Disk>(
    areas: &mut (Fused<D>, Fused<D>),
    second: bool,
    text: &str,
) -> Result<(), Fail> {
    if second {
        write_into(&mut areas.1, text)
    } else {
        write_into(&mut areas.0, text)
    }
}

/// Writes a text into the first or the second area of a world, as a program does that knows the
/// trait alone.
fn write_to_area<W: World>(
    world: &mut W,
    names: &MediaNames,
    second: bool,
    text: &str,
) -> Result<(), Fail>
    requires idle { W.lent world.old ≡ None }
    requires distinct { IsTrue (are_distinct (all_names (name_lists names.now))) }
    ensures idle { W.lent world.new ≡ None }
{
    let mut media = world.assemble(names)?;
    let written = write_into_one(&mut media.areas, second, text);
    world.give_back(media);
    written
}

/// Whether the lent areas give these texts, and neither has a fuse.
fn lends<W: World>(
    world: &mut W,
    names: &MediaNames,
    first: &str,
    second: &str,
) -> Result<bool, Fail>
    requires idle { W.lent world.old ≡ None }
    requires distinct { IsTrue (are_distinct (all_names (name_lists names.now))) }
    ensures idle { W.lent world.new ≡ None }
{
    let mut media = world.assemble(names)?;
    let fuses = media.areas.0.left().is_some() || media.areas.1.left().is_some();
    let given = gives(&mut media.areas.0, first) && gives(&mut media.areas.1, second);
    world.give_back(media);
    Ok(given && !fuses)
}

/// Lends the areas, and gives them back in each other's place, each with a fuse that is spent.
fn swap_areas<W: World>(world: &mut W, names: &MediaNames) -> Result<(), Fail>
    requires idle { W.lent world.old ≡ None }
    requires distinct { IsTrue (are_distinct (all_names (name_lists names.now))) }
    ensures idle { W.lent world.new ≡ None }
{
    let mut media = world.assemble(names)?;
    let (mut first, mut second) = media.areas;
    first.set_fuse(Some(0));
    second.set_fuse(Some(0));
    media.areas = (second, first);
    world.give_back(media);
    Ok(())
}

/// Whether no areas are held under a name while they are lent.
fn are_away(world: &mut MemWorld, names: &MediaNames, name: &str) -> Result<bool, Fail>
    requires idle { option_map name_lists world.old.shelf.lent ≡ None }
    requires distinct { IsTrue (are_distinct (all_names (name_lists names.now))) }
    ensures idle { option_map name_lists world.new.shelf.lent ≡ None }
{
    let media = world.assemble(names)?;
    let away = are_held(world, name, "", "");
    world.give_back(media);
    Ok(away)
}

#[test]
fn what_was_written_to_an_area_is_lent_again(rt: HostRuntime) -> Result<(), Failure> {
    let alloc = rt.alloc();
    let mut world = MemWorld::new(alloc);
    let names = names_of(alloc, "j")?;
    assert!(rt; names.are_distinct());
    assert_eq!(rt; lends(&mut world, &names, "", ""), Ok(true));
    assert_eq!(rt; write_to_area(&mut world, &names, true, "ab"), Ok(()));
    assert!(rt; are_held(&world, "j", "", "ab"));
    assert_eq!(rt; write_to_area(&mut world, &names, false, "c"), Ok(()));
    assert_eq!(rt; write_to_area(&mut world, &names, true, "A"), Ok(()));
    assert!(rt; are_held(&world, "j", "c", "Ab"));
    assert!(rt; are_held(&world, "k", "", ""));
    assert_eq!(rt; lends(&mut world, &names, "c", "Ab"), Ok(true));
    Ok(())
}

#[test]
fn areas_that_are_held_are_lent_in_their_order(rt: HostRuntime) -> Result<(), Failure> {
    let alloc = rt.alloc();
    let mut world = MemWorld::new(alloc);
    hold_texts(alloc, &mut world, "j", "old", "older")?;
    hold_texts(alloc, &mut world, "k", "x", "y")?;
    hold_texts(alloc, &mut world, "j", "one", "two")?;
    let names = names_of(alloc, "j")?;
    assert!(rt; names.are_distinct());
    assert_eq!(rt; lends(&mut world, &names, "one", "two"), Ok(true));
    assert_eq!(rt; are_away(&mut world, &names, "j"), Ok(true));
    assert_eq!(rt; swap_areas(&mut world, &names), Ok(()));
    assert!(rt; are_held(&world, "j", "two", "one"));
    assert_eq!(rt; lends(&mut world, &names, "two", "one"), Ok(true));
    assert!(rt; are_held(&world, "k", "x", "y"));
    Ok(())
}

/// An area whose second write fails and is torn.
fn torn_disk(alloc: Global, text: &str) -> Result<MemDisk, AllocError> {
    let mut disk = disk_of(alloc, text)?;
    disk.calls.writes.failing = Failing::listed(alloc, &[2])?;
    disk.calls.writes.happening = Failing::listed(alloc, &[2])?;
    disk.torn = b'?';
    Ok(disk)
}

#[test]
fn a_lent_area_has_its_lists_and_counts(rt: HostRuntime) -> Result<(), Failure> {
    let alloc = rt.alloc();
    let mut world = MemWorld::new(alloc);
    world.hold_areas("j", disk_of(alloc, "a")?, torn_disk(alloc, "bcd")?)?;
    let names = names_of(alloc, "j")?;
    assert!(rt; names.are_distinct());
    assert_eq!(rt; write_to_area(&mut world, &names, true, "B"), Ok(()));
    assert_eq!(rt;
        write_to_area(&mut world, &names, true, "CC"),
        Err(Fail::Failed)
    );
    assert!(rt; are_held(&world, "j", "a", "??d"));
    assert_eq!(rt; write_to_area(&mut world, &names, true, "e"), Ok(()));
    assert!(rt; are_held(&world, "j", "a", "e?d"));
    Ok(())
}

#[test]
fn a_listed_call_lends_no_area(rt: HostRuntime) -> Result<(), Failure> {
    let alloc = rt.alloc();
    let mut world = MemWorld::new(alloc);
    hold_texts(alloc, &mut world, "j", "one", "two")?;
    world.assemble_failing = Failing::listed(alloc, &[1])?;
    let names = names_of(alloc, "j")?;
    assert!(rt; names.are_distinct());
    assert_eq!(rt;
        write_to_area(&mut world, &names, false, "x"),
        Err(Fail::Failed)
    );
    assert!(rt; are_held(&world, "j", "one", "two"));
    assert_eq!(rt; write_to_area(&mut world, &names, false, "x"), Ok(()));
    assert!(rt; are_held(&world, "j", "xne", "two"));
    Ok(())
}
