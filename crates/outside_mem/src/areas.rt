//! Journals' areas in memory by name. Like that of stores, no exchange takes memory.

ghost use Rattle.std.specs.Prelude.{◌≡◌, ◌∷◌, [], None, OnOk};
ghost use Rattle.outside_mem.specs.Named.{GetsPlaces, HasPlaces, IsSameBut, IsUnder};
ghost use Rattle.outside_mem.specs.NamedAreas.{AreNewAreas, unfused};

use crate::disk::MemDisk;
use crate::named::{Named, exchange, find};
use outside::fused::Fused;
use std::alloc::{AllocError, Global};

/// Two areas that hold nothing, and of which no call fails; takes no memory.
fn new_areas(alloc: Global) -> (MemDisk, MemDisk)
    ensures { AreNewAreas result }
{
    (MemDisk::new(Vec::new(alloc)), MemDisk::new(Vec::new(alloc)))
}

/// Two new areas with no fuse; takes no memory.
pub(crate) fn new_fused(alloc: Global) -> (Fused<MemDisk>, Fused<MemDisk>)
    ensures new { AreNewAreas (unfused result) }
    ensures fuses { (result.0.fuse ≡ None) × (result.1.fuse ≡ None) }
{
    let (first, second) = new_areas(alloc);
    (Fused::new(first), Fused::new(second))
}

/// Makes new areas for a name that has none. An `Err` is want of memory.
pub(crate) fn make_area_place(
    alloc: Global,
    areas: &mut Vec<Named<(MemDisk, MemDisk)>>,
    name: &str,
) -> Result<(), AllocError>
    ensures places { OnOk result (HasPlaces areas.new.items (name.now ∷ [])) }
    ensures made { GetsPlaces AreNewAreas (name.now ∷ []) areas.old.items areas.new.items }
{
    if find(areas, name).is_some() {
        return Ok(());
    }
    let name = String::from_str(alloc, name)?;
    let item = new_areas(alloc);
    areas.push(Named { name, item })?;
    Ok(())
}

/// Puts areas under a name that has some, and answers those, with no fuse.
pub(crate) fn exchange_areas(
    areas: &mut [Named<(MemDisk, MemDisk)>],
    name: &str,
    given: (Fused<MemDisk>, Fused<MemDisk>),
) -> (Fused<MemDisk>, Fused<MemDisk>)
    requires places { HasPlaces areas.old (name.now ∷ []) }
    ensures taken { IsUnder areas.old name.now (unfused result) }
    ensures given { IsUnder areas.new name.now (unfused given) }
    ensures others { IsSameBut (name.now ∷ []) areas.old areas.new }
    ensures places { HasPlaces areas.new (name.now ∷ []) }
    ensures fuses { (result.0.fuse ≡ None) × (result.1.fuse ≡ None) }
{
    let (first, second) = given;
    let mut pair = (first.into_disk(), second.into_disk());
    exchange(areas, name, &mut pair);
    let (first, second) = pair;
    (Fused::new(first), Fused::new(second))
}
