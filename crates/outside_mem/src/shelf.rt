//! The areas, stores and tiers that a world in memory holds by name, and lends.

ghost use Rattle.std.specs.Prelude.{◌≡◌, ℕ, List, [], ◌∷◌, None, Some, false, true, length, map, option_map, if◌then◌else◌, IfOk, IfSome, IsSomeAnd, IsTrue, OnErr, OnOk};
ghost use Rattle.std.specs.List.{All};
ghost use Rattle.std.specs.Option.{option_copied};
ghost use Rattle.std.specs.Str.{bytes_eq};
ghost use Rattle.outside.specs.AreaShelf.{AreFresh, HoldsAreas, KeepsAreasBut, LacksAreas};
ghost use Rattle.outside.specs.Shelf.{EachNamed, HasShape, KeepsBut, LacksEach, TellsHeld, all_names, are_distinct, name_lists};
ghost use Rattle.outside_mem.specs.Disks.{disk_history};
ghost use Rattle.outside_mem.specs.Named.{HasPlaces, IsFound, IsNew, IsSameBut, IsUnder, item_under, lent_journals, lent_names, shelf_of, told_of};
ghost use Rattle.outside_mem.specs.NamedAreas.{AreFoundAreas, AreNewAreas, areas_of, unfused};

use crate::areas::{exchange_areas, make_area_place, new_fused};
use crate::disk::MemDisk;
use crate::named::{Named, exchange_media, find, make_media_places};
use crate::store::MemObjects;
use outside::media::{Media, MediaNames};
use std::alloc::{AllocError, Global};

/// Areas, stores and tiers in memory by name, and which of them are lent.
#[derive(Debug, Drop)]
pub struct MemShelf {
    /// What new stores and copies of names are made with.
    pub alloc: Global,
    /// What it holds; of several stores with one name the first counts. A lent one has a new store
    /// in its place.
    pub stores: Vec<Named<MemObjects>>,
    /// The areas 0 and 1 of the journals that it holds; likewise.
    pub areas: Vec<Named<(MemDisk, MemDisk)>>,
    /// The names of the media that are lent, where some are.
    pub lent: Option<MediaNames>,
    ghost places: { HasPlaces stores.items (lent_names lent) },
    ghost area_places: { HasPlaces areas.items (lent_journals lent) },
    ghost distinct: { IsTrue (are_distinct (lent_names lent)) },
}

/// So many new stores. An `Err` is want of memory.
fn new_stores(alloc: Global, count: usize) -> Result<Vec<MemObjects>, AllocError>
    ensures len { IfOk result (λ stores. length stores.items ≡ count) }
    ensures new { IfOk result (λ stores. All IsNew stores.items) }
{
    let mut stores = Vec::new(alloc);
    for _ in 0..count {
        stores.push(MemObjects::new(alloc))?;
    }
    Ok(stores)
}

/// New tiers, as many for each worker as there are names of its. An `Err` is want of memory.
fn new_tiers(alloc: Global, names: &[Vec<String>]) -> Result<Vec<Vec<MemObjects>>, AllocError>
    ensures lens { IfOk result (λ tiers. map (λ tiers. length tiers.items) tiers.items ≡ map (λ worker. length worker.items) names.now) }
    ensures new { IfOk result (λ tiers. All (λ tiers. All IsNew tiers.items) tiers.items) }
{
    let mut tiers = Vec::new(alloc);
    for worker in names {
        tiers.push(new_stores(alloc, worker.len())?)?;
    }
    Ok(tiers)
}

/// New stores and tiers, one for each name, and two new areas. An `Err` is want of memory.
fn new_media(alloc: Global, names: &MediaNames) -> Result<Media<MemDisk, MemObjects>, AllocError>
    ensures shape { IfOk result (HasShape (name_lists names.now)) }
    ensures new { IfOk result (EachNamed (λ name. IsNew) (name_lists names.now)) }
    ensures areas { IfOk result (λ media. AreNewAreas (unfused media.areas)) }
{
    Ok(Media {
        areas: new_fused(alloc),
        stores: new_stores(alloc, names.stores.len())?,
        tiers: new_tiers(alloc, &names.tiers)?,
    })
}

/// Puts media under their names, where something stands, and answers what stood there, areas with no
/// fuse.
fn exchange_lent(
    stores: &mut Vec<Named<MemObjects>>,
    areas: &mut Vec<Named<(MemDisk, MemDisk)>>,
    names: &MediaNames,
    media: Media<MemDisk, MemObjects>,
) -> Media<MemDisk, MemObjects>
    requires shape { HasShape (name_lists names.now) media }
    requires distinct { IsTrue (are_distinct (all_names (name_lists names.now))) }
    requires places { HasPlaces stores.old.items (all_names (name_lists names.now)) }
    requires area_places { HasPlaces areas.old.items ((name_lists names.now).journal ∷ []) }
    ensures taken { EachNamed (IsUnder stores.old.items) (name_lists names.now) result }
    ensures given { EachNamed (IsUnder stores.new.items) (name_lists names.now) media }
    ensures others { IsSameBut (all_names (name_lists names.now)) stores.old.items stores.new.items }
    ensures places { HasPlaces stores.new.items (all_names (name_lists names.now)) }
    ensures areas_taken { IsUnder areas.old.items (name_lists names.now).journal (unfused result.areas) }
    ensures areas_given { IsUnder areas.new.items (name_lists names.now).journal (unfused media.areas) }
    ensures areas_others { IsSameBut ((name_lists names.now).journal ∷ []) areas.old.items areas.new.items }
    ensures area_places { HasPlaces areas.new.items ((name_lists names.now).journal ∷ []) }
    ensures fuses { (result.areas.0.fuse ≡ None) × (result.areas.1.fuse ≡ None) }
{
    let mut media = media;
    exchange_media(stores, names, &mut media);
    media.areas = exchange_areas(areas, &names.journal, media.areas);
    media
}

impl MemShelf {
    /// A shelf that holds nothing, of which nothing is lent; takes no memory.
    pub fn new(alloc: Global) -> MemShelf
        ensures stores { result.stores.items ≡ [] }
        ensures areas { result.areas.items ≡ [] }
        ensures lent { result.lent ≡ None }
    {
        MemShelf {
            alloc,
            stores: Vec::new(alloc),
            areas: Vec::new(alloc),
            lent: None,
        }
    }

    /// Holds a store under a name, in the place of what it held there. An `Err` is want of memory;
    /// then it holds what it did.
    pub fn hold(&mut self, name: &str, store: MemObjects) -> Result<(), AllocError>
        ensures ok { OnOk result ((other : List ℕ) → item_under self.new.stores.items other ≡ (if bytes_eq name.now other then Some store else item_under self.old.stores.items other)) }
        ensures err { OnErr result (self.new.stores.items ≡ self.old.stores.items) }
        ensures areas { self.new.areas.items ≡ self.old.areas.items }
        ensures lent { self.new.lent ≡ self.old.lent }
    {
        let name = String::from_str(self.alloc, name)?;
        self.stores.insert(0, Named { name, item: store })?;
        Ok(())
    }

    /// Holds two areas under a journal's name, in the place of what it held there. An `Err` is want of
    /// memory; then it holds what it did.
    pub fn hold_areas(
        &mut self,
        name: &str,
        first: MemDisk,
        second: MemDisk,
    ) -> Result<(), AllocError>
        ensures ok { OnOk result ((other : List ℕ) → item_under self.new.areas.items other ≡ (if bytes_eq name.now other then Some (first, second) else item_under self.old.areas.items other)) }
        ensures err { OnErr result (self.new.areas.items ≡ self.old.areas.items) }
        ensures stores { self.new.stores.items ≡ self.old.stores.items }
        ensures lent { self.new.lent ≡ self.old.lent }
    {
        let name = String::from_str(self.alloc, name)?;
        let item = (first, second);
        self.areas.insert(0, Named { name, item })?;
        Ok(())
    }

    /// The store under a name. A lent one isn't here.
    pub fn find(&self, name: &str) -> Option<&MemObjects>
        ensures { option_copied result ≡ item_under self.now.stores.items name.now }
    {
        find(&self.stores, name)
    }

    /// The areas 0 and 1 under a journal's name. Lent ones aren't here.
    pub fn find_areas(&self, name: &str) -> Option<&(MemDisk, MemDisk)>
        ensures { option_copied result ≡ item_under self.now.areas.items name.now }
    {
        find(&self.areas, name)
    }

    /// Lends the areas, stores and tiers of these names, which are lent from then on: those that it
    /// holds, and a new one under a name that it hasn't. No area has a fuse. Meanwhile it holds
    /// nothing under these names. An
    /// `Err` is want of memory; then nothing is lent, and it holds what it did.
    pub fn lend(&mut self, names: &MediaNames) -> Result<Media<MemDisk, MemObjects>, AllocError>
        requires idle { option_map name_lists self.old.lent ≡ None }
        requires distinct { IsTrue (are_distinct (all_names (name_lists names.now))) }
        ensures shape { IfOk result (HasShape (name_lists names.now)) }
        ensures found { IfOk result (EachNamed (λ name. IsFound (item_under self.old.stores.items name)) (name_lists names.now)) }
        ensures told { IfOk result (EachNamed (TellsHeld told_of (Some (shelf_of self.old.stores.items))) (name_lists names.now)) }
        ensures lent { OnOk result (option_map name_lists self.new.lent ≡ Some (name_lists names.now)) }
        ensures gone { OnOk result (LacksEach (all_names (name_lists names.now)) (Some (shelf_of self.new.stores.items))) }
        ensures others { OnOk result (IsSameBut (all_names (name_lists names.now)) self.old.stores.items self.new.stores.items) }
        ensures kept { OnOk result (KeepsBut (all_names (name_lists names.now)) (Some (shelf_of self.old.stores.items)) (Some (shelf_of self.new.stores.items))) }
        ensures areas_found { IfOk result (λ media. AreFoundAreas (item_under self.old.areas.items (name_lists names.now).journal) (unfused media.areas)) }
        ensures areas { IfOk result (λ media. HoldsAreas (λ _. true) disk_history (Some (areas_of self.old.areas.items)) (name_lists names.now).journal media.areas) }
        ensures fresh { IfOk result (λ media. AreFresh (λ _. true) (Some (areas_of self.old.areas.items)) media.areas) }
        ensures areas_gone { OnOk result (LacksAreas (name_lists names.now).journal (Some (areas_of self.new.areas.items))) }
        ensures areas_others { OnOk result (IsSameBut ((name_lists names.now).journal ∷ []) self.old.areas.items self.new.areas.items) }
        ensures areas_kept { OnOk result (KeepsAreasBut (name_lists names.now).journal (Some (areas_of self.old.areas.items)) (Some (areas_of self.new.areas.items))) }
        ensures idle { OnErr result (option_map name_lists self.new.lent ≡ None) }
        ensures areas_err { OnErr result (areas_of self.new.areas.items ≡ areas_of self.old.areas.items) }
        ensures err { OnErr result (shelf_of self.new.stores.items ≡ shelf_of self.old.stores.items) }
    {
        let lent = names.clone()?;
        let new = new_media(self.alloc, names)?;
        make_media_places(self.alloc, &mut self.stores, names)?;
        make_area_place(self.alloc, &mut self.areas, &names.journal)?;
        let media = exchange_lent(&mut self.stores, &mut self.areas, names, new);
        self.lent = Some(lent);
        Ok(media)
    }

    /// Takes media back, each under its lent name, in the place of what it holds there; takes no
    /// memory. Nothing is lent from then on.
    pub fn take_back(&mut self, media: Media<MemDisk, MemObjects>)
        requires { IsSomeAnd (option_map name_lists self.old.lent) (λ names. HasShape names media) }
        ensures given { IfSome (option_map name_lists self.old.lent) (λ names. EachNamed (IsUnder self.new.stores.items) names media) }
        ensures told { IfSome (option_map name_lists self.old.lent) (λ names. EachNamed (TellsHeld told_of (Some (shelf_of self.new.stores.items))) names media) }
        ensures others { IfSome (option_map name_lists self.old.lent) (λ names. IsSameBut (all_names names) self.old.stores.items self.new.stores.items) }
        ensures kept { IfSome (option_map name_lists self.old.lent) (λ names. KeepsBut (all_names names) (Some (shelf_of self.old.stores.items)) (Some (shelf_of self.new.stores.items))) }
        ensures areas_given { IfSome (option_map name_lists self.old.lent) (λ names. IsUnder self.new.areas.items names.journal (unfused media.areas)) }
        ensures areas { IfSome (option_map name_lists self.old.lent) (λ names. HoldsAreas (λ _. true) disk_history (Some (areas_of self.new.areas.items)) names.journal media.areas) }
        ensures areas_others { IfSome (option_map name_lists self.old.lent) (λ names. IsSameBut (names.journal ∷ []) self.old.areas.items self.new.areas.items) }
        ensures areas_kept { IfSome (option_map name_lists self.old.lent) (λ names. KeepsAreasBut names.journal (Some (areas_of self.old.areas.items)) (Some (areas_of self.new.areas.items))) }
        ensures idle { option_map name_lists self.new.lent ≡ None }
    {
        if let Some(names) = self.lent.take() {
            drop(exchange_lent(&mut self.stores, &mut self.areas, &names, media));
        }
    }
}
