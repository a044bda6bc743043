//! A world in memory.

ghost use Rattle.std.specs.Prelude.{◌≡◌, ◌^◌, ◌-◌, List, ℕ, [], Some, None, OnOk, OnErr, option_map, if◌then◌else◌};
ghost use Rattle.std.specs.Str.{bytes_eq};
ghost use Rattle.outside.specs.Inputs.{named};
ghost use Rattle.outside_mem.specs.Held.{bytes_under};
ghost use Rattle.outside_mem.specs.Named.{item_under};

use crate::disk::MemDisk;
use crate::failures::{Failing, counted};
use crate::inputs::MemSource;
use crate::outputs::MemSink;
use crate::shelf::MemShelf;
use crate::store::MemObjects;
use outside::media::{Media, MediaNames};
use outside::world::{Fail, World};
use std::alloc::{AllocError, Global};

/// What a world holds under one name.
#[derive(Debug, Drop)]
pub struct Input {
    pub name: String,
    pub bytes: Vec<u8>,
}

/// Inputs by name, the two that are open, an output, and areas, stores and tiers by name, all in
/// memory; it tells all of it.
#[derive(Debug, Drop)]
pub struct MemWorld {
    /// What the copies of inputs are made with.
    pub alloc: Global,
    /// What it holds; of several inputs with one name the first counts.
    pub inputs: Vec<Input>,
    /// The calls of `choose` that fail.
    pub choose_failing: Failing,
    /// How many calls of `choose` there were, up to 2^64 - 1.
    pub choose_calls: u64,
    /// The areas, stores and tiers that it holds, and the names of those that are lent.
    pub shelf: MemShelf,
    /// The calls of `assemble` that fail.
    pub assemble_failing: Failing,
    /// How many calls of `assemble` there were, up to 2^64 - 1.
    pub assemble_calls: u64,
    /// How many calls of both were told to fail, up to 2^64 - 1.
    pub faults: u64,
    /// How many calls of `choose` asked for a name that isn't held, up to 2^64 - 1.
    pub misses: u64,
    /// The configuration's input. What it is told to fail and its greatest piece stay when it is
    /// opened.
    pub config: MemSource,
    /// The script's input; likewise.
    pub script: MemSource,
    /// The output.
    pub out: MemSink,
}

/// The bytes under a name, where an empty name stands for an input that holds nothing.
fn input_of<'a>(inputs: &'a [Input], name: &str) -> Option<&'a [u8]>
    ensures { option_map (λ bytes. bytes.now) result ≡ named (bytes_under inputs.now) name.now }
{
    if name.is_empty() {
        return Some(&[]);
    }
    for input in inputs {
        if input.name.as_str() == name {
            return Some(input.bytes.as_slice());
        }
    }
    None
}

impl MemWorld {
    /// A world that holds nothing; nothing is to fail. Both inputs hold nothing. Takes no memory.
    pub fn new(alloc: Global) -> MemWorld
        ensures inputs { result.inputs.items ≡ [] }
        ensures stores { result.shelf.stores.items ≡ [] }
        ensures areas { result.shelf.areas.items ≡ [] }
        ensures lent { result.shelf.lent ≡ None }
        ensures failing { (result.choose_failing.calls.items ≡ []) × (result.choose_failing.from ≡ None) }
        ensures assemble_failing { (result.assemble_failing.calls.items ≡ []) × (result.assemble_failing.from ≡ None) }
        ensures counts { (result.choose_calls ≡ 0) × (result.assemble_calls ≡ 0) × (result.faults ≡ 0) × (result.misses ≡ 0) }
        ensures output { result.out.bytes.items ≡ [] }
    {
        MemWorld {
            alloc,
            inputs: Vec::new(alloc),
            choose_failing: Failing::none(alloc),
            choose_calls: 0,
            shelf: MemShelf::new(alloc),
            assemble_failing: Failing::none(alloc),
            assemble_calls: 0,
            faults: 0,
            misses: 0,
            config: MemSource::new(Vec::new(alloc)),
            script: MemSource::new(Vec::new(alloc)),
            out: MemSink::new(alloc),
        }
    }

    /// Holds these bytes under a name, in the place of what it held there. An `Err` is want of
    /// memory; then it holds what it did.
    pub fn hold(&mut self, name: &str, bytes: &[u8]) -> Result<(), AllocError>
        ensures ok { OnOk result ((other : List ℕ) → bytes_under self.new.inputs.items other ≡ (if bytes_eq name.now other then Some bytes.now else bytes_under self.old.inputs.items other)) }
        ensures err { OnErr result (self.new.inputs.items ≡ self.old.inputs.items) }
        ensures output { self.new.out ≡ self.old.out }
        ensures opened { (self.new.config ≡ self.old.config) × (self.new.script ≡ self.old.script) }
        ensures kept { (self.new.choose_failing ≡ self.old.choose_failing) × (self.new.choose_calls ≡ self.old.choose_calls) × (self.new.faults ≡ self.old.faults) × (self.new.misses ≡ self.old.misses) }
        ensures media { (self.new.shelf ≡ self.old.shelf) × (self.new.assemble_failing ≡ self.old.assemble_failing) × (self.new.assemble_calls ≡ self.old.assemble_calls) }
    {
        let name = String::from_str(self.alloc, name)?;
        let bytes = Vec::from_slice(self.alloc, bytes)?;
        self.inputs.insert(0, Input { name, bytes })?;
        Ok(())
    }

    /// Holds a store or tier under a name, in the place of what it held there. An `Err` is want of
    /// memory; then it holds what it did.
    pub fn hold_store(&mut self, name: &str, store: MemObjects) -> Result<(), AllocError>
        ensures ok { OnOk result ((other : List ℕ) → item_under self.new.shelf.stores.items other ≡ (if bytes_eq name.now other then Some store else item_under self.old.shelf.stores.items other)) }
        ensures err { OnErr result (self.new.shelf.stores.items ≡ self.old.shelf.stores.items) }
        ensures areas { self.new.shelf.areas.items ≡ self.old.shelf.areas.items }
        ensures lent { self.new.shelf.lent ≡ self.old.shelf.lent }
        ensures inputs { self.new.inputs.items ≡ self.old.inputs.items }
        ensures output { self.new.out ≡ self.old.out }
        ensures opened { (self.new.config ≡ self.old.config) × (self.new.script ≡ self.old.script) }
        ensures lists { (self.new.choose_failing ≡ self.old.choose_failing) × (self.new.assemble_failing ≡ self.old.assemble_failing) }
        ensures counts { (self.new.choose_calls ≡ self.old.choose_calls) × (self.new.assemble_calls ≡ self.old.assemble_calls) × (self.new.faults ≡ self.old.faults) × (self.new.misses ≡ self.old.misses) }
    {
        self.shelf.hold(name, store)
    }

    /// Holds two areas under a journal's name, in the place of what it held there. An `Err` is want of
    /// memory; then it holds what it did.
    pub fn hold_areas(
        &mut self,
        name: &str,
        first: MemDisk,
        second: MemDisk,
    ) -> Result<(), AllocError>
        ensures ok { OnOk result ((other : List ℕ) → item_under self.new.shelf.areas.items other ≡ (if bytes_eq name.now other then Some (first, second) else item_under self.old.shelf.areas.items other)) }
        ensures err { OnErr result (self.new.shelf.areas.items ≡ self.old.shelf.areas.items) }
        ensures stores { self.new.shelf.stores.items ≡ self.old.shelf.stores.items }
        ensures lent { self.new.shelf.lent ≡ self.old.shelf.lent }
        ensures inputs { self.new.inputs.items ≡ self.old.inputs.items }
        ensures output { self.new.out ≡ self.old.out }
        ensures opened { (self.new.config ≡ self.old.config) × (self.new.script ≡ self.old.script) }
        ensures lists { (self.new.choose_failing ≡ self.old.choose_failing) × (self.new.assemble_failing ≡ self.old.assemble_failing) }
        ensures counts { (self.new.choose_calls ≡ self.old.choose_calls) × (self.new.assemble_calls ≡ self.old.assemble_calls) × (self.new.faults ≡ self.old.faults) × (self.new.misses ≡ self.old.misses) }
    {
        self.shelf.hold_areas(name, first, second)
    }
}

impl World for MemWorld {
    ghost use Rattle.std.specs.Prelude.{◌≤◌, ◌⊎◌, ◌∷◌, Err, IfOk, IfSome, IsSomeAnd, IsTrue, false, true, refl};
    ghost use Rattle.outside.specs.AreaShelf.{AreFresh, HoldsAreas, KeepsAreasBut, LacksAreas};
    ghost use Rattle.outside.specs.Causes.{next_count, Rose};
    ghost use Rattle.outside.specs.Inputs.{is_missed, Opens};
    ghost use Rattle.outside.specs.Shelf.{EachNamed, HasShape, KeepsBut, LacksEach, TellsHeld, all_names, are_distinct, name_lists};
    ghost use Rattle.outside_mem.specs.Counts.{counted};
    ghost use Rattle.outside_mem.specs.Disks.{disk_history};
    ghost use Rattle.outside_mem.specs.Failures.{is_failing};
    ghost use Rattle.outside_mem.specs.Fakes.{left_of};
    ghost use Rattle.outside_mem.specs.Named.{IsFound, IsSameBut, IsUnder, shelf_of, item_under, told_of};
    ghost use Rattle.outside_mem.specs.NamedAreas.{AreFoundAreas, areas_of, unfused};

    type In = MemSource;

    type Out = MemSink;

    type Area = MemDisk;

    type Store = MemObjects;

    ghost held = { λ w. Some (bytes_under w.inputs.items) };

    ghost config_input = { λ w. w.config };

    ghost script_input = { λ w. w.script };

    ghost with_script_input = { λ w i. record w { script = i } };

    ghost output = { λ w. w.out };

    ghost with_output = { λ w o. record w { out = o } };

    ghost shelf = { λ w. Some (shelf_of w.shelf.stores.items) };

    ghost areas = { λ w. Some (areas_of w.shelf.areas.items) };

    ghost lent = { λ w. option_map name_lists w.shelf.lent };

    ghost faults = { λ w. w.faults };

    ghost misses = { λ w. w.misses };

    /// Fails exactly where it was told to or one of the names isn't held. At `Ok` both inputs have
    /// all of their bytes left; what they are told to fail, their greatest pieces and their counts
    /// stay. The call is counted, also where it fails; nothing else changes then.
    fn choose(&mut self, config: &str, script: &str) -> Result<(), Fail>
        ensures config { OnOk result (Opens (Some (bytes_under self.old.inputs.items)) config.now (Some (left_of self.new.config))) }
        ensures script { OnOk result (Opens (Some (bytes_under self.old.inputs.items)) script.now (Some (left_of self.new.script))) }

        ensures failed { result ≡ Err Fail.Failed → Rose self.old.faults self.new.faults ⊎ IsTrue (is_missed (Some (bytes_under self.old.inputs.items)) config.now script.now) }
        ensures missed { IsTrue (is_missed (Some (bytes_under self.old.inputs.items)) config.now script.now) → (result ≡ Err Fail.Failed) × Rose self.old.misses self.new.misses }
        ensures met { is_missed (Some (bytes_under self.old.inputs.items)) config.now script.now ≡ false → self.new.misses ≡ self.old.misses }
        ensures later { self.old.faults ≤ self.new.faults }

        ensures held { Some (bytes_under self.new.inputs.items) ≡ Some (bytes_under self.old.inputs.items) }
        ensures shelf { Some (shelf_of self.new.shelf.stores.items) ≡ Some (shelf_of self.old.shelf.stores.items) }
        ensures areas { Some (areas_of self.new.shelf.areas.items) ≡ Some (areas_of self.old.shelf.areas.items) }
        ensures lent { option_map name_lists self.new.shelf.lent ≡ option_map name_lists self.old.shelf.lent }
        ensures output { self.new.out ≡ self.old.out }
        ensures kept { OnErr result ((self.new.config ≡ self.old.config) × (self.new.script ≡ self.old.script)) }
        ensures config_count { self.old.config.faults ≤ self.new.config.faults }
        ensures script_count { self.old.script.faults ≤ self.new.script.faults }

        ensures listed { IsTrue (is_failing self.old.choose_failing (next_count self.old.choose_calls)) → result ≡ Err Fail.Failed }
        ensures unlisted { is_failing self.old.choose_failing (next_count self.old.choose_calls) ≡ false → result ≡ Err Fail.Failed → IsTrue (is_missed (Some (bytes_under self.old.inputs.items)) config.now script.now) }
        ensures calls { self.new.choose_calls ≡ next_count self.old.choose_calls }
        ensures faults { self.new.faults ≡ counted self.old.faults (is_failing self.old.choose_failing (next_count self.old.choose_calls)) }
        ensures misses { self.new.misses ≡ counted self.old.misses (is_missed (Some (bytes_under self.old.inputs.items)) config.now script.now) }
        ensures lists { self.new.choose_failing ≡ self.old.choose_failing }
        ensures media { (self.new.shelf ≡ self.old.shelf) × (self.new.assemble_failing ≡ self.old.assemble_failing) × (self.new.assemble_calls ≡ self.old.assemble_calls) }
        ensures config_kept { (self.new.config.failing ≡ self.old.config.failing) × (self.new.config.greatest_piece ≡ self.old.config.greatest_piece) × (self.new.config.calls ≡ self.old.config.calls) }
        ensures script_kept { (self.new.script.failing ≡ self.old.script.failing) × (self.new.script.greatest_piece ≡ self.old.script.greatest_piece) × (self.new.script.calls ≡ self.old.script.calls) }
    {
        self.choose_calls = self.choose_calls.saturating_add(1);
        let listed = self.choose_failing.fails(self.choose_calls);
        self.faults = counted(self.faults, listed);
        let config = input_of(&self.inputs, config);
        let script = input_of(&self.inputs, script);
        self.misses = counted(self.misses, config.is_none() || script.is_none());
        let (Some(config), Some(script), false) = (config, script, listed) else {
            return Err(Fail::Failed);
        };
        let config = Vec::from_slice(self.alloc, config)?;
        let script = Vec::from_slice(self.alloc, script)?;
        self.config.reopen(config);
        self.script.reopen(script);
        Ok(())
    }

    fn script(&mut self) -> &mut MemSource {
        &mut self.script
    }

    fn out(&mut self) -> &mut MemSink {
        &mut self.out
    }

    /// Fails exactly where it was told to. At `Ok` each area, store and tier is the very one that it
    /// holds under the name, with its lists and counts, or a new one. The call is counted.
    fn assemble(&mut self, names: &MediaNames) -> Result<Media<MemDisk, MemObjects>, Fail>
        requires idle { option_map name_lists self.old.shelf.lent ≡ None }
        requires distinct { IsTrue (are_distinct (all_names (name_lists names.now))) }
        ensures shape { IfOk result (HasShape (name_lists names.now)) }
        ensures told { IfOk result (EachNamed (TellsHeld told_of (Some (shelf_of self.old.shelf.stores.items))) (name_lists names.now)) }
        ensures lent { OnOk result (option_map name_lists self.new.shelf.lent ≡ Some (name_lists names.now)) }
        ensures areas { IfOk result (λ media. HoldsAreas (λ _. true) disk_history (Some (areas_of self.old.shelf.areas.items)) (name_lists names.now).journal media.areas) }
        ensures fresh { IfOk result (λ media. AreFresh (λ _. true) (Some (areas_of self.old.shelf.areas.items)) media.areas) }
        ensures gone { OnOk result (LacksEach (all_names (name_lists names.now)) (Some (shelf_of self.new.shelf.stores.items))) }
        ensures others { OnOk result (KeepsBut (all_names (name_lists names.now)) (Some (shelf_of self.old.shelf.stores.items)) (Some (shelf_of self.new.shelf.stores.items))) }
        ensures areas_gone { OnOk result (LacksAreas (name_lists names.now).journal (Some (areas_of self.new.shelf.areas.items))) }
        ensures areas_others { OnOk result (KeepsAreasBut (name_lists names.now).journal (Some (areas_of self.old.shelf.areas.items)) (Some (areas_of self.new.shelf.areas.items))) }

        ensures failed { result ≡ Err Fail.Failed → Rose self.old.faults self.new.faults }
        ensures later { self.old.faults ≤ self.new.faults }
        ensures misses { self.new.misses ≡ self.old.misses }
        ensures idle { OnErr result (option_map name_lists self.new.shelf.lent ≡ None) }
        ensures kept { OnErr result (Some (shelf_of self.new.shelf.stores.items) ≡ Some (shelf_of self.old.shelf.stores.items)) }
        ensures areas_kept { OnErr result (Some (areas_of self.new.shelf.areas.items) ≡ Some (areas_of self.old.shelf.areas.items)) }

        ensures held { Some (bytes_under self.new.inputs.items) ≡ Some (bytes_under self.old.inputs.items) }
        ensures output { self.new.out ≡ self.old.out }
        ensures config { self.new.config ≡ self.old.config }
        ensures script { self.new.script ≡ self.old.script }

        ensures listed { IsTrue (is_failing self.old.assemble_failing (next_count self.old.assemble_calls)) → result ≡ Err Fail.Failed }
        ensures unlisted { is_failing self.old.assemble_failing (next_count self.old.assemble_calls) ≡ false → result ≡ Err Fail.Failed → ⊥ }
        ensures calls { self.new.assemble_calls ≡ next_count self.old.assemble_calls }
        ensures faults { self.new.faults ≡ counted self.old.faults (is_failing self.old.assemble_failing (next_count self.old.assemble_calls)) }
        ensures found { IfOk result (EachNamed (λ name. IsFound (item_under self.old.shelf.stores.items name)) (name_lists names.now)) }
        ensures stores { OnOk result (IsSameBut (all_names (name_lists names.now)) self.old.shelf.stores.items self.new.shelf.stores.items) }
        ensures areas_found { IfOk result (λ media. AreFoundAreas (item_under self.old.shelf.areas.items (name_lists names.now).journal) (unfused media.areas)) }
        ensures areas_same { OnOk result (IsSameBut ((name_lists names.now).journal ∷ []) self.old.shelf.areas.items self.new.shelf.areas.items) }
        ensures inputs { self.new.inputs.items ≡ self.old.inputs.items }
        ensures lists { (self.new.choose_failing ≡ self.old.choose_failing) × (self.new.assemble_failing ≡ self.old.assemble_failing) }
        ensures choosing { self.new.choose_calls ≡ self.old.choose_calls }
    {
        self.assemble_calls = self.assemble_calls.saturating_add(1);
        let listed = self.assemble_failing.fails(self.assemble_calls);
        self.faults = counted(self.faults, listed);
        if listed {
            return Err(Fail::Failed);
        }
        Ok(self.shelf.lend(names)?)
    }

    /// From then on the areas, stores and tiers of the media are those that it holds under the lent
    /// names.
    fn give_back(&mut self, media: Media<MemDisk, MemObjects>)
        requires { IsSomeAnd (option_map name_lists self.old.shelf.lent) (λ names. HasShape names media) }
        ensures told { IfSome (option_map name_lists self.old.shelf.lent) (λ names. EachNamed (TellsHeld told_of (Some (shelf_of self.new.shelf.stores.items))) names media) }
        ensures others { IfSome (option_map name_lists self.old.shelf.lent) (λ names. KeepsBut (all_names names) (Some (shelf_of self.old.shelf.stores.items)) (Some (shelf_of self.new.shelf.stores.items))) }
        ensures areas { IfSome (option_map name_lists self.old.shelf.lent) (λ names. HoldsAreas (λ _. true) disk_history (Some (areas_of self.new.shelf.areas.items)) names.journal media.areas) }
        ensures areas_others { IfSome (option_map name_lists self.old.shelf.lent) (λ names. KeepsAreasBut names.journal (Some (areas_of self.old.shelf.areas.items)) (Some (areas_of self.new.shelf.areas.items))) }
        ensures idle { option_map name_lists self.new.shelf.lent ≡ None }

        ensures faults { self.new.faults ≡ self.old.faults }
        ensures misses { self.new.misses ≡ self.old.misses }

        ensures held { Some (bytes_under self.new.inputs.items) ≡ Some (bytes_under self.old.inputs.items) }
        ensures output { self.new.out ≡ self.old.out }
        ensures config { self.new.config ≡ self.old.config }
        ensures script { self.new.script ≡ self.old.script }

        ensures given { IfSome (option_map name_lists self.old.shelf.lent) (λ names. EachNamed (IsUnder self.new.shelf.stores.items) names media) }
        ensures stores { IfSome (option_map name_lists self.old.shelf.lent) (λ names. IsSameBut (all_names names) self.old.shelf.stores.items self.new.shelf.stores.items) }
        ensures areas_given { IfSome (option_map name_lists self.old.shelf.lent) (λ names. IsUnder self.new.shelf.areas.items names.journal (unfused media.areas)) }
        ensures areas_same { IfSome (option_map name_lists self.old.shelf.lent) (λ names. IsSameBut (names.journal ∷ []) self.old.shelf.areas.items self.new.shelf.areas.items) }
        ensures inputs { self.new.inputs.items ≡ self.old.inputs.items }
        ensures lists { (self.new.choose_failing ≡ self.old.choose_failing) × (self.new.assemble_failing ≡ self.old.assemble_failing) }
        ensures calls { (self.new.choose_calls ≡ self.old.choose_calls) × (self.new.assemble_calls ≡ self.old.assemble_calls) }
    {
        self.shelf.take_back(media);
    }

    ghost script_set = { λ w i. refl };

    ghost script_keeps_held = { λ w i. refl };

    ghost script_keeps_config = { λ w i. refl };

    ghost script_keeps_output = { λ w i. refl };

    ghost script_keeps_shelf = { λ w i. refl };

    ghost script_keeps_areas = { λ w i. refl };

    ghost script_keeps_lent = { λ w i. refl };

    ghost script_keeps_faults = { λ w i. refl };

    ghost script_keeps_misses = { λ w i. refl };

    ghost output_set = { λ w o. refl };

    ghost output_keeps_held = { λ w o. refl };

    ghost output_keeps_config = { λ w o. refl };

    ghost output_keeps_script = { λ w o. refl };

    ghost output_keeps_shelf = { λ w o. refl };

    ghost output_keeps_areas = { λ w o. refl };

    ghost output_keeps_lent = { λ w o. refl };

    ghost output_keeps_faults = { λ w o. refl };

    ghost output_keeps_misses = { λ w o. refl };
}
