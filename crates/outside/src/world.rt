//! All that the program reaches: two inputs, for the configuration and for the script, an output, and
//! the areas, stores and tiers that it works over.

ghost use Rattle.std.specs.Prelude.{◌≡◌, ◌≤◌, ◌⊎◌, ℕ, List, None, Some, false, IfOk, IfSome, IsSomeAnd, IsTrue, OnOk, OnErr, Err};
ghost use Rattle.std.specs.declared.option.Option.{Option};
ghost use Rattle.std.specs.Borrow.{sem, Lends};
ghost use Rattle.outside.specs.AreaShelf.{AreFresh, AreaShelf, HoldsAreas, KeepsAreasBut, LacksAreas};
ghost use Rattle.outside.specs.Causes.{Rose};
ghost use Rattle.outside.specs.Inputs.{is_missed, Opens};
ghost use Rattle.outside.specs.Shelf.{EachNamed, HasShape, KeepsBut, LacksEach, NameLists, Shelf, TellsHeld, all_names, are_distinct, name_lists};

use crate::disk::Disk;
use crate::media::{Media, MediaNames};
use crate::objects::Objects;
use crate::stream::{Sink, Source};
use std::alloc::AllocError;

/// Why a call of the outside did nothing.
#[derive(Debug, Clone, Copy, PartialEq, Eq)]
pub enum Fail {
    /// The call failed, or what it named isn't there.
    Failed,
    /// There was no memory for it.
    Memory,
}

impl From<AllocError> for Fail {
    ghost use Rattle.outside.specs.declared.world.Fail.TheVariants.{Memory};

    ghost from_gives = { λ _ fail. fail ≡ Memory };

    fn from(_error: AllocError) -> Fail {
        Fail::Memory
    }
}

/// Inputs by name, of which two are open, an output, and areas, stores and tiers by name, which it
/// lends.
pub trait World {
    type In: Source;

    type Out: Sink;

    type Area: Disk;

    type Store: Objects;

    /// The bytes that it holds under each name, where it tells.
    ghost held: { Self → Option (List ℕ → Option (List ℕ)) };

    /// The configuration's input.
    ghost config_input: { Self → Self.In };

    /// The script's input.
    ghost script_input: { Self → Self.In };

    /// The same world with another input for the script.
    ghost with_script_input: { Self → Self.In → Self };

    /// The output.
    ghost output: { Self → Self.Out };

    /// The same world with another output.
    ghost with_output: { Self → Self.Out → Self };

    /// The objects of the store or tier that it holds under each name, where it tells. Under a name
    /// that it hasn't, or that is lent, there are none.
    ghost shelf: { Self → Option Shelf };

    /// The bytes of both areas that it holds under each journal's name, where it tells. Under a name
    /// that it hasn't, or that is lent, both are empty.
    ghost areas: { Self → Option AreaShelf };

    /// The names of the areas, stores and tiers that are lent, where some are.
    ghost lent: { Self → Option NameLists };

    /// How often it has failed, up to 2^64 - 1; it never falls.
    ghost faults: { Self → ℕ };

    /// How often it was asked for a name that it doesn't hold, up to 2^64 - 1; it never falls.
    ghost misses: { Self → ℕ };

    /// Opens both inputs. An empty name stands for an input that holds nothing.
    ///
    /// Where the world tells: at `Ok` it holds both names, and each input has left all that is held
    /// under its name; where it doesn't hold one of them, the call is a miss: the answer is
    /// `Failed`, and `misses` rises. Else `Failed` comes only where `faults` rose in this call.
    ///
    /// What is held and lent, the output, and after an error both inputs stay as they were. The
    /// counts of the inputs don't fall.
    fn choose(&mut self, config: &str, script: &str) -> Result<(), Fail>
        ensures config { OnOk result (Opens (held self.old) config.now (Self.In.left (config_input self.new))) }
        ensures script { OnOk result (Opens (held self.old) script.now (Self.In.left (script_input self.new))) }

        ensures failed { result ≡ Err Fail.Failed → Rose (faults self.old) (faults self.new) ⊎ IsTrue (is_missed (held self.old) config.now script.now) }
        ensures missed { IsTrue (is_missed (held self.old) config.now script.now) → (result ≡ Err Fail.Failed) × Rose (misses self.old) (misses self.new) }
        ensures met { is_missed (held self.old) config.now script.now ≡ false → misses self.new ≡ misses self.old }
        ensures later { faults self.old ≤ faults self.new }

        ensures held { held self.new ≡ held self.old }
        ensures shelf { shelf self.new ≡ shelf self.old }
        ensures areas { areas self.new ≡ areas self.old }
        ensures lent { lent self.new ≡ lent self.old }
        ensures output { output self.new ≡ output self.old }
        ensures kept { OnErr result ((config_input self.new ≡ config_input self.old) × (script_input self.new ≡ script_input self.old)) }
        ensures config_count { Self.In.faults (config_input self.old) ≤ Self.In.faults (config_input self.new) }
        ensures script_count { Self.In.faults (script_input self.old) ≤ Self.In.faults (script_input self.new) };

    /// The script's input; all else stays as it is.
    fn script(&mut self) -> &mut Self::In
        ensures* lends { sem 𝓛 (Lends Self.row Self.In.row self.entry result (with_script_input self.old)) }
        ensures value { result.now ≡ script_input self.old };

    /// The output; all else stays as it is.
    fn out(&mut self) -> &mut Self::Out
        ensures* lends { sem 𝓛 (Lends Self.row Self.Out.row self.entry result (with_output self.old)) }
        ensures value { result.now ≡ output self.old };

    /// Lends the areas, stores and tiers under these names: the two areas of the journal's name, with
    /// no fuse, one store for each name of one, and for each worker one tier for each of its names,
    /// all in the order of the names. Each holds what the world holds under its name, and tells it
    /// where the world does; under a name that it hasn't there is an empty one. From then on the names
    /// are lent, until `give_back`.
    ///
    /// The journal's name may be that of a store or tier too: areas are held apart from these.
    ///
    /// `Failed` comes only where `faults` rose in this call. After an error nothing is lent, and
    /// what is held is as it was. In any case the inputs, what is held of inputs, and the output
    /// stay as they were.
    fn assemble(&mut self, names: &MediaNames) -> Result<Media<Self::Area, Self::Store>, Fail>
        requires idle { lent self.old ≡ None }
        requires distinct { IsTrue (are_distinct (all_names (name_lists names.now))) }
        ensures shape { IfOk result (HasShape (name_lists names.now)) }
        ensures told { IfOk result (EachNamed (TellsHeld Self.Store.told (shelf self.old)) (name_lists names.now)) }
        ensures lent { OnOk result (lent self.new ≡ Some (name_lists names.now)) }
        ensures areas { IfOk result (λ media. HoldsAreas Self.Area.tells Self.Area.history (areas self.old) (name_lists names.now).journal media.areas) }
        ensures fresh { IfOk result (λ media. AreFresh Self.Area.tells (areas self.old) media.areas) }
        ensures gone { OnOk result (LacksEach (all_names (name_lists names.now)) (shelf self.new)) }
        ensures others { OnOk result (KeepsBut (all_names (name_lists names.now)) (shelf self.old) (shelf self.new)) }
        ensures areas_gone { OnOk result (LacksAreas (name_lists names.now).journal (areas self.new)) }
        ensures areas_others { OnOk result (KeepsAreasBut (name_lists names.now).journal (areas self.old) (areas self.new)) }

        ensures failed { result ≡ Err Fail.Failed → Rose (faults self.old) (faults self.new) }
        ensures later { faults self.old ≤ faults self.new }
        ensures misses { misses self.new ≡ misses self.old }
        ensures idle { OnErr result (lent self.new ≡ None) }
        ensures kept { OnErr result (shelf self.new ≡ shelf self.old) }
        ensures areas_kept { OnErr result (areas self.new ≡ areas self.old) }

        ensures held { held self.new ≡ held self.old }
        ensures output { output self.new ≡ output self.old }
        ensures config { config_input self.new ≡ config_input self.old }
        ensures script { script_input self.new ≡ script_input self.old };

    /// Takes back the media that are lent, as many stores and tiers of each worker as there are lent
    /// names. From then on nothing is lent, and the world holds under each of the names what the
    /// store or tier at its place holds, under the journal's name what a read of each area gives, and
    /// all else as it was. Whether it tells stays the same.
    fn give_back(&mut self, media: Media<Self::Area, Self::Store>)
        requires { IsSomeAnd (lent self.old) (λ names. HasShape names media) }
        ensures told { IfSome (lent self.old) (λ names. EachNamed (TellsHeld Self.Store.told (shelf self.new)) names media) }
        ensures others { IfSome (lent self.old) (λ names. KeepsBut (all_names names) (shelf self.old) (shelf self.new)) }
        ensures areas { IfSome (lent self.old) (λ names. HoldsAreas Self.Area.tells Self.Area.history (areas self.new) names.journal media.areas) }
        ensures areas_others { IfSome (lent self.old) (λ names. KeepsAreasBut names.journal (areas self.old) (areas self.new)) }
        ensures idle { lent self.new ≡ None }

        ensures faults { faults self.new ≡ faults self.old }
        ensures misses { misses self.new ≡ misses self.old }

        ensures held { held self.new ≡ held self.old }
        ensures output { output self.new ≡ output self.old }
        ensures config { config_input self.new ≡ config_input self.old }
        ensures script { script_input self.new ≡ script_input self.old };

    // The script's input is what was put there last, and all else is kept.
    ghost script_set: { (w : Self) (i : Self.In) → script_input (with_script_input w i) ≡ i };

    ghost script_keeps_held: { (w : Self) (i : Self.In) → held (with_script_input w i) ≡ held w };

    ghost script_keeps_config: { (w : Self) (i : Self.In) → config_input (with_script_input w i) ≡ config_input w };

    ghost script_keeps_output: { (w : Self) (i : Self.In) → output (with_script_input w i) ≡ output w };

    ghost script_keeps_shelf: { (w : Self) (i : Self.In) → shelf (with_script_input w i) ≡ shelf w };

    ghost script_keeps_areas: { (w : Self) (i : Self.In) → areas (with_script_input w i) ≡ areas w };

    ghost script_keeps_lent: { (w : Self) (i : Self.In) → lent (with_script_input w i) ≡ lent w };

    ghost script_keeps_faults: { (w : Self) (i : Self.In) → faults (with_script_input w i) ≡ faults w };

    ghost script_keeps_misses: { (w : Self) (i : Self.In) → misses (with_script_input w i) ≡ misses w };

    // So it is with the output.
    ghost output_set: { (w : Self) (o : Self.Out) → output (with_output w o) ≡ o };

    ghost output_keeps_held: { (w : Self) (o : Self.Out) → held (with_output w o) ≡ held w };

    ghost output_keeps_config: { (w : Self) (o : Self.Out) → config_input (with_output w o) ≡ config_input w };

    ghost output_keeps_script: { (w : Self) (o : Self.Out) → script_input (with_output w o) ≡ script_input w };

    ghost output_keeps_shelf: { (w : Self) (o : Self.Out) → shelf (with_output w o) ≡ shelf w };

    ghost output_keeps_areas: { (w : Self) (o : Self.Out) → areas (with_output w o) ≡ areas w };

    ghost output_keeps_lent: { (w : Self) (o : Self.Out) → lent (with_output w o) ≡ lent w };

    ghost output_keeps_faults: { (w : Self) (o : Self.Out) → faults (with_output w o) ≡ faults w };

    ghost output_keeps_misses: { (w : Self) (o : Self.Out) → misses (with_output w o) ≡ misses w };
}
