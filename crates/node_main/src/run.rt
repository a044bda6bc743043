//! The whole program over a world.

ghost use Rattle.std.specs.Prelude.{◌≡◌, ◌≢◌, ◌≤◌, ◌<◌, ◌+◌, ◌⊎◌, ℕ, List, true, IfOk, IfErr, IfSome, IsSomeAnd, IsTrue, OnOk, OnErr, Ok, Err, None, Some, [], ◌∷◌, option_map, map, length, take};
ghost use Rattle.std.specs.String.{string_bytes};
ghost use Rattle.std.specs.List.{list_all};
ghost use Rattle.fs_model.specs.declared.stop.Stop.{Stop};
ghost use Rattle.fs_model.specs.Examples.{two_workers};
ghost use Rattle.fs_model.specs.Spelled.{is_setup};
ghost use Rattle.outside.specs.AreaShelf.{KeepsAreasBut};
ghost use Rattle.outside.specs.Causes.{Rose};
ghost use Rattle.outside.specs.Inputs.{is_missed};
ghost use Rattle.outside.specs.Shelf.{HasShape, KeepsBut, all_names, name_lists};
ghost use Rattle.outside.specs.Streams.{Gives, GivesAll, Takes};
ghost use Rattle.script_text.specs.ScriptText.{read_script};
ghost use Rattle.script_text.specs.Commands.{is_command};
ghost use Rattle.cluster_core.specs.Begun.{IsUnopened, MediaFit};
ghost use Rattle.play_run.specs.Play.{Between, Tells, TellsFront, TellsPartly};
ghost use Rattle.script_text.specs.declared.read.ScriptFault.TheVariants.{BadLine};
ghost use Rattle.node_main.specs.Words.{is_file_word, play_words};
ghost use Rattle.node_main.specs.Ends.{AtOpening, Attempted, Ended, FailsToOpen, FinishedAs, GivesBack, GivesUp, Holds, HoldsSame, IsBadAt, IsDue, IsLonger, IsScript, IsUnplayed, IsUntouched, Plays, PlaysFront, PlaysPartly, Stops, ToldAs, WritesPartly, end_of_areas, end_of_reading, end_of_stop, end_text, media_names, status_of};

use fs_model::items::Items;
use fs_model::setup::Setup;
use fs_model::stop::Stop;
use outside::media::{Media, MediaNames};
use outside::stream::{Fault, ReadStop, Sink, Source, push_all, read_all};
use outside::world::{Fail, World};
use play_run::play::play;
use script_text::read::{ScriptFault, read_script};
use script_text::script::Script;
use std::alloc::{AllocError, Global};

/// The most bytes of a script: 16 MiB.
pub const LIMIT: usize = 16_777_216;

/// How a run ends.
#[derive(Debug, Clone, Copy, PartialEq, Eq)]
pub enum End {
    /// The script was read and played to its end.
    Done,
    /// The words are not those of a command.
    BadWords,
    /// The configuration and what was recovered don't fit together.
    BadSetup,
    /// The line of this number, from 1, is the first that is no script line.
    BadScript(u32),
    /// An input failed.
    ReadFault,
    /// The sink failed.
    WriteFault,
    /// The journal's current area is no area, from this place on.
    Damaged { area: u32, place: u64 },
    /// Want of memory.
    Memory,
    /// The script has more than 16 MiB.
    TooLong,
    /// An input, or an area, a store or a tier, could not be opened.
    OpenFault,
    /// An area failed at the opening.
    JournalFault,
}

/// Whether the word can be the name of a file.
fn is_file_word(word: &str) -> bool
    ensures { result ≡ is_file_word word.now }
{
    match word.as_bytes() {
        [] => false,
        [first, ..] => *first != b'-',
    }
}

/// The names of the configuration and of the script, where the words are `play CONFIG SCRIPT`.
fn play_words(words: &[String]) -> Option<(&str, &str)>
    ensures { option_map (λ names. (names.0.now, names.1.now)) result ≡ play_words (map string_bytes words.now) }
{
    let [verb, config, script] = words else {
        return None;
    };
    if verb.as_str() != "play" {
        return None;
    }
    if !is_file_word(config.as_str()) {
        return None;
    }
    if !is_file_word(script.as_str()) {
        return None;
    }
    Some((config.as_str(), script.as_str()))
}

/// The sizes of a worker's tiers.
fn tier_sizes(alloc: Global, sizes: &[u64]) -> Result<Items<u64>, AllocError>
    ensures { IfOk result (λ tiers. tiers ≡ sizes.now) }
{
    Ok(Items::from_vec(Vec::from_slice(alloc, sizes)?))
}

/// The numbers of `examples/small.toml`, which stand in place of the configuration until its text is read.
fn example_setup(alloc: Global) -> Result<Setup, AllocError>
    ensures { IfOk result (λ setup. setup ≡ two_workers) }
{
    let mut tiers = Vec::new(alloc);
    tiers.push(tier_sizes(alloc, &[8, 8])?)?;
    tiers.push(tier_sizes(alloc, &[8])?)?;
    Ok(Setup {
        block: 4,
        patience: 3,
        area: 1_073_741_824,
        root: Items::from_vec(Vec::new(alloc)),
        stores: 2,
        tiers: Items::from_vec(tiers),
    })
}

/// One name.
fn one_name(alloc: Global, name: &str) -> Result<Vec<String>, AllocError>
    ensures { IfOk result (λ names. map string_bytes names.items ≡ name.now ∷ []) }
{
    let mut names = Vec::new(alloc);
    names.push(String::from_str(alloc, name)?)?;
    Ok(names)
}

/// Two names.
fn two_names(alloc: Global, first: &str, second: &str) -> Result<Vec<String>, AllocError>
    ensures { IfOk result (λ names. map string_bytes names.items ≡ first.now ∷ second.now ∷ []) }
{
    let mut names = one_name(alloc, first)?;
    names.push(String::from_str(alloc, second)?)?;
    Ok(names)
}

/// The names of that example's areas, stores and tiers.
fn example_names(alloc: Global) -> Result<MediaNames, AllocError>
    ensures { IfOk result (λ names. name_lists names ≡ media_names) }
{
    let mut tiers = Vec::new(alloc);
    tiers.push(two_names(alloc, "m1", "d1")?)?;
    tiers.push(one_name(alloc, "m2")?)?;
    Ok(MediaNames {
        journal: String::from_str(alloc, "j")?,
        stores: two_names(alloc, "s", "t")?,
        tiers,
    })
}

/// That example: its numbers, and the names of its areas, stores and tiers.
fn example(alloc: Global) -> Result<(Setup, MediaNames), AllocError>
    ensures setup { IfOk result (λ found. found.0 ≡ two_workers) }
    ensures names { IfOk result (λ found. name_lists found.1 ≡ media_names) }
{
    Ok((example_setup(alloc)?, example_names(alloc)?))
}

/// The end of a play that stopped so.
fn end_of_stop(stop: Stop) -> End
    ensures { result ≡ end_of_stop stop }
{
    match stop {
        Stop::Setup => End::BadSetup,
        Stop::OpenFault => End::OpenFault,
        Stop::Damaged { area, place } => End::Damaged { area, place },
        Stop::JournalFault => End::JournalFault,
        Stop::WriteFault => End::WriteFault,
        Stop::Memory => End::Memory,
    }
}

/// Reads the script's input to its end.
fn read_input<W: World>(alloc: Global, world: &mut W) -> Result<Vec<u8>, ReadStop>
    ensures whole { IfOk result (λ text. GivesAll (W.In.left (W.script_input world.old)) (W.In.left (W.script_input world.new)) text.items) }
    ensures short { IfOk result (λ text. length text.items ≤ LIMIT) }
    ensures long { result ≡ Err ReadStop.TooLong → (bytes : List ℕ) × (length bytes ≡ LIMIT + 1) × Gives (W.In.left (W.script_input world.old)) (W.In.left (W.script_input world.new)) bytes }
    ensures cause { result ≡ Err ReadStop.Fault → Rose (W.In.faults (W.script_input world.old)) (W.In.faults (W.script_input world.new)) }
    ensures later { W.In.faults (W.script_input world.old) ≤ W.In.faults (W.script_input world.new) }
    ensures output { W.output world.new ≡ W.output world.old }
    ensures held { W.held world.new ≡ W.held world.old }
    ensures faults { W.faults world.new ≡ W.faults world.old }
    ensures shelf { W.shelf world.new ≡ W.shelf world.old }
    ensures areas { W.areas world.new ≡ W.areas world.old }
    ensures lent { W.lent world.new ≡ W.lent world.old }
{
    read_all(alloc, world.script(), LIMIT)
}

/// Opens the inputs, and reads the script's text.
fn fetch<W: World>(alloc: Global, config: &str, script: &str, world: &mut W) -> Result<Vec<u8>, End>
    ensures text { IfOk result (λ text. Holds (W.held world.old) script.now (λ held. text.items ≡ held)) }
    ensures short { IfOk result (λ text. length text.items ≤ LIMIT) }
    ensures met { OnOk result (IsTrue (is_missed (W.held world.old) config.now script.now) → ⊥) }
    ensures open { result ≡ Err End.OpenFault → Rose (W.faults world.old) (W.faults world.new) ⊎ IsTrue (is_missed (W.held world.old) config.now script.now) }
    ensures read { result ≡ Err End.ReadFault → Rose (W.In.faults (W.script_input world.old)) (W.In.faults (W.script_input world.new)) }
    ensures long { result ≡ Err End.TooLong → IsLonger (W.held world.old) script.now LIMIT × (IsTrue (is_missed (W.held world.old) config.now script.now) → ⊥) }
    ensures ends { IfErr result (λ end. (end ≡ End.OpenFault) ⊎ (end ≡ End.ReadFault) ⊎ (end ≡ End.TooLong) ⊎ (end ≡ End.Memory)) }
    ensures world_later { W.faults world.old ≤ W.faults world.new }
    ensures input_later { W.In.faults (W.script_input world.old) ≤ W.In.faults (W.script_input world.new) }
    ensures output { W.output world.new ≡ W.output world.old }
    ensures held { W.held world.new ≡ W.held world.old }
    ensures shelf { W.shelf world.new ≡ W.shelf world.old }
    ensures areas { W.areas world.new ≡ W.areas world.old }
    ensures lent { W.lent world.new ≡ W.lent world.old }
{
    match world.choose(config, script) {
        Ok(()) => {}
        Err(Fail::Failed) => return Err(End::OpenFault),
        Err(Fail::Memory) => return Err(End::Memory),
    }
    match read_input(alloc, world) {
        Ok(text) => Ok(text),
        Err(ReadStop::Fault) => Err(End::ReadFault),
        Err(ReadStop::TooLong) => Err(End::TooLong),
        Err(ReadStop::Memory) => Err(End::Memory),
    }
}

/// Plays a script over media, and gives its lines to the world's output.
fn play_out<W: World>(
    alloc: Global,
    setup: &Setup,
    script: &Script,
    media: Media<W::Area, W::Store>,
    world: &mut W,
) -> (Result<(), Stop>, Media<W::Area, W::Store>)
    requires setup { is_setup setup.now ≡ true }
    requires commands { list_all is_command script.now ≡ true }
    requires fit { MediaFit setup.now media }
    requires shape { HasShape media_names media }
    ensures done { OnOk result.0 (Between W.Area.Disk W.Store.Objects W.Store.Reader.ObjectRead W.Store.Writer.ObjectWrite setup.now media result.1 (λ first last. Tells W.Area.Disk W.Store.Objects W.Store.Reader.ObjectRead W.Store.Writer.ObjectWrite script.now first last (W.Out.taken (W.output world.old)) (W.Out.taken (W.output world.new)))) }
    ensures partly { result.0 ≡ Err Stop.WriteFault → (Between W.Area.Disk W.Store.Objects W.Store.Reader.ObjectRead W.Store.Writer.ObjectWrite setup.now media result.1 (λ first last. TellsPartly W.Area.Disk W.Store.Objects W.Store.Reader.ObjectRead W.Store.Writer.ObjectWrite script.now first last (W.Out.taken (W.output world.old)) (W.Out.taken (W.output world.new)))) }
    ensures memory { result.0 ≡ Err Stop.Memory → (IsUnopened W.Area.Disk setup.now media result.1 Stop.Memory × (W.output world.new ≡ W.output world.old)) ⊎ (Between W.Area.Disk W.Store.Objects W.Store.Reader.ObjectRead W.Store.Writer.ObjectWrite setup.now media result.1 (λ first last. TellsFront W.Area.Disk W.Store.Objects W.Store.Reader.ObjectRead W.Store.Writer.ObjectWrite script.now first last (W.Out.taken (W.output world.old)) (W.Out.taken (W.output world.new)))) }
    ensures write { result.0 ≡ Err Stop.WriteFault → Rose (W.Out.faults (W.output world.old)) (W.Out.faults (W.output world.new)) }
    ensures unopened { IfErr result.0 (λ why. (why ≡ Stop.WriteFault → ⊥) → (why ≡ Stop.Memory → ⊥) → IsUnopened W.Area.Disk setup.now media result.1 why × (W.output world.new ≡ W.output world.old)) }
    ensures never { result.0 ≡ Err Stop.OpenFault → ⊥ }
    ensures shape { HasShape media_names result.1 }
    ensures later { W.Out.faults (W.output world.old) ≤ W.Out.faults (W.output world.new) }
    ensures input { W.script_input world.new ≡ W.script_input world.old }
    ensures held { W.held world.new ≡ W.held world.old }
    ensures faults { W.faults world.new ≡ W.faults world.old }
    ensures shelf { W.shelf world.new ≡ W.shelf world.old }
    ensures areas { W.areas world.new ≡ W.areas world.old }
    ensures lent { W.lent world.new ≡ W.lent world.old }
{
    play(alloc, setup, script, media, world.out())
}

/// Plays a script over media that the world has lent, and gives them back.
fn play_lent<W: World>(
    alloc: Global,
    setup: &Setup,
    script: &Script,
    media: Media<W::Area, W::Store>,
    world: &mut W,
) -> End
    requires setup { setup.now ≡ two_workers }
    requires commands { list_all is_command script.now ≡ true }
    requires shape { HasShape media_names media }
    requires lent { W.lent world.old ≡ Some media_names }
    ensures done { result ≡ End.Done → GivesBack W.Area.Disk W.Store.Objects W.Store.Reader.ObjectRead W.Store.Writer.ObjectWrite setup.now (W.shelf world.new, W.areas world.new) (λ first last. Tells W.Area.Disk W.Store.Objects W.Store.Reader.ObjectRead W.Store.Writer.ObjectWrite script.now first last (W.Out.taken (W.output world.old)) (W.Out.taken (W.output world.new))) media }
    ensures partly { result ≡ End.WriteFault → GivesBack W.Area.Disk W.Store.Objects W.Store.Reader.ObjectRead W.Store.Writer.ObjectWrite setup.now (W.shelf world.new, W.areas world.new) (λ first last. TellsPartly W.Area.Disk W.Store.Objects W.Store.Reader.ObjectRead W.Store.Writer.ObjectWrite script.now first last (W.Out.taken (W.output world.old)) (W.Out.taken (W.output world.new))) media }
    ensures memory { result ≡ End.Memory → ((W.Out.taken (W.output world.new) ≡ W.Out.taken (W.output world.old)) × GivesUp W.Area.Disk W.Store.Objects W.Store.Reader.ObjectRead W.Store.Writer.ObjectWrite setup.now (W.shelf world.new, W.areas world.new) Stop.Memory media) ⊎ GivesBack W.Area.Disk W.Store.Objects W.Store.Reader.ObjectRead W.Store.Writer.ObjectWrite setup.now (W.shelf world.new, W.areas world.new) (λ first last. TellsFront W.Area.Disk W.Store.Objects W.Store.Reader.ObjectRead W.Store.Writer.ObjectWrite script.now first last (W.Out.taken (W.output world.old)) (W.Out.taken (W.output world.new))) media }
    ensures write { result ≡ End.WriteFault → Rose (W.Out.faults (W.output world.old)) (W.Out.faults (W.output world.new)) }
    ensures ends { (result ≡ End.Done) ⊎ (result ≡ End.WriteFault) ⊎ (result ≡ End.Memory) ⊎ AtOpening (λ why. GivesUp W.Area.Disk W.Store.Objects W.Store.Reader.ObjectRead W.Store.Writer.ObjectWrite setup.now (W.shelf world.new, W.areas world.new) why media × (W.output world.new ≡ W.output world.old)) result }
    ensures never { result ≡ End.OpenFault → ⊥ }
    ensures later { W.Out.faults (W.output world.old) ≤ W.Out.faults (W.output world.new) }
    ensures input { W.script_input world.new ≡ W.script_input world.old }
    ensures held { W.held world.new ≡ W.held world.old }
    ensures faults { W.faults world.new ≡ W.faults world.old }
    ensures others { KeepsBut (all_names media_names) (W.shelf world.old) (W.shelf world.new) }
    ensures areas_others { KeepsAreasBut media_names.journal (W.areas world.old) (W.areas world.new) }
    ensures idle { W.lent world.new ≡ None }
{
    let (played, back) = play_out(alloc, setup, script, media, world);
    world.give_back(back);
    match played {
        Ok(()) => End::Done,
        Err(stop) => end_of_stop(stop),
    }
}

/// Plays a script over the media of the example, which the world lends meanwhile.
fn play_script<W: World>(alloc: Global, script: &Script, world: &mut W) -> End
    requires commands { list_all is_command script.now ≡ true }
    requires idle { W.lent world.old ≡ None }
    ensures done { result ≡ End.Done → Plays W.Area.Disk W.Store.Objects W.Store.Reader.ObjectRead W.Store.Writer.ObjectWrite (W.shelf world.old, W.areas world.old) (W.shelf world.new, W.areas world.new) (λ commands. commands ≡ script.now) (W.Out.taken (W.output world.old)) (W.Out.taken (W.output world.new)) }
    ensures partly { result ≡ End.WriteFault → PlaysPartly W.Area.Disk W.Store.Objects W.Store.Reader.ObjectRead W.Store.Writer.ObjectWrite (W.shelf world.old, W.areas world.old) (W.shelf world.new, W.areas world.new) (λ commands. commands ≡ script.now) (W.Out.taken (W.output world.old)) (W.Out.taken (W.output world.new)) }
    ensures memory { result ≡ End.Memory → ((W.Out.taken (W.output world.new) ≡ W.Out.taken (W.output world.old)) × IsUntouched W.Area.Disk W.Store.Objects W.Store.Reader.ObjectRead W.Store.Writer.ObjectWrite (W.shelf world.old, W.areas world.old) (W.shelf world.new, W.areas world.new)) ⊎ PlaysFront W.Area.Disk W.Store.Objects W.Store.Reader.ObjectRead W.Store.Writer.ObjectWrite (W.shelf world.old, W.areas world.old) (W.shelf world.new, W.areas world.new) (λ commands. commands ≡ script.now) (W.Out.taken (W.output world.old)) (W.Out.taken (W.output world.new)) }
    ensures open { result ≡ End.OpenFault → Rose (W.faults world.old) (W.faults world.new) × (W.output world.new ≡ W.output world.old) × HoldsSame (W.shelf world.old, W.areas world.old) (W.shelf world.new, W.areas world.new) }
    ensures write { result ≡ End.WriteFault → Rose (W.Out.faults (W.output world.old)) (W.Out.faults (W.output world.new)) }
    ensures ends { (result ≡ End.Done) ⊎ (result ≡ End.WriteFault) ⊎ (result ≡ End.OpenFault) ⊎ (result ≡ End.Memory) ⊎ AtOpening (λ why. IsUnplayed W.Area.Disk W.Store.Objects W.Store.Reader.ObjectRead W.Store.Writer.ObjectWrite (W.shelf world.old, W.areas world.old) (W.shelf world.new, W.areas world.new) why × (W.output world.new ≡ W.output world.old)) result }
    ensures later { W.Out.faults (W.output world.old) ≤ W.Out.faults (W.output world.new) }
    ensures input { W.script_input world.new ≡ W.script_input world.old }
    ensures held { W.held world.new ≡ W.held world.old }
    ensures faults { W.faults world.old ≤ W.faults world.new }
    ensures others { KeepsBut (all_names media_names) (W.shelf world.old) (W.shelf world.new) }
    ensures areas_others { KeepsAreasBut media_names.journal (W.areas world.old) (W.areas world.new) }
    ensures idle { W.lent world.new ≡ None }
{
    let Ok((setup, names)) = example(alloc) else {
        return End::Memory;
    };
    match world.assemble(&names) {
        Ok(media) => play_lent(alloc, &setup, script, media, world),
        Err(Fail::Failed) => End::OpenFault,
        Err(Fail::Memory) => End::Memory,
    }
}

/// Reads the script of a text, and plays it.
fn play_text<W: World>(alloc: Global, text: &[u8], world: &mut W) -> End
    requires { W.lent world.old ≡ None }
    ensures done { result ≡ End.Done → Plays W.Area.Disk W.Store.Objects W.Store.Reader.ObjectRead W.Store.Writer.ObjectWrite (W.shelf world.old, W.areas world.old) (W.shelf world.new, W.areas world.new) (λ commands. read_script text.now ≡ Ok commands) (W.Out.taken (W.output world.old)) (W.Out.taken (W.output world.new)) }
    ensures partly { result ≡ End.WriteFault → PlaysPartly W.Area.Disk W.Store.Objects W.Store.Reader.ObjectRead W.Store.Writer.ObjectWrite (W.shelf world.old, W.areas world.old) (W.shelf world.new, W.areas world.new) (λ commands. read_script text.now ≡ Ok commands) (W.Out.taken (W.output world.old)) (W.Out.taken (W.output world.new)) }
    ensures memory { result ≡ End.Memory → ((W.Out.taken (W.output world.new) ≡ W.Out.taken (W.output world.old)) × IsUntouched W.Area.Disk W.Store.Objects W.Store.Reader.ObjectRead W.Store.Writer.ObjectWrite (W.shelf world.old, W.areas world.old) (W.shelf world.new, W.areas world.new)) ⊎ PlaysFront W.Area.Disk W.Store.Objects W.Store.Reader.ObjectRead W.Store.Writer.ObjectWrite (W.shelf world.old, W.areas world.old) (W.shelf world.new, W.areas world.new) (λ commands. read_script text.now ≡ Ok commands) (W.Out.taken (W.output world.old)) (W.Out.taken (W.output world.new)) }
    ensures open { result ≡ End.OpenFault → Rose (W.faults world.old) (W.faults world.new) × (W.output world.new ≡ W.output world.old) × HoldsSame (W.shelf world.old, W.areas world.old) (W.shelf world.new, W.areas world.new) }
    ensures bad { (line : ℕ) → result ≡ End.BadScript line → (read_script text.now ≡ Err (BadLine line)) × (W.output world.new ≡ W.output world.old) × HoldsSame (W.shelf world.old, W.areas world.old) (W.shelf world.new, W.areas world.new) }
    ensures write { result ≡ End.WriteFault → Rose (W.Out.faults (W.output world.old)) (W.Out.faults (W.output world.new)) }
    ensures due { (result ≡ end_of_reading (read_script text.now)) ⊎ (result ≡ End.Memory) ⊎ (result ≡ End.WriteFault) ⊎ (result ≡ End.OpenFault) ⊎ ((end_of_reading (read_script text.now) ≡ End.Done) × AtOpening (λ why. IsUnplayed W.Area.Disk W.Store.Objects W.Store.Reader.ObjectRead W.Store.Writer.ObjectWrite (W.shelf world.old, W.areas world.old) (W.shelf world.new, W.areas world.new) why × (W.output world.new ≡ W.output world.old)) result) }
    ensures later { W.Out.faults (W.output world.old) ≤ W.Out.faults (W.output world.new) }
    ensures input { W.script_input world.new ≡ W.script_input world.old }
    ensures held { W.held world.new ≡ W.held world.old }
    ensures faults { W.faults world.old ≤ W.faults world.new }
    ensures others { KeepsBut (all_names media_names) (W.shelf world.old) (W.shelf world.new) }
    ensures areas_others { KeepsAreasBut media_names.journal (W.areas world.old) (W.areas world.new) }
    ensures idle { W.lent world.new ≡ None }
{
    match read_script(alloc, text) {
        Ok(script) => play_script(alloc, &script, world),
        Err(ScriptFault::BadLine(line)) => End::BadScript(line),
        Err(ScriptFault::Memory) => End::Memory,
    }
}

/// Does what the words ask for. The line of an end that isn't `Done` or `WriteFault` is not told yet.
fn attempt<W: World>(alloc: Global, words: &[String], world: &mut W) -> End
    requires { W.lent world.old ≡ None }
    ensures ended { Attempted W.Area.Disk W.Store.Objects W.Store.Reader.ObjectRead W.Store.Writer.ObjectWrite (W.shelf world.old, W.areas world.old) (W.shelf world.new, W.areas world.new) (W.held world.old) (map string_bytes words.now) (W.Out.taken (W.output world.old)) (W.Out.taken (W.output world.new)) (Rose (W.faults world.old) (W.faults world.new)) (Rose (W.In.faults (W.script_input world.old)) (W.In.faults (W.script_input world.new))) (Rose (W.Out.faults (W.output world.old)) (W.Out.faults (W.output world.new))) result }
    ensures words { play_words (map string_bytes words.now) ≡ None → result ≡ End.BadWords }
    ensures due { IfSome (W.held world.old) (λ held. IsDue held (map string_bytes words.now) (Rose (W.faults world.old) (W.faults world.new)) (Rose (W.In.faults (W.script_input world.old)) (W.In.faults (W.script_input world.new))) (Rose (W.Out.faults (W.output world.old)) (W.Out.faults (W.output world.new))) (IsUnplayed W.Area.Disk W.Store.Objects W.Store.Reader.ObjectRead W.Store.Writer.ObjectWrite (W.shelf world.old, W.areas world.old) (W.shelf world.new, W.areas world.new)) result) }
    ensures world_later { W.faults world.old ≤ W.faults world.new }
    ensures input_later { W.In.faults (W.script_input world.old) ≤ W.In.faults (W.script_input world.new) }
    ensures sink_later { W.Out.faults (W.output world.old) ≤ W.Out.faults (W.output world.new) }
    ensures held { W.held world.new ≡ W.held world.old }
    ensures others { KeepsBut (all_names media_names) (W.shelf world.old) (W.shelf world.new) }
    ensures areas_others { KeepsAreasBut media_names.journal (W.areas world.old) (W.areas world.new) }
    ensures idle { W.lent world.new ≡ None }
{
    let Some((config, script)) = play_words(words) else {
        return End::BadWords;
    };
    match fetch(alloc, config, script, world) {
        Ok(text) => play_text(alloc, &text, world),
        Err(end) => end,
    }
}

/// The line that tells the first line that is no script line.
fn script_line(alloc: Global, line: u32) -> Result<Vec<u8>, AllocError>
    ensures { IfOk result (λ text. text.items ≡ end_text (End.BadScript line)) }
{
    let mut text = Vec::from_slice(alloc, b"stopped 4 BadScript ")?;
    text.extend_from_slice(line.to_string(alloc)?.as_bytes())?;
    text.push(b'\n')?;
    Ok(text)
}

/// The line that tells where an area is damaged.
fn damaged_line(alloc: Global, area: u32, place: u64) -> Result<Vec<u8>, AllocError>
    ensures { IfOk result (λ text. text.items ≡ end_text (End.Damaged area place)) }
{
    let mut text = Vec::from_slice(alloc, b"stopped 7 Damaged ")?;
    text.extend_from_slice(area.to_string(alloc)?.as_bytes())?;
    text.push(b' ')?;
    text.extend_from_slice(place.to_string(alloc)?.as_bytes())?;
    text.push(b'\n')?;
    Ok(text)
}

/// The line of an end.
fn end_line(alloc: Global, end: End) -> Result<Vec<u8>, AllocError>
    ensures { IfOk result (λ line. line.items ≡ end_text end) }
{
    match end {
        End::Done | End::WriteFault => Ok(Vec::new(alloc)),
        End::BadWords => Vec::from_slice(alloc, b"stopped 2 BadWords\n"),
        End::BadSetup => Vec::from_slice(alloc, b"stopped 3 BadConfig store\n"),
        End::BadScript(line) => script_line(alloc, line),
        End::ReadFault => Vec::from_slice(alloc, b"stopped 5 ReadFault\n"),
        End::Damaged { area, place } => damaged_line(alloc, area, place),
        End::Memory => Vec::from_slice(alloc, b"stopped 8 Memory\n"),
        End::TooLong => Vec::from_slice(alloc, b"stopped 9 TooLong\n"),
        End::OpenFault => Vec::from_slice(alloc, b"stopped 10 OpenFault\n"),
        End::JournalFault => Vec::from_slice(alloc, b"stopped 11 JournalFault\n"),
    }
}

/// The status of an end.
fn status_of(end: End) -> u8
    ensures { result ≡ status_of end }
{
    match end {
        End::Done => 0,
        End::BadWords => 2,
        End::BadSetup => 3,
        End::BadScript(_) => 4,
        End::ReadFault => 5,
        End::WriteFault => 6,
        End::Damaged { .. } => 7,
        End::Memory => 8,
        End::TooLong => 9,
        End::OpenFault => 10,
        End::JournalFault => 11,
    }
}

/// Gives a text to the world's output.
fn give<W: World>(text: &[u8], world: &mut W) -> Result<(), Fault>
    ensures whole { OnOk result (Takes (W.Out.taken (W.output world.old)) (W.Out.taken (W.output world.new)) text.now) }
    ensures partly { OnErr result ((bytes : ℕ) × Takes (W.Out.taken (W.output world.old)) (W.Out.taken (W.output world.new)) (take bytes text.now)) }
    ensures cause { OnErr result (Rose (W.Out.faults (W.output world.old)) (W.Out.faults (W.output world.new))) }
    ensures input { W.script_input world.new ≡ W.script_input world.old }
    ensures held { W.held world.new ≡ W.held world.old }
    ensures faults { W.faults world.new ≡ W.faults world.old }
    ensures later { W.Out.faults (W.output world.old) ≤ W.Out.faults (W.output world.new) }
    ensures shelf { W.shelf world.new ≡ W.shelf world.old }
    ensures areas { W.areas world.new ≡ W.areas world.old }
    ensures lent { W.lent world.new ≡ W.lent world.old }
{
    push_all(world.out(), text)
}

/// Gives the line of an end to the sink, and answers how the run ended then.
fn tell_end<W: World>(text: &[u8], end: End, world: &mut W) -> End
    requires { text.now ≡ end_text end }
    ensures ends { ToldAs end (W.Out.taken (W.output world.old)) (W.Out.taken (W.output world.new)) (Rose (W.Out.faults (W.output world.old)) (W.Out.faults (W.output world.new))) result }
    ensures input { W.script_input world.new ≡ W.script_input world.old }
    ensures held { W.held world.new ≡ W.held world.old }
    ensures faults { W.faults world.new ≡ W.faults world.old }
    ensures later { W.Out.faults (W.output world.old) ≤ W.Out.faults (W.output world.new) }
    ensures shelf { W.shelf world.new ≡ W.shelf world.old }
    ensures areas { W.areas world.new ≡ W.areas world.old }
    ensures lent { W.lent world.new ≡ W.lent world.old }
{
    match give(text, world) {
        Ok(()) => end,
        Err(_) => End::WriteFault,
    }
}

/// Tells the line of an end, and answers how the run ended then: so, or by want of memory for the line, which is
/// then told in its place, or by a fault of the sink.
fn finish<W: World>(alloc: Global, end: End, world: &mut W) -> End
    ensures ends { FinishedAs end (W.Out.taken (W.output world.old)) (W.Out.taken (W.output world.new)) (Rose (W.Out.faults (W.output world.old)) (W.Out.faults (W.output world.new))) result }
    ensures input { W.script_input world.new ≡ W.script_input world.old }
    ensures held { W.held world.new ≡ W.held world.old }
    ensures faults { W.faults world.new ≡ W.faults world.old }
    ensures later { W.Out.faults (W.output world.old) ≤ W.Out.faults (W.output world.new) }
    ensures shelf { W.shelf world.new ≡ W.shelf world.old }
    ensures areas { W.areas world.new ≡ W.areas world.old }
    ensures lent { W.lent world.new ≡ W.lent world.old }
{
    match end_line(alloc, end) {
        Ok(text) => tell_end(&text, end, world),
        Err(_) => tell_end(b"stopped 8 Memory\n", End::Memory, world),
    }
}

/// Does what the words ask for, and tells the line of its end.
fn run_to_end<W: World>(alloc: Global, words: &[String], world: &mut W) -> End
    requires { W.lent world.old ≡ None }
    ensures ended { Ended W.Area.Disk W.Store.Objects W.Store.Reader.ObjectRead W.Store.Writer.ObjectWrite (W.shelf world.old, W.areas world.old) (W.shelf world.new, W.areas world.new) (W.held world.old) (map string_bytes words.now) (W.Out.taken (W.output world.old)) (W.Out.taken (W.output world.new)) (Rose (W.faults world.old) (W.faults world.new)) (Rose (W.In.faults (W.script_input world.old)) (W.In.faults (W.script_input world.new))) (Rose (W.Out.faults (W.output world.old)) (W.Out.faults (W.output world.new))) result }
    ensures words { play_words (map string_bytes words.now) ≡ None → (result ≡ End.BadWords) ⊎ (result ≡ End.WriteFault) ⊎ (result ≡ End.Memory) }
    ensures due { IfSome (W.held world.old) (λ held. IsDue held (map string_bytes words.now) (Rose (W.faults world.old) (W.faults world.new)) (Rose (W.In.faults (W.script_input world.old)) (W.In.faults (W.script_input world.new))) (Rose (W.Out.faults (W.output world.old)) (W.Out.faults (W.output world.new))) (IsUnplayed W.Area.Disk W.Store.Objects W.Store.Reader.ObjectRead W.Store.Writer.ObjectWrite (W.shelf world.old, W.areas world.old) (W.shelf world.new, W.areas world.new)) result) }
    ensures held { W.held world.new ≡ W.held world.old }
    ensures others { KeepsBut (all_names media_names) (W.shelf world.old) (W.shelf world.new) }
    ensures areas_others { KeepsAreasBut media_names.journal (W.areas world.old) (W.areas world.new) }
    ensures idle { W.lent world.new ≡ None }
{
    match attempt(alloc, words, world) {
        End::Done => End::Done,
        End::WriteFault => End::WriteFault,
        end => finish(alloc, end, world),
    }
}

/// Runs the program for the words after its name, over a world, and answers its status. What is promised of the
/// bytes holds where the world tells them.
///
/// | Status | Line | When |
/// |---|---|---|
/// | 0 | none | the script was read to its end and the line of each of its events was written |
/// | 2 | `stopped 2 BadWords` | exactly where the words aren't `play CONFIG SCRIPT`, each name not empty and not beginning with `-` |
/// | 3 | `stopped 3 BadConfig store` | exactly where what the current area keeps doesn't mount `/`, or has a mount in a store that isn't configured, or no area is open and the first checkpoint is longer than an area may be; no event was done |
/// | 4 | `stopped 4 BadScript LINE` | exactly where that line is the first that is no script line; nothing was done |
/// | 5 | `stopped 5 ReadFault` | only where an input failed |
/// | 6 | none | only where the output failed; it then took a front of the lines, or a front of the line of another status, whose row holds |
/// | 7 | `stopped 7 Damaged AREA PLACE` | exactly where the current area is no area's text, from that place on; no event was done |
/// | 8 | `stopped 8 Memory` | want of memory; the lines of the first events may stand before it |
/// | 9 | `stopped 9 TooLong` | exactly where the script has more than 16 MiB |
/// | 10 | `stopped 10 OpenFault` | only where opening an input, or lending the areas, stores and tiers, failed, or nothing is held under a name |
/// | 11 | `stopped 11 JournalFault` | only where an area's own count of failures rose in the opening; no event was done |
///
/// Each "exactly where" yields to a fault or want of memory that comes before. The inputs stay as the world holds
/// them under their names. The areas, stores and tiers are lent once the script is read, and given back once, as the play
/// left them; a caller shows that none is lent.
pub fn run<W: World>(alloc: Global, words: &[String], world: &mut W) -> u8
    requires { W.lent world.old ≡ None }

    // The script that the world holds under its name was played, and its lines are all that was written.
    ensures done { result ≡ 0 → IsSomeAnd (play_words (map string_bytes words.now)) (λ names. Plays W.Area.Disk W.Store.Objects W.Store.Reader.ObjectRead W.Store.Writer.ObjectWrite (W.shelf world.old, W.areas world.old) (W.shelf world.new, W.areas world.new) (IsScript (W.held world.old) names.1) (W.Out.taken (W.output world.old)) (W.Out.taken (W.output world.new))) }

    // Words of no form.
    ensures words { result ≡ 2 → (play_words (map string_bytes words.now) ≡ None) × Takes (W.Out.taken (W.output world.old)) (W.Out.taken (W.output world.new)) (end_text End.BadWords) × HoldsSame (W.shelf world.old, W.areas world.old) (W.shelf world.new, W.areas world.new) }
    ensures words_too { play_words (map string_bytes words.now) ≡ None → (result ≡ 2) ⊎ (result ≡ 6) ⊎ (result ≡ 8) }

    // The first line that is none of a script.
    ensures bad { result ≡ 4 → (line : ℕ) × IsSomeAnd (play_words (map string_bytes words.now)) (λ names. IsBadAt (W.held world.old) names.1 line) × Takes (W.Out.taken (W.output world.old)) (W.Out.taken (W.output world.new)) (end_text (End.BadScript line)) × HoldsSame (W.shelf world.old, W.areas world.old) (W.shelf world.new, W.areas world.new) }

    // A fault comes only where its count rose, or where a name isn't held.
    ensures read { result ≡ 5 → Rose (W.In.faults (W.script_input world.old)) (W.In.faults (W.script_input world.new)) × Takes (W.Out.taken (W.output world.old)) (W.Out.taken (W.output world.new)) (end_text End.ReadFault) × HoldsSame (W.shelf world.old, W.areas world.old) (W.shelf world.new, W.areas world.new) }
    // The sink failed, and took a front of the played lines, or a front of the line of an end that has its cause.
    ensures write { result ≡ 6 → Rose (W.Out.faults (W.output world.old)) (W.Out.faults (W.output world.new)) × WritesPartly W.Area.Disk W.Store.Objects W.Store.Reader.ObjectRead W.Store.Writer.ObjectWrite (W.shelf world.old, W.areas world.old) (W.shelf world.new, W.areas world.new) (W.held world.old) (map string_bytes words.now) (W.Out.taken (W.output world.old)) (W.Out.taken (W.output world.new)) (Rose (W.faults world.old) (W.faults world.new)) (Rose (W.In.faults (W.script_input world.old)) (W.In.faults (W.script_input world.new))) }
    ensures open { result ≡ 10 → IsSomeAnd (play_words (map string_bytes words.now)) (λ names. Rose (W.faults world.old) (W.faults world.new) ⊎ IsTrue (is_missed (W.held world.old) names.0 names.1)) × Takes (W.Out.taken (W.output world.old)) (W.Out.taken (W.output world.new)) (end_text End.OpenFault) × HoldsSame (W.shelf world.old, W.areas world.old) (W.shelf world.new, W.areas world.new) }

    ensures memory { result ≡ 8 → Stops W.Area.Disk W.Store.Objects W.Store.Reader.ObjectRead W.Store.Writer.ObjectWrite (W.shelf world.old, W.areas world.old) (W.shelf world.new, W.areas world.new) (W.held world.old) (map string_bytes words.now) End.Memory (W.Out.taken (W.output world.old)) (W.Out.taken (W.output world.new)) }
    ensures long { result ≡ 9 → IsSomeAnd (play_words (map string_bytes words.now)) (λ names. IsLonger (W.held world.old) names.1 LIMIT) × Takes (W.Out.taken (W.output world.old)) (W.Out.taken (W.output world.new)) (end_text End.TooLong) × HoldsSame (W.shelf world.old, W.areas world.old) (W.shelf world.new, W.areas world.new) }

    // The media were lent, and no cluster was opened over them: the setup doesn't serve what their areas keep, the
    // current area is damaged at a place, or an area failed. They were given back, and nothing but the line was written.
    ensures setup { result ≡ 3 → FailsToOpen W.Area.Disk W.Store.Objects W.Store.Reader.ObjectRead W.Store.Writer.ObjectWrite (W.shelf world.old, W.areas world.old) (W.shelf world.new, W.areas world.new) (W.held world.old) (map string_bytes words.now) Stop.Setup × Takes (W.Out.taken (W.output world.old)) (W.Out.taken (W.output world.new)) (end_text End.BadSetup) }
    ensures damaged { result ≡ 7 → (area : ℕ) × (place : ℕ) × FailsToOpen W.Area.Disk W.Store.Objects W.Store.Reader.ObjectRead W.Store.Writer.ObjectWrite (W.shelf world.old, W.areas world.old) (W.shelf world.new, W.areas world.new) (W.held world.old) (map string_bytes words.now) (Stop.Damaged area place) × Takes (W.Out.taken (W.output world.old)) (W.Out.taken (W.output world.new)) (end_text (End.Damaged area place)) }
    ensures journal { result ≡ 11 → FailsToOpen W.Area.Disk W.Store.Objects W.Store.Reader.ObjectRead W.Store.Writer.ObjectWrite (W.shelf world.old, W.areas world.old) (W.shelf world.new, W.areas world.new) (W.held world.old) (map string_bytes words.now) Stop.JournalFault × Takes (W.Out.taken (W.output world.old)) (W.Out.taken (W.output world.new)) (end_text End.JournalFault) }

    // Where the world tells, the end is the one that is due by what it holds, or want of memory, or a fault whose count rose,
    // or, in place of the whole script, that no cluster was opened over the media.
    ensures due { IfSome (W.held world.old) (λ held. (end : End) × (result ≡ status_of end) × IsDue held (map string_bytes words.now) (Rose (W.faults world.old) (W.faults world.new)) (Rose (W.In.faults (W.script_input world.old)) (W.In.faults (W.script_input world.new))) (Rose (W.Out.faults (W.output world.old)) (W.Out.faults (W.output world.new))) (IsUnplayed W.Area.Disk W.Store.Objects W.Store.Reader.ObjectRead W.Store.Writer.ObjectWrite (W.shelf world.old, W.areas world.old) (W.shelf world.new, W.areas world.new)) end) }

    // Where the world tells its areas, status 0, 3 or 7 is the one that is due by what they hold.
    ensures areas { IfSome (W.areas world.old) (λ areas. (result ≡ 0) ⊎ (result ≡ 3) ⊎ (result ≡ 7) → result ≡ status_of (end_of_areas two_workers (areas media_names.journal))) }

    ensures held { W.held world.new ≡ W.held world.old }

    // What the world holds under other names than the example's stays, and nothing is lent.
    ensures others { KeepsBut (all_names media_names) (W.shelf world.old) (W.shelf world.new) }
    ensures areas_others { KeepsAreasBut media_names.journal (W.areas world.old) (W.areas world.new) }
    ensures idle { W.lent world.new ≡ None }
{
    status_of(run_to_end(alloc, words, world))
}
