//! Plays over media in memory: what is answered, and what the failing of one of their calls leaves.

ghost use Rattle.std.specs.Prelude.{◌≡◌, ◌∷◌, ◌≤◌, [], true, IfOk, length};
ghost use Rattle.fs_model.specs.Spelled.{is_setup};
ghost use Rattle.cluster_core.specs.Begun.{tier_counts};

mod areas;
mod failing;
mod memory;
mod reading;
mod refusals;
mod scripts;
mod sinks;
mod space;
mod writing;

use crate::play::play;
use fs_model::items::Items;
use fs_model::setup::Setup;
use fs_model::stop::Stop;
use outside::fused::Fused;
use outside::media::Media;
use outside_mem::{MemDisk, MemObjects, MemSink};
use script_text::read::{ScriptFault, read_script};
use std::alloc::{AllocError, Global};
use std::test::Fail;

/// The bytes of a journal area that no script of these tests fills.
const AREA: u64 = 65_536;

/// A configuration with blocks of 4 bytes, two stores, worker 1 with tiers of 8 and 8 bytes, and worker 2 with one of
/// 8; its journal has areas of so many bytes.
fn setup(alloc: Global, area: u64) -> Result<Setup, AllocError>
    requires least { 64 ≤ area }
    requires most { area ≤ 1073741824 }
    ensures setup { IfOk result (λ setup. is_setup setup ≡ true) }
    ensures stores { IfOk result (λ setup. setup.stores ≡ 2) }
    ensures tiers { IfOk result (λ setup. setup.tiers ≡ (8 ∷ 8 ∷ []) ∷ (8 ∷ []) ∷ []) }
{
    let mut tiers = Vec::new(alloc);
    tiers.push(Items::from_vec(Vec::from_slice(alloc, &[8, 8])?))?;
    tiers.push(Items::from_vec(Vec::from_slice(alloc, &[8])?))?;
    Ok(Setup {
        block: 4,
        patience: 3,
        area,
        root: Items::from_vec(Vec::new(alloc)),
        stores: 2,
        tiers: Items::from_vec(tiers),
    })
}

/// A store in memory that holds nothing.
fn one(alloc: Global) -> Result<Vec<MemObjects>, AllocError>
    ensures { IfOk result (λ stores. length stores.items ≡ 1) }
{
    let mut stores = Vec::new(alloc);
    stores.push(MemObjects::new(alloc))?;
    Ok(stores)
}

/// Such a store behind another.
fn two(alloc: Global, first: MemObjects) -> Result<Vec<MemObjects>, AllocError>
    ensures { IfOk result (λ stores. length stores.items ≡ 2) }
{
    let mut stores = Vec::new(alloc);
    stores.push(first)?;
    stores.push(MemObjects::new(alloc))?;
    Ok(stores)
}

/// An area in memory that holds nothing.
fn empty_area(alloc: Global) -> Fused<MemDisk> {
    Fused::new(MemDisk::new(Vec::new(alloc)))
}

/// The media for that configuration, with these areas and this first tier of worker 1.
fn media(
    alloc: Global,
    areas: (Fused<MemDisk>, Fused<MemDisk>),
    first: MemObjects,
) -> Result<Media<MemDisk, MemObjects>, AllocError>
    ensures stores { IfOk result (λ media. length media.stores.items ≡ 2) }
    ensures tiers { IfOk result (λ media. tier_counts media.tiers.items ≡ 2 ∷ 1 ∷ []) }
{
    let mut tiers = Vec::new(alloc);
    tiers.push(two(alloc, first)?)?;
    tiers.push(one(alloc)?)?;
    Ok(Media {
        areas,
        stores: two(alloc, MemObjects::new(alloc))?,
        tiers,
    })
}

/// How a play ended, and what it left.
#[derive(Drop)]
struct Outcome {
    end: Result<(), Stop>,
    sink: MemSink,
    media: Media<MemDisk, MemObjects>,
}

/// Plays a script over that configuration with these areas, of so many bytes at most, with this first tier of worker 1,
/// to this sink. An `Err` came before the play.
fn played_over(
    alloc: Global,
    area: u64,
    script: &[u8],
    areas: (Fused<MemDisk>, Fused<MemDisk>),
    first: MemObjects,
    mut sink: MemSink,
) -> Result<Outcome, ScriptFault>
    requires least { 64 ≤ area }
    requires most { area ≤ 1073741824 }
{
    let script = read_script(alloc, script)?;
    let setup = setup(alloc, area)?;
    let media = media(alloc, areas, first)?;
    let (end, media) = play(alloc, &setup, &script, media, &mut sink);
    Ok(Outcome { end, sink, media })
}

/// The same over empty areas.
fn played(
    alloc: Global,
    area: u64,
    script: &[u8],
    first: MemObjects,
    sink: MemSink,
) -> Result<Outcome, ScriptFault>
    requires least { 64 ≤ area }
    requires most { area ≤ 1073741824 }
{
    let areas = (empty_area(alloc), empty_area(alloc));
    played_over(alloc, area, script, areas, first, sink)
}

/// A line without its reply.
fn event_in(line: &str) -> &str {
    match line.split_once(" -> ") {
        None => line,
        Some((event, _)) => event,
    }
}

/// The script of lines: each without its reply. An `Err` is want of memory.
fn script_of(alloc: Global, lines: &str) -> Result<Vec<u8>, AllocError> {
    let mut script = Vec::new(alloc);
    for line in lines.lines() {
        script.extend_from_slice(event_in(line).as_bytes())?;
        script.push(b'\n')?;
    }
    Ok(script)
}

/// What a play that went on to the end told.
fn text_in(outcome: Outcome) -> Result<String, Fail> {
    let Outcome { end, sink, .. } = outcome;
    end.map_err(|_| "the play stopped")?;
    let MemSink { bytes, .. } = sink;
    Ok(String::from_utf8(bytes)?)
}

/// What is told where the script of these lines is played with areas of so many bytes, with this first tier of worker
/// 1: the lines themselves, where they are right.
fn told(alloc: Global, area: u64, lines: &str, first: MemObjects) -> Result<String, Fail>
    requires least { 64 ≤ area }
    requires most { area ≤ 1073741824 }
{
    let script = script_of(alloc, lines)?;
    text_in(played(alloc, area, &script, first, MemSink::new(alloc))?)
}

/// The same over tiers of which no call fails, with areas that have room for all.
fn answered(alloc: Global, lines: &str) -> Result<String, Fail> {
    told(alloc, AREA, lines, MemObjects::new(alloc))
}
