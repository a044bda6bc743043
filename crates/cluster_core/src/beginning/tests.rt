//! What a core over tiers in memory answers, from its opening to its end.

ghost use Rattle.std.specs.Prelude.{◌≡◌, ◌∷◌, [], true, IfOk, length};
ghost use Rattle.fs_model.specs.Spelled.{is_actor, is_setup};
ghost use Rattle.cluster_core.specs.Begun.{tier_counts};

use crate::cluster::Core;
use fs_model::event::Fill;
use fs_model::items::Items;
use fs_model::label::Label;
use fs_model::numbers::{Actor, WorkerNo};
use fs_model::path::Path;
use fs_model::reply::{Refusal, Reply, Which};
use fs_model::setup::Setup;
use outside::fused::Fused;
use outside::media::Media;
use outside_mem::{MemDisk, MemObjects, MemReader, MemWriter};
use std::alloc::{AllocError, Global};
use std::test::Fail;

type MemCore = Core<MemDisk, MemObjects, MemReader, MemWriter>;

/// Media in memory.
type MemMedia = Media<MemDisk, MemObjects>;

/// A configuration with blocks of 4 bytes, worker 1 with tiers of 8 and 8 bytes, and worker 2 with one of 8.
fn setup(alloc: Global) -> Result<Setup, AllocError>
    ensures setup { IfOk result (λ setup. is_setup setup ≡ true) }
    ensures stores { IfOk result (λ setup. setup.stores ≡ 1) }
    ensures tiers { IfOk result (λ setup. setup.tiers ≡ (8 ∷ 8 ∷ []) ∷ (8 ∷ []) ∷ []) }
{
    let mut tiers = Vec::new(alloc);
    tiers.push(Items::from_vec(Vec::from_slice(alloc, &[8, 8])?))?;
    tiers.push(Items::from_vec(Vec::from_slice(alloc, &[8])?))?;
    Ok(Setup {
        block: 4,
        patience: 3,
        area: 65536,
        root: Items::from_vec(Vec::new(alloc)),
        stores: 1,
        tiers: Items::from_vec(tiers),
    })
}

/// One empty store in memory.
fn one(alloc: Global) -> Result<Vec<MemObjects>, AllocError>
    ensures { IfOk result (λ stores. length stores.items ≡ 1) }
{
    let mut stores = Vec::new(alloc);
    stores.push(MemObjects::new(alloc))?;
    Ok(stores)
}

/// Two empty stores in memory.
fn two(alloc: Global) -> Result<Vec<MemObjects>, AllocError>
    ensures { IfOk result (λ stores. length stores.items ≡ 2) }
{
    let mut stores = one(alloc)?;
    stores.push(MemObjects::new(alloc))?;
    Ok(stores)
}

/// An empty area in memory, with no fuse.
fn area(alloc: Global) -> Fused<MemDisk> {
    Fused::new(MemDisk::new(Vec::new(alloc)))
}

/// Empty media for that configuration.
fn media(alloc: Global) -> Result<MemMedia, AllocError>
    ensures stores { IfOk result (λ media. length media.stores.items ≡ 1) }
    ensures tiers { IfOk result (λ media. tier_counts media.tiers.items ≡ 2 ∷ 1 ∷ []) }
{
    let mut tiers = Vec::new(alloc);
    tiers.push(two(alloc)?)?;
    tiers.push(one(alloc)?)?;
    Ok(Media {
        areas: (area(alloc), area(alloc)),
        stores: one(alloc)?,
        tiers,
    })
}

/// A core in that configuration, over empty media.
fn opened(alloc: Global) -> Result<MemCore, AllocError> {
    let setup = setup(alloc)?;
    let media = media(alloc)?;
    match Core::open_cluster(alloc, &setup, media) {
        Ok(core) => Ok(core),
        Err(_) => Err(AllocError),
    }
}

/// A letter for a refusal.
fn refusal_letter(refusal: Refusal) -> u8 {
    match refusal {
        Refusal::Exists => b'e',
        Refusal::NotFound => b'n',
        Refusal::NotDirectory => b'd',
        Refusal::IsDirectory => b'D',
        Refusal::Incomplete => b'i',
        Refusal::NoWorker(_) => b'w',
        Refusal::NoRoom(_) => b'f',
        Refusal::BadLabel => b'b',
        Refusal::Limit(Which::Labels) => b'x',
        Refusal::Memory => b'm',
        _ => b'?',
    }
}

/// A letter for a reply: `.` where it is done, `t` where 4 bytes were taken, `/` for a directory, and a digit for so
/// many names.
fn letter(reply: Reply) -> u8 {
    match reply {
        Reply::Done => b'.',
        Reply::StatDir => b'/',
        Reply::StatFile { len: 8, .. } => b'8',
        Reply::StatFile { .. } => b'f',
        Reply::NeedsRoom => b'r',
        Reply::Taken(4) => b't',
        Reply::Given(piece) => b'0' + piece.as_slice().len().min(9) as u8,
        Reply::Opened(8) => b'8',
        Reply::FromWorker(WorkerNo(1), _) => b'w',
        Reply::NeedsBlock(_) => b'q',
        Reply::End => b'$',
        Reply::Names(names) => b'0' + names.as_slice().len().min(9) as u8,
        Reply::Refused(refusal) => refusal_letter(refusal),
        _ => b'?',
    }
}

/// Actor 1, or actor 2.
fn actor_of(second: bool) -> Actor
    ensures { is_actor result ≡ true }
{
    if second {
        return Actor(2);
    }
    Actor(1)
}

/// An event on a path: `/` makes a directory, `l` lists one, and any other sign shows what is there.
fn on_path(core: &mut MemCore, alloc: Global, sign: u8, path: &Path) -> Reply {
    match sign {
        b'/' => core.mkdir(Actor(1), path),
        b'l' => core.list(alloc, Actor(1), path),
        _ => core.stat(Actor(1), path),
    }
}

/// The letter of an event on the path that the text is.
fn at(core: &mut MemCore, alloc: Global, sign: u8, text: &str) -> Result<u8, Fail> {
    let path = Path::read(alloc, text.as_bytes())?;
    Ok(letter(on_path(core, alloc, sign, &path)))
}

/// The label that the bytes are.
fn label(alloc: Global, bytes: &[u8]) -> Result<Label, Fail> {
    let label = Label::read(alloc, bytes)?.ok_or("no label")?;
    Ok(label)
}

/// Makes a file of an actor at a worker.
fn make(
    core: &mut MemCore,
    alloc: Global,
    second: bool,
    label: &Label,
    path: &Path,
    worker: u32,
) -> u8 {
    if worker == 0 {
        return b'?';
    }
    letter(core.create(actor_of(second), label, path, WorkerNo(worker)))
}

/// The letter of a file made by an actor, of which the label and the path are texts.
fn create(
    core: &mut MemCore,
    alloc: Global,
    second: bool,
    name: &[u8],
    path: &[u8],
    worker: u32,
) -> Result<u8, Fail> {
    let path = Path::read(alloc, path)?;
    let label = label(alloc, name)?;
    Ok(make(core, alloc, second, &label, &path, worker))
}

/// An event of actor 1 on a label: `r` is room, `p` puts 4 bytes, `d` is done, `n` is next, `g` polls, and any other
/// sign ends it.
fn on_label(core: &mut MemCore, alloc: Global, sign: u8, label: &Label) -> Reply {
    match sign {
        b'r' => core.room(alloc, Actor(1), label),
        b'd' => core.finish(alloc, Actor(1), label),
        b'n' => core.next(alloc, Actor(1), label),
        b'p' => {
            let fill = Fill::Made {
                num: 1,
                at: 0,
                len: 4,
            };
            core.put(alloc, Actor(1), label, &fill)
        }
        b'g' => core.poll(alloc, Actor(1), label, 4),
        _ => core.close_label(Actor(1), label),
    }
}

/// The letter of an event on the label that the text is.
fn under(core: &mut MemCore, alloc: Global, sign: u8, text: &str) -> Result<u8, Fail> {
    let label = label(alloc, text.as_bytes())?;
    Ok(letter(on_label(core, alloc, sign, &label)))
}

/// The letter of a file that actor 1 opens.
fn open(core: &mut MemCore, alloc: Global, name: &str, path: &str) -> Result<u8, Fail> {
    let path = Path::read(alloc, path.as_bytes())?;
    let label = label(alloc, name.as_bytes())?;
    Ok(letter(core.open_file(Actor(1), &label, &path, WorkerNo(1))))
}

/// How many stores, workers and tiers of worker 1 there are.
fn counts(media: &MemMedia) -> (usize, usize, usize) {
    let first = match media.tiers.first() {
        None => 0,
        Some(tiers) => tiers.len(),
    };
    (media.stores.len(), media.tiers.len(), first)
}

/// What the areas hold.
fn held_in(media: MemMedia) -> (Vec<u8>, Vec<u8>) {
    let (first, second) = media.areas;
    (
        first.into_disk().into_bytes(),
        second.into_disk().into_bytes(),
    )
}

#[test]
fn directories_are_made_and_shown(rt: HostRuntime) -> Result<(), Fail> {
    let mut core = opened(rt.alloc())?;
    for (sign, text, want) in [
        (b'l', "/", b'0'),
        (b'/', "/a", b'.'),
        (b'/', "/a", b'e'),
        (b'/', "/b/c", b'n'),
        (b'/', "/a/b", b'.'),
        (b'/', "/c", b'.'),
        (b'l', "/", b'2'),
        (b'l', "/a", b'1'),
        (b'l', "/x", b'n'),
        (b's', "/a/b", b'/'),
        (b's', "/a/c", b'n'),
    ] {
        let got = at(&mut core, rt.alloc(), sign, text)?;
        assert_eq!(rt; got, want, "{text}");
    }
    Ok(())
}

#[test]
fn a_file_is_made_at_a_live_worker(rt: HostRuntime) -> Result<(), Fail> {
    let mut core = opened(rt.alloc())?;
    for (name, path, worker, want) in [
        ("x", "/f", 1, b'.'),
        ("x", "/g", 1, b'b'),
        ("y", "/f", 1, b'e'),
        ("y", "/f/g", 1, b'd'),
        ("y", "/g", 2, b'w'),
        ("y", "/g", 3, b'w'),
        ("y", "/g", 1, b'.'),
    ] {
        let got = create(
            &mut core,
            rt.alloc(),
            false,
            name.as_bytes(),
            path.as_bytes(),
            worker,
        )?;
        assert_eq!(rt; got, want, "{path} {worker}");
    }
    assert_eq!(rt; at(&mut core, rt.alloc(), b's', "/f")?, b'f');
    assert_eq!(rt; at(&mut core, rt.alloc(), b'l', "/f")?, b'd');
    Ok(())
}

#[test]
fn a_label_is_used_as_what_it_is(rt: HostRuntime) -> Result<(), Fail> {
    let mut core = opened(rt.alloc())?;
    let made = create(&mut core, rt.alloc(), false, b"x", b"/f", 1)?;
    assert_eq!(rt; made, b'.');
    for (name, path, want) in [("y", "/f", b'i'), ("x", "/f", b'b'), ("y", "/", b'D')] {
        let got = open(&mut core, rt.alloc(), name, path)?;
        assert_eq!(rt; got, want, "{name} {path}");
    }
    for (sign, name, want) in [
        (b'p', "x", b'r'),
        (b'p', "y", b'b'),
        (b'g', "x", b'b'),
        (b'g', "y", b'b'),
        (b'c', "x", b'.'),
        (b'c', "x", b'b'),
        (b'p', "x", b'b'),
    ] {
        let got = under(&mut core, rt.alloc(), sign, name)?;
        assert_eq!(rt; got, want, "{name}");
    }
    Ok(())
}

#[test]
fn an_actor_has_64_labels(rt: HostRuntime) -> Result<(), Fail> {
    let mut core = opened(rt.alloc())?;
    for n in 0..65u8 {
        let text = [b'/', b'a' + n / 8, b'a' + n % 8];
        let want = if n < 64 { b'.' } else { b'x' };
        let got = create(&mut core, rt.alloc(), false, &text[1..], &text, 1)?;
        assert_eq!(rt; got, want, "{n}");
    }
    let other = create(&mut core, rt.alloc(), true, b"ia", b"/ia", 1)?;
    assert_eq!(rt; other, b'.');
    assert_eq!(rt; under(&mut core, rt.alloc(), b'c', "aa")?, b'.');
    let again = create(&mut core, rt.alloc(), false, b"ia", b"/ib", 1)?;
    assert_eq!(rt; again, b'.');
    Ok(())
}

#[test]
fn a_writer_gets_room_block_by_block(rt: HostRuntime) -> Result<(), Fail> {
    let mut core = opened(rt.alloc())?;
    let made = create(&mut core, rt.alloc(), false, b"x", b"/f", 1)?;
    assert_eq!(rt; made, b'.');
    assert_eq!(rt; under(&mut core, rt.alloc(), b'r', "y")?, b'b');
    for block in 0..4 {
        for (sign, want) in [(b'p', b'r'), (b'r', b'.'), (b'r', b'.'), (b'p', b't')] {
            let got = under(&mut core, rt.alloc(), sign, "x")?;
            assert_eq!(rt; got, want, "{block}");
        }
    }
    // Both tiers are full of blocks that no store has.
    assert_eq!(rt; under(&mut core, rt.alloc(), b'r', "x")?, b'f');
    assert_eq!(rt; under(&mut core, rt.alloc(), b'p', "x")?, b'r');
    Ok(())
}

#[test]
fn a_file_that_is_done_is_read_back(rt: HostRuntime) -> Result<(), Fail> {
    let mut core = opened(rt.alloc())?;
    let made = create(&mut core, rt.alloc(), false, b"x", b"/f", 1)?;
    assert_eq!(rt; made, b'.');
    for (sign, want) in [
        (b'r', b'.'),
        (b'p', b't'),
        (b'r', b'.'),
        (b'p', b't'),
        (b'd', b'.'),
        (b'd', b'b'),
    ] {
        let got = under(&mut core, rt.alloc(), sign, "x")?;
        assert_eq!(rt; got, want);
    }
    assert_eq!(rt; at(&mut core, rt.alloc(), b's', "/f")?, b'8');
    assert_eq!(rt; open(&mut core, rt.alloc(), "y", "/f")?, b'8');
    for (sign, want) in [
        (b'g', b'q'),
        (b'n', b'w'),
        (b'g', b'4'),
        (b'n', b'w'),
        (b'g', b'4'),
        (b'g', b'$'),
        (b'c', b'.'),
    ] {
        let got = under(&mut core, rt.alloc(), sign, "y")?;
        assert_eq!(rt; got, want);
    }
    Ok(())
}

#[test]
fn a_cluster_that_is_closed_gives_its_media_back(rt: HostRuntime) -> Result<(), Fail> {
    let mut core = opened(rt.alloc())?;
    let made = create(&mut core, rt.alloc(), false, b"x", b"/f", 1)?;
    assert_eq!(rt; made, b'.');
    let media = core.close();
    assert_eq!(rt; counts(&media), (1, 2, 2));
    let (first, second) = held_in(media);
    assert_eq!(rt; first.first(), Some(&1));
    assert_eq!(rt; second.len(), 0);
    Ok(())
}
