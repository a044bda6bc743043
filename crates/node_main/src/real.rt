//! Files as inputs, and an output, as the system has them; areas, stores and tiers in memory. A source or sink tells
//! where its reader or writer does, which the system's don't.

ghost use Rattle.std.specs.Prelude.{◌≡◌, ◌≤◌, [], IfOk, IfSome, IsOk, IsSomeAnd, IsTrue, is_some, None, Some, option_map, refl, true};
ghost use Rattle.outside.specs.AreaShelf.{HoldsAreas, KeepsAreasBut};
ghost use Rattle.outside.specs.Causes.{Rose};
ghost use Rattle.outside.specs.Shelf.{EachNamed, HasShape, KeepsBut, TellsHeld, all_names, are_distinct, name_lists};
ghost use Rattle.outside.specs.Streams.{Pulls, Pushes};
ghost use Rattle.outside_mem.specs.Disks.{disk_history};
ghost use Rattle.outside_mem.specs.Named.{shelf_of, told_of};
ghost use Rattle.outside_mem.specs.NamedAreas.{areas_of};
ghost use Rattle.node_main.specs.Files.{file_left, is_named};

use outside::media::{Media, MediaNames};
use outside::stream::{Fault, Sink, Source};
use outside::world::{Fail, World};
use outside_mem::{MemDisk, MemObjects, MemShelf};
use std::alloc::Global;
use std::fs::{self, File};
use std::io::{Print, Printer, Read, Write};
use std::rt::Files;

/// A reader's type of which either each value tells what it has left, or none does. Otherwise a reader that tells
/// nothing could tell something after a call, and no source does.
pub trait SteadyRead: Read {
    ghost steady: { (a b : Self) → is_some (Self.remaining a) ≡ is_some (Self.remaining b) };
}

/// No file of the system tells.
impl SteadyRead for File {
    ghost steady = { λ a b. refl };
}

/// A writer's type of which either each value tells what it holds, or none does.
pub trait SteadyWrite: Write {
    ghost steady: { (a b : Self) → is_some (Self.contents a) ≡ is_some (Self.contents b) };
}

/// What is printed isn't told.
impl<P: Print> SteadyWrite for Printer<'_, P> {
    ghost steady = { λ a b. refl };
}

/// The count after one more failure; it stays at its last value.
fn counted(faults: u64) -> u64
    ensures { Rose faults result }
{
    faults.saturating_add(1)
}

/// Reads the next bytes of a file.
fn read_file<F: SteadyRead>(file: &mut F, buf: &mut [u8]) -> Result<usize, Fault>
    ensures { Pulls (F.remaining file.old) (F.remaining file.new) buf.new result }
{
    match file.read(buf) {
        Ok(count) => Ok(count),
        Err(_) => Err(Fault),
    }
}

/// A file that is read, or an input that holds nothing.
#[derive(Drop)]
pub struct FileSource<F: SteadyRead + Drop> {
    file: Option<F>,
    faults: u64,
}

impl<F: SteadyRead + Drop> Source for FileSource<F> {
    ghost left = { λ s. file_left F.remaining s.file };

    ghost faults = { λ s. s.faults };

    fn pull(&mut self, buf: &mut [u8]) -> Result<usize, Fault> {
        match &mut self.file {
            None => Ok(0),
            Some(file) => match read_file(file, buf) {
                Ok(count) => Ok(count),
                Err(Fault) => {
                    self.faults = counted(self.faults);
                    Err(Fault)
                }
            },
        }
    }
}

/// Writes the first bytes of a piece, at least one.
fn write_piece<W: SteadyWrite>(out: &mut W, piece: &[u8]) -> Result<usize, Fault>
    ensures { Pushes (W.contents out.old) (W.contents out.new) piece.now result }
{
    match out.write(piece) {
        Ok(count) if count > 0 => Ok(count),
        _ => Err(Fault),
    }
}

/// An output, of which each push is one write.
#[derive(Drop)]
pub struct OutSink<W: SteadyWrite + Drop> {
    out: W,
    faults: u64,
}

impl<W: SteadyWrite + Drop> OutSink<W> {
    /// A sink over the output, with nothing failed yet.
    pub fn new(out: W) -> OutSink<W>
        ensures { (result.out ≡ out) × (result.faults ≡ 0) }
    {
        OutSink { out, faults: 0 }
    }
}

impl<W: SteadyWrite + Drop> Sink for OutSink<W> {
    ghost taken = { λ s. W.contents s.out };

    ghost faults = { λ s. s.faults };

    fn push(&mut self, piece: &[u8]) -> Result<usize, Fault> {
        match write_piece(&mut self.out, piece) {
            Ok(count) => Ok(count),
            Err(Fault) => {
                self.faults = counted(self.faults);
                Err(Fault)
            }
        }
    }
}

/// The files of the system as inputs, and an output. Its areas, stores and tiers are in memory: they tell all that they
/// hold, and end with it.
#[derive(Drop)]
pub struct RealWorld<R: Files + Drop, W: SteadyWrite + Drop>
where
    R::File: SteadyRead + Drop,
{
    rt: R,
    config: FileSource<R::File>,
    script: FileSource<R::File>,
    out: OutSink<W>,
    shelf: MemShelf,
    faults: u64,
}

impl<R: Files + Drop, W: SteadyWrite + Drop> RealWorld<R, W>
where
    R::File: SteadyRead + Drop,
{
    /// The world with no input open, no area, store or tier yet, and nothing failed; takes no memory.
    pub fn new(alloc: Global, rt: R, out: W) -> Self
        ensures counts { result.faults ≡ 0 × result.script.faults ≡ 0 × result.out.faults ≡ 0 }
        ensures shelf { (result.shelf.stores.items ≡ []) × (result.shelf.areas.items ≡ []) × (result.shelf.lent ≡ None) }
    {
        RealWorld {
            rt,
            config: FileSource {
                file: None,
                faults: 0,
            },
            script: FileSource {
                file: None,
                faults: 0,
            },
            out: OutSink::new(out),
            shelf: MemShelf::new(alloc),
            faults: 0,
        }
    }
}

/// Opens the file of a name; an empty name stands for none.
fn open<R: Files>(rt: &R, name: &str) -> Result<Option<R::File>, Fault>
    ensures opened { IfOk result (λ file. is_some file ≡ is_named name.now) }
    ensures nothing { name.now ≡ [] → IsOk result }
{
    if name.is_empty() {
        return Ok(None);
    }
    match fs::open(rt, name) {
        Ok(file) => Ok(Some(file)),
        Err(_) => Err(Fault),
    }
}

impl<R: Files + Drop, W: SteadyWrite + Drop> World for RealWorld<R, W>
where
    R::File: SteadyRead + Drop,
{
    type In = FileSource<R::File>;

    type Out = OutSink<W>;

    type Area = MemDisk;

    type Store = MemObjects;

    ghost held = { λ _. None };

    ghost config_input = { λ w. w.config };

    ghost script_input = { λ w. w.script };

    ghost with_script_input = { λ w i. record w { script = i } };

    ghost output = { λ w. w.out };

    ghost with_output = { λ w o. record w { out = o } };

    ghost shelf = { λ w. Some (shelf_of w.shelf.stores.items) };

    ghost areas = { λ w. Some (areas_of w.shelf.areas.items) };

    ghost lent = { λ w. option_map name_lists w.shelf.lent };

    ghost faults = { λ w. w.faults };

    ghost misses = { λ _. 0 };

    fn choose(&mut self, config: &str, script: &str) -> Result<(), Fail> {
        let Ok(config) = open(&self.rt, config) else {
            self.faults = counted(self.faults);
            return Err(Fail::Failed);
        };
        let Ok(script) = open(&self.rt, script) else {
            self.faults = counted(self.faults);
            return Err(Fail::Failed);
        };
        self.config.file = config;
        self.script.file = script;
        Ok(())
    }

    fn script(&mut self) -> &mut FileSource<R::File> {
        &mut self.script
    }

    fn out(&mut self) -> &mut OutSink<W> {
        &mut self.out
    }

    /// Fails for want of memory alone.
    fn assemble(&mut self, names: &MediaNames) -> Result<Media<MemDisk, MemObjects>, Fail> {
        Ok(self.shelf.lend(names)?)
    }

    fn give_back(&mut self, media: Media<MemDisk, MemObjects>)
        requires { IsSomeAnd (option_map name_lists self.old.shelf.lent) (λ names. HasShape names media) }
        ensures told { IfSome (option_map name_lists self.old.shelf.lent) (λ names. EachNamed (TellsHeld told_of (Some (shelf_of self.new.shelf.stores.items))) names media) }
        ensures others { IfSome (option_map name_lists self.old.shelf.lent) (λ names. KeepsBut (all_names names) (Some (shelf_of self.old.shelf.stores.items)) (Some (shelf_of self.new.shelf.stores.items))) }
        ensures areas { IfSome (option_map name_lists self.old.shelf.lent) (λ names. HoldsAreas (λ _. true) disk_history (Some (areas_of self.new.shelf.areas.items)) names.journal media.areas) }
        ensures areas_others { IfSome (option_map name_lists self.old.shelf.lent) (λ names. KeepsAreasBut names.journal (Some (areas_of self.old.shelf.areas.items)) (Some (areas_of self.new.shelf.areas.items))) }
        ensures idle { option_map name_lists self.new.shelf.lent ≡ None }
        ensures faults { self.new.faults ≡ self.old.faults }
        ensures output { self.new.out ≡ self.old.out }
        ensures config { self.new.config ≡ self.old.config }
        ensures script { self.new.script ≡ self.old.script }
    {
        self.shelf.take_back(media);
    }

    ghost script_set = { λ w i. refl };

    ghost script_keeps_held = { λ w i. refl };

    ghost script_keeps_config = { λ w i. refl };

    ghost script_keeps_output = { λ w i. refl };

    ghost script_keeps_shelf = { λ w i. refl };

    ghost script_keeps_areas = { λ w i. refl };

    ghost script_keeps_lent = { λ w i. refl };

    ghost script_keeps_faults = { λ w i. refl };

    ghost script_keeps_misses = { λ w i. refl };

    ghost output_set = { λ w o. refl };

    ghost output_keeps_held = { λ w o. refl };

    ghost output_keeps_config = { λ w o. refl };

    ghost output_keeps_script = { λ w o. refl };

    ghost output_keeps_shelf = { λ w o. refl };

    ghost output_keeps_areas = { λ w o. refl };

    ghost output_keeps_lent = { λ w o. refl };

    ghost output_keeps_faults = { λ w o. refl };

    ghost output_keeps_misses = { λ w o. refl };
}

#[cfg(test)]
mod tests {
    use super::{RealWorld, SteadyWrite};
    use outside::disk::Disk;
    use outside::key::Key;
    use outside::media::MediaNames;
    use outside::objects::Objects;
    use outside::stream::{Sink, Source};
    use outside::world::{Fail as Failure, World};
    use std::alloc::{AllocError, Global};
    use std::fs;
    use std::test::Fail;

    /// A vector tells all that it holds.
    impl SteadyWrite for Vec<u8> {
        ghost steady = { λ a b. refl };
    }

    #[test]
    fn a_file_is_read_to_its_end(rt: HostRuntime) -> Result<(), Fail> {
        let alloc = rt.alloc();
        fs::write(&rt, "script.txt", "1 ls /\n")?;
        let mut world = RealWorld::new(alloc, rt.clone()?, Vec::new(alloc));
        assert_eq!(rt; world.choose("", "script.txt"), Ok(()));
        let mut buf = [0u8; 16];
        assert_eq!(rt; world.script().pull(&mut buf), Ok(7));
        assert_eq!(rt; buf[..7], *b"1 ls /\n".as_slice());
        assert_eq!(rt; world.script().pull(&mut buf), Ok(0));
        assert_eq!(rt; world.script().faults, 0);
        assert_eq!(rt; world.config.pull(&mut buf), Ok(0));
        Ok(())
    }

    #[test]
    fn a_file_that_is_not_there_counts(rt: HostRuntime) -> Result<(), Fail> {
        let alloc = rt.alloc();
        fs::write(&rt, "script.txt", "1 ls /\n")?;
        let mut world = RealWorld::new(alloc, rt.clone()?, Vec::new(alloc));
        assert_eq!(rt;
            world.choose("none.txt", "script.txt"),
            Err(Failure::Failed)
        );
        assert_eq!(rt; world.choose("", "none.txt"), Err(Failure::Failed));
        assert_eq!(rt; world.faults, 2);
        let mut buf = [0u8; 16];
        assert_eq!(rt; world.script().pull(&mut buf), Ok(0));
        Ok(())
    }

    #[test]
    fn an_output_takes_what_it_is_given(rt: HostRuntime) -> Result<(), Fail> {
        let alloc = rt.alloc();
        let mut world = RealWorld::new(alloc, rt.clone()?, Vec::new(alloc));
        assert_eq!(rt; world.out().push(b"1 ls /"), Ok(6));
        assert_eq!(rt; world.out().push(b" -> names\n"), Ok(10));
        assert_eq!(rt; world.out.out.as_slice(), b"1 ls / -> names\n".as_slice());
        assert_eq!(rt; world.out.faults, 0);
        Ok(())
    }

    /// A journal and one store, and no worker.
    fn one_store(alloc: Global) -> Result<MediaNames, AllocError> {
        let mut stores = Vec::new(alloc);
        stores.push(String::from_str(alloc, "under")?)?;
        Ok(MediaNames {
            journal: String::from_str(alloc, "journal")?,
            stores,
            tiers: Vec::new(alloc),
        })
    }

    /// Writes an empty object into the first store.
    fn write_first<O: Objects>(alloc: Global, stores: &mut [O]) -> Result<(), Failure> {
        let key = Key::of_numbers(alloc, 1, 1)?;
        let Some(store) = stores.first_mut() else {
            return Err(Failure::Failed);
        };
        let writer = store.begin_write()?;
        match store.finish(writer, key) {
            Ok(()) => Ok(()),
            Err(_) => Err(Failure::Failed),
        }
    }

    /// Whether the first store has an object.
    fn has_object<O: Objects>(alloc: Global, stores: &mut [O]) -> Result<bool, Failure> {
        let Some(store) = stores.first_mut() else {
            return Ok(false);
        };
        let found = store.next_key(&Key::from_names(Vec::new(alloc)), None)?;
        Ok(found.is_some())
    }

    /// Whether the first store had an object, before one is written there.
    fn had_object<W: World>(
        alloc: Global,
        world: &mut W,
        names: &MediaNames,
    ) -> Result<bool, Failure>
        requires idle { W.lent world.old ≡ None }
        requires distinct { IsTrue (are_distinct (all_names (name_lists names.now))) }
        ensures idle { W.lent world.new ≡ None }
    {
        let mut media = world.assemble(names)?;
        let had = has_object(alloc, media.stores.as_mut_slice());
        let written = write_first(alloc, media.stores.as_mut_slice());
        world.give_back(media);
        written?;
        had
    }

    #[test]
    fn stores_keep_their_objects_while_the_world_lasts(rt: HostRuntime) -> Result<(), Fail> {
        let alloc = rt.alloc();
        let mut world = RealWorld::new(alloc, rt.clone()?, Vec::new(alloc));
        let names = one_store(alloc)?;
        assert!(rt; names.are_distinct());
        assert_eq!(rt; had_object(alloc, &mut world, &names), Ok(false));
        assert_eq!(rt; had_object(alloc, &mut world, &names), Ok(true));
        Ok(())
    }

    /// Writes one byte at the beginning of an area.
    fn write_byte<D: Disk>(area: &mut D) -> Result<(), Failure> {
        area.reserve(1, 1, 1)?;
        match area.write_at(0, b"x") {
            Ok(()) => Ok(()),
            Err(_) => Err(Failure::Failed),
        }
    }

    /// Whether the journal's second area held something, before a byte is written there.
    fn had_byte<W: World>(world: &mut W, names: &MediaNames) -> Result<bool, Failure>
        requires idle { W.lent world.old ≡ None }
        requires distinct { IsTrue (are_distinct (all_names (name_lists names.now))) }
        ensures idle { W.lent world.new ≡ None }
    {
        let mut media = world.assemble(names)?;
        let had = matches!(media.areas.1.len(), Ok(len) if len > 0);
        let written = write_byte(&mut media.areas.1);
        world.give_back(media);
        written?;
        Ok(had)
    }

    #[test]
    fn areas_keep_their_bytes_while_the_world_lasts(rt: HostRuntime) -> Result<(), Fail> {
        let alloc = rt.alloc();
        let mut world = RealWorld::new(alloc, rt.clone()?, Vec::new(alloc));
        let names = one_store(alloc)?;
        assert!(rt; names.are_distinct());
        assert_eq!(rt; had_byte(&mut world, &names), Ok(false));
        assert_eq!(rt; had_byte(&mut world, &names), Ok(true));
        Ok(())
    }
}
