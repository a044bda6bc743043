//! The opening of a cluster, and its end.

ghost use Rattle.std.specs.Prelude.{◌≡◌, ℕ, List, ◌+◌, ◌≤◌, ◌<◌, ◌^◌, ◌++◌, ◌∷◌, true, [], map, length, IfOk, IfErr, vec_len, vec_capacity};
ghost use Rattle.std.specs.List.{All, list_all};
ghost use Rattle.fs_model.specs.State.{Whole};
ghost use Rattle.fs_model.specs.Begins.{Begins};
ghost use Rattle.fs_model.specs.Spelled.{are_tiers, is_setup};
ghost use Rattle.journal_disk.specs.Journaling.{fused_0, fused_1};
ghost use Rattle.master_node.specs.Mastering.{IsKept};
ghost use Rattle.master_node.specs.Recovery.{IsOver};
ghost use Rattle.cluster_core.specs.Begun.{AreasFresh, FitBooks, HasNone, IsUnopened, MediaFit, Moved, TiersEmpty, first_runs, fresh_book, idle_row, tier_counts};
ghost use Rattle.cluster_core.specs.Nodes.{node_row};
ghost use Rattle.cluster_core.specs.Stands.{Stands};
ghost use Rattle.cluster_core.specs.Steady.{IsSteady, MediaSteady};

#[cfg(test)]
mod tests;

use crate::cluster::Core;
use crate::hand::Hand;
use crate::labels::Labels;
use crate::node::Node;
use fs_model::items::Items;
use fs_model::setup::Setup;
use fs_model::stop::Stop;
use master_node::{Master, MasterBroken};
use outside::disk::Disk;
use outside::media::Media;
use outside::objects::{ObjectWrite, Objects};
use std::alloc::{AllocError, Global};
use tier_book::book::Book;

/// How many actors there are.
const ACTORS: usize = 64;

/// What each actor has under its labels, where none has a label. An `Err` is want of memory.
fn no_labels<R: Drop, W: ObjectWrite>(alloc: Global) -> Result<Vec<Labels<Hand<R, W>>>, AllocError>
    ensures actors { IfOk result (λ hands. length hands.items ≡ 64) }
    ensures none { IfOk result (λ hands. All HasNone hands.items) }
{
    let mut hands = Vec::new(alloc);
    for _ in 0..ACTORS {
        hands.push(Labels::new(alloc))?;
    }
    Ok(hands)
}

/// The book of a worker that never ran. An `Err` is want of memory.
fn book_of(alloc: Global, sizes: &[u64]) -> Result<Book, AllocError>
    requires { length sizes.now < 2 ^ 32 }
    ensures { IfOk result (λ book. book ≡ fresh_book sizes.now) }
{
    Book::new(alloc, sizes)
}

/// The books of workers with tiers of these sizes, none of which ever ran. An `Err` is want of memory.
fn books_of(alloc: Global, tiers: &[Items<u64>]) -> Result<Vec<Book>, AllocError>
    requires { list_all are_tiers tiers.now ≡ true }
    ensures { IfOk result (λ books. books.items ≡ map fresh_book tiers.now) }
{
    let mut books = Vec::new(alloc);
    for sizes in tiers {
        books.push(book_of(alloc, sizes.as_slice())?)?;
    }
    Ok(books)
}

/// Adds a worker that never ran, with this book and these tiers; the list has a place for it.
fn add_node<O>(alloc: Global, nodes: &mut Vec<Node<O>>, book: Book, tiers: Vec<O>)
    requires fits { length tiers.items ≡ length book.sizes }
    requires rooms { book.rooms ≡ [] }
    requires place { vec_len nodes.old < vec_capacity nodes.old }
    ensures rows { map node_row nodes.new.items ≡ map node_row nodes.old.items ++ idle_row book ∷ [] }
    ensures books { map (λ n. n.book) nodes.new.items ≡ map (λ n. n.book) nodes.old.items ++ book ∷ [] }
    ensures tiers { map (λ n. n.tiers) nodes.new.items ≡ map (λ n. n.tiers) nodes.old.items ++ tiers ∷ [] }
    ensures len { vec_len nodes.new ≡ vec_len nodes.old + 1 }
    ensures capacity { vec_capacity nodes.new ≡ vec_capacity nodes.old }
{
    nodes.push_reserved(Node {
        running: false,
        started: 0,
        book,
        litter: Vec::new(alloc),
        tiers,
    });
}

/// Takes the first element out of a list, which has one.
fn take_first<T>(items: &mut Vec<T>) -> T
    requires { 0 < vec_len items.old }
    ensures items { items.old.items ≡ result ∷ items.new.items }
    ensures len { vec_len items.new + 1 ≡ vec_len items.old }
    ensures capacity { vec_capacity items.new ≡ vec_capacity items.old }
{
    items.remove(0)
}

/// Moves the first book and the first tiers into a worker that never ran. There is a place for it.
fn move_first<O>(
    alloc: Global,
    books: &mut Vec<Book>,
    tiers: &mut Vec<Vec<O>>,
    nodes: &mut Vec<Node<O>>,
)
    requires some { 0 < vec_len books.old }
    requires place { vec_len nodes.old < vec_capacity nodes.old }
    requires fit { FitBooks books.old.items tiers.old.items }
    ensures fit { FitBooks books.new.items tiers.new.items }
    ensures moved { Moved books.old.items tiers.old.items nodes.old.items books.new.items tiers.new.items nodes.new.items }
    ensures books { vec_len books.new + 1 ≡ vec_len books.old }
    ensures len { vec_len nodes.new ≡ vec_len nodes.old + 1 }
    ensures capacity { vec_capacity nodes.new ≡ vec_capacity nodes.old }
    ensures room { vec_capacity tiers.new ≡ vec_capacity tiers.old }
{
    let book = take_first(books);
    let list = take_first(tiers);
    add_node(alloc, nodes, book, list);
}

/// Moves each book and its tiers into a worker that never ran. There is a place for each.
fn move_all<O>(
    alloc: Global,
    books: &mut Vec<Book>,
    tiers: &mut Vec<Vec<O>>,
    nodes: &mut Vec<Node<O>>,
)
    requires place { vec_len nodes.old + vec_len books.old ≤ vec_capacity nodes.old }
    requires fit { FitBooks books.old.items tiers.old.items }
    ensures moved { Moved books.old.items tiers.old.items nodes.old.items books.new.items tiers.new.items nodes.new.items }
    ensures books { books.new.items ≡ [] }
    ensures tiers { tiers.new.items ≡ [] }
    ensures room { vec_capacity tiers.new ≡ vec_capacity tiers.old }
{
    for _ in 0..books.len() {
        move_first(alloc, books, tiers, nodes);
    }
}

/// Lets the first worker run, if there is one.
fn run_first<O>(nodes: &mut [Node<O>])
    ensures rows { map node_row nodes.new ≡ first_runs (map node_row nodes.old) }
    ensures books { map (λ n. n.book) nodes.new ≡ map (λ n. n.book) nodes.old }
    ensures tiers { map (λ n. n.tiers) nodes.new ≡ map (λ n. n.tiers) nodes.old }
{
    if nodes.len() > 0 {
        nodes[0].running = true;
    }
}

/// What a core is made of besides its media.
struct Parts<O, R, W: ObjectWrite> {
    /// The books of the workers.
    books: Vec<Book>,
    /// What each actor has under its labels.
    hands: Vec<Labels<Hand<R, W>>>,
    /// An empty list with a place for each worker.
    nodes: Vec<Node<O>>,
}

/// What a core is made of besides its media, before anything happened. An `Err` is want of memory.
fn parts_of<O, R: Drop, W: ObjectWrite>(
    alloc: Global,
    setup: &Setup,
) -> Result<Parts<O, R, W>, AllocError>
    requires { is_setup setup.now ≡ true }
    ensures books { IfOk result (λ parts. parts.books.items ≡ map fresh_book setup.now.tiers) }
    ensures actors { IfOk result (λ parts. length parts.hands.items ≡ 64) }
    ensures none { IfOk result (λ parts. All HasNone parts.hands.items) }
    ensures nodes { IfOk result (λ parts. parts.nodes.items ≡ []) }
    ensures places { IfOk result (λ parts. length setup.now.tiers ≤ vec_capacity parts.nodes) }
{
    let tiers = setup.tiers.as_slice();
    let books = books_of(alloc, tiers)?;
    let hands = no_labels(alloc)?;
    let nodes = Vec::with_capacity(alloc, tiers.len())?;
    Ok(Parts {
        books,
        hands,
        nodes,
    })
}

impl<O, R: Drop, W: ObjectWrite> Parts<O, R, W> {
    /// Lets the parts go, where no core is made of them.
    fn let_go(self)
        requires { self.nodes.items ≡ [] }
    {
        let Parts {
            books,
            hands,
            nodes,
        } = self;
        nodes.destroy_empty();
        drop(books);
        drop(hands);
    }
}

/// Puts the tiers of the first worker behind those on the list, which has a place for them.
fn give_first<O>(nodes: &mut Vec<Node<O>>, shelf: &mut Vec<Vec<O>>)
    requires some { 0 < vec_len nodes.old }
    requires place { vec_len shelf.old < vec_capacity shelf.old }
    ensures tiers { shelf.new.items ++ map (λ n. n.tiers) nodes.new.items ≡ shelf.old.items ++ map (λ n. n.tiers) nodes.old.items }
    ensures nodes { vec_len nodes.new + 1 ≡ vec_len nodes.old }
    ensures len { vec_len shelf.new ≡ vec_len shelf.old + 1 }
    ensures capacity { vec_capacity shelf.new ≡ vec_capacity shelf.old }
{
    let node = take_first(nodes);
    shelf.push_reserved(node.tiers);
}

/// Puts the tiers of each worker on the list, which has a place for them.
fn give_all<O>(nodes: &mut Vec<Node<O>>, shelf: &mut Vec<Vec<O>>)
    requires place { vec_len shelf.old + vec_len nodes.old ≤ vec_capacity shelf.old }
    ensures tiers { shelf.new.items ≡ shelf.old.items ++ map (λ n. n.tiers) nodes.old.items }
    ensures nodes { nodes.new.items ≡ [] }
{
    for _ in 0..nodes.len() {
        give_first(nodes, shelf);
    }
}

/// The core of these parts, of a master, and over stores and tiers that fit the setup.
fn core_over<D: Disk, O, R, W: ObjectWrite>(
    alloc: Global,
    setup: &Setup,
    parts: Parts<O, R, W>,
    master: Master<D>,
    stores: Vec<O>,
    mut tiers: Vec<Vec<O>>,
) -> Core<D, O, R, W>
    requires setup { is_setup setup.now ≡ true }
    requires fit { tier_counts tiers.items ≡ map (λ (sizes : List ℕ). length sizes) setup.now.tiers }
    requires books { parts.books.items ≡ map fresh_book setup.now.tiers }
    requires actors { length parts.hands.items ≡ 64 }
    requires nodes { parts.nodes.items ≡ [] }
    requires places { length setup.now.tiers ≤ vec_capacity parts.nodes }
    ensures block { result.block ≡ setup.now.block }
    ensures master { result.master ≡ master }
    ensures hands { result.hands ≡ parts.hands }
    ensures stores { result.stores ≡ stores }
    ensures tiers { map (λ n. n.tiers) result.workers.items ≡ tiers.items }
    ensures books { map (λ n. n.book) result.workers.items ≡ map fresh_book setup.now.tiers }
    ensures rows { map node_row result.workers.items ≡ first_runs (map idle_row (map fresh_book setup.now.tiers)) }
{
    let Parts {
        mut books,
        hands,
        mut nodes,
    } = parts;
    move_all(alloc, &mut books, &mut tiers, &mut nodes);
    run_first(&mut nodes);
    Core {
        block: setup.block,
        master,
        workers: nodes,
        stores,
        hands,
        shelf: tiers,
    }
}

impl<D: Disk, O: Objects> Core<D, O, O::Reader, O::Writer> {
    /// Opens a cluster over these media, which are as many as the setup says. Its names are those that the areas keep;
    /// where neither area is open, they are `/` alone, mounted in store 1, and their first checkpoint is made. Worker 1,
    /// where it is configured, runs; no other does. No actor has a label.
    ///
    /// An `Err` gives the media back. `Damaged` exactly where the current area is no area's text. `Setup` exactly where
    /// what an open area keeps mounts no store at `/`, or one that isn't configured, or where the first checkpoint is
    /// longer than an area may be. `JournalFault` only where the own count of an area rose in this call; `Memory` where
    /// there was no memory for it; no other comes. Stores and tiers are then as they were.
    pub fn open_cluster(
        alloc: Global,
        setup: &Setup,
        media: Media<D, O>,
    ) -> Result<Core<D, O, O::Reader, O::Writer>, (Stop, Media<D, O>)>
        requires setup { is_setup setup.now ≡ true }
        requires fit { MediaFit setup.now media }

        // Over fresh areas, and tiers that tell and hold no object, it stands for each state that a play begins with.
        ensures stands { IfOk result (λ core. (V : Whole) → Begins setup.now V → TiersEmpty O.Objects media → AreasFresh D.Disk media → Stands D.Disk O.Objects O.Reader.ObjectRead O.Writer.ObjectWrite setup.now core V) }

        // Its master was opened over the areas, and at rest each image of them stands for its names.
        ensures over { IfOk result (λ core. IsOver D.Disk setup.now (media.areas).0 (media.areas).1 core.master) }
        ensures kept { IfOk result (λ core. IsKept D.Disk core.master) }

        // Over steady tiers all is steady.
        ensures steady { IfOk result (λ core. MediaSteady O.Objects media → IsSteady D.Disk O.Objects O.Reader.ObjectRead O.Writer.ObjectWrite core) }

        ensures block { IfOk result (λ core. core.block ≡ setup.now.block) }
        ensures stores { IfOk result (λ core. core.stores ≡ media.stores) }
        ensures tiers { IfOk result (λ core. map (λ n. n.tiers) core.workers.items ≡ media.tiers.items) }

        ensures closed { IfErr result (λ back. IsUnopened D.Disk setup.now media back.1 back.0) }
    {
        let Ok(parts) = parts_of(alloc, setup) else {
            return Err((Stop::Memory, media));
        };
        let Media {
            areas,
            stores,
            tiers,
        } = media;
        let (a, b) = areas;
        match Master::recover(alloc, setup, a, b) {
            Ok(master) => Ok(core_over(alloc, setup, parts, master, stores, tiers)),
            Err(MasterBroken { why, a, b }) => {
                parts.let_go();
                let areas = (a, b);
                Err((
                    why,
                    Media {
                        areas,
                        stores,
                        tiers,
                    },
                ))
            }
        }
    }

    /// Ends the cluster, and gives its areas, its stores and the tiers of each worker back, in order. It takes no memory.
    pub fn close(self) -> Media<D, O>
        ensures areas { result.areas ≡ (fused_0 self.master.journal, fused_1 self.master.journal) }
        ensures stores { result.stores ≡ self.stores }
        ensures tiers { result.tiers.items ≡ map (λ n. n.tiers) self.workers.items }
    {
        let mut nodes = self.workers;
        let mut shelf = self.shelf;
        give_all(&mut nodes, &mut shelf);
        nodes.destroy_empty();
        Media {
            areas: self.master.into_areas(),
            stores: self.stores,
            tiers: shelf,
        }
    }
}
