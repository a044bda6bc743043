//! The core of a cluster.

ghost use Rattle.std.specs.Prelude.{◌≡◌, ◌<◌, ◌≤◌, ◌^◌, [], length, vec_capacity};

use crate::hand::Hand;
use crate::labels::Labels;
use crate::node::Node;
use master_node::Master;
use outside::disk::Disk;
use outside::objects::ObjectWrite;

/// A cluster: its master with the names and their journal, its workers with their tiers, its stores, and what each
/// actor has under its labels.
#[derive(Drop)]
pub struct Core<D: Disk, O, R, W: ObjectWrite> {
    /// The size of a block in bytes.
    pub(crate) block: u32,
    /// The names, and the journal that they survive in.
    pub(crate) master: Master<D>,
    /// The workers, from number 1 on.
    pub(crate) workers: Vec<Node<O>>,
    /// The under-stores, from number 1 on.
    pub(crate) stores: Vec<O>,
    /// What each actor has under its labels, from actor 1 on.
    pub(crate) hands: Vec<Labels<Hand<R, W>>>,
    /// An empty list with a place for each worker's tiers, which are given back in it.
    pub(crate) shelf: Vec<Vec<O>>,
    ghost actors: { length hands.items ≡ 64 },
    ghost blocks: { 0 < block },
    ghost small: { block < 2 ^ 32 },
    ghost cleared: { shelf.items ≡ [] },
    ghost places: { length workers.items ≤ vec_capacity shelf },
}
