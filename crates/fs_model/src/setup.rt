//! The numbers of a configuration.

use crate::items::Items;
use crate::name::Name;

/// What the layer is configured with.
#[derive(Debug, Clone, PartialEq, Eq, Drop)]
pub struct Setup {
    /// The bytes of a block, 1 to 67,108,864.
    pub block: u32,
    /// The ticks after which a silent worker is lost, 1 to 1,000,000.
    pub patience: u32,
    /// The most bytes of a journal area, 64 to 1,073,741,824.
    pub area: u64,
    /// The names of the key in store 1 that `/` is mounted at, in at most 4,096 bytes.
    pub root: Items<Name>,
    /// How many under-stores there are, 1 to 16.
    pub stores: u32,
    /// The bytes of each tier of each worker: at most 64 workers, 1 to 3 tiers each, of 1 to 2^40 bytes.
    pub tiers: Items<Items<u64>>,
}
