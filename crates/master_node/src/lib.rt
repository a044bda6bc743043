//! The master: the names, and the journal that they survive in.
#![tactic(auto)]

mod checkpoint;
mod master;
mod recovery;
#[cfg(test)]
mod tests;

pub use master::Master;
pub use recovery::MasterBroken;
