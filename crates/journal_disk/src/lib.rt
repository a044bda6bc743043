//! The journal: the entries of a master on two areas, of which one is current, so that a crash at any
//! call leaves the entries so far, with or without the one in hand.
#![tactic(auto)]

mod checkpoint;
mod closing;
mod fault;
mod journal;
mod reading;
mod recover;
mod staging;
#[cfg(test)]
mod tests;
mod text;

pub use fault::{AppendFault, RecoverFault};
pub use journal::Journal;
pub use recover::{Broken, Recovered};
