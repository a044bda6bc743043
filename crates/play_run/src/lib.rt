//! The play of a script over a cluster: each command's event in turn, and its line to a sink.
#![tactic(auto)]

pub mod laws;
pub mod play;
#[cfg(test)]
mod tests;
