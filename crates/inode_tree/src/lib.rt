//! The tree of names: the nodes by path, as contracts see them as the flat list of the file machine.
#![tactic(auto)]

mod entry;
mod moves;
pub mod row;
#[cfg(test)]
mod tests;
pub mod tree;
