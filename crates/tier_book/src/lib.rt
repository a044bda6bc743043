//! The book of one worker: which blocks it has at which tier, what is reserved, and how much of each tier is
//! free, in the words of the file machine.
#![tactic(auto)]

pub mod book;
pub mod laws;
pub mod room;
pub mod row;
#[cfg(test)]
mod tests;
mod tier;
