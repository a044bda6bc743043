//! The entries of the journal as bytes: each is written in its one text, and read from the front of any bytes.
#![tactic(auto)]

mod bounds;
pub mod decode;
pub mod encode;
pub mod entry;
mod fault;
mod field;
mod kind;
pub mod laws;
mod put;
#[cfg(test)]
mod tests;
mod workers;
