//! The types of the file layer, and the flat file machine that every contract above speaks of.
#![tactic(auto)]

pub mod block;
pub mod change;
pub mod cut;
pub mod event;
pub mod items;
pub mod label;
pub mod laws;
pub mod name;
pub mod numbers;
pub mod path;
pub mod piece;
pub mod prefix;
pub mod reply;
pub mod setup;
pub mod stop;
#[cfg(test)]
mod tests;
