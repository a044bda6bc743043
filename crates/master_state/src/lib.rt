//! What the journal's entries stand for: names, mounts and plans, and the changes of them.
#![tactic(auto)]

mod form;
mod fresh;
mod kept;
pub mod laws;
pub mod mount;
pub mod names;
mod ready;
#[cfg(test)]
mod tests;
