//! The texts of scripts and of lines: a script is read, a line is written.
#![tactic(auto)]

mod argument;
mod event;
pub mod line;
pub mod read;
pub mod script;
#[cfg(test)]
mod tests;
mod word;
