//! A file's writer: the bytes go block by block into a worker's writer, and where the file has an
//! object in a store, into that object's writer too.
#![tactic(auto)]

pub mod parts;
pub mod pen;
#[cfg(test)]
mod tests;
pub mod writer;
