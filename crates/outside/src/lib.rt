//! All that the program reaches outside itself: where bytes come from and go to, disks, stores of
//! objects, and a world that has all of them. `outside_mem` has them in memory.
#![tactic(auto)]

pub mod disk;
pub mod fused;
pub mod key;
pub mod media;
pub mod objects;
pub mod stream;
#[cfg(test)]
mod tests;
pub mod world;
