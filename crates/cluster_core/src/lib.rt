//! The core of the cluster: its master with the names and their journal, what each actor has under its labels, workers
//! with their blocks in tiers, and the events over them.
#![tactic(auto)]

mod at_workers;
mod beginning;
pub mod blocks;
mod closing;
pub mod cluster;
mod committing;
mod creating;
mod finishing;
pub mod hand;
mod journaling;
pub mod labels;
mod naming;
pub mod node;
mod opening;
mod polling;
mod putting;
mod reading;
mod rooming;
mod stating;
pub mod step;
mod supplying;
mod taking;
mod writers;
