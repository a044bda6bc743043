//! The outside in memory, for tests and for runs that reach nothing. Each of these keeps what it
//! holds and tells all of it, counts its calls and its failures, and fails the calls that it was
//! told to fail.
#![tactic(auto)]

mod areas;
mod calls;
mod disk;
mod disk_log;
#[cfg(test)]
mod disk_tests;
mod failures;
mod inputs;
mod lists;
mod moment;
mod named;
mod outputs;
mod readers;
mod shelf;
mod store;
#[cfg(test)]
mod store_tests;
#[cfg(test)]
mod tests;
mod whole;
mod writers;

pub use calls::{ByNumber, Calls, ChangingCalls, DiskCalls, StoreCalls};
pub use disk::MemDisk;
pub use disk_log::DiskCall;
pub use failures::Failing;
pub use inputs::MemSource;
pub use moment::{DiskMoment, Pick};
pub use named::Named;
pub use outputs::MemSink;
pub use readers::MemReader;
pub use shelf::MemShelf;
pub use store::MemObjects;
pub use whole::{Input, MemWorld};
pub use writers::{MemObject, MemWriter};
