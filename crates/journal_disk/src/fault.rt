//! Why a call of the journal did nothing, or failed.

ghost use Rattle.std.specs.Prelude.{◌≡◌};
ghost use Rattle.journal_disk.specs.declared.fault.AppendFault.TheVariants as append;
ghost use Rattle.journal_disk.specs.declared.fault.RecoverFault.TheVariants as recover;

use outside::stream::Fault;
use std::alloc::{AllocError, AllocFailed};

/// Why an entry or a checkpoint was not acknowledged.
#[derive(Clone, Copy, Debug, PartialEq, Eq)]
pub enum AppendFault {
    /// A call of an area failed: what was to be written is there, or it is not.
    Failed,
    /// The area would be longer than the limit, or the generation has no next one. Nothing changed.
    Full,
    /// There was no memory for it. Nothing changed.
    Memory,
}

impl From<AllocError> for AppendFault {
    ghost from_gives = { λ _ fault. fault ≡ append.Memory };

    fn from(_error: AllocError) -> AppendFault {
        AppendFault::Memory
    }
}

/// Why the areas gave no journal.
#[derive(Clone, Copy, Debug, PartialEq, Eq)]
pub enum RecoverFault {
    /// The current area, 0 or 1, is no area's text. The place, in bytes from its front, is that of the
    /// first gate that is open before what is no entry, or the area's length where a gate is due there.
    Damaged { area: u32, place: u64 },
    /// A call of an area failed.
    Failed,
    /// There was no memory for it.
    Memory,
}

impl From<AllocError> for RecoverFault {
    ghost from_gives = { λ _ fault. fault ≡ recover.Memory };

    fn from(_error: AllocError) -> RecoverFault {
        RecoverFault::Memory
    }
}

impl From<Fault> for RecoverFault {
    ghost from_gives = { λ _ fault. fault ≡ recover.Failed };

    fn from(_fault: Fault) -> RecoverFault {
        RecoverFault::Failed
    }
}

impl<T: Drop> From<AllocFailed<T>> for RecoverFault {
    ghost from_gives = { λ _ fault. fault ≡ recover.Memory };

    fn from(_failed: AllocFailed<T>) -> RecoverFault {
        RecoverFault::Memory
    }
}
