//! Why a program over the whole layer ends before its script does.

/// Why an opening or a play ended early.
#[derive(Clone, Copy, PartialEq, Eq, Debug)]
pub enum Stop {
    /// The configuration and what was recovered don't fit together.
    Setup,
    /// A store failed while the first files were loaded.
    OpenFault,
    /// The journal's current area is no area, from this place on.
    Damaged { area: u32, place: u64 },
    /// An area failed at the opening.
    JournalFault,
    /// The sink failed.
    WriteFault,
    /// Want of memory.
    Memory,
}
