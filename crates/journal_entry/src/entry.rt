//! What stands in the journal.

ghost use Rattle.std.specs.Prelude.{◌≡◌};

use crate::bounds::{
    are_workers, is_file_id, is_move, is_next, is_node, is_plan, is_plan_of, is_plan_or_none,
    is_root, is_worker,
};
use fs_model::change::PlanKind;
use fs_model::items::Items;
use fs_model::numbers::{FileId, PlanNo, StoreNo, WorkerNo};
use fs_model::path::Path;
use fs_model::prefix::Prefix;
use fs_model::reply::Stored;
use std::marker::Model;

/// One entry of the journal. Those up to `Loaded` are changes of the names; `Next`, `Node`, `Pending` and `Leaf`
/// stand in checkpoints alone. A plan of 0 means none. (This project's own rule.)
#[derive(Debug, Clone, PartialEq, Eq, Drop)]
pub enum Entry {
    /// A directory is made.
    Mkdir {
        path: Path,
    },
    /// A file is made, which isn't done.
    Create {
        id: FileId,
        path: Path,
    },
    /// A file is done with so many bytes; it has a plan exactly where `stored` is `Yes`.
    Done {
        id: FileId,
        len: u64,
        stored: Stored,
        plan: PlanNo,
    },
    /// A node goes, with all below it.
    Remove {
        path: Path,
        plan: PlanNo,
    },
    /// A node gets another path, with all below it.
    Move {
        path: Path,
        to: Path,
        plan: PlanNo,
    },
    /// A file is pinned, or not any more.
    Pin {
        path: Path,
        on: bool,
    },
    /// A file is to be kept in its under-store.
    Want {
        id: FileId,
    },
    /// A plan is done.
    PlanEnd {
        plan: PlanNo,
    },
    /// A file's object was written; a plan publishes it.
    Persisted {
        id: FileId,
        plan: PlanNo,
    },
    /// An under-store is mounted under a key; a plan loads its names.
    Mount {
        path: Path,
        store: StoreNo,
        key: Prefix,
        plan: PlanNo,
    },
    /// A mount goes, with all below it.
    Unmount {
        path: Path,
    },
    /// A worker registered that wasn't known to the journal.
    Seen {
        worker: WorkerNo,
    },
    /// Workers went silent: 1 to 64, rising.
    Lost {
        workers: Items<WorkerNo>,
    },
    /// A file was found in an under-store.
    Loaded {
        id: FileId,
        path: Path,
        len: u64,
    },
    /// The numbers that the next file and the next plan get.
    Next {
        id: FileId,
        plan: PlanNo,
    },
    /// A directory, whose other fields are 0, done, or a file.
    Node {
        path: Path,
        dir: bool,
        id: FileId,
        len: u64,
        done: bool,
        stored: Stored,
        pinned: bool,
    },
    /// A plan that is pending; `to` is the root but for a move.
    Pending {
        plan: PlanNo,
        kind: PlanKind,
        path: Path,
        to: Path,
    },
    /// A file whose object a pending plan removes.
    Leaf {
        plan: PlanNo,
        path: Path,
    },
}

/// The greatest length of an entry's body in bytes.
pub const MOST_BODY: u32 = 8248;

impl Entry {
    ghost use Rattle.std.specs.Prelude.{◌≡◌, ◌≤◌, true, length};
    ghost use Rattle.journal_entry.specs.EntryText.{has_bounds, fits, entry_text};
    ghost use Rattle.journal_entry.specs.Lengths.{body_len};

    /// Whether the numbers and flags are within the bounds of the format.
    fn has_bounds(&self) -> bool
        ensures { result ≡ has_bounds self.now }
    {
        match self {
            Entry::Mkdir { .. } | Entry::Pin { .. } | Entry::Unmount { .. } => true,
            Entry::Create { id, .. } => is_file_id(id.0),
            Entry::Done {
                id,
                stored,
                plan,
                ..
            } => is_file_id(id.0) && is_plan_of(*stored, plan.0),
            Entry::Remove { plan, .. } => is_plan_or_none(plan.0),
            Entry::Move { plan, .. } => is_plan_or_none(plan.0),
            Entry::Want { id } => is_file_id(id.0),
            Entry::PlanEnd { plan } => is_plan_or_none(plan.0),
            Entry::Persisted { id, plan } => is_file_id(id.0) && is_plan(plan.0),
            Entry::Mount { plan, .. } => is_plan_or_none(plan.0),
            Entry::Seen { worker } => is_worker(worker.0),
            Entry::Lost { workers } => are_workers(workers.as_slice()),
            Entry::Loaded { id, .. } => is_file_id(id.0),
            Entry::Next { id, plan } => is_next(id.0) && is_next(plan.0),
            Entry::Node {
                dir,
                id,
                len,
                done,
                stored,
                pinned,
                ..
            } => is_node(*dir, id.0, *len, *done, *stored, *pinned),
            Entry::Pending { plan, kind, to, .. } => {
                is_plan(plan.0) && (is_move(*kind) || is_root(to))
            }
            Entry::Leaf { plan, .. } => is_plan(plan.0),
        }
    }

    /// The length of the body in bytes: the kind byte and the fields. The numbers are within the bounds of the
    /// format.
    pub(crate) fn body_len(&self) -> u64
        requires { has_bounds self.now ≡ true }
        ensures { result ≡ body_len self.now }
    {
        match self {
            Entry::Mkdir { path } | Entry::Unmount { path } => 3 + path.text_len(),
            Entry::Create { path, .. } => 11 + path.text_len(),
            Entry::Done { .. } => 26,
            Entry::Remove { path, .. } => 11 + path.text_len(),
            Entry::Move { path, to, .. } => 13 + path.text_len() + to.text_len(),
            Entry::Pin { path, .. } => 4 + path.text_len(),
            Entry::Want { .. } | Entry::PlanEnd { .. } => 9,
            Entry::Persisted { .. } | Entry::Next { .. } => 17,
            Entry::Mount { path, key, .. } => 17 + path.text_len() + key.text_len(),
            Entry::Seen { .. } => 5,
            Entry::Lost { workers } => 3 + 4 * workers.as_slice().len() as u64,
            Entry::Loaded { path, .. } => 19 + path.text_len(),
            Entry::Node { path, .. } => 23 + path.text_len(),
            Entry::Pending { path, to, .. } => 14 + path.text_len() + to.text_len(),
            Entry::Leaf { path, .. } => 11 + path.text_len(),
        }
    }

    /// Whether the entry has a text: its numbers and flags are within the bounds of the format, and its body has at
    /// most 8,248 bytes. Only a mount with a long path and a long key has a longer one.
    pub fn fits(&self) -> bool
        ensures { result ≡ fits self.now }
    {
        self.has_bounds() && self.body_len() <= MOST_BODY as u64
    }

    /// The length of the text in bytes, at most 8,252, of an entry that fits.
    pub fn text_len(&self) -> u64
        requires { fits self.now ≡ true }
        ensures len { result ≡ length (entry_text self.now) }
        ensures short { result ≤ 8252 }
    {
        4 + self.body_len()
    }
}

/// Entries in order. A contract sees them as a list.
#[derive(Debug, Drop)]
pub struct Entries {
    entries: Vec<Entry>,
}

impl Model for Entries {
    ghost use Rattle.std.specs.Prelude.{List};
    ghost use Rattle.journal_entry.specs.declared.entry.Entry.{Entry};

    ghost Value = { List Entry };

    ghost view = { λ e. e.entries.items };
}

impl Entries {
    /// The entries of a `Vec`; takes no memory.
    pub fn from_vec(entries: Vec<Entry>) -> Entries
        ensures { result ≡ entries.items }
    {
        Entries { entries }
    }

    /// The entries.
    pub fn as_slice(&self) -> &[Entry]
        ensures { result.now ≡ self.now }
    {
        self.entries.as_slice()
    }

    /// The entries as a `Vec`; takes no memory.
    pub fn into_vec(self) -> Vec<Entry>
        ensures { result.items ≡ self }
    {
        self.entries
    }
}
