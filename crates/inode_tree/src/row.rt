//! The rows of the tree, and where a path leads.

use fs_model::path::Path;
use fs_model::reply::Stored;

/// A node: a directory, or a file with what is kept of it.
#[derive(Clone, Copy, Debug, PartialEq, Eq)]
pub struct Row {
    /// Whether the node is a directory. A tree keeps nothing else of a directory's row.
    pub dir: bool,
    /// The file's number.
    pub id: u64,
    /// The file's length in bytes.
    pub len: u64,
    /// Whether the file is complete.
    pub done: bool,
    /// How the file stands to its under-store.
    pub stored: Stored,
    /// Whether the file is pinned.
    pub pinned: bool,
}

/// A node with its path.
#[derive(Debug, Drop)]
pub struct PathRow {
    pub path: Path,
    pub row: Row,
}

/// The row of each directory.
pub const DIRECTORY: Row = Row {
    dir: true,
    id: 0,
    len: 0,
    done: true,
    stored: Stored::No,
    pinned: false,
};

/// Where a path leads.
#[derive(Clone, Copy, Debug, PartialEq, Eq)]
pub enum Walk {
    /// To a node, with its row; a directory's is `DIRECTORY`.
    Found(Row),
    /// To nothing: its first proper prefix that is no directory isn't there, or all are directories and nothing
    /// is at the path itself.
    Absent,
    /// Past a file: its first proper prefix that is no directory is a file.
    Blocked,
}
