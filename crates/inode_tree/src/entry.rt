//! Nodes with their paths, and the search in a list of them that stands in the order of the paths.

ghost use Rattle.std.specs.Prelude.{◌≡◌, ◌≤◌, ◌<◌, [], ◌∷◌, true, false, length, take, drop, map, insert, option_map, Some, None, IfOk, is_some, cond};
ghost use Rattle.std.specs.List.{AllWithin};
ghost use Rattle.std.specs.Option.{option_copied};
ghost use Rattle.fs_model.specs.State.{Node};
ghost use Rattle.fs_model.specs.Words.{path_lt, under};
ghost use Rattle.fs_model.specs.Lookups.{find_node, walk_above, child_name, names_in, id_is};
ghost use Rattle.fs_model.specs.Changes as machine;
ghost use Rattle.inode_tree.specs.Rows.{node_of, directory_row, row_of_node, leads_to, IfFound, file_row, file_in_row, file_changed, path_row, row_told};
ghost use Rattle.inode_tree.specs.Entries.{node_in, node_row, node_rows, in_order};

use crate::row::{DIRECTORY, PathRow, Row, Walk};
use fs_model::name::Name;
use fs_model::path::Path;
use fs_model::reply::Stored;
use std::alloc::{AllocError, Global};

/// A node as the tree keeps it.
#[derive(Clone, Copy, Debug, PartialEq, Eq)]
pub(crate) enum Inode {
    Directory,
    File {
        id: u64,
        len: u64,
        done: bool,
        stored: Stored,
        pinned: bool,
    },
}

/// A node with its path.
#[derive(Debug, Drop)]
pub(crate) struct Entry {
    pub(crate) path: Path,
    pub(crate) inode: Inode,
}

impl Inode {
    /// The node of a row.
    pub(crate) fn of(row: Row) -> Inode
        ensures { node_in result ≡ node_of row }
    {
        if row.dir {
            return Inode::Directory;
        }
        Inode::File {
            id: row.id,
            len: row.len,
            done: row.done,
            stored: row.stored,
            pinned: row.pinned,
        }
    }

    /// The row of the node.
    pub(crate) fn row(self) -> Row
        ensures { result ≡ row_of_node (node_in self) }
    {
        match self {
            Inode::Directory => DIRECTORY,
            Inode::File {
                id,
                len,
                done,
                stored,
                pinned,
            } => Row {
                dir: false,
                id,
                len,
                done,
                stored,
                pinned,
            },
        }
    }

    /// Whether the node is the file with this number.
    fn has_id(self, wanted: u64) -> bool
        ensures { result ≡ id_is wanted (node_in self) }
    {
        match self {
            Inode::Directory => false,
            Inode::File { id, .. } => id == wanted,
        }
    }

    /// The file of this row, where the node is the file with its number, else the node as it is.
    fn or_file(self, row: Row) -> Inode
        requires { row.dir ≡ false }
        ensures { node_in result ≡ cond (id_is row.id (node_in self)) (machine.set_file (λ f. file_in_row row) (node_in self)) (node_in self) }
    {
        if self.has_id(row.id) {
            return Inode::of(row);
        }
        self
    }
}

/// Whether the entry's path comes before that of these names.
fn is_before(entry: &Entry, names: &[Name]) -> bool
    ensures { result ≡ path_lt entry.now.path names.now }
{
    entry.path.as_slice().cmp(names).is_lt()
}

/// How many entries come before the path of these names: where its entry stands, or else belongs.
pub(crate) fn place_of(entries: &[Entry], names: &[Name]) -> usize
    requires { in_order entries.now ≡ true }
    ensures within { result ≤ length entries.now }
    ensures before { AllWithin (λ e. path_lt e.path names.now ≡ true) entries.now 0 result }
    ensures after { AllWithin (λ e. path_lt e.path names.now ≡ false) entries.now result (length entries.now) }
{
    entries.partition_point(|entry| is_before(entry, names))
}

/// The node at the path of these names.
pub(crate) fn inode_at(entries: &[Entry], names: &[Name]) -> Option<Inode>
    requires { in_order entries.now ≡ true }
    ensures { option_map node_in result ≡ find_node (node_rows entries.now) names.now }
{
    let at = place_of(entries, names);
    if at == entries.len() {
        return None;
    }
    let entry = &entries[at];
    if names == entry.path.as_slice() {
        return Some(entry.inode);
    }
    None
}

/// Where the proper prefixes of the path of these names lead.
pub(crate) fn walk_prefixes(entries: &[Entry], names: &[Name]) -> Walk
    requires { in_order entries.now ≡ true }
    ensures leads { leads_to result ≡ walk_above (node_rows entries.now) names.now }
    ensures row { IfFound result (λ row. row ≡ directory_row) }
{
    for depth in 0..names.len() {
        match inode_at(entries, &names[..depth]) {
            None => return Walk::Absent,
            Some(Inode::File { .. }) => return Walk::Blocked,
            Some(Inode::Directory) => {}
        }
    }
    Walk::Found(DIRECTORY)
}

/// The entries of the path and of all below it.
pub(crate) fn entries_under<'a>(entries: &'a [Entry], path: &Path) -> &'a [Entry]
    requires { in_order entries.now ≡ true }
    ensures { names_in (node_rows result.now) path.now ≡ names_in (node_rows entries.now) path.now }
{
    let rest = &entries[place_of(entries, path.as_slice())..];
    let end = rest.partition_point(|entry| entry.path.under(path));
    &rest[..end]
}

/// The last name of a path that is right below another.
fn child_name<'a>(upper: &[Name], path: &'a [Name]) -> Option<&'a Name>
    ensures { option_copied result ≡ child_name upper.now path.now }
{
    match path {
        [] => None,
        [front @ .., last] => {
            if upper == front {
                return Some(last);
            }
            None
        }
    }
}

/// The names right below a path.
pub(crate) fn children(
    alloc: Global,
    entries: &[Entry],
    upper: &[Name],
) -> Result<Vec<Name>, AllocError>
    ensures { IfOk result (λ names. names.items ≡ names_in (node_rows entries.now) upper.now) }
{
    let mut names = Vec::new(alloc);
    for entry in entries {
        if let Some(name) = child_name(upper, entry.path.as_slice()) {
            names.push(name.clone()?)?;
        }
    }
    Ok(names)
}

/// The entry of the file with this number.
pub(crate) fn file_entry(entries: &[Entry], id: u64) -> Option<&Entry>
    ensures { option_map node_row (option_copied result) ≡ file_row (node_rows entries.now) id }
{
    for entry in entries {
        if entry.inode.has_id(id) {
            return Some(entry);
        }
    }
    None
}

/// Copies of the entries' paths, with their rows.
pub(crate) fn rows_of(alloc: Global, entries: &[Entry]) -> Result<Vec<PathRow>, AllocError>
    ensures { IfOk result (λ rows. map path_row rows.items ≡ map row_told (node_rows entries.now)) }
{
    let mut rows = Vec::new(alloc);
    for entry in entries {
        rows.push(PathRow {
            path: entry.path.clone()?,
            row: entry.inode.row(),
        })?;
    }
    Ok(rows)
}

/// Puts a file's row in place of that of the file with its number.
pub(crate) fn set_file(entries: &mut [Entry], row: Row)
    requires { row.dir ≡ false }
    ensures { node_rows entries.new ≡ file_changed row.id (λ f. file_in_row row) (node_rows entries.old) }
{
    for entry in entries.iter_mut() {
        entry.inode = entry.inode.or_file(row);
    }
}
