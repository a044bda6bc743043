//! The tree of names.

ghost use Rattle.std.specs.Prelude.{◌≡◌, ◌≤◌, ◌<◌, ◌+◌, ◌∷◌, [], true, false, Some, None, length, IfOk, OnOk, OnErr, IfNone, IfSome, is_some, not, map, option_map};
ghost use Rattle.std.specs.Bool.{OnFalse};
ghost use Rattle.fs_model.specs.State.{Node, NodeRow, File};
ghost use Rattle.fs_model.specs.Lookups as machine;
ghost use Rattle.fs_model.specs.Lookups.{find_node, walk_nodes, walk_above, names_in};
ghost use Rattle.fs_model.specs.Words.{under};
ghost use Rattle.fs_model.specs.Changes.{put_node, keep_nodes};
ghost use Rattle.inode_tree.specs.Rows.{node_of, directory_row, row_of_node, leads_to, IfFound, OnFound, OnBlocked, file_row, file_id, file_in_row, file_changed, path_row, row_told, relocated, stays_short};

use crate::entry::{
    Entry, Inode, children, entries_under, file_entry, inode_at, place_of, rows_of, set_file,
    walk_prefixes,
};
use crate::moves::{moved_entries, put_entries, stay_short};
use crate::row::{PathRow, Row, Walk};
use fs_model::name::Name;
use fs_model::numbers::FileId;
use fs_model::path::Path;
use std::alloc::{AllocError, Global};
use std::marker::Model;

/// The tree of names: directories and files by path, with `/` there from the start. A contract sees its nodes
/// as the list of paths with nodes, in the order of the paths, and how many nodes more there is room for. No two
/// files have one number.
#[derive(Debug, Drop)]
pub struct Tree {
    entries: Vec<Entry>,
}

impl Model for Tree {
    ghost use Rattle.std.specs.Prelude.{◌≡◌, ◌-◌, true, vec_len, vec_capacity};
    ghost use Rattle.inode_tree.specs.Rows.{TreeView, all_differ, ids_of};
    ghost use Rattle.inode_tree.specs.Entries.{node_rows, in_order};

    ghost Value = { TreeView };

    ghost view = { λ t. record { nodes = node_rows t.entries.items; room = vec_capacity t.entries - vec_len t.entries } };

    ghost invariant = { λ t. (in_order t.entries.items ≡ true) × (all_differ (ids_of (node_rows t.entries.items)) ≡ true) };
}

impl Tree {
    /// The tree that has `/` alone, a directory.
    ///
    /// An `Err` is want of memory.
    pub fn new(alloc: Global) -> Result<Tree, AllocError>
        ensures { IfOk result (λ tree. tree.nodes ≡ ([], Node.Directory) ∷ []) }
    {
        let mut entries = Vec::new(alloc);
        entries.push(Entry {
            path: Path::root(alloc),
            inode: Inode::Directory,
        })?;
        Ok(Tree { entries })
    }

    /// How many nodes there are, `/` counted.
    pub fn len(&self) -> usize
        ensures { result ≡ length self.now.nodes }
    {
        self.entries.len()
    }

    /// Where the path leads. The first of its proper prefixes, from `/`, that is no directory decides: `Absent`
    /// where it isn't there, `Blocked` where it is a file. With none such, `Found` or `Absent` by the path itself.
    pub fn walk(&self, path: &Path) -> Walk
        ensures leads { leads_to result ≡ walk_nodes self.now.nodes path.now }

        // What was found is the node at the path, and its proper prefixes are directories.
        ensures found { IfFound result (λ row. find_node self.now.nodes path.now ≡ Some (node_of row)) }
        ensures row { IfFound result (λ row. row ≡ row_of_node (node_of row)) }
        ensures above { OnFound result (walk_above self.now.nodes path.now ≡ machine.Walk.Found Node.Directory) }

        // A file on the way is one of the proper prefixes.
        ensures blocked { OnBlocked result (walk_above self.now.nodes path.now ≡ machine.Walk.Blocked) }
    {
        match self.walk_above(path) {
            Walk::Absent => Walk::Absent,
            Walk::Blocked => Walk::Blocked,
            Walk::Found(_) => match inode_at(&self.entries, path.as_slice()) {
                None => Walk::Absent,
                Some(inode) => Walk::Found(inode.row()),
            },
        }
    }

    /// Where the proper prefixes of the path lead, whatever is at the path itself: `Found`, with a directory's
    /// row, where each is a directory, else as `walk` answers.
    pub fn walk_above(&self, path: &Path) -> Walk
        ensures leads { leads_to result ≡ walk_above self.now.nodes path.now }
        ensures row { IfFound result (λ row. row ≡ directory_row) }
    {
        walk_prefixes(&self.entries, path.as_slice())
    }

    /// Whether a node is at the path.
    pub fn contains(&self, path: &Path) -> bool
        ensures there { result ≡ is_some (find_node self.now.nodes path.now) }

        // Where none is and the path's proper prefixes are directories, it leads to nothing.
        ensures free { OnFalse result (walk_above self.now.nodes path.now ≡ machine.Walk.Found Node.Directory → walk_nodes self.now.nodes path.now ≡ machine.Walk.Absent) }
    {
        inode_at(&self.entries, path.as_slice()).is_some()
    }

    /// The path of the file with this number; `None` where there is no such file.
    ///
    /// An `Err` is want of memory.
    pub fn path_of(&self, alloc: Global, id: FileId) -> Result<Option<Path>, AllocError>
        ensures path { IfOk result (λ found. found ≡ option_map (λ r. r.0) (file_row self.now.nodes id)) }
        ensures none { IfOk result (λ found. IfNone found (file_row self.now.nodes id ≡ None)) }

        // The file is what stands at the path.
        ensures there { IfOk result (λ found. IfSome found (λ path. find_node self.now.nodes path ≡ option_map (λ r. r.1) (file_row self.now.nodes id))) }
    {
        match file_entry(&self.entries, id.0) {
            None => Ok(None),
            Some(entry) => Ok(Some(entry.path.clone()?)),
        }
    }

    /// The row of the file with this number; `None` where there is no such file. It takes no memory.
    pub fn file(&self, id: FileId) -> Option<Row>
        ensures found { option_map node_of result ≡ option_map (λ r. r.1) (file_row self.now.nodes id) }
        ensures row { IfSome result (λ row. row ≡ row_of_node (node_of row)) }
    {
        match file_entry(&self.entries, id.0) {
            None => None,
            Some(entry) => Some(entry.inode.row()),
        }
    }

    /// Adds a node at a path where nothing is, below a directory. A file's number is no other file's.
    ///
    /// An `Err` is want of memory, and leaves the tree as it was.
    pub fn add(&mut self, alloc: Global, path: &Path, row: Row) -> Result<(), AllocError>
        requires absent { walk_nodes self.old.nodes path.now ≡ machine.Walk.Absent }
        requires parent { walk_above self.old.nodes path.now ≡ machine.Walk.Found Node.Directory }
        requires new_id { row.dir ≡ false → file_row self.old.nodes row.id ≡ None }
        ensures ok { OnOk result (self.new.nodes ≡ put_node path.now (node_of row) self.old.nodes) }
        ensures err { OnErr result (self.new.nodes ≡ self.old.nodes) }
    {
        let path = path.clone()?;
        self.reserve(1)?;
        self.put(path, row);
        Ok(())
    }

    /// Makes room for so many nodes more, so that `put` adds them without memory.
    ///
    /// An `Err` is want of memory. The nodes stay as they are, and there is never less room than before.
    pub fn reserve(&mut self, additional: usize) -> Result<(), AllocError>
        ensures nodes { self.new.nodes ≡ self.old.nodes }
        ensures ok { OnOk result (additional ≤ self.new.room) }
        ensures room { self.old.room ≤ self.new.room }
    {
        self.entries.reserve(additional)
    }

    /// Adds a node as `add` does, where there is room for it; takes no memory.
    pub fn put(&mut self, path: Path, row: Row)
        requires room { 0 < self.old.room }
        requires absent { walk_nodes self.old.nodes path ≡ machine.Walk.Absent }
        requires parent { walk_above self.old.nodes path ≡ machine.Walk.Found Node.Directory }
        requires new_id { row.dir ≡ false → file_row self.old.nodes row.id ≡ None }
        ensures nodes { self.new.nodes ≡ put_node path (node_of row) self.old.nodes }
        ensures room { self.new.room + 1 ≡ self.old.room }
    {
        let inode = Inode::of(row);
        let at = place_of(&self.entries, path.as_slice());
        match self.entries.insert(at, Entry { path, inode }) {
            Ok(()) => {}
            Err(_) => unreachable!(),
        }
    }

    /// Puts the row in place of that of the node at the path; takes no memory. The row is of the node's kind, a
    /// file's with its number. All other nodes stay as they are.
    pub fn set(&mut self, path: &Path, row: Row)
        requires same { option_map file_id (find_node self.old.nodes path.now) ≡ Some (file_id (node_of row)) }
        ensures put { self.new.nodes ≡ put_node path.now (node_of row) self.old.nodes }
        ensures room { self.new.room ≡ self.old.room }

        // A file that is set is the one with its number, and no other has it.
        ensures file { (f : File) (change : File → File) → find_node self.old.nodes path.now ≡ Some (Node.IsFile f) → node_of row ≡ Node.IsFile (change f) → self.new.nodes ≡ file_changed f.id change self.old.nodes }
    {
        let at = place_of(&self.entries, path.as_slice());
        self.entries[at].inode = Inode::of(row);
    }

    /// Puts a file's row in place of that of the file with its number, where there is one; takes no memory. All other
    /// nodes stay as they are.
    pub fn set_file(&mut self, row: Row)
        requires file { row.dir ≡ false }
        ensures nodes { self.new.nodes ≡ file_changed row.id (λ f. file_in_row row) self.old.nodes }
        ensures room { self.new.room ≡ self.old.room }

        // Of the file that is there it is a change.
        ensures change { (r : NodeRow) (f : File) (change : File → File) → file_row self.old.nodes row.id ≡ Some r → r.1 ≡ Node.IsFile f → file_in_row row ≡ change f → self.new.nodes ≡ file_changed row.id change self.old.nodes }
    {
        set_file(&mut self.entries, row);
    }

    /// Takes the node at the path out, with all below it; takes no memory. All other nodes stay as they are.
    pub fn remove(&mut self, path: &Path)
        ensures nodes { self.new.nodes ≡ keep_nodes (λ x. not (under x path.now)) self.old.nodes }

        // There is room for as many more as went.
        ensures room { length self.new.nodes + self.new.room ≡ length self.old.nodes + self.old.room }
    {
        self.entries.retain(|entry| !entry.path.under(path));
    }

    /// Whether no path gets longer than 4,096 bytes by `relink` of these paths; takes no memory.
    pub fn stays_short(&self, path: &Path, to: &Path) -> bool
        ensures { result ≡ stays_short self.now.nodes path.now to.now }
    {
        stay_short(&self.entries, path, to)
    }

    /// Puts the node at the path, with all below it, under another path instead, as the machine does: each takes the
    /// place of a node that is at its new path. All other nodes stay as they are. No path gets too long.
    ///
    /// An `Err` is want of memory, and leaves the tree as it was.
    pub fn relink(&mut self, alloc: Global, path: &Path, to: &Path) -> Result<(), AllocError>
        requires short { stays_short self.old.nodes path.now to.now ≡ true }
        ensures ok { OnOk result (self.new.nodes ≡ relocated path.now to.now self.old.nodes) }
        ensures err { OnErr result (self.new.nodes ≡ self.old.nodes) }
    {
        let moved = moved_entries(alloc, &self.entries, path, to)?;
        self.remove(path);
        put_entries(&mut self.entries, moved);
        Ok(())
    }

    /// All nodes with their paths, in the order of the paths.
    ///
    /// An `Err` is want of memory.
    pub fn rows(&self, alloc: Global) -> Result<Vec<PathRow>, AllocError>
        ensures { IfOk result (λ rows. map path_row rows.items ≡ map row_told self.now.nodes) }
    {
        rows_of(alloc, &self.entries)
    }

    /// The names right below the path, in the order of their bytes. It looks at the nodes below the path alone.
    ///
    /// An `Err` is want of memory.
    pub fn list(&self, alloc: Global, path: &Path) -> Result<Vec<Name>, AllocError>
        ensures { IfOk result (λ names. names.items ≡ names_in self.now.nodes path.now) }
    {
        children(alloc, entries_under(&self.entries, path), path.as_slice())
    }
}
