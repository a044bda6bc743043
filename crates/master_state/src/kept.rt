//! What is kept of the names, and what an entry does to it.

ghost use Rattle.std.specs.Prelude.{◌≡◌, ◌≤◌, ◌<◌, ◌^◌, ◌∷◌, ◌++◌, [], map, true, false, not, nat_le, ◌&&◌, ◌||◌, length, IfOk, OnOk, Some, None};
ghost use Rattle.fs_model.specs.declared.reply.Stored as stored;
ghost use Rattle.fs_model.specs.State.{Node};
ghost use Rattle.fs_model.specs.Lookups.{find_node, file_of, is_empty, stored_is_yes};
ghost use Rattle.fs_model.specs.NodesEvents.{is_reserved};
ghost use Rattle.fs_model.specs.Changes as machine;
ghost use Rattle.fs_model.specs.Changes.{no_names, key_len, change_file};
ghost use Rattle.journal_entry.specs.declared.entry.Entry.{Entry};
ghost use Rattle.journal_entry.specs.EntryText.{has_bounds};
ghost use Rattle.journal_entry.specs.Meaning.{checkpoint_entries};
ghost use Rattle.inode_tree.specs.Rows.{node_of, file_in_row};
ghost use Rattle.master_state.specs.Walks as walks;
ghost use Rattle.master_state.specs.Walks.{has_place};
ghost use Rattle.master_state.specs.Fits.{is_new_id, file_passes};
ghost use Rattle.master_state.specs.Effect.{counts_in, effect};
ghost use Rattle.master_state.specs.Plain.{IsPlain};
ghost use Rattle.master_state.specs.View.{Need, need_of, nodes_in};
ghost use Rattle.master_state.specs.Kept.{need_in, entry_of_row};

use crate::mount::Mount;
use crate::ready::Ready;
use fs_model::numbers::{FileId, PlanNo, StoreNo};
use fs_model::path::Path;
use fs_model::prefix::Prefix;
use fs_model::reply::Stored;
use inode_tree::row::{DIRECTORY, PathRow, Row, Walk};
use inode_tree::tree::Tree;
use journal_entry::entry::Entry;
use std::alloc::{AllocError, Global};
use std::marker::Model;

/// The nodes, the mount of `/` and the next numbers. A contract sees them as the machine's names, and how many nodes
/// more there is room for.
#[derive(Debug, Drop)]
pub(crate) struct Kept {
    pub(crate) tree: Tree,
    pub(crate) mount: Option<Mount>,
    pub(crate) next_id: u64,
    pub(crate) next_plan: u64,
}

impl Model for Kept {
    ghost use Rattle.master_state.specs.View.{KeptView, plain_names};
    ghost use Rattle.master_state.specs.Kept.{mount_rows};

    ghost Value = { KeptView };

    ghost view = { λ k. record { names = plain_names k.tree.nodes (mount_rows k.mount) k.next_id k.next_plan; room = k.tree.room } };
}

/// The greatest length in bytes of a key that is mounted.
const MOST_MOUNTED: u64 = 4096;

/// Whether a key's first name is the one that is reserved for parked objects.
fn is_reserved(key: &Prefix) -> bool
    ensures { result ≡ is_reserved key.now }
{
    match key.as_slice() {
        [] => false,
        [first, ..] => first.as_slice() == b".tierfs".as_slice(),
    }
}

/// Whether a file is kept in its under-store.
fn is_stored(stored: Stored) -> bool
    ensures { result ≡ stored_is_yes stored }
{
    match stored {
        Stored::Yes => true,
        Stored::No | Stored::Wanted => false,
    }
}

/// The row of a file that isn't done.
fn new_file(id: FileId) -> Row
    ensures { result ≡ record { dir = false; id = id; len = 0; done = false; stored = stored.Stored.No; pinned = false } }
{
    Row {
        dir: false,
        id: id.0,
        len: 0,
        done: false,
        stored: Stored::No,
        pinned: false,
    }
}

impl Kept {
    /// `/` alone, nothing mounted, and the next numbers 1. An `Err` is want of memory.
    pub(crate) fn new(alloc: Global) -> Result<Kept, AllocError>
        ensures { IfOk result (λ kept. kept.names ≡ no_names) }
    {
        Ok(Kept {
            tree: Tree::new(alloc)?,
            mount: None,
            next_id: 1,
            next_plan: 1,
        })
    }

    /// Whether a node may come in at the path: it has none, and those before it are directories.
    pub(crate) fn has_place(&self, path: &Path) -> bool
        ensures { result ≡ has_place self.now.names path.now }
    {
        match self.tree.walk_above(path) {
            Walk::Found(_) => !self.tree.contains(path),
            Walk::Absent | Walk::Blocked => false,
        }
    }

    /// Whether no file has this number.
    pub(crate) fn is_new_id(&self, id: FileId) -> bool
        ensures { result ≡ is_new_id self.now.names id }
    {
        self.tree.file(id).is_none()
    }

    /// Whether there is a file with this number that isn't done.
    pub(crate) fn is_undone(&self, id: FileId) -> bool
        ensures { result ≡ file_passes (λ f. not f.done) (file_of self.now.names id) }
    {
        match self.tree.file(id) {
            None => false,
            Some(row) => !row.done,
        }
    }

    /// Whether a store may be mounted at `/` under this key.
    pub(crate) fn is_mountable(&self, key: &Prefix) -> bool
        ensures { result ≡ (is_empty self.now.names.mounts && not (is_reserved key.now) && nat_le (key_len key.now) 4096) }
    {
        self.mount.is_none() && !is_reserved(key) && key.text_len() <= MOST_MOUNTED
    }

    /// Whether a mount at this path counts: it is that of `/`, which has none yet, with a key that may be mounted.
    fn counts_mount(&self, path: &Path, store: StoreNo, key: &Prefix, plan: PlanNo) -> bool
        requires plain { IsPlain self.now.names }
        ensures { result ≡ counts_in (Entry.Mount path.now store key.now plan) self.now.names }
    {
        path.as_slice().is_empty() && plan.0 == 0 && self.is_mountable(key)
    }

    /// Whether a node of a checkpoint counts.
    fn counts_node(&self, path: &Path, dir: bool, id: FileId, stored: Stored) -> bool
        ensures { result ≡ ((dir || not (stored_is_yes stored)) && (has_place self.now.names path.now && (dir || is_new_id self.now.names id))) }
    {
        (dir || !is_stored(stored)) && self.has_place(path) && (dir || self.is_new_id(id))
    }

    /// Whether the entry counts: it is one that is taken by now, and fits.
    pub(crate) fn counts(&self, entry: &Entry) -> bool
        requires plain { IsPlain self.now.names }
        ensures { result ≡ counts_in entry.now self.now.names }
    {
        match entry {
            Entry::Mkdir { path } => self.has_place(path),
            Entry::Create { id, path } => self.has_place(path) && self.is_new_id(*id),
            Entry::Done {
                id,
                stored,
                plan,
                ..
            } => !is_stored(*stored) && plan.0 == 0 && self.is_undone(*id),
            Entry::Mount {
                path,
                store,
                key,
                plan,
            } => self.counts_mount(path, *store, key, *plan),
            Entry::Next { .. } => true,
            Entry::Node {
                path,
                dir,
                id,
                stored,
                ..
            } => self.counts_node(path, *dir, *id, *stored),
            _ => false,
        }
    }

    /// Makes room for the nodes that an entry brings. An `Err` is want of memory, and leaves the names as they were.
    pub(crate) fn reserve(&mut self, entry: &Entry) -> Result<(), AllocError>
        ensures names { self.new.names ≡ self.old.names }
        ensures room { self.old.room ≤ self.new.room }
        ensures ok { OnOk result (nodes_in (need_of entry.now) ≤ self.new.room) }
    {
        match entry {
            Entry::Mkdir { .. } | Entry::Create { .. } | Entry::Node { .. } => self.tree.reserve(1),
            _ => Ok(()),
        }
    }

    /// Adds a node at a path that was made ready; takes no memory.
    fn add(&mut self, path: &Path, ready: Ready, row: Row)
        requires ready { need_in ready ≡ Need.NodeAt path.now }
        requires room { 0 < self.old.room }
        requires place { has_place self.old.names path.now ≡ true }
        requires new_id { row.dir ≡ false → is_new_id self.old.names row.id ≡ true }
        ensures { self.new.names ≡ machine.add_node path.now (node_of row) self.old.names }
    {
        self.tree.put(ready.into_path(path), row);
    }

    /// The next file gets a number above this one.
    fn raise_id(&mut self, id: u64)
        requires { id < 2 ^ 63 }
        ensures { self.new.names ≡ machine.raise_id id self.old.names }
    {
        self.next_id = self.next_id.max(id + 1);
    }

    /// Adds a file at a path that was made ready, and raises the next number above its own; takes no memory.
    fn add_file(&mut self, path: &Path, ready: Ready, row: Row)
        requires ready { need_in ready ≡ Need.NodeAt path.now }
        requires room { 0 < self.old.room }
        requires place { has_place self.old.names path.now ≡ true }
        requires new_id { is_new_id self.old.names row.id ≡ true }
        requires file { row.dir ≡ false }
        requires id { row.id < 2 ^ 63 }
        ensures { self.new.names ≡ machine.raise_id row.id (machine.add_node path.now (Node.IsFile (file_in_row row)) self.old.names) }
    {
        self.add(path, ready, row);
        self.raise_id(row.id);
    }

    /// Notes that the file with this number is done, with `len` bytes; takes no memory.
    fn finish(&mut self, id: FileId, len: u64, stored: Stored)
        requires { file_passes (λ f. not f.done) (file_of self.old.names id) ≡ true }
        ensures { self.new.names ≡ change_file id (λ f. record f { len = len; done = true; stored = stored }) self.old.names }
    {
        match self.tree.file(id) {
            None => {}
            Some(row) => self.tree.set_file(Row {
                len,
                done: true,
                stored,
                ..row
            }),
        }
    }

    /// Mounts a store at `/`, under a key that was made ready; takes no memory.
    fn mount_root(&mut self, store: StoreNo, key: &Prefix, ready: Ready)
        requires { need_in ready ≡ Need.MountOf key.now }
        ensures { self.new.names ≡ record self.old.names { mounts = record { path = []; store = store; key = key.now } ∷ [] } }
    {
        let key = ready.into_key(key);
        self.mount = Some(Mount { store, key });
    }

    /// Puts a node of a checkpoint back at a path that was made ready; takes no memory.
    fn put_back(&mut self, path: &Path, ready: Ready, row: Row)
        requires ready { need_in ready ≡ Need.NodeAt path.now }
        requires room { 0 < self.old.room }
        requires place { has_place self.old.names path.now ≡ true }
        requires new_id { row.dir ≡ false → is_new_id self.old.names row.id ≡ true }
        requires id { row.dir ≡ false → row.id < 2 ^ 63 }
        ensures { self.new.names ≡ effect (Entry.Node path.now row.dir row.id row.len row.done row.stored row.pinned) self.old.names }
    {
        if row.dir {
            self.add(path, ready, DIRECTORY);
        } else {
            self.add_file(path, ready, row);
        }
    }

    /// The next file and the next plan get at least these numbers.
    fn raise(&mut self, id: FileId, plan: PlanNo)
        ensures { self.new.names ≡ effect (Entry.Next id plan) self.old.names }
    {
        self.next_id = self.next_id.max(id.0);
        self.next_plan = self.next_plan.max(plan.0);
    }

    /// Does what an entry that counts stands for, with what it needs made ready; takes no memory.
    pub(crate) fn take(&mut self, entry: &Entry, ready: Ready)
        requires plain { IsPlain self.old.names }
        requires counts { counts_in entry.now self.old.names ≡ true }
        requires bounds { has_bounds entry.now ≡ true }
        requires ready { need_in ready ≡ need_of entry.now }
        requires room { nodes_in (need_in ready) ≤ self.old.room }
        ensures { self.new.names ≡ effect entry.now self.old.names }
    {
        match entry {
            Entry::Mkdir { path } => self.add(path, ready, DIRECTORY),
            Entry::Create { id, path } => self.add_file(path, ready, new_file(*id)),
            Entry::Done {
                id,
                len,
                stored,
                ..
            } => self.finish(*id, *len, *stored),
            Entry::Mount { store, key, .. } => self.mount_root(*store, key, ready),
            Entry::Next { id, plan } => self.raise(*id, *plan),
            Entry::Node {
                path,
                dir,
                id,
                len,
                done,
                stored,
                pinned,
            } => {
                let row = Row {
                    dir: *dir,
                    id: id.0,
                    len: *len,
                    done: *done,
                    stored: *stored,
                    pinned: *pinned,
                };
                self.put_back(path, ready, row);
            }
            _ => unreachable!(),
        }
    }

    /// The entry of a checkpoint for a node: a mount for `/` where that is mounted, else the node. An `Err` is want of
    /// memory.
    fn entry_of(&self, node: PathRow) -> Result<Entry, AllocError>
        ensures { IfOk result (λ e. e ≡ entry_of_row self.now.names.mounts node.path node.row) }
    {
        if node.path.as_slice().is_empty() {
            if let Some(mount) = &self.mount {
                return Ok(Entry::Mount {
                    path: node.path,
                    store: mount.store,
                    key: mount.key.clone()?,
                    plan: PlanNo(0),
                });
            }
        }
        let row = node.row;
        Ok(Entry::Node {
            path: node.path,
            dir: row.dir,
            id: FileId(row.id),
            len: row.len,
            done: row.done,
            stored: row.stored,
            pinned: row.pinned,
        })
    }

    /// Appends the entries of a checkpoint for these nodes. An `Err` is want of memory.
    fn push_nodes(&self, entries: &mut Vec<Entry>, nodes: Vec<PathRow>) -> Result<(), AllocError>
        ensures { OnOk result (entries.new.items ≡ entries.old.items ++ map (λ n. entry_of_row self.now.names.mounts n.path n.row) nodes.items) }
    {
        for node in nodes {
            entries.push(self.entry_of(node)?)?;
        }
        Ok(())
    }

    /// The entries of a checkpoint, in order. An `Err` is want of memory.
    pub(crate) fn entries(&self, alloc: Global) -> Result<Vec<Entry>, AllocError>
        ensures { IfOk result (λ entries. entries.items ≡ checkpoint_entries self.now.names) }
    {
        let mut entries = Vec::new(alloc);
        entries.push(Entry::Next {
            id: FileId(self.next_id),
            plan: PlanNo(self.next_plan),
        })?;
        self.push_nodes(&mut entries, self.tree.rows(alloc)?)?;
        Ok(entries)
    }
}
