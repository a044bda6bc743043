//! The names, as the journal's entries leave them.

ghost use Rattle.std.specs.Prelude.{◌≡◌, true, false, not, Some, None, length, IfOk, OnOk, OnErr, IfSome, option_map};
ghost use Rattle.std.specs.List.{list_all};
ghost use Rattle.std.specs.Option.{option_copied};
ghost use Rattle.fs_model.specs.declared.reply.Reply.{Reply};
ghost use Rattle.fs_model.specs.declared.reply.Stored as stored;
ghost use Rattle.fs_model.specs.Lookups.{file_of, find_node, walk_nodes, walk_above, has_node, row_of, path_of, children};
ghost use Rattle.fs_model.specs.Changes.{no_names};
ghost use Rattle.journal_entry.specs.declared.entry.Entry.{Entry};
ghost use Rattle.journal_entry.specs.EntryText.{fits};
ghost use Rattle.journal_entry.specs.Meaning.{checkpoint_entries};
ghost use Rattle.inode_tree.specs.Rows.{node_of, row_of_node, leads_to, IfFound};
ghost use Rattle.master_state.specs.Fits.{file_passes};
ghost use Rattle.master_state.specs.Places.{place_test, is_full, is_numbered_out};
ghost use Rattle.master_state.specs.Effect.{counts_in, taken, meaning};
ghost use Rattle.master_state.specs.Kept.{mount_rows};
ghost use Rattle.master_state.specs.View.{Need, need_of};

use crate::form::look_at;
use crate::kept::Kept;
use crate::mount::Mount;
use crate::ready::Ready;
use fs_model::name::Name;
use fs_model::numbers::{FileId, PlanNo};
use fs_model::path::Path;
use fs_model::reply::{Refusal, Stored};
use inode_tree::row::{Row, Walk};
use journal_entry::entry::{Entries, Entry};
use std::alloc::{AllocError, Global};
use std::marker::Model;
use std::mem;

/// The most nodes that there may be, `/` counted.
const NODES: usize = 1_048_576;

/// No file gets this number or one above it.
const NUMBERS: u64 = 1 << 63;

/// The names that the journal keeps: the nodes, the mount of `/`, and the next numbers. A contract sees them as the
/// machine's names, and what is ready for the next entry.
#[derive(Debug, Drop)]
pub struct Names {
    kept: Kept,
    ready: Ready,
}

impl Model for Names {
    ghost use Rattle.std.specs.Prelude.{◌≤◌};
    ghost use Rattle.master_state.specs.View.{NamesView, nodes_in};
    ghost use Rattle.master_state.specs.Kept.{need_in};
    ghost use Rattle.master_state.specs.Plain.{IsPlain};

    ghost Value = { NamesView };

    ghost view = { λ n. record { names = n.kept.names; ready = need_in n.ready } };

    ghost invariant = { λ n. IsPlain n.kept.names × (nodes_in (need_in n.ready) ≤ n.kept.room) };
}

impl Names {
    /// `/` alone, nothing mounted, and both next numbers 1. An `Err` is want of memory.
    pub fn new(alloc: Global) -> Result<Names, AllocError>
        ensures names { IfOk result (λ n. n.names ≡ no_names) }
        ensures ready { IfOk result (λ n. n.ready ≡ Need.Nothing) }
    {
        Ok(Names {
            kept: Kept::new(alloc)?,
            ready: Ready::Nothing,
        })
    }

    /// Whether the entry counts: it is one that is taken by now, and fits the names. Any other means nothing.
    pub fn counts(&self, entry: &Entry) -> bool
        ensures { result ≡ counts_in entry.now self.now.names }
    {
        self.kept.counts(entry)
    }

    /// Makes ready what `apply` of the entry needs, in place of what was ready before. The names stay as they are.
    ///
    /// An `Err` is want of memory, and leaves ready what was.
    pub fn reserve_for(&mut self, entry: &Entry) -> Result<(), AllocError>
        ensures names { self.new.names ≡ self.old.names }
        ensures ok { OnOk result (self.new.ready ≡ need_of entry.now) }
        ensures err { OnErr result (self.new.ready ≡ self.old.ready) }
    {
        let ready = Ready::of(entry)?;
        self.kept.reserve(entry)?;
        self.ready = ready;
        Ok(())
    }

    /// Lets go what was made ready; takes no memory. The names stay as they are.
    pub fn drop_for(&mut self)
        ensures names { self.new.names ≡ self.old.names }
        ensures ready { self.new.ready ≡ Need.Nothing }
    {
        self.ready = Ready::Nothing;
    }

    /// Does what the entry stands for where it counts, and nothing where it doesn't; takes no memory. What it needs was
    /// made ready, and the entry has a text.
    pub fn apply(&mut self, entry: &Entry)
        requires text { fits entry.now ≡ true }
        requires ready { self.old.ready ≡ need_of entry.now }
        ensures names { self.new.names ≡ taken entry.now self.old.names }
        ensures ready { self.new.ready ≡ Need.Nothing }
    {
        look_at(entry);
        let counts = self.kept.counts(entry);
        let ready = mem::replace(&mut self.ready, Ready::Nothing);
        if counts {
            self.kept.take(entry, ready);
        }
    }

    /// Takes an entry of a journal that is read: does what it stands for where it counts, and nothing where it doesn't.
    ///
    /// An `Err` is want of memory, and leaves the names as they were.
    pub fn take(&mut self, entry: &Entry) -> Result<(), AllocError>
        requires text { fits entry.now ≡ true }
        ensures ok { OnOk result (self.new.names ≡ taken entry.now self.old.names) }
        ensures err { OnErr result (self.new.names ≡ self.old.names) }
    {
        if !self.counts(entry) {
            return Ok(());
        }
        self.reserve_for(entry)?;
        self.apply(entry);
        Ok(())
    }

    /// The names that the entries of a journal stand for, in order. An `Err` is want of memory.
    pub fn read(alloc: Global, entries: &[Entry]) -> Result<Names, AllocError>
        requires text { list_all fits entries.now ≡ true }
        ensures { IfOk result (λ n. n.names ≡ meaning entries.now) }
    {
        let mut names = Names::new(alloc)?;
        for entry in entries {
            names.take(entry)?;
        }
        Ok(names)
    }

    /// The entries of a checkpoint: each has a text, and together they stand for these names.
    ///
    /// An `Err` is want of memory.
    pub fn entries(&self, alloc: Global) -> Result<Entries, AllocError>
        ensures entries { IfOk result (λ entries. entries ≡ checkpoint_entries self.now.names) }
        ensures texts { IfOk result (λ entries. list_all fits entries ≡ true) }
        ensures again { IfOk result (λ entries. meaning entries ≡ self.now.names) }
    {
        Ok(Entries::from_vec(self.kept.entries(alloc)?))
    }

    /// The numbers that the next file and the next plan get; takes no memory.
    pub fn next_numbers(&self) -> (FileId, PlanNo)
        ensures id { result.0 ≡ self.now.names.next_id }
        ensures plan { result.1 ≡ self.now.names.next_plan }
    {
        (FileId(self.kept.next_id), PlanNo(self.kept.next_plan))
    }

    /// How many nodes there are, `/` counted; takes no memory.
    pub fn nodes(&self) -> u64
        ensures { result ≡ length self.now.names.nodes }
    {
        self.kept.tree.len() as u64
    }

    /// The mount of `/`; `None` where nothing is mounted. It takes no memory.
    pub fn mount(&self) -> Option<&Mount>
        ensures { mount_rows (option_copied result) ≡ self.now.names.mounts }
    {
        self.kept.mount.as_ref()
    }

    /// Where the path leads. The first of its proper prefixes, from `/`, that is no directory decides: `Absent` where it
    /// isn't there, `Blocked` where it is a file. With none such, `Found` or `Absent` by the path itself. It takes no
    /// memory.
    pub fn walk(&self, path: &Path) -> Walk
        ensures leads { leads_to result ≡ walk_nodes self.now.names.nodes path.now }
        ensures found { IfFound result (λ row. find_node self.now.names.nodes path.now ≡ Some (node_of row)) }
        ensures row { IfFound result (λ row. row ≡ row_of_node (node_of row)) }
    {
        self.kept.tree.walk(path)
    }

    /// Where the proper prefixes of the path lead, whatever is at the path itself; takes no memory.
    pub fn walk_above(&self, path: &Path) -> Walk
        ensures leads { leads_to result ≡ walk_above self.now.names.nodes path.now }
    {
        self.kept.tree.walk_above(path)
    }

    /// Whether a node is at the path; takes no memory.
    pub fn contains(&self, path: &Path) -> bool
        ensures { result ≡ has_node self.now.names path.now }
    {
        self.kept.tree.contains(path)
    }

    /// The row of the file with this number; `None` where there is no such file. It takes no memory.
    pub fn file(&self, id: FileId) -> Option<Row>
        ensures found { option_map node_of result ≡ option_map (λ r. r.1) (row_of self.now.names id) }
        ensures row { IfSome result (λ row. row ≡ row_of_node (node_of row)) }
    {
        self.kept.tree.file(id)
    }

    /// The path of the file with this number; `None` where there is no such file.
    ///
    /// An `Err` is want of memory.
    pub fn path_of(&self, alloc: Global, id: FileId) -> Result<Option<Path>, AllocError>
        ensures path { IfOk result (λ found. found ≡ path_of self.now.names id) }
        ensures there { IfOk result (λ found. IfSome found (λ path. find_node self.now.names.nodes path ≡ option_map (λ r. r.1) (row_of self.now.names id))) }
    {
        self.kept.tree.path_of(alloc, id)
    }

    /// The names right below the path, in the order of their bytes.
    ///
    /// An `Err` is want of memory.
    pub fn list(&self, alloc: Global, path: &Path) -> Result<Vec<Name>, AllocError>
        ensures { IfOk result (λ names. names.items ≡ children self.now.names path.now) }
    {
        self.kept.tree.list(alloc, path)
    }

    /// Whether there is a file with this number that isn't done; takes no memory.
    pub fn is_undone(&self, id: FileId) -> bool
        ensures { result ≡ file_passes (λ f. not f.done) (file_of self.now.names id) }
    {
        self.kept.is_undone(id)
    }

    /// Why no node can be made at the path, if none can; takes no memory.
    pub fn place_refusal(&self, path: &Path) -> Option<Refusal>
        ensures { option_map Reply.Refused result ≡ place_test self.now.names path.now }
    {
        match self.kept.tree.walk_above(path) {
            Walk::Absent => Some(Refusal::NotFound),
            Walk::Blocked => Some(Refusal::NotDirectory),
            Walk::Found(_) => {
                if self.kept.tree.contains(path) {
                    return Some(Refusal::Exists);
                }
                None
            }
        }
    }

    /// Whether one node more is too many; takes no memory.
    pub fn is_full(&self) -> bool
        ensures { result ≡ is_full self.now.names }
    {
        self.kept.tree.len() >= NODES
    }

    /// Whether no number is left for a file; takes no memory.
    pub fn is_numbered_out(&self) -> bool
        ensures { result ≡ is_numbered_out self.now.names }
    {
        self.kept.next_id >= NUMBERS
    }

    /// The entry that makes a directory where a node can be made: it counts, and has a text.
    ///
    /// An `Err` is want of memory.
    pub fn mkdir(&self, path: &Path) -> Result<Entry, AllocError>
        requires place { place_test self.now.names path.now ≡ None }
        ensures entry { IfOk result (λ e. e ≡ Entry.Mkdir path.now) }
        ensures counts { IfOk result (λ e. counts_in e self.now.names ≡ true) }
        ensures text { IfOk result (λ e. fits e ≡ true) }
    {
        let entry = Entry::Mkdir {
            path: path.clone()?,
        };
        look_at(&entry);
        Ok(entry)
    }

    /// The entry that makes a file, with the next number, where a node can be made: it counts, and has a text.
    ///
    /// An `Err` is want of memory.
    pub fn create(&self, path: &Path) -> Result<Entry, AllocError>
        requires place { place_test self.now.names path.now ≡ None }
        requires number { is_numbered_out self.now.names ≡ false }
        ensures entry { IfOk result (λ e. e ≡ Entry.Create self.now.names.next_id path.now) }
        ensures counts { IfOk result (λ e. counts_in e self.now.names ≡ true) }
        ensures text { IfOk result (λ e. fits e ≡ true) }
    {
        let entry = Entry::Create {
            id: FileId(self.kept.next_id),
            path: path.clone()?,
        };
        look_at(&entry);
        Ok(entry)
    }

    /// The entry that a file which isn't done is done with, with `len` bytes that aren't to be stored: it counts, and
    /// has a text. It takes no memory.
    pub fn finish(&self, id: FileId, len: u64) -> Entry
        requires undone { file_passes (λ f. not f.done) (file_of self.now.names id) ≡ true }
        ensures entry { result ≡ Entry.Done id len stored.Stored.No 0 }
        ensures counts { counts_in result self.now.names ≡ true }
        ensures text { fits result ≡ true }
    {
        let _kept = &self.kept;
        Entry::Done {
            id,
            len,
            stored: Stored::No,
            plan: PlanNo(0),
        }
    }
}
