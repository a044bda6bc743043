//! Writing an entry as its text.

ghost use Rattle.std.specs.Prelude.{◌≡◌, ◌≤◌, ◌+◌, ◌++◌, ◌∷◌, [], true, vec_len};
ghost use Rattle.std.specs.Vec.{vec_capacity};
ghost use Rattle.fs_model.specs.PathForm.{is_path, is_key};
ghost use Rattle.fs_model.specs.PathLength.{path_len};
ghost use Rattle.fs_model.specs.Changes.{key_len};
ghost use Rattle.journal_entry.specs.declared.entry.Entry.{Entry};
ghost use Rattle.journal_entry.specs.EntryText.{kind_byte, fields, body, entry_text, fits, is_entry, has_form, has_bounds};
ghost use Rattle.journal_entry.specs.Fields.{flag_byte, stored_byte, eight_bytes};
ghost use Rattle.journal_entry.specs.Lengths.{body_len};

use crate::entry::Entry;
use crate::put::{
    put_byte, put_flag, put_key, put_node, put_path, put_plan_kind, put_stored, put_u32, put_u64,
    put_workers,
};
use fs_model::change::PlanKind;
use fs_model::path::Path;
use fs_model::prefix::Prefix;
use fs_model::reply::Stored;

/// The first byte of an entry's body.
fn kind_byte(entry: &Entry) -> u8
    ensures { result ≡ kind_byte entry.now }
{
    match entry {
        Entry::Mkdir { .. } => 1,
        Entry::Create { .. } => 2,
        Entry::Done { .. } => 3,
        Entry::Remove { .. } => 4,
        Entry::Move { .. } => 5,
        Entry::Pin { .. } => 6,
        Entry::Want { .. } => 7,
        Entry::PlanEnd { .. } => 8,
        Entry::Persisted { .. } => 9,
        Entry::Mount { .. } => 10,
        Entry::Unmount { .. } => 11,
        Entry::Seen { .. } => 12,
        Entry::Lost { .. } => 13,
        Entry::Loaded { .. } => 14,
        Entry::Next { .. } => 15,
        Entry::Node { .. } => 16,
        Entry::Pending { .. } => 17,
        Entry::Leaf { .. } => 18,
    }
}

/// The fields of a file that is done.
fn put_done(out: &mut Vec<u8>, id: u64, len: u64, stored: Stored, plan: u64)
    requires { vec_len out.old + 25 ≤ vec_capacity out.old }
    ensures items { out.new.items ≡ out.old.items ++ fields (Entry.Done id len stored plan) }
    ensures capacity { vec_capacity out.old ≤ vec_capacity out.new }
{
    put_u64(out, id);
    put_u64(out, len);
    put_stored(out, stored);
    put_u64(out, plan);
}

/// The fields of a mount.
fn put_mount(out: &mut Vec<u8>, path: &Path, store: u32, key: &Prefix, plan: u64)
    requires { vec_len out.old + 16 + path_len path.now + key_len key.now ≤ vec_capacity out.old }
    ensures items { out.new.items ≡ out.old.items ++ fields (Entry.Mount path.now store key.now plan) }
    ensures capacity { vec_capacity out.old ≤ vec_capacity out.new }
    ensures path { is_path path.now ≡ true }
    ensures key { is_key key.now ≡ true }
{
    put_path(out, path);
    put_u32(out, store);
    put_key(out, key);
    put_u64(out, plan);
}

/// What a checkpoint keeps of a node behind its path and its kind.
fn put_row(out: &mut Vec<u8>, id: u64, len: u64, done: bool, stored: Stored, pinned: bool)
    requires { vec_len out.old + 19 ≤ vec_capacity out.old }
    ensures items { out.new.items ≡ out.old.items ++ eight_bytes id ++ eight_bytes len ++ (flag_byte done ∷ []) ++ (stored_byte stored ∷ []) ++ flag_byte pinned ∷ [] }
    ensures capacity { vec_capacity out.old ≤ vec_capacity out.new }
{
    put_u64(out, id);
    put_u64(out, len);
    put_flag(out, done);
    put_stored(out, stored);
    put_flag(out, pinned);
}

/// The fields of a plan that is pending.
fn put_pending(out: &mut Vec<u8>, plan: u64, kind: PlanKind, path: &Path, to: &Path)
    requires { vec_len out.old + 13 + path_len path.now + path_len to.now ≤ vec_capacity out.old }
    ensures items { out.new.items ≡ out.old.items ++ fields (Entry.Pending plan kind path.now to.now) }
    ensures capacity { vec_capacity out.old ≤ vec_capacity out.new }
    ensures path { is_path path.now ≡ true }
    ensures to { is_path to.now ≡ true }
{
    put_u64(out, plan);
    put_plan_kind(out, kind);
    put_path(out, path);
    put_path(out, to);
}

/// The fields of an entry, in order.
fn put_fields(out: &mut Vec<u8>, entry: &Entry)
    requires bounds { has_bounds entry.now ≡ true }
    requires room { vec_len out.old + body_len entry.now ≤ vec_capacity out.old + 1 }
    ensures items { out.new.items ≡ out.old.items ++ fields entry.now }
    ensures capacity { vec_capacity out.old ≤ vec_capacity out.new }
    ensures form { has_form entry.now ≡ true }
{
    match entry {
        Entry::Mkdir { path } | Entry::Unmount { path } => put_path(out, path),
        Entry::Create { id, path } => {
            put_u64(out, id.0);
            put_path(out, path);
        }
        Entry::Done {
            id,
            len,
            stored,
            plan,
        } => put_done(out, id.0, *len, *stored, plan.0),
        Entry::Remove { path, plan } => {
            put_path(out, path);
            put_u64(out, plan.0);
        }
        Entry::Move { path, to, plan } => {
            put_path(out, path);
            put_path(out, to);
            put_u64(out, plan.0);
        }
        Entry::Pin { path, on } => {
            put_path(out, path);
            put_flag(out, *on);
        }
        Entry::Want { id } => put_u64(out, id.0),
        Entry::PlanEnd { plan } => put_u64(out, plan.0),
        Entry::Persisted { id, plan } => {
            put_u64(out, id.0);
            put_u64(out, plan.0);
        }
        Entry::Mount {
            path,
            store,
            key,
            plan,
        } => put_mount(out, path, store.0, key, plan.0),
        Entry::Seen { worker } => put_u32(out, worker.0),
        Entry::Lost { workers } => put_workers(out, workers.as_slice()),
        Entry::Loaded { id, path, len } => {
            put_u64(out, id.0);
            put_path(out, path);
            put_u64(out, *len);
        }
        Entry::Next { id, plan } => {
            put_u64(out, id.0);
            put_u64(out, plan.0);
        }
        Entry::Node {
            path,
            dir,
            id,
            len,
            done,
            stored,
            pinned,
        } => {
            put_path(out, path);
            put_node(out, *dir);
            put_row(out, id.0, *len, *done, *stored, *pinned);
        }
        Entry::Pending {
            plan,
            kind,
            path,
            to,
        } => put_pending(out, plan.0, *kind, path, to),
        Entry::Leaf { plan, path } => {
            put_u64(out, plan.0);
            put_path(out, path);
        }
    }
}

/// Writes the text of an entry at the end of some bytes; takes no memory. (This project's own rule; the format of
/// entries stands in `docs/FORMATS.md`.)
///
/// A caller shows that the entry fits, which `Entry::fits` tests, and makes spare for 8,256 bytes first.
pub fn encode(entry: &Entry, out: &mut Vec<u8>)
    requires fits { fits entry.now ≡ true }
    requires spare { vec_len out.old + 8256 ≤ vec_capacity out.old }

    // The text stands behind what was there.
    ensures text { out.new.items ≡ out.old.items ++ entry_text entry.now }

    // It is one that is read again.
    ensures entry { is_entry entry.now ≡ true }

    // What was made spare for more stays so.
    ensures capacity { vec_capacity out.old ≤ vec_capacity out.new }
{
    put_u32(out, entry.body_len() as u32);
    put_byte(out, kind_byte(entry));
    put_fields(out, entry);
}
