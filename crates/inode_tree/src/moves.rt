//! Entries that get other paths.

ghost use Rattle.std.specs.Prelude.{◌≡◌, ◌≤◌, ◌<◌, ◌+◌, ◌++◌, ◌∷◌, [], true, length, drop, nat_le, not, ◌||◌, IfOk, OnOk, vec_len};
ghost use Rattle.std.specs.Vec.{vec_capacity};
ghost use Rattle.fs_model.specs.PathForm.{names_text};
ghost use Rattle.fs_model.specs.Words.{under, path_len};
ghost use Rattle.fs_model.specs.Changes.{put_node, moved_rows};
ghost use Rattle.inode_tree.specs.Rows.{put_all, stays_short};
ghost use Rattle.inode_tree.specs.Entries.{node_in, node_row, node_rows, in_order};

use crate::entry::{Entry, inode_at, place_of};
use fs_model::name::{Name, names_len};
use fs_model::path::{Path, PathFault};
use std::alloc::{AllocError, Global};

/// The greatest length of a path's text in bytes.
const MOST_PATH: u64 = 4096;

/// Appends a slash and the name, for each name.
fn push_names(text: &mut Vec<u8>, names: &[Name]) -> Result<(), AllocError>
    ensures { OnOk result (text.new.items ≡ text.old.items ++ names_text names.now) }
{
    for name in names {
        text.push(b'/')?;
        text.extend_from_slice(name.as_bytes())?;
    }
    Ok(())
}

/// The names behind the first ones.
fn names_behind(names: &[Name], front: usize) -> &[Name]
    requires { front ≤ length names.now }
    ensures { result.now ≡ drop front names.now }
{
    &names[front..]
}

/// The path with `to` in place of the upper path in front.
fn moved_path(alloc: Global, path: &Path, upper: &Path, to: &Path) -> Result<Path, AllocError>
    requires below { under path.now upper.now ≡ true }
    requires short { path_len (to.now ++ drop (length upper.now) path.now) ≤ 4096 }
    ensures { IfOk result (λ p. p ≡ to.now ++ drop (length upper.now) path.now) }
{
    let mut text = Vec::new(alloc);
    push_names(&mut text, to.as_slice())?;
    let front = upper.as_slice().len();
    push_names(&mut text, names_behind(path.as_slice(), front))?;
    if text.is_empty() {
        return Ok(Path::root(alloc));
    }
    match Path::read(alloc, &text) {
        Ok(path) => Ok(path),
        Err(PathFault::Memory) => Err(AllocError),
        Err(PathFault::TooLong) => unreachable!(),
        Err(PathFault::BadName(_)) => unreachable!(),
    }
}

/// Whether the path with `to` in place of the upper path in front isn't longer than a path may be.
fn moves_short(path: &Path, upper: &Path, to: &Path) -> bool
    requires below { under path.now upper.now ≡ true }
    ensures { result ≡ nat_le (path_len (to.now ++ drop (length upper.now) path.now)) 4096 }
{
    let front = upper.as_slice().len();
    let rest = names_behind(path.as_slice(), front);
    names_len(to.as_slice()) + names_len(rest) <= MOST_PATH
}

/// Whether the entry's path stays short, where it is under the upper one.
fn entry_stays_short(entry: &Entry, upper: &Path, to: &Path) -> bool
    ensures { result ≡ (not (under entry.now.path upper.now) || nat_le (path_len (to.now ++ drop (length upper.now) entry.now.path)) 4096) }
{
    !entry.path.under(upper) || moves_short(&entry.path, upper, to)
}

/// Whether no path under the upper one gets too long with `to` in its place.
pub(crate) fn stay_short(entries: &[Entry], upper: &Path, to: &Path) -> bool
    ensures { result ≡ stays_short (node_rows entries.now) upper.now to.now }
{
    for entry in entries {
        if !entry_stays_short(entry, upper, to) {
            return false;
        }
    }
    true
}

/// Appends the entry with another path, where it is under the upper one.
fn push_moved(
    alloc: Global,
    moved: &mut Vec<Entry>,
    entry: &Entry,
    upper: &Path,
    to: &Path,
) -> Result<(), AllocError>
    requires short { stays_short (node_row entry.now ∷ []) upper.now to.now ≡ true }
    ensures { OnOk result (node_rows moved.new.items ≡ node_rows moved.old.items ++ moved_rows upper.now to.now (node_row entry.now ∷ [])) }
{
    if entry.path.under(upper) {
        let path = moved_path(alloc, &entry.path, upper, to)?;
        moved.push(Entry {
            path,
            inode: entry.inode,
        })?;
    }
    Ok(())
}

/// The entries under a path, each with `to` in place of that path in front.
pub(crate) fn moved_entries(
    alloc: Global,
    entries: &[Entry],
    upper: &Path,
    to: &Path,
) -> Result<Vec<Entry>, AllocError>
    requires short { stays_short (node_rows entries.now) upper.now to.now ≡ true }
    ensures { IfOk result (λ moved. node_rows moved.items ≡ moved_rows upper.now to.now (node_rows entries.now)) }
{
    let mut moved = Vec::new(alloc);
    for entry in entries {
        push_moved(alloc, &mut moved, entry, upper, to)?;
    }
    Ok(moved)
}

/// Puts the entry at its place, over one that is there; takes no memory.
fn put_entry(entries: &mut Vec<Entry>, entry: Entry)
    requires order { in_order entries.old.items ≡ true }
    requires spare { vec_len entries.old < vec_capacity entries.old }
    ensures nodes { node_rows entries.new.items ≡ put_node entry.path (node_in entry.inode) (node_rows entries.old.items) }
    ensures order { in_order entries.new.items ≡ true }
    ensures len { vec_len entries.new ≤ vec_len entries.old + 1 }
    ensures capacity { vec_capacity entries.old ≤ vec_capacity entries.new }
{
    let names = entry.path.as_slice();
    let at = place_of(entries, names);
    if inode_at(entries, names).is_some() {
        entries[at].inode = entry.inode;
        return;
    }
    match entries.insert(at, entry) {
        Ok(()) => {}
        Err(_) => unreachable!(),
    }
}

/// Puts each entry at its place; takes no memory.
pub(crate) fn put_entries(entries: &mut Vec<Entry>, moved: Vec<Entry>)
    requires order { in_order entries.old.items ≡ true }
    requires spare { vec_len entries.old + vec_len moved ≤ vec_capacity entries.old }
    ensures nodes { node_rows entries.new.items ≡ put_all (node_rows moved.items) (node_rows entries.old.items) }
    ensures order { in_order entries.new.items ≡ true }
{
    for entry in moved {
        put_entry(entries, entry);
    }
}
