//! What the types of an entry's fields say of it.

ghost use Rattle.std.specs.Prelude.{◌≡◌, true};
ghost use Rattle.journal_entry.specs.EntryText.{has_form};

use journal_entry::entry::Entry;

/// The paths and keys of an entry are in form, and its lengths are numbers of their types.
pub(crate) fn look_at(entry: &Entry)
    ensures { has_form entry.now ≡ true }
{
    match entry {
        Entry::Mkdir { path } | Entry::Unmount { path } => {
            let _names = path.as_slice();
        }
        Entry::Create { path, .. } => {
            let _names = path.as_slice();
        }
        Entry::Done { len, .. } => {
            let _len = *len;
        }
        Entry::Remove { path, .. } | Entry::Pin { path, .. } | Entry::Leaf { path, .. } => {
            let _names = path.as_slice();
        }
        Entry::Move { path, to, .. } | Entry::Pending { path, to, .. } => {
            let _names = path.as_slice();
            let _more = to.as_slice();
        }
        Entry::Mount {
            path,
            store,
            key,
            ..
        } => {
            let _names = path.as_slice();
            let _store = store.0;
            let _key = key.as_slice();
        }
        Entry::Loaded { path, len, .. } => {
            let _names = path.as_slice();
            let _len = *len;
        }
        Entry::Node { path, len, .. } => {
            let _names = path.as_slice();
            let _len = *len;
        }
        Entry::Want { .. }
        | Entry::PlanEnd { .. }
        | Entry::Persisted { .. }
        | Entry::Seen { .. }
        | Entry::Lost { .. }
        | Entry::Next { .. } => {}
    }
}
