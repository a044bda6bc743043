//! What an entry needs, made before it is taken, so that taking it needs no memory.

ghost use Rattle.std.specs.Prelude.{◌≡◌, IfOk};
ghost use Rattle.master_state.specs.View.{Need, need_of};
ghost use Rattle.master_state.specs.Kept.{need_in};

use fs_model::path::Path;
use fs_model::prefix::Prefix;
use journal_entry::entry::Entry;
use std::alloc::AllocError;

/// What was made ready: nothing, a node's own path, or a mount's own key.
#[derive(Debug, Drop)]
pub enum Ready {
    Nothing,
    Node(Path),
    Mount(Prefix),
}

impl Ready {
    /// What an entry needs. An `Err` is want of memory.
    pub(crate) fn of(entry: &Entry) -> Result<Ready, AllocError>
        ensures { IfOk result (λ ready. need_in ready ≡ need_of entry.now) }
    {
        match entry {
            Entry::Mkdir { path } => Ok(Ready::Node(path.clone()?)),
            Entry::Create { path, .. } => Ok(Ready::Node(path.clone()?)),
            Entry::Node { path, .. } => Ok(Ready::Node(path.clone()?)),
            Entry::Mount { key, .. } => Ok(Ready::Mount(key.clone()?)),
            _ => Ok(Ready::Nothing),
        }
    }

    /// The path that was made ready for a node at this path; takes no memory.
    pub(crate) fn into_path(self, path: &Path) -> Path
        requires { need_in self ≡ Need.NodeAt path.now }
        ensures { result ≡ path.now }
    {
        match self {
            Ready::Node(own) => own,
            Ready::Nothing | Ready::Mount(_) => unreachable!(),
        }
    }

    /// The key that was made ready for a mount of this key; takes no memory.
    pub(crate) fn into_key(self, key: &Prefix) -> Prefix
        requires { need_in self ≡ Need.MountOf key.now }
        ensures { result ≡ key.now }
    {
        match self {
            Ready::Mount(own) => own,
            Ready::Nothing | Ready::Node(_) => unreachable!(),
        }
    }
}
