//! The names over a fresh journal.

ghost use Rattle.std.specs.Prelude.{◌≡◌, [], true, drop, IfOk, OnOk};
ghost use Rattle.fs_model.specs.PathForm.{names_text, is_plain_key};
ghost use Rattle.fs_model.specs.Spelled.{is_setup};
ghost use Rattle.fs_model.specs.Opening.{fresh_names};
ghost use Rattle.journal_entry.specs.declared.entry.Entry.{Entry};
ghost use Rattle.journal_entry.specs.EntryText.{fits};
ghost use Rattle.master_state.specs.Effect.{taken};

use crate::names::Names;
use fs_model::name::Name;
use fs_model::numbers::{PlanNo, StoreNo};
use fs_model::path::Path;
use fs_model::prefix::Prefix;
use fs_model::setup::Setup;
use journal_entry::entry::Entry;
use std::alloc::{AllocError, Global};

/// The names with a slash before each.
fn text_of(alloc: Global, names: &[Name]) -> Result<Vec<u8>, AllocError>
    ensures { IfOk result (λ text. text.items ≡ names_text names.now) }
{
    let mut text = Vec::new(alloc);
    for name in names {
        text.push(b'/')?;
        text.extend_from_slice(name.as_bytes())?;
    }
    Ok(text)
}

/// The bytes behind the first one.
fn behind(text: &[u8]) -> &[u8]
    ensures { result.now ≡ drop 1 text.now }
{
    match text {
        [] => text,
        [_, rest @ ..] => rest,
    }
}

/// The key of these names.
fn key_of(alloc: Global, names: &[Name]) -> Result<Prefix, AllocError>
    requires { is_plain_key names.now ≡ true }
    ensures { IfOk result (λ key. key ≡ names.now) }
{
    let text = text_of(alloc, names)?;
    match Prefix::read(alloc, behind(&text))? {
        Some(key) => Ok(key),
        None => unreachable!(),
    }
}

/// The entry that mounts store 1 at `/` under the root names: it counts where nothing is mounted, and has a text.
///
/// An `Err` is want of memory.
fn root_mount(alloc: Global, setup: &Setup) -> Result<Entry, AllocError>
    requires { is_setup setup.now ≡ true }
    ensures entry { IfOk result (λ e. e ≡ Entry.Mount [] 1 setup.now.root 0) }
    ensures text { IfOk result (λ e. fits e ≡ true) }
{
    let entry = Entry::Mount {
        path: Path::root(alloc),
        store: StoreNo(1),
        key: key_of(alloc, setup.root.as_slice())?,
        plan: PlanNo(0),
    };
    Ok(entry)
}

impl Names {
    /// Takes an entry that is let go. An `Err` is want of memory.
    fn mount_first(&mut self, entry: Entry) -> Result<(), AllocError>
        requires { fits entry ≡ true }
        ensures { OnOk result (self.new.names ≡ taken entry self.old.names) }
    {
        self.take(&entry)
    }

    /// The names over a fresh journal: `/` alone, mounted in store 1 under the root names, and both next numbers 1.
    ///
    /// An `Err` is want of memory.
    pub fn fresh(alloc: Global, setup: &Setup) -> Result<Names, AllocError>
        requires { is_setup setup.now ≡ true }
        ensures { IfOk result (λ n. n.names ≡ fresh_names setup.now) }
    {
        let mut names = Names::new(alloc)?;
        names.mount_first(root_mount(alloc, setup)?)?;
        Ok(names)
    }
}
