//! What one actor has under its labels.

ghost use Rattle.std.specs.Prelude.{◌≡◌, ◌+◌, ℕ, List, Option, Some, None, true, is_some, if◌then◌else◌, option_map, IfSome, OnSome, IfNone, OnOk, option_copied};
ghost use Rattle.slab.specs.Slab.{get};
ghost use Rattle.fs_model.specs.Words.{name_eq};
ghost use Rattle.cluster_core.specs.LabelSlots.{row_in};
ghost use Rattle.cluster_core.specs.LabelsView.{hand_in, count, HasRoom};

#[cfg(test)]
mod tests;

use fs_model::label::Label;
use slab::Slab;
use std::alloc::{AllocError, Global};
use std::marker::Model;

/// A label with what is under it.
#[derive(Drop)]
pub struct Labelled<T> {
    pub label: Label,
    pub hand: T,
}

/// What one actor has under its labels. No label is there twice. A contract sees the hand under each label, how
/// many there are, and whether one more fits with no memory.
#[derive(Drop)]
pub struct Labels<T> {
    rows: Slab<Labelled<T>>,
}

impl<T> Model for Labels<T> {
    ghost use Rattle.cluster_core.specs.LabelsView.{LabelsView, labels_code};

    ghost Value = { LabelsView T };

    ghost coded = { labels_code T.code };

    ghost use Rattle.cluster_core.specs.LabelSlots.{labels_of, IsOnce};

    ghost view = { λ s. labels_of s.rows };

    ghost invariant = { λ s. IsOnce s.rows.slots };
}

/// The key of the row with this label.
fn key_of<T>(rows: &Slab<Labelled<T>>, label: &Label) -> Option<usize>
    ensures found { IfSome result (λ key. get rows.now key ≡ row_in rows.now.slots label.now) }
    ensures there { is_some result ≡ is_some (row_in rows.now.slots label.now) }
{
    for (key, row) in rows.iter() {
        if row.label == *label {
            return Some(key);
        }
    }
    None
}

impl<T> Labels<T> {
    /// No label.
    pub fn new(alloc: Global) -> Labels<T>
        ensures none { (l : List ℕ) → hand_in result l ≡ None }
        ensures count { count result ≡ 0 }
    {
        Labels {
            rows: Slab::new(alloc),
        }
    }

    /// How many labels there are.
    pub fn len(&self) -> usize
        ensures { result ≡ count self.now }
    {
        self.rows.len()
    }

    /// Whether the label is there.
    pub fn contains(&self, label: &Label) -> bool
        ensures { result ≡ is_some (hand_in self.now label.now) }
    {
        key_of(&self.rows, label).is_some()
    }

    /// The hand under the label; `None` exactly where the label isn't there.
    pub fn get(&self, label: &Label) -> Option<&T>
        ensures { option_copied result ≡ hand_in self.now label.now }
    {
        match key_of(&self.rows, label) {
            None => None,
            Some(key) => Some(&self.rows[key].hand),
        }
    }

    /// Makes room for one label more.
    ///
    /// An `Err` is want of memory.
    pub fn reserve(&mut self) -> Result<(), AllocError>
        ensures room { OnOk result (HasRoom self.new) }

        // Whatever the result, each label has what it had.
        ensures hands { (l : List ℕ) → hand_in self.new l ≡ hand_in self.old l }
        ensures count { count self.new ≡ count self.old }
    {
        self.rows.reserve(1)
    }

    /// Adds a label that isn't there, where there is room.
    pub fn insert(&mut self, label: Label, hand: T)
        requires absent { hand_in self.old label ≡ None }
        requires room { HasRoom self.old }
        ensures hands { (l : List ℕ) → hand_in self.new l ≡ (if name_eq label l then Some hand else hand_in self.old l) }
        ensures count { count self.new ≡ count self.old + 1 }
    {
        self.put(Labelled { label, hand });
    }

    /// Puts a row back that `take` gave: adds its label, which isn't there, where there is room.
    pub fn put(&mut self, row: Labelled<T>)
        requires absent { hand_in self.old row.label ≡ None }
        requires room { HasRoom self.old }
        ensures hands { (l : List ℕ) → hand_in self.new l ≡ (if name_eq row.label l then Some row.hand else hand_in self.old l) }
        ensures count { count self.new ≡ count self.old + 1 }
    {
        self.rows.insert_reserved(row);
    }

    /// Takes the row of the label out; `None` exactly where the label isn't there.
    pub fn take(&mut self, label: &Label) -> Option<Labelled<T>>
        ensures hand { option_map (λ row. row.hand) result ≡ hand_in self.old label.now }
        ensures label { IfSome result (λ row. row.label ≡ label.now) }
        ensures hands { (l : List ℕ) → hand_in self.new l ≡ (if name_eq label.now l then None else hand_in self.old l) }

        // Where it was there, there is one label fewer, and the row may be put back.
        ensures count { OnSome result (count self.old ≡ count self.new + 1) }
        ensures gone { IfSome result (λ row. hand_in self.new row.label ≡ None) }
        ensures room { OnSome result (HasRoom self.new) }

        // Where it wasn't, nothing changes.
        ensures absent { IfNone result (self.new ≡ self.old) }
    {
        match key_of(&self.rows, label) {
            None => None,
            Some(key) => Some(self.rows.remove(key)),
        }
    }
}
