//! Distinct lists of numbers, which a map finds.

ghost use Rattle.std.specs.Prelude.{◌≡◌, ◌<◌, ◌++◌, ◌∷◌, ◌↔◌, [], ℕ, length, IsTrue, OnOk};
ghost use Rattle.rx_term.specs.Language.{Has};
ghost use Rattle.rx_joint.specs.Lists.{list_at, AreApart};

use indexmap::IndexSet;
use rx_term::OutOfMemory;
use std::alloc::Global;
use std::marker::Model;

/// Distinct lists of numbers, in the order in which they came.
#[derive(Drop)]
pub struct Lists {
    lists: IndexSet<Vec<u64>>,
}

/// Contracts see the lists.
impl Model for Lists {
    ghost use Rattle.std.specs.Prelude.{List, ℕ, map};
    ghost use Rattle.rx_joint.specs.Lists.{AreApart};

    ghost Value = { List (List ℕ) };

    ghost view = { λ s. map (λ v. v.items) s.lists.keys };

    ghost invariant = { λ s. AreApart (map (λ v. v.items) s.lists.keys) };
}

impl Lists {
    /// No list.
    pub fn new(alloc: Global) -> Lists
        ensures { result ≡ [] }
    {
        Lists {
            lists: IndexSet::new(alloc),
        }
    }

    /// How many lists there are.
    pub fn len(&self) -> usize
        ensures { result ≡ length self.now }
    {
        self.lists.len()
    }

    /// The list at a place, counted from 0.
    pub fn at(&self, place: usize) -> &[u64]
        requires { place < length self.now }
        ensures { result.now ≡ list_at self.now place }
    {
        self.lists.as_slice()[place].as_slice()
    }

    /// Whether the list is there.
    pub fn has(&self, list: &[u64]) -> bool
        ensures { IsTrue result ↔ Has self.now list.now }
    {
        self.lists.contains(list)
    }

    /// Adds a list at the end that isn't there yet.
    pub fn add(&mut self, list: Vec<u64>) -> Result<(), OutOfMemory>
        requires { Has self.old list.items → ⊥ }
        ensures { OnOk result (self.new ≡ self.old ++ list.items ∷ []) }
    {
        self.lists.insert(list)?;
        Ok(())
    }

    /// The lists are distinct.
    pub fn known(&self)
        ensures { AreApart self.now }
    {
        let _ = &self.lists;
    }
}
