//! The references of a series, for finding the least.

ghost use Rattle.std.specs.Prelude.{◌≡◌, ◌≤◌, ◌∷◌, ◌⊎◌, [], ℕ, Some, true, slice_index, IfOk};
ghost use Rattle.series_references.specs.Has.{has};
ghost use Rattle.series_references.specs.ReferenceSlots.{slot_of};

use crate::heap::{Heap, Link, copied, with, without_least};
use crate::reference_slots::ReferenceSlots;
use std::alloc::{AllocError, Global};
use std::marker::Model;
use std::mem;

/// References that were bound to a series: the least one, and the others in a heap. All that are bound to it now are among them,
/// and maybe some that were bound anew to another series since. Contracts see a list.
#[derive(Debug, Drop)]
pub(crate) struct Candidates {
    least: u64,
    others: Link,
}

impl Model for Candidates {
    ghost use Rattle.std.specs.Prelude.{List, ℕ, ◌≡◌, ◌≤◌, ◌∷◌, true};
    ghost use Rattle.series_references.specs.Has.{has};
    ghost use Rattle.series_references.specs.Heap.{IsParted};
    ghost use Rattle.series_references.specs.Links.{items_of, tree_of};

    ghost Value = { List ℕ };

    ghost view = { λ c. c.least ∷ items_of c.others };

    ghost invariant = { λ c. IsParted 0 0 (tree_of c.others) × ((r : ℕ) → has (items_of c.others) r ≡ true → c.least ≤ r) };
}

impl Candidates {
    // Returns one reference alone.
    pub(crate) fn new(reference: u64) -> Candidates
        ensures { result ≡ reference ∷ [] }
    {
        Candidates {
            least: reference,
            others: Link::Empty,
        }
    }

    // Returns the least of them.
    pub(crate) fn least(&self) -> u64
        ensures first { result ≡ slice_index self.now 0 }
        ensures least { (r : ℕ) → has self.now r ≡ true → result ≤ r }
    {
        self.least
    }

    // Adds a reference, in a box that was made for it.
    pub(crate) fn add(&mut self, reference: u64, node: Box<Heap>)
        ensures { (r : ℕ) → has self.new r ≡ has (reference ∷ self.old) r }
    {
        let least = self.least;
        if reference == least {
            return;
        }
        self.least = least.min(reference);
        let others = mem::replace(&mut self.others, Link::Empty);
        self.others = Link::Full(with(others, least.max(reference), 0, node));
    }

    // Drops those below the least that is bound to the series now. Each is dropped at most once per binding.
    pub(crate) fn settle(&mut self, slots: &ReferenceSlots, slot: u32)
        ensures kept { (r : ℕ) → slot_of slots.now r ≡ Some slot → has self.old r ≡ true → has self.new r ≡ true }
        ensures first { (slot_of slots.now (slice_index self.new 0) ≡ Some slot) ⊎ ((r : ℕ) → slot_of slots.now r ≡ Some slot → has self.new r ≡ true → ⊥) }
    {
        while !slots.has(self.least, slot) {
            match mem::replace(&mut self.others, Link::Empty) {
                Link::Empty => return,
                Link::Full(heap) => {
                    self.least = heap.least();
                    self.others = without_least(heap);
                }
            }
        }
    }

    // Returns a copy of the references.
    pub(crate) fn copy(&self, alloc: Global) -> Result<Candidates, AllocError>
        ensures { IfOk result (λ copy. copy ≡ self.now) }
    {
        Ok(Candidates {
            least: self.least,
            others: copied(alloc, &self.others)?,
        })
    }
}
