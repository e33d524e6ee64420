//! The bindings of a window of the log, which are all made before the samples and deletions of the window are resolved.

ghost use Rattle.std.specs.Prelude.{◌≡◌, ◌↔◌, ◌<◌, ◌≤◌, ◌-◌, ◌++◌, ◌∷◌, [], ℕ, suc, true, Some, length, map, slice_get, IfSome, IsTrue, OnOk};
ghost use Rattle.head_series.specs.Table.{slot_at};
ghost use Rattle.head_resolver.specs.Changes.{slot_before, AreBelow, Change};
ghost use Rattle.head_resolver.specs.Links.{last_of, AreInOrder};

use hash_seed::HashSeed;
use head_series::{SeriesTable, Slot};
use indexmap::IndexMap;
use std::alloc::{AllocError, Global};
use std::marker::Model;

// A reference that was bound at a place of a window, and the slot that it named before. Also two changes before it of the same reference, by
// their numbers from 1, or 0 if there is none: the last one, and one to jump to, so that few steps lead to any of them; and how many changes
// of the reference there are up to this one.
#[derive(Clone, Copy, Debug)]
struct ChangeEntry {
    reference: u64,
    place: u64,
    before: Option<Slot>,
    previous: usize,
    jump: usize,
    depth: usize,
}

/// What the bindings of a window of the log change: for each, in order, the reference, the place in the window, and the slot that the
/// reference named before. Contracts see a list of changes.
#[derive(Debug)]
pub struct Changes {
    notes: Vec<ChangeEntry>,
    lasts: IndexMap<u64, usize, HashSeed>,
    // false only if a change was added at a place before that of an earlier one
    in_order: bool,
}

// Written out so that the proof of a function that drops changes has one call, and not a copy of this.
impl Drop for Changes {
    fn drop(self) {
        let Changes {
            notes: _notes,
            lasts: _lasts,
            in_order: _,
        } = self;
    }
}

impl Model for Changes {
    ghost use Rattle.std.specs.Prelude.{List, map};
    ghost use Rattle.head_resolver.specs.Changes.{Change};
    ghost use Rattle.head_resolver.specs.Links.{AreLinked};

    ghost Value = { List Change };

    ghost view = { λ c. map (λ n. record { reference = n.reference; place = n.place; before = n.before }) c.notes.items };

    ghost invariant = { λ c. AreLinked (map (λ n. record { reference = n.reference; place = n.place; before = n.before }) c.notes.items) (map (λ n. n.previous) c.notes.items) (map (λ n. n.jump) c.notes.items) c.lasts.entries c.in_order };
}

impl Changes {
    /// Returns no changes, which are found by hashes of the seed. Allocates nothing.
    pub fn new(alloc: Global, seed: HashSeed) -> Changes
        ensures { result ≡ [] }
    {
        Changes {
            notes: Vec::new(alloc),
            lasts: IndexMap::with_hasher(alloc, seed),
            in_order: true,
        }
    }

    /// Returns whether there are no changes.
    pub fn is_empty(&self) -> bool
        ensures { IsTrue result ↔ self.now ≡ [] }
    {
        self.notes.is_empty()
    }

    // Returns the number, from 1, of the last change of a reference, or 0 if there is none.
    fn last(&self, reference: u64) -> usize
        ensures { result ≡ last_of self.now reference }
    {
        if self.notes.is_empty() {
            return 0;
        }
        match self.lasts.get(&reference) {
            Some(last) => *last,
            None => 0,
        }
    }

    // Returns how many changes of a reference there are up to the one of this number, and 0 for none.
    fn depth(&self, number: usize) -> usize {
        match self.notes.get(number.wrapping_sub(1)) {
            Some(note) => note.depth,
            None => 0,
        }
    }

    // Returns the number of the change that the next one of a reference is to jump to, where its last one is `previous`.
    fn jump_from(&self, previous: usize) -> usize
        requires { previous ≤ length self.now }
        ensures none { previous ≡ 0 → result ≡ 0 }
        ensures same { (i j : ℕ) → previous ≡ suc i → result ≡ suc j → slice_get (map (λ c. c.reference) self.now) j ≡ slice_get (map (λ c. c.reference) self.now) i }
    {
        if previous == 0 {
            return 0;
        }
        let last = self.notes[previous - 1];
        if last.jump == 0 {
            return previous;
        }
        let middle = self.notes[last.jump - 1];
        let near = last.depth.wrapping_sub(middle.depth);
        let far = middle.depth.wrapping_sub(self.depth(middle.jump));
        if near == far { middle.jump } else { previous }
    }

    // Returns whether no change is at a place after this one.
    fn is_last(&self, place: u64) -> bool
        ensures { result ≡ true → (c : Change) → c.place ≡ place → AreInOrder (self.now ++ c ∷ []) }
    {
        if !self.in_order {
            return false;
        }
        match self.notes.last() {
            Some(note) => note.place <= place,
            None => true,
        }
    }

    // Adds a change after the others.
    pub(crate) fn push(
        &mut self,
        reference: u64,
        place: u64,
        before: Option<Slot>,
    ) -> Result<(), AllocError>
        ensures { OnOk result (self.new ≡ self.old ++ (record { reference = reference; place = place; before = before }) ∷ []) }
    {
        let previous = self.last(reference);
        let jump = self.jump_from(previous);
        let depth = self.depth(previous).wrapping_add(1);
        let in_order = self.is_last(place);
        self.notes.reserve(1)?;
        self.lasts.insert(reference, self.notes.len() + 1)?;
        self.notes.push_reserved(ChangeEntry {
            reference,
            place,
            before,
            previous,
            jump,
            depth,
        });
        self.in_order = in_order;
        Ok(())
    }

    // Returns whether the change of this number, if there is one, is at a place or after it.
    fn is_at(&self, number: usize, place: u64) -> bool
        ensures { result ≡ true → (d : Change) × (0 < number) × (slice_get self.now (number - 1) ≡ Some d) × (place ≤ d.place) }
    {
        if number == 0 {
            return false;
        }
        match self.notes.get(number - 1) {
            Some(note) => place <= note.place,
            None => false,
        }
    }

    // Returns the slot of a reference at a place of the window, whose bindings were all made in the table.
    pub(crate) fn slot_before(
        &self,
        table: &SeriesTable,
        place: u64,
        reference: u64,
    ) -> Option<Slot>
        ensures slot { result ≡ slot_before self.now (slot_at table.now) place reference }
        ensures within { (n : ℕ) → length table.now.series ≤ n → AreBelow n self.now → IfSome result (λ slot. slot < n) }
    {
        let mut found = table.find(reference);
        let mut next = self.last(reference);
        while next != 0 {
            let note = self.notes[next - 1];
            if note.place < place {
                if self.in_order {
                    return found;
                }
                next = note.previous;
            } else if self.is_at(note.jump, place) {
                next = note.jump;
            } else {
                found = note.before;
                next = note.previous;
            }
        }
        found
    }
}
