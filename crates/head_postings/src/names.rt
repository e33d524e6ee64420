//! The slots of each label, by name and then by value.

ghost use Rattle.std.specs.Prelude.{◌≡◌, ◌+◌, ◌-◌, ◌<◌, ◌≤◌, ◌++◌, ◌∷◌, [], ℕ, true, false, List, length, take, if◌then◌else◌, IfOk, OnOk, OnErr};
ghost use Rattle.wal_record.specs.Labels.{same_label, same_text};
ghost use Rattle.head_postings.specs.Given.{given};
ghost use Rattle.head_postings.specs.Postings.{holds, label, listed, slots_of};
ghost use Rattle.head_postings.specs.Room.{room_of};
ghost use Rattle.head_postings.specs.Slots.{IsAscending, IsUnion};

use crate::values::Values;
use hash_seed::HashSeed;
use indexmap::IndexMap;
use series_references::Slot;
use std::alloc::{AllocError, Global};
use std::marker::Model;
use wal_record::LabelSet;

/// For each name, the slots of each value.
#[derive(Debug, Drop)]
pub(crate) struct Names {
    values: IndexMap<Vec<u8>, Values, HashSeed>,
}

impl Model for Names {
    ghost use Rattle.std.specs.Prelude.{map};
    ghost use Rattle.head_postings.specs.Placed.{NamedPlaced};

    ghost Value = { NamedPlaced };

    ghost view = { λ n. record {
      slots = map (λ e. (e.0.items, e.1.slots)) n.values.entries;
      rooms = map (λ e. (e.0.items, e.1.rooms)) n.values.entries;
    } };
}

impl Names {
    // Makes a map of no names, with hashes by the seed.
    pub(crate) fn new(alloc: Global, seed: HashSeed) -> Names
        ensures { result.slots ≡ [] }
    {
        Names {
            values: IndexMap::with_hasher(alloc, seed),
        }
    }

    // Returns the seed of the hashes.
    pub(crate) fn seed(&self) -> HashSeed {
        *self.values.hasher()
    }

    // Borrows the slots of a label.
    pub(crate) fn find(&self, name: &[u8], value: &[u8]) -> &[Slot]
        ensures { result.now ≡ slots_of self.now.slots name.now value.now }
    {
        match self.values.get(name) {
            Some(values) => values.find(value),
            None => &[],
        }
    }

    // Appends a slot to those of a label. If out of memory, the slots of all labels are unchanged.
    fn push(&mut self, name: &[u8], value: &[u8], slot: Slot) -> Result<(), AllocError>
        ensures ok { OnOk result ((n v : List ℕ) → slots_of self.new.slots n v ≡ slots_of self.old.slots n v ++ (if same_label (label n v) (label name.now value.now) then slot ∷ [] else [])) }
        ensures err { OnErr result ((n v : List ℕ) → slots_of self.new.slots n v ≡ slots_of self.old.slots n v) }
    {
        match self.values.get_index_of(name) {
            Some(index) => {
                self.values[index].push(value, slot)?;
                Ok(())
            }
            None => {
                let alloc = *self.values.allocator();
                let key = Vec::from_slice(alloc, name)?;
                let mut values = Values::new(alloc, self.seed());
                values.push(value, slot)?;
                values.trim();
                self.values.insert(key, values)?;
                Ok(())
            }
        }
    }

    // Removes the last slot of a label.
    fn pop(&mut self, name: &[u8], value: &[u8])
        ensures { (n v : List ℕ) → slots_of self.new.slots n v ≡ (if same_label (label n v) (label name.now value.now)
            then take (length (slots_of self.old.slots n v) - 1) (slots_of self.old.slots n v) else slots_of self.old.slots n v) }
    {
        match self.values.get_index_of(name) {
            Some(index) => self.values[index].pop(value),
            None => {}
        }
    }

    // Removes the last slot of each of the first `many` labels.
    fn pop_each(&mut self, labels: &LabelSet, many: usize)
        requires { many ≤ length labels.now }
        ensures { (s : ℕ) (n v before : List ℕ) → slots_of self.old.slots n v ≡ before ++ given s (take many labels.now) n v → slots_of self.new.slots n v ≡ before }
    {
        let mut left = many;
        while left > 0 {
            left -= 1;
            let (name, value) = labels.pair(left);
            self.pop(name, value);
        }
    }

    // Appends a slot to those of each label of a set. If out of memory, the slots of all labels are unchanged.
    pub(crate) fn add(&mut self, slot: Slot, labels: &LabelSet) -> Result<(), AllocError>
        ensures ok { OnOk result ((n v : List ℕ) → slots_of self.new.slots n v ≡ slots_of self.old.slots n v ++ (if holds labels.now n v then slot ∷ [] else [])) }
        ensures err { OnErr result ((n v : List ℕ) → slots_of self.new.slots n v ≡ slots_of self.old.slots n v) }
        ensures named { (v : List ℕ) → holds labels.now [] v ≡ false }
    {
        for i in 0..labels.len() {
            let (name, value) = labels.pair(i);
            match self.push(name, value, slot) {
                Ok(()) => {}
                Err(error) => {
                    self.pop_each(labels, i);
                    return Err(error);
                }
            }
        }
        Ok(())
    }

    // Allocates memory for this many more slots of a label. The slots are unchanged; a label may be added that has none.
    fn make_room(&mut self, name: &[u8], value: &[u8], more: usize) -> Result<(), AllocError>
        ensures same { (n v : List ℕ) → slots_of self.new.slots n v ≡ slots_of self.old.slots n v }
        ensures room { OnOk result (more ≤ room_of self.new.rooms name.now value.now) }
        ensures kept { (n v : List ℕ) → room_of self.old.rooms n v ≤ room_of self.new.rooms n v }
    {
        match self.values.get_index_of(name) {
            Some(index) => {
                self.values[index].make_room(value, more)?;
                Ok(())
            }
            None => {
                let alloc = *self.values.allocator();
                let key = Vec::from_slice(alloc, name)?;
                let mut values = Values::new(alloc, self.seed());
                values.make_room(value, more)?;
                values.trim();
                self.values.insert(key, values)?;
                Ok(())
            }
        }
    }

    // Appends a slot to those of a label. The label's list must have room for it. Allocates nothing.
    fn push_ready(&mut self, name: &[u8], value: &[u8], slot: Slot)
        requires { 0 < room_of self.old.rooms name.now value.now }
        ensures slots { (n v : List ℕ) → slots_of self.new.slots n v ≡ slots_of self.old.slots n v ++ (if same_label (label n v) (label name.now value.now) then slot ∷ [] else []) }
        ensures left { (n v : List ℕ) → room_of self.old.rooms n v ≤ room_of self.new.rooms n v + (if same_label (label n v) (label name.now value.now) then 1 else 0) }
    {
        match self.values.get_index_of(name) {
            Some(index) => self.values[index].push_ready(value, slot),
            None => unreachable!(),
        }
    }

    // Allocates memory at each label of a set, for as many more slots as `these` have at that label.
    pub(crate) fn reserve(&mut self, these: &Names, labels: &LabelSet) -> Result<(), AllocError>
        ensures same { (n v : List ℕ) → slots_of self.new.slots n v ≡ slots_of self.old.slots n v }
        ensures room { OnOk result ((n v : List ℕ) → holds labels.now n v ≡ true → length (slots_of these.now.slots n v) ≤ room_of self.new.rooms n v) }
        ensures kept { (n v : List ℕ) → room_of self.old.rooms n v ≤ room_of self.new.rooms n v }
    {
        for i in 0..labels.len() {
            let (name, value) = labels.pair(i);
            self.make_room(name, value, these.find(name, value).len())?;
        }
        Ok(())
    }

    // Appends a slot to those of each label of a set. The labels' lists must have room for it. Allocates nothing.
    pub(crate) fn add_ready(&mut self, slot: Slot, labels: &LabelSet)
        requires { (n v : List ℕ) → (if holds labels.now n v then 1 else 0) ≤ room_of self.old.rooms n v }
        ensures slots { (n v : List ℕ) → slots_of self.new.slots n v ≡ slots_of self.old.slots n v ++ (if holds labels.now n v then slot ∷ [] else []) }
        ensures left { (n v : List ℕ) → room_of self.old.rooms n v ≤ room_of self.new.rooms n v + (if holds labels.now n v then 1 else 0) }
        ensures named { (v : List ℕ) → holds labels.now [] v ≡ false }
    {
        for i in 0..labels.len() {
            let (name, value) = labels.pair(i);
            self.push_ready(name, value, slot);
        }
    }

    // Adds the slots of one name, as a union for each value.
    fn absorb(&mut self, name: Vec<u8>, values: Values) -> Result<(), AllocError>
        requires these { (n v : List ℕ) → IsAscending (slots_of self.old.slots n v) }
        requires those { (v : List ℕ) → IsAscending (listed values.slots v) }
        ensures { OnOk result ((n v : List ℕ) → IsUnion (slots_of self.old.slots n v) (if same_text n name.items then listed values.slots v else []) (slots_of self.new.slots n v)) }
    {
        match self.values.get_index_of(name.as_slice()) {
            Some(index) => {
                self.values[index].merge(values)?;
                Ok(())
            }
            None => {
                self.values.insert(name, values)?;
                Ok(())
            }
        }
    }

    // Makes the union with another map, label by label.
    pub(crate) fn merge(&mut self, other: Names) -> Result<(), AllocError>
        requires these { (n v : List ℕ) → IsAscending (slots_of self.old.slots n v) }
        requires those { (n v : List ℕ) → IsAscending (slots_of other.slots n v) }
        ensures { OnOk result ((n v : List ℕ) → IsUnion (slots_of self.old.slots n v) (slots_of other.slots n v) (slots_of self.new.slots n v)) }
    {
        let mut values = other.values;
        while let Some((name, more)) = values.pop() {
            self.absorb(name, more)?;
        }
        Ok(())
    }

    // Copies the map. Returns an error if out of memory.
    pub(crate) fn copy(&self) -> Result<Names, AllocError>
        ensures { IfOk result (λ copy. copy.slots ≡ self.now.slots) }
    {
        let alloc = *self.values.allocator();
        let mut values = IndexMap::with_hasher(alloc, self.seed());
        values.reserve(self.values.len())?;
        for i in 0..self.values.len() {
            match self.values.get_index(i) {
                Some((name, old)) => {
                    let name = Vec::from_slice(alloc, name)?;
                    values.insert(name, old.copy()?)?;
                }
                None => unreachable!(),
            }
        }
        Ok(Names { values })
    }
}
