//! The slots of each value of a name.

ghost use Rattle.std.specs.Prelude.{◌≡◌, ◌+◌, ◌-◌, ◌<◌, ◌≤◌, ◌++◌, ◌∷◌, [], ℕ, List, length, take, if◌then◌else◌, IfOk, OnOk, OnErr};
ghost use Rattle.wal_record.specs.Labels.{same_text};
ghost use Rattle.head_postings.specs.Postings.{listed};
ghost use Rattle.head_postings.specs.Slots.{IsAscending, IsUnion};

use crate::union::united;
use hash_seed::HashSeed;
use indexmap::IndexMap;
use series_references::Slot;
use std::alloc::{AllocError, Global};
use std::marker::Model;

/// For each value of one name, its slots.
#[derive(Debug, Drop)]
pub(crate) struct Values {
    lists: IndexMap<Vec<u8>, Vec<Slot>, HashSeed>,
}

impl Model for Values {
    ghost use Rattle.std.specs.Prelude.{◌-◌, map};
    ghost use Rattle.std.specs.Vec.{vec_capacity, vec_len};
    ghost use Rattle.head_postings.specs.Placed.{places, Placed};

    ghost Value = { Placed };

    ghost view = { λ v. record {
      slots = map (λ e. (e.0.items, e.1.items)) v.lists.entries;
      rooms = map (λ e. (e.0.items, places (vec_capacity e.1 - vec_len e.1))) v.lists.entries;
    } };
}

impl Values {
    // Makes a map of no values, with hashes by the seed.
    pub(crate) fn new(alloc: Global, seed: HashSeed) -> Values
        ensures { result.slots ≡ [] }
    {
        Values {
            lists: IndexMap::with_hasher(alloc, seed),
        }
    }

    // Frees the memory for further values. A map allocates for nine at once, and a name may have only one.
    pub(crate) fn trim(&mut self)
        ensures { self.new ≡ self.old }
    {
        self.lists.shrink_to_fit();
    }

    // Borrows the slots of a value.
    pub(crate) fn find(&self, value: &[u8]) -> &[Slot]
        ensures { result.now ≡ listed self.now.slots value.now }
    {
        match self.lists.get(value) {
            Some(slots) => slots.as_slice(),
            None => &[],
        }
    }

    // Appends a slot to those of a value. If out of memory, the slots of all values are unchanged.
    pub(crate) fn push(&mut self, value: &[u8], slot: Slot) -> Result<(), AllocError>
        ensures ok { OnOk result ((v : List ℕ) → listed self.new.slots v ≡ listed self.old.slots v ++ (if same_text v value.now then slot ∷ [] else [])) }
        ensures err { OnErr result ((v : List ℕ) → listed self.new.slots v ≡ listed self.old.slots v) }
    {
        match self.lists.get_index_of(value) {
            Some(index) => {
                self.lists[index].push(slot)?;
                Ok(())
            }
            None => {
                let alloc = *self.lists.allocator();
                let key = Vec::from_slice(alloc, value)?;
                let mut slots = Vec::new(alloc);
                slots.push(slot)?;
                self.lists.insert(key, slots)?;
                Ok(())
            }
        }
    }

    // Removes the last slot of a value.
    pub(crate) fn pop(&mut self, value: &[u8])
        ensures { (v : List ℕ) → listed self.new.slots v ≡ (if same_text v value.now then take (length (listed self.old.slots v) - 1) (listed self.old.slots v) else listed self.old.slots v) }
    {
        match self.lists.get_index_of(value) {
            Some(index) => {
                let _last = self.lists[index].pop();
            }
            None => {}
        }
    }

    // Allocates memory for this many more slots of a value. The slots are unchanged; a value may be added that has none.
    pub(crate) fn make_room(&mut self, value: &[u8], more: usize) -> Result<(), AllocError>
        ensures same { (v : List ℕ) → listed self.new.slots v ≡ listed self.old.slots v }
        ensures room { OnOk result (more ≤ length (listed self.new.rooms value.now)) }
        ensures kept { (v : List ℕ) → length (listed self.old.rooms v) ≤ length (listed self.new.rooms v) }
    {
        match self.lists.get_index_of(value) {
            Some(index) => {
                self.lists[index].reserve(more)?;
                Ok(())
            }
            None => {
                let alloc = *self.lists.allocator();
                let key = Vec::from_slice(alloc, value)?;
                let slots = Vec::with_capacity(alloc, more)?;
                self.lists.insert(key, slots)?;
                Ok(())
            }
        }
    }

    // Appends a slot to those of a value. The value's list must have room for it. Allocates nothing.
    pub(crate) fn push_ready(&mut self, value: &[u8], slot: Slot)
        requires { 0 < length (listed self.old.rooms value.now) }
        ensures slots { (v : List ℕ) → listed self.new.slots v ≡ listed self.old.slots v ++ (if same_text v value.now then slot ∷ [] else []) }
        ensures left { (v : List ℕ) → length (listed self.old.rooms v) ≤ length (listed self.new.rooms v) + (if same_text v value.now then 1 else 0) }
    {
        match self.lists.get_index_of(value) {
            Some(index) => self.lists[index].push_reserved(slot),
            None => unreachable!(),
        }
    }

    // Adds the slots of one value, as a union.
    fn absorb(&mut self, value: Vec<u8>, slots: Vec<Slot>) -> Result<(), AllocError>
        requires these { (v : List ℕ) → IsAscending (listed self.old.slots v) }
        requires those { IsAscending slots.items }
        ensures { OnOk result ((v : List ℕ) → IsUnion (listed self.old.slots v) (if same_text v value.items then slots.items else []) (listed self.new.slots v)) }
    {
        match self.lists.get_index_of(value.as_slice()) {
            Some(index) => {
                let alloc = *self.lists.allocator();
                let union = united(alloc, &self.lists[index], &slots)?;
                self.lists[index] = union;
                Ok(())
            }
            None => {
                self.lists.insert(value, slots)?;
                Ok(())
            }
        }
    }

    // Makes the union with another map, value by value.
    pub(crate) fn merge(&mut self, other: Values) -> Result<(), AllocError>
        requires these { (v : List ℕ) → IsAscending (listed self.old.slots v) }
        requires those { (v : List ℕ) → IsAscending (listed other.slots v) }
        ensures { OnOk result ((v : List ℕ) → IsUnion (listed self.old.slots v) (listed other.slots v) (listed self.new.slots v)) }
    {
        let mut lists = other.lists;
        while let Some((value, slots)) = lists.pop() {
            self.absorb(value, slots)?;
        }
        Ok(())
    }

    // Copies the map. Returns an error if out of memory.
    pub(crate) fn copy(&self) -> Result<Values, AllocError>
        ensures { IfOk result (λ copy. copy.slots ≡ self.now.slots) }
    {
        let alloc = *self.lists.allocator();
        let mut lists = IndexMap::with_hasher(alloc, *self.lists.hasher());
        lists.reserve(self.lists.len())?;
        for i in 0..self.lists.len() {
            match self.lists.get_index(i) {
                Some((value, slots)) => {
                    let value = Vec::from_slice(alloc, value)?;
                    let slots = Vec::from_slice(alloc, slots)?;
                    lists.insert(value, slots)?;
                }
                None => unreachable!(),
            }
        }
        Ok(Values { lists })
    }
}
