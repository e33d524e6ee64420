//! The slots of references.

ghost use Rattle.std.specs.Prelude.{◌≡◌, ◌<◌, ◌≤◌, ◌+◌, ◌^◌, ℕ, Some, None, true, false, length, IfOk, OnOk};
ghost use Rattle.series_references.specs.ReferenceSlots.{high_one, low_end, slot_of, HasRoom};
ghost use Rattle.series_references.specs.Slots.{IsWith};

use crate::maps::copied;
use hash_seed::HashSeed;
use indexmap::IndexMap;
use std::alloc::{AllocError, Global};
use std::marker::Model;

/// References below this one are small: they have a place in a list, and the others are keys of a map.
pub const LOW_END: u64 = 4_194_304;

/// The slots of references: those of small references in a list, the others in a map.
#[derive(Debug)]
pub(crate) struct ReferenceSlots {
    low: Vec<u32>,
    high: IndexMap<u64, u32, HashSeed>,
}

// Written out so that the proof of a function that drops these has one call, and not a copy of this.
impl Drop for ReferenceSlots {
    fn drop(self) {
        let ReferenceSlots {
            low: _low,
            high: _high,
        } = self;
    }
}

impl Model for ReferenceSlots {
    ghost use Rattle.std.specs.Prelude.{length, ◌≤◌};
    ghost use Rattle.indexmap.specs.IndexMap.{spare};
    ghost use Rattle.series_references.specs.ReferenceSlots.{ReferenceSlotsValue, low_end};

    ghost Value = { ReferenceSlotsValue };

    ghost invariant = { λ o. length o.low.items ≤ low_end };

    ghost view = { λ o. record { low = o.low.items; high = o.high.entries; room = spare o.high } };
}

impl ReferenceSlots {
    // Returns the slots of no references.
    pub(crate) fn new(alloc: Global, seed: HashSeed) -> ReferenceSlots
        ensures { (r : ℕ) → slot_of result r ≡ None }
    {
        ReferenceSlots {
            low: Vec::new(alloc),
            high: IndexMap::with_hasher(alloc, seed),
        }
    }

    // Returns the slot of a reference, or `None` if it has none.
    pub(crate) fn find(&self, reference: u64) -> Option<u32>
        ensures { result ≡ slot_of self.now reference }
    {
        if reference < LOW_END {
            if reference < self.low.len() as u64 {
                let after = self.low[reference as usize];
                if after == 0 { None } else { Some(after - 1) }
            } else {
                None
            }
        } else {
            self.high.get(&reference).copied()
        }
    }

    // Returns whether a reference has this slot.
    pub(crate) fn has(&self, reference: u64, slot: u32) -> bool
        ensures yes { result ≡ true → slot_of self.now reference ≡ Some slot }
        ensures no { result ≡ false → slot_of self.now reference ≡ Some slot → ⊥ }
    {
        match self.find(reference) {
            Some(found) => found == slot,
            None => false,
        }
    }

    // Makes room for the slot of a reference.
    pub(crate) fn reserve(&mut self, reference: u64) -> Result<(), AllocError>
        ensures same { (r : ℕ) → slot_of self.new r ≡ slot_of self.old r }
        ensures room { OnOk result (HasRoom self.new reference) }
    {
        if reference < LOW_END {
            let many = reference as usize + 1;
            if self.low.len() < many {
                self.low.resize(many, 0)?;
            }
            Ok(())
        } else {
            self.high.reserve(1)
        }
    }

    // Makes a place for the slot of a small reference, and room for this many others.
    pub(crate) fn make_room(&mut self, reference: u64, many: usize) -> Result<(), AllocError>
        ensures same { (r : ℕ) → slot_of self.new r ≡ slot_of self.old r }
        ensures place { OnOk result (reference < low_end → reference < length self.new.low) }
        ensures places { length self.old.low ≤ length self.new.low }
        ensures room { OnOk result (many ≤ self.new.room) }
    {
        if reference < LOW_END {
            let end = reference as usize + 1;
            if self.low.len() < end {
                self.low.resize(end, 0)?;
            }
        }
        self.high.reserve(many)
    }

    // Sets the slot of a reference.
    pub(crate) fn set(&mut self, reference: u64, slot: u32)
        requires room { HasRoom self.old reference }
        requires small { slot + 1 < 2 ^ 32 }
        ensures with { IsWith (slot_of self.old) reference slot (slot_of self.new) }
        ensures places { length self.new.low ≡ length self.old.low }
        ensures left { self.old.room ≤ self.new.room + high_one reference }
    {
        if reference < LOW_END {
            self.low[reference as usize] = slot + 1;
        } else {
            self.high.insert(reference, slot).unwrap();
        }
    }

    // Returns a copy of the slots.
    pub(crate) fn copy(&self) -> Result<ReferenceSlots, AllocError>
        ensures { IfOk result (λ copy. (r : ℕ) → slot_of copy r ≡ slot_of self.now r) }
    {
        Ok(ReferenceSlots {
            low: Vec::from_slice(*self.low.allocator(), &self.low)?,
            high: copied(&self.high)?,
        })
    }
}
