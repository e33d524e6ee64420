//! The slots of references, and the least reference of each slot.

ghost use Rattle.std.specs.Prelude.{◌≡◌, ◌<◌, ◌≤◌, ◌+◌, ◌^◌, ℕ, Some, None, true, length, IfOk, IfSome, OnOk, false};
ghost use Rattle.series_references.specs.ReferenceSlots.{high_one, low_end, slot_of};
ghost use Rattle.series_references.specs.Slots.{IsWith, IsLeast};

use crate::candidates::Candidates;
use crate::heap::Heap;
use crate::reference_slots::ReferenceSlots;
use hash_seed::HashSeed;
use std::alloc::{AllocError, Global};
use std::marker::Model;

/// The slots of references, and for each series the references that were bound to it, except those that are known to be bound to another
/// now; its least reference is found among these. Contracts see the slots, the number of series, and how many more can be added without
/// allocating.
#[derive(Debug)]
pub struct References {
    slots: ReferenceSlots,
    candidates: Vec<Candidates>,
}

// Written out so that the proof of a function that drops these has one call, and not a copy of this.
impl Drop for References {
    fn drop(self) {
        let References {
            slots: _slots,
            candidates: _candidates,
        } = self;
    }
}

impl Model for References {
    ghost use Rattle.std.specs.Prelude.{◌-◌, length};
    ghost use Rattle.std.specs.Vec.{vec_capacity, vec_len};
    ghost use Rattle.series_references.specs.ReferenceSlots.{slot_of};
    ghost use Rattle.series_references.specs.References.{ReferencesValue, AreKept};

    ghost Value = { ReferencesValue };

    ghost view = { λ o. record { slots = o.slots; series = length o.candidates.items; room = vec_capacity o.candidates - vec_len o.candidates } };

    ghost invariant = { λ o. AreKept (slot_of o.slots) o.candidates.items };
}

impl References {
    /// Returns the references of no series, which are hashed by the seed. Allocates nothing.
    pub fn new(alloc: Global, seed: HashSeed) -> References
        ensures slots { (r : ℕ) → slot_of result.slots r ≡ None }
        ensures series { result.series ≡ 0 }
    {
        References {
            slots: ReferenceSlots::new(alloc, seed),
            candidates: Vec::new(alloc),
        }
    }

    /// Returns the slot of the next series: the number of series.
    pub fn next_slot(&self) -> u32
        requires { self.now.series < 2 ^ 32 }
        ensures { result ≡ self.now.series }
    {
        self.candidates.len() as u32
    }

    /// Returns the slot of a reference, or `None` if it has none.
    pub fn find(&self, reference: u64) -> Option<u32>
        ensures slot { result ≡ slot_of self.now.slots reference }
        ensures within { IfSome result (λ slot. slot < self.now.series) }
    {
        // gives the proof the invariant, which it knows where a field is named
        let _series = self.candidates.len();
        self.slots.find(reference)
    }

    /// Returns whether a reference has this slot.
    pub fn has(&self, reference: u64, slot: u32) -> bool
        ensures yes { result ≡ true → slot_of self.now.slots reference ≡ Some slot }
        ensures no { result ≡ false → slot_of self.now.slots reference ≡ Some slot → ⊥ }
    {
        self.slots.has(reference, slot)
    }

    /// Returns the least reference that has a slot, or `None` if no reference has it.
    pub fn least(&self, slot: u32) -> Option<u64>
        requires { slot < self.now.series }
        ensures { IsLeast (λ r. slot_of self.now.slots r ≡ Some slot) result }
    {
        let least = self.candidates[slot as usize].least();
        if self.slots.has(least, slot) {
            Some(least)
        } else {
            None
        }
    }

    /// Makes room for the references of this many more series, or returns an error if out of memory. Nothing else changes.
    pub fn reserve_series(&mut self, many: usize) -> Result<(), AllocError>
        ensures slots { self.new.slots ≡ self.old.slots }
        ensures series { self.new.series ≡ self.old.series }
        ensures room { OnOk result (many ≤ self.new.room) }
    {
        self.candidates.reserve(many)
    }

    /// Makes room for the slot of a reference, or returns an error if out of memory. No slot changes.
    pub fn reserve(&mut self, reference: u64) -> Result<(), AllocError>
        ensures same { (r : ℕ) → slot_of self.new.slots r ≡ slot_of self.old.slots r }
        ensures series { self.new.series ≡ self.old.series }
        ensures left { self.new.room ≡ self.old.room }
        ensures place { OnOk result (reference < low_end → reference < length self.new.slots.low) }
        ensures high { OnOk result (high_one reference ≤ self.new.slots.room) }
    {
        // gives the proof the invariant, which it knows where a field is named
        let _series = self.candidates.len();
        self.slots.reserve(reference)
    }

    /// Makes a place for the slot of a small reference, one below [`LOW_END`](crate::LOW_END), and room for this many others, or returns
    /// an error if out of memory. No slot changes.
    pub fn make_room(&mut self, reference: u64, many: usize) -> Result<(), AllocError>
        ensures same { (r : ℕ) → slot_of self.new.slots r ≡ slot_of self.old.slots r }
        ensures series { self.new.series ≡ self.old.series }
        ensures left { self.new.room ≡ self.old.room }
        ensures place { OnOk result (reference < low_end → reference < length self.new.slots.low) }
        ensures places { length self.old.slots.low ≤ length self.new.slots.low }
        ensures room { OnOk result (many ≤ self.new.slots.room) }
    {
        // gives the proof the invariant, which it knows where a field is named
        let _series = self.candidates.len();
        self.slots.make_room(reference, many)
    }

    /// Sets the slot of a reference to that of a series, whatever slot it had. The box is one that [`Heap::boxed`] made for the reference.
    /// Allocates nothing.
    pub fn point(&mut self, reference: u64, slot: u32, node: Box<Heap>)
        requires slot { slot < self.old.series }
        requires place { reference < low_end → reference < length self.old.slots.low }
        requires high { high_one reference ≤ self.old.slots.room }
        requires small { slot + 1 < 2 ^ 32 }
        ensures with { IsWith (slot_of self.old.slots) reference slot (slot_of self.new.slots) }
        ensures series { self.new.series ≡ self.old.series }
        ensures room { self.new.room ≡ self.old.room }
        ensures places { length self.new.slots.low ≡ length self.old.slots.low }
        ensures left { self.old.slots.room ≤ self.new.slots.room + high_one reference }
    {
        let old = self.slots.find(reference);
        self.slots.set(reference, slot);
        self.candidates[slot as usize].add(reference, node);
        self.candidates[slot as usize].settle(&self.slots, slot);
        match old {
            Some(old) => self.candidates[old as usize].settle(&self.slots, old),
            None => {}
        }
    }

    /// Adds a series, whose slot is the number of series before it, and sets the slot of a reference to that slot. Allocates nothing.
    pub fn push(&mut self, reference: u64)
        requires series { 0 < self.old.room }
        requires place { reference < low_end → reference < length self.old.slots.low }
        requires high { high_one reference ≤ self.old.slots.room }
        requires small { self.old.series + 1 < 2 ^ 32 }
        ensures with { IsWith (slot_of self.old.slots) reference self.old.series (slot_of self.new.slots) }
        ensures series { self.new.series ≡ self.old.series + 1 }
        ensures room { self.old.room ≤ self.new.room + 1 }
        ensures places { length self.new.slots.low ≡ length self.old.slots.low }
        ensures left { self.old.slots.room ≤ self.new.slots.room + high_one reference }
    {
        let old = self.slots.find(reference);
        let series = self.next_slot();
        self.slots.set(reference, series);
        self.candidates.push_reserved(Candidates::new(reference));
        match old {
            Some(old) => self.candidates[old as usize].settle(&self.slots, old),
            None => {}
        }
    }

    /// Returns a copy of the references, or an error if out of memory.
    pub fn copy(&self) -> Result<References, AllocError>
        ensures slots { IfOk result (λ copy. (r : ℕ) → slot_of copy.slots r ≡ slot_of self.now.slots r) }
        ensures series { IfOk result (λ copy. copy.series ≡ self.now.series) }
    {
        let alloc = *self.candidates.allocator();
        let slots = self.slots.copy()?;
        let candidates = copied_candidates(alloc, &self.candidates)?;
        Ok(References { slots, candidates })
    }
}

// Returns copies of the references of each series.
fn copied_candidates(
    alloc: Global,
    candidates: &[Candidates],
) -> Result<Vec<Candidates>, AllocError>
    ensures { IfOk result (λ copy. copy.items ≡ candidates.now) }
{
    let mut copy = Vec::with_capacity(alloc, candidates.len())?;
    for one in candidates {
        copy.push(one.copy(alloc)?)?;
    }
    Ok(copy)
}
