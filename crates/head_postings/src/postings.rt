//! All slots, and the slots of each label.

ghost use Rattle.std.specs.Prelude.{◌≡◌, ◌++◌, ◌∷◌, [], ℕ, List, if◌then◌else◌, IfOk, OnOk, OnErr};
ghost use Rattle.head_postings.specs.Postings.{holds, selected, AreAlike, AreMerged, IsMergeOf, IsPostingsOf, Labels};
ghost use Rattle.head_postings.specs.Room.{HasRoom, IsReserved};
ghost use Rattle.head_postings.specs.Slots.{AreBelow, IsAscending};

use crate::batch::PostingsBatch;
use crate::names::Names;
use crate::union::united;
use hash_seed::HashSeed;
use series_references::Slot;
use std::alloc::{AllocError, Global};
use std::marker::Model;
use wal_record::LabelSet;

/// Postings: for each label, a name with a value, the ascending list of the slots whose label set has it, and the list of all
/// slots, as the postings of index.md. Contracts see `Lists`: `all`, and what is `selected` at each name and value.
#[derive(Debug)]
pub struct Postings {
    names: Names,
    all: Vec<Slot>,
}

// Written out, so that a function that drops one has a call in its proof, and not a copy of this body.
impl Drop for Postings {
    fn drop(self) {
        let Postings {
            names: _names,
            all: _all,
        } = self;
    }
}

impl Model for Postings {
    ghost use Rattle.std.specs.Prelude.{◌-◌};
    ghost use Rattle.std.specs.Vec.{vec_capacity, vec_len};
    ghost use Rattle.head_postings.specs.Postings.{IsSound, Lists};

    ghost Value = { Lists };

    ghost view = { λ p. record {
      all = p.all.items;
      names = p.names.slots;
      rooms = record { all = vec_capacity p.all - vec_len p.all; names = p.names.rooms };
    } };

    ghost invariant = { λ p. IsSound (record {
      all = p.all.items;
      names = p.names.slots;
      rooms = record { all = vec_capacity p.all - vec_len p.all; names = p.names.rooms };
    }) };
}

impl Postings {
    /// Makes postings of no slots. Their hashes are those of the seed that all know.
    pub fn new(alloc: Global) -> Postings
        ensures { IsPostingsOf [] result }
    {
        Postings::with_seed(alloc, HashSeed::known())
    }

    /// Makes postings of no slots, with hashes by a seed.
    pub fn with_seed(alloc: Global, seed: HashSeed) -> Postings
        ensures { IsPostingsOf [] result }
    {
        Postings {
            names: Names::new(alloc, seed),
            all: Vec::new(alloc),
        }
    }

    /// Adds a slot with its label set. The slot must be greater than all others. Returns an error if out of memory; every list is then
    /// unchanged.
    pub fn add(&mut self, slot: Slot, labels: &LabelSet) -> Result<(), AllocError>
        requires { AreBelow slot self.old.all }
        ensures every { OnOk result (self.new.all ≡ self.old.all ++ slot ∷ []) }
        ensures each { OnOk result ((name value : List ℕ) → selected self.new name value ≡ selected self.old name value ++ (if holds labels.now name value then slot ∷ [] else [])) }
        ensures refused { OnErr result (AreAlike self.old self.new) }
        // The postings of the slots so far, and of this one.
        ensures postings { (sets : List (ℕ × Labels)) → IsPostingsOf sets self.old → OnOk result (IsPostingsOf (sets ++ (slot, labels.now) ∷ []) self.new) }
    {
        self.all.reserve(1)?;
        self.names.add(slot, labels)?;
        self.all.push_reserved(slot);
        Ok(())
    }

    /// Makes a batch of no label sets.
    pub fn batch(&self) -> PostingsBatch
        ensures { IsReserved self.now [] result }
    {
        PostingsBatch::new(*self.all.allocator(), self.names.seed())
    }

    /// Adds a label set to a batch, and allocates memory for one slot for each label set of the batch. Every list is unchanged.
    /// Returns an error if out of memory; the batch must not be used afterwards.
    pub fn make_room(
        &mut self,
        batch: &mut PostingsBatch,
        labels: &LabelSet,
    ) -> Result<(), AllocError>
        ensures kept { AreAlike self.old self.new }
        ensures room { (sets : List Labels) → IsReserved self.old sets batch.old → OnOk result (IsReserved self.new (sets ++ labels.now ∷ []) batch.new) }
    {
        batch.add(labels)?;
        self.all.reserve(batch.len())?;
        self.names.reserve(batch.names(), labels)?;
        Ok(())
    }

    /// Adds a slot with its label set, as `add` does, if the lists have room for it. Allocates nothing.
    pub fn add_ready(&mut self, slot: Slot, labels: &LabelSet)
        requires below { AreBelow slot self.old.all }
        requires room { HasRoom self.old (labels.now ∷ []) }
        ensures every { self.new.all ≡ self.old.all ++ slot ∷ [] }
        ensures each { (name value : List ℕ) → selected self.new name value ≡ selected self.old name value ++ (if holds labels.now name value then slot ∷ [] else []) }
        // The postings of the slots so far, and of this one.
        ensures postings { (sets : List (ℕ × Labels)) → IsPostingsOf sets self.old → IsPostingsOf (sets ++ (slot, labels.now) ∷ []) self.new }
        // If there was room for others after it, there still is.
        ensures left { (rest : List Labels) → HasRoom self.old (labels.now ∷ rest) → HasRoom self.new rest }
    {
        self.names.add_ready(slot, labels);
        self.all.push_reserved(slot);
    }

    /// Makes the union of two postings, list by list. Returns an error if out of memory; both are dropped.
    pub fn merge(self, other: Postings) -> Result<Postings, AllocError>
        ensures union { IfOk result (λ union. AreMerged self other union) }
        // If the slots of one list were dealt to the two, this is what adding them all in order gives.
        ensures postings { (xs ys zs : List (ℕ × Labels)) → IsPostingsOf xs self → IsPostingsOf ys other → IsMergeOf xs ys zs → IfOk result (λ union. IsPostingsOf zs union) }
    {
        let alloc = *self.all.allocator();
        let all = united(alloc, &self.all, &other.all)?;
        let Postings {
            mut names,
            all: _all,
        } = self;
        let Postings {
            names: others,
            all: _others,
        } = other;
        names.merge(others)?;
        Ok(Postings { names, all })
    }

    /// Borrows the slots whose label set has the label, ascending. Empty if the name is, since no label set has such a label.
    /// Allocates nothing.
    pub fn select(&self, name: &[u8], value: &[u8]) -> &[Slot]
        ensures slots { result.now ≡ selected self.now name.now value.now }
        ensures ascending { IsAscending result.now }
        // A bound on all slots is one on these.
        ensures below { (n : ℕ) → AreBelow n self.now.all → AreBelow n result.now }
        ensures named { name.now ≡ [] → result.now ≡ [] }
    {
        // for the proof, which has the invariant only if the body names a field
        let _all = &self.all;
        self.names.find(name, value)
    }

    /// Borrows all slots, ascending. Allocates nothing.
    pub fn all(&self) -> &[Slot]
        ensures slots { result.now ≡ self.now.all }
        ensures ascending { IsAscending result.now }
    {
        self.all.as_slice()
    }

    /// Copies the postings: no call tells the copy from these. Returns an error if out of memory.
    pub fn copy(&self) -> Result<Postings, AllocError>
        ensures { IfOk result (λ copy. AreAlike self.now copy) }
    {
        let alloc = *self.all.allocator();
        Ok(Postings {
            names: self.names.copy()?,
            all: Vec::from_slice(alloc, &self.all)?,
        })
    }
}
