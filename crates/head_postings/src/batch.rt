//! Counting the label sets of a batch by label.

ghost use Rattle.std.specs.Prelude.{◌≡◌, ◌++◌, ◌∷◌, [], List, OnOk};
ghost use Rattle.head_postings.specs.Postings.{Labels};
ghost use Rattle.head_postings.specs.Room.{IsCountOf};

use crate::names::Names;
use hash_seed::HashSeed;
use series_references::Slot;
use std::alloc::{AllocError, Global};
use std::marker::Model;
use wal_record::LabelSet;

/// Counts of the label sets of the series that a batch adds, by label: how many slots each list will take.
#[derive(Debug)]
pub struct PostingsBatch {
    many: usize,
    names: Names,
}

// Written out, so that a function that drops one has a call in its proof, and not a copy of this body.
impl Drop for PostingsBatch {
    fn drop(self) {
        let PostingsBatch {
            many: _,
            names: _names,
        } = self;
    }
}

impl Model for PostingsBatch {
    ghost use Rattle.head_postings.specs.Room.{Counted};

    ghost Value = { Counted };

    ghost view = { λ b. record { many = b.many; names = b.names.slots } };
}

impl PostingsBatch {
    // Makes a batch of no label sets, with hashes by the seed.
    pub(crate) fn new(alloc: Global, seed: HashSeed) -> PostingsBatch
        ensures { IsCountOf [] result }
    {
        PostingsBatch {
            many: 0,
            names: Names::new(alloc, seed),
        }
    }

    // Returns the number of label sets.
    pub(crate) fn len(&self) -> usize
        ensures { result ≡ self.now.many }
    {
        self.many
    }

    // Borrows the counts: beside each label a list whose length is the number of sets that have it.
    pub(crate) fn names(&self) -> &Names
        ensures { result.now.slots ≡ self.now.names }
    {
        &self.names
    }

    // Counts one more label set.
    pub(crate) fn add(&mut self, labels: &LabelSet) -> Result<(), AllocError>
        ensures { (sets : List Labels) → IsCountOf sets self.old → OnOk result (IsCountOf (sets ++ labels.now ∷ []) self.new) }
    {
        let Some(many) = self.many.checked_add(1) else {
            return Err(AllocError);
        };
        // only the number of slots counts
        self.names.add(Slot::new(0), labels)?;
        self.many = many;
        Ok(())
    }
}
