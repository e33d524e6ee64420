//! The slots in which label sets were found, so that most are found again without a search.

ghost use Rattle.std.specs.Prelude.{◌≡◌, ◌<◌, ◌++◌, ℕ, IfSome, IsOk, IsTrue, List, None, Some, false, length, replicate, slice_get};
ghost use Rattle.wal_record.specs.Labels.{Labels, same_labels};
ghost use Rattle.head_series.specs.Rows.{AreDistinct};
ghost use Rattle.head_series.specs.Texts.{place};
ghost use Rattle.head_live.specs.Known.{Knows, set_at};

use head_core::{Head, Slot};
use std::alloc::{AllocError, Global};
use std::sync::Arc;
use wal_record::LabelSet;

/// The label sets that were found in a head, by slot.
///
/// Label sets mostly come in the same order again and again. So a set is first compared with the one that came after the last set before.
#[derive(Drop)]
pub struct KnownSets {
    // the label set of a slot, if it was found there
    sets: Vec<Option<Arc<LabelSet, Global>>>,
    // the slot of the set that was looked for after that of a slot
    next: Vec<u32>,
    // the slot of the last set that was looked for
    last: u32,
}

// Makes a list longer, so that it has the place.
fn make_place<T: Drop>(list: &mut Vec<Option<T>>, place: usize) -> Result<(), AllocError>
    ensures place { IsOk result → place < length list.new.items }
    ensures longer { (count : ℕ) × (list.new.items ≡ list.old.items ++ replicate count None) }
{
    while list.len() <= place {
        list.push(None)?;
    }
    Ok(())
}

impl KnownSets {
    /// Makes one that knows no label set.
    pub fn new(alloc: Global) -> KnownSets
        ensures { (series : List Labels) → Knows result series }
    {
        KnownSets {
            sets: Vec::new(alloc),
            next: Vec::new(alloc),
            last: 0,
        }
    }

    // Returns the slot of the set that came after the last one before.
    fn guess(&self) -> u32 {
        match self.next.get(self.last as usize) {
            Some(next) => *next,
            None => 0,
        }
    }

    // Returns whether a label set is known to be in this slot.
    fn is_at(&self, slot: u32, labels: &LabelSet) -> bool
        ensures { IsTrue result → set_at self.now.sets.items slot ≡ Some labels.now }
    {
        let place = slot as usize;
        if place >= self.sets.len() {
            return false;
        }
        match &self.sets[place] {
            Some(known) => **known == *labels,
            None => false,
        }
    }

    // Notes the slot of a label set. If out of memory, it may be forgotten.
    fn note(&mut self, slot: u32, labels: &Arc<LabelSet, Global>)
        ensures { (series : List Labels) → slice_get series slot ≡ Some labels.now.value → Knows self.old series → Knows self.new series }
    {
        let place = slot as usize;
        if make_place(&mut self.sets, place).is_err() {
            return;
        }
        let Ok(labels) = labels.clone() else {
            return;
        };
        self.sets[place] = Some(labels);
    }

    // Notes that a set was looked for after the last one. If out of memory, it may be forgotten.
    fn follow(&mut self, slot: u32)
        ensures { self.new.sets ≡ self.old.sets }
    {
        let last = self.last as usize;
        self.last = slot;
        while self.next.len() <= last {
            if self.next.push(0).is_err() {
                return;
            }
        }
        self.next[last] = slot;
    }

    /// Returns the slot of the series with a label set in the head, or `None` if there is none.
    pub fn find(&mut self, head: &Head, labels: &Arc<LabelSet, Global>) -> Option<Slot>
        requires sound { head.now.failed ≡ false }
        requires distinct { AreDistinct same_labels head.now.content.table.series }
        requires known { Knows self.old head.now.content.table.series }
        ensures slot { result ≡ place (same_labels labels.now.value) head.now.content.table.series }
        ensures within { IfSome result (λ slot. slot < length head.now.content.table.series) }
        ensures known { Knows self.new head.now.content.table.series }
    {
        let guess = self.guess();
        if self.is_at(guess, labels) {
            self.follow(guess);
            return Some(Slot::new(guess));
        }
        let slot = head.find(labels)?;
        self.note(slot.number(), labels);
        self.follow(slot.number());
        Some(slot)
    }
}
