//! Labels counted one after another.

ghost use Rattle.std.specs.Prelude.{◌≡◌, ◌<◌, ◌++◌, ◌∷◌, [], false, length, List, IfOk, IfSome, OnOk, slice_index_or, sum_by};
ghost use Rattle.wal_record.specs.Labels.{IsLabelSet, Labels, label};
ghost use Rattle.head_column.specs.Histories.{History};
ghost use Rattle.head_series.specs.Table.{labels_at};
ghost use Rattle.head_core.specs.Heads.{history_at};
ghost use Rattle.head_ranks.specs.declared.counts.LabelCount.{LabelCount};
ghost use Rattle.head_ranks.specs.Counts.{has_label, label_of};
ghost use Rattle.head_ranks.specs.Counting.{IsCountOf};
ghost use Rattle.head_ranks.specs.Ranks.{AreLabelCounts};

use crate::counts::{HeadTotals, LabelCount};
use hash_seed::HashSeed;
use head_core::Head;
use indexmap::IndexSet;
use series_references::Slot;
use std::alloc::{AllocError, Global};

// A label, borrowed from a head.
#[derive(Clone, Copy, Debug, PartialEq, Eq, Hash)]
struct LabelKey<'a> {
    name: &'a [u8],
    value: &'a [u8],
}

// The counts of the labels so far, and the labels that they are of, both in the order of first sight.
struct Counter<'a> {
    seen: IndexSet<LabelKey<'a>, HashSeed>,
    counts: Vec<LabelCount<'a>>,
    // For each place in a label set, the index of the count of the label that was last looked up there. A hint: no count depends on it.
    places: Vec<usize>,
}

// Written out, so that a function that drops one has a call in its proof, and not a copy of this body.
impl Drop for Counter<'_> {
    fn drop(self) {
        let Counter {
            seen: _seen,
            counts: _counts,
            places: _places,
        } = self;
    }
}

impl<'a> Counter<'a> {
    // Makes the counter of no series, with hashes by a seed.
    fn new(alloc: Global, seed: HashSeed) -> Counter<'a>
        ensures { IsCountOf [] result }
    {
        Counter {
            seen: IndexSet::with_hasher(alloc, seed),
            counts: Vec::new(alloc),
            places: Vec::new(alloc),
        }
    }

    // Returns the index of the label's count, if the hint for this place gives it. Neighbouring series share most of their labels.
    fn hinted(&self, place: usize, name: &[u8], value: &[u8]) -> Option<usize>
        ensures within { IfSome result (λ at. at < length self.now.counts.items) }
        ensures label { IfSome result (λ at. (d : LabelCount) → label_of (slice_index_or self.now.counts.items at d) ≡ label name.now value.now) }
    {
        let at = *self.places.get(place)?;
        let count = self.counts.get(at)?;
        if count.value == value && count.name == name {
            Some(at)
        } else {
            None
        }
    }

    // Counts one more label of the last series, which has this many samples. The label is at this place of its label set. Returns an error
    // if out of memory, or if there is no such number.
    fn add_label(
        &mut self,
        place: usize,
        name: &'a [u8],
        value: &'a [u8],
        samples: u64,
    ) -> Result<(), AllocError>
        ensures { (before : List (Labels × History)) (labels : Labels) (h : History) → samples ≡ length h.samples → has_label (label name.now value.now) labels ≡ false
            → IsCountOf (before ++ (labels, h) ∷ []) self.old → OnOk result (IsCountOf (before ++ (labels ++ label name.now value.now ∷ [], h) ∷ []) self.new) }
    {
        if let Some(at) = self.hinted(place, name, value) {
            return self.counts[at].add(samples);
        }
        let (at, _) = self.seen.insert_full(LabelKey { name, value })?;
        set_place(&mut self.places, place, at)?;
        if at < self.counts.len() {
            self.counts[at].add(samples)
        } else {
            self.counts.push(LabelCount {
                name,
                value,
                series: 1,
                samples,
            })?;
            Ok(())
        }
    }

    // Counts the labels of a series. Returns an error if out of memory, or if there is no such number.
    fn add_series(&mut self, head: &'a Head, slot: Slot) -> Result<(), AllocError>
        requires sound { head.now.failed ≡ false }
        requires slot { slot < length head.now.content.table.series }
        requires set { IsLabelSet (labels_at head.now.content.table slot) }
        ensures { (before : List (Labels × History)) → IsCountOf before self.old
            → OnOk result (IsCountOf (before ++ (labels_at head.now.content.table slot, history_at head.now.content slot) ∷ []) self.new) }
    {
        let samples = head.sample_count(slot) as u64;
        for i in 0..head.pairs(slot) {
            let (name, value) = head.pair(slot, i);
            self.add_label(i, name, value, samples)?;
        }
        Ok(())
    }

    // Returns the counts.
    fn into_counts(self) -> Vec<LabelCount<'a>>
        ensures { result ≡ self.entry.counts }
    {
        let Counter {
            seen: _seen,
            counts,
            places: _places,
        } = self;
        counts
    }
}

// Sets the hint for a place, or adds one if there is none for it yet. Returns an error if out of memory.
fn set_place(places: &mut Vec<usize>, place: usize, at: usize) -> Result<(), AllocError> {
    if place < places.len() {
        places[place] = at;
        Ok(())
    } else {
        places.push(at)?;
        Ok(())
    }
}

/// Returns each label of the head's series once, in the order of first sight, with the number of the series that have it and the number of
/// their accepted samples. Returns an error if out of memory, or if a number does not fit.
pub fn label_counts<'a>(alloc: Global, head: &'a Head) -> Result<Vec<LabelCount<'a>>, AllocError>
    requires { head.now.failed ≡ false }
    ensures { IfOk result (λ counts. AreLabelCounts head.now.content counts.items) }
{
    let mut counter = Counter::new(alloc, head.seed());
    let series = head.series() as u32;
    for number in 0..series {
        counter.add_series(head, Slot::new(number))?;
    }
    Ok(counter.into_counts())
}

/// Returns the number of a head's series, and the number of their accepted samples. Returns an error if that does not fit.
pub fn totals(head: &Head) -> Result<HeadTotals, AllocError>
    requires { head.now.failed ≡ false }
    ensures series { IfOk result (λ totals. totals.series ≡ length head.now.content.table.series) }
    ensures samples { IfOk result (λ totals. totals.samples ≡ sum_by (λ h. length h.samples) head.now.content.histories) }
{
    let series = head.series() as u32;
    let mut samples: u64 = 0;
    for number in 0..series {
        let more = head.sample_count(Slot::new(number)) as u64;
        samples = samples.checked_add(more).ok_or(AllocError)?;
    }
    Ok(HeadTotals {
        series: series as u64,
        samples,
    })
}
