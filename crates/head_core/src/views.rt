//! What a head shows.

ghost use Rattle.std.specs.Prelude.{◌≡◌, ◌<◌, ◌^◌, All, false, Some, None, filter, length, slice_get, IfOk, IfSome};
ghost use Rattle.wal_record.specs.Labels.{IsLabelSet, same_labels};
ghost use Rattle.head_column.specs.Histories.{latest};
ghost use Rattle.head_column.specs.Runs.{AreApart};
ghost use Rattle.head_column.specs.Samples.{Rises};
ghost use Rattle.head_column.specs.Hours.{is_in_hour};
ghost use Rattle.head_column.specs.Chunks.{IsFit, chunks_of, xor_chunks_of};
ghost use Rattle.head_series.specs.Rows.{AreDistinct};
ghost use Rattle.head_series.specs.Table.{after, labels_at, slot_at, IsLeast};
ghost use Rattle.head_series.specs.Texts.{place};
ghost use Rattle.head_postings.specs.Postings.{selected};
ghost use Rattle.head_postings.specs.Slots.{IsAscending};
ghost use Rattle.head_core.specs.Heads.{AreSlots, history_at};

use crate::head::Head;
use head_column::{Chunk, Column, Hour, Run, Sample};
use head_resolver::Counts;
use head_series::Slot;
use std::alloc::AllocError;
use wal_record::LabelSet;

impl Head {
    /// Returns whether the head has failed, that is, whether `apply` returned `Full` or `Memory`.
    pub fn is_failed(&self) -> bool
        ensures { result ≡ self.now.failed }
    {
        self.resolver.is_failed()
    }

    /// Returns the least valid time, in milliseconds: that of the replay, or the greatest of later calls of `truncate`. The least time of 64
    /// bits is no limit.
    pub fn min_valid(&self) -> i64
        requires { self.now.failed ≡ false }
        ensures { result ≡ self.now.content.min_valid }
    {
        self.resolver.min_valid()
    }

    /// Returns the counts of the records so far.
    pub fn counts(&self) -> Counts
        requires { self.now.failed ≡ false }
        ensures { result ≡ self.now.content.counts }
    {
        self.resolver.counts()
    }

    /// Returns the number of series. The clauses `distinct`, `ordered` and `one_each` say what holds of the series of every head.
    pub fn series(&self) -> usize
        requires { self.now.failed ≡ false }
        ensures count { result ≡ length self.now.content.table.series }
        ensures fits { result < 2 ^ 32 }
        ensures distinct { AreDistinct same_labels self.now.content.table.series }
        ensures ordered { All IsLabelSet self.now.content.table.series }
        ensures one_each { length self.now.content.histories ≡ length self.now.content.table.series }
    {
        self.resolver.table().len()
    }

    /// Returns the number of labels of a series.
    pub fn pairs(&self, slot: Slot) -> usize
        requires sound { self.now.failed ≡ false }
        requires slot { slot < length self.now.content.table.series }
        ensures { result ≡ length (labels_at self.now.content.table slot) }
    {
        self.resolver.table().pairs(slot)
    }

    /// Returns the name and the value of the label at a place of a series' label set, borrowed from the head.
    pub fn pair(&self, slot: Slot, i: usize) -> (&[u8], &[u8])
        requires sound { self.now.failed ≡ false }
        requires slot { slot < length self.now.content.table.series }
        requires place { i < length (labels_at self.now.content.table slot) }
        ensures { slice_get (labels_at self.now.content.table slot) i ≡ Some (record { name = result.0.now; value = result.1.now }) }
    {
        self.resolver.table().pair(slot, i)
    }

    /// Returns a copy of the label set of a series, or an error if out of memory.
    pub fn labels(&self, slot: Slot) -> Result<LabelSet, AllocError>
        requires sound { self.now.failed ≡ false }
        requires slot { slot < length self.now.content.table.series }
        ensures { IfOk result (λ labels. labels ≡ labels_at self.now.content.table slot) }
    {
        self.resolver.table().labels(slot)
    }

    /// Returns the slot of the series with a label set, or `None` if there is none. Allocates nothing.
    pub fn find(&self, labels: &LabelSet) -> Option<Slot>
        requires { self.now.failed ≡ false }
        ensures slot { result ≡ place (same_labels labels.now) self.now.content.table.series }
        ensures within { IfSome result (λ slot. slot < length self.now.content.table.series) }
    {
        self.resolver.table().find_labels(labels)
    }

    /// Returns the least reference that is bound to a series, or `None` if all its references were bound anew to other series.
    pub fn reference(&self, slot: Slot) -> Option<u64>
        requires sound { self.now.failed ≡ false }
        requires slot { slot < length self.now.content.table.series }
        ensures { IsLeast (λ r. slot_at self.now.content.table r ≡ Some slot) result }
    {
        self.resolver.table().reference(slot)
    }

    // Returns the column of a series.
    fn column(&self, slot: Slot) -> &Column
        requires { slot < length self.now.content.table.series }
        ensures { result.now.history ≡ history_at self.now.content slot }
    {
        &self.columns[slot.index()]
    }

    /// Returns a copy of the accepted samples of a series, in ascending order of time, or an error if out of memory.
    pub fn samples(&self, slot: Slot) -> Result<Vec<Sample>, AllocError>
        requires sound { self.now.failed ≡ false }
        requires slot { slot < length self.now.content.table.series }
        ensures samples { IfOk result (λ samples. samples.items ≡ (history_at self.now.content slot).samples) }
        ensures rises { IfOk result (λ samples. Rises samples.items) }
    {
        self.column(slot).samples()
    }

    /// Returns the number of accepted samples of a series.
    pub fn sample_count(&self, slot: Slot) -> usize
        requires sound { self.now.failed ≡ false }
        requires slot { slot < length self.now.content.table.series }
        ensures { result ≡ length (history_at self.now.content slot).samples }
    {
        self.column(slot).len()
    }

    /// Returns the greatest time of a series' accepted samples, in milliseconds, or `None` if it has none.
    pub fn last_time(&self, slot: Slot) -> Option<i64>
        requires sound { self.now.failed ≡ false }
        requires slot { slot < length self.now.content.table.series }
        ensures { result ≡ latest (history_at self.now.content slot).samples }
    {
        self.column(slot).max_time()
    }

    /// Returns the accepted samples of a series in an hour, as chunks of 120 samples from the first one in the hour on; the last chunk
    /// may have fewer. Returns an error if out of memory. The clauses `rises`, `fit` and `apart` say what holds of every series.
    pub fn chunks_in(&self, slot: Slot, hour: Hour) -> Result<Vec<Chunk>, AllocError>
        requires sound { self.now.failed ≡ false }
        requires slot { slot < length self.now.content.table.series }
        ensures rises { Rises (history_at self.now.content slot).samples }
        ensures fit { All IsFit (history_at self.now.content slot).samples }
        ensures apart { AreApart (history_at self.now.content slot).hidden }
        ensures chunks { IfOk result (λ chunks. chunks.items ≡ chunks_of (filter (λ s. is_in_hour hour s.time) (history_at self.now.content slot).samples)) }
    {
        self.column(slot).chunks_in(hour)
    }

    /// Returns the accepted samples of a series in an hour, in a server's XOR chunks of 120 samples from the first one in the hour on; the last
    /// chunk may have fewer. Chunks that were made so are copied. Returns an error if out of memory. The clauses `rises` and `fit` say what
    /// holds of every series.
    pub fn xor_chunks_in(&self, slot: Slot, hour: Hour) -> Result<Vec<Chunk>, AllocError>
        requires sound { self.now.failed ≡ false }
        requires slot { slot < length self.now.content.table.series }
        ensures rises { Rises (history_at self.now.content slot).samples }
        ensures fit { All IsFit (history_at self.now.content slot).samples }
        ensures chunks { IfOk result (λ chunks. chunks.items ≡ xor_chunks_of (filter (λ s. is_in_hour hour s.time) (history_at self.now.content slot).samples)) }
    {
        self.column(slot).xor_chunks_in(hour)
    }

    /// Returns the runs of the hidden times of a series, borrowed from the head. Each run has at least one time, the runs ascend, and
    /// between two of them lies a time that is not hidden. Samples at hidden times are still among `samples`.
    pub fn hidden(&self, slot: Slot) -> &[Run]
        requires sound { self.now.failed ≡ false }
        requires slot { slot < length self.now.content.table.series }
        ensures runs { result.now ≡ (history_at self.now.content slot).hidden }
        ensures apart { AreApart result.now }
    {
        self.column(slot).hidden()
    }

    /// Returns the slots of the series that have a label with this name and this value, ascending. Allocates nothing.
    pub fn select(&self, name: &[u8], value: &[u8]) -> &[Slot]
        requires { self.now.failed ≡ false }
        ensures slots { result.now ≡ selected self.now.content.postings name.now value.now }
        ensures within { AreSlots self.now.content result.now }
        ensures ascending { IsAscending result.now }
    {
        self.postings.select(name, value)
    }

    /// Returns the slots of all series, ascending.
    pub fn all(&self) -> &[Slot]
        requires { self.now.failed ≡ false }
        ensures slots { result.now ≡ self.now.content.postings.all }
        ensures within { AreSlots self.now.content result.now }
        ensures ascending { IsAscending result.now }
    {
        self.postings.all()
    }

    /// Returns the greatest time of all accepted samples, in milliseconds, or `None` if there are none.
    pub fn max_time(&self) -> Option<i64>
        requires { self.now.failed ≡ false }
        ensures { result ≡ self.now.content.max_time }
    {
        self.max_time
    }

    /// Returns the greatest reference that was ever bound, plus 1, or 1 if none was bound, or `None` if it was 2^64 - 1. The clause
    /// `within` says what holds of every head.
    pub fn next_reference(&self) -> Option<u64>
        requires { self.now.failed ≡ false }
        ensures next { result ≡ after self.now.content.table.greatest }
        ensures within { IfSome self.now.content.table.greatest (λ greatest. greatest < 2 ^ 64) }
    {
        self.resolver.table().next_reference()
    }
}
