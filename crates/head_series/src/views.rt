//! What a table shows.

ghost use Rattle.std.specs.Prelude.{◌≡◌, ◌+◌, ◌<◌, ◌≤◌, ◌^◌, All, Some, None, Err, not, length, slice_get, IfOk, IfSome};
ghost use Rattle.wal_record.specs.Labels.{IsLabelSet, compare_labels, same_labels};
ghost use Rattle.head_series.specs.Rows.{AreDistinct};
ghost use Rattle.head_series.specs.Table.{after, labels_at, slot_at, AreAlike, IsLeast};
ghost use Rattle.head_series.specs.Texts.{place};

use crate::comparing::compare_numbers;
use crate::rows::{copied_rows, is_named, last_with};
use crate::table::SeriesTable;
use hash_seed::HashSeed;
use series_references::{Slot, copied};
use std::alloc::AllocError;
use std::cmp::Ordering;
use wal_record::{LabelFault, LabelSet};

impl SeriesTable {
    /// Returns the number of series. The clauses `distinct` and `ordered` say what holds of the series of every table.
    pub fn len(&self) -> usize
        ensures count { result ≡ length self.now.series }
        ensures few { result ≤ self.now.most }
        ensures fits { result < 2 ^ 32 }
        ensures distinct { AreDistinct same_labels self.now.series }
        ensures ordered { All IsLabelSet self.now.series }
    {
        // gives the proof the invariant, which it knows where a field is named
        let _most = self.most;
        self.rows.len()
    }

    /// Returns the seed of the table's hashes.
    pub fn seed(&self) -> HashSeed {
        self.seed
    }

    /// Returns the slot of the series that a reference was last bound to, or `None` if it was never bound.
    pub fn find(&self, reference: u64) -> Option<Slot>
        ensures slot { result ≡ slot_at self.now reference }
        ensures within { IfSome result (λ slot. slot < length self.now.series) }
    {
        match self.references.find(reference) {
            Some(slot) => Some(Slot::new(slot)),
            None => None,
        }
    }

    /// Returns the slot of the series with a label set, or `None` if there is none. Allocates nothing.
    pub fn find_labels(&self, labels: &LabelSet) -> Option<Slot>
        ensures slot { result ≡ place (same_labels labels.now) self.now.series }
        ensures within { IfSome result (λ slot. slot < length self.now.series) }
    {
        let seed = self.seed;
        let mut next = last_with(&self.last_by_hash, labels.hash(seed));
        while next != 0 {
            let slot = next - 1;
            let row = &self.rows[slot as usize];
            if is_named(&self.texts, &row.numbers, labels) {
                return Some(Slot::new(slot));
            }
            next = row.previous;
        }
        // the proof of the loop speaks of the seed
        let _seed = seed;
        None
    }

    /// Returns the number of labels of a series.
    pub fn pairs(&self, slot: Slot) -> usize
        requires { slot < length self.now.series }
        ensures { result ≡ length (labels_at self.now slot) }
    {
        self.rows[slot.index()].numbers.len()
    }

    /// Returns the name and the value of the label at a place of a series' label set, borrowed from the table.
    pub fn pair(&self, slot: Slot, i: usize) -> (&[u8], &[u8])
        requires slot { slot < length self.now.series }
        requires place { i < length (labels_at self.now slot) }
        ensures { slice_get (labels_at self.now slot) i ≡ Some (record { name = result.0.now; value = result.1.now }) }
    {
        let number = self.rows[slot.index()].numbers[i];
        (self.texts.bytes(number.0), self.texts.bytes(number.1))
    }

    // Returns the number of bytes of a series' names and values.
    fn texts_len(&self, slot: Slot) -> usize
        requires { slot < length self.now.series }
    {
        let mut total: usize = 0;
        for i in 0..self.pairs(slot) {
            let (name, value) = self.pair(slot, i);
            total = total.saturating_add(name.len()).saturating_add(value.len());
        }
        total
    }

    /// Returns a copy of the label set of a series, or an error if out of memory.
    pub fn labels(&self, slot: Slot) -> Result<LabelSet, AllocError>
        requires { slot < length self.now.series }
        ensures { IfOk result (λ labels. labels ≡ labels_at self.now slot) }
    {
        let alloc = *self.rows.allocator();
        let mut labels = LabelSet::with_room(
            alloc,
            self.seed,
            self.pairs(slot),
            self.texts_len(slot),
        )?;
        for i in 0..self.pairs(slot) {
            let (name, value) = self.pair(slot, i);
            match labels.push(name, value) {
                Ok(()) => {}
                Err(LabelFault::Memory) => return Err(AllocError),
                Err(LabelFault::EmptyName) => unreachable!(),
                Err(LabelFault::NotAscending) => unreachable!(),
            }
        }
        Ok(labels)
    }

    /// Compares the label sets of two series label by label, first the names and then the values, each by its bytes. A label set that is
    /// the beginning of another is less. Allocates nothing.
    pub fn compare(&self, first: Slot, second: Slot) -> Ordering
        requires first { first < length self.now.series }
        requires second { second < length self.now.series }
        ensures { result ≡ compare_labels (labels_at self.now first) (labels_at self.now second) }
    {
        let left = &self.rows[first.index()];
        let right = &self.rows[second.index()];
        compare_numbers(&self.texts, &left.numbers, &right.numbers)
    }

    /// Returns the least reference that is bound to a series, or `None` if all its references were bound anew to other series.
    pub fn reference(&self, slot: Slot) -> Option<u64>
        requires { slot < length self.now.series }
        ensures { IsLeast (λ r. slot_at self.now r ≡ Some slot) result }
    {
        self.references.least(slot.number())
    }

    /// Returns the greatest reference that was ever bound, plus 1, or 1 if none was bound, or `None` if it was 2^64 - 1. The clause
    /// `within` says what holds of every table.
    pub fn next_reference(&self) -> Option<u64>
        ensures next { result ≡ after self.now.greatest }
        ensures within { IfSome self.now.greatest (λ greatest. greatest < 2 ^ 64) }
    {
        match self.greatest {
            None => Some(1),
            Some(greatest) => {
                if greatest < u64::MAX {
                    Some(greatest + 1)
                } else {
                    None
                }
            }
        }
    }

    /// Returns a copy of the table, or an error if out of memory. Later bindings in one do not change the other.
    pub fn copy(&self) -> Result<SeriesTable, AllocError>
        ensures { IfOk result (λ copy. AreAlike self.now copy) }
    {
        let alloc = *self.rows.allocator();
        Ok(SeriesTable {
            texts: self.texts.copy()?,
            rows: copied_rows(alloc, &self.rows)?,
            references: self.references.copy()?,
            seed: self.seed,
            last_by_hash: copied(&self.last_by_hash)?,
            greatest: self.greatest,
            most: self.most,
        })
    }
}
