//! Resolution of a window of the log whose references were all bound ahead, so that threads can share the table.

ghost use Rattle.std.specs.Prelude.{◌≡◌, ◌↔◌, ◌<◌, ◌≤◌, ◌+◌, ◌++◌, ◌∷◌, [], ℕ, List, true, false, Err, length, map, IfSome, IsOk, OnOk, OnErr};
ghost use Rattle.std.specs.List.{flat_map, fold};
ghost use Rattle.wal_record.specs.declared.record.WalRecord.{WalRecord as LogRecord};
ghost use Rattle.wal_record.specs.declared.record.WalRecord.TheVariants.{Samples};
ghost use Rattle.wal_record.specs.Entries.{Entry, series, entries_in, entries_of};
ghost use Rattle.wal_record.specs.Validity.{series_in, valid_entry};
ghost use Rattle.head_column.specs.declared.items.Item.{Item as AnItem};
ghost use Rattle.head_series.specs.Bindings.{IsTableOf};
ghost use Rattle.head_series.specs.Table.{slot_at};
ghost use Rattle.head_resolver.specs.Owners.{bindings};
ghost use Rattle.head_resolver.specs.Taken.{Taken, taken_with};
ghost use Rattle.head_resolver.specs.Limits.{AreCountsWithin};
ghost use Rattle.head_resolver.specs.Steps.{with_expired, with_record};
ghost use Rattle.head_resolver.specs.Resolved.{resolved, with_slot, IsResolvable, IsResolved};
ghost use Rattle.head_resolver.specs.Resolving.{with_item};
ghost use Rattle.head_resolver.specs.Changes.{changes_of, slot_before, AreBelow, Change};
ghost use Rattle.head_resolver.specs.Ahead.{counts_with, items_with, AreFew, AreSpreadAt, IsAhead};

use crate::changes::Changes;
use crate::counts::Counts;
use crate::fault::{CountFull, HeadFault};
use crate::items::{ItemEntry, expired_in};
use crate::resolver::Resolver;
use head_column::Item;
use head_deal::{Seats, Spread};
use head_series::Slot;
use wal_record::{SampleEntry, SeriesEntry, WalRecord};

// Adds an item to a spread, or counts it as unknown if it has no slot.
fn put_item(
    slot: Option<Slot>,
    item: Item,
    seats: &Seats<'_>,
    spread: &mut Spread<Item>,
    counts: &mut Counts,
) -> Result<(), HeadFault>
    requires slots { IfSome slot (λ s. s < seats.now.slots) }
    requires workers { seats.now.workers ≡ spread.old.workers }
    ensures items { OnOk result (spread.new.items ≡ spread.old.items ++ with_slot slot item) }
    ensures counts { OnOk result (counts.new ≡ with_item slot item counts.old) }
    ensures workers { spread.new.workers ≡ spread.old.workers }
    ensures full { result ≡ Err HeadFault.Full → AreCountsWithin (with_item slot item counts.old) → ⊥ }
    ensures fault { result ≡ Err HeadFault.Failed → ⊥ }
{
    match slot {
        Some(slot) => match spread.put(seats, slot.number(), item) {
            Ok(()) => Ok(()),
            Err(_) => Err(HeadFault::Memory),
        },
        None => Ok(counts.add_unknown(&item)?),
    }
}

impl Resolver {
    // Binds the references of series entries that come at a place of a window, and notes what each named before. Counts nothing.
    fn bind_entries(
        &mut self,
        entries: &[SeriesEntry],
        place: u64,
        changes: &mut Changes,
    ) -> Result<(), HeadFault>
        ensures table { (es : List Entry) → IsTableOf (bindings es) self.old.table → OnOk result (IsTableOf (bindings (es ++ map series entries.now)) self.new.table) }
        ensures changes { (es : List Entry) → IsTableOf (bindings es) self.old.table → OnOk result (changes.new ≡ changes.old ++ changes_of es (map (λ e. (place, e)) entries.now)) }
        ensures below { (n : ℕ) → length self.new.table.series ≤ n → AreBelow n changes.old → OnOk result (AreBelow n changes.new) }
        ensures full { result ≡ Err HeadFault.Full → (es more : List Entry) → IsTableOf (bindings es) self.old.table → AreFew (es ++ (map series entries.now ++ more)) → ⊥ }
        ensures fault { result ≡ Err HeadFault.Failed → ⊥ }
        ensures more { length self.old.table.series ≤ length self.new.table.series }
        ensures counts { self.new.counts ≡ self.old.counts }
        ensures kept { self.new.failed ≡ self.old.failed }
        ensures time { self.new.min_valid ≡ self.old.min_valid }
        ensures none { entries.now ≡ [] → IsOk result }
    {
        for entry in entries {
            self.bind_noting(entry, place, changes)?;
        }
        Ok(())
    }

    // Does the same with the series entries of a record.
    fn bind_record(
        &mut self,
        log_record: &WalRecord,
        place: u64,
        changes: &mut Changes,
    ) -> Result<(), HeadFault>
        ensures table { (es : List Entry) → IsTableOf (bindings es) self.old.table →
            OnOk result (IsTableOf (bindings (es ++ map series (flat_map series_in (entries_in log_record.now)))) self.new.table) }
        ensures changes { (es : List Entry) → IsTableOf (bindings es) self.old.table →
            OnOk result (changes.new ≡ changes.old ++ changes_of es (map (λ e. (place, e)) (flat_map series_in (entries_in log_record.now)))) }
        ensures below { (n : ℕ) → length self.new.table.series ≤ n → AreBelow n changes.old → OnOk result (AreBelow n changes.new) }
        ensures full { result ≡ Err HeadFault.Full → (es more : List Entry) → IsTableOf (bindings es) self.old.table →
            AreFew (es ++ (map series (flat_map series_in (entries_in log_record.now)) ++ more)) → ⊥ }
        ensures fault { result ≡ Err HeadFault.Failed → ⊥ }
        ensures more { length self.old.table.series ≤ length self.new.table.series }
        ensures counts { self.new.counts ≡ self.old.counts }
        ensures kept { self.new.failed ≡ self.old.failed }
        ensures time { self.new.min_valid ≡ self.old.min_valid }
        ensures none { bindings (entries_in log_record.now) ≡ [] → IsOk result }
    {
        match log_record {
            WalRecord::Series(entries) => self.bind_entries(entries.as_slice(), place, changes),
            WalRecord::Samples(_) => Ok(()),
            WalRecord::Stones(_) => Ok(()),
            WalRecord::Other(_) => Ok(()),
        }
    }

    /// Binds the references of the series entries of the next record of a window of the log, ahead of the records before it, and adds to
    /// `changes` what each named before. Counts nothing: the records of the window are taken by `spread_at` and `add_counts_ahead`.
    ///
    /// Returns `Full` if a series or a label text would pass its limit, and `Memory` if out of memory. The resolver has then failed, and
    /// this returns `Failed` from then on. The changes are then of no use.
    pub fn bind_ahead(
        &mut self,
        log_record: &WalRecord,
        place: u64,
        changes: &mut Changes,
    ) -> Result<(), HeadFault>
        ensures ahead { (t : Taken) (front back : List LogRecord) → IsAhead t front back changes.old self.old → place ≡ length (front ++ back) →
            OnOk result (IsAhead t front (back ++ log_record.now ∷ []) changes.new self.new) }
        ensures below { (n : ℕ) → length self.new.table.series ≤ n → AreBelow n changes.old → OnOk result (AreBelow n changes.new) }
        ensures full { result ≡ Err HeadFault.Full → (t : Taken) (front back : List LogRecord) → IsAhead t front back changes.old self.old →
            IsResolvable (taken_with self.old.min_valid t ((front ++ back) ++ log_record.now ∷ [])) → ⊥ }
        ensures more { length self.old.table.series ≤ length self.new.table.series }
        ensures counts { self.new.counts ≡ self.old.counts }
        ensures time { self.new.min_valid ≡ self.old.min_valid }
        ensures failed { result ≡ Err HeadFault.Failed ↔ (self.old.failed ≡ true) }
        ensures sound { OnOk result (self.new.failed ≡ false) }
        ensures fails { OnErr result (self.new.failed ≡ true) }
        // Where nothing is bound, nothing is allocated.
        ensures none { self.old.failed ≡ false → bindings (entries_in log_record.now) ≡ [] → IsOk result }
    {
        if self.failed {
            return Err(HeadFault::Failed);
        }
        let bound = self.bind_record(log_record, place, changes);
        self.failed = bound.is_err();
        bound
    }

    // Adds the item of what the least valid time leaves of an entry to a spread, with the slot of its reference's owner at a place of a
    // window. If it has none, counts the item as unknown.
    fn spread_entry_at<E: ItemEntry>(
        &self,
        entry: &E,
        place: u64,
        changes: &Changes,
        seats: &Seats<'_>,
        spread: &mut Spread<Item>,
        counts: &mut Counts,
    ) -> Result<(), HeadFault>
        requires slots { length self.now.table.series ≤ seats.now.slots }
        requires below { AreBelow seats.now.slots changes.now }
        requires workers { seats.now.workers ≡ spread.old.workers }
        ensures items { OnOk result (spread.new.items ≡ spread.old.items ++ flat_map (items_with (slot_before changes.now (slot_at self.now.table) place)) (valid_entry self.now.min_valid (E.entry entry.now))) }
        ensures counts { OnOk result (counts.new ≡ fold (counts_with (slot_before changes.now (slot_at self.now.table) place)) counts.old (valid_entry self.now.min_valid (E.entry entry.now))) }
        ensures workers { spread.new.workers ≡ spread.old.workers }
        ensures full { result ≡ Err HeadFault.Full →
            AreCountsWithin (fold (counts_with (slot_before changes.now (slot_at self.now.table) place)) counts.old (valid_entry self.now.min_valid (E.entry entry.now))) → ⊥ }
        ensures fault { result ≡ Err HeadFault.Failed → ⊥ }
    {
        match entry.valid_item(self.min_valid()) {
            Some((reference, item)) => {
                let slot = changes.slot_before(self.any_table(), place, reference);
                put_item(slot, item, seats, spread, counts)
            }
            None => Ok(()),
        }
    }

    // Does the same with each of the entries.
    fn spread_all_at<E: ItemEntry>(
        &self,
        entries: &[E],
        place: u64,
        changes: &Changes,
        seats: &Seats<'_>,
        spread: &mut Spread<Item>,
        counts: &mut Counts,
    ) -> Result<(), HeadFault>
        requires slots { length self.now.table.series ≤ seats.now.slots }
        requires below { AreBelow seats.now.slots changes.now }
        requires workers { seats.now.workers ≡ spread.old.workers }
        ensures items { OnOk result (spread.new.items ≡ spread.old.items ++ flat_map (items_with (slot_before changes.now (slot_at self.now.table) place)) (flat_map (valid_entry self.now.min_valid) (map E.entry entries.now))) }
        ensures counts { OnOk result (counts.new ≡ fold (counts_with (slot_before changes.now (slot_at self.now.table) place)) counts.old (flat_map (valid_entry self.now.min_valid) (map E.entry entries.now))) }
        ensures workers { spread.new.workers ≡ spread.old.workers }
        ensures full { result ≡ Err HeadFault.Full →
            AreCountsWithin (fold (counts_with (slot_before changes.now (slot_at self.now.table) place)) counts.old (flat_map (valid_entry self.now.min_valid) (map E.entry entries.now))) → ⊥ }
        ensures fault { result ≡ Err HeadFault.Failed → ⊥ }
    {
        for entry in entries {
            self.spread_entry_at(entry, place, changes, seats, spread, counts)?;
        }
        Ok(())
    }

    // Adds the items of a record that was counted to a spread, and counts its series entries.
    fn spread_record_at(
        &self,
        log_record: &WalRecord,
        place: u64,
        changes: &Changes,
        seats: &Seats<'_>,
        spread: &mut Spread<Item>,
        counts: &mut Counts,
    ) -> Result<(), HeadFault>
        requires slots { length self.now.table.series ≤ seats.now.slots }
        requires below { AreBelow seats.now.slots changes.now }
        requires workers { seats.now.workers ≡ spread.old.workers }
        ensures items { OnOk result (spread.new.items ≡ spread.old.items ++ flat_map (items_with (slot_before changes.now (slot_at self.now.table) place)) (flat_map (valid_entry self.now.min_valid) (entries_in log_record.now))) }
        ensures counts { OnOk result (counts.new ≡ fold (counts_with (slot_before changes.now (slot_at self.now.table) place)) counts.old (flat_map (valid_entry self.now.min_valid) (entries_in log_record.now))) }
        ensures workers { spread.new.workers ≡ spread.old.workers }
        ensures full { result ≡ Err HeadFault.Full →
            AreCountsWithin (fold (counts_with (slot_before changes.now (slot_at self.now.table) place)) counts.old (flat_map (valid_entry self.now.min_valid) (entries_in log_record.now))) → ⊥ }
        ensures fault { result ≡ Err HeadFault.Failed → ⊥ }
    {
        match log_record {
            WalRecord::Series(entries) => {
                counts.add_bound(entries.len())?;
                Ok(())
            }
            WalRecord::Samples(entries) => {
                self.spread_all_at(entries.as_slice(), place, changes, seats, spread, counts)
            }
            WalRecord::Stones(entries) => {
                self.spread_all_at(entries.as_slice(), place, changes, seats, spread, counts)
            }
            WalRecord::Other(_) => Ok(()),
        }
    }

    // Counts a record by its type, and its expired entries.
    fn count_in(&self, log_record: &WalRecord, counts: &mut Counts) -> Result<(), CountFull>
        ensures more { OnOk result (counts.new ≡ with_expired self.now.min_valid log_record.now (with_record log_record.now counts.old)) }
        ensures full { OnErr result (AreCountsWithin (with_expired self.now.min_valid log_record.now (with_record log_record.now counts.old)) → ⊥) }
    {
        counts.add_record(log_record)?;
        let (samples, stones) = expired_in(log_record, self.min_valid());
        counts.add_expired(samples, stones)
    }

    /// Adds the items of a record at a place of a window to a spread, each with the slot of the series that its reference names at that
    /// place, and adds to `counts` what the record is counted as. `bind_ahead` made all bindings of the window and `changes` before.
    ///
    /// Returns `Full` if one of `counts` would pass its limit, and `Memory` if out of memory or if the spread has 2^32 items. The spread and
    /// the counts are then of no use.
    pub fn spread_at(
        &self,
        log_record: &WalRecord,
        place: u64,
        changes: &Changes,
        seats: &Seats<'_>,
        spread: &mut Spread<Item>,
        counts: &mut Counts,
    ) -> Result<(), HeadFault>
        requires sound { self.now.failed ≡ false }
        requires slots { length self.now.table.series ≤ seats.now.slots }
        requires below { AreBelow seats.now.slots changes.now }
        requires workers { seats.now.workers ≡ spread.old.workers }
        ensures spread { (first : ℕ) (rs : List LogRecord) → AreSpreadAt self.now.min_valid (slot_before changes.now (slot_at self.now.table)) first rs spread.old.items counts.old → place ≡ first + length rs →
            OnOk result (AreSpreadAt self.now.min_valid (slot_before changes.now (slot_at self.now.table)) first (rs ++ log_record.now ∷ []) spread.new.items counts.new) }
        ensures workers { spread.new.workers ≡ spread.old.workers }
        ensures full { result ≡ Err HeadFault.Full → (t : Taken) (front before rs back : List LogRecord) → IsAhead t front (before ++ (rs ++ log_record.now ∷ back)) changes.now self.now →
            AreSpreadAt self.now.min_valid (slot_before changes.now (slot_at self.now.table)) (length front + length before) rs spread.old.items counts.old → place ≡ (length front + length before) + length rs →
            IsResolvable (taken_with self.now.min_valid t (front ++ (before ++ (rs ++ log_record.now ∷ [])))) → ⊥ }
        ensures fault { result ≡ Err HeadFault.Failed → ⊥ }
    {
        self.count_in(log_record, counts)?;
        self.spread_record_at(log_record, place, changes, seats, spread, counts)
    }

    /// Does what `spread_at` does for a record of these samples.
    pub fn spread_samples_at(
        &self,
        samples: &[SampleEntry],
        place: u64,
        changes: &Changes,
        seats: &Seats<'_>,
        spread: &mut Spread<Item>,
        counts: &mut Counts,
    ) -> Result<(), HeadFault>
        requires sound { self.now.failed ≡ false }
        requires slots { length self.now.table.series ≤ seats.now.slots }
        requires below { AreBelow seats.now.slots changes.now }
        requires workers { seats.now.workers ≡ spread.old.workers }
        ensures spread { (first : ℕ) (rs : List LogRecord) → AreSpreadAt self.now.min_valid (slot_before changes.now (slot_at self.now.table)) first rs spread.old.items counts.old → place ≡ first + length rs →
            OnOk result (AreSpreadAt self.now.min_valid (slot_before changes.now (slot_at self.now.table)) first (rs ++ Samples samples.now ∷ []) spread.new.items counts.new) }
        ensures workers { spread.new.workers ≡ spread.old.workers }
        ensures full { result ≡ Err HeadFault.Full → (t : Taken) (front before rs back : List LogRecord) → IsAhead t front (before ++ (rs ++ Samples samples.now ∷ back)) changes.now self.now →
            AreSpreadAt self.now.min_valid (slot_before changes.now (slot_at self.now.table)) (length front + length before) rs spread.old.items counts.old → place ≡ (length front + length before) + length rs →
            IsResolvable (taken_with self.now.min_valid t (front ++ (before ++ (rs ++ Samples samples.now ∷ [])))) → ⊥ }
        ensures fault { result ≡ Err HeadFault.Failed → ⊥ }
    {
        counts.add_samples(samples, self.min_valid())?;
        self.spread_all_at(samples, place, changes, seats, spread, counts)
    }

    /// Adds the counts of records that were spread, which come next in a window whose bindings were all made ahead, to those of the
    /// resolver. Allocates nothing.
    ///
    /// Returns `Full` if a count would pass its limit. The resolver has then failed, and this returns `Failed` from then on.
    pub fn add_counts_ahead(&mut self, counts: &Counts) -> Result<(), HeadFault>
        ensures taken { (t : Taken) (front rs back : List LogRecord) (cs : List Change) (items : List (ℕ × AnItem)) → IsAhead t front (rs ++ back) cs self.old →
            AreSpreadAt self.old.min_valid (slot_before cs (slot_at self.old.table)) (length front) rs items counts.now → OnOk result (IsAhead t (front ++ rs) back cs self.new) }
        ensures items { (t : Taken) (front rs back : List LogRecord) (cs : List Change) (items : List (ℕ × AnItem)) → IsAhead t front (rs ++ back) cs self.old →
            AreSpreadAt self.old.min_valid (slot_before cs (slot_at self.old.table)) (length front) rs items counts.now →
            resolved (entries_of (taken_with self.old.min_valid t (front ++ rs)).kept) ≡ resolved (entries_of (taken_with self.old.min_valid t front).kept) ++ items }
        ensures full { result ≡ Err HeadFault.Full → (t : Taken) (front rs back : List LogRecord) (cs : List Change) (items : List (ℕ × AnItem)) → IsAhead t front (rs ++ back) cs self.old →
            AreSpreadAt self.old.min_valid (slot_before cs (slot_at self.old.table)) (length front) rs items counts.now → IsResolvable (taken_with self.old.min_valid t (front ++ rs)) → ⊥ }
        ensures limits { IsOk result → (t : Taken) → IsResolved t self.new → IsResolvable t }
        ensures table { self.new.table ≡ self.old.table }
        ensures time { self.new.min_valid ≡ self.old.min_valid }
        ensures failed { result ≡ Err HeadFault.Failed ↔ (self.old.failed ≡ true) }
        ensures sound { OnOk result (self.new.failed ≡ false) }
        ensures fails { OnErr result (self.new.failed ≡ true) }
        ensures memory { result ≡ Err HeadFault.Memory → ⊥ }
    {
        if self.failed {
            return Err(HeadFault::Failed);
        }
        match self.add_counts(counts) {
            Ok(()) => {
                // gives the proof that nothing passes a limit
                self.limits();
                Ok(())
            }
            Err(CountFull) => {
                self.failed = true;
                Err(HeadFault::Full)
            }
        }
    }
}
