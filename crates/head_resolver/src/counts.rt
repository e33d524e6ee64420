//! The counts of records and of entries, by kind.

ghost use Rattle.std.specs.Prelude.{◌≡◌, ◌↔◌, ◌⊎◌, ◌+◌, ◌<◌, ◌≤◌, [], All, Err, None, IfOk, IfSome, IsErr, IsOk, IsTrue, OnErr, OnOk, length};
ghost use Rattle.wal_record.specs.declared.record.WalRecord.TheVariants.{Samples};
ghost use Rattle.wal_record.specs.Entries.{entries_in, entries_of};
ghost use Rattle.head_resolver.specs.Limits.{AreCountsWithin, count_limit};
ghost use Rattle.head_resolver.specs.Counts.{count_of_class, fate_of, unknown_fate};
ghost use Rattle.head_resolver.specs.Room.{HaveClasses, HaveCounts, HaveExpired};
ghost use Rattle.head_resolver.specs.Steps.{count_of_fate, no_counts, plus, with_expired, with_fate, with_record, IsExpiredOver};

use crate::fault::CountFull;
use crate::items::count_expired;
use head_column::{Item, Outcome};
use wal_record::{SampleEntry, WalRecord};

/// The numbers of a log's records by type, and of its entries by what became of them, in the order in which they are printed. A deletion
/// is a *stone*. Entries before the least valid time are *expired*, and counted as nothing else.
#[derive(Clone, Copy, Debug, PartialEq, Eq)]
pub struct Counts {
    pub series_records: u64,
    pub sample_records: u64,
    pub stone_records: u64,
    pub skipped_records: u64,
    pub series_entries: u64,
    pub accepted: u64,
    pub stale: u64,
    pub unknown: u64,
    pub hiding: u64,
    pub empty_stones: u64,
    pub unknown_stones: u64,
    pub expired_samples: u64,
    pub expired_stones: u64,
}

// Adds 1 to a count, or returns `Full` if it is 2^64 - 1.
pub(crate) fn one_more(count: &mut u64) -> Result<(), CountFull>
    ensures more { OnOk result (count.new ≡ count.old + 1) }
    ensures full { OnErr result ((count.old ≡ count_limit) × (count.new ≡ count.old)) }
    ensures limit { count.old ≡ count_limit → IsErr result }
    ensures few { count.old < count_limit → IsOk result }
{
    match count.checked_add(1) {
        Some(more) => {
            *count = more;
            Ok(())
        }
        None => Err(CountFull),
    }
}

// Returns the sum of a count and a number, or an error if it does not fit in 64 bits.
fn sum(count: u64, more: u64) -> Result<u64, CountFull>
    ensures sum { IfOk result (λ sum. sum ≡ count + more) }
    ensures full { OnErr result (count_limit < count + more) }
    ensures few { count + more ≤ count_limit → IsOk result }
    ensures nothing { more ≡ 0 → IsOk result }
{
    count.checked_add(more).ok_or(CountFull)
}

// Returns the number of entries of a record.
fn entry_count(log_record: &WalRecord) -> usize
    ensures { result ≡ length (entries_in log_record.now) }
{
    match log_record {
        WalRecord::Series(entries) => entries.len(),
        WalRecord::Samples(entries) => entries.len(),
        WalRecord::Stones(entries) => entries.len(),
        WalRecord::Other(_) => 0,
    }
}

// Returns the number of entries of all records, or `None` if it does not fit in 64 bits.
fn count_entries(records: &[WalRecord]) -> Option<u64>
    ensures some { IfSome result (λ many. many ≡ length (entries_of records.now)) }
    ensures none { result ≡ None → count_limit < length (entries_of records.now) }
{
    let mut many: u64 = 0;
    for log_record in records {
        many = many.checked_add(entry_count(log_record) as u64)?;
    }
    Some(many)
}

// Returns whether each count, plus `more`, fits in 64 bits.
fn all_fit(counts: &[u64], more: u64) -> bool
    ensures fit { IsTrue result ↔ All (λ count. count + more ≤ count_limit) counts.now }
    ensures nothing { more ≡ 0 → IsTrue result }
{
    for count in counts {
        if *count > u64::MAX - more {
            return false;
        }
    }
    true
}

impl Counts {
    /// Returns the counts of no records: all are 0.
    pub fn new() -> Counts
        ensures { result ≡ no_counts }
    {
        Counts {
            series_records: 0,
            sample_records: 0,
            stone_records: 0,
            skipped_records: 0,
            series_entries: 0,
            accepted: 0,
            stale: 0,
            unknown: 0,
            hiding: 0,
            empty_stones: 0,
            unknown_stones: 0,
            expired_samples: 0,
            expired_stones: 0,
        }
    }

    /// Returns an error unless each count of entries has room for all entries of the records, and each count of records for all records.
    pub fn check_room(&self, records: &[WalRecord]) -> Result<(), CountFull>
        ensures counts { OnOk result (HaveCounts self.now (entries_of records.now)) }
        ensures classes { OnOk result (HaveClasses self.now records.now) }
        ensures expired { OnOk result (HaveExpired self.now (entries_of records.now)) }
        ensures full { OnErr result (HaveCounts self.now (entries_of records.now) → HaveExpired self.now (entries_of records.now) → HaveClasses self.now records.now → ⊥) }
        ensures limit { (HaveCounts self.now (entries_of records.now) × HaveExpired self.now (entries_of records.now) × HaveClasses self.now records.now → ⊥) → IsErr result }
        ensures nothing { records.now ≡ [] → IsOk result }
    {
        let Some(entries) = count_entries(records) else {
            return Err(CountFull);
        };
        let classes = [
            self.series_records,
            self.sample_records,
            self.stone_records,
            self.skipped_records,
        ];
        let fates = [
            self.series_entries,
            self.accepted,
            self.stale,
            self.unknown,
            self.hiding,
            self.empty_stones,
            self.unknown_stones,
        ];
        let expired = [self.expired_samples, self.expired_stones];
        if !all_fit(&classes, records.len() as u64) {
            return Err(CountFull);
        }
        if !all_fit(&fates, entries) {
            return Err(CountFull);
        }
        if !all_fit(&expired, entries) {
            return Err(CountFull);
        }
        Ok(())
    }

    /// Adds 1 to the count of an outcome. Returns an error, with the counts unchanged, if it is 2^64 - 1.
    pub fn add_outcome(&mut self, outcome: Outcome) -> Result<(), CountFull>
        ensures more { OnOk result (self.new ≡ with_fate (fate_of outcome) self.old) }
        ensures full { OnErr result (count_of_fate (fate_of outcome) self.old ≡ count_limit) }
        ensures refused { OnErr result (self.new ≡ self.old) }
    {
        match outcome {
            Outcome::Accepted => one_more(&mut self.accepted),
            Outcome::Stale => one_more(&mut self.stale),
            Outcome::Hidden => one_more(&mut self.hiding),
            Outcome::EmptyStone => one_more(&mut self.empty_stones),
        }
    }

    // Adds 1 to the count of a record's type.
    pub(crate) fn add_record(&mut self, log_record: &WalRecord) -> Result<(), CountFull>
        ensures more { OnOk result (self.new ≡ with_record log_record.now self.old) }
        ensures full { OnErr result (count_of_class log_record.now self.old ≡ count_limit) }
        ensures counted { count_of_class log_record.now self.old ≡ count_limit → IsErr result }
        ensures few { count_of_class log_record.now self.old < count_limit → IsOk result }
    {
        match log_record {
            WalRecord::Series(_) => one_more(&mut self.series_records),
            WalRecord::Samples(_) => one_more(&mut self.sample_records),
            WalRecord::Stones(_) => one_more(&mut self.stone_records),
            WalRecord::Other(_) => one_more(&mut self.skipped_records),
        }
    }

    // Returns the sums of these counts and others, or an error if one of them does not fit in 64 bits.
    pub(crate) fn plus(&self, others: &Counts) -> Result<Counts, CountFull>
        ensures sums { IfOk result (λ sums. sums ≡ plus self.now others.now) }
        ensures full { OnErr result (AreCountsWithin (plus self.now others.now) → ⊥) }
    {
        Ok(Counts {
            series_records: sum(self.series_records, others.series_records)?,
            sample_records: sum(self.sample_records, others.sample_records)?,
            stone_records: sum(self.stone_records, others.stone_records)?,
            skipped_records: sum(self.skipped_records, others.skipped_records)?,
            series_entries: sum(self.series_entries, others.series_entries)?,
            accepted: sum(self.accepted, others.accepted)?,
            stale: sum(self.stale, others.stale)?,
            unknown: sum(self.unknown, others.unknown)?,
            hiding: sum(self.hiding, others.hiding)?,
            empty_stones: sum(self.empty_stones, others.empty_stones)?,
            unknown_stones: sum(self.unknown_stones, others.unknown_stones)?,
            expired_samples: sum(self.expired_samples, others.expired_samples)?,
            expired_stones: sum(self.expired_stones, others.expired_stones)?,
        })
    }

    // Adds the numbers of expired samples and deletions to their counts.
    pub(crate) fn add_expired(&mut self, samples: usize, stones: usize) -> Result<(), CountFull>
        ensures more { OnOk result (self.new ≡ record self.old { expired_samples = self.old.expired_samples + samples; expired_stones = self.old.expired_stones + stones }) }
        ensures full { OnErr result ((count_limit < self.old.expired_samples + samples) ⊎ (count_limit < self.old.expired_stones + stones)) }
        ensures few { self.old.expired_samples + samples ≤ count_limit → self.old.expired_stones + stones ≤ count_limit → IsOk result }
        ensures nothing { samples ≡ 0 → stones ≡ 0 → IsOk result }
    {
        self.expired_samples = sum(self.expired_samples, samples as u64)?;
        self.expired_stones = sum(self.expired_stones, stones as u64)?;
        Ok(())
    }

    // Adds what a record of these samples is counted as: 1 to the count of its type, and the number of its expired samples to theirs.
    pub(crate) fn add_samples(
        &mut self,
        samples: &[SampleEntry],
        min_valid: i64,
    ) -> Result<(), CountFull>
        ensures more { OnOk result (self.new ≡ with_expired min_valid (Samples samples.now) (with_record (Samples samples.now) self.old)) }
        ensures over { OnErr result ((count_of_class (Samples samples.now) self.old ≡ count_limit) ⊎ IsExpiredOver min_valid (Samples samples.now) self.old) }
        ensures full { OnErr result (AreCountsWithin (with_expired min_valid (Samples samples.now) (with_record (Samples samples.now) self.old)) → ⊥) }
        ensures counted { count_of_class (Samples samples.now) self.old ≡ count_limit → IsErr result }
    {
        one_more(&mut self.sample_records)?;
        self.add_expired(count_expired(samples, min_valid), 0)
    }

    // Adds a number of series entries to their count.
    pub(crate) fn add_bound(&mut self, many: usize) -> Result<(), CountFull>
        ensures more { OnOk result (self.new ≡ record self.old { series_entries = self.old.series_entries + many }) }
        ensures full { OnErr result (count_limit < self.old.series_entries + many) }
    {
        self.series_entries = sum(self.series_entries, many as u64)?;
        Ok(())
    }

    // Adds 1 to the count of items whose reference has no owner.
    pub(crate) fn add_unknown(&mut self, item: &Item) -> Result<(), CountFull>
        ensures more { OnOk result (self.new ≡ with_fate (unknown_fate item.now) self.old) }
        ensures full { OnErr result (count_of_fate (unknown_fate item.now) self.old ≡ count_limit) }
    {
        match item {
            Item::Sample(_) => one_more(&mut self.unknown),
            Item::Stone(_) => one_more(&mut self.unknown_stones),
        }
    }
}
