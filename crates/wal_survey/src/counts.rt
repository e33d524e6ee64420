//! Counts of records, and the least and the greatest of times.

ghost use Rattle.std.specs.Prelude.{◌≡◌, ◌+◌, ◌<◌, ◌^◌, ◌++◌, ◌∷◌, [], ℕ, ℤ, All, IsOk, List, OnOk, Option, Some, map, nat_eq, position, true};
ghost use Rattle.std.specs.List.{list_any};
ghost use Rattle.std.specs.Option.{option_eq};
ghost use Rattle.wal_survey.specs.Surveys.{AreEnds, counts_of};

use std::alloc::AllocError;
use wal_record::SampleEntry;

/// How many records of one kind there are, and how many entries they have together.
#[derive(Clone, Copy, Debug, PartialEq, Eq)]
pub struct KindCount {
    pub records: u64,
    pub entries: u64,
}

impl KindCount {
    // Counts a record with this many entries. Returns an error if there is no such number.
    pub(crate) fn add(&mut self, entries: usize) -> Result<(), AllocError>
        ensures counted { OnOk result (self.new ≡ record { records = self.old.records + 1; entries = self.old.entries + entries }) }
        // Nothing is allocated.
        ensures few { self.old.records + 1 < 2 ^ 64 → self.old.entries + entries < 2 ^ 64 → IsOk result }
    {
        self.records = self.records.checked_add(1).ok_or(AllocError)?;
        self.entries = self.entries.checked_add(entries as u64).ok_or(AllocError)?;
        Ok(())
    }
}

/// How many records there are of one other type: the type byte, or `None` for the record of no bytes, and the number of its records.
#[derive(Clone, Copy, Debug, PartialEq, Eq)]
pub struct SkippedCount {
    pub kind: Option<u8>,
    pub records: u64,
}

// Returns the index of the count of this type, if there is one.
fn place_of(skipped: &[SkippedCount], kind: Option<u8>) -> Option<usize>
    ensures { result ≡ position (λ count. option_eq nat_eq count.kind kind) skipped.now }
{
    skipped.iter().position(|count| count.kind == kind)
}

/// Counts a record of this type. Returns an error if out of memory, or if there is no such number.
pub(crate) fn count_skipped(
    skipped: &mut Vec<SkippedCount>,
    kind: Option<u8>,
) -> Result<(), AllocError>
    ensures counted { (kinds : List (Option ℕ)) → skipped.old.items ≡ counts_of kinds → OnOk result (skipped.new.items ≡ counts_of (kinds ++ kind ∷ [])) }
    // For a type that was met before nothing is allocated.
    ensures few { list_any (λ count. option_eq nat_eq count.kind kind) skipped.old.items ≡ true → All (λ count. count.records + 1 < 2 ^ 64) skipped.old.items → IsOk result }
{
    match place_of(skipped, kind) {
        Some(at) => {
            let records = skipped[at].records.checked_add(1).ok_or(AllocError)?;
            skipped[at] = SkippedCount { kind, records };
        }
        None => skipped.push(SkippedCount { kind, records: 1 })?,
    }
    Ok(())
}

/// Returns the least and the greatest of these times, in milliseconds, and one more.
pub fn with_time(ends: Option<(i64, i64)>, time: i64) -> (i64, i64)
    ensures { (times : List ℤ) → AreEnds times ends → AreEnds (times ++ time ∷ []) (Some result) }
{
    match ends {
        None => (time, time),
        Some((least, greatest)) => (least.min(time), greatest.max(time)),
    }
}

/// Returns the least and the greatest of these times and the times of more samples.
pub(crate) fn with_samples(ends: Option<(i64, i64)>, samples: &[SampleEntry]) -> Option<(i64, i64)>
    ensures { (times : List ℤ) → AreEnds times ends → AreEnds (times ++ map (λ s. s.time) samples.now) result }
{
    let mut ends = ends;
    for sample in samples {
        ends = Some(with_time(ends, sample.time));
    }
    ends
}
