//! The survey of records, one after another.

ghost use Rattle.std.specs.Prelude.{◌≡◌, ◌+◌, ◌++◌, ◌∷◌, [], ℕ, IfOk, List, OnOk, length};
ghost use Rattle.std.specs.List.{filter_map, sum_by};
ghost use Rattle.wal_record.specs.declared.record.WalRecord.{WalRecord as LogRecord};
ghost use Rattle.wal_record.specs.declared.record.WalRecord.TheVariants.{Samples};
ghost use Rattle.wal_unpack.specs.declared.fault.Passed.{Passed as PassedBytes};
ghost use Rattle.wal_unpack.specs.declared.unpacking.UnpackedRecord.{UnpackedRecord};
ghost use Rattle.wal_unpack.specs.Salvage.{Event, PassedOver, Taken, records_in};
ghost use Rattle.wal_survey.specs.Surveys.{IsReadableOf, IsSurveyOf, sample_entries};
ghost use Rattle.wal_survey.specs.Taking.{HasCounted};

use crate::counts::{KindCount, SkippedCount, count_skipped, with_samples};
use std::alloc::{AllocError, Global};
use wal_record::{SampleEntry, WalRecord};
use wal_unpack::{Passed, UnpackDamage};

/// What can be read of a file: the records of all its stretches, and what is passed over.
#[derive(Clone, Copy, Debug, PartialEq, Eq)]
pub struct Readable {
    pub records: u64,
    pub samples: u64,
    /// How often something is passed over.
    pub places: u64,
    /// How many bytes are passed over.
    pub passed: u64,
}

// Returns how many samples a record has.
fn samples_in(record: &WalRecord) -> usize
    ensures { result ≡ sum_by length (filter_map sample_entries (record.now ∷ [])) }
{
    match record {
        WalRecord::Samples(entries) => entries.len(),
        _ => 0,
    }
}

// Returns a number with another added, or an error if there is no such number.
fn sum(one: u64, other: u64) -> Result<u64, AllocError>
    ensures { IfOk result (λ n. n ≡ one + other) }
{
    one.checked_add(other).ok_or(AllocError)
}

impl Readable {
    // Counts a record. Returns an error if there is no such number.
    fn add(&mut self, record: &WalRecord) -> Result<(), AllocError>
        ensures { (records : List LogRecord) (passed : List PassedBytes) → IsReadableOf records passed self.old → OnOk result (IsReadableOf (records ++ record.now ∷ []) passed self.new) }
    {
        self.records = sum(self.records, 1)?;
        self.samples = sum(self.samples, samples_in(record) as u64)?;
        Ok(())
    }

    // Counts what is passed over. Returns an error if there is no such number.
    fn pass(&mut self, passed: Passed) -> Result<(), AllocError>
        ensures { (records : List LogRecord) (before : List PassedBytes) → IsReadableOf records before self.old → OnOk result (IsReadableOf records (before ++ passed ∷ []) self.new) }
    {
        self.places = sum(self.places, 1)?;
        self.passed = sum(self.passed, passed.bytes)?;
        Ok(())
    }
}

/// What a file of a log holds up to its first damage: how many records of each kind, and that damage, if there is any. And how much of it can
/// be read, also after damage.
#[derive(Debug, Drop)]
pub struct Survey {
    pub series: KindCount,
    pub samples: KindCount,
    pub stones: KindCount,
    /// The records of other types. Each type is there once, in the order of first sight.
    pub skipped: Vec<SkippedCount>,
    /// The least and the greatest time of a sample, in milliseconds. `None` if there is no sample.
    pub times: Option<(i64, i64)>,
    /// The first damage, or the first hole.
    pub damage: Option<UnpackDamage>,
    pub readable: Readable,
}

impl Survey {
    /// Makes the survey of no records.
    pub(crate) fn new(alloc: Global) -> Survey
        ensures { HasCounted [] [] result }
    {
        let none = KindCount {
            records: 0,
            entries: 0,
        };
        Survey {
            series: none,
            samples: none,
            stones: none,
            skipped: Vec::new(alloc),
            times: None,
            damage: None,
            readable: Readable {
                records: 0,
                samples: 0,
                places: 0,
                passed: 0,
            },
        }
    }

    // Counts a record of these samples. Returns an error if out of memory.
    fn add_samples(&mut self, samples: &[SampleEntry]) -> Result<(), AllocError>
        ensures counted { (records : List LogRecord) → IsSurveyOf records self.old → OnOk result (IsSurveyOf (records ++ Samples samples.now ∷ []) self.new) }
        ensures damage { self.new.damage ≡ self.old.damage }
        ensures readable { self.new.readable ≡ self.old.readable }
    {
        self.samples.add(samples.len())?;
        self.times = with_samples(self.times, samples);
        Ok(())
    }

    // Counts a record before the first damage. Returns an error if out of memory.
    fn add(&mut self, record: &WalRecord) -> Result<(), AllocError>
        ensures counted { (records : List LogRecord) → IsSurveyOf records self.old → OnOk result (IsSurveyOf (records ++ record.now ∷ []) self.new) }
        ensures damage { self.new.damage ≡ self.old.damage }
        ensures readable { self.new.readable ≡ self.old.readable }
    {
        match record {
            WalRecord::Series(entries) => self.series.add(entries.len()),
            WalRecord::Samples(entries) => self.add_samples(entries.as_slice()),
            WalRecord::Stones(entries) => self.stones.add(entries.len()),
            WalRecord::Other(kind) => count_skipped(&mut self.skipped, *kind),
        }
    }

    /// Counts the next record that can be read; before the first damage also by its kind. Returns an error if out of memory.
    pub(crate) fn accept(&mut self, record: &WalRecord) -> Result<(), AllocError>
        ensures { (events : List Event) (records : List LogRecord) (r : UnpackedRecord) → length records ≡ length (records_in events) → HasCounted events records self.old
            → OnOk result (HasCounted (events ++ Taken r ∷ []) (records ++ record.now ∷ []) self.new) }
    {
        if self.damage.is_some() {
            return self.readable.add(record);
        }
        self.add(record)?;
        self.readable.add(record)
    }

    /// Notes damage, if it is the first, and counts what is passed over. Returns an error if there is no such number.
    pub(crate) fn pass(&mut self, passed: Passed) -> Result<(), AllocError>
        ensures { (events : List Event) (records : List LogRecord) → HasCounted events records self.old → OnOk result (HasCounted (events ++ PassedOver passed ∷ []) records self.new) }
    {
        self.damage = Some(self.damage.unwrap_or(passed.damage));
        self.readable.pass(passed)
    }
}
