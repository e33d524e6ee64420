//! The figures of all files of a log together.

ghost use Rattle.std.specs.Prelude.{◌≡◌, ◌+◌, ◌++◌, ◌∷◌, [], ℤ, IfOk, List, Some};
ghost use Rattle.std.specs.List.{sum_by};
ghost use Rattle.wal_survey.specs.Surveys.{AreEnds};
ghost use Rattle.inspect_files.specs.declared.files.FileSurvey.{FileSurvey as SurveyedFile};
ghost use Rattle.inspect_files.specs.Sums.{AreSumsOf, both_of, ends_of, records_in};

use crate::files::FileSurvey;
use std::alloc::AllocError;
use wal_survey::{KindCount, SkippedCount, with_time};

/// The figures of files together.
#[derive(Clone, Copy, Debug, PartialEq, Eq)]
pub struct Sums {
    /// The number of files.
    pub files: u64,
    pub bytes: u64,
    pub pages: u64,
    pub series: KindCount,
    pub samples: KindCount,
    pub stones: KindCount,
    /// The number of records of other types.
    pub skipped: u64,
    /// The least and the greatest time of a sample, in milliseconds. `None` if there is no sample.
    pub times: Option<(i64, i64)>,
}

// Returns the sum of two numbers, or an error if there is none.
fn sum(one: u64, other: u64) -> Result<u64, AllocError>
    ensures { IfOk result (λ n. n ≡ one + other) }
{
    one.checked_add(other).ok_or(AllocError)
}

// Returns the sums of two counts.
fn both(one: KindCount, other: KindCount) -> Result<KindCount, AllocError>
    ensures { IfOk result (λ count. count ≡ both_of one other) }
{
    Ok(KindCount {
        records: sum(one.records, other.records)?,
        entries: sum(one.entries, other.entries)?,
    })
}

/// Returns the number of records of these types. Returns an error if it exceeds 64 bits.
pub fn skipped_records(skipped: &[SkippedCount]) -> Result<u64, AllocError>
    ensures { IfOk result (λ n. n ≡ records_in skipped.now) }
{
    let mut records = 0;
    for count in skipped {
        records = sum(records, count.records)?;
    }
    Ok(records)
}

// Returns the least and the greatest of these times and those of a file.
fn with_ends(ends: Option<(i64, i64)>, file: Option<(i64, i64)>) -> Option<(i64, i64)>
    ensures { (times : List ℤ) → AreEnds times ends → AreEnds (times ++ ends_of file) result }
{
    match file {
        None => ends,
        Some((least, greatest)) => {
            let ends = with_time(ends, least);
            Some(with_time(Some(ends), greatest))
        }
    }
}

impl Sums {
    // Returns the sums with one more file.
    fn and(self, file: &FileSurvey) -> Result<Sums, AllocError>
        ensures { (files : List SurveyedFile) → AreSumsOf files self → IfOk result (AreSumsOf (files ++ file.now ∷ [])) }
    {
        let skipped = skipped_records(&file.survey.skipped)?;
        Ok(Sums {
            files: sum(self.files, 1)?,
            bytes: sum(self.bytes, file.bytes)?,
            pages: sum(self.pages, file.pages)?,
            series: both(self.series, file.survey.series)?,
            samples: both(self.samples, file.survey.samples)?,
            stones: both(self.stones, file.survey.stones)?,
            skipped: sum(self.skipped, skipped)?,
            times: with_ends(self.times, file.survey.times),
        })
    }
}

/// Returns the figures of these files together. Returns an error if a sum exceeds 64 bits.
pub fn sums_of(files: &[FileSurvey]) -> Result<Sums, AllocError>
    ensures { IfOk result (AreSumsOf files.now) }
{
    let none = KindCount {
        records: 0,
        entries: 0,
    };
    let mut sums = Sums {
        files: 0,
        bytes: 0,
        pages: 0,
        series: none,
        samples: none,
        stones: none,
        skipped: 0,
        times: None,
    };
    for file in files {
        sums = sums.and(file)?;
    }
    Ok(sums)
}
