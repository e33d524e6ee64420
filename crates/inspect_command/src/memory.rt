//! About how much memory commands take over a log.

ghost use Rattle.std.specs.Prelude.{◌<◌};

use inspect_files::{FileSurvey, Sums};

/// The memory for a log of fewer bytes is no matter.
const LEAST_BYTES: u64 = 16 << 20;

// About how many bytes a replay by four workers takes without series, and for a series.
const REPLAY_BYTES: u64 = 29 << 20;

const REPLAY_SERIES_BYTES: u64 = 330;

// About how many bytes more a head takes for the items that wait for its workers, for a series, and for a sample, whose value mostly changes in
// few bits.
const WAITING_BYTES: u64 = 13 << 20;

const SERIES_BYTES: u64 = 600;

const SAMPLE_BYTES: u64 = 6;

// About how many bytes an hour takes that is cut without series and samples, and for a series, with its part of the index.
const CUT_BYTES: u64 = 18 << 20;

const CUT_SERIES_BYTES: u64 = 2_500;

// About how many bytes of memory five bytes of a file take while it is unpacked, with its text.
const UNPACKED_FIFTHS: u64 = 12;

const HOUR: u64 = 3_600_000;

const MEBIBYTE: u64 = 1 << 20;

/// About how many MiB commands take by four workers: `replay`, `series`, and `cut` of an hour with as many samples as there are on average; and how
/// many more they take with `-z`.
#[derive(Clone, Copy, Debug)]
pub(crate) struct Memory {
    pub(crate) replay: u64,
    pub(crate) series: u64,
    pub(crate) cut: u64,
    pub(crate) unpacking: u64,
}

// Returns how many hours there are from the least time to the greatest, begun ones too.
fn hours(times: Option<(i64, i64)>) -> u64
    ensures { 0 < result }
{
    let Some((first, last)) = times else {
        return 1;
    };
    let between = u64::try_from(last.saturating_sub(first)).unwrap_or(0);
    between / HOUR + 1
}

// Returns how many bytes the largest file has.
fn largest(files: &[FileSurvey]) -> u64 {
    let mut most: u64 = 0;
    for file in files {
        most = most.max(file.bytes);
    }
    most
}

// Returns a number of bytes in MiB.
fn mebibytes(bytes: u64) -> u64 {
    bytes / MEBIBYTE
}

/// Returns about how much memory commands take over a log, unless it has few bytes.
pub(crate) fn memory_of(sums: &Sums, files: &[FileSurvey]) -> Option<Memory> {
    if sums.bytes < LEAST_BYTES {
        return None;
    }
    let (series, samples) = (sums.series.entries, sums.samples.entries);
    let replay = series
        .saturating_mul(REPLAY_SERIES_BYTES)
        .saturating_add(REPLAY_BYTES);
    let head = series
        .saturating_mul(SERIES_BYTES)
        .saturating_add(WAITING_BYTES)
        .saturating_add(replay);
    let cut = series
        .saturating_mul(CUT_SERIES_BYTES)
        .saturating_add(CUT_BYTES);
    let in_hour = samples / hours(sums.times);
    Some(Memory {
        replay: mebibytes(replay),
        series: mebibytes(samples.saturating_mul(SAMPLE_BYTES).saturating_add(head)),
        cut: mebibytes(in_hour.saturating_mul(SAMPLE_BYTES).saturating_add(cut)),
        unpacking: mebibytes(largest(files).saturating_mul(UNPACKED_FIFTHS) / 5),
    })
}
