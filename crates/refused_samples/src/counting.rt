//! Samples that a head does not keep, counted one after another.

ghost use Rattle.std.specs.Prelude.{◌<◌, List, OnOk, ℤ};
ghost use Rattle.head_intervals.specs.Intervals.{AreCounts};
ghost use Rattle.refused_samples.specs.Replaying.{with_grown};

use head_intervals::{Intervals, add_time};
use std::alloc::AllocError;

/// How many samples that are not kept are in each interval.
#[derive(Debug, Drop)]
pub struct RefusedCounts {
    /// Those that came late: their series had a sample of the same time or a later one.
    pub stale: Vec<u64>,
    /// Those whose reference no series had.
    pub unknown: Vec<u64>,
}

/// Counts one more time if the number of samples of its kind has grown. Returns an error if there is no such count.
pub(crate) fn add_grown(
    counts: &mut Vec<u64>,
    intervals: &Intervals,
    time: i64,
    before: u64,
    after: u64,
) -> Result<(), AllocError>
    requires { 0 < intervals.now.width }
    ensures { (times : List ℤ) → AreCounts intervals.now times counts.old.items → OnOk result (AreCounts intervals.now (with_grown before after time times) counts.new.items) }
{
    if before == after {
        return Ok(());
    }
    add_time(counts, intervals, time)
}
