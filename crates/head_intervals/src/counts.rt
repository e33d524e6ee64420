//! Counts of times, one for each interval.

ghost use Rattle.std.specs.Prelude.{◌≡◌, ◌+◌, ◌<◌, ◌≤◌, ◌∷◌, ◌++◌, [], List, IfOk, OnOk, ℕ, ℤ, length, map, slice_index};
ghost use Rattle.head_intervals.specs.Intervals.{AreCounts, most_intervals};

use crate::intervals::Intervals;
use head_column::Sample;
use std::alloc::{AllocError, Global};

/// Returns the counts of no times: 0 for each interval.
pub fn no_counts(alloc: Global, intervals: &Intervals) -> Result<Vec<u64>, AllocError>
    requires { intervals.now.count ≤ most_intervals }
    ensures { IfOk result (λ counts. AreCounts intervals.now [] counts.items) }
{
    vec![in alloc; 0; intervals.count as usize]
}

/// Counts one more time in its interval, if one has it. Returns an error if there is no such count.
pub fn add_time(counts: &mut Vec<u64>, intervals: &Intervals, time: i64) -> Result<(), AllocError>
    requires { 0 < intervals.now.width }
    ensures { (times : List ℤ) → AreCounts intervals.now times counts.old.items → OnOk result (AreCounts intervals.now (times ++ time ∷ []) counts.new.items) }
{
    if let Some(place) = intervals.place(time) {
        if place < counts.len() {
            counts[place] = counts[place].checked_add(1).ok_or(AllocError)?;
        }
    }
    Ok(())
}

// Counts the times of more samples. Returns an error if there is no such count.
pub(crate) fn add_samples(
    counts: &mut Vec<u64>,
    intervals: &Intervals,
    samples: &[Sample],
) -> Result<(), AllocError>
    requires { 0 < intervals.now.width }
    ensures { (times : List ℤ) → AreCounts intervals.now times counts.old.items → OnOk result (AreCounts intervals.now (times ++ map (λ s. s.time) samples.now) counts.new.items) }
{
    for sample in samples {
        add_time(counts, intervals, sample.time)?;
    }
    Ok(())
}

// Adds the counts of other times to counts, of which there are as many. Returns an error if there is no such count.
pub(crate) fn add_counts(counts: &mut Vec<u64>, more: &[u64]) -> Result<(), AllocError>
    requires { length counts.old.items ≡ length more.now }
    ensures len { length counts.new.items ≡ length counts.old.items }
    ensures sums { OnOk result ((k : ℕ) → slice_index counts.new.items k ≡ slice_index counts.old.items k + slice_index more.now k) }
{
    for place in 0..more.len() {
        counts[place] = counts[place].checked_add(more[place]).ok_or(AllocError)?;
    }
    Ok(())
}
