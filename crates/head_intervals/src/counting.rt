//! The samples and series of a head in each interval.

ghost use Rattle.std.specs.Prelude.{◌≡◌, ◌+◌, ◌/◌, ◌<◌, ◌≤◌, ◌∷◌, ◌++◌, [], List, IfOk, OnOk, false, length};
ghost use Rattle.std.specs.List.{AllZip, range_with_len};
ghost use Rattle.head_column.specs.Histories.{History};
ghost use Rattle.head_core.specs.Heads.{history_at};
ghost use Rattle.head_intervals.specs.Intervals.{AreCounts, first_times_of, most_intervals, times_of};
ghost use Rattle.head_intervals.specs.Parts.{AreHeadCounts, part_at, part_length};

use crate::counts::{add_counts, add_samples, add_time, no_counts};
use crate::intervals::Intervals;
use crate::parts::{part_bounds, part_count};
use head_core::Head;
use head_series::Slot;
use rayon::prelude::*;
use std::alloc::{AllocError, Global};
use std::thread::Threads;

/// How much of a head is in each interval.
#[derive(Debug, Drop)]
pub struct HeadCounts {
    /// The number of accepted samples.
    pub samples: Vec<u64>,
    /// The number of series whose first accepted sample is there.
    pub series: Vec<u64>,
}

impl HeadCounts {
    // Makes the counts of no series.
    fn new(alloc: Global, intervals: &Intervals) -> Result<HeadCounts, AllocError>
        requires { intervals.now.count ≤ most_intervals }
        ensures { IfOk result (AreHeadCounts intervals.now []) }
    {
        Ok(HeadCounts {
            samples: no_counts(alloc, intervals)?,
            series: no_counts(alloc, intervals)?,
        })
    }

    // Counts one more series. Returns an error if out of memory.
    fn add_series(
        &mut self,
        head: &Head,
        slot: Slot,
        intervals: &Intervals,
    ) -> Result<(), AllocError>
        requires sound { head.now.failed ≡ false }
        requires slot { slot < length head.now.content.table.series }
        requires wide { 0 < intervals.now.width }
        ensures { (before : List History) → AreHeadCounts intervals.now before self.old
            → OnOk result (AreHeadCounts intervals.now (before ++ history_at head.now.content slot ∷ []) self.new) }
    {
        let samples = head.samples(slot)?;
        add_samples(&mut self.samples, intervals, &samples)?;
        if let Some(first) = samples.first() {
            add_time(&mut self.series, intervals, first.time)?;
        }
        Ok(())
    }

    // Adds the counts of more series. Returns an error if there is no such count.
    fn add_all(&mut self, more: &HeadCounts) -> Result<(), AllocError>
        requires samples { length self.old.samples.items ≡ length more.now.samples.items }
        requires series { length self.old.series.items ≡ length more.now.series.items }
        ensures { (intervals : _) (before these : List History) → AreHeadCounts intervals before self.old → AreHeadCounts intervals these more.now
            → OnOk result (AreHeadCounts intervals (before ++ these) self.new) }
    {
        add_counts(&mut self.samples, &more.samples)?;
        add_counts(&mut self.series, &more.series)
    }
}

// Counts the series of a part. Returns an error if out of memory.
fn counts_of_part(
    alloc: Global,
    head: &Head,
    intervals: &Intervals,
    part: u32,
) -> Result<HeadCounts, AllocError>
    requires sound { head.now.failed ≡ false }
    requires part { part ≤ length head.now.content.table.series / part_length }
    requires wide { 0 < intervals.now.width }
    requires few { intervals.now.count ≤ most_intervals }
    ensures { IfOk result (AreHeadCounts intervals.now (part_at head.now.content.histories part)) }
{
    let mut counts = HeadCounts::new(alloc, intervals)?;
    let (first, end) = part_bounds(head.series() as u32, part);
    for number in first..end {
        counts.add_series(head, Slot::new(number), intervals)?;
    }
    Ok(counts)
}

// Counts the series of each part. Works in as many threads as there are processors. Returns an error if out of memory.
fn counts_of_parts(
    rt: &(impl Threads + Sync),
    alloc: Global,
    head: &Head,
    intervals: &Intervals,
    parts: u32,
) -> Result<Vec<HeadCounts>, AllocError>
    requires sound { head.now.failed ≡ false }
    requires parts { parts ≡ length head.now.content.table.series / part_length + 1 }
    requires wide { 0 < intervals.now.width }
    requires few { intervals.now.count ≤ most_intervals }
    ensures { IfOk result (λ counts. AllZip (λ part c. AreHeadCounts intervals.now (part_at head.now.content.histories part) c) (range_with_len 0 parts) counts.items) }
{
    (0..parts)
        .into_par_iter()
        .map(
            |part: u32| -> Result<HeadCounts, AllocError>
                requires sound { head.now.failed ≡ false }
                requires part { part ≤ length head.now.content.table.series / part_length }
                requires wide { 0 < intervals.now.width }
                requires few { intervals.now.count ≤ most_intervals }
                ensures { IfOk result (AreHeadCounts intervals.entry.now (part_at head.entry.now.content.histories part)) }
            { counts_of_part(alloc, head, intervals, part) },
        )
        .collect::<Result<Vec<HeadCounts>, AllocError>>(rt, alloc)?
}

/// Counts the accepted samples of a head, and its series by their first one, in each interval. The head must not have failed. Works in as many
/// threads as `rt` has processors. Returns an error if out of memory.
pub fn counts_in(
    rt: &(impl Threads + Sync),
    alloc: Global,
    head: &Head,
    intervals: &Intervals,
) -> Result<HeadCounts, AllocError>
    requires sound { head.now.failed ≡ false }
    requires wide { 0 < intervals.now.width }
    requires few { intervals.now.count ≤ most_intervals }
    ensures samples { IfOk result (λ counts. AreCounts intervals.now (times_of head.now.content) counts.samples.items) }
    ensures series { IfOk result (λ counts. AreCounts intervals.now (first_times_of head.now.content) counts.series.items) }
{
    let parts = part_count(head.series() as u32);
    let each = counts_of_parts(rt, alloc, head, intervals, parts)?;
    let mut counts = HeadCounts::new(alloc, intervals)?;
    for part in &each {
        counts.add_all(part)?;
    }
    Ok(counts)
}
