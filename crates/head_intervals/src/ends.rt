//! When the samples of a head begin and end.

ghost use Rattle.std.specs.Prelude.{◌≡◌, ◌+◌, ◌/◌, ◌≤◌, ◌++◌, ℤ, List, IfOk, false, length, map};
ghost use Rattle.std.specs.List.{AllZip, range_with_len};
ghost use Rattle.head_column.specs.Samples.{Rises};
ghost use Rattle.head_intervals.specs.Intervals.{AreEnds, times_of};
ghost use Rattle.head_intervals.specs.Parts.{part_at, part_length, times_in};

use crate::parts::{part_bounds, part_count};
use head_column::Sample;
use head_core::Head;
use head_series::Slot;
use rayon::prelude::*;
use std::alloc::{AllocError, Global};
use std::thread::Threads;

// Returns the least and the greatest time of both these and those times, by those of each.
fn joined(these: Option<(i64, i64)>, those: Option<(i64, i64)>) -> Option<(i64, i64)>
    ensures { (ts us : List ℤ) → AreEnds ts these → AreEnds us those → AreEnds (ts ++ us) result }
{
    let Some((first, last)) = these else {
        return those;
    };
    let Some((begin, end)) = those else {
        return these;
    };
    Some((first.min(begin), last.max(end)))
}

// Returns the least and the greatest time of samples, if there are any.
fn ends_of_samples(samples: &[Sample]) -> Option<(i64, i64)>
    requires { Rises samples.now }
    ensures { AreEnds (map (λ s. s.time) samples.now) result }
{
    let first = samples.first()?;
    let last = samples.last()?;
    Some((first.time, last.time))
}

// Returns the least and the greatest time of a part's samples, if it has any. Returns an error if out of memory.
fn ends_of_part(head: &Head, series: u32, part: u32) -> Result<Option<(i64, i64)>, AllocError>
    requires sound { head.now.failed ≡ false }
    requires series { series ≡ length head.now.content.table.series }
    requires one_each { length head.now.content.histories ≡ length head.now.content.table.series }
    requires part { part ≤ series / part_length }
    ensures { IfOk result (AreEnds (times_in (part_at head.now.content.histories part))) }
{
    let mut ends = None;
    let (first, end) = part_bounds(series, part);
    for number in first..end {
        let samples = head.samples(Slot::new(number))?;
        ends = joined(ends, ends_of_samples(&samples));
    }
    Ok(ends)
}

// Returns the least and the greatest time of each part's samples, if it has any. Works in as many threads as there are processors. Returns an
// error if out of memory.
fn ends_of_parts(
    rt: &(impl Threads + Sync),
    alloc: Global,
    head: &Head,
    series: u32,
) -> Result<Vec<Option<(i64, i64)>>, AllocError>
    requires sound { head.now.failed ≡ false }
    requires series { series ≡ length head.now.content.table.series }
    requires one_each { length head.now.content.histories ≡ length head.now.content.table.series }
    ensures { IfOk result (λ each. AllZip (λ part ends. AreEnds (times_in (part_at head.now.content.histories part)) ends) (range_with_len 0 (series / part_length + 1)) each.items) }
{
    (0..part_count(series))
        .into_par_iter()
        .map(
            |part: u32| -> Result<Option<(i64, i64)>, AllocError>
                requires sound { head.now.failed ≡ false }
                requires series { series ≡ length head.now.content.table.series }
                requires one_each { length head.now.content.histories ≡ length head.now.content.table.series }
                requires part { part ≤ series / part_length }
                ensures { IfOk result (AreEnds (times_in (part_at head.entry.now.content.histories part))) }
            { ends_of_part(head, series, part) },
        )
        .collect::<Result<Vec<Option<(i64, i64)>>, AllocError>>(rt, alloc)?
}

/// Returns the least and the greatest time of a head's accepted samples, in milliseconds, or `None` if it has none. The head must not have failed.
/// Works in as many threads as `rt` has processors. Returns an error if out of memory.
pub fn ends_of(
    rt: &(impl Threads + Sync),
    alloc: Global,
    head: &Head,
) -> Result<Option<(i64, i64)>, AllocError>
    requires { head.now.failed ≡ false }
    ensures { IfOk result (AreEnds (times_of head.now.content)) }
{
    let series = head.series() as u32;
    let each = ends_of_parts(rt, alloc, head, series)?;
    let mut ends = None;
    for part in &each {
        ends = joined(ends, *part);
    }
    Ok(ends)
}
