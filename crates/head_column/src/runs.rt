//! Merging and cutting runs of hidden times.

ghost use Rattle.std.specs.Prelude.{◌≡◌, ◌+◌, ◌<◌, ◌≤◌, ◌∷◌, ◌++◌, [], All, IfOk, IsOk, OnErr, OnOk, drop, int_lt, length, take, vec_len};
ghost use Rattle.std.specs.Vec.{vec_capacity};
ghost use Rattle.head_column.specs.Merging.{absorb, ends_before, span_of, with_run, with_runs};
ghost use Rattle.head_column.specs.Runs.{AreApart, IsRun};
ghost use Rattle.head_column.specs.Validity.{raise_first, runs_from};

use crate::Run;
use std::alloc::{AllocError, Global};

// Returns whether the first run ends before the second begins, with a time between them. Does not overflow at the greatest time.
fn ends_before(first: &Run, second: &Run) -> bool
    ensures { result ≡ ends_before first.now second.now }
{
    first.max_time < second.min_time && first.max_time + 1 < second.min_time
}

// Returns the least run that contains both.
fn span_of(first: &Run, second: &Run) -> Run
    ensures { result ≡ span_of first.now second.now }
{
    Run {
        min_time: first.min_time.min(second.min_time),
        max_time: first.max_time.max(second.max_time),
    }
}

// Returns the number of runs that end before the run, by binary search.
fn count_before(runs: &[Run], run: &Run) -> usize
    requires { AreApart runs.now }
    ensures within { result ≤ length runs.now }
    ensures front { with_run runs.now run.now ≡ take result runs.now ++ absorb (drop result runs.now) run.now }
{
    runs.partition_point(
        |other: &Run| -> bool
            ensures { result ≡ ends_before other.now run.entry.now }
        { ends_before(other, run) },
    )
}

// Returns the place of the first run after those that `run` touches, which begin at place `first`, and the run made of all these.
fn absorbed(runs: &[Run], first: usize, run: &Run) -> (usize, Run)
    requires { first ≤ length runs.now }
    ensures from { first ≤ result.0 }
    ensures within { result.0 ≤ length runs.now }
    ensures rest { absorb (drop first runs.now) run.now ≡ result.1 ∷ drop result.0 runs.now }
{
    let mut whole = *run;
    let mut last = first;
    while last < runs.len() && !ends_before(&whole, &runs[last]) {
        whole = span_of(&runs[last], &whole);
        last += 1;
    }
    (last, whole)
}

/// Adds a run, merged with those that it touches. Returns an error if out of memory; the runs are then unchanged.
pub(crate) fn merge(runs: &mut Vec<Run>, run: Run) -> Result<(), AllocError>
    requires { AreApart runs.old.items }
    ensures merged { OnOk result (runs.new.items ≡ with_run runs.old.items run) }
    ensures kept { OnErr result (runs.new.items ≡ runs.old.items) }
    ensures room { vec_len runs.old < vec_capacity runs.old → IsOk result }
    ensures grows { vec_len runs.new ≤ vec_len runs.old + 1 }
    ensures capacity { vec_capacity runs.old ≤ vec_capacity runs.new }
{
    let first = count_before(runs, &run);
    let (last, whole) = absorbed(runs, first, &run);
    if first == last {
        runs.insert(first, whole)?;
    } else {
        runs[first] = whole;
        runs.drain(first + 1..last);
    }
    Ok(())
}

// Merges runs, which may come in any order. Takes O(n log n) time if their least times ascend.
fn merge_all(alloc: Global, runs: &[Run]) -> Result<Vec<Run>, AllocError>
    requires { All IsRun runs.now }
    ensures { IfOk result (λ merged. merged.items ≡ with_runs [] runs.now) }
{
    let mut merged = Vec::new(alloc);
    for run in runs {
        merge(&mut merged, *run)?;
    }
    Ok(merged)
}

/// Returns the runs with more of them, which may come in any order. Takes O(n log n) time, where n counts all these runs, and memory
/// for a constant multiple of n. Returns an error if out of memory.
pub(crate) fn join(alloc: Global, runs: &[Run], more: &[Run]) -> Result<Vec<Run>, AllocError>
    requires apart { AreApart runs.now }
    requires some { All IsRun more.now }
    ensures { IfOk result (λ joined. joined.items ≡ with_runs runs.now more.now) }
{
    let mut all = Vec::with_capacity(alloc, runs.len())?;
    all.extend_from_slice(runs)?;
    all.extend_from_slice(more)?;
    all.sort_unstable_by_key(|run| run.min_time);
    merge_all(alloc, &all)
}

// Returns the number of runs that end before the time, by binary search.
fn count_expired(runs: &[Run], time: i64) -> usize
    requires { AreApart runs.now }
    ensures within { result ≤ length runs.now }
    ensures rest { runs_from time runs.now ≡ raise_first time (drop result runs.now) }
{
    runs.partition_point(
        |run: &Run| -> bool
            ensures { result ≡ int_lt run.now.max_time time }
        { run.max_time < time },
    )
}

// Drops the times before `time` from the first run, if there is one.
fn raise(runs: &mut [Run], time: i64)
    ensures { runs.new ≡ raise_first time runs.old }
{
    if !runs.is_empty() {
        let first = runs[0];
        runs[0] = Run {
            min_time: first.min_time.max(time),
            max_time: first.max_time,
        };
    }
}

/// Drops the times before `time` from the runs. Allocates nothing.
pub(crate) fn cut(runs: &mut Vec<Run>, time: i64)
    requires { AreApart runs.old.items }
    ensures left { runs.new.items ≡ runs_from time runs.old.items }
    ensures fewer { vec_len runs.new ≤ vec_len runs.old }
    ensures capacity { vec_capacity runs.new ≡ vec_capacity runs.old }
{
    let gone = count_expired(runs, time);
    runs.drain(..gone);
    raise(runs, time);
}
