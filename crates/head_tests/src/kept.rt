//! Replays that keep the samples of some times alone.

use crate::log_lines::{Line, Log, NO_FILES, input_of};
use crate::logs::{WORKERS, by};
use crate::same;
use crate::worked::WORKED;
use head_column::Run;
use head_core::{Head, Slot};
use head_replay::{NoGate, Options, replay_at};
use head_serial::{Replayed, replay_serial_from};
use std::alloc::{AllocError, Global};
use std::process::Abort;
use std::sync::Wait;
use std::test::Fail;
use std::thread::Threads;
use wal_log::Input;

// Stale, equal, unknown and expired samples of two series, and deletions, each on both sides of other times.
const MIXED: Log = Log {
    segments: &[&[
        Line::Samples(&[(1, 10, 1)]),
        Line::Series(&[(1, b"a", b"x"), (2, b"a", b"y")]),
        Line::Samples(&[(1, 20, 2), (2, 20, 3), (1, 30, 4), (1, 30, 5)]),
        Line::Stones(&[(1, 15, 25), (2, 30, 50), (1, 40, 35)]),
        Line::Samples(&[(1, 25, 6), (2, 40, 7), (1, 40, 8), (3, 40, 9)]),
        Line::Samples(&[(2, 20, 1), (1, 50, 2), (2, 50, 3), (1, 45, 4)]),
        Line::Stones(&[(1, 45, 60), (3, 0, 9)]),
        Line::Samples(&[(2, i64::MIN, 1), (1, i64::MAX, 2), (2, i64::MAX, 3)]),
    ]],
    ..NO_FILES
};

// The times of all samples and deletions of a series, and those after its samples.
fn push_edges(edges: &mut Vec<i64>, head: &Head, slot: Slot) -> Result<(), AllocError> {
    if head.is_failed() || head.series() <= slot.index() {
        return Ok(());
    }
    for sample in head.samples(slot)? {
        edges.push(sample.time)?;
        edges.push(sample.time.saturating_add(1))?;
    }
    for run in head.hidden(slot) {
        edges.push(run.min_time)?;
        edges.push(run.max_time)?;
    }
    Ok(())
}

// Those of all series, and the least and the greatest time.
fn edges_of(alloc: Global, head: &Head) -> Result<Vec<i64>, AllocError> {
    let mut edges = Vec::new(alloc);
    edges.push(i64::MIN)?;
    edges.push(i64::MAX)?;
    if !head.is_failed() {
        for slot in head.all() {
            push_edges(&mut edges, head, *slot)?;
        }
    }
    edges.sort_unstable();
    edges.dedup();
    Ok(edges)
}

// What is kept of a series, of its samples those at these times.
fn push_series(text: &mut String, head: &Head, slot: Slot, times: Run) -> Result<(), AllocError> {
    if head.is_failed() || head.series() <= slot.index() {
        return Ok(());
    }
    let labels = head.labels(slot)?;
    let reference = head.reference(slot);
    let hidden = head.hidden(slot);
    write!(text, "{labels:?} {reference:?} {hidden:?}")?;
    for sample in head.samples(slot)? {
        if times.spans(sample.time) {
            write!(text, " {sample:?}")?;
        }
    }
    text.push('\n')
}

// All that a head keeps, of the samples those at these times.
fn kept_of(alloc: Global, head: &Head, times: Run) -> Result<String, AllocError> {
    let mut text = String::new(alloc);
    if head.is_failed() {
        text.push_str("failed")?;
        return Ok(text);
    }
    let (counts, series) = (head.counts(), head.series());
    let (max_time, min_valid) = (head.max_time(), head.min_valid());
    write!(text, "{counts:?} {series} {max_time:?} {min_valid}\n")?;
    for slot in head.all() {
        push_series(&mut text, head, *slot, times)?;
    }
    Ok(text)
}

// The times between each two of these.
fn between_each_two(alloc: Global, edges: &[i64]) -> Result<Vec<Run>, AllocError> {
    let mut runs = Vec::new(alloc);
    for min_time in edges {
        for max_time in edges {
            runs.push(run!(*min_time, *max_time))?;
        }
    }
    Ok(runs)
}

// Each of these times, and those before and after it.
fn at_each(alloc: Global, edges: &[i64]) -> Result<Vec<Run>, AllocError> {
    let mut runs = Vec::new(alloc);
    for edge in edges {
        runs.push(run!(*edge, *edge))?;
        runs.push(run!(i64::MIN, *edge))?;
        runs.push(run!(*edge, i64::MAX))?;
    }
    Ok(runs)
}

// That replays by several numbers of workers keep just the samples of each of these times.
fn check_log<R: Abort + Threads + Wait + Sync>(
    rt: &R,
    alloc: Global,
    input: &Input,
    min_valid: i64,
    whole: &Replayed,
    runs: &[Run],
) -> Result<(), Fail> {
    for (turn, times) in runs.iter().enumerate() {
        let workers = WORKERS[turn % WORKERS.len()];
        let options = Options {
            min_valid,
            ..by(workers)
        };
        let kept = replay_at(rt, alloc, input, &options, *times, &NoGate)?;
        let found = kept_of(alloc, &kept.head, Run::always())?;
        let wanted = kept_of(alloc, &whole.head, *times)?;
        same(rt, (workers, *times), kept.damage, whole.damage);
        same(rt, (workers, *times), found, wanted);
    }
    Ok(())
}

#[test]
fn times_of_worked_logs(rt: HostRuntime) -> Result<(), Fail> {
    let alloc = rt.alloc();
    for case in WORKED {
        let input = input_of(alloc, case.log)?;
        let whole = replay_serial_from(alloc, &input, i64::MIN)?;
        let runs = at_each(alloc, &edges_of(alloc, &whole.head)?)?;
        check_log(&rt, alloc, &input, i64::MIN, &whole, &runs)?;
    }
    Ok(())
}

#[test]
fn times_between_stale_unknown_and_expired_samples(rt: HostRuntime) -> Result<(), Fail> {
    let alloc = rt.alloc();
    let input = input_of(alloc, MIXED)?;
    for min_valid in [i64::MIN, 20, 21, 45, i64::MAX] {
        let whole = replay_serial_from(alloc, &input, min_valid)?;
        let runs = between_each_two(alloc, &edges_of(alloc, &whole.head)?)?;
        check_log(&rt, alloc, &input, min_valid, &whole, &runs)?;
    }
    Ok(())
}
