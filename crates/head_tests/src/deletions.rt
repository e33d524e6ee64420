//! Many deletions of one series, which do not come in the order of their times.

use crate::log_lines::log_of;
use crate::logs::by;
use crate::{one, same};
use head_column::Run;
use head_core::{Head, HeadFault, Slot};
use head_replay::{NoGate, replay};
use std::alloc::{AllocError, Global};
use std::process::Abort;
use std::sync::Wait;
use std::test::Fail;
use std::thread::Threads;
use wal_log::{Input, LogWriter};
use wal_record::{LabelSet, SeriesEntry, StoneEntry, encode_series, encode_stones};

// A prime. The numbers from 1 to the one before it are deleted.
const PRIME: u64 = 100_003;

// The order of the numbers.
#[derive(Clone, Copy, Debug)]
enum Order {
    Falling,
    // By their products with a step, modulo the prime.
    Scrambled,
}

// The number at a place, which is counted from 1.
fn number_at(order: Order, place: u64) -> u64 {
    match order {
        Order::Falling => PRIME.saturating_sub(place),
        Order::Scrambled => place.wrapping_mul(61_803) % PRIME,
    }
}

// Twice a number, and so many milliseconds more.
fn time_of(number: u64, more: i64) -> i64 {
    number.cast_signed().saturating_mul(2).saturating_add(more)
}

// A record of deletions of a time each.
fn deletions(alloc: Global, order: Order, more: i64) -> Result<Vec<u8>, AllocError> {
    let mut entries = Vec::new(alloc);
    for place in 1..PRIME {
        let time = time_of(number_at(order, place), more);
        entries.push(StoneEntry {
            reference: 1,
            min_time: time,
            max_time: time,
        })?;
    }
    encode_stones(alloc, &entries)
}

// The runs of the even times.
fn even_runs(alloc: Global) -> Result<Vec<Run>, AllocError> {
    let mut runs = Vec::new(alloc);
    for number in 1..PRIME {
        let time = time_of(number, 0);
        runs.push(run!(time, time))?;
    }
    Ok(runs)
}

// The record of one series.
fn series(alloc: Global) -> Result<Vec<u8>, AllocError> {
    let mut labels = LabelSet::new(alloc);
    if labels.push(b"a", b"x").is_err() {
        return Err(AllocError);
    }
    let reference = 1;
    encode_series(alloc, &one(alloc, SeriesEntry { reference, labels })?)
}

// A log of the series and of one or two records of deletions.
fn log_with(alloc: Global, first: &[u8], second: Option<&[u8]>) -> Result<Input, AllocError> {
    let series = series(alloc)?;
    let mut writer = LogWriter::new(alloc, Vec::new(alloc), 4_096);
    if writer.log(&series, None).is_err() || writer.log(first, second).is_err() {
        return Err(AllocError);
    }
    log_of(alloc, writer.into_inner())
}

// That these are the hidden runs of the one series.
fn check_hidden(
    rt: &impl Abort,
    case: (Order, usize),
    head: &Head,
    wanted: &[Run],
) -> Result<(), HeadFault> {
    let slot = Slot::new(0);
    if head.is_failed() || head.series() <= slot.index() {
        return Err(HeadFault::Failed);
    }
    same(rt, case, head.hidden(slot), wanted);
    Ok(())
}

fn check_replays<R: Abort + Threads + Wait + Sync>(
    rt: &R,
    alloc: Global,
    order: Order,
    input: &Input,
    wanted: &[Run],
) -> Result<(), Fail> {
    for workers in [1, 4] {
        let replayed = replay(rt, alloc, input, &by(workers), &NoGate)?;
        check_hidden(rt, (order, workers), &replayed.head, wanted)?;
    }
    Ok(())
}

// Deletes the even times, and then the odd times between them.
fn check_order<R: Abort + Threads + Wait + Sync>(
    rt: &R,
    alloc: Global,
    order: Order,
) -> Result<(), Fail> {
    let even = deletions(alloc, order, 0)?;
    let input = log_with(alloc, &even, None)?;
    check_replays(rt, alloc, order, &input, &even_runs(alloc)?)?;
    let odd = deletions(alloc, order, 1)?;
    let input = log_with(alloc, &even, Some(&odd))?;
    check_replays(rt, alloc, order, &input, &[run!(2, 200_005)])
}

#[test]
fn falling_deletions_are_replayed(rt: HostRuntime) -> Result<(), Fail> {
    check_order(&rt, rt.alloc(), Order::Falling)
}

#[test]
fn scrambled_deletions_are_replayed(rt: HostRuntime) -> Result<(), Fail> {
    check_order(&rt, rt.alloc(), Order::Scrambled)
}
