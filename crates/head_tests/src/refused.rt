//! Replays that are refused.

use crate::log_lines::{Line, Log, NO_FILES, input_of};
use crate::logs::{NOTHING, by};
use crate::same;
use crate::views::{serial_views, views};
use head_core::Counts;
use head_replay::{NoGate, ReplayFault, Tallied, replay, tally};
use head_serial::ReplayFault as SerialFault;
use std::alloc::{AllocError, Global};
use std::process::Abort;
use std::sync::Wait;
use std::test::Fail;
use std::thread::Threads;
use wal_log::Input;

// Hidden runs, and a reference that is rebound, in two files.
pub(crate) const HIDDEN_AND_REBOUND: Log = Log {
    segments: &[
        &[
            Line::Series(&[(1, b"a", b"x"), (2, b"a", b"y")]),
            Line::Samples(&[(1, 5, 1), (2, 6, 2), (9, 6, 2)]),
            Line::Stones(&[(1, 5, 9), (1, 20, 19)]),
        ],
        &[
            Line::Series(&[(1, b"a", b"z")]),
            Line::Samples(&[(1, 5, 3), (2, 6, 4)]),
        ],
    ],
    ..NO_FILES
};

const TALLIED: Tallied = Tallied {
    counts: Counts {
        series_records: 2,
        sample_records: 2,
        stone_records: 1,
        series_entries: 3,
        accepted: 3,
        stale: 1,
        unknown: 1,
        hiding: 1,
        empty_stones: 1,
        ..NOTHING
    },
    series: 3,
    damage: None,
};

#[test]
fn counts_of_workers(rt: HostRuntime) -> Result<(), Fail> {
    let alloc = rt.alloc();
    let input = input_of(alloc, HIDDEN_AND_REBOUND)?;
    for (workers, fault) in [
        (0, Some(ReplayFault::NoWorkers)),
        (1, None),
        (64, None),
        (65, Some(ReplayFault::TooManyWorkers)),
        (usize::MAX, Some(ReplayFault::TooManyWorkers)),
    ] {
        let replayed = replay(&rt, alloc, &input, &by(workers), &NoGate).err();
        same(&rt, (workers, "replay"), replayed, fault);
        let tallied = tally(&rt, alloc, &input, &by(workers), &NoGate).err();
        same(&rt, (workers, "tally"), tallied, fault);
    }
    Ok(())
}

// Whether a refusal is one that any replay may meet.
fn is_want(fault: ReplayFault) -> bool {
    matches!(fault, ReplayFault::Memory | ReplayFault::Workers)
}

// That a replay shows what is wanted, or wants memory or threads.
fn check_replay<R: Abort + Threads + Wait + Sync>(
    rt: &R,
    alloc: Global,
    input: &Input,
    wanted: &str,
) -> Result<(), AllocError> {
    match replay(rt, alloc, input, &by(2), &NoGate) {
        Ok(replayed) => same(rt, "replay", views(alloc, &replayed.head)?.as_str(), wanted),
        Err(fault) => same(rt, ("replay", fault), is_want(fault), true),
    }
    Ok(())
}

// That a tally counts what is wanted, or wants memory or threads.
fn check_tally<R: Abort + Threads + Wait + Sync>(rt: &R, alloc: Global, input: &Input) {
    match tally(rt, alloc, input, &by(2), &NoGate) {
        Ok(tallied) => same(rt, "tally", tallied, TALLIED),
        Err(fault) => same(rt, ("tally", fault), is_want(fault), true),
    }
}

// That both calls answer rightly, or that they want memory or threads.
fn check_or_want<R: Abort + Threads + Wait + Sync>(
    rt: &R,
    alloc: Global,
    input: &Input,
) -> Result<(), SerialFault> {
    let wanted = serial_views(alloc, input)?;
    check_replay(rt, alloc, input, wanted.as_str())?;
    check_tally(rt, alloc, input);
    Ok(())
}

// To be run too with each allocation, and each start of a thread, refused in turn.
#[test]
fn each_allocation(rt: HostRuntime) {
    let alloc = rt.alloc();
    if let Ok(input) = input_of(alloc, HIDDEN_AND_REBOUND) {
        let _ = check_or_want(&rt, alloc, &input);
    }
}
