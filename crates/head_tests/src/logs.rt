//! Logs, and what they count.

use crate::log_lines::{Log, NO_FILES, input_of};
use crate::same;
use crate::views::views;
use head_core::Counts;
use head_replay::{NoGate, Options, Tallied, replay, tally};
use head_serial::{ReplayFault, replay_serial};
use std::alloc::Global;
use std::process::Abort;
use std::sync::Wait;
use std::test::Fail;
use std::thread::Threads;
use wal_log::{Damage, Input};

/// A log, and what it counts, by whatever number of workers it is replayed, and in rounds of however many pages.
#[derive(Clone, Copy)]
pub(crate) struct Case {
    pub(crate) name: &'static str,
    pub(crate) log: Log,
    pub(crate) counts: Counts,
    pub(crate) series: u64,
    pub(crate) damage: Option<Damage>,
}

/// What an empty log counts.
pub(crate) const NOTHING: Counts = Counts {
    series_records: 0,
    sample_records: 0,
    stone_records: 0,
    skipped_records: 0,
    series_entries: 0,
    accepted: 0,
    stale: 0,
    unknown: 0,
    hiding: 0,
    empty_stones: 0,
    unknown_stones: 0,
    expired_samples: 0,
    expired_stones: 0,
};

/// A log of no files.
pub(crate) const EMPTY_DIRECTORY: Case = Case {
    name: "an empty directory",
    log: NO_FILES,
    counts: NOTHING,
    series: 0,
    damage: None,
};

/// How many workers there are in a test that tries several numbers of them.
pub(crate) const WORKERS: [usize; 4] = [1, 2, 7, 64];

/// How many pages there are in a round of a test that tries several numbers of them.
pub(crate) const ROUND_PAGES: [usize; 3] = [1, 2, 256];

/// Replay by so many workers.
pub(crate) fn by(workers: usize) -> Options {
    Options {
        workers,
        round_pages: 256,
        min_valid: i64::MIN,
    }
}

// That a replay makes a head that shows this, and damage and counts as of the case.
fn check_by<R: Abort + Threads + Wait + Sync>(
    rt: &R,
    alloc: Global,
    input: &Input,
    case: &Case,
    shown: &str,
    options: &Options,
) -> Result<(), Fail> {
    let at = (case.name, options);
    let replayed = replay(rt, alloc, input, options, &NoGate)?;
    same(rt, at, replayed.head.counts(), case.counts);
    same(rt, at, replayed.damage, case.damage);
    same(rt, at, views(alloc, &replayed.head)?.as_str(), shown);
    let tallied = tally(rt, alloc, input, options, &NoGate)?;
    let wanted = Tallied {
        counts: case.counts,
        series: case.series,
        damage: case.damage,
    };
    same(rt, at, tallied, wanted);
    Ok(())
}

// That a replay one by one finds the damage of the case. Returns what its head shows.
fn check_serial(
    rt: &impl Abort,
    alloc: Global,
    input: &Input,
    case: &Case,
) -> Result<String, ReplayFault> {
    let serial = replay_serial(alloc, input)?;
    same(rt, (case.name, "one by one"), serial.damage, case.damage);
    Ok(views(alloc, &serial.head)?)
}

/// That each of these numbers of workers, in rounds of each number of pages, makes the head and the damage of the serial replay, and counts
/// what the case says.
pub(crate) fn check_each<R: Abort + Threads + Wait + Sync>(
    rt: &R,
    alloc: Global,
    case: &Case,
    workers: &[usize],
) -> Result<(), Fail> {
    let input = input_of(alloc, case.log)?;
    let shown = check_serial(rt, alloc, &input, case)?;
    for workers in workers {
        for round_pages in ROUND_PAGES {
            let options = Options {
                workers: *workers,
                round_pages,
                min_valid: i64::MIN,
            };
            check_by(rt, alloc, &input, case, shown.as_str(), &options)?;
        }
    }
    Ok(())
}

/// Checks the case with each number of workers that is tried.
pub(crate) fn check<R: Abort + Threads + Wait + Sync>(
    rt: &R,
    alloc: Global,
    case: &Case,
) -> Result<(), Fail> {
    check_each(rt, alloc, case, &WORKERS)
}
