//! Logs replayed with a least valid time, and heads that are truncated.

use crate::live_views::push_samples;
use crate::log_lines::{Line, Log, NO_FILES, input_of};
use crate::logs::{NOTHING, WORKERS};
use crate::opening::{Entry, head_of, record_of};
use crate::same;
use crate::views::{contents, views};
use head_core::{Counts, Head, Slot};
use head_replay::{NoGate, Options, Tallied, replay, tally};
use head_serial::{ReplayFault, Replayed, replay_serial, replay_serial_from};
use std::alloc::{AllocError, Global};
use std::process::Abort;
use std::sync::Wait;
use std::test::Fail;
use std::thread::Threads;
use wal_log::Input;

// A log, a least valid time, what is counted with it, and what is kept of each series: samples, and runs of hidden times.
#[derive(Clone, Copy)]
struct Case {
    name: &'static str,
    log: Log,
    min_valid: i64,
    counts: Counts,
    series: u64,
    kept: &'static str,
}

fn push_kept(text: &mut String, head: &Head, slot: Slot) -> Result<(), AllocError> {
    if head.is_failed() || head.series() <= slot.index() {
        return Ok(());
    }
    push_samples(text, &head.samples(slot)?)?;
    for run in head.hidden(slot) {
        write!(text, "[{} {}] ", run.min_time, run.max_time)?;
    }
    text.push(';')
}

fn kept(alloc: Global, head: &Head) -> Result<String, AllocError> {
    let mut text = String::new(alloc);
    if !head.is_failed() {
        for slot in head.all() {
            push_kept(&mut text, head, *slot)?;
        }
    }
    Ok(text)
}

// That workers make the head that is shown, and count the same.
fn check_by<R: Abort + Threads + Wait + Sync>(
    rt: &R,
    alloc: Global,
    input: &Input,
    case: &Case,
    shown: &str,
    options: &Options,
) -> Result<(), Fail> {
    let replayed = replay(rt, alloc, input, options, &NoGate)?;
    same(rt, options, views(alloc, &replayed.head)?.as_str(), shown);
    let tallied = tally(rt, alloc, input, options, &NoGate)?;
    let wanted = Tallied {
        counts: case.counts,
        series: case.series,
        damage: None,
    };
    same(rt, options, tallied, wanted);
    Ok(())
}

// That a truncated head shows the same, but for its counts, which stay, and that a lesser truncation changes nothing.
fn check_truncated(
    rt: &impl Abort,
    alloc: Global,
    input: &Input,
    case: &Case,
    shown: &str,
) -> Result<(), Fail> {
    let Replayed {
        mut head,
        damage: _damage,
    } = replay_serial(alloc, input)?;
    let counts = head.counts();
    head.truncate(case.min_valid);
    same(rt, case.name, contents(alloc, &head)?.as_str(), shown);
    same(rt, case.name, head.counts(), counts);
    head.truncate(case.min_valid.saturating_sub(1));
    same(rt, case.name, contents(alloc, &head)?.as_str(), shown);
    Ok(())
}

// That the head of the log is as the case says. Returns all that it shows, and that without its counts.
fn check_serial(
    rt: &impl Abort,
    alloc: Global,
    case: &Case,
    input: &Input,
) -> Result<(String, String), ReplayFault> {
    let serial = replay_serial_from(alloc, input, case.min_valid)?;
    same(rt, case.name, serial.head.counts(), case.counts);
    let found = kept(alloc, &serial.head)?;
    same(rt, case.name, found.as_str(), case.kept);
    drop(found);
    let shown = views(alloc, &serial.head)?;
    let content = contents(alloc, &serial.head)?;
    Ok((shown, content))
}

fn check<R: Abort + Threads + Wait + Sync>(rt: &R, alloc: Global, case: &Case) -> Result<(), Fail> {
    let input = input_of(alloc, case.log)?;
    let (shown, content) = check_serial(rt, alloc, case, &input)?;
    for workers in WORKERS {
        let options = Options {
            workers,
            round_pages: 1,
            min_valid: case.min_valid,
        };
        check_by(rt, alloc, &input, case, shown.as_str(), &options)?;
    }
    check_truncated(rt, alloc, &input, case, content.as_str())
}

// The samples of 9 have no series. Expired is decided before that.
const LEAST_VALID_TIME: Case = Case {
    name: "a least valid time",
    log: Log {
        segments: &[&[
            Line::Series(&[(1, b"a", b"x"), (2, b"a", b"y")]),
            Line::Samples(&[
                (1, 100, 1),
                (1, 5000, 2),
                (2, 200, 3),
                (9, 50, 4),
                (9, 6000, 5),
            ]),
            Line::Stones(&[(1, 0, 4999), (1, 0, 5500), (2, 0, 999)]),
        ]],
        ..NO_FILES
    },
    min_valid: 1000,
    counts: Counts {
        series_records: 1,
        sample_records: 1,
        stone_records: 1,
        series_entries: 2,
        accepted: 1,
        unknown: 1,
        hiding: 2,
        expired_samples: 3,
        expired_stones: 1,
        ..NOTHING
    },
    series: 2,
    kept: "5000:2 [1000 5500] ;;",
};

// One deletion ends at the time, one goes over it, one ends before it; and so do two that are empty.
const DELETIONS: Case = Case {
    name: "deletions at a least valid time",
    log: Log {
        segments: &[&[
            Line::Series(&[(1, b"a", b"x"), (2, b"a", b"y")]),
            Line::Stones(&[
                (1, 0, 1000),
                (2, 900, 1001),
                (1, 900, 999),
                (1, 1001, 1000),
                (1, 500, 400),
            ]),
            Line::Samples(&[(1, 1000, 1), (2, 999, 2)]),
        ]],
        ..NO_FILES
    },
    min_valid: 1000,
    counts: Counts {
        series_records: 1,
        sample_records: 1,
        stone_records: 1,
        series_entries: 2,
        accepted: 1,
        hiding: 2,
        empty_stones: 1,
        expired_samples: 1,
        expired_stones: 2,
        ..NOTHING
    },
    series: 2,
    kept: "1000:1 [1000 1000] ;[1000 1001] ;",
};

const FIRST_AND_LAST: Log = Log {
    segments: &[&[
        Line::Series(&[(1, b"a", b"x")]),
        Line::Samples(&[(1, i64::MIN, 1)]),
        Line::Samples(&[(1, i64::MAX, 2)]),
        Line::Stones(&[(1, i64::MIN, i64::MIN)]),
    ]],
    ..NO_FILES
};

const LEAST_TIME: Case = Case {
    name: "the least time",
    log: FIRST_AND_LAST,
    min_valid: i64::MIN,
    counts: Counts {
        series_records: 1,
        sample_records: 2,
        stone_records: 1,
        series_entries: 1,
        accepted: 2,
        hiding: 1,
        ..NOTHING
    },
    series: 1,
    kept: "-9223372036854775808:1 9223372036854775807:2 [-9223372036854775808 -9223372036854775808] ;",
};

const GREATEST_TIME: Case = Case {
    name: "the greatest time",
    log: FIRST_AND_LAST,
    min_valid: i64::MAX,
    counts: Counts {
        series_records: 1,
        sample_records: 2,
        stone_records: 1,
        series_entries: 1,
        accepted: 1,
        expired_samples: 1,
        expired_stones: 1,
        ..NOTHING
    },
    series: 1,
    kept: "9223372036854775807:2 ;",
};

const CASES: &[Case] = &[LEAST_VALID_TIME, DELETIONS, LEAST_TIME, GREATEST_TIME];

#[test]
fn least_valid_time(rt: HostRuntime) -> Result<(), Fail> {
    for case in CASES {
        check(&rt, rt.alloc(), case)?;
    }
    Ok(())
}

// Takes one more entry, with room that is made beforehand, or without.
fn take(alloc: Global, head: &mut Head, entry: Entry, is_reserved: bool) -> Result<(), Fail> {
    let records = [record_of(alloc, entry)?];
    if head.is_failed() {
        return Ok(());
    }
    if is_reserved {
        let reserved = head.reserve(&records)?;
        head.apply_reserved(reserved, &records);
    } else {
        head.apply(&records[0])?;
    }
    Ok(())
}

// What a head that was truncated leaves of later records.
const LATER: [Entry; 5] = [
    Entry::Sample(1, 999, 3),
    Entry::Sample(1, 1000, 4),
    Entry::Stone(1, 0, 999),
    Entry::Stone(1, 0, 1000),
    Entry::Sample(9, 999, 5),
];

fn check_later(
    rt: &impl Abort,
    alloc: Global,
    head: &mut Head,
    is_reserved: bool,
) -> Result<(), Fail> {
    for entry in LATER {
        take(alloc, head, entry, is_reserved)?;
    }
    if !head.is_failed() {
        let counts = head.counts();
        let found = (counts.accepted, counts.hiding, counts.unknown);
        same(rt, is_reserved, found, (2, 1, 0));
        let expired = (counts.expired_samples, counts.expired_stones);
        same(rt, is_reserved, expired, (2, 1));
    }
    let left = kept(alloc, head)?;
    same(rt, is_reserved, left.as_str(), "1000:4 [1000 1000] ;");
    Ok(())
}

#[test]
fn records_after_a_truncation(rt: HostRuntime) -> Result<(), Fail> {
    for is_reserved in [false, true] {
        let opening = [Entry::Series(1, b"x"), Entry::Sample(1, 100, 1)];
        let mut head = head_of(rt.alloc(), &opening)?;
        if !head.is_failed() {
            head.truncate(1000);
        }
        let outcome = check_later(&rt, rt.alloc(), &mut head, is_reserved);
        drop(head);
        outcome?;
    }
    Ok(())
}
