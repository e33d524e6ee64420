//! Checkpoints that are made of logs, and what they stand for.

use crate::log_lines::{Line, Log, NO_FILES, files_of, input_of};
use crate::logs::WORKERS;
use crate::views::contents;
use crate::{or_memory, same};
use head_core::{Counts, Head};
use head_replay::{NoGate, Options, replay};
use head_serial::replay_serial_from;
use std::alloc::{AllocError, Global};
use std::process::Abort;
use std::sync::Wait;
use std::test::Fail;
use std::thread::Threads;
use wal_log::{
    Checkpoint, CheckpointFault, Damage, Input, Place, make_checkpoint, make_checkpoint_within,
};
use wal_page::FaultKind;
use wal_record::Items;

// A log, the segments after it, and the checkpoint that is made of the log with a least valid time: its number and its files, each of at
// most so many pages.
#[derive(Clone, Copy)]
struct Case {
    name: &'static str,
    log: Log,
    behind: &'static [&'static [Line]],
    min_valid: i64,
    pages: u32,
    number: u64,
    files: &'static [&'static [Line]],
}

fn input_with(
    alloc: Global,
    checkpoint: Option<Checkpoint>,
    first: u64,
    segments: &[&'static [Line]],
) -> Result<Input, AllocError> {
    or_memory(Input::new(checkpoint, files_of(alloc, first, segments)?))
}

// That the checkpoint has the number and the files of the case.
fn check_made(
    rt: &impl Abort,
    alloc: Global,
    case: &Case,
    made: &Checkpoint,
) -> Result<(), AllocError> {
    let wanted = files_of(alloc, 0, case.files)?;
    same(rt, case.name, made.number, case.number);
    same(rt, case.name, made.files.len(), wanted.len());
    for (file, wanted) in made.files.as_slice().iter().zip(&wanted) {
        same(rt, case.name, file.number, wanted.number);
        same(
            rt,
            case.name,
            file.bytes.as_slice(),
            wanted.bytes.as_slice(),
        );
    }
    Ok(())
}

// All that a replayed log shows but the counts of records and of expired entries.
fn shown(alloc: Global, head: &Head, damage: Option<Damage>) -> Result<String, AllocError> {
    let mut text = contents(alloc, head)?;
    if !head.is_failed() {
        let counts = Counts {
            series_records: 0,
            sample_records: 0,
            stone_records: 0,
            skipped_records: 0,
            expired_samples: 0,
            expired_stones: 0,
            ..head.counts()
        };
        write!(text, "{counts:?} {damage:?}")?;
    }
    Ok(text)
}

// What a log shows, one by one and by workers.
fn check_shown<R: Abort + Threads + Wait + Sync>(
    rt: &R,
    alloc: Global,
    case: &Case,
    input: &Input,
) -> Result<String, Fail> {
    let serial = replay_serial_from(alloc, input, case.min_valid)?;
    let text = shown(alloc, &serial.head, serial.damage)?;
    for workers in WORKERS {
        let options = Options {
            workers,
            round_pages: 1,
            min_valid: case.min_valid,
        };
        let replayed = replay(rt, alloc, input, &options, &NoGate)?;
        let by = shown(alloc, &replayed.head, replayed.damage)?;
        same(rt, case.name, by.as_str(), text.as_str());
    }
    Ok(text)
}

// The log of the case with the segments after it.
fn whole(alloc: Global, case: &Case) -> Result<Input, AllocError> {
    let mut segments = Vec::from_slice(alloc, case.log.segments)?;
    segments.extend_from_slice(case.behind)?;
    if case.log.checkpoint.is_empty() {
        return input_with(alloc, None, 0, &segments);
    }
    let files = Items::from_vec(files_of(alloc, 0, case.log.checkpoint)?);
    input_with(alloc, Some(Checkpoint { number: 4, files }), 5, &segments)
}

fn make(alloc: Global, case: &Case, input: &Input) -> Result<Checkpoint, CheckpointFault> {
    // no case has other numbers of pages
    if case.pages == 0 || case.pages > 4096 {
        return Err(CheckpointFault::NoLog);
    }
    make_checkpoint_within(alloc, input, case.min_valid, case.pages)
}

// The checkpoint of a log, which is as the case says.
fn made_of(
    rt: &impl Abort,
    alloc: Global,
    case: &Case,
    input: &Input,
) -> Result<Checkpoint, CheckpointFault> {
    let made = make(alloc, case, input)?;
    check_made(rt, alloc, case, &made)?;
    Ok(made)
}

// That a log shows what the whole log of the case shows.
fn check_whole<R: Abort + Threads + Wait + Sync>(
    rt: &R,
    alloc: Global,
    case: &Case,
    short: &Input,
) -> Result<(), Fail> {
    let text = check_shown(rt, alloc, case, short)?;
    let wanted = check_shown(rt, alloc, case, &whole(alloc, case)?)?;
    same(rt, case.name, text.as_str(), wanted.as_str());
    Ok(())
}

// That the checkpoint is as the case says, is its own checkpoint, and with the segments after it shows what the whole log shows.
fn check<R: Abort + Threads + Wait + Sync>(rt: &R, alloc: Global, case: &Case) -> Result<(), Fail> {
    let made = made_of(rt, alloc, case, &input_of(alloc, case.log)?)?;
    let alone = input_with(alloc, Some(made), 0, &[])?;
    let again = made_of(rt, alloc, case, &alone)?;
    let first = case.number.saturating_add(1);
    let short = input_with(alloc, Some(again), first, case.behind)?;
    check_whole(rt, alloc, case, &short)
}

// The checkpoint half of the least valid time: the deletion that straddles it is kept whole.
const KEPT: &[Line] = &[
    Line::Series(&[(1, b"a", b"x"), (2, b"a", b"y")]),
    Line::Samples(&[(1, 5000, 2), (9, 6000, 5)]),
    Line::Stones(&[(1, 0, 4999), (1, 0, 5500)]),
];

const LEAST_VALID_TIME: Case = Case {
    name: "the checkpoint of a least valid time",
    log: Log {
        segments: &[&[
            Line::Series(&[(1, b"a", b"x"), (2, b"a", b"y")]),
            Line::Samples(&[
                (1, 100, 1),
                (1, 5000, 2),
                (2, 200, 3),
                (9, 50, 4),
                (9, 6000, 5),
            ]),
            Line::Stones(&[(1, 0, 4999), (1, 0, 5500), (2, 0, 999)]),
        ]],
        ..NO_FILES
    },
    behind: &[&[Line::Samples(&[(1, 5400, 3), (2, 7000, 1)])]],
    min_valid: 1000,
    pages: 4096,
    number: 0,
    files: &[KEPT],
};

const OVER_CHECKPOINT: Case = Case {
    name: "a checkpoint over a checkpoint",
    log: Log {
        checkpoint: &[KEPT],
        segments: &[&[Line::Samples(&[(1, 6000, 7), (2, 6000, 8)])]],
    },
    behind: &[&[
        Line::Samples(&[(1, 6000, 9)]),
        Line::Samples(&[(2, 7000, 1)]),
        Line::Damaged,
    ]],
    min_valid: 5500,
    pages: 4096,
    number: 5,
    files: &[&[
        Line::Series(&[(1, b"a", b"x"), (2, b"a", b"y")]),
        Line::Samples(&[(9, 6000, 5)]),
        Line::Stones(&[(1, 0, 5500)]),
        Line::Samples(&[(1, 6000, 7), (2, 6000, 8)]),
    ]],
};

// Records that lose all entries, have none, or are of another type are left out. There is a file nevertheless.
const NOTHING_LEFT: Case = Case {
    name: "a checkpoint of no records",
    log: Log {
        segments: &[
            &[Line::Samples(&[(1, 999, 1)]), Line::Bytes(b"\x01")],
            &[
                Line::Stones(&[(1, 0, 999)]),
                Line::Bytes(b"\x63"),
                Line::Bytes(b""),
            ],
        ],
        ..NO_FILES
    },
    behind: &[&[Line::Series(&[(1, b"a", b"x")])]],
    min_valid: 1000,
    pages: 4096,
    number: 1,
    files: &[&[]],
};

// Each record of samples takes most of a page.
const TWO_FILES: Case = Case {
    name: "a checkpoint of two files",
    log: Log {
        segments: &[
            &[Line::Series(&[(1, b"a", b"x")]), Line::Seconds(0, 2000)],
            &[
                Line::Seconds(2000, 4000),
                Line::Stones(&[(1, 0, 1_000_000)]),
            ],
        ],
        ..NO_FILES
    },
    behind: &[&[Line::Seconds(3999, 4100)]],
    min_valid: 1_000_000,
    pages: 1,
    number: 1,
    files: &[
        &[
            Line::Series(&[(1, b"a", b"x")]),
            Line::Seconds(1000, 2000),
            Line::PageEnd,
        ],
        &[
            Line::Seconds(2000, 4000),
            Line::Stones(&[(1, 0, 1_000_000)]),
        ],
    ],
};

const MADE: &[Case] = &[LEAST_VALID_TIME, OVER_CHECKPOINT, NOTHING_LEFT, TWO_FILES];

#[test]
fn made_of_logs(rt: HostRuntime) -> Result<(), Fail> {
    for case in MADE {
        check(&rt, rt.alloc(), case)?;
    }
    Ok(())
}

const DAMAGED: CheckpointFault = CheckpointFault::Damaged(Damage {
    place: Place {
        in_checkpoint: false,
        file: 1,
        offset: 0,
    },
    kind: FaultKind::BadSum,
});

// A record of more bytes than a page has, alone and with a damaged one after it.
const LARGE: Log = Log {
    segments: &[&[Line::Seconds(0, 3000)]],
    ..NO_FILES
};

const LARGE_AND_DAMAGED: Log = Log {
    segments: &[&[Line::Seconds(0, 3000)], &[Line::Damaged]],
    ..NO_FILES
};

// What a checkpoint in files of a page answers.
const REFUSED: &[(Log, i64, Option<CheckpointFault>)] = &[
    (NO_FILES, 0, Some(CheckpointFault::NoLog)),
    (LARGE, 0, Some(CheckpointFault::TooLarge)),
    (LARGE, 1_000_000, None),
    (LARGE_AND_DAMAGED, 0, Some(DAMAGED)),
    (LARGE_AND_DAMAGED, 1_000_000, Some(DAMAGED)),
];

#[test]
fn refused_checkpoints(rt: HostRuntime) -> Result<(), Fail> {
    for (log, min_valid, fault) in REFUSED {
        let input = input_of(rt.alloc(), *log)?;
        let made = make_checkpoint_within(rt.alloc(), &input, *min_valid, 1).err();
        same(&rt, *min_valid, made, *fault);
    }
    Ok(())
}

// To be run too with each allocation refused in turn.
#[test]
fn each_allocation(rt: HostRuntime) {
    let alloc = rt.alloc();
    if let Ok(input) = input_of(alloc, OVER_CHECKPOINT.log) {
        match make_checkpoint(alloc, &input, 5500) {
            Ok(made) => {
                let _ = check_made(&rt, alloc, &OVER_CHECKPOINT, &made);
            }
            Err(fault) => same(&rt, "refused", fault, CheckpointFault::Memory),
        }
    }
}
