//! Logs that are read part by part: where a call of the store fails, and where a file changes once it is planned.

use crate::checks::same;
use crate::failing::{IN_CHECKPOINT, RECORDS, assert_each};
use crate::fragments::*;
use crate::runs::{ANY, Case, LISTS, OPTIONS, carried_out, complaint, replayed_by, shelf_of};
use crate::shelf::{Act, Shelf};
use answers::{LogForm, Request};
use command_line::Asked;
use head_replay::NoGate;
use std::process::Abort;
use std::sync::Wait;
use std::thread::Threads;
use store::StoreFault;

const REPLAY: Asked<'static> = Asked::OfLog(Request::Replay {
    dir: "log",
    form: LogForm::Plain,
    options: ANY,
});

// A segment is damaged, and so is the one behind it.
const DAMAGED: Case = Case {
    asked: REPLAY,
    ..RECORDS
};

const OLD_FILE: (&str, &str) = (
    "cannot read log/checkpoint.00000004/00000000",
    IN_CHECKPOINT,
);

const FIRST: (&str, &str) = ("cannot read log/00000005", IN_CHECKPOINT);

const SECOND: (&str, &str) = ("cannot read log/00000006", IN_CHECKPOINT);

const LAST: (&str, &str) = ("cannot read log/00000007", IN_CHECKPOINT);

// The directories are listed, and each file is opened; then each is opened again, and read. The part behind the damage is one of them.
const READS: &[(&str, &str)] = &[
    ("cannot read log", IN_CHECKPOINT),
    ("cannot read log/checkpoint.00000004", IN_CHECKPOINT),
    OLD_FILE,
    FIRST,
    SECOND,
    LAST,
    OLD_FILE,
    OLD_FILE,
    FIRST,
    FIRST,
    SECOND,
    SECOND,
    LAST,
    LAST,
];

const COUNTED: &str = "\
series_records 0
sample_records 0
stone_records 0
skipped_records 2
series_entries 0
series 0
accepted 0
stale 0
unknown 0
hiding 0
empty_stones 0
unknown_stones 0
expired_samples 0
expired_stones 0
damage segment 00000006 offset 0 kind 3 BadType
";

const LISTED: &str = "\
checkpoint 00000000 0 skipped 0
segment 00000005 0 skipped 0
damage segment 00000006 offset 0 kind 3 BadType
";

#[test]
fn each_read_of_a_log_fails(rt: HostRuntime) -> Result<(), StoreFault> {
    assert_each(&rt, &DAMAGED, READS, ((1, COUNTED, ""), IN_CHECKPOINT))?;
    assert_each(&rt, &RECORDS, READS, ((1, LISTED, ""), IN_CHECKPOINT))
}

// Samples in the last segment.
const SAMPLES: Case = Case {
    standing: &[
        ("log/", b""),
        ("log/00000000", THREE_SERIES),
        ("log/00000001", SAMPLES_OF_THREE_SERIES),
    ],
    asked: REPLAY,
    dir: "log",
};

// The call that opens the last segment a second time: the log is listed, its two segments are opened, and the first is opened again and read.
const OPENS_LAST: u64 = 6;

// What a run prints, and says.
fn run<R: Abort + Threads + Wait + Sync + AllocGlobal>(
    rt: &R,
    shelf: &mut Shelf,
    asked: Asked<'_>,
) -> Result<(u8, String, String), StoreFault> {
    let answer = carried_out(rt, shelf, &NoGate, asked);
    let said = complaint(rt.alloc(), &answer)?;
    Ok((answer.status as u8, answer.printed, said))
}

// That what is read counts, not what was planned: a log whose last segment is another once it is opened again is that one.
fn assert_changed_for<R: Abort + Threads + Wait + Sync + AllocGlobal>(
    rt: &R,
    asked: Asked<'_>,
    planned: &'static [Act],
    read: &'static [Act],
) -> Result<(), StoreFault> {
    let mut shelf = shelf_of(rt.alloc(), &SAMPLES)?;
    shelf.act(planned)?;
    shelf.meanwhile(OPENS_LAST, read)?;
    let found = run(rt, &mut shelf, asked)?;
    let mut changed = shelf_of(rt.alloc(), &SAMPLES)?;
    changed.act(read)?;
    let wanted = run(rt, &mut changed, asked)?;
    same(rt, asked, found, wanted);
    Ok(())
}

// The same for replays by each of the options, and for the list of the records.
fn assert_changed<R: Abort + Threads + Wait + Sync + AllocGlobal>(
    rt: &R,
    planned: &'static [Act],
    read: &'static [Act],
) -> Result<(), StoreFault> {
    for options in OPTIONS {
        assert_changed_for(rt, replayed_by(SAMPLES.asked, *options), planned, read)?;
    }
    assert_changed_for(rt, LISTS, planned, read)
}

const GONE: Act = Act::Remove("log/00000001");

// The last segment with samples, with a record of no bytes, and with many pages without a fragment.
const AS_SAMPLES: &[Act] = &[GONE, Act::Put("log/00000001", SAMPLES_OF_THREE_SERIES)];

const AS_NO_SAMPLES: &[Act] = &[GONE, Act::Put("log/00000001", RECORD_OF_NO_BYTES)];

const AS_PAGES: &[Act] = &[GONE, Act::PutZeros("log/00000001", 300)];

#[test]
fn files_that_are_longer_or_shorter_than_planned(rt: HostRuntime) -> Result<(), StoreFault> {
    for planned in [AS_SAMPLES, AS_NO_SAMPLES, AS_PAGES] {
        for read in [AS_SAMPLES, AS_NO_SAMPLES, AS_PAGES] {
            assert_changed(&rt, planned, read)?;
        }
    }
    Ok(())
}
