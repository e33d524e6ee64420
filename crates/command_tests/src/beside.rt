//! `append` and `checkpoint` where another run writes to the log between two of their calls.

use crate::checks::{UNSAID, assert_names, same};
use crate::crashes::{REPLAY, counts};
use crate::fragments::*;
use crate::runs::{APPEND, CHECKPOINT, Case, Left, carried_out, complaint, shelf_of};
use crate::shelf::{Act, Shelf};
use head_replay::NoGate;
use std::process::Abort;
use std::sync::Wait;
use std::thread::Threads;
use store::{Store, StoreFault};

const APPENDED: Left = (0, "accepted\nsegment 00000001\n", "");

const NOT_APPENDED: Left = (3, "", "cannot write log/00000001");

// What another run does just before one of these calls, from the first to the last, what the command then leaves, and the names that are then
// in the directory.
type Beside = (&'static [Act], (u64, u64), Left, &'static str);

// Carries out a case beside another run, and ends the test unless it leaves what it is to leave.
fn assert_beside<R: Abort + Threads + Wait + Sync + AllocGlobal>(
    rt: &R,
    case: &Case,
    shelf: &mut Shelf,
    (acts, call): (&'static [Act], u64),
    (left, names): (Left, &str),
) -> Result<(), StoreFault> {
    shelf.meanwhile(call, acts)?;
    let answer = carried_out(rt, shelf, &NoGate, case.asked);
    let said = complaint(rt.alloc(), &answer)?;
    let found = (answer.status as u8, answer.printed.as_str(), said.as_str());
    same(rt, (acts, call), found, left);
    // no call fails from here on
    shelf.fail(0, UNSAID)?;
    assert_names(rt, shelf, case.dir, names)
}

// Ends the test unless a replay prints the counts of one series with so many samples.
fn assert_replay<R: Abort + Threads + Wait + Sync + AllocGlobal>(
    rt: &R,
    shelf: &mut Shelf,
    samples: u64,
) -> Result<(), StoreFault> {
    let found = carried_out(rt, shelf, &NoGate, REPLAY);
    let wanted = counts(rt.alloc(), samples)?;
    same(rt, samples, found.printed.as_str(), wanted.as_str());
    Ok(())
}

// Ends the test unless a file has these bytes.
fn assert_file<R: Abort>(
    rt: &R,
    shelf: &Shelf,
    path: &str,
    wanted: &[u8],
) -> Result<(), StoreFault> {
    let found = shelf.read(path)?;
    same(rt, path, found.as_slice(), wanted);
    Ok(())
}

// Another run claims the segment once the log is listed: it keeps it.
#[test]
fn segment_of_another_run(rt: HostRuntime) -> Result<(), StoreFault> {
    let acts = &[Act::Put("log/00000001", b"of another run")];
    for call in 2..7 {
        let mut shelf = shelf_of(rt.alloc(), &APPEND)?;
        let left = (NOT_APPENDED, " 00000000 00000001");
        assert_beside(&rt, &APPEND, &mut shelf, (acts, call), left)?;
        assert_file(&rt, &shelf, "log/00000001", b"of another run")?;
    }
    Ok(())
}

const UNFINISHED: &[Act] = &[Act::PutDir("log/checkpoint.00000001.tmp")];

const OF_CLAIM: &[Act] = &[
    Act::PutDir("log/checkpoint.00000001"),
    Act::Put("log/checkpoint.00000001/00000000", SERIES_1_JOB_API),
];

const OF_EARLIER: &[Act] = &[
    Act::PutDir("log/checkpoint.00000000"),
    Act::Put("log/checkpoint.00000000/00000000", SERIES_1_JOB_API),
];

// The claim is call 6, the look at the log call 11, and the renaming call 12.
const CHECKPOINTS: &[Beside] = &[
    (
        UNFINISHED,
        (7, 11),
        NOT_APPENDED,
        " 00000000 checkpoint.00000001.tmp",
    ),
    (
        OF_CLAIM,
        (7, 11),
        NOT_APPENDED,
        " 00000000 checkpoint.00000001",
    ),
    (
        OF_EARLIER,
        (7, 11),
        APPENDED,
        " 00000000 checkpoint.00000000 00000001",
    ),
    (
        UNFINISHED,
        (12, 12),
        APPENDED,
        " 00000000 checkpoint.00000001.tmp 00000001",
    ),
];

// A checkpoint that would stand for the segment comes between the claim and the look: nothing is appended. What comes later sees the
// segment. A replay finds the row just where it was accepted.
#[test]
fn checkpoint_beside_append(rt: HostRuntime) -> Result<(), StoreFault> {
    for (acts, (first, last), left, names) in CHECKPOINTS {
        for call in *first..=*last {
            let mut shelf = shelf_of(rt.alloc(), &APPEND)?;
            assert_beside(&rt, &APPEND, &mut shelf, (acts, call), (*left, names))?;
            assert_replay(&rt, &mut shelf, u64::from(*left == APPENDED))?;
        }
    }
    Ok(())
}

const LATER: &[Act] = &[Act::Put("log/00000002", SAMPLE_1_AT_1030)];

// Another run takes the next segment, after the claim, and then a call of this one fails, the look at the log and the renaming among them: the
// claim stays, as an empty segment. Without it the log would have a gap.
#[test]
fn later_segment_beside_append(rt: HostRuntime) -> Result<(), StoreFault> {
    for call in 8..13 {
        let mut shelf = shelf_of(rt.alloc(), &APPEND)?;
        shelf.fail(call, UNSAID)?;
        let left = (NOT_APPENDED, " 00000000 00000001 00000002");
        assert_beside(&rt, &APPEND, &mut shelf, (LATER, 7), left)?;
        assert_file(&rt, &shelf, "log/00000001", b"")?;
        assert_replay(&rt, &mut shelf, 1)?;
    }
    Ok(())
}

// The run gives up at its look, call 11, and the log cannot be listed then, by call 13: the claim stays, since a later segment may be there.
#[test]
fn claim_of_a_log_that_cannot_be_listed(rt: HostRuntime) -> Result<(), StoreFault> {
    let mut shelf = shelf_of(rt.alloc(), &APPEND)?;
    shelf.fail(13, UNSAID)?;
    let names = " 00000000 00000001 checkpoint.00000001.tmp";
    let left = (NOT_APPENDED, names);
    assert_beside(&rt, &APPEND, &mut shelf, (UNFINISHED, 11), left)?;
    assert_replay(&rt, &mut shelf, 0)
}

// The last segment is a claim.
const LAST_CLAIMED: Case = Case {
    standing: &[
        ("log/", b""),
        ("log/00000000", THREE_SERIES),
        ("log/00000001", SAMPLES_OF_THREE_SERIES),
        ("log/00000002", b""),
    ],
    ..CHECKPOINT
};

// A segment after which there is another one is a claim.
const EARLIER_CLAIMED: Case = Case {
    standing: &[
        ("log/", b""),
        ("log/00000000", THREE_SERIES),
        ("log/00000001", b""),
        ("log/00000002", SAMPLES_OF_THREE_SERIES),
    ],
    ..CHECKPOINT
};

const NOT_MADE: Left = (3, "", "cannot write log/checkpoint.00000002");

const MADE: Left = (0, "checkpoint 00000002\nrecords 2\n", "");

const WRITING: &[Act] = &[Act::Put("log/00000002.tmp", SAMPLE_1_AT_1030)];

const WRITTEN: &[Act] = &[
    Act::Put("log/00000002.tmp", SAMPLE_1_AT_1030),
    Act::Rename("log/00000002.tmp", "log/00000002"),
];

const GIVEN_UP: &[Act] = &[Act::Remove("log/00000002")];

// The log is listed again by call 5, before the directory is made, and by call 10. The claim is read again by calls 11 and 12, as an empty
// segment and as the last one.
const LAST_CLAIMS: &[Beside] = &[
    (
        WRITING,
        (2, 5),
        NOT_MADE,
        " 00000000 00000001 00000002 00000002.tmp",
    ),
    (
        WRITING,
        (7, 10),
        NOT_MADE,
        " 00000000 00000001 00000002 checkpoint.00000002.tmp 00000002.tmp",
    ),
    (
        WRITTEN,
        (5, 6),
        NOT_MADE,
        " 00000000 00000001 00000002 checkpoint.00000002.tmp",
    ),
    (
        WRITTEN,
        (7, 12),
        NOT_MADE,
        " 00000000 00000001 checkpoint.00000002.tmp 00000002",
    ),
    (
        GIVEN_UP,
        (5, 10),
        MADE,
        " 00000000 00000001 checkpoint.00000002",
    ),
];

const WRITING_EARLIER: &[Act] = &[Act::Put("log/00000001.tmp", SAMPLE_1_AT_1030)];

const WRITTEN_EARLIER: &[Act] = &[
    Act::Put("log/00000001.tmp", SAMPLE_1_AT_1030),
    Act::Rename("log/00000001.tmp", "log/00000001"),
];

const EARLIER_CLAIMS: &[Beside] = &[
    (
        WRITING_EARLIER,
        (2, 6),
        NOT_MADE,
        " 00000000 00000001 00000002 00000001.tmp checkpoint.00000002.tmp",
    ),
    (
        WRITTEN_EARLIER,
        (7, 11),
        NOT_MADE,
        " 00000000 00000002 checkpoint.00000002.tmp 00000001",
    ),
];

const GROWN: &[Act] = &[
    Act::Remove("log/00000001"),
    Act::Put("log/00000001", SAMPLE_1_AT_1030),
];

const GONE: &[Act] = &[Act::Remove("log/00000001")];

const LAST_NOT_MADE: Left = (3, "", "cannot write log/checkpoint.00000001");

// The last segment is no claim. It is read again by call 10.
const LAST_SEGMENTS: &[Beside] = &[
    (
        GROWN,
        (6, 10),
        LAST_NOT_MADE,
        " 00000000 checkpoint.00000001.tmp 00000001",
    ),
    (
        GONE,
        (6, 9),
        LAST_NOT_MADE,
        " 00000000 checkpoint.00000001.tmp",
    ),
];

// Ends the test unless a checkpoint of a case is made just where it is to be.
fn assert_checkpoints<R: Abort + Threads + Wait + Sync + AllocGlobal>(
    rt: &R,
    case: &Case,
    besides: &[Beside],
) -> Result<(), StoreFault> {
    for (acts, (first, last), left, names) in besides {
        for call in *first..=*last {
            let mut shelf = shelf_of(rt.alloc(), case)?;
            assert_beside(rt, case, &mut shelf, (acts, call), (*left, names))?;
        }
    }
    Ok(())
}

// Another run fills its claim once the log is read, or has begun to: no checkpoint is made. Where it gives its claim up, one is.
#[test]
fn claims_beside_checkpoint(rt: HostRuntime) -> Result<(), StoreFault> {
    assert_checkpoints(&rt, &LAST_CLAIMED, LAST_CLAIMS)?;
    assert_checkpoints(&rt, &EARLIER_CLAIMED, EARLIER_CLAIMS)
}

// The last segment is another one than was read, or is gone.
#[test]
fn changed_segment_beside_checkpoint(rt: HostRuntime) -> Result<(), StoreFault> {
    assert_checkpoints(&rt, &CHECKPOINT, LAST_SEGMENTS)
}
