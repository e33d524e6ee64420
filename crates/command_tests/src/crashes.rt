//! What there is after a crash at each call of `append`, `cut`, `checkpoint` and `unpack`.

use crate::checks::{ULID, assert_names, has_name, same};
use crate::fragments::*;
use crate::runs::{
    APPEND, CHECKPOINT, CUT, Case, RESCUE, UNPACK, carried_out, complaint, shelf_of,
};
use crate::shelf::Shelf;
use crate::tree::Kept;
use answers::{LogForm, Request, Status};
use block_commands::BlockRequest;
use command_line::Asked;
use head_replay::{NoGate, Options};
use std::alloc::{AllocError, Global};
use std::fmt::Debug;
use std::process::Abort;
use std::sync::Wait;
use std::thread::Threads;
use store::{Store, StoreFault};

// How much a crash keeps of names, and of bytes, that were not synced.
const WAYS: &[(Kept, Kept)] = &[
    (Kept::Nothing, Kept::Nothing),
    (Kept::Nothing, Kept::FirstHalf),
    (Kept::Nothing, Kept::All),
    (Kept::FirstHalf, Kept::Nothing),
    (Kept::FirstHalf, Kept::FirstHalf),
    (Kept::FirstHalf, Kept::All),
    (Kept::All, Kept::Nothing),
    (Kept::All, Kept::FirstHalf),
    (Kept::All, Kept::All),
];

// A crash: the first call that is not made, and what is kept.
type Crash = (u64, (Kept, Kept));

// What there is where a run crashed, and whether it had ended well before.
fn crashed<R: Threads + Wait + Sync + AllocGlobal>(
    rt: &R,
    case: &Case,
    (call, (names, bytes)): Crash,
) -> Result<(Shelf, bool), StoreFault> {
    let mut shelf = shelf_of(rt.alloc(), case)?;
    shelf.stop(call)?;
    let is_done = carried_out(rt, &mut shelf, &NoGate, case.asked).status == Status::Done;
    shelf.crash(names, bytes)?;
    Ok((shelf, is_done))
}

// The bytes of a file, none where it is not there.
fn bytes_of(alloc: Global, shelf: &Shelf, path: &str) -> Vec<u8> {
    shelf.read(path).unwrap_or(Vec::new(alloc))
}

// Ends the test unless a file has these bytes.
fn assert_bytes<C: Debug + Drop, R: Abort + AllocGlobal>(
    rt: &R,
    case: C,
    shelf: &Shelf,
    path: &str,
    wanted: &[u8],
) {
    let found = bytes_of(rt.alloc(), shelf, path);
    same(rt, case, found.as_slice(), wanted);
}

// Ends the test unless a command prints this.
fn assert_printed<R: Abort + Threads + Wait + Sync + AllocGlobal>(
    rt: &R,
    crash: Crash,
    shelf: &mut Shelf,
    asked: Asked<'_>,
    wanted: &str,
) {
    let found = carried_out(rt, shelf, &NoGate, asked);
    same(rt, crash, found.printed.as_str(), wanted);
}

/// What `replay` prints of a log of one series that has so many records of one sample.
pub fn counts(alloc: Global, samples: u64) -> Result<String, AllocError> {
    format!(in alloc;
        "series_records 1\nsample_records {samples}\nstone_records 0\nskipped_records 0\n\
        series_entries 1\nseries 1\naccepted {samples}\nstale 0\nunknown 0\nhiding 0\nempty_stones 0\nunknown_stones 0\n\
        expired_samples 0\nexpired_stones 0\ndamage none\n"
    )
}

/// Replays the log.
pub const REPLAY: Asked<'static> = Asked::OfLog(Request::Replay {
    dir: "log",
    form: LogForm::Plain,
    options: Options {
        workers: 4,
        round_pages: 256,
        min_valid: i64::MIN,
    },
});

// Whether the segment that was appended is whole. Ends the test where only a part of it is in the log, and where nothing of it is though the
// run had ended well.
fn assert_segment<R: Abort + AllocGlobal>(
    rt: &R,
    crash: Crash,
    shelf: &Shelf,
    is_done: bool,
) -> bool {
    let segment = bytes_of(rt.alloc(), shelf, "log/00000001");
    let is_whole = segment.as_slice() == SAMPLE_1_AT_1030;
    same(
        rt,
        crash,
        is_whole || (segment.is_empty() && !is_done),
        true,
    );
    is_whole
}

// The segment that was appended is whole, or nothing of it is in the log. It is whole where the run had ended well.
fn assert_log<R: Abort + Threads + Wait + Sync + AllocGlobal>(
    rt: &R,
    crash: Crash,
) -> Result<(), StoreFault> {
    let (mut shelf, is_done) = crashed(rt, &APPEND, crash)?;
    let is_whole = assert_segment(rt, crash, &shelf, is_done);
    assert_bytes(rt, crash, &shelf, "log/00000000", SERIES_1_JOB_API);
    assert_bytes(rt, crash, &shelf, "rows", b"1030 8 job=api\n");
    let wanted = counts(rt.alloc(), u64::from(is_whole))?;
    assert_printed(rt, crash, &mut shelf, REPLAY, &wanted);
    Ok(())
}

// There are 13 calls.
#[test]
fn crash_at_each_call_of_append(rt: HostRuntime) -> Result<(), StoreFault> {
    for call in 1..15 {
        for kept in WAYS {
            assert_log(&rt, (call, *kept))?;
        }
    }
    Ok(())
}

const READ: Asked<'static> = Asked::OfBlocks(BlockRequest::Block {
    path: "out/01ARZ3NDEKTSV4RRFFQ69G5FAV",
});

const READ_BACK: &str =
    "ulid 01ARZ3NDEKTSV4RRFFQ69G5FAV\nrange 0 3600000\nsamples 3\nseries 2\nchunks 2\nhidden 0\n";

// The folder of the block is whole, or it is not there. It is there where the run had ended well.
fn assert_block<R: Abort + Threads + Wait + Sync + AllocGlobal>(
    rt: &R,
    crash: Crash,
) -> Result<(), StoreFault> {
    let (mut shelf, is_done) = crashed(rt, &CUT, crash)?;
    let is_there = has_name(&shelf, "out", ULID)?;
    same(rt, crash, is_there || !is_done, true);
    if is_there {
        assert_printed(rt, crash, &mut shelf, READ, READ_BACK);
    }
    Ok(())
}

// There are 25 calls.
#[test]
fn crash_at_each_call_of_cut(rt: HostRuntime) -> Result<(), StoreFault> {
    for call in 1..27 {
        for kept in WAYS {
            assert_block(&rt, (call, *kept))?;
        }
    }
    Ok(())
}

const REPLAY_FROM_3000: Asked<'static> = Asked::OfLog(Request::Replay {
    dir: "log",
    form: LogForm::Plain,
    options: Options {
        workers: 4,
        round_pages: 256,
        min_valid: 3000,
    },
});

// What `replay` prints of the log of three series, and of its checkpoint, of which two samples fewer are expired.
fn counts_of_three(alloc: Global, expired: u64) -> Result<String, AllocError> {
    format!(in alloc;
        "series_records 1\nsample_records 1\nstone_records 0\nskipped_records 0\n\
        series_entries 3\nseries 3\naccepted 2\nstale 0\nunknown 0\nhiding 0\nempty_stones 0\nunknown_stones 0\n\
        expired_samples {expired}\nexpired_stones 0\ndamage none\n"
    )
}

// The log is there, alone or with the whole checkpoint, which is there where the run had ended well. It is replayed to the same.
fn assert_checkpoint<R: Abort + Threads + Wait + Sync + AllocGlobal>(
    rt: &R,
    crash: Crash,
) -> Result<(), StoreFault> {
    let (mut shelf, is_done) = crashed(rt, &CHECKPOINT, crash)?;
    let is_there = has_name(&shelf, "log", "checkpoint.00000001")?;
    same(rt, crash, is_there || !is_done, true);
    let wanted = counts_of_three(rt.alloc(), if is_there { 0 } else { 2 })?;
    assert_printed(rt, crash, &mut shelf, REPLAY_FROM_3000, &wanted);
    Ok(())
}

// There are 13 calls.
#[test]
fn crash_at_each_call_of_checkpoint(rt: HostRuntime) -> Result<(), StoreFault> {
    for call in 1..15 {
        for kept in WAYS {
            assert_checkpoint(&rt, (call, *kept))?;
        }
    }
    Ok(())
}

// The log is whole at its new place, or it is not there. It is there where the run had ended well.
fn assert_unpacked<R: Abort + Threads + Wait + Sync + AllocGlobal>(
    rt: &R,
    case: &Case,
    crash: Crash,
) -> Result<(), StoreFault> {
    let (shelf, is_done) = crashed(rt, case, crash)?;
    let is_there = has_name(&shelf, "out", "log")?;
    same(rt, crash, is_there || !is_done, true);
    if is_there {
        let old = "out/log/checkpoint.00000002/00000000";
        assert_bytes(rt, crash, &shelf, old, SERIES_3);
        assert_bytes(rt, crash, &shelf, "out/log/00000003", SAMPLE_1_AT_1030);
    }
    Ok(())
}

// There are 19 calls.
#[test]
fn crash_at_each_call_of_unpack(rt: HostRuntime) -> Result<(), StoreFault> {
    for call in 1..21 {
        for kept in WAYS {
            assert_unpacked(&rt, &UNPACK, (call, *kept))?;
        }
    }
    Ok(())
}

// The files are read once, so there are fewer calls.
#[test]
fn crash_at_each_call_of_unpack_past_damage(rt: HostRuntime) -> Result<(), StoreFault> {
    for call in 1..20 {
        for kept in WAYS {
            assert_unpacked(&rt, &RESCUE, (call, *kept))?;
        }
    }
    Ok(())
}
