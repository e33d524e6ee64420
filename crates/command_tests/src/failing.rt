//! Commands over a store of which one call fails. What they print and leave where none fails is in examples/cases.

use crate::checks::{UNSAID, assert_names, same};
use crate::fragments::*;
use crate::runs::{
    APPEND, CHECKPOINT, CUT, Case, Left, OPTIONS, OUT_OF_MEMORY, UNPACK, carried_out, complaint,
    replayed_by, shelf_of,
};
use crate::shelf::Shelf;
use answers::{InspectRequest, LogForm, Request};
use block_commands::BlockRequest;
use command_line::Asked;
use head_replay::NoGate;
use std::alloc::AllocError;
use std::process::Abort;
use std::sync::Wait;
use std::thread::Threads;
use store::StoreFault;

// Carries out what is asked for, and ends the test unless it leaves this.
fn assert_left<R: Abort + Threads + Wait + Sync + AllocGlobal>(
    rt: &R,
    call: u64,
    shelf: &mut Shelf,
    asked: Asked<'_>,
    left: Left,
) -> Result<(), AllocError> {
    let answer = carried_out(rt, shelf, &NoGate, asked);
    let said = complaint(rt.alloc(), &answer)?;
    let found = (answer.status as u8, answer.printed.as_str(), said.as_str());
    same(rt, call, found, left);
    Ok(())
}

// Carries out what is asked for where a call of the store fails: what it is to leave, and the names that are then in the directory. Gives
// how many calls there were.
fn assert_run<R: Abort + Threads + Wait + Sync + AllocGlobal>(
    rt: &R,
    case: &Case,
    asked: Asked<'_>,
    (call, fault): (u64, StoreFault),
    (left, names): (Left, &str),
) -> Result<u64, StoreFault> {
    let mut shelf = shelf_of(rt.alloc(), case)?;
    shelf.fail(call, fault)?;
    assert_left(rt, call, &mut shelf, asked, left)?;
    let calls = shelf.calls()?;
    // no call fails from here on
    shelf.fail(0, fault)?;
    assert_names(rt, &shelf, case.dir, names)?;
    Ok(calls)
}

// Runs a case with each of the options, and checks that it makes `calls` calls.
fn assert_calls<R: Abort + Threads + Wait + Sync + AllocGlobal>(
    rt: &R,
    case: &Case,
    failure: (u64, StoreFault),
    wanted: (Left, &str),
    calls: u64,
) -> Result<(), StoreFault> {
    for options in OPTIONS {
        let asked = replayed_by(case.asked, *options);
        let made = assert_run(rt, case, asked, failure, wanted)?;
        same(rt, failure, made, calls);
    }
    Ok(())
}

/// Each call fails, the first being 1, and then none. No call is made after one that failed.
pub fn assert_each<R: Abort + Threads + Wait + Sync + AllocGlobal>(
    rt: &R,
    case: &Case,
    calls: &[(&'static str, &str)],
    done: (Left, &str),
) -> Result<(), StoreFault> {
    for (call, (said, names)) in (1..).zip(calls) {
        let refused = ((3, "", *said), *names);
        assert_calls(rt, case, (call, UNSAID), refused, call)?;
        let out = (OUT_OF_MEMORY, *names);
        assert_calls(rt, case, (call, StoreFault::OutOfMemory), out, call)?;
    }
    let all = calls.len() as u64;
    let past = (all.saturating_add(1), UNSAID);
    assert_calls(rt, case, past, done, all)
}

/// The last two segments are damaged.
pub const RECORDS: Case = Case {
    standing: &[
        ("log/", b""),
        ("log/00000005", RECORD_OF_NO_BYTES),
        ("log/00000007", OF_BAD_TYPE),
        ("log/00000006", OF_BAD_TYPE),
        ("log/checkpoint.00000004/", b""),
        ("log/checkpoint.00000004/00000000", RECORD_OF_NO_BYTES),
    ],
    asked: Asked::OfLog(Request::Records {
        dir: "log",
        form: LogForm::Plain,
    }),
    dir: "log/checkpoint.00000004",
};

pub const IN_CHECKPOINT: &str = " 00000000";

const READS_OF_LOG: &[(&str, &str)] = &[
    ("cannot read log", IN_CHECKPOINT),
    ("cannot read log/checkpoint.00000004", IN_CHECKPOINT),
    (
        "cannot read log/checkpoint.00000004/00000000",
        IN_CHECKPOINT,
    ),
    ("cannot read log/00000005", IN_CHECKPOINT),
    ("cannot read log/00000006", IN_CHECKPOINT),
    ("cannot read log/00000007", IN_CHECKPOINT),
];

// The same log, file by file.
const INSPECT: Case = Case {
    asked: Asked::Inspect(InspectRequest {
        dir: "log",
        json: false,
        min_valid: i64::MIN,
    }),
    ..RECORDS
};

const INSPECTED: &str = "\
checkpoint 00000000 bytes 7 pages 1 series 0 0 samples 0 0 deletions 0 0 skipped 1 empty 1 first none last none damage none
segment 00000005 bytes 7 pages 1 series 0 0 samples 0 0 deletions 0 0 skipped 1 empty 1 first none last none damage none
segment 00000006 bytes 1 pages 1 series 0 0 samples 0 0 deletions 0 0 skipped 0 first none last none damage offset 0 kind 3 BadType readable records 0 samples 0 passed 1
segment 00000007 bytes 0 pages 0 series 0 0 samples 0 0 deletions 0 0 skipped 0 first none last none damage none
all files 4 bytes 15 pages 3 series 0 0 samples 0 0 deletions 0 0 skipped 2 first none last none
note segment 00000006 is damaged at 0, kind 3 BadType: 1 byte is passed over, and 0 records with 0 samples can be read, which `unpack --past-damage` writes
note segment 00000007 cannot be read: other error
";

// A directory that cannot be listed ends an inspection. A file that cannot be read does not, here the last one, but for want of memory.
#[test]
fn each_read_of_an_inspection_fails(rt: HostRuntime) -> Result<(), StoreFault> {
    for (call, (said, names)) in (1..).zip(READS_OF_LOG) {
        let out = (OUT_OF_MEMORY, *names);
        assert_calls(&rt, &INSPECT, (call, StoreFault::OutOfMemory), out, call)?;
        if call < 3 {
            let refused = ((3, "", *said), *names);
            assert_calls(&rt, &INSPECT, (call, UNSAID), refused, call)?;
        }
    }
    let done = ((1, INSPECTED, ""), IN_CHECKPOINT);
    assert_calls(&rt, &INSPECT, (6, UNSAID), done, 6)
}

// None of the parts is what it should be.
const BLOCK: Case = Case {
    standing: &[
        ("b/", b""),
        ("b/chunks/", b""),
        ("b/index", b"index"),
        ("b/chunks/000001", b"chunks"),
        ("b/tombstones", b"tombstones"),
        ("b/meta.json", b"meta"),
    ],
    asked: Asked::OfBlocks(BlockRequest::Block { path: "b" }),
    dir: "b/chunks",
};

const READS_OF_BLOCK: &[(&str, &str)] = &[
    ("cannot read b/index", " 000001"),
    ("cannot read b/chunks", " 000001"),
    ("cannot read b/chunks/000001", " 000001"),
    ("cannot read b/tombstones", " 000001"),
    ("cannot read b/meta.json", " 000001"),
];

// All parts are read before one is judged.
#[test]
fn each_read_of_a_block_fails(rt: HostRuntime) -> Result<(), StoreFault> {
    let bad = (1, "", "bad index BadMagic");
    assert_each(&rt, &BLOCK, READS_OF_BLOCK, (bad, " 000001"))
}

const NOT_BEGUN: &str = "cannot write out/01ARZ3NDEKTSV4RRFFQ69G5FAV.tmp";

const NO_CHUNKS: &str = "cannot write out/01ARZ3NDEKTSV4RRFFQ69G5FAV.tmp/chunks";

const NO_INDEX: &str = "cannot write out/01ARZ3NDEKTSV4RRFFQ69G5FAV.tmp/index";

const NO_CHUNK: &str = "cannot write out/01ARZ3NDEKTSV4RRFFQ69G5FAV.tmp/chunks/000001";

const NO_STONES: &str = "cannot write out/01ARZ3NDEKTSV4RRFFQ69G5FAV.tmp/tombstones";

const NO_META: &str = "cannot write out/01ARZ3NDEKTSV4RRFFQ69G5FAV.tmp/meta.json";

const NO_BLOCK: &str = "cannot write out/01ARZ3NDEKTSV4RRFFQ69G5FAV";

const BESIDE: &str = " 01ARZ3NDEKTSV4RRFFQ69G5FAV.tmp";

const THERE: &str = " 01ARZ3NDEKTSV4RRFFQ69G5FAV";

// The log is listed, each of its files is opened, and then opened again and read; the directory is listed, two are made, each file is made, written and synced, then the two directories are synced, the
// last one is renamed, and the directory that it is in is synced. The block's folder is whole or not there.
const CALLS_OF_CUT: &[(&str, &str)] = &[
    ("cannot read log", ""),
    ("cannot read log/00000000", ""),
    ("cannot read log/00000001", ""),
    ("cannot read log/00000000", ""),
    ("cannot read log/00000000", ""),
    ("cannot read log/00000001", ""),
    ("cannot read log/00000001", ""),
    (NOT_BEGUN, ""),
    (NOT_BEGUN, ""),
    (NO_CHUNKS, BESIDE),
    (NO_INDEX, BESIDE),
    (NO_INDEX, BESIDE),
    (NO_INDEX, BESIDE),
    (NO_CHUNK, BESIDE),
    (NO_CHUNK, BESIDE),
    (NO_CHUNK, BESIDE),
    (NO_STONES, BESIDE),
    (NO_STONES, BESIDE),
    (NO_STONES, BESIDE),
    (NO_META, BESIDE),
    (NO_META, BESIDE),
    (NO_META, BESIDE),
    (NO_CHUNKS, BESIDE),
    (NOT_BEGUN, BESIDE),
    (NO_BLOCK, BESIDE),
    (NO_BLOCK, THERE),
];

#[test]
fn each_call_of_cut_fails(rt: HostRuntime) -> Result<(), StoreFault> {
    let done = (0, "samples 3\nseries 2\nchunks 2\n", "");
    assert_each(&rt, &CUT, CALLS_OF_CUT, (done, THERE))
}

const NO_LOG: &str = "cannot write out/log";

const NO_LOG_BEGUN: &str = "cannot write out/log.tmp";

const NO_OLD_LOG: &str = "cannot write out/log.tmp/checkpoint.00000002";

const NO_OLD_FILE: &str = "cannot write out/log.tmp/checkpoint.00000002/00000000";

const NO_SEGMENT: &str = "cannot write out/log.tmp/00000003";

const OLD_FILE_UNREAD: &str = "cannot read log/checkpoint.00000002/00000000";

const SEGMENT_UNREAD: &str = "cannot read log/00000003";

const LOG_BESIDE: &str = " log.tmp";

// The directory is listed, the log and its checkpoint are, and each file is read. Then the two directories are made; each file is read again,
// and is made, written and synced; the two directories are synced, the last one is renamed, and the directory that it is in is synced.
const CALLS_OF_UNPACK: &[(&str, &str)] = &[
    (NO_LOG_BEGUN, ""),
    ("cannot read log", ""),
    ("cannot read log/checkpoint.00000002", ""),
    (OLD_FILE_UNREAD, ""),
    (SEGMENT_UNREAD, ""),
    (NO_LOG_BEGUN, ""),
    (NO_OLD_LOG, LOG_BESIDE),
    (OLD_FILE_UNREAD, LOG_BESIDE),
    (NO_OLD_FILE, LOG_BESIDE),
    (NO_OLD_FILE, LOG_BESIDE),
    (NO_OLD_FILE, LOG_BESIDE),
    (SEGMENT_UNREAD, LOG_BESIDE),
    (NO_SEGMENT, LOG_BESIDE),
    (NO_SEGMENT, LOG_BESIDE),
    (NO_SEGMENT, LOG_BESIDE),
    (NO_OLD_LOG, LOG_BESIDE),
    (NO_LOG_BEGUN, LOG_BESIDE),
    (NO_LOG, LOG_BESIDE),
    (NO_LOG, " log"),
];

#[test]
fn each_call_of_unpack_fails(rt: HostRuntime) -> Result<(), StoreFault> {
    let done = (0, "files 2\nrecords 2\nbytes 63\n", "");
    assert_each(&rt, &UNPACK, CALLS_OF_UNPACK, (done, " log"))
}

const APPENDED: Left = (0, "accepted\nsegment 00000001\n", "");

const NOT_WRITTEN: Left = (3, "", "cannot write log/00000001");

// The log is listed, its segment is opened, and then opened again and read, the rows are read, the segment is claimed, what a killed run may have
// left is taken away, the file beside the segment is made, written and synced, the log is listed, the file takes the segment's place, and the
// directory is synced. Where one of the last six fails, the file beside the segment is taken away, the log is listed, and the claim is taken away.
const CALLS_OF_APPEND: &[(u64, Left, Left, u64)] = &[
    (1, (3, "", "cannot read log"), OUT_OF_MEMORY, 1),
    (2, (3, "", "cannot read log/00000000"), OUT_OF_MEMORY, 2),
    (3, (3, "", "cannot read log/00000000"), OUT_OF_MEMORY, 3),
    (4, (3, "", "cannot read log/00000000"), OUT_OF_MEMORY, 4),
    (5, (3, "", "cannot read rows"), OUT_OF_MEMORY, 5),
    (6, NOT_WRITTEN, OUT_OF_MEMORY, 6),
    (7, APPENDED, APPENDED, 13),
    (8, NOT_WRITTEN, OUT_OF_MEMORY, 11),
    (9, NOT_WRITTEN, OUT_OF_MEMORY, 12),
    (10, NOT_WRITTEN, OUT_OF_MEMORY, 13),
    (11, NOT_WRITTEN, OUT_OF_MEMORY, 14),
    (12, NOT_WRITTEN, OUT_OF_MEMORY, 15),
    (13, NOT_WRITTEN, OUT_OF_MEMORY, 16),
    // there is no such call
    (14, APPENDED, APPENDED, 13),
];

// Ends the test unless to append leaves this where a call fails, and the segment is there just where it was appended.
fn assert_append<R: Abort + Threads + Wait + Sync + AllocGlobal>(
    rt: &R,
    failure: (u64, StoreFault),
    left: Left,
    calls: u64,
) -> Result<(), StoreFault> {
    let names = if left == APPENDED {
        " 00000000 00000001"
    } else {
        " 00000000"
    };
    assert_calls(rt, &APPEND, failure, (left, names), calls)
}

#[test]
fn each_call_of_append_fails(rt: HostRuntime) -> Result<(), StoreFault> {
    for (call, refused, out, calls) in CALLS_OF_APPEND {
        assert_append(&rt, (*call, UNSAID), *refused, *calls)?;
        assert_append(&rt, (*call, StoreFault::OutOfMemory), *out, *calls)?;
    }
    Ok(())
}

const NO_CHECKPOINT: &str = "cannot write log/checkpoint.00000001";

const NO_DIRECTORY: &str = "cannot write log/checkpoint.00000001.tmp";

const NO_FILE: &str = "cannot write log/checkpoint.00000001.tmp/00000000";

const ALONE: &str = " 00000000 00000001";

const WITH_UNFINISHED: &str = " 00000000 00000001 checkpoint.00000001.tmp";

const WITH_CHECKPOINT: &str = " 00000000 00000001 checkpoint.00000001";

// The log is read and listed once more; the directory is made, the file is made, written and synced; the log is listed and its last segment
// read again; then the directory is synced and renamed, and the log's directory is synced. No segment is taken away.
const CALLS_OF_CHECKPOINT: &[(&str, &str)] = &[
    ("cannot read log", ALONE),
    ("cannot read log/00000000", ALONE),
    ("cannot read log/00000001", ALONE),
    ("cannot read log", ALONE),
    (NO_DIRECTORY, ALONE),
    (NO_FILE, WITH_UNFINISHED),
    (NO_FILE, WITH_UNFINISHED),
    (NO_FILE, WITH_UNFINISHED),
    ("cannot read log", WITH_UNFINISHED),
    ("cannot read log/00000001", WITH_UNFINISHED),
    (NO_DIRECTORY, WITH_UNFINISHED),
    (NO_CHECKPOINT, WITH_UNFINISHED),
    (NO_CHECKPOINT, WITH_CHECKPOINT),
];

#[test]
fn each_call_of_checkpoint_fails(rt: HostRuntime) -> Result<(), StoreFault> {
    let done = (0, "checkpoint 00000001\nrecords 2\n", "");
    assert_each(
        &rt,
        &CHECKPOINT,
        CALLS_OF_CHECKPOINT,
        (done, WITH_CHECKPOINT),
    )
}
