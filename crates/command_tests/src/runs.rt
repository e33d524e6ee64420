//! Runs of commands over a store in memory.

use crate::checks::ULID;
use crate::fragments::*;
use crate::printed::Printed;
use crate::shelf::Shelf;
use answers::{
    AnalyzeRequest, Answer, DumpRequest, Encoding, LogForm, Output, Request, Status, UnpackRequest,
};
use block_commands::{BlockRequest, CutRequest, carry_out_block};
use command_line::Asked;
use head_replay::Options;
use inspect_command::carry_out_inspect;
use log_commands::carry_out_log_request;
use progress::Progress;
use query_commands::{carry_out_analyze, carry_out_dump};
use rescue_commands::{carry_out_blocks, carry_out_rescue};
use std::alloc::{AllocError, Global};
use std::sync::Wait;
use std::thread::Threads;
use store::{PartStore, StoreFault};
use unpack_command::carry_out_unpack;
use write_commands::{AppendRequest, CheckpointRequest, carry_out_append, carry_out_checkpoint};

/// How logs are replayed. What is found does not depend on it.
pub const OPTIONS: &[Options] = &[
    Options {
        workers: 1,
        round_pages: 256,
        min_valid: i64::MIN,
    },
    Options {
        workers: 2,
        round_pages: 1,
        min_valid: i64::MIN,
    },
    Options {
        workers: 7,
        round_pages: 2,
        min_valid: i64::MIN,
    },
    Options {
        workers: 64,
        round_pages: 65_536,
        min_valid: i64::MIN,
    },
];

/// Stands where one of these takes its place.
pub const ANY: Options = Options {
    workers: 4,
    round_pages: 256,
    min_valid: i64::MIN,
};

/// What a run leaves: its status, what it prints, and what it says.
pub type Left = (u8, &'static str, &'static str);

pub const OUT_OF_MEMORY: Left = (4, "", "out of memory");

/// What is asked of a store, of which one call then fails.
#[derive(Clone, Copy)]
pub struct Case {
    /// What is there: directories, whose paths end in `/`, and files with their bytes.
    pub standing: &'static [(&'static str, &'static [u8])],
    pub asked: Asked<'static>,
    /// Of which directory the names are looked at afterwards.
    pub dir: &'static str,
}

/// A store with what a case says.
pub fn shelf_of(alloc: Global, case: &Case) -> Result<Shelf, StoreFault> {
    let mut shelf = Shelf::new(alloc)?;
    for (path, bytes) in case.standing {
        match path.strip_suffix('/') {
            Some(dir) => shelf.put_dir(dir)?,
            None => shelf.put(path, bytes)?,
        }
    }
    Ok(shelf)
}

/// Returns the request with these options of replay. One that replays nothing is returned unchanged.
pub fn replayed_by(asked: Asked<'_>, options: Options) -> Asked<'_> {
    match asked {
        Asked::OfBlocks(BlockRequest::Cut(request)) => {
            Asked::OfBlocks(BlockRequest::Cut(CutRequest { options, ..request }))
        }
        Asked::OfLog(Request::Replay { dir, form, .. }) => {
            Asked::OfLog(Request::Replay { dir, form, options })
        }
        Asked::Append(request) => Asked::Append(AppendRequest { options, ..request }),
        Asked::Analyze(request) => Asked::Analyze(AnalyzeRequest { options, ..request }),
        Asked::Dump(request) => Asked::Dump(DumpRequest { options, ..request }),
        asked => asked,
    }
}

/// Carries out what is asked for.
pub fn carried_out<R: Threads + Wait + Sync + AllocGlobal, S: PartStore + Sync, P: Progress + Sync>(
    rt: &R,
    store: &mut S,
    progress: &P,
    asked: Asked<'_>,
) -> Answer
where
    S::Reader: Send,
    S::Writer: Send,
{
    let alloc = rt.alloc();
    let (answer, out) = printed_on(rt, store, progress, Printed::new(alloc), asked);
    out.with(alloc, answer)
}

/// Carries out what is asked for, and prints on `out` meanwhile. Also returns the output.
pub fn printed_on<
    R: Threads + Wait + Sync + AllocGlobal,
    S: PartStore + Sync,
    P: Progress + Sync,
    O: Output,
>(rt: &R, store: &mut S, progress: &P, out: O, asked: Asked<'_>) -> (Answer, O)
where
    S::Reader: Send,
    S::Writer: Send,
{
    let alloc = rt.alloc();
    let answer = match asked {
        Asked::OfLog(request) => {
            return carry_out_log_request(rt, alloc, store, progress, out, request);
        }
        Asked::Dump(request) => return carry_out_dump(rt, alloc, store, progress, out, request),
        Asked::Inspect(request) => carry_out_inspect(alloc, store, request),
        Asked::Analyze(request) => carry_out_analyze(rt, alloc, store, progress, request),
        Asked::OfBlocks(request) => carry_out_block(rt, alloc, store, progress, request),
        Asked::Blocks(request) => carry_out_blocks(rt, alloc, store, progress, request),
        Asked::Rescue(request) => carry_out_rescue(rt, alloc, store, progress, request),
        Asked::Append(request) => carry_out_append(rt, alloc, store, progress, request),
        Asked::Checkpoint(request) => carry_out_checkpoint(alloc, store, request),
        Asked::Unpack(request) => carry_out_unpack(alloc, store, request),
        // takes its stores, as in live_stores.rt
        Asked::Live(_) => Answer::done(String::new(alloc), Status::Usage),
    };
    (answer, out)
}

/// What is said of an answer on standard error.
pub fn complaint(alloc: Global, answer: &Answer) -> Result<String, AllocError> {
    match &answer.fault {
        Some(fault) => fault.to_string(alloc),
        None => Ok(String::new(alloc)),
    }
}

/// The records of a log are listed.
pub const LISTS: Asked<'static> = Asked::OfLog(Request::Records {
    dir: "log",
    form: LogForm::Plain,
});

/// An hour of three series is cut.
pub const CUT: Case = Case {
    standing: &[
        ("log/", b""),
        ("log/00000000", THREE_SERIES),
        ("log/00000001", SAMPLES_OF_THREE_SERIES),
        ("out/", b""),
    ],
    asked: Asked::OfBlocks(BlockRequest::Cut(CutRequest {
        dir: "log",
        form: LogForm::Plain,
        hour: 0,
        ulid: ULID,
        is_made: false,
        out: "out",
        encoding: Encoding::Raw,
        options: ANY,
    })),
    dir: "out",
};

/// A row is appended.
pub const APPEND: Case = Case {
    standing: &[
        ("log/", b""),
        ("log/00000000", SERIES_1_JOB_API),
        ("rows", b"1030 8 job=api\n"),
    ],
    asked: Asked::Append(AppendRequest {
        dir: "log",
        rows: "rows",
        floats: false,
        options: ANY,
    }),
    dir: "log",
};

/// A checkpoint is made of two segments. The first two of four samples are expired.
pub const CHECKPOINT: Case = Case {
    standing: &[
        ("log/", b""),
        ("log/00000000", THREE_SERIES),
        ("log/00000001", SAMPLES_OF_THREE_SERIES),
    ],
    asked: Asked::Checkpoint(CheckpointRequest {
        dir: "log",
        form: LogForm::Plain,
        min_valid: 3000,
        keep_skipped: false,
    }),
    dir: "log",
};

/// A checkpoint of one compressed record and a segment of one without compression are unpacked.
pub const UNPACK: Case = Case {
    standing: &[
        ("log/", b""),
        ("log/checkpoint.00000002/", b""),
        ("log/checkpoint.00000002/00000000", SERIES_3_COMPRESSED),
        ("log/00000003", SAMPLE_1_AT_1030),
        ("out/", b""),
    ],
    asked: Asked::Unpack(UnpackRequest {
        dir: "log",
        out: "out/log",
        through_damage: false,
        past_damage: false,
    }),
    dir: "out",
};

/// All that can be read of the same log, which is all of it.
pub const RESCUE: Case = Case {
    asked: Asked::Unpack(UnpackRequest {
        dir: "log",
        out: "out/log",
        through_damage: false,
        past_damage: true,
    }),
    ..UNPACK
};
