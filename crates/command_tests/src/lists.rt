//! The commands that write, over a list of files.

use crate::checks::{UNSAID, same};
use crate::fragments::*;
use crate::listed::{Listed, found};
use crate::noted_call::NotedCall;
use crate::outlasts::{Outcome, append, cut, make_checkpoint, unpack};
use crate::runs::{APPEND, CHECKPOINT, CUT, Case, RESCUE, UNPACK};
use answers::Status;
use block_commands::BlockRequest;
use command_line::Asked;
use std::alloc::{AllocError, Global};
use std::process::Abort;
use std::sync::Wait;
use std::thread::Threads;
use store::StoreFault;

// The files of a case, in a list.
fn listed(alloc: Global, case: &Case) -> Result<Vec<Listed>, AllocError> {
    let mut files = Vec::new(alloc);
    for (path, bytes) in case.standing {
        let dir = path.strip_suffix('/');
        files.push(Listed {
            path: String::from_str(alloc, dir.unwrap_or(path))?,
            is_dir: dir.is_some(),
            bytes: Vec::from_slice(alloc, bytes)?,
        })?;
    }
    Ok(files)
}

// Carries out what a case asks for, over its files.
fn run<R: Threads + Wait + Sync + AllocGlobal>(rt: &R, case: &Case) -> Result<Outcome, StoreFault> {
    let alloc = rt.alloc();
    let files = listed(alloc, case)?;
    match case.asked {
        Asked::Append(request) => Ok(append(rt, alloc, files, request)),
        Asked::Checkpoint(request) => Ok(make_checkpoint(alloc, files, request)),
        Asked::OfBlocks(BlockRequest::Cut(request)) => Ok(cut(rt, alloc, files, request)),
        Asked::Unpack(request) => Ok(unpack(alloc, files, request)),
        _ => Err(UNSAID),
    }
}

// The paths of files, each after a space.
fn paths(alloc: Global, files: &[Listed]) -> Result<String, AllocError> {
    let mut text = String::new(alloc);
    for file in files {
        text.push_str(" ")?;
        text.push_str(&file.path)?;
    }
    Ok(text)
}

// A case, the paths of its files, those that it adds, and of the last files that it adds their bytes.
type Listing = (
    &'static Case,
    &'static str,
    &'static [(&'static str, &'static [u8])],
);

const LISTINGS: &[Listing] = &[
    (
        &APPEND,
        " log log/00000000 rows log/00000001",
        &[
            ("log/00000000", SERIES_1_JOB_API),
            ("rows", b"1030 8 job=api\n"),
            ("log/00000001", SAMPLE_1_AT_1030),
        ],
    ),
    (
        &CHECKPOINT,
        " log log/00000000 log/00000001 log/checkpoint.00000001 log/checkpoint.00000001/00000000",
        &[
            ("log/00000000", THREE_SERIES),
            ("log/00000001", SAMPLES_OF_THREE_SERIES),
        ],
    ),
    (
        &CUT,
        " log log/00000000 log/00000001 out out/01ARZ3NDEKTSV4RRFFQ69G5FAV out/01ARZ3NDEKTSV4RRFFQ69G5FAV/chunks \
        out/01ARZ3NDEKTSV4RRFFQ69G5FAV/index out/01ARZ3NDEKTSV4RRFFQ69G5FAV/chunks/000001 \
        out/01ARZ3NDEKTSV4RRFFQ69G5FAV/tombstones out/01ARZ3NDEKTSV4RRFFQ69G5FAV/meta.json",
        &[
            ("log/00000000", THREE_SERIES),
            ("log/00000001", SAMPLES_OF_THREE_SERIES),
        ],
    ),
    (
        &UNPACK,
        " log log/checkpoint.00000002 log/checkpoint.00000002/00000000 log/00000003 out out/log out/log/checkpoint.00000002 \
        out/log/checkpoint.00000002/00000000 out/log/00000003",
        &[
            ("log/checkpoint.00000002/00000000", SERIES_3_COMPRESSED),
            ("log/00000003", SAMPLE_1_AT_1030),
            ("out/log/checkpoint.00000002/00000000", SERIES_3),
            ("out/log/00000003", SAMPLE_1_AT_1030),
        ],
    ),
    (
        &RESCUE,
        " log log/checkpoint.00000002 log/checkpoint.00000002/00000000 log/00000003 out out/log out/log/checkpoint.00000002 \
        out/log/checkpoint.00000002/00000000 out/log/00000003",
        &[
            ("log/checkpoint.00000002/00000000", SERIES_3_COMPRESSED),
            ("log/00000003", SAMPLE_1_AT_1030),
            ("out/log/checkpoint.00000002/00000000", SERIES_3),
            ("out/log/00000003", SAMPLE_1_AT_1030),
        ],
    ),
];

// Ends the test unless a run ends well, leaves these files, and its last call syncs the directory.
fn assert_listing<R: Abort + Threads + Wait + Sync + AllocGlobal>(
    rt: &R,
    (case, wanted, files): &Listing,
) -> Result<(), StoreFault> {
    let alloc = rt.alloc();
    let left = run(rt, case)?;
    same(rt, wanted, left.answer.status, Status::Done);
    same(rt, wanted, paths(alloc, &left.files)?.as_str(), wanted);
    for (path, bytes) in *files {
        let there = found(&left.files, path).map(|file| file.bytes.as_slice());
        same(rt, path, there, Some(*bytes));
    }
    let last = NotedCall::SyncDir(String::from_str(alloc, case.dir)?);
    same(rt, wanted, left.calls.last(), Some(&last));
    Ok(())
}

#[test]
fn commands_over_a_list_of_files(rt: HostRuntime) -> Result<(), StoreFault> {
    for listing in LISTINGS {
        assert_listing(&rt, listing)?;
    }
    Ok(())
}
