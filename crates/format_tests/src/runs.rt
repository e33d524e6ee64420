//! The pages of small logs by number, in runs.

use crate::cases::{Case, check};
use crate::logs::push_place;
use std::alloc::{AllocError, Global};
use wal_log::*;
use wal_page::PAGE_SIZE;

// A file of this length. Each of its pages is one byte over and over, the first of them the byte `first`, the next that plus 1, and so on.
fn file(alloc: Global, number: u64, len: usize, first: u8) -> Result<Segment, AllocError> {
    let mut bytes = Vec::new(alloc);
    let mut byte = first;
    for page in 1..=len.div_ceil(PAGE_SIZE) {
        bytes.resize(len.min(page.saturating_mul(PAGE_SIZE)), byte)?;
        byte = byte.wrapping_add(1);
    }
    Ok(Segment {
        number,
        bytes: Items::from_vec(bytes),
    })
}

// The number of a file, its length, and the byte of its first page.
type File = (u64, usize, u8);

fn files(alloc: Global, list: &[File]) -> Result<Vec<Segment>, AllocError> {
    let mut files = Vec::new(alloc);
    for (number, len, first) in list {
        files.push(file(alloc, *number, *len, *first)?)?;
    }
    Ok(files)
}

// The place of a run, its length, and its first and its last byte.
fn push_run(text: &mut String, run: PageRun<'_>) -> Result<(), AllocError> {
    push_place(text, run.place)?;
    let first = run.bytes.first().copied().unwrap_or(0);
    let last = run.bytes.last().copied().unwrap_or(0);
    write!(text, "{} {first} {last}, ", run.bytes.len())?;
    Ok(())
}

// How many pages a log has, and the runs of so many of them from one on.
fn runs_text(alloc: Global, input: &Input, from: u64, count: u64) -> Result<String, AllocError> {
    let mut text = format!(in alloc; "{}: ", pages(input))?;
    for run in wal_log::page_runs(alloc, input, from, count)? {
        push_run(&mut text, run)?;
    }
    Ok(text)
}

// The files of a checkpoint 4, or no checkpoint, and segments; the number of the first page, and how many.
struct Runs(Option<&'static [File]>, &'static [File], u64, u64);

impl Case for Runs {
    fn text(&self, alloc: Global) -> Result<String, AllocError> {
        let checkpoint = match self.0 {
            Some(list) => Some(Checkpoint {
                number: 4,
                files: Items::from_vec(files(alloc, list)?),
            }),
            None => None,
        };
        match Input::new(checkpoint, files(alloc, self.1)?) {
            Ok(input) => runs_text(alloc, &input, self.2, self.3),
            Err(refused) => format!(in alloc; "{:?}", refused.fault),
        }
    }
}

// One segment of six pages.
const SIX: &[File] = &[(0, 6 * PAGE_SIZE, 1)];

const OF_SIX_PAGES: &[(Runs, &str)] = &[
    (Runs(None, SIX, 0, 6), "6: segment 0 0 196608 1 6, "),
    (Runs(None, SIX, 4, 10), "6: segment 0 131072 65536 5 6, "),
    (Runs(None, SIX, 6, 1), "6: "),
];

#[test]
fn page_runs(rt: HostRuntime) {
    check(&rt, OF_SIX_PAGES);
}

const OF_ONE_FILE: &[(Runs, &str)] = &[
    (Runs(None, SIX, 2, 3), "6: segment 0 65536 98304 3 5, "),
    (Runs(None, SIX, 2, 0), "6: "),
    (Runs(None, &[], 0, 1), "0: "),
    (Runs(None, &[(0, 0, 1)], 0, 1), "0: "),
    (Runs(None, &[(7, 1, 1)], 0, 1), "1: segment 7 0 1 1 1, "),
    (
        Runs(None, &[(7, 8 * PAGE_SIZE, 1)], 0, 9),
        "8: segment 7 0 262144 1 8, ",
    ),
    (
        Runs(None, &[(7, 8 * PAGE_SIZE + 1, 1)], 0, 9),
        "9: segment 7 0 262144 1 8, segment 7 262144 1 9 9, ",
    ),
];

#[test]
fn runs_of_one_file(rt: HostRuntime) {
    check(&rt, OF_ONE_FILE);
}

// Two pages, the second of one byte; no page.
const CHECKPOINT: Option<&[File]> = Some(&[(0, PAGE_SIZE + 1, 1), (1, 0, 0)]);

// A page of five bytes; no page; ten pages, the last of seven bytes.
const SEGMENTS: &[File] = &[(5, 5, 3), (6, 0, 0), (7, 9 * PAGE_SIZE + 7, 4)];

const OF_FILES: &[(Runs, &str)] = &[
    (
        Runs(CHECKPOINT, SEGMENTS, 0, u64::MAX),
        "13: checkpoint 0 0 32769 1 2, segment 5 0 5 3 3, segment 7 0 262144 4 11, segment 7 262144 32775 12 13, ",
    ),
    (
        Runs(CHECKPOINT, SEGMENTS, 1, 3),
        "13: checkpoint 0 32768 1 2 2, segment 5 0 5 3 3, segment 7 0 32768 4 4, ",
    ),
    (
        Runs(CHECKPOINT, SEGMENTS, 0, 2),
        "13: checkpoint 0 0 32769 1 2, ",
    ),
    (Runs(CHECKPOINT, SEGMENTS, 2, 1), "13: segment 5 0 5 3 3, "),
    // from in the middle of what would be a run
    (
        Runs(CHECKPOINT, SEGMENTS, 4, 9),
        "13: segment 7 32768 262144 5 12, segment 7 294912 7 13 13, ",
    ),
    (
        Runs(CHECKPOINT, SEGMENTS, 5, 8),
        "13: segment 7 65536 229383 6 13, ",
    ),
    (
        Runs(CHECKPOINT, SEGMENTS, 3, 8),
        "13: segment 7 0 262144 4 11, ",
    ),
    (
        Runs(CHECKPOINT, SEGMENTS, 12, u64::MAX),
        "13: segment 7 294912 7 13 13, ",
    ),
    (Runs(CHECKPOINT, SEGMENTS, 13, u64::MAX), "13: "),
    (Runs(CHECKPOINT, SEGMENTS, u64::MAX, u64::MAX), "13: "),
    (Runs(CHECKPOINT, SEGMENTS, 5, 0), "13: "),
    (Runs(CHECKPOINT, &[], 1, 1), "2: checkpoint 0 32768 1 2 2, "),
];

// A run ends with its file, or has eight pages.
#[test]
fn runs_over_files(rt: HostRuntime) {
    check(&rt, OF_FILES);
}
