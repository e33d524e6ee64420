//! Blocks, read.

use crate::cases::{Case, check, of_hex, shown};
use crate::indices::{THREE_SERIES, push_labels};
use block_read::{Block, BlockRow, BlockRows, read_block};
use hw_bytes::Items;
use std::alloc::{AllocError, Global};

// A part of the block of three series, of which the last has no sample in its hour.
#[derive(Clone, Copy, PartialEq, Eq)]
pub(crate) enum Part {
    Index,
    Chunks,
    Tombstones,
    Meta,
}

// A chunk of job=a with one sample, and one of job=b with two.
const CHUNKS: &str = "85BD40DD 01 000000 \
    0C 41 0001 A01F 0000000000000014  AEE05183 \
    16 41 0002 D00F 000000000000000A D00F 000000000000000B  277F9597";

pub(crate) const META: &[u8] = b"{\n\
    \t\"ulid\": \"01ARZ3NDEKTSV4RRFFQ69G5FAV\",\n\
    \t\"minTime\": 0,\n\
    \t\"maxTime\": 3600000,\n\
    \t\"stats\": {\n\
    \t\t\"numSamples\": 3,\n\
    \t\t\"numSeries\": 2,\n\
    \t\t\"numChunks\": 2\n\
    \t},\n\
    \t\"compaction\": {\n\
    \t\t\"level\": 1,\n\
    \t\t\"sources\": [\n\
    \t\t\t\"01ARZ3NDEKTSV4RRFFQ69G5FAV\"\n\
    \t\t]\n\
    \t},\n\
    \t\"version\": 1\n\
    }\n";

// The bytes of a part.
pub(crate) fn bytes_of(alloc: Global, part: Part) -> Result<Vec<u8>, AllocError> {
    match part {
        Part::Index => of_hex(alloc, THREE_SERIES),
        Part::Chunks => of_hex(alloc, CHUNKS),
        Part::Tombstones => of_hex(alloc, "0130BA30 01  00000000"),
        Part::Meta => Vec::from_slice(alloc, META),
    }
}

// The bytes of a part, where another one may have been replaced.
fn part_in(
    alloc: Global,
    part: Part,
    replaced: Part,
    bytes: &[u8],
) -> Result<Items<u8>, AllocError> {
    if part == replaced {
        return Ok(Items::from_vec(Vec::from_slice(alloc, bytes)?));
    }
    Ok(Items::from_vec(bytes_of(alloc, part)?))
}

// The block with these bytes for a part.
pub(crate) fn block_with(alloc: Global, part: Part, bytes: &[u8]) -> Result<Block, AllocError> {
    let index = part_in(alloc, Part::Index, part, bytes)?;
    let file = part_in(alloc, Part::Chunks, part, bytes)?;
    let tombstones = part_in(alloc, Part::Tombstones, part, bytes)?;
    let meta = part_in(alloc, Part::Meta, part, bytes)?;
    let mut files = Vec::new(alloc);
    files.push(file)?;
    Ok(Block {
        index,
        chunks: Items::from_vec(files),
        tombstones,
        meta,
    })
}

// A row's labels, its samples and its hidden runs, and after it a semicolon.
fn push_row(text: &mut String, row: &BlockRow) -> Result<(), AllocError> {
    push_labels(text, &row.labels)?;
    for sample in row.samples.as_slice() {
        write!(text, "{}={} ", sample.time, sample.value)?;
    }
    for run in row.hidden.as_slice() {
        write!(text, "{}..{} ", run.min_time, run.max_time)?;
    }
    text.push(';')?;
    Ok(())
}

fn rows_text(alloc: Global, rows: &[BlockRow]) -> Result<String, AllocError> {
    let mut text = String::new(alloc);
    for row in rows {
        push_row(&mut text, row)?;
    }
    Ok(text)
}

fn block_text(alloc: Global, read: &BlockRows) -> Result<String, AllocError> {
    let rows = rows_text(alloc, read.rows.as_slice())?;
    let k = read.hour.k();
    format!(in alloc; "{} {k} {rows}", read.ulid)
}

fn read_text(alloc: Global, block: &Block) -> Result<String, AllocError> {
    match read_block(alloc, block) {
        Ok(read) => block_text(alloc, &read),
        Err(fault) => shown(alloc, fault),
    }
}

// The block with these bytes for a part, in hexadecimal digits.
struct Given(Part, &'static str);

impl Case for Given {
    fn text(&self, alloc: Global) -> Result<String, AllocError> {
        let bytes = of_hex(alloc, self.1)?;
        let block = block_with(alloc, self.0, &bytes)?;
        read_text(alloc, &block)
    }
}

const TOMBSTONES: &[(Given, &str)] = &[
    (
        Given(Part::Tombstones, "0130BA30 01  00000000"),
        "01ARZ3NDEKTSV4RRFFQ69G5FAV 0 job=a 2000=20 ;job=b 1000=10 3000=11 ;",
    ),
    // the times 0 to 9 of job=a, and from 11 to the last one of the hour
    (
        Given(
            Part::Tombstones,
            "0130BA30 01 02 00 12 02 16 FEB9B703  7EC77C5B",
        ),
        "01ARZ3NDEKTSV4RRFFQ69G5FAV 0 job=a 2000=20 0..9 11..3599999 ;job=b 1000=10 3000=11 ;",
    ),
    // 0 to 9 and 10 to 12, which leave no time between them
    (
        Given(Part::Tombstones, "0130BA30 01 02 00 12 02 14 18  7E021305"),
        "BadTombstones",
    ),
    // job=b before job=a, a series that is none, and a run without a time
    (
        Given(Part::Tombstones, "0130BA30 01 03 00 12 02 00 12  8B9FC079"),
        "BadTombstones",
    ),
    (
        Given(Part::Tombstones, "0130BA30 01 04 00 12  0FDFB0F8"),
        "BadTombstones",
    ),
    (
        Given(Part::Tombstones, "0130BA30 01 02 12 00  378B3018"),
        "BadTombstones",
    ),
    // a run past the hour's end
    (
        Given(
            Part::Tombstones,
            "0130BA30 01 02 FEB9B703 80BAB703  087802E9",
        ),
        "BadMeta",
    ),
];

#[test]
fn hidden_runs_of_a_block(rt: HostRuntime) {
    check(&rt, TOMBSTONES);
}

// The chunks as they are, and with counts of samples that the second one does not have, with the right checksum.
const COUNTS: &[(Given, &str)] = &[
    (
        Given(Part::Chunks, CHUNKS),
        "01ARZ3NDEKTSV4RRFFQ69G5FAV 0 job=a 2000=20 ;job=b 1000=10 3000=11 ;",
    ),
    (
        Given(
            Part::Chunks,
            "85BD40DD 01 000000 \
            0C 41 0001 A01F 0000000000000014  AEE05183 \
            16 41 0078 D00F 000000000000000A D00F 000000000000000B  6D9774F7",
        ),
        "BadChunks",
    ),
    (
        Given(
            Part::Chunks,
            "85BD40DD 01 000000 \
            0C 41 0001 A01F 0000000000000014  AEE05183 \
            16 41 FFFF D00F 000000000000000A D00F 000000000000000B  1BA6994A",
        ),
        "BadChunks",
    ),
];

#[test]
fn invented_counts_of_samples(rt: HostRuntime) {
    check(&rt, COUNTS);
}
