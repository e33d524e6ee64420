//! Hours, and chunks of samples.

ghost use Rattle.std.specs.Prelude.{◌<◌, ◌≤◌, length};
ghost use Rattle.head_column.specs.Samples.{Rises};

use crate::same;
use head_column::{Chunk, ChunkFault, Column, Hour, Item, Sample, decode_chunk, encode_chunk};
use head_deal::Builder;
use std::alloc::{AllocError, Global};
use std::fmt::Display;
use std::process::Abort;

// Times, and the numbers of their hours.
const HOURS: [(i64, i64); 8] = [
    (0, 0),
    (3_599_999, 0),
    (3_600_000, 1),
    (-1, -1),
    (-3_600_000, -1),
    (-3_600_001, -2),
    (i64::MIN, -2_562_047_788_016),
    (i64::MAX, 2_562_047_788_015),
];

#[test]
fn hour_of_a_time(rt: HostRuntime) {
    for (time, k) in HOURS {
        same(&rt, time, Hour::of(time).k(), k);
    }
}

// Times, and whether their hours are edges. The last time is the first one of its hour, the one after the first edge.
const EDGES: [(i64, bool); 4] = [
    (i64::MIN, true),
    (i64::MAX, true),
    (-1, false),
    (-9_223_372_036_854_000_000, false),
];

// Numbers, and a time in the hours of those numbers, where there are such hours.
const NUMBERS: [(i64, Option<i64>); 5] = [
    (-2_562_047_788_017, None),
    (2_562_047_788_016, None),
    (-2_562_047_788_016, Some(i64::MIN)),
    (2_562_047_788_015, Some(i64::MAX)),
    (-2_562_047_788_015, Some(-9_223_372_036_854_000_000)),
];

fn hour_of(time: Option<i64>) -> Option<Hour> {
    match time {
        Some(time) => Some(Hour::of(time)),
        None => None,
    }
}

#[test]
fn edges_of_time(rt: HostRuntime) {
    for (time, is_edge) in EDGES {
        same(&rt, time, Hour::of(time).is_edge(), is_edge);
    }
    for (k, time) in NUMBERS {
        same(&rt, k, Hour::new(k), hour_of(time));
    }
}

// The samples as a text, of which the samples are made again.
fn text_of(rt: &impl Abort, alloc: Global, samples: &[Sample]) -> Result<Vec<u8>, ChunkFault>
    requires some { 0 < length samples.now }
    requires few { length samples.now ≤ 120 }
    requires rises { Rises samples.now }
{
    let text = encode_chunk(alloc, samples)?;
    let again = decode_chunk(alloc, &text)?;
    same(rt, "again", again.as_slice(), samples);
    Ok(text)
}

#[test]
fn one_sample(rt: HostRuntime) -> Result<(), ChunkFault> {
    let samples = [Sample {
        time: 2000,
        value: 20,
    }];
    let text = text_of(&rt, rt.alloc(), &samples)?;
    let wanted = b"\0\x01\xA0\x1F\0\0\0\0\0\0\0\x14";
    same(&rt, "text", text.as_slice(), wanted.as_slice());
    Ok(())
}

#[test]
fn ends_of_time(rt: HostRuntime) -> Result<(), ChunkFault> {
    let samples = [
        Sample {
            time: i64::MIN,
            value: -1,
        },
        Sample {
            time: i64::MAX,
            value: i64::MIN,
        },
    ];
    let text = text_of(&rt, rt.alloc(), &samples)?;
    same(&rt, "length", text.len(), 2 + 10 + 8 + 10 + 8);
    Ok(())
}

const BAD_CHUNKS: [&[u8]; 8] = [
    // no count, and no samples
    b"",
    b"\0\0",
    // a byte too few, and one too many
    b"\0\x01\xA0\x1F\0\0\0\0\0\0\0",
    b"\0\x01\xA0\x1F\0\0\0\0\0\0\0\x14\0",
    // a longer spelling of the time
    b"\0\x01\xA0\x9F\0\0\0\0\0\0\0\0\x14",
    // two samples at one time
    b"\0\x02\x02\0\0\0\0\0\0\0\x01\0\0\0\0\0\0\0\0\x02",
    // the second one past the greatest time
    b"\0\x02\x02\0\0\0\0\0\0\0\x01\xFF\xFF\xFF\xFF\xFF\xFF\xFF\xFF\xFF\x01\0\0\0\0\0\0\0\x02",
    // more samples than a chunk has
    b"\0\x79\x02\0\0\0\0\0\0\0\x01",
];

#[test]
fn bad_chunks(rt: HostRuntime) {
    for text in BAD_CHUNKS {
        let fault = decode_chunk(rt.alloc(), text).err();
        same(&rt, text, fault, Some(ChunkFault::BadChunk));
    }
}

#[test]
fn texts_of_faults(rt: HostRuntime) -> Result<(), AllocError> {
    for (fault, wanted) in [
        (ChunkFault::BadChunk, "bad chunk"),
        (ChunkFault::Memory, "out of memory"),
    ] {
        let text = fault.to_string(rt.alloc())?;
        same(&rt, fault, text.as_str(), wanted);
    }
    Ok(())
}

// A column of a sample each second from 0 to 120, and of one as the next hour begins.
fn apply_seconds(column: &mut Column) -> Result<(), AllocError> {
    for i in 0u32..121 {
        let value = i64::from(i);
        let time = value * 1000;
        column.apply(&Item::Sample(Sample { time, value }))?;
    }
    let (time, value) = (3_600_000, 0);
    column.apply(&Item::Sample(Sample { time, value }))?;
    Ok(())
}

// The first and the last time of a chunk, how many samples it has, and the length of its text.
pub type Figures = (i64, i64, usize, usize);

pub fn figures(alloc: Global, chunks: &[Chunk]) -> Result<Vec<Figures>, AllocError> {
    let mut figures = Vec::new(alloc);
    for chunk in chunks {
        figures.push((
            chunk.min_time,
            chunk.max_time,
            chunk.count,
            chunk.text.len(),
        ))?;
    }
    Ok(figures)
}

fn check_hour(
    rt: &impl Abort,
    alloc: Global,
    column: &Column,
    time: i64,
    wanted: &[Figures],
) -> Result<(), AllocError> {
    let chunks = column.chunks_in(Hour::of(time))?;
    let found = figures(alloc, chunks.as_slice())?;
    same(rt, time, found.as_slice(), wanted);
    Ok(())
}

// The text of the last chunk, if there is one.
pub fn last_text(chunks: &[Chunk]) -> Option<&[u8]> {
    match chunks.last() {
        Some(chunk) => Some(chunk.text.as_slice()),
        None => None,
    }
}

// Times, and the chunks of their hours.
const CHUNKS: [(i64, &[Figures]); 3] = [
    (-1, &[]),
    (0, &[(0, 119_000, 120, 1201), (120_000, 120_000, 1, 13)]),
    (3_600_000, &[(3_600_000, 3_600_000, 1, 14)]),
];

const LAST_OF_FIRST_HOUR: &[u8] = b"\0\x01\x80\xD3\x0E\0\0\0\0\0\0\0\x78";

fn check_chunks(rt: &impl Abort, alloc: Global, column: &mut Column) -> Result<(), AllocError> {
    apply_seconds(column)?;
    for (time, wanted) in CHUNKS {
        check_hour(rt, alloc, column, time, wanted)?;
    }
    let chunks = column.chunks_in(Hour::of(0))?;
    same(rt, "text", last_text(&chunks), Some(LAST_OF_FIRST_HOUR));
    Ok(())
}

#[test]
fn chunks_of_an_hour(rt: HostRuntime) -> Result<(), AllocError> {
    let mut column = Column::new(rt.alloc());
    let outcome = check_chunks(&rt, rt.alloc(), &mut column);
    drop(column);
    outcome
}
