//! Columns of so many samples that chunks are full, or that hours end.

use crate::same;
use head_column::{Column, Hour, Item, KeepingColumn, Outcome, Run, Sample, decode_chunk};
use head_deal::Builder;
use std::alloc::{AllocError, Global};
use std::process::Abort;
use xor_chunk::encode;

// Numbers of samples, at and around the greatest number in a chunk.
const COUNTS: [i64; 9] = [0, 1, 2, 3, 119, 120, 121, 240, 241];

// The first time, and the time from one sample to the next: within an hour, from the last millisecond of an hour, an hour each, and from the
// first time of all with steps that are seldom alike.
const TIMES: [(i64, i64); 5] = [
    (0, 15_000),
    (3_599_999, 1),
    (-7_200_000, 3_600_000),
    (i64::MIN, 1),
    (i64::MIN, 76_000_000_000_000_007),
];

// Patterns of values.
const VALUES: [i64; 7] = [0, -1, i64::MIN, i64::MAX, 1, 4_607_182_418_800_017_408, 1];

// The samples of a case.
fn samples_of(
    alloc: Global,
    (first, step): (i64, i64),
    count: i64,
) -> Result<Vec<Sample>, AllocError> {
    let mut samples = Vec::new(alloc);
    for at in 0..count {
        samples.push(Sample {
            time: first.wrapping_add(step.wrapping_mul(at)),
            value: VALUES[at.rem_euclid(7) as usize],
        })?;
    }
    Ok(samples)
}

// Those from a time on.
fn from_time(alloc: Global, samples: &[Sample], time: i64) -> Result<Vec<Sample>, AllocError> {
    let mut kept = Vec::new(alloc);
    for sample in samples {
        if sample.time >= time {
            kept.push(*sample)?;
        }
    }
    Ok(kept)
}

// Those of an hour.
fn in_hour(alloc: Global, samples: &[Sample], hour: Hour) -> Result<Vec<Sample>, AllocError> {
    let mut kept = Vec::new(alloc);
    for sample in samples {
        if Hour::of(sample.time) == hour {
            kept.push(*sample)?;
        }
    }
    Ok(kept)
}

// The column of samples, each of which is accepted.
fn column_of(rt: &impl Abort, alloc: Global, samples: &[Sample]) -> Result<Column, AllocError> {
    let mut column = Column::new(alloc);
    for sample in samples {
        let told = column.apply(&Item::Sample(*sample))?;
        same(rt, sample, told, Outcome::Accepted);
    }
    Ok(column)
}

// The column has these samples, and no sample at the last time or before is accepted.
fn check_kept(rt: &impl Abort, column: &mut Column, samples: &[Sample]) -> Result<(), AllocError> {
    let last = samples.last();
    for sample in last {
        let told = column.apply(&Item::Sample(*sample))?;
        same(rt, sample, told, Outcome::Stale);
    }
    let kept = column.samples()?;
    same(rt, last, kept.as_slice(), samples);
    same(rt, last, column.len(), samples.len());
    same(rt, last, column.max_time(), last.map(|it| it.time));
    Ok(())
}

// The chunks of an hour have its samples.
fn check_hour(
    rt: &impl Abort,
    alloc: Global,
    column: &Column,
    samples: &[Sample],
    time: i64,
) -> Result<(), AllocError> {
    let hour = Hour::of(time);
    let wanted = in_hour(alloc, samples, hour)?;
    let mut found = Vec::new(alloc);
    let chunks = column.chunks_in(hour)?;
    for chunk in &chunks {
        match decode_chunk(alloc, chunk.text.as_slice()) {
            Ok(more) => found.extend_from_slice(&more)?,
            Err(_) => return Err(AllocError),
        }
    }
    same(rt, time, found.as_slice(), wanted.as_slice());
    Ok(())
}

// The XOR chunks of an hour are those that the encoder makes of each 120 of its samples.
fn check_xor(
    rt: &impl Abort,
    alloc: Global,
    column: &Column,
    samples: &[Sample],
    time: i64,
) -> Result<(), AllocError> {
    let hour = Hour::of(time);
    let wanted = in_hour(alloc, samples, hour)?;
    let mut rest = wanted.as_slice();
    for chunk in &column.xor_chunks_in(hour)? {
        let (part, behind) = rest.split_at(rest.len().min(120));
        let text = encode(alloc, part)?;
        same(rt, time, chunk.text.as_slice(), text.as_slice());
        same(rt, time, chunk.count, part.len());
        same(rt, time, Some(chunk.min_time), part.first().map(|s| s.time));
        same(rt, time, Some(chunk.max_time), part.last().map(|s| s.time));
        rest = behind;
    }
    same(rt, time, rest.len(), 0);
    Ok(())
}

// So it is with a least valid time, and with a later sample behind it.
fn check_truncated(
    rt: &impl Abort,
    alloc: Global,
    samples: &[Sample],
    time: i64,
) -> Result<(), AllocError> {
    let mut column = column_of(rt, alloc, samples)?;
    let mut kept = from_time(alloc, samples, time)?;
    column.truncate(time);
    check_kept(rt, &mut column, &kept)?;
    check_hour(rt, alloc, &column, &kept, time)?;
    check_xor(rt, alloc, &column, &kept, time)?;
    let later = Sample {
        time: i64::MAX,
        value: 3,
    };
    let told = column.apply(&Item::Sample(later))?;
    same(rt, time, told, Outcome::Accepted);
    kept.push(later)?;
    check_kept(rt, &mut column, &kept)
}

// Of a window that begins with one of the samples and ends with another, just its samples are kept.
fn check_window(
    rt: &impl Abort,
    alloc: Global,
    samples: &[Sample],
    wanted: &[Sample],
) -> Result<(), AllocError> {
    let (Some(first), Some(last)) = (wanted.first(), wanted.last()) else {
        return Ok(());
    };
    let times = Run {
        min_time: first.time,
        max_time: last.time,
    };
    let mut keeping = KeepingColumn::new(alloc, times);
    for sample in samples {
        let told = keeping.apply(&Item::Sample(*sample))?;
        same(rt, sample, told, Outcome::Accepted);
    }
    let mut column = keeping.into_column()?;
    check_kept(rt, &mut column, wanted)
}

fn check(rt: &impl Abort, alloc: Global, samples: &[Sample]) -> Result<(), AllocError> {
    let mut column = column_of(rt, alloc, samples)?;
    check_kept(rt, &mut column, samples)?;
    for (first, end) in [(1, 119), (60, 122), (119, 120), (120, 241)] {
        if let Some(wanted) = samples.get(first..end) {
            check_window(rt, alloc, samples, wanted)?;
        }
    }
    for at in [0, 1, 60, 118, 119, 120, 121, 239, 240] {
        if let Some(sample) = samples.get(at) {
            check_hour(rt, alloc, &column, samples, sample.time)?;
            check_xor(rt, alloc, &column, samples, sample.time)?;
            check_truncated(rt, alloc, samples, sample.time)?;
            check_truncated(rt, alloc, samples, sample.time.wrapping_add(1))?;
        }
    }
    Ok(())
}

#[test]
fn columns_whose_chunks_are_sealed(rt: HostRuntime) -> Result<(), AllocError> {
    let alloc = rt.alloc();
    for times in TIMES {
        for count in COUNTS {
            let samples = samples_of(alloc, times, count)?;
            check(&rt, alloc, &samples)?;
        }
    }
    Ok(())
}

// Appends the samples. One that is refused memory changes nothing, and is taken when it comes again.
fn append_each(rt: &impl Abort, alloc: Global, samples: &[Sample]) -> Result<Column, AllocError> {
    let mut column = Column::new(alloc);
    for (at, sample) in samples.iter().enumerate() {
        if column.apply(&Item::Sample(*sample)).is_err() {
            same(rt, at, column.len(), at);
            let told = column.apply(&Item::Sample(*sample))?;
            same(rt, at, told, Outcome::Accepted);
        }
    }
    Ok(column)
}

fn append_and_check(rt: &impl Abort, alloc: Global) -> Result<(), AllocError> {
    // the last of five chunks of each hour is shorter
    let samples = samples_of(alloc, (0, 7_000), 20_000)?;
    let mut column = append_each(rt, alloc, &samples)?;
    check_kept(rt, &mut column, &samples)?;
    check_xor(rt, alloc, &column, &samples, 3_600_000)
}

// To be run too with each allocation refused in turn.
#[test]
fn each_allocation(rt: HostRuntime) {
    let _ = append_and_check(&rt, rt.alloc());
}
