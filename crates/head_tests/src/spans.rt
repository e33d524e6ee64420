//! The samples and series of heads, counted in intervals of time.

use crate::lines::{Line, apply_lines};
use crate::{one, same};
use head_core::{Head, HeadFault};
use head_intervals::{Intervals, MOST_INTERVALS, counts_in, ends_of};
use std::alloc::{AllocError, Global};
use std::process::Abort;
use std::thread::Threads;
use wal_record::{Items, LabelSet, SampleEntry, SeriesEntry, WalRecord};

// The least width of those that people read easily, by which at most 240 intervals reach from the first time to the last; if there is none, the
// least width at all.
const PARTED: &[((i64, i64), (u64, u64))] = &[
    ((5, 5), (1, 1)),
    ((0, 239), (1, 240)),
    ((0, 240), (2, 121)),
    ((-7_200_000, -1), (30_000, 240)),
    ((0, 7_200_000), (60_000, 121)),
    ((0, 86_400_000 * 239), (86_400_000, 240)),
    ((0, 86_400_000 * 240), (86_400_001, 240)),
    ((i64::MIN, i64::MAX), (76_861_433_640_456_466, 240)),
];

// Each time is in its interval, and the times around all of them are in none.
#[test]
fn times_in_intervals(rt: HostRuntime) {
    for ((first, last), (width, count)) in PARTED.iter().copied() {
        if last < first {
            continue;
        }
        let intervals = Intervals::over(first, last);
        let found = (intervals.first, intervals.width, intervals.count);
        same(&rt, last, found, (first, width, count));
        assert!(rt; count <= MOST_INTERVALS);
        let last_place = usize::try_from(count - 1).ok();
        same(&rt, first, intervals.place(first), Some(0));
        same(&rt, last, intervals.place(last), last_place);
        if let Some(before) = first.checked_sub(1) {
            same(&rt, before, intervals.place(before), None);
        }
        if let Some(next) = first.checked_add_unsigned(width) {
            let place = if count == 1 { None } else { Some(1) };
            same(&rt, next, intervals.place(next), place);
            same(&rt, next, intervals.place(next.saturating_sub(1)), Some(0));
        }
    }
}

// A record of a series with its reference as its value.
fn series_record(alloc: Global, reference: u64) -> Result<WalRecord, AllocError> {
    let value = format!(in alloc; "{reference}")?;
    let mut labels = LabelSet::new(alloc);
    if labels.push(b"a", value.as_bytes()).is_err() {
        return Err(AllocError);
    }
    let entries = one(alloc, SeriesEntry { reference, labels })?;
    Ok(WalRecord::Series(Items::from_vec(entries)))
}

// A record of a sample of each of so many series: all at one time, or each at the time of its number.
fn samples_record(alloc: Global, series: u64, time: Option<i64>) -> Result<WalRecord, AllocError> {
    let mut entries = Vec::new(alloc);
    for reference in 0..series {
        entries.push(SampleEntry {
            reference,
            time: time.unwrap_or(i64::try_from(reference).unwrap_or(i64::MAX)),
            value: 1,
        })?;
    }
    Ok(WalRecord::Samples(Items::from_vec(entries)))
}

// A head of so many series. Each has a sample at the time of its number, and one at a last time.
fn head_of(alloc: Global, series: u64, last: i64) -> Result<Head, HeadFault> {
    let mut head = Head::new(alloc);
    for reference in 0..series {
        head.apply(&series_record(alloc, reference)?)?;
    }
    head.apply(&samples_record(alloc, series, None)?)?;
    head.apply(&samples_record(alloc, series, Some(last))?)?;
    Ok(head)
}

// The ends of a head, and how many samples and series each interval between these times has.
fn counted<R: Threads + Sync>(
    rt: &R,
    alloc: Global,
    head: &Head,
    first: i64,
    last: i64,
) -> Result<String, AllocError> {
    if head.is_failed() || last < first {
        return Err(AllocError);
    }
    let ends = ends_of(rt, alloc, head)?;
    let counts = counts_in(rt, alloc, head, &Intervals::over(first, last))?;
    let mut text = format!(in alloc; "{ends:?}")?;
    for (samples, series) in counts.samples.iter().zip(&counts.series) {
        write!(text, " {samples}/{series}")?;
    }
    Ok(text)
}

// Two of three series have samples; one comes late, and one has no series.
const LINES: &[Line] = &[
    Line::Series(1, b"a", b'x'),
    Line::Series(2, b"a", b'y'),
    Line::Series(3, b"a", b'z'),
    Line::Sample(1, 3, 1),
    Line::Sample(1, 5, 1),
    Line::Sample(1, 4, 1),
    Line::Sample(2, 5, 1),
    Line::Sample(4, 4, 1),
];

#[test]
fn few_samples_in_intervals(rt: HostRuntime) -> Result<(), HeadFault> {
    let alloc = rt.alloc();
    let mut head = Head::new(alloc);
    let found = counted(&rt, alloc, &head, 3, 5)?;
    same(&rt, 0, found.as_str(), "None 0/0 0/0 0/0");
    apply_lines(alloc, &mut head, LINES)?;
    let found = counted(&rt, alloc, &head, 3, 5)?;
    same(&rt, 3, found.as_str(), "Some((3, 5)) 1/1 0/0 2/1");
    // those outside are in none
    let found = counted(&rt, alloc, &head, 4, 4)?;
    same(&rt, 4, found.as_str(), "Some((3, 5)) 0/0");
    Ok(())
}

// 5,000 series, past the parts of each processor: 50 first samples in each of 100 intervals, and all last ones in the last of 201.
#[test]
fn many_series_in_intervals(rt: HostRuntime) -> Result<(), HeadFault> {
    let alloc = rt.alloc();
    let head = head_of(alloc, 5_000, 10_000)?;
    let mut wanted = String::from_str(alloc, "Some((0, 10000))")?;
    for _ in 0..100u32 {
        wanted.push_str(" 50/50")?;
    }
    for _ in 100..200u32 {
        wanted.push_str(" 0/0")?;
    }
    wanted.push_str(" 5000/0")?;
    let found = counted(&rt, alloc, &head, 0, 10_000)?;
    same(&rt, 5_000, found.as_str(), wanted.as_str());
    Ok(())
}
