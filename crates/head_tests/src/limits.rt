//! Lists that are longer than any room of a fixed size.

use crate::log_lines::log_of;
use crate::logs::{NOTHING, by};
use crate::rows::pair;
use crate::{one, same};
use head_column::Chunk;
use head_core::{Counts, Head, HeadFault, Hour, Resolver, Slot};
use head_live::{PrepareFault, Prepared, RawRow};
use head_replay::{NoGate, Tallied, replay, tally};
use std::alloc::{AllocError, Global};
use std::process::Abort;
use std::test::Fail;
use wal_log::{Input, LogWriter};
use wal_record::{
    Items, LabelSet, SampleEntry, SeriesEntry, WalRecord, decode, encode_samples, encode_series,
};

// So many series, one label each: the references count up from 0.
fn series(alloc: Global, count: u32) -> Result<Vec<SeriesEntry>, AllocError> {
    let mut entries = Vec::new(alloc);
    for number in 0..count {
        let mut labels = LabelSet::new(alloc);
        if labels.push(b"n", &number.to_be_bytes()).is_err() {
            return Err(AllocError);
        }
        let reference = u64::from(number);
        entries.push(SeriesEntry { reference, labels })?;
    }
    Ok(entries)
}

// So many samples of a reference, a second apart.
fn seconds(
    alloc: Global,
    reference: u64,
    first: u32,
    count: u32,
) -> Result<Vec<SampleEntry>, AllocError> {
    let mut entries = Vec::new(alloc);
    for number in 0..count {
        let second = i64::from(first) + i64::from(number);
        entries.push(SampleEntry {
            reference,
            time: second * 1000,
            value: 1,
        })?;
    }
    Ok(entries)
}

// The record of the first series.
fn bound(alloc: Global) -> Result<WalRecord, AllocError> {
    Ok(WalRecord::Series(Items::from_vec(series(alloc, 1)?)))
}

// The record of these samples.
fn samples(alloc: Global, reference: u64, first: u32, count: u32) -> Result<WalRecord, AllocError> {
    let entries = seconds(alloc, reference, first, count)?;
    Ok(WalRecord::Samples(Items::from_vec(entries)))
}

// The bytes of a record of so many samples of the first series, a second apart.
fn encoded(alloc: Global, first: u32, count: u32) -> Result<Vec<u8>, AllocError> {
    encode_samples(alloc, &seconds(alloc, 0, first, count)?)
}

// The bytes of a segment of three records, the first two logged together.
fn logged(alloc: Global, first: &[u8], second: &[u8], third: &[u8]) -> Result<Vec<u8>, AllocError> {
    let mut writer = LogWriter::new(alloc, Vec::new(alloc), 4_096);
    if writer.log(first, Some(second)).is_err() || writer.log(third, None).is_err() {
        return Err(AllocError);
    }
    Ok(writer.into_inner())
}

// A log of 5,000 series in one record, and of 4,097 and of 70,000 samples of the first one, in a record each.
fn long_log(alloc: Global) -> Result<Input, AllocError> {
    let first = encode_series(alloc, &series(alloc, 5_000)?)?;
    let second = encoded(alloc, 0, 4_097)?;
    let third = encoded(alloc, 4_097, 70_000)?;
    log_of(alloc, logged(alloc, &first, &second, &third)?)
}

const LONG: Tallied = Tallied {
    counts: Counts {
        series_records: 1,
        sample_records: 2,
        series_entries: 5_000,
        accepted: 74_097,
        ..NOTHING
    },
    series: 5_000,
    damage: None,
};

#[test]
fn long_records_are_replayed(rt: HostRuntime) -> Result<(), Fail> {
    let alloc = rt.alloc();
    let input = long_log(alloc)?;
    for workers in [1, 4] {
        let tallied = tally(&rt, alloc, &input, &by(workers), &NoGate)?;
        same(&rt, workers, tallied, LONG);
        let replayed = replay(&rt, alloc, &input, &by(workers), &NoGate)?;
        same(&rt, workers, replayed.head.counts(), LONG.counts);
        same(&rt, workers, replayed.head.series(), 5_000);
    }
    Ok(())
}

fn check_resolved(rt: &impl Abort, alloc: Global, resolver: &mut Resolver) -> Result<(), Fail> {
    resolver.resolve(&bound(alloc)?)?;
    for count in [4_097, 70_000] {
        let bytes = encoded(alloc, 0, count)?;
        let record = decode(alloc, &bytes)?;
        let items = resolver.resolve_in(&record, Vec::new(alloc))?;
        same(rt, count, items.len(), count as usize);
    }
    Ok(())
}

#[test]
fn long_records_are_decoded_and_resolved(rt: HostRuntime) -> Result<(), Fail> {
    let mut resolver = Resolver::new(rt.alloc());
    let outcome = check_resolved(&rt, rt.alloc(), &mut resolver);
    drop(resolver);
    outcome
}

// 500 samples of one series, a record that is skipped, and 300 samples that name no series.
fn mixed(alloc: Global) -> Result<Vec<WalRecord>, AllocError> {
    let mut records = Vec::new(alloc);
    records.push(samples(alloc, 0, 0, 500)?)?;
    records.push(WalRecord::Other(Some(9)))?;
    records.push(samples(alloc, 7, 0, 300)?)?;
    Ok(records)
}

fn check_reserved(rt: &impl Abort, alloc: Global, head: &mut Head) -> Result<(), HeadFault> {
    head.apply(&bound(alloc)?)?;
    let records = mixed(alloc)?;
    let reserved = head.reserve(&records)?;
    head.apply_reserved(reserved, &records);
    let wanted = Counts {
        series_records: 1,
        sample_records: 2,
        skipped_records: 1,
        series_entries: 1,
        accepted: 500,
        unknown: 300,
        ..NOTHING
    };
    same(rt, "counts", head.counts(), wanted);
    Ok(())
}

#[test]
fn room_for_five_hundred_items(rt: HostRuntime) -> Result<(), HeadFault> {
    let mut head = Head::new(rt.alloc());
    let outcome = check_reserved(&rt, rt.alloc(), &mut head);
    drop(head);
    outcome
}

fn chunk_counts(alloc: Global, chunks: &[Chunk]) -> Result<Vec<usize>, AllocError> {
    let mut counts = Vec::new(alloc);
    for chunk in chunks {
        counts.push(chunk.count)?;
    }
    Ok(counts)
}

// How many samples the chunks of the first hour of the first series have.
fn counts(alloc: Global, head: &Head) -> Result<Vec<usize>, HeadFault> {
    if head.is_failed() || head.series() == 0 {
        return Err(HeadFault::Failed);
    }
    let chunks = head.chunks_in(Slot::new(0), Hour::of(0))?;
    Ok(chunk_counts(alloc, &chunks)?)
}

// Takes so many samples more, and counts those of each chunk.
fn check_counts(
    rt: &impl Abort,
    alloc: Global,
    head: &mut Head,
    first: u32,
    count: u32,
    wanted: &[usize],
) -> Result<(), HeadFault> {
    head.apply(&samples(alloc, 0, first, count)?)?;
    same(rt, count, counts(alloc, head)?.as_slice(), wanted);
    Ok(())
}

fn check_chunks(rt: &impl Abort, alloc: Global, head: &mut Head) -> Result<(), HeadFault> {
    head.apply(&bound(alloc)?)?;
    check_counts(rt, alloc, head, 0, 241, &[120, 120, 1])?;
    let wanted = [120, 120, 120, 120, 120, 120, 120, 120, 40];
    check_counts(rt, alloc, head, 241, 759, &wanted)
}

#[test]
fn an_hour_of_a_thousand_samples(rt: HostRuntime) -> Result<(), HeadFault> {
    let mut head = Head::new(rt.alloc());
    let outcome = check_chunks(&rt, rt.alloc(), &mut head);
    drop(head);
    outcome
}

// So many rows, each of a series of its own.
fn rows(alloc: Global, count: u32) -> Result<Vec<RawRow>, AllocError> {
    let mut rows = Vec::new(alloc);
    for number in 0..count {
        let pairs = one(alloc, pair(alloc, b"n", &number.to_be_bytes())?)?;
        let (time, value) = (0, 0);
        rows.push(RawRow { pairs, time, value })?;
    }
    Ok(rows)
}

/// So many prepared rows, each of a series of its own.
pub(crate) fn prepared_rows(alloc: Global, count: u32) -> Result<Prepared, PrepareFault> {
    Prepared::new(alloc, &rows(alloc, count)?)
}

#[test]
fn rows_of_many_series(rt: HostRuntime) -> Result<(), Fail> {
    for count in [300, 70_000] {
        let prepared = prepared_rows(rt.alloc(), count)?;
        same(&rt, count, prepared.len(), count as usize);
    }
    Ok(())
}
