//! Records as bytes, and read again.

use crate::cases::{Case, check};
use crate::labels::{Pairs, set_of};
use crate::records::push_record;
use std::alloc::{AllocError, Global};
use wal_record::*;

fn push_decoded(alloc: Global, text: &mut String, bytes: &[u8]) -> Result<(), AllocError> {
    match decode(alloc, bytes) {
        Ok(record) => push_record(text, &record),
        Err(fault) => Ok(write!(text, "{fault:?}")?),
    }
}

// The bytes, and then the record that they spell.
fn written(alloc: Global, bytes: &[u8]) -> Result<String, AllocError> {
    let mut text = String::new(alloc);
    for byte in bytes {
        write!(text, "{byte:02X}")?;
    }
    text.push(' ')?;
    push_decoded(alloc, &mut text, bytes)?;
    Ok(text)
}

// Each series by its reference and its labels.
struct SeriesRecord(&'static [(u64, Pairs)]);

fn series_entry(alloc: Global, reference: u64, pairs: Pairs) -> Result<SeriesEntry, AllocError> {
    match set_of(alloc, pairs) {
        Ok(labels) => Ok(SeriesEntry { reference, labels }),
        Err(_) => Err(AllocError),
    }
}

impl Case for SeriesRecord {
    fn text(&self, alloc: Global) -> Result<String, AllocError> {
        let mut entries = Vec::new(alloc);
        for &(reference, pairs) in self.0 {
            entries.push(series_entry(alloc, reference, pairs)?)?;
        }
        let bytes = encode_series(alloc, &entries)?;
        written(alloc, &bytes)
    }
}

const SERIES: &[(SeriesRecord, &str)] = &[
    (
        SeriesRecord(&[(1, &[(b"job", b"api")])]),
        "01000000000000000101036A6F6203617069 series 1: job=api",
    ),
    (
        SeriesRecord(&[(2, &[(b"a", b"x")])]),
        "0100000000000000020101610178 series 2: a=x",
    ),
    (
        SeriesRecord(&[(u64::MAX, &[]), (1, &[(b"a", b""), (b"b", b"1")])]),
        "01FFFFFFFFFFFFFFFF0000000000000000010201610001620131 series 18446744073709551615: 1: a= b=1",
    ),
    (SeriesRecord(&[]), "01 series"),
];

#[test]
fn encoded_series(rt: HostRuntime) {
    check(&rt, SERIES);
}

// Each sample by its reference, time and value.
struct SampleRecord(&'static [(u64, i64, i64)]);

impl Case for SampleRecord {
    fn text(&self, alloc: Global) -> Result<String, AllocError> {
        let mut samples = Vec::new(alloc);
        for &(reference, time, value) in self.0 {
            samples.push(SampleEntry {
                reference,
                time,
                value,
            })?;
        }
        let bytes = encode_samples(alloc, &samples)?;
        written(alloc, &bytes)
    }
}

const SAMPLES: &[(SampleRecord, &str)] = &[
    (
        SampleRecord(&[(1, 1000, 5), (1, 1015, 6)]),
        "02000000000000000100000000000003E800000000000000000005001E0000000000000006 samples 1: 1000=5 1: 1015=6",
    ),
    (
        SampleRecord(&[(1, 1030, 8)]),
        "020000000000000001000000000000040600000000000000000008 samples 1: 1030=8",
    ),
    (
        SampleRecord(&[(2, 6000, 2)]),
        "020000000000000002000000000000177000000000000000000002 samples 2: 6000=2",
    ),
    (
        SampleRecord(&[(1, i64::MIN, 1), (1, i64::MAX, 2)]),
        "02000000000000000180000000000000000000000000000000000100010000000000000002 samples 1: -9223372036854775808=1 1: 9223372036854775807=2",
    ),
    // each counts from the first one, modulo 2^64
    (
        SampleRecord(&[(u64::MAX, 0, 0), (2, 10, -1), (1, 20, 7)]),
        "02FFFFFFFFFFFFFFFF0000000000000000000000000000000000000614FFFFFFFFFFFFFFFF04280000000000000007 samples 18446744073709551615: 0=0 2: 10=-1 1: 20=7",
    ),
    (SampleRecord(&[]), "02 samples"),
];

#[test]
fn encoded_samples(rt: HostRuntime) {
    check(&rt, SAMPLES);
}

// Each deletion by its reference, its least time and its greatest.
struct StoneRecord(&'static [(u64, i64, i64)]);

impl Case for StoneRecord {
    fn text(&self, alloc: Global) -> Result<String, AllocError> {
        let mut stones = Vec::new(alloc);
        for &(reference, min_time, max_time) in self.0 {
            stones.push(StoneEntry {
                reference,
                min_time,
                max_time,
            })?;
        }
        let bytes = encode_stones(alloc, &stones)?;
        written(alloc, &bytes)
    }
}

const STONES: &[(StoneRecord, &str)] = &[
    (
        StoneRecord(&[(1, 5, 9), (2, i64::MIN, i64::MAX)]),
        "0300000000000000010A120000000000000002FFFFFFFFFFFFFFFFFF01FEFFFFFFFFFFFFFFFF01 stones 1: 5..9 2: -9223372036854775808..9223372036854775807",
    ),
    (StoneRecord(&[]), "03 stones"),
];

#[test]
fn encoded_deletions(rt: HostRuntime) {
    check(&rt, STONES);
}
