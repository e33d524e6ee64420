//! Small logs, a record a line.

use crate::one;
use head_core::{Head, HeadFault};
use std::alloc::{AllocError, Global};
use wal_record::{Items, LabelSet, SampleEntry, SeriesEntry, StoneEntry, WalRecord};

// A record of one entry, or of none.
#[derive(Clone, Copy)]
pub(crate) enum Line {
    // a reference, and the name and the value of its one label
    Series(u64, &'static [u8], u8),
    // a reference, a time and a value
    Sample(u64, i64, i64),
    // a reference and the times to hide
    Stone(u64, i64, i64),
    Skipped,
}

// One label, with a value of one byte.
pub(crate) fn label_set(alloc: Global, name: &[u8], value: u8) -> Result<LabelSet, AllocError> {
    let mut labels = LabelSet::new(alloc);
    match labels.push(name, &[value]) {
        Ok(()) => Ok(labels),
        Err(_) => Err(AllocError),
    }
}

fn record_of(alloc: Global, line: Line) -> Result<WalRecord, AllocError> {
    match line {
        Line::Series(reference, name, value) => {
            let labels = label_set(alloc, name, value)?;
            let entries = one(alloc, SeriesEntry { reference, labels })?;
            Ok(WalRecord::Series(Items::from_vec(entries)))
        }
        Line::Sample(reference, time, value) => {
            let entry = SampleEntry {
                reference,
                time,
                value,
            };
            Ok(WalRecord::Samples(Items::from_vec(one(alloc, entry)?)))
        }
        Line::Stone(reference, min_time, max_time) => {
            let entry = StoneEntry {
                reference,
                min_time,
                max_time,
            };
            Ok(WalRecord::Stones(Items::from_vec(one(alloc, entry)?)))
        }
        Line::Skipped => Ok(WalRecord::Other(None)),
    }
}

pub(crate) fn apply_line(alloc: Global, head: &mut Head, line: Line) -> Result<(), HeadFault> {
    let record = record_of(alloc, line)?;
    head.apply(&record)
}

pub(crate) fn apply_lines(alloc: Global, head: &mut Head, lines: &[Line]) -> Result<(), HeadFault> {
    for line in lines {
        apply_line(alloc, head, *line)?;
    }
    Ok(())
}
