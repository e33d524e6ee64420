//! Heads to open.

use crate::{one, or_memory};
use head_core::{Head, HeadFault};
use hw_bytes::Items;
use std::alloc::{AllocError, Global};
use wal_record::{LabelFault, LabelSet, SampleEntry, SeriesEntry, StoneEntry, WalRecord};

/// A record of one entry.
#[derive(Clone, Copy, Debug)]
pub enum Entry {
    /// This reference stands for the series of this value of the label a.
    Series(u64, &'static [u8]),
    /// A sample: its reference, time and value.
    Sample(u64, i64, i64),
    /// A deletion: its reference, and the first and the last time to hide.
    Stone(u64, i64, i64),
}

fn label_set(alloc: Global, value: &[u8]) -> Result<LabelSet, LabelFault> {
    let mut labels = LabelSet::new(alloc);
    labels.push(b"a", value)?;
    Ok(labels)
}

/// The record of this entry alone.
pub fn record_of(alloc: Global, entry: Entry) -> Result<WalRecord, AllocError> {
    match entry {
        Entry::Series(reference, value) => {
            let labels = or_memory(label_set(alloc, value))?;
            let entries = one(alloc, SeriesEntry { reference, labels })?;
            Ok(WalRecord::Series(Items::from_vec(entries)))
        }
        Entry::Sample(reference, time, value) => {
            let entry = SampleEntry {
                reference,
                time,
                value,
            };
            Ok(WalRecord::Samples(Items::from_vec(one(alloc, entry)?)))
        }
        Entry::Stone(reference, min_time, max_time) => {
            let entry = StoneEntry {
                reference,
                min_time,
                max_time,
            };
            Ok(WalRecord::Stones(Items::from_vec(one(alloc, entry)?)))
        }
    }
}

/// The head of a log of these records, if there is memory for it.
pub fn head_of(alloc: Global, entries: &[Entry]) -> Result<Head, HeadFault> {
    let mut head = Head::new(alloc);
    for entry in entries {
        head.apply(&record_of(alloc, *entry)?)?;
    }
    Ok(head)
}
