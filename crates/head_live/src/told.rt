//! Rows that were answered.

use crate::verdict::Verdict;
use std::alloc::Global;
use std::sync::Arc;
use wal_record::LabelSet;

/// A row with its verdict: the labels of its series, its time in milliseconds and the eight bytes of its
/// value as a number.
#[derive(Debug, Drop)]
pub struct Told {
    pub labels: Arc<LabelSet, Global>,
    pub time: i64,
    pub value: i64,
    pub verdict: Verdict,
}
