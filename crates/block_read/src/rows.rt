//! The rows of a block.

use block_files::Ulid;
use head_column::{Hour, Run, Sample};
use hw_bytes::Items;
use wal_record::LabelSet;

/// A series in an hour.
#[derive(Debug, Drop)]
pub struct BlockRow {
    pub labels: LabelSet,
    /// The accepted samples of the hour in the order of their times, hidden ones included.
    pub samples: Items<Sample>,
    /// The runs of hidden times, clipped to the hour. Both ends of a run are included.
    pub hidden: Items<Run>,
}

/// The contents of a block: its name, its hour, and a row for each series with a sample in the hour, in the order of label sets.
#[derive(Debug, Drop)]
pub struct BlockRows {
    pub ulid: Ulid,
    pub hour: Hour,
    pub rows: Items<BlockRow>,
}
