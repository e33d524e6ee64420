//! The rows of an index.

use hw_bytes::Items;
use wal_record::LabelSet;

/// The times of a chunk in milliseconds, and its reference.
#[derive(Clone, Copy, Debug, PartialEq, Eq)]
pub struct ChunkMeta {
    /// The time of its first sample.
    pub min_time: i64,
    /// The time of its last sample.
    pub max_time: i64,
    /// The number of its file, from 0, times 2^32, plus its offset in the file.
    pub reference: u64,
}

/// A series with its chunks.
#[derive(Debug, Drop)]
pub struct IndexRow {
    pub labels: LabelSet,
    /// Its chunks in the order of their times.
    pub chunks: Items<ChunkMeta>,
}
