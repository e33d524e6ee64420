//! Counts of what a block holds.

ghost use Rattle.std.specs.Prelude.{◌≡◌, length};
ghost use Rattle.block_read.specs.Counts.{chunk_count, hidden_count, sample_count};

use crate::rows::BlockRow;
use head_column::CHUNK_SAMPLES;

/// How much a block holds. A count past 64 bits, which no block in memory has, stays at 2^64 - 1.
#[derive(Clone, Copy, Debug, PartialEq, Eq)]
pub struct BlockCounts {
    pub samples: u64,
    pub series: u64,
    pub chunks: u64,
    /// The number of runs of hidden times.
    pub hidden: u64,
}

/// Counts the series, chunks, samples and hidden runs of a block's rows.
pub fn counts_of(rows: &[BlockRow]) -> BlockCounts
    ensures samples { result.samples ≡ sample_count rows.now }
    ensures series { result.series ≡ length rows.now }
    ensures chunks { result.chunks ≡ chunk_count rows.now }
    ensures hidden { result.hidden ≡ hidden_count rows.now }
{
    let mut counts = BlockCounts {
        samples: 0,
        series: rows.len() as u64,
        chunks: 0,
        hidden: 0,
    };
    for row in rows {
        let samples = row.samples.len();
        let chunks = samples.div_ceil(CHUNK_SAMPLES);
        counts.samples = counts.samples.saturating_add(samples as u64);
        counts.chunks = counts.chunks.saturating_add(chunks as u64);
        counts.hidden = counts.hidden.saturating_add(row.hidden.len() as u64);
    }
    counts
}
