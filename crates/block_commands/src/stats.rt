//! How much a block has, as its meta.json says.

use serde_json::Value;
use std::alloc::{AllocError, Global};

/// How many samples, series and chunks a block has.
#[derive(Clone, Copy, Debug, PartialEq, Eq)]
pub struct Stats {
    pub samples: u64,
    pub series: u64,
    pub chunks: u64,
}

const NOTHING: Stats = Stats {
    samples: 0,
    series: 0,
    chunks: 0,
};

// Returns the numbers that a meta.json says.
fn stats_in(meta: &Value) -> Option<Stats> {
    let stats = meta.get("stats")?;
    let samples = stats.get("numSamples")?.as_u64()?;
    let series = stats.get("numSeries")?.as_u64()?;
    let chunks = stats.get("numChunks")?.as_u64()?;
    Some(Stats {
        samples,
        series,
        chunks,
    })
}

/// Returns how many samples, series and chunks a block has that was cut, as its meta.json says.
pub fn stats_of(alloc: Global, meta: &[u8]) -> Result<Stats, AllocError> {
    match Value::from_slice(alloc, meta) {
        Ok(meta) => Ok(stats_in(&meta).unwrap_or(NOTHING)),
        Err(error) if error.is_memory() => Err(AllocError),
        // not reached: a block that was cut has a meta.json
        Err(_) => Ok(NOTHING),
    }
}
