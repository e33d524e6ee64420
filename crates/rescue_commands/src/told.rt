//! What is reported of the block of an hour.

use crate::cutting::NamedBlock;
use block_commands::stats_of;
use block_read::Ulid;
use head_column::Hour;
use std::alloc::{AllocError, Global};

/// The block of an hour: its name, its hour, how many series and samples it has, and whether it was written or was there already.
#[derive(Clone, Copy, Debug)]
pub(crate) struct HourBlock {
    pub(crate) ulid: Ulid,
    pub(crate) hour: Hour,
    pub(crate) series: u64,
    pub(crate) samples: u64,
    pub(crate) is_written: bool,
}

/// Returns what is reported of the block of an hour.
pub(crate) fn told_of(
    alloc: Global,
    named: &NamedBlock,
    is_written: bool,
) -> Result<HourBlock, AllocError> {
    let stats = stats_of(alloc, named.block.meta.as_slice())?;
    Ok(HourBlock {
        ulid: named.ulid,
        hour: named.hour,
        series: stats.series,
        samples: stats.samples,
        is_written,
    })
}

/// Returns how many samples blocks have.
pub(crate) fn samples_of(blocks: &[HourBlock]) -> Result<u64, AllocError> {
    let mut samples: u64 = 0;
    for block in blocks {
        samples = samples.checked_add(block.samples).ok_or(AllocError)?;
    }
    Ok(samples)
}
