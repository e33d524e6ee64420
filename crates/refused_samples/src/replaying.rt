//! A replay of a log, sample by sample.

ghost use Rattle.std.specs.Prelude.{◌<◌};

use crate::counting::RefusedCounts;
use head_core::Head;
use head_intervals::Intervals;
use std::alloc::Global;

/// Replays the records that it takes, sample by sample, and counts the samples that the head of the records so far does not keep.
#[derive(Drop)]
pub(crate) struct Replaying {
    pub(crate) alloc: Global,
    pub(crate) head: Head,
    pub(crate) intervals: Intervals,
    pub(crate) counts: RefusedCounts,
    ghost wide: { 0 < intervals.width },
}
