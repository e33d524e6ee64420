//! Counting the samples of the log in a directory that its head does not keep.

ghost use Rattle.std.specs.Prelude.{◌<◌, ◌≤◌, IfOk};
ghost use Rattle.store.specs.Views.{view_of};
ghost use Rattle.head_intervals.specs.Intervals.{most_intervals};
ghost use Rattle.refused_samples.specs.Refused.{AreRefusedIn};

use crate::counting::RefusedCounts;
use crate::replaying::Replaying;
use answers::{Fault, LogForm};
use head_core::Head;
use head_intervals::Intervals;
use log_directory::take_records_in;
use std::alloc::Global;
use store::PartStore;

/// Counts the samples of the log in a directory, in this form, up to its first damage, that a head does not keep, in each interval: those that came
/// late, and those whose reference no series had. Samples before the least valid time, in milliseconds, are neither. The log is replayed record by
/// record. Returns `OutOfMemory` also if a head would be past its limits.
pub fn refused_in<S: PartStore>(
    alloc: Global,
    store: &S,
    dir: &str,
    form: LogForm,
    min_valid: i64,
    intervals: &Intervals,
) -> Result<RefusedCounts, Fault>
    requires wide { 0 < intervals.now.width }
    requires few { intervals.now.count ≤ most_intervals }
    ensures { IfOk result (AreRefusedIn intervals.now form (view_of (S.holds store.now)) dir.now min_valid) }
{
    let head = Head::from_time(alloc, store.seed(), min_valid);
    let mut replaying = Replaying::new(alloc, head, intervals)?;
    take_records_in(alloc, store, dir, form, &mut replaying)?;
    let Replaying { counts, .. } = replaying;
    Ok(counts)
}
