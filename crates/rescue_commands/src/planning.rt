//! Which hours each pass over a log writes.

ghost use Rattle.std.specs.Prelude.{IfOk};
ghost use Rattle.rescue_commands.specs.Rescues.{AreBounds, least_time};
ghost use Rattle.rescue_commands.specs.Steps.{AreBoundsUpTo};

use crate::counting::HourCounts;
use crate::memory::budget_for;
use answers::{BlocksRequest, Fault};
use head_column::Hour;
use hour_rows::first_of;
use log_directory::take_records_in;
use std::alloc::{AllocError, Global};
use store::PartStore;

// About how many bytes of memory a replay takes without series.
const REPLAY_BYTES: u64 = 100 << 20;

// About how many bytes of memory a head takes for a series without its labels, for a label, and at most for a sample: most take 5.
const SERIES_BYTES: u64 = 450;

const LABEL_BYTES: u64 = 60;

const SAMPLE_BYTES: u64 = 12;

// About how many bytes of memory a block that is made takes for a label, and for a sample. In passes one is made at a time.
const BLOCK_LABEL_BYTES: u64 = 170;

const BLOCK_SAMPLE_BYTES: u64 = 25;

// The hours of a pass: how many, how many samples they have, and the one with the most.
#[derive(Clone, Copy, Debug)]
struct Pass {
    hours: u64,
    samples: u64,
    most: u64,
}

impl Pass {
    // Returns the pass of no hours.
    fn empty() -> Pass {
        Pass {
            hours: 0,
            samples: 0,
            most: 0,
        }
    }

    // Returns the pass with one more hour, which has so many samples.
    fn with(&self, samples: u64) -> Pass {
        Pass {
            hours: self.hours.saturating_add(1),
            samples: self.samples.saturating_add(samples),
            most: self.most.max(samples),
        }
    }

    // Returns how many bytes of memory its samples and a block take about, where series have so many labels together.
    fn bytes(&self, labels: u64) -> u64 {
        let kept = self.samples.saturating_mul(SAMPLE_BYTES);
        let block = self.most.saturating_mul(BLOCK_SAMPLE_BYTES);
        let block = block.saturating_add(labels.saturating_mul(BLOCK_LABEL_BYTES));
        kept.saturating_add(block)
    }
}

// Returns how many bytes of memory a pass takes about, besides its samples and blocks.
fn besides(series: u64, labels: u64) -> u64 {
    let of_series = series.saturating_mul(SERIES_BYTES);
    let of_labels = labels.saturating_mul(LABEL_BYTES);
    REPLAY_BYTES
        .saturating_add(of_series)
        .saturating_add(of_labels)
}

// Appends the time at which hour `k` begins, if it is later than the last one. Returns the one that is the last then.
fn push_start(bounds: &mut Vec<i64>, last: i64, k: i64) -> Result<i64, AllocError>
    ensures { AreBoundsUpTo bounds.old.items last → IfOk result (λ later. AreBoundsUpTo bounds.new.items later) }
{
    let Some(hour) = Hour::new(k) else {
        return Ok(last);
    };
    if hour.is_edge() {
        return Ok(last);
    }
    let start = first_of(hour);
    if start <= last {
        return Ok(last);
    }
    bounds.push(start)?;
    Ok(start)
}

// Returns the times at which passes begin after the first one, so that none takes more than about so many bytes of memory, as far as an hour
// alone does not.
fn parted(alloc: Global, counts: HourCounts, memory: u64) -> Result<Vec<i64>, AllocError>
    ensures { IfOk result (λ bounds. AreBounds least_time bounds.items) }
{
    let (series, labels) = counts.series();
    let memory = memory.saturating_sub(besides(series, labels));
    let mut bounds = Vec::new(alloc);
    let mut last = i64::MIN;
    let mut pass = Pass::empty();
    for (hour, samples) in &counts.into_hours()? {
        let mut more = pass.with(*samples);
        if 1 < more.hours && memory < more.bytes(labels) {
            last = push_start(&mut bounds, last, *hour)?;
            more = Pass::empty().with(*samples);
        }
        pass = more;
    }
    Ok(bounds)
}

/// Returns the times at which passes over a log begin after the first one, so that each takes about the memory that it may. Where all samples
/// fit in it there is one pass. No result depends on these times.
pub(crate) fn bounds_for<S: PartStore>(
    alloc: Global,
    store: &S,
    request: &BlocksRequest<'_>,
) -> Result<Vec<i64>, Fault>
    ensures { IfOk result (λ bounds. AreBounds least_time bounds.items) }
{
    let Some(memory) = budget_for(alloc, store, request)? else {
        return Ok(Vec::new(alloc));
    };
    let mut counts = HourCounts::new(alloc, store.seed());
    // what is wrong with the log is reported by the replay
    take_records_in(alloc, store, request.dir, request.form, &mut counts)?;
    Ok(parted(alloc, counts, memory)?)
}
