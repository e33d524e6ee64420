//! The hours of a head that can be cut.

ghost use Rattle.std.specs.Prelude.{◌≡◌, ◌<◌, ◌↔◌, ◌⊎◌, ℤ, false, length, Contains, IfOk, IsTrue, OnOk};
ghost use Rattle.std.specs.Ordering.{int_cmp};
ghost use Rattle.std.specs.List.Sorted.{IsPermutation, IsSorted};
ghost use Rattle.head_column.specs.Hours.{is_in_hour};
ghost use Rattle.block_cut.specs.Cutting.{IsSampledIn};
ghost use Rattle.block_cut.specs.Ranges.{Ascends, IsRange, IsSampled};

use crate::cutting::is_full;
use head_column::{Hour, Sample};
use head_core::Head;
use head_series::Slot;
use std::alloc::{AllocError, Global};

// Returns the hour of a sample.
fn hour_of(sample: &Sample) -> Hour
    ensures { IsTrue (is_in_hour result sample.now.time) }
{
    Hour::of(sample.time)
}

// Appends the hour, unless it is the last one already.
fn push_new(hours: &mut Vec<Hour>, hour: Hour) -> Result<(), AllocError>
    ensures { OnOk result ((k : ℤ) → Contains hours.new.items k ↔ (Contains hours.old.items k ⊎ (k ≡ hour))) }
{
    if let Some(last) = hours.last() {
        if last.k() == hour.k() {
            return Ok(());
        }
    }
    hours.push(hour)?;
    Ok(())
}

// Appends the hours of samples that are no edge.
fn add_hours(hours: &mut Vec<Hour>, samples: &[Sample]) -> Result<(), AllocError>
    ensures { OnOk result ((k : ℤ) → Contains hours.new.items k ↔ (Contains hours.old.items k ⊎ IsSampledIn k samples.now)) }
{
    for sample in samples {
        let hour = hour_of(sample);
        if !hour.is_edge() {
            push_new(hours, hour)?;
        }
    }
    Ok(())
}

// Sorts hours in ascending order.
fn sort_hours(hours: &mut Vec<Hour>) -> Result<(), AllocError>
    ensures permutation { IsPermutation hours.old.items hours.new.items }
    ensures sorted { OnOk result (IsSorted int_cmp hours.new.items) }
{
    hours.sort_by_key(|hour| hour.k())
}

/// Returns the hours of a head with an accepted sample, ascending, but for the edges. The head must not have failed.
pub fn sampled_hours(alloc: Global, head: &Head) -> Result<Vec<Hour>, AllocError>
    requires { head.now.failed ≡ false }
    ensures ascending { IfOk result (λ hours. Ascends hours.items) }
    ensures exact { IfOk result (λ hours. (k : ℤ) → Contains hours.items k ↔ IsSampled k head.now.content) }
{
    let series = head.series();
    let mut hours = Vec::new(alloc);
    for number in 0..series as u32 {
        let samples = head.samples(Slot::new(number))?;
        add_hours(&mut hours, &samples)?;
    }
    sort_hours(&mut hours)?;
    hours.dedup();
    Ok(hours)
}

/// Returns the hours of a head that can be cut, ascending: those that are full, have an accepted sample and are no edge. The head must
/// not have failed.
pub fn full_ranges(alloc: Global, head: &Head) -> Result<Vec<Hour>, AllocError>
    requires { head.now.failed ≡ false }
    ensures ascending { IfOk result (λ hours. Ascends hours.items) }
    ensures exact { IfOk result (λ hours. (k : ℤ) → Contains hours.items k ↔ IsRange k head.now.content) }
{
    let mut hours = sampled_hours(alloc, head)?;
    hours.retain(|hour| is_full(head, *hour));
    Ok(hours)
}
