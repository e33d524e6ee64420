//! The rows that were answered, as samples of a head; and the samples of a head since its opening.

ghost use Rattle.std.specs.Prelude.{◌≡◌, ◌++◌, ◌∷◌, ◌<◌, [], All, AllPairs, IfOk, OnOk, drop, false, length, map, true};
ghost use Rattle.wal_record.specs.Labels.{same_labels};
ghost use Rattle.head_column.specs.Samples.{Rises};
ghost use Rattle.head_series.specs.Rows.{AreDistinct};
ghost use Rattle.head_core.specs.Content.{Content};
ghost use Rattle.head_core.specs.Heads.{history_at};
ghost use Rattle.head_live.specs.Agreeing.{IsExpiredIn, IsStaleIn, new_rows};
ghost use Rattle.head_live.specs.Placed.{IsBefore, placed};
ghost use Rattle.head_live.specs.Placing.{AreInSeries, IsPossible, row_at, sample_counts};
ghost use Rattle.head_live.specs.Told.{accepted_rows, answer_of};

use crate::placed::PlacedSample;
use crate::told::Told;
use crate::verdict::Verdict;
use head_column::reaches;
use head_core::{Head, Slot};
use std::alloc::{AllocError, Global};

// Adds an accepted row to `accepted`. Returns false if the head can't hold the row: an accepted row has no series, the series of a
// stale row has no sample at or past its time, or the time of an expired row is not before the least valid time. An expired row may
// have no series.
fn place_row(head: &Head, row: &Told, accepted: &mut Vec<PlacedSample>) -> Result<bool, AllocError>
    requires { head.now.failed ≡ false }
    ensures rows { IfOk result (λ stands. stands ≡ true →
        map (row_at head.now.content) accepted.new.items ≡ map (row_at head.now.content) accepted.old.items ++ accepted_rows (answer_of row.now ∷ [])) }
    ensures stale { IfOk result (λ stands. stands ≡ true → IsStaleIn head.now.content (answer_of row.now)) }
    ensures expired { IfOk result (λ stands. stands ≡ true → IsExpiredIn head.now.content (answer_of row.now)) }
    ensures impossible { IfOk result (λ stands. stands ≡ false → IsPossible head.now.content (answer_of row.now) → ⊥) }
    ensures slots { OnOk result (AreInSeries head.now.content accepted.old.items → AreInSeries head.now.content accepted.new.items) }
{
    match row.verdict {
        Verdict::Accepted => {
            let Some(slot) = head.find(&row.labels) else {
                return Ok(false);
            };
            accepted.push(PlacedSample {
                slot: slot.number(),
                time: row.time,
                value: row.value,
            })?;
            Ok(true)
        }
        Verdict::Stale => match head.find(&row.labels) {
            Some(slot) => Ok(reaches(head.last_time(slot), row.time)),
            None => Ok(false),
        },
        Verdict::Expired => Ok(row.time < head.min_valid()),
    }
}

/// Adds the accepted rows to `accepted`. Returns false at the first row that the head can't hold, as `place_row` does, and an error if
/// out of memory.
pub fn place_rows(
    head: &Head,
    told: &[Told],
    accepted: &mut Vec<PlacedSample>,
) -> Result<bool, AllocError>
    requires { head.now.failed ≡ false }
    ensures rows { IfOk result (λ stand. stand ≡ true →
        map (row_at head.now.content) accepted.new.items ≡ map (row_at head.now.content) accepted.old.items ++ accepted_rows (map answer_of told.now)) }
    ensures stale { IfOk result (λ stand. stand ≡ true → All (IsStaleIn head.now.content) (map answer_of told.now)) }
    ensures expired { IfOk result (λ stand. stand ≡ true → All (IsExpiredIn head.now.content) (map answer_of told.now)) }
    ensures impossible { IfOk result (λ stand. stand ≡ false → All (IsPossible head.now.content) (map answer_of told.now) → ⊥) }
    ensures slots { OnOk result (AreInSeries head.now.content accepted.old.items → AreInSeries head.now.content accepted.new.items) }
{
    for row in told {
        if !place_row(head, row, accepted)? {
            return Ok(false);
        }
    }
    Ok(true)
}

// Adds the samples of a slot to `all`, without the first `first` of them.
fn add_samples(
    head: &Head,
    slot: u32,
    first: usize,
    all: &mut Vec<PlacedSample>,
) -> Result<(), AllocError>
    requires sound { head.now.failed ≡ false }
    requires slot { slot < length head.now.content.table.series }
    ensures samples { OnOk result (all.new.items ≡ all.old.items ++ map (placed slot) (drop first (history_at head.now.content slot).samples)) }
    ensures rises { OnOk result (Rises (history_at head.now.content slot).samples) }
{
    let samples = head.samples(Slot::new(slot))?;
    for sample in &samples[first.min(samples.len())..] {
        all.push(PlacedSample {
            slot,
            time: sample.time,
            value: sample.value,
        })?;
    }
    Ok(())
}

/// Collects the samples of a head by slot and time, without the first ones of each slot, of which `opened` has the number. Returns an
/// error if out of memory.
pub fn new_samples(
    alloc: Global,
    head: &Head,
    opened: &[usize],
) -> Result<Vec<PlacedSample>, AllocError>
    requires { head.now.failed ≡ false }
    ensures rows { IfOk result (λ new. (opening : Content) → opened.now ≡ sample_counts opening → map (row_at head.now.content) new.items ≡ new_rows opening head.now.content) }
    ensures order { IfOk result (λ new. AllPairs IsBefore new.items) }
    ensures slots { IfOk result (λ new. AreInSeries head.now.content new.items) }
    ensures distinct { OnOk result (AreDistinct same_labels head.now.content.table.series) }
{
    let series = head.series();
    let mut all = Vec::new(alloc);
    for slot in 0..series as u32 {
        let first = opened.get(slot as usize).copied().unwrap_or(0);
        add_samples(head, slot, first, &mut all)?;
    }
    Ok(all)
}
