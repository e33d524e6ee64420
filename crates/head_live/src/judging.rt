//! The verdicts on rows.

ghost use Rattle.std.specs.Prelude.{◌≡◌, ◌⊎◌, ◌<◌, ◌++◌, ◌∷◌, [], All, Err, IfErr, IfOk, None, OnOk, Some, false, length};
ghost use Rattle.hw_bytes.specs.Lists.{or_else};
ghost use Rattle.wal_record.specs.Labels.{same_labels};
ghost use Rattle.head_series.specs.Rows.{AreDistinct};
ghost use Rattle.head_live.specs.Batch.{AreSpent, is_missing};
ghost use Rattle.head_live.specs.Verdicts.{verdicts};
ghost use Rattle.head_live.specs.Keys.{labels_of_keys};
ghost use Rattle.head_live.specs.Known.{Knows};
ghost use Rattle.head_live.specs.Sets.{sets_in};
ghost use Rattle.head_live.specs.Judged.{AreStarts, IsBatch, IsStart, entry_after, entry_by, is_refused, left_by, next_after, one_past, sample_after, standing_after, verdict_after};

use crate::fault::AppendFault;
use crate::known::KnownSets;
use crate::prepared::{Prepared, PreparedRow, set_of};
use crate::set_key::SetKey;
use crate::verdict::Verdict;
use head_column::reaches;
use head_core::Head;
use std::alloc::{AllocError, Global};
use std::sync::Arc;
use wal_record::{LabelSet, SampleEntry, SeriesEntry};

/// The state of a label set between two rows: its reference and its greatest time, if it has any.
#[derive(Clone, Copy, Debug)]
pub struct Standing {
    reference: Option<u64>,
    last: Option<i64>,
}

/// The verdicts on rows, with the entries to be logged: the new series and the accepted samples.
#[derive(Drop)]
pub struct Judged {
    /// The verdict on each row, in order.
    pub verdicts: Vec<Verdict>,
    /// The entries of the new series, with consecutive references.
    pub series: Vec<SeriesEntry>,
    /// The entries of the accepted rows, in order.
    pub samples: Vec<SampleEntry>,
}

// Looks a label set up in the head.
fn standing_of(head: &Head, known: &mut KnownSets, labels: &Arc<LabelSet, Global>) -> Standing
    requires sound { head.now.failed ≡ false }
    requires distinct { AreDistinct same_labels head.now.content.table.series }
    requires known { Knows known.old head.now.content.table.series }
    ensures standing { IsStart head.now.content labels.now.value result }
    ensures known { Knows known.new head.now.content.table.series }
{
    match known.find(head, labels) {
        Some(slot) => Standing {
            reference: head.reference(slot),
            last: head.last_time(slot),
        },
        None => Standing {
            reference: None,
            last: None,
        },
    }
}

// Looks the label sets with these numbers up in the head. The list has room from earlier calls.
fn fill_standings(
    standings: &mut Vec<Standing>,
    head: &Head,
    known: &mut KnownSets,
    sets: &[SetKey],
    numbers: &[usize],
) -> Result<(), AllocError>
    requires sound { head.now.failed ≡ false }
    requires distinct { AreDistinct same_labels head.now.content.table.series }
    requires known { Knows known.old head.now.content.table.series }
    requires numbers { All (λ number. number < length sets.now) numbers.now }
    ensures standings { OnOk result (AreStarts head.now.content (sets_in (labels_of_keys sets.now) numbers.now) standings.new.items) }
    ensures known { Knows known.new head.now.content.table.series }
{
    standings.clear();
    standings.reserve(numbers.len())?;
    for number in numbers {
        standings.push(standing_of(head, known, &sets[*number].labels))?;
    }
    Ok(())
}

// Returns the next reference, if there is one, and advances it. There is none past 2^64 - 1.
fn next_reference_of(next: &mut Option<u64>) -> Option<u64>
    ensures taken { result ≡ next.old }
    ensures next { next.new ≡ one_past next.old }
{
    let taken = *next;
    *next = match taken {
        Some(reference) => reference.checked_add(1),
        None => None,
    };
    taken
}

impl Judged {
    // Returns the reference of a label set with an accepted row. A label set with none gets the next one and becomes a new series.
    fn reference(
        &mut self,
        standing: &mut Standing,
        next: &mut Option<u64>,
        labels: &LabelSet,
    ) -> Result<u64, AppendFault>
        ensures value { IfOk result (λ reference. or_else standing.old.reference next.old ≡ Some reference) }
        ensures standing { OnOk result (standing.new.reference ≡ or_else standing.old.reference next.old) }
        ensures last { OnOk result (standing.new.last ≡ standing.old.last) }
        ensures next { OnOk result (next.new ≡ left_by standing.old.reference next.old) }
        ensures series { OnOk result (self.new.series.items ≡ self.old.series.items ++ entry_by standing.old.reference next.old labels.now) }
        ensures samples { self.new.samples ≡ self.old.samples }
        ensures verdicts { self.new.verdicts ≡ self.old.verdicts }
        ensures spent { result ≡ Err AppendFault.RefsSpent → (standing.old.reference ≡ None) × (next.old ≡ None) }
        ensures others { IfErr result (λ fault. (fault ≡ AppendFault.RefsSpent) ⊎ (fault ≡ AppendFault.Memory)) }
    {
        if let Some(reference) = standing.reference {
            return Ok(reference);
        }
        let Some(reference) = next_reference_of(next) else {
            return Err(AppendFault::RefsSpent);
        };
        standing.reference = Some(reference);
        self.series.push(SeriesEntry {
            reference,
            labels: labels.copy()?,
        })?;
        Ok(reference)
    }

    // Judges the next row: adds its verdict, and its sample if it is accepted. An expired row changes nothing else.
    fn judge_row(
        &mut self,
        min_valid: i64,
        standing: &mut Standing,
        next: &mut Option<u64>,
        labels: &LabelSet,
        row: &PreparedRow,
    ) -> Result<(), AppendFault>
        ensures verdict { OnOk result (self.new.verdicts.items ≡ self.old.verdicts.items ++ verdict_after min_valid standing.old row.now.time ∷ []) }
        ensures series { OnOk result (self.new.series.items ≡ self.old.series.items ++ entry_after min_valid standing.old next.old labels.now row.now.time) }
        ensures samples { OnOk result (self.new.samples.items ≡ self.old.samples.items ++ sample_after min_valid standing.old next.old row.now.time row.now.value) }
        ensures standing { OnOk result (standing.new ≡ standing_after min_valid standing.old next.old row.now.time) }
        ensures next { OnOk result (next.new ≡ next_after min_valid standing.old next.old row.now.time) }
        ensures named { OnOk result (is_refused min_valid standing.old row.now.time ≡ false → is_missing (or_else standing.old.reference next.old) ≡ false) }
        ensures spent { result ≡ Err AppendFault.RefsSpent → (is_refused min_valid standing.old row.now.time ≡ false) × (standing.old.reference ≡ None) × (next.old ≡ None) }
        ensures others { IfErr result (λ fault. (fault ≡ AppendFault.RefsSpent) ⊎ (fault ≡ AppendFault.Memory)) }
    {
        if row.time < min_valid {
            self.verdicts.push(Verdict::Expired)?;
            return Ok(());
        }
        if reaches(standing.last, row.time) {
            self.verdicts.push(Verdict::Stale)?;
            return Ok(());
        }
        let reference = self.reference(standing, next, labels)?;
        standing.last = Some(row.time);
        self.samples.push(SampleEntry {
            reference,
            time: row.time,
            value: row.value,
        })?;
        self.verdicts.push(Verdict::Accepted)?;
        Ok(())
    }
}

/// Judges rows in order, each against the head and the accepted rows before it. Rows before the least valid time are expired. Returns
/// `RefsSpent` if a new label set would need a reference past 2^64 - 1, and `Memory` if out of memory. What is in `standings` does not matter.
pub fn judge(
    alloc: Global,
    head: &Head,
    known: &mut KnownSets,
    standings: &mut Vec<Standing>,
    rows: &Prepared,
) -> Result<Judged, AppendFault>
    requires sound { head.now.failed ≡ false }
    requires known { Knows known.old head.now.content.table.series }
    ensures verdicts { IfOk result (λ judged. judged.verdicts.items ≡ verdicts head.now.content rows.now.rows) }
    ensures batch { IfOk result (λ judged. IsBatch head.now.content rows.now.rows judged.series.items judged.samples.items) }
    ensures spent { result ≡ Err AppendFault.RefsSpent → AreSpent head.now.content rows.now.rows }
    ensures others { IfErr result (λ fault. (fault ≡ AppendFault.RefsSpent) ⊎ (fault ≡ AppendFault.Memory)) }
    ensures known { Knows known.new head.now.content.table.series }
{
    // for the proof: no two series of the head are equal
    head.series();
    let sets = rows.sets.as_slice();
    let numbers = rows.in_use.numbers();
    fill_standings(standings, head, known, sets, numbers)?;
    let min_valid = head.min_valid();
    let mut next = head.next_reference();
    let mut judged = Judged {
        verdicts: Vec::with_capacity(alloc, rows.rows.len())?,
        series: Vec::new(alloc),
        samples: Vec::with_capacity(alloc, rows.rows.len())?,
    };
    for row in &rows.rows {
        let labels = set_of(sets, numbers, row.set);
        judged.judge_row(min_valid, &mut standings[row.set], &mut next, labels, row)?;
    }
    Ok(judged)
}
