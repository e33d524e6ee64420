//! The rows of an hour of a head without the data of their chunks, so that the data can be made later, row by row.

ghost use Rattle.std.specs.Prelude.{◌≡◌, ◌<◌, false, length, map, All, IfOk, OnOk};
ghost use Rattle.std.specs.List.{AllZip, filter_map, range_with_len};
ghost use Rattle.std.specs.List.Sorted.{IsPermutation, IsSorted};
ghost use Rattle.std.specs.declared.cmp.Ordering.TheVariants.{Less};
ghost use Rattle.wal_record.specs.Labels.{compare_labels};
ghost use Rattle.head_column.specs.Hours.{IsEdge};
ghost use Rattle.head_core.specs.Heads.{history_at};
ghost use Rattle.hour_rows.specs.Outlined.{IsHistory, outline_at};
ghost use Rattle.hour_rows.specs.Outlines.{IsOutlineOf};
ghost use Rattle.hour_rows.specs.Rows.{rows_of};
ghost use Rattle.index_text.specs.Rows.{IsChain};
ghost use Rattle.block_read.specs.Blocks.{IsRowOf};

use crate::rows::{chunks_of, clip_runs};
use block_files::{ChunkSpan, Encoding, spans_of};
use head_column::{Hour, Run};
use head_core::Head;
use head_series::Slot;
use hw_bytes::Items;
use rayon::prelude::*;
use std::alloc::{AllocError, Global};
use std::thread::Threads;
use wal_record::LabelSet;

/// A series in an hour, without the data of its chunks.
#[derive(Debug)]
pub struct RowOutline {
    /// The slot of the series in the head.
    pub slot: Slot,
    pub labels: LabelSet,
    /// What its chunks in the hour are like, in the order of their times.
    pub chunks: Items<ChunkSpan>,
    /// Its hidden runs, clipped to the hour. Times are in milliseconds, and both ends are included.
    pub hidden: Items<Run>,
}

// Written by hand instead of derived: the proof of a function that drops an outline then has one call instead of a copy of this body.
impl Drop for RowOutline {
    fn drop(self) {
        let RowOutline {
            slot: _slot,
            labels: _labels,
            chunks: _chunks,
            hidden: _hidden,
        } = self;
    }
}

impl RowOutline {
    /// Returns its slot, its labels, what its chunks are like, and its hidden runs.
    pub fn into_parts(self) -> (Slot, LabelSet, Items<ChunkSpan>, Items<Run>)
        ensures slot { result.0 ≡ self.slot }
        ensures labels { result.1 ≡ self.labels }
        ensures chunks { result.2 ≡ self.chunks }
        ensures hidden { result.3 ≡ self.hidden }
    {
        let RowOutline {
            slot,
            labels,
            chunks,
            hidden,
        } = self;
        (slot, labels, chunks, hidden)
    }
}

// Returns the outline of the series in a slot, or `None` if it has no sample in the hour, which is no edge.
fn outline_of(
    alloc: Global,
    head: &Head,
    slot: Slot,
    hour: Hour,
    encoding: Encoding,
) -> Result<Option<RowOutline>, AllocError>
    requires sound { head.now.failed ≡ false }
    requires slot { slot < length head.now.content.table.series }
    requires whole { IsEdge hour → ⊥ }
    ensures outline { IfOk result (λ outline. outline ≡ outline_at encoding hour head.now.content slot) }
    ensures held { IfOk result (λ _. IsHistory (history_at head.now.content slot)) }
{
    let chunks = chunks_of(head, slot, hour, encoding)?;
    let hidden = head.hidden(slot);
    if chunks.is_empty() {
        return Ok(None);
    }
    Ok(Some(RowOutline {
        slot,
        labels: head.labels(slot)?,
        chunks: Items::from_vec(spans_of(alloc, &chunks)?),
        hidden: Items::from_vec(clip_runs(alloc, hidden, hour)?),
    }))
}

// Returns the outline of each series, if it has one, by slot. Works in as many threads as there are processors. The hour is no edge.
fn each_outline(
    rt: &(impl Threads + Sync),
    alloc: Global,
    head: &Head,
    hour: Hour,
    encoding: Encoding,
    series: u32,
) -> Result<Vec<Option<RowOutline>>, AllocError>
    requires sound { head.now.failed ≡ false }
    requires whole { IsEdge hour → ⊥ }
    requires series { series ≡ length head.now.content.table.series }
    ensures outlines { IfOk result (λ outlines. outlines.items ≡ map (outline_at encoding hour head.now.content) (range_with_len 0 series)) }
    ensures held { IfOk result (λ _. All (λ slot. IsHistory (history_at head.now.content slot)) (range_with_len 0 series)) }
{
    (0..series)
        .into_par_iter()
        .map(
            |number: u32| -> Result<Option<RowOutline>, AllocError>
                requires sound { head.now.failed ≡ false }
                requires slot { number < length head.now.content.table.series }
                requires whole { IsEdge hour → ⊥ }
                ensures outline { IfOk result (λ outline. outline ≡ outline_at encoding hour head.entry.now.content number) }
                ensures held { IfOk result (λ _. IsHistory (history_at head.entry.now.content number)) }
            { outline_of(alloc, head, Slot::new(number), hour, encoding) },
        )
        .collect::<Result<Vec<Option<RowOutline>>, AllocError>>(rt, alloc)?
}

// Drops the series without an outline.
fn keep_outlines(
    alloc: Global,
    outlines: Vec<Option<RowOutline>>,
) -> Result<Vec<RowOutline>, AllocError>
    ensures { IfOk result (λ kept. kept.items ≡ filter_map (λ outline. outline) outlines.items) }
{
    outlines.into_iter().flatten().collect(alloc)
}

// Sorts outlines by their label sets.
fn sort_outlines(outlines: &mut Vec<RowOutline>) -> Result<(), AllocError>
    ensures permutation { IsPermutation outlines.old.items outlines.new.items }
    ensures sorted { OnOk result (IsSorted (λ a b. compare_labels a.labels b.labels) outlines.new.items) }
{
    outlines.sort_by(|a, b| a.labels.compare(&b.labels))
}

/// Returns the outlines of the rows of an hour that is no edge: one for each series with an accepted sample in the hour, in the order of
/// label sets. Each says in which slot of the head its series is, and what the chunks of this encoding are like that `chunks_of` makes
/// of that slot; it keeps none of their data. The head must not have failed. Works in as many threads as `rt` has processors.
pub fn outlines_in(
    rt: &(impl Threads + Sync),
    alloc: Global,
    head: &Head,
    hour: Hour,
    encoding: Encoding,
) -> Result<Vec<RowOutline>, AllocError>
    requires sound { head.now.failed ≡ false }
    requires whole { IsEdge hour → ⊥ }
    ensures rows { IfOk result (λ outlines. AllZip (IsOutlineOf encoding hour head.now.content) outlines.items (rows_of hour head.now.content)) }
    ensures each { IfOk result (λ _. All (IsRowOf hour) (rows_of hour head.now.content)) }
    ensures ascending { IfOk result (λ _. IsChain (λ a c. compare_labels a.labels c.labels ≡ Less) (rows_of hour head.now.content)) }
{
    let series = head.series();
    let mut outlines = keep_outlines(
        alloc,
        each_outline(rt, alloc, head, hour, encoding, series as u32)?,
    )?;
    sort_outlines(&mut outlines)?;
    Ok(outlines)
}
