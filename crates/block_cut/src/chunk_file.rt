//! A chunk file of a planned block, which is made while it is written.

ghost use Rattle.std.specs.Prelude.{◌≡◌, ◌≤◌, ◌<◌, ◌+◌, ◌++◌, All, OnOk, false, length, take, drop};
ghost use Rattle.std.specs.List.{flat_map};
ghost use Rattle.head_column.specs.Hours.{IsEdge};
ghost use Rattle.block_files.specs.Files.{chunk_element, row_texts};
ghost use Rattle.block_files.specs.Places.{file_at};
ghost use Rattle.block_cut.specs.Plans.{IsPlanned, data_at, data_of};

use crate::planning::{BlockPlan, PlannedSeries};
use block_files::{Encoding, FileSpan, put_chunk, put_file_head};
use head_column::{Chunk, Hour};
use head_core::Head;
use head_series::Slot;
use hour_rows::chunks_of;
use std::alloc::AllocError;
use std::marker::Model;
use store::Pieces;

/// A chunk file of a planned block, made series by series. Contracts see the bytes that are still to come, and how many pieces.
#[derive(Drop)]
pub struct ChunkFile<'a> {
    head: &'a Head,
    hour: Hour,
    encoding: Encoding,
    // the series that are still to come
    series: &'a [PlannedSeries],
    // whether the header came
    is_begun: bool,
    // how many chunks of these series are in the files before
    skip: usize,
    // how many chunks are still to come
    left: usize,
}

impl<'a> Model for ChunkFile<'a> {
    ghost use Rattle.std.specs.Prelude.{◌≡◌, ◌+◌, All, false, length, if◌then◌else◌};
    ghost use Rattle.head_column.specs.Hours.{IsEdge};
    ghost use Rattle.block_cut.specs.Plans.{IsPlanned, ToCome, to_come};

    ghost Value = { ToCome };

    ghost view = { λ f. record { text = to_come f.encoding f.hour f.head.now.content f.is_begun f.series.now f.skip f.left; pieces = length f.series.now + (if f.is_begun then 0 else 1) } };

    ghost invariant = { λ f. (f.head.now.failed ≡ false) × (IsEdge f.hour → ⊥) × All (IsPlanned f.encoding f.hour f.head.now.content) f.series.now };
}

// Appends chunks.
fn put_chunks(encoding: Encoding, chunks: &[Chunk], bytes: &mut Vec<u8>) -> Result<(), AllocError>
    ensures { OnOk result (bytes.new.items ≡ bytes.old.items ++ flat_map (chunk_element encoding) (row_texts chunks.now)) }
{
    for chunk in chunks {
        put_chunk(encoding, bytes, chunk.text.as_slice())?;
    }
    Ok(())
}

// Appends the chunks of a series from the one of this place on, so many.
fn put_some(
    head: &Head,
    hour: Hour,
    encoding: Encoding,
    slot: Slot,
    first: usize,
    count: usize,
    bytes: &mut Vec<u8>,
) -> Result<(), AllocError>
    requires sound { head.now.failed ≡ false }
    requires whole { IsEdge hour → ⊥ }
    requires slot { slot < length head.now.content.table.series }
    requires within { first + count ≤ length (data_at encoding hour head.now.content slot) }
    ensures { OnOk result (bytes.new.items ≡ bytes.old.items ++ flat_map (chunk_element encoding) (take count (drop first (data_at encoding hour head.now.content slot)))) }
{
    if count == 0 {
        return Ok(());
    }
    let chunks = chunks_of(head, slot, hour, encoding)?;
    put_chunks(encoding, &chunks[first..first + count], bytes)
}

impl<'a> ChunkFile<'a> {
    /// Makes the chunk file of this span, of the block of an hour that is no edge that was planned of this head, which must not have failed.
    pub fn new(
        head: &'a Head,
        hour: Hour,
        encoding: Encoding,
        plan: &'a BlockPlan,
        file: &FileSpan,
    ) -> ChunkFile<'a>
        requires sound { head.now.failed ≡ false }
        requires whole { IsEdge hour → ⊥ }
        requires planned { All (IsPlanned encoding hour head.now.content) plan.now.series }
        ensures { result.text ≡ file_at encoding (data_of encoding hour head.now.content plan.now.series) file.now }
    {
        ChunkFile {
            head,
            hour,
            encoding,
            series: plan.series.as_slice(),
            is_begun: false,
            skip: file.first,
            left: file.count,
        }
    }
}

impl Pieces for ChunkFile<'_> {
    ghost text = { λ f. f.text };

    ghost count = { λ f. f.pieces };

    fn len(&self) -> usize {
        self.series.len() + usize::from(!self.is_begun)
    }

    fn next_piece(&mut self, bytes: &mut Vec<u8>) -> Result<(), AllocError> {
        if !self.is_begun {
            put_file_head(bytes)?;
            self.is_begun = true;
            return Ok(());
        }
        let Some((series, later)) = self.series.split_first() else {
            return Ok(());
        };
        let skipped = self.skip.min(series.chunks);
        let taken = self.left.min(series.chunks - skipped);
        put_some(
            self.head,
            self.hour,
            self.encoding,
            series.slot,
            skipped,
            taken,
            bytes,
        )?;
        self.series = later;
        self.skip -= skipped;
        self.left -= taken;
        Ok(())
    }
}
