//! Planning a block: all of it but the chunk files, which take the most memory.

ghost use Rattle.std.specs.Prelude.{◌≡◌, ◌≤◌, ◌<◌, ◌^◌, ◌+◌, ◌++◌, List, Err, OnOk, length, map, All, IfOk};
ghost use Rattle.std.specs.List.{sum_by, zip};
ghost use Rattle.std.specs.Io.Iter.{u64_saturate};
ghost use Rattle.head_column.specs.Hours.{IsEdge};
ghost use Rattle.index_text.specs.Index.{index_text, series_ids};
ghost use Rattle.index_text.specs.Rows.{AreRows, FitsChunk, FitsIndex};
ghost use Rattle.block_files.specs.Files.{all_texts};
ghost use Rattle.block_files.specs.Places.{file_at};
ghost use Rattle.block_files.specs.Tombstones.{tombstones_text};
ghost use Rattle.block_read.specs.declared.rows.BlockRow.{BlockRow as Row};
ghost use Rattle.block_read.specs.Blocks.{block_text, chunks_of_rows, files_of, index_rows, samples_of_rows, tombstones_of as tombstones_of_runs};
ghost use Rattle.block_cut.specs.Cutting.{AreOutlines, HaveParts, chunk_count, index_rows_of as rows_of_index, meta_from, named_spans, planned, sample_count};

use block_files::{
    CHUNK_FILE_LIMIT, ChunkSpan, Encoding, FileSpan, Meta, PlacedChunks, Tombstone, Ulid,
    place_spans, write_meta, write_tombstones,
};
use block_index::{ChunkMeta, IndexRow, NumberedIndex, few_chunks, write_numbered_index};
use head_column::{Hour, Run};
use head_series::Slot;
use hour_rows::{RowOutline, end_of, first_of};
use hw_bytes::{Items, WriteFault};
use std::alloc::{AllocError, Global};
use wal_record::LabelSet;
use xor_chunk::short_chunk;

/// A series of a block.
#[derive(Clone, Copy, Debug)]
pub struct PlannedSeries {
    /// Its slot in the head.
    pub slot: Slot,
    /// How many chunks it has in the block.
    pub chunks: usize,
}

/// A block whose chunk files are still to be made: its other parts, its series in the order of the index, and which chunks each chunk file has.
#[derive(Debug, Drop)]
pub struct BlockPlan {
    pub index: Items<u8>,
    pub tombstones: Items<u8>,
    pub meta: Items<u8>,
    pub series: Items<PlannedSeries>,
    pub files: Items<FileSpan>,
}

// The parts of rows.
#[derive(Drop)]
struct Columns {
    series: Vec<PlannedSeries>,
    labels: Vec<LabelSet>,
    chunks: Vec<Items<ChunkSpan>>,
    hidden: Vec<Items<Run>>,
}

// Splits rows into their parts.
fn split_rows(alloc: Global, rows: Vec<RowOutline>) -> Result<Columns, AllocError>
    ensures series { IfOk result (λ columns. columns.series.items ≡ map planned rows.items) }
    ensures labels { IfOk result (λ columns. columns.labels.items ≡ map (λ r. r.labels) rows.items) }
    ensures chunks { IfOk result (λ columns. columns.chunks.items ≡ map (λ r. r.chunks) rows.items) }
    ensures hidden { IfOk result (λ columns. columns.hidden.items ≡ map (λ r. r.hidden) rows.items) }
{
    let mut series = Vec::with_capacity(alloc, rows.len())?;
    let mut labels = Vec::with_capacity(alloc, rows.len())?;
    let mut chunks = Vec::with_capacity(alloc, rows.len())?;
    let mut hidden = Vec::with_capacity(alloc, rows.len())?;
    for row in rows {
        let (slot, row_labels, row_chunks, row_hidden) = row.into_parts();
        series.push(PlannedSeries {
            slot,
            chunks: row_chunks.len(),
        })?;
        labels.push(row_labels)?;
        chunks.push(row_chunks)?;
        hidden.push(row_hidden)?;
    }
    Ok(Columns {
        series,
        labels,
        chunks,
        hidden,
    })
}

// Adds the number of samples in chunks to `before`. A count that exceeds 64 bits, which no block has, saturates.
fn add_samples(before: u64, chunks: &[ChunkSpan]) -> u64
    ensures { result ≡ u64_saturate (before + chunk_count chunks.now) }
{
    let mut count = before;
    for chunk in chunks {
        count = count.saturating_add(chunk.count as u64);
    }
    count
}

// Counts the samples of rows.
fn count_samples(rows: &[Items<ChunkSpan>]) -> u64
    ensures { result ≡ u64_saturate (sample_count rows.now) }
{
    let mut count = 0;
    for row in rows {
        count = add_samples(count, row.as_slice());
    }
    count
}

// Counts the chunks of rows.
fn count_chunks(rows: &[Items<ChunkSpan>]) -> u64
    ensures { result ≡ u64_saturate (sum_by length rows.now) }
{
    let mut count: u64 = 0;
    for row in rows {
        count = count.saturating_add(row.len() as u64);
    }
    count
}

// Makes the entries of chunks in the index from the chunks and their references.
fn name_chunks(
    alloc: Global,
    chunks: &[ChunkSpan],
    references: &[u64],
) -> Result<Vec<ChunkMeta>, AllocError>
    ensures metas { IfOk result (λ metas. metas.items ≡ map meta_from (zip chunks.now references.now)) }
    ensures fit { IfOk result (λ metas. All FitsChunk metas.items) }
{
    let mut metas = Vec::new(alloc);
    for (chunk, reference) in chunks.iter().zip(references) {
        metas.push(ChunkMeta {
            min_time: chunk.min_time,
            max_time: chunk.max_time,
            reference: *reference,
        })?;
    }
    Ok(metas)
}

// Makes the entries of the chunks of each row.
fn name_rows(
    alloc: Global,
    rows: Vec<Items<ChunkSpan>>,
    references: Vec<Items<u64>>,
) -> Result<Vec<Items<ChunkMeta>>, AllocError>
    ensures metas { IfOk result (λ metas. metas.items ≡ map named_spans (zip rows.items references.items)) }
    ensures fit { IfOk result (λ metas. All (All FitsChunk) metas.items) }
{
    let mut metas = Vec::with_capacity(alloc, rows.len())?;
    for (row, row_references) in rows.into_iter().zip(references) {
        let row_metas = name_chunks(alloc, row.as_slice(), row_references.as_slice())?;
        metas.push(Items::from_vec(row_metas))?;
    }
    Ok(metas)
}

// Makes the rows of an index from their labels and the entries of their chunks.
fn index_rows_of(
    alloc: Global,
    labels: Vec<LabelSet>,
    metas: Vec<Items<ChunkMeta>>,
) -> Result<Vec<IndexRow>, AllocError>
    ensures { IfOk result (λ rows. rows.items ≡ rows_of_index labels.items metas.items) }
{
    labels
        .into_iter()
        .zip(metas)
        .map(|(labels, chunks)| IndexRow { labels, chunks })
        .collect(alloc)
}

// Appends the tombstones of one series.
fn add_tombstones(
    tombstones: &mut Vec<Tombstone>,
    series: u64,
    runs: &[Run],
) -> Result<(), AllocError>
    ensures { OnOk result (tombstones.new.items ≡ tombstones.old.items ++ map (λ r. record { series = series; run = r }) runs.now) }
{
    for run in runs {
        tombstones.push(Tombstone { series, run: *run })?;
    }
    Ok(())
}

// Makes the tombstones of all series from their ids and hidden runs.
fn tombstones_of(
    alloc: Global,
    ids: &[u32],
    hidden: &[Items<Run>],
) -> Result<Vec<Tombstone>, AllocError>
    ensures { IfOk result (λ tombstones. tombstones.items ≡ tombstones_of_runs ids.now hidden.now) }
{
    let mut tombstones = Vec::new(alloc);
    for (id, runs) in ids.iter().zip(hidden) {
        add_tombstones(&mut tombstones, u64::from(*id), runs.as_slice())?;
    }
    Ok(tombstones)
}

// The text of an index and of the tombstones.
struct Indexed {
    index: Items<u8>,
    tombstones: Items<u8>,
}

// Writes the index of rows with these labels and chunks, and the tombstones of their hidden runs.
fn write_rows(
    alloc: Global,
    labels: Vec<LabelSet>,
    metas: Vec<Items<ChunkMeta>>,
    hidden: &[Items<Run>],
) -> Result<Indexed, WriteFault>
    requires { AreRows (rows_of_index labels.items metas.items) }
    ensures index { IfOk result (λ texts. texts.index ≡ index_text (rows_of_index labels.items metas.items)) }
    ensures tombstones { IfOk result (λ texts. texts.tombstones ≡ tombstones_text (tombstones_of_runs (series_ids (rows_of_index labels.items metas.items)) hidden.now)) }
    ensures fits { IfOk result (λ _. FitsIndex (rows_of_index labels.items metas.items)) }
    ensures large { result ≡ Err WriteFault.TooLarge → FitsIndex (rows_of_index labels.items metas.items) → ⊥ }
{
    let index_rows = index_rows_of(alloc, labels, metas)?;
    let NumberedIndex { text, ids } = write_numbered_index(alloc, &index_rows)?;
    let tombstones = tombstones_of(alloc, ids.as_slice(), hidden)?;
    Ok(Indexed {
        tombstones: Items::from_vec(write_tombstones(alloc, &tombstones)?),
        index: text,
    })
}

/// Plans the block of rows of an hour that is no edge, with its chunks in this encoding. There must be at least one row, in the order of label
/// sets.
pub(crate) fn plan_block(
    alloc: Global,
    rows: Vec<RowOutline>,
    hour: Hour,
    ulid: &Ulid,
    encoding: Encoding,
) -> Result<BlockPlan, WriteFault>
    requires rows { AreOutlines encoding hour rows.items }
    requires whole { IsEdge hour → ⊥ }
    ensures index { (those : List Row) → HaveParts encoding those rows.items → IfOk result (λ plan. plan.index ≡ (block_text encoding (record { ulid = ulid.now; hour = hour; rows = those })).index) }
    ensures tombstones { (those : List Row) → HaveParts encoding those rows.items → IfOk result (λ plan. plan.tombstones ≡ (block_text encoding (record { ulid = ulid.now; hour = hour; rows = those })).tombstones) }
    ensures meta { (those : List Row) → HaveParts encoding those rows.items → IfOk result (λ plan. plan.meta ≡ (block_text encoding (record { ulid = ulid.now; hour = hour; rows = those })).meta) }
    ensures series { IfOk result (λ plan. plan.series ≡ map planned rows.items) }
    ensures files { (those : List Row) → HaveParts encoding those rows.items → IfOk result (λ plan. map (file_at encoding (all_texts (chunks_of_rows encoding (samples_of_rows those)))) plan.files ≡ files_of encoding (samples_of_rows those)) }
    ensures few { IfOk result (λ plan. length plan.files ≤ 2 ^ 32) }
    ensures fits { (those : List Row) → HaveParts encoding those rows.items → IfOk result (λ _. FitsIndex (index_rows encoding those)) }
    ensures large { (those : List Row) → HaveParts encoding those rows.items → result ≡ Err WriteFault.TooLarge → FitsIndex (index_rows encoding those) → 2 ^ 32 < length (files_of encoding (samples_of_rows those)) }
{
    let Columns {
        series,
        labels,
        chunks,
        hidden,
    } = split_rows(alloc, rows)?;
    // for the proof: no chunk is too long
    short_chunk();
    let placed = place_spans(alloc, encoding, &chunks, CHUNK_FILE_LIMIT)?;
    let PlacedChunks { references, files } = placed;
    let description = Meta {
        ulid: *ulid,
        min_time: first_of(hour),
        max_time: end_of(hour),
        samples: count_samples(&chunks),
        series: series.len() as u64,
        chunks: count_chunks(&chunks),
    };
    let metas = name_rows(alloc, chunks, references)?;
    let Indexed { index, tombstones } = write_rows(alloc, labels, metas, &hidden)?;
    // for the proof: the counts did not saturate
    few_chunks();
    Ok(BlockPlan {
        meta: Items::from_vec(write_meta(alloc, &description)?),
        index,
        tombstones,
        series: Items::from_vec(series),
        files: Items::from_vec(files),
    })
}
