//! Cutting an hour of a head.

ghost use Rattle.std.specs.Prelude.{◌≡◌, ◌↔◌, ◌⊎◌, ◌<◌, ◌<ℤ◌, ◌^◌, [], All, false, Err, IfErr, IfOk, IsTrue, length, map};
ghost use Rattle.head_column.specs.Hours.{IsEdge};
ghost use Rattle.index_text.specs.Rows.{FitsIndex};
ghost use Rattle.block_files.specs.declared.encoding.Encoding.TheVariants.{Raw};
ghost use Rattle.block_files.specs.Places.{file_at};
ghost use Rattle.block_read.specs.declared.block.Block.{Block as Parts};
ghost use Rattle.block_cut.specs.Cutting.{is_full_in};
ghost use Rattle.block_cut.specs.Plans.{IsPlan, IsPlanOf, IsPlanned, data_of};
ghost use Rattle.block_cut.specs.Ranges.{IsFull};
ghost use Rattle.hour_rows.specs.Rows.{rows_of};
ghost use Rattle.block_read.specs.Blocks.{IsBlockOf, files_of, index_rows, samples_of_rows};

use crate::chunk_file::ChunkFile;
use crate::fault::CutFault;
use crate::planning::{BlockPlan, plan_block};
use block_files::Encoding;
use block_read::{Block, Ulid};
use head_column::Hour;
use head_core::Head;
use hour_rows::outlines_in;
use hw_bytes::Items;
use std::alloc::{AllocError, Global};
use std::thread::Threads;
use store::gather;

// Returns whether an hour comes before another one.
fn is_before(hour: Hour, other: Hour) -> bool
    ensures { IsTrue result ↔ (hour <ℤ other) }
{
    hour.k() < other.k()
}

/// Returns whether an hour is full: some accepted sample has a time at or past its end.
pub(crate) fn is_full(head: &Head, hour: Hour) -> bool
    requires { head.now.failed ≡ false }
    ensures full { IsTrue result ↔ IsFull hour head.now.content }
    ensures test { result ≡ is_full_in head.now.content hour }
{
    match head.max_time() {
        None => false,
        Some(time) => is_before(hour, Hour::of(time)),
    }
}

// Returns an error if an hour can't be cut: it is an edge, or it is not full.
fn check_full(head: &Head, hour: Hour) -> Result<(), CutFault>
    requires { head.now.failed ≡ false }
    ensures full { IfOk result (λ _. IsFull hour head.now.content) }
    ensures edge { result ≡ Err CutFault.Edge ↔ IsEdge hour }
    ensures not_full { result ≡ Err CutFault.NotFull ↔ (IsEdge hour → ⊥) × (IsFull hour head.now.content → ⊥) }
    ensures others { IfErr result (λ fault. (fault ≡ CutFault.Edge) ⊎ (fault ≡ CutFault.NotFull)) }
{
    if hour.is_edge() {
        return Err(CutFault::Edge);
    }
    if is_full(head, hour) {
        Ok(())
    } else {
        Err(CutFault::NotFull)
    }
}

// Plans the block of an hour of a head, full or not, as `plan_full` does. The head must not have failed.
fn plan_any(
    rt: &(impl Threads + Sync),
    alloc: Global,
    head: &Head,
    hour: Hour,
    ulid: &Ulid,
    encoding: Encoding,
) -> Result<BlockPlan, CutFault>
    requires { head.now.failed ≡ false }
    ensures plan { IfOk result (λ plan. IsPlan encoding (record { ulid = ulid.now; hour = hour; rows = rows_of hour head.now.content }) head.now.content plan) }
    ensures edge { result ≡ Err CutFault.Edge ↔ IsEdge hour }
    ensures full { result ≡ Err CutFault.NotFull → ⊥ }
    ensures nothing { result ≡ Err CutFault.Nothing → (IsEdge hour → ⊥) × (rows_of hour head.now.content ≡ []) }
    ensures large { result ≡ Err CutFault.TooLarge → FitsIndex (index_rows encoding (rows_of hour head.now.content)) →
        2 ^ 32 < length (files_of encoding (samples_of_rows (rows_of hour head.now.content))) }
{
    // for the proof: the digits are those of a ULID
    let _digits = ulid.as_bytes();
    if hour.is_edge() {
        return Err(CutFault::Edge);
    }
    let rows = outlines_in(rt, alloc, head, hour, encoding)?;
    if rows.is_empty() {
        return Err(CutFault::Nothing);
    }
    Ok(plan_block(alloc, rows, hour, ulid, encoding)?)
}

/// Plans the block that `cut_in` cuts: makes all of it but the chunk files, of which it says what chunks they have.
pub(crate) fn plan_full(
    rt: &(impl Threads + Sync),
    alloc: Global,
    head: &Head,
    hour: Hour,
    ulid: &Ulid,
    encoding: Encoding,
) -> Result<BlockPlan, CutFault>
    requires { head.now.failed ≡ false }
    ensures plan { IfOk result (λ plan. IsPlan encoding (record { ulid = ulid.now; hour = hour; rows = rows_of hour head.now.content }) head.now.content plan) }
    ensures full { IfOk result (λ _. IsFull hour head.now.content) }
    ensures edge { result ≡ Err CutFault.Edge ↔ IsEdge hour }
    ensures not_full { result ≡ Err CutFault.NotFull ↔ (IsEdge hour → ⊥) × (IsFull hour head.now.content → ⊥) }
    ensures nothing { result ≡ Err CutFault.Nothing → (IsEdge hour → ⊥) × IsFull hour head.now.content × (rows_of hour head.now.content ≡ []) }
    ensures large { result ≡ Err CutFault.TooLarge → FitsIndex (index_rows encoding (rows_of hour head.now.content)) →
        2 ^ 32 < length (files_of encoding (samples_of_rows (rows_of hour head.now.content))) }
{
    check_full(head, hour)?;
    plan_any(rt, alloc, head, hour, ulid, encoding)
}

// Makes the chunk files of a block that was planned.
fn chunk_files_of(
    alloc: Global,
    head: &Head,
    hour: Hour,
    encoding: Encoding,
    plan: &BlockPlan,
) -> Result<Vec<Items<u8>>, AllocError>
    requires sound { head.now.failed ≡ false }
    requires whole { IsEdge hour → ⊥ }
    requires planned { All (IsPlanned encoding hour head.now.content) plan.now.series }
    ensures { IfOk result (λ files. files.items ≡ map (file_at encoding (data_of encoding hour head.now.content plan.now.series)) plan.now.files) }
{
    let mut files = Vec::new(alloc);
    for file in plan.files.as_slice() {
        let mut pieces = ChunkFile::new(head, hour, encoding, plan, file);
        files.push(Items::from_vec(gather(alloc, &mut pieces)?))?;
    }
    Ok(files)
}

// Makes a block that was planned.
fn finish(
    alloc: Global,
    head: &Head,
    hour: Hour,
    encoding: Encoding,
    plan: BlockPlan,
) -> Result<Block, AllocError>
    requires sound { head.now.failed ≡ false }
    requires whole { IsEdge hour → ⊥ }
    requires planned { All (IsPlanned encoding hour head.now.content) plan.series }
    ensures { (those : Parts) → IsPlanOf encoding hour head.now.content plan those → IfOk result (λ block. block ≡ those) }
{
    let chunks = chunk_files_of(alloc, head, hour, encoding, &plan)?;
    Ok(Block {
        meta: plan.meta,
        index: plan.index,
        chunks: Items::from_vec(chunks),
        tombstones: plan.tombstones,
    })
}

/// Cuts an hour of a head, full or not, into a block with this name, as `cut_in` does. The head must not have failed.
pub fn cut_any(
    rt: &(impl Threads + Sync),
    alloc: Global,
    head: &Head,
    hour: Hour,
    ulid: &Ulid,
    encoding: Encoding,
) -> Result<Block, CutFault>
    requires { head.now.failed ≡ false }
    ensures block { IfOk result (λ block. IsBlockOf encoding block (record { ulid = ulid.now; hour = hour; rows = rows_of hour head.now.content })) }
    ensures edge { result ≡ Err CutFault.Edge ↔ IsEdge hour }
    ensures full { result ≡ Err CutFault.NotFull → ⊥ }
    ensures nothing { result ≡ Err CutFault.Nothing → (IsEdge hour → ⊥) × (rows_of hour head.now.content ≡ []) }
    ensures large { result ≡ Err CutFault.TooLarge → FitsIndex (index_rows encoding (rows_of hour head.now.content)) →
        2 ^ 32 < length (files_of encoding (samples_of_rows (rows_of hour head.now.content))) }
{
    let plan = plan_any(rt, alloc, head, hour, ulid, encoding)?;
    Ok(finish(alloc, head, hour, encoding, plan)?)
}

/// Cuts an hour of a head, which must not have failed, into a block with this name. The rows of the block are the series with an accepted
/// sample in the hour, in the order of label sets. The chunks of the block are in this encoding: raw ones, which this program alone
/// reads, or XOR chunks, which a server opens. They are encoded in as many threads as `rt` has processors.
pub fn cut_in(
    rt: &(impl Threads + Sync),
    alloc: Global,
    head: &Head,
    hour: Hour,
    ulid: &Ulid,
    encoding: Encoding,
) -> Result<Block, CutFault>
    requires { head.now.failed ≡ false }
    ensures block { IfOk result (λ block. IsBlockOf encoding block (record { ulid = ulid.now; hour = hour; rows = rows_of hour head.now.content })) }
    ensures full { IfOk result (λ _. IsFull hour head.now.content) }
    ensures edge { result ≡ Err CutFault.Edge ↔ IsEdge hour }
    ensures not_full { result ≡ Err CutFault.NotFull ↔ (IsEdge hour → ⊥) × (IsFull hour head.now.content → ⊥) }
    ensures nothing { result ≡ Err CutFault.Nothing → (IsEdge hour → ⊥) × IsFull hour head.now.content × (rows_of hour head.now.content ≡ []) }
    ensures large { result ≡ Err CutFault.TooLarge → FitsIndex (index_rows encoding (rows_of hour head.now.content)) →
        2 ^ 32 < length (files_of encoding (samples_of_rows (rows_of hour head.now.content))) }
{
    check_full(head, hour)?;
    cut_any(rt, alloc, head, hour, ulid, encoding)
}

/// Cuts an hour of a head into a block with raw chunks, as `cut_in` does.
pub fn cut(
    rt: &(impl Threads + Sync),
    alloc: Global,
    head: &Head,
    hour: Hour,
    ulid: &Ulid,
) -> Result<Block, CutFault>
    requires { head.now.failed ≡ false }
    ensures block { IfOk result (λ block. IsBlockOf Raw block (record { ulid = ulid.now; hour = hour; rows = rows_of hour head.now.content })) }
    ensures full { IfOk result (λ _. IsFull hour head.now.content) }
    ensures edge { result ≡ Err CutFault.Edge ↔ IsEdge hour }
    ensures not_full { result ≡ Err CutFault.NotFull ↔ (IsEdge hour → ⊥) × (IsFull hour head.now.content → ⊥) }
    ensures nothing { result ≡ Err CutFault.Nothing → (IsEdge hour → ⊥) × IsFull hour head.now.content × (rows_of hour head.now.content ≡ []) }
    ensures large { result ≡ Err CutFault.TooLarge → FitsIndex (index_rows Raw (rows_of hour head.now.content)) →
        2 ^ 32 < length (files_of Raw (samples_of_rows (rows_of hour head.now.content))) }
{
    cut_in(rt, alloc, head, hour, ulid, Encoding::Raw)
}
