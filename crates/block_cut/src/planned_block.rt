//! A block whose chunk files are made when they are wanted.

ghost use Rattle.std.specs.Prelude.{◌≡◌, ◌↔◌, ◌<◌, ◌^◌, [], false, Err, IfOk, length};
ghost use Rattle.head_column.specs.Hours.{IsEdge};
ghost use Rattle.index_text.specs.Rows.{FitsIndex};
ghost use Rattle.block_cut.specs.Ranges.{IsFull};
ghost use Rattle.hour_rows.specs.Rows.{rows_of};
ghost use Rattle.block_read.specs.Blocks.{IsBlockOf, files_of, index_rows, samples_of_rows};

use crate::chunk_file::ChunkFile;
use crate::cutting::plan_full;
use crate::fault::CutFault;
use crate::planning::BlockPlan;
use block_files::Encoding;
use block_read::Ulid;
use head_column::Hour;
use head_core::Head;
use std::alloc::Global;
use std::marker::Model;
use std::thread::Threads;

/// The block of an hour of a head. All of it but the chunk files is in memory: these are made of the head, while they are written. Contracts see
/// the block.
#[derive(Drop)]
pub struct PlannedBlock<'a> {
    head: &'a Head,
    hour: Hour,
    encoding: Encoding,
    plan: BlockPlan,
}

impl<'a> Model for PlannedBlock<'a> {
    ghost use Rattle.std.specs.Prelude.{◌≡◌, All, false, map};
    ghost use Rattle.head_column.specs.Hours.{IsEdge};
    ghost use Rattle.block_files.specs.Places.{file_at};
    ghost use Rattle.block_read.specs.declared.block.Block.{Block as Parts};
    ghost use Rattle.block_cut.specs.Plans.{IsPlanned, data_of};

    ghost Value = { Parts };

    ghost view = { λ b. record { index = b.plan.index; chunks = map (file_at b.encoding (data_of b.encoding b.hour b.head.now.content b.plan.series)) b.plan.files; tombstones = b.plan.tombstones; meta = b.plan.meta } };

    ghost invariant = { λ b. (b.head.now.failed ≡ false) × (IsEdge b.hour → ⊥) × All (IsPlanned b.encoding b.hour b.head.now.content) b.plan.series };
}

impl<'a> PlannedBlock<'a> {
    ghost use Rattle.std.specs.Prelude.{◌≡◌, ◌<◌, [], All, false, length, slice_index_or};
    ghost use Rattle.head_column.specs.Hours.{IsEdge};
    ghost use Rattle.block_read.specs.declared.block.Block.{Block as Parts};
    ghost use Rattle.block_cut.specs.Plans.{IsPlanOf, IsPlanned};

    // Makes one of a plan.
    pub(crate) fn new(
        head: &'a Head,
        hour: Hour,
        encoding: Encoding,
        plan: BlockPlan,
    ) -> PlannedBlock<'a>
        requires sound { head.now.failed ≡ false }
        requires whole { IsEdge hour → ⊥ }
        requires planned { All (IsPlanned encoding hour head.now.content) plan.series }
        ensures { (block : Parts) → IsPlanOf encoding hour head.now.content plan block → result ≡ block }
    {
        PlannedBlock {
            head,
            hour,
            encoding,
            plan,
        }
    }

    /// Borrows the index.
    pub fn index(&self) -> &[u8]
        ensures { result.now ≡ self.now.index }
    {
        self.plan.index.as_slice()
    }

    /// Borrows the tombstones.
    pub fn tombstones(&self) -> &[u8]
        ensures { result.now ≡ self.now.tombstones }
    {
        self.plan.tombstones.as_slice()
    }

    /// Borrows meta.json.
    pub fn meta(&self) -> &[u8]
        ensures { result.now ≡ self.now.meta }
    {
        self.plan.meta.as_slice()
    }

    /// Returns how many chunk files there are.
    pub fn chunk_files(&self) -> usize
        ensures { result ≡ length self.now.chunks }
    {
        self.plan.files.len()
    }

    /// Returns the chunk file of this place, to be made.
    pub fn chunk_file(&self, place: usize) -> ChunkFile<'_>
        requires { place < length self.now.chunks }
        ensures { result.text ≡ slice_index_or self.now.chunks place [] }
    {
        let file = &self.plan.files.as_slice()[place];
        ChunkFile::new(self.head, self.hour, self.encoding, &self.plan, file)
    }
}

/// Plans the block that `cut_in` cuts of an hour of a head, which must not have failed: makes all of it but the chunk files.
pub fn plan_in<'a>(
    rt: &(impl Threads + Sync),
    alloc: Global,
    head: &'a Head,
    hour: Hour,
    ulid: &Ulid,
    encoding: Encoding,
) -> Result<PlannedBlock<'a>, CutFault>
    requires { head.now.failed ≡ false }
    ensures block { IfOk result (λ block. IsBlockOf encoding block (record { ulid = ulid.now; hour = hour; rows = rows_of hour head.now.content })) }
    ensures full { IfOk result (λ _. IsFull hour head.now.content) }
    ensures edge { result ≡ Err CutFault.Edge ↔ IsEdge hour }
    ensures not_full { result ≡ Err CutFault.NotFull ↔ (IsEdge hour → ⊥) × (IsFull hour head.now.content → ⊥) }
    ensures nothing { result ≡ Err CutFault.Nothing → (IsEdge hour → ⊥) × IsFull hour head.now.content × (rows_of hour head.now.content ≡ []) }
    ensures large { result ≡ Err CutFault.TooLarge → FitsIndex (index_rows encoding (rows_of hour head.now.content)) →
        2 ^ 32 < length (files_of encoding (samples_of_rows (rows_of hour head.now.content))) }
{
    let plan = plan_full(rt, alloc, head, hour, ulid, encoding)?;
    Ok(PlannedBlock::new(head, hour, encoding, plan))
}
