//! What the rows of an hour of a head are made of: the times of the hour, its chunks of a series, and its hidden runs.

ghost use Rattle.std.specs.Prelude.{◌≡◌, ◌<◌, ◌+ℤ◌, pos, false, length, All, IfOk};
ghost use Rattle.head_column.specs.Chunks.{IsFit};
ghost use Rattle.head_column.specs.Hours.{IsEdge, hour_start};
ghost use Rattle.head_column.specs.Samples.{Rises};
ghost use Rattle.head_core.specs.Heads.{history_at};
ghost use Rattle.hour_rows.specs.Clipping.{clip, runs_in, samples_in};
ghost use Rattle.block_read.specs.Blocks.{chunks_in, hour_last};

use block_files::Encoding;
use head_column::{Chunk, HOUR_LENGTH, Hour, Run};
use head_core::Head;
use head_series::Slot;
use std::alloc::{AllocError, Global};

/// Returns the first millisecond of an hour that is no edge.
pub fn first_of(hour: Hour) -> i64
    requires { IsEdge hour → ⊥ }
    ensures { result ≡ hour_start hour }
{
    hour.k() * HOUR_LENGTH
}

/// Returns the last millisecond of an hour that is no edge.
pub fn last_of(hour: Hour) -> i64
    requires { IsEdge hour → ⊥ }
    ensures { result ≡ hour_last hour }
{
    first_of(hour) + (HOUR_LENGTH - 1)
}

/// Returns the end of an hour that is no edge: the millisecond after its last one.
pub fn end_of(hour: Hour) -> i64
    requires { IsEdge hour → ⊥ }
    ensures { result ≡ hour_start (hour +ℤ pos 1) }
{
    last_of(hour) + 1
}

// Clips a run to an hour that is no edge. The result can be empty.
fn clipped(run: &Run, hour: Hour) -> Run
    requires { IsEdge hour → ⊥ }
    ensures { result ≡ clip hour run.now }
{
    Run {
        min_time: run.min_time.max(first_of(hour)),
        max_time: run.max_time.min(last_of(hour)),
    }
}

// Clips runs to an hour that is no edge, and drops those that become empty.
pub(crate) fn clip_runs(alloc: Global, runs: &[Run], hour: Hour) -> Result<Vec<Run>, AllocError>
    requires { IsEdge hour → ⊥ }
    ensures { IfOk result (λ clipped. clipped.items ≡ runs_in hour runs.now) }
{
    let mut kept = Vec::new(alloc);
    for run in runs {
        let part = clipped(run, hour);
        if part.min_time <= part.max_time {
            kept.push(part)?;
        }
    }
    Ok(kept)
}

/// Returns the chunks of the series in a slot in an hour that is no edge, in this encoding. The head must not have failed.
pub fn chunks_of(
    head: &Head,
    slot: Slot,
    hour: Hour,
    encoding: Encoding,
) -> Result<Vec<Chunk>, AllocError>
    requires sound { head.now.failed ≡ false }
    requires slot { slot < length head.now.content.table.series }
    requires whole { IsEdge hour → ⊥ }
    ensures chunks { IfOk result (λ chunks. chunks.items ≡ chunks_in encoding (samples_in hour (history_at head.now.content slot).samples)) }
    ensures rises { IfOk result (λ _. Rises (history_at head.now.content slot).samples) }
    ensures fit { IfOk result (λ _. All IsFit (history_at head.now.content slot).samples) }
{
    match encoding {
        Encoding::Raw => head.chunks_in(slot, hour),
        Encoding::Xor => head.xor_chunks_in(slot, hour),
    }
}
