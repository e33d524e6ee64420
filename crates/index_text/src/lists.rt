//! Lists of fields.

ghost use Rattle.std.specs.Prelude.{◌≡◌, ◌∷◌, ◌++◌};
ghost use Rattle.index_text.specs.Gives.{Gives, nows, with_front};
ghost use Rattle.index_text.specs.Fields.{times, text_field, pair_field, next_chunks as next_chunks_in, chunks_field};

use crate::fault::ReadFault;
use crate::fields::{first_chunk, next_chunk, pair, text};
use crate::row::ChunkMeta;
use std::alloc::Global;

// Reads `count` texts.
pub(crate) fn texts<'a>(
    alloc: Global,
    count: u64,
    bytes: &'a [u8],
) -> Result<(Vec<&'a [u8]>, &'a [u8]), ReadFault>
    ensures { Gives (λ x. (nows x.0.items, x.1.now)) result (times text_field count bytes.now) }
{
    let mut items = Vec::new(alloc);
    let mut rest = bytes;
    for _ in 0..count {
        let (item, after) = text(rest)?;
        items.push(item)?;
        rest = after;
    }
    Ok((items, rest))
}

// Reads the references of `count` labels.
pub(crate) fn pairs(
    alloc: Global,
    count: u64,
    limit: u64,
    bytes: &[u8],
) -> Result<(Vec<(u64, u64)>, &[u8]), ReadFault>
    ensures { Gives (λ x. (x.0.items, x.1.now)) result (times (pair_field limit) count bytes.now) }
{
    let mut items = Vec::new(alloc);
    let mut rest = bytes;
    for _ in 0..count {
        let (item, after) = pair(rest, limit)?;
        items.push(item)?;
        rest = after;
    }
    Ok((items, rest))
}

// Reads `count` more chunks. The last one before them is `last`.
fn later_chunks(
    chunks: Vec<ChunkMeta>,
    count: u64,
    last: ChunkMeta,
    bytes: &[u8],
) -> Result<(Vec<ChunkMeta>, &[u8]), ReadFault>
    ensures { Gives (λ x. (x.0.items, x.1.now)) result (with_front chunks.items (next_chunks_in count last bytes.now)) }
{
    let mut chunks = chunks;
    let mut last = last;
    let mut rest = bytes;
    for _ in 0..count {
        let (chunk, after) = next_chunk(last, rest)?;
        chunks.push(chunk)?;
        last = chunk;
        rest = after;
    }
    Ok((chunks, rest))
}

// Reads the `count` chunks of a series.
#[tactic(auto, unfolding(crate::specs::Fields::chunks_field))]
pub(crate) fn chunks(
    alloc: Global,
    count: u64,
    bytes: &[u8],
) -> Result<(Vec<ChunkMeta>, &[u8]), ReadFault>
    ensures { Gives (λ x. (x.0.items, x.1.now)) result (chunks_field count bytes.now) }
{
    let mut chunks = Vec::new(alloc);
    if count == 0 {
        return Ok((chunks, bytes));
    }
    let (first, rest) = first_chunk(bytes)?;
    chunks.push(first)?;
    later_chunks(chunks, count - 1, first, rest)
}
