//! Copying the chunks of a column, which are a server's.

ghost use Rattle.std.specs.Prelude.{◌≡◌, ◌<◌, ◌≤◌, ◌-◌, ◌++◌, [], List, Ok, All, Some, IfOk, IsOk, OnOk, filter, length, map, take, true};
ghost use Rattle.xor_chunk.specs.declared.sample.Sample.{Sample as ASample};
ghost use Rattle.head_column.specs.Chunks.{IsFit, chunk_samples, first_time as first_time_of, last_time, xor_chunk_of};
ghost use Rattle.head_column.specs.Hours.{is_in_hour};
ghost use Rattle.head_column.specs.Stored.{AreInHour, IsSealed, one_part, open_parts};

use crate::chunk::{CHUNK_SAMPLES, Chunk};
use crate::hour::Hour;
use crate::sealed::{SealedChunk, is_in, is_open_in};
use hw_bytes::{Items, put_be16};
use std::alloc::{AllocError, Global};
use xor_chunk::{ChunkReader, ChunkWriter};

// Returns the time of the first sample. 0 if there is none.
fn first_time(reader: ChunkReader<'_>) -> i64
    ensures { (all : List ASample) → reader.entry.rest ≡ Ok all → result ≡ first_time_of all }
{
    let mut reader = reader;
    match reader.next() {
        Ok(Some(sample)) => sample.time,
        _ => 0,
    }
}

// Copies a sealed chunk, of which this is the text.
fn copy_sealed(alloc: Global, chunk: SealedChunk, body: &[u8]) -> Result<Chunk, AllocError>
    requires { chunk.count ≤ chunk_samples }
    ensures { (part : List ASample) → IsSealed chunk body.now part → IfOk result (λ made. made ≡ xor_chunk_of part) }
{
    let mut text = Vec::with_capacity(alloc, body.len() + 2)?;
    put_be16(&mut text, chunk.count as u16)?;
    text.extend_from_slice(body)?;
    Ok(Chunk {
        min_time: first_time(ChunkReader::new(chunk.count, body)),
        max_time: chunk.max_time,
        count: chunk.count,
        text: Items::from_vec(text),
    })
}

// Appends a copy of a sealed chunk, of which this is the text, if it is of the hour.
pub(crate) fn copy_sealed_in(
    hour: Hour,
    chunk: SealedChunk,
    text: &[u8],
    chunks: &mut Vec<Chunk>,
) -> Result<(), AllocError>
    requires { chunk.count ≤ chunk_samples }
    ensures some { (part : List ASample) → IsSealed chunk text.now part → OnOk result (chunks.new.items ≡ chunks.old.items ++ map xor_chunk_of (one_part hour chunk.max_time part)) }
    ensures none { (part : List ASample) → IsSealed chunk text.now part → filter (λ s. is_in_hour hour s.time) part ≡ [] → IsOk result }
{
    if !is_in(hour, chunk.max_time) {
        return Ok(());
    }
    chunks.push(copy_sealed(*chunks.allocator(), chunk, text)?)?;
    Ok(())
}

// Copies the open chunk, which has samples, the last one at `max_time`.
fn copy_open(alloc: Global, writer: &ChunkWriter, max_time: i64) -> Result<Chunk, AllocError>
    requires some { 0 < length writer.now.samples }
    requires few { length writer.now.samples ≤ chunk_samples }
    requires fit { All IsFit writer.now.samples }
    requires hour { AreInHour (last_time writer.now.samples) writer.now.samples }
    ensures { max_time ≡ last_time writer.now.samples → IfOk result (λ made. made ≡ xor_chunk_of writer.now.samples) }
{
    let mut body = Vec::new(alloc);
    writer.copy_chunk(&mut body)?;
    let chunk = SealedChunk {
        len: body.len(),
        count: writer.len(),
        max_time,
    };
    copy_sealed(alloc, chunk, &body)
}

// Appends a copy of the open chunk, the last sample of which is at `latest`, if it has samples of the hour.
pub(crate) fn copy_open_in(
    hour: Hour,
    writer: &ChunkWriter,
    latest: Option<i64>,
    chunks: &mut Vec<Chunk>,
) -> Result<(), AllocError>
    requires few { length writer.now.samples ≤ chunk_samples }
    requires fit { All IsFit writer.now.samples }
    requires hour { AreInHour (last_time writer.now.samples) writer.now.samples }
    requires latest { 0 < length writer.now.samples → latest ≡ Some (last_time writer.now.samples) }
    ensures some { OnOk result (chunks.new.items ≡ chunks.old.items ++ map xor_chunk_of (open_parts hour writer.now.samples)) }
    ensures none { filter (λ s. is_in_hour hour s.time) writer.now.samples ≡ [] → IsOk result }
{
    let Some(last) = latest else {
        return Ok(());
    };
    if !is_open_in(writer, latest, hour) {
        return Ok(());
    }
    chunks.push(copy_open(*chunks.allocator(), writer, last)?)?;
    Ok(())
}

/// Returns whether each chunk but the last is full.
pub(crate) fn are_full(chunks: &[Chunk]) -> bool
    ensures { result ≡ true → All (λ c. c.count ≡ chunk_samples) (take (length chunks.now - 1) chunks.now) }
{
    let (others, _) = chunks.split_at(chunks.len().saturating_sub(1));
    for chunk in others {
        if chunk.count != CHUNK_SAMPLES {
            return false;
        }
    }
    true
}
