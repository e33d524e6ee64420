//! Decoding the text of a chunk.

ghost use Rattle.std.specs.Prelude.{◌≡◌, ◌≤◌, ◌<◌, List, length, Err, IfOk, IfSome, IfNone};
ghost use Rattle.hw_bytes.specs.Writing.{big_number};
ghost use Rattle.hw_bytes.specs.Spellings.{IsAt, IsNowhere};
ghost use Rattle.xor_chunk.specs.declared.sample.Sample.{Sample as Entry};
ghost use Rattle.head_column.specs.Chunks.{IsChunk, chunk_samples, chunk_text};
ghost use Rattle.head_column.specs.Reading.{IsStep, IsTime, IsSample, HaveText, AreRead};

use crate::Sample;
use crate::chunk::{CHUNK_SAMPLES, ChunkFault};
use crate::encoding::encode_chunk;
use hw_bytes::{be16_at, be64_at, uvarint_at, varint_at};
use std::alloc::Global;

// Reads the next time at the front, and returns it with its length in bytes.
fn front_step(before: i64, bytes: &[u8]) -> Option<(i64, usize)>
    ensures found { IfSome result (λ found. IsAt (IsStep before) bytes.now found.0 found.1) }
    ensures none { IfNone result (IsNowhere (IsStep before) bytes.now) }
{
    let (step, len) = uvarint_at(bytes)?;
    if step == 0 {
        return None;
    }
    let time = before.checked_add_unsigned(step)?;
    Some((time, len))
}

// Reads the first time, or the next one after `before`, and returns it with its length in bytes.
fn front_time(before: Option<i64>, bytes: &[u8]) -> Option<(i64, usize)>
    ensures found { IfSome result (λ found. IsAt (IsTime before) bytes.now found.0 found.1) }
    ensures none { IfNone result (IsNowhere (IsTime before) bytes.now) }
{
    match before {
        None => varint_at(bytes),
        Some(before) => front_step(before, bytes),
    }
}

// Reads the sample at the front, and returns it with its length in bytes.
fn front_sample(before: Option<i64>, bytes: &[u8]) -> Option<(Sample, usize)>
    ensures found { IfSome result (λ found. IsAt (IsSample before) bytes.now found.0 found.1) }
    ensures none { IfNone result (IsNowhere (IsSample before) bytes.now) }
{
    let (time, len) = front_time(before, bytes)?;
    let (_, rest) = bytes.split_at(len);
    let value = be64_at(rest)?.cast_signed();
    Some((Sample { time, value }, len + 8))
}

// Reads `count` samples at the front, with their times in any spelling.
fn front_samples(alloc: Global, count: usize, bytes: &[u8]) -> Result<Vec<Sample>, ChunkFault>
    ensures read { IfOk result (λ samples. AreRead count bytes.now samples.items) }
    ensures bad { result ≡ Err ChunkFault.BadChunk →
        (samples : List Entry) → HaveText count bytes.now samples → ⊥ }
{
    let mut samples = Vec::with_capacity(alloc, count)?;
    let mut before = None;
    let mut rest = bytes;
    while samples.len() < count {
        let Some((sample, len)) = front_sample(before, rest) else {
            return Err(ChunkFault::BadChunk);
        };
        samples.push(sample)?;
        before = Some(sample.time);
        (_, rest) = rest.split_at(len);
    }
    Ok(samples)
}

/// Decodes the text of a chunk. Returns `BadChunk` if the bytes are the text of no chunk: the count is wrong, times do not ascend
/// or exceed `i64`, a spelling is too long, or bytes are missing or left over. Returns `Memory` if out of memory.
pub fn decode_chunk(alloc: Global, text: &[u8]) -> Result<Vec<Sample>, ChunkFault>
    ensures found { IfOk result (λ samples. IsChunk samples.items × (text.now ≡ chunk_text samples.items)) }
    ensures bad { result ≡ Err ChunkFault.BadChunk →
        (samples : List Entry) → IsChunk samples → text.now ≡ chunk_text samples → ⊥ }
    // A text whose count is 0, or more than a chunk has, is refused before memory is allocated.
    ensures short { length text.now < 2 → result ≡ Err ChunkFault.BadChunk }
    ensures none { big_number 2 text.now ≡ 0 → result ≡ Err ChunkFault.BadChunk }
    ensures many { chunk_samples < big_number 2 text.now → result ≡ Err ChunkFault.BadChunk }
{
    let Some(count) = be16_at(text) else {
        return Err(ChunkFault::BadChunk);
    };
    let count = usize::from(count);
    if count == 0 || count > CHUNK_SAMPLES {
        return Err(ChunkFault::BadChunk);
    }
    let (_, bytes) = text.split_at(2);
    let samples = front_samples(alloc, count, bytes)?;
    let again = encode_chunk(alloc, &samples)?;
    if again.as_slice() != text {
        return Err(ChunkFault::BadChunk);
    }
    Ok(samples)
}
