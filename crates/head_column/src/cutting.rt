//! Cutting the samples of an hour into chunks.

ghost use Rattle.std.specs.Prelude.{◌≡◌, ◌<◌, ◌≤◌, [], filter, length, IfOk, IsOk};
ghost use Rattle.head_column.specs.Hours.{is_in_hour};
ghost use Rattle.head_column.specs.Chunks.{chunk_of, chunk_samples, chunks_of, xor_chunk_of, xor_chunks_of};
ghost use Rattle.head_column.specs.Cutting.{chunk_in, chunks_in as chunks_in_form};

use crate::Sample;
use crate::chunk::{CHUNK_SAMPLES, Chunk};
use crate::copying::are_full;
use crate::encoding::{put_samples, time_of};
use crate::hour::Hour;
use crate::stored::SampleChunks;
use hw_bytes::{Items, put_be16};
use std::alloc::{AllocError, Global};

// How the samples of a chunk are encoded.
#[derive(Clone, Copy, Debug)]
pub(crate) enum Form {
    Raw,
    Xor,
}

// Encodes 1 to 120 samples as a chunk.
fn cut_one(alloc: Global, samples: &[Sample]) -> Result<Chunk, AllocError>
    requires some { 0 < length samples.now }
    requires few { length samples.now ≤ chunk_samples }
    ensures { IfOk result (λ chunk. chunk ≡ chunk_of samples.now) }
{
    let mut text = Vec::new(alloc);
    put_be16(&mut text, samples.len() as u16)?;
    let last = put_samples(&mut text, None, samples)?;
    Ok(Chunk {
        min_time: time_of(&samples[0]),
        max_time: last,
        count: samples.len(),
        text: Items::from_vec(text),
    })
}

// Encodes 1 to 120 samples as a server's chunk.
fn cut_xor(alloc: Global, samples: &[Sample]) -> Result<Chunk, AllocError>
    requires some { 0 < length samples.now }
    requires few { length samples.now ≤ chunk_samples }
    ensures { IfOk result (λ chunk. chunk ≡ xor_chunk_of samples.now) }
{
    let text = xor_chunk::encode(alloc, samples)?;
    Ok(Chunk {
        min_time: time_of(&samples[0]),
        max_time: time_of(&samples[samples.len() - 1]),
        count: samples.len(),
        text: Items::from_vec(text),
    })
}

// Encodes 1 to 120 samples as a chunk in a form.
fn cut_by(alloc: Global, samples: &[Sample], form: Form) -> Result<Chunk, AllocError>
    requires some { 0 < length samples.now }
    requires few { length samples.now ≤ chunk_samples }
    ensures { IfOk result (λ chunk. chunk ≡ chunk_in form samples.now) }
{
    match form {
        Form::Raw => cut_one(alloc, samples),
        Form::Xor => cut_xor(alloc, samples),
    }
}

// Encodes all these samples in chunks.
fn cut_all(alloc: Global, samples: &[Sample], form: Form) -> Result<Vec<Chunk>, AllocError>
    ensures chunks { IfOk result (λ chunks. chunks.items ≡ chunks_in_form form samples.now) }
    ensures none { samples.now ≡ [] → IsOk result }
{
    let mut chunks = Vec::new(alloc);
    let mut rest = samples;
    while !rest.is_empty() {
        let (part, others) = rest.split_at(rest.len().min(CHUNK_SAMPLES));
        chunks.push(cut_by(alloc, part, form)?)?;
        rest = others;
    }
    Ok(chunks)
}

/// Encodes the samples of the hour in chunks of 120; the last chunk may have fewer.
pub(crate) fn cut_chunks(samples: &SampleChunks, hour: Hour) -> Result<Vec<Chunk>, AllocError>
    ensures chunks { IfOk result (λ chunks. chunks.items ≡ chunks_of (filter (λ s. is_in_hour hour s.time) samples.now.samples)) }
    ensures none { filter (λ s. is_in_hour hour s.time) samples.now.samples ≡ [] → IsOk result }
{
    let found = samples.samples_in(hour)?;
    cut_all(samples.alloc(), &found, Form::Raw)
}

/// Returns the samples of the hour in a server's chunks of 120; the last chunk may have fewer. Chunks that are cut so are copied.
pub(crate) fn xor_chunks(samples: &SampleChunks, hour: Hour) -> Result<Vec<Chunk>, AllocError>
    ensures chunks { IfOk result (λ chunks. chunks.items ≡ xor_chunks_of (filter (λ s. is_in_hour hour s.time) samples.now.samples)) }
    ensures none { filter (λ s. is_in_hour hour s.time) samples.now.samples ≡ [] → IsOk result }
{
    if let Some(chunks) = samples.copy_chunks(hour)?
        && are_full(&chunks)
    {
        return Ok(chunks);
    }
    let found = samples.samples_in(hour)?;
    cut_all(samples.alloc(), &found, Form::Xor)
}
