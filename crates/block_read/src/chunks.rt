//! Reading the chunks of a row.

ghost use Rattle.std.specs.Prelude.{◌≡◌, ◌<◌, All, List, length, Err, IfOk, IsTrue};
ghost use Rattle.head_column.specs.Samples.{Sample as Entry};
ghost use Rattle.head_column.specs.Chunks.{IsChunk, IsFit, chunk_samples, first_time, last_time, parts};
ghost use Rattle.head_column.specs.Samples.{Rises};
ghost use Rattle.xor_chunk.specs.Chunks.{xor_text};
ghost use Rattle.block_files.specs.Files.{StandsAt};
ghost use Rattle.block_read.specs.Blocks.{IsColumn, chunk_in, chunks_in, data_in};
ghost use Rattle.block_read.specs.Reading.{AreThere, MayFollow};

use crate::fault::PartFault;
use block_files::{Encoding, chunk_at};
use block_index::ChunkMeta;
use head_column::{CHUNK_SAMPLES, Chunk, Sample, decode_chunk};
use hw_bytes::Items;
use std::alloc::Global;
use xor_chunk::{decode_exact, one_xor_chunk};

// A chunk with its samples.
#[derive(Debug, Drop)]
pub(crate) struct ReadChunk {
    pub(crate) samples: Vec<Sample>,
    pub(crate) chunk: Chunk,
}

// The chunks of a row with their samples.
#[derive(Debug, Drop)]
pub(crate) struct ReadRow {
    pub(crate) samples: Vec<Sample>,
    pub(crate) chunks: Vec<Chunk>,
}

// Returns the time of a sample.
fn time_of(sample: &Sample) -> i64
    ensures { result ≡ sample.now.time }
{
    sample.time
}

// Returns the time of the first sample.
fn first_time_of(samples: &[Sample]) -> i64
    requires { 0 < length samples.now }
    ensures { result ≡ first_time samples.now }
{
    time_of(&samples[0])
}

// Returns the time of the last sample.
fn last_time_of(samples: &[Sample]) -> i64
    requires { 0 < length samples.now }
    ensures { result ≡ last_time samples.now }
{
    time_of(&samples[samples.len() - 1])
}

// Returns whether each time is greater than the one before it.
fn do_rise(samples: &[Sample]) -> bool
    ensures sound { IsTrue result → Rises samples.now }
    ensures complete { Rises samples.now → IsTrue result }
{
    for i in 1..samples.len() {
        if time_of(&samples[i]) <= time_of(&samples[i - 1]) {
            return false;
        }
    }
    true
}

// Returns whether a chunk can have these samples: 1 to 120 with times that rise.
fn is_chunk(samples: &[Sample]) -> bool
    ensures sound { IsTrue result → All IsFit samples.now → IsChunk samples.now }
    ensures complete { IsChunk samples.now → IsTrue result }
{
    if samples.is_empty() || samples.len() > CHUNK_SAMPLES {
        return false;
    }
    do_rise(samples)
}

// Decodes the data of a chunk in the XOR encoding.
fn decode_xor(alloc: Global, data: &[u8]) -> Result<Vec<Sample>, PartFault>
    ensures found { IfOk result (λ samples. IsChunk samples.items × (data.now ≡ xor_text samples.items)) }
    ensures only { (part : List Entry) → IsChunk part → data.now ≡ xor_text part → IfOk result (λ samples. samples.items ≡ part) }
    ensures bad { result ≡ Err PartFault.Bad → (part : List Entry) → IsChunk part → data.now ≡ xor_text part → ⊥ }
{
    let samples = decode_exact(alloc, data)?;
    // for the proof: a chunk stands for one list of samples
    one_xor_chunk();
    if !is_chunk(&samples) {
        return Err(PartFault::Bad);
    }
    Ok(samples)
}

// Decodes the data of a chunk in this encoding.
fn decode(alloc: Global, encoding: Encoding, data: &[u8]) -> Result<Vec<Sample>, PartFault>
    ensures found { IfOk result (λ samples. IsChunk samples.items × (data.now ≡ data_in encoding samples.items)) }
    ensures only { (part : List Entry) → IsChunk part → data.now ≡ data_in encoding part → IfOk result (λ samples. samples.items ≡ part) }
    ensures bad { result ≡ Err PartFault.Bad → (part : List Entry) → IsChunk part → data.now ≡ data_in encoding part → ⊥ }
{
    match encoding {
        Encoding::Raw => Ok(decode_chunk(alloc, data)?),
        Encoding::Xor => decode_xor(alloc, data),
    }
}

// Reads the chunk at a reference, which must be in this encoding.
fn read_chunk(
    alloc: Global,
    files: &[Items<u8>],
    reference: u64,
    encoding: Encoding,
) -> Result<ReadChunk, PartFault>
    ensures found { IfOk result (λ read. IsChunk read.samples.items) }
    ensures chunk { IfOk result (λ read. read.chunk ≡ chunk_in encoding read.samples.items) }
    ensures there { IfOk result (λ read. StandsAt encoding files.now reference (data_in encoding read.samples.items)) }
    ensures only { (part : List Entry) → IsChunk part → StandsAt encoding files.now reference (data_in encoding part) →
        IfOk result (λ read. read.samples.items ≡ part) }
    ensures bad { result ≡ Err PartFault.Bad → (part : List Entry) → IsChunk part → StandsAt encoding files.now reference (data_in encoding part) → ⊥ }
{
    let Some((written, data)) = chunk_at(files, reference) else {
        return Err(PartFault::Bad);
    };
    if written != encoding {
        return Err(PartFault::Bad);
    }
    let samples = decode(alloc, encoding, data)?;
    let mut text = Vec::new(alloc);
    text.extend_from_slice(data)?;
    let chunk = Chunk {
        min_time: first_time_of(&samples),
        max_time: last_time_of(&samples),
        count: samples.len(),
        text: Items::from_vec(text),
    };
    Ok(ReadChunk { samples, chunk })
}

// Returns whether a chunk with the samples `part` can follow the samples `before`: these fill chunks and have earlier times.
fn may_follow(before: &[Sample], part: &[Sample]) -> bool
    requires { 0 < length part.now }
    ensures sound { IsTrue result → MayFollow before.now part.now }
    ensures complete { MayFollow before.now part.now → IsTrue result }
{
    if before.is_empty() {
        return true;
    }
    before.len() % CHUNK_SAMPLES == 0 && last_time_of(before) < first_time_of(part)
}

// Reads the chunks of an index row, and joins their samples.
pub(crate) fn read_row(
    alloc: Global,
    files: &[Items<u8>],
    metas: &[ChunkMeta],
    encoding: Encoding,
) -> Result<ReadRow, PartFault>
    ensures found { IfOk result (λ row. IsColumn row.samples.items) }
    ensures chunks { IfOk result (λ row. row.chunks.items ≡ chunks_in encoding row.samples.items) }
    ensures only { (samples : List Entry) → IsColumn samples → AreThere encoding files.now metas.now (parts chunk_samples samples) →
        IfOk result (λ row. row.samples.items ≡ samples) }
    ensures bad { result ≡ Err PartFault.Bad → (samples : List Entry) → IsColumn samples →
        AreThere encoding files.now metas.now (parts chunk_samples samples) → ⊥ }
{
    let mut samples = Vec::new(alloc);
    let mut chunks = Vec::new(alloc);
    for meta in metas {
        let read = read_chunk(alloc, files, meta.reference, encoding)?;
        if !may_follow(&samples, &read.samples) {
            return Err(PartFault::Bad);
        }
        samples.extend_from_slice(&read.samples)?;
        chunks.push(read.chunk)?;
    }
    if samples.is_empty() {
        return Err(PartFault::Bad);
    }
    Ok(ReadRow { samples, chunks })
}
