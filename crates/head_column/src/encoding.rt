//! Encoding the text of a chunk.

ghost use Rattle.std.specs.Prelude.{◌≡◌, ◌<◌, ◌≤◌, ◌++◌, length, IfOk, OnOk};
ghost use Rattle.head_column.specs.Samples.{Rises};
ghost use Rattle.head_column.specs.Chunks.{IsFit, chunk_samples, time_text, sample_text, samples_text, chunk_text, last_time};

use crate::Sample;
use hw_bytes::{put_be16, put_be64, put_uvarint, put_varint};
use std::alloc::{AllocError, Global};

// Appends the first time, or the next one after `before`.
fn put_time(bytes: &mut Vec<u8>, before: Option<i64>, time: i64) -> Result<(), AllocError>
    ensures { OnOk result (bytes.new.items ≡ bytes.old.items ++ time_text before time) }
{
    match before {
        None => put_varint(bytes, time),
        Some(before) => put_uvarint(bytes, time.abs_diff(before)),
    }
}

// Appends a sample, the first one or the next after the time `before`.
fn put_sample(bytes: &mut Vec<u8>, before: Option<i64>, sample: &Sample) -> Result<(), AllocError>
    ensures put { OnOk result (bytes.new.items ≡ bytes.old.items ++ sample_text before sample.now) }
    ensures fit { OnOk result (IsFit sample.now) }
{
    put_time(bytes, before, sample.time)?;
    put_be64(bytes, sample.value.cast_unsigned())
}

/// Returns the sample's time. For proofs: it fits in 64 bits.
pub(crate) fn time_of(sample: &Sample) -> i64
    ensures { result ≡ sample.now.time }
{
    sample.time
}

/// Appends samples, the first one or the next after the time `before`, and those that follow. Returns the last one's time.
pub(crate) fn put_samples(
    bytes: &mut Vec<u8>,
    before: Option<i64>,
    samples: &[Sample],
) -> Result<i64, AllocError>
    requires { 0 < length samples.now }
    ensures put { OnOk result (bytes.new.items ≡ bytes.old.items ++ samples_text before samples.now) }
    ensures last { IfOk result (λ last. last ≡ last_time samples.now) }
{
    let mut before = before;
    for sample in samples {
        put_sample(bytes, before, sample)?;
        before = Some(sample.time);
    }
    Ok(time_of(&samples[samples.len() - 1]))
}

/// Encodes 1 to 120 samples with ascending times as the text of a chunk: the number of samples in two bytes, big-endian, and for
/// each sample its time and its value. The first time is a varint, in milliseconds, each later one the uvarint of the difference
/// to the one before; values have eight bytes, big-endian, two's complement. Returns an error if out of memory.
pub fn encode_chunk(alloc: Global, samples: &[Sample]) -> Result<Vec<u8>, AllocError>
    requires some { 0 < length samples.now }
    requires few { length samples.now ≤ chunk_samples }
    requires rises { Rises samples.now }
    ensures { IfOk result (λ text. text.items ≡ chunk_text samples.now) }
{
    let mut text = Vec::new(alloc);
    put_be16(&mut text, samples.len() as u16)?;
    put_samples(&mut text, None, samples)?;
    Ok(text)
}
