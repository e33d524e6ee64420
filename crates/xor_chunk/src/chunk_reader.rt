//! Chunks, read sample by sample.

ghost use Rattle.std.specs.Prelude.{◌≡◌, ◌≢◌, ◌<◌, ◌≤◌, ◌++◌, [], ◌∷◌, List, Ok, Err, OnOk, IfOk, IfErr, IfSome, IfNone, All, filter, int_lt, length};
ghost use Rattle.xor_chunk.specs.Samples.{IsFit};
ghost use Rattle.xor_chunk.specs.declared.sample.Sample.{Sample as ASample};
ghost use Rattle.xor_chunk.specs.Chunks.{IsXorChunk};
ghost use Rattle.xor_chunk.specs.Reading.{found_map, first_at, unpacked};
ghost use Rattle.xor_chunk.specs.Writing.{xor_body};
ghost use Rattle.xor_chunk.specs.declared.fault.XorFault.{XorFault as AFault};

use crate::before::Last;
use crate::chunk_writer::encode;
use crate::decoding::{read_first, read_later, read_second};
use crate::facts::{are_bytes, are_fit};
use crate::fault::XorFault;
use crate::reader::BitReader;
use crate::sample::Sample;
use hw_bytes::be16_at;
use std::alloc::{AllocError, Global};
use std::marker::Model;

/// The samples of a chunk, read one by one. Contracts see how many are left, and what they are read as.
#[derive(Drop)]
pub struct ChunkReader<'a> {
    left: usize,
    last: Last,
    // What is after the last sample: bytes if there are fewer than two, and else bits.
    bytes: &'a [u8],
    bits: BitReader<'a>,
}

impl<'a> Model for ChunkReader<'a> {
    ghost use Rattle.xor_chunk.specs.Private.{IsLastOpen, rest_of};
    ghost use Rattle.xor_chunk.specs.Reading.{ReaderValue};

    ghost Value = { ReaderValue };

    ghost view = { λ r. record { left = r.left; rest = rest_of r.left r.last r.bytes.now r.bits } };

    ghost invariant = { λ r. IsLastOpen r.last };
}

impl<'a> ChunkReader<'a> {
    /// Reads so many samples from what follows their number in a chunk.
    pub fn new(count: usize, body: &'a [u8]) -> ChunkReader<'a>
        ensures left { result.left ≡ count }
        ensures rest { result.rest ≡ first_at count body.now }
        ensures body { (all : List ASample) → length all ≤ 65535 → All IsFit all → count ≡ length all → body.now ≡ xor_body all → result.rest ≡ Ok all }
    {
        ChunkReader {
            left: count,
            last: Last::Nothing,
            bytes: body,
            bits: BitReader::new(&[]),
        }
    }

    // Reads a sample, of which there is one.
    fn read(&mut self) -> Result<Sample, XorFault>
        requires { 0 < self.old.left }
        ensures some { IfOk result (λ sample. self.old.rest ≡ found_map (λ more. sample ∷ more) self.new.rest) }
        ensures fault { IfErr result (λ fault. self.old.rest ≡ Err fault) }
        ensures fewer { OnOk result (self.new.left < self.old.left) }
    {
        match self.last {
            Last::Nothing => {
                let (first, rest) = read_first(self.bytes)?;
                self.left -= 1;
                self.bytes = rest;
                self.last = Last::First(first);
                Ok(first)
            }
            Last::First(first) => {
                let second = read_second(&mut self.bits, first, self.bytes)?;
                self.left -= 1;
                self.last = Last::Later(second);
                Ok(second.sample())
            }
            Last::Later(before) => {
                let next = read_later(&mut self.bits, before)?;
                self.left -= 1;
                self.last = Last::Later(next);
                Ok(next.sample())
            }
        }
    }

    /// Reads the next sample. Returns `None` after the last, and the fault at which the bytes stop being a chunk.
    pub fn next(&mut self) -> Result<Option<Sample>, XorFault>
        ensures some { IfOk result (λ found. IfSome found (λ sample. self.old.rest ≡ found_map (λ more. sample ∷ more) self.new.rest)) }
        ensures none { IfOk result (λ found. IfNone found (self.old.rest ≡ Ok [])) }
        ensures fault { IfErr result (λ fault. self.old.rest ≡ Err fault) }
        ensures fewer { IfOk result (λ found. IfSome found (λ _. self.new.left < self.old.left)) }
    {
        if self.left == 0 {
            return Ok(None);
        }
        Ok(Some(self.read()?))
    }
}

/// Returns how many of the samples that are left are before a time in milliseconds.
pub fn count_before(reader: ChunkReader<'_>, time: i64) -> usize
    ensures { (all : List ASample) → reader.entry.rest ≡ Ok all → result ≡ length (filter (λ s. int_lt s.time time) all) }
{
    let mut reader = reader;
    let mut count = 0;
    while let Ok(Some(sample)) = reader.next() {
        count += usize::from(sample.time < time);
    }
    count
}

// Appends a sample.
fn append(samples: &mut Vec<Sample>, sample: Sample) -> Result<(), AllocError>
    ensures { OnOk result (samples.new.items ≡ samples.old.items ++ sample ∷ []) }
{
    samples.push(sample)?;
    Ok(())
}

// Appends all samples to none.
fn read_all(reader: ChunkReader<'_>, samples: &mut Vec<Sample>) -> Result<(), XorFault>
    requires { samples.old.items ≡ [] }
    ensures found { OnOk result (reader.entry.rest ≡ Ok samples.new.items) }
    ensures fault { IfErr result (λ fault. fault ≢ AFault.Memory → reader.entry.rest ≡ Err fault) }
{
    let mut reader = reader;
    while let Some(sample) = reader.next()? {
        append(samples, sample)?;
    }
    Ok(())
}

/// Replaces the items of `samples` by the samples of a chunk, or returns the fault at which the bytes stop being one; `samples` then holds any.
///
/// Accepts more than the chunks that are written: a number or a window may have more bits than it needs, and what is after the last
/// sample is not read.
pub fn decode_in(bytes: &[u8], samples: &mut Vec<Sample>) -> Result<(), XorFault>
    ensures found { OnOk result (unpacked bytes.now ≡ Ok samples.new.items) }
    ensures fault { IfErr result (λ fault. fault ≢ AFault.Memory → unpacked bytes.now ≡ Err fault) }
    ensures only { (all : List ASample) → All IsFit all → IsXorChunk bytes.now all → OnOk result (samples.new.items ≡ all) }
    ensures bad { IfErr result (λ fault. fault ≢ AFault.Memory → (all : List ASample) → All IsFit all → IsXorChunk bytes.now all → ⊥) }
{
    samples.clear();
    let Some(count) = be16_at(bytes) else {
        return Err(XorFault::TooShort);
    };
    let (_, behind) = bytes.split_at(2);
    read_all(ChunkReader::new(usize::from(count), behind), samples)
}

/// Returns the samples of a chunk, or the fault at which the bytes stop being one.
pub fn decode(alloc: Global, bytes: &[u8]) -> Result<Vec<Sample>, XorFault>
    ensures found { IfOk result (λ samples. unpacked bytes.now ≡ Ok samples.items) }
    ensures fault { IfErr result (λ fault. fault ≢ AFault.Memory → unpacked bytes.now ≡ Err fault) }
    ensures only { (all : List ASample) → All IsFit all → IsXorChunk bytes.now all → IfOk result (λ samples. samples.items ≡ all) }
    ensures bad { IfErr result (λ fault. fault ≢ AFault.Memory → (all : List ASample) → All IsFit all → IsXorChunk bytes.now all → ⊥) }
{
    let mut samples = Vec::new(alloc);
    decode_in(bytes, &mut samples)?;
    Ok(samples)
}

/// Returns the samples of a chunk, or `NotCanonical` if the bytes are read as samples whose chunk they are not, or the fault at which they
/// stop being one.
pub fn decode_exact(alloc: Global, text: &[u8]) -> Result<Vec<Sample>, XorFault>
    ensures found { IfOk result (λ samples. IsXorChunk text.now samples.items × All IsFit samples.items) }
    ensures only { (all : List ASample) → All IsFit all → IsXorChunk text.now all → IfOk result (λ samples. samples.items ≡ all) }
    ensures bad { IfErr result (λ fault. fault ≢ AFault.Memory → (all : List ASample) → All IsFit all → IsXorChunk text.now all → ⊥) }
{
    are_bytes(text);
    let samples = decode(alloc, text)?;
    let read = samples.as_slice();
    are_fit(read);
    let again = encode(alloc, read)?;
    if again.as_slice() != text {
        return Err(XorFault::NotCanonical);
    }
    Ok(samples)
}
