//! Chunks, written sample by sample.

ghost use Rattle.std.specs.Prelude.{◌≡◌, ◌<◌, ◌≤◌, ◌+◌, ◌++◌, [], ◌∷◌, OnOk, OnErr, IfOk, IsOk, drop, filter, int_lt, length};
ghost use Rattle.xor_chunk.specs.Chunks.{xor_text};
ghost use Rattle.xor_chunk.specs.Writing.{xor_body};

use crate::before::Last;
use crate::encoding::put_sample;
use crate::sample::Sample;
use crate::writer::BitWriter;
use hw_bytes::put_be16;
use std::alloc::{AllocError, Global};
use std::marker::Model;

// How many bits a sample takes at most, with the end of the chunk.
const MOST_BITS: usize = 192;

// For how many samples memory is allocated at most.
const MOST_SAMPLES: usize = 1 << 50;

/// Chunks behind one another, the last of which is open: samples can be appended to it. The number of samples of a chunk, which its first
/// two bytes say, is not written. Contracts see the bytes before the open chunk, its samples, and how many more samples are taken without
/// allocating.
#[derive(Debug, Drop)]
pub struct ChunkWriter {
    bits: BitWriter,
    last: Last,
    // Whether the last number that was written has whole bytes.
    whole: bool,
    count: usize,
}

impl Model for ChunkWriter {
    ghost use Rattle.std.specs.Prelude.{◌-◌, ◌/◌, ◌≤◌};
    ghost use Rattle.xor_chunk.specs.Private.{IsWritten, ending, most_bits, read_of};
    ghost use Rattle.xor_chunk.specs.Writing.{WriterValue};

    ghost Value = { WriterValue };

    ghost view = { λ w. record {
      front = w.bits.front;
      samples = read_of w.count w.bits.bits;
      room = (w.bits.room - ending w.count) / most_bits;
    } };

    ghost invariant = { λ w. IsWritten (read_of w.count w.bits.bits) w.bits.bits w.count w.whole w.last × (ending w.count ≤ w.bits.room) };
}

impl ChunkWriter {
    /// Begins a chunk behind these bytes.
    pub fn behind(bytes: Vec<u8>) -> ChunkWriter
        ensures front { result.front ≡ bytes.items }
        ensures none { result.samples ≡ [] }
    {
        ChunkWriter {
            bits: BitWriter::behind(bytes),
            last: Last::Nothing,
            whole: false,
            count: 0,
        }
    }

    /// Returns the number of samples of the open chunk.
    pub fn len(&self) -> usize
        ensures { result ≡ length self.now.samples }
    {
        self.count
    }

    /// Borrows the bytes before the open chunk.
    pub fn front(&self) -> &[u8]
        ensures { result.now ≡ self.now.front }
    {
        self.bits.front()
    }

    /// Appends a sample to the open chunk, which has fewer than 65,535. Returns an error if out of memory, only if there is no room; nothing
    /// has changed then.
    pub fn push(&mut self, sample: Sample) -> Result<(), AllocError>
        requires { length self.old.samples < 65535 }
        ensures pushed { OnOk result (self.new.samples ≡ self.old.samples ++ sample ∷ []) }
        ensures refused { OnErr result (self.new.samples ≡ self.old.samples) }
        ensures front { self.new.front ≡ self.old.front }
        ensures room { 0 < self.old.room → IsOk result }
        ensures spare { self.old.room ≤ self.new.room + 1 }
    {
        self.bits.reserve(MOST_BITS)?;
        (self.last, self.whole) = put_sample(&mut self.bits, self.last, sample);
        self.count += 1;
        Ok(())
    }

    /// Allocates memory for this many more samples. Returns an error if out of memory. In both cases the samples are unchanged, and the room
    /// is not less than before.
    pub fn reserve(&mut self, samples: usize) -> Result<(), AllocError>
        ensures samples { self.new.samples ≡ self.old.samples }
        ensures front { self.new.front ≡ self.old.front }
        ensures room { OnOk result (samples ≤ self.new.room) }
        ensures spare { self.old.room ≤ self.new.room }
    {
        if samples > MOST_SAMPLES {
            return Err(AllocError);
        }
        self.bits.reserve(samples * MOST_BITS + 8)
    }

    /// Drops the first bytes of those before the open chunk. Allocates nothing.
    pub fn drop_front(&mut self, len: usize)
        requires { len ≤ length self.old.front }
        ensures front { self.new.front ≡ drop len self.old.front }
        ensures samples { self.new.samples ≡ self.old.samples }
        ensures spare { self.old.room ≤ self.new.room }
    {
        self.bits.drop_front(len);
    }

    /// Drops the samples of the open chunk. Allocates nothing.
    pub fn clear_chunk(&mut self)
        ensures front { self.new.front ≡ self.old.front }
        ensures none { self.new.samples ≡ [] }
        ensures spare { self.old.room ≤ self.new.room }
    {
        self.bits.clear();
        self.last = Last::Nothing;
        self.whole = false;
        self.count = 0;
    }

    /// Returns how many samples of the open chunk are before a time in milliseconds. Allocates nothing.
    pub fn count_before(&mut self, time: i64) -> usize
        ensures same { self.new ≡ self.old }
        ensures count { result ≡ length (filter (λ s. int_lt s.time time) self.old.samples) }
    {
        if self.count == 0 {
            return 0;
        }
        self.bits.count_before(self.whole, self.count, time)
    }

    /// Ends the open chunk, which has samples, and begins another behind it. Allocates nothing.
    pub fn end_chunk(&mut self)
        requires { 0 < length self.old.samples }
        ensures front { self.new.front ≡ self.old.front ++ xor_body self.old.samples }
        ensures none { self.new.samples ≡ [] }
        ensures spare { self.old.room ≤ self.new.room }
    {
        self.bits.end(self.whole);
        self.last = Last::Nothing;
        self.whole = false;
        self.count = 0;
    }

    /// Appends the open chunk to other bytes, without the number of its samples. Returns an error if out of memory.
    pub fn copy_chunk(&self, bytes: &mut Vec<u8>) -> Result<(), AllocError>
        requires { 0 < length self.now.samples }
        ensures { OnOk result (bytes.new.items ≡ bytes.old.items ++ xor_body self.now.samples) }
    {
        self.bits.copy_ended(self.whole, bytes)
    }

    /// Returns the bytes before the open chunk, which is lost.
    pub fn into_front(self) -> Vec<u8>
        ensures { result.items ≡ self.front }
    {
        let ChunkWriter {
            bits,
            last: _,
            whole: _,
            count: _,
        } = self;
        bits.into_front()
    }
}

// Returns the writer with these samples in its open chunk, which had none.
fn with_all(writer: ChunkWriter, samples: &[Sample]) -> Result<ChunkWriter, AllocError>
    requires few { length samples.now ≤ 65535 }
    requires none { writer.samples ≡ [] }
    ensures front { IfOk result (λ all. all.front ≡ writer.front) }
    ensures samples { IfOk result (λ all. all.samples ≡ samples.now) }
{
    let mut all = writer;
    for sample in samples {
        all.push(*sample)?;
    }
    Ok(all)
}

/// Returns the chunk of at most 65,535 samples, in the memory of `room`, whose bytes are lost. Returns an error if memory runs out.
pub fn encode_in(room: Vec<u8>, samples: &[Sample]) -> Result<Vec<u8>, AllocError>
    requires { length samples.now ≤ 65535 }
    ensures { IfOk result (λ text. text.items ≡ xor_text samples.now) }
{
    let mut bytes = room;
    bytes.clear();
    put_be16(&mut bytes, samples.len() as u16)?;
    if samples.is_empty() {
        return Ok(bytes);
    }
    let mut writer = with_all(ChunkWriter::behind(bytes), samples)?;
    writer.end_chunk();
    Ok(writer.into_front())
}

/// Returns the chunk of at most 65,535 samples. Returns an error if memory runs out.
pub fn encode(alloc: Global, samples: &[Sample]) -> Result<Vec<u8>, AllocError>
    requires { length samples.now ≤ 65535 }
    ensures { IfOk result (λ text. text.items ≡ xor_text samples.now) }
{
    encode_in(Vec::new(alloc), samples)
}
