//! The samples of a column, in chunks as a server's blocks have them.

ghost use Rattle.std.specs.Prelude.{◌≡◌, ◌+◌, ◌<◌, ◌≤◌, ◌∷◌, ◌++◌, [], Ok, Option, Some, IfOk, IfSome, IsOk, OnErr, OnOk, drop, filter, length};
ghost use Rattle.head_column.specs.Chunks.{IsFit};
ghost use Rattle.head_column.specs.Histories.{latest as latest_of};
ghost use Rattle.head_column.specs.Hours.{is_in_hour};
ghost use Rattle.head_column.specs.Samples.{Rises};
ghost use Rattle.head_column.specs.Stored.{AreCopies, AreStored, chunk_room, stored};
ghost use Rattle.head_column.specs.Times.{reaches};
ghost use Rattle.head_column.specs.Validity.{samples_from};

use crate::Sample;
use crate::chunk::Chunk;
use crate::copying::{copy_open_in, copy_sealed_in};
use crate::hour::Hour;
use crate::sealed::{
    MOST_CHUNKS, SealedChunk, append_chunk, append_chunk_in, append_open, append_open_in,
    drop_chunks, dropped_in, first_before, make_place,
};
use crate::times::reaches;
use std::alloc::{AllocError, Global};
use std::marker::Model;
use xor_chunk::ChunkWriter;

// Drops the first samples.
fn drop_samples(samples: &mut Vec<Sample>, count: usize)
    requires { count ≤ length samples.old.items }
    ensures { samples.new.items ≡ drop count samples.old.items }
{
    samples.drain(..count);
}

/// Samples in the order of their times, in chunks of one hour and at most 120 samples. Contracts see the samples, and `room`, for how many
/// more there is memory.
#[derive(Debug, Drop)]
pub(crate) struct SampleChunks {
    // The texts of the sealed chunks, and the open one.
    writer: ChunkWriter,
    latest: Option<i64>,
    sealed: Vec<SealedChunk>,
    // How many of the first samples are dropped: fewer than the first chunk has.
    dropped: usize,
}

impl Model for SampleChunks {
    ghost use Rattle.std.specs.Prelude.{drop, min};
    ghost use Rattle.head_column.specs.Stored.{AreStored, StoredValue, chunk_room, stored};

    ghost Value = { StoredValue };

    ghost view = { λ c. record {
      samples = drop c.dropped (stored c.sealed.items c.writer);
      room = min c.writer.room (chunk_room c.sealed);
    } };

    ghost invariant = { λ c. AreStored c.sealed.items c.writer c.dropped c.latest };
}

impl SampleChunks {
    /// Makes chunks without samples.
    pub(crate) fn new(alloc: Global) -> SampleChunks
        ensures { result.samples ≡ [] }
    {
        SampleChunks {
            writer: ChunkWriter::behind(Vec::new(alloc)),
            latest: None,
            sealed: Vec::new(alloc),
            dropped: 0,
        }
    }

    /// Returns the allocator of the chunks.
    pub(crate) fn alloc(&self) -> Global {
        *self.sealed.allocator()
    }

    /// Returns the greatest time of the samples, in milliseconds. `None` if there are none.
    pub(crate) fn latest(&self) -> Option<i64>
        ensures latest { result ≡ latest_of self.now.samples }
        ensures rises { Rises self.now.samples }
    {
        self.latest
    }

    /// Returns the number of samples. Takes a step for each chunk.
    pub(crate) fn len(&self) -> usize
        ensures { result ≡ length self.now.samples }
    {
        let mut count = self.writer.len();
        for chunk in &self.sealed {
            count += chunk.count;
        }
        count - self.dropped
    }
    /// Copies the samples. Returns an error if out of memory.
    pub(crate) fn to_vec(&self) -> Result<Vec<Sample>, AllocError>
        ensures samples { IfOk result (λ samples. samples.items ≡ self.now.samples) }
        ensures none { self.now.samples ≡ [] → IsOk result }
    {
        let len = self.len();
        if len == 0 {
            return Ok(Vec::new(self.alloc()));
        }
        let mut samples = Vec::with_capacity(self.alloc(), len)?;
        let mut rest = self.writer.front();
        for chunk in &self.sealed {
            let (text, behind) = rest.split_at(chunk.len);
            append_chunk(*chunk, text, &mut samples)?;
            rest = behind;
        }
        append_open(&self.writer, &mut samples)?;
        drop_samples(&mut samples, self.dropped);
        Ok(samples)
    }

    /// Copies the samples of an hour. Returns an error if out of memory, only if there are any.
    pub(crate) fn samples_in(&self, hour: Hour) -> Result<Vec<Sample>, AllocError>
        ensures samples { IfOk result (λ samples. samples.items ≡ filter (λ s. is_in_hour hour s.time) self.now.samples) }
        ensures none { filter (λ s. is_in_hour hour s.time) self.now.samples ≡ [] → IsOk result }
    {
        let mut samples = Vec::new(self.alloc());
        let mut rest = self.writer.front();
        for chunk in &self.sealed {
            let (text, behind) = rest.split_at(chunk.len);
            append_chunk_in(hour, *chunk, text, &mut samples)?;
            rest = behind;
        }
        append_open_in(hour, &self.writer, self.latest, &mut samples)?;
        let gone = dropped_in(&self.writer, &self.sealed, self.latest, self.dropped, hour);
        drop_samples(&mut samples, gone);
        Ok(samples)
    }

    /// Copies the chunks of an hour. Returns `None` if some samples of one are dropped. Returns an error if out of memory, only if there are
    /// samples in the hour.
    pub(crate) fn copy_chunks(&self, hour: Hour) -> Result<Option<Vec<Chunk>>, AllocError>
        ensures copies { IfOk result (λ found. IfSome found (λ chunks. AreCopies hour self.now.samples chunks.items)) }
        ensures none { filter (λ s. is_in_hour hour s.time) self.now.samples ≡ [] → IsOk result }
    {
        if dropped_in(&self.writer, &self.sealed, self.latest, self.dropped, hour) > 0 {
            return Ok(None);
        }
        let mut chunks = Vec::new(self.alloc());
        let mut rest = self.writer.front();
        for chunk in &self.sealed {
            let (text, behind) = rest.split_at(chunk.len);
            copy_sealed_in(hour, *chunk, text, &mut chunks)?;
            rest = behind;
        }
        copy_open_in(hour, &self.writer, self.latest, &mut chunks)?;
        Ok(Some(chunks))
    }

    /// Appends a sample, which is later than all. Returns an error if out of memory, only if there is no room; the samples are then
    /// unchanged.
    pub(crate) fn push(&mut self, sample: Sample) -> Result<(), AllocError>
        requires rises { Rises (self.old.samples ++ sample ∷ []) }
        requires fit { IsFit sample }
        ensures pushed { OnOk result (self.new.samples ≡ self.old.samples ++ sample ∷ []) }
        ensures refused { OnErr result (self.new.samples ≡ self.old.samples) }
        ensures room { 0 < self.old.room → IsOk result }
        ensures spare { self.old.room ≤ self.new.room + 1 }
    {
        make_place(&mut self.writer, &mut self.sealed, self.latest, sample.time)?;
        self.writer.push(sample)?;
        self.latest = Some(sample.time);
        Ok(())
    }

    /// Allocates memory for this many more samples. Returns an error if out of memory. In both cases the samples are unchanged, and
    /// `room` is not less than before.
    pub(crate) fn reserve(&mut self, samples: usize) -> Result<(), AllocError>
        ensures samples { self.new.samples ≡ self.old.samples }
        ensures room { OnOk result (samples ≤ self.new.room) }
        ensures spare { self.old.room ≤ self.new.room }
    {
        if samples > MOST_CHUNKS - self.sealed.len() {
            return Err(AllocError);
        }
        self.sealed.reserve(samples)?;
        self.writer.reserve(samples)
    }

    /// Drops the samples before the time. Allocates nothing, and `room` is not less than before.
    pub(crate) fn drop_before(&mut self, time: i64)
        ensures samples { self.new.samples ≡ samples_from time self.old.samples }
        ensures spare { self.old.room ≤ self.new.room }
    {
        if !reaches(self.latest, time) {
            self.clear();
            return;
        }
        self.dropped = drop_chunks(&mut self.writer, &mut self.sealed, self.dropped, time);
        let before = first_before(&mut self.writer, &self.sealed, time);
        self.dropped = self.dropped.max(before);
    }

    // Drops all samples.
    fn clear(&mut self)
        ensures samples { self.new.samples ≡ [] }
        ensures spare { self.old.room ≤ self.new.room }
    {
        let len = self.writer.front().len();
        self.writer.drop_front(len);
        self.writer.clear_chunk();
        self.sealed.clear();
        self.dropped = 0;
        self.latest = None;
    }
}
