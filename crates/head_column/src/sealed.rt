//! Sealed chunks, and the open one behind them.

ghost use Rattle.std.specs.Prelude.{◌≡◌, ◌≢◌, ◌+◌, ◌<◌, ◌≤◌, ◌∷◌, ◌++◌, [], ℕ, ℤ, List, Ok, Option, Some, IsOk, OnErr, OnOk, All, drop, filter, int_lt, length, take, true, false, if◌then◌else◌};
ghost use Rattle.xor_chunk.specs.declared.sample.Sample.{Sample as ASample};
ghost use Rattle.head_column.specs.Chunks.{IsFit, chunk_samples, last_time};
ghost use Rattle.head_column.specs.Hours.{is_in_hour};
ghost use Rattle.head_column.specs.Stored.{AreCut, AreInHour, AreSealed, AreStored, IsKept, IsLate, IsMore, IsSameHour, IsSealed, chunk_room, first_hour, first_part, most_chunks, sealed_samples, stored, text_len};
ghost use Rattle.head_column.specs.Times.{reaches};
ghost use Rattle.head_column.specs.Validity.{samples_before};
ghost use Rattle.head_column.specs.declared.sealed.SealedChunk.{SealedChunk as ASealedChunk};

use crate::Sample;
use crate::chunk::CHUNK_SAMPLES;
use crate::hour::Hour;
use std::alloc::{AllocError, Global};
use xor_chunk::{ChunkReader, ChunkWriter, count_before};

// The greatest number of sealed chunks, so that the number of samples is a `usize`.
pub(crate) const MOST_CHUNKS: usize = 1 << 56;

/// A chunk that takes no more samples: it is full, or a sample of another hour has come.
#[derive(Clone, Copy, Debug)]
pub(crate) struct SealedChunk {
    // The length of its text in bytes, without the number of its samples.
    pub(crate) len: usize,
    pub(crate) count: usize,
    // The time of its last sample.
    pub(crate) max_time: i64,
}

// Appends the samples that are left.
pub(crate) fn append_samples(
    reader: ChunkReader<'_>,
    samples: &mut Vec<Sample>,
) -> Result<(), AllocError>
    ensures { (all : List ASample) → reader.entry.rest ≡ Ok all → OnOk result (samples.new.items ≡ samples.old.items ++ all) }
{
    let mut reader = reader;
    while let Ok(Some(sample)) = reader.next() {
        samples.push(sample)?;
    }
    Ok(())
}

// Appends the samples of a sealed chunk, of which this is the text.
pub(crate) fn append_chunk(
    chunk: SealedChunk,
    text: &[u8],
    samples: &mut Vec<Sample>,
) -> Result<(), AllocError>
    ensures { (part : List ASample) → IsSealed chunk text.now part → OnOk result (samples.new.items ≡ samples.old.items ++ part) }
{
    append_samples(ChunkReader::new(chunk.count, text), samples)
}

// Appends the samples of a sealed chunk, of which this is the text, if they are of the hour.
pub(crate) fn append_chunk_in(
    hour: Hour,
    chunk: SealedChunk,
    text: &[u8],
    samples: &mut Vec<Sample>,
) -> Result<(), AllocError>
    ensures some { (part : List ASample) → IsSealed chunk text.now part → OnOk result (samples.new.items ≡ samples.old.items ++ filter (λ s. is_in_hour hour s.time) part) }
    ensures none { (part : List ASample) → IsSealed chunk text.now part → filter (λ s. is_in_hour hour s.time) part ≡ [] → IsOk result }
{
    if !is_in(hour, chunk.max_time) {
        return Ok(());
    }
    append_chunk(chunk, text, samples)
}

// Appends the samples of the open chunk.
pub(crate) fn append_open(writer: &ChunkWriter, samples: &mut Vec<Sample>) -> Result<(), AllocError>
    requires few { length writer.now.samples ≤ chunk_samples }
    requires fit { All IsFit writer.now.samples }
    ensures { OnOk result (samples.new.items ≡ samples.old.items ++ writer.now.samples) }
{
    if writer.len() == 0 {
        return Ok(());
    }
    let mut text = Vec::new(*samples.allocator());
    writer.copy_chunk(&mut text)?;
    append_samples(ChunkReader::new(writer.len(), &text), samples)
}

// Returns whether the time is in the hour.
pub(crate) fn is_in(hour: Hour, time: i64) -> bool
    ensures { result ≡ is_in_hour hour time }
{
    Hour::of(time) == hour
}

// Returns whether a sample at the time begins a chunk behind the open one, which has samples, the last one at `latest`: it is full, or its
// hour is over.
pub(crate) fn is_over(writer: &ChunkWriter, latest: i64, time: i64) -> bool
    ensures over { result ≡ true → 0 < length writer.now.samples }
    ensures open { result ≡ false → 0 < length writer.now.samples → (length writer.now.samples ≢ chunk_samples) × IsSameHour time latest }
{
    let count = writer.len();
    count > 0 && (count == CHUNK_SAMPLES || !is_in(Hour::of(latest), time))
}

// Returns whether the open chunk has samples, and they are of the hour.
pub(crate) fn is_open_in(writer: &ChunkWriter, latest: Option<i64>, hour: Hour) -> bool
    requires { 0 < length writer.now.samples → latest ≡ Some (last_time writer.now.samples) }
    ensures some { 0 < length writer.now.samples → result ≡ is_in_hour hour (last_time writer.now.samples) }
    ensures none { writer.now.samples ≡ [] → result ≡ false }
{
    match latest {
        Some(latest) => writer.len() > 0 && is_in(hour, latest),
        None => false,
    }
}

// Returns whether the samples of the first chunk are of the hour.
fn is_first_in(
    writer: &ChunkWriter,
    sealed: &[SealedChunk],
    latest: Option<i64>,
    hour: Hour,
) -> bool
    requires { 0 < length writer.now.samples → latest ≡ Some (last_time writer.now.samples) }
    ensures sealed { 0 < length sealed.now → result ≡ is_in_hour hour (first_hour sealed.now writer.now) }
    ensures open { 0 < length writer.now.samples → result ≡ is_in_hour hour (first_hour sealed.now writer.now) }
{
    match sealed.first() {
        Some(chunk) => is_in(hour, chunk.max_time),
        None => is_open_in(writer, latest, hour),
    }
}

// Appends the samples of the open chunk, if they are of the hour.
pub(crate) fn append_open_in(
    hour: Hour,
    writer: &ChunkWriter,
    latest: Option<i64>,
    samples: &mut Vec<Sample>,
) -> Result<(), AllocError>
    requires few { length writer.now.samples ≤ chunk_samples }
    requires fit { All IsFit writer.now.samples }
    requires hour { AreInHour (last_time writer.now.samples) writer.now.samples }
    requires latest { 0 < length writer.now.samples → latest ≡ Some (last_time writer.now.samples) }
    ensures some { OnOk result (samples.new.items ≡ samples.old.items ++ filter (λ s. is_in_hour hour s.time) writer.now.samples) }
    ensures none { filter (λ s. is_in_hour hour s.time) writer.now.samples ≡ [] → IsOk result }
{
    if !is_open_in(writer, latest, hour) {
        return Ok(());
    }
    append_open(writer, samples)
}

// Returns how many samples of the hour are dropped, where so many of the first chunk are.
pub(crate) fn dropped_in(
    writer: &ChunkWriter,
    sealed: &[SealedChunk],
    latest: Option<i64>,
    dropped: usize,
    hour: Hour,
) -> usize
    requires latest { 0 < length writer.now.samples → latest ≡ Some (last_time writer.now.samples) }
    requires kept { IsKept sealed.now writer.now.samples dropped }
    ensures { result ≡ (if is_in_hour hour (first_hour sealed.now writer.now) then dropped else 0) }
{
    if is_first_in(writer, sealed, latest, hour) {
        return dropped;
    }
    0
}

// Puts the open chunk, which has samples, the last one at `max_time`, among the sealed ones. Returns an error if out of memory; nothing has
// changed then.
pub(crate) fn seal(
    writer: &mut ChunkWriter,
    sealed: &mut Vec<SealedChunk>,
    max_time: i64,
) -> Result<(), AllocError>
    requires sealed { AreSealed sealed.old.items writer.old.front }
    requires some { 0 < length writer.old.samples }
    requires few { length writer.old.samples ≤ chunk_samples }
    requires fit { All IsFit writer.old.samples }
    requires last { max_time ≡ last_time writer.old.samples }
    requires hour { AreInHour max_time writer.old.samples }
    ensures sealed { OnOk result (AreSealed sealed.new.items writer.new.front) }
    ensures stored { OnOk result (sealed_samples sealed.new.items writer.new.front ≡ stored sealed.old.items writer.old) }
    ensures more { OnOk result (IsMore sealed.old.items sealed.new.items (length writer.old.samples)) }
    ensures none { OnOk result (writer.new.samples ≡ []) }
    ensures most { OnOk result (length sealed.new.items ≤ most_chunks) }
    ensures kept { OnErr result ((writer.new ≡ writer.old) × (sealed.new.items ≡ sealed.old.items)) }
    ensures room { 0 < chunk_room sealed.old → IsOk result }
    ensures spare { chunk_room sealed.old ≤ chunk_room sealed.new + 1 }
    ensures writer { writer.old.room ≤ writer.new.room }
{
    if sealed.len() >= MOST_CHUNKS {
        return Err(AllocError);
    }
    sealed.reserve(1)?;
    let start = writer.front().len();
    let count = writer.len();
    writer.end_chunk();
    sealed.push_reserved(SealedChunk {
        len: writer.front().len() - start,
        count,
        max_time,
    });
    Ok(())
}

// Puts the open chunk among the sealed ones, if a sample at the time begins another. Returns an error if out of memory; nothing has changed
// then.
pub(crate) fn make_place(
    writer: &mut ChunkWriter,
    sealed: &mut Vec<SealedChunk>,
    latest: Option<i64>,
    time: i64,
) -> Result<(), AllocError>
    requires sealed { AreSealed sealed.old.items writer.old.front }
    requires few { length writer.old.samples ≤ chunk_samples }
    requires fit { All IsFit writer.old.samples }
    requires hour { AreInHour (last_time writer.old.samples) writer.old.samples }
    requires latest { 0 < length writer.old.samples → latest ≡ Some (last_time writer.old.samples) }
    ensures stored { OnOk result (stored sealed.new.items writer.new ≡ stored sealed.old.items writer.old) }
    ensures are { (d : ℕ) (g : Option ℤ) → AreStored sealed.old.items writer.old d g → OnOk result (AreStored sealed.new.items writer.new d g) }
    ensures place { OnOk result (length writer.new.samples < chunk_samples) }
    ensures same { OnOk result (0 < length writer.new.samples → IsSameHour time (last_time writer.new.samples)) }
    ensures kept { OnErr result ((writer.new ≡ writer.old) × (sealed.new.items ≡ sealed.old.items)) }
    ensures room { 0 < chunk_room sealed.old → IsOk result }
    ensures spare { chunk_room sealed.old ≤ chunk_room sealed.new + 1 }
    ensures writer { writer.old.room ≤ writer.new.room }
{
    let Some(latest) = latest else {
        return Ok(());
    };
    if !is_over(writer, latest, time) {
        return Ok(());
    }
    seal(writer, sealed, latest)
}

// Returns how many of the chunks are over before the time, and how long their texts are in all.
pub(crate) fn chunks_before(sealed: &[SealedChunk], bytes: &[u8], time: i64) -> (usize, usize)
    requires { AreSealed sealed.now bytes.now }
    ensures within { result.0 ≤ length sealed.now }
    ensures len { result.1 ≡ text_len (take result.0 sealed.now) }
    ensures over { All (λ c. int_lt c.max_time time ≡ true) (take result.0 sealed.now) }
    ensures other { (c : ASealedChunk) (more : List ASealedChunk) → drop result.0 sealed.now ≡ c ∷ more → int_lt c.max_time time ≡ false }
{
    let mut count = 0;
    let mut len = 0;
    while count < sealed.len() && sealed[count].max_time < time {
        len += sealed[count].len;
        count += 1;
    }
    (count, len)
}

// Drops the first chunks.
fn drop_first(sealed: &mut Vec<SealedChunk>, count: usize)
    requires { count ≤ length sealed.old.items }
    ensures items { sealed.new.items ≡ drop count sealed.old.items }
    ensures spare { chunk_room sealed.old ≤ chunk_room sealed.new }
{
    sealed.drain(..count);
}

// Drops the chunks that are over before the time. Returns how many samples of the first chunk are dropped then.
pub(crate) fn drop_chunks(
    writer: &mut ChunkWriter,
    sealed: &mut Vec<SealedChunk>,
    dropped: usize,
    time: i64,
) -> usize
    requires { AreSealed sealed.old.items writer.old.front }
    ensures cut { (g : Option ℤ) → AreStored sealed.old.items writer.old dropped g → reaches g time ≡ true → AreCut time sealed.old.items sealed.new.items writer.old writer.new dropped result g }
    ensures late { IsLate time sealed.new.items }
    ensures are { AreSealed sealed.new.items writer.new.front }
    ensures spare { chunk_room sealed.old ≤ chunk_room sealed.new }
    ensures writer { writer.old.room ≤ writer.new.room }
{
    let (chunks, len) = chunks_before(sealed, writer.front(), time);
    if chunks == 0 {
        return dropped;
    }
    drop_first(sealed, chunks);
    writer.drop_front(len);
    0
}

// Returns how many samples of the first chunk are before the time.
pub(crate) fn first_before(writer: &mut ChunkWriter, sealed: &[SealedChunk], time: i64) -> usize
    requires { AreSealed sealed.now writer.old.front }
    ensures writer { writer.new ≡ writer.old }
    ensures count { result ≡ length (samples_before time (first_part sealed.now writer.old)) }
{
    let Some(chunk) = sealed.first() else {
        return writer.count_before(time);
    };
    let (text, _) = writer.front().split_at(chunk.len);
    count_before(ChunkReader::new(chunk.count, text), time)
}
