//! Reading meta.json.

ghost use Rattle.std.specs.Prelude.{◌≡◌, ◌<◌, ◌^◌, ℤ, pos, ◌+ℤ◌, List, length, Err, IfOk, IsTrue};
ghost use Rattle.std.specs.List.{AllByRecursion, flat_map};
ghost use Rattle.std.specs.Io.Iter.{u64_saturate};
ghost use Rattle.hw_bytes.specs.Sums.{Text};
ghost use Rattle.head_column.specs.Hours.{IsEdge, hour_start, is_in_hour};
ghost use Rattle.block_files.specs.Meta.{meta_text};
ghost use Rattle.block_read.specs.Blocks.{IsColumn, IsWithin, chunk_count};
ghost use Rattle.block_read.specs.Reading.{AreOfHour, AreWithin, HasMeta, summary};

use crate::fault::PartFault;
use block_files::{Meta, Ulid, ulid_of, write_meta};
use head_column::{CHUNK_SAMPLES, HOUR_LENGTH, Hour, Run, Sample};
use hw_bytes::Items;
use std::alloc::Global;

// The times of an hour that is no edge, in milliseconds.
#[derive(Clone, Copy, Debug)]
struct Span {
    // the first one
    start: i64,
    // the first one after the hour
    end: i64,
}

// Returns the times of an hour.
fn span_of(hour: Hour) -> Span
    requires { IsEdge hour → ⊥ }
    ensures start { result.start ≡ hour_start hour }
    ensures end { result.end ≡ hour_start (hour +ℤ pos 1) }
{
    let k = hour.k();
    Span {
        start: k * HOUR_LENGTH,
        end: (k + 1) * HOUR_LENGTH,
    }
}

// Returns whether a sample is in the hour.
fn has_sample(span: Span, sample: &Sample) -> bool
    ensures sound { (hour : ℤ) → span.start ≡ hour_start hour → span.end ≡ hour_start (hour +ℤ pos 1) → IsTrue result → IsTrue (is_in_hour hour sample.now.time) }
    ensures complete { (hour : ℤ) → span.start ≡ hour_start hour → span.end ≡ hour_start (hour +ℤ pos 1) → IsTrue (is_in_hour hour sample.now.time) → IsTrue result }
{
    span.start <= sample.time && sample.time < span.end
}

// Returns whether a run is not empty and lies in the hour.
fn has_run(span: Span, run: &Run) -> bool
    ensures sound { (hour : ℤ) → span.start ≡ hour_start hour → span.end ≡ hour_start (hour +ℤ pos 1) → IsTrue result → IsWithin hour run.now }
    ensures complete { (hour : ℤ) → span.start ≡ hour_start hour → span.end ≡ hour_start (hour +ℤ pos 1) → IsWithin hour run.now → IsTrue result }
{
    if run.min_time < span.start {
        return false;
    }
    if run.max_time < run.min_time {
        return false;
    }
    run.max_time < span.end
}

// Returns whether all samples are in the hour.
fn has_samples(span: Span, samples: &[Sample]) -> bool
    ensures sound { (hour : ℤ) → span.start ≡ hour_start hour → span.end ≡ hour_start (hour +ℤ pos 1) → IsTrue result → AreOfHour hour samples.now }
    ensures complete { (hour : ℤ) → span.start ≡ hour_start hour → span.end ≡ hour_start (hour +ℤ pos 1) → AreOfHour hour samples.now → IsTrue result }
{
    for sample in samples {
        if !has_sample(span, sample) {
            return false;
        }
    }
    true
}

// Returns whether all runs are not empty and lie in the hour.
fn has_runs(span: Span, runs: &[Run]) -> bool
    ensures sound { (hour : ℤ) → span.start ≡ hour_start hour → span.end ≡ hour_start (hour +ℤ pos 1) → IsTrue result → AreWithin hour runs.now }
    ensures complete { (hour : ℤ) → span.start ≡ hour_start hour → span.end ≡ hour_start (hour +ℤ pos 1) → AreWithin hour runs.now → IsTrue result }
{
    for run in runs {
        if !has_run(span, run) {
            return false;
        }
    }
    true
}

// Returns whether the samples and runs of all rows lie in the hour.
fn has_rows(span: Span, samples: &[Items<Sample>], hidden: &[Items<Run>]) -> bool
    ensures sound { (hour : ℤ) → span.start ≡ hour_start hour → span.end ≡ hour_start (hour +ℤ pos 1) → IsTrue result →
        AllByRecursion (AreOfHour hour) samples.now × AllByRecursion (AreWithin hour) hidden.now }
    ensures complete { (hour : ℤ) → span.start ≡ hour_start hour → span.end ≡ hour_start (hour +ℤ pos 1) →
        AllByRecursion (AreOfHour hour) samples.now → AllByRecursion (AreWithin hour) hidden.now → IsTrue result }
{
    for row in samples {
        if !has_samples(span, row.as_slice()) {
            return false;
        }
    }
    for runs in hidden {
        if !has_runs(span, runs.as_slice()) {
            return false;
        }
    }
    true
}

// Counts the samples and the chunks. A count that exceeds 64 bits, which no block has, saturates.
fn counts_of(samples: &[Items<Sample>]) -> (u64, u64)
    ensures samples { result.0 ≡ u64_saturate (length (flat_map (λ s. s) samples.now)) }
    ensures chunks { result.1 ≡ u64_saturate (chunk_count samples.now) }
{
    let mut count = 0u64;
    let mut chunks = 0u64;
    for row in samples {
        let parts = row.len().div_ceil(CHUNK_SAMPLES);
        count = count.saturating_add(row.len() as u64);
        chunks = chunks.saturating_add(parts as u64);
    }
    (count, chunks)
}

// Returns the hour of the first sample.
fn hour_of(samples: &[Items<Sample>]) -> Hour
    requires some { 0 < length samples.now }
    requires each { AllByRecursion IsColumn samples.now }
    ensures { (hour : ℤ) → AllByRecursion (AreOfHour hour) samples.now → result ≡ hour }
{
    let row = samples[0].as_slice();
    Hour::of(row[0].time)
}

// Writes the meta.json of a block with these samples.
fn describe(
    alloc: Global,
    ulid: Ulid,
    hour: Hour,
    samples: &[Items<Sample>],
) -> Result<Vec<u8>, PartFault>
    requires whole { IsEdge hour → ⊥ }
    requires few_samples { length (flat_map (λ s. s) samples.now) < 2 ^ 64 }
    requires few_chunks { chunk_count samples.now < 2 ^ 64 }
    ensures text { IfOk result (λ text. text.items ≡ meta_text (summary ulid hour samples.now)) }
    ensures fault { result ≡ Err PartFault.Bad → ⊥ }
{
    let span = span_of(hour);
    let (count, chunks) = counts_of(samples);
    let meta = Meta {
        ulid,
        min_time: span.start,
        max_time: span.end,
        samples: count,
        series: samples.len() as u64,
        chunks,
    };
    let text = write_meta(alloc, &meta)?;
    Ok(text)
}

// Reads the name and the hour of a block whose rows have these samples and runs.
pub(crate) fn read_meta(
    alloc: Global,
    bytes: &[u8],
    samples: &[Items<Sample>],
    hidden: &[Items<Run>],
) -> Result<(Ulid, Hour), PartFault>
    requires some { 0 < length samples.now }
    requires each { AllByRecursion IsColumn samples.now }
    requires few_samples { length (flat_map (λ s. s) samples.now) < 2 ^ 64 }
    requires few_chunks { chunk_count samples.now < 2 ^ 64 }
    ensures found { IfOk result (λ read. HasMeta bytes.now samples.now hidden.now read.0 read.1) }
    ensures only { (ulid : Text) (hour : ℤ) → HasMeta bytes.now samples.now hidden.now ulid hour → IfOk result (λ read. (read.0 ≡ ulid) × (read.1 ≡ hour)) }
    ensures bad { result ≡ Err PartFault.Bad → (ulid : Text) (hour : ℤ) → HasMeta bytes.now samples.now hidden.now ulid hour → ⊥ }
{
    let hour = hour_of(samples);
    if hour.is_edge() {
        return Err(PartFault::Bad);
    }
    if !has_rows(span_of(hour), samples, hidden) {
        return Err(PartFault::Bad);
    }
    let Some(ulid) = ulid_of(bytes) else {
        return Err(PartFault::Bad);
    };
    let text = describe(alloc, ulid, hour, samples)?;
    if text.as_slice() != bytes {
        return Err(PartFault::Bad);
    }
    Ok((ulid, hour))
}
