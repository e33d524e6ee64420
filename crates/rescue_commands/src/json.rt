//! The document that `rescue` prints with `--json`.

use crate::lost::{LostRange, kind_of, records_of, stretch_of, word_of};
use crate::report::Rescued;
use crate::told::{HourBlock, samples_of};
use log_directory::{FileRead, LostPart, lost_count};
use serde_json::{Map, Value, put};
use std::alloc::{AllocError, Global};

// Returns a number, or `null`.
fn number_value(number: Option<u64>) -> Value {
    match number {
        Some(number) => Value::from(number),
        None => Value::Null,
    }
}

// Adds where a part is, or `null` for each if the whole file is missing.
fn put_stretch(
    members: &mut Map<String, Value>,
    alloc: Global,
    part: &LostPart,
) -> Result<(), AllocError> {
    let (offset, bytes) = match stretch_of(part) {
        Some(LostRange { offset, bytes }) => (Some(offset), Some(bytes)),
        None => (None, None),
    };
    put(members, alloc, "offset", number_value(offset))?;
    put(members, alloc, "bytes", number_value(bytes))
}

// Adds why a part is lost, or `null` if the whole file is missing.
fn put_reason(
    members: &mut Map<String, Value>,
    alloc: Global,
    part: &LostPart,
) -> Result<(), AllocError> {
    let why = match part {
        LostPart::Missing => Value::Null,
        _ => Value::from(part.reason(alloc)?),
    };
    put(members, alloc, "why", why)
}

// Adds the members of a part that is lost.
fn put_lost(
    members: &mut Map<String, Value>,
    alloc: Global,
    part: &LostPart,
) -> Result<(), AllocError> {
    let what = Value::try_from_str(alloc, word_of(part))?;
    put(members, alloc, "what", what)?;
    put_stretch(members, alloc, part)?;
    put_reason(members, alloc, part)
}

fn lost_value(alloc: Global, part: &LostPart) -> Result<Value, AllocError> {
    let mut members = Map::new(alloc);
    put_lost(&mut members, alloc, part)?;
    Ok(Value::from(members))
}

fn all_lost_value(alloc: Global, parts: &[LostPart]) -> Result<Value, AllocError> {
    let mut list = Vec::new(alloc);
    for part in parts {
        list.push(lost_value(alloc, part)?)?;
    }
    Ok(Value::from(list))
}

// Adds which file it is.
fn put_name(
    members: &mut Map<String, Value>,
    alloc: Global,
    file: &FileRead,
) -> Result<(), AllocError> {
    let kind = Value::try_from_str(alloc, kind_of(file))?;
    put(members, alloc, "kind", kind)?;
    put(members, alloc, "number", Value::from(file.number))
}

// Adds the members of a file.
fn put_file(
    members: &mut Map<String, Value>,
    alloc: Global,
    file: &FileRead,
) -> Result<(), AllocError> {
    put_name(members, alloc, file)?;
    put(members, alloc, "bytes", Value::from(file.bytes))?;
    put(members, alloc, "records", Value::from(file.records))?;
    let lost = all_lost_value(alloc, &file.lost)?;
    put(members, alloc, "lost", lost)
}

fn file_value(alloc: Global, file: &FileRead) -> Result<Value, AllocError> {
    let mut members = Map::new(alloc);
    put_file(&mut members, alloc, file)?;
    Ok(Value::from(members))
}

fn files_value(alloc: Global, files: &[FileRead]) -> Result<Value, AllocError> {
    let mut list = Vec::new(alloc);
    for file in files {
        list.push(file_value(alloc, file)?)?;
    }
    Ok(Value::from(list))
}

// Returns a time in milliseconds as a number, or `null` if it is outside 64 bits, as no end of the hour of a block is.
fn time_value(time: i128) -> Value {
    match i64::try_from(time) {
        Ok(time) => Value::from(time),
        Err(_) => Value::Null,
    }
}

// Adds the name of a block and its hour.
fn put_hour(
    members: &mut Map<String, Value>,
    alloc: Global,
    block: &HourBlock,
) -> Result<(), AllocError> {
    let (ulid, (from, to)) = (block.ulid, block.hour.bounds());
    let name = format!(in alloc; "{ulid}")?;
    put(members, alloc, "ulid", Value::from(name))?;
    put(members, alloc, "from", time_value(from))?;
    put(members, alloc, "to", time_value(to))
}

// Adds the members of the block of an hour.
fn put_block(
    members: &mut Map<String, Value>,
    alloc: Global,
    block: &HourBlock,
) -> Result<(), AllocError> {
    put_hour(members, alloc, block)?;
    put(members, alloc, "series", Value::from(block.series))?;
    put(members, alloc, "samples", Value::from(block.samples))?;
    put(members, alloc, "written", Value::from(block.is_written))
}

fn block_value(alloc: Global, block: &HourBlock) -> Result<Value, AllocError> {
    let mut members = Map::new(alloc);
    put_block(&mut members, alloc, block)?;
    Ok(Value::from(members))
}

fn blocks_value(alloc: Global, blocks: &[HourBlock]) -> Result<Value, AllocError> {
    let mut list = Vec::new(alloc);
    for block in blocks {
        list.push(block_value(alloc, block)?)?;
    }
    Ok(Value::from(list))
}

// Adds the least valid time and the data directory whose blocks gave it.
fn put_given(
    members: &mut Map<String, Value>,
    alloc: Global,
    least: i64,
    data: &str,
) -> Result<(), AllocError> {
    let data = Value::try_from_str(alloc, data)?;
    put(members, alloc, "min_valid", Value::from(least))?;
    put(members, alloc, "data", data)
}

// Adds the same, or `null` for both if no data directory is reported.
fn put_least(
    members: &mut Map<String, Value>,
    alloc: Global,
    rescued: &Rescued<'_>,
) -> Result<(), AllocError> {
    if let Some(data) = rescued.data {
        return put_given(members, alloc, rescued.min_valid, data);
    }
    put(members, alloc, "min_valid", Value::Null)?;
    put(members, alloc, "data", Value::Null)
}

// Adds how many samples and deletions name no series.
fn put_unknown(
    members: &mut Map<String, Value>,
    alloc: Global,
    rescued: &Rescued<'_>,
) -> Result<(), AllocError> {
    let deletions = Value::from(rescued.unknown_deletions);
    put(members, alloc, "unknown", Value::from(rescued.unknown))?;
    put(members, alloc, "unknown_deletions", deletions)
}

// Adds how many records were read of files, and how many parts are lost.
fn put_read(
    members: &mut Map<String, Value>,
    alloc: Global,
    files: &[FileRead],
) -> Result<(), AllocError> {
    let (records, lost) = (records_of(files)?, lost_count(files)?);
    put(members, alloc, "records", Value::from(records))?;
    put(members, alloc, "lost", Value::from(lost))
}

// Adds the files and the blocks.
fn put_lists(
    members: &mut Map<String, Value>,
    alloc: Global,
    files: &[FileRead],
    blocks: &[HourBlock],
) -> Result<(), AllocError> {
    let files = files_value(alloc, files)?;
    put(members, alloc, "files", files)?;
    let blocks = blocks_value(alloc, blocks)?;
    put(members, alloc, "blocks", blocks)
}

// Adds the members of the document.
fn put_all(
    members: &mut Map<String, Value>,
    alloc: Global,
    rescued: &Rescued<'_>,
    blocks: &[HourBlock],
) -> Result<(), AllocError> {
    let samples = samples_of(blocks)?;
    put_least(members, alloc, rescued)?;
    put_lists(members, alloc, &rescued.files, blocks)?;
    put_read(members, alloc, &rescued.files)?;
    put_unknown(members, alloc, rescued)?;
    put(members, alloc, "samples", Value::from(samples))
}

// Returns the document as a value.
fn document_value(
    alloc: Global,
    rescued: &Rescued<'_>,
    blocks: &[HourBlock],
) -> Result<Value, AllocError> {
    let mut members = Map::new(alloc);
    put_all(&mut members, alloc, rescued, blocks)?;
    Ok(Value::from(members))
}

/// Returns one JSON document: what was read of each file and what of it is lost, the block of each hour, and the sums.
pub(crate) fn document(
    alloc: Global,
    rescued: &Rescued<'_>,
    blocks: &[HourBlock],
) -> Result<String, AllocError> {
    let document = document_value(alloc, rescued, blocks)?;
    let mut text = document.to_string(alloc)?;
    text.push('\n')?;
    Ok(text)
}
