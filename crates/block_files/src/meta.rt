//! The meta.json of a block.

ghost use Rattle.std.specs.Prelude.{◌≡◌, Some, IfOk, string_bytes};
ghost use Rattle.block_files.specs.declared.meta.Meta.{Meta as Description};
ghost use Rattle.block_files.specs.Meta.{meta_text, middle};
ghost use Rattle.block_files.specs.Ulids.{IsUlid};

use crate::ulid::Ulid;
use std::alloc::{AllocError, Global};

/// The description of a block.
#[derive(Clone, Copy, Debug, PartialEq, Eq)]
pub struct Meta {
    pub ulid: Ulid,
    /// The first millisecond of its hour.
    pub min_time: i64,
    /// The first millisecond after its hour.
    pub max_time: i64,
    /// The number of its samples.
    pub samples: u64,
    /// The number of its series.
    pub series: u64,
    /// The number of its chunks.
    pub chunks: u64,
}

// the offset of the ULID in the text
const ULID_AT: usize = 12;

// Writes the text between the two ULIDs.
fn numbers_of(alloc: Global, meta: &Meta) -> Result<String, AllocError>
    ensures { IfOk result (λ text. string_bytes text ≡ middle meta.now) }
{
    let Meta {
        min_time,
        max_time,
        samples,
        series,
        chunks,
        ..
    } = *meta;
    let text = format!(in alloc;
        "\",\n\t\"minTime\": {min_time},\n\t\"maxTime\": {max_time},\n\t\"stats\": {{\n\t\t\"numSamples\": {samples},\n\t\t\"numSeries\": {series},\n\t\t\"numChunks\": {chunks}\n\t}},\n\t\"compaction\": {{\n\t\t\"level\": 1,\n\t\t\"sources\": [\n\t\t\t\""
    )?;
    Ok(text)
}

/// Writes meta.json: one member on each line, a tab for each level, and a newline after each line.
pub fn write_meta(alloc: Global, meta: &Meta) -> Result<Vec<u8>, AllocError>
    ensures { IfOk result (λ text. text.items ≡ meta_text meta.now) }
{
    let numbers = numbers_of(alloc, meta)?;
    let mut text = Vec::new(alloc);
    text.extend_from_slice(b"{\n\t\"ulid\": \"")?;
    text.extend_from_slice(meta.ulid.as_bytes())?;
    text.extend_from_slice(numbers.as_bytes())?;
    text.extend_from_slice(meta.ulid.as_bytes())?;
    text.extend_from_slice(b"\"\n\t\t]\n\t},\n\t\"version\": 1\n}\n")?;
    Ok(text)
}

/// Returns the ULID in the text of a meta.json. For other bytes the result is not specified.
pub fn ulid_of(text: &[u8]) -> Option<Ulid>
    ensures { (meta : Description) → IsUlid meta.ulid → text.now ≡ meta_text meta → result ≡ Some meta.ulid }
{
    if text.len() < ULID_AT + 26 {
        return None;
    }
    let (_, rest) = text.split_at(ULID_AT);
    let (digits, _) = rest.split_at(26);
    Ulid::from_bytes(digits).ok()
}
