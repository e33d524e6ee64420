//! The sections of symbols and of series.

ghost use Rattle.std.specs.Prelude.{◌≡◌, map};
ghost use Rattle.index_text.specs.Reading.{all_elements, only_element, series_element_at};
ghost use Rattle.index_text.specs.Gives.{Gives, nows};
ghost use Rattle.index_text.specs.Fields.{series_field, symbols_field, whole};
ghost use Rattle.index_text.specs.Stored.{stored};

use crate::element::{aligned, counted, framed};
use crate::fault::ReadFault;
use crate::fields::{four, uvarint};
use crate::lists::{chunks, pairs, texts};
use crate::row::ChunkMeta;
use hw_bytes::Items;
use std::alloc::Global;

/// A series as an index stores it.
#[derive(Debug, Drop)]
pub struct StoredSeries {
    /// For each label the references of its name and its value: their places among the symbols, from 0.
    pub labels: Items<(u64, u64)>,
    /// Its chunks in the order in which they are stored.
    pub chunks: Items<ChunkMeta>,
}

// Reads the contents of the symbols.
#[tactic(auto, unfolding(crate::specs::Fields::symbols_field))]
pub(crate) fn symbols_contents<'a>(
    alloc: Global,
    bytes: &'a [u8],
) -> Result<Vec<&'a [u8]>, ReadFault>
    ensures { Gives (λ x. nows x.items) result (whole symbols_field bytes.now) }
{
    let (count, rest) = four(bytes)?;
    let (symbols, rest) = texts(alloc, u64::from(count), rest)?;
    if !rest.is_empty() {
        return Err(ReadFault::BadSection);
    }
    Ok(symbols)
}

// Reads the contents of a series. Its references must be below the limit.
#[tactic(auto, unfolding(crate::specs::Fields::series_field))]
pub(crate) fn series_contents(
    alloc: Global,
    limit: u64,
    bytes: &[u8],
) -> Result<StoredSeries, ReadFault>
    ensures { Gives stored result (whole (series_field limit) bytes.now) }
{
    let (count, rest) = uvarint(bytes)?;
    let (labels, rest) = pairs(alloc, count, limit, rest)?;
    let (count, rest) = uvarint(rest)?;
    let (chunks, rest) = chunks(alloc, count, rest)?;
    if !rest.is_empty() {
        return Err(ReadFault::BadSection);
    }
    Ok(StoredSeries {
        labels: Items::from_vec(labels),
        chunks: Items::from_vec(chunks),
    })
}

// Reads the series at the front of the section's rest, and returns the bytes after it. The section ends at the offset `stop`.
#[tactic(auto, unfolding(crate::specs::Reading::series_element_at))]
fn series_element(
    alloc: Global,
    limit: u64,
    stop: usize,
    bytes: &[u8],
) -> Result<(StoredSeries, &[u8]), ReadFault>
    ensures { Gives (λ x. (stored x.0, x.1.now)) result (series_element_at limit stop bytes.now) }
{
    let start = aligned(bytes, 16, stop.saturating_sub(bytes.len()))?;
    let (contents, rest) = counted(start)?;
    let series = series_contents(alloc, limit, contents)?;
    Ok((series, rest))
}

// Reads all series of the section, which ends at the offset `stop`.
pub(crate) fn series_section(
    alloc: Global,
    limit: u64,
    stop: usize,
    section: &[u8],
) -> Result<Vec<StoredSeries>, ReadFault>
    ensures { Gives (λ x. map stored x.items) result (all_elements (series_element_at limit stop) section.now) }
{
    let mut found = Vec::new(alloc);
    let mut rest = section;
    for _ in 0..section.len() {
        if rest.is_empty() {
            return Ok(found);
        }
        let (series, after) = series_element(alloc, limit, stop, rest)?;
        found.push(series)?;
        rest = after;
    }
    Ok(found)
}

// Reads the symbols, the only element of their section.
#[tactic(auto, unfolding(crate::specs::Reading::only_element))]
pub(crate) fn symbols_section<'a>(
    alloc: Global,
    section: &'a [u8],
) -> Result<Vec<&'a [u8]>, ReadFault>
    ensures { Gives (λ x. nows x.items) result (only_element symbols_field section.now) }
{
    let (contents, rest) = framed(section)?;
    let symbols = symbols_contents(alloc, contents)?;
    if !rest.is_empty() {
        return Err(ReadFault::BadSection);
    }
    Ok(symbols)
}
