//! The texts that are printed.

use crate::json::document;
use crate::lost::{push_file, records_of};
use crate::told::{HourBlock, samples_of};
use log_directory::{FileRead, lost_count};
use std::alloc::{AllocError, Global};
use store::ShownPath;

/// What `rescue` reports besides the blocks.
pub(crate) struct Rescued<'a> {
    /// The data directory whose blocks gave the least valid time, if it is reported.
    pub(crate) data: Option<&'a str>,
    /// The least valid time, in milliseconds.
    pub(crate) min_valid: i64,
    pub(crate) files: Vec<FileRead>,
    /// How many samples name no series.
    pub(crate) unknown: u64,
    /// How many deletions name no series.
    pub(crate) unknown_deletions: u64,
    /// Whether it is printed as one JSON document.
    pub(crate) json: bool,
}

impl Drop for Rescued<'_> {
    fn drop(self) {
        let Rescued {
            data: _,
            min_valid: _,
            files: _files,
            unknown: _,
            unknown_deletions: _,
            json: _,
        } = self;
    }
}

/// What is reported besides the blocks.
#[derive(Drop)]
pub(crate) enum Telling<'a> {
    /// By `blocks`: how many times the log is read, if that is more than once.
    Blocks { passes: usize },
    /// By `rescue`.
    Rescue(Rescued<'a>),
}

// Appends the line of the block of an hour.
fn push_block(text: &mut String, block: &HourBlock) -> Result<(), AllocError> {
    let word = if block.is_written { "block" } else { "there" };
    let (start, end) = block.hour.bounds();
    let HourBlock {
        ulid,
        series,
        samples,
        ..
    } = block;
    writeln!(
        text,
        "{word} {ulid} {start} {end} series {series} samples {samples}"
    )
}

// Appends a line for each block.
fn push_blocks(text: &mut String, blocks: &[HourBlock]) -> Result<(), AllocError> {
    for block in blocks {
        push_block(text, block)?;
    }
    Ok(())
}

// Appends the numbers of the blocks and of their samples.
fn push_sums(text: &mut String, blocks: &[HourBlock]) -> Result<(), AllocError> {
    let (number, samples) = (blocks.len(), samples_of(blocks)?);
    writeln!(text, "blocks {number}\nsamples {samples}")
}

// Appends the least valid time and where it is from, if that is reported.
fn push_least(text: &mut String, rescued: &Rescued<'_>) -> Result<(), AllocError> {
    if let Some(data) = rescued.data {
        let (least, data) = (rescued.min_valid, ShownPath(data));
        writeln!(text, "min_valid {least} by the blocks in {data}")?;
    }
    Ok(())
}

// Appends the lines of files.
fn push_files(text: &mut String, alloc: Global, files: &[FileRead]) -> Result<(), AllocError> {
    for file in files {
        push_file(text, alloc, file)?;
    }
    Ok(())
}

// Appends the sums over files.
fn push_read(text: &mut String, files: &[FileRead]) -> Result<(), AllocError> {
    let (number, records, lost) = (files.len(), records_of(files)?, lost_count(files)?);
    writeln!(text, "files {number}\nrecords {records}\nlost {lost}")
}

// Appends how many samples and deletions name no series.
fn push_unknown(text: &mut String, rescued: &Rescued<'_>) -> Result<(), AllocError> {
    let (samples, deletions) = (rescued.unknown, rescued.unknown_deletions);
    writeln!(text, "unknown {samples}\nunknown_deletions {deletions}")
}

// Appends the text of `rescue`.
fn push_rescued(
    text: &mut String,
    alloc: Global,
    rescued: &Rescued<'_>,
    blocks: &[HourBlock],
) -> Result<(), AllocError> {
    push_least(text, rescued)?;
    push_files(text, alloc, &rescued.files)?;
    push_blocks(text, blocks)?;
    push_read(text, &rescued.files)?;
    push_unknown(text, rescued)?;
    push_sums(text, blocks)
}

// Appends the text of `blocks`.
fn push_alone(text: &mut String, blocks: &[HourBlock], passes: usize) -> Result<(), AllocError> {
    push_blocks(text, blocks)?;
    push_sums(text, blocks)?;
    if 1 < passes {
        writeln!(text, "passes {passes}")?;
    }
    Ok(())
}

/// Returns the text that is printed.
pub(crate) fn printed(
    alloc: Global,
    telling: &Telling<'_>,
    blocks: &[HourBlock],
) -> Result<String, AllocError> {
    let mut text = String::new(alloc);
    match telling {
        Telling::Blocks { passes } => push_alone(&mut text, blocks, *passes)?,
        Telling::Rescue(rescued) if rescued.json => text = document(alloc, rescued, blocks)?,
        Telling::Rescue(rescued) => push_rescued(&mut text, alloc, rescued, blocks)?,
    }
    Ok(text)
}
