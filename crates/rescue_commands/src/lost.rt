//! What is lost of a log.

use answers::{FileNumber, kind_of_file};
use log_directory::{FileRead, LostPart, push_lost};
use std::alloc::{AllocError, Global};
use wal_log::Place;

/// Returns how many records were read of files.
pub(crate) fn records_of(files: &[FileRead]) -> Result<u64, AllocError> {
    let mut records: u64 = 0;
    for file in files {
        records = records.checked_add(file.records).ok_or(AllocError)?;
    }
    Ok(records)
}

/// Returns the word for a file of the checkpoint, or for a segment.
pub(crate) fn kind_of(file: &FileRead) -> &'static str {
    kind_of_file(Place {
        in_checkpoint: file.in_checkpoint,
        file: file.number,
        offset: 0,
    })
}

/// Where a part is in a file, and how many bytes it has.
#[derive(Clone, Copy, Debug)]
pub(crate) struct LostRange {
    pub(crate) offset: u64,
    pub(crate) bytes: u64,
}

/// Returns how a part was lost.
pub(crate) fn word_of(part: &LostPart) -> &'static str {
    match part {
        LostPart::Missing => "missing",
        LostPart::CannotRead(_) => "unread",
        LostPart::PassedOver(_) => "passed",
    }
}

/// Returns where a part is, unless the whole file is missing.
pub(crate) fn stretch_of(part: &LostPart) -> Option<LostRange> {
    match part {
        LostPart::Missing => None,
        LostPart::CannotRead(unread) => Some(LostRange {
            offset: unread.offset,
            bytes: unread.bytes,
        }),
        LostPart::PassedOver(passed) => Some(LostRange {
            offset: passed.damage.offset,
            bytes: passed.bytes,
        }),
    }
}

/// Appends the line of a file, and after it a line for each part of it that is lost.
pub(crate) fn push_file(
    text: &mut String,
    alloc: Global,
    file: &FileRead,
) -> Result<(), AllocError> {
    let (kind, number) = (kind_of(file), FileNumber(file.number));
    let FileRead { bytes, records, .. } = *file;
    writeln!(text, "{kind} {number} bytes {bytes} records {records}")?;
    push_lost(alloc, text, file.in_checkpoint, file.number, &file.lost)
}
