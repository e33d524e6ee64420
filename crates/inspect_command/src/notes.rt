//! The texts of remarks.

use crate::remarks::{FileDamage, NumberedFile, Remark};
use std::alloc::AllocError;
use store::Unread;
use wal_log::Place;
use wal_survey::{Readable, UnboundReference};
use wal_unpack::{UnpackDamage, UnpackFault};

// Returns the file of a place.
fn file_at(place: Place) -> NumberedFile {
    NumberedFile {
        in_checkpoint: place.in_checkpoint,
        number: place.file,
    }
}

// Appends that the directory has no log.
fn push_no_log(text: &mut String, has_wal: bool) -> Result<(), AllocError> {
    text.push_str("no file of a log is here")?;
    if has_wal {
        text.push_str(": did you mean wal, which is in this directory?")?;
    }
    Ok(())
}

// Appends that segments are missing.
fn push_missing(text: &mut String, from: u64, first: u64) -> Result<(), AllocError> {
    write!(
        text,
        "segments are missing from {from:08} up to {first:08}, which is the first: what they held may be lost"
    )?;
    Ok(())
}

// Appends that no segment is past the checkpoint.
fn push_none_behind(text: &mut String, next: u64) -> Result<(), AllocError> {
    write!(
        text,
        "no segment is past the checkpoint: a server begins again at 00000000, and loses that at its next start, unless an empty segment {next:08} is made first"
    )?;
    Ok(())
}

// Appends that the checkpoint's directory has no file.
fn push_empty_checkpoint(text: &mut String, checkpoint: u64) -> Result<(), AllocError> {
    write!(
        text,
        "checkpoint.{checkpoint:08} has no file: what it held may be lost"
    )?;
    Ok(())
}

// Appends that segments are not past the checkpoint.
fn push_passed(text: &mut String, segments: u64) -> Result<(), AllocError> {
    let (are, them) = if segments == 1 {
        ("segment is", "it")
    } else {
        ("segments are", "them")
    };
    write!(
        text,
        "{segments} {are} not past the checkpoint, and no server reads {them}: what was written to {them} since is lost"
    )?;
    Ok(())
}

// Appends that a file has nothing in it.
fn push_blank(text: &mut String, file: NumberedFile, what: &str) -> Result<(), AllocError> {
    write!(
        text,
        "{file} {what} and is not the last file: what it held may be lost"
    )?;
    Ok(())
}

// Appends where a file ends inside a record.
fn push_torn(text: &mut String, torn: &FileDamage) -> Result<(), AllocError> {
    let (file, offset) = (torn.file, torn.damage.offset);
    write!(
        text,
        "{file} ends inside a record at {offset}: as a crash leaves it, and that record is lost"
    )?;
    Ok(())
}

// Appends a number of things, of which one is named by this word.
fn push_number(text: &mut String, number: u64, one: &str) -> Result<(), AllocError> {
    write!(text, "{number} {one}")?;
    text.push_str(if number == 1 { "" } else { "s" })
}

// Appends how much of a file can be read, also after damage.
fn push_readable(text: &mut String, readable: Readable) -> Result<(), AllocError> {
    let Readable {
        records,
        samples,
        passed,
        ..
    } = readable;
    push_number(text, passed, "byte")?;
    text.push_str(if passed == 1 { " is" } else { " are" })?;
    text.push_str(" passed over, and ")?;
    push_number(text, records, "record")?;
    text.push_str(" with ")?;
    push_number(text, samples, "sample")?;
    text.push_str(" can be read, which `unpack --past-damage` writes")
}

const HOLE: &str =
    "zeros before more records: a server joins what is around it, and may read samples that were never written; ";

// Appends where a file is damaged, or has a hole, and what can be read of it.
fn push_damaged(text: &mut String, damaged: &FileDamage) -> Result<(), AllocError> {
    let (file, UnpackDamage { offset, fault }) = (damaged.file, damaged.damage);
    match fault {
        UnpackFault::Hole => {
            write!(text, "{file} has a hole at {offset}, ")?;
            text.push_str(HOLE)?;
        }
        _ => write!(text, "{file} is damaged at {offset}, {fault}: ")?,
    }
    push_readable(text, damaged.readable)
}

// Appends that a part of a file cannot be read, or nothing of it.
fn push_unread(text: &mut String, file: NumberedFile, unread: Unread) -> Result<(), AllocError> {
    let Unread {
        offset,
        bytes,
        reason,
    } = unread;
    write!(text, "{file} cannot be read")?;
    if bytes != 0 {
        write!(text, " at {offset}, ")?;
        push_number(text, bytes, "byte")?;
    }
    write!(text, ": {reason}")?;
    Ok(())
}

const NO_START: &str = ": a server does not start";

// Appends that files between two others are missing.
fn push_gap(text: &mut String, from: u64, to: u64, in_checkpoint: bool) -> Result<(), AllocError> {
    let (file, place) = if in_checkpoint {
        ("file", " of the checkpoint")
    } else {
        ("segment", "")
    };
    if from == to {
        write!(text, "{file} {from:08}{place} is missing{NO_START}")?;
    } else {
        write!(
            text,
            "{file}s {from:08} to {to:08}{place} are missing{NO_START}"
        )?;
    }
    Ok(())
}

// Appends that two files have one number.
fn push_same(text: &mut String, file: NumberedFile) -> Result<(), AllocError> {
    let files = if file.in_checkpoint {
        "files of the checkpoint"
    } else {
        "segments"
    };
    write!(
        text,
        "two {files} have the number {:08}{NO_START}",
        file.number
    )?;
    Ok(())
}

// Appends how many references are not bound.
fn push_many(text: &mut String, references: u64, all_read: bool) -> Result<(), AllocError> {
    let noun = if references == 1 {
        "reference"
    } else {
        "references"
    };
    let record = if all_read {
        "no series record"
    } else {
        "no series record of those that were read"
    };
    write!(text, "samples name {references} {noun} that {record} binds")?;
    if references == 1 {
        return text.push_str(",");
    }
    text.push_str(", the first,")
}

// Appends that samples name references that are not bound.
fn push_unbound(
    text: &mut String,
    references: u64,
    first: UnboundReference,
    all_read: bool,
) -> Result<(), AllocError> {
    push_many(text, references, all_read)?;
    let UnboundReference { reference, place } = first;
    let (file, offset) = (file_at(place), place.offset);
    write!(text, " {reference}, in {file} at {offset}: ")?;
    text.push_str(if all_read {
        "they are lost in a replay"
    } else {
        "one that was not read may bind them"
    })
}

/// Appends the text of a remark.
pub(crate) fn push_remark(text: &mut String, remark: &Remark) -> Result<(), AllocError> {
    match remark {
        Remark::NoLog { has_wal } => push_no_log(text, *has_wal),
        Remark::SegmentsMissing { from, first } => push_missing(text, *from, *first),
        Remark::NoneBehind { next } => push_none_behind(text, *next),
        Remark::EmptyCheckpoint { checkpoint } => push_empty_checkpoint(text, *checkpoint),
        Remark::PassedOver { segments } => push_passed(text, *segments),
        Remark::Unread { file, unread } => push_unread(text, *file, *unread),
        Remark::Empty(file) => push_blank(text, *file, "is empty"),
        Remark::Zeros(file) => push_blank(text, *file, "has only zeros"),
        Remark::TornEnd(torn) => push_torn(text, torn),
        Remark::Damaged(damaged) => push_damaged(text, damaged),
        Remark::Gap {
            from,
            to,
            in_checkpoint,
        } => push_gap(text, *from, *to, *in_checkpoint),
        Remark::SameNumber(file) => push_same(text, *file),
        Remark::UnboundReferences {
            references,
            first,
            all_read,
        } => push_unbound(text, *references, *first, *all_read),
    }
}
