//! The text that the command prints.

use crate::memory::{Memory, memory_of};
use crate::notes::push_remark;
use crate::on_file::file_of;
use crate::remarks::Remark;
use inspect_files::{FileSurvey, Inspection, Sums, skipped_records, sums_of};
use jiff::Timestamp;
use std::alloc::{AllocError, Global};
use wal_survey::{KindCount, Readable, SkippedCount, Survey};
use wal_unpack::UnpackDamage;

// Appends a time in milliseconds, and as a date and time of day in UTC with three decimals, or `none` if it is past the years of the
// calendar.
fn push_time(text: &mut String, time: i64) -> Result<(), AllocError> {
    match Timestamp::from_millisecond(time) {
        Ok(moment) => write!(text, " {time} {moment:.3}")?,
        Err(_) => write!(text, " {time} none")?,
    }
    Ok(())
}

// Appends the words `first` and `last` with the least and the greatest time, or `none`.
fn push_times(text: &mut String, times: Option<(i64, i64)>) -> Result<(), AllocError> {
    let Some((first, last)) = times else {
        return text.push_str(" first none last none");
    };
    text.push_str(" first")?;
    push_time(text, first)?;
    text.push_str(" last")?;
    push_time(text, last)
}

fn push_count(text: &mut String, kind: &str, count: KindCount) -> Result<(), AllocError> {
    let KindCount { records, entries } = count;
    write!(text, " {kind} {records} {entries}")?;
    Ok(())
}

// Appends the number of records of each other type. `empty` is the record of no bytes.
fn push_types(text: &mut String, skipped: &[SkippedCount]) -> Result<(), AllocError> {
    for count in skipped {
        let records = count.records;
        match count.kind {
            Some(kind) => write!(text, " type{kind} {records}")?,
            None => write!(text, " empty {records}")?,
        }
    }
    Ok(())
}

// Appends how much of a file can be read.
fn push_readable(text: &mut String, readable: Readable) -> Result<(), AllocError> {
    let Readable {
        records,
        samples,
        passed,
        ..
    } = readable;
    write!(
        text,
        " readable records {records} samples {samples} passed {passed}"
    )?;
    Ok(())
}

// Appends the damage of a file, and then how much of the file can be read, or `none`.
fn push_damage(text: &mut String, survey: &Survey) -> Result<(), AllocError> {
    let Some(UnpackDamage { offset, fault }) = survey.damage else {
        return text.push_str(" damage none");
    };
    write!(text, " damage offset {offset} {fault}")?;
    push_readable(text, survey.readable)
}

// Appends the line of a file: its length, its records and their entries by kind, its times and its damage.
fn push_file(text: &mut String, file: &FileSurvey) -> Result<(), AllocError> {
    let survey = &file.survey;
    let name = file_of(file);
    write!(text, "{name} bytes {} pages {}", file.bytes, file.pages)?;
    push_count(text, "series", survey.series)?;
    push_count(text, "samples", survey.samples)?;
    push_count(text, "deletions", survey.stones)?;
    write!(text, " skipped {}", skipped_records(&survey.skipped)?)?;
    push_types(text, &survey.skipped)?;
    push_times(text, survey.times)?;
    push_damage(text, survey)?;
    text.push('\n')
}

// Appends the line of all files together.
fn push_sums(text: &mut String, sums: &Sums) -> Result<(), AllocError> {
    let Sums {
        files,
        bytes,
        pages,
        ..
    } = *sums;
    write!(text, "all files {files} bytes {bytes} pages {pages}")?;
    push_count(text, "series", sums.series)?;
    push_count(text, "samples", sums.samples)?;
    push_count(text, "deletions", sums.stones)?;
    write!(text, " skipped {}", sums.skipped)?;
    push_times(text, sums.times)?;
    text.push('\n')
}

// Appends the line of the memory that commands take, unless the log has few bytes.
fn push_memory(text: &mut String, memory: Option<Memory>) -> Result<(), AllocError> {
    let Some(memory) = memory else {
        return Ok(());
    };
    let Memory {
        replay,
        series,
        cut,
        unpacking,
    } = memory;
    write!(text, "memory replay {replay} MiB series {series} MiB")?;
    write!(text, " cut {cut} MiB unpacking {unpacking} MiB")?;
    text.push('\n')
}

// Appends the line of a remark.
fn push_note(text: &mut String, remark: &Remark) -> Result<(), AllocError> {
    text.push_str("note ")?;
    push_remark(text, remark)?;
    text.push('\n')
}

/// Returns a line for each file of a log, one for all of them, one for the memory that commands take over a large log, and one for each remark.
pub(crate) fn inspection_text(
    alloc: Global,
    inspection: &Inspection,
    remarks: &[Remark],
) -> Result<String, AllocError> {
    let files = inspection.files.as_slice();
    let mut text = String::new(alloc);
    for file in files {
        push_file(&mut text, file)?;
    }
    let sums = sums_of(files)?;
    push_sums(&mut text, &sums)?;
    push_memory(&mut text, memory_of(&sums, files))?;
    for remark in remarks {
        push_note(&mut text, remark)?;
    }
    Ok(text)
}
