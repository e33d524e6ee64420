//! The document that the command prints with `--json`.

ghost use Rattle.std.specs.Prelude.{◌≡◌, ℕ, IfOk, List, OnOk, length, string_bytes};
ghost use Rattle.serde_json.specs.Data.{no_members, object, string};
ghost use Rattle.serde_json.specs.View.{members_view, view};
ghost use Rattle.inspect_command.specs.Documents.{IsDocument, array_of, count_data, count_members, damage_data, document_members, fault_name as name_of_fault, fault_number as number_of_fault, file_data, file_members, file_word, name_members, or_null, readable_data, readable_members, size_members, skipped_data, sums_members, survey_members, time_members, unread_data, with_members};

use crate::notes::push_remark;
use crate::remarks::Remark;
use inspect_files::{FileSurvey, Inspection, Sums, sums_of};
use serde_json::{Map, Value, json, put};
use std::alloc::{AllocError, Global};
use store::Unread;
use wal_page::FaultKind;
use wal_survey::{KindCount, Readable, SkippedCount, Survey};
use wal_unpack::{UnpackDamage, UnpackFault};

fn count_value(alloc: Global, count: KindCount) -> Result<Value, AllocError>
    ensures { IfOk result (λ v. view v ≡ count_data count) }
{
    json!(in alloc; {"records": count.records, "entries": count.entries})
}

// Adds the counts of the three kinds of records.
fn put_counts(
    members: &mut Map<String, Value>,
    alloc: Global,
    series: KindCount,
    samples: KindCount,
    deletions: KindCount,
) -> Result<(), AllocError>
    ensures { OnOk result (members_view members.new.entries ≡ with_members (count_members series samples deletions) (members_view members.old.entries)) }
{
    put(members, alloc, "series", count_value(alloc, series)?)?;
    put(members, alloc, "samples", count_value(alloc, samples)?)?;
    put(members, alloc, "deletions", count_value(alloc, deletions)?)
}

// Adds the least and the greatest time, or `null` for each.
fn put_times(
    members: &mut Map<String, Value>,
    alloc: Global,
    times: Option<(i64, i64)>,
) -> Result<(), AllocError>
    ensures { OnOk result (members_view members.new.entries ≡ with_members (time_members times) (members_view members.old.entries)) }
{
    let (first, last) = match times {
        Some((first, last)) => (Value::from(first), Value::from(last)),
        None => (Value::Null, Value::Null),
    };
    put(members, alloc, "first", first)?;
    put(members, alloc, "last", last)
}

// Adds a number of bytes and of pages.
fn put_size(
    members: &mut Map<String, Value>,
    alloc: Global,
    bytes: u64,
    pages: u64,
) -> Result<(), AllocError>
    ensures { OnOk result (members_view members.new.entries ≡ with_members (size_members bytes pages) (members_view members.old.entries)) }
{
    put(members, alloc, "bytes", Value::from(bytes))?;
    put(members, alloc, "pages", Value::from(pages))
}

// Returns the number of records of a type, which is `null` for the record of no bytes.
fn skipped_value(alloc: Global, count: SkippedCount) -> Result<Value, AllocError>
    ensures { IfOk result (λ v. view v ≡ skipped_data count) }
{
    json!(in alloc; {"type": count.kind, "records": count.records})
}

// Returns the number of records of each other type.
fn all_skipped_value(alloc: Global, skipped: &[SkippedCount]) -> Result<Value, AllocError>
    ensures { IfOk result (λ v. view v ≡ array_of skipped_data skipped.now) }
{
    let mut list = Vec::new(alloc);
    for count in skipped {
        list.push(skipped_value(alloc, *count)?)?;
    }
    Ok(Value::from(list))
}

// Returns the number of the kind of a fault, if it has one.
fn fault_number(fault: UnpackFault) -> Option<u8>
    ensures { result ≡ number_of_fault fault }
{
    match fault {
        UnpackFault::InFile(kind) => Some(kind.number()),
        UnpackFault::BadRecord => Some(FaultKind::BadRecord.number()),
        _ => None,
    }
}

// Returns the name of a fault.
fn fault_name(fault: UnpackFault) -> &'static str
    ensures { result.now ≡ name_of_fault fault }
{
    match fault {
        UnpackFault::InFile(kind) => kind.name(),
        UnpackFault::BadRecord => FaultKind::BadRecord.name(),
        UnpackFault::Mixed => "Mixed",
        UnpackFault::BadBlock(_) => "BadBlock",
        UnpackFault::Hole => "Hole",
    }
}

fn damage_value(alloc: Global, damage: Option<UnpackDamage>) -> Result<Value, AllocError>
    ensures { IfOk result (λ v. view v ≡ or_null damage_data damage) }
{
    let Some(UnpackDamage { offset, fault }) = damage else {
        return Ok(Value::Null);
    };
    let (number, name) = (fault_number(fault), fault_name(fault));
    json!(in alloc; {"offset": offset, "kind": number, "name": name})
}

// Adds how much of a file can be read.
fn put_readable(
    members: &mut Map<String, Value>,
    alloc: Global,
    readable: Readable,
) -> Result<(), AllocError>
    ensures { OnOk result (members_view members.new.entries ≡ with_members (readable_members readable) (members_view members.old.entries)) }
{
    put(members, alloc, "records", Value::from(readable.records))?;
    put(members, alloc, "samples", Value::from(readable.samples))?;
    put(members, alloc, "places", Value::from(readable.places))?;
    put(members, alloc, "passed", Value::from(readable.passed))
}

fn readable_value(alloc: Global, readable: Readable) -> Result<Value, AllocError>
    ensures { IfOk result (λ v. view v ≡ readable_data readable) }
{
    let mut members = Map::new(alloc);
    put_readable(&mut members, alloc, readable)?;
    Ok(Value::from(members))
}

fn unread_value(alloc: Global, unread: Unread) -> Result<Value, AllocError>
    ensures { IfOk result (λ v. view v ≡ unread_data unread) }
{
    json!(in alloc; {"offset": unread.offset, "bytes": unread.bytes})
}

// Returns what of a file cannot be read.
fn all_unread_value(alloc: Global, unread: &[Unread]) -> Result<Value, AllocError>
    ensures { IfOk result (λ v. view v ≡ array_of unread_data unread.now) }
{
    let mut list = Vec::new(alloc);
    for part in unread {
        list.push(unread_value(alloc, *part)?)?;
    }
    Ok(Value::from(list))
}

// Returns the word for a file of the checkpoint, or for a segment.
fn word_of(in_checkpoint: bool) -> &'static str
    ensures { result.now ≡ file_word in_checkpoint }
{
    if in_checkpoint {
        "checkpoint"
    } else {
        "segment"
    }
}

// Adds which file it is.
fn put_name(
    members: &mut Map<String, Value>,
    alloc: Global,
    in_checkpoint: bool,
    number: u64,
) -> Result<(), AllocError>
    ensures { OnOk result (members_view members.new.entries ≡ with_members (name_members in_checkpoint number) (members_view members.old.entries)) }
{
    let file = Value::try_from_str(alloc, word_of(in_checkpoint))?;
    put(members, alloc, "file", file)?;
    put(members, alloc, "number", Value::from(number))
}

// Adds what a file holds.
fn put_survey(
    members: &mut Map<String, Value>,
    alloc: Global,
    survey: &Survey,
) -> Result<(), AllocError>
    ensures { OnOk result (members_view members.new.entries ≡ with_members (survey_members survey.now) (members_view members.old.entries)) }
{
    put_counts(members, alloc, survey.series, survey.samples, survey.stones)?;
    let skipped = all_skipped_value(alloc, &survey.skipped)?;
    put(members, alloc, "skipped", skipped)?;
    put_times(members, alloc, survey.times)?;
    let damage = damage_value(alloc, survey.damage)?;
    put(members, alloc, "damage", damage)?;
    let readable = readable_value(alloc, survey.readable)?;
    put(members, alloc, "readable", readable)
}

// Adds the members of a file.
fn put_file(
    members: &mut Map<String, Value>,
    alloc: Global,
    file: &FileSurvey,
) -> Result<(), AllocError>
    ensures { OnOk result (members_view members.new.entries ≡ with_members (file_members file.now) (members_view members.old.entries)) }
{
    put_name(members, alloc, file.in_checkpoint, file.number)?;
    put_size(members, alloc, file.bytes, file.pages)?;
    put_survey(members, alloc, &file.survey)?;
    let unread = all_unread_value(alloc, &file.unread)?;
    put(members, alloc, "unread", unread)
}

fn file_value(alloc: Global, file: &FileSurvey) -> Result<Value, AllocError>
    ensures { IfOk result (λ v. view v ≡ file_data file.now) }
{
    let mut members = Map::new(alloc);
    put_file(&mut members, alloc, file)?;
    Ok(Value::from(members))
}

fn files_value(alloc: Global, files: &[FileSurvey]) -> Result<Value, AllocError>
    ensures { IfOk result (λ v. view v ≡ array_of file_data files.now) }
{
    let mut list = Vec::new(alloc);
    for file in files {
        list.push(file_value(alloc, file)?)?;
    }
    Ok(Value::from(list))
}

// Adds the members of all files together.
fn put_sums(members: &mut Map<String, Value>, alloc: Global, sums: &Sums) -> Result<(), AllocError>
    ensures { OnOk result (members_view members.new.entries ≡ with_members (sums_members sums.now) (members_view members.old.entries)) }
{
    put(members, alloc, "files", Value::from(sums.files))?;
    put_size(members, alloc, sums.bytes, sums.pages)?;
    put_counts(members, alloc, sums.series, sums.samples, sums.stones)?;
    put(members, alloc, "skipped", Value::from(sums.skipped))?;
    put_times(members, alloc, sums.times)
}

fn sums_value(alloc: Global, sums: &Sums) -> Result<Value, AllocError>
    ensures { IfOk result (λ v. view v ≡ object (with_members (sums_members sums.now) no_members)) }
{
    let mut members = Map::new(alloc);
    put_sums(&mut members, alloc, sums)?;
    Ok(Value::from(members))
}

fn note_value(alloc: Global, remark: &Remark) -> Result<Value, AllocError>
    ensures { IfOk result (λ v. (text : List ℕ) × (view v ≡ string text)) }
{
    let mut text = String::new(alloc);
    push_remark(&mut text, remark)?;
    Ok(Value::from(text))
}

fn notes_value(alloc: Global, remarks: &[Remark]) -> Result<Value, AllocError>
    ensures { IfOk result (λ v. (notes : List (List ℕ)) × (length notes ≡ length remarks.now) × (view v ≡ array_of string notes)) }
{
    let mut list = Vec::new(alloc);
    for remark in remarks {
        list.push(note_value(alloc, remark)?)?;
    }
    Ok(Value::from(list))
}

// Adds the files, all of them together, and the remarks.
fn put_all(
    members: &mut Map<String, Value>,
    alloc: Global,
    files: &[FileSurvey],
    sums: &Sums,
    remarks: &[Remark],
) -> Result<(), AllocError>
    ensures { OnOk result ((notes : List (List ℕ)) × (length notes ≡ length remarks.now)
        × (members_view members.new.entries ≡ with_members (document_members files.now sums.now notes) (members_view members.old.entries))) }
{
    put(members, alloc, "files", files_value(alloc, files)?)?;
    put(members, alloc, "all", sums_value(alloc, sums)?)?;
    put(members, alloc, "notes", notes_value(alloc, remarks)?)
}

// Returns the document as a value.
fn document_value(
    alloc: Global,
    files: &[FileSurvey],
    sums: &Sums,
    remarks: &[Remark],
) -> Result<Value, AllocError>
    ensures { IfOk result (λ v. (notes : List (List ℕ)) × (length notes ≡ length remarks.now)
        × (view v ≡ object (with_members (document_members files.now sums.now notes) no_members))) }
{
    let mut members = Map::new(alloc);
    put_all(&mut members, alloc, files, sums, remarks)?;
    Ok(Value::from(members))
}

/// Returns one JSON document: the figures of each file of a log, those of all of them, and the text of each remark.
pub(crate) fn inspection_document(
    alloc: Global,
    inspection: &Inspection,
    remarks: &[Remark],
) -> Result<String, AllocError>
    ensures { IfOk result (λ text. IsDocument inspection.now remarks.now (string_bytes text)) }
{
    let files = inspection.files.as_slice();
    let sums = sums_of(files)?;
    let document = document_value(alloc, files, &sums, remarks)?;
    let mut text = document.to_string(alloc)?;
    text.push('\n')?;
    Ok(text)
}
