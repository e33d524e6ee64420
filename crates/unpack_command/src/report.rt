//! What is printed.

ghost use Rattle.std.specs.Prelude.{◌≡◌, ◌∷◌, [], ◌++◌, ℕ, IfOk, IfSome, IsSome, List, None, OnOk, Some, string_bytes};
ghost use Rattle.unpack_command.specs.Told.{EndsWith, TellsUnpacked, damage_front};

use answers::{Answer, FileNumber, Status, kind_of_file, push_numbers};
use log_directory::FileDamage;
use std::alloc::{AllocError, Global};
use wal_log::Place;

/// How much was written: the files, the records in them, and their bytes.
#[derive(Clone, Copy)]
pub(crate) struct WrittenTotals {
    files: u64,
    records: u64,
    bytes: u64,
}

impl WrittenTotals {
    /// Returns the totals of no files.
    pub(crate) fn none() -> WrittenTotals {
        WrittenTotals {
            files: 0,
            records: 0,
            bytes: 0,
        }
    }

    /// Adds one file with this many records and bytes. Returns an error if a total would need more than 64 bits.
    pub(crate) fn add(&mut self, records: u64, bytes: u64) -> Result<(), AllocError> {
        *self = WrittenTotals {
            files: sum(self.files, 1)?,
            records: sum(self.records, records)?,
            bytes: sum(self.bytes, bytes)?,
        };
        Ok(())
    }

    /// Appends the totals, and how many references no series record binds.
    pub(crate) fn push(self, text: &mut String, unbound: u64) -> Result<(), AllocError>
        ensures { OnOk result ((more : List ℕ) × (string_bytes text.new ≡ string_bytes text.old ++ more)) }
    {
        let WrittenTotals {
            files,
            records,
            bytes,
        } = self;
        push_numbers(
            text,
            &[
                ("files", files),
                ("records", records),
                ("bytes", bytes),
                ("unbound", unbound),
            ],
        )
    }
}

// Returns the sum of two numbers, or an error if there is none of 64 bits.
fn sum(one: u64, other: u64) -> Result<u64, AllocError> {
    one.checked_add(other).ok_or(AllocError)
}

// Appends the front of the line that reports damage: the file, and the offset in it in bytes.
fn push_front(text: &mut String, found: FileDamage) -> Result<(), AllocError>
    ensures { OnOk result (string_bytes text.new ≡ string_bytes text.old ++ damage_front found) }
{
    let place = Place {
        in_checkpoint: found.in_checkpoint,
        file: found.number,
        offset: found.damage.offset,
    };
    let (of, file, offset) = (kind_of_file(place), FileNumber(place.file), place.offset);
    write!(text, "damage {of} {file} offset {offset} ")
}

// Appends the line that reports damage: the file, the offset in it in bytes, and why.
fn push_damage(alloc: Global, text: &mut String, found: FileDamage) -> Result<(), AllocError>
    ensures { OnOk result ((why : List ℕ) × (string_bytes text.new ≡ string_bytes text.old ++ (damage_front found ++ (why ++ 10 ∷ [])))) }
{
    push_front(text, found)?;
    // apart, since no contract says what its text is
    let fault = found.damage.fault;
    let why = format!(in alloc; "{fault}")?;
    text.push_str(&why)?;
    text.push('\n')
}

// Returns the numbers of what was written, one a line, and the damage, if there is one.
fn log_text(
    alloc: Global,
    totals: WrittenTotals,
    damage: Option<FileDamage>,
) -> Result<String, AllocError>
    ensures { IfOk result (λ text. IfSome damage (λ bad. EndsWith bad (string_bytes text))) }
{
    let WrittenTotals {
        files,
        records,
        bytes,
    } = totals;
    let mut text = String::new(alloc);
    push_numbers(
        &mut text,
        &[("files", files), ("records", records), ("bytes", bytes)],
    )?;
    if let Some(damage) = damage {
        push_damage(alloc, &mut text, damage)?;
    }
    Ok(text)
}

// Returns `Done`, or `Damaged` if there is damage.
fn status_of(damage: Option<FileDamage>) -> Status
    ensures done { result ≡ Status.Done → damage ≡ None }
    ensures damaged { result ≡ Status.Damaged → IsSome damage }
{
    match damage {
        Some(_) => Status::Damaged,
        None => Status::Done,
    }
}

/// Returns the answer where nothing is written: the line that reports the damage.
pub(crate) fn damage_answer(alloc: Global, found: FileDamage) -> Result<Answer, AllocError>
    ensures told { IfOk result (TellsUnpacked (Some found)) }
    ensures fault { IfOk result (λ answer. answer.fault ≡ None) }
{
    let mut text = String::new(alloc);
    push_damage(alloc, &mut text, found)?;
    Ok(Answer::done(text, Status::Damaged))
}

/// Returns the answer where a log is written: the numbers of what was written, and the damage, if there is one.
pub(crate) fn log_answer(
    alloc: Global,
    totals: WrittenTotals,
    damage: Option<FileDamage>,
) -> Result<Answer, AllocError>
    ensures told { IfOk result (TellsUnpacked damage) }
    ensures fault { IfOk result (λ answer. answer.fault ≡ None) }
{
    let text = log_text(alloc, totals, damage)?;
    Ok(Answer::done(text, status_of(damage)))
}
