//! The lines that report what is lost of a log.

ghost use Rattle.std.specs.Prelude.{◌≡◌, ◌++◌, ◌∷◌, [], ℕ, List, OnOk, string_bytes};
ghost use Rattle.answers.specs.Damages.{file_number, kind_of_file as kind_word};
ghost use Rattle.log_directory.specs.LostLines.{AreLines, bytes_at, lost_front};
ghost use Rattle.log_directory.specs.Rescued.{lost_of};

use crate::lost::{Lost, LostPart};
use answers::{FileNumber, kind_of_file};
use std::alloc::{AllocError, Global};
use wal_log::Place;

// Appends where a part is in a file.
fn push_place(lines: &mut String, offset: u64, bytes: u64) -> Result<(), AllocError>
    ensures { OnOk result (string_bytes lines.new ≡ string_bytes lines.old ++ bytes_at offset bytes) }
{
    write!(lines, " offset {offset} bytes {bytes} ")
}

// Appends a word and a file.
fn push_file(lines: &mut String, word: &str, lost: Lost) -> Result<(), AllocError>
    ensures { OnOk result (string_bytes lines.new ≡ string_bytes lines.old ++ (word.now ++ (kind_word lost.in_checkpoint ++ (32 ∷ file_number lost.number)))) }
{
    let place = Place {
        in_checkpoint: lost.in_checkpoint,
        file: lost.number,
        offset: 0,
    };
    let (of, file) = (kind_of_file(place), FileNumber(lost.number));
    write!(lines, "{word}{of} {file}")
}

// Appends the front of the line that reports what is lost.
fn push_front(lines: &mut String, lost: Lost) -> Result<(), AllocError>
    ensures { OnOk result (string_bytes lines.new ≡ string_bytes lines.old ++ lost_front lost) }
{
    match lost.part {
        LostPart::Missing => push_file(lines, "missing ", lost),
        LostPart::CannotRead(unread) => {
            push_file(lines, "unread ", lost)?;
            push_place(lines, unread.offset, unread.bytes)
        }
        LostPart::PassedOver(passed) => {
            push_file(lines, "passed ", lost)?;
            push_place(lines, passed.damage.offset, passed.bytes)
        }
    }
}

impl LostPart {
    /// Returns why the part is lost, or no text for a file that is missing.
    pub fn reason(self, alloc: Global) -> Result<String, AllocError> {
        match self {
            LostPart::Missing => Ok(String::new(alloc)),
            LostPart::CannotRead(unread) => {
                let reason = unread.reason;
                format!(in alloc; "{reason}")
            }
            LostPart::PassedOver(passed) => {
                let fault = passed.damage.fault;
                format!(in alloc; "{fault}")
            }
        }
    }
}

// Appends the line that reports what is lost.
fn push_line(alloc: Global, lines: &mut String, lost: Lost) -> Result<(), AllocError>
    ensures { OnOk result ((why : List ℕ) × (string_bytes lines.new ≡ string_bytes lines.old ++ (lost_front lost ++ (why ++ 10 ∷ [])))) }
{
    push_front(lines, lost)?;
    // apart, since no contract says what its text is
    let why = lost.part.reason(alloc)?;
    lines.push_str(&why)?;
    lines.push('\n')
}

/// Appends a line for each part that is lost of a file.
pub fn push_lost(
    alloc: Global,
    lines: &mut String,
    in_checkpoint: bool,
    number: u64,
    parts: &[LostPart],
) -> Result<(), AllocError>
    ensures { OnOk result ((text : List ℕ) × AreLines (lost_of in_checkpoint number parts.now) text × (string_bytes lines.new ≡ string_bytes lines.old ++ text)) }
{
    for part in parts {
        let lost = Lost {
            in_checkpoint,
            number,
            part: *part,
        };
        push_line(alloc, lines, lost)?;
    }
    Ok(())
}
