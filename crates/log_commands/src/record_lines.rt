//! The lines of a log's records, printed some at a time.

ghost use Rattle.std.specs.Prelude.{◌≡◌, ◌++◌, [], OnOk, string_bytes};
ghost use Rattle.log_commands.specs.Printed.{kind_of_record, line_of};

use answers::{FileNumber, Output, PrintFault, kind_of_file, print_long};
use std::alloc::{AllocError, Global};
use wal_log::{Place, Placed};
use wal_record::{SampleEntry, WalRecord};
use wal_scan::RecordTaker;

/// Prints a line for each record that it takes: its place, its kind and its number of entries.
pub(crate) struct RecordLines<O: Output> {
    pub(crate) out: O,
    /// The lines that are not printed yet.
    pub(crate) text: String,
}

// Returns the kind of a record as it is printed, and its number of entries.
fn kind_of_record(record: &WalRecord) -> (&'static str, usize)
    ensures kind { result.0.now ≡ (kind_of_record record.now).0 }
    ensures count { result.1 ≡ (kind_of_record record.now).1 }
{
    match record {
        WalRecord::Series(entries) => ("series", entries.len()),
        WalRecord::Samples(entries) => ("samples", entries.len()),
        WalRecord::Stones(entries) => ("stones", entries.len()),
        WalRecord::Other(_) => ("skipped", 0),
    }
}

// Appends the line of a record at this place, of this kind, with so many entries.
fn push_line(text: &mut String, place: Place, kind: &str, count: usize) -> Result<(), AllocError>
    ensures { OnOk result (string_bytes text.new ≡ string_bytes text.old ++ line_of place kind.now count) }
{
    let Place { file, offset, .. } = place;
    let (of, file) = (kind_of_file(place), FileNumber(file));
    writeln!(text, "{of} {file} {offset} {kind} {count}")
}

impl<O: Output> RecordLines<O> {
    /// Makes one that has printed nothing.
    pub(crate) fn new(alloc: Global, out: O) -> RecordLines<O>
        ensures out { result.out ≡ out }
        ensures none { string_bytes result.text ≡ [] }
    {
        RecordLines {
            out,
            text: String::new(alloc),
        }
    }
}

impl<O: Output> RecordTaker for RecordLines<O> {
    ghost use Rattle.log_commands.specs.RecordLines.{HasMade};

    type Refusal = PrintFault;

    ghost took = { HasMade O.printed };

    fn take(&mut self, record: &Placed) -> Result<(), PrintFault> {
        let (kind, count) = kind_of_record(&record.content);
        push_line(&mut self.text, record.place, kind, count)?;
        print_long(&mut self.out, &mut self.text)?;
        Ok(())
    }

    fn take_samples(&mut self, place: Place, samples: &[SampleEntry]) -> Result<(), PrintFault> {
        push_line(&mut self.text, place, "samples", samples.len())?;
        print_long(&mut self.out, &mut self.text)?;
        Ok(())
    }
}
