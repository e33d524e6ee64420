//! What the figures of a log may mean: remarks.

ghost use Rattle.std.specs.Prelude.{◌≡◌, ◌↔◌, ◌^◌, ◌++◌, Contains, [], IfNone, IfOk, IfSome, OnOk};
ghost use Rattle.wal_log.specs.Inputs.{following};
ghost use Rattle.inspect_command.specs.Remarks.{AreInOrder, Holds, first_segment};
ghost use Rattle.inspect_command.specs.Remarking.{checkpoint_remark, file_remarks, first_remark, log_remark, passed_remark, some_of, unbound_remark};

use crate::on_file::{add_on_file, are_read, has_checkpoint_file};
use answers::Status;
use inspect_files::{FileSurvey, Inspection};
use std::alloc::{AllocError, Global};
use std::fmt;
use store::Unread;
use wal_survey::{Readable, Unbound, UnboundReference};
use wal_unpack::UnpackDamage;

/// A file of a log: whether it is one of the checkpoint's or a segment, and its number.
#[derive(Clone, Copy, Debug, PartialEq, Eq)]
pub struct NumberedFile {
    pub in_checkpoint: bool,
    pub number: u64,
}

impl fmt::Display for NumberedFile {
    fn fmt<W: fmt::Write>(&self, f: &mut fmt::Formatter<W>) -> fmt::Result {
        let kind = if self.in_checkpoint {
            "checkpoint"
        } else {
            "segment"
        };
        write!(f, "{kind} {:08}", self.number)
    }
}

/// Damage of a file, the first, and how much of the file can be read, also after damage.
#[derive(Clone, Copy, Debug, PartialEq, Eq)]
pub struct FileDamage {
    pub file: NumberedFile,
    pub damage: UnpackDamage,
    pub readable: Readable,
}

/// What the figures of a log may mean: each remark says that something is missing, or that it may be.
#[derive(Clone, Copy, Debug, PartialEq, Eq)]
pub enum Remark {
    /// The directory has no file of a log. `has_wal` says whether it has a file or a directory named `wal`.
    NoLog {
        has_wal: bool,
    },
    /// The segments from number `from` on, up to the first one that is there, are missing.
    SegmentsMissing {
        from: u64,
        first: u64,
    },
    /// No segment is past the checkpoint: `next` would be the first. A server begins again with 0, and passes that over at its next start.
    NoneBehind {
        next: u64,
    },
    /// The directory of this checkpoint, which is the newest, has no file.
    EmptyCheckpoint {
        checkpoint: u64,
    },
    /// So many segments are not past the checkpoint, and are not read.
    PassedOver {
        segments: u64,
    },
    /// A part of a file cannot be read, or nothing of it: `unread` is the first such part.
    Unread {
        file: NumberedFile,
        unread: Unread,
    },
    /// A file of the checkpoint before its last one has no bytes.
    Empty(NumberedFile),
    /// A file before the last one has zeros alone.
    Zeros(NumberedFile),
    /// The last file ends inside a record, as a crash leaves it.
    TornEnd(FileDamage),
    /// A file is damaged in another way, or has a hole.
    Damaged(FileDamage),
    /// The files with the numbers `from` to `to` are missing between two files that are there, both segments or both the checkpoint's.
    Gap {
        from: u64,
        to: u64,
        in_checkpoint: bool,
    },
    /// This file and the next one, both segments or both the checkpoint's, have one number.
    SameNumber(NumberedFile),
    /// So many references of samples are bound by no series entry that was read, and this is the first of them. `all_read` says whether no
    /// record is hidden: not if a file cannot be read whole, if a file but the last has damage, or if the last has any but a torn end.
    UnboundReferences {
        references: u64,
        first: UnboundReference,
        all_read: bool,
    },
}

// Returns the number of the segment after a checkpoint, or 0 without one. `None` if that would be 2^64.
fn number_behind(checkpoint: Option<u64>) -> Option<u64>
    ensures some { IfSome result (λ number. number ≡ following checkpoint) }
    ensures none { IfNone result (following checkpoint ≡ 2 ^ 64) }
{
    match checkpoint {
        None => Some(0),
        Some(number) => number.checked_add(1),
    }
}

// Returns the number of the first segment, if there is one.
fn first_number(files: &[FileSurvey]) -> Option<u64>
    ensures { result ≡ first_segment files.now }
{
    files
        .iter()
        .find(|file| !file.in_checkpoint)
        .map(|file| file.number)
}

// Returns the remark on the number of the first segment, if there is one: by `from`, the number after the checkpoint, unless the first
// may have any number.
fn of_first(from: u64, is_any: bool, first: Option<u64>) -> Option<Remark>
    ensures { result ≡ first_remark from is_any first }
{
    match first {
        None => Some(Remark::NoneBehind { next: from }),
        Some(_) if is_any => None,
        Some(first) if from < first => Some(Remark::SegmentsMissing { from, first }),
        Some(_) => None,
    }
}

// Returns the remark on the log as a whole, if there is one.
fn of_log(inspection: &Inspection) -> Option<Remark>
    ensures { result ≡ log_remark inspection.now }
{
    let files = inspection.files.as_slice();
    if files.is_empty() {
        let has_wal = inspection.has_wal;
        return Some(Remark::NoLog { has_wal });
    }
    let first = first_number(files);
    let from = number_behind(inspection.checkpoint)?;
    of_first(from, inspection.is_wbl, first)
}

// Returns the remark on the checkpoint's directory, if there is one.
fn of_checkpoint(checkpoint: Option<u64>, files: &[FileSurvey]) -> Option<Remark>
    ensures { result ≡ checkpoint_remark checkpoint files.now }
{
    let checkpoint = checkpoint?;
    if has_checkpoint_file(files) {
        None
    } else {
        Some(Remark::EmptyCheckpoint { checkpoint })
    }
}

// Returns the remark on segments that are not past the checkpoint, if there are some.
fn of_passed(segments: u64) -> Option<Remark>
    ensures { result ≡ passed_remark segments }
{
    if segments == 0 {
        None
    } else {
        Some(Remark::PassedOver { segments })
    }
}

// Returns the remark on references that are not bound in these files, if there is one. In a `wbl` there is none: its references are bound in
// the directory `wal`, elsewhere.
fn of_unbound(unbound: Unbound, is_elsewhere: bool, files: &[FileSurvey]) -> Option<Remark>
    ensures { result ≡ unbound_remark unbound is_elsewhere files.now }
{
    if is_elsewhere {
        return None;
    }
    let Unbound { references, first } = unbound;
    let all_read = are_read(files);
    first.map(|first| Remark::UnboundReferences {
        references,
        first,
        all_read,
    })
}

/// Adds a remark, if there is one.
pub(crate) fn add(told: &mut Vec<Remark>, remark: Option<Remark>) -> Result<(), AllocError>
    ensures { OnOk result (told.new.items ≡ told.old.items ++ some_of remark) }
{
    if let Some(remark) = remark {
        told.push(remark)?;
    }
    Ok(())
}

// Adds the remarks on files, one after another.
fn add_of_files(told: &mut Vec<Remark>, files: &[FileSurvey]) -> Result<(), AllocError>
    ensures { OnOk result (told.new.items ≡ told.old.items ++ file_remarks files.now) }
{
    for at in 0..files.len() {
        let (_, later) = files.split_at(at + 1);
        add_on_file(told, &files[at], later)?;
    }
    Ok(())
}

/// Returns the remarks on a log: on its files as a whole, on the checkpoint's directory, on segments that are not past the checkpoint, on
/// each file, in order, and on references that are not bound.
pub fn remarks_on(alloc: Global, inspection: &Inspection) -> Result<Vec<Remark>, AllocError>
    ensures told { IfOk result (λ told. (r : Remark) → (Contains told.items r) ↔ (Holds inspection.now r)) }
    ensures order { IfOk result (λ told. AreInOrder inspection.now.files.items told.items) }
{
    let files = inspection.files.as_slice();
    let mut told = Vec::new(alloc);
    add(&mut told, of_log(inspection))?;
    add(&mut told, of_checkpoint(inspection.checkpoint, files))?;
    add(&mut told, of_passed(inspection.passed_over))?;
    add_of_files(&mut told, files)?;
    let unbound = of_unbound(inspection.unbound, inspection.is_wbl, files);
    add(&mut told, unbound)?;
    Ok(told)
}

/// Returns the exit status by the remarks on a log: `Done` if there is none, else `Damaged`.
pub(crate) fn status_of(remarks: &[Remark]) -> Status
    ensures done { (result ≡ Status.Done) ↔ (remarks.now ≡ []) }
    ensures damaged { (remarks.now ≡ [] → ⊥) → result ≡ Status.Damaged }
{
    if remarks.is_empty() {
        Status::Done
    } else {
        Status::Damaged
    }
}
