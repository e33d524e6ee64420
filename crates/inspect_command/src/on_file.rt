//! What the figures of one file may mean, by the files after it.

ghost use Rattle.std.specs.Prelude.{◌≡◌, ◌++◌, OnOk};
ghost use Rattle.inspect_command.specs.Remarks.{are_read as are_all_read, damage_hides as damage_may_hide, file_of as file_named, has_checkpoint_file as has_file_in_checkpoint, hides_records as may_hide_records, is_torn as is_torn_end, next_number};
ghost use Rattle.inspect_command.specs.Remarking.{blank_remark, damage_remark, empty_remark, found_remark, gap_remark, number_remark, own_remarks, unread_remark};

use crate::remarks::{FileDamage, NumberedFile, Remark, add};
use inspect_files::FileSurvey;
use std::alloc::AllocError;
use wal_page::FaultKind;
use wal_unpack::{UnpackDamage, UnpackFault};

/// Returns the file whose survey this is.
pub(crate) fn file_of(file: &FileSurvey) -> NumberedFile
    ensures { result ≡ file_named file.now }
{
    NumberedFile {
        in_checkpoint: file.in_checkpoint,
        number: file.number,
    }
}

// Returns the remark on what of a file cannot be read, if there is something.
fn of_unread(file: &FileSurvey) -> Option<Remark>
    ensures { result ≡ unread_remark file.now }
{
    let unread = file.unread.as_slice().first().copied();
    let file = file_of(file);
    unread.map(|unread| Remark::Unread { file, unread })
}

// Returns whether a file ends inside a record.
fn is_torn(fault: UnpackFault) -> bool
    ensures { result ≡ is_torn_end fault }
{
    matches!(fault, UnpackFault::InFile(FaultKind::Torn))
}

// Returns the remark on damage in a file, which is the last one or not.
fn of_damage(file: &FileSurvey, damage: UnpackDamage, is_last: bool) -> Remark
    ensures { result ≡ damage_remark file.now damage is_last }
{
    let told = FileDamage {
        file: file_of(file),
        damage,
        readable: file.survey.readable,
    };
    if is_last && is_torn(damage.fault) {
        Remark::TornEnd(told)
    } else {
        Remark::Damaged(told)
    }
}

/// Returns whether one of the files is the checkpoint's.
pub(crate) fn has_checkpoint_file(files: &[FileSurvey]) -> bool
    ensures { result ≡ has_file_in_checkpoint files.now }
{
    files.iter().any(|file| file.in_checkpoint)
}

// Returns the remark on a file of no bytes, if there is one. A server leaves an empty segment at each start without writes.
fn of_empty(file: &FileSurvey, later: &[FileSurvey]) -> Option<Remark>
    ensures { result ≡ empty_remark file.now later.now }
{
    if file.in_checkpoint && has_checkpoint_file(later) {
        Some(Remark::Empty(file_of(file)))
    } else {
        None
    }
}

// Returns the remark on a file without damage, after which come these files, if there is one.
fn of_blank(file: &FileSurvey, later: &[FileSurvey]) -> Option<Remark>
    ensures { result ≡ blank_remark file.now later.now }
{
    if file.bytes == 0 {
        of_empty(file, later)
    } else if file.is_zeros && !later.is_empty() {
        Some(Remark::Zeros(file_of(file)))
    } else {
        None
    }
}

// Returns the remark on what is found in a file, after which come these files, if there is one.
fn of_found(file: &FileSurvey, later: &[FileSurvey]) -> Option<Remark>
    ensures { result ≡ found_remark file.now later.now }
{
    match file.survey.damage {
        Some(damage) => Some(of_damage(file, damage, later.is_empty())),
        None if file.unread.is_empty() => of_blank(file, later),
        None => None,
    }
}

// Returns the number of the next file of a kind, one of the checkpoint's or a segment, if there is one.
fn number_of_next(in_checkpoint: bool, files: &[FileSurvey]) -> Option<u64>
    ensures { result ≡ next_number in_checkpoint files.now }
{
    files
        .iter()
        .find(|file| file.in_checkpoint == in_checkpoint)
        .map(|file| file.number)
}

// Returns the remark on the numbers between two files of one kind, if some are missing.
fn of_gap(in_checkpoint: bool, number: u64, next: u64) -> Option<Remark>
    ensures { result ≡ gap_remark in_checkpoint number next }
{
    let from = number.checked_add(1)?;
    if from < next {
        Some(Remark::Gap {
            from,
            to: next - 1,
            in_checkpoint,
        })
    } else {
        None
    }
}

// Returns the remark on the number of the next file of a file's kind, if there is one.
fn of_number(file: &FileSurvey, later: &[FileSurvey]) -> Option<Remark>
    ensures { result ≡ number_remark file.now later.now }
{
    let next = number_of_next(file.in_checkpoint, later)?;
    if file.number == next {
        Some(Remark::SameNumber(file_of(file)))
    } else {
        of_gap(file.in_checkpoint, file.number, next)
    }
}

/// Adds the remarks on a file, after which come these files: on what of it cannot be read, on what is found in it, on the next file's number.
pub(crate) fn add_on_file(
    told: &mut Vec<Remark>,
    file: &FileSurvey,
    later: &[FileSurvey],
) -> Result<(), AllocError>
    ensures { OnOk result (told.new.items ≡ told.old.items ++ own_remarks file.now later.now) }
{
    add(told, of_unread(file))?;
    add(told, of_found(file, later))?;
    add(told, of_number(file, later))
}

// Returns whether damage of a file, which is the last one or not, may hide records.
fn damage_hides(damage: Option<UnpackDamage>, is_last: bool) -> bool
    ensures { result ≡ damage_may_hide damage is_last }
{
    match damage {
        None => false,
        Some(damage) => !(is_last && is_torn(damage.fault)),
    }
}

// Returns whether a file, which is the last one or not, may have records that were not read.
fn hides_records(file: &FileSurvey, is_last: bool) -> bool
    ensures { result ≡ may_hide_records file.now is_last }
{
    !file.unread.is_empty() || damage_hides(file.survey.damage, is_last)
}

/// Returns whether all records of the files were read.
pub(crate) fn are_read(files: &[FileSurvey]) -> bool
    ensures { result ≡ are_all_read files.now }
{
    for at in 0..files.len() {
        let (_, later) = files.split_at(at + 1);
        if hides_records(&files[at], later.is_empty()) {
            return false;
        }
    }
    true
}
