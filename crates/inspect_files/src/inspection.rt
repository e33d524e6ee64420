//! The survey of the log in a directory, file by file.

ghost use Rattle.std.specs.Prelude.{◌≡◌, false, true, IfOk, map, string_bytes};
ghost use Rattle.std.specs.List.{count_by, list_any};
ghost use Rattle.std.specs.Option.{option_map};
ghost use Rattle.wal_log.specs.Plan.{named as name_of};
ghost use Rattle.store.specs.Views.{view_of};
ghost use Rattle.inspect_files.specs.Files.{HasSurveyed, HaveSurveyed};
ghost use Rattle.inspect_files.specs.Inspections.{AreCheckpointSurveys, AreFolderSurveys, AreListedSurveys, AreSurveysIn, IsInspectionIn, IsSurveyIn, is_passed_over as is_passed_over_of, is_wal, is_wbl as is_wbl_path};

use crate::files::{FileSurvey, survey_file};
use answers::Fault;
use log_directory::{Listing, list_files, list_log, names_in, read_listed};
use std::alloc::{AllocError, Global};
use std::path::Path;
use store::{Store, join};
use wal_log::{Named, segment_number};
use wal_survey::{SeenReferences, Unbound};

/// What the files of the log in a directory hold.
#[derive(Debug, Drop)]
pub struct Inspection {
    /// The number of the checkpoint, if there is one.
    pub checkpoint: Option<u64>,
    /// The files in the order of the log: those of the checkpoint, then the segments.
    pub files: Vec<FileSurvey>,
    /// The references of samples from the least valid time on that no series entry of these files binds.
    pub unbound: Unbound,
    /// How many segments of the directory are not past the checkpoint, and so none of these files.
    pub passed_over: u64,
    /// Whether the directory has a file or a directory named `wal`.
    pub has_wal: bool,
    /// Whether the directory is a server's `wbl`, by the last component of its path: records that came out of order, whose first segment
    /// has any number.
    pub is_wbl: bool,
}

// Returns whether a name is that of a segment which is not past the checkpoint.
fn is_passed_over(checkpoint: Option<u64>, name: &str) -> bool
    ensures { result ≡ is_passed_over_of checkpoint name.now }
{
    match (checkpoint, segment_number(name)) {
        (Some(checkpoint), Some(number)) => number <= checkpoint,
        _ => false,
    }
}

// Returns how many of these names are those of segments which are not past the checkpoint.
fn passed_over(checkpoint: Option<u64>, names: &[String]) -> u64
    ensures { result ≡ count_by (λ name. is_passed_over_of checkpoint (string_bytes name)) names.now }
{
    names
        .iter()
        .filter(|name| is_passed_over(checkpoint, name.as_str()))
        .count() as u64
}

// Returns whether one of these names is `wal`.
fn has_wal(names: &[String]) -> bool
    ensures { result ≡ list_any (λ name. is_wal (string_bytes name)) names.now }
{
    names.iter().any(|name| name.as_str() == "wal")
}

// Returns whether the last component of a path is `wbl`.
fn is_wbl(dir: &str) -> bool
    ensures { result ≡ is_wbl_path dir.now }
{
    match Path::new(dir).file_name() {
        Some(name) => name == "wbl",
        None => false,
    }
}

// Reads and surveys a listed file of a directory.
fn survey_in<S: Store>(
    alloc: Global,
    store: &S,
    dir: &str,
    in_checkpoint: bool,
    named: &Named<'_>,
    references: SeenReferences,
) -> Result<(FileSurvey, SeenReferences), AllocError>
    ensures { IfOk result (λ found. HasSurveyed (IsSurveyIn (view_of (S.holds store.now)) dir.now in_checkpoint (name_of named.now)) found.0 references found.1) }
{
    let part = read_listed(alloc, store, dir, named)?;
    survey_file(alloc, in_checkpoint, part, references)
}

// Reads and surveys the listed files of a directory, one after another.
fn survey_files<S: Store>(
    alloc: Global,
    store: &S,
    dir: &str,
    in_checkpoint: bool,
    names: &[Named<'_>],
    references: SeenReferences,
) -> Result<(Vec<FileSurvey>, SeenReferences), AllocError>
    ensures { IfOk result (λ found. HaveSurveyed (AreSurveysIn (view_of (S.holds store.now)) dir.now in_checkpoint (map name_of names.now)) found.0.items references found.1) }
{
    let mut files = Vec::new(alloc);
    let mut references = references;
    for named in names {
        let (file, kept) = survey_in(alloc, store, dir, in_checkpoint, named, references)?;
        references = kept;
        files.push(file)?;
    }
    Ok((files, references))
}

// Reads and surveys the files of a checkpoint, which is the directory.
fn survey_folder<S: Store>(
    alloc: Global,
    store: &S,
    dir: &str,
    references: SeenReferences,
) -> Result<(Vec<FileSurvey>, SeenReferences), Fault>
    ensures { IfOk result (λ found. HaveSurveyed (AreFolderSurveys (view_of (S.holds store.now)) dir.now) found.0.items references found.1) }
{
    let names = names_in(alloc, store, dir)?;
    let listed = list_files(alloc, &names, None)?;
    let found = survey_files(alloc, store, dir, true, &listed, references)?;
    Ok(found)
}

// Reads and surveys the files of the listed checkpoint, if there is one.
fn survey_checkpoint<S: Store>(
    alloc: Global,
    store: &S,
    dir: &str,
    named: Option<Named<'_>>,
    references: SeenReferences,
) -> Result<(Vec<FileSurvey>, SeenReferences), Fault>
    ensures { IfOk result (λ found. HaveSurveyed (AreCheckpointSurveys (view_of (S.holds store.now)) dir.now (option_map name_of named.entry)) found.0.items references found.1) }
{
    let Some(named) = named else {
        return Ok((Vec::new(alloc), references));
    };
    let path = join(alloc, dir, named.name)?;
    survey_folder(alloc, store, &path, references)
}

// Reads and surveys the listed files of a directory.
fn survey_listed<S: Store>(
    alloc: Global,
    store: &S,
    dir: &str,
    listing: &Listing<'_>,
    references: SeenReferences,
) -> Result<(Vec<FileSurvey>, SeenReferences), Fault>
    ensures { IfOk result (λ found. HaveSurveyed (AreListedSurveys (view_of (S.holds store.now)) dir.now (option_map name_of listing.now.checkpoint) (map name_of listing.now.segments.items)) found.0.items references found.1) }
{
    let (mut files, references) = survey_checkpoint(
        alloc,
        store,
        dir,
        listing.checkpoint,
        references,
    )?;
    let (mut segments, references) = survey_files(
        alloc,
        store,
        dir,
        false,
        &listing.segments,
        references,
    )?;
    files.append(&mut segments)?;
    Ok((files, references))
}

/// Surveys the log in a directory as far as it can be read: the files of its newest checkpoint and the segments past it, one after another,
/// and finds the references of samples, from the least valid time in milliseconds on, that no series entry of all these files binds. A number
/// may be missing between the files, and a checkpoint may have none. A file that cannot be read whole is surveyed as far as it can be. Returns
/// an error if the names of a directory cannot be read, or if out of memory.
pub fn inspect_log<S: Store>(
    alloc: Global,
    store: &S,
    dir: &str,
    min_valid: i64,
) -> Result<Inspection, Fault>
    ensures { IfOk result (IsInspectionIn (view_of (S.holds store.now)) dir.now min_valid) }
{
    let names = names_in(alloc, store, dir)?;
    let listing = list_log(alloc, &names)?;
    let references = SeenReferences::new(alloc, store.seed(), min_valid);
    let (files, references) = survey_listed(alloc, store, dir, &listing, references)?;
    let checkpoint = listing.checkpoint.map(|named| named.number);
    Ok(Inspection {
        checkpoint,
        files,
        unbound: references.unbound(),
        passed_over: passed_over(checkpoint, &names),
        has_wal: has_wal(&names),
        is_wbl: is_wbl(dir),
    })
}
