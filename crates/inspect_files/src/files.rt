//! The survey of one file of a log.

ghost use Rattle.std.specs.Prelude.{◌≡◌, IfOk, length};
ghost use Rattle.wal_page.specs.File.{pages_of};
ghost use Rattle.wal_page.specs.Page.{is_pad};
ghost use Rattle.inspect_files.specs.Files.{AreFigures, HasSurveyed, has_zeros_alone};

use log_directory::PartFile;
use std::alloc::{AllocError, Global};
use store::Unread;
use wal_page::PAGE_SIZE;
use wal_survey::{SeenReferences, Survey, survey};

/// What one file of a log holds.
#[derive(Debug, Drop)]
pub struct FileSurvey {
    /// Whether the file is one of the checkpoint's, and not a segment.
    pub in_checkpoint: bool,
    /// The number in the file's name.
    pub number: u64,
    pub bytes: u64,
    /// The number of pages. The last one may be shorter than the others.
    pub pages: u64,
    /// Whether the file has bytes, and all of them are zero.
    pub is_zeros: bool,
    /// What the file holds.
    pub survey: Survey,
    /// What of the file cannot be read, in order. There are zeros in the place of these bytes, if their number is known.
    pub unread: Vec<Unread>,
}

// Returns the number of pages of a file.
fn pages_in(bytes: &[u8]) -> u64
    ensures { result ≡ length (pages_of bytes.now) }
{
    bytes.len().div_ceil(PAGE_SIZE) as u64
}

// Returns whether all bytes are zero.
fn are_zeros(bytes: &[u8]) -> bool
    ensures { result ≡ is_pad bytes.now }
{
    bytes.iter().all(|byte| *byte == 0)
}

// Returns whether there are bytes, and all of them are zero.
fn is_zeros(bytes: &[u8]) -> bool
    ensures { result ≡ has_zeros_alone bytes.now }
{
    bytes.len() > 0 && are_zeros(bytes)
}

/// Surveys a file of a log, one of the checkpoint's or a segment, as far as it can be read. Takes the references that its records bind and
/// name, and returns them. Returns an error if out of memory.
pub fn survey_file(
    alloc: Global,
    in_checkpoint: bool,
    part: PartFile,
    references: SeenReferences,
) -> Result<(FileSurvey, SeenReferences), AllocError>
    ensures { IfOk result (λ found. HasSurveyed (AreFigures in_checkpoint part.file part.unread.items) found.0 references found.1) }
{
    let PartFile { file, unread } = part;
    let (survey, references) = survey(alloc, in_checkpoint, &file, references)?;
    let bytes = file.bytes.as_slice();
    let figures = FileSurvey {
        in_checkpoint,
        number: file.number,
        bytes: bytes.len() as u64,
        pages: pages_in(bytes),
        is_zeros: is_zeros(bytes),
        survey,
        unread,
    };
    Ok((figures, references))
}
