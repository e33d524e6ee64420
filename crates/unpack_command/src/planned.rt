//! Which files are to be unpacked.

use wal_log::Named;

/// Planned files in a directory, in order: those of the checkpoint, or the segments.
#[derive(Clone, Copy)]
pub(crate) struct PlannedFiles<'d, 's, 'n> {
    pub(crate) in_checkpoint: bool,
    pub(crate) dir: &'d str,
    pub(crate) names: &'s [Named<'n>],
}

/// The planned files of a checkpoint, in its directory, and its number.
#[derive(Clone, Copy)]
pub(crate) struct PlannedCheckpoint<'c> {
    pub(crate) number: u64,
    pub(crate) dir: &'c str,
    pub(crate) names: &'c [Named<'c>],
}

/// The planned files of a log: those of its newest checkpoint, if there is one, and the segments past it, in its directory.
#[derive(Clone, Copy)]
pub(crate) struct PlannedLog<'c, 'd, 's, 'n> {
    pub(crate) checkpoint: Option<PlannedCheckpoint<'c>>,
    pub(crate) dir: &'d str,
    pub(crate) segments: &'s [Named<'n>],
}

impl<'c> PlannedCheckpoint<'c> {
    ghost use Rattle.std.specs.Prelude.{◌≡◌, true};

    /// Returns its files.
    pub(crate) fn files(&self) -> PlannedFiles<'c, 'c, 'c>
        ensures kind { result.in_checkpoint ≡ true }
        ensures dir { result.dir.now ≡ self.now.dir.now }
        ensures names { result.names.now ≡ self.now.names.now }
    {
        PlannedFiles {
            in_checkpoint: true,
            dir: self.dir,
            names: self.names,
        }
    }
}

impl<'c, 'd, 's, 'n> PlannedLog<'c, 'd, 's, 'n> {
    ghost use Rattle.std.specs.Prelude.{◌≡◌, false};

    /// Returns its segments past the checkpoint.
    pub(crate) fn segments(&self) -> PlannedFiles<'d, 's, 'n>
        ensures kind { result.in_checkpoint ≡ false }
        ensures dir { result.dir.now ≡ self.now.dir.now }
        ensures names { result.names.now ≡ self.now.segments.now }
    {
        PlannedFiles {
            in_checkpoint: false,
            dir: self.dir,
            names: self.segments,
        }
    }
}
