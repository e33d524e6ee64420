//! What is printed of a log of which all that can be read is written.

ghost use Rattle.std.specs.Prelude.{◌≡◌, ◌==◌, if◌then◌else◌, IfOk, List, None, OnOk};
ghost use Rattle.unpack_command.specs.Reports.{Tells, BeginsReport};
ghost use Rattle.log_directory.specs.Rescued.{lost_of};
ghost use Rattle.unpack_command.specs.Rescues.{TellsRescued};

use crate::report::WrittenTotals;
use answers::{Answer, Status};
use log_directory::{Lost, RescuedText, push_lost};
use std::alloc::{AllocError, Global};
use wal_survey::SeenReferences;

/// What is reported: a line for each part that is lost, and how much is written. And the references of all records that are written, which are
/// lent where a file is read.
#[derive(Drop)]
pub(crate) struct Report {
    pub(crate) lines: String,
    /// How many parts are lost.
    pub(crate) lost: u64,
    pub(crate) totals: WrittenTotals,
    pub(crate) references: Option<SeenReferences>,
}

impl Report {
    /// Makes the report of nothing.
    pub(crate) fn new(alloc: Global, references: SeenReferences) -> Report
        ensures { BeginsReport result }
    {
        Report {
            lines: String::new(alloc),
            lost: 0,
            totals: WrittenTotals::none(),
            references: Some(references),
        }
    }

    /// Tells of a file that is written.
    pub(crate) fn add(
        &mut self,
        alloc: Global,
        in_checkpoint: bool,
        number: u64,
        file: &RescuedText,
    ) -> Result<(), AllocError>
        ensures { OnOk result (Tells (lost_of in_checkpoint number file.now.lost.items) self.old self.new) }
    {
        push_lost(alloc, &mut self.lines, in_checkpoint, number, &file.lost)?;
        let lost = file.lost.len() as u64;
        self.lost = self.lost.checked_add(lost).ok_or(AllocError)?;
        self.totals.add(file.records, file.text.len() as u64)
    }

    // Returns `Done` if nothing is lost, else `Damaged`.
    fn status(&self) -> Status
        ensures { result ≡ (if self.now.lost == 0 then Status.Done else Status.Damaged) }
    {
        if self.lost == 0 {
            Status::Done
        } else {
            Status::Damaged
        }
    }

    /// Returns the answer: a line for each part that is lost, the numbers of what is written, and how many references no series record that is
    /// written binds.
    pub(crate) fn answer(self, alloc: Global) -> Result<Answer, AllocError>
        ensures told { (lost : List Lost) → (start : Report) → BeginsReport start → Tells lost start self → IfOk result (TellsRescued lost) }
        ensures fault { IfOk result (λ answer. answer.fault ≡ None) }
    {
        let status = self.status();
        let unbound = match &self.references {
            Some(references) => references.unbound().references,
            None => 0,
        };
        let Report {
            lines,
            lost: _,
            totals,
            references: _references,
        } = self;
        let mut text = lines;
        totals.push(&mut text, unbound)?;
        Ok(Answer::done(text, status))
    }
}
