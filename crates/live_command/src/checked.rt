//! The rows of one input. Labels that come again are checked once.

use answers::Fault;
use hash_seed::HashSeed;
use head_live::{AgainRow, PrepareFault, Prepared, RawRow};
use indexmap::IndexSet;
use std::alloc::Global;
use wal_record::LabelFault;
use write_commands::{RowParts, read_labels, read_parts};

/// The texts of labels that came, each with the row that was checked of it: both have the same place.
#[derive(Drop)]
pub(crate) struct CheckedRows {
    texts: IndexSet<String, HashSeed>,
    prepared: Prepared,
    // the place behind that of the last row: labels that come again mostly do so in the same order
    next: usize,
}

// Converts the fault of preparing the row of a line to the program's fault.
fn of_prepare(fault: PrepareFault, line: u64) -> Fault {
    match fault {
        PrepareFault::Labels {
            fault: LabelFault::EmptyName,
            ..
        } => Fault::EmptyLabelName { line },
        PrepareFault::Labels {
            fault: LabelFault::NotAscending,
            ..
        } => Fault::LabelsNotAscending { line },
        PrepareFault::Labels {
            fault: LabelFault::Memory,
            ..
        }
        | PrepareFault::Memory => Fault::OutOfMemory,
    }
}

impl CheckedRows {
    /// Makes one to which no row came.
    pub(crate) fn new(alloc: Global, seed: HashSeed) -> Result<CheckedRows, Fault> {
        match Prepared::new(alloc, &[]) {
            Ok(prepared) => Ok(CheckedRows {
                texts: IndexSet::with_hasher(alloc, seed),
                prepared,
                next: 0,
            }),
            Err(_) => Err(Fault::OutOfMemory),
        }
    }

    // Checks labels that came for the first time.
    fn add(&mut self, alloc: Global, line: u64, parts: &RowParts<'_>) -> Result<usize, Fault> {
        let Some(pairs) = read_labels(alloc, parts.labels)? else {
            return Err(Fault::NotARow { line });
        };
        let text = String::from_str(alloc, parts.labels)?;
        // once the row is checked, its text has a place too
        self.texts.reserve(1)?;
        let raw = [RawRow {
            pairs,
            time: parts.time,
            value: parts.value,
        }];
        if let Err(fault) = self.prepared.add(&raw) {
            return Err(of_prepare(fault, line));
        }
        match self.texts.insert_full(text) {
            Ok((place, _)) => Ok(place),
            Err(_) => Err(Fault::OutOfMemory),
        }
    }

    // Returns the place of labels that came before in the same words.
    fn place_of(&self, labels: &str) -> Option<usize> {
        match self.texts.get_index(self.next) {
            Some(text) if text.as_str() == labels => Some(self.next),
            _ => self.texts.get_index_of(labels),
        }
    }

    /// Parses a line as a row, and checks its labels unless they came before in the same words. If it is no row, the fault says its line.
    pub(crate) fn row(
        &mut self,
        alloc: Global,
        line: u64,
        text: &str,
        floats: bool,
    ) -> Result<AgainRow, Fault> {
        let Some(parts) = read_parts(text, floats) else {
            return Err(Fault::NotARow { line });
        };
        let place = match self.place_of(parts.labels) {
            Some(place) => place,
            None => self.add(alloc, line, &parts)?,
        };
        self.next = place.saturating_add(1);
        Ok(AgainRow {
            place,
            time: parts.time,
            value: parts.value,
        })
    }

    /// Prepares these rows.
    pub(crate) fn prepare(&mut self, rows: &[AgainRow]) -> Result<&Prepared, Fault> {
        match self.prepared.again(rows) {
            Ok(()) => Ok(&self.prepared),
            // each row has a place
            Err(_) => Err(Fault::OutOfMemory),
        }
    }
}
