//! The lines of an input, answered in batches.

use crate::batch::Batch;
use crate::checked::CheckedRows;
use crate::shared::Shared;
use answers::{Fault, Output};
use hash_seed::HashSeed;
use std::alloc::Global;
use std::str;
use std::sync::Wait;
use std::time::Clock;
use store::Store;

// The most lines of a batch.
const MOST_LINES: usize = 10_000;

/// The lines of an input, answered in batches.
#[derive(Drop)]
pub(crate) struct Lines {
    alloc: Global,
    checked: CheckedRows,
    batch: Batch,
    // the answers to a batch
    text: String,
    // the number of the last line
    line: u64,
    // the first line that was no row
    refused: Option<u64>,
}

impl Lines {
    /// Makes one before the first line.
    pub(crate) fn new(alloc: Global, seed: HashSeed) -> Result<Lines, Fault> {
        Ok(Lines {
            alloc,
            checked: CheckedRows::new(alloc, seed)?,
            batch: Batch::new(alloc),
            text: String::new(alloc),
            line: 0,
            refused: None,
        })
    }

    /// Returns the number of the first line that was no row, if there is one.
    pub(crate) fn first_refused(&self) -> Option<u64> {
        self.refused
    }

    // Adds the next line to the batch: its row, or why it is none. `text` is `None` if it is not UTF-8.
    fn push(&mut self, text: Option<&str>, floats: bool) -> Result<(), Fault> {
        self.line = self.line.saturating_add(1);
        let row = match text {
            Some(text) => self.checked.row(self.alloc, self.line, text, floats),
            None => Err(Fault::NotARow { line: self.line }),
        };
        if row.is_err() && self.refused.is_none() {
            self.refused = Some(self.line);
        }
        self.batch.push(row)
    }

    // Appends the batch, and prints its answers. Returns whether to go on: not if the log failed, or the run is to end.
    fn answer<R, S, O>(&mut self, rt: &R, shared: &Shared<'_, S, O>) -> Result<bool, Fault>
    where
        R: Clock + Wait,
        S: Store + Drop,
        O: Output + Drop,
    {
        if shared.is_ended() {
            return Ok(false);
        }
        let prepared = self.checked.prepare(self.batch.rows())?;
        let Some(verdicts) = shared.append(rt, prepared)? else {
            return Ok(false);
        };
        self.text.clear();
        self.batch.push_answers(&mut self.text, &verdicts)?;
        shared.print(rt, &self.text)?;
        self.batch.clear();
        Ok(true)
    }

    // Adds a line to the batch, and answers the batch if it is full. Returns whether to go on.
    fn take<R, S, O>(
        &mut self,
        rt: &R,
        shared: &Shared<'_, S, O>,
        text: Option<&str>,
    ) -> Result<bool, Fault>
    where
        R: Clock + Wait,
        S: Store + Drop,
        O: Output + Drop,
    {
        self.push(text, shared.request.floats)?;
        if self.batch.len() < MOST_LINES {
            return Ok(true);
        }
        self.answer(rt, shared)
    }

    // Takes lines, each but the last with its newline. Returns whether to go on.
    fn take_all<R, S, O>(
        &mut self,
        rt: &R,
        shared: &Shared<'_, S, O>,
        lines: &[u8],
    ) -> Result<bool, Fault>
    where
        R: Clock + Wait,
        S: Store + Drop,
        O: Output + Drop,
    {
        if let Ok(text) = str::from_utf8(lines) {
            for line in text.split('\n') {
                if !self.take(rt, shared, Some(line))? {
                    return Ok(false);
                }
            }
            return Ok(true);
        }
        // one of them is not UTF-8
        for line in lines.split(|byte| *byte == b'\n') {
            if !self.take(rt, shared, str::from_utf8(line).ok())? {
                return Ok(false);
            }
        }
        Ok(true)
    }

    /// Answers lines, each with its newline. Returns whether to go on.
    pub(crate) fn answer_all<R, S, O>(
        &mut self,
        rt: &R,
        shared: &Shared<'_, S, O>,
        lines: &[u8],
    ) -> Result<bool, Fault>
    where
        R: Clock + Wait,
        S: Store + Drop,
        O: Output + Drop,
    {
        let lines = lines.strip_suffix(b"\n").unwrap_or(lines);
        if !self.take_all(rt, shared, lines)? {
            return Ok(false);
        }
        if self.batch.is_empty() {
            return Ok(true);
        }
        self.answer(rt, shared)
    }

    /// Answers a last line that no newline ends: it is no row.
    pub(crate) fn refuse_rest<R, S, O>(
        &mut self,
        rt: &R,
        shared: &Shared<'_, S, O>,
    ) -> Result<(), Fault>
    where
        R: Clock + Wait,
        S: Store + Drop,
        O: Output + Drop,
    {
        let line = self.line.saturating_add(1);
        if self.refused.is_none() {
            self.refused = Some(line);
        }
        self.batch.push(Err(Fault::NotARow { line }))?;
        self.answer(rt, shared)?;
        Ok(())
    }
}
