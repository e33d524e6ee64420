//! An input of rows, read as they come.

use crate::lines::Lines;
use crate::shared::Shared;
use answers::{Fault, Output};
use hash_seed::HashSeed;
use std::alloc::Global;
use std::io::{ErrorKind, Read};
use std::sync::Wait;
use std::time::Clock;
use store::{Store, StoreFault};

// How many bytes are asked for at once.
const READ_BYTES: usize = 64 * 1024;

/// Where rows come from.
#[derive(Drop)]
pub struct RowInput<I: Read + Drop> {
    /// What faults call it: a path, say.
    pub name: String,
    pub source: I,
}

/// An input of rows, one a line.
#[derive(Drop)]
pub(crate) struct Feed<I: Read + Drop> {
    alloc: Global,
    input: RowInput<I>,
    // what was read and is not answered
    bytes: Vec<u8>,
    lines: Lines,
}

// Returns how many bytes the whole lines among some bytes have, of which the first ones end no line.
fn end_of_lines(bytes: &[u8], first: usize) -> Option<usize> {
    let (_, new) = bytes.split_at_checked(first)?;
    let last = new.iter().rposition(|byte| *byte == b'\n')?;
    Some(first.saturating_add(last).saturating_add(1))
}

impl<I: Read + Drop> Feed<I> {
    /// Makes a feed of an input.
    pub(crate) fn new(alloc: Global, input: RowInput<I>, seed: HashSeed) -> Result<Feed<I>, Fault> {
        Ok(Feed {
            alloc,
            input,
            bytes: Vec::new(alloc),
            lines: Lines::new(alloc, seed)?,
        })
    }

    // Reads what has come. Returns whether anything came before the end.
    fn fill(&mut self) -> Result<bool, Fault> {
        let held = self.bytes.len();
        self.bytes.resize(held.saturating_add(READ_BYTES), 0)?;
        let (_, room) = self.bytes.split_at_mut(held);
        let count = match self.input.source.read(room) {
            Ok(count) => count,
            // nothing came, and it may go on
            Err(error) if error.kind() == ErrorKind::Interrupted => {
                self.bytes.truncate(held);
                return Ok(true);
            }
            Err(error) => {
                let fault = StoreFault::from(error);
                return Err(Fault::cannot_read(self.alloc, &self.input.name, fault));
            }
        };
        self.bytes.truncate(held.saturating_add(count));
        Ok(count != 0)
    }

    // Answers the whole lines among what was read, of which the first bytes end no line. Returns whether to go on.
    fn answer<R, S, O>(
        &mut self,
        rt: &R,
        shared: &Shared<'_, S, O>,
        first: usize,
    ) -> Result<bool, Fault>
    where
        R: Clock + Wait,
        S: Store + Drop,
        O: Output + Drop,
    {
        let Some(end) = end_of_lines(&self.bytes, first) else {
            return Ok(true);
        };
        let Some((lines, rest)) = self.bytes.split_at_checked(end) else {
            return Ok(true);
        };
        let goes_on = self.lines.answer_all(rt, shared, lines)?;
        let rest = Vec::from_slice(self.alloc, rest)?;
        self.bytes = rest;
        Ok(goes_on)
    }
}

/// Appends the rows of an input batch by batch while they come, and prints the answers, until its end. A last line that no newline ends is no row:
/// not all of it may have come. Returns the first line that was no row, if there is one.
pub(crate) fn feed_rows<R, S, O, I>(
    rt: &R,
    shared: &Shared<'_, S, O>,
    mut feed: Feed<I>,
) -> Result<Option<u64>, Fault>
where
    R: Clock + Wait,
    S: Store + Drop,
    O: Output + Drop,
    I: Read + Drop,
{
    for _ in rt.forever() {
        let held = feed.bytes.len();
        if !feed.fill()? {
            break;
        }
        if !feed.answer(rt, shared, held)? {
            return Ok(feed.lines.first_refused());
        }
    }
    if !feed.bytes.is_empty() {
        feed.lines.refuse_rest(rt, shared)?;
    }
    Ok(feed.lines.first_refused())
}
