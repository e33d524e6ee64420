//! How far a run is that writes blocks: their names, and what is printed of them.

ghost use Rattle.std.specs.Prelude.{◌≡◌, IfOk, map};

use crate::cutting::{NamedBlock, NamedHour};
use crate::naming::{free_name, next_of};
use crate::report::{Telling, printed};
use crate::told::{HourBlock, told_of};
use answers::Fault;
use block_read::Ulid;
use head_column::Hour;
use std::alloc::{AllocError, Global};

/// How far a run is.
pub(crate) struct Run<'a> {
    telling: &'a Telling<'a>,
    // How many blocks there are once those of all hours that are expected are.
    expected: usize,
    // The name of the next block that is written, unless another has it. `None` after the last name.
    next: Option<Ulid>,
    // The blocks of the hours so far, the one that is about to be written among them.
    blocks: Vec<HourBlock>,
    // The text that is printed, once the block of the last hour that is expected is among them.
    text: String,
}

impl Drop for Run<'_> {
    fn drop(self) {
        let Run {
            telling: _,
            expected: _,
            next: _,
            blocks: _blocks,
            text: _text,
        } = self;
    }
}

impl<'a> Run<'a> {
    /// Makes a run that expects no hour yet. It writes its first block under this name.
    pub(crate) fn new(
        alloc: Global,
        telling: &'a Telling<'a>,
        first: Ulid,
    ) -> Result<Run<'a>, AllocError> {
        let text = printed(alloc, telling, &[])?;
        Ok(Run {
            telling,
            expected: 0,
            next: Some(first),
            blocks: Vec::new(alloc),
            text,
        })
    }

    /// Returns the text.
    pub(crate) fn into_text(self) -> String {
        let Run {
            telling: _,
            expected: _,
            next: _,
            blocks: _blocks,
            text,
        } = self;
        text
    }

    /// Returns whether the hours are those of several passes over a log.
    pub(crate) fn is_in_passes(&self) -> bool {
        matches!(self.telling, Telling::Blocks { passes } if *passes > 1)
    }

    /// Expects so many hours more, whose blocks come next.
    pub(crate) fn expect(&mut self, hours: usize) {
        self.expected = self.expected.saturating_add(hours);
    }

    // Adds the block of an hour. With the last one that is expected the text is made, so that nothing can fail once that block is written.
    fn add(&mut self, alloc: Global, block: HourBlock) -> Result<(), AllocError> {
        self.blocks.push(block)?;
        if self.blocks.len() == self.expected {
            self.text = printed(alloc, self.telling, &self.blocks)?;
        }
        Ok(())
    }

    /// Notes the block of an hour.
    pub(crate) fn note(
        &mut self,
        alloc: Global,
        named: &NamedBlock,
        is_written: bool,
    ) -> Result<(), AllocError> {
        let block = told_of(alloc, named, is_written)?;
        self.add(alloc, block)
    }

    /// Returns the name of the next block that is written. Returns `BadUlid` after the last name.
    pub(crate) fn next_name(&mut self, names: &[String]) -> Result<Ulid, Fault> {
        let Some(first) = self.next else {
            return Err(Fault::BadUlid);
        };
        let Some(ulid) = free_name(first, names) else {
            return Err(Fault::BadUlid);
        };
        self.next = next_of(&ulid);
        Ok(ulid)
    }

    /// Names the blocks of hours that are all written.
    pub(crate) fn name_each(
        &mut self,
        alloc: Global,
        hours: &[Hour],
        names: &[String],
    ) -> Result<Vec<NamedHour>, Fault>
        ensures { IfOk result (λ named. map (λ it. it.hour) named.items ≡ hours.now) }
    {
        let mut named = Vec::new(alloc);
        for hour in hours {
            let ulid = self.next_name(names)?;
            named.push(NamedHour { hour: *hour, ulid })?;
        }
        Ok(named)
    }
}
