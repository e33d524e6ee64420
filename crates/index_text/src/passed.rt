//! Sections that are checked but not kept.

ghost use Rattle.std.specs.Prelude.{◌≡◌, List, ℕ, Result, length};
ghost use Rattle.index_text.specs.declared.fault.ReadFault.{ReadFault as Fault};
ghost use Rattle.index_text.specs.Gives.{Gives};
ghost use Rattle.index_text.specs.Reading.{elements_done, framed_done, only_done};

use crate::element::{aligned, framed};
use crate::fault::ReadFault;
use crate::skips::{
    all_read, label_index_contents, label_table_contents, postings_contents,
    postings_table_contents,
};

// The form of the contents of an element.
pub(crate) trait Contents {
    ghost done: { Self → List ℕ → Result (Unit {0}) Fault };

    // Checks that the bytes have this form.
    fn pass(&self, bytes: &[u8]) -> Result<(), ReadFault>
        ensures { Gives (λ x. x) result (done self.now bytes.now) };
}

// Checks the element at the front of a section's rest, and returns the bytes after it. The section ends at the offset `stop`.
#[tactic(auto, unfolding(crate::specs::Reading::framed_done))]
fn pass_element<'a, C: Contents>(
    form: &C,
    stop: usize,
    bytes: &'a [u8],
) -> Result<&'a [u8], ReadFault>
    ensures { Gives (λ x. x.now) result (framed_done (C.done form.now) stop bytes.now) }
{
    let start = aligned(bytes, 4, stop.saturating_sub(bytes.len()))?;
    let (contents, rest) = framed(start)?;
    form.pass(contents)?;
    Ok(rest)
}

// Checks all elements of a section, which ends at the offset `stop`.
pub(crate) fn pass_section<C: Contents>(
    form: &C,
    stop: usize,
    section: &[u8],
) -> Result<(), ReadFault>
    ensures { Gives (λ x. x) result (elements_done (framed_done (C.done form.now) stop) (length section.now) section.now) }
{
    let mut rest = section;
    for _ in 0..section.len() {
        if rest.is_empty() {
            return Ok(());
        }
        rest = pass_element(form, stop, rest)?;
    }
    Ok(())
}

// Checks a section that is one element.
#[tactic(auto, unfolding(crate::specs::Reading::only_done))]
pub(crate) fn pass_only<C: Contents>(form: &C, section: &[u8]) -> Result<(), ReadFault>
    ensures { Gives (λ x. x) result (only_done (C.done form.now) section.now) }
{
    let (contents, rest) = framed(section)?;
    form.pass(contents)?;
    all_read(rest)
}

// The contents of a label index. Its references are below the limit.
#[derive(Drop)]
pub(crate) struct LabelIndex {
    pub(crate) limit: u64,
}

impl Contents for LabelIndex {
    ghost use Rattle.index_text.specs.Fields.{label_index_done};

    ghost done = { λ form. label_index_done form.limit };

    fn pass(&self, bytes: &[u8]) -> Result<(), ReadFault> {
        label_index_contents(self.limit, bytes)
    }
}

// The contents of postings.
pub(crate) struct PostingsList;

impl Contents for PostingsList {
    ghost use Rattle.index_text.specs.Fields.{postings_done};

    ghost done = { λ _. postings_done };

    fn pass(&self, bytes: &[u8]) -> Result<(), ReadFault> {
        postings_contents(bytes)
    }
}

// The contents of the label offset table.
pub(crate) struct LabelTable;

impl Contents for LabelTable {
    ghost use Rattle.index_text.specs.Fields.{label_table_done};

    ghost done = { λ _. label_table_done };

    fn pass(&self, bytes: &[u8]) -> Result<(), ReadFault> {
        label_table_contents(bytes)
    }
}

// The contents of the postings offset table.
pub(crate) struct PostingsTable;

impl Contents for PostingsTable {
    ghost use Rattle.index_text.specs.Fields.{postings_table_done};

    ghost done = { λ _. postings_table_done };

    fn pass(&self, bytes: &[u8]) -> Result<(), ReadFault> {
        postings_table_contents(bytes)
    }
}
