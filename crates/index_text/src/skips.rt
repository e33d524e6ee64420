//! Fields that are checked but not kept.

ghost use Rattle.std.specs.Prelude.{◌≡◌, List, ℕ};
ghost use Rattle.index_text.specs.Gives.{Gives, nothing_left, rest_of};
ghost use Rattle.index_text.specs.Fields.{Field, label_index_done, label_table_done, postings_done, postings_table_done, times};

use crate::fault::ReadFault;
use crate::fields::{fixed, four, four_below, marked, text, uvarint};

// The form of a field.
pub(crate) trait Skipped {
    ghost Value: { Type 0 };

    ghost field: { Self → Field Value };

    // Skips a field at the front, and returns the bytes after it.
    fn skip<'a>(&self, bytes: &'a [u8]) -> Result<&'a [u8], ReadFault>
        ensures { Gives (λ x. x.now) result (rest_of (field self.now bytes.now)) };
}

// Skips `count` fields.
pub(crate) fn skip_all<'a, F: Skipped>(
    form: &F,
    count: u64,
    bytes: &'a [u8],
) -> Result<&'a [u8], ReadFault>
    ensures { Gives (λ x. x.now) result (rest_of (times (F.field form.now) count bytes.now)) }
{
    let mut rest = bytes;
    for _ in 0..count {
        rest = form.skip(rest)?;
    }
    Ok(rest)
}

// A number of four bytes below the limit.
#[derive(Drop)]
pub(crate) struct FourBelow {
    pub(crate) limit: u64,
}

impl Skipped for FourBelow {
    ghost use Rattle.std.specs.Prelude.{ℕ};
    ghost use Rattle.index_text.specs.Fields.{four_below as four_below_in};

    ghost Value = { ℕ };

    ghost field = { λ form. four_below_in form.limit };

    fn skip<'a>(&self, bytes: &'a [u8]) -> Result<&'a [u8], ReadFault> {
        let (_, rest) = four_below(bytes, self.limit)?;
        Ok(rest)
    }
}

// A number of four bytes.
pub(crate) struct FourByteField;

impl Skipped for FourByteField {
    ghost use Rattle.std.specs.Prelude.{ℕ};
    ghost use Rattle.index_text.specs.Fields.{four as four_in};

    ghost Value = { ℕ };

    ghost field = { λ _. four_in };

    fn skip<'a>(&self, bytes: &'a [u8]) -> Result<&'a [u8], ReadFault> {
        let (_, rest) = four(bytes)?;
        Ok(rest)
    }
}

// An entry of the label offset table.
struct LabelEntry;

impl Skipped for LabelEntry {
    ghost use Rattle.std.specs.Prelude.{ℕ, List};
    ghost use Rattle.index_text.specs.Fields.{label_entry_field};

    ghost Value = { List ℕ × ℕ };

    ghost field = { λ _. label_entry_field };

    #[tactic(auto, unfolding(crate::specs::Fields::label_entry_field))]
    fn skip<'a>(&self, bytes: &'a [u8]) -> Result<&'a [u8], ReadFault> {
        let rest = marked(bytes, 1)?;
        let (_, rest) = text(rest)?;
        let (_, rest) = uvarint(rest)?;
        Ok(rest)
    }
}

// An entry of the postings offset table.
struct PostingsEntry;

impl Skipped for PostingsEntry {
    ghost use Rattle.std.specs.Prelude.{ℕ};
    ghost use Rattle.wal_record.specs.declared.labels.Label.{Label};
    ghost use Rattle.index_text.specs.Fields.{postings_entry_field};

    ghost Value = { Label × ℕ };

    ghost field = { λ _. postings_entry_field };

    #[tactic(auto, unfolding(crate::specs::Fields::postings_entry_field))]
    fn skip<'a>(&self, bytes: &'a [u8]) -> Result<&'a [u8], ReadFault> {
        let rest = marked(bytes, 2)?;
        let (_, rest) = text(rest)?;
        let (_, rest) = text(rest)?;
        let (_, rest) = uvarint(rest)?;
        Ok(rest)
    }
}

// Checks that no bytes are left.
pub(crate) fn all_read(rest: &[u8]) -> Result<(), ReadFault>
    ensures { Gives (λ x. x) result (nothing_left rest.now) }
{
    if rest.is_empty() {
        Ok(())
    } else {
        Err(ReadFault::BadSection)
    }
}

// Checks the contents of a label index. Its references must be below the limit.
#[tactic(auto, unfolding(crate::specs::Fields::label_index_done))]
pub(crate) fn label_index_contents(limit: u64, bytes: &[u8]) -> Result<(), ReadFault>
    ensures { Gives (λ x. x) result (label_index_done limit bytes.now) }
{
    let rest = fixed(bytes, 1)?;
    let (count, rest) = four(rest)?;
    let rest = skip_all(&FourBelow { limit }, u64::from(count), rest)?;
    all_read(rest)
}

// Checks the contents of postings.
#[tactic(auto, unfolding(crate::specs::Fields::postings_done))]
pub(crate) fn postings_contents(bytes: &[u8]) -> Result<(), ReadFault>
    ensures { Gives (λ x. x) result (postings_done bytes.now) }
{
    let (count, rest) = four(bytes)?;
    let rest = skip_all(&FourByteField, u64::from(count), rest)?;
    all_read(rest)
}

// Checks the contents of the label offset table.
#[tactic(auto, unfolding(crate::specs::Fields::label_table_done))]
pub(crate) fn label_table_contents(bytes: &[u8]) -> Result<(), ReadFault>
    ensures { Gives (λ x. x) result (label_table_done bytes.now) }
{
    let (count, rest) = four(bytes)?;
    let rest = skip_all(&LabelEntry, u64::from(count), rest)?;
    all_read(rest)
}

// Checks the contents of the postings offset table.
#[tactic(auto, unfolding(crate::specs::Fields::postings_table_done))]
pub(crate) fn postings_table_contents(bytes: &[u8]) -> Result<(), ReadFault>
    ensures { Gives (λ x. x) result (postings_table_done bytes.now) }
{
    let (count, rest) = four(bytes)?;
    let rest = skip_all(&PostingsEntry, u64::from(count), rest)?;
    all_read(rest)
}
