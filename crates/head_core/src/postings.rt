//! The postings of a table: the series of each label.

ghost use Rattle.std.specs.Prelude.{IfOk};
ghost use Rattle.head_postings.specs.Postings.{IsPostingsOf};
ghost use Rattle.head_core.specs.Content.{by_slot};

use head_postings::Postings;
use head_series::{SeriesTable, Slot};
use std::alloc::{AllocError, Global};

/// Returns the postings of a table's series, or an error if out of memory. `Head::assemble` takes those of the resolver's table.
pub fn postings_of(alloc: Global, table: &SeriesTable) -> Result<Postings, AllocError>
    ensures postings { IfOk result (λ postings. IsPostingsOf (by_slot table.now.series) postings) }
{
    let mut postings = Postings::with_seed(alloc, table.seed());
    for number in 0..table.len() {
        let slot = Slot::new(number as u32);
        postings.add(slot, &table.labels(slot)?)?;
    }
    Ok(postings)
}
