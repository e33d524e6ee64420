//! Reading all sections of an index.

ghost use Rattle.std.specs.Prelude.{◌≡◌, ◌≤◌, length, map, Err};
ghost use Rattle.index_text.specs.Gives.{Gives, nows};
ghost use Rattle.index_text.specs.Reading.{between as between_in, front_of, stored_in};
ghost use Rattle.index_text.specs.Stored.{stored};

use crate::fault::ReadFault;
use crate::head::{head, toc};
use crate::passed::{LabelIndex, LabelTable, PostingsList, PostingsTable, pass_only, pass_section};
use crate::stored::{StoredSeries, series_section, symbols_section};
use std::alloc::Global;

// Returns the bytes between two offsets.
fn between(bytes: &[u8], from: u64, to: u64) -> &[u8]
    requires order { from ≤ to }
    requires within { to ≤ length bytes.now }
    ensures { result.now ≡ between_in from to bytes.now }
{
    let (_, rest) = bytes.split_at(from as usize);
    let (those, _) = rest.split_at((to - from) as usize);
    those
}

/// Reads the symbols and the stored series of an index, and checks its other sections. The first fault is returned: `BadMagic`,
/// `BadVersion`, `BadToc`, then `BadSum` or `BadSection` in the order of the sections. The first three do not depend on memory. Whether the
/// bytes are the index of these series is not checked.
#[tactic(auto, unfolding(crate::specs::Reading::stored_in))]
pub fn stored_index(
    alloc: Global,
    bytes: &[u8],
) -> Result<(Vec<&[u8]>, Vec<StoredSeries>), ReadFault>
    ensures gives { Gives (λ x. (nows x.0.items, map stored x.1.items)) result (stored_in bytes.now) }
    ensures front { (fault : ReadFault) → front_of bytes.now ≡ Err fault → result ≡ Err fault }
{
    head(bytes)?;
    let toc = toc(bytes)?;
    let symbols = symbols_section(alloc, between(bytes, toc.symbols, toc.series))?;
    let limit = symbols.len() as u64;
    let section = between(bytes, toc.series, toc.label_indices);
    let series = series_section(alloc, limit, toc.label_indices as usize, section)?;
    let section = between(bytes, toc.label_indices, toc.postings);
    pass_section(&LabelIndex { limit }, toc.postings as usize, section)?;
    let section = between(bytes, toc.postings, toc.label_table);
    pass_section(&PostingsList, toc.label_table as usize, section)?;
    pass_only(
        &LabelTable,
        between(bytes, toc.label_table, toc.postings_table),
    )?;
    let end = bytes.len() as u64 - 52;
    pass_only(&PostingsTable, between(bytes, toc.postings_table, end))?;
    Ok((symbols, series))
}
