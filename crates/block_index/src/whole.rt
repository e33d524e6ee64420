//! Reading a whole index.

ghost use Rattle.std.specs.Prelude.{◌≡◌, ◌⊎◌, List, Err, IfOk, IfErr, map};
ghost use Rattle.index_text.specs.declared.row.IndexRow.{IndexRow as Row};
ghost use Rattle.index_text.specs.Index.{index_text, series_ids};
ghost use Rattle.index_text.specs.Rows.{AreRows, FitsIndex, IsIndex};
ghost use Rattle.index_text.specs.Reading.{Answers, front_of, row_of as row_in};
ghost use Rattle.index_text.specs.Gives.{nows};
ghost use Rattle.index_text.specs.Stored.{stored};

use hw_bytes::{Items, WriteFault};
use index_text::{
    IndexRow, NumberedIndex, ReadFault, StoredSeries, are_rows, rows_of, stored_index,
    write_numbered_index,
};
use std::alloc::Global;

/// The rows of an index, with the ids of their series.
#[derive(Debug, Drop)]
pub struct NumberedRows {
    pub rows: Items<IndexRow>,
    /// The id of each row's series, in the order of the rows.
    pub ids: Items<u32>,
}

// Writes the index of rows that were read. If they have none, `NotCanonical` is returned.
fn rewritten(alloc: Global, rows: &[IndexRow]) -> Result<NumberedIndex, ReadFault>
    requires { AreRows rows.now }
    ensures text { IfOk result (λ index. index.text ≡ index_text rows.now) }
    ensures ids { IfOk result (λ index. index.ids ≡ series_ids rows.now) }
    ensures fits { IfOk result (λ _. FitsIndex rows.now) }
    ensures bad { IfErr result (λ fault. (fault ≡ ReadFault.Memory) ⊎ ((fault ≡ ReadFault.NotCanonical) × (FitsIndex rows.now → ⊥))) }
{
    match write_numbered_index(alloc, rows) {
        Ok(index) => Ok(index),
        Err(WriteFault::TooLarge) => Err(ReadFault::NotCanonical),
        Err(WriteFault::Memory) => Err(ReadFault::Memory),
    }
}

// Builds the rows of symbols and series. If the bytes are not the index of these rows, `NotCanonical` is returned.
fn canonical(
    alloc: Global,
    symbols: &[&[u8]],
    series: &[StoredSeries],
    bytes: &[u8],
) -> Result<NumberedRows, ReadFault>
    ensures rows { IfOk result (λ read. read.rows ≡ map (row_in (nows symbols.now)) (map stored series.now)) }
    ensures found { IfOk result (λ read. IsIndex bytes.now read.rows) }
    ensures ids { IfOk result (λ read. read.ids ≡ series_ids read.rows) }
    ensures bad { IfErr result (λ fault. (fault ≡ ReadFault.Memory)
        ⊎ ((fault ≡ ReadFault.NotCanonical) × (IsIndex bytes.now (map (row_in (nows symbols.now)) (map stored series.now)) → ⊥))) }
{
    let rows = rows_of(alloc, symbols, series)?;
    if !are_rows(rows.as_slice()) {
        return Err(ReadFault::NotCanonical);
    }
    let index = rewritten(alloc, rows.as_slice())?;
    if index.text.as_slice() != bytes {
        return Err(ReadFault::NotCanonical);
    }
    Ok(NumberedRows {
        rows: Items::from_vec(rows),
        ids: index.ids,
    })
}

/// Reads an index, and returns its rows with the ids of their series. The bytes must be exactly the index of these rows; otherwise the
/// first fault is returned, in the order of the variants of `ReadFault`, but of `BadSum` and `BadSection` the first in the bytes.
pub fn read_numbered_index(alloc: Global, bytes: &[u8]) -> Result<NumberedRows, ReadFault>
    // Rows are read only from their own index, and every index is read unless memory runs out.
    ensures found { IfOk result (λ read. IsIndex bytes.now read.rows) }
    ensures ids { IfOk result (λ read. read.ids ≡ series_ids read.rows) }
    ensures only { (rows : List Row) → IsIndex bytes.now rows → IfOk result (λ read. read.rows ≡ rows) }
    ensures refuses { (rows : List Row) → IsIndex bytes.now rows → IfErr result (λ fault. fault ≡ ReadFault.Memory) }
    // The fault. Those of the header and of the table of contents do not depend on memory.
    ensures fault { IfErr result (λ fault. Answers bytes.now fault) }
    ensures front { (fault : ReadFault) → front_of bytes.now ≡ Err fault → result ≡ Err fault }
{
    let (symbols, series) = stored_index(alloc, bytes)?;
    canonical(alloc, symbols.as_slice(), series.as_slice(), bytes)
}

/// Reads an index, and returns its rows. Unlike `read_numbered_index` it returns no ids. The first fault is returned: `BadMagic`,
/// `BadVersion`, `BadToc`, then `BadSum` or `BadSection` in the order of the sections, then `NotCanonical`. The first three do not depend
/// on memory.
pub fn read_index(alloc: Global, bytes: &[u8]) -> Result<Vec<IndexRow>, ReadFault>
    ensures found { IfOk result (λ rows. IsIndex bytes.now rows.items) }
    ensures only { (rows : List Row) → IsIndex bytes.now rows → IfOk result (λ read. read.items ≡ rows) }
    ensures refuses { (rows : List Row) → IsIndex bytes.now rows → IfErr result (λ fault. fault ≡ ReadFault.Memory) }
    ensures fault { IfErr result (λ fault. Answers bytes.now fault) }
    ensures front { (fault : ReadFault) → front_of bytes.now ≡ Err fault → result ≡ Err fault }
{
    Ok(read_numbered_index(alloc, bytes)?.rows.into_vec())
}
