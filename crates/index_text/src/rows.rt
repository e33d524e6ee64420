//! Rows from stored series, and the writer's condition on rows.

ghost use Rattle.std.specs.Prelude.{◌≡◌, ◌⊎◌, ◌<◌, ◌++◌, ◌∷◌, [], List, length, get_or, map, int_le, true, false, Err, IfErr, IfOk, IsTrue, OnOk, ◌≤ℤ◌};
ghost use Rattle.std.specs.List.{AllByRecursion};
ghost use Rattle.wal_record.specs.Labels.{IsLabelSet, IsNext};
ghost use Rattle.index_text.specs.declared.row.ChunkMeta.{ChunkMeta as Meta};
ghost use Rattle.index_text.specs.declared.row.IndexRow.{IndexRow as Row};
ghost use Rattle.index_text.specs.Gives.{nows};
ghost use Rattle.index_text.specs.Reading.{label_at, labels_at, row_of as row_in};
ghost use Rattle.index_text.specs.Rows.{AreRows, FitsChunk, IsRow};
ghost use Rattle.index_text.specs.Stored.{stored};
ghost use Rattle.index_text.specs.Tests.{chain_test, comes_before as comes_before_in, ends_before as ends_before_in};

use crate::groups::element_at;
use crate::row::{ChunkMeta, IndexRow};
use crate::stored::StoredSeries;
use hw_bytes::Items;
use std::alloc::Global;
use wal_record::{LabelFault, LabelSet};

// Returns a symbol by its reference, or an empty text if there is none.
fn symbol<'a>(symbols: &[&'a [u8]], place: u64) -> &'a [u8]
    ensures { result.now ≡ get_or (nows symbols.now) place [] }
{
    match symbols.get(place as usize) {
        Some(text) => text,
        None => &[],
    }
}

// Appends the label with these references of its name and value, if it can follow the labels.
fn push_label(
    labels: &mut LabelSet,
    symbols: &[&[u8]],
    reference: &(u64, u64),
) -> Result<(), LabelFault>
    ensures added { OnOk result (labels.new ≡ labels.old ++ label_at (nows symbols.now) reference.now ∷ []) }
    ensures bad { IfErr result (λ fault. (fault ≡ LabelFault.Memory)
        ⊎ ((0 < length (label_at (nows symbols.now) reference.now).name) × IsNext labels.old (label_at (nows symbols.now) reference.now).name → ⊥)) }
{
    let (name, value) = *reference;
    labels.push(symbol(symbols, name), symbol(symbols, value))
}

// Builds the label set with these references of names and values.
fn labels_of(
    alloc: Global,
    symbols: &[&[u8]],
    references: &[(u64, u64)],
) -> Result<LabelSet, LabelFault>
    ensures found { IfOk result (λ labels. labels ≡ labels_at (nows symbols.now) references.now) }
    ensures bad { IfErr result (λ fault. (fault ≡ LabelFault.Memory) ⊎ (IsLabelSet (labels_at (nows symbols.now) references.now) → ⊥)) }
{
    let mut labels = LabelSet::new(alloc);
    for i in 0..references.len() {
        let reference = element_at(references, i);
        push_label(&mut labels, symbols, &reference)?;
    }
    Ok(labels)
}

// Builds the row of a stored series.
fn row_of(alloc: Global, symbols: &[&[u8]], series: &StoredSeries) -> Result<IndexRow, LabelFault>
    ensures found { IfOk result (λ row. row ≡ row_in (nows symbols.now) (stored series.now)) }
    ensures bad { IfErr result (λ fault. (fault ≡ LabelFault.Memory) ⊎ (IsRow (row_in (nows symbols.now) (stored series.now)) → ⊥)) }
{
    let chunks = Vec::from_slice(alloc, series.chunks.as_slice())?;
    let labels = labels_of(alloc, symbols, series.labels.as_slice())?;
    Ok(IndexRow {
        labels,
        chunks: Items::from_vec(chunks),
    })
}

/// Builds the rows of stored series from the symbols that they refer to. A row has the labels of its series, in their order, and its chunks;
/// a reference that no symbol has stands for an empty text. If the labels of a series are no label set, `EmptyName` or `NotAscending` is
/// returned.
pub fn rows_of(
    alloc: Global,
    symbols: &[&[u8]],
    series: &[StoredSeries],
) -> Result<Vec<IndexRow>, LabelFault>
    ensures found { IfOk result (λ rows. rows.items ≡ map (row_in (nows symbols.now)) (map stored series.now)) }
    ensures bad { IfErr result (λ fault. (fault ≡ LabelFault.Memory) ⊎ (AreRows (map (row_in (nows symbols.now)) (map stored series.now)) → ⊥)) }
{
    let mut rows = Vec::with_capacity(alloc, series.len())?;
    for one in series {
        rows.push(row_of(alloc, symbols, one)?)?;
    }
    Ok(rows)
}

// Returns whether a chunk with these times does not end before it begins.
fn is_span(min_time: i64, max_time: i64, reference: u64) -> bool
    ensures forward { result ≡ int_le min_time max_time }
    ensures fits { FitsChunk (record { min_time = min_time; max_time = max_time; reference = reference }) }
{
    // for the proof: a number that is used has 64 bits
    let _reference = reference;
    min_time <= max_time
}

// Returns whether a chunk does not end before it begins.
fn is_forward(chunk: &ChunkMeta) -> bool
    ensures forward { result ≡ int_le chunk.now.min_time chunk.now.max_time }
    ensures fits { FitsChunk chunk.now }
{
    is_span(chunk.min_time, chunk.max_time, chunk.reference)
}

// Returns whether no chunk ends before it begins.
fn are_forward(chunks: &[ChunkMeta]) -> bool
    ensures fits { IsTrue result → AllByRecursion FitsChunk chunks.now }
    ensures forward { IsTrue result → AllByRecursion (λ (c : Meta). c.min_time ≤ℤ c.max_time) chunks.now }
    ensures other { result ≡ false → AllByRecursion (λ (c : Meta). c.min_time ≤ℤ c.max_time) chunks.now → ⊥ }
{
    for chunk in chunks {
        if !is_forward(chunk) {
            return false;
        }
    }
    true
}

// Returns whether the first chunk ends before the second begins.
fn ends_before(first: &ChunkMeta, second: &ChunkMeta) -> bool
    ensures { result ≡ ends_before_in first.now second.now }
{
    first.max_time < second.min_time
}

// Returns whether each chunk ends before the next one begins.
fn are_apart(chunks: &[ChunkMeta]) -> bool
    ensures { result ≡ chain_test ends_before_in chunks.now }
{
    for i in 1..chunks.len() {
        if !ends_before(&chunks[i - 1], &chunks[i]) {
            return false;
        }
    }
    true
}

// Returns whether a row has chunks, in the order of their times, none of which ends before it begins.
fn is_row(row: &IndexRow) -> bool
    ensures row { IsTrue result → IsRow row.now }
    ensures other { result ≡ false → IsRow row.now → ⊥ }
{
    // for the proof: the labels are a label set
    let _count = row.labels.len();
    let chunks = row.chunks.as_slice();
    if chunks.is_empty() {
        return false;
    }
    if !are_forward(chunks) {
        return false;
    }
    are_apart(chunks)
}

// Returns whether `is_row` holds of each row.
fn each_is_row(rows: &[IndexRow]) -> bool
    ensures each { IsTrue result → AllByRecursion IsRow rows.now }
    ensures other { result ≡ false → AllByRecursion IsRow rows.now → ⊥ }
{
    for row in rows {
        if !is_row(row) {
            return false;
        }
    }
    true
}

fn comes_before(first: &IndexRow, second: &IndexRow) -> bool
    ensures { result ≡ comes_before_in first.now second.now }
{
    first.labels.compare(&second.labels).is_lt()
}

// Returns whether the label sets of the rows ascend strictly.
fn ascend(rows: &[IndexRow]) -> bool
    ensures { result ≡ chain_test comes_before_in rows.now }
{
    for i in 1..rows.len() {
        if !comes_before(&rows[i - 1], &rows[i]) {
            return false;
        }
    }
    true
}

/// Returns whether the rows meet the writer's condition: at least one, each valid, and in the order of their label sets. A row is valid if
/// it has chunks, none of which ends before it begins, and each ends before the next begins.
pub fn are_rows(rows: &[IndexRow]) -> bool
    ensures rows { IsTrue result → AreRows rows.now }
    ensures other { result ≡ false → AreRows rows.now → ⊥ }
{
    if rows.is_empty() {
        return false;
    }
    if !each_is_row(rows) {
        return false;
    }
    ascend(rows)
}
