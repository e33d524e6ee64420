//! Writing a whole index.

ghost use Rattle.std.specs.Prelude.{◌≡◌, ◌<◌, Err, IfOk, OnOk, All, length, map};
ghost use Rattle.index_text.specs.Gives.{nows};
ghost use Rattle.index_text.specs.Index.{head_text, index_text, labels_from, pairs as pairs_of, series_ids, symbols as symbols_of};
ghost use Rattle.index_text.specs.Lent.{compare_row_label, label_of, row_label_of};
ghost use Rattle.index_text.specs.Rows.{AreRows, FitsIndex};
ghost use Rattle.index_text.specs.Sets.{ascending};

use crate::contents::{Contents, contents_of};
use crate::groups::{put_label_indices, put_postings};
use crate::row::IndexRow;
use crate::tables::{put_label_table, put_postings_table, put_symbols, put_toc};
use crate::toc::Toc;
use crate::writer::put_series;
use hw_bytes::{Items, WriteFault};
use std::alloc::Global;

/// The text of an index, with the ids of its series.
#[derive(Debug, Drop)]
pub struct NumberedIndex {
    pub text: Items<u8>,
    /// The id of each row's series, in the order of the rows.
    pub ids: Items<u32>,
}

// the magic number and the version
const HEAD: [u8; 5] = [0xBA, 0xAA, 0xD7, 0x00, 0x02];

// Appends all that follows the header of the index of rows, whose labels and symbols are `contents`. Returns the ids of the series.
fn put_sections(
    alloc: Global,
    out: &mut Vec<u8>,
    contents: &Contents<'_>,
    rows: &[IndexRow],
) -> Result<Vec<u32>, WriteFault>
    requires head { out.old.items ≡ head_text }
    requires labels { map row_label_of contents.now.labels.items ≡ ascending compare_row_label (labels_from 0 rows.now) }
    requires within { All (λ l. l.row < length rows.now) contents.now.labels.items }
    requires pairs { map label_of contents.now.pairs.items ≡ pairs_of rows.now }
    requires symbols { nows contents.now.symbols.items ≡ symbols_of rows.now }
    ensures text { OnOk result (out.new.items ≡ index_text rows.now) }
    ensures ids { IfOk result (λ ids. ids.items ≡ series_ids rows.now) }
    ensures fits { IfOk result (λ _. FitsIndex rows.now) }
    ensures large { result ≡ Err WriteFault.TooLarge → FitsIndex rows.now → ⊥ }
{
    let symbols = contents.symbols.as_slice();
    put_symbols(alloc, out, symbols)?;
    let series = out.len() as u64;
    let ids = put_series(alloc, out, symbols, rows, &contents.places)?;
    let label_indices = out.len() as u64;
    let names = put_label_indices(alloc, out, symbols, contents.pairs.as_slice())?;
    let postings = out.len() as u64;
    let lists = put_postings(alloc, out, ids.as_slice(), contents.labels.as_slice())?;
    let label_table = out.len() as u64;
    put_label_table(alloc, out, names.as_slice())?;
    let postings_table = out.len() as u64;
    put_postings_table(alloc, out, lists.as_slice())?;
    let toc = Toc {
        symbols: 5,
        series,
        label_indices,
        postings,
        label_table,
        postings_table,
    };
    put_toc(alloc, out, toc)?;
    Ok(ids)
}

/// Writes the index of rows, and returns it with the ids of their series. If a length, a symbol's reference, an id or a count exceeds
/// 2^32 - 1, `TooLarge` is returned.
pub fn write_numbered_index(alloc: Global, rows: &[IndexRow]) -> Result<NumberedIndex, WriteFault>
    requires { AreRows rows.now }
    ensures text { IfOk result (λ index. index.text ≡ index_text rows.now) }
    ensures ids { IfOk result (λ index. index.ids ≡ series_ids rows.now) }
    ensures fits { IfOk result (λ _. FitsIndex rows.now) }
    ensures large { result ≡ Err WriteFault.TooLarge → FitsIndex rows.now → ⊥ }
{
    let contents = contents_of(alloc, rows)?;
    let mut out = Vec::from_slice(alloc, &HEAD)?;
    let ids = put_sections(alloc, &mut out, &contents, rows)?;
    Ok(NumberedIndex {
        text: Items::from_vec(out),
        ids: Items::from_vec(ids),
    })
}

/// Writes the index of rows. Unlike `write_numbered_index` it returns no ids.
pub fn write_index(alloc: Global, rows: &[IndexRow]) -> Result<Vec<u8>, WriteFault>
    requires { AreRows rows.now }
    ensures text { IfOk result (λ text. text.items ≡ index_text rows.now) }
    ensures fits { IfOk result (λ _. FitsIndex rows.now) }
    ensures large { result ≡ Err WriteFault.TooLarge → FitsIndex rows.now → ⊥ }
{
    Ok(write_numbered_index(alloc, rows)?.text.into_vec())
}
