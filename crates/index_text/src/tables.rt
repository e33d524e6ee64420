//! Writing the symbols, the offset tables and the table of contents.

ghost use Rattle.std.specs.Prelude.{◌≡◌, ◌<◌, ◌≤◌, ◌++◌, ◌^◌, length, map, OnOk, IsOk, Err};
ghost use Rattle.index_text.specs.Gives.{nows};
ghost use Rattle.index_text.specs.Index.{label_entry, label_table_body, postings_entry, postings_table_body, symbols_body, toc_text};
ghost use Rattle.index_text.specs.Layout.{framed as framed_text, sum_text};
ghost use Rattle.index_text.specs.Lent.{label_place_of, name_place_of};

use crate::groups::{LabelPlace, NamePlace};
use crate::toc::Toc;
use crate::writer::put_framed;
use hw_bytes::{WriteFault, four_bytes_of, put_be32, put_be64, put_sum, put_text, put_uvarint};
use std::alloc::{AllocError, Global};

// Appends the symbols.
#[tactic(auto, unfolding(crate::specs::Index::symbols_body))]
pub(crate) fn put_symbols(
    alloc: Global,
    out: &mut Vec<u8>,
    symbols: &[&[u8]],
) -> Result<(), WriteFault>
    ensures text { OnOk result (out.new.items ≡ out.old.items ++ framed_text (symbols_body (nows symbols.now))) }
    ensures few { IsOk result → length symbols.now < 2 ^ 32 }
    ensures small { IsOk result → length (symbols_body (nows symbols.now)) < 2 ^ 32 }
    ensures large { result ≡ Err WriteFault.TooLarge → 2 ^ 32 ≤ length (symbols_body (nows symbols.now)) }
{
    let mut body = Vec::new(alloc);
    put_be32(&mut body, four_bytes_of(symbols.len())?)?;
    for symbol in symbols {
        put_text(&mut body, symbol)?;
    }
    put_framed(out, body.as_slice())
}

// Appends an entry of the label offset table.
fn put_label_entry(body: &mut Vec<u8>, entry: &NamePlace<'_>) -> Result<(), AllocError>
    ensures { OnOk result (body.new.items ≡ body.old.items ++ label_entry (name_place_of entry.now)) }
{
    body.push(1)?;
    put_text(body, entry.name)?;
    put_uvarint(body, entry.place as u64)
}

// Appends the label offset table.
#[tactic(auto, unfolding(crate::specs::Index::label_table_body))]
pub(crate) fn put_label_table(
    alloc: Global,
    out: &mut Vec<u8>,
    entries: &[NamePlace<'_>],
) -> Result<(), WriteFault>
    ensures text { OnOk result (out.new.items ≡ out.old.items ++ framed_text (label_table_body (map name_place_of entries.now))) }
    ensures small { IsOk result → length (label_table_body (map name_place_of entries.now)) < 2 ^ 32 }
    ensures large { result ≡ Err WriteFault.TooLarge → 2 ^ 32 ≤ length (label_table_body (map name_place_of entries.now)) }
{
    let mut body = Vec::new(alloc);
    put_be32(&mut body, four_bytes_of(entries.len())?)?;
    for entry in entries {
        put_label_entry(&mut body, entry)?;
    }
    put_framed(out, body.as_slice())
}

// Appends an entry of the postings offset table.
fn put_postings_entry(body: &mut Vec<u8>, entry: &LabelPlace<'_>) -> Result<(), AllocError>
    ensures { OnOk result (body.new.items ≡ body.old.items ++ postings_entry (label_place_of entry.now)) }
{
    body.push(2)?;
    put_text(body, entry.label.name)?;
    put_text(body, entry.label.value)?;
    put_uvarint(body, entry.place as u64)
}

// Appends the postings offset table.
#[tactic(auto, unfolding(crate::specs::Index::postings_table_body))]
pub(crate) fn put_postings_table(
    alloc: Global,
    out: &mut Vec<u8>,
    entries: &[LabelPlace<'_>],
) -> Result<(), WriteFault>
    ensures text { OnOk result (out.new.items ≡ out.old.items ++ framed_text (postings_table_body (map label_place_of entries.now))) }
    ensures small { IsOk result → length (postings_table_body (map label_place_of entries.now)) < 2 ^ 32 }
    ensures large { result ≡ Err WriteFault.TooLarge → 2 ^ 32 ≤ length (postings_table_body (map label_place_of entries.now)) }
{
    let mut body = Vec::new(alloc);
    put_be32(&mut body, four_bytes_of(entries.len())?)?;
    for entry in entries {
        put_postings_entry(&mut body, entry)?;
    }
    put_framed(out, body.as_slice())
}

// Appends the table of contents: the offsets of the sections and their checksum.
pub(crate) fn put_toc(alloc: Global, out: &mut Vec<u8>, toc: Toc) -> Result<(), AllocError>
    ensures { OnOk result (out.new.items ≡ out.old.items ++ toc_text toc.symbols toc.series toc.label_indices toc.label_table toc.postings toc.postings_table
        ++ sum_text (toc_text toc.symbols toc.series toc.label_indices toc.label_table toc.postings toc.postings_table)) }
{
    let mut places = Vec::with_capacity(alloc, 48)?;
    put_be64(&mut places, toc.symbols)?;
    put_be64(&mut places, toc.series)?;
    put_be64(&mut places, toc.label_indices)?;
    put_be64(&mut places, toc.label_table)?;
    put_be64(&mut places, toc.postings)?;
    put_be64(&mut places, toc.postings_table)?;
    out.extend_from_slice(places.as_slice())?;
    put_sum(out, places.as_slice())
}
