//! Writing elements, and the section of series.

ghost use Rattle.std.specs.Prelude.{◌≡◌, ℕ, ◌<◌, ◌≤◌, ◌++◌, ◌/◌, ◌^◌, ◌-ℤ◌, unsigned_abs, length, map, OnOk, IfOk, IsOk, Err};
ghost use Rattle.std.specs.List.{flat_map};
ghost use Rattle.index_text.specs.declared.row.IndexRow.{IndexRow};
ghost use Rattle.index_text.specs.declared.row.ChunkMeta.{ChunkMeta};
ghost use Rattle.wal_record.specs.Labels.{label};
ghost use Rattle.index_text.specs.Gives.{nows};
ghost use Rattle.index_text.specs.Rows.{AreSmall};
ghost use Rattle.index_text.specs.Sets.{IsAscending, rank, text_cmp};
ghost use Rattle.std.specs.Ordering.{is_lt};
ghost use Rattle.index_text.specs.Layout.{framed as framed_text, counted as counted_text, put_all, places};
ghost use Rattle.index_text.specs.Index.{
  next_chunk_text,
  first_chunk_text,
  later_chunks as later_chunks_text,
  chunks_text,
  label_refs,
  series_body as series_body_text,
  reference_step as reference_step_of,
};

use crate::numbering::LabelPlaces;
use crate::row::{ChunkMeta, IndexRow};
use hw_bytes::{
    WriteFault, four_bytes_of, put_be32, put_padding, put_sum, put_uvarint, put_varint,
};
use std::alloc::{AllocError, Global};
use wal_record::LabelSet;

// Appends an element: its length in four bytes, its contents and their checksum.
pub(crate) fn put_framed(out: &mut Vec<u8>, body: &[u8]) -> Result<(), WriteFault>
    ensures text { OnOk result (out.new.items ≡ out.old.items ++ framed_text body.now) }
    ensures small { IsOk result → length body.now < 2 ^ 32 }
    ensures large { result ≡ Err WriteFault.TooLarge → 2 ^ 32 ≤ length body.now }
{
    let len = four_bytes_of(body.len())?;
    put_be32(out, len)?;
    out.extend_from_slice(body)?;
    put_sum(out, body)?;
    Ok(())
}

// Appends an element: its length as a uvarint, its contents and their checksum.
fn put_counted(out: &mut Vec<u8>, body: &[u8]) -> Result<(), WriteFault>
    ensures text { OnOk result (out.new.items ≡ out.old.items ++ counted_text body.now) }
    ensures small { IsOk result → length body.now < 2 ^ 32 }
    ensures large { result ≡ Err WriteFault.TooLarge → 2 ^ 32 ≤ length body.now }
{
    let len = four_bytes_of(body.len())?;
    put_uvarint(out, u64::from(len))?;
    out.extend_from_slice(body)?;
    put_sum(out, body)?;
    Ok(())
}

// Returns whether the first text is less than the other.
fn is_before(text: &[u8], other: &[u8]) -> bool
    ensures { result ≡ is_lt (text_cmp text.now other.now) }
{
    text.cmp(other).is_lt()
}

// Counts the texts of a sorted table that are less than this one. For a symbol this is its reference.
fn rank_of(table: &[&[u8]], text: &[u8]) -> usize
    requires { IsAscending text_cmp (nows table.now) }
    ensures { result ≡ rank text_cmp text.now (nows table.now) }
{
    table.partition_point(|other| is_before(other, text))
}

// Does what `rank_of` does, at once if the text is at this place, where it probably is.
pub(crate) fn rank_near(table: &[&[u8]], text: &[u8], place: usize) -> usize
    requires { IsAscending text_cmp (nows table.now) }
    ensures { result ≡ rank text_cmp text.now (nows table.now) }
{
    match table.get(place) {
        Some(there) if *there == text => place,
        _ => rank_of(table, text),
    }
}

// Appends the references of the name and the value of a label, which are probably at these places.
fn put_refs(
    out: &mut Vec<u8>,
    table: &[&[u8]],
    name: &[u8],
    value: &[u8],
    name_place: usize,
    value_place: usize,
) -> Result<(), AllocError>
    requires { IsAscending text_cmp (nows table.now) }
    ensures { OnOk result (out.new.items ≡ out.old.items ++ label_refs (nows table.now) (label name.now value.now)) }
{
    put_uvarint(out, rank_near(table, name, name_place) as u64)?;
    put_uvarint(out, rank_near(table, value, value_place) as u64)
}

// Appends the references of all labels of a set, of which the first one has this index among the places.
fn put_labels(
    out: &mut Vec<u8>,
    table: &[&[u8]],
    labels: &LabelSet,
    places: &LabelPlaces,
    first: usize,
) -> Result<(), AllocError>
    requires { IsAscending text_cmp (nows table.now) }
    ensures { OnOk result (out.new.items ≡ out.old.items ++ flat_map (label_refs (nows table.now)) labels.now) }
{
    for i in 0..labels.len() {
        let (name, value) = labels.pair(i);
        let index = first.wrapping_add(i);
        put_refs(
            out,
            table,
            name,
            value,
            places.name(index),
            places.value(index),
        )?;
    }
    Ok(())
}

// Returns the distance of two times.
fn span(from: i64, to: i64) -> u64
    ensures { result ≡ unsigned_abs (to -ℤ from) }
{
    to.abs_diff(from)
}

// Returns the difference of two references modulo 2^64, as a signed number.
fn reference_step(old: u64, new: u64) -> i64
    ensures { result ≡ reference_step_of old new }
{
    new.wrapping_sub(old).cast_signed()
}

// Appends a chunk after the chunk `last`.
fn put_next_chunk(out: &mut Vec<u8>, last: ChunkMeta, chunk: ChunkMeta) -> Result<(), AllocError>
    ensures { OnOk result (out.new.items ≡ out.old.items ++ next_chunk_text last chunk) }
{
    put_uvarint(out, span(last.max_time, chunk.min_time))?;
    put_uvarint(out, span(chunk.min_time, chunk.max_time))?;
    put_varint(out, reference_step(last.reference, chunk.reference))?;
    Ok(())
}

// Appends the first chunk of a row.
#[tactic(auto, unfolding(crate::specs::Index::first_chunk_text))]
fn put_first_chunk(out: &mut Vec<u8>, chunk: ChunkMeta) -> Result<(), AllocError>
    ensures { OnOk result (out.new.items ≡ out.old.items ++ first_chunk_text chunk) }
{
    put_varint(out, chunk.min_time)?;
    put_uvarint(out, span(chunk.min_time, chunk.max_time))?;
    put_uvarint(out, chunk.reference)?;
    Ok(())
}

// Appends the chunks after the first one.
fn put_later_chunks(
    out: &mut Vec<u8>,
    first: ChunkMeta,
    chunks: &[ChunkMeta],
) -> Result<(), AllocError>
    ensures { OnOk result (out.new.items ≡ out.old.items ++ later_chunks_text first chunks.now) }
{
    let mut last = first;
    for chunk in chunks {
        put_next_chunk(out, last, *chunk)?;
        last = *chunk;
    }
    Ok(())
}

// Appends the chunks of a row.
#[tactic(auto, unfolding(crate::specs::Index::chunks_text))]
fn put_chunks(out: &mut Vec<u8>, chunks: &[ChunkMeta]) -> Result<(), AllocError>
    ensures { OnOk result (out.new.items ≡ out.old.items ++ chunks_text chunks.now) }
{
    match chunks {
        [] => Ok(()),
        [first, rest @ ..] => {
            put_first_chunk(out, *first)?;
            put_later_chunks(out, *first, rest)?;
            Ok(())
        }
    }
}

// Appends the contents of a series, of whose labels the first one has this index among the places.
#[tactic(auto, unfolding(crate::specs::Index::series_body))]
fn put_series_body(
    out: &mut Vec<u8>,
    table: &[&[u8]],
    row: &IndexRow,
    places: &LabelPlaces,
    first: usize,
) -> Result<(), AllocError>
    requires { IsAscending text_cmp (nows table.now) }
    ensures { OnOk result (out.new.items ≡ out.old.items ++ series_body_text (nows table.now) row.now) }
{
    put_uvarint(out, row.labels.len() as u64)?;
    put_labels(out, table, &row.labels, places, first)?;
    put_uvarint(out, row.chunks.len() as u64)?;
    put_chunks(out, row.chunks.as_slice())
}

// Appends the series of rows, whose labels are probably at these places, and returns their ids.
pub(crate) fn put_series(
    alloc: Global,
    out: &mut Vec<u8>,
    table: &[&[u8]],
    rows: &[IndexRow],
    near: &LabelPlaces,
) -> Result<Vec<u32>, WriteFault>
    requires { IsAscending text_cmp (nows table.now) }
    ensures written { OnOk result (out.new.items ≡ put_all 16 out.old.items (map (λ r. counted_text (series_body_text (nows table.now) r)) rows.now)) }
    ensures ids { IfOk result (λ ids. ids.items ≡ map (λ n. n / 16) (places 16 out.old.items (map (λ r. counted_text (series_body_text (nows table.now) r)) rows.now))) }
    ensures small { IsOk result → AreSmall (λ r. length (series_body_text (nows table.now) r)) rows.now }
    ensures small_ids { IfOk result (λ ids. AreSmall (λ (id : ℕ). id) ids.items) }
    ensures large { result ≡ Err WriteFault.TooLarge → AreSmall (λ r. length (series_body_text (nows table.now) r)) rows.now
        → AreSmall (λ (id : ℕ). id) (map (λ n. n / 16) (places 16 out.old.items (map (λ r. counted_text (series_body_text (nows table.now) r)) rows.now))) → ⊥ }
{
    let mut ids = Vec::with_capacity(alloc, rows.len())?;
    let mut body = Vec::new(alloc);
    let mut first: usize = 0;
    for row in rows {
        put_padding(out, 16)?;
        ids.push(four_bytes_of(out.len() / 16)?)?;
        body.clear();
        put_series_body(&mut body, table, row, near, first)?;
        put_counted(out, body.as_slice())?;
        first = first.wrapping_add(row.labels.len());
    }
    Ok(ids)
}
