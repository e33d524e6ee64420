//! Fields of an element's contents. Each function reads one field at the front and returns it with the bytes after it.

ghost use Rattle.std.specs.Prelude.{◌≡◌, ◌≤◌, map, length, IfSome};
ghost use Rattle.std.specs.Option.{option_map};
ghost use Rattle.hw_bytes.specs.Reading.{uvarint_at as uvarint_in_front, varint_at as varint_in_front, text_at as text_in_front};
ghost use Rattle.index_text.specs.Gives.{Gives};
ghost use Rattle.index_text.specs.Fields.{
  four as four_in,
  uvarint_field,
  varint_field,
  text_field,
  reference_field,
  pair_field,
  later as later_in,
  first_chunk as first_chunk_in,
  next_chunk as next_chunk_in,
  next_chunks as next_chunks_in,
  chunks_field,
  marked as marked_in,
  fixed as fixed_in,
  four_below as four_below_in,
};

use crate::fault::ReadFault;
use crate::row::ChunkMeta;
use hw_bytes::{be32_at, text_at, uvarint_at, varint_at};

// Reads a big-endian number of four bytes.
#[tactic(auto, unfolding(crate::specs::Fields::four))]
pub(crate) fn four(bytes: &[u8]) -> Result<(u32, &[u8]), ReadFault>
    ensures { Gives (λ x. (x.0, x.1.now)) result (four_in bytes.now) }
{
    let Some(number) = be32_at(bytes) else {
        return Err(ReadFault::BadSection);
    };
    let (_, rest) = bytes.split_at(4);
    Ok((number, rest))
}

// Calls `uvarint_at`. Its result is specified by a function instead of a relation.
pub(crate) fn front_uvarint(bytes: &[u8]) -> Option<(u64, usize)>
    ensures exact { result ≡ uvarint_in_front bytes.now }
    ensures within { IfSome result (λ found. found.1 ≤ length bytes.now) }
{
    uvarint_at(bytes)
}

// Calls `varint_at`. Its result is specified by a function instead of a relation.
fn front_varint(bytes: &[u8]) -> Option<(i64, usize)>
    ensures exact { result ≡ varint_in_front bytes.now }
    ensures within { IfSome result (λ found. found.1 ≤ length bytes.now) }
{
    varint_at(bytes)
}

// Calls `text_at`. Its result is specified by a function instead of a relation.
fn front_text(bytes: &[u8]) -> Option<(&[u8], usize)>
    ensures exact { option_map (λ found. (found.0.now, found.1)) result ≡ text_in_front bytes.now }
    ensures within { IfSome result (λ found. found.1 ≤ length bytes.now) }
{
    text_at(bytes)
}

// Reads a uvarint.
#[tactic(auto, unfolding(crate::specs::Fields::uvarint_field))]
pub(crate) fn uvarint(bytes: &[u8]) -> Result<(u64, &[u8]), ReadFault>
    ensures { Gives (λ x. (x.0, x.1.now)) result (uvarint_field bytes.now) }
{
    let Some((number, len)) = front_uvarint(bytes) else {
        return Err(ReadFault::BadSection);
    };
    let (_, rest) = bytes.split_at(len);
    Ok((number, rest))
}

// Reads a varint.
#[tactic(auto, unfolding(crate::specs::Fields::varint_field))]
pub(crate) fn varint(bytes: &[u8]) -> Result<(i64, &[u8]), ReadFault>
    ensures { Gives (λ x. (x.0, x.1.now)) result (varint_field bytes.now) }
{
    let Some((number, len)) = front_varint(bytes) else {
        return Err(ReadFault::BadSection);
    };
    let (_, rest) = bytes.split_at(len);
    Ok((number, rest))
}

// Reads a text: its length as a uvarint, and its bytes.
#[tactic(auto, unfolding(crate::specs::Fields::text_field))]
pub(crate) fn text(bytes: &[u8]) -> Result<(&[u8], &[u8]), ReadFault>
    ensures { Gives (λ x. (x.0.now, x.1.now)) result (text_field bytes.now) }
{
    let Some((text, len)) = front_text(bytes) else {
        return Err(ReadFault::BadSection);
    };
    let (_, rest) = bytes.split_at(len);
    Ok((text, rest))
}

// Reads a reference to a symbol: a uvarint below the limit.
#[tactic(auto, unfolding(crate::specs::Fields::reference_field))]
pub(crate) fn reference(bytes: &[u8], limit: u64) -> Result<(u64, &[u8]), ReadFault>
    ensures { Gives (λ x. (x.0, x.1.now)) result (reference_field limit bytes.now) }
{
    let (number, rest) = uvarint(bytes)?;
    if number >= limit {
        return Err(ReadFault::BadSection);
    }
    Ok((number, rest))
}

// Reads the references of a label's name and value.
#[tactic(auto, unfolding(crate::specs::Fields::pair_field))]
pub(crate) fn pair(bytes: &[u8], limit: u64) -> Result<((u64, u64), &[u8]), ReadFault>
    ensures { Gives (λ x. (x.0, x.1.now)) result (pair_field limit bytes.now) }
{
    let (name, rest) = reference(bytes, limit)?;
    let (value, rest) = reference(rest, limit)?;
    Ok(((name, value), rest))
}

// Returns the time `span` milliseconds after `time`, if it has 64 bits.
fn later(time: i64, span: u64) -> Result<i64, ReadFault>
    ensures { Gives (λ t. t) result (later_in time span) }
{
    match time.checked_add_unsigned(span) {
        Some(sum) => Ok(sum),
        None => Err(ReadFault::BadSection),
    }
}

// Reads the first chunk of a series: its least time, the span to its greatest time, and its reference.
#[tactic(auto, unfolding(crate::specs::Fields::first_chunk))]
pub(crate) fn first_chunk(bytes: &[u8]) -> Result<(ChunkMeta, &[u8]), ReadFault>
    ensures { Gives (λ x. (x.0, x.1.now)) result (first_chunk_in bytes.now) }
{
    let (min_time, rest) = varint(bytes)?;
    let (span, rest) = uvarint(rest)?;
    let max_time = later(min_time, span)?;
    let (reference, rest) = uvarint(rest)?;
    let chunk = ChunkMeta {
        min_time,
        max_time,
        reference,
    };
    Ok((chunk, rest))
}

// Reads the chunk after `last`: the gap between the two, its span, and the step from one reference to the other.
#[tactic(auto, unfolding(crate::specs::Fields::next_chunk))]
pub(crate) fn next_chunk(last: ChunkMeta, bytes: &[u8]) -> Result<(ChunkMeta, &[u8]), ReadFault>
    ensures { Gives (λ x. (x.0, x.1.now)) result (next_chunk_in last bytes.now) }
{
    let (gap, rest) = uvarint(bytes)?;
    let min_time = later(last.max_time, gap)?;
    let (span, rest) = uvarint(rest)?;
    let max_time = later(min_time, span)?;
    let (step, rest) = varint(rest)?;
    let chunk = ChunkMeta {
        min_time,
        max_time,
        reference: last.reference.wrapping_add(step.cast_unsigned()),
    };
    Ok((chunk, rest))
}

// Skips a number of four bytes, which must be `value`.
#[tactic(auto, unfolding(crate::specs::Fields::fixed))]
pub(crate) fn fixed(bytes: &[u8], value: u32) -> Result<&[u8], ReadFault>
    ensures { Gives (λ x. x.now) result (fixed_in value bytes.now) }
{
    let (number, rest) = four(bytes)?;
    if number != value {
        return Err(ReadFault::BadSection);
    }
    Ok(rest)
}

// Reads a number of four bytes below the limit.
#[tactic(auto, unfolding(crate::specs::Fields::four_below))]
pub(crate) fn four_below(bytes: &[u8], limit: u64) -> Result<(u32, &[u8]), ReadFault>
    ensures { Gives (λ x. (x.0, x.1.now)) result (four_below_in limit bytes.now) }
{
    let (number, rest) = four(bytes)?;
    if u64::from(number) >= limit {
        return Err(ReadFault::BadSection);
    }
    Ok((number, rest))
}

// Skips a byte, which must be `mark`.
#[tactic(auto, unfolding(crate::specs::Fields::marked))]
pub(crate) fn marked(bytes: &[u8], mark: u8) -> Result<&[u8], ReadFault>
    ensures { Gives (λ x. x.now) result (marked_in mark bytes.now) }
{
    match bytes {
        [] => Err(ReadFault::BadSection),
        [first, rest @ ..] => {
            if *first != mark {
                return Err(ReadFault::BadSection);
            }
            Ok(rest)
        }
    }
}
