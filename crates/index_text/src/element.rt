//! One element of a section.

ghost use Rattle.std.specs.Prelude.{◌≡◌, ◌<◌, ◌≤◌, ◌==◌, not, length, take, drop, List};
ghost use Rattle.std.specs.List.{list_any};
ghost use Rattle.index_text.specs.Layout.{padding};
ghost use Rattle.index_text.specs.Gives.{Gives, must};
ghost use Rattle.index_text.specs.Reading.{head_of, toc_of, places_of, are_places, aligned_at, summed_at, framed_at, counted_at};

use crate::fault::ReadFault;
use crate::fields::front_uvarint;
use hw_bytes::{be32_at, is_summed};

// Splits the contents of an element, whose length and checksum it checks, from the bytes after the checksum.
#[tactic(auto, unfolding(crate::specs::Reading::summed_at))]
fn summed(bytes: &[u8], len: u64) -> Result<(&[u8], &[u8]), ReadFault>
    ensures { Gives (λ x. (x.0.now, x.1.now)) result (summed_at len bytes.now) }
{
    let there = bytes.len() as u64;
    if there < 4 || there - 4 < len {
        return Err(ReadFault::BadSection);
    }
    let len = len as usize;
    if !is_summed(bytes, len) {
        return Err(ReadFault::BadSum);
    }
    let (front, rest) = bytes.split_at(len);
    let (_, rest) = rest.split_at(4);
    Ok((front, rest))
}

// Reads an element whose length has four bytes. Returns its contents and the bytes after it.
#[tactic(auto, unfolding(crate::specs::Reading::framed_at))]
pub(crate) fn framed(bytes: &[u8]) -> Result<(&[u8], &[u8]), ReadFault>
    ensures { Gives (λ x. (x.0.now, x.1.now)) result (framed_at bytes.now) }
{
    let Some(len) = be32_at(bytes) else {
        return Err(ReadFault::BadSection);
    };
    let (_, rest) = bytes.split_at(4);
    summed(rest, u64::from(len))
}

// Reads an element whose length is a uvarint. Returns its contents and the bytes after it.
#[tactic(auto, unfolding(crate::specs::Reading::counted_at))]
pub(crate) fn counted(bytes: &[u8]) -> Result<(&[u8], &[u8]), ReadFault>
    ensures { Gives (λ x. (x.0.now, x.1.now)) result (counted_at bytes.now) }
{
    let Some((len, at)) = front_uvarint(bytes) else {
        return Err(ReadFault::BadSection);
    };
    let (_, rest) = bytes.split_at(at);
    summed(rest, len)
}

// Returns whether a byte is not zero.
fn has_other(bytes: &[u8]) -> bool
    ensures { result ≡ list_any (λ b. not (b == 0)) bytes.now }
{
    for b in bytes {
        if *b != 0 {
            return true;
        }
    }
    false
}

// Skips the zeros that align an element at the offset `at`.
#[tactic(auto, unfolding(crate::specs::Reading::aligned_at))]
pub(crate) fn aligned(bytes: &[u8], align: usize, at: usize) -> Result<&[u8], ReadFault>
    requires { 0 < align }
    ensures { Gives (λ x. x.now) result (aligned_at align at bytes.now) }
{
    let padding = (align - at % align) % align;
    if bytes.len() < padding {
        return Err(ReadFault::BadSection);
    }
    let (zeros, rest) = bytes.split_at(padding);
    if has_other(zeros) {
        return Err(ReadFault::BadSection);
    }
    Ok(rest)
}
