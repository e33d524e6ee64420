//! Readers of numbers and texts at the front of some bytes.

ghost use Rattle.std.specs.Prelude.{◌≡◌, ◌<◌, ◌≤◌, ◌^◌, nat_lt, if◌then◌else◌, length, Some, None, IfSome, IfNone};
ghost use Rattle.std.specs.Option.{option_map};
ghost use Rattle.byteorder.specs.Endian.{big_number};
ghost use Rattle.hw_bytes.specs.Spellings.{IsAt, IsNowhere};
ghost use Rattle.hw_bytes.specs.Numbers.{IsFixed, IsUvarint, IsVarint, IsText, groups};
ghost use Rattle.hw_bytes.specs.Reading.{end_at, uvarint_at as uvarint_in_front, varint_at as varint_in_front, text_at as text_in_front};

use byteorder::{BigEndian, ByteOrder};

/// Reads the big-endian number in the first two bytes. Returns `None` if there are fewer.
pub fn be16_at(bytes: &[u8]) -> Option<u16>
    ensures found { IfSome result (λ n. IsAt (IsFixed 2) bytes.now n 2) }
    ensures value { IfSome result (λ n. n ≡ big_number 2 bytes.now) }
    ensures none { IfNone result (IsNowhere (IsFixed 2) bytes.now) }
    ensures short { IfNone result (length bytes.now < 2) }
{
    if bytes.len() < 2 {
        return None;
    }
    Some(BigEndian::read_u16(bytes))
}

/// Reads the big-endian number in the first four bytes. Returns `None` if there are fewer.
pub fn be32_at(bytes: &[u8]) -> Option<u32>
    ensures found { IfSome result (λ n. IsAt (IsFixed 4) bytes.now n 4) }
    ensures value { IfSome result (λ n. n ≡ big_number 4 bytes.now) }
    ensures none { IfNone result (IsNowhere (IsFixed 4) bytes.now) }
    ensures short { IfNone result (length bytes.now < 4) }
{
    if bytes.len() < 4 {
        return None;
    }
    Some(BigEndian::read_u32(bytes))
}

/// Reads the big-endian number in the first eight bytes. Returns `None` if there are fewer.
pub fn be64_at(bytes: &[u8]) -> Option<u64>
    ensures found { IfSome result (λ n. IsAt (IsFixed 8) bytes.now n 8) }
    ensures value { IfSome result (λ n. n ≡ big_number 8 bytes.now) }
    ensures none { IfNone result (IsNowhere (IsFixed 8) bytes.now) }
    ensures short { IfNone result (length bytes.now < 8) }
{
    if bytes.len() < 8 {
        return None;
    }
    Some(BigEndian::read_u64(bytes))
}

// Returns the number of bytes up to and including the first below 128, if it is one of the first ten.
fn uvarint_end(bytes: &[u8]) -> Option<usize>
    ensures exact { result ≡ end_at 10 bytes.now }
    ensures within { IfSome result (λ len. len ≤ length bytes.now) }
{
    for i in 0..10 {
        if i >= bytes.len() {
            return None;
        }
        if bytes[i] < 0x80 {
            return Some(i + 1);
        }
    }
    None
}

// Joins groups of seven bits, the low one first. Returns `None` if the number exceeds 64 bits.
fn grouped(bytes: &[u8]) -> Option<u64>
    ensures { result ≡ (if nat_lt (groups bytes.now) (2 ^ 64) then Some (groups bytes.now) else None) }
{
    let mut value = 0u64;
    let mut i = bytes.len();
    while i > 0 {
        if value > u64::MAX / 128 {
            return None;
        }
        i -= 1;
        value = value * 128 + u64::from(bytes[i] % 128);
    }
    Some(value)
}

#[tactic(auto, unfolding(crate::specs::Reading::uvarint_at))]
fn front_uvarint(bytes: &[u8]) -> Option<(u64, usize)>
    ensures exact { result ≡ uvarint_in_front bytes.now }
    ensures within { IfSome result (λ found. found.1 ≤ length bytes.now) }
{
    // most numbers are below 128, and take one byte
    if !bytes.is_empty() && bytes[0] < 0x80 {
        return Some((u64::from(bytes[0]), 1));
    }
    let len = uvarint_end(bytes)?;
    let value = grouped(&bytes[..len])?;
    Some((value, len))
}

/// Reads the uvarint at the front, and returns it with its length in bytes. Returns `None` if no prefix of the bytes is
/// a uvarint. Accepts spellings that are longer than necessary.
pub fn uvarint_at(bytes: &[u8]) -> Option<(u64, usize)>
    ensures found { IfSome result (λ found. IsAt IsUvarint bytes.now found.0 found.1) }
    ensures none { IfNone result (IsNowhere IsUvarint bytes.now) }
{
    front_uvarint(bytes)
}

fn front_varint(bytes: &[u8]) -> Option<(i64, usize)>
    ensures { result ≡ varint_in_front bytes.now }
{
    let (number, len) = front_uvarint(bytes)?;
    let half = (number / 2) as i64;
    if number % 2 == 0 {
        Some((half, len))
    } else {
        Some((-half - 1, len))
    }
}

/// Reads the varint at the front, a signed number, and returns it with its length in bytes. Returns `None` if no prefix
/// of the bytes is a varint.
pub fn varint_at(bytes: &[u8]) -> Option<(i64, usize)>
    ensures found { IfSome result (λ found. IsAt IsVarint bytes.now found.0 found.1) }
    ensures none { IfNone result (IsNowhere IsVarint bytes.now) }
{
    front_varint(bytes)
}

#[tactic(auto, unfolding(crate::specs::Reading::text_at))]
fn front_text(bytes: &[u8]) -> Option<(&[u8], usize)>
    ensures { option_map (λ found. (found.0.now, found.1)) result ≡ text_in_front bytes.now }
{
    let (len, start) = front_uvarint(bytes)?;
    let rest = &bytes[start..];
    if (rest.len() as u64) < len {
        return None;
    }
    let len = len as usize;
    Some((&rest[..len], start + len))
}

/// Reads the text at the front, a uvarint length and that many bytes. Returns the text, borrowed from the bytes, and how
/// many bytes it takes with its length; `None` if no prefix of the bytes is a text.
pub fn text_at(bytes: &[u8]) -> Option<(&[u8], usize)>
    ensures found { IfSome result (λ found. IsAt IsText bytes.now found.0.now found.1) }
    ensures none { IfNone result (IsNowhere IsText bytes.now) }
{
    front_text(bytes)
}
