//! Writers of numbers and texts, and the lengths of what they write. A writer appends to some bytes, and leaves them unchanged if out of
//! memory.

ghost use Rattle.std.specs.Prelude.{◌≡◌, ◌≤◌, ◌++◌, OnOk, OnErr, length};
ghost use Rattle.byteorder.specs.Endian.{big_bytes};
ghost use Rattle.hw_bytes.specs.Numbers.{zigzag as zigzag_of};
ghost use Rattle.hw_bytes.specs.Writing.{uvarint, varint, text as text_of};

use std::alloc::AllocError;

/// Appends the number in two bytes, big-endian. Unchanged if out of memory.
pub fn put_be16(bytes: &mut Vec<u8>, number: u16) -> Result<(), AllocError>
    ensures put { OnOk result (bytes.new.items ≡ bytes.old.items ++ big_bytes 2 number) }
    ensures refused { OnErr result (bytes.new.items ≡ bytes.old.items) }
{
    let spelled: [u8; 2] = number.to_be_bytes();
    bytes.extend_from_slice(&spelled)
}

/// Appends the number in four bytes, big-endian. Unchanged if out of memory.
pub fn put_be32(bytes: &mut Vec<u8>, number: u32) -> Result<(), AllocError>
    ensures put { OnOk result (bytes.new.items ≡ bytes.old.items ++ big_bytes 4 number) }
    ensures refused { OnErr result (bytes.new.items ≡ bytes.old.items) }
{
    let spelled: [u8; 4] = number.to_be_bytes();
    bytes.extend_from_slice(&spelled)
}

/// Appends the number in eight bytes, big-endian. Unchanged if out of memory.
pub fn put_be64(bytes: &mut Vec<u8>, number: u64) -> Result<(), AllocError>
    ensures put { OnOk result (bytes.new.items ≡ bytes.old.items ++ big_bytes 8 number) }
    ensures refused { OnErr result (bytes.new.items ≡ bytes.old.items) }
{
    let spelled: [u8; 8] = number.to_be_bytes();
    bytes.extend_from_slice(&spelled)
}

/// Appends the shortest uvarint of the number, one to ten bytes. Unchanged if out of memory.
pub fn put_uvarint(bytes: &mut Vec<u8>, number: u64) -> Result<(), AllocError>
    ensures put { OnOk result (bytes.new.items ≡ bytes.old.items ++ uvarint number) }
    ensures refused { OnErr result (bytes.new.items ≡ bytes.old.items) }
{
    let mut spelled = [0u8; 10];
    let mut len = 0;
    let mut rest = number;
    while rest >= 128 {
        spelled[len] = (rest % 128) as u8 + 128;
        len += 1;
        rest /= 128;
    }
    spelled[len] = rest as u8;
    bytes.extend_from_slice(&spelled[..len + 1])
}

/// Returns the length of the shortest uvarint of the number, 1 to 10.
pub fn uvarint_len(number: u64) -> usize
    ensures value { result ≡ length (uvarint number) }
    ensures most { result ≤ 10 }
{
    let mut len = 0;
    let mut rest = number;
    while rest >= 128 {
        len += 1;
        rest /= 128;
    }
    len + 1
}

/// Returns the number whose uvarint is the varint of a signed number n: 2n for n >= 0, and -2n - 1 for n < 0.
pub fn zigzag(number: i64) -> u64
    ensures { result ≡ zigzag_of number }
{
    if number < 0 {
        (-(number + 1)) as u64 * 2 + 1
    } else {
        number as u64 * 2
    }
}

/// Appends the shortest varint of the signed number, one to ten bytes. Unchanged if out of memory.
pub fn put_varint(bytes: &mut Vec<u8>, number: i64) -> Result<(), AllocError>
    ensures put { OnOk result (bytes.new.items ≡ bytes.old.items ++ varint number) }
    ensures refused { OnErr result (bytes.new.items ≡ bytes.old.items) }
{
    put_uvarint(bytes, zigzag(number))
}

/// Returns the length of the shortest varint of the signed number, 1 to 10.
pub fn varint_len(number: i64) -> usize
    ensures value { result ≡ length (varint number) }
    ensures most { result ≤ 10 }
{
    uvarint_len(zigzag(number))
}

/// Appends the text: the shortest uvarint of its length, and then its bytes. Unchanged if out of memory.
pub fn put_text(bytes: &mut Vec<u8>, text: &[u8]) -> Result<(), AllocError>
    ensures put { OnOk result (bytes.new.items ≡ bytes.old.items ++ text_of text.now) }
    ensures refused { OnErr result (bytes.new.items ≡ bytes.old.items) }
{
    let before = bytes.len();
    put_uvarint(bytes, text.len() as u64)?;
    let put = bytes.extend_from_slice(text);
    if put.is_err() {
        bytes.truncate(before);
    }
    put
}
