//! Checksums, numbers, texts, and the list type of public fields.

use crate::cases::{Case, check, shown};
use hw_bytes::*;
use std::alloc::{AllocError, Global};

// What is read at the front of bytes.
enum Reading {
    Checksum(&'static [u8]),
    Two(&'static [u8]),
    Four(&'static [u8]),
    Eight(&'static [u8]),
    Unsigned(&'static [u8]),
    Signed(&'static [u8]),
    Text(&'static [u8]),
}

impl Case for Reading {
    fn text(&self, alloc: Global) -> Result<String, AllocError> {
        match self {
            Reading::Checksum(bytes) => format!(in alloc; "{:08X}", crc32c(bytes)),
            Reading::Two(bytes) => shown(alloc, be16_at(bytes)),
            Reading::Four(bytes) => shown(alloc, be32_at(bytes)),
            Reading::Eight(bytes) => shown(alloc, be64_at(bytes)),
            Reading::Unsigned(bytes) => shown(alloc, uvarint_at(bytes)),
            Reading::Signed(bytes) => shown(alloc, varint_at(bytes)),
            Reading::Text(bytes) => shown(alloc, text_at(bytes)),
        }
    }
}

// The published vectors of CRC-32C, and inputs that take the long loop, the short one and both.
const CHECKSUMS: &[(Reading, &str)] = &[
    (Reading::Checksum(b""), "00000000"),
    (Reading::Checksum(b"123456789"), "E3069283"),
    (Reading::Checksum(&[0; 32]), "8A9136AA"),
    (Reading::Checksum(&[0xFF; 32]), "62A8AB43"),
];

#[test]
fn checksum_vectors(rt: HostRuntime) {
    check(&rt, CHECKSUMS);
}

// The number, and after it how many bytes it takes.
const NUMBERS: &[(Reading, &str)] = &[
    (Reading::Two(b"\x01\x02"), "Some(258)"),
    (Reading::Two(b"\x01"), "None"),
    (Reading::Four(b"\0\0\x01\x02rest"), "Some(258)"),
    (Reading::Four(b"\0\0\x01"), "None"),
    (Reading::Eight(b"\0\0\0\0\0\0\x01\x02"), "Some(258)"),
    (Reading::Eight(b"\0\0\0\0\0\0\x01"), "None"),
    (Reading::Unsigned(b"\xAC\x02"), "Some((300, 2))"),
    (Reading::Unsigned(b"\x80\0"), "Some((0, 2))"),
    (
        Reading::Unsigned(b"\xFF\xFF\xFF\xFF\xFF\xFF\xFF\xFF\xFF\x01"),
        "Some((18446744073709551615, 10))",
    ),
    (
        Reading::Unsigned(b"\xFF\xFF\xFF\xFF\xFF\xFF\xFF\xFF\xFF\x02"),
        "None",
    ),
    (Reading::Unsigned(b"\x80"), "None"),
    (Reading::Unsigned(b""), "None"),
    (Reading::Signed(b"\x01"), "Some((-1, 1))"),
    (Reading::Signed(b"\x7E"), "Some((63, 1))"),
    (Reading::Signed(b"\x80\x01"), "Some((64, 2))"),
    (
        Reading::Signed(b"\xFF\xFF\xFF\xFF\xFF\xFF\xFF\xFF\xFF\x01"),
        "Some((-9223372036854775808, 10))",
    ),
    (Reading::Signed(b"\x80"), "None"),
];

#[test]
fn number_spellings(rt: HostRuntime) {
    check(&rt, NUMBERS);
}

const TEXTS: &[(Reading, &str)] = &[
    (Reading::Text(b"\x03jobs"), "Some(([106, 111, 98], 4))"),
    (Reading::Text(b"\x03jo"), "None"),
    (Reading::Text(b""), "None"),
];

#[test]
fn text_spellings(rt: HostRuntime) {
    check(&rt, TEXTS);
}

// What is put after bytes.
enum Put {
    Two(u16),
    Four(u32),
    Eight(u64),
    Unsigned(u64),
    Signed(i64),
    Text(&'static [u8]),
}

impl Put {
    fn behind(&self, bytes: &mut Vec<u8>) -> Result<(), AllocError> {
        match self {
            Put::Two(number) => put_be16(bytes, *number),
            Put::Four(number) => put_be32(bytes, *number),
            Put::Eight(number) => put_be64(bytes, *number),
            Put::Unsigned(number) => put_uvarint(bytes, *number),
            Put::Signed(number) => put_varint(bytes, *number),
            Put::Text(text) => put_text(bytes, text),
        }
    }
}

fn put_all(bytes: &mut Vec<u8>, puts: &[Put]) -> Result<(), AllocError> {
    for put in puts {
        put.behind(bytes)?;
    }
    Ok(())
}

// What is put one after another, from no bytes on.
struct Puts(&'static [Put]);

impl Case for Puts {
    fn text(&self, alloc: Global) -> Result<String, AllocError> {
        let mut bytes = Vec::new(alloc);
        put_all(&mut bytes, self.0)?;
        shown(alloc, bytes)
    }
}

const FIXED: &[(Puts, &str)] = &[
    (Puts(&[Put::Two(258)]), "[1, 2]"),
    (Puts(&[Put::Two(258), Put::Four(258)]), "[1, 2, 0, 0, 1, 2]"),
    (
        Puts(&[Put::Two(258), Put::Four(258), Put::Eight(258)]),
        "[1, 2, 0, 0, 1, 2, 0, 0, 0, 0, 0, 0, 1, 2]",
    ),
];

#[test]
fn fixed_numbers_are_written_high_byte_first(rt: HostRuntime) {
    check(&rt, FIXED);
}

const UNSIGNED: &[(Puts, &str)] = &[
    (Puts(&[Put::Unsigned(300)]), "[172, 2]"),
    (
        Puts(&[Put::Unsigned(u64::MAX)]),
        "[255, 255, 255, 255, 255, 255, 255, 255, 255, 1]",
    ),
    (Puts(&[Put::Unsigned(0)]), "[0]"),
];

#[test]
fn uvarints_are_written_shortest(rt: HostRuntime) {
    check(&rt, UNSIGNED);
}

const SIGNED: &[(Puts, &str)] = &[
    (Puts(&[Put::Signed(-1)]), "[1]"),
    (Puts(&[Put::Signed(-1), Put::Signed(63)]), "[1, 126]"),
    (
        Puts(&[Put::Signed(-1), Put::Signed(63), Put::Signed(64)]),
        "[1, 126, 128, 1]",
    ),
    (
        Puts(&[Put::Signed(i64::MIN)]),
        "[255, 255, 255, 255, 255, 255, 255, 255, 255, 1]",
    ),
];

#[test]
fn varints_are_written_shortest(rt: HostRuntime) {
    check(&rt, SIGNED);
}

const WRITTEN_TEXTS: &[(Puts, &str)] = &[
    (Puts(&[Put::Text(b"job")]), "[3, 106, 111, 98]"),
    (
        Puts(&[Put::Text(b"job"), Put::Text(b"")]),
        "[3, 106, 111, 98, 0]",
    ),
];

#[test]
fn texts_are_written_with_their_length(rt: HostRuntime) {
    check(&rt, WRITTEN_TEXTS);
}

// The items 1 and 2: how many there are, whether there is none, whether they are lent as they were given, and the items
// given back.
struct TwoItems;

impl Case for TwoItems {
    fn text(&self, alloc: Global) -> Result<String, AllocError> {
        let items = Items::from_vec([1u8, 2].to_vec(alloc)?);
        let is_lent = items.as_slice() == [1u8, 2].as_slice();
        shown(
            alloc,
            (items.len(), items.is_empty(), is_lent, items.into_vec()),
        )
    }
}

#[test]
fn items(rt: HostRuntime) {
    check(&rt, &[(TwoItems, "(2, false, true, [1, 2])")]);
}
