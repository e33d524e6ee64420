//! Blocks of Snappy's format: those of its library and of a writer by hand, whole, cut and changed.

use crate::cases::{Case, check, shown};
use hw_bytes::{crc32c, put_uvarint};
use snappy_block::{SnappyFault, decode, decode_in};
use std::alloc::{AllocError, Global};

// A block. What it stands for is given by how many bytes these are and their checksum.
struct Decoded(&'static [u8]);

fn text_of(alloc: Global, block: &[u8]) -> Result<String, AllocError> {
    match decode(alloc, block) {
        Ok(plain) => format!(in alloc; "{} {:08X}", plain.len(), crc32c(&plain)),
        Err(fault) => shown(alloc, fault),
    }
}

impl Case for Decoded {
    fn text(&self, alloc: Global) -> Result<String, AllocError> {
        text_of(alloc, self.0)
    }
}

// What the library says that each stands for.
const BLOCKS: &[(Decoded, &str)] = &[
    (Decoded(b"\x00"), "0 00000000"),
    (Decoded(b"\x01\x00a"), "1 C1D04330"),
    (
        Decoded(
            b"Q\xF0PWikipedia is a free, web-based, collaborative, multilingual encyclopedia project.",
        ),
        "81 57C459DA",
    ),
    (
        Decoded(b"<\xEC !\x22#$%&'()*+,-./0123456789:;<=>?@ABCDEFGHIJKLMNOPQRSTUVWXYZ["),
        "60 34D00B16",
    ),
    (
        Decoded(b"=\xF0< !\x22#$%&'()*+,-./0123456789:;<=>?@ABCDEFGHIJKLMNOPQRSTUVWXYZ[\x5C"),
        "61 78D0B6DE",
    ),
    (Decoded(b"!\x08abcv\x03\x00"), "33 0B194E4E"),
    (Decoded(b"d\x00a\xFE\x01\x00\x8A\x01\x00"), "100 5EA3AD99"),
    // longer spellings than need be: of a literal's length in one to four bytes, and of the length of the block
    (Decoded(b"\x03\xF0\x02xyz"), "3 25236885"),
    (Decoded(b"\x03\xF4\x02\x00xyz"), "3 25236885"),
    (Decoded(b"\x03\xF8\x02\x00\x00xyz"), "3 25236885"),
    (Decoded(b"\x03\xFC\x02\x00\x00\x00xyz"), "3 25236885"),
    (Decoded(b"\x83\x00\x08xyz"), "3 25236885"),
    // copies from 1 to 8 bytes back
    (Decoded(b"\x13\x1C12345678\x1D\x01"), "19 75934FE8"),
    (Decoded(b"\x13\x1C12345678\x1D\x02"), "19 60B4647A"),
    (Decoded(b"\x13\x1C12345678\x1D\x03"), "19 2B06CBFE"),
    (Decoded(b"\x13\x1C12345678\x1D\x04"), "19 DF81F487"),
    (Decoded(b"\x13\x1C12345678\x1D\x05"), "19 EE3F07F8"),
    (Decoded(b"\x13\x1C12345678\x1D\x06"), "19 994442AF"),
    (Decoded(b"\x13\x1C12345678\x1D\x07"), "19 8AA6BCB5"),
    (Decoded(b"\x13\x1C12345678\x1D\x08"), "19 00D4A5BB"),
    // the shortest and the longest copies with two bytes and with four
    (Decoded(b"H\x1C12345678\xFE\x03\x00"), "72 F28B6F82"),
    (Decoded(b"\x09\x1C12345678\x02\x08\x00"), "9 69DFCA4C"),
    (Decoded(b"H\x1C12345678\xFF\x05\x00\x00\x00"), "72 ADEE9D01"),
    (
        Decoded(b"\x0C\x1C12345678\x0F\x08\x00\x00\x00"),
        "12 6F921B16",
    ),
    // copies from more than 255 bytes back
    (
        Decoded(
            b"\xDC\x02$0123456789\xFE\x0A\x00\xFE\x0A\x00\xFE\x0A\x00\xFE\x0A\x00\xFE\x0A\x001+\x12-\x01\x13\x02\x01\x00\x00",
        ),
        "348 F6331069",
    ),
];

#[test]
fn snappy_blocks(rt: HostRuntime) {
    check(&rt, BLOCKS);
}

// A long block: of so many bytes `a`, by copies from 1 byte back; or of so many bytes as they are, whose length is spelled after this tag in
// so many bytes.
enum Long {
    Copies(u32),
    Literal(u32, u8, usize),
}

fn push_copies(block: &mut Vec<u8>, length: u32) -> Result<(), AllocError> {
    block.extend_from_slice(b"\x00a")?;
    let copied = length.saturating_sub(1);
    for _copy in 0..copied / 64 {
        block.extend_from_slice(b"\xFE\x01\x00")?;
    }
    let left = (copied % 64) as u8;
    if left > 0 {
        block.extend_from_slice(&[(left - 1) * 4 + 2, 1, 0])?;
    }
    Ok(())
}

fn push_literal(block: &mut Vec<u8>, length: u32, tag: u8, width: usize) -> Result<(), AllocError> {
    block.push(tag)?;
    let number = length.saturating_sub(1).to_le_bytes();
    let (number, _) = number.split_at(width.min(4));
    block.extend_from_slice(number)?;
    for place in 0..length {
        block.push((place.wrapping_mul(7) % 251) as u8)?;
    }
    Ok(())
}

impl Case for Long {
    fn text(&self, alloc: Global) -> Result<String, AllocError> {
        let mut block = Vec::new(alloc);
        match *self {
            Long::Copies(length) => {
                put_uvarint(&mut block, u64::from(length))?;
                push_copies(&mut block, length)?;
            }
            Long::Literal(length, tag, width) => {
                put_uvarint(&mut block, u64::from(length))?;
                push_literal(&mut block, length, tag, width)?;
            }
        }
        text_of(alloc, &block)
    }
}

// What the library says that each stands for: 64 KiB, less and more.
const LONG: &[(Long, &str)] = &[
    (Long::Copies(65_536), "65536 4E95ED3F"),
    (Long::Copies(200_000), "200000 8F7D1677"),
    (Long::Literal(256, 0xF0, 1), "256 B1F12F54"),
    (Long::Literal(65_536, 0xF4, 2), "65536 8C6D4CFE"),
    (Long::Literal(70_000, 0xF8, 3), "70000 6E2CB058"),
];

#[test]
fn long_snappy_blocks(rt: HostRuntime) {
    check(&rt, LONG);
}

// What the library refuses, and the fault by the order of the format.
const REFUSED: &[(Decoded, &str)] = &[
    (Decoded(b""), "BadLength"),
    (Decoded(b"\x80"), "BadLength"),
    (Decoded(b"\x80\x80\x80\x80\x10"), "BadLength"),
    (Decoded(b"\x03\x08xy"), "CutOff"),
    (Decoded(b"\x03\xF0"), "CutOff"),
    (Decoded(b"\x03\xF4\x02"), "CutOff"),
    (Decoded(b"\x03\xFC\x02\x00\x00"), "CutOff"),
    (Decoded(b"\x08\x0Cabcd\x01"), "CutOff"),
    (Decoded(b"\x08\x0Cabcd\x0E\x01"), "CutOff"),
    (Decoded(b"\x08\x0Cabcd\x0F\x01\x00\x00"), "CutOff"),
    (Decoded(b"\x08\x0Cabcd\x01\x00"), "BadOffset"),
    (Decoded(b"\x08\x0Cabcd\x01\x05"), "BadOffset"),
    (Decoded(b"\x04\x01\x01"), "BadOffset"),
    (Decoded(b"\x08\x0Cabcd\x0F\xFF\xFF\xFF\xFF"), "BadOffset"),
    (Decoded(b"\x03\x0Cabcd"), "TooLong"),
    (Decoded(b"\x07\x0Cabcd\x01\x04"), "TooLong"),
    (Decoded(b"\x00\x00a"), "TooLong"),
    (Decoded(b"\x05\x0Cabcd"), "TooShort"),
    (Decoded(b"\x01"), "TooShort"),
    (Decoded(b"\xFF\xFF\xFF\xFF\x0F"), "TooShort"),
    (Decoded(b"\xFF\xFF\xFF\xFF\x0F\x0Cabcd"), "TooShort"),
    // two faults, of which the first is reported
    (Decoded(b"\x07\x0Cabcd\xFE\x05\x00"), "BadOffset"),
    (Decoded(b"\x03\x0Cabc"), "CutOff"),
    (Decoded(b"\x03\x0Cabcd\x01\x09"), "TooLong"),
];

#[test]
fn refused_snappy_blocks(rt: HostRuntime) {
    check(&rt, REFUSED);
}

// The texts of the faults.
struct Told(SnappyFault);

impl Case for Told {
    fn text(&self, alloc: Global) -> Result<String, AllocError> {
        format!(in alloc; "{}", self.0)
    }
}

const TOLD: &[(Told, &str)] = &[
    (Told(SnappyFault::BadLength), "no length below 2^32"),
    (Told(SnappyFault::CutOff), "cut off within an element"),
    (
        Told(SnappyFault::BadOffset),
        "a copy of bytes that there are not",
    ),
    (
        Told(SnappyFault::TooLong),
        "more bytes than the length says",
    ),
    (
        Told(SnappyFault::TooShort),
        "fewer bytes than the length says",
    ),
    (Told(SnappyFault::Memory), "out of memory"),
];

#[test]
fn texts_of_snappy_faults(rt: HostRuntime) {
    check(&rt, TOLD);
}

// A block, once for each of its bytes, of which that byte and all after it are cut off; or once for each bit, which is changed.
enum Changed {
    Cut(&'static [u8]),
    Bits(&'static [u8]),
}

// What blocks were decoded to: a letter for each; and the bytes that they stand for, one list after another, each with its length after it.
#[derive(Drop)]
struct Answers {
    letters: String,
    bytes: Vec<u8>,
    plain: Vec<u8>,
}

impl Answers {
    fn new(alloc: Global) -> Answers {
        Answers {
            letters: String::new(alloc),
            bytes: Vec::new(alloc),
            plain: Vec::new(alloc),
        }
    }

    fn push(&mut self, block: &[u8]) -> Result<(), AllocError> {
        let found = decode_in(block, &mut self.plain);
        if found.is_ok() {
            self.bytes.extend_from_slice(&self.plain)?;
            self.bytes.push((self.plain.len() % 256) as u8)?;
        }
        self.letters.push(letter(found.err()))
    }
}

fn letter(fault: Option<SnappyFault>) -> char {
    match fault {
        None => '=',
        Some(SnappyFault::BadLength) => 'n',
        Some(SnappyFault::CutOff) => 'c',
        Some(SnappyFault::BadOffset) => 'o',
        Some(SnappyFault::TooLong) => '>',
        Some(SnappyFault::TooShort) => '<',
        Some(SnappyFault::Memory) => 'm',
    }
}

fn push_cut(answers: &mut Answers, block: &[u8]) -> Result<(), AllocError> {
    for at in 0..block.len() {
        let (front, _) = block.split_at(at);
        answers.push(front)?;
    }
    Ok(())
}

fn push_changed(answers: &mut Answers, block: &mut [u8]) -> Result<(), AllocError> {
    for at in 0..block.len() {
        let byte = block[at];
        for bit in 0..8u32 {
            block[at] = byte ^ (1u8 << bit);
            answers.push(block)?;
        }
        block[at] = byte;
    }
    Ok(())
}

impl Case for Changed {
    fn text(&self, alloc: Global) -> Result<String, AllocError> {
        let mut answers = Answers::new(alloc);
        match self {
            Changed::Cut(block) => push_cut(&mut answers, block)?,
            Changed::Bits(block) => {
                let mut bytes = Vec::from_slice(alloc, block)?;
                push_changed(&mut answers, &mut bytes)?;
            }
        }
        let sum = crc32c(&answers.bytes);
        format!(in alloc; "{} {sum:08X}", answers.letters)
    }
}

// What each gives was said by a reader of its own, from the description of the format, and the library refuses and takes the same.
const CHANGED: &[(Changed, &str)] = &[
    (Changed::Cut(b"!\x08abcv\x03\x00"), "n<ccc<cc 00000000"),
    (
        Changed::Bits(b"!\x08abcv\x03\x00"),
        "><<<<><ooococccc========================cc<><<<>==oooooooooooooo 51EAD9C6",
    ),
    (
        Changed::Cut(b"\x13\x1C12345678\x1D\x03"),
        "n<cccccccc<c 00000000",
    ),
    (
        Changed::Bits(b"\x13\x1C12345678\x1D\x03"),
        ">><<><<oooccoccc================================================================cc<<<ooo===ooooo F736714A",
    ),
    (
        Changed::Cut(b"\x0C\xF0\x02xyz\x13\x02\x00\x00\x00\x01\x08"),
        "n<cccc<cccc<c 00000000",
    ),
    (
        Changed::Bits(b"\x0C\xF0\x02xyz\x13\x02\x00\x00\x00\x01\x08"),
        "<<>><<<cooccccccoocccccc========================>>>>o>>>=ooooooooooooooooooooooooooooooo<c>>>ooooooooooo 753BA4F6",
    ),
];

#[test]
fn changed_snappy_blocks(rt: HostRuntime) {
    check(&rt, CHANGED);
}
