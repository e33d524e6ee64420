//! Blocks of which a byte was changed, cut off or added.

use crate::blocks::{Part, block_with, bytes_of};
use crate::cases::{Case, check};
use block_read::{BlockFault, read_block};
use std::alloc::{AllocError, Global};

// What is read of a block: nothing to say of it, or a fault.
type Answer = Option<BlockFault>;

fn answer(alloc: Global, part: Part, bytes: &[u8]) -> Result<Answer, AllocError> {
    let block = block_with(alloc, part, bytes)?;
    Ok(read_block(alloc, &block).err())
}

// What is done to a part, once for each of its bytes: the byte exclusive or these bits; the bytes from it on cut off; or another one, of
// the values 0, 1 and so on, put after the part.
enum Change {
    Bits(u8),
    Cut,
    Longer,
}

impl Change {
    fn make(&self, bytes: &mut Vec<u8>, at: usize) -> Result<(), AllocError> {
        match self {
            Change::Bits(bits) => flip(bytes, at, *bits),
            Change::Cut => bytes.truncate(at),
            Change::Longer => bytes.push((at % 256) as u8)?,
        }
        Ok(())
    }
}

fn flip(bytes: &mut [u8], at: usize, bits: u8) {
    if let Some(byte) = bytes.get_mut(at) {
        *byte ^= bits;
    }
}

// How many answers in a row are the same, and which.
fn runs_text(alloc: Global, answers: &[Answer]) -> Result<String, AllocError> {
    let mut text = String::new(alloc);
    let mut count = 0usize;
    for (i, answer) in answers.iter().enumerate() {
        count = count.wrapping_add(1);
        if answers.get(i.wrapping_add(1)) != Some(answer) {
            match answer {
                Some(fault) => write!(text, "{count} {fault}, ")?,
                None => write!(text, "{count} read, ")?,
            }
            count = 0;
        }
    }
    Ok(text)
}

struct Changed(Change, Part);

impl Changed {
    fn answer(&self, alloc: Global, at: usize) -> Result<Answer, AllocError> {
        let mut bytes = bytes_of(alloc, self.1)?;
        self.0.make(&mut bytes, at)?;
        answer(alloc, self.1, &bytes)
    }
}

impl Case for Changed {
    fn text(&self, alloc: Global) -> Result<String, AllocError> {
        let mut answers = Vec::new(alloc);
        for at in 0..bytes_of(alloc, self.1)?.len() {
            answers.push(self.answer(alloc, at)?)?;
        }
        runs_text(alloc, &answers)
    }
}

// What each byte of the index gives was said by a program of its own, by the order of the faults that the format has.
const CHANGED: &[(Changed, &str)] = &[
    (
        Changed(Change::Bits(1), Part::Index),
        "4 bad index BadMagic, 1 bad index BadVersion, 4 bad index BadSection, 16 bad index BadSum, \
        7 bad index BadSection, 13 bad index BadSum, 3 bad index BadSection, 14 bad index BadSum, \
        6 bad index BadSection, 20 bad index BadSum, 3 bad index BadSection, 17 bad index BadSum, \
        3 bad index BadSection, 13 bad index BadSum, 4 bad index BadSection, 12 bad index BadSum, \
        4 bad index BadSection, 14 bad index BadSum, 4 bad index BadSection, 28 bad index BadSum, \
        52 bad index BadToc, ",
    ),
    (
        Changed(Change::Bits(0xFF), Part::Index),
        "4 bad index BadMagic, 1 bad index BadVersion, 4 bad index BadSection, 16 bad index BadSum, \
        8 bad index BadSection, 12 bad index BadSum, 4 bad index BadSection, 13 bad index BadSum, \
        6 bad index BadSection, 20 bad index BadSum, 4 bad index BadSection, 16 bad index BadSum, \
        4 bad index BadSection, 12 bad index BadSum, 4 bad index BadSection, 12 bad index BadSum, \
        4 bad index BadSection, 14 bad index BadSum, 4 bad index BadSection, 28 bad index BadSum, \
        52 bad index BadToc, ",
    ),
    (Changed(Change::Bits(1), Part::Chunks), "54 bad chunks, "),
    (Changed(Change::Bits(0xFF), Part::Chunks), "54 bad chunks, "),
    (
        Changed(Change::Bits(1), Part::Tombstones),
        "9 bad tombstones, ",
    ),
    (
        Changed(Change::Bits(0xFF), Part::Tombstones),
        "9 bad tombstones, ",
    ),
    (Changed(Change::Bits(1), Part::Meta), "249 bad meta, "),
    (Changed(Change::Bits(0xFF), Part::Meta), "249 bad meta, "),
    // no change
    (Changed(Change::Bits(0), Part::Tombstones), "9 read, "),
];

#[test]
fn changed_bytes(rt: HostRuntime) {
    check(&rt, CHANGED);
}

const CUT: &[(Changed, &str)] = &[
    (
        Changed(Change::Cut, Part::Index),
        "4 bad index BadMagic, 1 bad index BadVersion, 237 bad index BadToc, ",
    ),
    (Changed(Change::Cut, Part::Chunks), "54 bad chunks, "),
    (Changed(Change::Cut, Part::Tombstones), "9 bad tombstones, "),
    (Changed(Change::Cut, Part::Meta), "249 bad meta, "),
    (
        Changed(Change::Longer, Part::Index),
        "242 bad index BadToc, ",
    ),
    (Changed(Change::Longer, Part::Chunks), "54 bad chunks, "),
    (
        Changed(Change::Longer, Part::Tombstones),
        "9 bad tombstones, ",
    ),
    (Changed(Change::Longer, Part::Meta), "249 bad meta, "),
];

#[test]
fn cut_and_longer_parts(rt: HostRuntime) {
    check(&rt, CUT);
}
