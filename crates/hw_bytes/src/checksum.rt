//! CRC-32C, eight bytes at a time, by eight tables.

ghost use Rattle.std.specs.Prelude.{◌≡◌, ◌<◌, ◌+◌, ◌*◌, length, bit_xor};
ghost use Rattle.std.specs.List.{fold};
ghost use Rattle.hw_bytes.specs.Checksum.{crc32c as crc32c_of, divided_times, with_byte};

use crate::table::TABLES;

// Returns what is left of a byte after the division steps of k + 1 bytes.
fn entry(k: usize, byte: u32) -> u32
    requires place { k < 8 }
    requires byte { byte < 256 }
    ensures { result ≡ divided_times (8 * k + 8) byte }
{
    TABLES[k][byte as usize]
}

fn low(byte: u8, bits: u32) -> u32
    requires { bits < 256 }
    ensures value { result ≡ bit_xor bits byte }
    ensures fits { result < 256 }
{
    bits ^ u32::from(byte)
}

// Returns the remainder after eight more bytes.
fn eight(remainder: u32, bytes: &[u8]) -> u32
    requires { length bytes.now ≡ 8 }
    ensures { result ≡ fold with_byte remainder bytes.now }
{
    let late = entry(3, u32::from(bytes[4]))
        ^ (entry(2, u32::from(bytes[5]))
            ^ (entry(1, u32::from(bytes[6])) ^ entry(0, u32::from(bytes[7]))));
    let third = entry(4, low(bytes[3], remainder >> 24)) ^ late;
    let second = third ^ entry(5, low(bytes[2], (remainder >> 16) & 0xFF));
    let first = second ^ entry(6, low(bytes[1], (remainder >> 8) & 0xFF));
    first ^ entry(7, low(bytes[0], remainder & 0xFF))
}

/// Returns the CRC-32C (Castagnoli) of the bytes.
pub fn crc32c(bytes: &[u8]) -> u32
    ensures { result ≡ crc32c_of bytes.now }
{
    let mut remainder = 0xFFFF_FFFFu32;
    let mut at = 0;
    while bytes.len() - at >= 8 {
        let (_, rest) = bytes.split_at(at);
        let (front, _) = rest.split_at(8);
        remainder = eight(remainder, front);
        at += 8;
    }
    while at < bytes.len() {
        let low = (remainder ^ u32::from(bytes[at])) & 0xFF;
        remainder = (remainder >> 8) ^ entry(0, low);
        at += 1;
    }
    remainder ^ 0xFFFF_FFFF
}
