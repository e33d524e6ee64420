//! Checksums that follow texts.

ghost use Rattle.std.specs.Prelude.{◌≡◌, ◌↔◌, ◌≤◌, ◌^◌, ◌++◌, length, Err, IfOk, OnOk, OnErr};
ghost use Rattle.hw_bytes.specs.Sums.{sum_text, sums};

use crate::checksum::crc32c;
use crate::numbers::be32_at;
use crate::write_fault::WriteFault;
use crate::writing::put_be32;
use std::alloc::AllocError;

/// Converts a number to 32 bits. If it does not fit, `TooLarge` is returned.
pub fn four_bytes_of(number: usize) -> Result<u32, WriteFault>
    ensures same { IfOk result (λ m. m ≡ number) }
    ensures large { result ≡ Err WriteFault.TooLarge ↔ 2 ^ 32 ≤ number }
    ensures fault { result ≡ Err WriteFault.Memory → ⊥ }
{
    if number > 0xFFFF_FFFF {
        return Err(WriteFault::TooLarge);
    }
    Ok(number as u32)
}

/// Appends the checksum of `text` to `bytes`: its CRC-32C in four bytes, big-endian. If memory runs out, `bytes` is unchanged.
#[tactic(auto, unfolding(crate::specs::Sums::sum_text))]
pub fn put_sum(bytes: &mut Vec<u8>, text: &[u8]) -> Result<(), AllocError>
    ensures put { OnOk result (bytes.new.items ≡ bytes.old.items ++ sum_text text.now) }
    ensures refused { OnErr result (bytes.new.items ≡ bytes.old.items) }
{
    put_be32(bytes, crc32c(text))
}

/// Returns whether the first `len` bytes are followed by their checksum.
pub fn is_summed(bytes: &[u8], len: usize) -> bool
    requires { len ≤ length bytes.now }
    ensures { result ≡ sums len bytes.now }
{
    let (front, rest) = bytes.split_at(len);
    match be32_at(rest) {
        None => false,
        Some(sum) => sum == crc32c(front),
    }
}
