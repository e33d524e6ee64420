//! Reading a chunk by its reference.

ghost use Rattle.std.specs.Prelude.{◌≡◌, IfSome, IfNone};
ghost use Rattle.hw_bytes.specs.Sums.{Text};
ghost use Rattle.block_files.specs.declared.encoding.Encoding.{Encoding as EncodingOf};
ghost use Rattle.block_files.specs.Files.{BeginsWith, StandsAt, encoding_byte};

use crate::encoding::Encoding;
use hw_bytes::{Items, be32_at, crc32c, uvarint_at};

// Returns the encoding that has this byte.
fn encoding_of(byte: u8) -> Option<Encoding>
    ensures found { IfSome result (λ encoding. encoding_byte encoding ≡ byte) }
    ensures none { IfNone result ((e : EncodingOf) → encoding_byte e ≡ byte → ⊥) }
{
    match byte {
        0x41 => Some(Encoding::Raw),
        1 => Some(Encoding::Xor),
        _ => None,
    }
}

// Reads a chunk at the front of bytes, and returns its encoding and its data.
fn front_chunk(bytes: &[u8]) -> Option<(Encoding, &[u8])>
    ensures found { IfSome result (λ chunk. BeginsWith chunk.0 bytes.now chunk.1.now) }
    ensures none { IfNone result ((e : EncodingOf) (body : Text) → BeginsWith e bytes.now body → ⊥) }
{
    let (len, start) = uvarint_at(bytes)?;
    let (_, body) = bytes.split_at(start);
    if len >= body.len() as u64 {
        return None;
    }
    let (summed, rest) = body.split_at(len as usize + 1);
    let encoding = encoding_of(summed[0])?;
    let sum = be32_at(rest)?;
    if sum != crc32c(summed) {
        return None;
    }
    let (_, data) = summed.split_at(1);
    Some((encoding, data))
}

/// Returns the encoding and the data of the chunk at a reference. The data are borrowed from its file. Returns `None` if there is no such
/// file, or no chunk at the offset with a valid checksum and one of the encodings.
pub fn chunk_at(files: &[Items<u8>], reference: u64) -> Option<(Encoding, &[u8])>
    ensures found { IfSome result (λ chunk. StandsAt chunk.0 files.now reference chunk.1.now) }
    ensures none { IfNone result ((e : EncodingOf) (body : Text) → StandsAt e files.now reference body → ⊥) }
{
    let file = files.get((reference / 0x1_0000_0000) as usize)?.as_slice();
    let offset = ((reference % 0x1_0000_0000) as usize).min(file.len());
    let (_, bytes) = file.split_at(offset);
    front_chunk(bytes)
}
