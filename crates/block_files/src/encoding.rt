//! The encodings of chunks.

ghost use Rattle.std.specs.Prelude.{◌≡◌};
ghost use Rattle.block_files.specs.Files.{encoding_byte};

/// How the data of a chunk stand for its samples (chunks.md of the public standard).
#[derive(Clone, Copy, Debug, PartialEq, Eq)]
pub enum Encoding {
    /// The encoding `41`, which this program alone reads: the samples as `encode_chunk` of `head_column` encodes them.
    Raw,
    /// The encoding `01`, which servers write and read: the samples as `encode` of `xor_chunk` encodes them.
    Xor,
}

// Returns the byte of an encoding.
pub(crate) fn byte_of(encoding: Encoding) -> u8
    ensures { result ≡ encoding_byte encoding }
{
    match encoding {
        Encoding::Raw => 0x41,
        Encoding::Xor => 1,
    }
}
