//! Chunks of samples.

use hw_bytes::Items;
use std::alloc::{AllocError, AllocFailed};
use std::error::Error;
use std::fmt;

/// The number of samples of a chunk. The last chunk of an hour may have fewer.
pub const CHUNK_SAMPLES: usize = 120;

/// A chunk: samples of one series in the order of their times, encoded. The data of a chunk of a block (chunks.md) are in a form of this
/// project, as `encode_chunk` encodes them, or in a server's own.
#[derive(Debug, Drop)]
pub struct Chunk {
    /// The time of the first sample, in milliseconds.
    pub min_time: i64,
    /// The time of the last sample, in milliseconds.
    pub max_time: i64,
    /// The number of samples, 1 to 120.
    pub count: usize,
    /// The samples, encoded.
    pub text: Items<u8>,
}

/// An error of `decode_chunk`.
#[derive(Clone, Copy, Debug, PartialEq, Eq)]
pub enum ChunkFault {
    /// The bytes are the text of no chunk.
    BadChunk,
    /// Out of memory.
    Memory,
}

impl fmt::Display for ChunkFault {
    fn fmt<W: fmt::Write>(&self, f: &mut fmt::Formatter<W>) -> fmt::Result {
        f.write_str(match self {
            ChunkFault::BadChunk => "bad chunk",
            ChunkFault::Memory => "out of memory",
        })
    }
}

impl Error for ChunkFault {}

impl From<AllocError> for ChunkFault {
    ghost use Rattle.std.specs.Prelude.{◌≡◌};
    ghost use Rattle.head_column.specs.declared.chunk.ChunkFault.TheVariants.{Memory};

    ghost from_gives = { λ _ e. e ≡ Memory };

    fn from(_error: AllocError) -> ChunkFault {
        ChunkFault::Memory
    }
}

impl<T: Drop> From<AllocFailed<T>> for ChunkFault {
    ghost use Rattle.std.specs.Prelude.{◌≡◌};
    ghost use Rattle.head_column.specs.declared.chunk.ChunkFault.TheVariants.{Memory};

    ghost from_gives = { λ _ e. e ≡ Memory };

    fn from(_error: AllocFailed<T>) -> ChunkFault {
        ChunkFault::Memory
    }
}
