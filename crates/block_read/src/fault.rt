//! The errors of reading a block.

use block_files::TombstonesFault;
use block_index::ReadFault;
use head_column::ChunkFault;
use hw_bytes::WriteFault;
use std::alloc::{AllocError, AllocFailed};
use std::error::Error;
use std::fmt;
use xor_chunk::XorFault;

/// The error of reading a block: the first of these that applies, except that `Memory` can come before any.
#[derive(Clone, Copy, Debug, PartialEq, Eq)]
pub enum BlockFault {
    /// The index is invalid, with this fault.
    Index(ReadFault),
    /// The chunk files are not the text, in one encoding that is read, of samples in chunks of 120 with the references and times in the
    /// index.
    BadChunks,
    /// The tombstones are not the text of runs of the series in the index, with a gap between any two of a series.
    BadTombstones,
    /// The meta.json is not the text for these rows with a ULID and an hour that is no edge and has all samples and runs.
    BadMeta,
    /// Out of memory.
    Memory,
}

// The error of reading one part of a block.
#[derive(Clone, Copy, Debug, PartialEq, Eq)]
pub(crate) enum PartFault {
    // the bytes are not a text of this part
    Bad,
    // out of memory
    Memory,
}

impl fmt::Display for BlockFault {
    fn fmt<W: fmt::Write>(&self, f: &mut fmt::Formatter<W>) -> fmt::Result {
        match self {
            BlockFault::Index(fault) => {
                f.write_str("bad index ")?;
                fault.fmt(f)
            }
            BlockFault::BadChunks => f.write_str("bad chunks"),
            BlockFault::BadTombstones => f.write_str("bad tombstones"),
            BlockFault::BadMeta => f.write_str("bad meta"),
            BlockFault::Memory => f.write_str("out of memory"),
        }
    }
}

impl Error for BlockFault {}

impl From<AllocError> for BlockFault {
    ghost use Rattle.std.specs.Prelude.{◌≡◌};
    ghost use Rattle.block_read.specs.declared.fault.BlockFault.TheVariants.{Memory};

    ghost from_gives = { λ _ e. e ≡ Memory };

    fn from(_error: AllocError) -> BlockFault {
        BlockFault::Memory
    }
}

impl<T: Drop> From<AllocFailed<T>> for BlockFault {
    ghost use Rattle.std.specs.Prelude.{◌≡◌};
    ghost use Rattle.block_read.specs.declared.fault.BlockFault.TheVariants.{Memory};

    ghost from_gives = { λ _ e. e ≡ Memory };

    fn from(_error: AllocFailed<T>) -> BlockFault {
        BlockFault::Memory
    }
}

impl From<ReadFault> for BlockFault {
    ghost use Rattle.std.specs.Prelude.{◌≡◌};
    ghost use Rattle.block_read.specs.Faults.{of_index};

    ghost from_gives = { λ f e. e ≡ of_index f };

    fn from(fault: ReadFault) -> BlockFault {
        match fault {
            ReadFault::Memory => BlockFault::Memory,
            other => BlockFault::Index(other),
        }
    }
}

impl From<AllocError> for PartFault {
    ghost use Rattle.std.specs.Prelude.{◌≡◌};
    ghost use Rattle.block_read.specs.declared.fault.PartFault.TheVariants.{Memory};

    ghost from_gives = { λ _ e. e ≡ Memory };

    fn from(_error: AllocError) -> PartFault {
        PartFault::Memory
    }
}

impl<T: Drop> From<AllocFailed<T>> for PartFault {
    ghost use Rattle.std.specs.Prelude.{◌≡◌};
    ghost use Rattle.block_read.specs.declared.fault.PartFault.TheVariants.{Memory};

    ghost from_gives = { λ _ e. e ≡ Memory };

    fn from(_error: AllocFailed<T>) -> PartFault {
        PartFault::Memory
    }
}

impl From<ChunkFault> for PartFault {
    ghost use Rattle.std.specs.Prelude.{◌≡◌};
    ghost use Rattle.block_read.specs.Faults.{of_chunk};

    ghost from_gives = { λ f e. e ≡ of_chunk f };

    fn from(fault: ChunkFault) -> PartFault {
        match fault {
            ChunkFault::BadChunk => PartFault::Bad,
            ChunkFault::Memory => PartFault::Memory,
        }
    }
}

impl From<XorFault> for PartFault {
    ghost use Rattle.std.specs.Prelude.{◌≡◌};
    ghost use Rattle.block_read.specs.Faults.{of_xor};

    ghost from_gives = { λ f e. e ≡ of_xor f };

    fn from(fault: XorFault) -> PartFault {
        match fault {
            XorFault::Memory => PartFault::Memory,
            _ => PartFault::Bad,
        }
    }
}

impl From<WriteFault> for PartFault {
    ghost use Rattle.std.specs.Prelude.{◌≡◌};
    ghost use Rattle.block_read.specs.Faults.{of_write};

    ghost from_gives = { λ f e. e ≡ of_write f };

    fn from(fault: WriteFault) -> PartFault {
        match fault {
            WriteFault::TooLarge => PartFault::Bad,
            WriteFault::Memory => PartFault::Memory,
        }
    }
}

impl From<TombstonesFault> for PartFault {
    ghost use Rattle.std.specs.Prelude.{◌≡◌};
    ghost use Rattle.block_read.specs.Faults.{of_tombstones};

    ghost from_gives = { λ f e. e ≡ of_tombstones f };

    fn from(fault: TombstonesFault) -> PartFault {
        match fault {
            TombstonesFault::BadTombstones => PartFault::Bad,
            TombstonesFault::Memory => PartFault::Memory,
        }
    }
}
