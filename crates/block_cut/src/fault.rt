//! The error of cutting an hour.

use hw_bytes::WriteFault;
use std::alloc::{AllocError, AllocFailed};
use std::error::Error;
use std::fmt;

/// The error of cutting an hour: the first of these that applies, except that `Memory` can come before any.
#[derive(Clone, Copy, Debug, PartialEq, Eq)]
pub enum CutFault {
    /// The hour is an edge: it begins before the least time of 64 bits or ends after the greatest.
    Edge,
    /// No accepted sample has a time at or past the end of the hour.
    NotFull,
    /// The hour is full, but has no samples.
    Nothing,
    /// A length, a count, an id or a reference of the index exceeds 2^32 - 1, or there are more than 2^32 chunk files.
    TooLarge,
    /// Out of memory.
    Memory,
}

impl fmt::Display for CutFault {
    fn fmt<W: fmt::Write>(&self, f: &mut fmt::Formatter<W>) -> fmt::Result {
        f.write_str(match self {
            CutFault::Edge => "hour at the edge of time",
            CutFault::NotFull => "hour not full",
            CutFault::Nothing => "no samples in hour",
            CutFault::TooLarge => "too large",
            CutFault::Memory => "out of memory",
        })
    }
}

impl Error for CutFault {}

impl From<AllocError> for CutFault {
    ghost use Rattle.std.specs.Prelude.{◌≡◌};
    ghost use Rattle.block_cut.specs.declared.fault.CutFault.TheVariants.{Memory};

    ghost from_gives = { λ _ e. e ≡ Memory };

    fn from(_error: AllocError) -> CutFault {
        CutFault::Memory
    }
}

impl<T: Drop> From<AllocFailed<T>> for CutFault {
    ghost use Rattle.std.specs.Prelude.{◌≡◌};
    ghost use Rattle.block_cut.specs.declared.fault.CutFault.TheVariants.{Memory};

    ghost from_gives = { λ _ e. e ≡ Memory };

    fn from(_error: AllocFailed<T>) -> CutFault {
        CutFault::Memory
    }
}

impl From<WriteFault> for CutFault {
    ghost use Rattle.std.specs.Prelude.{◌≡◌};
    ghost use Rattle.block_cut.specs.Faults.{cut_fault};

    ghost from_gives = { λ fault e. e ≡ cut_fault fault };

    fn from(fault: WriteFault) -> CutFault {
        match fault {
            WriteFault::TooLarge => CutFault::TooLarge,
            WriteFault::Memory => CutFault::Memory,
        }
    }
}
