//! The errors of decoding a chunk.

use std::alloc::AllocError;
use std::error::Error;
use std::fmt;

/// The error of decoding a chunk: the first fault from the front, except that `Memory` can come before any and `NotCanonical` comes after all.
#[derive(Clone, Copy, Debug, PartialEq, Eq)]
pub enum XorFault {
    /// The bytes end before the last sample does.
    TooShort,
    /// There is no varint of 64 bits where the first time or the first difference of times is.
    BadNumber,
    /// A window is wider than what it leaves of 64 bits.
    BadWindow,
    /// The samples that are read have a shorter chunk, or one with other bits: a number or a window has more bits than it needs, or bits
    /// follow the last sample. Only `decode_exact` returns it.
    NotCanonical,
    /// Out of memory.
    Memory,
}

impl fmt::Display for XorFault {
    ghost use Rattle.std.specs.Prelude.{Some};
    ghost use Rattle.xor_chunk.specs.Faults.{fault_text};

    ghost output = { λ fault. Some (fault_text fault) };

    fn fmt<W: fmt::Write>(&self, f: &mut fmt::Formatter<W>) -> fmt::Result {
        f.write_str(match self {
            XorFault::TooShort => "cut off before the last sample",
            XorFault::BadNumber => "no number of 64 bits",
            XorFault::BadWindow => "a window of more than 64 bits",
            XorFault::NotCanonical => "not the shortest chunk of its samples",
            XorFault::Memory => "out of memory",
        })
    }
}

impl Error for XorFault {}

impl From<AllocError> for XorFault {
    ghost use Rattle.std.specs.Prelude.{◌≡◌};
    ghost use Rattle.xor_chunk.specs.declared.fault.XorFault.TheVariants.{Memory};

    ghost from_gives = { λ _ e. e ≡ Memory };

    fn from(_error: AllocError) -> XorFault {
        XorFault::Memory
    }
}
