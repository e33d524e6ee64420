//! The error of reading an index.

use std::alloc::{AllocError, AllocFailed};
use std::error::Error;
use std::fmt;
use wal_record::LabelFault;

/// The error of reading an index: the first fault found.
#[derive(Clone, Copy, Debug, PartialEq, Eq)]
pub enum ReadFault {
    /// The bytes do not begin with the magic number `BAAAD700`.
    BadMagic,
    /// The fifth byte is missing or not 2.
    BadVersion,
    /// The bytes are too short for a table of contents, its checksum is wrong, or its offsets are not in the order of the sections.
    BadToc,
    /// The checksum of an element is wrong.
    BadSum,
    /// A section is malformed: a length exceeds it, padding is not zero, a reference has no symbol, or bytes are left over.
    BadSection,
    /// The rows that were read have no index, or another one than these bytes.
    NotCanonical,
    /// Out of memory.
    Memory,
}

impl fmt::Display for ReadFault {
    fn fmt<W: fmt::Write>(&self, f: &mut fmt::Formatter<W>) -> fmt::Result {
        f.write_str(match self {
            ReadFault::BadMagic => "BadMagic",
            ReadFault::BadVersion => "BadVersion",
            ReadFault::BadToc => "BadToc",
            ReadFault::BadSum => "BadSum",
            ReadFault::BadSection => "BadSection",
            ReadFault::NotCanonical => "NotCanonical",
            ReadFault::Memory => "Memory",
        })
    }
}

impl Error for ReadFault {}

impl From<AllocError> for ReadFault {
    ghost use Rattle.std.specs.Prelude.{◌≡◌};
    ghost use Rattle.index_text.specs.declared.fault.ReadFault.TheVariants.{Memory};

    ghost from_gives = { λ _ e. e ≡ Memory };

    fn from(_e: AllocError) -> ReadFault {
        ReadFault::Memory
    }
}

impl<T: Drop> From<AllocFailed<T>> for ReadFault {
    ghost use Rattle.std.specs.Prelude.{◌≡◌};
    ghost use Rattle.index_text.specs.declared.fault.ReadFault.TheVariants.{Memory};

    ghost from_gives = { λ _ e. e ≡ Memory };

    fn from(_e: AllocFailed<T>) -> ReadFault {
        ReadFault::Memory
    }
}

impl From<LabelFault> for ReadFault {
    ghost use Rattle.std.specs.Prelude.{◌≡◌, ◌⊎◌};
    ghost use Rattle.wal_record.specs.declared.labels.LabelFault.TheVariants as label;
    ghost use Rattle.index_text.specs.declared.fault.ReadFault.TheVariants.{Memory, NotCanonical};

    ghost from_gives = { λ l e. ((l ≡ label.Memory) × (e ≡ Memory)) ⊎ ((l ≡ label.Memory → ⊥) × (e ≡ NotCanonical)) };

    fn from(fault: LabelFault) -> ReadFault {
        match fault {
            LabelFault::Memory => ReadFault::Memory,
            // the labels of a row are no label set
            LabelFault::EmptyName | LabelFault::NotAscending => ReadFault::NotCanonical,
        }
    }
}
