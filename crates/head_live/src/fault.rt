//! Errors of preparing and appending rows, and of truncating a live head.

use head_core::HeadFault;
use std::alloc::{AllocError, AllocFailed};
use std::error::Error;
use std::fmt;
use wal_log::LogFault;
use wal_record::LabelFault;

/// The error of [`Prepared::new`](crate::Prepared::new).
#[derive(Clone, Copy, Debug, PartialEq, Eq)]
pub enum PrepareFault {
    /// The labels of this row are no label set, for this reason. It is the first such row.
    Labels { row: usize, fault: LabelFault },
    /// Out of memory. The rows may be valid or not.
    Memory,
}

impl From<AllocError> for PrepareFault {
    ghost use Rattle.std.specs.Prelude.{◌≡◌};
    ghost use Rattle.head_live.specs.declared.fault.PrepareFault.TheVariants.{Memory};

    ghost from_gives = { λ _ f. f ≡ Memory };

    fn from(_error: AllocError) -> PrepareFault {
        PrepareFault::Memory
    }
}

impl<T: Drop> From<AllocFailed<T>> for PrepareFault {
    ghost use Rattle.std.specs.Prelude.{◌≡◌};
    ghost use Rattle.head_live.specs.declared.fault.PrepareFault.TheVariants.{Memory};

    ghost from_gives = { λ _ f. f ≡ Memory };

    fn from(_error: AllocFailed<T>) -> PrepareFault {
        PrepareFault::Memory
    }
}

/// The error of [`Prepared::again`](crate::Prepared::again).
#[derive(Clone, Copy, Debug, PartialEq, Eq)]
pub enum AgainFault {
    /// There is no checked row in the place of this row. It is the first such row.
    NoSuchRow { row: usize },
    /// Out of memory, and every row has its place.
    Memory,
}

impl From<AllocError> for AgainFault {
    ghost use Rattle.std.specs.Prelude.{◌≡◌};
    ghost use Rattle.head_live.specs.declared.fault.AgainFault.TheVariants.{Memory};

    ghost from_gives = { λ _ f. f ≡ Memory };

    fn from(_error: AllocError) -> AgainFault {
        AgainFault::Memory
    }
}

/// The error of an append. If several apply, the first in this list is returned, except that `Memory` can come at any point.
#[derive(Clone, Copy, Debug, PartialEq, Eq)]
pub enum AppendFault {
    /// An earlier append returned `Write`.
    Failed,
    /// A new label set would need a reference past 2^64 - 1.
    RefsSpent,
    /// The head would exceed its limit of series or label texts, or a count could exceed 2^64 - 1.
    Full,
    /// The records do not fit in the rest of the segment.
    SegmentFull,
    /// Out of memory. The rows may be valid or not.
    Memory,
    /// The device returned an error, or wrote nothing. The head is unchanged, and every later append returns `Failed`.
    Write,
}

impl fmt::Display for AppendFault {
    fn fmt<W: fmt::Write>(&self, f: &mut fmt::Formatter<W>) -> fmt::Result {
        f.write_str(match self {
            AppendFault::Failed => "the log has failed",
            AppendFault::RefsSpent => "references spent",
            AppendFault::Full => "too many series",
            AppendFault::SegmentFull => "rows do not fit one segment",
            AppendFault::Memory => "out of memory",
            AppendFault::Write => "the log cannot be written",
        })
    }
}

impl Error for AppendFault {}

/// The error of [`Live::truncate`](crate::Live::truncate).
#[derive(Clone, Copy, Debug, PartialEq, Eq)]
pub enum TruncateFault {
    /// An earlier append returned `Write`.
    Failed,
}

impl fmt::Display for TruncateFault {
    fn fmt<W: fmt::Write>(&self, f: &mut fmt::Formatter<W>) -> fmt::Result {
        f.write_str(match self {
            TruncateFault::Failed => "the log has failed",
        })
    }
}

impl Error for TruncateFault {}

impl From<HeadFault> for AppendFault {
    ghost use Rattle.std.specs.Prelude.{◌≡◌, ◌↔◌};
    ghost use Rattle.head_resolver.specs.declared.fault.HeadFault.TheVariants as head;
    ghost use Rattle.head_live.specs.declared.fault.AppendFault.TheVariants.{Failed, Full, Memory};

    ghost from_gives = { λ h f. ((f ≡ Failed) ↔ (h ≡ head.Failed)) × ((f ≡ Full) ↔ (h ≡ head.Full)) × ((f ≡ Memory) ↔ (h ≡ head.Memory)) };

    fn from(fault: HeadFault) -> AppendFault {
        match fault {
            HeadFault::Failed => AppendFault::Failed,
            HeadFault::Full => AppendFault::Full,
            HeadFault::Memory => AppendFault::Memory,
        }
    }
}

impl From<LogFault> for AppendFault {
    ghost use Rattle.head_live.specs.Faults.{of_log};
    ghost use Rattle.std.specs.Prelude.{◌≡◌};

    ghost from_gives = { λ l f. f ≡ of_log l };

    fn from(fault: LogFault) -> AppendFault {
        match fault {
            LogFault::Failed => AppendFault::Failed,
            LogFault::SegmentFull => AppendFault::SegmentFull,
            LogFault::Memory => AppendFault::Memory,
            LogFault::Write => AppendFault::Write,
        }
    }
}

impl From<AllocError> for AppendFault {
    ghost use Rattle.std.specs.Prelude.{◌≡◌};
    ghost use Rattle.head_live.specs.declared.fault.AppendFault.TheVariants.{Memory};

    ghost from_gives = { λ _ f. f ≡ Memory };

    fn from(_error: AllocError) -> AppendFault {
        AppendFault::Memory
    }
}

impl<T: Drop> From<AllocFailed<T>> for AppendFault {
    ghost use Rattle.std.specs.Prelude.{◌≡◌};
    ghost use Rattle.head_live.specs.declared.fault.AppendFault.TheVariants.{Memory};

    ghost from_gives = { λ _ f. f ≡ Memory };

    fn from(_error: AllocFailed<T>) -> AppendFault {
        AppendFault::Memory
    }
}
