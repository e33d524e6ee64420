//! Why the log in a directory can't be read on.

ghost use Rattle.answers.specs.Faults.{TellsNoDamage};

use answers::Fault;
use head_replay::SourceFault;
use std::alloc::{AllocError, AllocFailed, Global};
use store::{Reason, StoreFault};

/// Why a file of a log can't be opened, or read on.
#[derive(Debug, Drop)]
pub enum ReadFault {
    /// The file at this path can't be read.
    CannotRead { path: String, reason: Reason },
    /// The files have 2^64 bytes or more.
    TooLarge,
    /// Out of memory.
    OutOfMemory,
}

impl ReadFault {
    /// Returns the fault of a file that can't be read: out of memory also if memory runs out while the path is copied.
    pub(crate) fn of_file(alloc: Global, path: &str, fault: StoreFault) -> ReadFault {
        match (fault, String::from_str(alloc, path)) {
            (StoreFault::Refused(reason), Ok(path)) => ReadFault::CannotRead { path, reason },
            _ => ReadFault::OutOfMemory,
        }
    }

    /// Returns the fault of a text that can't be made: of its file, or else out of memory.
    pub(crate) fn of_text(fault: Fault) -> ReadFault {
        match fault {
            Fault::CannotRead { path, reason } => ReadFault::CannotRead { path, reason },
            _ => ReadFault::OutOfMemory,
        }
    }
}

impl From<AllocError> for ReadFault {
    fn from(_error: AllocError) -> ReadFault {
        ReadFault::OutOfMemory
    }
}

impl<T: Drop> From<AllocFailed<T>> for ReadFault {
    fn from(_error: AllocFailed<T>) -> ReadFault {
        ReadFault::OutOfMemory
    }
}

impl From<ReadFault> for Fault {
    ghost from_gives = { λ _ f. TellsNoDamage f };

    fn from(fault: ReadFault) -> Fault {
        match fault {
            ReadFault::CannotRead { path, reason } => Fault::CannotRead { path, reason },
            ReadFault::TooLarge => Fault::TooLarge,
            ReadFault::OutOfMemory => Fault::OutOfMemory,
        }
    }
}

/// Returns the fault of a replay of the log in a directory.
pub(crate) fn fault_of(fault: SourceFault<ReadFault>) -> Fault
    ensures { TellsNoDamage result }
{
    match fault {
        SourceFault::Source(fault) => Fault::from(fault),
        SourceFault::Replay(fault) => Fault::from(fault),
    }
}
