//! The faults of calls that write.

ghost use Rattle.std.specs.Prelude.{◌≡◌, IfErr, IsErr, Ok, Some};
ghost use Rattle.new_files.specs.Faults.{NamesPath, text_of};
ghost use Rattle.new_files.specs.declared.fault.WriteFault.TheVariants.{OutOfMemory};

use std::alloc::Global;
use std::error::Error;
use std::fmt;
use store::{Reason, ShownPath, StoreFault};

/// Why a file or a folder was not written. Its `Display` is one line, whatever the path is.
#[derive(Debug, Drop)]
pub enum WriteFault {
    /// The file or directory at this path cannot be written.
    CannotWrite { path: String, reason: Reason },
    OutOfMemory,
}

impl WriteFault {
    // Returns the fault of a call that wrote at `path`: `OutOfMemory` if memory ran out, also while the path was copied.
    fn at(alloc: Global, path: &str, fault: StoreFault) -> WriteFault
        ensures named { NamesPath path.now result }
        ensures memory { fault ≡ StoreFault.OutOfMemory → result ≡ OutOfMemory }
    {
        match (fault, String::from_str(alloc, path)) {
            (StoreFault::Refused(reason), Ok(path)) => WriteFault::CannotWrite { path, reason },
            _ => WriteFault::OutOfMemory,
        }
    }
}

impl fmt::Display for WriteFault {
    ghost output = { λ fault. Some (text_of fault) };

    fn fmt<W: fmt::Write>(&self, f: &mut fmt::Formatter<W>) -> fmt::Result {
        match self {
            WriteFault::CannotWrite { path, .. } => write!(f, "cannot write {}", ShownPath(path)),
            WriteFault::OutOfMemory => f.write_str("out of memory"),
        }
    }
}

impl Error for WriteFault {}

/// Converts the result of a call that wrote at this path: its error becomes a fault that names the path.
pub fn written<T: Drop>(
    alloc: Global,
    path: &str,
    outcome: Result<T, StoreFault>,
) -> Result<T, WriteFault>
    ensures ok { (value : T) → result ≡ Ok value → outcome ≡ Ok value }
    ensures err { IsErr result → IsErr outcome }
    ensures told { IfErr result (λ fault. NamesPath path.now fault) }
{
    match outcome {
        Ok(value) => Ok(value),
        Err(fault) => Err(WriteFault::at(alloc, path, fault)),
    }
}
