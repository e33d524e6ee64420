//! Faults of the program outside its commands.

ghost use Rattle.std.specs.Prelude.{◌≡◌, ◌↔◌};
ghost use Rattle.clap.specs.Values.{kind_of};
ghost use Rattle.clap.specs.declared.error.kind.ErrorKind.TheVariants as kind;
ghost use Rattle.answers.specs.declared.line.LineFault.TheVariants.{OutOfMemory};

use crate::fault::Status;
use clap::error::ErrorKind;
use std::alloc::{AllocError, AllocFailed};
use thiserror::Error;

/// Why no command was carried out, or why its text was not printed. Its `Display` is the text that is printed on standard error, after
/// the program's name unless it is `Usage`.
#[derive(Debug, Drop, Error)]
pub enum LineFault {
    /// The command line was refused, or help was asked for. The text has several lines and is printed alone.
    #[error(transparent)]
    Usage(clap::Error),
    #[error("the arguments must be UTF-8")]
    NotUtf8,
    #[error("cannot write standard output")]
    CannotPrint,
    #[error("out of memory")]
    OutOfMemory,
}

impl LineFault {
    /// Returns the exit status.
    pub fn status(&self) -> Status {
        match self {
            LineFault::Usage(_) | LineFault::NotUtf8 => Status::Usage,
            LineFault::CannotPrint => Status::Refused,
            LineFault::OutOfMemory => Status::Exhausted,
        }
    }
}

impl From<clap::Error> for LineFault {
    ghost from_gives = { λ e f. (f ≡ OutOfMemory) ↔ (kind_of e ≡ kind.OutOfMemory) };

    fn from(error: clap::Error) -> LineFault {
        match error.kind() {
            ErrorKind::OutOfMemory => LineFault::OutOfMemory,
            _ => LineFault::Usage(error),
        }
    }
}

impl From<AllocError> for LineFault {
    ghost from_gives = { λ _ f. f ≡ OutOfMemory };

    fn from(_error: AllocError) -> LineFault {
        LineFault::OutOfMemory
    }
}

impl<T: Drop> From<AllocFailed<T>> for LineFault {
    ghost from_gives = { λ _ f. f ≡ OutOfMemory };

    fn from(_error: AllocFailed<T>) -> LineFault {
        LineFault::OutOfMemory
    }
}
