//! Errors of a head.

use head_series::BindFault;
use std::alloc::AllocError;
use std::error::Error;
use std::fmt;

/// An error of a head or a resolver: why a record was not taken.
#[derive(Clone, Copy, Debug, PartialEq, Eq)]
pub enum HeadFault {
    /// An earlier call failed.
    Failed,
    /// Too many series or label texts for a head, or a count past 2^64 - 1.
    Full,
    /// Out of memory.
    Memory,
}

/// The error of a count: it would pass 2^64 - 1.
#[derive(Clone, Copy, Debug, PartialEq, Eq)]
pub struct CountFull;

impl fmt::Display for HeadFault {
    fn fmt<W: fmt::Write>(&self, f: &mut fmt::Formatter<W>) -> fmt::Result {
        f.write_str(match self {
            HeadFault::Failed => "the head has failed",
            HeadFault::Full => "too many series",
            HeadFault::Memory => "out of memory",
        })
    }
}

impl Error for HeadFault {}

impl From<CountFull> for HeadFault {
    ghost use Rattle.std.specs.Prelude.{◌≡◌};
    ghost use Rattle.head_resolver.specs.declared.fault.HeadFault.TheVariants.{Full};

    ghost from_gives = { λ _ e. e ≡ Full };

    fn from(_error: CountFull) -> HeadFault {
        HeadFault::Full
    }
}

impl From<BindFault> for HeadFault {
    ghost use Rattle.std.specs.Prelude.{◌≡◌, ◌↔◌};
    ghost use Rattle.head_series.specs.declared.table.BindFault.TheVariants as bind;
    ghost use Rattle.head_resolver.specs.declared.fault.HeadFault.TheVariants.{Full, Memory};

    ghost from_gives = { λ b e. ((e ≡ Full) ↔ (b ≡ bind.Full)) × ((e ≡ Memory) ↔ (b ≡ bind.Memory)) };

    fn from(fault: BindFault) -> HeadFault {
        match fault {
            BindFault::Full => HeadFault::Full,
            BindFault::Memory => HeadFault::Memory,
        }
    }
}

impl From<AllocError> for HeadFault {
    ghost use Rattle.std.specs.Prelude.{◌≡◌};
    ghost use Rattle.head_resolver.specs.declared.fault.HeadFault.TheVariants.{Memory};

    ghost from_gives = { λ _ e. e ≡ Memory };

    fn from(_error: AllocError) -> HeadFault {
        HeadFault::Memory
    }
}
