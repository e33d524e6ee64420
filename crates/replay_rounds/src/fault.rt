//! Errors of rounds.

use crew::CrewFault;
use head_core::{CountFull, HeadFault};
use std::alloc::AllocError;

/// An error of rounds. No thread is left running.
#[derive(Clone, Copy, Debug, PartialEq, Eq)]
pub enum RoundFault {
    /// Too many series, label texts or entries for a head.
    Full,
    /// Out of memory.
    Memory,
    /// A thread could not be started. Those that were started were joined.
    Workers,
}

impl From<CrewFault> for RoundFault {
    ghost use Rattle.std.specs.Prelude.{◌≡◌};
    ghost use Rattle.replay_rounds.specs.Faults.{crew_fault};

    ghost from_gives = { λ f e. e ≡ crew_fault f };

    fn from(fault: CrewFault) -> RoundFault {
        match fault {
            CrewFault::Memory => RoundFault::Memory,
            CrewFault::Workers => RoundFault::Workers,
        }
    }
}

impl From<CountFull> for RoundFault {
    ghost use Rattle.std.specs.Prelude.{◌≡◌};
    ghost use Rattle.replay_rounds.specs.declared.fault.RoundFault.TheVariants.{Full};

    ghost from_gives = { λ _ e. e ≡ Full };

    fn from(_error: CountFull) -> RoundFault {
        RoundFault::Full
    }
}

impl From<HeadFault> for RoundFault {
    ghost use Rattle.std.specs.Prelude.{◌≡◌};
    ghost use Rattle.replay_rounds.specs.Faults.{head_fault};

    ghost from_gives = { λ f e. e ≡ head_fault f };

    fn from(fault: HeadFault) -> RoundFault {
        match fault {
            HeadFault::Full => RoundFault::Full,
            // a new resolver has not failed
            HeadFault::Memory | HeadFault::Failed => RoundFault::Memory,
        }
    }
}

impl From<AllocError> for RoundFault {
    ghost use Rattle.std.specs.Prelude.{◌≡◌};
    ghost use Rattle.replay_rounds.specs.declared.fault.RoundFault.TheVariants.{Memory};

    ghost from_gives = { λ _ e. e ≡ Memory };

    fn from(_error: AllocError) -> RoundFault {
        RoundFault::Memory
    }
}
