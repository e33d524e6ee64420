//! Errors of a replay.

use crew::CrewFault;
use replay_rounds::RoundFault;
use std::alloc::AllocError;
use std::error::Error;
use std::fmt;

/// An error of a replay. No thread is left running.
#[derive(Clone, Copy, Debug, PartialEq, Eq)]
pub enum ReplayFault {
    /// A replay has at least one worker.
    NoWorkers,
    /// A replay has at most 64 workers.
    TooManyWorkers,
    /// Too many series, label texts or entries for a head.
    Full,
    /// Out of memory.
    Memory,
    /// A thread could not be started. Those that were started were joined.
    Workers,
}

impl fmt::Display for ReplayFault {
    fn fmt<W: fmt::Write>(&self, f: &mut fmt::Formatter<W>) -> fmt::Result {
        f.write_str(match self {
            ReplayFault::NoWorkers => "no workers",
            ReplayFault::TooManyWorkers => "more than 64 workers",
            ReplayFault::Full => "too many series",
            ReplayFault::Memory => "out of memory",
            ReplayFault::Workers => "a thread could not start",
        })
    }
}

impl Error for ReplayFault {}

impl From<RoundFault> for ReplayFault {
    ghost use Rattle.std.specs.Prelude.{◌≡◌};
    ghost use Rattle.head_replay.specs.Faults.{replay_fault};

    ghost from_gives = { λ f e. e ≡ replay_fault f };

    fn from(fault: RoundFault) -> ReplayFault {
        match fault {
            RoundFault::Full => ReplayFault::Full,
            RoundFault::Memory => ReplayFault::Memory,
            RoundFault::Workers => ReplayFault::Workers,
        }
    }
}

impl From<CrewFault> for ReplayFault {
    ghost use Rattle.std.specs.Prelude.{◌≡◌};
    ghost use Rattle.replay_rounds.specs.Faults.{crew_fault};
    ghost use Rattle.head_replay.specs.Faults.{replay_fault};

    ghost from_gives = { λ f e. e ≡ replay_fault (crew_fault f) };

    fn from(fault: CrewFault) -> ReplayFault {
        match fault {
            CrewFault::Memory => ReplayFault::Memory,
            CrewFault::Workers => ReplayFault::Workers,
        }
    }
}

impl From<AllocError> for ReplayFault {
    ghost use Rattle.std.specs.Prelude.{◌≡◌};
    ghost use Rattle.head_replay.specs.declared.fault.ReplayFault.TheVariants.{Memory};

    ghost from_gives = { λ _ e. e ≡ Memory };

    fn from(_error: AllocError) -> ReplayFault {
        ReplayFault::Memory
    }
}

/// An error of applying a log that a source gives.
#[derive(Debug, Drop)]
pub(crate) enum LogFault<F> {
    /// The source refused a part.
    Source(F),
    /// The records could not be applied.
    Round(RoundFault),
}

impl<F> From<RoundFault> for LogFault<F> {
    ghost use Rattle.std.specs.Prelude.{◌≡◌};
    ghost use Rattle.head_replay.specs.declared.fault.LogFault.TheVariants.{Round};

    ghost from_gives = { λ f e. e ≡ Round f };

    fn from(fault: RoundFault) -> LogFault<F> {
        LogFault::Round(fault)
    }
}

impl<F> From<AllocError> for LogFault<F> {
    ghost use Rattle.std.specs.Prelude.{◌≡◌};
    ghost use Rattle.head_replay.specs.declared.fault.LogFault.TheVariants.{Round};
    ghost use Rattle.replay_rounds.specs.declared.fault.RoundFault.TheVariants.{Memory};

    ghost from_gives = { λ _ e. e ≡ Round Memory };

    fn from(_error: AllocError) -> LogFault<F> {
        LogFault::Round(RoundFault::Memory)
    }
}

/// An error of a replay of a log that a source gives.
#[derive(Debug, Drop)]
pub enum SourceFault<F> {
    /// The source refused a part.
    Source(F),
    /// The replay failed.
    Replay(ReplayFault),
}

impl<F: fmt::Display> fmt::Display for SourceFault<F> {
    fn fmt<W: fmt::Write>(&self, f: &mut fmt::Formatter<W>) -> fmt::Result {
        match self {
            SourceFault::Source(refused) => refused.fmt(f),
            SourceFault::Replay(fault) => fault.fmt(f),
        }
    }
}

impl<F: Error + fmt::Debug + fmt::Display> Error for SourceFault<F> {}

impl<F: Drop> From<LogFault<F>> for SourceFault<F> {
    ghost use Rattle.std.specs.Prelude.{◌≡◌};
    ghost use Rattle.head_replay.specs.Faults.{source_fault};

    ghost from_gives = { λ f e. e ≡ source_fault f };

    fn from(fault: LogFault<F>) -> SourceFault<F> {
        match fault {
            LogFault::Source(refused) => SourceFault::Source(refused),
            LogFault::Round(fault) => SourceFault::Replay(ReplayFault::from(fault)),
        }
    }
}

impl<F> From<CrewFault> for SourceFault<F> {
    ghost use Rattle.std.specs.Prelude.{◌≡◌};
    ghost use Rattle.replay_rounds.specs.Faults.{crew_fault};
    ghost use Rattle.head_replay.specs.Faults.{replay_fault};
    ghost use Rattle.head_replay.specs.declared.fault.SourceFault.TheVariants.{Replay};

    ghost from_gives = { λ f e. e ≡ Replay (replay_fault (crew_fault f)) };

    fn from(fault: CrewFault) -> SourceFault<F> {
        SourceFault::Replay(ReplayFault::from(fault))
    }
}

impl<F> From<AllocError> for SourceFault<F> {
    ghost use Rattle.std.specs.Prelude.{◌≡◌};
    ghost use Rattle.head_replay.specs.declared.fault.ReplayFault.TheVariants.{Memory};
    ghost use Rattle.head_replay.specs.declared.fault.SourceFault.TheVariants.{Replay};

    ghost from_gives = { λ _ e. e ≡ Replay Memory };

    fn from(_error: AllocError) -> SourceFault<F> {
        SourceFault::Replay(ReplayFault::Memory)
    }
}

impl<F> From<ReplayFault> for SourceFault<F> {
    ghost use Rattle.std.specs.Prelude.{◌≡◌};
    ghost use Rattle.head_replay.specs.declared.fault.SourceFault.TheVariants.{Replay};

    ghost from_gives = { λ f e. e ≡ Replay f };

    fn from(fault: ReplayFault) -> SourceFault<F> {
        SourceFault::Replay(fault)
    }
}
