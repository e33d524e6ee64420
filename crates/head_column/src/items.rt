//! The items of a series, and their outcomes.

ghost use Rattle.std.specs.Prelude.{◌≡◌};
ghost use Rattle.head_column.specs.Runs.{spans};

use xor_chunk::Sample;

/// A run of times: those from `min_time` to `max_time` in milliseconds, both included. It is empty if `min_time` is the greater.
#[derive(Clone, Copy, Debug, PartialEq, Eq)]
pub struct Run {
    pub min_time: i64,
    pub max_time: i64,
}

impl Run {
    /// The run of all times.
    pub fn always() -> Run {
        Run {
            min_time: i64::MIN,
            max_time: i64::MAX,
        }
    }

    /// Returns whether a time is in the run.
    pub fn spans(&self, time: i64) -> bool
        ensures { result ≡ spans self.now time }
    {
        self.min_time <= time && time <= self.max_time
    }
}

/// An item of a series: a sample, or a deletion (a *stone*), which hides the times of a run.
#[derive(Clone, Copy, Debug, PartialEq, Eq)]
pub enum Item {
    Sample(Sample),
    Stone(Run),
}

/// The outcome of an item.
#[derive(Clone, Copy, Debug, PartialEq, Eq)]
pub enum Outcome {
    /// The sample is kept.
    Accepted,
    /// The sample is dropped: a sample before it has an equal or later time.
    Stale,
    /// The times of the deletion are hidden.
    Hidden,
    /// The deletion has no times.
    EmptyStone,
}
