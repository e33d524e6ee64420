//! Gates: places in a worker's way where a test or a progress line watches.

/// A place in a worker's way where a test or a progress line watches. Workers call it, and a test may delay them there. A gate changes
/// nothing of what is replayed.
pub trait Gate {
    /// Called by each worker once a round, before its first run of pages. Rounds are counted from 0.
    fn pass(&self, worker: usize, turn: u64);

    /// Called by each worker once a round, before it applies its part of the round's items.
    fn part(&self, worker: usize, turn: u64);
}

/// The gate that delays nobody.
#[derive(Clone, Copy, Debug)]
pub struct NoGate;

impl Gate for NoGate {
    fn pass(&self, _worker: usize, _turn: u64) {}

    fn part(&self, _worker: usize, _turn: u64) {}
}
