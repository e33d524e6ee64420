//! How far a replay is.

use crate::extent::Extent;
use head_replay::{Gate, NoGate};

/// A gate of workers that hears when a replay begins and ends, so that it can show how far it is.
pub trait Progress: Gate {
    /// Called before a replay of this extent.
    fn begin(&self, extent: &Extent);

    /// Called after the replay, also where it was refused.
    fn end(&self);
}

impl Progress for NoGate {
    fn begin(&self, _extent: &Extent) {}

    fn end(&self) {}
}
