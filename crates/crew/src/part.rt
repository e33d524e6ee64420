//! The part of a deal, as a job.

use crate::crew::Job;
use crate::gate::Gate;
use head_deal::{Builder, Part, run_part};
use std::alloc::AllocError;

impl<B: Builder> Job for Part<B> {
    ghost use Rattle.head_deal.specs.Dealing.{Ran};

    ghost done = { λ old new. Ran B.value B.after B.outcome old new };

    fn enter<G: Gate>(gate: &G, worker: usize, turn: u64) {
        gate.part(worker, turn);
    }

    fn finish(&mut self) -> Result<(), AllocError> {
        run_part(self)
    }
}
