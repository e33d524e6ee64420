//! Jobs that do one thing and then another.

ghost use Rattle.std.specs.Prelude.{◌≡◌, IfOk, map, vec_len};

use crate::crew::Job;
use crate::gate::Gate;
use std::alloc::{AllocError, Global};

/// A job that finishes one job and then another. Its worker passes the gate of the first.
#[derive(Drop)]
pub struct InTurn<A, B> {
    pub first: A,
    pub second: B,
}

impl<A: Job, B: Job> Job for InTurn<A, B> {
    ghost use Rattle.crew.specs.BothDone.{AreBothDone};

    ghost done = { λ old new. AreBothDone A.done B.done old new };

    fn enter<G: Gate>(gate: &G, worker: usize, turn: u64) {
        A::enter(gate, worker, turn);
    }

    fn finish(&mut self) -> Result<(), AllocError> {
        self.first.finish()?;
        self.second.finish()
    }
}

/// Makes a job of each two: it finishes one of `first`, and then the one of `second` at the same place. Returns an error if out of memory.
pub fn in_turn<A: Drop, B: Drop>(
    alloc: Global,
    first: Vec<A>,
    second: Vec<B>,
) -> Result<Vec<InTurn<A, B>>, AllocError>
    requires { vec_len first ≡ vec_len second }
    ensures first { IfOk result (λ jobs. map (λ job. job.first) jobs.items ≡ first.items) }
    ensures second { IfOk result (λ jobs. map (λ job. job.second) jobs.items ≡ second.items) }
{
    let mut jobs = Vec::with_capacity(alloc, first.len())?;
    for (first, second) in first.into_iter().zip(second) {
        jobs.push(InTurn { first, second })?;
    }
    Ok(jobs)
}

/// Takes the jobs apart: returns the first of each, and the second of each, in order. Returns an error if out of memory.
pub fn apart<A: Drop, B: Drop>(
    alloc: Global,
    jobs: Vec<InTurn<A, B>>,
) -> Result<(Vec<A>, Vec<B>), AllocError>
    ensures first { IfOk result (λ r. r.0.items ≡ map (λ job. job.first) jobs.items) }
    ensures second { IfOk result (λ r. r.1.items ≡ map (λ job. job.second) jobs.items) }
{
    let mut firsts = Vec::with_capacity(alloc, jobs.len())?;
    let mut seconds = Vec::with_capacity(alloc, jobs.len())?;
    for job in jobs {
        let InTurn { first, second } = job;
        firsts.push(first)?;
        seconds.push(second)?;
    }
    Ok((firsts, seconds))
}
