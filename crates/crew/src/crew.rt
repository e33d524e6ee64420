//! Jobs, and the threads that finish them.

ghost use Rattle.std.specs.Prelude.{◌≤◌, IfOk, OnOk, vec_len};
ghost use Rattle.crew.specs.Jobs.{AreDone};

use crate::beside::finish_beside;
use crate::gate::{Gate, NoGate};
use core::thread::Stack;
use std::alloc::AllocError;
use std::sync::Wait;
use std::thread::Threads;

/// The work of one worker, which owns it and finishes it in its own thread.
pub trait Job {
    /// What is known of a finished job: a relation between the job before and after.
    ghost done: { Self → Self → Type 0 };

    /// Passes the gate before jobs of this type. Each worker calls it once, before its job.
    fn enter<G: Gate>(gate: &G, worker: usize, turn: u64);

    /// Finishes the job. Returns an error if out of memory.
    fn finish(&mut self) -> Result<(), AllocError>
        ensures { OnOk result (done self.old self.new) };
}

/// An error of finishing jobs.
#[derive(Clone, Copy, Debug, PartialEq, Eq)]
pub enum CrewFault {
    /// Out of memory.
    Memory,
    /// A thread could not start. Those that did start were joined.
    Workers,
}

impl From<AllocError> for CrewFault {
    ghost use Rattle.std.specs.Prelude.{◌≡◌};
    ghost use Rattle.crew.specs.declared.crew.CrewFault.TheVariants.{Memory};

    ghost from_gives = { λ _ e. e ≡ Memory };

    fn from(_error: AllocError) -> CrewFault {
        CrewFault::Memory
    }
}

/// Which threads may start, by their workers' numbers, from 0.
#[derive(Clone, Copy, Debug)]
pub struct Starts {
    below: usize,
}

impl Starts {
    /// Lets all threads start.
    pub fn all() -> Starts {
        Starts { below: usize::MAX }
    }

    /// Lets only threads with a number below `number` start. The others fail as they do if the system has no thread left. For tests.
    pub fn below(number: usize) -> Starts {
        Starts { below: number }
    }

    /// Returns the stack of the thread with this number. A thread that may not start gets a larger stack than any thread can have.
    pub fn stack(self, number: usize) -> Stack {
        if number < self.below {
            Stack::new()
        } else {
            Stack::new().stack_size(usize::MAX)
        }
    }
}

/// Workers, each of which finishes one job in its own thread: the handle that starts threads, the gate, and which threads may start.
#[derive(Drop)]
pub struct Crew<'a, R, G> {
    rt: &'a R,
    gate: &'a G,
    starts: Starts,
}

impl<'a, R: Threads + Wait + Sync, G: Gate + Sync> Crew<'a, R, G> {
    /// Makes workers that pass this gate. Their threads are started by `rt`, if `starts` lets them.
    pub fn new(rt: &'a R, gate: &'a G, starts: Starts) -> Crew<'a, R, G> {
        Crew { rt, gate, starts }
    }

    /// Returns these workers without a gate before their jobs.
    pub fn without_gate(&self) -> Crew<'a, R, NoGate> {
        Crew {
            rt: self.rt,
            gate: &NoGate,
            starts: self.starts,
        }
    }

    /// Finishes at most 64 jobs of the round `turn`, each in its own thread, and returns them in order. Joins all threads that it
    /// started before it returns, also on an error.
    pub fn finish<J: Job + Send + Drop>(&self, turn: u64, jobs: Vec<J>) -> Result<Vec<J>, CrewFault>
        requires { vec_len jobs ≤ 64 }
        ensures { IfOk result (λ after. AreDone J.done jobs.items after.items) }
    {
        let ((), after) = finish_beside(self.rt, self.starts, self.gate, turn, jobs, || ())?;
        Ok(after)
    }

    /// Finishes jobs as `finish` does, but without a gate, while the calling thread runs `task`. Also returns what `task` returned. If a
    /// thread can't start, `task` is not called.
    pub fn finish_while<J: Job + Send + Drop, T: Drop, F: FnOnce() -> T + Drop>(
        &self,
        turn: u64,
        jobs: Vec<J>,
        task: F,
    ) -> Result<(T, Vec<J>), CrewFault>
        requires jobs { vec_len jobs ≤ 64 }
        requires callable { F.IsAlwaysCallable task }
        ensures done { IfOk result (λ r. AreDone J.done jobs.items r.1.items) }
        ensures told { IfOk result (λ r. F.post task r.0) }
    {
        finish_beside(self.rt, self.starts, &NoGate, turn, jobs, task)
    }
}
