//! Workers in threads: each finishes one job, and all are joined before the caller goes on.
//!
//! A [`Job`] says what is known of it once it is finished. [`Crew::finish`] finishes jobs in parallel, and
//! [`Crew::finish_while`] does so while the calling thread runs a task. Workers pass a [`Gate`] before their jobs, where a test
//! can observe and delay them. A part of a deal (`head_deal`) is such a job. An [`InTurn`] is a job that finishes two, one after the
//! other: [`in_turn`] makes such jobs, and [`apart`] takes them apart.
//!
//! Tickets: numbers of pieces of work, which workers draw without a lock, each number once.
//!
//! [`Claims`] holds how many numbers were drawn, in one atomic word. A [`Pass`] is the right to draw; it moves from worker to
//! worker, and knows which numbers it drew. [`one_drawer`] says what follows for all passes of the same claims together.
#![tactic(auto)]

mod beside;
mod claims;
mod crew;
mod gate;
mod part;
mod turns;

pub use claims::{Claims, Known, Pass, one_drawer};
pub use crew::{Crew, CrewFault, Job, Starts};
pub use gate::{Gate, NoGate};
pub use turns::{InTurn, apart, in_turn};
