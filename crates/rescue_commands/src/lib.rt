//! The commands that write a block for each hour of a log, over any store: `blocks` of a log that is read in one of its forms, and `rescue` of
//! all that can be read of a log, which says besides what was read of each file and what is lost.
//!
//! The blocks have chunks that a server opens. An hour whose block is in the directory already, byte for byte, is left: a run that was cut
//! off is done again. In memory are the head and up to three blocks at a time, one where the head has many series. If the samples of all hours
//! take too much of it, `blocks` goes over the log in passes, each of which keeps the samples of some hours.
#![tactic(auto)]

mod blocks;
mod counting;
mod cutting;
mod fault;
mod hours;
mod json;
mod lost;
mod memory;
mod naming;
mod passes;
mod planning;
mod report;
mod rescue;
mod run;
mod shelf;
mod standing;
mod told;
mod writing;

pub use answers::{BlocksRequest, RescueRequest};
pub use blocks::carry_out_blocks;
pub use rescue::carry_out_rescue;
