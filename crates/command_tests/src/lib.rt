//! Tests of the program's commands over a store in memory of which a call can fail, over one that notes its calls, over a list of files, of the store of real files, of what a terminal is reported, of a log that grows, of texts that are printed in pieces, of bytes that are written in pieces, of the blocks in a data directory,
//! and of how a command line says that a log is to be replayed. What whole runs print and leave is in examples/cases.
#![tactic(auto)]

#[cfg(test)]
mod beside;
#[cfg(test)]
mod checks;
#[cfg(test)]
mod crashes;
#[cfg(test)]
mod failing;
#[cfg(test)]
mod folders;
#[cfg(test)]
mod fragments;
#[cfg(test)]
mod growing;
#[cfg(test)]
mod least;
mod listed;
mod listing;
#[cfg(test)]
mod lists;
#[cfg(test)]
mod live_stores;
#[cfg(test)]
mod lives;
#[cfg(test)]
mod many;
#[cfg(test)]
mod meters;
#[cfg(test)]
mod noted;
mod noted_call;
#[cfg(test)]
mod options;
mod outlasts;
#[cfg(test)]
mod pieces;
#[cfg(test)]
mod printed;
#[cfg(test)]
mod printing;
#[cfg(test)]
mod reading;
#[cfg(test)]
mod runs;
#[cfg(test)]
mod shelf;
#[cfg(test)]
mod short_writes;
#[cfg(test)]
mod stores;
#[cfg(test)]
mod tree;

pub use listed::Listed;
pub use listing::{Listing, ListingReader, ListingWriter};
pub use noted_call::NotedCall;
pub use outlasts::{Outcome, append, cut, make_checkpoint, unpack};
