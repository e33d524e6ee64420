//! What the records of a file of a log are: how many there are of each kind, how many entries they have, from when to when their samples are, and
//! which references nothing binds.
//!
//! A [`Survey`] tells an operator what is in a file. The records are decoded one after another, and each is counted and dropped before the
//! next, so that besides the file it needs memory for one record, and for the bytes of those that cross pages.
//!
//! A series entry binds its reference, and a sample names the reference of its series. If no series entry of the log has it, before the sample or
//! after it, the sample is lost in a replay. A sample before the least valid time is lost anyway, and does not count. [`SeenReferences`] reads the
//! records of file after file, and keeps only the references that are bound, and those that were named before they were.
#![tactic(auto)]

mod counts;
mod records;
mod reference_set;
mod references;
mod surveying;

pub use counts::{KindCount, SkippedCount, with_time};
pub use records::{Readable, Survey};
pub use references::{SeenReferences, Unbound, UnboundReference};
pub use surveying::survey;
