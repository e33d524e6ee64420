//! The samples of a log that a head does not keep, counted in intervals of time.
#![tactic(auto)]

mod counting;
mod records;
mod replaying;
mod taking;

pub use counting::RefusedCounts;
pub use taking::refused_in;
