//! The samples and series of a head, counted in intervals of time.
#![tactic(auto)]

mod counting;
mod counts;
mod ends;
mod intervals;
mod laws;
mod parts;

pub use counting::{HeadCounts, counts_in};
pub use counts::{add_time, no_counts};
pub use ends::ends_of;
pub use intervals::{Intervals, MOST_INTERVALS};
pub use laws::{counts_are_whole, one_interval};
