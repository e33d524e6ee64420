//! The rows of an hour of a head: a series with an accepted sample in the hour, its samples and its hidden runs there.
#![tactic(auto)]

mod outlines;
mod rows;
mod seen;

pub use outlines::{RowOutline, outlines_in};
pub use rows::{chunks_of, end_of, first_of, last_of};
pub use seen::{rows_suffice, times_of};
