//! Postings: the slots of the series that have a label, for each label.
//!
//! Slots are added in ascending order, each with its label set, so every list ascends. A look-up allocates nothing. Nothing here
//! knows of references, samples or times.
#![tactic(auto)]

mod batch;
mod laws;
mod names;
mod postings;
mod union;
mod values;

pub use batch::PostingsBatch;
pub use laws::{one_postings, one_union, room_for_first, room_for_rest};
pub use postings::Postings;
