//! The commands `dump` and `analyze`, over any store: which samples a log has, and which labels have the most series and samples.
#![tactic(auto)]

mod analysis;
mod analyzing;
mod bars;
mod dumping;
mod lines;
mod selection;

pub use analyzing::carry_out_analyze;
pub use dumping::carry_out_dump;
