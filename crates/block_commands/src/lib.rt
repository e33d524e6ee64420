//! The commands about blocks, over any store: list the hours of a log that can be cut, cut an hour into a block in a folder, and print
//! what such a block holds.
#![tactic(auto)]

mod blocks;
mod commands;
mod cutting;
mod fault;
mod names;
mod naming;
mod parts;
mod ranges;
mod report;
mod stats;
mod writing;

pub use answers::{BlockRequest, CutRequest};
pub use commands::carry_out_block;
pub use fault::of_cut;
pub use names::new_name;
pub use naming::name_of;
pub use parts::read_parts;
pub use stats::{Stats, stats_of};
pub use writing::write_block;
