//! The command `unpack`, over any store: it writes the log in a directory into a new directory, with its compressed records unpacked.
#![tactic(auto)]

mod commands;
mod lost_report;
mod out;
mod past_damage;
mod planned;
mod reading;
mod report;
mod rescue_writing;
mod writing;

pub use answers::UnpackRequest;
pub use commands::carry_out_unpack;
pub use log_directory::{FileDamage, Lost, LostPart};
