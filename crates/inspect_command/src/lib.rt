//! The command `inspect`: what is in a log, file by file, and what that may mean to a server's operator.
#![tactic(auto)]

mod commands;
mod json;
mod memory;
mod notes;
mod on_file;
mod remarks;
mod report;

pub use commands::carry_out_inspect;
pub use remarks::{FileDamage, NumberedFile, Remark, remarks_on};
