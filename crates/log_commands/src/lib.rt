//! The commands on a log, over any store: each reads the log in a directory and makes the text to print.
#![tactic(auto)]

mod commands;
mod record_lines;
mod report;

pub use commands::carry_out_log_request;
