//! The command line: its words, parsed to a request.
#![tactic(auto)]

mod arguments;
mod asked;
mod commands;
mod least;
mod naming;
mod sizes;
mod texts;

pub use asked::{Asked, CommandLine, parse};
