//! The command `live`: a store that runs over the log in a directory. Rows are appended while they come, and full hours are cut into blocks.
//!
//! Every append is a call of `RunningLog` under one lock. What each call writes, and what a crash leaves of it, is proved in `live_log` and
//! `write_commands`. In what order the threads get the lock, no contract says.
#![tactic(auto)]

mod batch;
mod checked;
mod feed;
mod keeping;
mod laws;
mod lines;
mod live;
mod running;
mod shared;

pub use answers::LiveRequest;
pub use feed::RowInput;
pub use laws::running_store_outlasts_a_crash;
pub use live::carry_out_live;
