//! New segments of a log and new folders, over any store. After a crash they are whole or not there.
#![tactic(auto)]

mod abandoned;
mod fault;
mod file;
mod folder;
mod laws;
mod names;
mod segment;
mod target;

pub use abandoned::clear_abandoned;
pub use fault::{WriteFault, written};
pub use file::{write_pieces_synced, write_synced};
pub use folder::{NewFile, begin_folder, finish_folder, write_files, write_new_folder};
pub use laws::{grown_file, renamed_too_early};
pub use names::{eight_digits, six_digits};
pub use segment::write_new_segment;
pub use target::Target;
