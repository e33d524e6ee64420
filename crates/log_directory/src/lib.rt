//! The log in a directory, in the three forms in which it can be read, over any store: its files as they are, as the records that they
//! stand for, and as all that can be read of them. It is read, replayed to a head, or counted.
//!
//! A file that is unpacked is a text in memory, of just its records: what reads logs reads it as it reads any other file. What is damaged or
//! lost is reported by the places in the files of the directory. A plan of `wal_log` is of a log with no number missing; `list_log` leaves
//! out what is missing, for whoever wants to know what is left of a log. `min_valid_of` reads the least valid time that the blocks in the
//! server's data directory give.
#![tactic(auto)]

mod directory;
mod directory_log;
mod flaws;
mod form_log;
mod greatest;
mod heads;
mod kept;
mod listed_files;
mod listing;
mod lost;
mod lost_lines;
mod meta;
mod name_slots;
mod open_text;
mod opening;
mod pages_read;
mod planning;
mod read_fault;
mod replaying;
mod rescued_log;
mod rescued_texts;
mod rescuing;
mod server;
mod source;
mod taking;
mod text_files;
mod text_log;
mod text_opening;
mod unpacked_log;
mod unpacked_texts;
mod unpacking;

pub use directory::{names_in, read_in, read_paths, read_planned_file};
pub use flaws::lost_count;
pub use heads::{
    RescuedHead, UndamagedLog, rescued_head, undamaged_at, undamaged_head, undamaged_source,
};
pub use kept::replay_at_in;
pub use listed_files::{PartFile, read_listed};
pub use listing::{Listing, list_files, list_log};
pub use lost::{Lost, LostPart};
pub use lost_lines::push_lost;
pub use name_slots::{Slot, checkpoint_slots, segment_slots};
pub use opening::length_in;
pub use planning::{plan_checkpoint, plan_log};
pub use replaying::{ReplayedLog, TalliedLog, replay_in, slots_of, tally_in};
pub use rescuing::{RescuedText, rescue_text};
pub use server::min_valid_of;
pub use source::{FileRead, RescuedLog, Source, plan_files, read_file, read_source};
pub use taking::take_records_in;
pub use unpacking::{FileDamage, read_text};
