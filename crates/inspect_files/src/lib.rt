//! The survey of the log in a directory, file by file, and the figures of all files together.
//!
//! Each file is read, surveyed and dropped before the next is read, so that memory is needed for the largest of them. A record does not cross
//! the end of a file: each file is surveyed by itself, also after one that is damaged. A reference may be bound in one file and named in
//! another, so the references are kept over all files.
#![tactic(auto)]

mod files;
mod inspection;
mod sums;

pub use files::{FileSurvey, survey_file};
pub use inspection::{Inspection, inspect_log};
pub use sums::{Sums, skipped_records, sums_of};
