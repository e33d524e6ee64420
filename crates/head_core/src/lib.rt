//! The head: the content of a log's records, applied one after another.
//!
//! A head has the series of a log, the references that name them, the accepted samples and the hidden runs of each series, and the
//! series of each label. What becomes of an entry depends only on the entries before it. Where the columns are built elsewhere, a
//! `Resolver` finds the series of each item, and `Head::assemble` makes the head.
#![tactic(auto)]

mod draft;
mod entries;
mod head;
mod laws;
mod postings;
mod reserved;
mod reserving;
mod slot_counts;
mod views;

pub use head::{Head, later_of};
pub use head_column::{Chunk, Column, Hour, Item, Outcome, Run, Sample};
pub use head_resolver::{
    Changes, CountFull, Counts, HeadFault, Resolver, slots_stay, spread_ahead, spread_records,
};
pub use head_series::Slot;
pub use laws::{
    alike_answers, checkpoint, items_make_series, limits_hold_before, one_content, same_entries,
    truncation,
};
pub use postings::postings_of;
pub use reserved::Reserved;
