//! Whose each item of a log is: the series and the references that a log binds, record by record.
//!
//! A `Resolver` reads records in order and finds the series of each item; it is the part of a head that needs no columns. Where threads
//! are to share its table, the bindings of a window of records are made first, and `Changes` has what each reference named before. What
//! depends on the series alone is counted here, and entries before a least valid time are expired.
#![tactic(auto)]

mod ahead;
mod changes;
mod counts;
mod fault;
mod finding;
mod items;
mod laws;
mod resolver;

pub use changes::Changes;
pub use counts::Counts;
pub use fault::{CountFull, HeadFault};
pub use items::{ItemEntry, item_of_sample, item_of_stone, raised};
pub use laws::{slots_stay, spread_ahead, spread_records};
pub use resolver::Resolver;
