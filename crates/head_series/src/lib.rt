//! The table of series and of the references that name them.
//!
//! Each distinct label set is one series, numbered by its slot in the order of first sight, whatever references a log gives it. Each
//! label text is kept once. A look-up by reference is one step, and a look-up by label set allocates nothing. To make a list of
//! bindings entirely or not at all, use `plan` and `reserve`, which make room for it; `bind_ready` then never fails.
#![tactic(auto)]

mod comparing;
mod interner;
mod laws;
mod plan;
mod planning;
mod ready;
mod rows;
mod table;
mod views;

pub use interner::{InternFault, Interner};
pub use laws::{greatest_reference, least_reference, room_for_first, slot_is_place};
pub use plan::Plan;
pub use ready::Ready;
pub use series_references::Slot;
pub use table::{BindFault, Bound, SeriesTable};
