//! Which series each reference names.
//!
//! A series is known here by its slot alone, its number in the order of first sight. A reference has the slot that it was last given; the
//! look-up of it is one step, and so is that of the least reference of a slot. Room for slots is made beforehand, and giving a reference a
//! slot then never fails.
#![tactic(auto)]

mod candidates;
mod greatest;
mod heap;
mod laws;
mod maps;
mod reference_slots;
mod references;
mod slot;

pub use greatest::with_reference;
pub use heap::Heap;
pub use laws::heap_height;
pub use maps::copied;
pub use reference_slots::LOW_END;
pub use references::References;
pub use slot::Slot;
