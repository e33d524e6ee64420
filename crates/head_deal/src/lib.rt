//! Builders, and items dealt to them by workers.
//!
//! A builder's value after an item, and the item's outcome, depend only on the value before and on the item. So it does not matter who
//! applies the items of a builder, or what happens to other builders meanwhile, as long as its own items are applied in order.
//!
//! A `Deal` has a builder in each slot, and deals items to the slots. Workers share the slots. Each runs its part of the deal alone, and
//! the parts are joined again: the builders by slot, the outcomes in the order of dealing. They are the same as if all items were applied
//! one after another, whatever the number of workers and the order of their steps (`deal_theorem`).
//!
//! Items can also be put in a `Spread` first, by any thread, and dealt from there at once (`Deal::deal_all`). That is the same as dealing
//! them one after another.
#![tactic(auto)]

ghost use Rattle.std.specs.Prelude.{◌≡◌, IfOk, OnErr, OnOk};

use std::alloc::AllocError;

mod again;
mod at_once;
mod batches;
mod dealing;
mod joining;
mod parts;
mod preparing;
mod seats;
mod spread;
mod spreads;
mod workers;

pub use again::{deal_again, outcomes_in_parts, parts_end};
pub use dealing::{
    AddFault, AddRefused, Deal, DealFault, DealRefused, MOST_ITEMS, deal_theorem, slots_alone,
};
pub use joining::{JoinFault, JoinRefused, Joined, join_parts};
pub use parts::{Part, run_part};
pub use seats::Seats;
pub use spreads::{Spare, Spread};
pub use workers::Workers;

/// Something that is built item by item. By the clauses of `apply`, the value after an item and the item's outcome are functions of the
/// value before and of the item.
pub trait Builder: Drop {
    type Item: Drop;

    type Outcome: Copy;

    /// The type of a builder's value.
    ghost Value: { Type 0 };

    ghost value: { Self → Value };

    /// The value after an item.
    ghost after: { Value → Self.Item → Value };

    /// The outcome of an item.
    ghost outcome: { Value → Self.Item → Self.Outcome };

    /// Applies an item, and returns its outcome. Returns an error, with the value unchanged, if out of memory.
    fn apply(&mut self, item: &Self::Item) -> Result<Self::Outcome, AllocError>
        ensures changed { OnOk result (value self.new ≡ after (value self.old) item.now) }
        ensures told { IfOk result (λ told. told ≡ outcome (value self.old) item.now) }
        ensures refused { OnErr result (value self.new ≡ value self.old) };
}

/// What a step of a worker did.
#[derive(Clone, Copy, Debug, PartialEq, Eq)]
pub enum Stepped<O> {
    /// It applied an item, with this outcome.
    Done(O),
    /// The worker had no item left.
    Empty,
}
