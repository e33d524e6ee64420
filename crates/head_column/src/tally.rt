//! The greatest accepted time of a series.

ghost use Rattle.std.specs.Prelude.{◌≡◌, ◌∷◌, ◌++◌, [], List, None, IfOk, IsOk, OnErr, OnOk};
ghost use Rattle.head_column.specs.declared.items.Item.{Item as AnItem};
ghost use Rattle.head_column.specs.Items.{outcome_of};
ghost use Rattle.head_column.specs.Tallies.{latest_after, latest_of, latest_outcome};

use crate::times::reaches;
use crate::{Item, Outcome};
use head_deal::Builder;
use std::alloc::AllocError;
use std::marker::Model;

/// The greatest time of the accepted samples of a series, if there are any, which is how contracts see it. It returns the outcomes
/// that a `Column` does, but keeps no samples and no hidden times.
#[derive(Debug, Drop)]
pub struct Tally {
    latest: Option<i64>,
}

impl Model for Tally {
    ghost use Rattle.std.specs.Prelude.{ℤ, Option};

    ghost Value = { Option ℤ };

    ghost view = { λ t. t.latest };
}

impl Tally {
    /// Makes a tally without items.
    pub fn new() -> Tally
        ensures { result ≡ None }
    {
        Tally { latest: None }
    }

    // Applies an item, as `apply` does.
    fn apply_item(&mut self, item: &Item) -> Outcome
        ensures changed { self.new ≡ latest_after self.old item.now }
        ensures told { result ≡ latest_outcome self.old item.now }
    {
        match item {
            Item::Sample(sample) => {
                if reaches(self.latest, sample.time) {
                    return Outcome::Stale;
                }
                self.latest = Some(sample.time);
                Outcome::Accepted
            }
            Item::Stone(run) => {
                if run.min_time > run.max_time {
                    Outcome::EmptyStone
                } else {
                    Outcome::Hidden
                }
            }
        }
    }
}

impl Builder for Tally {
    ghost use Rattle.std.specs.Prelude.{ℤ, Option};
    ghost use Rattle.head_column.specs.Tallies.{latest_after, latest_outcome};

    type Item = Item;

    type Outcome = Outcome;

    ghost Value = { Option ℤ };

    ghost value = { λ t. t };

    ghost after = { latest_after };

    ghost outcome = { latest_outcome };

    /// Applies an item, and returns its outcome. Allocates nothing, and never fails.
    fn apply(&mut self, item: &Item) -> Result<Outcome, AllocError>
        ensures changed { OnOk result (self.new ≡ latest_after self.old item.now) }
        ensures told { IfOk result (λ told. told ≡ latest_outcome self.old item.now) }
        ensures refused { OnErr result (self.new ≡ self.old) }

        // The greatest accepted time of the items so far and this one, and this one's outcome.
        ensures items { (items : List AnItem) → self.old ≡ latest_of items → OnOk result (self.new ≡ latest_of (items ++ item.now ∷ [])) }
        ensures verdict { (items : List AnItem) → self.old ≡ latest_of items → IfOk result (λ told. told ≡ outcome_of items item.now) }

        ensures succeeds { IsOk result }
    {
        Ok(self.apply_item(item))
    }
}
