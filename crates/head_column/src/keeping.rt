//! A series that keeps the samples of some times alone.

ghost use Rattle.std.specs.Prelude.{◌≡◌, IfOk, OnErr, OnOk};
ghost use Rattle.head_column.specs.declared.items.Item.TheVariants.{Sample as SampleItem};
ghost use Rattle.head_column.specs.Histories.{no_history};
ghost use Rattle.head_column.specs.Kept.{kept_after, kept_of, kept_outcome};

use crate::column::fit_copy;
use crate::times::reaches;
use crate::{Column, GatheringColumn, Item, Outcome, Run, Sample};
use head_deal::Builder;
use std::alloc::{AllocError, Global};
use std::marker::Model;

/// A series that becomes a [`Column`] of the samples of some times, once all its items are applied. It judges each sample as if it kept all:
/// one that is not kept makes those behind it stale, too. It keeps all deletions.
#[derive(Debug)]
pub struct KeepingColumn {
    // What is kept.
    column: GatheringColumn,
    // The times of the samples that are kept.
    times: Run,
    // The greatest time of the accepted samples, kept or not.
    latest: Option<i64>,
}

// Written out, so that a function that drops one has a call in its proof, and not a copy of this body.
impl Drop for KeepingColumn {
    fn drop(self) {
        let KeepingColumn {
            column: _column,
            times: _,
            latest: _,
        } = self;
    }
}

impl Model for KeepingColumn {
    ghost use Rattle.std.specs.Prelude.{◌≡◌, ℤ, true};
    ghost use Rattle.head_column.specs.Histories.{has_reached};
    ghost use Rattle.head_column.specs.Kept.{KeptValue};
    ghost use Rattle.head_column.specs.Times.{reaches};

    ghost Value = { KeptValue };

    ghost view = { λ c. record { times = c.times; history = c.column; latest = c.latest } };

    ghost invariant = { λ c. (t : ℤ) → has_reached c.column.samples t ≡ true → reaches c.latest t ≡ true };
}

impl KeepingColumn {
    /// Makes a series without items, which will keep the samples of these times.
    pub fn new(alloc: Global, times: Run) -> KeepingColumn
        ensures { result ≡ kept_of times no_history }
    {
        KeepingColumn {
            column: GatheringColumn::new(alloc),
            times,
            latest: None,
        }
    }

    /// Returns the greatest time of the accepted samples, kept or not, in milliseconds. `None` if there are none.
    pub fn latest(&self) -> Option<i64>
        ensures { result ≡ self.now.latest }
    {
        self.latest
    }

    /// Returns the column of the samples that were kept, with all deletions merged. Allocates nothing if none waits. Returns an error if out of
    /// memory.
    pub fn into_column(self) -> Result<Column, AllocError>
        ensures { IfOk result (λ column. column.history ≡ self.history) }
    {
        let KeepingColumn {
            column,
            times: _,
            latest: _,
        } = self;
        column.into_column()
    }

    // Applies a sample, and keeps it if it is accepted and at one of the times.
    fn apply_sample(&mut self, sample: &Sample) -> Result<Outcome, AllocError>
        ensures changed { OnOk result (self.new ≡ kept_after self.old (SampleItem sample.now)) }
        ensures told { IfOk result (λ told. told ≡ kept_outcome self.old (SampleItem sample.now)) }
        ensures refused { OnErr result (self.new ≡ self.old) }
    {
        let sample = fit_copy(sample);
        if reaches(self.latest, sample.time) {
            return Ok(Outcome::Stale);
        }
        if self.times.spans(sample.time) {
            self.column.apply(&Item::Sample(sample))?;
        }
        self.latest = Some(sample.time);
        Ok(Outcome::Accepted)
    }
}

impl Builder for KeepingColumn {
    ghost use Rattle.head_column.specs.Kept.{KeptValue, kept_after, kept_outcome};

    type Item = Item;

    type Outcome = Outcome;

    ghost Value = { KeptValue };

    ghost value = { λ c. c };

    ghost after = { kept_after };

    ghost outcome = { kept_outcome };

    /// Applies an item, and returns its outcome. A stale sample, an empty deletion and an accepted sample of another time allocate nothing. Returns
    /// an error if out of memory; nothing has changed then.
    fn apply(&mut self, item: &Item) -> Result<Outcome, AllocError> {
        match item {
            Item::Sample(sample) => self.apply_sample(sample),
            Item::Stone(_) => self.column.apply(item),
        }
    }
}
