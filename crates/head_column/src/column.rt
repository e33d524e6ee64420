//! A series, built item by item.

ghost use Rattle.std.specs.Prelude.{◌≡◌, ◌+◌, ◌<◌, ◌≤◌, ◌∷◌, ◌++◌, [], All, List, IfOk, IsOk, OnErr, OnOk, filter, length};
ghost use Rattle.head_column.specs.declared.items.Item.{Item as AnItem};
ghost use Rattle.head_column.specs.declared.items.Outcome.TheVariants.{Stale, EmptyStone};
ghost use Rattle.head_column.specs.Histories.{IsHistoryOf, has_reached, history_after, history_outcome, latest, no_history};
ghost use Rattle.head_column.specs.Items.{outcome_of};
ghost use Rattle.head_column.specs.Runs.{AreApart};
ghost use Rattle.head_column.specs.Samples.{Rises};
ghost use Rattle.head_column.specs.Hours.{is_in_hour};
ghost use Rattle.head_column.specs.Chunks.{IsFit, chunks_of, xor_chunks_of};
ghost use Rattle.head_column.specs.Validity.{history_from, valid_items};

use crate::cutting::{cut_chunks, xor_chunks};
use crate::runs::{cut, merge};
use crate::stored::SampleChunks;
use crate::times::reaches;
use crate::{Chunk, Hour, Item, Outcome, Run, Sample};
use head_deal::Builder;
use std::alloc::{AllocError, Global};
use std::marker::Model;

/// Copies the sample. For proofs: its numbers fit in 64 bits.
pub(crate) fn fit_copy(sample: &Sample) -> Sample
    ensures same { result ≡ sample.now }
    ensures fit { IsFit result }
{
    Sample {
        time: sample.time,
        value: sample.value,
    }
}

/// A series: its accepted samples, and the runs of its hidden times. Contracts see these as its history, and `spare`, a number of
/// items that it takes without allocating.
#[derive(Debug)]
pub struct Column {
    samples: SampleChunks,
    hidden: Vec<Run>,
}

// Written out, so that a function that drops one has a call in its proof, and not a copy of this body.
impl Drop for Column {
    fn drop(self) {
        let Column {
            samples: _samples,
            hidden: _hidden,
        } = self;
    }
}

impl Model for Column {
    ghost use Rattle.std.specs.Prelude.{◌≡◌, All, min, ◌-◌, vec_len};
    ghost use Rattle.std.specs.Vec.{vec_capacity};
    ghost use Rattle.head_column.specs.Chunks.{IsFit};
    ghost use Rattle.head_column.specs.Histories.{ColumnValue};
    ghost use Rattle.head_column.specs.Runs.{AreApart};
    ghost use Rattle.head_column.specs.Samples.{Rises};

    ghost Value = { ColumnValue };

    ghost view = { λ c. record {
      history = record { samples = c.samples.samples; hidden = c.hidden.items };
      spare = min c.samples.room (vec_capacity c.hidden - vec_len c.hidden);
    } };

    ghost invariant = { λ c. Rises c.samples.samples × AreApart c.hidden.items × All IsFit c.samples.samples };
}

impl Column {
    /// Makes a series without items.
    pub fn new(alloc: Global) -> Column
        ensures history { result.history ≡ no_history }
        ensures items { IsHistoryOf [] result.history }
    {
        Column {
            samples: SampleChunks::new(alloc),
            hidden: Vec::new(alloc),
        }
    }

    /// Returns the number of accepted samples. Takes a step for each chunk of them.
    pub fn len(&self) -> usize
        ensures { result ≡ length self.now.history.samples }
    {
        self.samples.len()
    }

    /// Returns the greatest time of the accepted samples, in milliseconds. `None` if there are none.
    pub fn max_time(&self) -> Option<i64>
        ensures { result ≡ latest self.now.history.samples }
    {
        self.samples.latest()
    }

    /// Borrows the runs of the hidden times, ascending: no run is empty, and between two runs is a time that is not hidden.
    pub fn hidden(&self) -> &[Run]
        ensures runs { result.now ≡ self.now.history.hidden }
        ensures apart { AreApart result.now }
    {
        self.hidden.as_slice()
    }

    /// Copies the accepted samples, in order: each time is greater than the one before. Returns an error if out of memory, only if there
    /// are samples.
    pub fn samples(&self) -> Result<Vec<Sample>, AllocError>
        ensures samples { IfOk result (λ samples. samples.items ≡ self.now.history.samples) }
        ensures rises { IfOk result (λ samples. Rises samples.items) }
        ensures none { self.now.history.samples ≡ [] → IsOk result }
    {
        self.samples.to_vec()
    }

    /// Encodes the accepted samples of an hour in chunks of 120, counted from the first sample in the hour; the last chunk may have
    /// fewer. Returns an error if out of memory, only if there are samples in the hour. The last three clauses hold of every column.
    pub fn chunks_in(&self, hour: Hour) -> Result<Vec<Chunk>, AllocError>
        ensures chunks { IfOk result (λ chunks. chunks.items ≡ chunks_of (filter (λ s. is_in_hour hour s.time) self.now.history.samples)) }
        ensures none { filter (λ s. is_in_hour hour s.time) self.now.history.samples ≡ [] → IsOk result }
        ensures rises { Rises self.now.history.samples }
        ensures fit { All IsFit self.now.history.samples }
        ensures apart { AreApart self.now.history.hidden }
    {
        cut_chunks(&self.samples, hour)
    }

    /// Returns the accepted samples of an hour in a server's XOR chunks, cut as `chunks_in` cuts them. Copies the chunks as they were made, unless
    /// some samples of the hour were dropped. Returns an error if out of memory, only if there are samples in the hour.
    pub fn xor_chunks_in(&self, hour: Hour) -> Result<Vec<Chunk>, AllocError>
        ensures chunks { IfOk result (λ chunks. chunks.items ≡ xor_chunks_of (filter (λ s. is_in_hour hour s.time) self.now.history.samples)) }
        ensures none { filter (λ s. is_in_hour hour s.time) self.now.history.samples ≡ [] → IsOk result }
        ensures rises { Rises self.now.history.samples }
        ensures fit { All IsFit self.now.history.samples }
    {
        xor_chunks(&self.samples, hour)
    }

    /// Allocates memory for this many more items of any kind. Returns an error if out of memory. In both cases the history is
    /// unchanged, and `spare` is not less than before.
    pub fn reserve(&mut self, items: usize) -> Result<(), AllocError>
        ensures history { self.new.history ≡ self.old.history }
        ensures room { OnOk result (items ≤ self.new.spare) }
        ensures spare { self.old.spare ≤ self.new.spare }
    {
        self.samples.reserve(items)?;
        self.hidden.reserve(items)?;
        Ok(())
    }

    /// Drops the samples and the hidden times before `min_valid`, a time in milliseconds, so that the history is that of what this least
    /// valid time leaves of the items. Allocates nothing, and `spare` is not less than before.
    pub fn truncate(&mut self, min_valid: i64)
        ensures history { self.new.history ≡ history_from min_valid self.old.history }
        ensures items { (items : List AnItem) → IsHistoryOf items self.old.history → IsHistoryOf (valid_items min_valid items) self.new.history }
        ensures spare { self.old.spare ≤ self.new.spare }
    {
        self.samples.drop_before(min_valid);
        cut(&mut self.hidden, min_valid);
    }

    /// Replaces the runs of the hidden times.
    pub(crate) fn replace_hidden(&mut self, hidden: Vec<Run>)
        requires { AreApart hidden.items }
        ensures { self.new.history ≡ record { samples = self.old.history.samples; hidden = hidden.items } }
    {
        self.hidden = hidden;
    }

    // Returns whether some sample has an equal or later time.
    fn has_reached(&self, time: i64) -> bool
        ensures { result ≡ has_reached self.now.history.samples time }
    {
        reaches(self.max_time(), time)
    }

    // Applies an item, as `apply` does.
    fn apply_item(&mut self, item: &Item) -> Result<Outcome, AllocError>
        ensures changed { OnOk result (self.new.history ≡ history_after self.old.history item.now) }
        ensures told { IfOk result (λ told. told ≡ history_outcome self.old.history item.now) }
        ensures refused { OnErr result (self.new.history ≡ self.old.history) }
        ensures stale { history_outcome self.old.history item.now ≡ Stale → IsOk result }
        ensures empty { history_outcome self.old.history item.now ≡ EmptyStone → IsOk result }
        ensures room { 0 < self.old.spare → IsOk result }
        ensures spare { self.old.spare ≤ self.new.spare + 1 }
    {
        match item {
            Item::Sample(sample) => {
                if self.has_reached(sample.time) {
                    return Ok(Outcome::Stale);
                }
                self.samples.push(fit_copy(sample))?;
                Ok(Outcome::Accepted)
            }
            Item::Stone(run) => {
                if run.min_time > run.max_time {
                    return Ok(Outcome::EmptyStone);
                }
                merge(&mut self.hidden, *run)?;
                Ok(Outcome::Hidden)
            }
        }
    }
}

impl Builder for Column {
    ghost use Rattle.head_column.specs.Histories.{History, history_after, history_outcome};

    type Item = Item;

    type Outcome = Outcome;

    ghost Value = { History };

    ghost value = { λ c. c.history };

    ghost after = { history_after };

    ghost outcome = { history_outcome };

    /// Applies an item, and returns its outcome. A stale sample and an empty deletion change nothing and never fail. The time of a
    /// deletion is linear in the number of runs. Returns an error if out of memory, only if `spare` was 0; the history is then
    /// unchanged.
    fn apply(&mut self, item: &Item) -> Result<Outcome, AllocError>
        ensures changed { OnOk result (self.new.history ≡ history_after self.old.history item.now) }
        ensures told { IfOk result (λ told. told ≡ history_outcome self.old.history item.now) }
        ensures refused { OnErr result (self.new.history ≡ self.old.history) }

        // The history of the items so far and this one, and this one's outcome.
        ensures items { (items : List AnItem) → IsHistoryOf items self.old.history → OnOk result (IsHistoryOf (items ++ item.now ∷ []) self.new.history) }
        ensures verdict { (items : List AnItem) → IsHistoryOf items self.old.history → IfOk result (λ told. told ≡ outcome_of items item.now) }

        // Stale samples and empty deletions need no memory, others only if nothing is spare.
        ensures stale { history_outcome self.old.history item.now ≡ Stale → IsOk result }
        ensures empty { history_outcome self.old.history item.now ≡ EmptyStone → IsOk result }
        ensures room { 0 < self.old.spare → IsOk result }
        ensures spare { self.old.spare ≤ self.new.spare + 1 }
    {
        self.apply_item(item)
    }
}
