//! A series, built item by item, whose deletions wait to be merged many at once.

ghost use Rattle.std.specs.Prelude.{◌≡◌, [], All, IfOk, OnErr, OnOk, true};
ghost use Rattle.head_column.specs.Histories.{history_with, no_history};
ghost use Rattle.head_column.specs.Merging.{with_run};
ghost use Rattle.head_column.specs.Runs.{IsRun};

use crate::runs::join;
use crate::{Column, Item, Outcome, Run};
use head_deal::Builder;
use std::alloc::{AllocError, Global};
use std::marker::Model;

// The least number of waiting deletions at which they are merged.
const LEAST_WAITING: usize = 64;

/// A series that becomes a [`Column`] once all its items are applied. Deletions may come in any order: n of them take O(n log n) time
/// in all. Contracts see it as the history that the column would have.
#[derive(Debug)]
pub struct GatheringColumn {
    column: Column,
    // Deletions that are not among the column's runs yet, in the order of arrival. None is empty.
    waiting: Vec<Run>,
}

// Written out, so that a function that drops one has a call in its proof, and not a copy of this body.
impl Drop for GatheringColumn {
    fn drop(self) {
        let GatheringColumn {
            column: _column,
            waiting: _waiting,
        } = self;
    }
}

impl Model for GatheringColumn {
    ghost use Rattle.std.specs.Prelude.{All};
    ghost use Rattle.head_column.specs.Histories.{History, history_with};
    ghost use Rattle.head_column.specs.Runs.{IsRun};

    ghost Value = { History };

    ghost view = { λ c. history_with c.column.history c.waiting.items };

    ghost invariant = { λ c. All IsRun c.waiting.items };
}

// Merges the waiting deletions into the column. Returns an error if out of memory; nothing has changed then.
fn merge_waiting(column: &mut Column, waiting: &mut Vec<Run>) -> Result<(), AllocError>
    requires { All IsRun waiting.old.items }
    ensures merged { OnOk result (column.new.history ≡ history_with column.old.history waiting.old.items) }
    ensures none { OnOk result (waiting.new.items ≡ []) }
    ensures history { OnErr result (column.new.history ≡ column.old.history) }
    ensures kept { OnErr result (waiting.new.items ≡ waiting.old.items) }
{
    let hidden = join(*waiting.allocator(), column.hidden(), waiting)?;
    column.replace_hidden(hidden);
    waiting.clear();
    Ok(())
}

// Returns whether a deletion can be merged at once, at the end of the hidden runs: none waits, and it does not begin before the last run.
fn is_next(waiting: &[Run], hidden: &[Run], run: &Run) -> bool
    ensures { result ≡ true → waiting.now ≡ [] }
{
    if !waiting.is_empty() {
        return false;
    }
    match hidden.last() {
        Some(last) => last.min_time <= run.min_time,
        None => true,
    }
}

impl GatheringColumn {
    /// Makes a series without items.
    pub fn new(alloc: Global) -> GatheringColumn
        ensures { result ≡ no_history }
    {
        GatheringColumn {
            column: Column::new(alloc),
            waiting: Vec::new(alloc),
        }
    }

    /// Returns the column, with all deletions merged. Allocates nothing if none waits. Returns an error if out of memory.
    pub fn into_column(self) -> Result<Column, AllocError>
        ensures { IfOk result (λ column. column.history ≡ self) }
    {
        let GatheringColumn {
            mut column,
            mut waiting,
        } = self;
        if !waiting.is_empty() {
            merge_waiting(&mut column, &mut waiting)?;
        }
        Ok(column)
    }

    // Lets a deletion wait, and merges those before it first if they are many.
    fn add(&mut self, run: Run) -> Result<(), AllocError>
        requires { IsRun run }
        ensures added { OnOk result (self.new ≡ record { samples = self.old.samples; hidden = with_run self.old.hidden run }) }
        ensures kept { OnErr result (self.new ≡ self.old) }
    {
        if self.waiting.len() >= self.column.hidden().len().max(LEAST_WAITING) {
            merge_waiting(&mut self.column, &mut self.waiting)?;
        }
        self.waiting.push(run)?;
        Ok(())
    }
}

impl Builder for GatheringColumn {
    ghost use Rattle.head_column.specs.Histories.{History, history_after, history_outcome};

    type Item = Item;

    type Outcome = Outcome;

    ghost Value = { History };

    ghost value = { λ c. c };

    ghost after = { history_after };

    ghost outcome = { history_outcome };

    /// Applies an item, and returns its outcome. A stale sample and an empty deletion change nothing and never fail. Returns an error if
    /// out of memory; the history is then unchanged.
    fn apply(&mut self, item: &Item) -> Result<Outcome, AllocError> {
        match item {
            Item::Sample(_) => self.column.apply(item),
            Item::Stone(run) => {
                if run.min_time > run.max_time {
                    return Ok(Outcome::EmptyStone);
                }
                if is_next(&self.waiting, self.column.hidden(), run) {
                    return self.column.apply(item);
                }
                self.add(*run)?;
                Ok(Outcome::Hidden)
            }
        }
    }
}
