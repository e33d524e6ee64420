//! Plans of bindings.

ghost use Rattle.std.specs.Prelude.{◌≡◌, ◌↔◌, ◌≤◌, ◌+◌, ◌*◌, [], false, length, true, OnOk};
ghost use Rattle.head_series.specs.Room.{high_one};
ghost use Rattle.head_series.specs.Table.{has_series};

use crate::interner::Interner;
use crate::table::SeriesTable;
use hash_seed::HashSeed;
use series_references::LOW_END;
use std::alloc::{AllocError, Global};
use std::marker::Model;
use wal_record::LabelSet;

/// A plan of bindings in a table: which series and texts they will make new there, and how much room they need at most.
/// `SeriesTable::plan` returns an empty plan, and `SeriesTable::reserve` adds a binding to it. Contracts see a `Planned`.
#[derive(Debug)]
pub struct Plan {
    pub(crate) series: SeriesTable,
    pub(crate) texts: Interner,
    pub(crate) bindings: usize,
    pub(crate) texts_most: usize,
    pub(crate) high: usize,
}

// Written out so that the proof of a function that drops a plan has one call, and not a copy of this.
impl Drop for Plan {
    fn drop(self) {
        let Plan {
            series: _series,
            texts: _texts,
            bindings: _,
            texts_most: _,
            high: _,
        } = self;
    }
}

impl Model for Plan {
    ghost use Rattle.head_series.specs.Room.{Planned};

    ghost Value = { Planned };

    ghost view = { λ p. record { series = p.series.series; texts = p.texts.texts; bindings = p.bindings; texts_most = p.texts_most; high = p.high } };
}

impl Plan {
    // Returns the plan of no bindings, with hashes by the seed.
    pub(crate) fn new(alloc: Global, seed: HashSeed) -> Plan
        ensures series { result.series ≡ [] }
        ensures texts { result.texts ≡ [] }
        ensures bindings { result.bindings ≡ 0 }
        ensures texts_most { result.texts_most ≡ 0 }
        ensures high { result.high ≡ 0 }
    {
        Plan {
            series: SeriesTable::with_seed(alloc, seed, u32::MAX),
            texts: Interner::with_seed(alloc, seed, u32::MAX),
            bindings: 0,
            texts_most: 0,
            high: 0,
        }
    }

    // Returns whether a label set is new to both the table and this plan for it, and both together are at the limit of series.
    pub(crate) fn is_at_limit(&self, table: &SeriesTable, most: u32, labels: &LabelSet) -> bool
        ensures { (result ≡ true) ↔ ((has_series table.now.series labels.now ≡ false) × (has_series self.now.series labels.now ≡ false) × (most ≤ length table.now.series + length self.now.series)) }
    {
        let series = table.len() as u64 + self.series.len() as u64;
        if series < most as u64 {
            return false;
        }
        match table.find_labels(labels) {
            Some(_) => return false,
            None => {}
        }
        match self.series.find_labels(labels) {
            Some(_) => false,
            None => true,
        }
    }

    // Adds a binding to the counts.
    pub(crate) fn count(&mut self, reference: u64, labels: &LabelSet) -> Result<(), AllocError>
        ensures series { self.new.series ≡ self.old.series }
        ensures texts { self.new.texts ≡ self.old.texts }
        ensures bindings { OnOk result (self.new.bindings ≡ self.old.bindings + 1) }
        ensures texts_most { OnOk result (self.new.texts_most ≡ self.old.texts_most + 2 * length labels.now) }
        ensures high { OnOk result (self.new.high ≡ self.old.high + high_one reference) }
    {
        self.bindings = self.bindings.checked_add(1).ok_or(AllocError)?;
        let names = self.texts_most.checked_add(labels.len()).ok_or(AllocError)?;
        self.texts_most = names.checked_add(labels.len()).ok_or(AllocError)?;
        if reference >= LOW_END {
            self.high = self.high.checked_add(1).ok_or(AllocError)?;
        }
        Ok(())
    }
}
