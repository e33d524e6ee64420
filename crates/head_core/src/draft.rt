//! The state of `Head::reserve`: the records that room was made for so far.

ghost use Rattle.std.specs.Prelude.{◌≡◌, ◌+◌, ◌<◌, ◌≤◌, ◌==◌, ◌++◌, ◌∷◌, [], ℕ, List, Some, length, map, nat_eq, not, if◌then◌else◌, IfOk, IfSome, OnOk};
ghost use Rattle.std.specs.Map.{lookup};
ghost use Rattle.wal_record.specs.Labels.{same_labels};
ghost use Rattle.wal_record.specs.Entries.{Entry, series};
ghost use Rattle.head_series.specs.Table.{has_series, slot_at, with_series};
ghost use Rattle.head_series.specs.Texts.{place};
ghost use Rattle.head_core.specs.Draft.{many_at, slot_after, AreWider, HaveColumns, IsDraft, IsLonger, IsNoted, series_in};
ghost use Rattle.head_core.specs.Heads.{HeadValue};
ghost use Rattle.head_core.specs.Room.{spare_at};

use crate::reserved::Reserved;
use crate::slot_counts::SlotCounts;
use hash_seed::HashSeed;
use head_column::Column;
use head_postings::{Postings, PostingsBatch};
use head_series::{Bound, Plan, Ready, SeriesTable, Slot};
use indexmap::IndexMap;
use std::alloc::{AllocError, Global};
use std::collections::VecDeque;
use std::marker::Model;
use wal_record::{LabelSet, SeriesEntry};

/// What was made for the records so far, and what these say beyond the head: the series that will be new (a table), the slot that each
/// reference which they bind will have, and the number of items of each slot.
#[derive(Debug)]
pub(crate) struct RoomDraft {
    pub(crate) plan: Plan,
    pub(crate) batch: PostingsBatch,
    pub(crate) ready: VecDeque<Ready>,
    pub(crate) columns: VecDeque<Column>,
    // made for the first new series
    series: Option<SeriesTable>,
    slots: IndexMap<u64, u32, HashSeed>,
    counts: SlotCounts,
}

// Written out so that the proof of a function that drops a draft has one call, and not a copy of this.
impl Drop for RoomDraft {
    fn drop(self) {
        let RoomDraft {
            plan: _plan,
            batch: _batch,
            ready: _ready,
            columns: _columns,
            series: _series,
            slots: _slots,
            counts: _counts,
        } = self;
    }
}

impl Model for RoomDraft {
    ghost use Rattle.head_core.specs.Draft.{Drafted, series_in};

    ghost Value = { Drafted };

    ghost view = { λ d. record {
      plan = d.plan;
      batch = d.batch;
      made = record { ready = d.ready.items; columns = d.columns.items };
      series = series_in d.series;
      slots = d.slots.entries;
      counts = d.counts;
    } };
}

// Adds a label set to a table, which is made if there is none.
fn bind_new(
    alloc: Global,
    series: &mut Option<SeriesTable>,
    seed: HashSeed,
    labels: &LabelSet,
) -> Result<Bound, AllocError>
    ensures series { OnOk result (series_in series.new ≡ with_series (series_in series.old) labels.now) }
    ensures slot { IfOk result (λ bound. place (same_labels labels.now) (series_in series.new) ≡ Some bound.slot) }
    ensures created { IfOk result (λ bound. bound.created ≡ not (has_series (series_in series.old) labels.now)) }
{
    if series.is_none() {
        *series = Some(SeriesTable::with_seed(alloc, seed, u32::MAX));
    }
    let Some(table) = series else {
        return Err(AllocError);
    };
    match table.bind(0, labels) {
        Ok(bound) => Ok(bound),
        Err(_) => Err(AllocError),
    }
}

impl RoomDraft {
    // Returns the draft of no records.
    pub(crate) fn new(table: &SeriesTable, postings: &Postings, alloc: Global) -> RoomDraft
        ensures { (h : HeadValue) → h.content.table ≡ table.now → h.content.postings ≡ postings.now → length h.room.spares ≡ length table.now.series → IsDraft h result [] }
    {
        let seed = table.seed();
        RoomDraft {
            plan: table.plan(),
            batch: postings.batch(),
            ready: VecDeque::new(alloc),
            columns: VecDeque::new(alloc),
            series: None,
            slots: IndexMap::with_hasher(alloc, seed),
            counts: SlotCounts::new(alloc, seed),
        }
    }

    // Adds a binding, for a head with this table.
    pub(crate) fn bind(
        &mut self,
        table: &SeriesTable,
        entry: &SeriesEntry,
    ) -> Result<(), AllocError>
        ensures same { self.new ≡ record self.old { made = record self.old.made { columns = self.new.made.columns }; series = self.new.series; slots = self.new.slots } }
        ensures noted { (es : List Entry) → IsNoted table.now.series (slot_at table.now) self.old es →
            OnOk result (IsNoted table.now.series (slot_at table.now) self.new (es ++ series entry.now ∷ [])) }
        ensures columns { HaveColumns self.old → OnOk result (HaveColumns self.new) }
        ensures longer { IsLonger self.old.made.columns self.new.made.columns }
    {
        let slot = self.slot_for(table, &entry.labels)?;
        self.slots.insert(entry.reference, slot.index() as u32)?;
        Ok(())
    }

    // Returns the slot that a series has in the table, or will have.
    fn slot_for(&mut self, table: &SeriesTable, labels: &LabelSet) -> Result<Slot, AllocError>
        ensures same { self.new ≡ record self.old { made = record self.old.made { columns = self.new.made.columns }; series = self.new.series } }
        ensures series { OnOk result (table.now.series ++ self.new.series ≡ with_series (table.now.series ++ self.old.series) labels.now) }
        ensures slot { IfOk result (λ slot. place (same_labels labels.now) (table.now.series ++ self.new.series) ≡ Some slot) }
        ensures columns { HaveColumns self.old → OnOk result (HaveColumns self.new) }
        ensures longer { IsLonger self.old.made.columns self.new.made.columns }
    {
        match table.find_labels(labels) {
            Some(slot) => Ok(slot),
            None => self.add(table, labels),
        }
    }

    // Returns the slot that a series which the table has not will have. Makes a column for it, if it is new in the draft too.
    fn add(&mut self, table: &SeriesTable, labels: &LabelSet) -> Result<Slot, AllocError>
        ensures same { self.new ≡ record self.old { made = record self.old.made { columns = self.new.made.columns }; series = self.new.series } }
        ensures series { OnOk result (self.new.series ≡ with_series self.old.series labels.now) }
        ensures slot { IfOk result (λ slot. (own : ℕ) × (place (same_labels labels.now) self.new.series ≡ Some own) × (slot ≡ length table.now.series + own)) }
        ensures columns { HaveColumns self.old → OnOk result (HaveColumns self.new) }
        ensures longer { IsLonger self.old.made.columns self.new.made.columns }
    {
        self.columns.reserve(1)?;
        let alloc = *self.columns.allocator();
        let bound = bind_new(alloc, &mut self.series, table.seed(), labels)?;
        if bound.created {
            let column = Column::new(*self.columns.allocator());
            self.columns.push_back_reserved(column);
        }
        let slot = table.len() as u64 + bound.slot.index() as u64;
        match u32::try_from(slot) {
            Ok(slot) => Ok(Slot::new(slot)),
            Err(_) => Err(AllocError),
        }
    }

    // Returns the slot that a reference will have after the records so far, in a head with this table.
    pub(crate) fn slot(&self, table: &SeriesTable, reference: u64) -> Option<Slot>
        ensures slot { result ≡ slot_after self.now (slot_at table.now) reference }
        ensures within { (n : ℕ) → length table.now.series ≤ n → ((r s : ℕ) → lookup (nat_eq r) self.now.slots ≡ Some s → s < n) → IfSome result (λ slot. slot < n) }
    {
        match self.slots.get(&reference) {
            Some(slot) => Some(Slot::new(*slot)),
            None => table.find(reference),
        }
    }

    // Adds 1 to the number of items of a slot, and returns that number.
    pub(crate) fn count(&mut self, slot: Slot) -> Result<usize, AllocError>
        ensures same { self.new ≡ record self.old { counts = self.new.counts } }
        ensures many { IfOk result (λ many. many ≡ many_at self.old slot + 1) }
        ensures counts { IfOk result (λ many. (s : ℕ) → many_at self.new s ≡ (if slot == s then many else many_at self.old s)) }
    {
        self.counts.add(slot.index() as u32)
    }

    // Makes room for this many items in a column, if it exists.
    pub(crate) fn widen(&mut self, index: usize, many: usize) -> Result<(), AllocError>
        ensures same { self.new ≡ record self.old { made = record self.old.made { columns = self.new.made.columns } } }
        ensures columns { HaveColumns self.old → HaveColumns self.new }
        ensures spares { AreWider (map (λ c. c.spare) self.old.made.columns) (map (λ c. c.spare) self.new.made.columns) }
        ensures room { index < length self.old.made.columns → OnOk result (many ≤ spare_at (map (λ c. c.spare) self.new.made.columns) index) }
    {
        let Some(column) = self.columns.get_mut(index) else {
            return Ok(());
        };
        column.reserve(many)
    }

    // Returns what was made.
    pub(crate) fn into_reserved(self) -> Reserved
        ensures { result ≡ self.made }
    {
        let RoomDraft {
            plan: _plan,
            batch: _batch,
            ready,
            columns,
            series: _series,
            slots: _slots,
            counts: _counts,
        } = self;
        Reserved { ready, columns }
    }
}
