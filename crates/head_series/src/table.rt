//! The table of series.

ghost use Rattle.std.specs.Prelude.{◌≡◌, ◌+◌, ◌<◌, ◌≤◌, ◌++◌, ◌∷◌, [], ℕ, Some, None, Err, false, List, not, length, IfOk, OnOk, OnErr, IsOk};
ghost use Rattle.wal_record.specs.Labels.{same_labels};
ghost use Rattle.head_series.specs.Bindings.{Binding, IsTableOf};
ghost use Rattle.series_references.specs.ReferenceSlots.{low_end};
ghost use Rattle.head_series.specs.Room.{high_one, HasRoom, Uses};
ghost use Rattle.head_series.specs.Table.{has_series, slot_at, texts_with, with_greatest, with_series, AreAlike, IsFull, IsWith, Labels};
ghost use Rattle.head_series.specs.Texts.{place, with_texts, texts_of};

use crate::interner::{InternFault, Interner};
use crate::ready::Ready;
use crate::rows::{Row, last_numbers, last_with, note_last};
use hash_seed::HashSeed;
use indexmap::IndexMap;
use series_references::{Heap, References, Slot, with_reference};
use std::alloc::{AllocError, Global};
use std::error::Error;
use std::fmt;
use std::marker::Model;
use wal_record::LabelSet;

/// An error of a table: why a reference was not bound.
#[derive(Clone, Copy, Debug, PartialEq, Eq)]
pub enum BindFault {
    /// The label set is new, and one more series, or its texts, would pass the limit.
    Full,
    /// Out of memory.
    Memory,
}

impl fmt::Display for BindFault {
    fn fmt<W: fmt::Write>(&self, f: &mut fmt::Formatter<W>) -> fmt::Result {
        f.write_str(match self {
            BindFault::Full => "too many series or label texts",
            BindFault::Memory => "out of memory",
        })
    }
}

impl Error for BindFault {}

impl From<AllocError> for BindFault {
    ghost use Rattle.std.specs.Prelude.{◌≡◌};
    ghost use Rattle.head_series.specs.declared.table.BindFault.TheVariants.{Memory};

    ghost from_gives = { λ _ e. e ≡ Memory };

    fn from(_error: AllocError) -> BindFault {
        BindFault::Memory
    }
}

/// The series that a reference was bound to, as `bind` returns it.
#[derive(Clone, Copy, Debug, PartialEq, Eq)]
pub struct Bound {
    /// The slot of the series.
    pub slot: Slot,
    /// Whether the label set was new.
    pub created: bool,
}

/// Series, numbered by their slots in the order of first sight, and the references that name them. Each label text is kept once.
/// Contracts see a `Table`: the series, the slots of references, the greatest reference, the texts and the limit; and how much more
/// can be added without allocating, which no call shows.
#[derive(Debug)]
pub struct SeriesTable {
    pub(crate) texts: Interner,
    pub(crate) rows: Vec<Row>,
    pub(crate) seed: HashSeed,
    pub(crate) last_by_hash: IndexMap<u64, u32, HashSeed>,
    pub(crate) references: References,
    pub(crate) greatest: Option<u64>,
    pub(crate) most: u32,
}

// Written out so that the proof of a function that drops a table has one call, and not a copy of this.
impl Drop for SeriesTable {
    fn drop(self) {
        let SeriesTable {
            texts: _texts,
            rows: _rows,
            seed: _,
            last_by_hash: _last_by_hash,
            references: _references,
            greatest: _,
            most: _,
        } = self;
    }
}

impl Model for SeriesTable {
    ghost use Rattle.std.specs.Prelude.{◌-◌, length, map};
    ghost use Rattle.std.specs.Vec.{vec_capacity, vec_len};
    ghost use Rattle.indexmap.specs.IndexMap.{spare};
    ghost use Rattle.series_references.specs.ReferenceSlots.{pairs_of};
    ghost use Rattle.head_series.specs.Rows.{labels_in};
    ghost use Rattle.head_series.specs.Sound.{IsSound};
    ghost use Rattle.head_series.specs.Table.{Table};

    ghost Value = { Table };

    ghost view = { λ t. record {
      series = map (labels_in t.texts.texts) (map (λ r. r.numbers.items) t.rows.items);
      slots = pairs_of t.references.slots;
      greatest = t.greatest;
      texts = t.texts.texts;
      most = t.most;
      room = record {
        rows = vec_capacity t.rows - vec_len t.rows;
        lower_bounds = t.references.room;
        last_by_hash = spare t.last_by_hash;
        texts = t.texts.room;
        places = length t.references.slots.low;
        high = t.references.slots.room;
      };
    } };

    ghost invariant = { λ t. IsSound t.seed t.texts t.most (map (λ r. r.numbers.items) t.rows.items) (map (λ r. r.previous) t.rows.items) t.last_by_hash.entries t.references.series };
}

impl SeriesTable {
    /// Returns a table of no series, for at most `most` series and at most as many distinct label texts. Its hashes are those of the seed that
    /// all know. Allocates nothing.
    pub fn new(alloc: Global, most: u32) -> SeriesTable
        ensures series { result.series ≡ [] }
        ensures slots { (r : ℕ) → slot_at result r ≡ None }
        ensures greatest { result.greatest ≡ None }
        ensures texts { result.texts ≡ [] }
        ensures most { result.most ≡ most }
        ensures table { IsTableOf [] result }
    {
        SeriesTable::with_seed(alloc, HashSeed::known(), most)
    }

    /// Returns a table of no series, as `new` does, with hashes by a seed.
    pub fn with_seed(alloc: Global, seed: HashSeed, most: u32) -> SeriesTable
        ensures series { result.series ≡ [] }
        ensures slots { (r : ℕ) → slot_at result r ≡ None }
        ensures greatest { result.greatest ≡ None }
        ensures texts { result.texts ≡ [] }
        ensures most { result.most ≡ most }
        ensures table { IsTableOf [] result }
    {
        SeriesTable {
            texts: Interner::with_seed(alloc, seed, most),
            rows: Vec::new(alloc),
            seed,
            last_by_hash: IndexMap::with_hasher(alloc, seed),
            references: References::new(alloc, seed),
            greatest: None,
            most,
        }
    }

    // Binds a reference to a series.
    fn point(&mut self, reference: u64, slot: Slot) -> Result<(), AllocError>
        requires { slot < length self.old.series }
        ensures series { self.new.series ≡ self.old.series }
        ensures slots { OnOk result (IsWith (slot_at self.old) reference slot (slot_at self.new)) }
        ensures greatest { OnOk result (self.new.greatest ≡ with_greatest self.old.greatest reference) }
        ensures texts { self.new.texts ≡ self.old.texts }
        ensures most { self.new.most ≡ self.old.most }
        ensures kept { OnErr result (AreAlike self.old self.new) }
        ensures again { slot_at self.old reference ≡ Some slot → IsOk result }
    {
        let alloc = *self.rows.allocator();
        if self.references.has(reference, slot.number()) {
            self.greatest = with_reference(self.greatest, reference);
            return Ok(());
        }
        let node = Heap::boxed(alloc)?;
        self.references.reserve(reference)?;
        self.point_ready(reference, slot, node);
        Ok(())
    }

    // Binds a reference, for whose slot there is room, to a series.
    fn point_ready(&mut self, reference: u64, slot: Slot, node: Box<Heap>)
        requires slot { slot < length self.old.series }
        requires place { reference < low_end → reference < self.old.room.places }
        requires high { high_one reference ≤ self.old.room.high }
        ensures series { self.new.series ≡ self.old.series }
        ensures slots { IsWith (slot_at self.old) reference slot (slot_at self.new) }
        ensures greatest { self.new.greatest ≡ with_greatest self.old.greatest reference }
        ensures texts { self.new.texts ≡ self.old.texts }
        ensures most { self.new.most ≡ self.old.most }
        ensures uses { (labels : Labels) → Uses self.old self.new (record { reference = reference; labels = labels }) }
    {
        // gives the proof the invariant, which it knows where a field is named
        let _most = self.most;
        self.references.point(reference, slot.number(), node);
        self.greatest = with_reference(self.greatest, reference);
    }

    // Adds a series, and binds a reference to it.
    fn create(&mut self, reference: u64, labels: &LabelSet) -> Result<Slot, BindFault>
        requires new { has_series self.old.series labels.now ≡ false }
        ensures series { OnOk result (self.new.series ≡ self.old.series ++ labels.now ∷ []) }
        ensures slot { IfOk result (λ slot. slot ≡ length self.old.series) }
        ensures slots { IfOk result (λ slot. IsWith (slot_at self.old) reference slot (slot_at self.new)) }
        ensures greatest { OnOk result (self.new.greatest ≡ with_greatest self.old.greatest reference) }
        ensures texts { OnOk result (self.new.texts ≡ with_texts self.old.texts (texts_of labels.now)) }
        ensures most { self.new.most ≡ self.old.most }
        ensures full { result ≡ Err BindFault.Full → IsFull self.old labels.now }
        ensures room { IsOk result → IsFull self.old labels.now → ⊥ }
        ensures limit { length self.old.series ≡ self.old.most → result ≡ Err BindFault.Full }
        ensures kept { OnErr result (AreAlike self.old self.new) }
    {
        let slot = self.rows.len();
        if slot >= self.most as usize {
            return Err(BindFault::Full);
        }
        let slot = slot as u32;
        self.rows.reserve(1)?;
        self.references.reserve_series(1)?;
        self.last_by_hash.reserve(1)?;
        self.references.reserve(reference)?;
        let numbers = match self.texts.numbers(labels, last_numbers(&self.rows)) {
            Ok(numbers) => numbers,
            Err(InternFault::Full) => return Err(BindFault::Full),
            Err(InternFault::Memory) => return Err(BindFault::Memory),
        };
        let hash = labels.hash(self.seed);
        let previous = last_with(&self.last_by_hash, hash);
        note_last(&mut self.last_by_hash, hash, slot + 1);
        self.rows.push_reserved(Row { numbers, previous });
        self.references.push(reference);
        self.greatest = with_reference(self.greatest, reference);
        Ok(Slot::new(slot))
    }

    // Adds a series with what was made for it beforehand, and binds a reference to it.
    fn create_ready(&mut self, reference: u64, labels: &LabelSet, ready: Ready) -> Slot
        requires new { has_series self.old.series labels.now ≡ false }
        requires ready { ready ≡ labels.now }
        requires room { HasRoom self.old ((record { reference = reference; labels = labels.now }) ∷ []) }
        ensures series { self.new.series ≡ self.old.series ++ labels.now ∷ [] }
        ensures slot { result ≡ length self.old.series }
        ensures slots { IsWith (slot_at self.old) reference result (slot_at self.new) }
        ensures greatest { self.new.greatest ≡ with_greatest self.old.greatest reference }
        ensures texts { self.new.texts ≡ with_texts self.old.texts (texts_of labels.now) }
        ensures most { self.new.most ≡ self.old.most }
        ensures uses { Uses self.old self.new (record { reference = reference; labels = labels.now }) }
    {
        // gives the proof the invariant, which it knows where a field is named
        let _most = self.most;
        let number = self.references.next_slot();
        let numbers = self.texts.put_all(ready);
        let hash = labels.hash(self.seed);
        let previous = last_with(&self.last_by_hash, hash);
        note_last(&mut self.last_by_hash, hash, number + 1);
        self.rows.push_reserved(Row { numbers, previous });
        self.references.push(reference);
        self.greatest = with_reference(self.greatest, reference);
        Slot::new(number)
    }

    /// Binds a reference to a label set from here on, whatever it was bound to before.
    ///
    /// Returns `Full` only if the label set is new and one more series, or its texts, would pass the limit, and `Memory` if out of
    /// memory. The table's content is then unchanged.
    pub fn bind(&mut self, reference: u64, labels: &LabelSet) -> Result<Bound, BindFault>
        ensures series { OnOk result (self.new.series ≡ with_series self.old.series labels.now) }
        ensures slot { IfOk result (λ bound. place (same_labels labels.now) self.new.series ≡ Some bound.slot) }
        ensures within { IfOk result (λ bound. bound.slot < length self.new.series) }
        ensures created { IfOk result (λ bound. bound.created ≡ not (has_series self.old.series labels.now)) }
        ensures slots { IfOk result (λ bound. IsWith (slot_at self.old) reference bound.slot (slot_at self.new)) }
        ensures greatest { OnOk result (self.new.greatest ≡ with_greatest self.old.greatest reference) }
        ensures texts { OnOk result (self.new.texts ≡ texts_with self.old labels.now) }
        ensures most { self.new.most ≡ self.old.most }
        ensures full { result ≡ Err BindFault.Full → IsFull self.old labels.now }
        ensures room { IsOk result → IsFull self.old labels.now → ⊥ }
        // At the limit of series a new one is refused before anything is allocated.
        ensures limit { has_series self.old.series labels.now ≡ false → length self.old.series ≡ self.old.most → result ≡ Err BindFault.Full }
        ensures kept { OnErr result (AreAlike self.old self.new) }
        // Binding a reference to the series that it is bound to allocates nothing.
        ensures again { (slot : ℕ) → slot_at self.old reference ≡ Some slot → place (same_labels labels.now) self.old.series ≡ Some slot → IsOk result }
        // A table of some bindings becomes one of these and this binding.
        ensures table { (bs : List Binding) → IsTableOf bs self.old → OnOk result (IsTableOf (bs ++ (record { reference = reference; labels = labels.now }) ∷ []) self.new) }
    {
        match self.find_labels(labels) {
            Some(slot) => {
                self.point(reference, slot)?;
                Ok(Bound {
                    slot,
                    created: false,
                })
            }
            None => {
                let slot = match self.create(reference, labels) {
                    Ok(slot) => slot,
                    Err(fault) => return Err(fault),
                };
                Ok(Bound {
                    slot,
                    created: true,
                })
            }
        }
    }

    /// Binds a reference to a label set from here on, as `bind` does, with what `reserve` returned. Allocates nothing, and never fails.
    pub fn bind_ready(&mut self, reference: u64, labels: &LabelSet, ready: Ready) -> Bound
        requires ready { ready ≡ labels.now }
        requires room { HasRoom self.old ((record { reference = reference; labels = labels.now }) ∷ []) }
        ensures series { self.new.series ≡ with_series self.old.series labels.now }
        ensures slot { place (same_labels labels.now) self.new.series ≡ Some result.slot }
        ensures within { result.slot < length self.new.series }
        ensures created { result.created ≡ not (has_series self.old.series labels.now) }
        ensures slots { IsWith (slot_at self.old) reference result.slot (slot_at self.new) }
        ensures greatest { self.new.greatest ≡ with_greatest self.old.greatest reference }
        ensures texts { self.new.texts ≡ texts_with self.old labels.now }
        ensures most { self.new.most ≡ self.old.most }
        // The room for the bindings after this one is kept.
        ensures left { (bs : List Binding) → HasRoom self.old ((record { reference = reference; labels = labels.now }) ∷ bs) → HasRoom self.new bs }
        // A table of some bindings becomes one of these and this binding.
        ensures table { (bs : List Binding) → IsTableOf bs self.old → IsTableOf (bs ++ (record { reference = reference; labels = labels.now }) ∷ []) self.new }
    {
        match self.find_labels(labels) {
            Some(slot) => {
                self.point_ready(reference, slot, ready.into_node());
                let created = false;
                Bound { slot, created }
            }
            None => {
                let slot = self.create_ready(reference, labels, ready);
                let created = true;
                Bound { slot, created }
            }
        }
    }
}
