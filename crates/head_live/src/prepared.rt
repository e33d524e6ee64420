//! Rows whose label sets were checked.

ghost use Rattle.std.specs.List.{AllZip};
ghost use Rattle.std.specs.Prelude.{◌≡◌, ◌<◌, ◌≤◌, ◌∷◌, ◌++◌, [], ℕ, All, Err, IfErr, IfOk, IsOk, List, OnErr, OnOk, Some, length, map, slice_get, take, vec_capacity};
ghost use Rattle.wal_record.specs.Labels.{IsLabelSet, Labels, same_labels};
ghost use Rattle.head_series.specs.Table.{with_series};
ghost use Rattle.head_series.specs.Texts.{place};
ghost use Rattle.head_live.specs.Rows.{IsFirstPast, IsRefusal, row_again, row_of};
ghost use Rattle.head_live.specs.Sets.{IsReady, again_from, set_in, sets_in};
ghost use Rattle.head_live.specs.InUse.{AreOnce};
ghost use Rattle.head_live.specs.Keys.{labels_of_keys};
ghost use Rattle.head_live.specs.Refused.{IsRefusedAt, IsRefusedSet, labels_of};

use crate::fault::{AgainFault, PrepareFault};
use crate::in_use::{InUse, make_room};
use crate::rows::{AgainRow, RawRow};
use crate::set_key::SetKey;
use hash_seed::HashSeed;
use indexmap::IndexSet;
use std::alloc::{AllocError, Global};
use std::marker::Model;
use std::sync::Arc;
use wal_record::{LabelFault, LabelSet};

/// A row whose labels are kept apart: the index of its label set among those in use, its time and its value.
#[derive(Clone, Copy, Debug)]
pub(crate) struct PreparedRow {
    pub(crate) set: usize,
    pub(crate) time: i64,
    pub(crate) value: i64,
}

/// Rows that are ready to be appended. Each distinct label set is kept once, so that an append looks it up once. Contracts see the label sets of
/// the rows that were checked, and a list of `Row`.
#[derive(Debug, Drop)]
pub struct Prepared {
    // each distinct label set that was checked
    pub(crate) sets: IndexSet<SetKey, HashSeed>,
    // the number of the label set of each row that was checked
    places: Vec<usize>,
    // the numbers of the label sets of the rows that are ready
    pub(crate) in_use: InUse,
    pub(crate) rows: Vec<PreparedRow>,
}

impl Model for Prepared {
    ghost use Rattle.head_live.specs.Rows.{ReadyRows};
    ghost use Rattle.head_live.specs.Keys.{labels_of_keys};
    ghost use Rattle.head_live.specs.Sets.{AreReady, sets_in, with_set};
    ghost use Rattle.std.specs.Prelude.{map};
    ghost use Rattle.std.specs.Vec.{vec_capacity};

    ghost Value = { ReadyRows };

    ghost view = { λ p. record { sets = sets_in (labels_of_keys p.sets.keys) p.places.items; rows = map (with_set (sets_in (labels_of_keys p.sets.keys) p.in_use.numbers)) p.rows.items } };

    ghost invariant = { λ p. AreReady (labels_of_keys p.sets.keys) p.places.items p.in_use p.rows.items (vec_capacity p.rows) };
}

// Counts the bytes of names and values.
fn texts_len(pairs: &[(Vec<u8>, Vec<u8>)]) -> usize {
    let mut total: usize = 0;
    for (name, value) in pairs {
        total = total.saturating_add(name.len()).saturating_add(value.len());
    }
    total
}

// Builds the label set of these names and values.
fn label_set(alloc: Global, pairs: &[(Vec<u8>, Vec<u8>)]) -> Result<LabelSet, LabelFault>
    ensures labels { IfOk result (λ labels. labels ≡ labels_of pairs.now) }
    ensures ordered { IsOk result → IsLabelSet (labels_of pairs.now) }
    ensures refused { IfErr result (IsRefusedSet (labels_of pairs.now)) }
{
    let mut labels = LabelSet::with_room(alloc, HashSeed::known(), pairs.len(), texts_len(pairs))?;
    for (name, value) in pairs {
        labels.push(name, value)?;
    }
    Ok(labels)
}

// Builds the label set of the row with this index.
fn row_labels(alloc: Global, place: usize, raw: &RawRow) -> Result<LabelSet, PrepareFault>
    ensures labels { IfOk result (λ labels. labels ≡ (row_of raw.now).labels) }
    ensures ordered { IsOk result → IsLabelSet (row_of raw.now).labels }
    ensures refused { IfErr result (IsRefusedAt place (row_of raw.now).labels) }
{
    match label_set(alloc, &raw.pairs) {
        Ok(labels) => Ok(labels),
        Err(LabelFault::Memory) => Err(PrepareFault::Memory),
        Err(fault) => Err(PrepareFault::Labels { row: place, fault }),
    }
}

// Returns the number of a label set among the keys, to which it is added if it is new.
fn number_of(
    sets: &mut IndexSet<SetKey, HashSeed>,
    labels: Arc<LabelSet, Global>,
) -> Result<usize, PrepareFault>
    ensures sets { OnOk result (labels_of_keys sets.new.keys ≡ with_series (labels_of_keys sets.old.keys) labels.value) }
    ensures place { IfOk result (λ number. place (same_labels labels.value) (labels_of_keys sets.new.keys) ≡ Some number) }
    ensures within { IfOk result (λ number. number ≤ length sets.old.keys) }
    ensures kept { OnErr result (sets.new.keys ≡ sets.old.keys) }
    ensures refused { IfErr result (λ fault. fault ≡ PrepareFault.Memory) }
{
    let (number, _) = sets.insert_full(SetKey { labels })?;
    Ok(number)
}

// Makes room for one more checked row, and a place for the next number of a label set.
fn room_for_one(
    next: usize,
    places: &mut Vec<usize>,
    in_use: &mut InUse,
    rows: &mut Vec<PreparedRow>,
) -> Result<(), AllocError>
    ensures places { places.new.items ≡ places.old.items }
    ensures numbers { in_use.new.numbers ≡ in_use.old.numbers }
    ensures rows { rows.new.items ≡ rows.old.items }
    ensures kept { in_use.old.places ≤ in_use.new.places }
    ensures room { in_use.old.room ≤ in_use.new.room }
    ensures capacity { vec_capacity rows.old ≤ vec_capacity rows.new }
    ensures next { OnOk result (next < in_use.new.places) }
    ensures one { OnOk result (length places.old.items < vec_capacity places.new) }
    ensures number { OnOk result (length places.old.items < in_use.new.room) }
    ensures row { OnOk result (length places.old.items < vec_capacity rows.new) }
{
    let count = places.len().checked_add(1).ok_or(AllocError)?;
    places.reserve(1)?;
    in_use.make_place(next)?;
    in_use.make_room(count)?;
    make_room(rows, count)
}

// Gives each row the place of its index.
fn in_order(alloc: Global, rows: &[RawRow]) -> Result<Vec<AgainRow>, AllocError>
    ensures rows { IfOk result (λ again. again.items ≡ again_from 0 rows.now) }
{
    let mut again = Vec::with_capacity(alloc, rows.len())?;
    for (place, row) in rows.iter().enumerate() {
        again.push(AgainRow {
            place,
            time: row.time,
            value: row.value,
        })?;
    }
    Ok(again)
}

// Returns an error if a row has no place among so many checked rows.
fn check_places(rows: &[AgainRow], count: usize) -> Result<(), AgainFault>
    ensures within { IsOk result → All (λ row. row.place < count) rows.now }
    ensures place { IfErr result (λ fault. (row : ℕ) × (fault ≡ AgainFault.NoSuchRow row) × IsFirstPast count rows.now row) }
{
    for (row, again) in rows.iter().enumerate() {
        if again.place >= count {
            return Err(AgainFault::NoSuchRow { row });
        }
    }
    Ok(())
}

// Replaces the rows by checked ones, in their places, with other times and values.
fn fill(prepared: &mut Vec<PreparedRow>, in_use: &mut InUse, places: &[usize], rows: &[AgainRow])
    requires within { All (λ row. row.place < length places.now) rows.now }
    requires places { All (λ number. number < in_use.old.places) places.now }
    requires room { length rows.now ≤ vec_capacity prepared.old }
    requires numbers { length rows.now ≤ in_use.old.room }
    ensures rows { AllZip (IsReady places.now in_use.new.numbers) rows.now prepared.new.items }
    ensures from { All (λ number. (place : ℕ) × (slice_get places.now place ≡ Some number)) in_use.new.numbers }
    ensures once { AreOnce in_use.new.numbers }
    ensures capacity { vec_capacity prepared.new ≡ vec_capacity prepared.old }
    ensures room { in_use.new.room ≡ in_use.old.room }
    ensures places { in_use.new.places ≡ in_use.old.places }
{
    prepared.clear();
    in_use.clear();
    for row in rows {
        let set = in_use.index_of(places[row.place]);
        prepared.push_reserved(PreparedRow {
            set,
            time: row.time,
            value: row.value,
        });
    }
    // for the proof: no number is there twice
    in_use.numbers();
}

// Returns the label set with this index among those in use.
pub(crate) fn set_of<'a>(
    sets: &'a [SetKey],
    numbers: &[usize],
    index: usize,
) -> &'a Arc<LabelSet, Global>
    requires within { index < length numbers.now }
    requires numbers { All (λ number. number < length sets.now) numbers.now }
    ensures set { result.now.value ≡ set_in (sets_in (labels_of_keys sets.now) numbers.now) index }
{
    &sets[numbers[index]].labels
}

impl Prepared {
    // Makes one of no rows.
    fn empty(alloc: Global) -> Prepared
        ensures sets { result.sets ≡ [] }
        ensures rows { result.rows ≡ [] }
    {
        Prepared {
            sets: IndexSet::with_hasher(alloc, HashSeed::known()),
            places: Vec::new(alloc),
            in_use: InUse::new(alloc),
            rows: Vec::new(alloc),
        }
    }

    // Checks the labels of the row with this index, which get the next place.
    fn add_one(&mut self, row: usize, raw: &RawRow) -> Result<(), PrepareFault>
        ensures sets { OnOk result (self.new.sets ≡ self.old.sets ++ (row_of raw.now).labels ∷ []) }
        ensures rows { self.new.rows ≡ self.old.rows }
        ensures ordered { IsOk result → IsLabelSet (row_of raw.now).labels }
        ensures refused { IfErr result (IsRefusedAt row (row_of raw.now).labels) }
        ensures kept { OnErr result (self.new ≡ self.old) }
    {
        let alloc = *self.places.allocator();
        let labels = Arc::new(alloc, row_labels(alloc, row, raw)?)?;
        let next = self.sets.len();
        room_for_one(next, &mut self.places, &mut self.in_use, &mut self.rows)?;
        let number = number_of(&mut self.sets, labels)?;
        self.places.push_reserved(number);
        Ok(())
    }

    // Checks the labels of rows, one after another, until one is refused.
    fn add_each(&mut self, rows: &[RawRow]) -> Result<(), PrepareFault>
        ensures sets { OnOk result (self.new.sets ≡ self.old.sets ++ map (λ raw. (row_of raw).labels) rows.now) }
        ensures rows { self.new.rows ≡ self.old.rows }
        ensures ordered { IsOk result → All (λ raw. IsLabelSet (row_of raw).labels) rows.now }
        ensures refused { IfErr result (IsRefusal (map row_of rows.now)) }
        ensures more { (more : List Labels) × (self.new.sets ≡ self.old.sets ++ more) }
    {
        for (row, raw) in rows.iter().enumerate() {
            self.add_one(row, raw)?;
        }
        Ok(())
    }

    // Forgets the checked rows past the first so many. The rows that are ready stay.
    fn forget(&mut self, count: usize)
        ensures sets { self.new.sets ≡ take count self.old.sets }
        ensures rows { self.new.rows ≡ self.old.rows }
    {
        self.places.truncate(count);
    }

    /// Checks the labels of rows. The names of a row must be in strictly ascending order, and none may be empty; otherwise the first
    /// such row is returned as an error. This takes no lock and needs no head.
    pub fn new(alloc: Global, rows: &[RawRow]) -> Result<Prepared, PrepareFault>
        ensures rows { IfOk result (λ prepared. prepared.rows ≡ map row_of rows.now) }
        ensures sets { IfOk result (λ prepared. prepared.sets ≡ map (λ raw. (row_of raw).labels) rows.now) }
        ensures ordered { IsOk result → All (λ row. IsLabelSet (row_of row).labels) rows.now }
        ensures refused { IfErr result (IsRefusal (map row_of rows.now)) }
    {
        let mut prepared = Prepared::empty(alloc);
        prepared.add_each(rows)?;
        match prepared.again(&in_order(alloc, rows)?) {
            Ok(()) => Ok(prepared),
            Err(_) => Err(PrepareFault::Memory),
        }
    }

    /// Checks the labels of more rows, as `new` does, which get the next places. The rows that are ready stay. If an error is returned, nothing
    /// changes.
    pub fn add(&mut self, rows: &[RawRow]) -> Result<(), PrepareFault>
        ensures sets { OnOk result (self.new.sets ≡ self.old.sets ++ map (λ raw. (row_of raw).labels) rows.now) }
        ensures rows { self.new.rows ≡ self.old.rows }
        ensures ordered { IsOk result → All (λ raw. IsLabelSet (row_of raw).labels) rows.now }
        ensures refused { IfErr result (IsRefusal (map row_of rows.now)) }
        ensures kept { OnErr result (self.new ≡ self.old) }
    {
        let count = self.places.len();
        let added = self.add_each(rows);
        if added.is_err() {
            self.forget(count);
        }
        added
    }

    /// Takes rows that were checked, with other times and values. Rows may be left out, come in any order, and come again. It checks no label
    /// and makes no label set, and allocates nothing for as many rows as were checked. If an error is returned, nothing changes.
    pub fn again(&mut self, rows: &[AgainRow]) -> Result<(), AgainFault>
        ensures rows { OnOk result (self.new.rows ≡ map (row_again self.old.sets) rows.now) }
        ensures sets { self.new.sets ≡ self.old.sets }
        ensures within { IsOk result → All (λ row. row.place < length self.old.sets) rows.now }
        ensures place { (row : ℕ) → result ≡ Err (AgainFault.NoSuchRow row) → IsFirstPast (length self.old.sets) rows.now row }
        ensures memory { result ≡ Err AgainFault.Memory → length self.old.sets < length rows.now }
        ensures kept { OnErr result (self.new ≡ self.old) }
    {
        check_places(rows, self.places.len())?;
        make_room(&mut self.rows, rows.len())?;
        self.in_use.make_room(rows.len())?;
        fill(&mut self.rows, &mut self.in_use, &self.places, rows);
        Ok(())
    }

    /// Returns the number of rows.
    pub fn len(&self) -> usize
        ensures { result ≡ length self.now.rows }
    {
        self.rows.len()
    }
}
