//! Rows: series as numbers of texts, in chains of equal hashes.

ghost use Rattle.std.specs.Prelude.{◌≡◌, ◌+◌, ◌≤◌, ◌<◌, ◌==◌, ℕ, false, map, nat_eq, length, if◌then◌else◌, IfOk, IsTrue};
ghost use Rattle.std.specs.Map.{lookup};
ghost use Rattle.indexmap.specs.IndexMap.{spare};
ghost use Rattle.head_series.specs.Rows.{labels_in, AreWithin, or_zero};

use crate::interner::Interner;
use hash_seed::HashSeed;
use indexmap::IndexMap;
use std::alloc::{AllocError, Global};
use wal_record::LabelSet;

/// The text numbers of a series, and the slot of the last series before it whose label set has the same hash, plus 1, or 0 if there is
/// none.
#[derive(Debug, Drop)]
pub(crate) struct Row {
    pub(crate) numbers: Vec<(u32, u32)>,
    pub(crate) previous: u32,
}

// Returns whether these are the numbers of a label set's texts.
pub(crate) fn is_named(texts: &Interner, numbers: &[(u32, u32)], labels: &LabelSet) -> bool
    requires { AreWithin (length texts.now.texts) numbers.now }
    ensures yes { IsTrue result → labels.now ≡ labels_in texts.now.texts numbers.now }
    ensures no { result ≡ false → labels.now ≡ labels_in texts.now.texts numbers.now → ⊥ }
{
    if numbers.len() != labels.len() {
        return false;
    }
    for (i, number) in numbers.iter().enumerate() {
        let (name, value) = labels.pair(i);
        if texts.bytes(number.0) != name {
            return false;
        }
        if texts.bytes(number.1) != value {
            return false;
        }
    }
    true
}

// Returns the text numbers of the last series. The next series mostly has the same names and many of the same values.
pub(crate) fn last_numbers(rows: &[Row]) -> &[(u32, u32)] {
    match rows.last() {
        Some(row) => &row.numbers,
        None => &[],
    }
}

// Returns the slot of the last series whose label set has a hash, plus 1, or 0 if there is none.
pub(crate) fn last_with(last_by_hash: &IndexMap<u64, u32, HashSeed>, hash: u64) -> u32
    ensures { result ≡ or_zero (lookup (nat_eq hash) last_by_hash.now.entries) }
{
    match last_by_hash.get(&hash) {
        Some(last) => *last,
        None => 0,
    }
}

// Sets the last series with a hash; `last` is its slot plus 1.
pub(crate) fn note_last(last_by_hash: &mut IndexMap<u64, u32, HashSeed>, hash: u64, last: u32)
    requires { 0 < spare last_by_hash.old }
    ensures room { spare last_by_hash.old ≤ spare last_by_hash.new + 1 }
    ensures lasts { (h : ℕ) → or_zero (lookup (nat_eq h) last_by_hash.new.entries) ≡ (if hash == h then last else or_zero (lookup (nat_eq h) last_by_hash.old.entries)) }
{
    last_by_hash.insert(hash, last).unwrap();
}

// Returns a copy of the rows.
pub(crate) fn copied_rows(alloc: Global, rows: &[Row]) -> Result<Vec<Row>, AllocError>
    ensures numbers { IfOk result (λ copy. map (λ r. r.numbers.items) copy.items ≡ map (λ r. r.numbers.items) rows.now) }
    ensures befores { IfOk result (λ copy. map (λ r. r.previous) copy.items ≡ map (λ r. r.previous) rows.now) }
{
    let mut copy = Vec::with_capacity(alloc, rows.len())?;
    for row in rows {
        let numbers = Vec::from_slice(alloc, &row.numbers)?;
        copy.push(Row {
            numbers,
            previous: row.previous,
        })?;
    }
    Ok(copy)
}
