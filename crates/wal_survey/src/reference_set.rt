//! Sets of references.

ghost use Rattle.std.specs.Prelude.{◌≡◌, ◌/◌, ◌<◌, ◌||◌, ℕ, false, length, nat_eq, OnOk};
ghost use Rattle.wal_survey.specs.ReferenceSets.{has, is_set, is_set_in};

use hash_seed::HashSeed;
use indexmap::IndexSet;
use std::alloc::{AllocError, Global};
use std::marker::Model;

// References below this one have a bit in a list of words.
const LOW_END: u64 = 4_194_304;

/// A set of references: small ones as bits of words, the others by themselves.
#[derive(Debug)]
pub(crate) struct ReferenceSet {
    low: Vec<u64>,
    high: IndexSet<u64, HashSeed>,
}

// Written out, so that a function that drops one has a call in its proof, and not a copy of this body.
impl Drop for ReferenceSet {
    fn drop(self) {
        let ReferenceSet {
            low: _low,
            high: _high,
        } = self;
    }
}

impl Model for ReferenceSet {
    ghost use Rattle.wal_survey.specs.ReferenceSets.{ReferenceSetValue};

    ghost Value = { ReferenceSetValue };

    ghost view = { λ s. record { low = s.low.items; high = s.high.keys } };
}

// Returns whether a bit of a word is set.
fn has_bit(word: u64, bit: u64) -> bool
    requires { bit < 64 }
    ensures { result ≡ is_set word bit }
{
    word & (1 << bit) != 0
}

// Returns a word with one more bit set.
fn with_bit(word: u64, bit: u64) -> u64
    requires { bit < 64 }
    ensures { (k : ℕ) → is_set result k ≡ (nat_eq k bit || is_set word k) }
{
    word | (1 << bit)
}

// Returns whether the bit of a reference is set.
fn has_low(words: &[u64], reference: u64) -> bool
    ensures { result ≡ is_set_in words.now reference }
{
    let at = (reference / 64) as usize;
    if at < words.len() {
        has_bit(words[at], reference % 64)
    } else {
        false
    }
}

// Appends words without bits until there is one for the bit of a reference.
fn grow(words: &mut Vec<u64>, reference: u64) -> Result<(), AllocError>
    ensures same { OnOk result ((r : ℕ) → is_set_in words.new.items r ≡ is_set_in words.old.items r) }
    ensures there { OnOk result (reference / 64 < length words.new.items) }
{
    let at = (reference / 64) as usize;
    if words.len() <= at {
        words.resize(at + 1, 0)?;
    }
    Ok(())
}

// Sets the bit of a reference.
fn insert_low(words: &mut Vec<u64>, reference: u64) -> Result<(), AllocError>
    ensures { OnOk result ((r : ℕ) → is_set_in words.new.items r ≡ (nat_eq r reference || is_set_in words.old.items r)) }
{
    grow(words, reference)?;
    let at = (reference / 64) as usize;
    words[at] = with_bit(words[at], reference % 64);
    Ok(())
}

impl ReferenceSet {
    /// Makes the set of no references.
    pub(crate) fn new(alloc: Global, seed: HashSeed) -> ReferenceSet
        ensures { (r : ℕ) → has result r ≡ false }
    {
        ReferenceSet {
            low: Vec::new(alloc),
            high: IndexSet::with_hasher(alloc, seed),
        }
    }

    /// Returns whether a reference is in the set.
    pub(crate) fn contains(&self, reference: u64) -> bool
        ensures { result ≡ has self.now reference }
    {
        if reference < LOW_END {
            has_low(&self.low, reference)
        } else {
            self.high.contains(&reference)
        }
    }

    /// Adds a reference. Returns an error if out of memory.
    pub(crate) fn insert(&mut self, reference: u64) -> Result<(), AllocError>
        ensures { OnOk result ((r : ℕ) → has self.new r ≡ (nat_eq r reference || has self.old r)) }
    {
        if reference < LOW_END {
            insert_low(&mut self.low, reference)
        } else {
            self.high.insert(reference)?;
            Ok(())
        }
    }
}
