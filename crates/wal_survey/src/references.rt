//! The references of records, one after another.

ghost use Rattle.std.specs.Prelude.{◌≡◌, ◌++◌, ◌∷◌, ◌&&◌, ◌||◌, [], ℕ, ℤ, List, count_by, int_le, not, nat_eq, position, slice_get, OnOk};
ghost use Rattle.std.specs.List.{find, flat_map, list_any};
ghost use Rattle.std.specs.Option.{option_map};
ghost use Rattle.wal_record.specs.declared.record.WalRecord.TheVariants.{Samples, Series};
ghost use Rattle.wal_record.specs.Validity.{valid_sample};
ghost use Rattle.wal_log.specs.declared.reading.Placed.{Placed as PlacedRecord};
ghost use Rattle.wal_survey.specs.ReferenceSets.{has};
ghost use Rattle.wal_survey.specs.Keeping.{note_of, notes_of, noted_with, noted_with_all};
ghost use Rattle.wal_survey.specs.Unbound.{AreReferencesOf, IsUnboundIn, series_references, sample_references};

use crate::reference_set::ReferenceSet;
use hash_seed::HashSeed;
use indexmap::IndexMap;
use std::alloc::{AllocError, Global};
use std::marker::Model;
use wal_log::Place;
use wal_record::{SampleEntry, SeriesEntry, WalRecord};

/// A sample's reference that no series entry binds, and the place of the record in which it comes first.
#[derive(Clone, Copy, Debug, PartialEq, Eq)]
pub struct UnboundReference {
    pub reference: u64,
    pub place: Place,
}

/// The references of samples that no series entry binds: how many there are, and the one that comes first, if there is one.
#[derive(Clone, Copy, Debug, PartialEq, Eq)]
pub struct Unbound {
    pub references: u64,
    pub first: Option<UnboundReference>,
}

/// The references that records bind, and those that their samples named before they were bound.
#[derive(Debug)]
pub struct SeenReferences {
    bound: ReferenceSet,
    // the references that were named before they were bound, in the order of first sight, with the place of the record of that sight
    noted: IndexMap<u64, Place, HashSeed>,
    // the least valid time, in milliseconds: no sample before it is noted
    min_valid: i64,
}

// Written out, so that a function that drops one has a call in its proof, and not a copy of this body.
impl Drop for SeenReferences {
    fn drop(self) {
        let SeenReferences {
            bound: _bound,
            noted: _noted,
            min_valid: _min_valid,
        } = self;
    }
}

impl Model for SeenReferences {
    ghost use Rattle.wal_survey.specs.Keeping.{notes_of};
    ghost use Rattle.wal_survey.specs.Unbound.{ReferencesValue};

    ghost Value = { ReferencesValue };

    ghost view = { λ s. record { bound = s.bound; noted = notes_of s.noted.entries; min_valid = s.min_valid } };
}

// Adds the references of series entries to those that are bound.
fn bind(bound: &mut ReferenceSet, series: &[SeriesEntry]) -> Result<(), AllocError>
    ensures { OnOk result ((r : ℕ) → has bound.new r ≡ (list_any (nat_eq r) (series_references series.now) || has bound.old r)) }
{
    for entry in series {
        bound.insert(entry.reference)?;
    }
    Ok(())
}

// Notes a reference with a place, unless it is noted.
fn note(
    noted: &mut IndexMap<u64, Place, HashSeed>,
    reference: u64,
    place: Place,
) -> Result<(), AllocError>
    ensures { OnOk result (notes_of noted.new.entries ≡ noted_with (notes_of noted.old.entries) (record { reference = reference; place = place })) }
{
    if noted.contains_key(&reference) {
        return Ok(());
    }
    noted.insert(reference, place)?;
    Ok(())
}

// Returns whether a sample is not before the least valid time, and its reference not bound.
fn is_lost(bound: &ReferenceSet, min_valid: i64, sample: &SampleEntry) -> bool
    ensures { result ≡ (int_le min_valid sample.now.time && not (has bound.now sample.now.reference)) }
{
    min_valid <= sample.time && !bound.contains(sample.reference)
}

// Notes the references of samples from the least valid time on that are not bound, with the place of their record, unless they are noted.
fn note_all(
    bound: &ReferenceSet,
    min_valid: i64,
    noted: &mut IndexMap<u64, Place, HashSeed>,
    place: Place,
    samples: &[SampleEntry],
) -> Result<(), AllocError>
    ensures { OnOk result (notes_of noted.new.entries ≡ noted_with_all bound.now (notes_of noted.old.entries) place (sample_references (flat_map (valid_sample min_valid) samples.now))) }
{
    for sample in samples {
        if is_lost(bound, min_valid, sample) {
            note(noted, sample.reference, place)?;
        }
    }
    Ok(())
}

// Returns how many references are noted and not bound.
fn count_missing(bound: &ReferenceSet, noted: &IndexMap<u64, Place, HashSeed>) -> usize
    ensures { result ≡ count_by (λ e. not (has bound.now e.0)) noted.now.entries }
{
    noted
        .iter()
        .filter(|(reference, _)| !bound.contains(**reference))
        .count()
}

// Returns the index of the first reference that is noted and not bound.
fn place_missing(bound: &ReferenceSet, noted: &IndexMap<u64, Place, HashSeed>) -> Option<usize>
    ensures { result ≡ position (λ e. not (has bound.now e.0)) noted.now.entries }
{
    noted
        .iter()
        .position(|(reference, _)| !bound.contains(*reference))
}

// Returns the reference that is noted at an index, with its place.
fn note_at(noted: &IndexMap<u64, Place, HashSeed>, at: usize) -> Option<UnboundReference>
    ensures { result ≡ option_map note_of (slice_get noted.now.entries at) }
{
    match noted.get_index(at) {
        Some((reference, place)) => Some(UnboundReference {
            reference: *reference,
            place: *place,
        }),
        None => None,
    }
}

// Returns the first reference that is noted and not bound, with its place.
fn first_missing(
    bound: &ReferenceSet,
    noted: &IndexMap<u64, Place, HashSeed>,
) -> Option<UnboundReference>
    ensures { result ≡ option_map note_of (find (λ e. not (has bound.now e.0)) noted.now.entries) }
{
    match place_missing(bound, noted) {
        Some(at) => note_at(noted, at),
        None => None,
    }
}

impl SeenReferences {
    /// Makes the references of no records, with hashes by a seed, and with the least valid time, in milliseconds: of the samples before it
    /// no reference counts.
    pub fn new(alloc: Global, seed: HashSeed, min_valid: i64) -> SeenReferences
        ensures { AreReferencesOf min_valid [] result }
    {
        SeenReferences {
            bound: ReferenceSet::new(alloc, seed),
            noted: IndexMap::with_hasher(alloc, seed),
            min_valid,
        }
    }

    // Takes a record of series. Returns an error if out of memory.
    fn add_series(&mut self, series: &[SeriesEntry]) -> Result<(), AllocError>
        ensures { (m : ℤ) (placed : List PlacedRecord) (p : PlacedRecord) → p.content ≡ Series series.now → AreReferencesOf m placed self.old → OnOk result (AreReferencesOf m (placed ++ p ∷ []) self.new) }
    {
        bind(&mut self.bound, series)
    }

    // Takes a record of samples at this place. Returns an error if out of memory.
    fn add_samples(&mut self, place: Place, samples: &[SampleEntry]) -> Result<(), AllocError>
        ensures { (m : ℤ) (placed : List PlacedRecord) (p : PlacedRecord) → p.place ≡ place → p.content ≡ Samples samples.now → AreReferencesOf m placed self.old → OnOk result (AreReferencesOf m (placed ++ p ∷ []) self.new) }
    {
        note_all(&self.bound, self.min_valid, &mut self.noted, place, samples)
    }

    /// Takes the next record, at this place: binds the references of its series, and notes those of its samples from the least valid time on
    /// that are not bound yet. Returns an error if out of memory.
    pub fn add(&mut self, place: Place, content: &WalRecord) -> Result<(), AllocError>
        ensures { (m : ℤ) (placed : List PlacedRecord) → AreReferencesOf m placed self.old → OnOk result (AreReferencesOf m (placed ++ record { place = place; content = content.now } ∷ []) self.new) }
    {
        match content {
            WalRecord::Series(series) => self.add_series(series.as_slice()),
            WalRecord::Samples(samples) => self.add_samples(place, samples.as_slice()),
            WalRecord::Stones(_) => Ok(()),
            WalRecord::Other(_) => Ok(()),
        }
    }

    /// Returns the references of the samples from the least valid time on, of all records that were taken, which no series entry of these
    /// records binds, be it before a sample or after it.
    pub fn unbound(&self) -> Unbound
        ensures { (m : ℤ) (placed : List PlacedRecord) → AreReferencesOf m placed self.now → IsUnboundIn m placed result }
    {
        Unbound {
            references: count_missing(&self.bound, &self.noted) as u64,
            first: first_missing(&self.bound, &self.noted),
        }
    }
}
