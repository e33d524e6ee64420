//! Joining of parts.

ghost use Rattle.std.specs.Prelude.{
  ◌≡◌,
  ℕ,
  ◌==◌,
  ◌+◌,
  ◌*◌,
  ◌^◌,
  ◌++◌,
  ◌<◌,
  ◌≤◌,
  [],
  length,
  map,
  drop,
  slice_set,
  Some,
  None,
  replicate,
  true,
  false,
  not,
  List,
  Option,
  IfOk,
  IfErr,
  IsErrAnd,
  IsOk,
  OnOk,
  vec_len,
  vec_capacity,
};
ghost use Rattle.std.specs.List.{list_any, flat_map};
ghost use Rattle.std.specs.Prelude.{All};
ghost use Rattle.head_deal.specs.Jobs.{is_queued};
ghost use Rattle.head_deal.specs.Endings.{outcomes};
ghost use Rattle.head_deal.specs.Dealing.{strided, course, ending_values, ending_outcomes};
ghost use Rattle.head_deal.specs.Joining.{
  is_alike,
  has_stranger,
  has_worker,
  has_double,
  lacks,
  has_missing,
  has_unfinished,
  join_fault,
  scatter,
  filled,
  copies_of,
  first_of,
  in_order,
  numbered,
  written,
  IsPartOf,
  IsDeal,
  first_jobs,
  first_slots,
  RefusesJoin,
};

use crate::Builder;
use crate::batches::note_outcomes;
use crate::parts::Part;
use std::alloc::{AllocError, Global};

/// Why parts were not joined: the first of these that holds.
#[derive(Debug, Clone, Copy, PartialEq, Eq)]
pub enum JoinFault {
    /// A part has another tag, worker count or slot count than the first.
    Stranger,
    /// Two parts belong to one worker.
    Doubled,
    /// A worker has no part, or there are no parts.
    Missing,
    /// A part has items left.
    Unfinished,
    /// Out of memory, and nothing else is wrong.
    Memory,
}

/// The ending of a deal: the builders by slot, and the outcomes of all items in the order of dealing.
#[derive(Drop)]
pub struct Joined<B: Builder> {
    pub builders: Vec<B>,
    pub outcomes: Vec<B::Outcome>,
}

/// The error of `join_parts`, with the parts that were passed in.
#[derive(Drop)]
pub struct JoinRefused<B: Builder> {
    pub parts: Vec<Part<B>>,
    pub fault: JoinFault,
}

impl<B: Builder> Part<B> {
    // Returns whether the parts may be of one deal.
    fn is_alike(&self, other: &Part<B>) -> bool
        ensures { result ≡ is_alike self.now other.now }
    {
        self.tag == other.tag && self.workers == other.workers && self.all_slots == other.all_slots
    }

    /// Returns the worker of the part.
    pub fn worker(&self) -> usize
        ensures { result ≡ self.now.worker }
    {
        self.worker
    }

    /// Returns the outcomes of the items that are done, in the order of dealing.
    pub fn outcomes(&self) -> &[B::Outcome]
        ensures { result.now ≡ outcomes self.now.jobs }
    {
        &self.outcomes
    }

    fn is_of(&self, worker: usize) -> bool
        ensures { result ≡ (self.now.worker == worker) }
    {
        self.worker == worker
    }

    fn has_unfinished(&self) -> bool
        ensures { result ≡ list_any (λ job. is_queued job.state) self.now.jobs }
    {
        self.outcomes.len() < self.due_count
    }
}

fn has_stranger<B: Builder>(parts: &[Part<B>]) -> bool
    ensures { result ≡ has_stranger parts.now }
{
    let Some((first, rest)) = parts.split_first() else {
        return false;
    };
    has_unlike(first, rest)
}

fn has_unlike<B: Builder>(first: &Part<B>, rest: &[Part<B>]) -> bool
    ensures { result ≡ list_any (λ part. not (is_alike first.now part)) rest.now }
{
    rest.iter().any(|part| !first.is_alike(part))
}

fn has_worker<B: Builder>(parts: &[Part<B>], worker: usize) -> bool
    ensures { result ≡ has_worker worker parts.now }
{
    parts.iter().any(|part| part.is_of(worker))
}

fn has_unfinished<B: Builder>(parts: &[Part<B>]) -> bool
    ensures { result ≡ has_unfinished parts.now }
{
    parts.iter().any(|part| part.has_unfinished())
}

fn has_double<B: Builder>(parts: &[Part<B>]) -> bool
    ensures { result ≡ has_double parts.now }
{
    for place in 0..parts.len() {
        if has_worker(&parts[place + 1..], parts[place].worker()) {
            return true;
        }
    }
    false
}

fn has_missing<B: Builder>(parts: &[Part<B>]) -> bool
    ensures { result ≡ has_missing parts.now }
{
    let Some((first, _)) = parts.split_first() else {
        return true;
    };
    let workers = first.workers;
    lacks(parts, workers)
}

fn lacks<B: Builder>(parts: &[Part<B>], workers: usize) -> bool
    ensures { result ≡ lacks workers parts.now }
{
    for worker in 0..workers {
        if !has_worker(parts, worker) {
            return true;
        }
    }
    false
}

fn join_fault<B: Builder>(parts: &[Part<B>]) -> Option<JoinFault>
    ensures { result ≡ join_fault parts.now }
{
    if has_stranger(parts) {
        Some(JoinFault::Stranger)
    } else if has_double(parts) {
        Some(JoinFault::Doubled)
    } else if has_missing(parts) {
        Some(JoinFault::Missing)
    } else if has_unfinished(parts) {
        Some(JoinFault::Unfinished)
    } else {
        None
    }
}

impl<B: Builder> Part<B> {
    fn first_outcome(&self) -> Option<B::Outcome>
        ensures { result ≡ first_of (numbered self.now.jobs) }
    {
        self.outcomes.first().copied()
    }
}

fn first_outcome<B: Builder>(parts: &[Part<B>]) -> Option<B::Outcome>
    ensures { result ≡ first_of (flat_map (λ p. numbered p.jobs) parts.now) }
{
    for part in parts {
        if let Some(outcome) = part.first_outcome() {
            return Some(outcome);
        }
    }
    None
}

fn copies<O: Copy>(alloc: Global, outcome: O, count: usize) -> Result<Vec<O>, AllocError>
    ensures { IfOk result (λ v. v.items ≡ replicate count outcome) }
{
    let mut all = Vec::with_capacity(alloc, count)?;
    for _place in 0..count {
        all.push_reserved(outcome);
    }
    Ok(all)
}

// Returns a list of `count` copies of the first outcome, or an empty list if there is none.
fn outcomes_to_write<B: Builder>(
    alloc: Global,
    parts: &[Part<B>],
    count: usize,
) -> Result<Vec<B::Outcome>, AllocError>
    ensures { IfOk result (λ v. v.items ≡ copies_of count (first_of (flat_map (λ p. numbered p.jobs) parts.now))) }
{
    match first_outcome(parts) {
        Some(outcome) => copies(alloc, outcome, count),
        None => Ok(Vec::new(alloc)),
    }
}

// Writes each outcome of the part at its item's number.
fn note_part<B: Builder>(all: &mut Vec<B::Outcome>, part: &Part<B>)
    ensures { all.new.items ≡ written (numbered part.now.jobs) all.old.items }
{
    note_outcomes(
        all,
        &part.batches,
        &part.outcomes,
        part.workers,
        part.worker,
    );
}

// Returns the outcomes of the parts, in the order of dealing.
fn ordered_outcomes<B: Builder>(
    alloc: Global,
    parts: &[Part<B>],
    count: usize,
) -> Result<Vec<B::Outcome>, AllocError>
    ensures { IfOk result (λ v. v.items ≡ in_order count (flat_map (λ p. numbered p.jobs) parts.now)) }
{
    let mut all = outcomes_to_write(alloc, parts, count)?;
    for part in parts {
        note_part(&mut all, part);
    }
    Ok(all)
}

fn nothing<T: Drop>(alloc: Global, count: usize) -> Result<Vec<Option<T>>, AllocError>
    ensures { IfOk result (λ v. v.items ≡ replicate count None) }
{
    let mut places = Vec::new(alloc);
    for _place in 0..count {
        places.push(None)?;
    }
    Ok(places)
}

// Puts each builder at its slot.
fn seat_part<B: Builder>(places: &mut Vec<Option<B>>, part: Part<B>)
    ensures { places.new.items ≡ scatter part.slots places.old.items }
{
    let workers = part.workers;
    let slot = part.worker;
    seat_builders(places, part.builders, slot, workers);
}

fn seat_builders<B: Drop>(
    places: &mut Vec<Option<B>>,
    builders: Vec<B>,
    first: usize,
    workers: usize,
)
    requires { first + length builders.items * workers < 2 ^ 64 }
    ensures { places.new.items ≡ scatter (strided first workers builders.items) places.old.items }
{
    let mut slot = first;
    for builder in builders {
        put(places, slot, Some(builder));
        slot += workers;
    }
}

/// Puts it at the place, if the list has that place.
pub(crate) fn put<T: Drop>(list: &mut Vec<T>, place: usize, it: T)
    ensures { list.new.items ≡ slice_set list.old.items place it }
{
    if place < list.len() {
        list[place] = it;
    }
}

fn seat_parts<B: Builder>(places: &mut Vec<Option<B>>, parts: Vec<Part<B>>)
    ensures seated { places.new.items ≡ scatter (flat_map (λ p. p.slots) parts.items) places.old.items }
{
    for part in parts {
        seat_part(places, part);
    }
}

fn gather<T: Drop>(all: &mut Vec<T>, places: Vec<Option<T>>)
    requires { vec_len all.old + length places.items ≤ vec_capacity all.old }
    ensures { all.new.items ≡ all.old.items ++ filled places.items }
{
    for place in places {
        if let Some(it) = place {
            all.push_reserved(it);
        }
    }
}

/// Joins all parts of a deal, in any order, each run to its end, and returns the deal's ending. Parts with the same tag are taken to be
/// of one deal.
///
/// Returns an error, with the parts, in the cases of [`JoinFault`].
pub fn join_parts<B: Builder>(
    alloc: Global,
    parts: Vec<Part<B>>,
) -> Result<Joined<B>, JoinRefused<B>>
    ensures endings { IfOk result (λ j. (d : _) → IsDeal d → All (IsPartOf B.value B.after B.outcome d) parts.items →
        (map B.value j.builders.items ≡ ending_values B.after (course B.value d)) × (j.outcomes.items ≡ ending_outcomes B.after B.outcome (course B.value d))) }
    ensures joins { OnOk result (join_fault parts.items ≡ None) }
    ensures known { (fault : JoinFault) → join_fault parts.items ≡ Some fault → IsErrAnd result (λ e. e.fault ≡ fault) }
    ensures refused { IfErr result (λ e. RefusesJoin parts.items e.fault) }
    ensures handed_back { IfErr result (λ e. e.parts.items ≡ parts.items) }
    // Joining the part of a lone worker allocates nothing.
    ensures lone { length parts.items ≡ 1 → join_fault parts.items ≡ None → IsOk result }
{
    match join_fault(parts.as_slice()) {
        Some(fault) => Err(JoinRefused { parts, fault }),
        None => join_sound(alloc, parts),
    }
}

// Joins parts of which nothing is wrong.
fn join_sound<B: Builder>(
    alloc: Global,
    mut parts: Vec<Part<B>>,
) -> Result<Joined<B>, JoinRefused<B>>
    requires { join_fault parts.items ≡ None }
    ensures endings { IfOk result (λ j. (d : _) → IsDeal d → All (IsPartOf B.value B.after B.outcome d) parts.items →
        (map B.value j.builders.items ≡ ending_values B.after (course B.value d)) × (j.outcomes.items ≡ ending_outcomes B.after B.outcome (course B.value d))) }
    ensures memory { IfErr result (λ e. (e.parts.items ≡ parts.items) × (e.fault ≡ JoinFault.Memory)) }
    ensures lone { length parts.items ≡ 1 → IsOk result }
{
    if parts.len() > 1 {
        return join_many(alloc, parts);
    }
    match parts.pop() {
        Some(part) => Ok(join_one(part)),
        None => join_many(alloc, parts),
    }
}

// Returns the ending of a lone worker's part, which has all slots in order and all items in the order of dealing.
fn join_one<B: Builder>(part: Part<B>) -> Joined<B>
    ensures worker { part.worker < part.workers }
    ensures builders { result.builders.items ≡ map (λ p. p.1) part.slots }
    ensures outcomes { result.outcomes.items ≡ outcomes part.jobs }
{
    Joined {
        builders: part.builders,
        outcomes: part.outcomes,
    }
}

fn join_many<B: Builder>(alloc: Global, parts: Vec<Part<B>>) -> Result<Joined<B>, JoinRefused<B>>
    ensures builders { IfOk result (λ j. j.builders.items ≡ filled (scatter (flat_map (λ p. p.slots) parts.items) (replicate (first_slots parts.items) None))) }
    ensures outcomes { IfOk result (λ j. j.outcomes.items ≡ in_order (first_jobs parts.items) (flat_map (λ p. numbered p.jobs) parts.items)) }
    ensures memory { IfErr result (λ e. (e.parts.items ≡ parts.items) × (e.fault ≡ JoinFault.Memory)) }
{
    match prepare(alloc, parts.as_slice()) {
        Ok((outcomes, mut places, mut builders)) => {
            seat_parts(&mut places, parts);
            gather(&mut builders, places);
            Ok(Joined { builders, outcomes })
        }
        Err(_) => Err(JoinRefused {
            parts,
            fault: JoinFault::Memory,
        }),
    }
}

// Allocates all that joining needs: the outcomes, a place for each builder, and room for the builders.
fn prepare<B: Builder>(
    alloc: Global,
    parts: &[Part<B>],
) -> Result<(Vec<B::Outcome>, Vec<Option<B>>, Vec<B>), AllocError>
    ensures outcomes { IfOk result (λ r. r.0.items ≡ in_order (first_jobs parts.now) (flat_map (λ p. numbered p.jobs) parts.now)) }
    ensures places { IfOk result (λ r. r.1.items ≡ replicate (first_slots parts.now) None) }
    ensures builders { IfOk result (λ r. (r.2.items ≡ []) × (length r.1.items ≤ vec_capacity r.2)) }
{
    let (count, slots) = counts(parts);
    let outcomes = ordered_outcomes(alloc, parts, count)?;
    let places = nothing(alloc, slots)?;
    let builders = Vec::with_capacity(alloc, slots)?;
    Ok((outcomes, places, builders))
}

/// Returns the number of all items and of all slots, which the first part has noted.
pub(crate) fn counts<B: Builder>(parts: &[Part<B>]) -> (usize, usize)
    ensures { (result.0 ≡ first_jobs parts.now) × (result.1 ≡ first_slots parts.now) }
{
    match parts.split_first() {
        None => (0, 0),
        Some((first, _)) => (first.all_jobs, first.all_slots),
    }
}
