//! Deals: items dealt to the slots of workers.

ghost use Rattle.std.specs.Prelude.{
  ◌≡◌,
  ℕ,
  ◌==◌,
  All,
  filter,
  min,
  ◌+◌,
  ◌*◌,
  ◌/◌,
  ◌^◌,
  ◌++◌,
  ◌∷◌,
  [],
  ◌<◌,
  ◌≤◌,
  ◌↔◌,
  length,
  map,
  List,
  Ok,
  None,
  IsOk,
  IsTrue,
  IfOk,
  OnOk,
  OnErr,
  IfErr,
  IsErrAnd,
  slice_get,
  Some,
  true,
  ◌%◌,
  ◌≢◌,
  slice_index_or,
  vec_capacity,
};
ghost use Rattle.head_deal.specs.Jobs.{Job, Queued, is_queued};
ghost use Rattle.head_deal.specs.Dealing.{AllDone, AreShares, Course, Leads, RefusesDeal, SameEndings, Step, course, end_jobs, end_slots, ending_outcomes, ending_values, front, most_slots};
ghost use Rattle.head_deal.specs.Endings.{item_at, job_endings, outcomes, slot_endings, told};
ghost use Rattle.head_deal.specs.Holding.{AreSeats};
ghost use Rattle.head_deal.specs.Joining.{IsDeal, IsPartOf};
ghost use Rattle.head_deal.specs.Spreads.{dealt_all};
ghost use Rattle.head_deal.specs.declared.Stepped.TheVariants.{Empty};

use crate::parts::{Part, build_parts, count_in, lone_part, queue_all};
use crate::preparing::{prepare, prepare_alone};
use crate::seats::{Seat, make_room, seat_next};
use crate::spread::seat_all;
use crate::spreads::Spread;
use crate::workers::Workers;
use crate::{Builder, Stepped};
use std::alloc::{AllocError, Global};
use std::marker::Model;

// The limit of a deal's slots: plus 64, for the workers, it still fits in a `usize`.
const MOST_SLOTS: usize = usize::MAX - 64;

/// The number of items after which a deal takes no more.
pub const MOST_ITEMS: usize = 1 << 32;

/// Why a deal was not made.
#[derive(Debug, Clone, Copy, PartialEq, Eq)]
pub enum DealFault {
    /// A deal has at least one worker.
    NoWorkers,
    /// A deal has at most 64 workers.
    TooManyWorkers,
    /// Out of memory.
    Memory,
}

/// The error of `Deal::new`, with the builders that were passed in.
#[derive(Drop)]
pub struct DealRefused<B> {
    pub builders: Vec<B>,
    pub fault: DealFault,
}

/// Why a slot was not added.
#[derive(Debug, Clone, Copy, PartialEq, Eq)]
pub enum AddFault {
    /// The deal has 2^64 - 65 slots, the most that it can have.
    Full,
    /// Out of memory.
    Memory,
}

/// The error of `Deal::add`, with the builder that was passed in.
#[derive(Drop)]
pub struct AddRefused<B> {
    pub builder: B,
    pub fault: AddFault,
}

/// Builders in slots, and items dealt to the slots. Slot s belongs to worker s mod `workers`, and each worker has the items of its slots,
/// in the order of dealing.
///
/// Items are applied by `step`, or `into_parts` takes the deal apart and each worker runs its part alone. The final values of the slots
/// and the outcomes of the items are the same both ways.
pub struct Deal<B: Builder> {
    pub(crate) tag: u64,
    pub(crate) workers: Workers,
    pub(crate) slots: usize,
    pub(crate) count: usize,
    pub(crate) seats: Vec<Seat>,
    pub(crate) parts: Vec<Part<B>>,
}

// Written out so that the proof of a function that drops one has one call, and not a copy of this.
impl<B: Builder> Drop for Deal<B> {
    fn drop(self) {
        let Deal {
            tag: _,
            workers: _,
            slots: _,
            count: _,
            seats: _seats,
            parts: _parts,
        } = self;
    }
}

impl<B: Builder> Model for Deal<B> {
    ghost use Rattle.std.specs.Prelude.{◌≡◌, ◌^◌, length, min};
    ghost use Rattle.head_deal.specs.Dealing.{Dealing};
    ghost use Rattle.head_deal.specs.Holding.{AreSeats, Holds, held};

    ghost Value = { Dealing B B.Item B.Outcome };

    ghost view = { λ d. held d.tag d.workers.number d.slots d.count d.parts.items };

    ghost invariant = { λ d. Holds (held d.tag d.workers.number d.slots d.count d.parts.items) d.slots d.count d.parts.items × AreSeats d.workers.number d.seats.items ×
        (length d.seats.items ≡ min d.slots (2 ^ 32)) };
}

impl<B: Builder> Deal<B> {
    /// Returns a deal of no items, with one slot for each builder. Slot s belongs to worker s mod `workers`; there are 1 to 64 workers. The
    /// tag tells the parts of this deal from those of others.
    ///
    /// Returns an error, with the builders, if there are no workers or more than 64, or if out of memory.
    pub fn new(
        alloc: Global,
        tag: u64,
        workers: usize,
        builders: Vec<B>,
    ) -> Result<Deal<B>, DealRefused<B>>
        ensures deal { IfOk result (λ d. d ≡ record { tag = tag; workers = workers; builders = builders.items; jobs = [] }) }
        ensures within { OnOk result ((0 < workers) × (workers ≤ 64)) }
        ensures none { workers ≡ 0 → IsErrAnd result (λ e. e.fault ≡ DealFault.NoWorkers) }
        ensures many { 64 < workers → IsErrAnd result (λ e. e.fault ≡ DealFault.TooManyWorkers) }
        ensures refused { IfErr result (λ e. RefusesDeal workers e.fault) }
        ensures handed_back { IfErr result (λ e. e.builders.items ≡ builders.items) }
    {
        if workers == 0 {
            return Err(DealRefused {
                builders,
                fault: DealFault::NoWorkers,
            });
        }
        let Some(workers) = Workers::new(workers) else {
            return Err(DealRefused {
                builders,
                fault: DealFault::TooManyWorkers,
            });
        };
        match Deal::for_workers(alloc, tag, workers, builders) {
            Ok(deal) => Ok(deal),
            Err(builders) => Err(DealRefused {
                builders,
                fault: DealFault::Memory,
            }),
        }
    }

    /// Returns a deal of no items, as `new` does, for a number of workers that was checked before. Returns the builders as the error if out
    /// of memory.
    pub fn for_workers(
        alloc: Global,
        tag: u64,
        workers: Workers,
        builders: Vec<B>,
    ) -> Result<Deal<B>, Vec<B>>
        ensures deal { IfOk result (λ d. d ≡ record { tag = tag; workers = workers.number; builders = builders.items; jobs = [] }) }
        ensures handed_back { IfErr result (λ back. back.items ≡ builders.items) }
    {
        if workers.number == 1 {
            return Deal::deal_alone(alloc, tag, workers, builders);
        }
        Deal::deal_to(alloc, tag, workers, builders)
    }

    // Returns a deal of one worker, which has all builders in place.
    fn deal_alone(
        alloc: Global,
        tag: u64,
        one: Workers,
        builders: Vec<B>,
    ) -> Result<Deal<B>, Vec<B>>
        requires { one.number ≡ 1 }
        ensures deal { IfOk result (λ d. d ≡ record { tag = tag; workers = one.number; builders = builders.items; jobs = [] }) }
        ensures handed_back { IfErr result (λ back. back.items ≡ builders.items) }
    {
        let slots = builders.len();
        match prepare_alone(alloc, one, slots) {
            Ok((seats, mut parts)) => {
                parts.push_reserved(lone_part(alloc, tag, builders));
                Ok(Deal {
                    tag,
                    workers: one,
                    slots,
                    count: 0,
                    seats,
                    parts,
                })
            }
            Err(_) => Err(builders),
        }
    }

    // Returns a deal of several workers.
    fn deal_to(
        alloc: Global,
        tag: u64,
        workers: Workers,
        builders: Vec<B>,
    ) -> Result<Deal<B>, Vec<B>>
        ensures deal { IfOk result (λ d. d ≡ record { tag = tag; workers = workers.number; builders = builders.items; jobs = [] }) }
        ensures handed_back { IfErr result (λ back. back.items ≡ builders.items) }
    {
        let slots = builders.len();
        match prepare(alloc, workers, slots) {
            Ok((seats, mut rows, mut parts)) => {
                seat_all(&mut rows, builders, workers);
                build_parts(alloc, &mut parts, &mut rows, tag, workers.number, slots);
                Ok(Deal {
                    tag,
                    workers,
                    slots,
                    count: 0,
                    seats,
                    parts,
                })
            }
            Err(_) => Err(builders),
        }
    }

    /// Returns the number of slots, each of which has a builder.
    pub fn slots(&self) -> usize
        ensures { result ≡ length self.now.builders }
    {
        self.slots
    }

    /// Returns the number of workers.
    pub fn workers(&self) -> Workers
        ensures { result.number ≡ self.now.workers }
    {
        self.workers
    }

    /// Returns the number of items that were dealt. A deal of 2^32 or more takes no more; begin a new deal then.
    pub fn items(&self) -> usize
        ensures { result ≡ length self.now.jobs }
    {
        self.count
    }

    /// Adds a slot after the others, with this builder. The endings of the items that were dealt are unchanged.
    ///
    /// Returns an error, with the builder and the deal unchanged, if out of memory or if the deal has 2^64 - 65 slots.
    pub fn add(&mut self, builder: B) -> Result<(), AddRefused<B>>
        ensures added { OnOk result (self.new ≡ record self.old { builders = self.old.builders ++ builder ∷ [] }) }
        ensures slots { OnOk result (end_slots B.after (course B.value self.new) ≡ end_slots B.after (course B.value self.old) ++ (length self.old.builders, B.value builder) ∷ []) }
        ensures items { OnOk result (end_jobs B.after B.outcome (course B.value self.new) ≡ end_jobs B.after B.outcome (course B.value self.old)) }
        ensures handed_back { IfErr result (λ e. e.builder ≡ builder) }
        ensures full { IsErrAnd result (λ e. e.fault ≡ AddFault.Full) ↔ (most_slots ≤ length self.old.builders) }
        ensures refused { OnErr result (self.new ≡ self.old) }
    {
        self.add_last(builder)
    }

    fn add_last(&mut self, builder: B) -> Result<(), AddRefused<B>>
        ensures added { OnOk result (self.new ≡ record self.old { builders = self.old.builders ++ builder ∷ [] }) }
        ensures within { All (λ job. job.slot < length self.old.builders) self.old.jobs }
        ensures handed_back { IfErr result (λ e. e.builder ≡ builder) }
        ensures full { IsErrAnd result (λ e. e.fault ≡ AddFault.Full) ↔ (most_slots ≤ length self.old.builders) }
        ensures refused { OnErr result (self.new ≡ self.old) }
    {
        let slot = self.slots;
        if slot >= MOST_SLOTS {
            let fault = AddFault::Full;
            return Err(AddRefused { builder, fault });
        }
        let fault = AddFault::Memory;
        if make_room(&mut self.seats, slot).is_err() {
            return Err(AddRefused { builder, fault });
        }
        match self.parts[slot % self.workers.number].add(slot, builder) {
            Ok(()) => {
                seat_next(&mut self.seats, slot, self.workers);
                self.slots += 1;
                Ok(())
            }
            Err(builder) => Err(AddRefused { builder, fault }),
        }
    }

    /// Deals an item to a slot, after all that were dealt before. Returns the item as the error, with the deal unchanged, if out of
    /// memory.
    pub fn deal(&mut self, slot: u32, item: B::Item) -> Result<(), B::Item>
        requires exists { slot < length self.old.builders }
        requires numbered { length self.old.jobs < 2 ^ 32 }
        ensures dealt { OnOk result (self.new ≡ record self.old { jobs = self.old.jobs ++ record { number = length self.old.jobs; slot = slot; state = Queued item } ∷ [] }) }
        ensures slots { OnOk result (end_slots B.after (course B.value self.new) ≡ map (item_at B.after slot item) (end_slots B.after (course B.value self.old))) }
        ensures items { OnOk result (end_jobs B.after B.outcome (course B.value self.new) ≡ end_jobs B.after B.outcome (course B.value self.old) ++
            told B.outcome (end_slots B.after (course B.value self.old)) (record { number = length self.old.jobs; slot = slot; state = Queued item }) ∷ []) }
        ensures handed_back { IfErr result (λ i. i ≡ item) }
        ensures refused { OnErr result (self.new ≡ self.old) }
    {
        self.deal_at(slot, item)
    }

    fn deal_at(&mut self, slot: u32, item: B::Item) -> Result<(), B::Item>
        requires exists { slot < length self.old.builders }
        requires numbered { length self.old.jobs < 2 ^ 32 }
        ensures dealt { OnOk result (self.new ≡ record self.old { jobs = self.old.jobs ++ record { number = length self.old.jobs; slot = slot; state = Queued item } ∷ [] }) }
        ensures handed_back { IfErr result (λ i. i ≡ item) }
        ensures refused { OnErr result (self.new ≡ self.old) }
    {
        let seat = self.seats[slot as usize];
        let number = self.count as u32;
        match self.parts[seat.worker as usize].enqueue(number, seat.element, item) {
            Ok(()) => {
                self.count += 1;
                Ok(())
            }
            Err(item) => Err(item),
        }
    }

    /// Deals the items of a spread, one after another, after all that were dealt before. Moves no item: each worker takes its list as it is.
    ///
    /// Returns an error, and drops the deal, if out of memory.
    pub fn deal_all(self, spread: Spread<B::Item>) -> Result<Deal<B>, AllocError>
        requires workers { spread.workers ≡ self.workers }
        requires exist { All (λ p. p.0 < length self.builders) spread.items }
        requires numbered { length self.jobs < 2 ^ 32 }
        ensures dealt { IfOk result (λ d. d ≡ dealt_all self spread.items) }
    {
        let Deal {
            tag,
            workers,
            slots,
            count,
            seats,
            mut parts,
        } = self;
        let more = spread.count;
        queue_all(&mut parts, count as u32, spread.lists)?;
        Ok(Deal {
            tag,
            workers,
            slots,
            count: count + more,
            seats,
            parts,
        })
    }

    /// Applies the first item that a worker has left to its slot, and returns its outcome. Returns an error, with the values of all
    /// builders unchanged, if out of memory.
    pub fn step(&mut self, worker: usize) -> Result<Stepped<B::Outcome>, AllocError>
        requires { worker < self.old.workers }
        ensures step { IfOk result (λ s. Step B.after B.outcome worker (course B.value self.old) s (course B.value self.new)) }
        ensures empty { front worker (course B.value self.old) ≡ None → (result ≡ Ok Empty) × (self.new ≡ self.old) }
        ensures endings { SameEndings B.after B.outcome (course B.value self.old) (course B.value self.new) }
        ensures refused { OnErr result (course B.value self.new ≡ course B.value self.old) }
        ensures tag { self.new.tag ≡ self.old.tag }
        ensures same { (self.new.workers ≡ self.old.workers) × (length self.new.builders ≡ length self.old.builders) }
    {
        self.parts[worker].step()
    }

    /// Returns the part of each worker, in order. Allocates nothing, and never fails.
    pub fn into_parts(self) -> Result<Vec<Part<B>>, (Deal<B>, AllocError)>
        ensures ok { IsOk result }
        ensures few { IfOk result (λ parts. length parts.items ≤ 64) }
        ensures parts { IfOk result (λ parts. AreShares self parts.items) }
        ensures of_deal { IfOk result (λ parts. IsDeal self × All (IsPartOf B.value B.after B.outcome self) parts.items) }
        ensures handed_back { IfErr result (λ e. e.0 ≡ self) }
    {
        let Deal {
            tag: _,
            workers: _,
            slots,
            count,
            seats: _,
            mut parts,
        } = self;
        count_in(&mut parts, slots, count);
        Ok(parts)
    }
}

/// The ending of a slot and of its items depends only on the slot's value and its own items.
pub fn slots_alone<B: Builder>()
    ensures slots { (t : Course B.Value B.Item B.Outcome) (slot : ℕ) →
        filter (λ p. p.0 == slot) (end_slots B.after t) ≡ slot_endings B.after (filter (λ p. p.0 == slot) t.slots) (filter (λ job. job.slot == slot) t.jobs) }
    ensures items { (t : Course B.Value B.Item B.Outcome) (slot : ℕ) →
        filter (λ job. job.slot == slot) (end_jobs B.after B.outcome t) ≡ job_endings B.after B.outcome (filter (λ p. p.0 == slot) t.slots) (filter (λ job. job.slot == slot) t.jobs) }
{}

/// The endings of slots and items do not depend on which workers step, or in which order.
///
/// No step changes an ending (`kept`). Once every item is done, the slots and the items are the endings of the first state: each item
/// applied to its slot, in the order of dealing (`ended`; as plain lists `values` and `outcomes`). While an item is left, its worker can
/// step (`goes_on`).
pub fn deal_theorem<B: Builder>()
    ensures kept { (workers : List ℕ) (old new : Course B.Value B.Item B.Outcome) → Leads B.after B.outcome workers old new → SameEndings B.after B.outcome old new }
    ensures ended { (workers : List ℕ) (old new : Course B.Value B.Item B.Outcome) → Leads B.after B.outcome workers old new → AllDone new.jobs →
        (new.slots ≡ end_slots B.after old) × (new.jobs ≡ end_jobs B.after B.outcome old) }
    ensures values { (workers : List ℕ) (old new : Course B.Value B.Item B.Outcome) → Leads B.after B.outcome workers old new → AllDone new.jobs →
        map (λ p. p.1) new.slots ≡ ending_values B.after old }
    ensures outcomes { (workers : List ℕ) (old new : Course B.Value B.Item B.Outcome) → Leads B.after B.outcome workers old new → AllDone new.jobs →
        outcomes new.jobs ≡ ending_outcomes B.after B.outcome old }
    ensures goes_on { (worker place : ℕ) (t : Course B.Value B.Item B.Outcome) (job : Job B.Item B.Outcome) → slice_get t.jobs place ≡ Some job →
        is_queued job.state ≡ true → job.slot % t.workers ≡ worker → front worker t ≢ None }
{}
