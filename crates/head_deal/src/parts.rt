//! Parts: the builders and items of one worker.

ghost use Rattle.std.specs.Prelude.{◌≡◌, ℕ, ◌<◌, ◌≤◌, ◌+◌, ◌*◌, ◌^◌, ◌++◌, ◌∷◌, [], length, replicate, All, OnOk, OnErr, IfErr, IfOk, IfSome, slice_index_or, vec_capacity};
ghost use Rattle.head_deal.specs.Batches.{flat, queued_as};
ghost use Rattle.head_deal.specs.Dealing.{strided, share_course, share_lists, SameEndings, AllDone, StoppedAt, FitsIn, Kept, Leads};
ghost use Rattle.head_deal.specs.Entries.{entries};
ghost use Rattle.head_deal.specs.Holding.{PartStep};
ghost use Rattle.head_deal.specs.Jobs.{Queued};

use crate::batches::{ItemBatch, batch_of, empty, open_last};
use crate::{Builder, Stepped};
use std::alloc::{AllocError, Global};
use std::marker::Model;
use std::mem;

/// An item for a worker: its number in the order of dealing, counted from a base, and the element of its builder among the worker's
/// builders.
#[derive(Drop)]
pub(crate) struct Due<I> {
    pub(crate) number: u32,
    pub(crate) element: u32,
    pub(crate) item: I,
}

/// One worker's part of a deal: the builders of its slots, in ascending order, its items in the order of dealing, and the outcomes of
/// the first items, which are done. The numbers of all slots and items are noted when the deal is taken apart.
#[derive(Drop)]
pub struct Part<B: Builder> {
    pub(crate) tag: u64,
    pub(crate) workers: usize,
    pub(crate) worker: usize,
    pub(crate) all_slots: usize,
    pub(crate) all_jobs: usize,
    pub(crate) builders: Vec<B>,
    pub(crate) due_count: usize,
    pub(crate) batches: Vec<ItemBatch<B::Item>>,
    pub(crate) spare: Vec<Vec<Due<B::Item>>>,
    pub(crate) outcomes: Vec<B::Outcome>,
}

impl<B: Builder> Model for Part<B> {
    ghost use Rattle.std.specs.Prelude.{List, [], ◌≡◌, ◌<◌, ◌≤◌, ◌+◌, ◌*◌, ◌^◌, ℕ, All, length};
    ghost use Rattle.head_deal.specs.Dealing.{Share, strided};
    ghost use Rattle.head_deal.specs.Batches.{flat};
    ghost use Rattle.head_deal.specs.Entries.{entries};

    ghost Value = { Share B B.Item B.Outcome };

    ghost view = { λ p. record {
      tag = p.tag;
      workers = p.workers;
      worker = p.worker;
      all_slots = p.all_slots;
      all_jobs = p.all_jobs;
      slots = strided p.worker p.workers p.builders.items;
      jobs = entries p.worker p.workers (flat p.batches.items) p.outcomes.items;
    } };

    ghost invariant = { λ p. (p.worker < p.workers) × All (λ due. due.element < length p.builders.items) (flat p.batches.items) ×
        (length p.outcomes.items ≤ length (flat p.batches.items)) × (p.worker + length p.builders.items * p.workers < 2 ^ 64) ×
        (p.due_count ≡ length (flat p.batches.items)) × All (λ l. l.items ≡ []) p.spare.items };
}

/// Applies the items that a part has left, in the order of dealing. Returns an error, and stops at the item that was refused, if out of
/// memory; a later call goes on from there.
pub fn run_part<B: Builder>(part: &mut Part<B>) -> Result<(), AllocError>
    ensures kept { Kept B.value B.after B.outcome part.old part.new }
    // Only steps of its worker are taken.
    ensures steps { (n : ℕ) × Leads B.after B.outcome (replicate n part.old.worker) (share_course B.value part.old) (share_course B.value part.new) }
    ensures done { OnOk result (AllDone part.new.jobs) }
    ensures stopped { OnErr result ((place : ℕ) × StoppedAt part.old.jobs part.new.jobs place) }
{
    run_dues(
        &mut part.builders,
        &part.batches,
        part.due_count,
        &mut part.outcomes,
        part.workers,
        part.worker,
    )
}

fn run_dues<B: Builder>(
    builders: &mut Vec<B>,
    batches: &Vec<ItemBatch<B::Item>>,
    count: usize,
    outcomes: &mut Vec<B::Outcome>,
    workers: usize,
    worker: usize,
) -> Result<(), AllocError>
    requires workers { worker < workers }
    requires fit { All (λ due. due.element < length builders.old.items) (flat batches.now.items) }
    requires some { length outcomes.old.items ≤ length (flat batches.now.items) }
    requires count { count ≡ length (flat batches.now.items) }
    ensures endings { SameEndings B.after B.outcome (share_lists B.value workers worker builders.old.items (entries worker workers (flat batches.now.items) outcomes.old.items))
        (share_lists B.value workers worker builders.new.items (entries worker workers (flat batches.now.items) outcomes.new.items)) }
    ensures steps { (n : ℕ) ×
        Leads B.after B.outcome (replicate n worker) (share_lists B.value workers worker builders.old.items (entries worker workers (flat batches.now.items) outcomes.old.items))
        (share_lists B.value workers worker builders.new.items (entries worker workers (flat batches.now.items) outcomes.new.items)) }
    ensures done { OnOk result (AllDone (entries worker workers (flat batches.now.items) outcomes.new.items)) }
    ensures stopped { OnErr result ((place : ℕ) ×
        StoppedAt (entries worker workers (flat batches.now.items) outcomes.old.items) (entries worker workers (flat batches.now.items) outcomes.new.items) place) }
    ensures builders { length builders.new.items ≡ length builders.old.items }
    ensures outcomes { length outcomes.new.items ≤ length (flat batches.now.items) }
{
    // how many of the items to come are done
    let mut done = outcomes.len();
    outcomes.reserve(count - done)?;
    for number in 0..batches.len() {
        let dues = &batches[number].dues;
        let first = done.min(dues.len());
        for place in first..dues.len() {
            let due = &dues[place];
            let builder = &mut builders[due.element as usize];
            match builder.apply(&due.item) {
                Ok(outcome) => outcomes.push_reserved(outcome),
                Err(refused) => return Err(refused),
            }
        }
        done -= first;
    }
    Ok(())
}

impl<B: Builder> Part<B> {
    /// Adds an item for the builder at an element.
    pub(crate) fn enqueue(
        &mut self,
        number: u32,
        element: u32,
        item: B::Item,
    ) -> Result<(), B::Item>
        requires { element < length self.old.slots }
        ensures taken { OnOk result (self.new ≡ record self.old { jobs = self.old.jobs ++ record { number = number; slot = self.old.worker + element * self.old.workers; state = Queued item } ∷ [] }) }
        ensures refused { OnErr result (self.new ≡ self.old) }
        ensures handed_back { IfErr result (λ i. i ≡ item) }
    {
        let Some(count) = self.due_count.checked_add(1) else {
            return Err(item);
        };
        let Ok(place) = open_last(&mut self.batches, &mut self.spare, number) else {
            return Err(item);
        };
        let batch = &mut self.batches[place];
        let number = number - batch.base;
        match batch.dues.push(Due {
            number,
            element,
            item,
        }) {
            Ok(()) => {
                self.due_count = count;
                Ok(())
            }
            Err(failed) => Err(failed.value.item),
        }
    }

    /// Adds a list of items, with their numbers counted from `base`.
    pub(crate) fn queue(&mut self, base: u32, dues: Vec<Due<B::Item>>) -> Result<(), AllocError>
        requires { All (λ due. due.element < length self.old.slots) dues.items }
        ensures { OnOk result (self.new ≡ record self.old { jobs = self.old.jobs ++ queued_as self.old.worker self.old.workers base dues.items }) }
    {
        let Some(count) = self.due_count.checked_add(dues.len()) else {
            return Err(AllocError);
        };
        self.batches.push(ItemBatch { base, dues })?;
        self.due_count = count;
        Ok(())
    }

    /// Applies the first item that is left, and returns its outcome.
    pub(crate) fn step(&mut self) -> Result<Stepped<B::Outcome>, AllocError>
        ensures { PartStep B.value B.after B.outcome self.old result self.new }
    {
        let place = self.outcomes.len();
        if place >= self.due_count {
            return Ok(Stepped::Empty);
        }
        let (batch, at) = batch_of(&self.batches, place);
        let due = &self.batches[batch].dues[at];
        let builder = &mut self.builders[due.element as usize];
        match self.outcomes.reserve(1) {
            Ok(()) => {}
            Err(refused) => return Err(refused),
        }
        match builder.apply(&due.item) {
            Ok(outcome) => {
                self.outcomes.push_reserved(outcome);
                Ok(Stepped::Done(outcome))
            }
            Err(refused) => Err(refused),
        }
    }

    /// Adds the builder of the worker's next slot, one stride after its last.
    pub(crate) fn add(&mut self, slot: usize, builder: B) -> Result<(), B>
        requires next { slot ≡ self.old.worker + length self.old.slots * self.old.workers }
        requires small { slot + self.old.workers < 2 ^ 64 }
        ensures added { OnOk result (self.new ≡ record self.old { slots = self.old.slots ++ (slot, builder) ∷ [] }) }
        ensures refused { OnErr result (self.new ≡ self.old) }
        ensures handed_back { IfErr result (λ b. b ≡ builder) }
    {
        match self.builders.push(builder) {
            Ok(()) => Ok(()),
            Err(failed) => Err(failed.value),
        }
    }

    fn count_all(&mut self, slots: usize, count: usize)
        ensures { self.new ≡ record self.old { all_slots = slots; all_jobs = count } }
    {
        self.all_slots = slots;
        self.all_jobs = count;
    }
}

impl<B: Builder> Part<B> {
    // Drops its items, and takes another tag. Keeps the lists of the items, emptied.
    fn begin(&mut self, tag: u64)
        ensures { self.new ≡ record self.old { tag = tag; all_jobs = 0; jobs = [] } }
    {
        self.tag = tag;
        self.all_jobs = 0;
        self.due_count = 0;
        empty(&mut self.batches, &mut self.spare);
        self.outcomes.clear();
    }

    // Returns an empty list that the part has kept, if there is one.
    fn take_spare(&mut self) -> Option<Vec<Due<B::Item>>>
        ensures same { self.new ≡ self.old }
        ensures empty { IfSome result (λ l. l.items ≡ []) }
    {
        self.spare.pop()
    }
}

/// Returns an empty list of each part that has kept one.
pub(crate) fn spare_lists<B: Builder>(
    alloc: Global,
    parts: &mut Vec<Part<B>>,
) -> Result<Vec<Vec<Due<B::Item>>>, AllocError>
    ensures same { parts.new.items ≡ parts.old.items }
    ensures empty { IfOk result (λ lists. All (λ l. l.items ≡ []) lists.items) }
{
    let mut lists = Vec::with_capacity(alloc, parts.len())?;
    for place in 0..parts.len() {
        if let Some(list) = parts[place].take_spare() {
            lists.push(list)?;
        }
    }
    Ok(lists)
}

/// Drops the items of each part, and gives the parts another tag.
pub(crate) fn begin_all<B: Builder>(parts: &mut Vec<Part<B>>, tag: u64)
    ensures each { length parts.new.items ≡ length parts.old.items }
    ensures begun { (k : ℕ) (p : _) → k < length parts.old.items → slice_index_or parts.new.items k p ≡ record (slice_index_or parts.old.items k p) { tag = tag; all_jobs = 0; jobs = [] } }
{
    for place in 0..parts.len() {
        parts[place].begin(tag);
    }
}

/// Adds to each part its list of items, with their numbers counted from `base`.
pub(crate) fn queue_all<B: Builder>(
    parts: &mut Vec<Part<B>>,
    base: u32,
    mut lists: Vec<Vec<Due<B::Item>>>,
) -> Result<(), AllocError>
    requires each { length lists.items ≡ length parts.old.items }
    requires fit { (k : ℕ) (p : _) (l : _) → k < length parts.old.items →
        All (λ due. due.element < length (slice_index_or parts.old.items k p).slots) (slice_index_or lists.items k l).items }
    ensures each { length parts.new.items ≡ length parts.old.items }
    ensures queued { OnOk result ((k : ℕ) (p : _) (l : _) → k < length parts.old.items →
        slice_index_or parts.new.items k p ≡ record (slice_index_or parts.old.items k p) {
          jobs = (slice_index_or parts.old.items k p).jobs ++
              queued_as (slice_index_or parts.old.items k p).worker (slice_index_or parts.old.items k p).workers base (slice_index_or lists.items k l).items;
        }) }
{
    let alloc = *lists.allocator();
    for place in 0..parts.len() {
        let list = mem::replace(&mut lists[place], Vec::new(alloc));
        parts[place].queue(base, list)?;
    }
    Ok(())
}

/// Notes in each part the number of all slots and of all items.
pub(crate) fn count_in<B: Builder>(parts: &mut Vec<Part<B>>, slots: usize, count: usize)
    ensures each { length parts.new.items ≡ length parts.old.items }
    ensures counted { (k : ℕ) (p : _) → k < length parts.old.items → slice_index_or parts.new.items k p ≡ record (slice_index_or parts.old.items k p) { all_slots = slots; all_jobs = count } }
{
    for place in 0..parts.len() {
        parts[place].count_all(slots, count);
    }
}

/// Returns the part of a lone worker, with all builders and no items.
pub(crate) fn lone_part<B: Builder>(alloc: Global, tag: u64, builders: Vec<B>) -> Part<B>
    ensures { result ≡ record { tag = tag; workers = 1; worker = 0; all_slots = length builders.items; all_jobs = 0; slots = strided 0 1 builders.items; jobs = [] } }
{
    Part {
        tag,
        workers: 1,
        worker: 0,
        all_slots: builders.len(),
        all_jobs: 0,
        builders,
        due_count: 0,
        batches: Vec::new(alloc),
        spare: Vec::new(alloc),
        outcomes: Vec::new(alloc),
    }
}

/// Makes a part of no items out of each row of builders.
pub(crate) fn build_parts<B: Builder>(
    alloc: Global,
    parts: &mut Vec<Part<B>>,
    rows: &mut Vec<Vec<B>>,
    tag: u64,
    workers: usize,
    all_slots: usize,
)
    requires empty { parts.old.items ≡ [] }
    requires room { workers ≤ vec_capacity parts.old }
    requires rows { length rows.old.items ≡ workers }
    requires seated { (k : ℕ) (d : _) → k < workers → k + length (slice_index_or rows.old.items k d).items * workers < all_slots + workers }
    requires small { all_slots + workers < 2 ^ 64 }
    ensures each { length parts.new.items ≡ workers }
    ensures built { (k : ℕ) (p : _) (d : _) → k < workers →
        slice_index_or parts.new.items k p ≡ record {
          tag = tag;
          workers = workers;
          worker = k;
          all_slots = all_slots;
          all_jobs = 0;
          slots = strided k workers (slice_index_or rows.old.items k d).items;
          jobs = [];
        } }
{
    for worker in 0..workers {
        let builders = mem::replace(&mut rows[worker], Vec::new(alloc));
        parts.push_reserved(Part {
            tag,
            workers,
            worker,
            all_slots,
            all_jobs: 0,
            builders,
            due_count: 0,
            batches: Vec::new(alloc),
            spare: Vec::new(alloc),
            outcomes: Vec::new(alloc),
        });
    }
}
