//! Batches: a worker's items, in the lists in which they came.

ghost use Rattle.std.specs.Prelude.{◌≡◌, ◌+◌, ◌≤◌, ◌<◌, [], All, length, slice_index_or, take, IfOk};
ghost use Rattle.head_deal.specs.Batches.{flat};
ghost use Rattle.head_deal.specs.Entries.{entries};
ghost use Rattle.head_deal.specs.Joining.{numbered, written};

use crate::joining::put;
use crate::parts::Due;
use std::alloc::{AllocError, Global};

/// Items of one worker, with their numbers counted from `base`.
#[derive(Drop)]
pub(crate) struct ItemBatch<I> {
    pub(crate) base: u32,
    pub(crate) dues: Vec<Due<I>>,
}

/// Returns one of the empty lists, or a new one if there is none.
pub(crate) fn empty_list<T: Drop>(alloc: Global, spare: &mut Vec<Vec<T>>) -> Vec<T>
    requires { All (λ l. l.items ≡ []) spare.old.items }
    ensures none { result.items ≡ [] }
    ensures spare { All (λ l. l.items ≡ []) spare.new.items }
{
    match spare.pop() {
        Some(list) => list,
        None => Vec::new(alloc),
    }
}

/// Returns the place of the last batch, to which the item of a number can be added. Begins a batch if none can take it.
pub(crate) fn open_last<I: Drop>(
    batches: &mut Vec<ItemBatch<I>>,
    spare: &mut Vec<Vec<Due<I>>>,
    number: u32,
) -> Result<usize, AllocError>
    requires { All (λ l. l.items ≡ []) spare.old.items }
    ensures spare { All (λ l. l.items ≡ []) spare.new.items }
    ensures same { flat batches.new.items ≡ flat batches.old.items }
    ensures last { IfOk result (λ k. k + 1 ≡ length batches.new.items) }
    ensures base { IfOk result (λ k. (b : _) → (slice_index_or batches.new.items k b).base ≤ number) }
{
    let count = batches.len();
    if count > 0 && batches[count - 1].base <= number {
        return Ok(count - 1);
    }
    let dues = empty_list(*batches.allocator(), spare);
    batches.push(ItemBatch { base: 0, dues })?;
    Ok(count)
}

/// Returns the batch of the item at a place among all, and the item's place in the batch.
pub(crate) fn batch_of<I>(batches: &Vec<ItemBatch<I>>, place: usize) -> (usize, usize)
    requires { place < length (flat batches.now.items) }
    ensures batch { result.0 < length batches.now.items }
    ensures place { (b : _) → result.1 < length (slice_index_or batches.now.items result.0 b).dues.items }
    ensures is { length (flat (take result.0 batches.now.items)) + result.1 ≡ place }
{
    let mut left = place;
    for number in 0..batches.len() {
        let many = batches[number].dues.len();
        if left < many {
            return (number, left);
        }
        left -= many;
    }
    unreachable!()
}

/// Writes each outcome at its item's number.
pub(crate) fn note_outcomes<I, O: Copy>(
    all: &mut Vec<O>,
    batches: &Vec<ItemBatch<I>>,
    outcomes: &Vec<O>,
    workers: usize,
    worker: usize,
)
    requires { length outcomes.now.items ≤ length (flat batches.now.items) }
    ensures { all.new.items ≡ written (numbered (entries worker workers (flat batches.now.items) outcomes.now.items)) all.old.items }
{
    let mut done = 0usize;
    for number in 0..batches.len() {
        let batch = &batches[number];
        let many = (outcomes.len() - done).min(batch.dues.len());
        for place in 0..many {
            let at = batch.base as usize + batch.dues[place].number as usize;
            put(all, at, outcomes[done + place]);
        }
        done += many;
    }
}

/// Drops all items, and keeps their lists, emptied. Keeps no more lists than were used, or than were spare if that is more.
pub(crate) fn empty<I: Drop>(batches: &mut Vec<ItemBatch<I>>, spare: &mut Vec<Vec<Due<I>>>)
    requires { All (λ l. l.items ≡ []) spare.old.items }
    ensures none { flat batches.new.items ≡ [] }
    ensures spare { All (λ l. l.items ≡ []) spare.new.items }
{
    let most = batches.len().max(spare.len());
    while let Some(batch) = batches.pop() {
        let mut dues = batch.dues;
        dues.clear();
        if spare.len() < most {
            // a list that there is no memory to keep is dropped
            let _ = spare.push(dues);
        }
    }
}
