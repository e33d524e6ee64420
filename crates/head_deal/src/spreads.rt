//! Spreads: items in lists for workers, before they are dealt.

ghost use Rattle.std.specs.Prelude.{◌≡◌, ◌++◌, ◌∷◌, ◌<◌, ◌^◌, [], ℕ, All, length, min, IfOk, OnOk, OnErr, IfErr};

use crate::Builder;
use crate::batches::empty_list;
use crate::dealing::{Deal, MOST_ITEMS};
use crate::parts::{Due, spare_lists};
use crate::seats::Seats;
use std::alloc::{AllocError, Global};
use std::marker::Model;

/// Items with their slots, in order, kept in a list for each worker of a deal. Any thread can make a spread, and `Deal::deal_all` deals its
/// items at once.
#[derive(Drop)]
pub struct Spread<I> {
    pub(crate) workers: usize,
    pub(crate) count: usize,
    pub(crate) lists: Vec<Vec<Due<I>>>,
}

impl<I> Model for Spread<I> {
    ghost use Rattle.std.specs.Prelude.{◌≤◌, ◌^◌, map};
    ghost use Rattle.head_deal.specs.Spreads.{IsSpread, SpreadValue, spread_items};

    ghost Value = { SpreadValue I };

    ghost view = { λ s. record { workers = s.workers; items = spread_items s.workers s.count (map (λ l. l.items) s.lists.items) } };

    ghost invariant = { λ s.
        IsSpread (record { workers = s.workers; items = spread_items s.workers s.count (map (λ l. l.items) s.lists.items) }) s.count (map (λ l. l.items) s.lists.items) ×
        (s.count ≤ 2 ^ 32) };
}

/// Emptied lists of items that are done. A spread that is made in their memory needs less of its own.
#[derive(Drop)]
pub struct Spare<I> {
    pub(crate) lists: Vec<Vec<Due<I>>>,
}

impl<I> Model for Spare<I> {
    ghost use Rattle.std.specs.Prelude.{◌≡◌, [], ℕ, All, length};

    ghost Value = { ℕ };

    ghost view = { λ s. length s.lists.items };

    ghost invariant = { λ s. All (λ l. l.items ≡ []) s.lists.items };
}

impl<I: Drop> Spread<I> {
    /// Returns a spread of no items, for the workers of a deal. Returns an error if out of memory.
    pub fn new(alloc: Global, seats: &Seats<'_>) -> Result<Spread<I>, AllocError>
        ensures { IfOk result (λ s. s ≡ record { workers = seats.now.workers; items = [] }) }
    {
        let lists = Vec::new(alloc);
        Spread::in_room(alloc, seats, Spare { lists })
    }

    /// Returns a spread of no items, for the workers of a deal, in the memory of spare lists. Returns an error if out of memory.
    pub fn in_room(
        alloc: Global,
        seats: &Seats<'_>,
        spare: Spare<I>,
    ) -> Result<Spread<I>, AllocError>
        ensures { IfOk result (λ s. s ≡ record { workers = seats.now.workers; items = [] }) }
    {
        let workers = seats.workers.number;
        let lists = empty_lists(alloc, spare.lists, workers)?;
        Ok(Spread {
            workers,
            count: 0,
            lists,
        })
    }

    /// Returns the number of workers.
    pub fn workers(&self) -> usize
        ensures { result ≡ self.now.workers }
    {
        self.workers
    }

    /// Adds an item for a slot, after the others. Returns the item as the error, with the spread unchanged, if out of memory or if there are
    /// 2^32 items, the most that a spread can have.
    pub fn put(&mut self, seats: &Seats<'_>, slot: u32, item: I) -> Result<(), I>
        requires exists { slot < seats.now.slots }
        requires alike { seats.now.workers ≡ self.old.workers }
        ensures put { OnOk result (self.new ≡ record self.old { items = self.old.items ++ (slot, item) ∷ [] }) }
        ensures handed_back { IfErr result (λ i. i ≡ item) }
        ensures refused { OnErr result (self.new ≡ self.old) }
    {
        if self.count >= MOST_ITEMS {
            return Err(item);
        }
        let seat = seats.seats[slot as usize];
        let number = self.count as u32;
        let list = &mut self.lists[seat.worker as usize];
        match list.push(Due {
            number,
            element: seat.element,
            item,
        }) {
            Ok(()) => {
                self.count += 1;
                Ok(())
            }
            Err(failed) => Err(failed.value.item),
        }
    }
}

// Returns `count` empty lists: the spare ones, and new ones if these are too few.
fn empty_lists<T: Drop>(
    alloc: Global,
    mut spare: Vec<Vec<T>>,
    count: usize,
) -> Result<Vec<Vec<T>>, AllocError>
    requires { All (λ l. l.items ≡ []) spare.items }
    ensures each { IfOk result (λ lists. length lists.items ≡ count) }
    ensures empty { IfOk result (λ lists. All (λ l. l.items ≡ []) lists.items) }
{
    let mut lists = Vec::with_capacity(alloc, count)?;
    for _place in 0..count {
        lists.push(empty_list(alloc, &mut spare))?;
    }
    Ok(lists)
}

impl<B: Builder> Deal<B> {
    /// Returns the seats of the slots whose numbers fit in a `u32`, by which items are spread.
    pub fn seats(&self) -> Seats<'_>
        ensures workers { result.workers ≡ self.now.workers }
        ensures slots { result.slots ≡ min (length self.now.builders) (2 ^ 32) }
    {
        Seats {
            workers: self.workers,
            seats: &self.seats,
        }
    }

    /// Takes an empty list from each worker that has one, of those whose items `deal_again` dropped. The next call takes others. Returns an
    /// error if out of memory.
    pub fn spare(&mut self, alloc: Global) -> Result<Spare<B::Item>, AllocError>
        ensures { self.new ≡ self.old }
    {
        let lists = spare_lists(alloc, &mut self.parts)?;
        Ok(Spare { lists })
    }
}
