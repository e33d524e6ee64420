//! Applying an item at once, without dealing it.

ghost use Rattle.std.specs.Prelude.{◌≡◌, ◌<◌, [], length, map, IfOk, OnErr, OnOk};
ghost use Rattle.head_deal.specs.AtOnce.{PartApplied};
ghost use Rattle.head_deal.specs.Dealing.{course};
ghost use Rattle.head_deal.specs.Endings.{item_at, told_of};
ghost use Rattle.head_deal.specs.Jobs.{Finished};

use crate::Builder;
use crate::dealing::Deal;
use crate::parts::Part;
use std::alloc::AllocError;

impl<B: Builder> Part<B> {
    // Applies an item to the builder at an element, and returns its outcome. Returns an error, with the builder's value unchanged, if out of
    // memory.
    fn apply(&mut self, element: u32, item: &B::Item) -> Result<B::Outcome, AllocError>
        requires { element < length self.old.slots }
        ensures { PartApplied B.value B.after B.outcome self.old element item.now result self.new }
    {
        self.builders[element as usize].apply(item)
    }
}

impl<B: Builder> Deal<B> {
    /// Applies an item to a slot at once, where no items were dealt, and returns its outcome. Returns an error, with the values of all
    /// builders unchanged, if out of memory.
    pub fn apply(&mut self, slot: u32, item: &B::Item) -> Result<B::Outcome, AllocError>
        requires exists { slot < length self.old.builders }
        requires none { self.old.jobs ≡ [] }
        ensures slots { OnOk result ((course B.value self.new).slots ≡ map (item_at B.after slot item.now) (course B.value self.old).slots) }
        ensures told { IfOk result (λ told. told_of B.outcome slot item.now (course B.value self.old).slots ≡ Finished told) }
        ensures refused { OnErr result (course B.value self.new ≡ course B.value self.old) }
        ensures none { self.new.jobs ≡ [] }
        ensures workers { self.new.workers ≡ self.old.workers }
        ensures builders { length self.new.builders ≡ length self.old.builders }
    {
        let seat = self.seats[slot as usize];
        self.parts[seat.worker as usize].apply(seat.element, item)
    }
}
