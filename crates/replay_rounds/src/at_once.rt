//! Items that the calling thread applies at once.

ghost use Rattle.std.specs.Prelude.{◌≡◌, ◌++◌, ◌∷◌, ◌<◌, [], ℕ, List, All, Err, OnOk, length, true};
ghost use Rattle.head_column.specs.declared.items.Item.{Item as AnItem};
ghost use Rattle.head_resolver.specs.declared.counts.Counts.{Counts as TheCounts};
ghost use Rattle.head_resolver.specs.Limits.{AreCountsWithin};
ghost use Rattle.head_core.specs.Applied.{outcomes_after, AreCountsOfOutcomes};
ghost use Rattle.replay_rounds.specs.Dealt.{HasDealt};

use crate::counting::count_outcome;
use crate::fault::RoundFault;
use crate::rounds::Rounds;
use crate::series_builder::SeriesBuilder;
use crew::{Crew, Gate};
use head_column::Item;
use head_core::Slot;
use std::alloc::Global;
use std::sync::Wait;
use std::thread::Threads;

impl<B: SeriesBuilder + Send> Rounds<B> {
    // Applies an item to the builder in its slot, and counts its outcome. No items were dealt before.
    fn apply_item(&mut self, slot: Slot, item: &Item) -> Result<(), RoundFault>
        requires exists { slot < length self.old.deal.builders }
        requires none { self.old.deal.jobs ≡ [] }
        ensures ends { (slots : List (ℕ × B.Value)) (before : List (ℕ × AnItem)) → HasDealt B.value B.after B.outcome slots before self.old →
            OnOk result (HasDealt B.value B.after B.outcome slots (before ++ (slot, item.now) ∷ []) self.new) }
        ensures none { self.new.deal.jobs ≡ [] }
        ensures workers { self.new.deal.workers ≡ self.old.deal.workers }
        ensures builders { length self.new.deal.builders ≡ length self.old.deal.builders }
        ensures full { result ≡ Err RoundFault.Full → (slots : List (ℕ × B.Value)) (before more : List (ℕ × AnItem)) (c : TheCounts) →
            HasDealt B.value B.after B.outcome slots before self.old →
            AreCountsOfOutcomes (outcomes_after B.after B.outcome slots (before ++ (slot, item.now) ∷ more)) c → AreCountsWithin c → ⊥ }
    {
        let Ok(outcome) = self.deal.apply(slot.number(), item) else {
            return Err(RoundFault::Memory);
        };
        Ok(count_outcome(&mut self.counts, outcome)?)
    }

    // Applies items, each to the builder in its slot. No items were dealt before.
    fn apply_items(&mut self, items: &[(Slot, Item)]) -> Result<(), RoundFault>
        requires within { All (λ item. item.0 < length self.old.deal.builders) items.now }
        requires none { self.old.deal.jobs ≡ [] }
        ensures ends { (slots : List (ℕ × B.Value)) (before : List (ℕ × AnItem)) → HasDealt B.value B.after B.outcome slots before self.old →
            OnOk result (HasDealt B.value B.after B.outcome slots (before ++ items.now) self.new) }
        ensures workers { OnOk result (self.new.deal.workers ≡ self.old.deal.workers) }
        ensures builders { OnOk result (length self.new.deal.builders ≡ length self.old.deal.builders) }
        ensures full { result ≡ Err RoundFault.Full → (slots : List (ℕ × B.Value)) (before : List (ℕ × AnItem)) (c : TheCounts) →
            HasDealt B.value B.after B.outcome slots before self.old →
            AreCountsOfOutcomes (outcomes_after B.after B.outcome slots (before ++ items.now)) c → AreCountsWithin c → ⊥ }
    {
        for taken in items {
            let (slot, item) = *taken;
            self.apply_item(slot, &item)?;
        }
        Ok(())
    }

    // Returns whether the calling thread is to apply items: no other thread would do it sooner, and none were dealt before.
    fn is_at_once(&self) -> bool
        ensures { result ≡ true → self.now.deal.jobs ≡ [] }
    {
        self.deal.items() == 0 && (B::is_light() || self.workers().number == 1)
    }

    /// Applies items, each to the builder in its slot, or deals them, where workers are to apply them. The final values are the same,
    /// whatever the number of workers.
    pub fn take_items<R: Threads + Wait + Sync, G: Gate + Sync>(
        &mut self,
        crew: &Crew<'_, R, G>,
        alloc: Global,
        items: &[(Slot, Item)],
    ) -> Result<(), RoundFault>
        requires within { All (λ item. item.0 < length self.old.deal.builders) items.now }
        ensures ends { (slots : List (ℕ × B.Value)) (before : List (ℕ × AnItem)) → HasDealt B.value B.after B.outcome slots before self.old →
            OnOk result (HasDealt B.value B.after B.outcome slots (before ++ items.now) self.new) }
        ensures workers { OnOk result (self.new.deal.workers ≡ self.old.deal.workers) }
        ensures builders { OnOk result (length self.new.deal.builders ≡ length self.old.deal.builders) }
        ensures full { result ≡ Err RoundFault.Full → (slots : List (ℕ × B.Value)) (before : List (ℕ × AnItem)) (c : TheCounts) →
            HasDealt B.value B.after B.outcome slots before self.old →
            AreCountsOfOutcomes (outcomes_after B.after B.outcome slots (before ++ items.now)) c → AreCountsWithin c → ⊥ }
    {
        if self.is_at_once() {
            return self.apply_items(items);
        }
        self.deal_items(crew, alloc, items)
    }
}
