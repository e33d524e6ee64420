//! Room for bindings, made before they are.

ghost use Rattle.std.specs.Prelude.{◌≡◌, ◌+◌, ◌<◌, ◌≤◌, ◌++◌, ◌∷◌, [], ℕ, Some, None, Err, false, List, length, IfOk, OnOk};
ghost use Rattle.head_series.specs.Bindings.{Binding};
ghost use Rattle.series_references.specs.ReferenceSlots.{low_end};
ghost use Rattle.head_series.specs.Room.{Fits, IsPlanOf, IsReserved};
ghost use Rattle.head_series.specs.Table.{has_series, AreAlike};

use crate::plan::Plan;
use crate::ready::Ready;
use crate::table::{BindFault, SeriesTable};
use std::alloc::AllocError;
use wal_record::LabelSet;

impl SeriesTable {
    /// Returns a plan of no bindings, for bindings in this table. Allocates nothing.
    pub fn plan(&self) -> Plan
        ensures { IsReserved self.now [] result }
    {
        // give the proof that neither passes the limit
        let _series = self.len();
        let _texts = self.texts.len();
        Plan::new(*self.rows.allocator(), self.seed)
    }

    /// Makes room for one more binding, after those of a plan, and adds it to the plan. Returns what `bind_ready` takes.
    ///
    /// Returns `Full` only if the bindings of the plan and this one pass the limit of series or of texts, and `Memory` if out of memory;
    /// the plan is then of no use, and is to be dropped. In each case, and also if the result is dropped, the table's content is
    /// unchanged.
    pub fn reserve(
        &mut self,
        plan: &mut Plan,
        reference: u64,
        labels: &LabelSet,
    ) -> Result<Ready, BindFault>
        ensures kept { AreAlike self.old self.new }
        ensures ready { IfOk result (λ ready. ready ≡ labels.now) }
        ensures room { (bs : List Binding) → IsReserved self.old bs plan.old → OnOk result (IsReserved self.new (bs ++ (record { reference = reference; labels = labels.now }) ∷ []) plan.new) }
        ensures full { (bs : List Binding) → IsReserved self.old bs plan.old → result ≡ Err BindFault.Full →
            Fits self.old.most self.old.series self.old.texts (bs ++ (record { reference = reference; labels = labels.now }) ∷ []) → ⊥ }
        // At the limit of series a new one is refused before anything is allocated.
        ensures limit { has_series self.old.series labels.now ≡ false → has_series plan.old.series labels.now ≡ false →
            self.old.most ≤ length self.old.series + length plan.old.series → result ≡ Err BindFault.Full }
    {
        if plan.is_at_limit(self, self.most, labels) {
            return Err(BindFault::Full);
        }
        let ready = Ready::new(*self.rows.allocator(), labels)?;
        self.note(plan, labels)?;
        plan.count(reference, labels)?;
        self.grow(plan, reference)?;
        Ok(ready)
    }

    // Adds to a plan what a label set makes new.
    fn note(&self, plan: &mut Plan, labels: &LabelSet) -> Result<(), BindFault>
        ensures plan { (bs : List Binding) (r : ℕ) → IsPlanOf self.now bs plan.old → OnOk result (IsPlanOf self.now (bs ++ (record { reference = r; labels = labels.now }) ∷ []) plan.new) }
        ensures full { (bs : List Binding) (r : ℕ) → IsPlanOf self.now bs plan.old → result ≡ Err BindFault.Full →
            Fits self.now.most self.now.series self.now.texts (bs ++ (record { reference = r; labels = labels.now }) ∷ []) → ⊥ }
        ensures bindings { plan.new.bindings ≡ plan.old.bindings }
        ensures texts_most { plan.new.texts_most ≡ plan.old.texts_most }
        ensures high { plan.new.high ≡ plan.old.high }
    {
        match self.find_labels(labels) {
            Some(_) => return Ok(()),
            None => {}
        }
        match plan.series.bind(0, labels) {
            Ok(bound) => {
                if !bound.created {
                    return Ok(());
                }
            }
            Err(_) => return Err(BindFault::Memory),
        }
        match self.texts.note(&mut plan.texts, labels) {
            Ok(()) => {}
            Err(_) => return Err(BindFault::Memory),
        }
        let series = self.len() as u64 + plan.series.len() as u64;
        let texts = self.texts.len() as u64 + plan.texts.len() as u64;
        if series > self.most as u64 {
            return Err(BindFault::Full);
        }
        if texts > self.most as u64 {
            return Err(BindFault::Full);
        }
        Ok(())
    }

    // Makes room for as much as a plan counts, and for the slot of a reference.
    fn grow(&mut self, plan: &Plan, reference: u64) -> Result<(), AllocError>
        ensures kept { AreAlike self.old self.new }
        ensures rows { OnOk result (plan.now.bindings ≤ self.new.room.rows) }
        ensures lower_bounds { OnOk result (plan.now.bindings ≤ self.new.room.lower_bounds) }
        ensures last_by_hash { OnOk result (plan.now.bindings ≤ self.new.room.last_by_hash) }
        ensures texts { OnOk result (plan.now.texts_most ≤ self.new.room.texts) }
        ensures places { self.old.room.places ≤ self.new.room.places }
        ensures place { OnOk result (reference < low_end → reference < self.new.room.places) }
        ensures high { OnOk result (plan.now.high ≤ self.new.room.high) }
    {
        self.rows.reserve(plan.bindings)?;
        self.references.reserve_series(plan.bindings)?;
        self.last_by_hash.reserve(plan.bindings)?;
        self.texts.reserve(plan.texts_most)?;
        self.references.make_room(reference, plan.high)?;
        Ok(())
    }
}
