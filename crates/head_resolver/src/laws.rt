//! Laws of the definitions. Each is a function that does nothing; its clauses are the law.

ghost use Rattle.std.specs.Prelude.{◌≡◌, ◌++◌, [], ℕ, ℤ, List, Option, Some, filter, length, map, nat_eq, slice_get};
ghost use Rattle.wal_record.specs.declared.record.WalRecord.{WalRecord as LogRecord};
ghost use Rattle.wal_record.specs.Entries.{Entry, entries_of};
ghost use Rattle.wal_record.specs.Labels.{same_labels};
ghost use Rattle.head_column.specs.declared.items.Item.{Item};
ghost use Rattle.head_series.specs.Bindings.{series_of};
ghost use Rattle.head_series.specs.Table.{Labels, slot_at};
ghost use Rattle.head_series.specs.Texts.{place};
ghost use Rattle.head_resolver.specs.Owners.{bindings};
ghost use Rattle.head_resolver.specs.Taken.{Taken, taken_of, taken_with};
ghost use Rattle.head_resolver.specs.Counts.{items_of, known};
ghost use Rattle.head_resolver.specs.Resolved.{resolved, slot_behind, IsResolved, ResolverValue};
ghost use Rattle.head_resolver.specs.Changes.{slot_before, Change};
ghost use Rattle.head_resolver.specs.Ahead.{AreSpreadAt, IsAhead};
ghost use Rattle.head_resolver.specs.Steps.{no_counts};

/// An item's slot stays its owner's slot, since later entries move no series. So the items that were resolved to a slot are those that
/// the label set of the slot owns, in order.
pub fn slots_stay()
    ensures series { (es more : List Entry) → (later : List Labels) × (series_of (bindings (es ++ more)) ≡ series_of (bindings es) ++ later) }
    ensures places { (es : List Entry) →
        map {B = Option ℕ × Item} (λ k. (Some k.0, k.1)) (resolved es) ≡
        map {B = Option ℕ × Item} (λ k. (place (same_labels k.0) (series_of (bindings es)), k.1)) (known es) }
    ensures items { (es : List Entry) (s : ℕ) (l : Labels) → slice_get (series_of (bindings es)) s ≡ Some l → map (λ k. k.1) (filter (λ k. nat_eq s k.0) (resolved es)) ≡ items_of l es }
{}

/// What is taken of more records with the same least valid time is taken of all (`taken`).
pub fn spread_records()
    ensures taken { (m : ℤ) (rs more : List LogRecord) → taken_with m (taken_of m rs) more ≡ taken_of m (rs ++ more) }
{}

/// A window of records begins with none (`start`), and its records that bind nothing need no binding (`quiet`). Where its bindings were
/// made ahead, a reference has at each place the slot that it has after the records before that place (`places`). Where all of its records
/// were taken, what was taken of the log is resolved (`done`). Of no records nothing is spread (`none`).
pub fn spread_ahead()
    ensures start { (t : Taken) (v : ResolverValue) → IsResolved t v → IsAhead t [] [] [] v }
    ensures quiet { (t : Taken) (front back more : List LogRecord) (cs : List Change) (v : ResolverValue) → IsAhead t front back cs v → bindings (entries_of more) ≡ [] → IsAhead t front (back ++ more) cs v }
    ensures places { (t : Taken) (front back : List LogRecord) (cs : List Change) (v : ResolverValue) → IsAhead t front back cs v → (before behind : List LogRecord) → front ++ back ≡ before ++ behind →
        (r : ℕ) → slot_before cs (slot_at v.table) (length before) r ≡ slot_behind (entries_of (taken_with v.min_valid t before).kept) r }
    ensures done { (t : Taken) (rs : List LogRecord) (cs : List Change) (v : ResolverValue) → IsAhead t rs [] cs v → IsResolved (taken_with v.min_valid t rs) v }
    ensures none { (m : ℤ) (slots : ℕ → ℕ → Option ℕ) (n : ℕ) → AreSpreadAt m slots n [] [] no_counts }
{}
