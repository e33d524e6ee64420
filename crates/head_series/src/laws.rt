//! Laws of the definitions. Each is a function that does nothing; its clauses are the law.

ghost use Rattle.std.specs.Prelude.{◌≡◌, ◌<◌, ◌≤◌, ◌∷◌, [], ℕ, List, Option, Some, length, map};
ghost use Rattle.std.specs.Option.{option_and_then};
ghost use Rattle.wal_record.specs.Labels.{same_labels};
ghost use Rattle.hw_bytes.specs.Lists.{IsGreatest};
ghost use Rattle.head_series.specs.Bindings.{Binding, greatest_of, owner, IsTableOf};
ghost use Rattle.head_series.specs.Room.{HasRoom};
ghost use Rattle.head_series.specs.Table.{Table, labels_at, slot_at, IsLeast};
ghost use Rattle.head_series.specs.Texts.{place};

/// The greatest reference of some bindings is one of their references, and none is greater; and there is just one such reference.
pub fn greatest_reference()
    ensures is { (bs : List Binding) → IsGreatest (λ q r. q ≤ r) (map (λ b. b.reference) bs) (greatest_of bs) }
    ensures one { (rs : List ℕ) (g h : Option ℕ) → IsGreatest (λ q r. q ≤ r) rs g → IsGreatest (λ q r. q ≤ r) rs h → g ≡ h }
{}

/// In a table of bindings the slot of a reference is the place of its owner among the series. A reference without an owner has no
/// slot.
pub fn slot_is_place()
    ensures { (bs : List Binding) (t : Table) (r : ℕ) → IsTableOf bs t → slot_at t r ≡ option_and_then (λ ls. place (same_labels ls) t.series) (owner bs r) }
{}

/// In a table of bindings the least reference of a slot is the least reference that the label set of the slot owns.
pub fn least_reference()
    ensures { (bs : List Binding) (t : Table) (s : ℕ) (least : Option ℕ) → IsTableOf bs t → s < length t.series →
        IsLeast (λ r. slot_at t r ≡ Some s) least → IsLeast (λ r. owner bs r ≡ Some (labels_at t s)) least }
{}

/// Room for some bindings is room for the first of them.
pub fn room_for_first()
    ensures { (t : Table) (b : Binding) (bs : List Binding) → HasRoom t (b ∷ bs) → HasRoom t (b ∷ []) }
{}
