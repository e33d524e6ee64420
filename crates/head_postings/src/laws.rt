//! Laws of the definitions.

ghost use Rattle.std.specs.Prelude.{◌≡◌, ◌∷◌, [], ℕ, List};
ghost use Rattle.head_postings.specs.Postings.{AreAlike, IsPostingsOf, Labels, Lists};
ghost use Rattle.head_postings.specs.Room.{HasRoom};
ghost use Rattle.head_postings.specs.Slots.{IsUnion};

/// Proves that two lists have at most one union.
pub fn one_union()
    ensures { (xs ys us vs : List ℕ) → IsUnion xs ys us → IsUnion xs ys vs → us ≡ vs }
{}

/// Proves that all postings of the same slots and label sets are alike: no call tells them apart.
pub fn one_postings()
    ensures { (sets : List (ℕ × Labels)) (p q : Lists) → IsPostingsOf sets p → IsPostingsOf sets q → AreAlike p q }
{}

/// Proves that postings with room for some label sets have room for the first of them.
pub fn room_for_first()
    ensures { (p : Lists) (labels : Labels) (rest : List Labels) → HasRoom p (labels ∷ rest) → HasRoom p (labels ∷ []) }
{}

/// Proves that postings with room for some label sets have room for those after the first.
pub fn room_for_rest()
    ensures { (p : Lists) (labels : Labels) (rest : List Labels) → HasRoom p (labels ∷ rest) → HasRoom p rest }
{}
