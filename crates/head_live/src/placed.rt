//! Samples with the slots of their series.

ghost use Rattle.std.specs.Prelude.{◌≡◌, AllPairs, false, true};
ghost use Rattle.std.specs.List.Sorted.{IsPermutation};
ghost use Rattle.head_live.specs.Placed.{IsBefore};

/// A sample of a head with the slot of its series. Samples are ordered by slot, then time, then value.
#[derive(Clone, Copy, PartialEq, Eq, PartialOrd, Ord)]
pub struct PlacedSample {
    /// The slot of its series.
    pub slot: u32,
    /// Its time in milliseconds.
    pub time: i64,
    /// The eight bytes of its value as a number.
    pub value: i64,
}

/// Returns whether two lists have the same samples. The second must be in order, as no two samples of a head are equal.
pub fn are_same(mut accepted: Vec<PlacedSample>, new: &[PlacedSample]) -> bool
    ensures same { result ≡ true → IsPermutation accepted.items new.now }
    ensures differ { result ≡ false → AllPairs IsBefore new.now → IsPermutation accepted.items new.now → ⊥ }
{
    accepted.sort_unstable();
    accepted.as_slice() == new
}
