//! Laws of intervals.

ghost use Rattle.std.specs.Prelude.{◌≡◌, ◌<◌, ◌≤ℤ◌, ℕ, ℤ, All, List, length, sum};
ghost use Rattle.head_intervals.specs.declared.intervals.Intervals.{Intervals as TimeIntervals};
ghost use Rattle.head_intervals.specs.Intervals.{AreCounts, IsIn, Parts};

/// Proves that no time is in two intervals.
pub fn one_interval()
    ensures { (i : TimeIntervals) (j k : ℕ) (t : ℤ) → 0 < i.width → IsIn i j t → IsIn i k t → j ≡ k }
{}

/// Proves that the counts of times in intervals that part them sum up to the number of times.
pub fn counts_are_whole()
    ensures { (first last : ℤ) (i : TimeIntervals) (times : List ℤ) (counts : List ℕ) → Parts first last i → All (λ t. (first ≤ℤ t) × (t ≤ℤ last)) times → AreCounts i times counts → sum counts ≡ length times }
{}
