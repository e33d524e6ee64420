//! Times parted into intervals.

ghost use Rattle.std.specs.Prelude.{◌/◌, ◌<◌, ◌≤ℤ◌, IfNone, IfSome, ℕ, ℤ};
ghost use Rattle.head_intervals.specs.Intervals.{IsIn, Parts, most_intervals};

/// How many intervals there are at most.
pub const MOST_INTERVALS: u64 = 240;

/// Times parted into intervals of one width, one after another. Times are in milliseconds.
#[derive(Clone, Copy, Debug, PartialEq, Eq)]
pub struct Intervals {
    /// The first time of the first one.
    pub first: i64,
    /// How many times each has.
    pub width: u64,
    /// How many there are.
    pub count: u64,
}

// The widths that people read easily: up to a second, seconds, minutes, hours, days.
const WIDTHS: [u64; 27] = [
    1, 2, 5, 10, 20, 50, 100, 200, 500, 1_000, 2_000, 5_000, 10_000, 15_000, 30_000, 60_000,
    120_000, 300_000, 600_000, 900_000, 1_800_000, 3_600_000, 7_200_000, 10_800_000, 21_600_000,
    43_200_000, 86_400_000,
];

// Returns the least width by which few enough intervals reach over so many milliseconds: one that people read easily, if there is one.
fn width_of(reach: u64) -> u64
    ensures some { 0 < result }
    ensures few { reach / result < most_intervals }
{
    for width in WIDTHS {
        if width != 0 && reach / width < MOST_INTERVALS {
            return width;
        }
    }
    reach / MOST_INTERVALS + 1
}

impl Intervals {
    /// Parts the times from the first to the last one.
    pub fn over(first: i64, last: i64) -> Intervals
        requires { first ≤ℤ last }
        ensures { Parts first last result }
    {
        let reach = last.abs_diff(first);
        let width = width_of(reach);
        Intervals {
            first,
            width,
            count: reach / width + 1,
        }
    }

    /// Returns the index of the interval that has a time, if one has it.
    pub fn place(&self, time: i64) -> Option<usize>
        requires { 0 < self.now.width }
        ensures some { IfSome result (λ k. k < self.now.count × IsIn self.now k time) }
        ensures none { IfNone result ((k : ℕ) → k < self.now.count → IsIn self.now k time → ⊥) }
    {
        if time < self.first {
            return None;
        }
        let place = time.abs_diff(self.first) / self.width;
        if place < self.count {
            usize::try_from(place).ok()
        } else {
            None
        }
    }
}
