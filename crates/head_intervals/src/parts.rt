//! The series of a head in parts, each the work of one thread at a time.

ghost use Rattle.std.specs.Prelude.{◌≡◌, ◌+◌, ◌*◌, ◌/◌, ◌≤◌, min};
ghost use Rattle.head_intervals.specs.Parts.{part_length};

// How many series a part has, except for the last one.
const PART_LENGTH: u32 = 1024;

// Returns the number of parts of so many series.
pub(crate) fn part_count(series: u32) -> u32
    ensures { result ≡ series / part_length + 1 }
{
    series / PART_LENGTH + 1
}

// Returns the slot at which a part begins, and the one behind its last.
pub(crate) fn part_bounds(series: u32, part: u32) -> (u32, u32)
    requires { part ≤ series / part_length }
    ensures first { result.0 ≡ part * part_length }
    ensures within { result.0 ≤ series }
    ensures end { result.1 ≡ min (part * part_length + part_length) series }
{
    let first = part * PART_LENGTH;
    (first, first + (series - first).min(PART_LENGTH))
}
