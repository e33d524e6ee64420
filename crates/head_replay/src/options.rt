//! Options of a replay.

/// Options of a replay. Of these, its result depends on the least valid time alone.
#[derive(Clone, Copy, Debug, PartialEq, Eq)]
pub struct Options {
    /// The number of workers, 1 to 64.
    pub workers: usize,
    /// The number of pages that are applied in a round. At most these, and one unfinished record, are in memory, decoded, at a time. 0 counts
    /// as 1, and more than 2^32 as 2^32.
    pub round_pages: usize,
    /// The least valid time, in milliseconds: entries before it are expired. `i64::MIN` is no limit.
    pub min_valid: i64,
}
