//! The verdict on a row.

/// The verdict on a row.
#[derive(Clone, Copy, Debug, PartialEq, Eq)]
pub enum Verdict {
    /// The row was logged and is now the last sample of its series.
    Accepted,
    /// Its series has a sample with an equal or later time. The row is neither logged nor counted.
    Stale,
    /// The row's time is before the least valid time, whatever its labels. The row is neither logged nor counted.
    Expired,
}
