//! How much there is to replay.

/// How much there is to replay.
#[derive(Clone, Copy, Debug, PartialEq, Eq)]
pub struct Extent {
    pub pages: u64,
    pub bytes: u64,
    /// The number of pages in a round.
    pub round_pages: u64,
}
