//! What is lost of a log, where all that can be read of it is written.

use store::Unread;
use wal_unpack::Passed;

/// What is lost of a file.
#[derive(Clone, Copy, Debug, PartialEq, Eq)]
pub enum LostPart {
    /// All of it: there is no such file.
    Missing,
    /// Bytes that cannot be read.
    CannotRead(Unread),
    /// Bytes that are passed over for damage.
    PassedOver(Passed),
}

/// What is lost of a log: whether the file is one of the checkpoint's or a segment, its number, and what is lost of it.
#[derive(Clone, Copy, Debug, PartialEq, Eq)]
pub struct Lost {
    pub in_checkpoint: bool,
    pub number: u64,
    pub part: LostPart,
}
