//! What is asked of a store whose files are read part by part.

ghost use Rattle.std.specs.Prelude.{◌<◌, ◌≤◌, ℕ, List, [], ◌++◌, IfOk, OnOk, length};
ghost use Rattle.store.specs.Found.{Bytes};

use crate::store::{Store, StoreFault};

/// A store whose files can also be read part by part.
pub trait PartStore: Store {
    /// A file that is open for reading. It is closed when it is dropped.
    type Reader: Drop;

    /// Of the file at this path the reader has read these bytes, its first ones.
    ghost has_read: { Self.Reader → List ℕ → List ℕ → Type 0 };

    /// Opens a file for reading, at its first byte. What is at the path and is no file, a FIFO say, is refused.
    fn open(&self, path: &str) -> Result<Self::Reader, StoreFault>
        ensures { IfOk result (λ reader. has_read reader path.now []) };

    /// Returns how many bytes a file is expected to have. It may turn out to be shorter or longer.
    fn expected_length(&self, reader: &Self::Reader) -> u64;

    /// Reads the next bytes of a file into `bytes`, in the place of what was there: `most` of them, or as many as the file has left.
    fn read_next(
        &self,
        reader: &mut Self::Reader,
        most: u64,
        bytes: &mut Vec<u8>,
    ) -> Result<(), StoreFault>
        ensures few { OnOk result (length bytes.new.items ≤ most) }
        ensures next { (path before : List ℕ) → has_read reader.old path before → OnOk result (has_read reader.new path (before ++ bytes.new.items)) }
        ensures end { (path before : List ℕ) → has_read reader.old path before → OnOk result (length bytes.new.items < most → Self.holds self.now path (Bytes (before ++ bytes.new.items))) };
}
