//! What the program asks of a file system.

ghost use Rattle.std.specs.Prelude.{◌≡◌, ◌≢◌, ◌↔◌, ℕ, ◌<◌, List, [], ◌++◌, IfErr, IfOk, length, map, string_bytes};
ghost use Rattle.std.specs.List.{AllZip};
ghost use Rattle.std.specs.IoError.{error_kind};
ghost use Rattle.std.specs.declared.io.ErrorKind.TheVariants as kind;
ghost use Rattle.store.specs.Calls.{Call, Called, Create, CreateDir, Remove, Rename, SyncDir, SyncFile, Write};
ghost use Rattle.store.specs.Found.{Bytes, Found, Names};
ghost use Rattle.store.specs.declared.store.StoreFault.TheVariants.{OutOfMemory};

use crate::pieces::{Pieces, gather};
use crate::reason::Reason;
use hash_seed::HashSeed;
use std::alloc::{AllocError, AllocFailed, Global};
use std::io;
use std::io::ErrorKind;

/// Why a call of a store failed.
#[derive(Clone, Copy, Debug, PartialEq, Eq)]
pub enum StoreFault {
    /// The file system refused, or returned a name that is not UTF-8.
    Refused(Reason),
    OutOfMemory,
}

impl From<io::Error> for StoreFault {
    ghost from_gives = { λ e f. (f ≡ OutOfMemory) ↔ (error_kind e ≡ kind.OutOfMemory) };

    fn from(error: io::Error) -> StoreFault {
        match error.kind() {
            ErrorKind::OutOfMemory => StoreFault::OutOfMemory,
            _ => StoreFault::Refused(Reason::from(error)),
        }
    }
}

impl From<AllocError> for StoreFault {
    ghost from_gives = { λ _ f. f ≡ OutOfMemory };

    fn from(_error: AllocError) -> StoreFault {
        StoreFault::OutOfMemory
    }
}

impl<T: Drop> From<AllocFailed<T>> for StoreFault {
    ghost from_gives = { λ _ f. f ≡ OutOfMemory };

    fn from(_error: AllocFailed<T>) -> StoreFault {
        StoreFault::OutOfMemory
    }
}

/// Bytes of a file that cannot be read: the offset of the first, how many there are, and why.
#[derive(Clone, Copy, Debug, PartialEq, Eq)]
pub struct Unread {
    pub offset: u64,
    /// How many bytes it is. 0 where a file cannot be read at all, and its length is not known.
    pub bytes: u64,
    pub reason: Reason,
}

/// The bytes of a file, as far as they can be read. In the place of those that cannot there are zeros.
#[derive(Debug, Drop)]
pub struct PartRead {
    pub bytes: Vec<u8>,
    /// What cannot be read, in order.
    pub unread: Vec<Unread>,
}

impl PartRead {
    /// Makes the bytes of a file of which all was read.
    pub(crate) fn whole(alloc: Global, bytes: Vec<u8>) -> PartRead
        ensures bytes { result.bytes.items ≡ bytes.items }
        ensures unread { result.unread.items ≡ [] }
    {
        PartRead {
            bytes,
            unread: Vec::new(alloc),
        }
    }

    /// Makes the bytes of a file of this length that cannot be read at all. None are kept in their place.
    pub(crate) fn nothing(alloc: Global, bytes: u64, reason: Reason) -> Result<PartRead, AllocError>
        ensures { IfOk result (λ part. part.unread.items ≢ []) }
    {
        let mut unread = Vec::new(alloc);
        unread.push(Unread {
            offset: 0,
            bytes,
            reason,
        })?;
        Ok(PartRead {
            bytes: Vec::new(alloc),
            unread,
        })
    }
}

/// Directories and files. Its calls have the names of `std::fs`. What a call that changes them did is reported by `did`, a relation between two
/// states of the store, and what a call that reads them found by `holds`: a store over real files knows nothing of either, and code over any
/// store claims only calls that it made and what these gave.
pub trait Store {
    /// A file that was created. It is closed when it is dropped.
    type Writer: Drop;

    /// From the first state to the second these calls took effect, in this order, and no others.
    ghost did: { Self → List Call → Self → Type 0 };

    /// The writer writes to the file that was created at this path.
    ghost is_of: { Self.Writer → List ℕ → Type 0 };

    /// In this state this is found at the path.
    ghost holds: { Self → List ℕ → Found → Type 0 };

    /// Returns the names in a directory, in any order. Returns an error if one of them is not UTF-8.
    fn read_dir(&self, path: &str) -> Result<Vec<String>, StoreFault>
        ensures { IfOk result (λ names. holds self.now path.now (Names (map string_bytes names.items))) };

    /// Reads all bytes of a file.
    fn read(&self, path: &str) -> Result<Vec<u8>, StoreFault>
        ensures { IfOk result (λ bytes. holds self.now path.now (Bytes bytes.items)) };

    /// Reads all bytes of each of these files. Returns the place of the first that cannot be read, and why.
    fn read_files(
        &self,
        alloc: Global,
        paths: &[String],
    ) -> Result<Vec<Vec<u8>>, (usize, StoreFault)>
        ensures files { IfOk result (λ files. AllZip (λ path bytes. holds self.now (string_bytes path) (Bytes bytes.items)) paths.now files.items) }
        ensures place { IfErr result (λ refused. refused.0 < length paths.now) }
    {
        let mut files = Vec::new(alloc);
        for place in 0..paths.len() {
            let bytes = match self.read(&paths[place]) {
                Ok(bytes) => bytes,
                Err(fault) => return Err((place, fault)),
            };
            if files.push(bytes).is_err() {
                return Err((place, StoreFault::OutOfMemory));
            }
        }
        Ok(files)
    }

    /// Reads the bytes of a file as far as they can be read. Returns an error if out of memory, and for no other reason.
    fn read_in_part(&self, alloc: Global, path: &str) -> Result<PartRead, AllocError>
        ensures { IfOk result (λ part. part.unread.items ≡ [] → holds self.now path.now (Bytes part.bytes.items)) }
    {
        match self.read(path) {
            Ok(bytes) => Ok(PartRead::whole(alloc, bytes)),
            Err(StoreFault::OutOfMemory) => Err(AllocError),
            Err(StoreFault::Refused(reason)) => PartRead::nothing(alloc, 0, reason),
        }
    }

    /// Returns the seed of the tables that keep what is read. Without one that nobody knows, it is the seed that all know.
    fn seed(&self) -> HashSeed {
        HashSeed::known()
    }

    /// Returns whether an empty file is at the path, and no writer of `create_new` has it open. Where the store can't tell, it returns `false`.
    fn is_abandoned(&self, _path: &str) -> bool {
        false
    }

    /// Returns whether a writer of `create_new` has the file at the path open. Where the store can't tell, it returns `false`.
    fn is_held(&self, _path: &str) -> bool {
        false
    }

    /// Creates a file. Returns an error if the path exists.
    fn create_new(&mut self, path: &str) -> Result<Self::Writer, StoreFault>
        ensures call { Called did self.old (Create path.now) result self.new }
        ensures writer { IfOk result (λ writer. is_of writer path.now) };

    /// Writes bytes to the end of a new file.
    fn write(&mut self, writer: &mut Self::Writer, bytes: &[u8]) -> Result<(), StoreFault>
        ensures call { (path : List ℕ) → is_of writer.old path → Called did self.old (Write path bytes.now) result self.new }
        ensures writer { (path : List ℕ) → is_of writer.old path → is_of writer.new path };

    /// Writes bytes to the end of a new file as they come, as one call. If making them fails, some may be written.
    fn write_pieces<P: Pieces>(
        &mut self,
        alloc: Global,
        writer: &mut Self::Writer,
        pieces: &mut P,
    ) -> Result<(), StoreFault>
        ensures call { (path : List ℕ) → is_of writer.old path → Called did self.old (Write path (P.text pieces.old)) result self.new }
        ensures writer { (path : List ℕ) → is_of writer.old path → is_of writer.new path }
    {
        let bytes = gather(alloc, pieces)?;
        self.write(writer, &bytes)
    }

    /// Syncs a new file: what was written to it outlasts a crash.
    fn sync_file(&mut self, writer: &mut Self::Writer) -> Result<(), StoreFault>
        ensures call { (path : List ℕ) → is_of writer.old path → Called did self.old (SyncFile path) result self.new }
        ensures writer { (path : List ℕ) → is_of writer.old path → is_of writer.new path };

    /// Syncs a directory: its names outlast a crash. The empty path is the directory of the program, in which a name alone is.
    fn sync_dir(&mut self, path: &str) -> Result<(), StoreFault>
        ensures { Called did self.old (SyncDir path.now) result self.new };

    /// Creates a directory. Returns an error if the path exists.
    fn create_dir(&mut self, path: &str) -> Result<(), StoreFault>
        ensures { Called did self.old (CreateDir path.now) result self.new };

    /// Renames a file, or a directory with its contents. A file replaces the file at `to`; a directory needs a path that does not exist.
    fn rename(&mut self, from: &str, to: &str) -> Result<(), StoreFault>
        ensures { Called did self.old (Rename from.now to.now) result self.new };

    fn remove_file(&mut self, path: &str) -> Result<(), StoreFault>
        ensures { Called did self.old (Remove path.now) result self.new };

    /// From a state to itself no call took effect.
    ghost did_nothing: { (state : Self) → did state [] state };

    /// What was done up to a state and what was done from there on was done in that order.
    ghost did_both: { (old middle new : Self) (first second : List Call) → did old first middle → did middle second new → did old (first ++ second) new };
}
