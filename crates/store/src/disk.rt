//! The store over real files.

ghost use Rattle.std.specs.Prelude.{◌≡◌, ◌+◌, ◌^◌, ◌<◌, ◌⊎◌, Ok, Err, IfErr, IfOk, IsErr, MatchResult, ⊤, length, map, string_bytes};
ghost use Rattle.std.specs.Iterator.{Drains, IsFinite};
ghost use Rattle.std.specs.Fs.{dir_entry_name};
ghost use Rattle.store.specs.Entries.{Gives};

use crate::part::read_pages;
use crate::part_store::PartStore;
use crate::pieces::{Pieces, write_each};
use crate::reason::Reason;
use crate::several::{ReadFile, read_several};
use crate::store::{PartRead, Store, StoreFault};
use crate::whole::{MOST_READS, fill_next, read_whole, write_whole};
use hash_seed::HashSeed;
use std::alloc::{AllocError, Global};
use std::fs::{DirEntry, File, OpenFile, TryLockError};
use std::os::unix::fs::FileExt;
use std::random::RandomSource;
use std::rt::Files;
use std::thread::Threads;
use std::{fs, io, thread};

/// The file system of the host. Several files are read side by side, and a large one in parts, by threads of the runtime `rt`. The seed of
/// tables is of the system's random bits.
#[derive(Drop)]
pub struct Disk<'a, R> {
    rt: &'a R,
    host: HostRuntime,
    seed: HashSeed,
}

// Returns a seed of the system's random bits, or the seed that all know if it gives none.
fn random_seed(rt: &impl RandomSource) -> HashSeed {
    let mut bytes = [0; 16];
    match rt.fill_bytes(&mut bytes) {
        Ok(()) => {
            let bits = u128::from_le_bytes(bytes);
            HashSeed::new((bits % (1 << 64)) as u64, (bits >> 64) as u64)
        }
        Err(_) => HashSeed::known(),
    }
}

impl<'a> Disk<'a, HostRuntime> {
    pub fn new(rt: &'a HostRuntime) -> Disk<'a, HostRuntime> {
        Disk {
            rt,
            host: *rt,
            seed: random_seed(rt),
        }
    }
}

// Returns the length of a file in bytes by its metadata, or 0 if that cannot be read.
fn length_of(file: &impl OpenFile) -> u64 {
    match file.metadata() {
        Ok(metadata) => metadata.len(),
        Err(_) => 0,
    }
}

// Copies the name of a directory's entry, or passes on the error in its place.
fn name_of<R: Files + Drop>(
    alloc: Global,
    entry: io::Result<DirEntry<R>>,
) -> Result<String, StoreFault>
    ensures name { MatchResult entry (λ entry. IfOk result (λ name. string_bytes name ≡ dir_entry_name entry)) (λ _. IsErr result) }
{
    Ok(String::from_str(alloc, entry?.file_name())?)
}

/// Collects the names of a directory's entries, in the order in which they come. Returns the first error among them, if there is one.
pub fn names_of<I: Iterator<Item = Result<String, StoreFault>> + Drop>(
    alloc: Global,
    entries: I,
) -> Result<Vec<String>, StoreFault>
    requires can { I.can_next entries }
    requires finite { IsFinite (I.remaining entries) }
    ensures names { IfOk result (λ names. Drains I.next_gives entries (map Ok names.items)) }
    ensures refused { IfErr result (λ fault. (fault ≡ StoreFault.OutOfMemory) ⊎ Gives I.next_gives entries (Err fault)) }
{
    let mut names = Vec::new(alloc);
    for entry in entries {
        names.push(entry?)?;
    }
    Ok(names)
}

/// The most threads that read files.
const MOST_READERS: usize = 8;

/// The most parts that a file is read in, each by a thread.
const MOST_PARTS: usize = 4;

/// The fewest bytes of a file that is read in parts.
const LEAST_IN_PARTS: u64 = 8 * 1024 * 1024;

// Reads the part of a file that begins at `from`, in so many threads, this one among them. Returns whether all of it was read.
#[cycle(parts)]
fn fill<R: Threads>(rt: &R, file: &File, threads: usize, from: u64, part: &mut [u8]) -> bool
    requires { from + length part.old < 2 ^ 64 }
{
    if threads < 2 {
        return file.read_exact_at(part, from).is_ok();
    }
    let share = part.len() / threads;
    let (front, back) = part.split_at_mut(share);
    let past = from + share as u64;
    let mut here = || -> bool
        requires { (1 < threads) × (past + length back.now < 2 ^ 64) }
    { fill(rt, file, threads - 1, past, back) };
    let (front, back) = thread::join_mut(
        rt,
        &mut || file.read_exact_at(front, from).is_ok(),
        &mut here,
    );
    front && back
}

// Reads a file of this length in parts, each in one of so many threads. Returns `None` if a part cannot be read, if the file turns out to
// be shorter or longer, or if memory runs out.
fn read_parts<R: Threads>(
    rt: &R,
    alloc: Global,
    file: &File,
    length: u64,
    threads: usize,
) -> Option<Vec<u8>> {
    let mut bytes = vec![in alloc; 0; length as usize].ok()?;
    let is_whole = fill(rt, file, threads, 0, &mut bytes)
        && matches!(file.read_at(&mut [0], length), Ok(0))
        && length_of(file) == length;
    is_whole.then_some(bytes)
}

// Reads what is at a path, in so many threads if it is a large file. If that fails, it is read from its start in this thread alone.
fn read_by<R: Threads>(
    rt: &R,
    host: HostRuntime,
    threads: usize,
    path: &str,
) -> Result<Vec<u8>, StoreFault> {
    let mut file = File::open(&host, path)?;
    let length = length_of(&file);
    if length >= LEAST_IN_PARTS && threads > 1 {
        if let Some(bytes) = read_parts(rt, host.alloc(), &file, length, threads) {
            return Ok(bytes);
        }
    }
    read_whole(host.alloc(), &mut file, length)
}

// Returns an error unless a file is at the path. To open a FIFO would be to wait for a writer.
fn check_file(host: HostRuntime, path: &str) -> Result<(), StoreFault> {
    if fs::metadata(&host, path)?.is_file() {
        Ok(())
    } else {
        Err(StoreFault::Refused(Reason::NotAFile))
    }
}

// Reads files in the thread that it is of: a large one in so many threads.
#[derive(Drop)]
struct Here<'a, R> {
    rt: &'a R,
    host: HostRuntime,
    threads: usize,
}

impl<R: Threads> ReadFile for Here<'_, R> {
    // no contract says what a file of the system holds
    ghost gave = { λ _ _ _. ⊤ };

    // what is at the path and is no file is refused
    fn read_file(&self, path: &str) -> Result<Vec<u8>, StoreFault> {
        check_file(self.host, path)?;
        read_by(self.rt, self.host, self.threads, path)
    }
}

// Reads files in any thread, each in that thread alone.
#[derive(Drop)]
struct There {
    host: HostRuntime,
}

impl ReadFile for There {
    // no contract says what a file of the system holds
    ghost gave = { λ _ _ _. ⊤ };

    // what is at the path and is no file is refused
    fn read_file(&self, path: &str) -> Result<Vec<u8>, StoreFault> {
        check_file(self.host, path)?;
        let mut file = File::open(&self.host, path)?;
        let length = length_of(&file);
        read_whole(self.host.alloc(), &mut file, length)
    }
}

// Reads what is at a path page by page, since it was refused as a whole for this reason. What cannot be opened has only its length, if the
// system tells it.
fn read_by_pages(
    host: HostRuntime,
    alloc: Global,
    path: &str,
    reason: Reason,
) -> Result<PartRead, AllocError> {
    if check_file(host, path).is_err() {
        return PartRead::nothing(alloc, 0, reason);
    }
    let length = match fs::metadata(&host, path) {
        Ok(metadata) => metadata.len(),
        Err(_) => 0,
    };
    match File::open(&host, path) {
        Ok(file) => read_pages(alloc, &file, length),
        Err(_) => PartRead::nothing(alloc, length, reason),
    }
}

impl<R: Threads> Store for Disk<'_, R> {
    type Writer = File;

    // no contract says what a file of the system holds
    ghost did = { λ _ _ _. ⊤ };

    ghost is_of = { λ _ _. ⊤ };

    ghost holds = { λ _ _ _. ⊤ };

    ghost did_nothing = { λ _. tt };

    ghost did_both = { λ _ _ _ _ _ _ _. tt };

    fn read_dir(&self, path: &str) -> Result<Vec<String>, StoreFault> {
        let alloc = self.host.alloc();
        let entries = fs::read_dir(&self.host, path)?;
        names_of(alloc, entries.map(|entry| name_of(alloc, entry)))
    }

    fn read(&self, path: &str) -> Result<Vec<u8>, StoreFault> {
        read_by(self.rt, self.host, MOST_PARTS, path)
    }

    fn read_in_part(&self, alloc: Global, path: &str) -> Result<PartRead, AllocError> {
        let read = match check_file(self.host, path) {
            Ok(()) => self.read(path),
            Err(fault) => Err(fault),
        };
        match read {
            Ok(bytes) => Ok(PartRead::whole(alloc, bytes)),
            Err(StoreFault::OutOfMemory) => Err(AllocError),
            Err(StoreFault::Refused(reason)) => read_by_pages(self.host, alloc, path, reason),
        }
    }

    fn read_files(
        &self,
        alloc: Global,
        paths: &[String],
    ) -> Result<Vec<Vec<u8>>, (usize, StoreFault)> {
        let readers = paths.len().min(MOST_READERS);
        let here = Here {
            rt: self.rt,
            host: self.host,
            threads: (MOST_READERS + 1 - readers).min(MOST_PARTS),
        };
        let there = There { host: self.host };
        read_several(self.rt, alloc, &here, &there, readers, paths)
    }

    fn seed(&self) -> HashSeed {
        self.seed
    }

    // A file that `create_new` made is locked while it is open.
    fn is_abandoned(&self, path: &str) -> bool {
        check_file(self.host, path).is_ok()
            && match File::open(&self.host, path) {
                Ok(file) => length_of(&file) == 0 && file.try_lock_shared().is_ok(),
                Err(_) => false,
            }
    }

    fn is_held(&self, path: &str) -> bool {
        check_file(self.host, path).is_ok()
            && match File::open(&self.host, path) {
                Ok(file) => matches!(file.try_lock_shared(), Err(TryLockError::WouldBlock)),
                Err(_) => false,
            }
    }

    fn create_new(&mut self, path: &str) -> Result<File, StoreFault> {
        let file = File::create_new(&self.host, path)?;
        let _ = file.try_lock();
        Ok(file)
    }

    fn write(&mut self, writer: &mut File, bytes: &[u8]) -> Result<(), StoreFault> {
        write_whole(writer, bytes)
    }

    fn write_pieces<P: Pieces>(
        &mut self,
        alloc: Global,
        writer: &mut File,
        pieces: &mut P,
    ) -> Result<(), StoreFault> {
        write_each(alloc, writer, pieces)
    }

    fn sync_file(&mut self, writer: &mut File) -> Result<(), StoreFault> {
        Ok(writer.sync_all()?)
    }

    // a directory is opened for reading, as a file is
    fn sync_dir(&mut self, path: &str) -> Result<(), StoreFault> {
        let dir = if path.is_empty() { "." } else { path };
        Ok(File::open(&self.host, dir)?.sync_all()?)
    }

    fn create_dir(&mut self, path: &str) -> Result<(), StoreFault> {
        Ok(fs::create_dir(&self.host, path)?)
    }

    fn rename(&mut self, from: &str, to: &str) -> Result<(), StoreFault> {
        Ok(fs::rename(&self.host, from, to)?)
    }

    fn remove_file(&mut self, path: &str) -> Result<(), StoreFault> {
        Ok(fs::remove_file(&self.host, path)?)
    }
}

/// A file of the system that is open for reading, and how many calls of `read` may still be made.
#[derive(Drop)]
pub struct DiskReader {
    file: File,
    calls: u64,
}

impl<R: Threads> PartStore for Disk<'_, R> {
    type Reader = DiskReader;

    ghost has_read = { λ _ _ _. ⊤ };

    fn open(&self, path: &str) -> Result<DiskReader, StoreFault> {
        check_file(self.host, path)?;
        Ok(DiskReader {
            file: File::open(&self.host, path)?,
            calls: MOST_READS,
        })
    }

    fn expected_length(&self, reader: &DiskReader) -> u64 {
        length_of(&reader.file)
    }

    // a buffer that was full before has its length, and is not filled with zeros again
    fn read_next(
        &self,
        reader: &mut DiskReader,
        most: u64,
        bytes: &mut Vec<u8>,
    ) -> Result<(), StoreFault> {
        bytes.resize(most as usize, 0)?;
        let filled = fill_next(&mut reader.file, &mut reader.calls, bytes)?;
        bytes.truncate(filled);
        Ok(())
    }
}
