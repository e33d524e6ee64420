//! A store in memory, for tests: calls can fail, and a crash keeps a part of what was not synced.

ghost use Rattle.std.specs.Prelude.{⊤};

use crate::checks::UNSAID;
use crate::tree::{Kept, Tree};
use std::alloc::Global;
use std::sync::{Mutex, MutexGuard};
use store::{PartStore, Store, StoreFault};

// Which call fails, by its number, and how.
#[derive(Clone, Copy)]
struct Failure {
    call: u64,
    fault: StoreFault,
    // Whether each call after it fails too.
    lasts: bool,
}

/// What another program does to the files.
#[derive(Clone, Copy, Debug)]
pub enum Act {
    /// Creates a directory, and syncs it.
    PutDir(&'static str),
    /// Creates a file with these bytes, and syncs it.
    Put(&'static str, &'static [u8]),
    /// Creates a file of so many kibibytes of zeros, and syncs it.
    PutZeros(&'static str, usize),
    Rename(&'static str, &'static str),
    Remove(&'static str),
}

// What another program does just before the call of this number.
#[derive(Clone, Copy)]
struct Meanwhile {
    call: u64,
    acts: &'static [Act],
}

#[derive(Drop)]
struct Contents {
    tree: Tree,
    calls: u64,
    failure: Option<Failure>,
    meanwhile: Option<Meanwhile>,
}

// Puts a file there, and syncs it.
fn put_file(tree: &mut Tree, path: &str, bytes: &[u8]) -> Result<(), StoreFault> {
    let file = tree.create_file(path)?;
    tree.append(file, bytes)?;
    tree.crash(Kept::All, Kept::All)?;
    Ok(())
}

// Puts a file of so many kibibytes of zeros there, and syncs it.
fn put_zeros(tree: &mut Tree, path: &str, count: usize) -> Result<(), StoreFault> {
    let file = tree.create_file(path)?;
    for _kibibyte in 0..count {
        tree.append(file, &[0; 1024])?;
    }
    tree.crash(Kept::All, Kept::All)?;
    Ok(())
}

// Puts a directory there, and syncs it.
fn put_dir(tree: &mut Tree, path: &str) -> Result<(), StoreFault> {
    tree.create_dir(path)?;
    tree.crash(Kept::All, Kept::All)?;
    Ok(())
}

fn act_all(tree: &mut Tree, acts: &[Act]) -> Result<(), StoreFault> {
    for act in acts {
        match *act {
            Act::PutDir(path) => put_dir(tree, path)?,
            Act::Put(path, bytes) => put_file(tree, path, bytes)?,
            Act::PutZeros(path, count) => put_zeros(tree, path, count)?,
            Act::Rename(from, to) => tree.rename(from, to)?,
            Act::Remove(path) => tree.remove_file(path)?,
        }
    }
    Ok(())
}

impl Contents {
    // Counts a call, and fails if it is one that is to fail.
    fn count_call(&mut self) -> Result<(), StoreFault> {
        self.calls = self.calls.saturating_add(1);
        if let Some(meanwhile) = self.meanwhile
            && meanwhile.call == self.calls
        {
            act_all(&mut self.tree, meanwhile.acts)?;
        }
        match self.failure {
            Some(failure) if failure.call == self.calls => Err(failure.fault),
            Some(failure) if failure.lasts && failure.call < self.calls => Err(failure.fault),
            _ => Ok(()),
        }
    }
}

fn lock(contents: &Mutex<Contents>) -> Result<MutexGuard<'_, Contents>, StoreFault> {
    contents.try_lock().ok_or(UNSAID)
}

// Locks the contents for a call, which is counted.
fn call(contents: &Mutex<Contents>) -> Result<MutexGuard<'_, Contents>, StoreFault> {
    let mut contents = lock(contents)?;
    contents.count_call()?;
    Ok(contents)
}

/// Directories and files in memory. Each call of the store is counted.
pub struct Shelf {
    contents: Mutex<Contents>,
}

// Written out, so that a function which holds a shelf is proved with one call where it lets go of it.
impl Drop for Shelf {
    fn drop(self) {
        let Shelf { contents } = self;
        drop(contents);
    }
}

impl Shelf {
    pub fn new(alloc: Global) -> Result<Shelf, StoreFault> {
        let contents = Contents {
            tree: Tree::new(alloc)?,
            calls: 0,
            failure: None,
            meanwhile: None,
        };
        Ok(Shelf {
            contents: Mutex::new(contents),
        })
    }

    /// Does what another program does, with no call counted.
    pub fn act(&mut self, acts: &[Act]) -> Result<(), StoreFault> {
        act_all(&mut lock(&self.contents)?.tree, acts)
    }

    /// Puts a directory there and syncs it, with no call counted.
    pub fn put_dir(&mut self, path: &str) -> Result<(), StoreFault> {
        put_dir(&mut lock(&self.contents)?.tree, path)
    }

    /// Puts a file there and syncs it, with no call counted.
    pub fn put(&mut self, path: &str, bytes: &[u8]) -> Result<(), StoreFault> {
        put_file(&mut lock(&self.contents)?.tree, path, bytes)
    }

    /// Has the call of this number fail, 1 being the first.
    pub fn fail(&mut self, call: u64, fault: StoreFault) -> Result<(), StoreFault> {
        lock(&self.contents)?.failure = Some(Failure {
            call,
            fault,
            lasts: false,
        });
        Ok(())
    }

    /// Has the call of this number fail, and each after it.
    pub fn stop(&mut self, call: u64) -> Result<(), StoreFault> {
        lock(&self.contents)?.failure = Some(Failure {
            call,
            fault: UNSAID,
            lasts: true,
        });
        Ok(())
    }

    /// Has another program do this just before the call of this number.
    pub fn meanwhile(&mut self, call: u64, acts: &'static [Act]) -> Result<(), StoreFault> {
        lock(&self.contents)?.meanwhile = Some(Meanwhile { call, acts });
        Ok(())
    }

    /// Drops what was not synced but for so much of it, of names and of bytes. No call fails from here on.
    pub fn crash(&mut self, names: Kept, bytes: Kept) -> Result<(), StoreFault> {
        let mut contents = lock(&self.contents)?;
        contents.failure = None;
        contents.tree.crash(names, bytes)?;
        Ok(())
    }

    /// How many calls there were.
    pub fn calls(&self) -> Result<u64, StoreFault> {
        Ok(lock(&self.contents)?.calls)
    }
}

/// A file that was created on a shelf.
#[derive(Drop)]
pub struct ShelfWriter {
    file: usize,
}

/// A file of a shelf that is open for reading: its bytes when it was opened, and how many of them were read.
#[derive(Drop)]
pub struct ShelfReader {
    bytes: Vec<u8>,
    read: usize,
}

impl Store for Shelf {
    type Writer = ShelfWriter;

    // what it holds is behind a lock
    ghost did = { λ _ _ _. ⊤ };

    ghost is_of = { λ _ _. ⊤ };

    ghost holds = { λ _ _ _. ⊤ };

    ghost did_nothing = { λ _. tt };

    ghost did_both = { λ _ _ _ _ _ _ _. tt };

    fn read_dir(&self, path: &str) -> Result<Vec<String>, StoreFault> {
        call(&self.contents)?.tree.names(path)
    }

    fn read(&self, path: &str) -> Result<Vec<u8>, StoreFault> {
        call(&self.contents)?.tree.read(path)
    }

    fn create_new(&mut self, path: &str) -> Result<ShelfWriter, StoreFault> {
        let file = call(&self.contents)?.tree.create_file(path)?;
        Ok(ShelfWriter { file })
    }

    fn write(&mut self, writer: &mut ShelfWriter, bytes: &[u8]) -> Result<(), StoreFault> {
        call(&self.contents)?.tree.append(writer.file, bytes)
    }

    fn sync_file(&mut self, writer: &mut ShelfWriter) -> Result<(), StoreFault> {
        call(&self.contents)?.tree.sync_file(writer.file)
    }

    fn sync_dir(&mut self, path: &str) -> Result<(), StoreFault> {
        call(&self.contents)?.tree.sync_dir(path)
    }

    fn create_dir(&mut self, path: &str) -> Result<(), StoreFault> {
        call(&self.contents)?.tree.create_dir(path)
    }

    fn rename(&mut self, from: &str, to: &str) -> Result<(), StoreFault> {
        call(&self.contents)?.tree.rename(from, to)
    }

    fn remove_file(&mut self, path: &str) -> Result<(), StoreFault> {
        call(&self.contents)?.tree.remove_file(path)
    }
}

impl PartStore for Shelf {
    type Reader = ShelfReader;

    ghost has_read = { λ _ _ _. ⊤ };

    fn open(&self, path: &str) -> Result<ShelfReader, StoreFault> {
        let bytes = call(&self.contents)?.tree.read(path)?;
        Ok(ShelfReader { bytes, read: 0 })
    }

    fn expected_length(&self, reader: &ShelfReader) -> u64 {
        reader.bytes.len() as u64
    }

    fn read_next(
        &self,
        reader: &mut ShelfReader,
        most: u64,
        bytes: &mut Vec<u8>,
    ) -> Result<(), StoreFault> {
        call(&self.contents)?;
        let left = reader.bytes.get(reader.read..).unwrap_or(&[]);
        let next = left.get(..most as usize).unwrap_or(left);
        bytes.clear();
        bytes.extend_from_slice(next)?;
        reader.read = reader.read.saturating_add(next.len());
        Ok(())
    }
}
