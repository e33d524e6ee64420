//! Each call of both stores.

use crate::checks::{UNSAID, names, same};
use crate::shelf::Shelf;
use std::alloc::{AllocError, Global};
use std::io::{ErrorKind, Read};
use std::process::Abort;
use std::test::Fail;
use std::{env, fs, io, process};
use store::{Disk, Reason, Store, StoreFault, names_of, read_whole};

const REFUSED: Result<&str, StoreFault> = Err(UNSAID);

const DONE: Result<&str, StoreFault> = Ok("");

// Which call of a store is made. A new file gets a text.
#[derive(Clone, Copy, Debug)]
enum Call {
    ReadDir,
    Read,
    CreateNew,
    CreateDir,
    SyncDir,
    Rename,
    RemoveFile,
}

// The bytes of a file, as letters.
fn letters<S: Store>(alloc: Global, store: &S, path: &str) -> Result<String, StoreFault> {
    let mut text = String::new(alloc);
    for byte in store.read(path)? {
        text.push(char::from(byte))?;
    }
    Ok(text)
}

fn create<S: Store>(store: &mut S, path: &str) -> Result<(), StoreFault> {
    let mut writer = store.create_new(path)?;
    store.write(&mut writer, b"by")?;
    store.write(&mut writer, b"tes")?;
    store.sync_file(&mut writer)
}

fn below(alloc: Global, dir: &str, name: &str) -> Result<String, AllocError> {
    format!(in alloc; "{dir}{name}")
}

// Makes a call that reads nothing.
fn change<S: Store>(store: &mut S, call: Call, path: &str, to: &str) -> Result<(), StoreFault> {
    match call {
        Call::ReadDir | Call::Read => Err(UNSAID),
        Call::CreateNew => create(store, path),
        Call::CreateDir => store.create_dir(path),
        Call::SyncDir => store.sync_dir(path),
        Call::Rename => store.rename(path, to),
        Call::RemoveFile => store.remove_file(path),
    }
}

// Makes a call, and gives what it read.
fn make<S: Store>(
    alloc: Global,
    store: &mut S,
    call: Call,
    path: &str,
    to: &str,
) -> Result<String, StoreFault> {
    match call {
        Call::ReadDir => names(alloc, store, path),
        Call::Read => letters(alloc, store, path),
        _ => {
            change(store, call, path, to)?;
            Ok(String::new(alloc))
        }
    }
}

// Makes a call with paths below a directory.
fn make_below<S: Store>(
    alloc: Global,
    store: &mut S,
    dir: &str,
    call: Call,
    (name, to): (&str, &str),
) -> Result<String, StoreFault> {
    let path = below(alloc, dir, name)?;
    let to = below(alloc, dir, to)?;
    make(alloc, store, call, &path, &to)
}

// Calls one after another, the names that they are made with, and what each gives. Only a renaming has two names.
const CALLS: &[(Call, &str, &str, Result<&str, StoreFault>)] = &[
    (Call::ReadDir, "", "", REFUSED),
    (Call::SyncDir, "", "", REFUSED),
    (Call::CreateDir, "", "", DONE),
    (Call::CreateNew, "/1/a.tmp", "", REFUSED),
    (Call::CreateDir, "/1", "", DONE),
    (Call::CreateDir, "/1", "", REFUSED),
    (Call::SyncDir, "/1", "", DONE),
    (Call::CreateNew, "/1/a.tmp", "", DONE),
    (Call::CreateNew, "/1/a.tmp", "", REFUSED),
    (Call::Rename, "/1/a.tmp", "/1/a", DONE),
    (Call::CreateNew, "/1/b", "", DONE),
    (Call::Rename, "/1/b", "/1/a", DONE),
    (Call::Rename, "/1", "/2", DONE),
    (Call::SyncDir, "/1", "", REFUSED),
    (Call::Read, "/1/a", "", REFUSED),
    (Call::Read, "/2", "", REFUSED),
    (Call::Read, "/2/a", "", Ok("bytes")),
    (Call::ReadDir, "/2", "", Ok(" a")),
    (Call::RemoveFile, "/2/a", "", DONE),
    (Call::RemoveFile, "/2/a", "", REFUSED),
    (Call::ReadDir, "/2", "", DONE),
    (Call::ReadDir, "", "", Ok(" 2")),
];

// The fault without its reason.
fn unsaid(fault: StoreFault) -> StoreFault {
    match fault {
        StoreFault::Refused(_) => UNSAID,
        StoreFault::OutOfMemory => StoreFault::OutOfMemory,
    }
}

fn assert_calls<R: Abort + AllocGlobal, S: Store>(rt: &R, store: &mut S, dir: &str) {
    for (call, name, to, wanted) in CALLS {
        let found = make_below(rt.alloc(), store, dir, *call, (name, to));
        let told = match &found {
            Ok(text) => Ok(text.as_str()),
            Err(fault) => Err(unsaid(*fault)),
        };
        same(rt, (*call, *name, *to), told, *wanted);
    }
}

#[test]
fn store_in_memory(rt: HostRuntime) -> Result<(), StoreFault> {
    let mut shelf = Shelf::new(rt.alloc())?;
    assert_calls(&rt, &mut shelf, "new");
    Ok(())
}

// A path that nothing else uses.
fn own_path(rt: &HostRuntime) -> Result<String, Fail> {
    let alloc = rt.alloc();
    let id = process::id(rt.process());
    let name = format!(in alloc; "prom_head.{id}")?;
    Ok(env::temp_dir(rt)?.join(alloc, name)?.into_string())
}

#[test]
fn store_of_real_files(rt: HostRuntime) -> Result<(), Fail> {
    let dir = own_path(&rt)?;
    // where a run was cut off and a later one got its number
    let _ = fs::remove_dir_all(&rt, &dir);
    assert_calls(&rt, &mut Disk::new(&rt), &dir);
    fs::remove_dir_all(&rt, &dir)?;
    Ok(())
}

// So many bytes from this one on, which repeat after 251.
fn bytes_of(alloc: Global, first: u32, length: u32) -> Result<Vec<u8>, AllocError> {
    (0..length)
        .map(|i| (i.wrapping_add(first) % 251) as u8)
        .collect(alloc)
}

// Makes a file of each length in a directory, which begins with its own number, and gives the paths and the bytes.
fn make_files(
    rt: &HostRuntime,
    dir: &str,
    lengths: &[u32],
) -> Result<(Vec<String>, Vec<Vec<u8>>), Fail> {
    let alloc = rt.alloc();
    let (mut paths, mut files) = (Vec::new(alloc), Vec::new(alloc));
    for (number, length) in (0..).zip(lengths) {
        let path = format!(in alloc; "{dir}/{number}")?;
        let bytes = bytes_of(alloc, number, *length)?;
        fs::write(rt, &path, &bytes)?;
        paths.push(path)?;
        files.push(bytes)?;
    }
    Ok((paths, files))
}

// Several files are read side by side, and a large one in parts. Of those that cannot be read the first is reported.
#[test]
fn files_side_by_side(rt: HostRuntime) -> Result<(), Fail> {
    let alloc = rt.alloc();
    let dir = format!(in alloc; "{}.files", own_path(&rt)?)?;
    let _ = fs::remove_dir_all(&rt, &dir);
    fs::create_dir(&rt, &dir)?;
    let disk = Disk::new(&rt);
    for lengths in [
        [9_000_001, 0, 70_000].as_slice(),
        [9_000_001].as_slice(),
        [].as_slice(),
        [1_000; 21].as_slice(),
    ] {
        let (mut paths, wanted) = make_files(&rt, &dir, lengths)?;
        let found = disk.read_files(alloc, &paths);
        assert!(rt; found.is_ok_and(|found| found == wanted), "{lengths:?}");
        // neither is there, and a directory is not a file
        for (name, reason) in [("", Reason::NotAFile), ("none", Reason::System(2))] {
            paths.truncate(lengths.len());
            for name in [name, "none"] {
                paths.push(format!(in alloc; "{dir}/{name}")?)?;
            }
            let refused = disk.read_files(alloc, &paths).err();
            let wanted = (lengths.len(), StoreFault::Refused(reason));
            same(&rt, name, refused, Some(wanted));
        }
    }
    fs::remove_dir_all(&rt, &dir)?;
    Ok(())
}

// Writes three words, of which the second is the third call of the shelf, and fails. Gives what the file then holds.
fn written(alloc: Global, shelf: &mut Shelf) -> Result<String, StoreFault> {
    let mut writer = shelf.create_new("new")?;
    shelf.fail(3, UNSAID)?;
    shelf.write(&mut writer, b"one ")?;
    let _ = shelf.write(&mut writer, b"two ");
    shelf.write(&mut writer, b"three")?;
    letters(alloc, shelf, "new")
}

// A write counts as a call of the store in memory, and may be the one that fails.
#[test]
fn failing_write(rt: HostRuntime) -> Result<(), StoreFault> {
    let mut shelf = Shelf::new(rt.alloc())?;
    let text = written(rt.alloc(), &mut shelf)?;
    same(&rt, "text", text.as_str(), "one three");
    same(&rt, "calls", shelf.calls(), Ok(5));
    Ok(())
}

// Gives its bytes one at a time, but for one read, which fails.
#[derive(Drop)]
struct Faulty<'a> {
    rest: &'a [u8],
    reads: u64,
    fails_at: u64,
    kind: ErrorKind,
}

impl Read for Faulty<'_> {
    fn read(&mut self, buf: &mut [u8]) -> io::Result<usize> {
        self.reads = self.reads.saturating_add(1);
        if self.reads == self.fails_at {
            return Err(io::Error::from(self.kind));
        }
        match (buf.first_mut(), self.rest.split_first()) {
            (Some(place), Some((first, rest))) => {
                *place = *first;
                self.rest = rest;
                Ok(1)
            }
            _ => Ok(0),
        }
    }
}

// How many bytes a reader says that it has. It has four.
const LENGTHS: &[u64] = &[0, 1, 3, 4, 5, 100_000];

// The read to fail, how, and what becomes of reading the four bytes.
const FAILING: &[(u64, ErrorKind, Result<&[u8], StoreFault>)] = &[
    (0, ErrorKind::Other, Ok(b"abcd")),
    (1, ErrorKind::Other, Err(UNSAID)),
    (3, ErrorKind::Other, Err(UNSAID)),
    (5, ErrorKind::Other, Err(UNSAID)),
    (3, ErrorKind::OutOfMemory, Err(StoreFault::OutOfMemory)),
    (3, ErrorKind::Interrupted, Ok(b"abcd")),
];

// Reads four bytes where a read fails, and a length is reported.
fn assert_read<R: Abort + AllocGlobal>(
    rt: &R,
    (fails_at, kind, wanted): (u64, ErrorKind, Result<&[u8], StoreFault>),
    length: u64,
) {
    let mut reader = Faulty {
        rest: b"abcd",
        reads: 0,
        fails_at,
        kind,
    };
    let found = read_whole(rt.alloc(), &mut reader, length);
    let told = match &found {
        Ok(bytes) => Ok(bytes.as_slice()),
        Err(fault) => Err(*fault),
    };
    same(rt, (fails_at, length), told, wanted);
}

#[test]
fn failing_read(rt: HostRuntime) {
    for failing in FAILING {
        for length in LENGTHS {
            assert_read(&rt, *failing, *length);
        }
    }
}

// Read by more than one call, whatever length is reported.
#[test]
fn long_read(rt: HostRuntime) -> Result<(), StoreFault> {
    let bytes = bytes_of(rt.alloc(), 0, 200_000)?;
    for length in [0, 1, 65_536, 199_999, 200_000, 200_001, 1_000_000] {
        let read = read_whole(rt.alloc(), &mut bytes.as_slice(), length)?;
        same(&rt, length, read.as_slice() == bytes.as_slice(), true);
    }
    Ok(())
}

// Where the length that is reported is more than can be had, memory is out.
#[test]
fn length_past_memory(rt: HostRuntime) {
    let read = read_whole(rt.alloc(), &mut b"abcd".as_slice(), u64::MAX);
    same(&rt, "length", read.err(), Some(StoreFault::OutOfMemory));
}

// A reader that gives one byte a call is read to its end, and is refused where its third call fails.
#[test]
fn many_reads(rt: HostRuntime) -> Result<(), StoreFault> {
    let bytes = bytes_of(rt.alloc(), 0, 100_000)?;
    for (fails_at, wanted) in [(0, Ok(100_000)), (3, Err(UNSAID))] {
        let mut reader = Faulty {
            rest: bytes.as_slice(),
            reads: 0,
            fails_at,
            kind: ErrorKind::Other,
        };
        let found = read_whole(rt.alloc(), &mut reader, 0);
        same(&rt, fails_at, found.map(|read| read.len()), wanted);
    }
    Ok(())
}

// Entries of a directory, of which one may not be readable.
#[test]
fn names_of_entries(rt: HostRuntime) -> Result<(), StoreFault> {
    let alloc = rt.alloc();
    for unread in [0, 1, 2, 3] {
        let entries = (0..3).map(|entry| {
            if entry == unread {
                return Err(UNSAID);
            }
            Ok(format!(in alloc; "{entry}")?)
        });
        let found = names_of(alloc, entries);
        let wanted = if unread == 3 { Ok(3) } else { Err(UNSAID) };
        same(&rt, unread, found.map(|names| names.len()), wanted);
    }
    Ok(())
}
