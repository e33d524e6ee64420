//! Blocks written into folders, and read from them.

use crate::checks::{ULID, UNSAID, assert_names, same};
use crate::shelf::Shelf;
use answers::Fault;
use block_commands::{read_parts, write_block};
use block_read::{Block, Ulid};
use hw_bytes::Items;
use std::alloc::{AllocError, Global};
use std::process::Abort;
use store::{Store, StoreFault};

fn items(alloc: Global, bytes: &[u8]) -> Result<Items<u8>, AllocError> {
    Ok(Items::from_vec(Vec::from_slice(alloc, bytes)?))
}

// Parts that are no block, with as many chunk files. Neither writing nor reading them judges them.
fn parts(alloc: Global, chunk_files: u8) -> Result<Block, AllocError> {
    let mut chunks = Vec::new(alloc);
    for number in 0..chunk_files {
        chunks.push(items(alloc, &[number])?)?;
    }
    Ok(Block {
        index: items(alloc, b"the index")?,
        chunks: Items::from_vec(chunks),
        tombstones: items(alloc, b"the tombstones")?,
        meta: items(alloc, b"the meta")?,
    })
}

fn assert_file<R: Abort + AllocGlobal>(
    rt: &R,
    shelf: &Shelf,
    name: &str,
    wanted: &[u8],
) -> Result<(), StoreFault> {
    let found = shelf.read(&format!(in rt.alloc(); "out/{ULID}/{name}")?)?;
    same(rt, name, found.as_slice(), wanted);
    Ok(())
}

// Ends the test unless these are the same parts.
fn assert_parts(rt: &impl Abort, found: &Block, wanted: &Block) {
    same(rt, "index", found.index.as_slice(), wanted.index.as_slice());
    same(rt, "chunk files", found.chunks.len(), wanted.chunks.len());
    for (found, wanted) in found.chunks.as_slice().iter().zip(wanted.chunks.as_slice()) {
        same(rt, "chunks", found.as_slice(), wanted.as_slice());
    }
    let stones = wanted.tombstones.as_slice();
    same(rt, "tombstones", found.tombstones.as_slice(), stones);
    same(rt, "meta", found.meta.as_slice(), wanted.meta.as_slice());
}

// What a fault says, nothing for none.
fn said(alloc: Global, outcome: &Result<(), Fault>) -> Result<String, AllocError> {
    match outcome {
        Ok(()) => Ok(String::new(alloc)),
        Err(fault) => fault.to_string(alloc),
    }
}

// Writes parts into `out`, and gives what is said.
fn write(alloc: Global, shelf: &mut Shelf, block: &Block) -> Result<String, StoreFault> {
    let Ok(ulid) = Ulid::new(ULID) else {
        return Err(UNSAID);
    };
    // for the proof: what holds of every ULID
    ulid.as_bytes();
    let outcome = write_block(alloc, shelf, "out", ULID, block);
    Ok(said(alloc, &outcome)?)
}

// Writes parts with two chunk files, where a call of the store fails.
fn write_failing(alloc: Global, failure: (u64, StoreFault)) -> Result<(Shelf, String), StoreFault> {
    let mut shelf = Shelf::new(alloc)?;
    shelf.put_dir("out")?;
    shelf.fail(failure.0, failure.1)?;
    let said = write(alloc, &mut shelf, &parts(alloc, 2)?)?;
    Ok((shelf, said))
}

// The files of a block with two chunk files, and their bytes.
const FILES: &[(&str, &[u8])] = &[
    ("index", b"the index"),
    ("chunks/000001", b"\0"),
    ("chunks/000002", b"\x01"),
    ("tombstones", b"the tombstones"),
    ("meta.json", b"the meta"),
];

// Ends the test unless the folder of a block with two chunk files is whole.
fn assert_folder<R: Abort + AllocGlobal>(rt: &R, shelf: &Shelf) -> Result<(), StoreFault> {
    let folder = format!(in rt.alloc(); "out/{ULID}")?;
    assert_names(rt, shelf, &folder, " chunks index tombstones meta.json")?;
    for (name, bytes) in FILES {
        assert_file(rt, shelf, name, bytes)?;
    }
    Ok(())
}

#[test]
fn written_and_read(rt: HostRuntime) -> Result<(), StoreFault> {
    let (mut shelf, said) = write_failing(rt.alloc(), (0, UNSAID))?;
    same(&rt, "said", said.as_str(), "");
    same(&rt, "calls", shelf.calls(), Ok(22));
    assert_names(&rt, &shelf, "out", " 01ARZ3NDEKTSV4RRFFQ69G5FAV")?;
    assert_folder(&rt, &shelf)
}

// Twelve chunk files, whose names are listed in another order than that of their numbers where they are not filled up with zeros.
#[test]
fn many_chunk_files(rt: HostRuntime) -> Result<(), StoreFault> {
    let alloc = rt.alloc();
    let mut shelf = Shelf::new(alloc)?;
    shelf.put_dir("out")?;
    let block = parts(alloc, 12)?;
    let said = write(alloc, &mut shelf, &block)?;
    same(&rt, "said", said.as_str(), "");
    let folder = format!(in alloc; "out/{ULID}")?;
    match read_parts(alloc, &shelf, &folder) {
        Ok(found) => assert_parts(&rt, &found, &block),
        Err(fault) => same(&rt, "read", fault.to_string(alloc)?.as_str(), ""),
    }
    Ok(())
}

// What is said where a call fails, below `out/`.
const CALLS: &[(u64, &str)] = &[
    (1, "01ARZ3NDEKTSV4RRFFQ69G5FAV.tmp"),
    (2, "01ARZ3NDEKTSV4RRFFQ69G5FAV.tmp"),
    (3, "01ARZ3NDEKTSV4RRFFQ69G5FAV.tmp/chunks"),
    (4, "01ARZ3NDEKTSV4RRFFQ69G5FAV.tmp/index"),
    (5, "01ARZ3NDEKTSV4RRFFQ69G5FAV.tmp/index"),
    (6, "01ARZ3NDEKTSV4RRFFQ69G5FAV.tmp/index"),
    (7, "01ARZ3NDEKTSV4RRFFQ69G5FAV.tmp/chunks/000001"),
    (8, "01ARZ3NDEKTSV4RRFFQ69G5FAV.tmp/chunks/000001"),
    (9, "01ARZ3NDEKTSV4RRFFQ69G5FAV.tmp/chunks/000001"),
    (10, "01ARZ3NDEKTSV4RRFFQ69G5FAV.tmp/chunks/000002"),
    (11, "01ARZ3NDEKTSV4RRFFQ69G5FAV.tmp/chunks/000002"),
    (12, "01ARZ3NDEKTSV4RRFFQ69G5FAV.tmp/chunks/000002"),
    (13, "01ARZ3NDEKTSV4RRFFQ69G5FAV.tmp/tombstones"),
    (14, "01ARZ3NDEKTSV4RRFFQ69G5FAV.tmp/tombstones"),
    (15, "01ARZ3NDEKTSV4RRFFQ69G5FAV.tmp/tombstones"),
    (16, "01ARZ3NDEKTSV4RRFFQ69G5FAV.tmp/meta.json"),
    (17, "01ARZ3NDEKTSV4RRFFQ69G5FAV.tmp/meta.json"),
    (18, "01ARZ3NDEKTSV4RRFFQ69G5FAV.tmp/meta.json"),
    (19, "01ARZ3NDEKTSV4RRFFQ69G5FAV.tmp/chunks"),
    (20, "01ARZ3NDEKTSV4RRFFQ69G5FAV.tmp"),
    (21, "01ARZ3NDEKTSV4RRFFQ69G5FAV"),
    (22, "01ARZ3NDEKTSV4RRFFQ69G5FAV"),
];

// Writes where a call fails: nothing is done after it, and the block's folder is not there, but where it is the last call that fails.
fn assert_write_fails<R: Abort + AllocGlobal>(
    rt: &R,
    call: u64,
    fault: StoreFault,
    wanted: &str,
) -> Result<(), StoreFault> {
    let (mut shelf, said) = write_failing(rt.alloc(), (call, fault))?;
    same(rt, call, said.as_str(), wanted);
    same(rt, call, shelf.calls(), Ok(call));
    let standing = match call {
        1 | 2 => "",
        22 => " 01ARZ3NDEKTSV4RRFFQ69G5FAV",
        _ => " 01ARZ3NDEKTSV4RRFFQ69G5FAV.tmp",
    };
    assert_names(rt, &shelf, "out", standing)
}

#[test]
fn each_call_of_writing_fails(rt: HostRuntime) -> Result<(), StoreFault> {
    for (call, path) in CALLS {
        let said = format!(in rt.alloc(); "cannot write out/{path}")?;
        assert_write_fails(&rt, *call, UNSAID, &said)?;
        assert_write_fails(&rt, *call, StoreFault::OutOfMemory, "out of memory")?;
    }
    Ok(())
}

// A name that only begins like the block's is in nobody's way.
#[test]
fn names_beside_the_block(rt: HostRuntime) -> Result<(), StoreFault> {
    let alloc = rt.alloc();
    for name in [
        "01ARZ3NDEKTSV4RRFFQ69G5FAV.tmp.tmp",
        "01ARZ3NDEKTSV4RRFFQ69G5FA",
        ".tmp",
    ] {
        let mut shelf = Shelf::new(alloc)?;
        shelf.put_dir("out")?;
        shelf.put_dir(&format!(in alloc; "out/{name}")?)?;
        let said = write(alloc, &mut shelf, &parts(alloc, 1)?)?;
        same(&rt, name, said.as_str(), "");
    }
    Ok(())
}
