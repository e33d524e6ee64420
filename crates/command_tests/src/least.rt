//! The least valid time of a data directory in a store of which one call fails. What it is where none fails is in examples/cases.

use crate::checks::{UNSAID, same};
use crate::shelf::Shelf;
use log_directory::min_valid_of;
use std::alloc::Global;
use store::StoreFault;

// What is in the data directory: directories, whose paths end in `/`, and files with their bytes.
const STANDING: &[(&str, &[u8])] = &[
    ("data/", b""),
    ("data/01ARZ3NDEKTSV4RRFFQ69G5FAV/", b""),
    (
        "data/01ARZ3NDEKTSV4RRFFQ69G5FAV/meta.json",
        b"{\"maxTime\":-7}",
    ),
    ("data/01ARZ3NDEKTSV4RRFFQ69G5FAW/", b""),
    (
        "data/01ARZ3NDEKTSV4RRFFQ69G5FAW/meta.json",
        b"{\"maxTime\":-8}",
    ),
    ("data/wal/", b""),
];

// Returns the least valid time, or what is said, where a call fails.
fn least_where(
    alloc: Global,
    call: u64,
    fault: StoreFault,
) -> Result<(Option<i64>, String), StoreFault> {
    let mut shelf = Shelf::new(alloc)?;
    for (path, bytes) in STANDING {
        match path.strip_suffix('/') {
            Some(dir) => shelf.put_dir(dir)?,
            None => shelf.put(path, bytes)?,
        }
    }
    shelf.fail(call, fault)?;
    match min_valid_of(alloc, &shelf, "data") {
        Ok(least) => Ok((Some(least), String::new(alloc))),
        Err(fault) => Ok((None, fault.to_string(alloc)?)),
    }
}

// Nothing is read after a read that failed.
#[test]
fn each_read_of_blocks_fails(rt: HostRuntime) -> Result<(), StoreFault> {
    for (call, least, said) in [
        (1, None, "cannot read data"),
        (
            2,
            None,
            "cannot read data/01ARZ3NDEKTSV4RRFFQ69G5FAV/meta.json",
        ),
        (
            3,
            None,
            "cannot read data/01ARZ3NDEKTSV4RRFFQ69G5FAW/meta.json",
        ),
        (4, Some(-7), ""),
    ] {
        let found = least_where(rt.alloc(), call, UNSAID)?;
        same(&rt, call, (found.0, found.1.as_str()), (least, said));
        let out = if least.is_none() { "out of memory" } else { "" };
        let found = least_where(rt.alloc(), call, StoreFault::OutOfMemory)?;
        same(&rt, call, (found.0, found.1.as_str()), (least, out));
    }
    Ok(())
}
