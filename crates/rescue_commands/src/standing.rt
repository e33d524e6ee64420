//! The blocks that are in a directory, by what their meta.json says.

use crate::fault::pass_over;
use answers::Fault;
use block_read::Ulid;
use log_directory::read_in;
use serde_json::Value;
use std::alloc::{AllocError, Global};
use store::{Store, join};

/// A block that is in a directory: its name, its first millisecond and the first one after it.
#[derive(Clone, Copy, Debug)]
pub(crate) struct Standing {
    pub(crate) ulid: Ulid,
    pub(crate) from: i64,
    pub(crate) to: i64,
}

// Returns the times that a meta.json says.
fn times_of(meta: &Value) -> Option<(i64, i64)> {
    let from = meta.get("minTime")?.as_i64()?;
    let to = meta.get("maxTime")?.as_i64()?;
    Some((from, to))
}

// Returns the times that these bytes say as the text of a meta.json, or `None` where they are no such text.
fn times_in(alloc: Global, bytes: &[u8]) -> Result<Option<(i64, i64)>, AllocError> {
    match Value::from_slice(alloc, bytes) {
        Ok(meta) => Ok(times_of(&meta)),
        Err(error) if error.is_memory() => Err(AllocError),
        Err(_) => Ok(None),
    }
}

// Returns the times of the block of this name in a directory, or `None` where its meta.json cannot be read.
fn times_at<S: Store>(
    alloc: Global,
    store: &S,
    out: &str,
    name: &str,
) -> Result<Option<(i64, i64)>, Fault> {
    let folder = join(alloc, out, name)?;
    match read_in(alloc, store, &folder, "meta.json") {
        Ok(bytes) => Ok(times_in(alloc, bytes.as_slice())?),
        Err(fault) => {
            pass_over(fault)?;
            Ok(None)
        }
    }
}

// Adds the block of this name in a directory, if it is one.
fn push_standing<S: Store>(
    alloc: Global,
    store: &S,
    out: &str,
    name: &str,
    blocks: &mut Vec<Standing>,
) -> Result<(), Fault> {
    let Ok(ulid) = Ulid::new(name) else {
        return Ok(());
    };
    if let Some((from, to)) = times_at(alloc, store, out, name)? {
        blocks.push(Standing { ulid, from, to })?;
    }
    Ok(())
}

/// Returns the blocks among these names of a directory. A folder without a meta.json that can be read is passed over.
pub(crate) fn standing_in<S: Store>(
    alloc: Global,
    store: &S,
    out: &str,
    names: &[String],
) -> Result<Vec<Standing>, Fault> {
    let mut blocks = Vec::new(alloc);
    for name in names {
        push_standing(alloc, store, out, name, &mut blocks)?;
    }
    Ok(blocks)
}
