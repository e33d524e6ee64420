//! The command `block`.

use crate::parts::read_parts;
use crate::report::block_text;
use answers::{Answer, Fault, Status};
use block_read::{Block, read_any_block};
use std::alloc::Global;
use store::Store;

// Prints what the block of these parts holds.
fn told(alloc: Global, parts: &Block) -> Result<Answer, Fault> {
    let (encoding, rows) = read_any_block(alloc, parts)?;
    let text = block_text(alloc, encoding, &rows)?;
    Ok(Answer::done(text, Status::Done))
}

/// Prints what the block in a folder holds.
pub fn block<S: Store>(alloc: Global, store: &S, path: &str) -> Result<Answer, Fault> {
    let parts = read_parts(alloc, store, path)?;
    told(alloc, &parts)
}
