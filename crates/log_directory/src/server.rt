//! The least valid time of a server, by the blocks in its data directory.

ghost use Rattle.std.specs.Prelude.{◌≡◌, ◌↔◌, IfOk, IsTrue, map, string_bytes};
ghost use Rattle.block_files.specs.Ulids.{IsUlid};
ghost use Rattle.store.specs.Views.{view_of};
ghost use Rattle.log_directory.specs.Servers.{AreBlocksIn, AreBlocksOf, IsBlockIn, IsLeastValidOf};

use crate::directory::{names_in, read_in};
use crate::greatest::greatest_time;
use crate::meta::{BlockTimes, times_in};
use answers::Fault;
use block_files::Ulid;
use std::alloc::Global;
use store::{Store, join};

/// The name of the file in a block's folder that says what the block is.
const META: &str = "meta.json";

// Returns the fault of a block, by its folder, whose meta.json is none.
fn not_meta(alloc: Global, folder: &str) -> Fault {
    match join(alloc, folder, META) {
        Ok(path) => Fault::NotMeta { path },
        Err(_) => Fault::OutOfMemory,
    }
}

// Reads the times of the block of this name in a data directory.
fn block_in<S: Store>(alloc: Global, store: &S, dir: &str, name: &str) -> Result<BlockTimes, Fault>
    ensures { IfOk result (IsBlockIn (view_of (S.holds store.now)) dir.now name.now) }
{
    let folder = join(alloc, dir, name)?;
    let bytes = read_in(alloc, store, &folder, META)?;
    match times_in(alloc, bytes.as_slice())? {
        Some(times) => Ok(times),
        None => Err(not_meta(alloc, &folder)),
    }
}

// Returns whether a name is that of a block.
fn is_ulid(name: &str) -> bool
    ensures { IsTrue result ↔ IsUlid name.now }
{
    match Ulid::new(name) {
        Ok(ulid) => {
            // for the proof: what holds of every ULID
            ulid.as_bytes();
            true
        }
        Err(_) => false,
    }
}

// Reads the times of the blocks among these names in a data directory.
fn blocks_of<S: Store>(
    alloc: Global,
    store: &S,
    dir: &str,
    names: &[String],
) -> Result<Vec<BlockTimes>, Fault>
    ensures { IfOk result (λ blocks. AreBlocksOf (view_of (S.holds store.now)) dir.now (map string_bytes names.now) blocks.items) }
{
    let mut blocks = Vec::new(alloc);
    for name in names {
        let text = name.as_str();
        if is_ulid(text) {
            let block = block_in(alloc, store, dir, text)?;
            blocks.push(block)?;
        }
    }
    Ok(blocks)
}

// Reads the times of the blocks in a data directory.
fn blocks_in<S: Store>(alloc: Global, store: &S, dir: &str) -> Result<Vec<BlockTimes>, Fault>
    ensures { IfOk result (λ blocks. AreBlocksIn (view_of (S.holds store.now)) dir.now blocks.items) }
{
    let names = names_in(alloc, store, dir)?;
    blocks_of(alloc, store, dir, &names)
}

/// Returns the least valid time of a server with this data directory, in milliseconds: the greatest time of its blocks, but for those of
/// samples that came late, or `i64::MIN` where there is no other. A block is what has a ULID for its name. Returns `CannotRead` where the
/// directory or a block's meta.json cannot be read, and `NotMeta` where a meta.json does not say what `times_in` finds.
pub fn min_valid_of<S: Store>(alloc: Global, store: &S, dir: &str) -> Result<i64, Fault>
    ensures { IfOk result (IsLeastValidOf (view_of (S.holds store.now)) dir.now) }
{
    let blocks = blocks_in(alloc, store, dir)?;
    Ok(greatest_time(&blocks).unwrap_or(i64::MIN))
}
