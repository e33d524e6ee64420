//! The block of an hour, as it is cut, and whether it is in a directory already.

ghost use Rattle.std.specs.Prelude.{◌≡◌, All, IfOk, IsTrue, false, map};
ghost use Rattle.store.specs.Found.{Bytes};
ghost use Rattle.block_commands.specs.Folders.{block_files, chunks_in};
ghost use Rattle.rescue_commands.specs.Rescues.{Stands};
ghost use Rattle.rescue_commands.specs.Steps.{AreBlocksOf, IsBlockOfHead};

use crate::fault::pass_over;
use crate::naming::text_of;
use answers::Fault;
use block_commands::{of_cut, read_parts};
use block_cut::cut_any;
use block_read::{Block, Encoding, Ulid};
use head_column::Hour;
use head_core::Head;
use hw_bytes::Items;
use rayon::prelude::*;
use std::alloc::Global;
use std::thread::Threads;
use store::{Store, join};

/// An hour, and the name of its block.
#[derive(Clone, Copy, Debug)]
pub(crate) struct NamedHour {
    pub(crate) hour: Hour,
    pub(crate) ulid: Ulid,
}

/// The block of an hour, and its name.
pub(crate) struct NamedBlock {
    pub(crate) hour: Hour,
    pub(crate) ulid: Ulid,
    pub(crate) block: Block,
}

impl Drop for NamedBlock {
    fn drop(self) {
        let NamedBlock {
            hour: _,
            ulid: _,
            block: _block,
        } = self;
    }
}

/// Cuts an hour of a head, which must not have failed, into a block of this name with chunks that a server opens.
pub(crate) fn cut_hour<R: Threads + Sync>(
    rt: &R,
    alloc: Global,
    head: &Head,
    hour: Hour,
    ulid: Ulid,
) -> Result<NamedBlock, Fault>
    requires { head.now.failed ≡ false }
    ensures hour { IfOk result (λ named. named.hour ≡ hour) }
    ensures block { IfOk result (λ named. IsBlockOfHead head.now.content hour named.ulid named.block) }
{
    // for the proof: what holds of every ULID
    ulid.as_bytes();
    match cut_any(rt, alloc, head, hour, &ulid, Encoding::Xor) {
        Ok(block) => Ok(NamedBlock { hour, ulid, block }),
        Err(fault) => Err(of_cut(fault)),
    }
}

/// Cuts hours of a head, which must not have failed, side by side: in as many threads as there are processors.
pub(crate) fn cut_each<R: Threads + Sync>(
    rt: &R,
    alloc: Global,
    head: &Head,
    hours: &[NamedHour],
) -> Result<Vec<NamedBlock>, Fault>
    requires { head.now.failed ≡ false }
    ensures { IfOk result (λ blocks. AreBlocksOf head.now.content (map (λ it. it.hour) hours.now) blocks.items) }
{
    hours
        .par_iter()
        .with_min_len(1)
        .map(
            |it: &NamedHour| -> Result<NamedBlock, Fault>
                requires { head.now.failed ≡ false }
                ensures hour { IfOk result (λ named. named.hour ≡ it.now.hour) }
                ensures block { IfOk result (λ named. IsBlockOfHead head.entry.now.content it.now.hour named.ulid named.block) }
            { cut_hour(rt, alloc, head, it.hour, it.ulid) },
        )
        .collect::<Result<Vec<NamedBlock>, Fault>>(rt, alloc)?
}

// Returns whether two files have the same bytes.
fn is_same_file(file: &Items<u8>, other: &Items<u8>) -> bool
    ensures { IsTrue result → file.now ≡ other.now }
{
    file.as_slice() == other.as_slice()
}

// Returns whether these files have the same bytes.
fn are_same(files: &[Items<u8>], others: &[Items<u8>]) -> bool
    ensures { IsTrue result → files.now ≡ others.now }
{
    if files.len() != others.len() {
        return false;
    }
    for place in 0..files.len() {
        if !is_same_file(&files[place], &others[place]) {
            return false;
        }
    }
    true
}

// Returns whether two blocks have the same bytes.
fn is_same(block: &Block, other: &Block) -> bool
    ensures { IsTrue result → block.now ≡ other.now }
{
    is_same_file(&block.index, &other.index)
        && are_same(block.chunks.as_slice(), other.chunks.as_slice())
        && is_same_file(&block.tombstones, &other.tombstones)
        && is_same_file(&block.meta, &other.meta)
}

// Returns whether the files of a block are found in a folder. Where they cannot be read, they are not.
fn is_at<S: Store>(alloc: Global, store: &S, folder: &str, block: &Block) -> Result<bool, Fault>
    ensures { IfOk result (λ found. IsTrue found → All (λ file. S.holds store.now file.path (Bytes file.bytes)) (block_files folder.now (chunks_in folder.now) block.now)) }
{
    match read_parts(alloc, store, folder) {
        Ok(parts) => Ok(is_same(&parts, block)),
        Err(fault) => {
            pass_over(fault)?;
            Ok(false)
        }
    }
}

/// Returns whether the files of a block are found in the folder of its name in a directory. Where they cannot be read, they are not.
pub(crate) fn stands<S: Store>(
    alloc: Global,
    store: &S,
    out: &str,
    named: &NamedBlock,
) -> Result<bool, Fault>
    ensures { IfOk result (λ found. IsTrue found → Stands (S.holds store.now) out.now named.now.ulid named.now.block) }
{
    let name = text_of(alloc, &named.ulid)?;
    let folder = join(alloc, out, &name)?;
    is_at(alloc, store, &folder, &named.block)
}
