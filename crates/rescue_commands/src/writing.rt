//! Writing the blocks of some hours of a head.

ghost use Rattle.std.specs.Prelude.{◌≡◌, IsOk, OnErr, OnOk, ⊤, false};
ghost use Rattle.block_commands.specs.Folders.{WritesBlock};
ghost use Rattle.rescue_commands.specs.Rescues.{HasBlock, HaveBlocks};
ghost use Rattle.rescue_commands.specs.Steps.{AreBlocksOf, IsBlockOfHead, LeavesBlock, LeavesHour};

use crate::cutting::{NamedBlock, cut_each, cut_hour};
use crate::naming::text_of;
use crate::run::Run;
use crate::shelf::Shelf;
use answers::Fault;
use block_commands::write_block;
use head_column::Hour;
use head_core::Head;
use std::alloc::Global;
use std::thread::Threads;
use store::Store;

// Writes a block under its name in a directory.
fn put_block<S: Store>(
    alloc: Global,
    store: &mut S,
    out: &str,
    named: &NamedBlock,
) -> Result<(), Fault>
    ensures { WritesBlock S.did S.holds store.old out.now named.now.ulid named.now.block (IsOk result) store.new }
{
    // for the proof: what holds of every ULID
    named.ulid.as_bytes();
    let name = text_of(alloc, &named.ulid)?;
    write_block(alloc, store, out, &name, &named.block)
}

// Writes the block of an hour, and notes it.
fn write_cut<S: Store>(
    alloc: Global,
    store: &mut S,
    named: &NamedBlock,
    shelf: &Shelf<'_>,
    run: &mut Run<'_>,
) -> Result<(), Fault>
    ensures done { OnOk result (WritesBlock S.did S.holds store.old shelf.now.out.now named.now.ulid named.now.block ⊤ store.new) }
    ensures failed { OnErr result (LeavesBlock S.did S.holds shelf.now.out.now store.old named.now store.new) }
{
    run.note(alloc, named, true)?;
    put_block(alloc, store, shelf.out, named)
}

// Writes the blocks of hours, one after another.
fn write_blocks<S: Store>(
    alloc: Global,
    store: &mut S,
    head: &Head,
    hours: &[Hour],
    blocks: &[NamedBlock],
    shelf: &Shelf<'_>,
    run: &mut Run<'_>,
) -> Result<(), Fault>
    requires { AreBlocksOf head.now.content hours.now blocks.now }
    ensures { HaveBlocks S.did S.holds shelf.now.out.now (IsBlockOfHead head.now.content) store.old hours.now (IsOk result) store.new }
{
    for named in blocks {
        write_cut(alloc, store, named, shelf, run)?;
    }
    Ok(())
}

// Cuts hours of a head side by side, and writes their blocks, of which none is in the directory.
fn write_new<R: Threads + Sync, S: Store>(
    rt: &R,
    alloc: Global,
    store: &mut S,
    head: &Head,
    hours: &[Hour],
    shelf: &Shelf<'_>,
    run: &mut Run<'_>,
) -> Result<(), Fault>
    requires { head.now.failed ≡ false }
    ensures { HaveBlocks S.did S.holds shelf.now.out.now (IsBlockOfHead head.now.content) store.old hours.now (IsOk result) store.new }
{
    let named = run.name_each(alloc, hours, &shelf.names)?;
    let blocks = cut_each(rt, alloc, head, &named)?;
    write_blocks(alloc, store, head, hours, &blocks, shelf, run)
}

// Cuts an hour of a head and writes its block.
fn write_missing<R: Threads + Sync, S: Store>(
    rt: &R,
    alloc: Global,
    store: &mut S,
    head: &Head,
    hour: Hour,
    shelf: &Shelf<'_>,
    run: &mut Run<'_>,
) -> Result<(), Fault>
    requires { head.now.failed ≡ false }
    ensures done { OnOk result (HasBlock S.did S.holds shelf.now.out.now (IsBlockOfHead head.now.content) store.old hour store.new) }
    ensures failed { OnErr result (LeavesHour S.did S.holds shelf.now.out.now head.now.content store.old hour store.new) }
{
    let ulid = run.next_name(&shelf.names)?;
    let named = cut_hour(rt, alloc, head, hour, ulid)?;
    write_cut(alloc, store, &named, shelf, run)
}

// Writes the block of an hour of a head, unless it is in the directory.
fn write_hour<R: Threads + Sync, S: Store>(
    rt: &R,
    alloc: Global,
    store: &mut S,
    head: &Head,
    hour: Hour,
    shelf: &Shelf<'_>,
    run: &mut Run<'_>,
) -> Result<(), Fault>
    requires { head.now.failed ≡ false }
    ensures done { OnOk result (HasBlock S.did S.holds shelf.now.out.now (IsBlockOfHead head.now.content) store.old hour store.new) }
    ensures failed { OnErr result (LeavesHour S.did S.holds shelf.now.out.now head.now.content store.old hour store.new) }
{
    match shelf.find(rt, alloc, store, head, hour)? {
        Some(named) => Ok(run.note(alloc, &named, false)?),
        None => write_missing(rt, alloc, store, head, hour, shelf, run),
    }
}

// Writes the blocks of hours of a head, each unless it is in the directory.
fn write_missing_of<R: Threads + Sync, S: Store>(
    rt: &R,
    alloc: Global,
    store: &mut S,
    head: &Head,
    hours: &[Hour],
    shelf: &Shelf<'_>,
    run: &mut Run<'_>,
) -> Result<(), Fault>
    requires { head.now.failed ≡ false }
    ensures { HaveBlocks S.did S.holds shelf.now.out.now (IsBlockOfHead head.now.content) store.old hours.now (IsOk result) store.new }
{
    for hour in hours {
        write_hour(rt, alloc, store, head, *hour, shelf, run)?;
    }
    Ok(())
}

/// Writes the blocks of hours of a head, which must not have failed, each unless it is in the directory. All that are written are in memory
/// before the first is.
pub(crate) fn write_next<R: Threads + Sync, S: Store>(
    rt: &R,
    alloc: Global,
    store: &mut S,
    head: &Head,
    hours: &[Hour],
    shelf: &Shelf<'_>,
    run: &mut Run<'_>,
) -> Result<(), Fault>
    requires { head.now.failed ≡ false }
    ensures { HaveBlocks S.did S.holds shelf.now.out.now (IsBlockOfHead head.now.content) store.old hours.now (IsOk result) store.new }
{
    if shelf.has_any(hours) {
        return write_missing_of(rt, alloc, store, head, hours, shelf, run);
    }
    write_new(rt, alloc, store, head, hours, shelf, run)
}
