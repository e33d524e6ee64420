//! Writing a block for each hour of a head.

ghost use Rattle.std.specs.Prelude.{◌≡◌, ◌<◌, IsOk, false};
ghost use Rattle.rescue_commands.specs.Rescues.{HaveBlocks};
ghost use Rattle.rescue_commands.specs.Steps.{IsBlockOfHead, WritesHead};

use crate::run::Run;
use crate::shelf::{Shelf, shelf_of};
use crate::writing::write_next;
use answers::Fault;
use block_cut::sampled_hours;
use head_column::Hour;
use head_core::Head;
use std::alloc::Global;
use std::thread::Threads;
use store::Store;

// At most so many hours are cut side by side.
const MOST_HOURS: usize = 3;
// The blocks that are in memory at once have about so many series together, unless it is one block.
const MOST_SERIES: usize = 100_000;

// Returns how many hours of a head are cut side by side: one where memory is short, as it is in passes.
fn hours_at_once(head: &Head, in_passes: bool) -> usize
    requires { head.now.failed ≡ false }
    ensures { 0 < result }
{
    if in_passes {
        return 1;
    }
    let series = head.series().max(1);
    (MOST_SERIES / series).clamp(1, MOST_HOURS)
}

// Writes the blocks of hours of a head, some at a time.
fn write_each<R: Threads + Sync, S: Store>(
    rt: &R,
    alloc: Global,
    store: &mut S,
    head: &Head,
    hours: &[Hour],
    shelf: &Shelf<'_>,
    run: &mut Run<'_>,
) -> Result<(), Fault>
    requires { head.now.failed ≡ false }
    ensures { HaveBlocks S.did S.holds shelf.now.out.now (IsBlockOfHead head.now.content) store.old hours.now (IsOk result) store.new }
{
    let at_once = hours_at_once(head, run.is_in_passes());
    let mut rest = hours;
    while !rest.is_empty() {
        let (next, later) = rest.split_at(at_once.min(rest.len()));
        write_next(rt, alloc, store, head, next, shelf, run)?;
        rest = later;
    }
    Ok(())
}

/// Writes a block for each hour of a head with an accepted sample in the directory `out`, unless it is there, and notes it. The names are those that
/// come next in the run. Names that are taken are passed over. The head must not have failed.
pub(crate) fn write_hours<R: Threads + Sync, S: Store>(
    rt: &R,
    alloc: Global,
    store: &mut S,
    head: &Head,
    out: &str,
    run: &mut Run<'_>,
) -> Result<(), Fault>
    requires { head.now.failed ≡ false }
    ensures crash { WritesHead S.did S.holds out.now head.now.content store.old (IsOk result) store.new }
{
    let hours = sampled_hours(alloc, head)?;
    let shelf = shelf_of(alloc, store, out, !hours.is_empty())?;
    run.expect(hours.len());
    write_each(rt, alloc, store, head, &hours, &shelf, run)
}
