//! The commands about blocks.

ghost use Rattle.std.specs.Prelude.{◌≡◌, IsOk, MatchResult};
ghost use Rattle.store.specs.Views.{view_of};
ghost use Rattle.block_commands.specs.Folders.{CarriesOut};
ghost use Rattle.block_commands.specs.Printed.{Prints, Refuses};

use crate::blocks::block;
use crate::cutting::cut_hour;
use crate::ranges::ranges;
use answers::{Answer, BlockRequest, Fault, Status};
use progress::Progress;
use std::alloc::Global;
use std::sync::Wait;
use std::thread::Threads;
use store::PartStore;

fn execute<R: Threads + Wait + Sync, S: PartStore + Sync, P: Progress + Sync>(
    rt: &R,
    alloc: Global,
    store: &mut S,
    progress: &P,
    request: BlockRequest<'_>,
) -> Result<Answer, Fault>
where
    S::Reader: Send,
    S::Writer: Send,
    ensures crash { CarriesOut S.did S.holds store.old request.entry (IsOk result) store.new }
    ensures printed { MatchResult result (Prints (view_of (S.holds store.old)) request.entry) (Refuses request.entry) }
{
    match request {
        BlockRequest::Ranges { dir, form, options } => {
            ranges(rt, alloc, store, progress, dir, form, &options)
        }
        BlockRequest::Cut(request) => cut_hour(rt, alloc, store, progress, request),
        BlockRequest::Block { path } => block(alloc, store, path),
    }
}

/// Carries out a request about blocks. A crash at any moment leaves the block whole or what was before, and after status `Done` it is
/// whole. A block is made with one thread for each processor of `rt`.
pub fn carry_out_block<R: Threads + Wait + Sync, S: PartStore + Sync, P: Progress + Sync>(
    rt: &R,
    alloc: Global,
    store: &mut S,
    progress: &P,
    request: BlockRequest<'_>,
) -> Answer
where
    S::Reader: Send,
    S::Writer: Send,
    ensures crash { CarriesOut S.did S.holds store.old request.entry (result.status ≡ Status.Done) store.new }
    ensures printed { Prints (view_of (S.holds store.old)) request.entry result }
{
    match execute(rt, alloc, store, progress, request) {
        Ok(answer) => answer,
        Err(fault) => Answer::failed(alloc, fault),
    }
}
