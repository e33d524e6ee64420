//! The command `blocks`: a log becomes blocks.

ghost use Rattle.std.specs.Prelude.{◌≡◌, IfOk, IsOk, None};
ghost use Rattle.answers.specs.declared.fault.Status.TheVariants.{Done};
ghost use Rattle.rescue_commands.specs.Rescues.{IsWell, TellsLost, WritesBlocks};

use crate::fault::failed;
use crate::passes::write_passes;
use crate::planning::bounds_for;
use crate::report::Telling;
use crate::run::Run;
use answers::{Answer, BlocksRequest, Fault};
use block_read::Ulid;
use progress::Progress;
use std::alloc::Global;
use std::sync::Wait;
use std::thread::Threads;
use store::PartStore;

// Carries out a request, or returns why it failed.
fn execute<R: Threads + Wait + Sync, S: PartStore + Sync, P: Progress + Sync>(
    rt: &R,
    alloc: Global,
    store: &mut S,
    progress: &P,
    request: BlocksRequest<'_>,
) -> Result<Answer, Fault>
where
    S::Reader: Send,
    S::Writer: Send,
    ensures crash { WritesBlocks S.did S.holds store.old request.entry (IsOk result) (λ own. IfOk result (λ answer. TellsLost answer own)) store.new }
    ensures done { IfOk result (λ answer. answer.status ≡ Done → answer.fault ≡ None) }
{
    let Ok(ulid) = Ulid::new(request.ulid) else {
        return Err(Fault::BadUlid);
    };
    let bounds = bounds_for(alloc, store, &request)?;
    let telling = Telling::Blocks {
        passes: bounds.len() + 1,
    };
    let mut run = Run::new(alloc, &telling, ulid)?;
    let flaw = write_passes(rt, alloc, store, progress, request, &bounds, &mut run)?;
    Ok(Answer::up_to(run.into_text(), flaw))
}

/// Carries out a request: writes a block for each hour of a log that has a sample, and says which. Where the head of the whole log takes more memory
/// than it may, the log is read once for each group of hours, as it is then. Nothing is written if the name that is given is not a ULID, or if the
/// log is damaged and not read past its damage. If parts of the log are lost, that is reported besides the blocks. Where it fails, the blocks of the
/// hours before are written, and a later run leaves them.
pub fn carry_out_blocks<R: Threads + Wait + Sync, S: PartStore + Sync, P: Progress + Sync>(
    rt: &R,
    alloc: Global,
    store: &mut S,
    progress: &P,
    request: BlocksRequest<'_>,
) -> Answer
where
    S::Reader: Send,
    S::Writer: Send,
    ensures crash { WritesBlocks S.did S.holds store.old request.entry (IsWell result) (TellsLost result) store.new }
    // Status 0 is that of a run after which no fault is reported.
    ensures done { result.status ≡ Done → result.fault ≡ None }
{
    match execute(rt, alloc, store, progress, request) {
        Ok(answer) => answer,
        Err(fault) => failed(alloc, fault),
    }
}
