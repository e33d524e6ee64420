//! The command `rescue`: all that can be read of a log becomes blocks.

ghost use Rattle.std.specs.Prelude.{◌≡◌, IfOk, IsOk, None, false};
ghost use Rattle.answers.specs.declared.fault.Status.TheVariants.{Done};
ghost use Rattle.rescue_commands.specs.Rescues.{IsWell, RescuesBlocks, TellsLost};
ghost use Rattle.rescue_commands.specs.Steps.{WritesHead};

use crate::fault::failed;
use crate::hours::write_hours;
use crate::report::{Rescued, Telling};
use crate::run::Run;
use answers::{Answer, Fault, RescueRequest};
use block_read::Ulid;
use head_core::{Counts, Head};
use log_directory::{FileRead, RescuedHead, rescued_head};
use progress::Progress;
use std::alloc::Global;
use std::sync::Wait;
use std::thread::Threads;
use store::{PartStore, Store};

// Returns the data directory whose blocks gave the least valid time, if they gave one.
fn data_of<'a>(request: &RescueRequest<'a>) -> Option<&'a str> {
    if request.options.min_valid == i64::MIN {
        return None;
    }
    request.data
}

// Returns what is reported besides the blocks.
fn telling_of<'a>(request: RescueRequest<'a>, files: Vec<FileRead>, counts: Counts) -> Telling<'a> {
    Telling::Rescue(Rescued {
        data: data_of(&request),
        min_valid: request.options.min_valid,
        files,
        unknown: counts.unknown,
        unknown_deletions: counts.unknown_stones,
        json: request.json,
    })
}

// Writes the blocks of a head of all that can be read of a log, and returns the text that is printed.
fn write_rescued<R: Threads + Sync, S: Store>(
    rt: &R,
    alloc: Global,
    store: &mut S,
    head: &Head,
    request: RescueRequest<'_>,
    first: Ulid,
    files: Vec<FileRead>,
) -> Result<String, Fault>
    requires { head.now.failed ≡ false }
    ensures crash { WritesHead S.did S.holds request.entry.out.now head.now.content store.old (IsOk result) store.new }
{
    let telling = telling_of(request, files, head.counts());
    let mut run = Run::new(alloc, &telling, first)?;
    write_hours(rt, alloc, store, head, request.out, &mut run)?;
    Ok(run.into_text())
}

// Carries out a request, or returns why it failed.
fn execute<R: Threads + Wait + Sync, S: PartStore + Sync, P: Progress + Sync>(
    rt: &R,
    alloc: Global,
    store: &mut S,
    progress: &P,
    request: RescueRequest<'_>,
) -> Result<Answer, Fault>
where
    S::Reader: Send,
    S::Writer: Send,
    ensures crash { RescuesBlocks S.did S.holds store.old request.entry (IsOk result) (λ own. IfOk result (λ answer. TellsLost answer own)) store.new }
    ensures done { IfOk result (λ answer. answer.status ≡ Done → answer.fault ≡ None) }
{
    let Ok(ulid) = Ulid::new(request.ulid) else {
        return Err(Fault::BadUlid);
    };
    let log = rescued_head(rt, alloc, store, progress, request.dir, &request.options)?;
    let RescuedHead { head, flaw, files } = log;
    let text = write_rescued(rt, alloc, store, &head, request, ulid, files)?;
    Ok(Answer::up_to(text, flaw))
}

/// Carries out a request: writes a block for each hour of all that can be read of a log, and says which, what was read of each file and what is
/// lost. Nothing is written if the name that is given is not a ULID. Where it fails, the blocks of the hours before are written, and a later run
/// leaves them.
pub fn carry_out_rescue<R: Threads + Wait + Sync, S: PartStore + Sync, P: Progress + Sync>(
    rt: &R,
    alloc: Global,
    store: &mut S,
    progress: &P,
    request: RescueRequest<'_>,
) -> Answer
where
    S::Reader: Send,
    S::Writer: Send,
    ensures crash { RescuesBlocks S.did S.holds store.old request.entry (IsWell result) (TellsLost result) store.new }
    // Status 0 is that of a run after which no fault is reported.
    ensures done { result.status ≡ Done → result.fault ≡ None }
{
    match execute(rt, alloc, store, progress, request) {
        Ok(answer) => answer,
        Err(fault) => failed(alloc, fault),
    }
}
