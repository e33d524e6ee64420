//! The commands that write, over a list of files: what is before them and after them, and what a crash at any moment leaves.

ghost use Rattle.std.specs.Prelude.{◌≡◌, [], false, map, true};
ghost use Rattle.unpack_command.specs.Folders.{ending_of};
ghost use Rattle.unpack_command.specs.Rescues.{rescue_ending_of};
ghost use Rattle.command_tests.specs.Listings.{file_of};
ghost use Rattle.command_tests.specs.Noted.{calls_of};
ghost use Rattle.command_tests.specs.Outlasts.{AppendOutlasts, CheckpointOutlasts, CutOutlasts, RescueOutlasts, UnpackOutlasts};

use crate::listed::Listed;
use crate::listing::Listing;
use crate::noted_call::NotedCall;
use answers::{Answer, LogForm, Status, UnpackRequest};
use block_commands::{BlockRequest, CutRequest, carry_out_block};
use head_replay::NoGate;
use std::alloc::Global;
use std::sync::Wait;
use std::thread::Threads;
use unpack_command::carry_out_unpack;
use write_commands::{AppendRequest, CheckpointRequest, carry_out_append, carry_out_checkpoint};

/// What a run over a list of files leaves: its answer, the files, and the calls that changed them.
#[derive(Debug, Drop)]
pub struct Outcome {
    pub answer: Answer,
    pub files: Vec<Listed>,
    pub calls: Vec<NotedCall>,
}

// Returns a store of these files, of which no call was made.
fn listing_of(alloc: Global, files: Vec<Listed>) -> Listing
    ensures files { result.files ≡ files }
    ensures calls { result.calls.items ≡ [] }
    ensures renamed { result.is_renamed ≡ false }
{
    Listing {
        alloc,
        files,
        calls: Vec::new(alloc),
        is_renamed: false,
    }
}

// Returns what a run left in a store.
fn left_by(answer: Answer, store: Listing) -> Outcome
    ensures answer { result.answer ≡ answer }
    ensures files { result.files ≡ store.files }
    ensures calls { result.calls ≡ store.calls }
{
    let Listing { files, calls, .. } = store;
    Outcome {
        answer,
        files,
        calls,
    }
}

/// Appends rows to a log. A crash at any moment leaves a log whose replay gives the head of before, or that head with all rows.
pub fn append<R: Threads + Wait + Sync>(
    rt: &R,
    alloc: Global,
    files: Vec<Listed>,
    request: AppendRequest<'_>,
) -> Outcome
    ensures { AppendOutlasts request.entry (map file_of files.items) (calls_of result.calls.items) (map file_of result.files.items) (result.answer.status ≡ Status.Done) }
{
    let mut store = listing_of(alloc, files);
    let answer = carry_out_append(rt, alloc, &mut store, &NoGate, request);
    left_by(answer, store)
}

/// Makes a checkpoint of a log. If the log was read as it is, a crash at any moment leaves a log whose replay gives what it gave before.
pub fn make_checkpoint(alloc: Global, files: Vec<Listed>, request: CheckpointRequest<'_>) -> Outcome
    ensures { request.entry.form ≡ LogForm.Plain → CheckpointOutlasts request.entry (map file_of files.items) (calls_of result.calls.items) (map file_of result.files.items) (result.answer.status ≡ Status.Done) }
{
    let mut store = listing_of(alloc, files);
    let answer = carry_out_checkpoint(alloc, &mut store, request);
    left_by(answer, store)
}

/// Cuts an hour of a log into a block. A crash at any moment leaves the whole block, or what was there before.
pub fn cut<R: Threads + Wait + Sync>(
    rt: &R,
    alloc: Global,
    files: Vec<Listed>,
    request: CutRequest<'_>,
) -> Outcome
    ensures { CutOutlasts request.entry (map file_of files.items) (calls_of result.calls.items) (map file_of result.files.items) (result.answer.status ≡ Status.Done) }
{
    let mut store = listing_of(alloc, files);
    let asked = BlockRequest::Cut(request);
    let answer = carry_out_block(rt, alloc, &mut store, &NoGate, asked);
    left_by(answer, store)
}

/// Unpacks a log into a new directory. A crash at any moment leaves the whole directory, or what was there before.
pub fn unpack(alloc: Global, files: Vec<Listed>, request: UnpackRequest<'_>) -> Outcome
    ensures up_to_damage { request.entry.past_damage ≡ false → UnpackOutlasts request.entry (map file_of files.items) (calls_of result.calls.items) (map file_of result.files.items) (ending_of request.entry.through_damage result.answer) }
    ensures past_damage { request.entry.past_damage ≡ true → RescueOutlasts request.entry (map file_of files.items) (calls_of result.calls.items) (map file_of result.files.items) (rescue_ending_of result.answer) }
{
    let mut store = listing_of(alloc, files);
    let answer = carry_out_unpack(alloc, &mut store, request);
    left_by(answer, store)
}
