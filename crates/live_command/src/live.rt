//! The command `live`.

ghost use Rattle.std.specs.Prelude.{◌≡◌, IfOk};
ghost use Rattle.store.specs.Views.{view_of};
ghost use Rattle.live_log.specs.Running.{RunningState};
ghost use Rattle.live_command.specs.Runs.{IsBegunBehind};

use crate::feed::{Feed, RowInput, feed_rows};
use crate::keeping::keep;
use crate::running::Running;
use crate::shared::Shared;
use answers::{Answer, Fault, LiveRequest, Output, Status};
use head_replay::Options;
use log_directory::{min_valid_of, undamaged_head};
use progress::Progress;
use std::alloc::Global;
use std::io::Read;
use std::random::RandomSource;
use std::sync::Wait;
use std::thread;
use std::thread::Threads;
use std::time::Clock;
use store::{PartStore, Store};
use write_commands::check_unheld;

// Replays the log in a directory, and begins a segment behind it. What lies before the end of the last block is expired.
fn begun<R: Threads + Wait + Sync, S: PartStore + Sync + Drop, P: Progress + Sync>(
    rt: &R,
    alloc: Global,
    store: S,
    progress: &P,
    request: &LiveRequest<'_>,
) -> Result<Running<S>, Fault>
where
    S::Reader: Send,
    S::Writer: Send,
    ensures begun { IfOk result (λ r. IsBegunBehind S.did (view_of (S.holds store)) store request.now.dir.now request.now.options.min_valid r.log) }
{
    let least = min_valid_of(alloc, &store, request.out)?;
    let options = Options {
        min_valid: request.options.min_valid.max(least),
        ..request.options
    };
    let (head, next) = undamaged_head(rt, alloc, &store, progress, request.dir, &options)?;
    // a number without a next one has 20 digits, so no segment is named by it
    let number = next.unwrap_or(u64::MAX);
    check_unheld(alloc, &store, request.dir, number)?;
    Running::begin(alloc, store, request.dir, number, head)
}

// Makes a feed of each input.
fn feeds_of<I: Read + Drop, S: Store>(
    alloc: Global,
    store: &S,
    inputs: Vec<RowInput<I>>,
) -> Result<Vec<Feed<I>>, Fault> {
    let mut feeds = Vec::with_capacity(alloc, inputs.len())?;
    for input in inputs {
        feeds.push(Feed::new(alloc, input, store.seed())?)?;
    }
    Ok(feeds)
}

// Feeds all inputs, each in a thread of its own. Returns the first line that was no row, of the first input that has one.
fn feed_all<R, S, O, I>(
    rt: &R,
    shared: &Shared<'_, S, O>,
    feeds: Vec<Feed<I>>,
) -> Result<Option<u64>, Fault>
where
    R: Clock + Threads + Wait + Sync,
    S: Store + Drop + Send,
    S::Writer: Send,
    O: Output + Drop + Send,
    I: Read + Drop + Send,
{
    let fed = thread::map_vec(
        rt,
        feeds,
        &|feed| {
            let fed = feed_rows(rt, shared, feed);
            if fed.is_err() {
                // the other inputs end with their next batch
                shared.end();
            }
            fed
        },
    )?;
    let mut refused = None;
    for end in fed {
        let line = end?;
        refused = refused.or(line);
    }
    Ok(refused)
}

// Feeds all inputs, while another thread syncs the log and cuts hours. Returns the first line that was no row, if there is one.
fn run<R, S, O, I>(
    rt: &R,
    alloc: Global,
    shared: &Shared<'_, S, O>,
    blocks: &mut S,
    feeds: Vec<Feed<I>>,
) -> Result<Option<u64>, Fault>
where
    R: Clock + RandomSource + Threads + Wait + Sync,
    S: Store + Drop + Send,
    S::Writer: Send,
    O: Output + Drop + Send,
    I: Read + Drop + Send,
{
    let (fed, kept) = thread::join(
        rt,
        || {
            let fed = feed_all(rt, shared, feeds);
            shared.end();
            fed
        },
        || {
            let kept = keep(rt, alloc, shared, blocks);
            shared.end();
            kept
        },
    );
    let line = fed?;
    kept?;
    Ok(line)
}

// Returns the answer of a run that ended.
fn answer_of(alloc: Global, ended: Result<Option<u64>, Fault>) -> Answer {
    match ended {
        Ok(None) => Answer::done(String::new(alloc), Status::Done),
        Ok(Some(line)) => Answer::failed(alloc, Fault::NotARow { line }),
        Err(fault) => Answer::failed(alloc, fault),
    }
}

/// Carries out a request to run a store. The log is replayed, and a segment begun behind it. Rows come from the inputs, each read by a thread of its
/// own, and are appended batch by batch. A batch is written before it is answered, and the log is synced as the request says. Full hours are cut
/// into blocks while rows go on coming. Ends when all inputs do, with the log synced. `blocks` is another store over the same files. Also
/// returns the output.
pub fn carry_out_live<R, S, P, O, I>(
    rt: &R,
    alloc: Global,
    store: S,
    blocks: &mut S,
    progress: &P,
    out: O,
    inputs: Vec<RowInput<I>>,
    request: LiveRequest<'_>,
) -> (Answer, O)
where
    R: Clock + RandomSource + Threads + Wait + Sync,
    S: PartStore + Sync + Send + Drop,
    S::Reader: Send,
    S::Writer: Send,
    P: Progress + Sync,
    O: Output + Drop + Send,
    I: Read + Drop + Send,
    ensures sound { result.0.status ≡ Status.Done → (r : RunningState S) × IsBegunBehind S.did (view_of (S.holds store)) store request.entry.dir.now request.entry.options.min_valid r }
{
    let feeds = match feeds_of(alloc, blocks, inputs) {
        Ok(feeds) => feeds,
        Err(fault) => return (Answer::failed(alloc, fault), out),
    };
    let log = match begun(rt, alloc, store, progress, &request) {
        Ok(log) => log,
        Err(fault) => return (Answer::failed(alloc, fault), out),
    };
    let shared = Shared::new(request, log, out);
    let ended = run(rt, alloc, &shared, blocks, feeds);
    let (mut log, out) = shared.into_inner();
    let ended = match log.sync() {
        Ok(()) => ended,
        Err(fault) => Err(fault),
    };
    (answer_of(alloc, ended), out)
}
