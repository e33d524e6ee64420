//! Passes over a log: each replays it, and writes the blocks of some of its hours.

ghost use Rattle.std.specs.Prelude.{◌≡◌, IfOk, IsOk};
ghost use Rattle.rescue_commands.specs.Rescues.{AreBounds, WritesHoursAt, WritesPasses, least_time};
ghost use Rattle.rescue_commands.specs.Steps.{AreWhole};

use crate::hours::write_hours;
use crate::run::Run;
use answers::{BlocksRequest, Fault, Flaw};
use head_column::Run as TimeRun;
use hour_rows::rows_suffice;
use log_directory::{UndamagedLog, undamaged_at};
use progress::Progress;
use std::alloc::Global;
use std::sync::Wait;
use std::thread::Threads;
use store::PartStore;

// Replays a log, and writes the blocks of the hours that have a sample at these times, which have no hour in part. Returns what is wrong with the
// log.
fn write_pass<R: Threads + Wait + Sync, S: PartStore + Sync, P: Progress + Sync>(
    rt: &R,
    alloc: Global,
    store: &mut S,
    progress: &P,
    request: BlocksRequest<'_>,
    times: TimeRun,
    run: &mut Run<'_>,
) -> Result<Option<Flaw>, Fault>
where
    S::Reader: Send,
    S::Writer: Send,
    requires { AreWhole times }
    ensures { WritesHoursAt S.did S.holds request.entry.form request.entry.dir.now request.entry.out.now request.entry.options.min_valid times store.old (IsOk result) (λ own. IfOk result (λ flaw. flaw ≡ own)) store.new }
{
    // a law that the proof rests on
    rows_suffice();
    let (dir, form) = (request.dir, request.form);
    let log = undamaged_at(
        rt,
        alloc,
        store,
        progress,
        dir,
        form,
        &request.options,
        times,
    )?;
    let UndamagedLog { head, flaw } = log;
    write_hours(rt, alloc, store, &head, request.out, run)?;
    Ok(flaw)
}

/// Replays a log once and then once more for each of these times, and writes the blocks of the hours between them. Returns what was wrong with the
/// log at last.
pub(crate) fn write_passes<R: Threads + Wait + Sync, S: PartStore + Sync, P: Progress + Sync>(
    rt: &R,
    alloc: Global,
    store: &mut S,
    progress: &P,
    request: BlocksRequest<'_>,
    bounds: &[i64],
    run: &mut Run<'_>,
) -> Result<Option<Flaw>, Fault>
where
    S::Reader: Send,
    S::Writer: Send,
    requires { AreBounds least_time bounds.now }
    ensures { WritesPasses S.did S.holds request.entry.form request.entry.dir.now request.entry.out.now request.entry.options.min_valid store.old least_time bounds.now (IsOk result) (λ own. IfOk result (λ flaw. flaw ≡ own)) store.new }
{
    let mut min_time = i64::MIN;
    let mut left = bounds;
    while let Some((next, later)) = left.split_first() {
        let times = TimeRun {
            min_time,
            max_time: *next - 1,
        };
        write_pass(rt, alloc, store, progress, request, times, run)?;
        min_time = *next;
        left = later;
    }
    let times = TimeRun {
        min_time,
        max_time: i64::MAX,
    };
    write_pass(rt, alloc, store, progress, request, times, run)
}
