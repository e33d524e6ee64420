//! The command `analyze`, over any store.

ghost use Rattle.std.specs.Prelude.{◌≡◌, false};

use crate::analysis::{Layout, analysis_text};
use answers::{AnalyzeRequest, Answer, Fault};
use head_core::Head;
use head_ranks::{label_counts, metrics, name_counts, totals};
use log_directory::{ReplayedLog, replay_in};
use progress::Progress;
use std::alloc::{AllocError, Global};
use std::sync::Wait;
use std::thread::Threads;
use store::PartStore;

// Returns the analysis of a head.
fn analysis_of(alloc: Global, head: &Head, layout: Layout) -> Result<String, AllocError>
    requires { head.now.failed ≡ false }
{
    let totals = totals(head)?;
    let mut labels = label_counts(alloc, head)?;
    let mut metrics = metrics(alloc, &labels)?;
    let mut names = name_counts(alloc, head.seed(), &labels)?;
    analysis_text(
        alloc,
        &totals,
        &mut names,
        &mut metrics,
        &mut labels,
        layout,
    )
}

// Prints the analysis of a replayed log.
fn analyzed(alloc: Global, replayed: &ReplayedLog, layout: Layout) -> Result<Answer, Fault>
    requires { replayed.now.head.failed ≡ false }
{
    let text = analysis_of(alloc, &replayed.head, layout)?;
    Ok(Answer::up_to(text, replayed.flaw))
}

fn execute<R: Threads + Wait + Sync, S: PartStore + Sync, P: Progress + Sync>(
    rt: &R,
    alloc: Global,
    store: &S,
    progress: &P,
    request: AnalyzeRequest<'_>,
) -> Result<Answer, Fault>
where
    S::Reader: Send,
    S::Writer: Send,
{
    let AnalyzeRequest {
        dir,
        form,
        most,
        bars,
        options,
    } = request;
    let replayed = replay_in(rt, alloc, store, progress, dir, form, &options)?;
    analyzed(alloc, &replayed, Layout { most, bars })
}

/// Carries out a request, which changes nothing in the store: prints the numbers of series, samples, metrics, names and labels, the names
/// with the most values, the metrics with the most series and samples, and the labels with the most series, each with its share.
/// `progress` hears how far the replay is. If the log is damaged, what it holds before the damage is analyzed.
pub fn carry_out_analyze<R: Threads + Wait + Sync, S: PartStore + Sync, P: Progress + Sync>(
    rt: &R,
    alloc: Global,
    store: &S,
    progress: &P,
    request: AnalyzeRequest<'_>,
) -> Answer
where
    S::Reader: Send,
    S::Writer: Send,
{
    match execute(rt, alloc, store, progress, request) {
        Ok(answer) => answer,
        Err(fault) => Answer::failed(alloc, fault),
    }
}
