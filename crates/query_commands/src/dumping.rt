//! The command `dump`, over any store.

ghost use Rattle.std.specs.Prelude.{◌≡◌, MatchResult, false};
ghost use Rattle.std.specs.Option.{option_map};
ghost use Rattle.answers.specs.Faults.{TellsNoDamage};
ghost use Rattle.store.specs.Views.{view_of};
ghost use Rattle.answers.specs.Answers.{TellsUpTo};
ghost use Rattle.answers.specs.Outputs.{MakesText};
ghost use Rattle.log_directory.specs.Replays.{slots_of};
ghost use Rattle.query_commands.specs.Dumps.{IsDump};
ghost use Rattle.query_commands.specs.Requests.{IsDumpIn};

use crate::lines::print_dump;
use crate::selection::Selection;
use answers::{Answer, DumpRequest, Fault, Output, Pair, pair_of};
use log_directory::{ReplayedLog, replay_at_in, slots_of};
use progress::Progress;
use std::alloc::Global;
use std::sync::Wait;
use std::thread::Threads;
use store::PartStore;

// Prints the samples that are selected of a replayed log, of the series that have this label, one a line.
fn dumped<O: Output>(
    alloc: Global,
    out: &mut O,
    replayed: &ReplayedLog,
    pair: &Option<Pair>,
    selection: &Selection,
    floats: bool,
) -> Result<Answer, Fault>
    requires { replayed.now.head.failed ≡ false }
    ensures { MatchResult result
        (TellsUpTo (λ flaw rest. (replayed.now.flaw ≡ flaw)
        × MakesText O.printed out.old out.new rest (IsDump floats selection.now replayed.now.head.content (slots_of replayed.now.head.content (option_map (λ p. (p.0.items, p.1.items)) pair.now))))) TellsNoDamage }
{
    let head = &replayed.head;
    let rest = print_dump(alloc, out, head, slots_of(head, pair), selection, floats)?;
    Ok(Answer::up_to(rest, replayed.flaw))
}

// Returns which samples a request selects.
fn selection_of(request: &DumpRequest<'_>) -> Selection
    ensures { result ≡ record { from = request.now.from; to = request.now.to; with_hidden = request.now.hidden } }
{
    Selection {
        from: request.from,
        to: request.to,
        with_hidden: request.hidden,
    }
}

fn execute<R: Threads + Wait + Sync, S: PartStore + Sync, P: Progress + Sync, O: Output>(
    rt: &R,
    alloc: Global,
    store: &S,
    progress: &P,
    out: &mut O,
    request: DumpRequest<'_>,
) -> Result<Answer, Fault>
where
    S::Reader: Send,
    S::Writer: Send,
    ensures { MatchResult result (TellsUpTo (λ told rest. MakesText O.printed out.old out.new rest (IsDumpIn request.entry.form (view_of (S.holds store.now)) request.entry.dir.now (option_map (λ w. w.now) request.entry.pair) request.entry.options.min_valid
        (record { from = request.entry.from; to = request.entry.to; with_hidden = request.entry.hidden }) request.entry.floats told))) TellsNoDamage }
{
    let pair = pair_of(alloc, request.pair)?;
    let selection = selection_of(&request);
    let times = selection.times();
    let DumpRequest {
        dir,
        form,
        options,
        ..
    } = request;
    let replayed = replay_at_in(rt, alloc, store, progress, dir, form, &options, times)?;
    dumped(alloc, out, &replayed, &pair, &selection, request.floats)
}

/// Carries out a request, which changes nothing in the store: prints a line for each sample, series by slot and samples by time: the labels of its
/// series, its time and its value. `progress` hears how far the replay is. If the log is damaged, what it holds before the damage is printed. The
/// lines are printed on `out` while they are made, and the answer has the rest of them. Also returns the output.
pub fn carry_out_dump<R: Threads + Wait + Sync, S: PartStore + Sync, P: Progress + Sync, O: Output>(
    rt: &R,
    alloc: Global,
    store: &S,
    progress: &P,
    out: O,
    request: DumpRequest<'_>,
) -> (Answer, O)
where
    S::Reader: Send,
    S::Writer: Send,
    ensures { TellsUpTo (λ told rest. MakesText O.printed out result.1 rest (IsDumpIn request.entry.form (view_of (S.holds store.now)) request.entry.dir.now (option_map (λ w. w.now) request.entry.pair) request.entry.options.min_valid
        (record { from = request.entry.from; to = request.entry.to; with_hidden = request.entry.hidden }) request.entry.floats told)) result.0 }
{
    let mut out = out;
    match execute(rt, alloc, store, progress, &mut out, request) {
        Ok(answer) => (answer, out),
        Err(fault) => (Answer::failed(alloc, fault), out),
    }
}
