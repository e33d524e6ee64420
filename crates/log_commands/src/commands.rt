//! The commands on a log, over any store.

ghost use Rattle.std.specs.Prelude.{◌≡◌, ◌++◌, MatchResult, false, string_bytes};
ghost use Rattle.std.specs.List.{flat_map};
ghost use Rattle.std.specs.Option.{option_map};
ghost use Rattle.answers.specs.Faults.{TellsNoDamage};
ghost use Rattle.store.specs.Views.{view_of};
ghost use Rattle.answers.specs.Answers.{TellsLog, TellsUpTo};
ghost use Rattle.answers.specs.Outputs.{MakesText};
ghost use Rattle.log_commands.specs.Printed.{IsCountsText, IsRecordsText, IsSeriesText, Prints, counts_text, damage_line, series_line};
ghost use Rattle.log_directory.specs.Replays.{slots_of};

use crate::record_lines::RecordLines;
use crate::report::{counts_text, push_damage, series_text};
use answers::{Answer, Fault, Flaw, LogForm, Output, Pair, Request, pair_of};
use head_replay::Options;
use log_directory::{ReplayedLog, TalliedLog, replay_in, slots_of, take_records_in, tally_in};
use progress::Progress;
use std::alloc::Global;
use std::sync::Wait;
use std::thread::Threads;
use store::PartStore;

// Prints the counts of a log, one a line.
fn counted(alloc: Global, tallied: &TalliedLog) -> Result<Answer, Fault>
    ensures { MatchResult result
        (TellsLog (λ flaw text. (tallied.now.flaw ≡ flaw) × (text ≡ counts_text tallied.now.counts tallied.now.series ++ damage_line tallied.now.flaw))) TellsNoDamage }
{
    let mut text = counts_text(alloc, &tallied.counts, tallied.series)?;
    push_damage(&mut text, tallied.flaw)?;
    Ok(Answer::told(text, tallied.flaw))
}

fn replay<R: Threads + Wait + Sync, S: PartStore + Sync, P: Progress + Sync>(
    rt: &R,
    alloc: Global,
    store: &S,
    progress: &P,
    dir: &str,
    form: LogForm,
    options: &Options,
) -> Result<Answer, Fault>
where
    S::Reader: Send,
    S::Writer: Send,
    ensures { MatchResult result (TellsLog (IsCountsText form (view_of (S.holds store.now)) dir.now options.now.min_valid)) TellsNoDamage }
{
    let tallied = tally_in(rt, alloc, store, progress, dir, form, options)?;
    counted(alloc, &tallied)
}

// Ends the lines of a log's records with what is wrong with the log.
fn listed(lines: String, flaw: Option<Flaw>) -> Result<Answer, Fault>
    ensures { MatchResult result
        (TellsLog (λ told rest. (flaw ≡ told) × (rest ≡ string_bytes lines ++ damage_line flaw))) TellsNoDamage }
{
    let mut text = lines;
    push_damage(&mut text, flaw)?;
    Ok(Answer::told(text, flaw))
}

// Prints the records of a log, one a line, and what is wrong with the log. Also returns the output.
fn records<S: PartStore, O: Output>(
    alloc: Global,
    store: &S,
    out: O,
    dir: &str,
    form: LogForm,
) -> (Result<Answer, Fault>, O)
    ensures { MatchResult result.0 (TellsLog (λ told rest. MakesText O.printed out result.1 rest (IsRecordsText form (view_of (S.holds store.now)) dir.now told))) TellsNoDamage }
{
    let mut lines = RecordLines::new(alloc, out);
    match take_records_in(alloc, store, dir, form, &mut lines) {
        Ok(flaw) => {
            let RecordLines { out, text } = lines;
            (listed(text, flaw), out)
        }
        Err(fault) => {
            let RecordLines { out, text: _text } = lines;
            (Err(fault), out)
        }
    }
}

// Prints the series of a replayed log, or those that have this label, one a line.
fn selected(alloc: Global, replayed: &ReplayedLog, pair: &Option<Pair>) -> Result<Answer, Fault>
    requires { replayed.now.head.failed ≡ false }
    ensures { MatchResult result
        (TellsUpTo (λ flaw text. (replayed.now.flaw ≡ flaw)
        × (text ≡ flat_map (series_line replayed.now.head.content) (slots_of replayed.now.head.content (option_map (λ p. (p.0.items, p.1.items)) pair.now))))) TellsNoDamage }
{
    let head = &replayed.head;
    let text = series_text(alloc, head, slots_of(head, pair))?;
    Ok(Answer::up_to(text, replayed.flaw))
}

fn series<R: Threads + Wait + Sync, S: PartStore + Sync, P: Progress + Sync>(
    rt: &R,
    alloc: Global,
    store: &S,
    progress: &P,
    dir: &str,
    form: LogForm,
    pair: Option<&str>,
    options: &Options,
) -> Result<Answer, Fault>
where
    S::Reader: Send,
    S::Writer: Send,
    ensures { MatchResult result (TellsUpTo (IsSeriesText form (view_of (S.holds store.now)) dir.now (option_map (λ w. w.now) pair.entry) options.now.min_valid)) TellsNoDamage }
{
    let pair = pair_of(alloc, pair)?;
    let replayed = replay_in(rt, alloc, store, progress, dir, form, options)?;
    selected(alloc, &replayed, &pair)
}

fn execute<R: Threads + Wait + Sync, S: PartStore + Sync, P: Progress + Sync, O: Output>(
    rt: &R,
    alloc: Global,
    store: &S,
    progress: &P,
    out: O,
    request: Request<'_>,
) -> (Result<Answer, Fault>, O)
where
    S::Reader: Send,
    S::Writer: Send,
    ensures { MatchResult result.0 (Prints O.printed out result.1 (view_of (S.holds store.now)) request.entry) TellsNoDamage }
{
    match request {
        Request::Replay { dir, form, options } => {
            let answer = replay(rt, alloc, store, progress, dir, form, &options);
            (answer, out)
        }
        Request::Records { dir, form } => records(alloc, store, out, dir, form),
        Request::Series {
            dir,
            form,
            pair,
            options,
        } => {
            let answer = series(rt, alloc, store, progress, dir, form, pair, &options);
            (answer, out)
        }
    }
}

/// Carries out a request, which changes nothing in the store: prints what the log in a directory holds, in the form that is asked for, up to its
/// damage if it is damaged. `progress` hears how far a replay is. The records of a log are printed on `out` while they are read, and the answer has
/// the rest of the text. Also returns the output.
pub fn carry_out_log_request<
    R: Threads + Wait + Sync,
    S: PartStore + Sync,
    P: Progress + Sync,
    O: Output,
>(rt: &R, alloc: Global, store: &S, progress: &P, out: O, request: Request<'_>) -> (Answer, O)
where
    S::Reader: Send,
    S::Writer: Send,
    ensures printed { Prints O.printed out result.1 (view_of (S.holds store.now)) request.entry result.0 }
{
    let (answer, out) = execute(rt, alloc, store, progress, out, request);
    match answer {
        Ok(answer) => (answer, out),
        Err(fault) => (Answer::failed(alloc, fault), out),
    }
}
