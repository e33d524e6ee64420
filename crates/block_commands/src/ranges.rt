//! The command `ranges`: the hours of a log that can be cut.

ghost use Rattle.std.specs.Prelude.{◌≡◌, ◌↔◌, ℤ, Contains, List, MatchResult, false};
ghost use Rattle.std.specs.List.{flat_map};
ghost use Rattle.block_cut.specs.Ranges.{Ascends, IsRange};
ghost use Rattle.answers.specs.Faults.{TellsNoDamage};
ghost use Rattle.store.specs.Views.{view_of};
ghost use Rattle.answers.specs.Answers.{TellsUpTo};
ghost use Rattle.block_commands.specs.Printed.{IsRangesText, range_line};

use crate::report::ranges_text;
use answers::{Answer, Fault, LogForm};
use block_cut::full_ranges;
use head_replay::Options;
use log_directory::{ReplayedLog, replay_in};
use progress::Progress;
use std::alloc::Global;
use std::sync::Wait;
use std::thread::Threads;
use store::PartStore;

// Prints the full hours of a replayed log, one a line.
fn listed(alloc: Global, replayed: &ReplayedLog) -> Result<Answer, Fault>
    requires { replayed.now.head.failed ≡ false }
    ensures { MatchResult result
        (TellsUpTo (λ flaw text. (replayed.now.flaw ≡ flaw)
        × (hours : List ℤ) × Ascends hours × ((k : ℤ) → Contains hours k ↔ IsRange k replayed.now.head.content) × (text ≡ flat_map range_line hours))) TellsNoDamage }
{
    let hours = full_ranges(alloc, &replayed.head)?;
    let text = ranges_text(alloc, &hours)?;
    Ok(Answer::up_to(text, replayed.flaw))
}

/// Prints the full hours of the log in a directory, in this form, up to its damage if it is damaged.
pub fn ranges<R: Threads + Wait + Sync, S: PartStore + Sync, P: Progress + Sync>(
    rt: &R,
    alloc: Global,
    store: &S,
    progress: &P,
    dir: &str,
    form: LogForm,
    options: &Options,
) -> Result<Answer, Fault>
where
    S::Reader: Send,
    S::Writer: Send,
    ensures { MatchResult result (TellsUpTo (IsRangesText form (view_of (S.holds store.now)) dir.now options.now.min_valid)) TellsNoDamage }
{
    let replayed = replay_in(rt, alloc, store, progress, dir, form, options)?;
    listed(alloc, &replayed)
}
