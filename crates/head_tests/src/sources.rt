//! Logs that a source gives part by part, and parts that it refuses.

ghost use Rattle.std.specs.Prelude.{[]};
ghost use Rattle.wal_log.specs.Sources.{HasLent};

use crate::log_lines::input_of;
use crate::logs::{Case, WORKERS, by};
use crate::same;
use crate::views::views;
use crate::worked::WORKED;
use head_replay::{NoGate, Replayed, SourceFault, Tallied, replay_source, tally_source};
use head_serial::replay_serial;
use std::alloc::Global;
use std::process::Abort;
use std::sync::Wait;
use std::test::Fail;
use std::thread::Threads;
use wal_log::{Input, LentLog, LentPages, LogSource, pages};

// Gives a log in memory in parts of at most `most` pages, and refuses one of them, counted from 0.
struct Parts<'a> {
    lent: LentLog<'a>,
    most: u64,
    number: u64,
    refused: Option<u64>,
}

impl Drop for Parts<'_> {
    fn drop(self) {
        let Parts {
            lent: _lent,
            most: _,
            number: _,
            refused: _,
        } = self;
    }
}

// The number of the part that was refused.
#[derive(Clone, Copy, Debug, PartialEq, Eq)]
struct Refused(u64);

impl<'a> LogSource for Parts<'a> {
    ghost use Rattle.std.specs.Prelude.{◌≡◌, ◌+◌, ◌<◌, ◌≤◌, ◌++◌, [], IfOk, List, length};
    ghost use Rattle.wal_log.specs.Runs.{LogPage};
    ghost use Rattle.wal_log.specs.Sources.{HasLent, HasLentAll, left_of, lent_pages, log_of, most_left};
    ghost use Rattle.head_tests.specs.declared.sources.Parts.{Parts};

    type Part = LentPages<'a>;

    type Fault = Refused;

    ghost gave = { λ first given last. HasLent first.lent given last.lent };

    ghost ended = { λ source. HasLentAll source.lent };

    ghost most = { λ source. most_left source.lent };

    ghost begins = { λ _ last _ h. (log_of last.lent, left_of last.lent, h.begun, λ all. all) };

    fn next(&mut self, spare: Option<LentPages<'a>>, count: u64) -> Result<LentPages<'a>, Refused>
        ensures gave { (first : Parts) (before : List LogPage) → HasLent first.lent before self.old.lent → IfOk result (λ part. HasLent first.lent (before ++ lent_pages part) self.new.lent) }
        ensures few { IfOk result (λ part. length (lent_pages part) ≤ count) }
        ensures ended { IfOk result (λ part. 0 < count → lent_pages part ≡ [] → HasLentAll self.new.lent) }
        ensures most { IfOk result (λ part. length (lent_pages part) + most_left self.new.lent ≤ most_left self.old.lent) }
    {
        let number = self.number;
        self.number = number.saturating_add(1);
        if self.refused == Some(number) {
            return Err(Refused(number));
        }
        match self.lent.next(spare, count.min(self.most.max(1))) {
            Ok(part) => Ok(part),
            Err(never) => match never {},
        }
    }
}

fn parts_of(input: &Input, most: u64, refused: Option<u64>) -> Parts<'_>
    ensures { HasLent result.lent [] result.lent }
{
    Parts {
        lent: LentLog::new(input),
        most,
        number: 0,
        refused,
    }
}

// That parts of at most so many pages make the head of the serial replay, and counts as of the case.
fn check_parts<R: Abort + Threads + Wait + Sync>(
    rt: &R,
    alloc: Global,
    case: &Case,
    input: &Input,
    shown: &str,
    workers: usize,
    most: u64,
) -> Result<(), Fail> {
    let at = (case.name, workers, most);
    let options = by(workers);
    let source = parts_of(input, most, None);
    let (replayed, _) = replay_source(rt, alloc, source, &options, &NoGate)?;
    same(rt, at, replayed.damage, case.damage);
    same(rt, at, views(alloc, &replayed.head)?.as_str(), shown);
    let source = parts_of(input, most, None);
    let (tallied, _) = tally_source(rt, alloc, source, &options, &NoGate)?;
    let wanted = Tallied {
        counts: case.counts,
        series: case.series,
        damage: case.damage,
    };
    same(rt, at, tallied, wanted);
    Ok(())
}

#[test]
fn parts_of_some_pages(rt: HostRuntime) -> Result<(), Fail> {
    let alloc = rt.alloc();
    for case in WORKED {
        let input = input_of(alloc, case.log)?;
        let shown = views(alloc, &replay_serial(alloc, &input)?.head)?;
        for workers in WORKERS {
            for most in [1, 3, u64::MAX] {
                check_parts(&rt, alloc, case, &input, shown.as_str(), workers, most)?;
            }
        }
    }
    Ok(())
}

// That a refused part is handed on, or else that it is not asked for, since the damage came at least two parts before it.
fn check_refused(
    rt: &impl Abort,
    case: &Case,
    number: u64,
    replayed: Result<(Replayed, Parts<'_>), SourceFault<Refused>>,
) {
    let at = (case.name, number);
    match replayed {
        Ok((replayed, _)) => {
            same(rt, at, case.damage.is_some(), true);
            same(rt, at, replayed.damage, case.damage);
        }
        Err(SourceFault::Source(refused)) => same(rt, at, refused, Refused(number)),
        Err(SourceFault::Replay(fault)) => same(rt, at, Some(fault), None),
    }
}

// A part that is not there is refused too: only then is it known that there are no more.
#[test]
fn each_part_refused(rt: HostRuntime) -> Result<(), Fail> {
    let alloc = rt.alloc();
    for case in WORKED {
        let input = input_of(alloc, case.log)?;
        for number in 0..=pages(&input) {
            for workers in [1, 4] {
                let source = parts_of(&input, 1, Some(number));
                let replayed = replay_source(&rt, alloc, source, &by(workers), &NoGate);
                check_refused(&rt, case, number, replayed);
            }
        }
    }
    Ok(())
}
