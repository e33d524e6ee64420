//! Who comes to the gates of a replay, and when.

use crate::damaged::TWO_PAGES_CHANGED;
use crate::log_lines::{Line, Log, NO_FILES, input_of, seconds_of};
use crate::logs::{WORKERS, by};
use crate::same;
use crate::views::{serial_views, views};
use crate::worked::{HIDDEN_RUNS, TWO_PAGES};
use head_replay::{Gate, Options, replay, tally};
use std::alloc::{AllocError, Global};
use std::process::Abort;
use std::sync::Wait;
use std::sync::atomic::{AtomicU64, Ordering};
use std::test::Fail;
use std::thread;
use std::thread::Threads;
use std::time::{Clock, Duration};
use wal_log::Input;

// A log of two files.
const TWO_FILES: Log = Log {
    segments: &[
        &[
            Line::Series(&[(1, b"a", b"x"), (2, b"a", b"y")]),
            Line::Samples(&[(1, 1000, 1), (2, 1000, 2)]),
        ],
        &[Line::Samples(&[(1, 2000, 3), (2, 2000, 4)])],
    ],
    ..NO_FILES
};

// A place where two are to be at the same time.
#[derive(Drop)]
struct Encounter {
    came: AtomicU64,
    met: AtomicU64,
}

impl Encounter {
    fn new() -> Encounter {
        Encounter {
            came: AtomicU64::new(0),
            met: AtomicU64::new(0),
        }
    }

    // Holds who comes until two are there, for some ten seconds at most.
    fn wait<C: Clock>(&self, clock: &C) {
        self.came.fetch_add(1, Ordering::SeqCst);
        for _ in 0..10_000u32 {
            if self.came.load(Ordering::SeqCst) == 2 {
                self.met.fetch_add(1, Ordering::SeqCst);
                return;
            }
            thread::sleep(clock, Duration::from_millis(1));
        }
    }

    // How many saw the other one there.
    fn met(&self) -> u64 {
        self.met.load(Ordering::SeqCst)
    }
}

// A gate that two workers pass together, and after which they run their parts together.
#[derive(Drop)]
struct Meeting<C> {
    clock: C,
    at_pass: Encounter,
    at_part: Encounter,
}

impl<C: Clock> Meeting<C> {
    fn new(clock: C) -> Meeting<C> {
        Meeting {
            clock,
            at_pass: Encounter::new(),
            at_part: Encounter::new(),
        }
    }

    // How many saw the other one there, as they passed and as they ran their parts.
    fn met(&self) -> (u64, u64) {
        (self.at_pass.met(), self.at_part.met())
    }
}

impl<C: Clock> Gate for Meeting<C> {
    fn pass(&self, _worker: usize, _turn: u64) {
        self.at_pass.wait(&self.clock);
    }

    fn part(&self, _worker: usize, _turn: u64) {
        self.at_part.wait(&self.clock);
    }
}

// That two workers of a replay meet.
fn check_replay_meets<R: Abort + Threads + Wait + Clock + Sync>(
    rt: &R,
    alloc: Global,
    input: &Input,
    accepted: u64,
) -> Result<(), Fail> {
    let gate = Meeting::new(rt);
    let replayed = replay(rt, alloc, input, &by(2), &gate)?;
    let found = (replayed.head.counts().accepted, gate.met());
    same(rt, "a replay", found, (accepted, (2, 2)));
    Ok(())
}

// That two workers of a tally meet.
fn check_tally_meets<R: Abort + Threads + Wait + Clock + Sync>(
    rt: &R,
    alloc: Global,
    input: &Input,
    accepted: u64,
) -> Result<(), Fail> {
    let gate = Meeting::new(rt);
    let tallied = tally(rt, alloc, input, &by(2), &gate)?;
    let found = (tallied.counts.accepted, gate.met());
    same(rt, "a tally", found, (accepted, (2, 2)));
    Ok(())
}

// That two workers of a replay and of a tally of a log meet.
fn check_meetings<R: Abort + Threads + Wait + Clock + Sync>(
    rt: &R,
    alloc: Global,
    log: Log,
    accepted: u64,
) -> Result<(), Fail> {
    let input = input_of(alloc, log)?;
    check_replay_meets(rt, alloc, &input, accepted)?;
    check_tally_meets(rt, alloc, &input, accepted)
}

#[test]
fn two_workers_meet(rt: HostRuntime) -> Result<(), Fail> {
    check_meetings(&rt, rt.alloc(), TWO_FILES, 4)?;
    check_meetings(&rt, rt.alloc(), HIDDEN_RUNS.log, 3)
}

// How often each worker came in the first round, and how often anyone else did.
#[derive(Drop)]
struct Calls {
    of_workers: Vec<AtomicU64>,
    others: AtomicU64,
}

impl Calls {
    fn new(alloc: Global) -> Result<Calls, AllocError> {
        let mut of_workers = Vec::new(alloc);
        for _worker in 0..64usize {
            of_workers.push(AtomicU64::new(0))?;
        }
        Ok(Calls {
            of_workers,
            others: AtomicU64::new(0),
        })
    }

    fn note(&self, worker: usize, turn: u64) {
        let calls = match self.of_workers.get(worker) {
            Some(calls) if turn == 0 => calls,
            _ => &self.others,
        };
        calls.fetch_add(1, Ordering::SeqCst);
    }

    // Whether so many workers came once each, and no other.
    fn are_once_each(&self, workers: usize) -> bool {
        for (worker, calls) in self.of_workers.iter().enumerate() {
            let wanted = if worker < workers { 1 } else { 0 };
            if calls.load(Ordering::SeqCst) != wanted {
                return false;
            }
        }
        self.others.load(Ordering::SeqCst) == 0
    }
}

// A gate that counts who comes.
#[derive(Drop)]
struct Counted {
    passes: Calls,
    parts: Calls,
}

impl Counted {
    fn new(alloc: Global) -> Result<Counted, AllocError> {
        Ok(Counted {
            passes: Calls::new(alloc)?,
            parts: Calls::new(alloc)?,
        })
    }
}

impl Gate for Counted {
    fn pass(&self, worker: usize, turn: u64) {
        self.passes.note(worker, turn);
    }

    fn part(&self, worker: usize, turn: u64) {
        self.parts.note(worker, turn);
    }
}

fn check_counted(rt: &impl Abort, gate: &Counted, workers: usize) {
    let passes = gate.passes.are_once_each(workers);
    same(rt, (workers, "passes"), passes, true);
    let parts = gate.parts.are_once_each(workers);
    same(rt, (workers, "parts"), parts, true);
}

// That so many workers come to the gate of a replay once each.
fn check_replay<R: Abort + Threads + Wait + Sync>(
    rt: &R,
    alloc: Global,
    input: &Input,
    workers: usize,
    accepted: u64,
) -> Result<(), Fail> {
    let gate = Counted::new(alloc)?;
    let replayed = replay(rt, alloc, input, &by(workers), &gate)?;
    check_counted(rt, &gate, workers);
    same(rt, workers, replayed.head.counts().accepted, accepted);
    Ok(())
}

// That so many workers come to the gate of a tally once each.
fn check_tally<R: Abort + Threads + Wait + Sync>(
    rt: &R,
    alloc: Global,
    input: &Input,
    workers: usize,
) -> Result<(), Fail> {
    let gate = Counted::new(alloc)?;
    tally(rt, alloc, input, &by(workers), &gate)?;
    check_counted(rt, &gate, workers);
    Ok(())
}

#[test]
fn gate_is_passed_once(rt: HostRuntime) -> Result<(), Fail> {
    let input = input_of(rt.alloc(), TWO_FILES)?;
    for workers in WORKERS {
        check_replay(&rt, rt.alloc(), &input, workers, 4)?;
        check_tally(&rt, rt.alloc(), &input, workers)?;
    }
    Ok(())
}

// The workers apply so many items in more than one go.
#[test]
fn gate_is_passed_once_by_many_items(rt: HostRuntime) -> Result<(), Fail> {
    let input = seconds_of(rt.alloc(), 132, 2_000)?;
    for workers in [1, 2, 7] {
        check_replay(&rt, rt.alloc(), &input, workers, 264_000)?;
    }
    Ok(())
}

// How many came in the first round, in the second and in any other.
#[derive(Drop)]
struct Turns {
    first: AtomicU64,
    second: AtomicU64,
    others: AtomicU64,
}

impl Turns {
    fn new() -> Turns {
        Turns {
            first: AtomicU64::new(0),
            second: AtomicU64::new(0),
            others: AtomicU64::new(0),
        }
    }

    fn note(&self, turn: u64) {
        let came = match turn {
            0 => &self.first,
            1 => &self.second,
            _ => &self.others,
        };
        came.fetch_add(1, Ordering::SeqCst);
    }

    fn seen(&self) -> (u64, u64, u64) {
        (
            self.first.load(Ordering::SeqCst),
            self.second.load(Ordering::SeqCst),
            self.others.load(Ordering::SeqCst),
        )
    }
}

// A gate that notes in which rounds workers come.
#[derive(Drop)]
struct Noted {
    passes: Turns,
    parts: Turns,
}

impl Noted {
    fn new() -> Noted {
        Noted {
            passes: Turns::new(),
            parts: Turns::new(),
        }
    }
}

impl Gate for Noted {
    fn pass(&self, _worker: usize, turn: u64) {
        self.passes.note(turn);
    }

    fn part(&self, _worker: usize, turn: u64) {
        self.parts.note(turn);
    }
}

// That workers come to the gate of a replay in rounds of so many pages this often.
fn check_rounds<R: Abort + Threads + Wait + Sync>(
    rt: &R,
    alloc: Global,
    input: &Input,
    round_pages: usize,
    seen: (u64, u64, u64),
) -> Result<(), Fail> {
    let options = Options {
        workers: 2,
        round_pages,
        min_valid: i64::MIN,
    };
    let gate = Noted::new();
    let replayed = replay(rt, alloc, input, &options, &gate)?;
    same(rt, round_pages, replayed.head.counts(), TWO_PAGES.counts);
    same(rt, (round_pages, "passes"), gate.passes.seen(), seen);
    same(rt, (round_pages, "parts"), gate.parts.seen(), seen);
    Ok(())
}

#[test]
fn two_pages_take_two_rounds(rt: HostRuntime) -> Result<(), Fail> {
    let input = input_of(rt.alloc(), TWO_PAGES.log)?;
    for (round_pages, seen) in [(1, (2, 2, 0)), (2, (2, 0, 0)), (usize::MAX, (2, 0, 0))] {
        check_rounds(&rt, rt.alloc(), &input, round_pages, seen)?;
    }
    Ok(())
}

#[test]
fn no_round_behind_the_damage(rt: HostRuntime) -> Result<(), Fail> {
    let input = input_of(rt.alloc(), TWO_PAGES_CHANGED.log)?;
    let options = Options {
        workers: 2,
        round_pages: 2,
        min_valid: i64::MIN,
    };
    let gate = Noted::new();
    let tallied = tally(&rt, rt.alloc(), &input, &options, &gate)?;
    let found = (tallied.damage, gate.passes.seen(), gate.parts.seen());
    let wanted = (TWO_PAGES_CHANGED.damage, (2, 2, 0), (2, 2, 0));
    same(&rt, "a tally", found, wanted);
    Ok(())
}

// A gate that holds one worker up before it draws, long enough for the others to draw all there is.
#[derive(Drop)]
struct Late<C> {
    clock: C,
    worker: usize,
}

impl<C: Clock> Gate for Late<C> {
    fn pass(&self, worker: usize, _turn: u64) {
        if worker == self.worker {
            thread::sleep(&self.clock, Duration::from_millis(20));
        }
    }

    fn part(&self, _worker: usize, _turn: u64) {}
}

// That a replay shows the same if this worker is late.
fn check_late<R: Abort + Threads + Wait + Clock + Sync>(
    rt: &R,
    alloc: Global,
    input: &Input,
    worker: usize,
    shown: &str,
) -> Result<(), Fail> {
    let gate = Late { clock: rt, worker };
    let replayed = replay(rt, alloc, input, &by(3), &gate)?;
    let found = views(alloc, &replayed.head)?;
    same(rt, worker, found.as_str(), shown);
    Ok(())
}

#[test]
fn slow_worker_changes_nothing(rt: HostRuntime) -> Result<(), Fail> {
    let input = input_of(rt.alloc(), TWO_FILES)?;
    let shown = serial_views(rt.alloc(), &input)?;
    for worker in 0..3usize {
        check_late(&rt, rt.alloc(), &input, worker, shown.as_str())?;
    }
    Ok(())
}
