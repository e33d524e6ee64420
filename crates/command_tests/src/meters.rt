//! The line on a terminal that says how far a replay is.

use crate::checks::{ULID, same};
use crate::fragments::*;
use crate::printed::Printed;
use crate::runs::{CUT, Case, carried_out, shelf_of};
use answers::{AnalyzeRequest, DumpRequest, Encoding, LogForm, Request};
use block_commands::{BlockRequest, CutRequest};
use command_line::Asked;
use head_replay::{Gate, NoGate, Options};
use log_commands::carry_out_log_request;
use progress::{Extent, Meter, Progress};
use std::alloc::Global;
use std::cell::{Cell, RefCell};
use std::fmt::{Debug, Display};
use std::io::ErrorKind;
use std::process::Abort;
use std::sync::Wait;
use std::sync::atomic::{AtomicU64, Ordering};
use std::thread::Threads;
use std::time::{Clock, Duration};
use std::{io, mem};
use store::StoreFault;
use write_commands::AppendRequest;

// A terminal that keeps what is said, with a clock that is set by hand.
#[derive(Drop)]
struct Terminal {
    now: Cell<u64>,
    said: RefCell<String>,
}

impl Terminal {
    fn new(alloc: Global) -> Terminal {
        Terminal {
            now: Cell::new(5_000),
            said: RefCell::new(String::new(alloc)),
        }
    }

    fn wait(&self, milliseconds: u64) {
        self.now.set(self.now.get().saturating_add(milliseconds));
    }

    // What was said since this was asked last.
    fn take(&self, alloc: Global) -> String {
        match self.said.try_borrow_mut() {
            Ok(mut said) => mem::replace(&mut *said, String::new(alloc)),
            Err(_) => String::new(alloc),
        }
    }
}

impl Clock for Terminal {
    fn monotonic(&self) -> io::Result<Duration> {
        Ok(Duration::from_millis(self.now.get()))
    }

    fn since_1970(&self) -> io::Result<Duration> {
        self.monotonic()
    }
}

impl Eprint for Terminal {
    fn eprint<D: Display + Drop>(&self, value: D) -> io::Result<()> {
        let Ok(mut said) = self.said.try_borrow_mut() else {
            return Err(io::Error::from(ErrorKind::Other));
        };
        match write!(said, "{value}") {
            Ok(()) => Ok(()),
            Err(_) => Err(io::Error::from(ErrorKind::OutOfMemory)),
        }
    }

    fn eprintln<D: Display + Drop>(&self, value: D) -> io::Result<()> {
        self.eprint(value)
    }
}

// A log of 4,000 pages and one byte, in rounds of 256.
const LOG: Extent = Extent {
    pages: 4_001,
    bytes: 131_072_001,
    round_pages: 256,
};

// Which round begins, how many milliseconds after the one before, and what is said then.
const STEPS: &[(u64, u64, &str)] = &[
    (0, 0, ""),
    (1, 99, ""),
    (2, 1, "\r512 of 4001 pages, 16 of 131 MB, 0:00 left\x1b[K"),
    (3, 99, ""),
    (
        4,
        9_801,
        "\r1024 of 4001 pages, 33 of 131 MB, 0:29 left\x1b[K",
    ),
    (
        8,
        200_000,
        "\r2048 of 4001 pages, 67 of 131 MB, 3:20 left\x1b[K",
    ),
    (
        16,
        100,
        "\r4001 of 4001 pages, 131 of 131 MB, 0:00 left\x1b[K",
    ),
];

// Ends the test unless this was said since it was asked last.
fn assert_said<C: Debug + Drop, R: Abort + AllocGlobal>(
    rt: &R,
    case: C,
    terminal: &Terminal,
    wanted: &str,
) {
    let said = terminal.take(rt.alloc());
    same(rt, case, said.as_str(), wanted);
}

// The first worker alone is listened to.
#[test]
fn says_how_far_a_replay_is(rt: HostRuntime) {
    let terminal = Terminal::new(rt.alloc());
    let meter = Meter::new(&terminal, true);
    meter.begin(&LOG);
    for (turn, waited, want) in STEPS {
        terminal.wait(*waited);
        meter.pass(1, *turn);
        meter.part(0, *turn);
        meter.pass(0, *turn);
        assert_said(&rt, *turn, &terminal, want);
    }
    meter.end();
    assert_said(&rt, "the end", &terminal, "\r\x1b[K");
    terminal.wait(1_000);
    meter.pass(0, 17);
    meter.end();
    assert_said(&rt, "no replay", &terminal, "");
}

// A short replay says nothing, and so does one whose standard error is no terminal.
#[test]
fn says_nothing(rt: HostRuntime) {
    let terminal = Terminal::new(rt.alloc());
    for (is_terminal, waited) in [(true, 99), (false, 1_000)] {
        let meter = Meter::new(&terminal, is_terminal);
        meter.begin(&LOG);
        meter.pass(0, 0);
        terminal.wait(waited);
        meter.pass(0, 1);
        meter.end();
    }
    assert_said(&rt, "nothing", &terminal, "");
}

// A terminal that takes nothing, with a clock that goes on by a second whenever it is looked at.
#[derive(Drop)]
struct Closed {
    seconds: AtomicU64,
    writes: AtomicU64,
}

impl Clock for Closed {
    fn monotonic(&self) -> io::Result<Duration> {
        let seconds = self.seconds.fetch_add(1, Ordering::SeqCst);
        Ok(Duration::from_secs(seconds))
    }

    fn since_1970(&self) -> io::Result<Duration> {
        self.monotonic()
    }
}

impl Eprint for Closed {
    fn eprint<D: Display + Drop>(&self, _value: D) -> io::Result<()> {
        self.writes.fetch_add(1, Ordering::SeqCst);
        Err(io::Error::from(ErrorKind::BrokenPipe))
    }

    fn eprintln<D: Display + Drop>(&self, value: D) -> io::Result<()> {
        self.eprint(value)
    }
}

const REPLAY_BY_PAGES: Request<'static> = Request::Replay {
    dir: "log",
    form: LogForm::Plain,
    options: Options {
        workers: 2,
        round_pages: 1,
        min_valid: i64::MIN,
    },
};

const SAMPLES: Case = Case {
    standing: &[
        ("log/", b""),
        ("log/00000000", SERIES_1_JOB_API),
        ("log/00000001", SAMPLES_1_AT_1000_1015),
        ("log/00000002", SAMPLES_1_AT_1000_1015),
    ],
    asked: Asked::OfLog(REPLAY_BY_PAGES),
    dir: "log",
};

// Ends the test unless a replay that is listened to ends well, and leaves what one leaves that is not.
fn assert_replay<R: Abort + Threads + Wait + Sync + AllocGlobal, P: Progress + Sync>(
    rt: &R,
    progress: &P,
) -> Result<(), StoreFault> {
    let shelf = shelf_of(rt.alloc(), &SAMPLES)?;
    let alloc = rt.alloc();
    let out = Printed::new(alloc);
    let (want, out) = carry_out_log_request(rt, alloc, &shelf, &NoGate, out, REPLAY_BY_PAGES);
    let (found, _out) = carry_out_log_request(rt, alloc, &shelf, progress, out, REPLAY_BY_PAGES);
    let (found, want) = (
        (found.status as u8, found.printed.as_str()),
        (want.status as u8, want.printed.as_str()),
    );
    same(rt, "a replay", found, want);
    same(rt, "a replay", want.0, 0);
    Ok(())
}

// A line that cannot be written is tried again with the next, and a command leaves what it leaves without a terminal.
#[test]
fn goes_on_where_nothing_can_be_written(rt: HostRuntime) -> Result<(), StoreFault> {
    let terminal = Closed {
        seconds: AtomicU64::new(0),
        writes: AtomicU64::new(0),
    };
    let meter = Meter::new(&terminal, true);
    meter.begin(&LOG);
    meter.pass(0, 1);
    meter.pass(0, 2);
    meter.end();
    same(&rt, "writes", terminal.writes.load(Ordering::SeqCst), 3);
    assert_replay(&rt, &meter)
}

// What a replay tells: how often it began and ended, and how many workers came by at most.
#[derive(Drop)]
struct Told {
    begun: AtomicU64,
    ended: AtomicU64,
    workers: AtomicU64,
}

impl Gate for Told {
    fn pass(&self, worker: usize, _turn: u64) {
        self.workers
            .fetch_max((worker as u64).saturating_add(1), Ordering::SeqCst);
    }

    fn part(&self, _worker: usize, _turn: u64) {}
}

impl Progress for Told {
    fn begin(&self, _extent: &Extent) {
        self.begun.fetch_add(1, Ordering::SeqCst);
    }

    fn end(&self) {
        self.ended.fetch_add(1, Ordering::SeqCst);
    }
}

const BY_THREE: Options = Options {
    workers: 3,
    round_pages: 1,
    min_valid: i64::MIN,
};

// Each command that replays a log.
const REPLAYS: &[Asked<'static>] = &[
    Asked::OfLog(Request::Replay {
        dir: "log",
        form: LogForm::Plain,
        options: BY_THREE,
    }),
    Asked::OfLog(Request::Series {
        dir: "log",
        form: LogForm::Plain,
        pair: None,
        options: BY_THREE,
    }),
    Asked::Analyze(AnalyzeRequest {
        dir: "log",
        form: LogForm::Plain,
        most: 10,
        bars: false,
        options: BY_THREE,
    }),
    Asked::Dump(DumpRequest {
        dir: "log",
        form: LogForm::Plain,
        pair: None,
        from: i64::MIN,
        to: i64::MAX,
        floats: false,
        hidden: false,
        options: BY_THREE,
    }),
    Asked::OfBlocks(BlockRequest::Ranges {
        dir: "log",
        form: LogForm::Plain,
        options: BY_THREE,
    }),
    Asked::OfBlocks(BlockRequest::Cut(CutRequest {
        dir: "log",
        form: LogForm::Plain,
        hour: 0,
        ulid: ULID,
        is_made: false,
        out: "out",
        encoding: Encoding::Raw,
        options: BY_THREE,
    })),
    Asked::Append(AppendRequest {
        dir: "log",
        rows: "rows",
        floats: false,
        options: BY_THREE,
    }),
];

// Carries out what is asked for on a log with this segment after its others, and ends the test unless it is heard.
fn assert_heard<R: Abort + Threads + Wait + Sync + AllocGlobal>(
    rt: &R,
    asked: Asked<'static>,
    last: &[u8],
) -> Result<(), StoreFault> {
    let mut shelf = shelf_of(rt.alloc(), &CUT)?;
    shelf.put("rows", b"1030 8 job=api\n")?;
    shelf.put("log/00000002", last)?;
    let told = Told {
        begun: AtomicU64::new(0),
        ended: AtomicU64::new(0),
        workers: AtomicU64::new(0),
    };
    carried_out(rt, &mut shelf, &told, asked);
    let found = (
        told.begun.load(Ordering::SeqCst),
        told.ended.load(Ordering::SeqCst),
        told.workers.load(Ordering::SeqCst),
    );
    same(rt, asked, found, (1, 1, 3));
    Ok(())
}

// Each begins one replay and ends it, by as many workers as it was asked for, also where the log is damaged.
#[test]
fn each_command_is_heard(rt: HostRuntime) -> Result<(), StoreFault> {
    for asked in REPLAYS {
        assert_heard(&rt, *asked, SAMPLES_OF_THREE_SERIES)?;
        assert_heard(&rt, *asked, OF_BAD_TYPE)?;
    }
    Ok(())
}
