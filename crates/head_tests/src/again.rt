//! Rows that are prepared once and appended again and again.

ghost use Rattle.std.specs.Prelude.{◌≡◌};

use crate::appends::{Appends, NONE, letter, open, push_call, push_left, push_told};
use crate::device::Device;
use crate::opening::{Entry, record_of};
use crate::rows::{Again, Row, prepared, raw_rows, repeat};
use crate::shared::push_end;
use crate::{or_memory, same};
use head_core::Head;
use head_live::{AgainFault, Appender, HeadRun, Live, PrepareFault, Prepared, SharedHead};
use std::alloc::{AllocError, Global};
use std::marker::Brand;
use std::process::Abort;
use std::sync::Wait;
use std::sync::ledger::Blank;
use wal_log::LogWriter;
use wal_record::LabelFault;

// What is done next.
#[derive(Clone, Copy)]
enum Step {
    // the prepared rows in these places, with these times and values
    Again(&'static [Again]),
    // rows that are prepared for this call alone
    Append(&'static [Row]),
    // a record for the head, which is then opened once more with its log
    Apply(Entry),
    // another head
    Open(Appends),
}

// A live head, the rows that are prepared, and what is done with both in order.
#[derive(Clone, Copy)]
struct Repeated {
    opening: Appends,
    rows: &'static [Row],
    steps: &'static [Step],
}

// The rows in these places, with these times and values.
fn rows_in(alloc: Global, rows: &[Row], again: &[Again]) -> Result<Vec<Row>, AllocError> {
    let mut found = Vec::new(alloc);
    for (place, time, value) in again {
        if let Some(row) = rows.get(*place) {
            found.push((*time, *value, row.2))?;
        }
    }
    Ok(found)
}

// How rows are had: prepared once, or anew for each call.
#[derive(Drop)]
enum Rows {
    Once(Prepared),
    Anew(&'static [Row]),
}

fn push_again(
    text: &mut String,
    alloc: Global,
    live: &mut Live<Device>,
    rows: &mut Rows,
    again: &[Again],
) -> Result<(), AllocError> {
    match rows {
        Rows::Once(prepared) => {
            or_memory(repeat(alloc, prepared, again))?;
            push_told(text, live, prepared)
        }
        Rows::Anew(rows) => {
            let rows = rows_in(alloc, rows, again)?;
            push_call(text, alloc, live, &rows)
        }
    }
}

// Opens the head once more with its log, with a record more.
fn with_record(
    alloc: Global,
    live: Live<Device>,
    entry: Entry,
) -> Result<Live<Device>, AllocError> {
    let (mut head, log) = live.into_inner();
    or_memory(head.apply(&record_of(alloc, entry)?))?;
    if head.is_failed() {
        return Err(AllocError);
    }
    Ok(Live::new(alloc, head, log))
}

fn after_step(
    text: &mut String,
    alloc: Global,
    mut live: Live<Device>,
    rows: &mut Rows,
    step: &Step,
) -> Result<Live<Device>, AllocError> {
    match *step {
        Step::Again(again) => {
            push_again(text, alloc, &mut live, rows, again)?;
            Ok(live)
        }
        Step::Append(rows) => {
            push_call(text, alloc, &mut live, rows)?;
            Ok(live)
        }
        Step::Apply(entry) => with_record(alloc, live, entry),
        Step::Open(opening) => {
            push_left(text, alloc, live)?;
            open(alloc, &opening)
        }
    }
}

// The verdicts, and what is left of each head.
fn text_of(alloc: Global, case: &Repeated, mut rows: Rows) -> Result<String, AllocError> {
    let mut text = String::new(alloc);
    let mut live = open(alloc, &case.opening)?;
    for step in case.steps {
        live = after_step(&mut text, alloc, live, &mut rows, step)?;
    }
    push_left(&mut text, alloc, live)?;
    Ok(text)
}

const X: &[(&[u8], &[u8])] = &[(b"a", b"x")];

const Y: &[(&[u8], &[u8])] = &[(b"a", b"y")];

const Z: &[(&[u8], &[u8])] = &[(b"a", b"z")];

const ROWS: &[Row] = &[(0, 0, X), (0, 0, Y), (0, 0, X), (0, 0, Z)];

// Over one head, in order, in another one, with rows left out and rows that come twice, and with a stale row between.
const SAME_HEAD: Repeated = Repeated {
    opening: NONE,
    rows: ROWS,
    steps: &[
        Step::Again(&[(0, 10, 1), (1, 10, 2), (3, 10, 3)]),
        Step::Again(&[(3, 20, 4), (2, 20, 5), (1, 20, 6), (0, 20, 7)]),
        Step::Again(&[(1, 15, 8), (1, 30, 9)]),
        Step::Again(&[]),
        Step::Again(&[(1, 31, 1), (1, 32, 2), (1, 33, 3), (1, 34, 4), (1, 35, 5)]),
        Step::Append(&[(40, 1, Z), (40, 2, X)]),
        Step::Again(&[(0, 40, 1), (3, 50, 2)]),
    ],
};

// Over another head, in which the series have other slots, and over an empty one.
const OTHER_HEAD: Repeated = Repeated {
    opening: NONE,
    rows: ROWS,
    steps: &[
        Step::Again(&[(0, 10, 1), (1, 10, 2), (3, 10, 3)]),
        Step::Open(Appends {
            log: &[
                Entry::Series(5, b"z"),
                Entry::Series(6, b"y"),
                Entry::Series(7, b"x"),
                Entry::Sample(7, 10, 1),
            ],
            ..NONE
        }),
        Step::Again(&[(0, 10, 1), (1, 10, 2), (3, 10, 3)]),
        Step::Again(&[(0, 20, 1), (1, 20, 2), (3, 20, 3)]),
        Step::Open(NONE),
        Step::Again(&[(3, 10, 3), (0, 10, 1)]),
    ],
};

// A reference is bound anew, so that the series of x has none, and then to z.
const BOUND_ANEW: Repeated = Repeated {
    opening: Appends {
        log: &[Entry::Series(1, b"x"), Entry::Sample(1, 5000, 1)],
        ..NONE
    },
    rows: ROWS,
    steps: &[
        Step::Again(&[(0, 6000, 1), (1, 6000, 2)]),
        Step::Apply(Entry::Series(1, b"y")),
        Step::Again(&[(0, 6000, 3), (0, 7000, 4), (1, 7000, 5)]),
        Step::Apply(Entry::Series(2, b"z")),
        Step::Again(&[(0, 8000, 6), (1, 8000, 7), (3, 8000, 8)]),
    ],
};

// The device fails in the second call.
const AFTER_WRITE: Repeated = Repeated {
    opening: Appends { room: 80, ..NONE },
    rows: ROWS,
    steps: &[
        Step::Again(&[(0, 10, 1)]),
        Step::Again(&[(0, 20, 1), (1, 20, 1)]),
        Step::Again(&[(0, 30, 1)]),
        Step::Open(NONE),
        Step::Again(&[(0, 20, 1), (1, 20, 1)]),
    ],
};

const CASES: &[(Repeated, &str)] = &[
    (SAME_HEAD, "AAA 101 AAAS 155 SA "),
    (OTHER_HEAD, "AAA 101 "),
    (BOUND_ANEW, "AA "),
    (AFTER_WRITE, "A 55 Write "),
];

// What rows prepared once give is what rows give that are prepared anew for each call.
#[test]
fn prepared_once(rt: HostRuntime) -> Result<(), AllocError> {
    for (at, (case, wanted)) in CASES.iter().enumerate() {
        let rows = or_memory(prepared(rt.alloc(), case.rows))?;
        let once = text_of(rt.alloc(), case, Rows::Once(rows))?;
        let anew = text_of(rt.alloc(), case, Rows::Anew(case.rows))?;
        same(&rt, at, once.as_str(), anew.as_str());
        same(&rt, once.as_str(), once.starts_with(*wanted), true);
    }
    Ok(())
}

// Rows without a place, of which the first is named, and the rows that are there stay.
#[test]
fn rows_without_a_place(rt: HostRuntime) -> Result<(), AllocError> {
    let mut rows = or_memory(prepared(rt.alloc(), ROWS))?;
    let again: &[Again] = &[(3, 1, 1), (4, 1, 1), (9, 1, 1)];
    let found = repeat(rt.alloc(), &mut rows, again);
    same(&rt, "past", found, Err(AgainFault::NoSuchRow { row: 1 }));
    same(&rt, "rows", rows.len(), 4);
    let mut none = or_memory(prepared(rt.alloc(), &[]))?;
    let found = repeat(rt.alloc(), &mut none, &again[..1]);
    same(&rt, "none", found, Err(AgainFault::NoSuchRow { row: 0 }));
    same(&rt, "no rows", repeat(rt.alloc(), &mut none, &[]), Ok(()));
    Ok(())
}

// To be run too with each allocation refused in turn: the rows are then those of before.
#[test]
fn each_allocation(rt: HostRuntime) -> Result<(), AllocError> {
    let mut rows = or_memory(prepared(rt.alloc(), &ROWS[..2]))?;
    let again: &[Again] = &[(0, 1, 1), (1, 1, 1), (0, 2, 2), (1, 2, 2), (0, 3, 3)];
    let wanted = match repeat(rt.alloc(), &mut rows, again) {
        Ok(()) => 5,
        Err(_) => 2,
    };
    same(&rt, "rows", rows.len(), wanted);
    Ok(())
}

// What the rows and those that were added are told. Added rows have the next places, and the rows that are ready stay.
fn told_of_added(alloc: Global, rows: &mut Prepared) -> Result<String, AllocError> {
    let mut text = String::new(alloc);
    let mut live = open(alloc, &NONE)?;
    or_memory(rows.add(&raw_rows(alloc, &[(0, 0, Y), (0, 0, X)])?))?;
    push_told(&mut text, &mut live, rows)?;
    or_memory(repeat(alloc, rows, &[(1, 10, 2), (2, 20, 3), (0, 30, 4)]))?;
    push_told(&mut text, &mut live, rows)?;
    Ok(text)
}

#[test]
fn rows_that_are_added(rt: HostRuntime) -> Result<(), AllocError> {
    let alloc = rt.alloc();
    let mut rows = or_memory(prepared(alloc, &[(10, 1, X)]))?;
    let text = told_of_added(alloc, &mut rows)?;
    same(&rt, "told", text.as_str(), "A 55 AAA 130 ");
    let bad: &[Row] = &[(0, 0, Z), (0, 0, &[(b"", b"x")])];
    let found = rows.add(&raw_rows(alloc, bad)?);
    let fault = PrepareFault::Labels {
        row: 1,
        fault: LabelFault::EmptyName,
    };
    same(&rt, "bad", found, Err(fault));
    same(&rt, "ready", rows.len(), 3);
    let found = repeat(alloc, &mut rows, &[(3, 40, 1)]);
    same(&rt, "past", found, Err(AgainFault::NoSuchRow { row: 0 }));
    same(&rt, "none", rows.add(&[]), Ok(()));
    Ok(())
}

// Appends the rows at this time by one appender. Returns whether all were accepted.
fn put<K: HeadRun, R: Wait>(
    rt: &R,
    alloc: Global,
    shared: &SharedHead<K, Device>,
    appender: &mut Appender<K>,
    rows: &mut Prepared,
    time: i64,
) -> Result<String, AllocError> {
    or_memory(repeat(alloc, rows, &[(1, time, 1), (0, time, 2)]))?;
    let said = or_memory(appender.append(rt, shared, rows))?;
    let mut text = String::new(alloc);
    for verdict in &said {
        text.push(letter(verdict))?;
    }
    Ok(text)
}

// Two appenders in turn, by rows that were prepared once. At each time the second comes too late.
fn in_turn<K: HeadRun, R: Wait>(
    rt: &R,
    alloc: Global,
    blank: Blank,
    live: Live<Device>,
) -> Result<String, AllocError>
    requires name { blank.name ≡ K.name }
    requires parts { blank.parts ≡ K.parts }
    requires many { blank.parts ≡ 1025 }
    requires opening { live.now ≡ K.opening }
{
    let shared = or_memory(SharedHead::<K, Device>::start(rt, blank, live))?;
    let mut rows = or_memory(prepared(alloc, &[(0, 0, X), (0, 0, Y)]))?;
    let mut appenders = Vec::new(alloc);
    for _ in 0..2 {
        appenders.push(or_memory(shared.appender(rt))?)?;
    }
    let mut text = String::new(alloc);
    for time in 1..3 {
        for appender in &mut appenders {
            let said = put(rt, alloc, &shared, appender, &mut rows, time)?;
            text.push_str(said.as_str())?;
        }
    }
    push_end(&mut text, rt, alloc, shared, appenders)?;
    Ok(text)
}

#[test]
fn two_appenders_in_turn(rt: HostRuntime) -> Result<(), AllocError> {
    let log = LogWriter::new(rt.alloc(), Device::new(rt.alloc(), usize::MAX), 4096);
    let live = Live::new(rt.alloc(), Head::new(rt.alloc()), log);
    let text = in_turn::<Brand, HostRuntime>(&rt, rt.alloc(), Blank::new(1025), live)?;
    let wanted = "AASSAASSaccepted 4; x 1:2 2:2; y 1:1 2:1; read back";
    same(&rt, "in turn", text.as_str(), wanted);
    Ok(())
}

// The series of 5,000 rows, of which each second comes again, in reverse order.
fn check_many(rt: &impl Abort, alloc: Global, live: &mut Live<Device>) -> Result<(), AllocError> {
    let mut rows = or_memory(crate::limits::prepared_rows(alloc, 5000))?;
    let said = or_memory(live.append(&rows))?;
    same(rt, "first", said.len(), 5000);
    let mut again = Vec::new(alloc);
    for behind in 0..2500 {
        let value = i64::try_from(behind).unwrap_or(0);
        again.push((4999 - 2 * behind, 1, value))?;
    }
    or_memory(repeat(alloc, &mut rows, &again))?;
    let said = or_memory(live.append(&rows))?;
    same(rt, "again", said.len(), 2500);
    same(rt, "series", live.head().series(), 5000);
    same(rt, "samples", live.head().counts().accepted, 7500);
    Ok(())
}

#[test]
fn five_thousand_series(rt: HostRuntime) -> Result<(), AllocError> {
    let mut live = open(rt.alloc(), &NONE)?;
    check_many(&rt, rt.alloc(), &mut live)
}
