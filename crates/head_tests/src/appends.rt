//! Rows that are appended.

use crate::cases::{Case, check};
use crate::device::Device;
use crate::live_views::views;
use crate::opening::{Entry, head_of};
use crate::rows::{Row, prepared, prepared_again};
use crate::{or_memory, same};
use head_live::{AppendFault, Live, PrepareFault, Prepared, Verdict};
use std::alloc::{AllocError, Global};
use std::process::Abort;
use wal_log::LogWriter;

// A head's log, the pages of a segment, the bytes that its device has room for, and the rows of each call.
#[derive(Clone, Copy)]
pub(crate) struct Appends {
    pub(crate) log: &'static [Entry],
    pub(crate) pages: u32,
    pub(crate) room: usize,
    pub(crate) calls: &'static [&'static [Row]],
}

impl Appends {
    /// Returns these calls on a device with room for `room` bytes.
    pub(crate) fn with_room(self, room: usize) -> Appends {
        Appends { room, ..self }
    }

    pub(crate) fn calls(&self) -> &'static [&'static [Row]] {
        self.calls
    }
}

// An open head that is to take rows.
pub(crate) fn open(alloc: Global, case: &Appends) -> Result<Live<Device>, AllocError> {
    let head = or_memory(head_of(alloc, case.log))?;
    if head.is_failed() {
        return Err(AllocError);
    }
    let log = LogWriter::new(
        alloc,
        Device::new(alloc, case.room),
        case.pages.clamp(1, 4096),
    );
    Ok(Live::new(alloc, head, log))
}

/// The letter of a verdict.
pub(crate) fn letter(verdict: &Verdict) -> char {
    match verdict {
        Verdict::Accepted => 'A',
        Verdict::Stale => 'S',
        Verdict::Expired => 'E',
    }
}

fn push_letters(text: &mut String, verdicts: &[Verdict]) -> Result<(), AllocError> {
    for verdict in verdicts {
        text.push(letter(verdict))?;
    }
    Ok(())
}

/// What prepared rows are told, a letter each, or the fault, and how many bytes the log has then.
pub(crate) fn push_told(
    text: &mut String,
    live: &mut Live<Device>,
    rows: &Prepared,
) -> Result<(), AllocError> {
    match live.append(rows) {
        Ok(verdicts) => push_letters(text, &verdicts)?,
        Err(AppendFault::Memory) => return Err(AllocError),
        Err(fault) => write!(text, "{fault:?}")?,
    }
    write!(text, " {} ", live.done())
}

// What the rows of a call are told, a letter each, or the fault.
pub(crate) fn push_call(
    text: &mut String,
    alloc: Global,
    live: &mut Live<Device>,
    rows: &[Row],
) -> Result<(), AllocError> {
    match prepared(alloc, rows) {
        Ok(rows) => push_told(text, live, &rows),
        Err(PrepareFault::Memory) => Err(AllocError),
        Err(fault) => write!(text, "{fault:?} "),
    }
}

// The same by rows that were prepared before, with other times and values.
fn push_again(
    text: &mut String,
    alloc: Global,
    live: &mut Live<Device>,
    rows: &[Row],
) -> Result<(), AllocError> {
    let rows = or_memory(prepared_again(alloc, rows))?;
    push_told(text, live, &rows)
}

// The bytes that the device took, and what the head shows.
pub(crate) fn push_left(
    text: &mut String,
    alloc: Global,
    live: Live<Device>,
) -> Result<(), AllocError> {
    let shown = views(alloc, live.head())?;
    let (head, log) = live.into_inner();
    for byte in &log.into_inner().taken {
        write!(text, "{byte:02X}")?;
    }
    write!(text, " | {}", shown.as_str())?;
    drop(head);
    Ok(())
}

impl Case for Appends {
    fn text(&self, alloc: Global) -> Result<String, AllocError> {
        let mut text = String::new(alloc);
        let mut live = open(alloc, self)?;
        for rows in self.calls {
            push_call(&mut text, alloc, &mut live, rows)?;
        }
        push_left(&mut text, alloc, live)?;
        Ok(text)
    }
}

// The same calls by rows that were prepared before.
#[derive(Clone, Copy)]
struct Repeated(Appends);

impl Case for Repeated {
    fn text(&self, alloc: Global) -> Result<String, AllocError> {
        let mut text = String::new(alloc);
        let mut live = open(alloc, &self.0)?;
        for rows in self.0.calls {
            push_again(&mut text, alloc, &mut live, rows)?;
        }
        push_left(&mut text, alloc, live)?;
        Ok(text)
    }
}

pub(crate) const NONE: Appends = Appends {
    log: &[],
    pages: 4096,
    room: usize::MAX,
    calls: &[],
};

const API: &[(&[u8], &[u8])] = &[(b"job", b"api")];

const THREE: &[Row] = &[(1000, 5, API), (1015, 6, API), (1015, 7, API)];

const ONE: &[Row] = &[(1030, 8, API)];

// A series of 69 bytes, and then one sample more.
pub(crate) const THREE_AND_ONE: Appends = Appends {
    calls: &[THREE, ONE],
    ..NONE
};

const LIVE: &[(Appends, &str)] = &[(
    THREE_AND_ONE,
    "AAS 69 A 103 \
        0100128DAC905901000000000000000101036A6F6203617069\
        0100258849D67E02000000000000000100000000000003E800000000000000000005001E0000000000000006\
        01001BD1EC144A020000000000000001000000000000040600000000000000000008 \
        | 1 2 3 0 Some(2) Some(1030) 0; Some(1) job=api 1000:5 1015:6 1030:8 Some(1030)",
)];

const X: &[(&[u8], &[u8])] = &[(b"a", b"x")];

const Y: &[(&[u8], &[u8])] = &[(b"a", b"y")];

const Z: &[(&[u8], &[u8])] = &[(b"a", b"z")];

const SPENT: &[(Appends, &str)] = &[(
    Appends {
        log: &[Entry::Series(u64::MAX, b"x")],
        calls: &[
            &[(1000, 5, X)],
            &[(1000, 5, Y)],
            &[(2000, 5, X), (2000, 5, Y)],
        ],
        ..NONE
    },
    "A 34 RefsSpent 34 RefsSpent 34 \
        01001B5DB0A62902FFFFFFFFFFFFFFFF00000000000003E800000000000000000005 \
        | 1 1 1 0 None Some(1000) 1; Some(18446744073709551615) a=x 1000:5 Some(1000)",
)];

// The series of x has a sample, and no reference any more.
const REBOUND: &[(Appends, &str)] = &[(
    Appends {
        log: &[
            Entry::Series(1, b"x"),
            Entry::Sample(1, 5000, 1),
            Entry::Series(1, b"y"),
        ],
        calls: &[&[(4000, 1, X)], &[(6000, 2, X)]],
        ..NONE
    },
    "S 0 A 55 \
        01000E77377A66010000000000000002010161017801001BD61BD492020000000000000002000000000000177000000000000000000002 \
        | 3 2 2 0 Some(3) Some(6000) 1; Some(2) a=x 5000:1 6000:2 Some(6000); Some(1) a=y None",
)];

// Two new series in one call, each with two rows, and a third whose first row is its only one.
const NEW: &[(Appends, &str)] = &[(
    Appends {
        calls: &[&[(5, 1, Y), (5, 2, Z), (6, 3, Y), (4, 9, Z)]],
        ..NONE
    },
    "AAAS 88 \
        01001B40C93FD101000000000000000101016101790000000000000002010161017A\
        01002FDF1170140200000000000000010000000000000005000000000000000000010200000000000000000200020000000000000003 \
        | 1 1 3 0 Some(3) Some(6) 0; Some(1) a=y 5:1 6:3 Some(6); Some(2) a=z 5:2 Some(5)",
)];

// No rows are nothing, and what a call was refused for the next one is not held to.
const FULL: &[(Appends, &str)] = &[(
    Appends {
        pages: 1,
        calls: &[&[], &[(5, 1, &[(b"a", &[b'x'; 32_720])])], THREE],
        ..NONE
    },
    " 0 SegmentFull 0 AAS 69 \
        0100128DAC905901000000000000000101036A6F6203617069\
        0100258849D67E02000000000000000100000000000003E800000000000000000005001E0000000000000006 \
        | 1 1 2 0 Some(2) Some(1015) 0; Some(1) job=api 1000:5 1015:6 Some(1015)",
)];

#[test]
fn live_appends(rt: HostRuntime) {
    for cases in [LIVE, SPENT, REBOUND, NEW, FULL] {
        check(&rt, cases);
        for (case, wanted) in cases {
            check(&rt, &[(Repeated(*case), *wanted)]);
        }
    }
}

// The bytes of the three rows.
const BYTES: &str = "0100128DAC905901000000000000000101036A6F6203617069\
    0100258849D67E02000000000000000100000000000003E800000000000000000005001E0000000000000006";

/// The first so many bytes of the three rows, as digits.
pub(crate) fn first_bytes(alloc: Global, count: usize) -> Result<String, AllocError> {
    let mut text = String::new(alloc);
    for digit in BYTES.chars().take(count.saturating_mul(2)) {
        text.push(digit)?;
    }
    Ok(text)
}

const MIXED: Appends = Appends {
    log: &[Entry::Series(1, b"x"), Entry::Sample(1, 5000, 1)],
    calls: &[&[
        (6000, 1, X),
        (6000, 1, Y),
        (5000, 1, X),
        (7000, 1, Y),
        (1, 1, Z),
    ]],
    ..NONE
};

// Appends rows of a known series and of new ones. Where nothing was logged the head shows what it showed.
fn append_or_stay(rt: &impl Abort, alloc: Global) -> Result<(), AllocError> {
    let mut live = open(alloc, &MIXED)?;
    let before = views(alloc, live.head())?;
    let mut text = String::new(alloc);
    let _ = push_call(&mut text, alloc, &mut live, MIXED.calls[0]);
    let after = views(alloc, live.head())?;
    let stays = before.as_str() == after.as_str();
    let shown = (before.as_str(), after.as_str());
    same(rt, shown, stays, live.done() == 0);
    Ok(())
}

// To be run too with each allocation refused in turn, those of the device among them.
#[test]
fn each_allocation(rt: HostRuntime) {
    let _ = append_or_stay(&rt, rt.alloc());
}
