//! Heads that take small logs, record by record.

use crate::lines::{Line, apply_lines, label_set};
use crate::{indices, same};
use head_core::{Counts, Head, HeadFault, Run, Sample, Slot};
use std::alloc::Global;
use std::process::Abort;

// A series of one label, and what is kept of it.
#[derive(Drop)]
struct Row<'a> {
    slot: u32,
    name: &'a [u8],
    value: u8,
    samples: &'a [Sample],
    last_time: Option<i64>,
    hidden: &'a [Run],
}

// What is asked of a head, and its answers.
#[derive(Drop)]
struct Case<'a> {
    lines: &'a [Line],
    counts: Counts,
    next_reference: Option<u64>,
    max_time: Option<i64>,
    series: &'a [Row<'a>],
    all: &'a [usize],
    // names and values, and the slots that have them
    labels: &'a [(&'a [u8], &'a [u8], &'a [usize])],
}

fn check_whole(rt: &impl Abort, alloc: Global, head: &Head, case: &Case) -> Result<(), HeadFault> {
    if head.is_failed() {
        return Err(HeadFault::Failed);
    }
    same(rt, "counts", head.counts(), case.counts);
    same(rt, "series", head.series(), case.series.len());
    same(rt, "next", head.next_reference(), case.next_reference);
    same(rt, "max", head.max_time(), case.max_time);
    same(
        rt,
        "absent",
        head.find(&label_set(alloc, b"a", b'z')?),
        None,
    );
    Ok(())
}

fn check_labels(rt: &impl Abort, alloc: Global, head: &Head, row: &Row) -> Result<(), HeadFault> {
    let slot = Slot::new(row.slot);
    let value = [row.value];
    let wanted = label_set(alloc, row.name, row.value)?;
    if head.is_failed() || head.series() <= slot.index() || head.pairs(slot) != 1 {
        return Err(HeadFault::Failed);
    }
    same(rt, slot, head.find(&wanted), Some(slot));
    same(rt, slot, head.pair(slot, 0), (row.name, value.as_slice()));
    same(rt, slot, head.labels(slot)?, wanted);
    Ok(())
}

fn check_kept(rt: &impl Abort, head: &Head, row: &Row) -> Result<(), HeadFault> {
    let slot = Slot::new(row.slot);
    if head.is_failed() || head.series() <= slot.index() {
        return Err(HeadFault::Failed);
    }
    let samples = head.samples(slot)?;
    same(rt, slot, samples.as_slice(), row.samples);
    same(rt, slot, head.sample_count(slot), row.samples.len());
    same(rt, slot, head.last_time(slot), row.last_time);
    same(rt, slot, head.hidden(slot), row.hidden);
    Ok(())
}

fn check_selected(
    rt: &impl Abort,
    alloc: Global,
    head: &Head,
    name: &[u8],
    value: &[u8],
    slots: &[usize],
) -> Result<(), HeadFault> {
    if head.is_failed() {
        return Err(HeadFault::Failed);
    }
    let found = indices(alloc, head.select(name, value))?;
    same(rt, (name, value), found.as_slice(), slots);
    Ok(())
}

fn check_all(
    rt: &impl Abort,
    alloc: Global,
    head: &Head,
    slots: &[usize],
) -> Result<(), HeadFault> {
    if head.is_failed() {
        return Err(HeadFault::Failed);
    }
    let found = indices(alloc, head.all())?;
    same(rt, "all", found.as_slice(), slots);
    Ok(())
}

fn check_after(
    rt: &impl Abort,
    alloc: Global,
    head: &mut Head,
    case: &Case,
) -> Result<(), HeadFault> {
    apply_lines(alloc, head, case.lines)?;
    check_whole(rt, alloc, head, case)?;
    check_all(rt, alloc, head, case.all)?;
    for row in case.series {
        check_labels(rt, alloc, head, row)?;
        check_kept(rt, head, row)?;
    }
    for (name, value, slots) in case.labels {
        check_selected(rt, alloc, head, name, value, slots)?;
    }
    Ok(())
}

fn check(rt: &impl Abort, alloc: Global, case: &Case) -> Result<(), HeadFault> {
    let mut head = Head::new(alloc);
    let outcome = check_after(rt, alloc, &mut head, case);
    drop(head);
    outcome
}

const NO_COUNTS: Counts = Counts {
    series_records: 0,
    sample_records: 0,
    stone_records: 0,
    skipped_records: 0,
    series_entries: 0,
    accepted: 0,
    stale: 0,
    unknown: 0,
    hiding: 0,
    empty_stones: 0,
    unknown_stones: 0,
    expired_samples: 0,
    expired_stones: 0,
};

const EMPTY_HEAD: Case = Case {
    lines: &[],
    counts: NO_COUNTS,
    next_reference: Some(1),
    max_time: None,
    series: &[],
    all: &[],
    labels: &[],
};

// The reference 3 is bound to a=x and then to a=y, and the reference 7 to a=x; then each gets a sample.
const REBOUND_REFERENCES: Case = Case {
    lines: &[
        Line::Series(3, b"a", b'x'),
        Line::Series(7, b"a", b'x'),
        Line::Series(3, b"a", b'y'),
        Line::Sample(7, 1000, 5),
        Line::Sample(3, 1000, 9),
    ],
    counts: Counts {
        series_records: 3,
        sample_records: 2,
        series_entries: 3,
        accepted: 2,
        ..NO_COUNTS
    },
    next_reference: Some(8),
    max_time: Some(1000),
    series: &[
        Row {
            slot: 0,
            name: b"a",
            value: b'x',
            samples: &[kept!(1000, 5)],
            last_time: Some(1000),
            hidden: &[],
        },
        Row {
            slot: 1,
            name: b"a",
            value: b'y',
            samples: &[kept!(1000, 9)],
            last_time: Some(1000),
            hidden: &[],
        },
    ],
    all: &[0, 1],
    labels: &[],
};

// An entry is judged by those before it alone.
const SAMPLE_BEFORE_ITS_SERIES: Case = Case {
    lines: &[
        Line::Sample(1, 1000, 5),
        Line::Stone(1, 9, 8),
        Line::Series(1, b"a", b'b'),
        Line::Sample(1, 2000, 6),
        Line::Sample(1, 2000, 6),
        Line::Sample(1, 1999, 6),
        Line::Sample(1, i64::MAX, 6),
        Line::Stone(1, 9, 9),
        Line::Stone(1, 9, 8),
        Line::Skipped,
    ],
    counts: Counts {
        series_records: 1,
        sample_records: 5,
        stone_records: 3,
        skipped_records: 1,
        series_entries: 1,
        accepted: 2,
        stale: 2,
        unknown: 1,
        hiding: 1,
        empty_stones: 1,
        unknown_stones: 1,
        ..NO_COUNTS
    },
    next_reference: Some(2),
    max_time: Some(i64::MAX),
    series: &[Row {
        slot: 0,
        name: b"a",
        value: b'b',
        samples: &[kept!(2000, 6), kept!(i64::MAX, 6)],
        last_time: Some(i64::MAX),
        hidden: &[run!(9, 9)],
    }],
    all: &[0],
    labels: &[],
};

const ENDS_OF_TIME: Case = Case {
    lines: &[
        Line::Series(1, b"a", b'b'),
        Line::Sample(1, i64::MIN, 1),
        Line::Sample(1, i64::MAX, 2),
    ],
    counts: Counts {
        series_records: 1,
        sample_records: 2,
        series_entries: 1,
        accepted: 2,
        ..NO_COUNTS
    },
    next_reference: Some(2),
    max_time: Some(i64::MAX),
    series: &[Row {
        slot: 0,
        name: b"a",
        value: b'b',
        samples: &[kept!(i64::MIN, 1), kept!(i64::MAX, 2)],
        last_time: Some(i64::MAX),
        hidden: &[],
    }],
    all: &[0],
    labels: &[],
};

// Deletions of two series, of which the first has a sample in a hidden run and one in none.
const HIDDEN_RUNS: Case = Case {
    lines: &[
        Line::Series(1, b"a", b'x'),
        Line::Series(2, b"a", b'y'),
        Line::Sample(1, 5, 1),
        Line::Sample(2, 6, 2),
        Line::Sample(1, 3_600_000, 1),
        Line::Stone(1, 5, 9),
        Line::Stone(1, 10, 12),
        Line::Stone(1, 20, 19),
        Line::Stone(2, i64::MIN, i64::MAX),
    ],
    counts: Counts {
        series_records: 2,
        sample_records: 3,
        stone_records: 4,
        series_entries: 2,
        accepted: 3,
        hiding: 3,
        empty_stones: 1,
        ..NO_COUNTS
    },
    next_reference: Some(3),
    max_time: Some(3_600_000),
    series: &[
        Row {
            slot: 0,
            name: b"a",
            value: b'x',
            samples: &[kept!(5, 1), kept!(3_600_000, 1)],
            last_time: Some(3_600_000),
            hidden: &[run!(5, 12)],
        },
        Row {
            slot: 1,
            name: b"a",
            value: b'y',
            samples: &[kept!(6, 2)],
            last_time: Some(6),
            hidden: &[run!(i64::MIN, i64::MAX)],
        },
    ],
    all: &[0, 1],
    labels: &[],
};

const THREE_SERIES: Case = Case {
    lines: &[
        Line::Series(1, b"job", b'b'),
        Line::Series(2, b"job", b'a'),
        Line::Series(3, b"zone", b'c'),
        Line::Sample(1, 1000, 10),
        Line::Sample(2, 2000, 20),
        Line::Sample(1, 3000, 11),
        Line::Sample(3, 3_600_000, 30),
    ],
    counts: Counts {
        series_records: 3,
        sample_records: 4,
        series_entries: 3,
        accepted: 4,
        ..NO_COUNTS
    },
    next_reference: Some(4),
    max_time: Some(3_600_000),
    series: &[
        Row {
            slot: 0,
            name: b"job",
            value: b'b',
            samples: &[kept!(1000, 10), kept!(3000, 11)],
            last_time: Some(3000),
            hidden: &[],
        },
        Row {
            slot: 1,
            name: b"job",
            value: b'a',
            samples: &[kept!(2000, 20)],
            last_time: Some(2000),
            hidden: &[],
        },
        Row {
            slot: 2,
            name: b"zone",
            value: b'c',
            samples: &[kept!(3_600_000, 30)],
            last_time: Some(3_600_000),
            hidden: &[],
        },
    ],
    all: &[0, 1, 2],
    labels: &[(b"job", b"a", &[1]), (b"job", b"z", &[]), (b"", b"", &[])],
};

const CASES: &[Case] = &[
    EMPTY_HEAD,
    REBOUND_REFERENCES,
    SAMPLE_BEFORE_ITS_SERIES,
    ENDS_OF_TIME,
    HIDDEN_RUNS,
    THREE_SERIES,
];

#[test]
fn heads_of_small_logs(rt: HostRuntime) -> Result<(), HeadFault> {
    for case in CASES {
        check(&rt, rt.alloc(), case)?;
    }
    Ok(())
}
