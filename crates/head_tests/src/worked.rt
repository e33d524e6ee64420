//! Sound logs by several numbers of workers.

use crate::log_lines::{Line, Log, NO_FILES};
use crate::logs::{Case, EMPTY_DIRECTORY, NOTHING, check, check_each};
use head_core::Counts;
use std::test::Fail;

pub(crate) const ONE_SERIES: Case = Case {
    name: "one series",
    log: Log {
        segments: &[&[
            Line::Series(&[(1, b"job", b"api")]),
            Line::Samples(&[(1, 1000, 5), (1, 1015, 6)]),
        ]],
        ..NO_FILES
    },
    counts: Counts {
        series_records: 1,
        sample_records: 1,
        series_entries: 1,
        accepted: 2,
        ..NOTHING
    },
    series: 1,
    ..EMPTY_DIRECTORY
};

const SKIPPED_RECORDS: Case = Case {
    name: "skipped records",
    log: Log {
        segments: &[&[
            Line::Bytes(b"123456789"),
            Line::Bytes(b""),
            Line::Bytes(&[0; 32]),
        ]],
        ..NO_FILES
    },
    counts: Counts {
        skipped_records: 3,
        ..NOTHING
    },
    ..EMPTY_DIRECTORY
};

// The first sample and the deletion are unknown: no reference is bound yet.
const SAMPLE_BEFORE_ITS_SERIES: Case = Case {
    name: "a sample before its series",
    log: Log {
        segments: &[&[
            Line::Samples(&[(1, 1000, 5)]),
            Line::Stones(&[(1, 0, 5000)]),
            Line::Series(&[(1, b"a", b"b")]),
            Line::Samples(&[(1, 2000, 6)]),
        ]],
        ..NO_FILES
    },
    counts: Counts {
        series_records: 1,
        sample_records: 2,
        stone_records: 1,
        series_entries: 1,
        accepted: 1,
        unknown: 1,
        unknown_stones: 1,
        ..NOTHING
    },
    series: 1,
    ..EMPTY_DIRECTORY
};

const REBOUND_REFERENCE: Case = Case {
    name: "a rebound reference",
    log: Log {
        segments: &[&[
            Line::Series(&[(3, b"a", b"x")]),
            Line::Series(&[(7, b"a", b"x")]),
            Line::Series(&[(3, b"a", b"y")]),
            Line::Samples(&[(7, 1000, 5)]),
            Line::Samples(&[(3, 1000, 9)]),
        ]],
        ..NO_FILES
    },
    counts: Counts {
        series_records: 3,
        sample_records: 2,
        series_entries: 3,
        accepted: 2,
        ..NOTHING
    },
    series: 2,
    ..EMPTY_DIRECTORY
};

// Of both samples of 7 at 1000 the second is stale. That of 3 at 1000 is of the other series.
const REBOUND_BETWEEN_SAMPLES: Case = Case {
    name: "a reference rebound between samples",
    log: Log {
        segments: &[&[
            Line::Series(&[(3, b"a", b"x")]),
            Line::Series(&[(7, b"a", b"x")]),
            Line::Samples(&[(3, 500, 1)]),
            Line::Series(&[(3, b"a", b"y")]),
            Line::Samples(&[(7, 1000, 5)]),
            Line::Samples(&[(3, 1000, 9), (7, 1000, 6)]),
            Line::Bytes(b""),
        ]],
        ..NO_FILES
    },
    counts: Counts {
        series_records: 3,
        sample_records: 3,
        skipped_records: 1,
        series_entries: 3,
        accepted: 3,
        stale: 1,
        ..NOTHING
    },
    series: 2,
    ..EMPTY_DIRECTORY
};

const FIRST_AND_LAST_TIME: Case = Case {
    name: "the first and the last time",
    log: Log {
        segments: &[&[
            Line::Series(&[(1, b"a", b"b")]),
            Line::Bytes(
                b"\x02\0\0\0\0\0\0\0\x01\x80\0\0\0\0\0\0\0\
                \0\0\0\0\0\0\0\0\0\x01\
                \0\x01\0\0\0\0\0\0\0\x02",
            ),
        ]],
        ..NO_FILES
    },
    counts: Counts {
        series_records: 1,
        sample_records: 1,
        series_entries: 1,
        accepted: 2,
        ..NOTHING
    },
    series: 1,
    ..EMPTY_DIRECTORY
};

const STALE_SAMPLES: Case = Case {
    name: "stale samples",
    log: Log {
        segments: &[&[
            Line::Series(&[(1, b"a", b"b")]),
            Line::Samples(&[(1, 1000, 5), (1, 1000, 5), (1, 999, 5), (1, 1001, 6)]),
        ]],
        ..NO_FILES
    },
    counts: Counts {
        series_records: 1,
        sample_records: 1,
        series_entries: 1,
        accepted: 2,
        stale: 2,
        ..NOTHING
    },
    series: 1,
    ..EMPTY_DIRECTORY
};

pub(crate) const TWO_PAGES: Case = Case {
    name: "two pages of one series",
    log: Log {
        segments: &[&[
            Line::Series(&[(1, b"a", b"b")]),
            Line::Seconds(0, 60),
            Line::PageEnd,
            Line::Seconds(60, 121),
            Line::Samples(&[(1, 3_600_000, 0)]),
        ]],
        ..NO_FILES
    },
    counts: Counts {
        series_records: 1,
        sample_records: 3,
        series_entries: 1,
        accepted: 122,
        ..NOTHING
    },
    series: 1,
    ..EMPTY_DIRECTORY
};

pub(crate) const HIDDEN_RUNS: Case = Case {
    name: "two series with hidden runs",
    log: Log {
        segments: &[&[
            Line::Series(&[(1, b"a", b"x"), (2, b"a", b"y")]),
            Line::Samples(&[(1, 5, 1), (2, 6, 2), (1, 3_600_000, 1)]),
            Line::Stones(&[(1, 5, 9), (1, 10, 12), (1, 20, 19), (2, i64::MIN, i64::MAX)]),
        ]],
        ..NO_FILES
    },
    counts: Counts {
        series_records: 1,
        sample_records: 1,
        stone_records: 1,
        series_entries: 2,
        accepted: 3,
        hiding: 3,
        empty_stones: 1,
        ..NOTHING
    },
    series: 2,
    ..EMPTY_DIRECTORY
};

const THREE_SERIES: Case = Case {
    name: "three series",
    log: Log {
        segments: &[&[
            Line::Series(&[(1, b"job", b"b"), (2, b"job", b"a"), (3, b"zone", b"c")]),
            Line::Samples(&[
                (1, 1000, 10),
                (2, 2000, 20),
                (1, 3000, 11),
                (3, 3_600_000, 30),
            ]),
        ]],
        ..NO_FILES
    },
    counts: Counts {
        series_records: 1,
        sample_records: 1,
        series_entries: 3,
        accepted: 4,
        ..NOTHING
    },
    series: 3,
    ..EMPTY_DIRECTORY
};

const ONE_SKIPPED: Counts = Counts {
    skipped_records: 1,
    ..NOTHING
};

const SPLIT_RECORD: Case = Case {
    name: "a record over two pages",
    log: Log {
        segments: &[&[Line::Long(39_999)]],
        ..NO_FILES
    },
    counts: ONE_SKIPPED,
    ..EMPTY_DIRECTORY
};

const SIX_PAGES: Case = Case {
    name: "six pages",
    log: Log {
        segments: &[&[Line::Long(32_760); 6]],
        ..NO_FILES
    },
    counts: Counts {
        skipped_records: 6,
        ..NOTHING
    },
    ..EMPTY_DIRECTORY
};

const LONG_RECORD: Case = Case {
    name: "a record over two hundred pages",
    log: Log {
        segments: &[&[Line::Long(6_552_100)]],
        ..NO_FILES
    },
    counts: ONE_SKIPPED,
    ..EMPTY_DIRECTORY
};

// A checkpoint of two files and three segments. In the last one the sample of 1 is stale, and nothing is bound to 3.
const FIVE_FILES: Case = Case {
    name: "five files",
    log: Log {
        checkpoint: &[
            &[
                Line::Series(&[(1, b"a", b"x")]),
                Line::Samples(&[(1, 1000, 1)]),
            ],
            &[Line::Samples(&[(1, 2000, 2)])],
        ],
        segments: &[
            &[
                Line::Series(&[(2, b"a", b"y")]),
                Line::Samples(&[(2, 1000, 3)]),
            ],
            &[Line::Samples(&[(1, 3000, 4), (2, 3000, 5)])],
            &[
                Line::Stones(&[(2, 0, 999)]),
                Line::Samples(&[(1, 3000, 6), (3, 1, 1)]),
            ],
        ],
    },
    counts: Counts {
        series_records: 2,
        sample_records: 5,
        stone_records: 1,
        series_entries: 2,
        accepted: 5,
        stale: 1,
        unknown: 1,
        hiding: 1,
        ..NOTHING
    },
    series: 2,
    ..EMPTY_DIRECTORY
};

/// The worked logs that a replay takes to their end.
pub(crate) const WORKED: &[Case] = &[
    EMPTY_DIRECTORY,
    ONE_SERIES,
    SKIPPED_RECORDS,
    SAMPLE_BEFORE_ITS_SERIES,
    REBOUND_REFERENCE,
    REBOUND_BETWEEN_SAMPLES,
    FIRST_AND_LAST_TIME,
    STALE_SAMPLES,
    TWO_PAGES,
    HIDDEN_RUNS,
    THREE_SERIES,
];

#[test]
fn worked_logs(rt: HostRuntime) -> Result<(), Fail> {
    for case in WORKED {
        check(&rt, rt.alloc(), case)?;
    }
    Ok(())
}

#[test]
fn fewer_files_than_workers(rt: HostRuntime) -> Result<(), Fail> {
    check(&rt, rt.alloc(), &FIVE_FILES)
}

#[test]
fn split_record(rt: HostRuntime) -> Result<(), Fail> {
    check(&rt, rt.alloc(), &SPLIT_RECORD)
}

#[test]
fn six_pages(rt: HostRuntime) -> Result<(), Fail> {
    check(&rt, rt.alloc(), &SIX_PAGES)
}

// With rounds of one page, each worker comes two hundred times.
#[test]
fn record_over_two_hundred_pages(rt: HostRuntime) -> Result<(), Fail> {
    check_each(&rt, rt.alloc(), &LONG_RECORD, &[2])
}
