//! Columns and tallies, built item by item.

ghost use Rattle.std.specs.Prelude.{◌≡◌, IfOk, OnOk};
ghost use Rattle.std.specs.List.{fold, scan};

use crate::same;
use head_column::{Column, Item, Outcome, Run, Sample, Tally};
use head_deal::Builder;
use std::alloc::{AllocError, Global};
use std::process::Abort;

// The items of a series, what becomes of each, and what is kept of them.
#[derive(Drop)]
struct Case<'a> {
    items: &'a [Item],
    outcomes: &'a [Outcome],
    samples: &'a [Sample],
    hidden: &'a [Run],
    max_time: Option<i64>,
}

// Takes the items in order, and says the outcome of each: any builder, by its law alone.
fn take_all<B: Builder>(
    alloc: Global,
    builder: &mut B,
    items: &[B::Item],
) -> Result<Vec<B::Outcome>, AllocError>
    ensures value { OnOk result (B.value builder.new ≡ fold B.after (B.value builder.old) items.now) }
    ensures outcomes { IfOk result (λ outcomes. outcomes.items ≡ scan B.after B.outcome (B.value builder.old) items.now) }
{
    let mut outcomes = Vec::new(alloc);
    for item in items {
        let outcome = builder.apply(item)?;
        outcomes.push(outcome)?;
    }
    Ok(outcomes)
}

// What a column tells, and what it keeps.
fn check_column(rt: &impl Abort, alloc: Global, case: &Case) -> Result<(), AllocError> {
    let mut column = Column::new(alloc);
    let outcomes = take_all(alloc, &mut column, case.items)?;
    let samples = column.samples()?;
    same(rt, case.items, outcomes.as_slice(), case.outcomes);
    same(rt, case.items, samples.as_slice(), case.samples);
    same(rt, case.items, column.hidden(), case.hidden);
    same(rt, case.items, column.len(), case.samples.len());
    same(rt, case.items, column.max_time(), case.max_time);
    Ok(())
}

// A tally tells the same.
fn check_tally(rt: &impl Abort, alloc: Global, case: &Case) -> Result<(), AllocError> {
    let mut tally = Tally::new();
    let outcomes = take_all(alloc, &mut tally, case.items)?;
    same(rt, case.items, outcomes.as_slice(), case.outcomes);
    Ok(())
}

fn check(rt: &impl Abort, alloc: Global, cases: &[Case]) -> Result<(), AllocError> {
    for case in cases {
        check_column(rt, alloc, case)?;
        check_tally(rt, alloc, case)?;
    }
    Ok(())
}

macro_rules! sample {
    ($time:expr, $value:expr) => {
        Item::Sample(kept!($time, $value))
    };
}

macro_rules! stone {
    ($min_time:expr, $max_time:expr) => {
        Item::Stone(run!($min_time, $max_time))
    };
}

const NOTHING: Case = Case {
    items: &[],
    outcomes: &[],
    samples: &[],
    hidden: &[],
    max_time: None,
};

const STALE_SAMPLES: Case = Case {
    items: &[
        sample!(1000, 5),
        sample!(1000, 5),
        sample!(999, 5),
        sample!(1001, 6),
    ],
    outcomes: &[
        Outcome::Accepted,
        Outcome::Stale,
        Outcome::Stale,
        Outcome::Accepted,
    ],
    samples: &[kept!(1000, 5), kept!(1001, 6)],
    max_time: Some(1001),
    ..NOTHING
};

const FIRST_TIME: Case = Case {
    items: &[sample!(i64::MIN, 1)],
    outcomes: &[Outcome::Accepted],
    samples: &[kept!(i64::MIN, 1)],
    max_time: Some(i64::MIN),
    ..NOTHING
};

const BOTH_ENDS: Case = Case {
    items: &[
        sample!(i64::MIN, 1),
        sample!(i64::MAX, 2),
        sample!(i64::MAX, 3),
    ],
    outcomes: &[Outcome::Accepted, Outcome::Accepted, Outcome::Stale],
    samples: &[kept!(i64::MIN, 1), kept!(i64::MAX, 2)],
    max_time: Some(i64::MAX),
    ..NOTHING
};

const HIDDEN_RUNS: Case = Case {
    items: &[stone!(5, 9), stone!(10, 12), stone!(20, 19), stone!(5, 5)],
    outcomes: &[
        Outcome::Hidden,
        Outcome::Hidden,
        Outcome::EmptyStone,
        Outcome::Hidden,
    ],
    hidden: &[run!(5, 12)],
    ..NOTHING
};

const RUNS_TO_THE_ENDS: &[Case] = &[
    Case {
        items: &[stone!(i64::MIN, i64::MAX)],
        outcomes: &[Outcome::Hidden],
        hidden: &[run!(i64::MIN, i64::MAX)],
        ..NOTHING
    },
    Case {
        items: &[stone!(i64::MAX, i64::MAX), stone!(i64::MIN, 0)],
        outcomes: &[Outcome::Hidden; 2],
        hidden: &[run!(i64::MIN, 0), run!(i64::MAX, i64::MAX)],
        ..NOTHING
    },
    Case {
        items: &[
            stone!(i64::MAX, i64::MAX),
            stone!(i64::MIN, 0),
            stone!(1, i64::MAX - 1),
        ],
        outcomes: &[Outcome::Hidden; 3],
        hidden: &[run!(i64::MIN, i64::MAX)],
        ..NOTHING
    },
];

const RUNS_OUT_OF_ORDER: &[Case] = &[
    Case {
        items: &[stone!(20, 29), stone!(0, 9)],
        outcomes: &[Outcome::Hidden; 2],
        hidden: &[run!(0, 9), run!(20, 29)],
        ..NOTHING
    },
    Case {
        items: &[stone!(20, 29), stone!(0, 9), stone!(10, 19)],
        outcomes: &[Outcome::Hidden; 3],
        hidden: &[run!(0, 29)],
        ..NOTHING
    },
    Case {
        items: &[
            stone!(12, 13),
            stone!(4, 5),
            stone!(0, 1),
            stone!(8, 9),
            stone!(3, 8),
        ],
        outcomes: &[Outcome::Hidden; 5],
        hidden: &[run!(0, 1), run!(3, 9), run!(12, 13)],
        ..NOTHING
    },
];

const SAMPLES_AND_DELETIONS: Case = Case {
    items: &[
        sample!(1, 7),
        stone!(0, 5),
        sample!(2, 8),
        stone!(9, 8),
        sample!(2, 9),
    ],
    outcomes: &[
        Outcome::Accepted,
        Outcome::Hidden,
        Outcome::Accepted,
        Outcome::EmptyStone,
        Outcome::Stale,
    ],
    samples: &[kept!(1, 7), kept!(2, 8)],
    hidden: &[run!(0, 5)],
    max_time: Some(2),
};

const ALONE: &[Case] = &[
    NOTHING,
    STALE_SAMPLES,
    FIRST_TIME,
    BOTH_ENDS,
    HIDDEN_RUNS,
    SAMPLES_AND_DELETIONS,
];

#[test]
fn columns_and_tallies(rt: HostRuntime) -> Result<(), AllocError> {
    for cases in [ALONE, RUNS_TO_THE_ENDS, RUNS_OUT_OF_ORDER] {
        check(&rt, rt.alloc(), cases)?;
    }
    Ok(())
}

#[test]
fn room_for_two(rt: HostRuntime) -> Result<(), AllocError> {
    let mut column = Column::new(rt.alloc());
    column.reserve(2)?;
    let first = column.apply(&sample!(1, 1));
    same(&rt, "first", first, Ok(Outcome::Accepted));
    let second = column.apply(&stone!(3, 4));
    same(&rt, "second", second, Ok(Outcome::Hidden));
    same(&rt, "samples", column.len(), 1);
    Ok(())
}
