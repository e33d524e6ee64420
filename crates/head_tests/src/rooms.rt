//! Series that are bound in the room that was made for them.

use crate::same;
use crate::series::{Binding, Shown, check_after, check_shown, label_set};
use head_series::{BindFault, Bound, SeriesTable, room_for_first};
use std::alloc::{AllocError, Global};
use std::cmp::Ordering;
use std::process::Abort;
use wal_record::LabelSet;

// A slot, and whether it is new.
type Slot = (usize, bool);

// Two references, and the label sets that they are to be bound to.
#[derive(Drop)]
struct Batch {
    first: u64,
    first_labels: LabelSet,
    second: u64,
    second_labels: LabelSet,
}

// What a table with a limit shows once some bindings were made, and what it makes of two more, for which there is room
// before the first is made.
#[derive(Drop)]
struct Case<'a> {
    most: u32,
    bindings: &'a [Binding],
    before: &'a Shown<'a>,
    // references, and the values of the label a that they are to be bound to
    first: (u64, u8),
    second: (u64, u8),
    // none where the table would be full
    bound: Option<(Slot, Slot)>,
    after: &'a Shown<'a>,
}

// Binds both or neither. While there is room for both and none is bound, the table shows what it showed.
fn bind_both(
    rt: &impl Abort,
    alloc: Global,
    table: &mut SeriesTable,
    batch: &Batch,
    before: &Shown,
) -> Result<(Bound, Bound), BindFault> {
    let mut plan = table.plan();
    let first = table.reserve(&mut plan, batch.first, &batch.first_labels)?;
    let second = table.reserve(&mut plan, batch.second, &batch.second_labels)?;
    check_shown(rt, alloc, table, before)?;
    room_for_first();
    let first = table.bind_ready(batch.first, &batch.first_labels, first);
    let second = table.bind_ready(batch.second, &batch.second_labels, second);
    Ok((first, second))
}

fn slot_of(bound: Bound) -> Slot {
    (bound.slot.index(), bound.created)
}

fn check_batch(
    rt: &impl Abort,
    alloc: Global,
    table: &mut SeriesTable,
    case: &Case,
) -> Result<(), AllocError> {
    let batch = Batch {
        first: case.first.0,
        first_labels: label_set(alloc, case.first.1)?,
        second: case.second.0,
        second_labels: label_set(alloc, case.second.1)?,
    };
    let bound = match bind_both(rt, alloc, table, &batch, case.before) {
        Ok((first, second)) => Some((slot_of(first), slot_of(second))),
        Err(BindFault::Full) => None,
        Err(BindFault::Memory) => return Err(AllocError),
    };
    same(rt, "bound", bound, case.bound);
    Ok(())
}

fn check_table(
    rt: &impl Abort,
    alloc: Global,
    table: &mut SeriesTable,
    case: &Case,
) -> Result<(), AllocError> {
    check_after(rt, alloc, table, case.bindings, case.before)?;
    check_batch(rt, alloc, table, case)?;
    check_shown(rt, alloc, table, case.after)
}

fn check(rt: &impl Abort, alloc: Global, case: &Case) -> Result<(), AllocError> {
    let mut table = SeriesTable::new(alloc, case.most);
    let outcome = check_table(rt, alloc, &mut table, case);
    drop(table);
    outcome
}

// The reference 3 is bound to x.
const ONE: Shown = Shown {
    series: &[(0, b'x', Some(3))],
    references: &[(3, 0)],
    next_reference: Some(4),
    order: None,
    absent: b'y',
};

const A_KNOWN_AND_A_NEW_ONE: Case = Case {
    most: 9,
    bindings: &[(3, b'x', Some((0, true)))],
    before: &ONE,
    first: (7, b'x'),
    second: (2, b'y'),
    bound: Some(((0, false), (1, true))),
    after: &Shown {
        series: &[(0, b'x', Some(3)), (1, b'y', Some(2))],
        references: &[(3, 0), (7, 0), (2, 1)],
        next_reference: Some(8),
        order: Some(Ordering::Less),
        absent: b'z',
    },
};

// Three series of the label a have four texts, which are as many as there may be.
const TWO_NEW_ONES: Case = Case {
    most: 4,
    bindings: &[(3, b'x', Some((0, true)))],
    before: &ONE,
    first: (5_000_000, b'y'),
    second: (2, b'w'),
    bound: Some(((1, true), (2, true))),
    after: &Shown {
        series: &[
            (0, b'x', Some(3)),
            (1, b'y', Some(5_000_000)),
            (2, b'w', Some(2)),
        ],
        references: &[(3, 0), (5_000_000, 1), (2, 2)],
        next_reference: Some(5_000_001),
        order: Some(Ordering::Less),
        absent: b'z',
    },
};

// Both are y, which is new, and the reference 3 is bound to x no longer.
const ONE_NEW_SERIES_TWICE: Case = Case {
    most: 3,
    bindings: &[(3, b'x', Some((0, true)))],
    before: &ONE,
    first: (u64::MAX, b'y'),
    second: (3, b'y'),
    bound: Some(((1, true), (1, false))),
    after: &Shown {
        series: &[(0, b'x', None), (1, b'y', Some(3))],
        references: &[(u64::MAX, 1), (3, 1)],
        next_reference: None,
        order: Some(Ordering::Less),
        absent: b'z',
    },
};

// The second has the fourth text, so that the first is not bound either.
const ONE_TEXT_TOO_MANY: Case = Case {
    most: 3,
    bindings: &[(3, b'x', Some((0, true)))],
    before: &ONE,
    first: (8, b'y'),
    second: (9, b'z'),
    bound: None,
    after: &ONE,
};

const CASES: &[Case] = &[
    A_KNOWN_AND_A_NEW_ONE,
    TWO_NEW_ONES,
    ONE_NEW_SERIES_TWICE,
    ONE_TEXT_TOO_MANY,
];

#[test]
fn both_or_neither(rt: HostRuntime) -> Result<(), AllocError> {
    for case in CASES {
        check(&rt, rt.alloc(), case)?;
    }
    Ok(())
}
