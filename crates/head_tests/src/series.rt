//! Tables of series, and numbers of texts.

use crate::same;
use head_series::{BindFault, InternFault, Interner, SeriesTable, Slot};
use std::alloc::{AllocError, Global};
use std::cmp::Ordering;
use std::process::Abort;
use wal_record::LabelSet;

// A reference that is bound to the label a with a value, and the slot that it gets with whether that is new. There is no slot
// where the table is full.
pub(crate) type Binding = (u64, u8, Option<(usize, bool)>);

// What a table shows.
#[derive(Drop)]
pub(crate) struct Shown<'a> {
    // slots, the values of their label a, and their least references
    pub(crate) series: &'a [(u32, u8, Option<u64>)],
    // references, and their slots
    pub(crate) references: &'a [(u64, usize)],
    pub(crate) next_reference: Option<u64>,
    // the order of the first two series
    pub(crate) order: Option<Ordering>,
    // a value that no series has
    pub(crate) absent: u8,
}

// What a table with a limit makes of bindings, and its copy of more bindings.
#[derive(Drop)]
struct Case<'a> {
    most: u32,
    bindings: &'a [Binding],
    shown: &'a Shown<'a>,
    more: &'a [Binding],
    shown_by_copy: &'a Shown<'a>,
}

// The one label a with the value.
pub(crate) fn label_set(alloc: Global, value: u8) -> Result<LabelSet, AllocError> {
    let mut labels = LabelSet::new(alloc);
    match labels.push(b"a", &[value]) {
        Ok(()) => Ok(labels),
        Err(_) => Err(AllocError),
    }
}

fn index(slot: Option<Slot>) -> Option<usize> {
    match slot {
        Some(slot) => Some(slot.index()),
        None => None,
    }
}

fn bind(
    rt: &impl Abort,
    alloc: Global,
    table: &mut SeriesTable,
    binding: &Binding,
) -> Result<(), AllocError> {
    let (reference, value, wanted) = *binding;
    let labels = label_set(alloc, value)?;
    let found = match table.bind(reference, &labels) {
        Ok(bound) => Some((bound.slot.index(), bound.created)),
        Err(BindFault::Full) => None,
        Err(BindFault::Memory) => return Err(AllocError),
    };
    same(rt, reference, found, wanted);
    Ok(())
}

fn check_series(
    rt: &impl Abort,
    alloc: Global,
    table: &SeriesTable,
    slot: Slot,
    value: u8,
    least: Option<u64>,
) -> Result<(), AllocError> {
    let text = [value];
    let wanted = label_set(alloc, value)?;
    if table.len() <= slot.index() || table.pairs(slot) != 1 {
        return Err(AllocError);
    }
    same(rt, slot, table.find_labels(&wanted), Some(slot));
    same(
        rt,
        slot,
        table.pair(slot, 0),
        (b"a".as_slice(), text.as_slice()),
    );
    same(rt, slot, table.reference(slot), least);
    same(rt, slot, table.labels(slot)?, wanted);
    Ok(())
}

// The order of the first two series.
fn order(table: &SeriesTable) -> Option<Ordering> {
    if table.len() < 2 {
        return None;
    }
    Some(table.compare(Slot::new(0), Slot::new(1)))
}

pub(crate) fn check_shown(
    rt: &impl Abort,
    alloc: Global,
    table: &SeriesTable,
    shown: &Shown,
) -> Result<(), AllocError> {
    same(rt, "series", table.len(), shown.series.len());
    for (slot, value, least) in shown.series {
        check_series(rt, alloc, table, Slot::new(*slot), *value, *least)?;
    }
    for (reference, slot) in shown.references {
        same(rt, *reference, index(table.find(*reference)), Some(*slot));
    }
    same(rt, "next", table.next_reference(), shown.next_reference);
    same(rt, "order", order(table), shown.order);
    let absent = label_set(alloc, shown.absent)?;
    same(rt, shown.absent, table.find_labels(&absent), None);
    Ok(())
}

pub(crate) fn check_after(
    rt: &impl Abort,
    alloc: Global,
    table: &mut SeriesTable,
    bindings: &[Binding],
    shown: &Shown,
) -> Result<(), AllocError> {
    for binding in bindings {
        bind(rt, alloc, table, binding)?;
    }
    check_shown(rt, alloc, table, shown)
}

// A copy shows the same, and goes its own way.
fn check_copy(
    rt: &impl Abort,
    alloc: Global,
    copy: &mut SeriesTable,
    case: &Case,
) -> Result<(), AllocError> {
    check_shown(rt, alloc, copy, case.shown)?;
    check_after(rt, alloc, copy, case.more, case.shown_by_copy)
}

fn check_copied(
    rt: &impl Abort,
    alloc: Global,
    table: &SeriesTable,
    case: &Case,
) -> Result<(), AllocError> {
    let mut copy = table.copy()?;
    let outcome = check_copy(rt, alloc, &mut copy, case);
    drop(copy);
    outcome
}

fn check_table(
    rt: &impl Abort,
    alloc: Global,
    table: &mut SeriesTable,
    case: &Case,
) -> Result<(), AllocError> {
    check_after(rt, alloc, table, case.bindings, case.shown)?;
    check_copied(rt, alloc, table, case)?;
    check_shown(rt, alloc, table, case.shown)
}

fn check(rt: &impl Abort, alloc: Global, case: &Case) -> Result<(), AllocError> {
    let mut table = SeriesTable::new(alloc, case.most);
    let outcome = check_table(rt, alloc, &mut table, case);
    drop(table);
    outcome
}

// The reference 3 is bound to x and then to y, and the reference 7 to x.
const BOUND_ANEW: Shown = Shown {
    series: &[(0, b'x', Some(7)), (1, b'y', Some(3))],
    references: &[(7, 0), (3, 1)],
    next_reference: Some(8),
    order: Some(Ordering::Less),
    absent: b'z',
};

const REFERENCES_BOUND_ANEW: Case = Case {
    most: 3,
    bindings: &[
        (3, b'x', Some((0, true))),
        (7, b'x', Some((0, false))),
        (3, b'y', Some((1, true))),
    ],
    shown: &BOUND_ANEW,
    more: &[],
    shown_by_copy: &BOUND_ANEW,
};

const TWO_TEXTS: Shown = Shown {
    series: &[(0, b'x', Some(3))],
    references: &[(3, 0)],
    next_reference: Some(4),
    order: None,
    absent: b'y',
};

const THREE_TEXTS: Case = Case {
    most: 2,
    bindings: &[(3, b'x', Some((0, true))), (3, b'y', None)],
    shown: &TWO_TEXTS,
    more: &[],
    shown_by_copy: &TWO_TEXTS,
};

const A_COPY: Case = Case {
    most: 3,
    bindings: &[(5_000_000, b'x', Some((0, true)))],
    shown: &Shown {
        series: &[(0, b'x', Some(5_000_000))],
        references: &[(5_000_000, 0)],
        next_reference: Some(5_000_001),
        order: None,
        absent: b'y',
    },
    more: &[(u64::MAX, b'y', Some((1, true)))],
    shown_by_copy: &Shown {
        series: &[(0, b'x', Some(5_000_000)), (1, b'y', Some(u64::MAX))],
        references: &[(5_000_000, 0), (u64::MAX, 1)],
        next_reference: None,
        order: Some(Ordering::Less),
        absent: b'z',
    },
};

const CASES: &[Case] = &[REFERENCES_BOUND_ANEW, THREE_TEXTS, A_COPY];

#[test]
fn tables_and_their_copies(rt: HostRuntime) -> Result<(), AllocError> {
    for case in CASES {
        check(&rt, rt.alloc(), case)?;
    }
    Ok(())
}

// Texts, and their numbers, if there is room for them.
const TEXTS: [(&[u8], Option<u32>); 3] = [(b"b", Some(0)), (b"b", Some(0)), (b"a", None)];

fn check_texts(rt: &impl Abort, texts: &mut Interner) -> Result<(), InternFault> {
    for (text, wanted) in TEXTS {
        let found = match texts.number(text) {
            Ok(number) => Some(number),
            Err(InternFault::Full) => None,
            Err(InternFault::Memory) => return Err(InternFault::Memory),
        };
        same(rt, text, found, wanted);
    }
    same(rt, "texts", texts.len(), 1);
    if texts.len() == 1 {
        same(rt, "bytes", texts.bytes(0), b"b");
    }
    Ok(())
}

#[test]
fn texts_are_numbered_once(rt: HostRuntime) -> Result<(), InternFault> {
    let mut texts = Interner::new(rt.alloc(), 1);
    let outcome = check_texts(&rt, &mut texts);
    drop(texts);
    outcome
}
