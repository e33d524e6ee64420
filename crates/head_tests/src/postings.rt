//! Postings, of slots that are added one by one or merged.

ghost use Rattle.std.specs.Prelude.{◌↔◌, ◌<◌, ◌∷◌, [], List, IsTrue, OnOk};
ghost use Rattle.std.specs.List.{All};
ghost use Rattle.head_postings.specs.Postings.{Labels};
ghost use Rattle.head_postings.specs.Room.{HasRoom, IsReserved};

use crate::{indices, same};
use head_postings::{Postings, PostingsBatch};
use head_series::Slot;
use std::alloc::{AllocError, Global};
use std::process::Abort;
use wal_record::LabelSet;

// A label: a name and a value.
type Pair = (&'static [u8], &'static [u8]);

// A slot, and its labels.
type Entry = (u32, &'static [Pair]);

// What postings show: all slots, and labels with the slots that have them.
#[derive(Drop)]
struct Shown<'a> {
    all: &'a [usize],
    labels: &'a [(Pair, &'a [usize])],
}

fn label_set(alloc: Global, pairs: &[Pair]) -> Result<LabelSet, AllocError> {
    let mut labels = LabelSet::new(alloc);
    for (name, value) in pairs {
        match labels.push(name, value) {
            Ok(()) => {}
            Err(_) => return Err(AllocError),
        }
    }
    Ok(labels)
}

fn are_below(slots: &[Slot], number: u32) -> bool
    ensures { IsTrue result ↔ All (λ s. s < number) slots.now }
{
    slots.iter().all(|slot| slot.index() < number as usize)
}

// Adds a slot with its labels. It has to be past those that are there.
fn add(alloc: Global, postings: &mut Postings, entry: &Entry) -> Result<(), AllocError> {
    let (number, pairs) = *entry;
    let labels = label_set(alloc, pairs)?;
    if !are_below(postings.all(), number) {
        return Err(AllocError);
    }
    postings.add(Slot::new(number), &labels)
}

fn add_all(alloc: Global, postings: &mut Postings, entries: &[Entry]) -> Result<(), AllocError> {
    for entry in entries {
        add(alloc, postings, entry)?;
    }
    Ok(())
}

fn check_selected(
    rt: &impl Abort,
    alloc: Global,
    postings: &Postings,
    pair: Pair,
    wanted: &[usize],
) -> Result<(), AllocError> {
    let found = indices(alloc, postings.select(pair.0, pair.1))?;
    same(rt, pair, found.as_slice(), wanted);
    Ok(())
}

fn check_shown(
    rt: &impl Abort,
    alloc: Global,
    postings: &Postings,
    shown: &Shown,
) -> Result<(), AllocError> {
    let found = indices(alloc, postings.all())?;
    same(rt, "all", found.as_slice(), shown.all);
    for (pair, slots) in shown.labels {
        check_selected(rt, alloc, postings, *pair, slots)?;
    }
    Ok(())
}

// Slots that are added to postings and to a copy of them, and what both then show.
#[derive(Drop)]
struct Case<'a> {
    entries: &'a [Entry],
    shown: &'a Shown<'a>,
    more: &'a [Entry],
    shown_by_copy: &'a Shown<'a>,
}

// A copy shows the same, and goes its own way.
fn check_copy(
    rt: &impl Abort,
    alloc: Global,
    copy: &mut Postings,
    case: &Case,
) -> Result<(), AllocError> {
    check_shown(rt, alloc, copy, case.shown)?;
    add_all(alloc, copy, case.more)?;
    check_shown(rt, alloc, copy, case.shown_by_copy)
}

fn check_copied(
    rt: &impl Abort,
    alloc: Global,
    postings: &Postings,
    case: &Case,
) -> Result<(), AllocError> {
    let mut copy = postings.copy()?;
    let outcome = check_copy(rt, alloc, &mut copy, case);
    drop(copy);
    outcome
}

fn check_postings(
    rt: &impl Abort,
    alloc: Global,
    postings: &mut Postings,
    case: &Case,
) -> Result<(), AllocError> {
    add_all(alloc, postings, case.entries)?;
    check_copied(rt, alloc, postings, case)?;
    check_shown(rt, alloc, postings, case.shown)
}

fn check(rt: &impl Abort, alloc: Global, case: &Case) -> Result<(), AllocError> {
    let mut postings = Postings::new(alloc);
    let outcome = check_postings(rt, alloc, &mut postings, case);
    drop(postings);
    outcome
}

const JOB_A: Pair = (b"job", b"a");

const JOB_B: Pair = (b"job", b"b");

const ZONE_C: Pair = (b"zone", b"c");

const ZONE_D: Pair = (b"zone", b"d");

// Three series by their slots.
const FIRST: Entry = (0, &[JOB_B]);

const SECOND: Entry = (1, &[JOB_A]);

const THIRD: Entry = (2, &[ZONE_C]);

const THREE: Shown = Shown {
    all: &[0, 1, 2],
    labels: &[
        (JOB_A, &[1]),
        (JOB_B, &[0]),
        (ZONE_C, &[2]),
        (ZONE_D, &[]),
        ((b"job", b"z"), &[]),
        ((b"", b"a"), &[]),
    ],
};

const THREE_SERIES: Case = Case {
    entries: &[FIRST, SECOND, THIRD],
    shown: &THREE,
    more: &[],
    shown_by_copy: &THREE,
};

const A_COPY: Case = Case {
    entries: &[FIRST, SECOND, THIRD],
    shown: &THREE,
    more: &[(3, &[JOB_A, ZONE_C])],
    shown_by_copy: &Shown {
        all: &[0, 1, 2, 3],
        labels: &[(JOB_A, &[1, 3]), (ZONE_C, &[2, 3])],
    },
};

const TWICE: Shown = Shown {
    all: &[4, 7],
    labels: &[(JOB_A, &[4, 7])],
};

const ONE_LABEL: Case = Case {
    entries: &[(4, &[JOB_A]), (7, &[JOB_A])],
    shown: &TWICE,
    more: &[],
    shown_by_copy: &TWICE,
};

const CASES: &[Case] = &[THREE_SERIES, A_COPY, ONE_LABEL];

#[test]
fn postings_and_their_copies(rt: HostRuntime) -> Result<(), AllocError> {
    for case in CASES {
        check(&rt, rt.alloc(), case)?;
    }
    Ok(())
}

// Where memory was refused, a slot with two labels is in neither list.
fn check_added(rt: &impl Abort, alloc: Global, postings: &mut Postings) -> Result<(), AllocError> {
    add_all(alloc, postings, &THREE_SERIES.entries)?;
    match add(alloc, postings, &(3, &[JOB_A, ZONE_D])) {
        Ok(()) => check_shown(rt, alloc, postings, &BOTH_LISTS),
        Err(_) => check_shown(rt, alloc, postings, &THREE),
    }
}

const BOTH_LISTS: Shown = Shown {
    all: &[0, 1, 2, 3],
    labels: &[(JOB_A, &[1, 3]), (ZONE_D, &[3])],
};

#[test]
fn a_slot_is_in_both_lists_or_in_neither(rt: HostRuntime) -> Result<(), AllocError> {
    let mut postings = Postings::new(rt.alloc());
    let outcome = check_added(&rt, rt.alloc(), &mut postings);
    drop(postings);
    outcome
}

// Adds slots to two postings.
fn add_to_both(
    alloc: Global,
    first: &mut Postings,
    second: &mut Postings,
    entries: &[Entry],
    others: &[Entry],
) -> Result<(), AllocError> {
    add_all(alloc, first, entries)?;
    add_all(alloc, second, others)
}

// What two postings show that were merged.
fn check_merged(
    rt: &impl Abort,
    alloc: Global,
    entries: &[Entry],
    others: &[Entry],
    shown: &Shown,
) -> Result<(), AllocError> {
    let mut first = Postings::new(alloc);
    let mut second = Postings::new(alloc);
    let added = add_to_both(alloc, &mut first, &mut second, entries, others);
    let merged = first.merge(second)?;
    let outcome = added.and(check_shown(rt, alloc, &merged, shown));
    drop(merged);
    outcome
}

// The slots of two postings, and what these show once they are merged: the first before the others, slots that interleave, and one in both.
const MERGED: &[(&[Entry], &[Entry], &Shown)] = &[
    (&[FIRST], &[SECOND, THIRD], &THREE),
    (&[FIRST, THIRD], &[SECOND], &THREE),
    (&[(4, &[JOB_A]), (7, &[JOB_A])], &[(7, &[JOB_A])], &TWICE),
];

#[test]
fn merged_postings(rt: HostRuntime) -> Result<(), AllocError> {
    for (entries, others, shown) in MERGED {
        check_merged(&rt, rt.alloc(), entries, others, shown)?;
    }
    Ok(())
}

// A slot with its labels, for which there is room. It has to be past those that are there.
fn add_ready(postings: &mut Postings, number: u32, labels: &LabelSet) -> Result<(), AllocError>
    requires { HasRoom postings.old (labels.now ∷ []) }
    ensures left { OnOk result ((rest : List Labels) → HasRoom postings.old (labels.now ∷ rest) → HasRoom postings.new rest) }
{
    if !are_below(postings.all(), number) {
        return Err(AllocError);
    }
    postings.add_ready(Slot::new(number), labels);
    Ok(())
}

fn make_room_for_both(
    postings: &mut Postings,
    batch: &mut PostingsBatch,
    first: &LabelSet,
    second: &LabelSet,
) -> Result<(), AllocError>
    requires { IsReserved postings.old [] batch.old }
    ensures { OnOk result (HasRoom postings.new (first.now ∷ second.now ∷ [])) }
{
    postings.make_room(batch, first)?;
    postings.make_room(batch, second)?;
    Ok(())
}

// Two slots that have a label together: whether there is room for both or not, no list is changed; then both are added.
fn check_ready(
    rt: &impl Abort,
    alloc: Global,
    postings: &mut Postings,
    first: &LabelSet,
    second: &LabelSet,
) -> Result<(), AllocError> {
    let mut batch = postings.batch();
    let made = make_room_for_both(postings, &mut batch, first, second);
    drop(batch);
    check_shown(rt, alloc, postings, &THREE)?;
    made?;
    add_ready(postings, 3, first)?;
    check_shown(rt, alloc, postings, &FOUR)?;
    add_ready(postings, 4, second)?;
    check_shown(rt, alloc, postings, &FIVE)
}

const FOUR: Shown = Shown {
    all: &[0, 1, 2, 3],
    labels: &[
        (JOB_A, &[1, 3]),
        (JOB_B, &[0]),
        (ZONE_C, &[2, 3]),
        (ZONE_D, &[]),
    ],
};

const FIVE: Shown = Shown {
    all: &[0, 1, 2, 3, 4],
    labels: &[
        (JOB_A, &[1, 3, 4]),
        (JOB_B, &[0]),
        (ZONE_C, &[2, 3]),
        (ZONE_D, &[4]),
        ((b"job", b"z"), &[]),
        ((b"", b"a"), &[]),
    ],
};

fn check_batch(rt: &impl Abort, alloc: Global, postings: &mut Postings) -> Result<(), AllocError> {
    add_all(alloc, postings, &THREE_SERIES.entries)?;
    let first = label_set(alloc, &[JOB_A, ZONE_C])?;
    let second = label_set(alloc, &[JOB_A, ZONE_D])?;
    check_ready(rt, alloc, postings, &first, &second)
}

#[test]
fn a_batch_of_two_sets_with_a_common_label(rt: HostRuntime) -> Result<(), AllocError> {
    let mut postings = Postings::new(rt.alloc());
    let outcome = check_batch(&rt, rt.alloc(), &mut postings);
    drop(postings);
    outcome
}
