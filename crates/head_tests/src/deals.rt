//! Items dealt to workers, for both builders that there are.

use crate::{or_memory, same};
use head_column::{Column, Item, Outcome, Run, Sample, Tally};
use head_deal::{Builder, Deal, DealFault, JoinFault, Joined, Part, Stepped, join_parts, run_part};
use std::alloc::{AllocError, Global};
use std::fmt::Debug;
use std::process::Abort;

// A builder of a series, to which nothing came yet.
pub(crate) trait Fresh: Builder<Item = Item, Outcome = Outcome> {
    fn fresh(alloc: Global) -> Self;
}

impl Fresh for Tally {
    fn fresh(_alloc: Global) -> Tally {
        Tally::new()
    }
}

impl Fresh for Column {
    fn fresh(alloc: Global) -> Column {
        Column::new(alloc)
    }
}

// Five items for three series, with the slot of each.
const FIVE: &[(u32, Item)] = &[
    (0, Item::Sample(kept!(10, 1))),
    (1, Item::Sample(kept!(5, 2))),
    (0, Item::Sample(kept!(10, 3))),
    (2, Item::Stone(run!(4, 3))),
    (1, Item::Stone(run!(1, 2))),
];

// What becomes of each, in the order of dealing.
const FIVE_OUTCOMES: &[Outcome] = &[
    Outcome::Accepted,
    Outcome::Accepted,
    Outcome::Stale,
    Outcome::EmptyStone,
    Outcome::Hidden,
];

// Builders to which nothing came yet.
fn fresh_builders<B: Fresh>(alloc: Global, slots: usize) -> Result<Vec<B>, AllocError> {
    let mut builders = Vec::new(alloc);
    for _slot in 0..slots {
        builders.push(B::fresh(alloc))?;
    }
    Ok(builders)
}

// Deals an item, if there is its slot.
fn deal_one<B: Fresh>(deal: &mut Deal<B>, slot: u32, item: Item) -> Result<(), AllocError> {
    if deal.items() >= 4_294_967_296 || deal.slots() <= slot as usize {
        return Err(AllocError);
    }
    or_memory(deal.deal(slot, item))
}

fn deal_all<B: Fresh>(deal: &mut Deal<B>, items: &[(u32, Item)]) -> Result<(), AllocError> {
    for (slot, item) in items {
        deal_one(deal, *slot, *item)?;
    }
    Ok(())
}

// A deal to so many slots.
fn new_deal<B: Fresh>(
    alloc: Global,
    tag: u64,
    workers: usize,
    slots: usize,
) -> Result<Deal<B>, AllocError> {
    let builders = fresh_builders(alloc, slots)?;
    or_memory(Deal::new(alloc, tag, workers, builders))
}

// A deal of these items to three slots, or to more.
pub(crate) fn dealt<B: Fresh>(
    alloc: Global,
    tag: u64,
    workers: usize,
    slots: usize,
) -> Result<Deal<B>, AllocError> {
    let mut deal = new_deal(alloc, tag, workers, slots)?;
    deal_all(&mut deal, FIVE)?;
    Ok(deal)
}

// What the steps of these workers tell, one after another.
fn steps<B: Fresh>(
    alloc: Global,
    deal: &mut Deal<B>,
    workers: &[usize],
) -> Result<Vec<Stepped<Outcome>>, AllocError> {
    let mut told = Vec::new(alloc);
    for worker in workers {
        if deal.workers().number <= *worker {
            return Err(AllocError);
        }
        told.push(deal.step(*worker)?)?;
    }
    Ok(told)
}

fn joined<B: Fresh>(alloc: Global, deal: Deal<B>) -> Result<Joined<B>, AllocError> {
    let parts = or_memory(deal.into_parts())?;
    or_memory(join_parts(alloc, parts))
}

// Runs each part to its end.
fn run_parts<B: Fresh>(parts: &mut [Part<B>]) -> Result<(), AllocError> {
    for part in parts {
        run_part(part)?;
    }
    Ok(())
}

// Two workers, in an order of steps: what each step tells, and what all of them end in.
fn check_steps<B: Fresh>(
    rt: &impl Abort,
    alloc: Global,
    workers: &[usize],
    told: &[Stepped<Outcome>],
) -> Result<(), AllocError> {
    let mut deal: Deal<B> = dealt(alloc, 1, 2, 3)?;
    let found = steps(alloc, &mut deal, workers)?;
    same(rt, workers, found.as_slice(), told);
    let ended = joined(alloc, deal)?;
    same(rt, workers, ended.outcomes.as_slice(), FIVE_OUTCOMES);
    Ok(())
}

// The first worker has the slots 0 and 2, the second the slot 1. A seventh step finds nothing.
const ORDERS: &[(&[usize], &[Stepped<Outcome>])] = &[
    (
        &[1, 0, 1, 0, 0, 1, 0],
        &[
            Stepped::Done(Outcome::Accepted),
            Stepped::Done(Outcome::Accepted),
            Stepped::Done(Outcome::Hidden),
            Stepped::Done(Outcome::Stale),
            Stepped::Done(Outcome::EmptyStone),
            Stepped::Empty,
            Stepped::Empty,
        ],
    ),
    (
        &[0, 0, 0, 0, 1, 1, 1],
        &[
            Stepped::Done(Outcome::Accepted),
            Stepped::Done(Outcome::Stale),
            Stepped::Done(Outcome::EmptyStone),
            Stepped::Empty,
            Stepped::Done(Outcome::Accepted),
            Stepped::Done(Outcome::Hidden),
            Stepped::Empty,
        ],
    ),
];

#[test]
fn deal_of_tallies(rt: HostRuntime) -> Result<(), AllocError> {
    for (workers, told) in ORDERS {
        check_steps::<Tally>(&rt, rt.alloc(), workers, told)?;
        check_steps::<Column>(&rt, rt.alloc(), workers, told)?;
    }
    Ok(())
}

// The parts, each run to its end: the first one first, or the last one first, and given back in that order.
fn parts_run<B: Fresh>(
    alloc: Global,
    workers: usize,
    falls: bool,
) -> Result<Vec<Part<B>>, AllocError> {
    let deal: Deal<B> = dealt(alloc, 7, workers, 3)?;
    let mut parts = or_memory(deal.into_parts())?;
    if falls {
        parts.reverse();
    }
    run_parts(&mut parts)?;
    Ok(parts)
}

fn check_parts<B: Fresh>(
    rt: &impl Abort,
    alloc: Global,
    workers: usize,
    falls: bool,
) -> Result<Vec<B>, AllocError> {
    let parts: Vec<Part<B>> = parts_run(alloc, workers, falls)?;
    let ended = or_memory(join_parts(alloc, parts))?;
    same(
        rt,
        (workers, falls),
        ended.outcomes.as_slice(),
        FIVE_OUTCOMES,
    );
    Ok(ended.builders)
}

// What the three columns keep.
const FIVE_KEPT: &[(&[Sample], &[Run])] = &[
    (&[kept!(10, 1)], &[]),
    (&[kept!(5, 2)], &[run!(1, 2)]),
    (&[], &[]),
];

fn check_columns(rt: &impl Abort, workers: usize, columns: &[Column]) -> Result<(), AllocError> {
    same(rt, workers, columns.len(), FIVE_KEPT.len());
    for (column, (samples, hidden)) in columns.iter().zip(FIVE_KEPT) {
        same(rt, workers, column.samples()?.as_slice(), *samples);
        same(rt, workers, column.hidden(), *hidden);
    }
    Ok(())
}

#[test]
fn parts_in_any_order(rt: HostRuntime) -> Result<(), AllocError> {
    for workers in [1, 2, 7, 64] {
        for falls in [false, true] {
            let tallies: Vec<Tally> = check_parts(&rt, rt.alloc(), workers, falls)?;
            same(&rt, workers, tallies.len(), 3);
            let columns: Vec<Column> = check_parts(&rt, rt.alloc(), workers, falls)?;
            check_columns(&rt, workers, &columns)?;
        }
    }
    Ok(())
}

// Each item is applied at once, with the outcome that dealing it has.
fn check_at_once(rt: &impl Abort, alloc: Global, workers: usize) -> Result<(), AllocError> {
    let mut deal: Deal<Column> = new_deal(alloc, 7, workers, 3)?;
    for (at, (slot, item)) in FIVE.iter().enumerate() {
        if deal.items() > 0 || deal.slots() <= *slot as usize {
            return Err(AllocError);
        }
        let told = deal.apply(*slot, item)?;
        same(rt, at, Some(told), FIVE_OUTCOMES.get(at).copied());
    }
    check_columns(rt, workers, &joined(alloc, deal)?.builders)
}

#[test]
fn items_applied_at_once(rt: HostRuntime) -> Result<(), AllocError> {
    for workers in [1, 2, 7, 64] {
        check_at_once(&rt, rt.alloc(), workers)?;
    }
    Ok(())
}

// Items for nine series, of which some have none, and what becomes of each.
const GROWING: &[(u32, Item)] = &[
    (0, Item::Sample(kept!(10, 1))),
    (1, Item::Sample(kept!(5, 2))),
    (0, Item::Sample(kept!(10, 3))),
    (2, Item::Stone(run!(4, 3))),
    (8, Item::Sample(kept!(1, 4))),
    (1, Item::Stone(run!(1, 2))),
    (7, Item::Sample(kept!(3, 5))),
    (8, Item::Sample(kept!(1, 6))),
    (0, Item::Sample(kept!(11, 7))),
];

const GROWING_OUTCOMES: &[Outcome] = &[
    Outcome::Accepted,
    Outcome::Accepted,
    Outcome::Stale,
    Outcome::EmptyStone,
    Outcome::Accepted,
    Outcome::Hidden,
    Outcome::Accepted,
    Outcome::Stale,
    Outcome::Accepted,
];

// Deals an item, adds the slots up to its own before that, and has the first worker step after it.
fn deal_growing<B: Fresh>(
    alloc: Global,
    deal: &mut Deal<B>,
    slot: u32,
    item: Item,
) -> Result<(), AllocError> {
    for _slot in deal.slots()..slot as usize + 1 {
        or_memory(deal.add(B::fresh(alloc)))?;
    }
    deal_one(deal, slot, item)?;
    steps(alloc, deal, &[0])?;
    Ok(())
}

// A deal with so many slots at first. The others are added when an item for them comes, and the first worker steps after each item.
fn dealt_growing<B: Fresh>(
    alloc: Global,
    workers: usize,
    slots: usize,
) -> Result<Deal<B>, AllocError> {
    let mut deal = new_deal(alloc, 7, workers, slots)?;
    for (slot, item) in GROWING {
        deal_growing(alloc, &mut deal, *slot, *item)?;
    }
    Ok(deal)
}

// The outcomes of such a deal, and what its builders print as.
fn ended_growing<B: Fresh + Debug>(
    alloc: Global,
    workers: usize,
    slots: usize,
) -> Result<(Vec<Outcome>, String), AllocError> {
    let deal: Deal<B> = dealt_growing(alloc, workers, slots)?;
    let mut parts = or_memory(deal.into_parts())?;
    run_parts(&mut parts)?;
    let ended = or_memory(join_parts(alloc, parts))?;
    let text = format!(in alloc; "{:?}", ended.builders.as_slice())?;
    Ok((ended.outcomes, text))
}

// Slots that are added one by one end as those of a deal that has all nine from the beginning.
fn check_growing<B: Fresh + Debug>(
    rt: &impl Abort,
    alloc: Global,
    workers: usize,
) -> Result<(), AllocError> {
    let (whole, whole_text) = ended_growing::<B>(alloc, workers, 9)?;
    let (grown, grown_text) = ended_growing::<B>(alloc, workers, 0)?;
    same(rt, workers, whole.as_slice(), GROWING_OUTCOMES);
    same(rt, workers, grown.as_slice(), GROWING_OUTCOMES);
    same(rt, workers, grown_text, whole_text);
    Ok(())
}

#[test]
fn slots_added_while_dealing(rt: HostRuntime) -> Result<(), AllocError> {
    for workers in [1, 2, 7] {
        check_growing::<Tally>(&rt, rt.alloc(), workers)?;
        check_growing::<Column>(&rt, rt.alloc(), workers)?;
    }
    Ok(())
}

fn check_worker_count(
    rt: &impl Abort,
    alloc: Global,
    workers: usize,
    fault: DealFault,
) -> Result<(), AllocError> {
    let mut builders = Vec::new(alloc);
    builders.push(Tally::new())?;
    match Deal::new(alloc, 1, workers, builders) {
        Ok(_) => same(rt, workers, None, Some(fault)),
        Err(refused) => {
            same(rt, workers, refused.fault, fault);
            same(rt, workers, refused.builders.len(), 1);
        }
    }
    Ok(())
}

#[test]
fn counts_of_workers(rt: HostRuntime) -> Result<(), AllocError> {
    check_worker_count(&rt, rt.alloc(), 0, DealFault::NoWorkers)?;
    check_worker_count(&rt, rt.alloc(), 65, DealFault::TooManyWorkers)?;
    check_worker_count(&rt, rt.alloc(), usize::MAX, DealFault::TooManyWorkers)
}

// The first step of the second worker, and one slot more. A builder that memory was refused to is handed back, and is added then.
fn step_and_add<B: Fresh>(
    rt: &impl Abort,
    alloc: Global,
    deal: &mut Deal<B>,
) -> Result<(), AllocError> {
    let first = steps(alloc, deal, &[1])?;
    same(
        rt,
        "a step",
        first.as_slice(),
        &[Stepped::Done(Outcome::Accepted)],
    );
    if let Err(refused) = deal.add(B::fresh(alloc)) {
        or_memory(deal.add(refused.builder))?;
    }
    same(rt, "slots", deal.slots(), 4);
    Ok(())
}

// Runs each part to its end. What memory was refused to is left, and is done then.
fn run_again<B: Fresh>(parts: &mut [Part<B>]) -> Result<(), AllocError> {
    for part in parts {
        if run_part(part).is_err() {
            run_part(part)?;
        }
    }
    Ok(())
}

// Joins the parts. Those that memory was refused to are handed back, and are joined then.
fn join_again<B: Fresh>(
    rt: &impl Abort,
    alloc: Global,
    parts: Vec<Part<B>>,
) -> Result<Joined<B>, AllocError> {
    match join_parts(alloc, parts) {
        Ok(ended) => Ok(ended),
        Err(refused) => {
            same(rt, "why", refused.fault, JoinFault::Memory);
            or_memory(join_parts(alloc, refused.parts))
        }
    }
}

// Each call once, for two workers. Whatever memory is refused, what comes of it is right or nothing.
fn deal_or_nothing<B: Fresh>(rt: &impl Abort, alloc: Global) -> Result<(), AllocError> {
    let mut deal: Deal<B> = dealt(alloc, 1, 2, 3)?;
    step_and_add(rt, alloc, &mut deal)?;
    let mut parts = or_memory(deal.into_parts())?;
    run_again(&mut parts)?;
    let ended = join_again(rt, alloc, parts)?;
    same(rt, "outcomes", ended.outcomes.as_slice(), FIVE_OUTCOMES);
    same(rt, "builders", ended.builders.len(), 4);
    Ok(())
}

// To be run too with each allocation refused in turn.
#[test]
fn each_allocation(rt: HostRuntime) {
    let _ = deal_or_nothing::<Tally>(&rt, rt.alloc());
    let _ = deal_or_nothing::<Column>(&rt, rt.alloc());
}
