//! A head that is built in parts: the items of its records are found, dealt to workers, taken by each worker on its own, and joined.

ghost use Rattle.std.specs.Prelude.{◌≡◌, false, OnOk};

use crate::or_memory;
use head_column::{Column, Item, Outcome};
use head_core::{Counts, Head, HeadFault, Resolver, postings_of};
use head_deal::{Deal, Joined, join_parts, run_part};
use head_series::Slot;
use std::alloc::{AllocError, Global};
use wal_record::WalRecord;

/// How the work is dealt: to how many workers, and whether the last one's part is run first.
#[derive(Clone, Copy, Debug)]
pub struct Plan {
    pub workers: usize,
    pub falls: bool,
}

/// The known items of the records with the slots of their owners, in order.
pub(crate) fn resolve_all(
    alloc: Global,
    resolver: &mut Resolver,
    records: &[WalRecord],
) -> Result<Vec<(Slot, Item)>, HeadFault>
    requires sound { resolver.old.failed ≡ false }
    ensures sound { OnOk result (resolver.new.failed ≡ false) }
{
    let mut all = Vec::new(alloc);
    for log_record in records {
        let mut items = resolver.resolve(log_record)?;
        all.append(&mut items)?;
    }
    Ok(all)
}

// New columns.
fn new_columns(alloc: Global, many: usize) -> Result<Vec<Column>, AllocError> {
    let mut columns = Vec::with_capacity(alloc, many)?;
    for _slot in 0..many {
        columns.push(Column::new(alloc))?;
    }
    Ok(columns)
}

// The deal of these items to so many new columns.
fn deal_all(
    alloc: Global,
    series: usize,
    items: Vec<(Slot, Item)>,
    plan: Plan,
) -> Result<Deal<Column>, HeadFault> {
    let columns = new_columns(alloc, series)?;
    let mut deal = or_memory(Deal::new(alloc, 0, plan.workers, columns))?;
    for (slot, item) in items {
        if deal.items() >= 4_294_967_296 || deal.slots() <= slot.index() {
            return Err(HeadFault::Full);
        }
        or_memory(deal.deal(slot.number(), item))?;
    }
    Ok(deal)
}

// Runs the parts of a deal one after another, and joins them.
fn run_all(alloc: Global, deal: Deal<Column>, plan: Plan) -> Result<Joined<Column>, HeadFault> {
    let mut parts = or_memory(deal.into_parts())?;
    if plan.falls {
        parts.reverse();
    }
    for part in &mut parts {
        run_part(part)?;
    }
    Ok(or_memory(join_parts(alloc, parts))?)
}

// These counts, with those of the outcomes beside them.
fn with_outcomes(mut counts: Counts, outcomes: &[Outcome]) -> Result<Counts, HeadFault> {
    for outcome in outcomes {
        let outcome = *outcome;
        counts.add_outcome(outcome)?;
    }
    Ok(counts)
}

/// The head of these records, built in parts. `Full` also where an item is of no slot, which never is.
pub fn build(alloc: Global, records: &[WalRecord], plan: Plan) -> Result<Head, HeadFault> {
    let mut resolver = Resolver::new(alloc);
    let items = resolve_all(alloc, &mut resolver, records)?;
    let series = resolver.table().len();
    let deal = deal_all(alloc, series, items, plan)?;
    let joined = run_all(alloc, deal, plan)?;
    let counts = with_outcomes(resolver.counts(), &joined.outcomes)?;
    let postings = postings_of(alloc, resolver.table())?;
    if joined.builders.len() != series {
        return Err(HeadFault::Full);
    }
    Ok(Head::assemble(resolver, joined.builders, counts, postings))
}
