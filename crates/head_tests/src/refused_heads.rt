//! Heads that memory is refused to, record by record.

use crate::building::resolve_all;
use crate::log_lines::{Line, Log, NO_FILES, input_of};
use crate::parts::records_of;
use crate::same;
use crate::views::views;
use head_core::{Head, HeadFault, Resolver};
use std::alloc::{AllocError, Global};
use std::process::Abort;
use wal_record::WalRecord;

const REBOUND_REFERENCES: Log = Log {
    segments: &[&[
        Line::Series(&[(3, b"a", b"x")]),
        Line::Series(&[(7, b"a", b"x")]),
        Line::Series(&[(3, b"a", b"y")]),
        Line::Samples(&[(7, 1000, 5)]),
        Line::Samples(&[(3, 1000, 9)]),
    ]],
    ..NO_FILES
};

// The number of series, and of samples, that a head of these records has.
const SERIES: usize = 2;

const ACCEPTED: u64 = 2;

// Compares a head that took all records with what they say.
fn check_whole(rt: &impl Abort, head: &Head) {
    if !head.is_failed() {
        same(rt, "series", head.series(), SERIES);
        same(rt, "accepted", head.counts().accepted, ACCEPTED);
    }
}

// Applies records one after another. After `Memory` the head is to answer `Failed`.
fn apply_or_fail(rt: &impl Abort, alloc: Global, records: &[WalRecord]) {
    let mut head = Head::new(alloc);
    for log_record in records {
        if let Err(fault) = head.apply(log_record) {
            same(rt, "refused", fault, HeadFault::Memory);
            let again = head.apply(log_record);
            same(rt, "again", again, Err(HeadFault::Failed));
            return;
        }
    }
    check_whole(rt, &head);
}

// Reserves room for records and applies them. After `Memory` each view of the head is to be as before.
fn reserve_or_stay(
    rt: &impl Abort,
    alloc: Global,
    records: &[WalRecord],
) -> Result<(), AllocError> {
    let mut head = Head::new(alloc);
    let before = views(alloc, &head)?;
    match head.reserve(records) {
        Ok(reserved) => {
            head.apply_reserved(reserved, records);
            check_whole(rt, &head);
        }
        Err(fault) => {
            same(rt, "refused", fault, HeadFault::Memory);
            same(rt, "views", views(alloc, &head)?, before);
        }
    }
    Ok(())
}

// Resolves records one after another, up to one for which there is no memory.
fn resolve_or_stop(rt: &impl Abort, alloc: Global, records: &[WalRecord]) {
    let mut resolver = Resolver::new(alloc);
    match resolve_all(alloc, &mut resolver, records) {
        Ok(items) => same(rt, "items", items.len(), 2),
        Err(fault) => same(rt, "refused", fault, HeadFault::Memory),
    }
}

// To be run too with each allocation refused in turn.
#[test]
fn each_allocation(rt: HostRuntime) {
    let alloc = rt.alloc();
    let Ok(input) = input_of(alloc, REBOUND_REFERENCES) else {
        return;
    };
    let Ok(records) = records_of(alloc, &input) else {
        return;
    };
    apply_or_fail(&rt, alloc, &records);
    let _ = reserve_or_stay(&rt, alloc, &records);
    resolve_or_stop(&rt, alloc, &records);
}
