//! Heads that are built in parts, which are run one after another, in rising and in falling order.

use crate::building::{Plan, build};
use crate::log_lines::{Log, input_of};
use crate::logs::WORKERS;
use crate::refused::HIDDEN_AND_REBOUND;
use crate::same;
use crate::views::{serial_views, views};
use crate::worked::WORKED;
use head_core::HeadFault;
use head_serial::ReplayFault;
use std::alloc::{AllocError, Global};
use std::process::Abort;
use std::test::Fail;
use wal_log::{Input, read_all};
use wal_record::WalRecord;

/// The records of a log before its first damage.
pub(crate) fn records_of(alloc: Global, input: &Input) -> Result<Vec<WalRecord>, AllocError> {
    let reading = read_all(alloc, input)?;
    let mut records = Vec::new(alloc);
    for placed in reading.records.into_vec() {
        records.push(placed.content)?;
    }
    Ok(records)
}

// That a log's head is the same in every view, however its items are dealt.
fn check_parts(rt: &impl Abort, alloc: Global, log: Log) -> Result<(), Fail> {
    let input = input_of(alloc, log)?;
    let shown = serial_views(alloc, &input)?;
    let records = records_of(alloc, &input)?;
    for workers in WORKERS {
        for falls in [false, true] {
            let plan = Plan { workers, falls };
            let built = build(alloc, &records, plan)?;
            let found = views(alloc, &built)?;
            same(rt, plan, found.as_str(), shown.as_str());
        }
    }
    Ok(())
}

#[test]
fn worked_logs_in_parts(rt: HostRuntime) -> Result<(), Fail> {
    for case in WORKED {
        check_parts(&rt, rt.alloc(), case.log)?;
    }
    Ok(())
}

// Whatever memory is refused, the head is the same or there is none.
fn build_or_nothing(rt: &impl Abort, alloc: Global, input: &Input) -> Result<(), ReplayFault> {
    let shown = serial_views(alloc, input)?;
    let records = records_of(alloc, input)?;
    let plan = Plan {
        workers: 2,
        falls: false,
    };
    match build(alloc, &records, plan) {
        Ok(built) => same(rt, "views", views(alloc, &built)?, shown),
        Err(fault) => same(rt, "refused", fault, HeadFault::Memory),
    }
    Ok(())
}

// To be run too with each allocation refused in turn.
#[test]
fn each_allocation(rt: HostRuntime) {
    let alloc = rt.alloc();
    if let Ok(input) = input_of(alloc, HIDDEN_AND_REBOUND) {
        let _ = build_or_nothing(&rt, alloc, &input);
    }
}
