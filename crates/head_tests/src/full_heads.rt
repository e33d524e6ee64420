//! Rows that pass a limit of the head, the segment, or both.

use crate::device::Device;
use crate::logs::NOTHING;
use crate::rows::{Row, prepared};
use crate::same;
use head_core::{Counts, Head, HeadFault, Resolver, postings_of};
use head_live::{AppendFault, Live};
use std::alloc::Global;
use std::test::Fail;
use wal_log::LogWriter;

// A row that fits a segment of one page, and one that does not.
const SHORT: &[Row] = &[(5, 1, &[(b"a", b"x")])];

const LONG: &[Row] = &[(5, 1, &[(b"a", &[b'x'; 32_720])])];

// A head of no series that has counted so many accepted samples.
fn head_with(alloc: Global, accepted: u64) -> Result<Head, HeadFault> {
    let resolver = Resolver::new(alloc);
    let postings = postings_of(alloc, resolver.table())?;
    if resolver.table().len() != 0 {
        return Err(HeadFault::Full);
    }
    let counts = Counts {
        accepted,
        ..NOTHING
    };
    Ok(Head::assemble(resolver, Vec::new(alloc), counts, postings))
}

// Why the rows are refused by such a head, with a segment of one page.
fn refusal(alloc: Global, accepted: u64, rows: &[Row]) -> Result<Option<AppendFault>, Fail> {
    let head = head_with(alloc, accepted)?;
    if head.is_failed() {
        return Ok(Some(AppendFault::Failed));
    }
    let log = LogWriter::new(alloc, Device::new(alloc, usize::MAX), 1);
    let mut live = Live::new(alloc, head, log);
    let rows = prepared(alloc, rows)?;
    Ok(live.append(&rows).err())
}

#[test]
fn full_head_before_full_segment(rt: HostRuntime) -> Result<(), Fail> {
    for (case, accepted, rows, wanted) in [
        ("neither", 0, SHORT, None),
        ("the segment", 0, LONG, Some(AppendFault::SegmentFull)),
        ("the head", u64::MAX, SHORT, Some(AppendFault::Full)),
        ("both", u64::MAX, LONG, Some(AppendFault::Full)),
    ] {
        let found = refusal(rt.alloc(), accepted, rows)?;
        same(&rt, case, found, wanted);
    }
    Ok(())
}
