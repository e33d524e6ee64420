//! Many rows that are appended at once.

use crate::checks::same;
use crate::crashes::REPLAY;
use crate::fragments::*;
use crate::runs::{APPEND, carried_out};
use crate::shelf::Shelf;
use head_replay::NoGate;
use std::alloc::{AllocError, Global};
use std::process::Abort;
use std::sync::Wait;
use std::thread::Threads;
use store::StoreFault;

// So many rows of one series, which the log has, and so many new series.
fn rows(alloc: Global, (of_one, series): (u64, u64)) -> Result<String, AllocError> {
    let mut text = String::new(alloc);
    for row in 0..of_one {
        writeln!(text, "{row} 8 job=api")?;
    }
    for row in 0..series {
        writeln!(text, "1030 {row} id={row}")?;
    }
    Ok(text)
}

// What `append` prints of so many rows.
fn accepted(alloc: Global, rows: u64) -> Result<String, AllocError> {
    let mut text = String::new(alloc);
    for _ in 0..rows {
        text.push_str("accepted\n")?;
    }
    text.push_str("segment 00000001\n")?;
    Ok(text)
}

// Appends rows, and ends the test unless each is accepted, and a replay has all of them.
fn assert_appended<R: Abort + Threads + Wait + Sync + AllocGlobal>(
    rt: &R,
    counts: (u64, u64),
    replayed: &str,
) -> Result<(), StoreFault> {
    let alloc = rt.alloc();
    let mut shelf = Shelf::new(alloc)?;
    shelf.put_dir("log")?;
    shelf.put("log/00000000", SERIES_1_JOB_API)?;
    shelf.put("rows", rows(alloc, counts)?.as_bytes())?;
    let found = carried_out(rt, &mut shelf, &NoGate, APPEND.asked);
    let wanted = accepted(alloc, counts.0.saturating_add(counts.1))?;
    same(rt, counts, found.printed.as_str(), wanted.as_str());
    let found = carried_out(rt, &mut shelf, &NoGate, REPLAY);
    let has_all = found.printed.as_str().contains(replayed);
    same(rt, counts, has_all, true);
    Ok(())
}

#[test]
fn many_rows_at_once(rt: HostRuntime) -> Result<(), StoreFault> {
    assert_appended(&rt, (500, 0), "\nseries 1\naccepted 500\n")?;
    assert_appended(&rt, (3_000, 3_000), "\nseries 3001\naccepted 6000\n")
}
