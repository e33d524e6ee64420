//! A log that grows in a file, over a store of which calls fail, and that crashes.

use crate::checks::{UNSAID, same};
use crate::shelf::Shelf;
use crate::tree::Kept;
use head_core::Head;
use head_live::{AppendFault, Prepared, RawRow};
use live_log::{GrowFault, GrowingLog};
use std::alloc::{AllocError, Global};
use std::process::Abort;
use store::{Store, StoreFault};

// The length of a segment with a series `job=api` and the samples at 1000 and 1015, and of one with the sample at 1030 too.
const FIRST: usize = 69;

const BOTH: usize = 103;

// Prepares rows of the series `job=api`.
fn prepared(alloc: Global, rows: &[(i64, i64)]) -> Result<Prepared, AllocError> {
    let mut raws = Vec::new(alloc);
    for (time, value) in rows {
        let label = (
            Vec::from_slice(alloc, b"job")?,
            Vec::from_slice(alloc, b"api")?,
        );
        let mut pairs = Vec::new(alloc);
        pairs.push(label)?;
        raws.push(RawRow {
            pairs,
            time: *time,
            value: *value,
        })?;
    }
    Prepared::new(alloc, &raws).map_err(|_| AllocError)
}

// Begins a log in the directory `log` of a new store.
fn begun(alloc: Global) -> Result<(Shelf, GrowingLog<Shelf>), StoreFault> {
    let mut shelf = Shelf::new(alloc)?;
    shelf.put_dir("log")?;
    let log = GrowingLog::begin(alloc, &mut shelf, "log", "log/00000000", Head::new(alloc))?;
    Ok((shelf, log))
}

// Appends rows, and ends the test if they are not taken.
fn append(
    rt: &(impl Abort + AllocGlobal),
    shelf: &mut Shelf,
    log: &mut GrowingLog<Shelf>,
    rows: &[(i64, i64)],
) -> Result<(), AllocError> {
    let rows = prepared(rt.alloc(), rows)?;
    same(rt, "appended", log.append(shelf, &rows).is_ok(), true);
    Ok(())
}

// What was synced is there after a crash, and of the rest as much as the crash kept.
fn assert_kept<R: Abort + AllocGlobal>(
    rt: &R,
    kept: Kept,
    length: usize,
) -> Result<(), StoreFault> {
    let (mut shelf, mut log) = begun(rt.alloc())?;
    append(rt, &mut shelf, &mut log, &[(1000, 5), (1015, 6), (1015, 7)])?;
    log.sync(&mut shelf)?;
    let synced = shelf.read("log/00000000")?;
    same(rt, kept, synced.len(), FIRST);
    append(rt, &mut shelf, &mut log, &[(1030, 8)])?;
    let all = shelf.read("log/00000000")?;
    same(rt, kept, all.len(), BOTH);
    shelf.crash(Kept::Nothing, kept)?;
    let left = shelf.read("log/00000000")?;
    same(rt, kept, left.len(), length);
    same(rt, kept, all.starts_with(&left), true);
    Ok(())
}

#[test]
fn synced_rows_outlast_a_crash(rt: HostRuntime) -> Result<(), StoreFault> {
    assert_kept(&rt, Kept::Nothing, FIRST)?;
    assert_kept(&rt, Kept::FirstHalf, FIRST + (BOTH - FIRST) / 2)?;
    assert_kept(&rt, Kept::All, BOTH)
}

// The calls of the store: three to begin, one for each append that logs something, one for each sync.
#[test]
fn calls_of_a_growing_log(rt: HostRuntime) -> Result<(), StoreFault> {
    let (mut shelf, mut log) = begun(rt.alloc())?;
    same(&rt, "begun", shelf.calls()?, 3);
    append(&rt, &mut shelf, &mut log, &[(1000, 5)])?;
    same(&rt, "appended", shelf.calls()?, 4);
    append(&rt, &mut shelf, &mut log, &[(1000, 6)])?;
    same(&rt, "stale", shelf.calls()?, 4);
    log.sync(&mut shelf)?;
    same(&rt, "synced", shelf.calls()?, 5);
    Ok(())
}

#[test]
fn nothing_is_appended_after_a_failed_write(rt: HostRuntime) -> Result<(), StoreFault> {
    let (mut shelf, mut log) = begun(rt.alloc())?;
    append(&rt, &mut shelf, &mut log, &[(1000, 5), (1015, 6)])?;
    shelf.fail(5, UNSAID)?;
    let later = prepared(rt.alloc(), &[(1030, 8)])?;
    let failed = log.append(&mut shelf, &later).err();
    same(&rt, "failing", failed, Some(GrowFault::Write(UNSAID)));
    let refused = log.append(&mut shelf, &later).err();
    let wanted = Some(GrowFault::Append(AppendFault::Failed));
    same(&rt, "failed", refused, wanted);
    same(&rt, "bytes", shelf.read("log/00000000")?.len(), FIRST);
    Ok(())
}

// A new segment has the records from its beginning on, and the head has all.
#[test]
fn goes_on_in_the_next_segment(rt: HostRuntime) -> Result<(), StoreFault> {
    let (mut shelf, mut log) = begun(rt.alloc())?;
    append(&rt, &mut shelf, &mut log, &[(1000, 5), (1015, 6)])?;
    log.next_segment(&mut shelf, "log", "log/00000001")?;
    append(&rt, &mut shelf, &mut log, &[(1030, 8)])?;
    same(&rt, "first", shelf.read("log/00000000")?.len(), FIRST);
    same(
        &rt,
        "second",
        shelf.read("log/00000001")?.len(),
        BOTH - FIRST,
    );
    same(&rt, "samples", log.head().counts().accepted, 3);
    log.truncate(1020);
    same(&rt, "least valid time", log.head().min_valid(), 1020);
    let late = prepared(rt.alloc(), &[(1019, 9)])?;
    let said = log.append(&mut shelf, &late).is_ok();
    same(&rt, "late", (said, log.head().counts().accepted), (true, 3));
    Ok(())
}

// Where a segment cannot be begun, the log goes on in the one before.
#[test]
fn a_segment_that_exists_is_refused(rt: HostRuntime) -> Result<(), StoreFault> {
    let (mut shelf, mut log) = begun(rt.alloc())?;
    let refused = log.next_segment(&mut shelf, "log", "log/00000000").is_err();
    same(&rt, "taken", refused, true);
    append(&rt, &mut shelf, &mut log, &[(1000, 5), (1015, 6)])?;
    same(&rt, "bytes", shelf.read("log/00000000")?.len(), FIRST);
    Ok(())
}
