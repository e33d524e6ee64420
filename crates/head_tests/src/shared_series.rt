//! Appenders that share a head with series.

use crate::device::Device;
use crate::opening::{Entry, head_of};
use crate::same;
use crate::shared::{Listed, run_text};
use head_core::HeadFault;
use head_live::Live;
use std::alloc::Global;
use std::marker::Brand;
use std::sync::Wait;
use std::sync::ledger::Blank;
use std::test::Fail;
use std::thread::Threads;
use wal_log::LogWriter;

// A series with a sample, and one without.
const OPENED: &[Entry] = &[
    Entry::Series(1, b"x"),
    Entry::Sample(1, 5000, 1),
    Entry::Series(2, b"y"),
];

// A row after the sample and one at its time; and a row of the other series.
const TWO: Listed = Listed {
    calls: &[
        &[&[(6000, 2, &[(b"a", b"x")]), (5000, 3, &[(b"a", b"x")])]],
        &[&[(1, 4, &[(b"a", b"y")])]],
    ],
};

fn text_of<R: Threads + Wait + Sync>(rt: &R, alloc: Global) -> Result<String, HeadFault> {
    let head = head_of(alloc, OPENED)?;
    if head.is_failed() {
        return Err(HeadFault::Failed);
    }
    let log = LogWriter::new(alloc, Device::new(alloc, usize::MAX), 4096);
    let live = Live::new(alloc, head, log);
    Ok(run_text::<Brand, Listed, R>(rt, alloc, Blank::new(1025), live, &TWO)?)
}

#[test]
fn shared_head_with_series(rt: HostRuntime) -> Result<(), Fail> {
    let text = text_of(&rt, rt.alloc())?;
    same(
        &rt,
        "two series",
        text.as_str(),
        "1 AS; 1 A; Missing 1; accepted 2; x 5000:1 6000:2; y 1:4",
    );
    Ok(())
}
