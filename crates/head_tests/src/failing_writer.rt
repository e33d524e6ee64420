//! A device that fails under an append, after each number of bytes.

use crate::appends::{THREE_AND_ONE, first_bytes, open, push_call};
use crate::device::Device;
use crate::live_views::views;
use crate::log_lines::log_of;
use crate::same;
use head_live::Live;
use head_serial::replay_serial;
use std::alloc::{AllocError, Global};
use std::process::Abort;
use std::test::Fail;
use wal_log::{Damage, LogFault, LogWriter, Place};
use wal_page::FaultKind;

// The offset of the second record.
const SECOND: usize = 25;

// What replay is to find in the first bytes of the two records: how many records of series, and where a record is torn.
fn cut(length: usize) -> (u64, Option<u64>) {
    match length {
        0 => (0, None),
        SECOND => (1, None),
        _ if length < SECOND => (0, Some(0)),
        _ => (1, Some(SECOND as u64)),
    }
}

// Replays a segment of these bytes.
fn check_replay(rt: &impl Abort, alloc: Global, taken: Vec<u8>) -> Result<(), Fail> {
    let (series_records, torn) = cut(taken.len());
    let input = log_of(alloc, taken)?;
    let replayed = replay_serial(alloc, &input)?;
    let damage = torn.map(|offset| Damage {
        place: Place {
            in_checkpoint: false,
            file: 0,
            offset,
        },
        kind: FaultKind::Torn,
    });
    same(rt, "damage", replayed.damage, damage);
    let found = replayed.head.counts().series_records;
    same(rt, "series records", found, series_records);
    Ok(())
}

// Begins a segment on the next device. Returns why it does not begin, and how many bytes that device took.
fn refusal(log: &mut LogWriter<Device>, next: Device) -> Option<(LogFault, usize)> {
    match log.next_segment(next) {
        Ok(_left) => None,
        Err((next, fault)) => Some((fault, next.taken.len())),
    }
}

// The bytes, as digits.
fn digits(alloc: Global, bytes: &[u8]) -> Result<String, AllocError> {
    let mut text = String::new(alloc);
    for byte in bytes {
        write!(text, "{byte:02X}")?;
    }
    Ok(text)
}

fn check_digits(
    rt: &impl Abort,
    alloc: Global,
    taken: &[u8],
    room: usize,
) -> Result<(), AllocError> {
    let found = digits(alloc, taken)?;
    let wanted = first_bytes(alloc, room)?;
    same(rt, room, found, wanted);
    Ok(())
}

// A writer that goes on failing, and the bytes that its device took.
fn check_log(
    rt: &impl Abort,
    alloc: Global,
    mut log: LogWriter<Device>,
    room: usize,
) -> Result<(), Fail> {
    let refused = refusal(&mut log, Device::new(alloc, usize::MAX));
    same(rt, room, refused, Some((LogFault::Failed, 0)));
    let taken = log.into_inner().taken;
    check_digits(rt, alloc, &taken, room)?;
    check_replay(rt, alloc, taken)
}

// Looks at what a failed append left: the head, and the writer.
fn check_left(rt: &impl Abort, alloc: Global, live: Live<Device>, room: usize) -> Result<(), Fail> {
    let shown = views(alloc, live.head())?;
    same(rt, room, shown.as_str(), "0 0 0 0 Some(1) None 0");
    let (head, log) = live.into_inner();
    drop(head);
    check_log(rt, alloc, log, room)
}

#[test]
fn failing_writer(rt: HostRuntime) -> Result<(), Fail> {
    for room in 0..69 {
        let case = THREE_AND_ONE.with_room(room);
        let mut live = open(rt.alloc(), &case)?;
        let mut text = String::new(rt.alloc());
        for rows in case.calls() {
            push_call(&mut text, rt.alloc(), &mut live, rows)?;
        }
        same(&rt, room, text.as_str(), "Write 0 Failed 0 ");
        check_left(&rt, rt.alloc(), live, room)?;
    }
    Ok(())
}
