//! A live head that goes on with another writer of its log.

use crate::live_views::views;
use crate::rows::{Row, prepared, repeat};
use crate::{or_memory, same};
use head_core::Head;
use head_live::Live;
use head_serial::replay_serial;
use hw_bytes::Items;
use std::alloc::{AllocError, Global};
use std::process::Abort;
use std::test::Fail;
use wal_log::{Input, LogWriter, Segment};

const X: &[(&[u8], &[u8])] = &[(b"a", b"x")];

const Y: &[(&[u8], &[u8])] = &[(b"a", b"y")];

const Z: &[(&[u8], &[u8])] = &[(b"a", b"z")];

// The most pages of a segment.
const PAGES: u32 = 4096;

// The most bytes of a segment.
const SEGMENT_BYTES: u64 = 134_217_728;

fn new_log(alloc: Global) -> LogWriter<Vec<u8>> {
    LogWriter::new(alloc, Vec::new(alloc), PAGES)
}

fn append(alloc: Global, live: &mut Live<Vec<u8>>, rows: &[Row]) -> Result<(), AllocError> {
    let rows = or_memory(prepared(alloc, rows))?;
    or_memory(live.append(&rows))?;
    Ok(())
}

// Goes on in the same segment with an empty list. Returns the bytes of the list before.
fn resumed(alloc: Global, live: &mut Live<Vec<u8>>) -> Vec<u8> {
    let before = live.switch_log(new_log(alloc));
    let done = before.done();
    if done <= SEGMENT_BYTES {
        live.switch_log(LogWriter::resume(alloc, Vec::new(alloc), PAGES, done));
    }
    before.into_inner()
}

// Replays segments of these bytes, and ends the test unless all of them make a head that shows this.
fn check_segments(
    rt: &impl Abort,
    alloc: Global,
    texts: &[&[u8]],
    shown: &str,
) -> Result<(), Fail> {
    let mut segments = Vec::new(alloc);
    for (number, text) in (0..).zip(texts) {
        let bytes = Items::from_vec(Vec::from_slice(alloc, text)?);
        segments.push(Segment { number, bytes })?;
    }
    let input = or_memory(Input::new(None, segments))?;
    let replayed = replay_serial(alloc, &input)?;
    same(rt, texts.len(), replayed.damage, None);
    let found = views(alloc, &replayed.head)?;
    same(rt, texts.len(), found.as_str(), shown);
    Ok(())
}

// What the records of the first log make, and what those of both make.
const FIRST: &str =
    "1 1 2 0 Some(3) Some(10) 1; Some(1) a=x 10:1 Some(10); Some(2) a=y 10:2 Some(10)";

const BOTH: &str =
    "2 3 5 0 Some(4) Some(30) 1; Some(1) a=x 10:1 20:3 Some(20); Some(2) a=y 10:2 30:5 Some(30); Some(3) a=z 20:4 Some(20)";

// The first log has the records before the switch. The other one begins a segment, in two lists one behind the other.
#[test]
fn goes_on_in_another_log(rt: HostRuntime) -> Result<(), Fail> {
    let alloc = rt.alloc();
    let mut live = Live::new(alloc, Head::new(alloc), new_log(alloc));
    append(alloc, &mut live, &[(10, 1, X), (10, 2, Y)])?;
    let first = live.switch_log(new_log(alloc)).into_inner();
    same(&rt, "begun", live.done(), 0);
    append(alloc, &mut live, &[(20, 3, X), (20, 4, Z)])?;
    let mut second = resumed(alloc, &mut live);
    same(&rt, "resumed", live.done(), second.len() as u64);
    append(alloc, &mut live, &[(30, 5, Y)])?;
    same(&rt, "head", views(alloc, live.head())?.as_str(), BOTH);
    let (_, log) = live.into_inner();
    second.extend_from_slice(&log.into_inner())?;
    check_segments(&rt, alloc, &[&first], FIRST)?;
    check_segments(&rt, alloc, &[&first, &second], BOTH)
}

// The bytes of a segment of 1,200 records of a sample, which are more than a page has, in one list, or in a list for each record.
fn bytes_of_many(alloc: Global, resumes: bool) -> Result<Vec<u8>, AllocError> {
    let mut live = Live::new(alloc, Head::new(alloc), new_log(alloc));
    let mut rows = or_memory(prepared(alloc, &[(0, 0, X)]))?;
    let mut bytes = Vec::new(alloc);
    for time in 0..1_200 {
        or_memory(repeat(alloc, &mut rows, &[(0, time, time)]))?;
        or_memory(live.append(&rows))?;
        if resumes {
            bytes.extend_from_slice(&resumed(alloc, &mut live))?;
        }
    }
    let (_, log) = live.into_inner();
    bytes.extend_from_slice(&log.into_inner())?;
    Ok(bytes)
}

#[test]
fn bytes_in_many_lists(rt: HostRuntime) -> Result<(), AllocError> {
    let whole = bytes_of_many(rt.alloc(), false)?;
    let parts = bytes_of_many(rt.alloc(), true)?;
    same(&rt, "more than a page", whole.len() > 32_768, true);
    same(&rt, "bytes", parts == whole, true);
    Ok(())
}
