//! The hours of a head's samples.

use crate::chunks::{Figures, figures, last_text};
use crate::lines::{Line, apply_line};
use crate::same;
use head_core::{Head, HeadFault, Hour, Slot};
use std::alloc::Global;
use std::process::Abort;

// 121 samples a second apart, and one in the next hour.
fn apply_seconds(alloc: Global, head: &mut Head) -> Result<(), HeadFault> {
    apply_line(alloc, head, Line::Series(1, b"a", b'b'))?;
    for i in 0u32..121 {
        let value = i64::from(i);
        apply_line(alloc, head, Line::Sample(1, value * 1000, value))?;
    }
    apply_line(alloc, head, Line::Sample(1, 3_600_000, 0))
}

// The chunks of the first series in hour k, and the text of the last one.
fn check_hour(
    rt: &impl Abort,
    alloc: Global,
    head: &Head,
    k: i64,
    wanted: &[Figures],
    text: Option<&[u8]>,
) -> Result<(), HeadFault> {
    if head.is_failed() || head.series() == 0 {
        return Err(HeadFault::Failed);
    }
    let Some(hour) = Hour::new(k) else {
        return Err(HeadFault::Failed);
    };
    let chunks = head.chunks_in(Slot::new(0), hour)?;
    let found = figures(alloc, &chunks)?;
    same(rt, k, found.as_slice(), wanted);
    same(rt, k, last_text(&chunks), text);
    Ok(())
}

const LAST_TEXT: &[u8] = b"\0\x01\x80\xd3\x0e\0\0\0\0\0\0\0\x78";

const NEXT_TEXT: &[u8] = b"\0\x01\x80\xba\xb7\x03\0\0\0\0\0\0\0\0";

fn check_hours(rt: &impl Abort, alloc: Global, head: &mut Head) -> Result<(), HeadFault> {
    apply_seconds(alloc, head)?;
    let chunks = [(0, 119_000, 120, 1201), (120_000, 120_000, 1, 13)];
    let next = [(3_600_000, 3_600_000, 1, 14)];
    for (k, wanted, text) in [
        (-1, [].as_slice(), None),
        (0, chunks.as_slice(), Some(LAST_TEXT)),
        (1, next.as_slice(), Some(NEXT_TEXT)),
        (2, [].as_slice(), None),
    ] {
        check_hour(rt, alloc, head, k, wanted, text)?;
    }
    Ok(())
}

#[test]
fn hours_apart(rt: HostRuntime) -> Result<(), HeadFault> {
    let mut head = Head::new(rt.alloc());
    let outcome = check_hours(&rt, rt.alloc(), &mut head);
    drop(head);
    outcome
}
