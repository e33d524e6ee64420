//! All that a head shows.

use head_core::{Head, Sample, Slot};
use std::alloc::{AllocError, Global};

fn push_bytes(text: &mut String, bytes: &[u8]) -> Result<(), AllocError> {
    for byte in bytes {
        text.push(char::from(*byte))?;
    }
    Ok(())
}

fn push_labels(text: &mut String, head: &Head, slot: Slot) -> Result<(), AllocError> {
    if head.is_failed() || head.series() <= slot.index() {
        return Ok(());
    }
    for place in 0..head.pairs(slot) {
        let (name, value) = head.pair(slot, place);
        push_bytes(text, name)?;
        text.push('=')?;
        push_bytes(text, value)?;
        text.push(' ')?;
    }
    Ok(())
}

/// Times and values.
pub(crate) fn push_samples(text: &mut String, samples: &[Sample]) -> Result<(), AllocError> {
    for sample in samples {
        write!(text, "{}:{} ", sample.time, sample.value)?;
    }
    Ok(())
}

fn push_series(text: &mut String, head: &Head, slot: Slot) -> Result<(), AllocError> {
    if head.is_failed() || head.series() <= slot.index() {
        return Ok(());
    }
    write!(text, "; {:?} ", head.reference(slot))?;
    push_labels(text, head, slot)?;
    push_samples(text, &head.samples(slot)?)?;
    write!(text, "{:?}", head.last_time(slot))
}

fn push_views(text: &mut String, head: &Head) -> Result<(), AllocError> {
    if head.is_failed() {
        return text.push_str("failed");
    }
    let counts = head.counts();
    write!(
        text,
        "{} {} {} {} {:?} {:?} {}",
        counts.series_records,
        counts.sample_records,
        counts.accepted,
        counts.stale,
        head.next_reference(),
        head.max_time(),
        head.select(b"a", b"x").len()
    )?;
    for slot in head.all() {
        push_series(text, head, *slot)?;
    }
    Ok(())
}

/// How many series records, sample records and accepted samples were counted, the next reference, the greatest time, how many slots
/// have the value x of the label a, and each series: its reference, labels, samples and greatest time.
pub fn views(alloc: Global, head: &Head) -> Result<String, AllocError> {
    let mut text = String::new(alloc);
    push_views(&mut text, head)?;
    Ok(text)
}
