//! All that a head shows, as a text.

use head_column::Hour;
use head_core::{Head, Slot};
use head_serial::{ReplayFault, replay_serial};
use std::alloc::{AllocError, Global};
use std::fmt::Debug;
use wal_log::Input;

fn push_line<T: Debug + Drop>(text: &mut String, value: T) -> Result<(), AllocError> {
    write!(text, "{value:?}\n")
}

fn push_slots(text: &mut String, slots: &[Slot]) -> Result<(), AllocError> {
    for slot in slots {
        write!(text, " {}", slot.index())?;
    }
    text.push('\n')
}

// The label set of a series with its slot, and for each label the slots that have it.
fn push_labels(text: &mut String, head: &Head, slot: Slot) -> Result<(), AllocError> {
    if head.is_failed() || head.series() <= slot.index() {
        return Ok(());
    }
    let labels = head.labels(slot)?;
    let found = head.find(&labels);
    write!(text, "{labels:?} {found:?}")?;
    drop(labels);
    for place in 0..head.pairs(slot) {
        let (name, value) = head.pair(slot, place);
        write!(text, "\n{name:?}={value:?}")?;
        push_slots(text, head.select(name, value))?;
    }
    Ok(())
}

// What is kept of a series, and its chunks of the hour of its last sample.
fn push_kept(text: &mut String, head: &Head, slot: Slot) -> Result<(), AllocError> {
    if head.is_failed() || head.series() <= slot.index() {
        return Ok(());
    }
    write!(
        text,
        "{:?} {} {:?}\n",
        head.reference(slot),
        head.sample_count(slot),
        head.last_time(slot)
    )?;
    push_line(text, head.samples(slot)?)?;
    push_line(text, head.hidden(slot))?;
    if let Some(time) = head.last_time(slot) {
        push_line(text, head.chunks_in(slot, Hour::of(time))?)?;
    }
    Ok(())
}

fn push_contents(text: &mut String, head: &Head) -> Result<(), AllocError> {
    if head.is_failed() {
        return text.push_str("failed");
    }
    write!(
        text,
        "{} {:?} {:?} {}\n",
        head.series(),
        head.next_reference(),
        head.max_time(),
        head.min_valid()
    )?;
    push_slots(text, head.all())?;
    for slot in head.all() {
        push_labels(text, head, *slot)?;
        push_kept(text, head, *slot)?;
    }
    Ok(())
}

/// Each view of a head that has not failed, in one text.
pub fn views(alloc: Global, head: &Head) -> Result<String, AllocError> {
    let mut text = String::new(alloc);
    if !head.is_failed() {
        push_line(&mut text, head.counts())?;
    }
    push_contents(&mut text, head)?;
    Ok(text)
}

/// Each view of the head that a log is replayed to, one record after another.
pub fn serial_views(alloc: Global, input: &Input) -> Result<String, ReplayFault> {
    let replayed = replay_serial(alloc, input)?;
    Ok(views(alloc, &replayed.head)?)
}

/// Each view but the counts.
pub fn contents(alloc: Global, head: &Head) -> Result<String, AllocError> {
    let mut text = String::new(alloc);
    push_contents(&mut text, head)?;
    Ok(text)
}
