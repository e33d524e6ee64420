//! Tests of the crates that keep, replay and append to a head, by their public calls.
#![tactic(auto)]

// A sample that is kept, and a run of hidden times.
#[cfg(test)]
macro_rules! kept {
    ($time:expr, $value:expr) => {
        Sample {
            time: $time,
            value: $value,
        }
    };
}

#[cfg(test)]
macro_rules! run {
    ($min_time:expr, $max_time:expr) => {
        Run {
            min_time: $min_time,
            max_time: $max_time,
        }
    };
}

#[cfg(test)]
mod again;
#[cfg(test)]
mod appends;
#[cfg(test)]
mod building;
#[cfg(test)]
mod cases;
#[cfg(test)]
mod checkpoints;
#[cfg(test)]
mod chunks;
#[cfg(test)]
mod columns;
#[cfg(test)]
mod crowd;
#[cfg(test)]
mod damaged;
#[cfg(test)]
mod deals;
#[cfg(test)]
mod deletions;
#[cfg(test)]
mod device;
#[cfg(test)]
mod expired_rows;
#[cfg(test)]
mod failing_writer;
#[cfg(test)]
mod full_heads;
#[cfg(test)]
mod gates;
#[cfg(test)]
mod heads;
#[cfg(test)]
mod hours;
#[cfg(test)]
mod kept;
#[cfg(test)]
mod limits;
#[cfg(test)]
mod lines;
#[cfg(test)]
mod live_views;
#[cfg(test)]
mod log_lines;
#[cfg(test)]
mod logs;
#[cfg(test)]
mod opening;
#[cfg(test)]
mod parts;
#[cfg(test)]
mod postings;
#[cfg(test)]
mod prepares;
#[cfg(test)]
mod references;
#[cfg(test)]
mod refused;
#[cfg(test)]
mod refused_heads;
#[cfg(test)]
mod replays;
#[cfg(test)]
mod rooms;
#[cfg(test)]
mod rows;
#[cfg(test)]
mod series;
#[cfg(test)]
mod shared;
#[cfg(test)]
mod shared_series;
#[cfg(test)]
mod sources;
#[cfg(test)]
mod spans;
#[cfg(test)]
mod starts;
#[cfg(test)]
mod streams;
#[cfg(test)]
mod switches;
#[cfg(test)]
mod tickets;
#[cfg(test)]
mod unjoined;
#[cfg(test)]
mod valid_times;
#[cfg(test)]
mod views;
#[cfg(test)]
mod worked;

#[cfg(test)]
use head_series::Slot;
#[cfg(test)]
use std::alloc::{AllocError, Global};
#[cfg(test)]
use std::fmt::Debug;
#[cfg(test)]
use std::process::Abort;

// Ends the test where what a case gives is not what it is to give.
#[cfg(test)]
fn same<C: Debug + Drop, T: PartialEq + Debug + Drop>(
    rt: &impl Abort,
    case: C,
    found: T,
    wanted: T,
) {
    assert_eq!(rt; found, wanted, "at {case:?}");
}

// What was made, or a want of memory where it was refused.
#[cfg(test)]
fn or_memory<T, E: Drop>(made: Result<T, E>) -> Result<T, AllocError> {
    match made {
        Ok(made) => Ok(made),
        Err(_) => Err(AllocError),
    }
}

// A list of one item.
#[cfg(test)]
fn one<T: Drop>(alloc: Global, item: T) -> Result<Vec<T>, AllocError> {
    let mut items = Vec::new(alloc);
    items.push(item)?;
    Ok(items)
}

// The numbers of slots.
#[cfg(test)]
fn indices(alloc: Global, slots: &[Slot]) -> Result<Vec<usize>, AllocError> {
    let mut indices = Vec::with_capacity(alloc, slots.len())?;
    for slot in slots {
        indices.push(slot.index())?;
    }
    Ok(indices)
}
