//! Putting labels into an order that is probably the sorted one, so that to sort them takes a single pass.

ghost use Rattle.std.specs.Prelude.{◌≡◌};
ghost use Rattle.std.specs.List.Sorted.{IsPermutation};

use crate::numbering::{LabelPlaces, number_at};
use crate::ordering::RowLabel;
use std::alloc::{AllocError, Global};

// the order has no index here any more
const NONE: u32 = u32::MAX;

// Returns where the labels of each place begin, if they are sorted by their places.
fn beginnings(alloc: Global, places: &[u32], count: usize) -> Result<Vec<u32>, AllocError> {
    let mut begins = Vec::from_elem(alloc, 0u32, count)?;
    for place in places {
        if let Some(labels) = begins.get_mut(*place as usize) {
            *labels = labels.wrapping_add(1);
        }
    }
    let mut sum: u32 = 0;
    for begin in begins.iter_mut() {
        let labels = *begin;
        *begin = sum;
        sum = sum.wrapping_add(labels);
    }
    Ok(begins)
}

// Sorts indices of labels by the places of the labels. Indices of one place stay in their order.
fn sorted_by(
    alloc: Global,
    order: &[u32],
    places: &[u32],
    count: usize,
) -> Result<Vec<u32>, AllocError> {
    let mut begins = beginnings(alloc, places, count)?;
    let mut sorted = Vec::from_elem(alloc, NONE, order.len())?;
    for index in order {
        let place = number_at(places, *index as usize);
        if let Some(begin) = begins.get_mut(place as usize) {
            if let Some(free) = sorted.get_mut(*begin as usize) {
                *free = *index;
            }
            *begin = begin.wrapping_add(1);
        }
    }
    Ok(sorted)
}

// Lists the indices of labels in the order of the places of their names, then of their values, and then of the indices.
fn order_of(alloc: Global, places: &LabelPlaces) -> Result<Vec<u32>, AllocError> {
    let mut order = Vec::with_capacity(alloc, places.names.len())?;
    for index in 0..places.names.len() {
        order.push((index % 0x1_0000_0000) as u32)?;
    }
    let order = sorted_by(
        alloc,
        order.as_slice(),
        places.values.as_slice(),
        places.count,
    )?;
    sorted_by(
        alloc,
        order.as_slice(),
        places.names.as_slice(),
        places.count,
    )
}

/// Puts labels into the order of the probable places of their names and values.
pub(crate) fn arrange(
    alloc: Global,
    labels: &mut Vec<RowLabel<'_>>,
    places: &LabelPlaces,
) -> Result<(), AllocError>
    ensures { IsPermutation labels.old.items labels.new.items }
{
    let mut order = order_of(alloc, places)?;
    let count = labels.len();
    // Each turn fetches the label that belongs at `at`, and goes on where that one came from, until the cycle is back at its start.
    let mut start = 0;
    let mut at = 0;
    for _ in 0..count.saturating_mul(2) {
        let Some(next) = order.get_mut(at) else {
            return Ok(());
        };
        let from = std::mem::replace(next, NONE) as usize;
        if from == start || from >= count || at >= count {
            start = start.saturating_add(1);
            at = start;
        } else {
            labels.swap(at, from);
            at = from;
        }
    }
    Ok(())
}
