//! The least reference of each series, after each of many bindings.

use crate::same;
use crate::series::label_set;
use head_series::{SeriesTable, Slot};
use std::alloc::{AllocError, Global};
use std::process::Abort;

// Small references and great ones; there are as many of them as this.
const REFERENCES: u32 = 24;

fn reference(number: u32) -> u64 {
    if number < 12 {
        (number * 7 % 12) as u64
    } else {
        4_194_290 + number as u64
    }
}

// The least of all references that have the slot, by asking for each.
fn least(table: &SeriesTable, slot: Slot) -> Option<u64> {
    let mut least: Option<u64> = None;
    for number in 0..REFERENCES {
        let reference = reference(number);
        if table.find(reference) == Some(slot) {
            least = match least {
                None => Some(reference),
                Some(other) => Some(other.min(reference)),
            };
        }
    }
    least
}

fn check_least(rt: &impl Abort, table: &SeriesTable) {
    for i in 0..table.len() as u32 {
        let slot = Slot::new(i);
        same(rt, i, table.reference(slot), least(table, slot));
    }
}

// Binds at once, or in room that was made before.
fn bind(
    alloc: Global,
    table: &mut SeriesTable,
    reference: u64,
    value: u8,
    ready: bool,
) -> Result<(), AllocError> {
    let labels = label_set(alloc, value)?;
    if !ready {
        return match table.bind(reference, &labels) {
            Ok(_) => Ok(()),
            Err(_) => Err(AllocError),
        };
    }
    let mut plan = table.plan();
    let ready = match table.reserve(&mut plan, reference, &labels) {
        Ok(ready) => ready,
        Err(_) => return Err(AllocError),
    };
    table.bind_ready(reference, &labels, ready);
    Ok(())
}

// Binds in an order that the seed gives, and a copy half way.
fn check_order(rt: &impl Abort, alloc: Global, seed: u32) -> Result<(), AllocError> {
    let mut table = SeriesTable::new(alloc, 5);
    let mut state = seed;
    for i in 0..300 {
        state = state.wrapping_mul(1_103_515_245).wrapping_add(12_345);
        let bits = state >> 8;
        let reference = reference(bits % REFERENCES);
        let value = b'a' + (bits / 24 % 5) as u8;
        bind(alloc, &mut table, reference, value, bits / 120 % 2 == 0)?;
        check_least(rt, &table);
        if i == 150 {
            table = table.copy()?;
            check_least(rt, &table);
        }
    }
    Ok(())
}

#[test]
fn least_references(rt: HostRuntime) -> Result<(), AllocError> {
    for seed in 0..8 {
        check_order(&rt, rt.alloc(), seed)?;
    }
    Ok(())
}
