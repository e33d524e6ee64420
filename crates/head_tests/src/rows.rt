//! Rows, as a test writes them down.

use head_live::{AgainFault, AgainRow, PrepareFault, Prepared, RawRow};
use std::alloc::{AllocError, Global};

/// A time, a value, and names and values of labels.
pub type Row = (i64, i64, &'static [(&'static [u8], &'static [u8])]);

/// A name and a value, each in a list of its own.
pub fn pair(alloc: Global, name: &[u8], value: &[u8]) -> Result<(Vec<u8>, Vec<u8>), AllocError> {
    let name = Vec::from_slice(alloc, name)?;
    let value = Vec::from_slice(alloc, value)?;
    Ok((name, value))
}

fn raw_row(alloc: Global, row: &Row) -> Result<RawRow, AllocError> {
    let (time, value, labels) = *row;
    let mut pairs = Vec::new(alloc);
    for (name, value) in labels {
        pairs.push(pair(alloc, name, value)?)?;
    }
    Ok(RawRow { pairs, time, value })
}

/// The rows, unchecked.
pub fn raw_rows(alloc: Global, rows: &[Row]) -> Result<Vec<RawRow>, AllocError> {
    let mut raw = Vec::new(alloc);
    for row in rows {
        raw.push(raw_row(alloc, row)?)?;
    }
    Ok(raw)
}

/// The rows, ready to be appended.
pub fn prepared(alloc: Global, rows: &[Row]) -> Result<Prepared, PrepareFault> {
    Prepared::new(alloc, &raw_rows(alloc, rows)?)
}

/// A place among prepared rows, a time and a value.
pub type Again = (usize, i64, i64);

fn listed(alloc: Global, again: &[Again]) -> Result<Vec<AgainRow>, AllocError> {
    let mut rows = Vec::new(alloc);
    for (place, time, value) in again {
        rows.push(AgainRow {
            place: *place,
            time: *time,
            value: *value,
        })?;
    }
    Ok(rows)
}

/// Gives prepared rows other places, times and values.
pub fn repeat(alloc: Global, rows: &mut Prepared, again: &[Again]) -> Result<(), AgainFault> {
    let again = listed(alloc, again)?;
    rows.again(&again)
}

// The place of each row, if the last one is prepared first, with its time and value.
fn places(alloc: Global, rows: &[Row]) -> Result<Vec<Again>, AllocError> {
    let mut again = Vec::new(alloc);
    for (behind, row) in rows.iter().enumerate() {
        again.push((rows.len() - 1 - behind, row.0, row.1))?;
    }
    Ok(again)
}

/// The rows, of which the label sets were prepared in reverse order, with no time and no value. Each label set is a sound one.
pub fn prepared_again(alloc: Global, rows: &[Row]) -> Result<Prepared, PrepareFault> {
    let mut raw = Vec::new(alloc);
    for row in rows.iter().rev() {
        raw.push(raw_row(alloc, &(0, 0, row.2))?)?;
    }
    let mut prepared = Prepared::new(alloc, &raw)?;
    match repeat(alloc, &mut prepared, &places(alloc, rows)?) {
        Ok(()) => Ok(prepared),
        Err(_) => Err(PrepareFault::Memory),
    }
}
