//! Long texts, which are printed while they are made, and a standard output that refuses a piece of them.

use crate::checks::same;
use crate::fragments::*;
use crate::printed::Printed;
use crate::runs::{ANY, APPEND, LISTS, carried_out, printed_on};
use crate::shelf::Shelf;
use answers::{DumpRequest, LogForm};
use command_line::Asked;
use head_replay::NoGate;
use std::alloc::{AllocError, Global};
use std::process::Abort;
use std::sync::Wait;
use std::thread::Threads;
use store::StoreFault;

// As many records of no bytes as fit in a page.
const RECORDS_OF_A_PAGE: usize = 4_681;

// The least bytes of a piece.
const PIECE: usize = 65_536;

/// All samples of the log are printed.
pub const DUMPS: Asked<'static> = Asked::Dump(DumpRequest {
    dir: "log",
    form: LogForm::Plain,
    pair: None,
    from: i64::MIN,
    to: i64::MAX,
    hidden: false,
    floats: false,
    options: ANY,
});

// Ends the test unless a command prints this text, in so many pieces and a rest; and where a piece is refused, those before it.
fn assert_printed<R: Abort + Threads + Wait + Sync + AllocGlobal>(
    rt: &R,
    shelf: &mut Shelf,
    asked: Asked<'_>,
    wanted: &str,
    pieces: u64,
) -> Result<(), StoreFault> {
    let alloc = rt.alloc();
    for pieces_left in 0..=pieces {
        let out = Printed {
            text: String::new(alloc),
            pieces_left,
        };
        let (answer, out) = printed_on(rt, shelf, &NoGate, out, asked);
        let found = (answer.status as u8, out.text.len() / PIECE);
        let status = if pieces_left < pieces { 3 } else { 0 };
        same(rt, asked, found, (status, pieces_left as usize));
        let is_begun = wanted.starts_with(out.text.as_str());
        same(rt, asked, is_begun, true);
        let all = out.with(alloc, answer);
        let is_whole = all.printed.as_str() == wanted;
        same(rt, asked, is_whole, status == 0);
    }
    Ok(())
}

// A page of records of no bytes.
fn page_of_records(alloc: Global) -> Result<Vec<u8>, AllocError> {
    let mut bytes = Vec::new(alloc);
    for _ in 0..RECORDS_OF_A_PAGE {
        bytes.extend_from_slice(RECORD_OF_NO_BYTES)?;
    }
    Ok(bytes)
}

#[test]
fn many_records_are_printed_in_pieces(rt: HostRuntime) -> Result<(), StoreFault> {
    let alloc = rt.alloc();
    let mut shelf = Shelf::new(alloc)?;
    shelf.put_dir("log")?;
    shelf.put("log/00000000", &page_of_records(alloc)?)?;
    let mut wanted = String::new(alloc);
    for record in 0..RECORDS_OF_A_PAGE {
        let offset = record.saturating_mul(7);
        writeln!(wanted, "segment 00000000 {offset} skipped 0")?;
    }
    wanted.push_str("damage none\n")?;
    assert_printed(&rt, &mut shelf, LISTS, &wanted, 2)
}

// A label value that is as long as half a piece.
fn long_value(alloc: Global) -> Result<String, AllocError> {
    let mut value = String::new(alloc);
    for _ in 0..PIECE / 2 {
        value.push('v')?;
    }
    Ok(value)
}

#[test]
fn long_lines_are_printed_in_pieces(rt: HostRuntime) -> Result<(), StoreFault> {
    let alloc = rt.alloc();
    let value = long_value(alloc)?;
    let mut rows = String::new(alloc);
    let mut wanted = String::new(alloc);
    for time in 1..=5 {
        writeln!(rows, "{time} 7 job={value}")?;
        writeln!(wanted, "job={value} {time} 7")?;
    }
    let mut shelf = Shelf::new(alloc)?;
    shelf.put_dir("log")?;
    shelf.put("log/00000000", SERIES_1_JOB_API)?;
    shelf.put("rows", rows.as_bytes())?;
    let appended = carried_out(&rt, &mut shelf, &NoGate, APPEND.asked);
    same(&rt, "append", appended.status as u8, 0);
    assert_printed(&rt, &mut shelf, DUMPS, &wanted, 2)
}
