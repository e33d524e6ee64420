//! `live` over stores in memory.

use crate::checks::{UNSAID, same};
use crate::crashes::REPLAY;
use crate::fragments::*;
use crate::live_stores::{Counted, Few, LIVE, Late, Lent, inputs, lived};
use crate::noted::Noted;
use crate::noted_call::NotedCall;
use crate::printed::Printed;
use crate::printing::DUMPS;
use crate::runs::{ANY, APPEND, carried_out, complaint};
use crate::shelf::Shelf;
use crate::tree::Kept;
use answers::{Answer, Cause, LiveRequest};
use block_commands::read_parts;
use block_read::{BlockRow, read_any_block};
use head_replay::{NoGate, Options};
use std::alloc::{AllocError, Global};
use std::process::Abort;
use std::random::RandomSource;
use std::sync::atomic::AtomicU64;
use std::sync::{Mutex, Wait};
use std::thread::Threads;
use std::time::Clock;
use store::{Reason, Store, StoreFault};

// A log of one series that has no samples, beside no blocks.
fn shelf_with_log(alloc: Global) -> Result<Shelf, StoreFault> {
    let mut shelf = Shelf::new(alloc)?;
    shelf.put_dir("log")?;
    shelf.put("log/00000000", SERIES_1_JOB_API)?;
    shelf.put_dir("out")?;
    Ok(shelf)
}

fn shelf_for_blocks(alloc: Global) -> Result<Shelf, StoreFault> {
    let mut shelf = Shelf::new(alloc)?;
    shelf.put_dir("out")?;
    Ok(shelf)
}

// What a run leaves.
#[derive(Drop)]
struct Left {
    status: u8,
    said: String,
    printed: String,
    log: Shelf,
}

// Runs over the log on a shelf, with these rows, at most so many bytes of them a read.
fn run<R: Clock + RandomSource + Threads + Wait + Sync + AllocGlobal>(
    rt: &R,
    log: Shelf,
    (rows, most): (&[u8], usize),
    request: LiveRequest<'_>,
) -> Result<Left, StoreFault> {
    let alloc = rt.alloc();
    let (log, blocks) = (Mutex::new(log), Mutex::new(shelf_for_blocks(alloc)?));
    let mut sources = Vec::new(alloc);
    sources.push(Few::new(rows, most))?;
    let out = Printed::new(alloc);
    let stores = (Lent::new(&log), &blocks);
    let (answer, out) = lived(rt, stores, out, inputs(alloc, sources)?, request);
    Ok(Left {
        status: answer.status as u8,
        said: complaint(alloc, &answer)?,
        printed: out.text,
        log: log.into_inner(),
    })
}

// Line 2 is late, line 3 is no row, the labels of line 4 are in no order, line 5 is before the least valid time, and no newline ends line 8.
const LINES: &[u8] = b"\
1000 1 job=api
900 2 job=api
no row
1000 3 b=1 a=2
99 4 job=api
1000 5 job=db
1001 6 job=api
1002 7 job=api";

const ANSWERS: &str = "\
accepted
stale
line 3: not a row
line 4: label names not ascending
expired
accepted
accepted
line 8: not a row
";

const ACCEPTED: &[u8] = b"1000 1 job=api\n1000 5 job=db\n1001 6 job=api\n";

const SAMPLES: &str = "job=api 1000 1\njob=api 1001 6\njob=db 1000 5\n";

// The bytes of the segment to which `append` writes the accepted rows.
fn appended<R: Threads + Wait + Sync + AllocGlobal>(rt: &R) -> Result<Vec<u8>, StoreFault> {
    let mut shelf = shelf_with_log(rt.alloc())?;
    shelf.put("rows", ACCEPTED)?;
    carried_out(rt, &mut shelf, &NoGate, APPEND.asked);
    shelf.read("log/00000001")
}

// Each line is answered, however many bytes come at once. The segment of one batch is the one that `append` writes.
#[test]
fn live_answers(rt: HostRuntime) -> Result<(), StoreFault> {
    let request = LiveRequest {
        options: Options {
            min_valid: 100,
            ..ANY
        },
        ..LIVE
    };
    for most in [1, 2, 7, 15, 40, 1_000] {
        let mut left = run(&rt, shelf_with_log(rt.alloc())?, (LINES, most), request)?;
        same(&rt, most, left.printed.as_str(), ANSWERS);
        let said = (left.status, left.said.as_str());
        same(&rt, most, said, (3, "line 3: not a row"));
        let found = carried_out(&rt, &mut left.log, &NoGate, DUMPS);
        same(&rt, most, found.printed.as_str(), SAMPLES);
        if most > LINES.len() {
            let found = left.log.read("log/00000001")?;
            same(&rt, most, found, appended(&rt)?);
        }
    }
    Ok(())
}

// Two rows of the series, of 15 bytes each. A record of one sample has 34 bytes.
const TWO_ROWS: &[u8] = b"1030 8 job=api\n1045 9 job=api\n";

fn push_call(text: &mut String, call: &NotedCall) -> Result<(), AllocError> {
    match call {
        NotedCall::Create(path) => writeln!(text, "create {path}"),
        NotedCall::Write(path, bytes) => writeln!(text, "write {path} {}", bytes.len()),
        NotedCall::SyncFile(path) => writeln!(text, "sync {path}"),
        NotedCall::SyncDir(path) => writeln!(text, "sync dir {path}"),
        _ => writeln!(text, "another"),
    }
}

// The calls that change a store.
fn calls_of(alloc: Global, noted: &Mutex<Noted>) -> Result<String, StoreFault> {
    let mut text = String::new(alloc);
    let noted = noted.try_lock().ok_or(UNSAID)?;
    for call in noted.calls() {
        push_call(&mut text, call)?;
    }
    Ok(text)
}

const EACH_SYNCED: &str = "\
create log/00000001
sync log/00000001
sync dir log
write log/00000001 34
sync log/00000001
write log/00000001 34
sync log/00000001
";

const ALL_SYNCED: &str = "\
create log/00000001
sync log/00000001
sync dir log
write log/00000001 34
write log/00000001 34
sync log/00000001
";

// The segment is begun, and each of two batches is written and synced, or both are synced at the end.
#[test]
fn live_calls(rt: HostRuntime) -> Result<(), StoreFault> {
    let alloc = rt.alloc();
    for (sync, wanted) in [(0, EACH_SYNCED), (u64::MAX, ALL_SYNCED)] {
        let log = Mutex::new(Noted::new(alloc, shelf_with_log(alloc)?));
        let blocks = Mutex::new(Noted::new(alloc, shelf_for_blocks(alloc)?));
        let mut sources = Vec::new(alloc);
        sources.push(Few::new(TWO_ROWS, 15))?;
        let stores = (Lent::new(&log), &blocks);
        let request = LiveRequest { sync, ..LIVE };
        let out = Printed::new(alloc);
        let (_, out) = lived(&rt, stores, out, inputs(alloc, sources)?, request);
        same(&rt, sync, out.text.as_str(), "accepted\naccepted\n");
        same(&rt, sync, calls_of(alloc, &log)?.as_str(), wanted);
        same(&rt, sync, calls_of(alloc, &blocks)?.as_str(), "");
        let first = Lent::new(&log).read("log/00000001")?;
        same(&rt, sync, first.starts_with(SAMPLE_1_AT_1030), true);
    }
    Ok(())
}

// How many lines say this.
fn count_of(text: &str, word: &str) -> usize {
    text.split('\n').filter(|line| *line == word).count()
}

// How many samples of the two rows a replay finds, 3 where it says nothing of them.
fn replayed<R: Threads + Wait + Sync + AllocGlobal>(rt: &R, shelf: &mut Shelf) -> usize {
    let found = carried_out(rt, shelf, &NoGate, REPLAY);
    let text = found.printed.as_str();
    for (samples, line) in ["accepted 0", "accepted 1", "accepted 2"]
        .iter()
        .enumerate()
    {
        if count_of(text, line) == 1 {
            return samples;
        }
    }
    3
}

// A call fails, and each after it where that lasts. Then there is a crash, which keeps so much of what was not synced.
fn assert_failing<R: Abort + Clock + RandomSource + Threads + Wait + Sync + AllocGlobal>(
    rt: &R,
    call: u64,
    lasts: bool,
    kept: Kept,
) -> Result<(), StoreFault> {
    let case = (call, lasts, kept);
    let mut shelf = shelf_with_log(rt.alloc())?;
    if lasts {
        shelf.stop(call)?;
    } else {
        shelf.fail(call, UNSAID)?;
    }
    let mut left = run(rt, shelf, (TWO_ROWS, 15), LIVE)?;
    let is_done = left.log.calls()? < call;
    let told = count_of(&left.printed, "accepted");
    same(rt, case, left.status, if is_done { 0 } else { 3 });
    same(rt, case, told == 2, is_done);
    // no call fails from here on
    left.log.fail(0, UNSAID)?;
    let bytes = left.log.read("log/00000001").map_or(0, |bytes| bytes.len());
    same(rt, case, told <= bytes / 34, true);
    left.log.crash(kept, kept)?;
    let found = replayed(rt, &mut left.log);
    same(rt, case, told <= found && found <= 2, true);
    Ok(())
}

// What was answered outlasts each failure and each crash.
#[test]
fn live_failing(rt: HostRuntime) -> Result<(), StoreFault> {
    let left = run(&rt, shelf_with_log(rt.alloc())?, (TWO_ROWS, 15), LIVE)?;
    same(&rt, "all calls", left.log.calls()? < 19, true);
    for call in 1..20 {
        for lasts in [false, true] {
            for kept in [Kept::Nothing, Kept::FirstHalf, Kept::All] {
                assert_failing(&rt, call, lasts, kept)?;
            }
        }
    }
    Ok(())
}

fn push_row(text: &mut String, row: &BlockRow) -> Result<(), AllocError> {
    for place in 0..row.labels.len() {
        let (name, value) = row.labels.pair(place);
        for byte in name.iter().chain(b"=").chain(value) {
            text.push(char::from(*byte))?;
        }
    }
    for sample in row.samples.as_slice() {
        write!(text, " {}:{}", sample.time, sample.value)?;
    }
    Ok(())
}

// The hours and the rows of the blocks, in the order in which they were written.
fn blocks_on(alloc: Global, shelf: &Shelf) -> Result<String, StoreFault> {
    let mut text = String::new(alloc);
    for name in shelf.read_dir("out")? {
        let path = format!(in alloc; "out/{name}")?;
        let Ok(block) = read_parts(alloc, shelf, &path) else {
            return Err(UNSAID);
        };
        let Ok((_, found)) = read_any_block(alloc, &block) else {
            return Err(UNSAID);
        };
        writeln!(text, "hour {}", found.hour.k())?;
        for row in found.rows.as_slice() {
            push_row(&mut text, row)?;
            text.push('\n')?;
        }
    }
    Ok(text)
}

// What is printed and which blocks are there, where later rows come once so many blocks are.
fn cut_by<'a, R: Clock + RandomSource + Threads + Wait + Sync + AllocGlobal>(
    rt: &'a R,
    rest: &'a [u8],
    later: &'a [u8],
    blocks: u64,
) -> Result<(String, String), StoreFault> {
    let alloc = rt.alloc();
    let log = Mutex::new(shelf_with_log(alloc)?);
    let shelf = Mutex::new(shelf_for_blocks(alloc)?);
    let printed = AtomicU64::new(0);
    let mut sources = Vec::new(alloc);
    sources.push(Late::new(rt, rest, later, &printed, blocks))?;
    let out = Counted::new(alloc, &printed);
    let stores = (Lent::new(&log), &shelf);
    let (_, out) = lived(rt, stores, out, inputs(alloc, sources)?, LIVE);
    let found = blocks_on(alloc, &shelf.into_inner())?;
    Ok((out.text, found))
}

const HOURS: &[u8] = b"\
1000 1 job=api
2000 2 job=api
3601000 3 job=api
3601000 4 job=db
7200000 5 job=api
";

const AFTER_HOURS: &[u8] = b"7199999 6 job=db\n7200000 7 job=db\n";

const BLOCKS: &str = "\
hour 0
job=api 1000:1 2000:2
hour 1
job=api 3601000:3
job=db 3601000:4
";

// Two full hours are cut, each once. A row of them that comes then is expired.
#[test]
fn live_hours(rt: HostRuntime) -> Result<(), StoreFault> {
    let (printed, blocks) = cut_by(&rt, HOURS, AFTER_HOURS, 2)?;
    same(&rt, "accepted", count_of(&printed, "accepted"), 6);
    same(&rt, "expired", count_of(&printed, "expired"), 1);
    same(&rt, "printed", printed.as_str().split("block ").count(), 3);
    same(&rt, "blocks", blocks.as_str(), BLOCKS);
    Ok(())
}

// A series is an hour behind another one, whose hour stays the last. Its own hour is cut.
#[test]
fn live_hour_of_a_series_behind(rt: HostRuntime) -> Result<(), StoreFault> {
    let rows: &[u8] = b"1000 1 job=api\n7200000 2 job=api\n";
    let later: &[u8] = b"3600000 3 job=db\n";
    let (_, blocks) = cut_by(&rt, rows, later, 1)?;
    let wanted = "hour 0\njob=api 1000:1\nhour 1\njob=db 3600000:3\n";
    same(&rt, "blocks", blocks.as_str(), wanted);
    Ok(())
}

// Rows of 500 series, whose numbers begin with this one.
fn rows_from(alloc: Global, first: u64) -> Result<String, AllocError> {
    let mut text = String::new(alloc);
    for row in 0..500u64 {
        let number = first.saturating_add(row);
        writeln!(text, "1000 {number} id={number}")?;
    }
    Ok(text)
}

// Ends the test unless the log has a sample for each number from 1000 to 2999.
fn assert_all<R: Abort + Threads + Wait + Sync + AllocGlobal>(
    rt: &R,
    log: &mut Shelf,
) -> Result<(), StoreFault> {
    let found = carried_out(rt, log, &NoGate, DUMPS);
    same(
        rt,
        "lines",
        found.printed.as_str().split('\n').count(),
        2001,
    );
    for number in 1000..3000u64 {
        let line = format!(in rt.alloc(); "id={number} 1000 {number}\n")?;
        let is_there = found.printed.as_str().contains(line.as_str());
        same(rt, number, is_there, true);
    }
    Ok(())
}

// Four inputs at once: all rows are accepted, and are in the log.
#[test]
fn live_inputs(rt: HostRuntime) -> Result<(), StoreFault> {
    let alloc = rt.alloc();
    let mut texts = Vec::new(alloc);
    for first in [1000, 1500, 2000, 2500] {
        texts.push(rows_from(alloc, first)?)?;
    }
    let mut sources = Vec::new(alloc);
    for text in &texts {
        sources.push(Few::new(text.as_bytes(), 700))?;
    }
    let log = Mutex::new(shelf_with_log(alloc)?);
    let blocks = Mutex::new(shelf_for_blocks(alloc)?);
    let stores = (Lent::new(&log), &blocks);
    let out = Printed::new(alloc);
    let (answer, out) = lived(&rt, stores, out, inputs(alloc, sources)?, LIVE);
    same(&rt, "status", answer.status as u8, 0);
    same(&rt, "accepted", count_of(&out.text, "accepted"), 2000);
    assert_all(&rt, &mut log.into_inner())
}

// Ends the test unless a command was refused, since another run writes to the last segment, and nothing was written.
fn assert_in_use<R: Abort + AllocGlobal>(
    rt: &R,
    log: &Mutex<Noted>,
    answer: &Answer,
) -> Result<(), StoreFault> {
    let said = complaint(rt.alloc(), answer)?;
    let found = (answer.status as u8, said.as_str(), answer.cause);
    let cause = Cause::Refused(Reason::InUse);
    same(
        rt,
        "said",
        found,
        (3, "cannot write log/00000000", Some(cause)),
    );
    same(rt, "calls", calls_of(rt.alloc(), log)?.as_str(), "");
    Ok(())
}

// Neither `live` nor `append` writes behind a segment that grows.
#[test]
fn live_in_use(rt: HostRuntime) -> Result<(), StoreFault> {
    let alloc = rt.alloc();
    let mut shelf = shelf_with_log(alloc)?;
    shelf.put("rows", ACCEPTED)?;
    let log = Mutex::new(Noted::new(alloc, shelf));
    let blocks = Mutex::new(Noted::new(alloc, shelf_for_blocks(alloc)?));
    let mut sources = Vec::new(alloc);
    sources.push(Few::new(TWO_ROWS, 15))?;
    let stores = (Lent::in_use(&log, "log/00000000"), &blocks);
    let out = Printed::new(alloc);
    let (answer, out) = lived(&rt, stores, out, inputs(alloc, sources)?, LIVE);
    same(&rt, "printed", out.text.as_str(), "");
    assert_in_use(&rt, &log, &answer)?;
    let mut lent = Lent::in_use(&log, "log/00000000");
    let answer = carried_out(&rt, &mut lent, &NoGate, APPEND.asked);
    assert_in_use(&rt, &log, &answer)
}
