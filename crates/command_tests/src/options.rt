//! How the words of a command line say that a log is to be replayed, and what is said of each fault. What is said of wrong words,
//! and what help prints, is in examples/cases.

use crate::checks::same;
use answers::{AnalyzeRequest, DumpRequest, Encoding, Fault, LogForm, Request, UnpackRequest};
use block_commands::{BlockRequest, CutRequest};
use command_line::{Asked, CommandLine, parse};
use head_replay::Options;
use std::alloc::{AllocError, Global};
use std::process::Abort;
use write_commands::{AppendRequest, CheckpointRequest};

// The words of a line, which are parted by spaces.
fn words(alloc: Global, line: &str) -> Result<Vec<String>, AllocError> {
    let mut words = Vec::new(alloc);
    for word in line.split(' ') {
        words.push(String::from_str(alloc, word)?)?;
    }
    Ok(words)
}

const SEVEN: Options = Options {
    workers: 7,
    round_pages: 300,
    min_valid: -5,
};

fn replay(options: Options) -> Asked<'static> {
    Asked::OfLog(Request::Replay {
        dir: "log",
        form: LogForm::Plain,
        options,
    })
}

fn assert_asked<R: Abort + AllocGlobal>(
    rt: &R,
    line: &str,
    wanted: Asked<'_>,
) -> Result<(), AllocError> {
    assert_line(rt, line, wanted, None)
}

fn assert_line<R: Abort + AllocGlobal>(
    rt: &R,
    line: &str,
    asked: Asked<'_>,
    min_valid_of: Option<&str>,
) -> Result<(), AllocError> {
    let words = words(rt.alloc(), line)?;
    let wanted = CommandLine {
        asked,
        min_valid_of,
        is_beside: false,
    };
    same(rt, line, parse(rt.alloc(), &words).ok(), Some(wanted));
    Ok(())
}

// How the log is replayed, and how where nothing is said of it.
#[test]
fn options_of_replay(rt: HostRuntime) -> Result<(), AllocError> {
    for (line, workers, round_pages) in [
        ("prom_head replay log", 4, 256),
        ("prom_head replay log --workers=1", 1, 256),
        ("prom_head replay --workers 64 log", 64, 256),
        ("prom_head replay log --round-pages=1", 4, 1),
        (
            "prom_head replay --round-pages 65536 log --workers=007",
            7,
            65_536,
        ),
    ] {
        let options = Options {
            workers,
            round_pages,
            min_valid: i64::MIN,
        };
        assert_asked(&rt, line, replay(options))?;
    }
    Ok(())
}

// What is asked for with the options of a replay.
const OF_EACH: &[(&str, Asked<'static>)] = &[
    (
        "replay log",
        Asked::OfLog(Request::Replay {
            dir: "log",
            form: LogForm::Plain,
            options: SEVEN,
        }),
    ),
    (
        "series log",
        Asked::OfLog(Request::Series {
            dir: "log",
            form: LogForm::Plain,
            pair: None,
            options: SEVEN,
        }),
    ),
    (
        "ranges log",
        Asked::OfBlocks(BlockRequest::Ranges {
            dir: "log",
            form: LogForm::Plain,
            options: SEVEN,
        }),
    ),
    (
        "cut log --hour -1 --ulid=01ARZ3NDEKTSV4RRFFQ69G5FAV --out=out",
        Asked::OfBlocks(BlockRequest::Cut(CutRequest {
            dir: "log",
            form: LogForm::Plain,
            hour: -1,
            ulid: "01ARZ3NDEKTSV4RRFFQ69G5FAV",
            is_made: false,
            out: "out",
            encoding: Encoding::Raw,
            options: SEVEN,
        })),
    ),
    (
        "cut log --xor --hour 2 --ulid=01ARZ3NDEKTSV4RRFFQ69G5FAV --out=out",
        Asked::OfBlocks(BlockRequest::Cut(CutRequest {
            dir: "log",
            form: LogForm::Plain,
            hour: 2,
            ulid: "01ARZ3NDEKTSV4RRFFQ69G5FAV",
            is_made: false,
            out: "out",
            encoding: Encoding::Xor,
            options: SEVEN,
        })),
    ),
    (
        "cut log --hour 2 --out=out --xor",
        Asked::OfBlocks(BlockRequest::Cut(CutRequest {
            dir: "log",
            form: LogForm::Plain,
            hour: 2,
            ulid: "",
            is_made: true,
            out: "out",
            encoding: Encoding::Xor,
            options: SEVEN,
        })),
    ),
    (
        "analyze log --most 3",
        Asked::Analyze(AnalyzeRequest {
            dir: "log",
            form: LogForm::Plain,
            most: 3,
            bars: false,
            options: SEVEN,
        }),
    ),
    (
        "dump log --from=-7 --to 8 --floats",
        Asked::Dump(DumpRequest {
            dir: "log",
            form: LogForm::Plain,
            pair: None,
            from: -7,
            to: 8,
            floats: true,
            hidden: false,
            options: SEVEN,
        }),
    ),
    (
        "append log --rows=rows",
        Asked::Append(AppendRequest {
            dir: "log",
            rows: "rows",
            floats: false,
            options: SEVEN,
        }),
    ),
];

#[test]
fn options_of_each_command(rt: HostRuntime) -> Result<(), AllocError> {
    for (line, wanted) in OF_EACH {
        let line = format!(in rt.alloc();
            "prom_head {line} --workers=7 --round-pages=300 --min-valid=-5"
        )?;
        assert_asked(&rt, &line, *wanted)?;
    }
    let line = "prom_head checkpoint log --min-valid=-5";
    assert_asked(&rt, line, CHECKPOINT)?;
    let line = "prom_head checkpoint --keep-skipped log --min-valid=-5";
    assert_asked(&rt, line, WHOLE_CHECKPOINT)
}

const CHECKPOINT: Asked<'static> = Asked::Checkpoint(CheckpointRequest {
    dir: "log",
    form: LogForm::Plain,
    min_valid: -5,
    keep_skipped: false,
});

const WHOLE_CHECKPOINT: Asked<'static> = Asked::Checkpoint(CheckpointRequest {
    dir: "log",
    form: LogForm::Plain,
    min_valid: -5,
    keep_skipped: true,
});

// The least valid time is that of a data directory: nothing is expired, until it is found.
#[test]
fn least_valid_times_of_each_command(rt: HostRuntime) -> Result<(), AllocError> {
    for (line, wanted) in OF_EACH {
        let line = format!(in rt.alloc();
            "prom_head {line} --workers=7 --round-pages=300 --min-valid-of data"
        )?;
        let asked = wanted.from_least(i64::MIN);
        assert_line(&rt, &line, asked, Some("data"))?;
        same(&rt, &line, asked.from_least(-5), *wanted);
    }
    let line = "prom_head checkpoint log --min-valid-of=data";
    let asked = CHECKPOINT.from_least(i64::MIN);
    assert_line(&rt, line, asked, Some("data"))?;
    same(&rt, line, asked.from_least(-5), CHECKPOINT);
    Ok(())
}

#[test]
fn options_of_unpack(rt: HostRuntime) -> Result<(), AllocError> {
    for (line, through_damage, past_damage) in [
        ("prom_head unpack log --out a/b", false, false),
        (
            "prom_head unpack --through-damage --out=a/b log",
            true,
            false,
        ),
        ("prom_head unpack log --past-damage --out=a/b", false, true),
    ] {
        let request = UnpackRequest {
            dir: "log",
            out: "a/b",
            through_damage,
            past_damage,
        };
        assert_asked(&rt, line, Asked::Unpack(request))?;
    }
    Ok(())
}

// Each fault that stands for itself, with its status and its text. That rows are longer than a segment of 134,217,728 bytes is shown of the
// log's writer, in small. No run here is refused a thread, or comes to a head that is full.
const FAULTS: [(Fault, u8, &str); 17] = [
    (Fault::NoPair, 2, "pair must be NAME=VALUE"),
    (Fault::BadUlid, 2, "ulid must be 26 Crockford characters"),
    (Fault::BadChunks, 1, "bad chunks"),
    (Fault::BadTombstones, 1, "bad tombstones"),
    (Fault::BadMeta, 1, "bad meta"),
    (Fault::Edge, 3, "hour at the edge of time"),
    (Fault::NotFull, 3, "hour not full"),
    (Fault::NoSamples, 3, "no samples in hour"),
    (Fault::NoLog, 3, "no log to keep"),
    (Fault::Gap(None), 3, "gap in segment numbers"),
    (Fault::TooLarge, 3, "too large"),
    (Fault::Full, 3, "too many series"),
    (Fault::RefsSpent, 3, "references spent"),
    (Fault::SegmentFull, 3, "rows do not fit one segment"),
    (Fault::CannotPrint, 3, "cannot write standard output"),
    (Fault::OutOfMemory, 4, "out of memory"),
    (Fault::Workers, 4, "a thread could not start"),
];

#[test]
fn texts_of_faults(rt: HostRuntime) -> Result<(), AllocError> {
    for (fault, status, text) in FAULTS {
        let found = fault.to_string(rt.alloc())?;
        same(
            &rt,
            text,
            (fault.status() as u8, found.as_str()),
            (status, text),
        );
    }
    Ok(())
}
