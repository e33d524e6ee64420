//! What a command line asks for.

use crate::commands::program;
use crate::sizes::{BAD_SIZE, BAD_SYNC, size_of};
use answers::{
    AnalyzeRequest, AppendRequest, BlockRequest, BlocksRequest, CheckpointRequest, CutRequest,
    DumpRequest, Encoding, InspectRequest, LiveRequest, LogForm, Request, RescueRequest,
    UnpackRequest,
};
use clap::error::ErrorKind;
use clap::{ArgMatches, Command, Error};
use head_replay::Options;
use std::alloc::Global;
use std::path::Path;

/// The request of a command line.
#[derive(Clone, Copy, Debug, PartialEq, Eq)]
pub enum Asked<'a> {
    /// Print what a log holds.
    OfLog(Request<'a>),
    /// Print what each file of a log holds.
    Inspect(InspectRequest<'a>),
    /// Print what makes a log large.
    Analyze(AnalyzeRequest<'a>),
    /// Print the samples of a log.
    Dump(DumpRequest<'a>),
    /// List or cut the hours of a log, or print what a block holds.
    OfBlocks(BlockRequest<'a>),
    /// Write a block for each hour of a log.
    Blocks(BlocksRequest<'a>),
    /// Write blocks of all that can be read of a log.
    Rescue(RescueRequest<'a>),
    /// Append rows to a log.
    Append(AppendRequest<'a>),
    /// Run a store over a log.
    Live(LiveRequest<'a>),
    /// Make a checkpoint of a log.
    Checkpoint(CheckpointRequest<'a>),
    /// Write a log anew without compression.
    Unpack(UnpackRequest<'a>),
}

/// A command line: what it asks for, and of which data directory the blocks give the least valid time, if it has one.
#[derive(Clone, Copy, Debug, PartialEq, Eq)]
pub struct CommandLine<'a> {
    pub asked: Asked<'a>,
    pub min_valid_of: Option<&'a str>,
    /// Whether the data directory is not named, but the one that the log is in. If its blocks cannot be read, no least valid time is given.
    pub is_beside: bool,
}

// Returns the least valid time. Where none is given, it is the least of all times, so that nothing is expired.
fn min_valid(of: &ArgMatches<'_>) -> i64 {
    of.get_one("min-valid").unwrap_or(i64::MIN)
}

// Returns the options of replay.
fn options(of: &ArgMatches<'_>) -> Option<Options> {
    Some(Options {
        workers: usize::from(of.get_one::<u8>("workers")?),
        round_pages: of.get_one::<u32>("round-pages")? as usize,
        min_valid: min_valid(of),
    })
}

// Returns how many bytes of memory are to suffice, if that is given as a size.
fn memory(of: &ArgMatches<'_>) -> Option<u64> {
    size_of(of.get_str("memory")?)
}

// Returns after how many milliseconds a log is synced again, if that is given as such a number or as `each`.
fn sync(of: &ArgMatches<'_>) -> Option<u64> {
    match of.get_str("sync")? {
        "each" => Some(0),
        millis => Some(u64::from(millis.parse::<u32>().ok()?)),
    }
}

// Returns the form in which the log is read.
fn form(of: &ArgMatches<'_>) -> LogForm {
    if of.get_flag("past-damage") {
        LogForm::PastDamage
    } else if of.get_flag("unpack") {
        LogForm::Unpacked
    } else {
        LogForm::Plain
    }
}

fn of_log<'a>(matches: &ArgMatches<'a>) -> Option<Request<'a>> {
    match matches.subcommand()? {
        ("replay", of) => Some(Request::Replay {
            dir: of.get_str("dir")?,
            form: form(of),
            options: options(of)?,
        }),
        ("records", of) => Some(Request::Records {
            dir: of.get_str("dir")?,
            form: form(of),
        }),
        ("series", of) => Some(Request::Series {
            dir: of.get_str("dir")?,
            form: form(of),
            pair: of.get_str("pair"),
            options: options(of)?,
        }),
        _ => None,
    }
}

fn of_inspect<'a>(of: &ArgMatches<'a>) -> Option<InspectRequest<'a>> {
    Some(InspectRequest {
        dir: of.get_str("dir")?,
        json: of.get_flag("json"),
        min_valid: min_valid(of),
    })
}

// Whether lines have bars is for the caller to say.
fn of_analyze<'a>(of: &ArgMatches<'a>) -> Option<AnalyzeRequest<'a>> {
    Some(AnalyzeRequest {
        dir: of.get_str("dir")?,
        form: form(of),
        most: of.get_one::<u32>("most")? as usize,
        bars: false,
        options: options(of)?,
    })
}

fn of_dump<'a>(of: &ArgMatches<'a>) -> Option<DumpRequest<'a>> {
    Some(DumpRequest {
        dir: of.get_str("dir")?,
        form: form(of),
        pair: of.get_str("pair"),
        from: of.get_one("from").unwrap_or(i64::MIN),
        to: of.get_one("to").unwrap_or(i64::MAX),
        floats: of.get_flag("floats"),
        hidden: of.get_flag("hidden"),
        options: options(of)?,
    })
}

// Returns the encoding of a block's chunks.
fn encoding(of: &ArgMatches<'_>) -> Encoding {
    if of.get_flag("xor") {
        Encoding::Xor
    } else {
        Encoding::Raw
    }
}

// Where no name is given, the caller makes one.
fn of_cut<'a>(of: &ArgMatches<'a>) -> Option<CutRequest<'a>> {
    let name = of.get_str("ulid");
    Some(CutRequest {
        dir: of.get_str("dir")?,
        form: form(of),
        hour: of.get_one("hour")?,
        ulid: name.unwrap_or(""),
        is_made: name.is_none(),
        out: of.get_str("out")?,
        encoding: encoding(of),
        options: options(of)?,
    })
}

fn of_blocks<'a>(matches: &ArgMatches<'a>) -> Option<BlockRequest<'a>> {
    match matches.subcommand()? {
        ("ranges", of) => Some(BlockRequest::Ranges {
            dir: of.get_str("dir")?,
            form: form(of),
            options: options(of)?,
        }),
        ("cut", of) => Some(BlockRequest::Cut(of_cut(of)?)),
        ("block", of) => Some(BlockRequest::Block {
            path: of.get_str("path")?,
        }),
        _ => None,
    }
}

// Where no name is given, the caller makes one.
fn of_every_hour<'a>(of: &ArgMatches<'a>) -> Option<BlocksRequest<'a>> {
    let name = of.get_str("ulid");
    Some(BlocksRequest {
        dir: of.get_str("dir")?,
        form: form(of),
        out: of.get_str("out")?,
        ulid: name.unwrap_or(""),
        is_made: name.is_none(),
        memory: memory(of),
        options: options(of)?,
    })
}

// Where no name is given, the caller makes one.
fn of_rescue<'a>(of: &ArgMatches<'a>) -> Option<RescueRequest<'a>> {
    let name = of.get_str("ulid");
    Some(RescueRequest {
        dir: of.get_str("dir")?,
        out: of.get_str("out")?,
        ulid: name.unwrap_or(""),
        is_made: name.is_none(),
        data: data_of(of),
        json: of.get_flag("json"),
        options: options(of)?,
    })
}

fn of_append<'a>(of: &ArgMatches<'a>) -> Option<AppendRequest<'a>> {
    Some(AppendRequest {
        dir: of.get_str("dir")?,
        rows: of.get_str("rows")?,
        floats: of.get_flag("floats"),
        options: options(of)?,
    })
}

fn of_live<'a>(of: &ArgMatches<'a>) -> Option<LiveRequest<'a>> {
    Some(LiveRequest {
        dir: of.get_str("dir")?,
        out: of.get_str("out")?,
        rows: of.get_str("rows").unwrap_or(""),
        floats: of.get_flag("floats"),
        sync: sync(of)?,
        after: u64::from(of.get_one::<u32>("after")?) * 1000,
        options: options(of)?,
    })
}

fn of_checkpoint<'a>(of: &ArgMatches<'a>) -> Option<CheckpointRequest<'a>> {
    Some(CheckpointRequest {
        dir: of.get_str("dir")?,
        form: form(of),
        min_valid: min_valid(of),
        keep_skipped: of.get_flag("keep-skipped"),
    })
}

fn of_unpack<'a>(of: &ArgMatches<'a>) -> Option<UnpackRequest<'a>> {
    Some(UnpackRequest {
        dir: of.get_str("dir")?,
        out: of.get_str("out")?,
        through_damage: of.get_flag("through-damage"),
        past_damage: of.get_flag("past-damage"),
    })
}

fn of_others<'a>(matches: &ArgMatches<'a>) -> Option<Asked<'a>> {
    match matches.subcommand()? {
        ("inspect", of) => Some(Asked::Inspect(of_inspect(of)?)),
        ("analyze", of) => Some(Asked::Analyze(of_analyze(of)?)),
        ("dump", of) => Some(Asked::Dump(of_dump(of)?)),
        ("blocks", of) => Some(Asked::Blocks(of_every_hour(of)?)),
        ("rescue", of) => Some(Asked::Rescue(of_rescue(of)?)),
        ("append", of) => Some(Asked::Append(of_append(of)?)),
        ("live", of) => Some(Asked::Live(of_live(of)?)),
        ("checkpoint", of) => Some(Asked::Checkpoint(of_checkpoint(of)?)),
        ("unpack", of) => Some(Asked::Unpack(of_unpack(of)?)),
        _ => None,
    }
}

fn requested<'a>(matches: &ArgMatches<'a>) -> Option<Asked<'a>> {
    if let Some(request) = of_log(matches) {
        return Some(Asked::OfLog(request));
    }
    if let Some(request) = of_blocks(matches) {
        return Some(Asked::OfBlocks(request));
    }
    of_others(matches)
}

// Returns the directory that a log is in: that of a server's data, if it is a server's log. Where the path ends in `..` it is not known.
fn beside(dir: &str) -> Option<&str> {
    if dir == "." {
        return Some("..");
    }
    let path = Path::new(dir);
    path.file_name()?;
    let parent = path.parent()?.as_str();
    // a name alone is in the directory of the program
    Some(if parent.is_empty() { "." } else { parent })
}

// Returns whether the data directory is the one that the log is in: in a rescue, where no least valid time is given.
fn is_beside(matches: &ArgMatches<'_>) -> bool {
    match matches.subcommand() {
        Some(("rescue", of)) => {
            of.get_str("min-valid-of").is_none() && of.get_one::<i64>("min-valid").is_none()
        }
        _ => false,
    }
}

// Returns the data directory that gives the least valid time of a rescue, if one does: the one that is named, or else the one that the log is
// in.
fn data_of<'a>(of: &ArgMatches<'a>) -> Option<&'a str> {
    match (of.get_str("min-valid-of"), of.get_one::<i64>("min-valid")) {
        (Some(data), _) => Some(data),
        (None, Some(_)) => None,
        (None, None) => beside(of.get_str("dir")?),
    }
}

// Returns the data directory that gives the least valid time. A command that has none takes no such option.
fn least_of<'a>(matches: &ArgMatches<'a>) -> Option<&'a str> {
    match matches.subcommand()? {
        ("rescue", of) => data_of(of),
        (_, of) => of.get_str("min-valid-of"),
    }
}

fn line_of<'a>(matches: &ArgMatches<'a>) -> Option<CommandLine<'a>> {
    Some(CommandLine {
        asked: requested(matches)?,
        min_valid_of: least_of(matches),
        is_beside: is_beside(matches),
    })
}

// Returns what is wrong with a value that clap does not check, if anything is.
fn bad_value(matches: &ArgMatches<'_>) -> Option<&'static str> {
    match matches.subcommand()? {
        ("blocks", of) if of.get_str("memory").is_some() && memory(of).is_none() => Some(BAD_SIZE),
        ("live", of) if sync(of).is_none() => Some(BAD_SYNC),
        _ => None,
    }
}

fn matched<'a>(
    command: &mut Command<'a>,
    words: &'a [String],
) -> Result<Option<CommandLine<'a>>, Error> {
    let matches = command.try_get_matches_from_mut(words)?;
    if let Some(text) = bad_value(&matches) {
        return Err(command.error(ErrorKind::ValueValidation, text)?);
    }
    Ok(line_of(&matches))
}

fn parsed<'a>(command: &mut Command<'a>, words: &'a [String]) -> Result<CommandLine<'a>, Error> {
    match matched(command, words)? {
        Some(line) => Ok(line),
        // not reached: clap has checked that there is a subcommand with its arguments
        None => Err(command.error(ErrorKind::MissingSubcommand, "a command is missing")?),
    }
}

/// Parses a command line, whose first word is the program's name. A request for help or for the version is an `Err` too, with the text to
/// print.
pub fn parse<'a>(alloc: Global, words: &'a [String]) -> Result<CommandLine<'a>, Error> {
    let mut command = program(alloc)?;
    parsed(&mut command, words)
}
