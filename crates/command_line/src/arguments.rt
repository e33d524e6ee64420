//! The arguments of the commands.
//!
//! These functions take the lifetime of the words, though their own texts are static: the borrow checker does not shorten a lifetime inside
//! a `Command`.

use clap::{Arg, ArgAction, Command, value_parser};
use std::alloc::{AllocError, Global};

// What help says of an option that several commands have.
const BLOCKS_INTO: &str = "The directory in which a folder is made for each block; it must exist";

const PAST_DAMAGE: &str = "Go on after damage with all that can be read, compressed or not";

pub(crate) fn dir<'a>(alloc: Global) -> Arg<'a> {
    Arg::new(alloc, "dir")
        .value_name("DIR")
        .help("The directory of the log: a server's `wal`, or a copy of it")
        .required(true)
}

fn workers<'a>(alloc: Global) -> Arg<'a> {
    Arg::new(alloc, "workers")
        .long("workers")
        .value_name("N")
        .help("How many threads replay the log, 1 to 64; no result depends on it")
        .value_parser(value_parser!(u8).range(1..=64))
        .default_value("4")
}

// How many pages a round has by default.
const PAGES: &str = "256";

// The same where little else is in memory: smaller rounds take less.
const FEW_PAGES: &str = "32";

fn round_pages<'a>(alloc: Global, pages: &'static str) -> Arg<'a> {
    Arg::new(alloc, "round-pages")
        .long("round-pages")
        .value_name("P")
        .help("How many pages are held decoded at a time, 1 to 65536; no result depends on it")
        .value_parser(value_parser!(u32).range(1..=65_536))
        .default_value(pages)
}

// Returns an option that takes a number with a sign.
fn number<'a>(alloc: Global, name: &'static str, value_name: &'static str) -> Arg<'a> {
    Arg::new(alloc, name)
        .long(name)
        .value_name(value_name)
        .value_parser(value_parser!(i64))
        .allow_negative_numbers(true)
}

// Returns an option that takes no value.
fn flag<'a>(alloc: Global, name: &'static str) -> Arg<'a> {
    Arg::new(alloc, name).long(name).action(ArgAction::SetTrue)
}

pub(crate) fn min_valid<'a>(alloc: Global) -> Arg<'a> {
    number(alloc, "min-valid", "M").help(
        "Leave out samples before this time in milliseconds, and deletions that end before it",
    )
}

// Returns the option of the least valid time where nothing is replayed, and only notes are by it.
pub(crate) fn noted_from<'a>(alloc: Global) -> Arg<'a> {
    number(alloc, "min-valid", "M").help(
        "Leave out notes on samples before this time in milliseconds",
    )
}

// Returns the option that takes the place of `--min-valid`, also where that is required.
fn min_valid_of<'a>(alloc: Global) -> Result<Arg<'a>, AllocError> {
    Arg::new(alloc, "min-valid-of")
        .long("min-valid-of")
        .value_name("DATA")
        .help("Take the time of --min-valid from the blocks in a server's data directory")
        .conflicts_with("min-valid")
}

/// Adds the option of the least valid time to a command, and the one that takes its place.
pub(crate) fn with_min_valid<'a>(
    alloc: Global,
    command: Result<Command<'a>, AllocError>,
    min_valid: Arg<'a>,
) -> Result<Command<'a>, AllocError> {
    command?.arg(min_valid)?.arg(min_valid_of(alloc)?)
}

/// Adds the options of the form in which a log is read, and of replay, to a command.
pub(crate) fn replaying<'a>(
    alloc: Global,
    command: Result<Command<'a>, AllocError>,
) -> Result<Command<'a>, AllocError> {
    replaying_as_it_is(alloc, in_forms(alloc, command))
}

/// Adds the same options to a command that holds one hour of the log.
pub(crate) fn replaying_an_hour<'a>(
    alloc: Global,
    command: Result<Command<'a>, AllocError>,
) -> Result<Command<'a>, AllocError> {
    replaying_in_rounds(alloc, in_forms(alloc, command), FEW_PAGES)
}

/// Adds the options of replay to a command.
pub(crate) fn replaying_as_it_is<'a>(
    alloc: Global,
    command: Result<Command<'a>, AllocError>,
) -> Result<Command<'a>, AllocError> {
    replaying_in_rounds(alloc, command, PAGES)
}

// Adds the options of replay to a command, with this default of `--round-pages`.
fn replaying_in_rounds<'a>(
    alloc: Global,
    command: Result<Command<'a>, AllocError>,
    pages: &'static str,
) -> Result<Command<'a>, AllocError> {
    let command = command?.arg(workers(alloc))?.arg(round_pages(alloc, pages));
    with_min_valid(alloc, command, min_valid(alloc))
}

pub(crate) fn pair<'a>(alloc: Global) -> Arg<'a> {
    Arg::new(alloc, "pair")
        .long("pair")
        .value_name("NAME=VALUE")
        .help("Print only series with this label, spelled as `series` prints it")
}

pub(crate) fn json<'a>(alloc: Global) -> Arg<'a> {
    flag(alloc, "json").help("Print one JSON document")
}

pub(crate) fn most<'a>(alloc: Global) -> Arg<'a> {
    Arg::new(alloc, "most")
        .long("most")
        .value_name("N")
        .help("Print at most this many lines of each list")
        .value_parser(value_parser!(u32))
        .default_value("10")
}

pub(crate) fn from<'a>(alloc: Global) -> Arg<'a> {
    number(alloc, "from", "T").help("Print only samples at this time or later, in milliseconds")
}

pub(crate) fn to<'a>(alloc: Global) -> Arg<'a> {
    number(alloc, "to", "T").help("Print only samples at this time or earlier, in milliseconds")
}

pub(crate) fn floats<'a>(alloc: Global) -> Arg<'a> {
    flag(alloc, "floats").help("Print or take values as floating point numbers, as a server does")
}

pub(crate) fn hidden<'a>(alloc: Global) -> Arg<'a> {
    flag(alloc, "hidden").help("Print samples that deletions hide, too")
}

pub(crate) fn hour<'a>(alloc: Global) -> Arg<'a> {
    number(alloc, "hour", "K")
        .help("The hour that begins at K * 3600000 milliseconds")
        .required(true)
}

pub(crate) fn ulid<'a>(alloc: Global) -> Result<Arg<'a>, AllocError> {
    Arg::new(alloc, "ulid")
        .long("ulid")
        .value_name("U")
        .help("The name of the block, a ULID; with --xor it may be left out, and one is made")
        .required_unless_present("xor")
}

pub(crate) fn first_ulid<'a>(alloc: Global) -> Arg<'a> {
    Arg::new(alloc, "ulid").long("ulid").value_name("U").help(
        "The name of the first block, a ULID; the other names count up from it. If left out, one is made",
    )
}

pub(crate) fn xor<'a>(alloc: Global) -> Arg<'a> {
    flag(alloc, "xor").help("Write XOR chunks, so that a server opens the block")
}

pub(crate) fn out<'a>(alloc: Global) -> Arg<'a> {
    Arg::new(alloc, "out")
        .long("out")
        .value_name("OUT")
        .help(BLOCKS_INTO)
        .required(true)
}

pub(crate) fn inputs<'a>(alloc: Global) -> Arg<'a> {
    Arg::new(alloc, "rows")
        .long("rows")
        .value_name("FILES")
        .help("Files or named pipes of rows, with a colon between them, in place of standard input")
}

pub(crate) fn sync<'a>(alloc: Global) -> Arg<'a> {
    Arg::new(alloc, "sync")
        .long("sync")
        .value_name("MS")
        .help("Sync the log after so many milliseconds, or after `each` batch of rows")
        .default_value("1000")
}

pub(crate) fn after<'a>(alloc: Global) -> Arg<'a> {
    Arg::new(alloc, "after")
        .long("after")
        .value_name("SECONDS")
        .help("Cut an hour once a sample is so many seconds past its end")
        .value_parser(value_parser!(u32))
        .default_value("300")
}

pub(crate) fn blocks_out<'a>(alloc: Global) -> Arg<'a> {
    Arg::new(alloc, "out")
        .long("out")
        .value_name("OUT")
        .help(BLOCKS_INTO)
        .required(true)
}

pub(crate) fn memory<'a>(alloc: Global) -> Arg<'a> {
    Arg::new(alloc, "memory")
        .long("memory")
        .value_name("SIZE")
        .help("Read the log again for each group of hours that so many bytes hold: 600M, say")
}

pub(crate) fn new_log<'a>(alloc: Global) -> Arg<'a> {
    Arg::new(alloc, "out")
        .long("out")
        .value_name("OUT")
        .help("The directory that is made for the copy; it must not exist")
        .required(true)
}

// Returns the option that reads compressed records too.
fn unpacked<'a>(alloc: Global) -> Arg<'a> {
    flag(alloc, "unpack").short('z').help(
        "Read compressed records too: the log that `unpack` would write",
    )
}

// Returns the option that reads what is after damage.
fn all_readable<'a>(alloc: Global) -> Arg<'a> {
    flag(alloc, "past-damage").help(PAST_DAMAGE)
}

/// Adds the options of the form in which a log is read to a command.
pub(crate) fn in_forms<'a>(
    alloc: Global,
    command: Result<Command<'a>, AllocError>,
) -> Result<Command<'a>, AllocError> {
    command?.arg(unpacked(alloc))?.arg(all_readable(alloc))
}

pub(crate) fn through_damage<'a>(alloc: Global) -> Arg<'a> {
    flag(alloc, "through-damage").help("Write what is before the damage of a damaged log")
}

pub(crate) fn past_damage<'a>(alloc: Global) -> Result<Arg<'a>, AllocError> {
    flag(alloc, "past-damage")
        .help(PAST_DAMAGE)
        .conflicts_with("through-damage")
}

pub(crate) fn keep_skipped<'a>(alloc: Global) -> Arg<'a> {
    flag(alloc, "keep-skipped").help(
        "Copy exemplars, metadata, native histograms and other types too, as they are",
    )
}

pub(crate) fn path<'a>(alloc: Global) -> Arg<'a> {
    Arg::new(alloc, "path")
        .value_name("PATH")
        .help("The folder of the block")
        .required(true)
}

pub(crate) fn rows<'a>(alloc: Global) -> Arg<'a> {
    Arg::new(alloc, "rows")
        .long("rows")
        .value_name("FILE")
        .help("The file of rows, one on each line: TIME VALUE NAME=VALUE ..")
        .required(true)
}
