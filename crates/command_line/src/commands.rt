//! The commands, by `clap`.

use crate::arguments::*;
use crate::texts;
use clap::{Arg, Command};
use std::alloc::{AllocError, Global};

/// The program's version, and the kit that proved it.
const VERSION: &str = "0.9.0 (rattle-kit-13f)";

// Makes a command of this name. `long_help` is what its help says last.
fn named<'a>(
    alloc: Global,
    name: &'static str,
    about: &'static str,
    long_help: &'static str,
) -> Command<'a> {
    Command::new(alloc, name)
        .about(about)
        .after_long_help(long_help)
}

// Makes a command on the log in a directory.
fn on_log<'a>(
    alloc: Global,
    name: &'static str,
    about: &'static str,
    long_help: &'static str,
) -> Result<Command<'a>, AllocError> {
    named(alloc, name, about, long_help).arg(dir(alloc))
}

// Adds an argument to a command.
fn also<'a>(
    command: Result<Command<'a>, AllocError>,
    argument: Arg<'a>,
) -> Result<Command<'a>, AllocError> {
    command?.arg(argument)
}

fn replay<'a>(alloc: Global) -> Result<Command<'a>, AllocError> {
    let command = on_log(alloc, "replay", "Counts what the log holds", texts::REPLAY);
    replaying(alloc, command)
}

fn records<'a>(alloc: Global) -> Result<Command<'a>, AllocError> {
    let about = "Lists the records of the log";
    in_forms(alloc, on_log(alloc, "records", about, texts::RECORDS))
}

fn inspect<'a>(alloc: Global) -> Result<Command<'a>, AllocError> {
    let about = "Reports what each file of the log holds, and what may be lost";
    let command = on_log(alloc, "inspect", about, texts::INSPECT);
    with_min_valid(alloc, also(command, json(alloc)), noted_from(alloc))
}

fn series<'a>(alloc: Global) -> Result<Command<'a>, AllocError> {
    let about = "Lists the series of the log";
    let command = on_log(alloc, "series", about, texts::SERIES);
    replaying(alloc, also(command, pair(alloc)))
}

fn analyze<'a>(alloc: Global) -> Result<Command<'a>, AllocError> {
    let about = "Ranks the metrics and labels that make the log large";
    let command = on_log(alloc, "analyze", about, texts::ANALYZE);
    replaying(alloc, also(command, most(alloc)))
}

fn dump<'a>(alloc: Global) -> Result<Command<'a>, AllocError> {
    let command = on_log(alloc, "dump", "Prints the samples of the log", texts::DUMP);
    let command = also(also(command, pair(alloc)), from(alloc));
    let command = also(also(command, to(alloc)), floats(alloc));
    replaying(alloc, also(command, hidden(alloc)))
}

fn ranges<'a>(alloc: Global) -> Result<Command<'a>, AllocError> {
    let about = "Lists the full hours of the log, which `cut` can write";
    replaying(alloc, on_log(alloc, "ranges", about, texts::RANGES))
}

fn cut<'a>(alloc: Global) -> Result<Command<'a>, AllocError> {
    let about = "Writes one full hour of the log as a block";
    let command = on_log(alloc, "cut", about, texts::CUT);
    let command = also(also(command, hour(alloc)), ulid(alloc)?);
    replaying_an_hour(alloc, also(also(command, out(alloc)), xor(alloc)))
}

fn blocks<'a>(alloc: Global) -> Result<Command<'a>, AllocError> {
    let about = "Writes each hour of the log as a block that a server opens";
    let command = on_log(alloc, "blocks", about, texts::BLOCKS);
    let command = also(also(command, blocks_out(alloc)), first_ulid(alloc));
    replaying(alloc, also(command, memory(alloc)))
}

fn rescue<'a>(alloc: Global) -> Result<Command<'a>, AllocError> {
    let about = "Writes all that can be read as blocks, for a server that does not start";
    let command = on_log(alloc, "rescue", about, texts::RESCUE);
    let command = also(also(command, blocks_out(alloc)), first_ulid(alloc));
    replaying_as_it_is(alloc, also(command, json(alloc)))
}

fn block<'a>(alloc: Global) -> Result<Command<'a>, AllocError> {
    named(
        alloc,
        "block",
        "Checks a block, and prints what it holds",
        texts::BLOCK,
    )
    .arg(path(alloc))
}

fn append<'a>(alloc: Global) -> Result<Command<'a>, AllocError> {
    let about = "Appends rows of samples to the log, in a new segment";
    let command = on_log(alloc, "append", about, texts::APPEND);
    let command = also(also(command, rows(alloc)), floats(alloc));
    replaying_as_it_is(alloc, command)
}

fn live<'a>(alloc: Global) -> Result<Command<'a>, AllocError> {
    let about = "Appends rows while they come, and cuts full hours into blocks";
    let command = on_log(alloc, "live", about, texts::LIVE);
    let command = also(also(command, blocks_out(alloc)), inputs(alloc));
    let command = also(also(command, floats(alloc)), sync(alloc));
    replaying_as_it_is(alloc, also(command, after(alloc)))
}

fn checkpoint<'a>(alloc: Global) -> Result<Command<'a>, AllocError> {
    let about = "Writes a checkpoint: what is still needed of the log";
    let command = in_forms(alloc, on_log(alloc, "checkpoint", about, texts::CHECKPOINT));
    let command = with_min_valid(alloc, command, min_valid(alloc).required(true));
    also(command, keep_skipped(alloc))
}

fn unpack<'a>(alloc: Global) -> Result<Command<'a>, AllocError> {
    let about = "Writes an uncompressed copy of the log, which all commands read";
    let command = on_log(alloc, "unpack", about, texts::UNPACK);
    let command = also(also(command, new_log(alloc)), through_damage(alloc));
    also(command, past_damage(alloc)?)
}

// Adds a subcommand. It is the one place where an unfinished command is dropped, which is dear to prove.
fn with<'a>(
    command: Command<'a>,
    below: Result<Command<'a>, AllocError>,
) -> Result<Command<'a>, AllocError> {
    command.subcommand(below?)
}

/// Makes the program's command with all its subcommands.
pub(crate) fn program<'a>(alloc: Global) -> Result<Command<'a>, AllocError> {
    let about =
        "Looks inside a Prometheus write-ahead log before a server does, and rescues a damaged one";
    // by whatever name it is called, help and usage say this one
    let command = named(alloc, "prom_head", about, texts::PROGRAM)
        .bin_name("prom_head")?
        .version(VERSION)
        .subcommand_required(true);
    let command = with(command, inspect(alloc))?;
    let command = with(command, rescue(alloc))?;
    let command = with(command, unpack(alloc))?;
    let command = with(command, replay(alloc))?;
    let command = with(command, records(alloc))?;
    let command = with(command, series(alloc))?;
    let command = with(command, analyze(alloc))?;
    let command = with(command, dump(alloc))?;
    let command = with(command, ranges(alloc))?;
    let command = with(command, cut(alloc))?;
    let command = with(command, blocks(alloc))?;
    let command = with(command, block(alloc))?;
    let command = with(command, append(alloc))?;
    let command = with(command, live(alloc))?;
    with(command, checkpoint(alloc))
}
