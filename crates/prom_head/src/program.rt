//! The program, over any store.

ghost use Rattle.std.specs.Prelude.{IfOk};
ghost use Rattle.store.specs.Views.{view_of};
ghost use Rattle.prom_head.specs.Asking.{GivesLeast, IsAskedIn};

use crate::spare::{Spare, open_inputs};
use answers::{AnalyzeRequest, Answer, Fault, LineFault, LiveRequest, Output, Status};
use block_commands::{carry_out_block, name_of};
use command_line::{Asked, CommandLine, parse};
use inspect_command::carry_out_inspect;
use live_command::carry_out_live;
use log_commands::carry_out_log_request;
use log_directory::min_valid_of;
use new_files::clear_abandoned;
use progress::Progress;
use query_commands::{carry_out_analyze, carry_out_dump};
use rescue_commands::{carry_out_blocks, carry_out_rescue};
use std::alloc::Global;
use std::random::RandomSource;
use std::sync::Wait;
use std::thread::Threads;
use std::time::Clock;
use store::{PartStore, Store};
use unpack_command::carry_out_unpack;
use write_commands::{carry_out_append, carry_out_checkpoint};

// Runs a store over a log. Also returns the output.
fn live<R, S: PartStore + Sync + Send + Drop, P: Progress + Sync, O: Output + Send + Drop>(
    rt: &R,
    spare: Spare<S>,
    progress: &P,
    out: O,
    request: LiveRequest<'_>,
) -> (Answer, O)
where
    S::Reader: Send,
    S::Writer: Send,
    R: AllocGlobal + Clock + RandomSource + Threads + Wait + Sync,
{
    let alloc = rt.alloc();
    let Spare {
        log,
        mut blocks,
        host,
    } = spare;
    let inputs = match open_inputs(host, alloc, request.rows) {
        Ok(inputs) => inputs,
        Err(fault) => return (Answer::failed(alloc, fault), out),
    };
    carry_out_live(rt, alloc, log, &mut blocks, progress, out, inputs, request)
}

// Carries out what a command line asks for. Also returns the output.
fn carried_out<R, S: PartStore + Sync + Send + Drop, P: Progress + Sync, O: Output + Send + Drop>(
    rt: &R,
    store: &mut S,
    spare: Spare<S>,
    progress: &P,
    out: O,
    asked: Asked<'_>,
    bars: bool,
) -> (Answer, O)
where
    S::Reader: Send,
    S::Writer: Send,
    R: AllocGlobal + Clock + RandomSource + Threads + Wait + Sync,
{
    let alloc = rt.alloc();
    let answer = match asked {
        Asked::OfLog(request) => {
            return carry_out_log_request(rt, alloc, store, progress, out, request);
        }
        Asked::Dump(request) => return carry_out_dump(rt, alloc, store, progress, out, request),
        Asked::Live(request) => return live(rt, spare, progress, out, request),
        Asked::Inspect(request) => carry_out_inspect(alloc, store, request),
        Asked::Analyze(request) => {
            let request = AnalyzeRequest { bars, ..request };
            carry_out_analyze(rt, alloc, store, progress, request)
        }
        Asked::OfBlocks(request) => carry_out_block(rt, alloc, store, progress, request),
        Asked::Blocks(request) => carry_out_blocks(rt, alloc, store, progress, request),
        Asked::Rescue(request) => carry_out_rescue(rt, alloc, store, progress, request),
        Asked::Append(request) => {
            clear_abandoned(alloc, store, request.dir);
            carry_out_append(rt, alloc, store, progress, request)
        }
        Asked::Checkpoint(request) => carry_out_checkpoint(alloc, store, request),
        Asked::Unpack(request) => carry_out_unpack(alloc, store, request),
    };
    (answer, out)
}

// Returns the least valid time that the blocks of a data directory give, if a command line has one. Those next to a log give none if they cannot
// be read: they are not asked for.
fn least_of<S: Store>(
    alloc: Global,
    store: &S,
    line: &CommandLine<'_>,
) -> Result<Option<i64>, Fault>
    ensures { IfOk result (GivesLeast (view_of (S.holds store.now)) line.now) }
{
    let Some(data) = line.min_valid_of else {
        return Ok(None);
    };
    match min_valid_of(alloc, store, data) {
        Ok(least) => Ok(Some(least)),
        Err(Fault::OutOfMemory) => Err(Fault::OutOfMemory),
        Err(_) if line.is_beside => Ok(None),
        Err(fault) => Err(fault),
    }
}

// Returns what a command line asks for, with the least valid time that the blocks of a data directory give, if it names one.
fn asked_in<'a, S: Store>(
    alloc: Global,
    store: &S,
    line: CommandLine<'a>,
) -> Result<Asked<'a>, Fault>
    ensures { IfOk result (IsAskedIn (view_of (S.holds store.now)) line.entry) }
{
    match least_of(alloc, store, &line)? {
        Some(least) => Ok(line.asked.from_least(least)),
        None => Ok(line.asked),
    }
}

// Carries out what a command line asks for. Where no least valid time is found, nothing is.
fn carried_out_in<
    R,
    S: PartStore + Sync + Send + Drop,
    P: Progress + Sync,
    O: Output + Send + Drop,
>(
    rt: &R,
    store: &mut S,
    spare: Spare<S>,
    progress: &P,
    out: O,
    line: CommandLine<'_>,
    bars: bool,
) -> (Answer, O)
where
    S::Reader: Send,
    S::Writer: Send,
    R: AllocGlobal + Clock + RandomSource + Threads + Wait + Sync,
{
    match asked_in(rt.alloc(), store, line) {
        Ok(asked) => carried_out(rt, store, spare, progress, out, asked, bars),
        Err(fault) => (Answer::failed(rt.alloc(), fault), out),
    }
}

// Carries out what a command line asks for, with a name that is made for the block where one is wanted. Where the system gives no time or no
// random bits, the block has no name, and `cut` refuses it.
fn carried_out_by_name<
    R,
    S: PartStore + Sync + Send + Drop,
    P: Progress + Sync,
    O: Output + Send + Drop,
>(
    rt: &R,
    store: &mut S,
    spare: Spare<S>,
    progress: &P,
    out: O,
    line: CommandLine<'_>,
    bars: bool,
) -> Result<(Answer, O), LineFault>
where
    S::Reader: Send,
    S::Writer: Send,
    R: AllocGlobal + Clock + RandomSource + Threads + Wait + Sync,
{
    if !line.asked.lacks_name() {
        return Ok(carried_out_in(rt, store, spare, progress, out, line, bars));
    }
    let name = match name_of(rt, rt.alloc())? {
        Some(name) => name,
        None => String::new(rt.alloc()),
    };
    let line = CommandLine {
        asked: line.asked.named(&name),
        ..line
    };
    Ok(carried_out_in(rt, store, spare, progress, out, line, bars))
}

/// Runs the program over a store. The first word is the program's name. `progress` hears how far a replay is. Long texts are printed on `out`
/// while they are made, and the answer has the rest; also returns the output. `bars` says whether shares are also printed as bars. Where the words
/// are refused, the store is not called.
pub fn run<R, S: PartStore + Sync + Send + Drop, P: Progress + Sync, O: Output + Send + Drop>(
    rt: &R,
    store: &mut S,
    spare: Spare<S>,
    progress: &P,
    out: O,
    words: &[String],
    bars: bool,
) -> Result<(Answer, O), LineFault>
where
    S::Reader: Send,
    S::Writer: Send,
    R: AllocGlobal + Clock + RandomSource + Threads + Wait + Sync,
{
    let alloc = rt.alloc();
    match parse(alloc, words) {
        Ok(line) => carried_out_by_name(rt, store, spare, progress, out, line, bars),
        Err(error) if error.use_stderr() => Err(LineFault::from(error)),
        Err(help) => {
            let answer = Answer::done(help.to_string(alloc)?, Status::Done);
            Ok((answer, out))
        }
    }
}
