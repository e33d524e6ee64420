//! Reads the write-ahead log of a time series database and prints what it holds, cuts an hour of it into a block, appends rows to it, makes
//! a checkpoint of it, or writes it anew without compression.
#![tactic(auto)]

mod program;
mod spare;
mod standard;

use crate::program::run;
use crate::spare::Spare;
use crate::standard::Standard;
use answers::{Answer, LineFault, Output, Status};
use progress::Meter;
use std::env;
use std::io::{ErrorKind, IsTerminal};
use std::process::ExitCode;
use std::random::RandomSource;
use std::rt::Env;
use std::sync::Wait;
use std::thread::Threads;
use std::time::Clock;
use store::{Disk, PartStore};

// Collects the words of the command line. The first one is the program's name.
fn arguments<R: Env + AllocGlobal>(rt: &R) -> Result<Vec<String>, LineFault> {
    match env::args(rt) {
        Ok(words) => Ok(words.collect(rt.alloc())?),
        Err(error) if error.kind() == ErrorKind::OutOfMemory => Err(LineFault::OutOfMemory),
        Err(_) => Err(LineFault::NotUtf8),
    }
}

// Prints why no command was carried out or printed, and returns the exit status. It does not allocate, so that it can report
// that memory ran out.
fn refuse(rt: &impl Eprint, fault: &LineFault) -> Status {
    let _ = match fault {
        LineFault::Usage(error) => rt.eprint(error),
        _ => eprintln!(rt; "prom_head: {fault}"),
    };
    fault.status()
}

// Prints why a command failed, and on a terminal a second line with what is known beyond that and what was printed. It does not allocate.
fn complain(rt: &impl Eprint, answer: &Answer, is_terminal: bool) {
    if let Some(fault) = &answer.fault {
        let _ = eprintln!(rt; "prom_head: {fault}");
    }
    if is_terminal && let Some(cause) = &answer.cause {
        let _ = eprintln!(rt; "prom_head: {cause}");
    }
}

// Prints the answer of a command, and returns the exit status. A reader that has enough and closes its end is no fault.
fn show<R: Print + Eprint>(rt: &R, answer: &Answer, is_terminal: bool) -> Status {
    match rt.write_all(answer.printed.as_bytes()) {
        Err(error) if error.kind() != ErrorKind::BrokenPipe => {
            return refuse(rt, &LineFault::CannotPrint);
        }
        _ => {}
    }
    complain(rt, answer, is_terminal);
    answer.status
}

// Runs the program over a store. `is_terminal` says whether standard error is a terminal, and `bars` whether standard output is one.
fn run_here<R, S: PartStore + Sync + Send + Drop, O: Output + Send + Drop>(
    rt: &R,
    store: &mut S,
    spare: Spare<S>,
    out: O,
    is_terminal: bool,
    bars: bool,
) -> Result<(Answer, O), LineFault>
where
    S::Reader: Send,
    S::Writer: Send,
    R: Env + Clock + RandomSource + Eprint + AllocGlobal + Threads + Wait + Sync + Drop,
{
    let words = arguments(rt)?;
    let meter = Meter::new(rt, is_terminal);
    run(rt, store, spare, &meter, out, &words, bars)
}

// Prints what is left to be printed, and returns the exit status. A reader that has enough and closes its end is no fault.
fn end<R: Print + Eprint>(
    rt: &R,
    ran: Result<(Answer, Standard<'_, R>), LineFault>,
    is_terminal: bool,
) -> Status {
    match ran {
        Ok((answer, out)) => {
            if out.is_closed() {
                return Status::Done;
            }
            show(rt, &answer, is_terminal)
        }
        Err(fault) => refuse(rt, &fault),
    }
}

fn main(rt: HostRuntime) -> ExitCode {
    let is_terminal = rt.stderr().is_terminal();
    let bars = rt.stdout().is_terminal();
    let out = Standard::new(&rt);
    let spare = Spare {
        log: Disk::new(&rt),
        blocks: Disk::new(&rt),
        host: rt,
    };
    let ran = run_here(&rt, &mut Disk::new(&rt), spare, out, is_terminal, bars);
    end(&rt, ran, is_terminal).into()
}
