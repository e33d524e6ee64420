//! The answer of a command.

ghost use Rattle.std.specs.Prelude.{◌≡◌, ◌↔◌, [], IsSome, None, Some, string_bytes};
ghost use Rattle.answers.specs.Answers.{fault_of};
ghost use Rattle.answers.specs.Faults.{TellsDamage};

use crate::damage::{DamageLine, Flaw};
use crate::fault::{Cause, Fault, Status};
use std::alloc::Global;

// Returns the fault that reports what is wrong with a log.
fn fault_of(flaw: Flaw) -> Fault
    ensures { Some result ≡ fault_of (Some flaw) }
{
    match flaw {
        Flaw::Damage(damage) => Fault::Damage(DamageLine(damage)),
        Flaw::Lost(parts) => Fault::Lost(parts),
    }
}

// Returns what is known beyond that.
fn cause_of(flaw: Flaw) -> Option<Cause> {
    match flaw {
        Flaw::Damage(damage) => DamageLine(damage).cause(),
        Flaw::Lost(_) => Some(Cause::Lost),
    }
}

/// The answer of a command.
#[derive(Debug, Drop)]
pub struct Answer {
    /// The whole text for standard output.
    pub printed: String,
    /// The fault to report on standard error.
    pub fault: Option<Fault>,
    /// What is known beyond the text and the fault, to be printed on a terminal.
    pub cause: Option<Cause>,
    pub status: Status,
}

impl Answer {
    /// Returns the answer of a command that prints this text and reports no fault.
    pub fn done(printed: String, status: Status) -> Answer
        ensures printed { string_bytes result.printed ≡ string_bytes printed }
        ensures status { result.status ≡ status }
        ensures fault { result.fault ≡ None }
    {
        Answer {
            printed,
            fault: None,
            cause: None,
            status,
        }
    }

    /// Returns the answer of a command whose text ends with what is wrong with a log, if anything is.
    pub fn told(printed: String, flaw: Option<Flaw>) -> Answer
        ensures printed { string_bytes result.printed ≡ string_bytes printed }
        ensures done { (result.status ≡ Status.Done) ↔ (flaw ≡ None) }
        ensures damaged { result.status ≡ Status.Damaged → IsSome flaw }
        ensures fault { result.fault ≡ None }
    {
        match flaw {
            None => Answer::done(printed, Status::Done),
            Some(flaw) => Answer {
                printed,
                fault: None,
                cause: cause_of(flaw),
                status: Status::Damaged,
            },
        }
    }

    /// Returns the answer of a command that prints what a log holds, and reports what is wrong with the log, if anything is.
    pub fn up_to(printed: String, flaw: Option<Flaw>) -> Answer
        ensures printed { string_bytes result.printed ≡ string_bytes printed }
        ensures done { result.status ≡ Status.Done → flaw ≡ None }
        ensures damaged { result.status ≡ Status.Damaged → IsSome flaw }
        ensures fault { result.fault ≡ fault_of flaw }
    {
        match flaw {
            None => Answer::done(printed, Status::Done),
            Some(flaw) => Answer {
                printed,
                fault: Some(fault_of(flaw)),
                cause: cause_of(flaw),
                status: Status::Damaged,
            },
        }
    }

    /// Returns the answer of a command that failed and prints nothing.
    pub fn failed(alloc: Global, fault: Fault) -> Answer
        ensures printed { string_bytes result.printed ≡ [] }
        ensures fails { result.status ≡ Status.Done → ⊥ }
        ensures damaged { result.status ≡ Status.Damaged → TellsDamage fault }
        ensures fault { result.fault ≡ Some fault }
    {
        Answer {
            printed: String::new(alloc),
            status: fault.status(),
            cause: fault.cause(),
            fault: Some(fault),
        }
    }
}
