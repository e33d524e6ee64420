//! Faults: one that ends a command, and those that are passed over.

ghost use Rattle.std.specs.Prelude.{◌≡◌};
ghost use Rattle.answers.specs.declared.fault.Status.TheVariants.{Done};
ghost use Rattle.rescue_commands.specs.Rescues.{IsWell};

use answers::{Answer, Fault};
use std::alloc::Global;

/// Returns the answer of a command that failed.
pub(crate) fn failed(alloc: Global, fault: Fault) -> Answer
    ensures well { IsWell result → ⊥ }
    ensures done { result.status ≡ Done → ⊥ }
{
    match fault {
        // not reached: blocks are written of what is not lost
        Fault::Lost(_) => Answer::failed(alloc, Fault::OutOfMemory),
        fault => Answer::failed(alloc, fault),
    }
}

/// Passes over the fault of a file of a block that cannot be read. Where memory ran out it is returned.
pub(crate) fn pass_over(fault: Fault) -> Result<(), Fault> {
    match fault {
        Fault::OutOfMemory => Err(Fault::OutOfMemory),
        _ => Ok(()),
    }
}
