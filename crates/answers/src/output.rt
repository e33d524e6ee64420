//! Text that is printed while it is made.

ghost use Rattle.std.specs.Prelude.{◌++◌, ℕ, List, OnOk, string_bytes};
ghost use Rattle.answers.specs.Outputs.{IsMade};

use std::alloc::AllocError;

/// The most bytes of text that wait to be printed: 64 KiB.
const MOST_WAITING: usize = 65_536;

/// Why text was not printed.
#[derive(Clone, Copy, Debug, PartialEq, Eq)]
pub enum PrintFault {
    /// Standard output refused it.
    Refused,
    /// Out of memory.
    Memory,
}

impl From<AllocError> for PrintFault {
    fn from(_error: AllocError) -> PrintFault {
        PrintFault::Memory
    }
}

/// Prints text, piece by piece.
pub trait Output {
    /// From the first state to the second this text was printed.
    ghost printed: { Self → List ℕ → Self → Type 0 };

    /// Prints a text. Returns an error if it can't be printed whole.
    fn print(&mut self, text: &str) -> Result<(), PrintFault>
        ensures { (first : Self) (before : List ℕ) → printed first before self.old → OnOk result (printed first (before ++ text.now) self.new) };
}

/// Prints a text that waits to be printed if it is long, and leaves none of it.
pub fn print_long<O: Output>(out: &mut O, text: &mut String) -> Result<(), PrintFault>
    ensures { (first : O) (all : List ℕ) → IsMade O.printed first out.old (string_bytes text.old) all → OnOk result (IsMade O.printed first out.new (string_bytes text.new) all) }
{
    if text.len() < MOST_WAITING {
        return Ok(());
    }
    out.print(text)?;
    text.clear();
    Ok(())
}
