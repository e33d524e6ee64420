//! Names of files that are numbered.

ghost use Rattle.std.specs.Prelude.{◌≡◌, IfOk, string_bytes};
ghost use Rattle.new_files.specs.Targets.{zero_filled};

use std::alloc::{AllocError, Global};

/// Returns a number in decimal, with zeros before it up to eight digits: the name of a file of a log.
pub fn eight_digits(alloc: Global, number: u64) -> Result<String, AllocError>
    ensures { IfOk result (λ name. string_bytes name ≡ zero_filled 8 number) }
{
    format!(in alloc; "{number:08}")
}

/// Returns a number in decimal, with zeros before it up to six digits: the name of a chunk file.
pub fn six_digits(alloc: Global, number: u64) -> Result<String, AllocError>
    ensures { IfOk result (λ name. string_bytes name ≡ zero_filled 6 number) }
{
    format!(in alloc; "{number:06}")
}
