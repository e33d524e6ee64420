//! Lines of numbers.

ghost use Rattle.std.specs.Prelude.{◌≡◌, ◌++◌, OnOk, string_bytes};
ghost use Rattle.std.specs.List.{flat_map};
ghost use Rattle.answers.specs.Lines.{number_line};

use std::alloc::AllocError;

/// Appends a line for each number, with its name before it.
pub fn push_numbers(text: &mut String, numbers: &[(&str, u64)]) -> Result<(), AllocError>
    ensures { OnOk result (string_bytes text.new ≡ string_bytes text.old ++ flat_map (λ p. number_line (p.0.now, p.1)) numbers.now) }
{
    for number in numbers {
        let (name, value) = *number;
        writeln!(text, "{name} {value}")?;
    }
    Ok(())
}
