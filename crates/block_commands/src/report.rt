//! The texts that the commands about blocks print.

ghost use Rattle.std.specs.Prelude.{◌≡◌, ◌++◌, IfOk, OnOk, string_bytes};
ghost use Rattle.std.specs.List.{flat_map};
ghost use Rattle.block_commands.specs.Printed.{range_line};

use crate::stats::Stats;
use block_read::{BlockRows, Encoding, counts_of};
use head_column::Hour;
use std::alloc::{AllocError, Global};

// Appends the line of an hour: its number, its first millisecond and the first one after it.
fn push_range(text: &mut String, hour: Hour) -> Result<(), AllocError>
    ensures { OnOk result (string_bytes text.new ≡ string_bytes text.old ++ range_line hour) }
{
    let (number, (start, end)) = (hour.k(), hour.bounds());
    writeln!(text, "{number} {start} {end}")
}

/// Returns a line for each hour: its number, its first millisecond and the first one after it.
pub fn ranges_text(alloc: Global, hours: &[Hour]) -> Result<String, AllocError>
    ensures { IfOk result (λ text. string_bytes text ≡ flat_map range_line hours.now) }
{
    let mut text = String::new(alloc);
    for hour in hours {
        push_range(&mut text, *hour)?;
    }
    Ok(text)
}

/// Appends a line for each count of a block: samples, series and chunks.
pub fn push_stats(text: &mut String, stats: &Stats) -> Result<(), AllocError> {
    writeln!(text, "samples {}", stats.samples)?;
    writeln!(text, "series {}", stats.series)?;
    writeln!(text, "chunks {}", stats.chunks)?;
    Ok(())
}

/// Returns lines for what a block holds: its name, its hour, its samples, series and chunks, its runs of hidden times, and the encoding of
/// its chunks if they are XOR chunks.
pub fn block_text(
    alloc: Global,
    encoding: Encoding,
    block: &BlockRows,
) -> Result<String, AllocError> {
    let counts = counts_of(block.rows.as_slice());
    let (start, end) = block.hour.bounds();
    let mut text = format!(in alloc; "ulid {}\nrange {start} {end}\n", block.ulid)?;
    let stats = Stats {
        samples: counts.samples,
        series: counts.series,
        chunks: counts.chunks,
    };
    push_stats(&mut text, &stats)?;
    writeln!(text, "hidden {}", counts.hidden)?;
    if encoding == Encoding::Xor {
        text.push_str("encoding xor\n")?;
    }
    Ok(text)
}
