//! Numbers in columns, their shares of a whole, and bars that show these.

ghost use Rattle.std.specs.Prelude.{◌≡◌};
ghost use Rattle.query_commands.specs.Shares.{share_of};

use std::alloc::AllocError;

// The number of cells of a bar.
const CELLS: usize = 20;

// Returns the share of a whole, in tenths of a percent, rounded down. The share of a whole of 0 is 0.
fn share_of(count: u64, whole: u64) -> u128
    ensures { result ≡ share_of count whole }
{
    if whole == 0 {
        return 0;
    }
    u128::from(count) * 1000 / u128::from(whole)
}

/// Returns the number of decimal digits of a number.
pub(crate) fn width_of(number: u64) -> usize {
    match number.checked_ilog10() {
        Some(log) => log as usize + 1,
        None => 1,
    }
}

// Appends a bar for a share, with a `#` for each full 5 percent, and spaces after it.
fn push_bar(text: &mut String, share: u128) -> Result<(), AllocError> {
    let full = (share / 50).min(20) as usize;
    for i in 0..CELLS {
        text.push(if i < full { '#' } else { ' ' })?;
    }
    text.push_str("  ")
}

/// Appends the front of a line: a number, right-aligned to a width, and its share of the whole in percent, with one digit after the point,
/// rounded down; and a bar if `bar`.
pub(crate) fn push_figures(
    text: &mut String,
    count: u64,
    whole: u64,
    width: usize,
    bar: bool,
) -> Result<(), AllocError> {
    let share = share_of(count, whole);
    let (percent, tenth) = (share / 10, share % 10);
    write!(text, " {count:>width$} {percent:>3}.{tenth}%  ")?;
    if bar {
        push_bar(text, share)?;
    }
    Ok(())
}
