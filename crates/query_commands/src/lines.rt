//! The text of a dump.

ghost use Rattle.std.specs.Prelude.{◌≡◌, ◌<◌, ◌∷◌, [], IfOk, OnOk, false, length, string_bytes};
ghost use Rattle.head_core.specs.Heads.{AreSlots, history_at};
ghost use Rattle.head_series.specs.Table.{labels_at};
ghost use Rattle.answers.specs.Outputs.{MakesText};
ghost use Rattle.query_commands.specs.Dumps.{AppendsLine, AppendsValue, IsDump, MakesLines, labelled, labels_text};
ghost use Rattle.query_commands.specs.Selections.{shown_of};

use crate::selection::{Selection, shown_samples};
use answers::{Output, PrintFault, print_long, push_pair};
use float_text::push_float;
use head_column::Sample;
use head_core::{Head, Slot};
use std::alloc::{AllocError, Global};

// Returns the labels of a series as they are printed, a space after each.
fn labels_of(alloc: Global, head: &Head, slot: Slot) -> Result<String, AllocError>
    requires sound { head.now.failed ≡ false }
    requires slot { slot < length head.now.content.table.series }
    ensures { IfOk result (λ text. string_bytes text ≡ labels_text (labels_at head.now.content.table slot)) }
{
    let mut text = String::new(alloc);
    for i in 0..head.pairs(slot) {
        let (name, value) = head.pair(slot, i);
        push_pair(&mut text, name, value)?;
        text.push(' ')?;
    }
    Ok(text)
}

// Appends a value, as a floating point number or as a whole number.
fn push_value(text: &mut String, value: i64, floats: bool) -> Result<(), AllocError>
    ensures { OnOk result (AppendsValue floats value (string_bytes text.old) (string_bytes text.new)) }
{
    if floats {
        push_float(text, value)
    } else {
        write!(text, "{value}")
    }
}

// Appends the line of a sample, after the labels of its series.
fn push_line(
    text: &mut String,
    labels: &str,
    sample: &Sample,
    floats: bool,
) -> Result<(), AllocError>
    ensures { OnOk result (AppendsLine floats labels.now sample.now (string_bytes text.old) (string_bytes text.new)) }
{
    let Sample { time, value } = *sample;
    text.push_str(labels)?;
    write!(text, "{time} ")?;
    push_value(text, value, floats)?;
    text.push('\n')
}

// Prints the line of a sample, after the labels of its series, or appends it to the text that waits to be printed.
fn print_line<O: Output>(
    out: &mut O,
    text: &mut String,
    labels: &str,
    sample: &Sample,
    floats: bool,
) -> Result<(), PrintFault>
    ensures { OnOk result (MakesLines O.printed floats ((labels.now, sample.now) ∷ []) out.old (string_bytes text.old) out.new (string_bytes text.new)) }
{
    push_line(text, labels, sample, floats)?;
    print_long(out, text)?;
    Ok(())
}

// Prints a line for each sample, after the labels of their series.
fn print_samples<O: Output>(
    out: &mut O,
    text: &mut String,
    labels: &str,
    samples: &[Sample],
    floats: bool,
) -> Result<(), PrintFault>
    ensures { OnOk result (MakesLines O.printed floats (labelled labels.now samples.now) out.old (string_bytes text.old) out.new (string_bytes text.new)) }
{
    for sample in samples {
        print_line(out, text, labels, sample, floats)?;
    }
    Ok(())
}

// Prints a line for each sample that the selection shows of a series.
fn print_series<O: Output>(
    alloc: Global,
    out: &mut O,
    text: &mut String,
    head: &Head,
    slot: Slot,
    selection: &Selection,
    floats: bool,
) -> Result<(), PrintFault>
    requires sound { head.now.failed ≡ false }
    requires slot { slot < length head.now.content.table.series }
    ensures { OnOk result (MakesLines O.printed floats (labelled (labels_text (labels_at head.now.content.table slot)) (shown_of selection.now (history_at head.now.content slot)))
        out.old (string_bytes text.old) out.new (string_bytes text.new)) }
{
    let labels = labels_of(alloc, head, slot)?;
    let samples = shown_samples(head, slot, selection)?;
    print_samples(out, text, &labels, &samples, floats)
}

/// Prints a line for each sample that a selection shows of these series, one series after another: the labels of its series, each with a
/// space after it, its time in milliseconds, a space and its value. The value is printed as a floating point number if `floats`, else as
/// a whole number. Returns the end of the text, which is not printed.
pub(crate) fn print_dump<O: Output>(
    alloc: Global,
    out: &mut O,
    head: &Head,
    slots: &[Slot],
    selection: &Selection,
    floats: bool,
) -> Result<String, PrintFault>
    requires sound { head.now.failed ≡ false }
    requires slots { AreSlots head.now.content slots.now }
    ensures { IfOk result (λ rest. MakesText O.printed out.old out.new (string_bytes rest) (IsDump floats selection.now head.now.content slots.now)) }
{
    let mut text = String::new(alloc);
    for slot in slots {
        print_series(alloc, out, &mut text, head, *slot, selection, floats)?;
    }
    Ok(text)
}
