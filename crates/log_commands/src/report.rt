//! The texts that the commands on a log print.

ghost use Rattle.std.specs.Prelude.{◌≡◌, ◌<◌, ◌∷◌, ◌++◌, IfOk, OnOk, false, length, string_bytes};
ghost use Rattle.std.specs.List.{flat_map};
ghost use Rattle.head_core.specs.Heads.{AreSlots};
ghost use Rattle.head_series.specs.Table.{labels_at};
ghost use Rattle.log_commands.specs.Printed.{counts_text, damage_line, series_line};
ghost use Rattle.answers.specs.Spellings.{pair_text};

use answers::{DamageLine, Flaw, push_numbers, push_pair};
use head_core::{Counts, Head, Slot};
use std::alloc::{AllocError, Global};

/// Returns a line for each count of a log, and one for its number of series.
pub fn counts_text(alloc: Global, counts: &Counts, series: u64) -> Result<String, AllocError>
    ensures { IfOk result (λ text. string_bytes text ≡ counts_text counts.now series) }
{
    let mut text = String::new(alloc);
    push_numbers(
        &mut text,
        &[
            ("series_records", counts.series_records),
            ("sample_records", counts.sample_records),
            ("stone_records", counts.stone_records),
            ("skipped_records", counts.skipped_records),
            ("series_entries", counts.series_entries),
            ("series", series),
            ("accepted", counts.accepted),
            ("stale", counts.stale),
            ("unknown", counts.unknown),
            ("hiding", counts.hiding),
            ("empty_stones", counts.empty_stones),
            ("unknown_stones", counts.unknown_stones),
            ("expired_samples", counts.expired_samples),
            ("expired_stones", counts.expired_stones),
        ],
    )?;
    Ok(text)
}

// Appends labels, each with a space before it.
fn push_labels(text: &mut String, head: &Head, slot: Slot) -> Result<(), AllocError>
    requires sound { head.now.failed ≡ false }
    requires slot { slot < length head.now.content.table.series }
    ensures { OnOk result (string_bytes text.new ≡ string_bytes text.old ++ flat_map (λ l. 32 ∷ pair_text l.name l.value) (labels_at head.now.content.table slot)) }
{
    for i in 0..head.pairs(slot) {
        let (name, value) = head.pair(slot, i);
        text.push(' ')?;
        push_pair(text, name, value)?;
    }
    Ok(())
}

// Appends the line of a series: its slot, its number of samples and its labels.
fn push_series(text: &mut String, head: &Head, slot: Slot) -> Result<(), AllocError>
    requires sound { head.now.failed ≡ false }
    requires slot { slot < length head.now.content.table.series }
    ensures { OnOk result (string_bytes text.new ≡ string_bytes text.old ++ series_line head.now.content slot) }
{
    let (number, samples) = (slot.index(), head.sample_count(slot));
    write!(text, "{number} {samples}")?;
    push_labels(text, head, slot)?;
    text.push('\n')
}

/// Returns a line for each of these series of a head.
pub fn series_text(alloc: Global, head: &Head, slots: &[Slot]) -> Result<String, AllocError>
    requires sound { head.now.failed ≡ false }
    requires slots { AreSlots head.now.content slots.now }
    ensures { IfOk result (λ text. string_bytes text ≡ flat_map (series_line head.now.content) slots.now) }
{
    let mut text = String::new(alloc);
    for slot in slots {
        push_series(&mut text, head, *slot)?;
    }
    Ok(text)
}

/// Appends the line that reports what is wrong with a log to a text.
pub fn push_damage(text: &mut String, flaw: Option<Flaw>) -> Result<(), AllocError>
    ensures { OnOk result (string_bytes text.new ≡ string_bytes text.old ++ damage_line flaw) }
{
    match flaw {
        None => text.push_str("damage none\n"),
        Some(Flaw::Damage(damage)) => {
            let line = DamageLine(damage);
            writeln!(text, "{line}")
        }
        Some(Flaw::Lost(parts)) => push_numbers(text, &[("lost", parts)]),
    }
}
