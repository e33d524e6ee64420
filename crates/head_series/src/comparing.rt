//! Comparison of label sets that are kept as numbers of texts.

ghost use Rattle.std.specs.Prelude.{◌≡◌, ◌<◌, [], length, slice_index_or};
ghost use Rattle.std.specs.Cmp.Lexicographic.{slice_cmp};
ghost use Rattle.std.specs.Ordering.{nat_cmp};
ghost use Rattle.wal_record.specs.Labels.{compare_label, compare_labels};
ghost use Rattle.head_series.specs.Rows.{labels_in, named, AreWithin};

use crate::interner::Interner;
use std::cmp::Ordering;

// Compares two texts by their numbers. Reads the texts only if the numbers differ.
fn compare_texts(texts: &Interner, first: u32, second: u32) -> Ordering
    requires first { first < length texts.now.texts }
    requires second { second < length texts.now.texts }
    ensures { result ≡ slice_cmp nat_cmp (slice_index_or texts.now.texts first []) (slice_index_or texts.now.texts second []) }
{
    if first == second {
        return Ordering::Equal;
    }
    texts.bytes(first).cmp(texts.bytes(second))
}

// Compares two labels.
fn compare_pairs(texts: &Interner, first: (u32, u32), second: (u32, u32)) -> Ordering
    requires first { (first.0 < length texts.now.texts) × (first.1 < length texts.now.texts) }
    requires second { (second.0 < length texts.now.texts) × (second.1 < length texts.now.texts) }
    ensures { result ≡ compare_label (named texts.now.texts first) (named texts.now.texts second) }
{
    match compare_texts(texts, first.0, second.0) {
        Ordering::Equal => compare_texts(texts, first.1, second.1),
        order => order,
    }
}

// Compares two label sets.
pub(crate) fn compare_numbers(
    texts: &Interner,
    first: &[(u32, u32)],
    second: &[(u32, u32)],
) -> Ordering
    requires first { AreWithin (length texts.now.texts) first.now }
    requires second { AreWithin (length texts.now.texts) second.now }
    ensures { result ≡ compare_labels (labels_in texts.now.texts first.now) (labels_in texts.now.texts second.now) }
{
    for i in 0..first.len() {
        if i >= second.len() {
            return Ordering::Greater;
        }
        match compare_pairs(texts, first[i], second[i]) {
            Ordering::Equal => {}
            order => return order,
        }
    }
    if first.len() < second.len() {
        Ordering::Less
    } else {
        Ordering::Equal
    }
}
