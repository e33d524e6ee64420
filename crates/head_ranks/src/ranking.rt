//! Ranks: counts sorted, the greatest first.

ghost use Rattle.std.specs.Prelude.{◌≡◌};
ghost use Rattle.std.specs.List.Sorted.{IsPermutation, IsSorted};
ghost use Rattle.head_ranks.specs.Ranked.{compare_samples, compare_series, compare_text, compare_values};

use crate::counts::{LabelCount, NameCount};
use std::cmp::Ordering;

// Compares two labels: by name, and then by value.
fn compare_labels(one: &LabelCount, other: &LabelCount) -> Ordering
    ensures { result ≡ compare_text one.now other.now }
{
    match one.name.cmp(other.name) {
        Ordering::Equal => one.value.cmp(other.value),
        order => order,
    }
}

// Compares two labels by their series, the greater number first, and then by name and value.
fn by_series(one: &LabelCount, other: &LabelCount) -> Ordering
    ensures { result ≡ compare_series one.now other.now }
{
    match other.series.cmp(&one.series) {
        Ordering::Equal => compare_labels(one, other),
        order => order,
    }
}

// Compares two labels by their samples, the greater number first, and then by name and value.
fn by_samples(one: &LabelCount, other: &LabelCount) -> Ordering
    ensures { result ≡ compare_samples one.now other.now }
{
    match other.samples.cmp(&one.samples) {
        Ordering::Equal => compare_labels(one, other),
        order => order,
    }
}

// Compares two names by their values, the greater number first, and then by name.
fn by_values(one: &NameCount, other: &NameCount) -> Ordering
    ensures { result ≡ compare_values one.now other.now }
{
    match other.values.cmp(&one.values) {
        Ordering::Equal => one.name.cmp(other.name),
        order => order,
    }
}

/// Sorts labels by their series, the greatest number first; for equal numbers by name, and then by value, byte by byte.
pub fn rank_by_series(labels: &mut [LabelCount])
    ensures permutation { IsPermutation labels.old labels.new }
    ensures sorted { IsSorted compare_series labels.new }
{
    labels.sort_unstable_by(by_series)
}

/// Sorts labels by their samples, the greatest number first; for equal numbers by name, and then by value, byte by byte.
pub fn rank_by_samples(labels: &mut [LabelCount])
    ensures permutation { IsPermutation labels.old labels.new }
    ensures sorted { IsSorted compare_samples labels.new }
{
    labels.sort_unstable_by(by_samples)
}

/// Sorts names by the number of their values, the greatest first; for equal numbers by name, byte by byte.
pub fn rank_names(names: &mut [NameCount])
    ensures permutation { IsPermutation names.old names.new }
    ensures sorted { IsSorted compare_values names.new }
{
    names.sort_unstable_by(by_values)
}
