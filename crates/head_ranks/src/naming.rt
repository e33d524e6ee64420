//! Names counted by their values, and the labels of one name.

ghost use Rattle.std.specs.Prelude.{◌≡◌, ◌++◌, ◌∷◌, [], filter, IfOk, List, OnOk};
ghost use Rattle.wal_record.specs.Labels.{same_text};
ghost use Rattle.head_core.specs.Content.{Content};
ghost use Rattle.head_ranks.specs.declared.counts.LabelCount.{LabelCount as Counted};
ghost use Rattle.head_ranks.specs.Counts.{AreNameCounts, metric_name};
ghost use Rattle.head_ranks.specs.Counting.{AreNamed};
ghost use Rattle.head_ranks.specs.Ranks.{AreLabelCounts, AreValueCounts};

use crate::counts::{LabelCount, NameCount};
use hash_seed::HashSeed;
use indexmap::IndexSet;
use std::alloc::{AllocError, Global};

// The name of the label whose value is the name of a series' metric.
const METRIC_NAME: &[u8] = b"__name__";

// The counts of the names so far, and the names that they are of, both in the order of first sight.
struct Namer<'a> {
    seen: IndexSet<&'a [u8], HashSeed>,
    counts: Vec<NameCount<'a>>,
}

// Written out, so that a function that drops one has a call in its proof, and not a copy of this body.
impl Drop for Namer<'_> {
    fn drop(self) {
        let Namer {
            seen: _seen,
            counts: _counts,
        } = self;
    }
}

impl<'a> Namer<'a> {
    // Makes the namer of no labels, with hashes by a seed.
    fn new(alloc: Global, seed: HashSeed) -> Namer<'a>
        ensures { AreNamed [] result }
    {
        Namer {
            seen: IndexSet::with_hasher(alloc, seed),
            counts: Vec::new(alloc),
        }
    }

    // Counts a label. Returns an error if out of memory, or if there is no such number.
    fn add(&mut self, label: &LabelCount<'a>) -> Result<(), AllocError>
        ensures { (before : List Counted) → AreNamed before self.old → OnOk result (AreNamed (before ++ label.now ∷ []) self.new) }
    {
        let (at, _) = self.seen.insert_full(label.name)?;
        if at < self.counts.len() {
            self.counts[at].add()
        } else {
            self.counts.push(NameCount {
                name: label.name,
                values: 1,
            })?;
            Ok(())
        }
    }

    // Returns the counts.
    fn into_counts(self) -> Vec<NameCount<'a>>
        ensures { result ≡ self.entry.counts }
    {
        let Namer {
            seen: _seen,
            counts,
        } = self;
        counts
    }
}

/// Returns each name of the labels once, in the order of first sight, with the number of the labels that have it: of the labels of
/// `label_counts` the number of the name's values. The names are found by hashes of the seed. Returns an error if out of memory.
pub fn name_counts<'a>(
    alloc: Global,
    seed: HashSeed,
    labels: &[LabelCount<'a>],
) -> Result<Vec<NameCount<'a>>, AllocError>
    ensures counts { IfOk result (λ names. AreNameCounts labels.now names.items) }
    ensures values { (c : Content) → AreLabelCounts c labels.now → IfOk result (λ names. AreValueCounts c names.items) }
{
    let mut namer = Namer::new(alloc, seed);
    for label in labels {
        namer.add(label)?;
    }
    Ok(namer.into_counts())
}

/// Returns the labels of the name `__name__`, in their order: one for each metric. Returns an error if out of memory.
pub fn metrics<'a>(
    alloc: Global,
    labels: &[LabelCount<'a>],
) -> Result<Vec<LabelCount<'a>>, AllocError>
    ensures { IfOk result (λ metrics. metrics.items ≡ filter (λ l. same_text l.name.now metric_name) labels.now) }
{
    let mut metrics = Vec::new(alloc);
    for label in labels {
        if label.name == METRIC_NAME {
            metrics.push(*label)?;
        }
    }
    Ok(metrics)
}
