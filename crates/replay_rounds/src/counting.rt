//! Counting outcomes.

ghost use Rattle.std.specs.Prelude.{◌++◌, ◌∷◌, [], List, OnErr, OnOk};
ghost use Rattle.std.specs.List.{flat_map};
ghost use Rattle.head_deal.specs.Endings.{outcomes};
ghost use Rattle.head_column.specs.declared.items.Outcome.{Outcome as AnOutcome};
ghost use Rattle.head_resolver.specs.declared.counts.Counts.{Counts as TheCounts};
ghost use Rattle.head_resolver.specs.Limits.{AreCountsWithin};
ghost use Rattle.head_core.specs.Applied.{AreCountsOfOutcomes};

use head_column::{Item, Outcome};
use head_core::{CountFull, Counts};
use head_deal::{Builder, Part};

/// Adds an outcome to the counts.
pub(crate) fn count_outcome(counts: &mut Counts, outcome: Outcome) -> Result<(), CountFull>
    ensures counted { (before : List AnOutcome) → AreCountsOfOutcomes before counts.old → OnOk result (AreCountsOfOutcomes (before ++ outcome ∷ []) counts.new) }
    ensures full { OnErr result ((before more : List AnOutcome) (c : TheCounts) → AreCountsOfOutcomes before counts.old →
        AreCountsOfOutcomes ((before ++ outcome ∷ []) ++ more) c → AreCountsWithin c → ⊥) }
{
    counts.add_outcome(outcome)
}

/// Adds outcomes to the counts.
pub(crate) fn count_outcomes(counts: &mut Counts, outcomes: &[Outcome]) -> Result<(), CountFull>
    ensures counted { (before : List AnOutcome) → AreCountsOfOutcomes before counts.old → OnOk result (AreCountsOfOutcomes (before ++ outcomes.now) counts.new) }
    ensures full { OnErr result ((before more : List AnOutcome) (c : TheCounts) → AreCountsOfOutcomes before counts.old →
        AreCountsOfOutcomes ((before ++ outcomes.now) ++ more) c → AreCountsWithin c → ⊥) }
{
    for outcome in outcomes {
        let outcome = *outcome;
        counts.add_outcome(outcome)?;
    }
    Ok(())
}

/// Adds the outcomes of parts to the counts.
pub(crate) fn count_parts<B>(counts: &mut Counts, parts: &[Part<B>]) -> Result<(), CountFull>
where
    B: Builder<Item = Item, Outcome = Outcome>,
    ensures counted { (before : List AnOutcome) → AreCountsOfOutcomes before counts.old → OnOk result (AreCountsOfOutcomes (before ++ flat_map (λ p. outcomes p.jobs) parts.now) counts.new) }
    ensures full { OnErr result ((before more : List AnOutcome) (c : TheCounts) → AreCountsOfOutcomes before counts.old →
        AreCountsOfOutcomes ((before ++ flat_map (λ p. outcomes p.jobs) parts.now) ++ more) c → AreCountsWithin c → ⊥) }
{
    for part in parts {
        count_outcomes(counts, part.outcomes())?;
    }
    Ok(())
}
