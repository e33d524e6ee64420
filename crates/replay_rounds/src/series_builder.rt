//! Builders of series for a replay.

ghost use Rattle.std.specs.Prelude.{◌≡◌};
ghost use Rattle.wal_record.specs.Entries.{entries_of};
ghost use Rattle.head_column.specs.declared.items.Run.{Run as TimeRun};
ghost use Rattle.head_resolver.specs.Taken.{Taken};
ghost use Rattle.head_resolver.specs.Counts.{counts_of};
ghost use Rattle.head_resolver.specs.Resolved.{resolved};
ghost use Rattle.head_core.specs.Applied.{AreCountsOfOutcomes, new_slots, outcomes_after};

use head_column::{Column, GatheringColumn, Item, KeepingColumn, Outcome, Run, Tally};
use head_core::items_make_series;
use head_deal::Builder;
use std::alloc::Global;

/// The builder of a series: what becomes a column of a head, with all samples or those of some times, or its greatest time for a tally.
pub trait SeriesBuilder: Builder<Item = Item, Outcome = Outcome> {
    /// A builder with the value of a new series, of which the samples of these times are kept, if not all are.
    ghost blank: { TimeRun → Self };

    /// Returns the builder of a new series. Allocates nothing.
    fn of_new_series(alloc: Global, times: Run) -> Self
        ensures { Self.value result ≡ Self.value (blank times) };

    /// Returns whether it takes no longer to apply an item than to deal it to a worker.
    fn is_light() -> bool;

    /// Does nothing. Its clause is a law: the outcomes of a log's items are those that the log's counts say.
    fn counts_of_outcomes()
        ensures { (times : TimeRun) (t : Taken) → AreCountsOfOutcomes (outcomes_after Self.after Self.outcome (new_slots (Self.value (blank times)) (entries_of t.kept)) (resolved (entries_of t.kept))) (counts_of t) };
}

impl SeriesBuilder for Column {
    ghost use Rattle.head_column.specs.Histories.{no_history};

    ghost blank = { λ times. record { history = no_history; spare = 0 } };

    fn of_new_series(alloc: Global, _times: Run) -> Column {
        Column::new(alloc)
    }

    fn is_light() -> bool {
        false
    }

    fn counts_of_outcomes() {
        items_make_series();
    }
}

impl SeriesBuilder for GatheringColumn {
    ghost use Rattle.head_column.specs.Histories.{no_history};

    ghost blank = { λ times. no_history };

    fn of_new_series(alloc: Global, _times: Run) -> GatheringColumn {
        GatheringColumn::new(alloc)
    }

    fn is_light() -> bool {
        false
    }

    fn counts_of_outcomes() {
        items_make_series();
    }
}

impl SeriesBuilder for KeepingColumn {
    ghost use Rattle.head_column.specs.Histories.{no_history};
    ghost use Rattle.head_column.specs.Kept.{kept_of};

    ghost blank = { λ times. kept_of times no_history };

    fn of_new_series(alloc: Global, times: Run) -> KeepingColumn {
        KeepingColumn::new(alloc, times)
    }

    fn is_light() -> bool {
        false
    }

    fn counts_of_outcomes() {
        items_make_series();
    }
}

impl SeriesBuilder for Tally {
    ghost use Rattle.std.specs.Prelude.{None};

    ghost blank = { λ times. None };

    fn of_new_series(_alloc: Global, _times: Run) -> Tally {
        Tally::new()
    }

    fn is_light() -> bool {
        true
    }

    fn counts_of_outcomes() {
        items_make_series();
    }
}
