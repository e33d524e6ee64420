//! Which samples of a head make the rows of an hour.

ghost use Rattle.std.specs.Prelude.{◌≡◌, IsTrue, ℤ};
ghost use Rattle.head_column.specs.declared.items.Run.{Run as TimeRun};
ghost use Rattle.head_column.specs.Hours.{IsEdge, is_in_hour};
ghost use Rattle.head_column.specs.Runs.{spans};
ghost use Rattle.head_core.specs.Content.{Content as HeadContent};
ghost use Rattle.head_core.specs.Kept.{content_at};
ghost use Rattle.hour_rows.specs.Rows.{rows_of};

use crate::rows::{first_of, last_of};
use head_column::{Hour, Run};

/// Returns the run of an hour's times. Of an hour that has a time which is no `i64`, returns the run of all times.
pub fn times_of(hour: Hour) -> Run
    ensures { (IsEdge hour → ⊥) → (t : ℤ) → IsTrue (is_in_hour hour t) → IsTrue (spans result t) }
{
    if hour.is_edge() {
        return Run::always();
    }
    Run {
        min_time: first_of(hour),
        max_time: last_of(hour),
    }
}

/// Proves that a head which keeps the samples of an hour, and perhaps others, has the rows of the hour that one with all samples has.
pub fn rows_suffice()
    ensures { (k : ℤ) (times : TimeRun) (c : HeadContent) → ((t : ℤ) → IsTrue (is_in_hour k t) → IsTrue (spans times t)) → rows_of k (content_at times c) ≡ rows_of k c }
{}
