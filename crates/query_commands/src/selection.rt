//! Which samples of a series are shown.

ghost use Rattle.std.specs.Prelude.{◌≡◌, ◌<◌, IfOk, false, filter, int_lt, length};
ghost use Rattle.head_column.specs.Runs.{AreApart, span_any};
ghost use Rattle.head_core.specs.Heads.{history_at};
ghost use Rattle.query_commands.specs.Selections.{is_shown, shown_of, times_of};

use head_column::{Run, Sample};
use head_core::{Head, Slot};
use std::alloc::AllocError;

/// Which samples are shown: those whose time is from `from` to `to`, in milliseconds, both included.
#[derive(Clone, Copy, Debug, PartialEq, Eq)]
pub struct Selection {
    pub from: i64,
    pub to: i64,
    /// Whether samples that deletions hide are shown too.
    pub with_hidden: bool,
}

// Returns whether one of the runs has the time, by binary search.
fn is_hidden(runs: &[Run], time: i64) -> bool
    ensures { AreApart runs.now → result ≡ span_any runs.now time }
{
    let over = runs.partition_point(
        |run: &Run| -> bool
            ensures { result ≡ int_lt run.now.max_time time }
        { run.max_time < time },
    );
    match runs.get(over) {
        Some(run) => run.min_time <= time,
        None => false,
    }
}

impl Selection {
    /// Returns the times of the samples that can be shown.
    pub fn times(&self) -> Run
        ensures { result ≡ times_of self.now }
    {
        Run {
            min_time: self.from,
            max_time: self.to,
        }
    }

    // Returns whether a sample of a series with these runs of hidden times is shown.
    fn shows(&self, hidden: &[Run], sample: &Sample) -> bool
        ensures { AreApart hidden.now → result ≡ is_shown self.now hidden.now sample.now }
    {
        self.from <= sample.time
            && sample.time <= self.to
            && (self.with_hidden || !is_hidden(hidden, sample.time))
    }
}

// Drops the samples of a series with these runs of hidden times that are not shown.
fn keep_shown(samples: &mut Vec<Sample>, hidden: &[Run], selection: &Selection)
    requires { AreApart hidden.now }
    ensures { samples.new.items ≡ filter (is_shown selection.now hidden.now) samples.old.items }
{
    samples.retain(|sample| selection.shows(hidden, sample));
}

/// Returns the samples of a series that a selection shows, in ascending order of time: those whose time is from `from` to `to`, without
/// those that deletions hide unless `with_hidden`. Returns an error if out of memory.
pub fn shown_samples(
    head: &Head,
    slot: Slot,
    selection: &Selection,
) -> Result<Vec<Sample>, AllocError>
    requires sound { head.now.failed ≡ false }
    requires slot { slot < length head.now.content.table.series }
    ensures { IfOk result (λ samples. samples.items ≡ shown_of selection.now (history_at head.now.content slot)) }
{
    let hidden = head.hidden(slot);
    let mut samples = head.samples(slot)?;
    keep_shown(&mut samples, hidden, selection);
    Ok(samples)
}
