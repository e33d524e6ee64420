//! How many samples each hour of a log has, and how many series there are.

use answers::PrintFault;
use hash_seed::HashSeed;
use head_column::{Hour, Run};
use hour_rows::times_of;
use indexmap::IndexMap;
use std::alloc::{AllocError, Global};
use wal_log::{Place, Placed};
use wal_record::{SampleEntry, SeriesEntry, WalRecord};
use wal_scan::RecordTaker;

/// Counts the samples of each hour, and the series, of the records that it takes.
#[derive(Drop)]
pub(crate) struct HourCounts {
    // How many samples each hour has, by the hour's number, without those that `recent` has.
    samples: IndexMap<i64, u64, HashSeed>,
    // The hour of the last sample, and times of that hour.
    hour: Hour,
    times: Run,
    // How many of the last samples are of that hour.
    recent: u64,
    series: u64,
    labels: u64,
}

// Returns times of an hour, of which this is one.
fn times_with(hour: Hour, time: i64) -> Run {
    if hour.is_edge() {
        return Run {
            min_time: time,
            max_time: time,
        };
    }
    times_of(hour)
}

impl HourCounts {
    /// Makes one that has taken no record.
    pub(crate) fn new(alloc: Global, seed: HashSeed) -> HourCounts {
        HourCounts {
            samples: IndexMap::with_hasher(alloc, seed),
            hour: Hour::of(0),
            times: times_with(Hour::of(0), 0),
            recent: 0,
            series: 0,
            labels: 0,
        }
    }

    // Counts the last samples among those of their hour.
    fn settle(&mut self) -> Result<(), AllocError> {
        if self.recent == 0 {
            return Ok(());
        }
        let hour = self.hour.k();
        let before = self.samples.get(&hour).copied().unwrap_or(0);
        self.samples
            .insert(hour, before.saturating_add(self.recent))?;
        self.recent = 0;
        Ok(())
    }

    fn count(&mut self, time: i64) -> Result<(), AllocError> {
        if !self.times.spans(time) {
            self.settle()?;
            self.hour = Hour::of(time);
            self.times = times_with(self.hour, time);
        }
        self.recent = self.recent.saturating_add(1);
        Ok(())
    }

    fn count_all(&mut self, samples: &[SampleEntry]) -> Result<(), AllocError> {
        for sample in samples {
            self.count(sample.time)?;
        }
        Ok(())
    }

    fn count_series(&mut self, entries: &[SeriesEntry]) {
        self.series = self.series.saturating_add(entries.len() as u64);
        for entry in entries {
            self.labels = self.labels.saturating_add(entry.labels.len() as u64);
        }
    }

    /// Returns how many series records there are, and how many labels they have together.
    pub(crate) fn series(&self) -> (u64, u64) {
        (self.series, self.labels)
    }

    /// Returns the number of each hour, ascending, with how many samples it has.
    pub(crate) fn into_hours(self) -> Result<IndexMap<i64, u64, HashSeed>, AllocError> {
        let mut counts = self;
        counts.settle()?;
        counts.samples.sort_keys()?;
        Ok(counts.samples)
    }
}

impl RecordTaker for HourCounts {
    ghost use Rattle.std.specs.Prelude.{⊤};

    type Refusal = PrintFault;

    // nothing is said of what it counts: no result depends on it
    ghost took = { λ first records new. ⊤ };

    fn take(&mut self, record: &Placed) -> Result<(), PrintFault> {
        match &record.content {
            WalRecord::Series(entries) => self.count_series(entries.as_slice()),
            WalRecord::Samples(entries) => self.count_all(entries.as_slice())?,
            WalRecord::Stones(_) | WalRecord::Other(_) => {}
        }
        Ok(())
    }

    fn take_samples(&mut self, _place: Place, samples: &[SampleEntry]) -> Result<(), PrintFault> {
        self.count_all(samples)?;
        Ok(())
    }
}
