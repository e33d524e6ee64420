//! Replaying the records of a log, sample by sample.

ghost use Rattle.std.specs.Prelude.{◌≡◌, ◌<◌, ◌≤◌, ◌∷◌, [], IfOk, OnOk, ℤ, false};
ghost use Rattle.wal_record.specs.declared.record.WalRecord.TheVariants.{Samples};
ghost use Rattle.head_resolver.specs.Taken.{Taken, taken_after, taken_of};
ghost use Rattle.head_core.specs.Content.{IsContentOf};
ghost use Rattle.head_intervals.specs.Intervals.{most_intervals};
ghost use Rattle.refused_samples.specs.Replaying.{HasNoSamples, IsReplaying, Replays, left_in};

use crate::counting::{RefusedCounts, add_grown};
use crate::replaying::Replaying;
use answers::PrintFault;
use head_core::Head;
use head_intervals::{Intervals, no_counts};
use hw_bytes::Items;
use std::alloc::{AllocError, Global};
use wal_log::{Place, Placed};
use wal_record::{SampleEntry, WalRecord};
use wal_scan::RecordTaker;

// Returns a record of one sample.
fn record_of(alloc: Global, sample: SampleEntry) -> Result<WalRecord, AllocError>
    ensures { IfOk result (λ made. made ≡ Samples (sample ∷ [])) }
{
    Ok(WalRecord::Samples(Items::from_vec(vec![in alloc; sample; 1]?)))
}

// Applies a record. A record for which a head has no room is refused as if memory were short.
fn apply(head: &mut Head, record: &WalRecord) -> Result<(), PrintFault>
    ensures content { (t : Taken) → IsContentOf t head.old.content → OnOk result (IsContentOf (taken_after head.old.content.min_valid t record.now) head.new.content) }
    ensures time { OnOk result (head.new.content.min_valid ≡ head.old.content.min_valid) }
    ensures sound { OnOk result (head.new.failed ≡ false) }
{
    match head.apply(record) {
        Ok(()) => Ok(()),
        Err(_) => Err(PrintFault::Memory),
    }
}

impl Replaying {
    /// Makes one that has replayed nothing, with a head of no records.
    pub(crate) fn new(
        alloc: Global,
        head: Head,
        intervals: &Intervals,
    ) -> Result<Replaying, AllocError>
        requires wide { 0 < intervals.now.width }
        requires few { intervals.now.count ≤ most_intervals }
        ensures { (m : ℤ) → IsContentOf (taken_of m []) head.content → head.content.min_valid ≡ m → IfOk result (IsReplaying intervals.now m []) }
    {
        let stale = no_counts(alloc, intervals)?;
        let unknown = no_counts(alloc, intervals)?;
        Ok(Replaying {
            alloc,
            head,
            intervals: *intervals,
            counts: RefusedCounts { stale, unknown },
        })
    }

    // Replays a record that is not one of samples.
    fn take_other(&mut self, record: &WalRecord) -> Result<(), PrintFault>
        requires { HasNoSamples record.now }
        ensures { OnOk result (Replays self.old (λ m. left_in m record.now) self.new) }
    {
        apply(&mut self.head, record)?;
        Ok(())
    }

    // Replays a sample, and counts it if it is not kept.
    fn take_one(&mut self, sample: SampleEntry) -> Result<(), PrintFault>
        ensures { OnOk result (Replays self.old (λ m. left_in m (Samples (sample ∷ []))) self.new) }
    {
        if self.head.is_failed() {
            return Err(PrintFault::Memory);
        }
        let before = self.head.counts();
        let one = record_of(self.alloc, sample)?;
        apply(&mut self.head, &one)?;
        let after = self.head.counts();
        let RefusedCounts { stale, unknown } = &mut self.counts;
        add_grown(
            stale,
            &self.intervals,
            sample.time,
            before.stale,
            after.stale,
        )?;
        add_grown(
            unknown,
            &self.intervals,
            sample.time,
            before.unknown,
            after.unknown,
        )?;
        Ok(())
    }

    // Replays samples, and counts those that are not kept.
    fn take_all(&mut self, samples: &[SampleEntry]) -> Result<(), PrintFault>
        ensures { OnOk result (Replays self.old (λ m. left_in m (Samples samples.now)) self.new) }
    {
        for sample in samples {
            self.take_one(*sample)?;
        }
        Ok(())
    }
}

impl RecordTaker for Replaying {
    ghost use Rattle.refused_samples.specs.Replaying.{HasReplayed};

    type Refusal = PrintFault;

    ghost took = { HasReplayed };

    fn take(&mut self, record: &Placed) -> Result<(), PrintFault> {
        match &record.content {
            WalRecord::Samples(samples) => self.take_all(samples.as_slice()),
            WalRecord::Series(_) | WalRecord::Stones(_) | WalRecord::Other(_) => {
                self.take_other(&record.content)
            }
        }
    }

    fn take_samples(&mut self, _place: Place, samples: &[SampleEntry]) -> Result<(), PrintFault> {
        self.take_all(samples)
    }
}
