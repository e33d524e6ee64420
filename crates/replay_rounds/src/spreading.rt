//! Spreading by workers: each resolves the records of some pages of a window, whose bindings were all made ahead, and keeps their items in a
//! list for each worker of a deal.

ghost use Rattle.std.specs.Prelude.{◌≡◌, ◌<◌, ◌≤◌, ◌+◌, ◌++◌, ℕ, IfOk, OnOk, List, false, length, map};
ghost use Rattle.std.proofs.Props.{props};
ghost use Rattle.wal_record.specs.declared.record.WalRecord.{WalRecord as LogRecord};
ghost use Rattle.wal_log.specs.Log.{contents};
ghost use Rattle.head_series.specs.Table.{slot_at};
ghost use Rattle.head_resolver.specs.Ahead.{AreSpreadAt};
ghost use Rattle.head_resolver.specs.Changes.{slot_before, AreBelow};
ghost use Rattle.replay_rounds.specs.Records.{records_of};
ghost use Rattle.replay_rounds.specs.Windows.{IsFresh};

use crew::{Gate, Job};
use hash_seed::HashSeed;
use head_column::Item;
use head_core::{Changes, Counts, Resolver};
use head_deal::{Seats, Spare, Spread};
use std::alloc::{AllocError, Global};
use std::mem;
use wal_log::{Items, Placed};
use wal_scan::{PageRecords, Room, SampleRecords};

/// What some records make: their items, spread, what they add to the counts, and the lists that are left of them.
#[derive(Drop)]
pub struct Spreading {
    /// The items, a list for each worker of a deal.
    pub spread: Spread<Item>,
    /// What the records add to the counts.
    pub counts: Counts,
    /// The lists that are left of the records.
    pub room: Room,
}

impl Spreading {
    // Returns what no records make, in the memory of spare lists, if there are any.
    fn new(
        alloc: Global,
        seed: HashSeed,
        seats: &Seats<'_>,
        spare: Option<Spare<Item>>,
    ) -> Result<Spreading, AllocError>
        ensures { IfOk result (IsFresh seats.now.workers) }
    {
        let spread = match spare {
            Some(spare) => Spread::in_room(alloc, seats, spare)?,
            None => Spread::new(alloc, seats)?,
        };
        Ok(Spreading {
            spread,
            counts: Counts::new(),
            room: Room::new(alloc, seed),
        })
    }

    // Adds records, the first of which is at a place of the window, and returns the place after them. Returns an error if
    // out of memory.
    fn add_records(
        &mut self,
        alloc: Global,
        resolver: &Resolver,
        changes: &Changes,
        seats: &Seats<'_>,
        place: u64,
        records: Items<Placed>,
    ) -> Result<u64, AllocError>
        requires sound { resolver.now.failed ≡ false }
        requires slots { length resolver.now.table.series ≤ seats.now.slots }
        requires below { AreBelow seats.now.slots changes.now }
        requires workers { seats.now.workers ≡ self.old.spread.workers }
        ensures spread { (first : ℕ) (rs : List LogRecord) → AreSpreadAt resolver.now.min_valid (slot_before changes.now (slot_at resolver.now.table)) first rs self.old.spread.items self.old.counts →
            place ≡ first + length rs → OnOk result (AreSpreadAt resolver.now.min_valid (slot_before changes.now (slot_at resolver.now.table)) first (rs ++ contents records) self.new.spread.items self.new.counts) }
        ensures place { IfOk result (λ behind. behind ≡ place + length records) }
        ensures workers { self.new.spread.workers ≡ self.old.spread.workers }
    {
        let mut place = place;
        for placed in records.into_vec() {
            let record = &placed.content;
            // a count of entries that are in memory is below its limit
            let Ok(()) = resolver.spread_at(
                record,
                place,
                changes,
                seats,
                &mut self.spread,
                &mut self.counts,
            ) else {
                return Err(AllocError);
            };
            place = place.checked_add(1).ok_or(AllocError)?;
            self.room.keep(alloc, placed.content);
        }
        Ok(place)
    }

    // Adds records of samples, as `add_records` does.
    fn add_samples(
        &mut self,
        resolver: &Resolver,
        changes: &Changes,
        seats: &Seats<'_>,
        place: u64,
        records: SampleRecords,
    ) -> Result<u64, AllocError>
        requires sound { resolver.now.failed ≡ false }
        requires slots { length resolver.now.table.series ≤ seats.now.slots }
        requires below { AreBelow seats.now.slots changes.now }
        requires workers { seats.now.workers ≡ self.old.spread.workers }
        ensures spread { (first : ℕ) (rs : List LogRecord) → AreSpreadAt resolver.now.min_valid (slot_before changes.now (slot_at resolver.now.table)) first rs self.old.spread.items self.old.counts →
            place ≡ first + length rs → OnOk result (AreSpreadAt resolver.now.min_valid (slot_before changes.now (slot_at resolver.now.table)) first (rs ++ contents records) self.new.spread.items self.new.counts) }
        ensures place { IfOk result (λ behind. behind ≡ place + length records) }
        ensures workers { self.new.spread.workers ≡ self.old.spread.workers }
    {
        let mut place = place;
        let mut lists = records.lists();
        while let Some(samples) = lists.next() {
            // a count of entries that are in memory is below its limit
            let Ok(()) = resolver.spread_samples_at(
                samples,
                place,
                changes,
                seats,
                &mut self.spread,
                &mut self.counts,
            ) else {
                return Err(AllocError);
            };
            place = place.checked_add(1).ok_or(AllocError)?;
        }
        self.room.keep_samples(records);
        Ok(place)
    }

    // Adds the records of a page, as `add_records` does.
    fn add_page(
        &mut self,
        alloc: Global,
        resolver: &Resolver,
        changes: &Changes,
        seats: &Seats<'_>,
        place: u64,
        page: PageRecords,
    ) -> Result<u64, AllocError>
        requires sound { resolver.now.failed ≡ false }
        requires slots { length resolver.now.table.series ≤ seats.now.slots }
        requires below { AreBelow seats.now.slots changes.now }
        requires workers { seats.now.workers ≡ self.old.spread.workers }
        ensures spread { (first : ℕ) (rs : List LogRecord) → AreSpreadAt resolver.now.min_valid (slot_before changes.now (slot_at resolver.now.table)) first rs self.old.spread.items self.old.counts →
            place ≡ first + length rs → OnOk result (AreSpreadAt resolver.now.min_valid (slot_before changes.now (slot_at resolver.now.table)) first (rs ++ contents page) self.new.spread.items self.new.counts) }
        ensures place { IfOk result (λ behind. behind ≡ place + length page) }
        ensures workers { self.new.spread.workers ≡ self.old.spread.workers }
    {
        let (before, samples, behind) = page.into_parts();
        let first = self.add_records(alloc, resolver, changes, seats, place, before)?;
        let next = self.add_samples(resolver, changes, seats, first, samples)?;
        self.add_records(alloc, resolver, changes, seats, next, behind)
    }

    // Adds the records of more pages, as `add_page` does. Returns an error if out of memory.
    fn add_pages(
        &mut self,
        alloc: Global,
        resolver: &Resolver,
        changes: &Changes,
        seats: &Seats<'_>,
        place: u64,
        pages: Vec<PageRecords>,
    ) -> Result<(), AllocError>
        requires sound { resolver.now.failed ≡ false }
        requires slots { length resolver.now.table.series ≤ seats.now.slots }
        requires below { AreBelow seats.now.slots changes.now }
        requires workers { seats.now.workers ≡ self.old.spread.workers }
        ensures spread { (first : ℕ) (rs : List LogRecord) → AreSpreadAt resolver.now.min_valid (slot_before changes.now (slot_at resolver.now.table)) first rs self.old.spread.items self.old.counts →
            place ≡ first + length rs → OnOk result (AreSpreadAt resolver.now.min_valid (slot_before changes.now (slot_at resolver.now.table)) first (rs ++ contents (records_of pages.items)) self.new.spread.items self.new.counts) }
        ensures workers { self.new.spread.workers ≡ self.old.spread.workers }
    {
        let mut place = place;
        for page in pages {
            place = self.add_page(alloc, resolver, changes, seats, place, page)?;
        }
        Ok(())
    }
}

/// The job of one worker: pages of records, the place in the window of the first of them, and what those before them made.
#[derive(Drop)]
pub(crate) struct SpreadJob<'t> {
    alloc: Global,
    resolver: &'t Resolver,
    changes: &'t Changes,
    seats: &'t Seats<'t>,
    place: u64,
    pages: Vec<PageRecords>,
    made: Spreading,
    ghost ready: { (resolver.now.failed ≡ false) × (length resolver.now.table.series ≤ seats.now.slots) × AreBelow seats.now.slots changes.now × (seats.now.workers ≡ made.spread.workers) } by { Prim.hlevel props },
}

impl<'t> Job for SpreadJob<'t> {
    ghost use Rattle.replay_rounds.specs.Shares.{HasSpread};

    ghost done = { λ old new. HasSpread old new };

    fn enter<G: Gate>(_gate: &G, _worker: usize, _turn: u64) {}

    fn finish(&mut self) -> Result<(), AllocError> {
        let pages = mem::replace(&mut self.pages, Vec::new(self.alloc));
        self.made.add_pages(
            self.alloc,
            self.resolver,
            self.changes,
            self.seats,
            self.place,
            pages,
        )
    }
}

/// Returns a job that has spread nothing.
pub(crate) fn new_job<'t>(
    alloc: Global,
    resolver: &'t Resolver,
    changes: &'t Changes,
    seats: &'t Seats<'t>,
    spare: Option<Spare<Item>>,
    place: u64,
    pages: Vec<PageRecords>,
) -> Result<SpreadJob<'t>, AllocError>
    requires sound { resolver.now.failed ≡ false }
    requires slots { length resolver.now.table.series ≤ seats.now.slots }
    requires below { AreBelow seats.now.slots changes.now }
    ensures fresh { IfOk result (λ job. (job.resolver.now ≡ resolver.now) × (job.changes.now ≡ changes.now) × IsFresh seats.now.workers job.made) }
    ensures place { IfOk result (λ job. job.place ≡ place) }
    ensures pages { IfOk result (λ job. job.pages.items ≡ pages.items) }
{
    Ok(SpreadJob {
        alloc,
        resolver,
        changes,
        seats,
        place,
        pages,
        made: Spreading::new(alloc, resolver.table().seed(), seats, spare)?,
    })
}

/// Returns what the records of each job made.
pub(crate) fn all_made(
    alloc: Global,
    jobs: Vec<SpreadJob<'_>>,
) -> Result<Vec<Spreading>, AllocError>
    ensures { IfOk result (λ all. all.items ≡ map (λ job. job.made) jobs.entry.items) }
{
    let mut all = Vec::with_capacity(alloc, jobs.len())?;
    for job in jobs {
        let SpreadJob {
            alloc: _,
            resolver: _,
            changes: _,
            seats: _,
            place: _,
            pages: _pages,
            made,
        } = job;
        all.push(made)?;
    }
    Ok(all)
}
