//! Postings, made by workers.

ghost use Rattle.std.specs.Prelude.{◌≡◌, ◌+◌, ◌<◌, ◌≤◌, ℕ, List, IfOk, vec_len};
ghost use Rattle.head_postings.specs.Postings.{IsPostingsOf, Labels};
ghost use Rattle.head_core.specs.Content.{by_slot};
ghost use Rattle.head_replay.specs.Partial.{belonging, AreNumbered};

use crew::{Crew, CrewFault, Gate, Job};
use head_deal::Workers;
use head_postings::Postings;
use head_series::{SeriesTable, Slot};
use std::alloc::{AllocError, Global};
use std::sync::Wait;
use std::thread::Threads;

// Returns the postings of a worker's slots, which are its number modulo the number of workers.
fn partial(
    alloc: Global,
    worker: usize,
    workers: Workers,
    table: &SeriesTable,
) -> Result<Postings, AllocError>
    requires { worker < workers.number }
    ensures postings { IfOk result (λ postings. IsPostingsOf (belonging workers.number worker (worker + 1) (by_slot table.now.series)) postings) }
{
    let mut postings = Postings::with_seed(alloc, table.seed());
    let mut number = worker;
    while number < table.len() {
        let slot = Slot::new(number as u32);
        postings.add(slot, &table.labels(slot)?)?;
        number += workers.number;
    }
    Ok(postings)
}

/// A worker's job: to list the postings of its slots.
#[derive(Drop)]
pub(crate) struct Listing<'t> {
    alloc: Global,
    worker: usize,
    workers: Workers,
    table: &'t SeriesTable,
    postings: Postings,
    ghost one: { worker < workers.number },
}

impl<'t> Job for Listing<'t> {
    ghost done = { λ old new. IsPostingsOf (belonging old.workers.number old.worker (old.worker + 1) (by_slot old.table.now.series)) new.postings };

    // these jobs call no gate
    fn enter<G: Gate>(_gate: &G, _worker: usize, _turn: u64) {}

    fn finish(&mut self) -> Result<(), AllocError> {
        self.postings = partial(self.alloc, self.worker, self.workers, self.table)?;
        Ok(())
    }
}

// Returns a job for each worker, in order.
fn listings<'t>(
    alloc: Global,
    workers: Workers,
    table: &'t SeriesTable,
) -> Result<Vec<Listing<'t>>, AllocError>
    ensures each { IfOk result (λ jobs. AreNumbered (λ worker job. (job.worker ≡ worker) × (job.workers.number ≡ workers.number) × (job.table.now ≡ table.now)) 0 jobs.items) }
    ensures count { IfOk result (λ jobs. vec_len jobs ≡ workers.number) }
{
    let mut jobs = Vec::with_capacity(alloc, workers.number)?;
    for worker in 0..workers.number {
        let postings = Postings::new(alloc);
        jobs.push(Listing {
            alloc,
            worker,
            workers,
            table,
            postings,
        })?;
    }
    Ok(jobs)
}

// Returns the postings of the one job, or those of no series.
fn only(alloc: Global, mut jobs: Vec<Listing<'_>>) -> Postings
    requires one { vec_len jobs ≤ 1 }
    ensures postings { (workers first : ℕ) (series : List Labels) →
        AreNumbered (λ worker job. IsPostingsOf (belonging workers worker (worker + 1) (by_slot series)) job.postings) first jobs.entry.items →
        IsPostingsOf (belonging workers first (first + vec_len jobs.entry) (by_slot series)) result }
{
    match jobs.pop() {
        Some(job) => job.postings,
        None => Postings::new(alloc),
    }
}

// Returns the postings of all jobs. Merges them by halves, so each is copied at most as often as the number of jobs has bits.
fn merge_all(alloc: Global, mut jobs: Vec<Listing<'_>>) -> Result<Postings, AllocError>
    ensures postings { (workers first : ℕ) (series : List Labels) →
        AreNumbered (λ worker job. IsPostingsOf (belonging workers worker (worker + 1) (by_slot series)) job.postings) first jobs.entry.items →
        IfOk result (λ postings. IsPostingsOf (belonging workers first (first + vec_len jobs.entry) (by_slot series)) postings) }
{
    if jobs.len() <= 1 {
        return Ok(only(alloc, jobs));
    }
    let half = jobs.len() / 2;
    let rest = jobs.split_off(half)?;
    let low = merge_all(alloc, jobs)?;
    let high = merge_all(alloc, rest)?;
    low.merge(high)
}

/// Returns the postings of a table's series, made by a crew that is passed in: each worker lists its own series, and the lists are merged.
/// Calls no gate. Returns `Workers` if a thread could not be started.
pub fn postings_by<R: Threads + Wait + Sync, G: Gate + Sync>(
    crew: &Crew<'_, R, G>,
    alloc: Global,
    workers: Workers,
    table: &SeriesTable,
) -> Result<Postings, CrewFault>
    ensures postings { IfOk result (λ postings. IsPostingsOf (by_slot table.now.series) postings) }
{
    let jobs = listings(alloc, workers, table)?;
    let listed = crew.without_gate().finish(0, jobs)?;
    Ok(merge_all(alloc, listed)?)
}
