//! Starts of threads that are refused.

use crate::log_lines::{NO_FILES, input_of};
use crate::logs::by;
use crate::same;
use head_deal::Workers;
use head_replay::{Crew, CrewFault, NoGate, ReplayFault, Starts, postings_by, replay_by, tally_by};
use head_series::SeriesTable;
use std::alloc::Global;
use std::sync::Wait;
use std::test::Fail;
use std::thread::Threads;

// The fault of the postings that seven workers list of no series.
fn fault_of_postings<R: Threads + Wait + Sync>(
    crew: &Crew<'_, R, NoGate>,
    alloc: Global,
) -> Option<CrewFault> {
    let table = SeriesTable::new(alloc, 1);
    match postings_by(crew, alloc, Workers::new(7)?, &table) {
        Ok(_) => None,
        Err(fault) => Some(fault),
    }
}

// Of seven workers only the first so many may start.
#[test]
fn refused_starts(rt: HostRuntime) -> Result<(), Fail> {
    let alloc = rt.alloc();
    let input = input_of(alloc, NO_FILES)?;
    for number in 0..8usize {
        let crew = Crew::new(&rt, &NoGate, Starts::below(number));
        let (fault, of_crew) = if number < 7 {
            (Some(ReplayFault::Workers), Some(CrewFault::Workers))
        } else {
            (None, None)
        };
        let replayed = replay_by(&crew, alloc, &input, &by(7)).err();
        same(&rt, (number, "replay"), replayed, fault);
        let tallied = tally_by(&crew, alloc, &input, &by(7)).err();
        same(&rt, (number, "tally"), tallied, fault);
        let listed = fault_of_postings(&crew, alloc);
        same(&rt, (number, "postings"), listed, of_crew);
    }
    Ok(())
}
