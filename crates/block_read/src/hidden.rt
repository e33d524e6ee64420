//! Reading the hidden runs of a block.

ghost use Rattle.std.specs.Prelude.{◌≡◌, ◌<◌, ◌++◌, ◌∷◌, [], List, Err, IfOk, IsTrue};
ghost use Rattle.head_column.specs.declared.items.Run.{Run as HiddenRun};
ghost use Rattle.head_column.specs.Runs.{AreApart, BeginPast, IsRun};
ghost use Rattle.index_text.specs.Rows.{IsChain};
ghost use Rattle.block_read.specs.Reading.{BeginsOther, HaveRuns, entries_of};

use crate::fault::PartFault;
use block_files::{Tombstone, read_tombstones};
use head_column::Run;
use hw_bytes::Items;
use std::alloc::Global;

// Returns whether there is a gap between the run and the first of the later ones, if there are any.
fn is_before(run: &Run, later: &[Run]) -> bool
    ensures sound { IsTrue result → BeginPast run.now.max_time later.now }
    ensures complete { BeginPast run.now.max_time later.now → IsTrue result }
{
    if later.is_empty() {
        return true;
    }
    let max_time = run.max_time;
    let min_time = later[0].min_time;
    max_time < min_time && max_time + 1 < min_time
}

// Returns whether the run is not empty.
fn is_run(run: &Run) -> bool
    ensures sound { IsTrue result → IsRun run.now }
    ensures complete { IsRun run.now → IsTrue result }
{
    run.min_time <= run.max_time
}

// Returns whether no run is empty, and there is a gap between any two of them.
fn are_apart(runs: &[Run]) -> bool
    ensures sound { IsTrue result → AreApart runs.now }
    ensures complete { AreApart runs.now → IsTrue result }
{
    for i in 0..runs.len() {
        let (_, later) = runs.split_at(i + 1);
        if !is_run(&runs[i]) {
            return false;
        }
        if !is_before(&runs[i], later) {
            return false;
        }
    }
    true
}

// Returns the runs of the first tombstones that are of this series, and the tombstones after them.
fn front_runs(
    alloc: Global,
    id: u32,
    tombstones: &[Tombstone],
) -> Result<(Vec<Run>, &[Tombstone]), PartFault>
    ensures found { IfOk result (λ front. tombstones.now ≡ entries_of id front.0.items ++ front.1.now) }
    ensures stops { IfOk result (λ front. BeginsOther id front.1.now) }
    ensures fault { result ≡ Err PartFault.Bad → ⊥ }
{
    let mut runs = Vec::new(alloc);
    for i in 0..tombstones.len() {
        if tombstones[i].series != u64::from(id) {
            let (_, rest) = tombstones.split_at(i);
            return Ok((runs, rest));
        }
        runs.push(tombstones[i].run)?;
    }
    let (_, rest) = tombstones.split_at(tombstones.len());
    Ok((runs, rest))
}

// Reads the hidden runs of a block, a list for each id of a series.
pub(crate) fn read_hidden(
    alloc: Global,
    bytes: &[u8],
    ids: &[u32],
) -> Result<Vec<Items<Run>>, PartFault>
    requires { IsChain (λ a b. a < b) ids.now }
    ensures found { IfOk result (λ hidden. HaveRuns bytes.now ids.now hidden.items) }
    ensures only { (hidden : List (List HiddenRun)) → HaveRuns bytes.now ids.now hidden → IfOk result (λ read. read.items ≡ hidden) }
    ensures bad { result ≡ Err PartFault.Bad → (hidden : List (List HiddenRun)) → HaveRuns bytes.now ids.now hidden → ⊥ }
{
    let tombstones = read_tombstones(alloc, bytes)?;
    let mut hidden = Vec::new(alloc);
    let mut rest = tombstones.as_slice();
    for id in ids {
        let (runs, others) = front_runs(alloc, *id, rest)?;
        if !are_apart(&runs) {
            return Err(PartFault::Bad);
        }
        hidden.push(Items::from_vec(runs))?;
        rest = others;
    }
    if !rest.is_empty() {
        return Err(PartFault::Bad);
    }
    Ok(hidden)
}
