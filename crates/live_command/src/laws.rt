//! Laws of a store that runs.

ghost use Rattle.std.specs.Prelude.{◌≡◌, ◌<◌, ◌^◌, List};
ghost use Rattle.wal_record.specs.declared.record.WalRecord.{WalRecord as LogRecord};
ghost use Rattle.wal_log.specs.Inputs.{Files, next_number};
ghost use Rattle.live_log.specs.Running.{HasLogged, RunningState};
ghost use Rattle.live_command.specs.Runs.{OutlastsCrash};

use store::Store;
use write_commands::growing_segment_outlasts_a_crash;

/// Proves what a crash leaves of a store that runs behind a log, at any moment after its last segment was begun: the log reads as before, then as all
/// records that were synced, and perhaps as first ones of those that were not.
pub fn running_store_outlasts_a_crash<S: Store>()
    ensures reads { (r : RunningState S) (log : Files) (synced more : List LogRecord) → next_number log < 10 ^ 19 → r.number ≡ next_number log → HasLogged S.did r synced more → OutlastsCrash S.did r log synced more }
{
    // a law that the proof uses
    growing_segment_outlasts_a_crash();
}
