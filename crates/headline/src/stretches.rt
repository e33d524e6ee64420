//! From the files of a directory to the log that a rescue replays.

ghost use Rattle.std.specs.Prelude.{ℕ, List};
ghost use Rattle.wal_log.specs.Inputs.{Files};
ghost use Rattle.store.specs.Views.{view_of};
ghost use Rattle.log_directory.specs.declared.lost.Lost.{Lost as LostOfLog};
ghost use Rattle.log_directory.specs.Rescued.{IsRescuedLogIn};
ghost use Rattle.headline.specs.Records.{IsLogOf};
ghost use Rattle.headline.specs.Stretched.{HasStretches};

use store::Store;
use wal_log::text_reads;

/// Proves that the log of all that can be read of a directory of a store has just the records of the stretches of its files, one file after another, those of the
/// newest checkpoint first.
///
/// `rescued_head` ensures `IsRescuedLogIn` of the log that `rescue` replays. By the clauses `records` and `rescued` of `however_dealt` such a log
/// reads as these records, without damage, and all logs that have these records have the same blocks. So each byte of the blocks of `rescue` is
/// defined by the records of the stretches, however the work was dealt.
pub fn stretches_read<S: Store>(_store: &S, _dir: &str)
    ensures { (log : Files) (lost : List LostOfLog) → IsRescuedLogIn (view_of (S.holds _store.now)) _dir.now log.checkpoint log.segments lost →
        (records : List (List ℕ)) × HasStretches (view_of (S.holds _store.now)) _dir.now records × IsLogOf records log }
{
    // the law that the proof uses
    text_reads();
}
