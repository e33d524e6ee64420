//! Heads that keep the samples of some times alone.

ghost use Rattle.std.specs.Prelude.{◌≡◌, IsTrue, ℤ, Option};
ghost use Rattle.wal_log.specs.Inputs.{Files};
ghost use Rattle.wal_log.specs.declared.reading.Damage.{Damage as LogDamage};
ghost use Rattle.head_column.specs.declared.items.Run.{Run as TimeRun};
ghost use Rattle.head_column.specs.Hours.{is_in_hour};
ghost use Rattle.head_column.specs.Runs.{spans};
ghost use Rattle.head_core.specs.Content.{AreAlike, Content};
ghost use Rattle.head_serial.specs.Replays.{IsReplayedAt};
ghost use Rattle.block_files.specs.declared.encoding.Encoding.{Encoding};
ghost use Rattle.hw_bytes.specs.Sums.{Text};
ghost use Rattle.block_read.specs.declared.block.Block.{Block as Parts};
ghost use Rattle.block_read.specs.Blocks.{IsBlockOf};
ghost use Rattle.block_cut.specs.Logs.{IsBlockOfLog};
ghost use Rattle.hour_rows.specs.Rows.{rows_of};

use crate::laws::however_dealt;
use hour_rows::rows_suffice;

/// Proves of heads that keep the samples of some times alone what [`however_dealt`](crate::however_dealt) says of heads that keep all.
///
/// `replay_at` ensures `IsReplayedAt` of its head: it is the head of the whole log, seen through the times. A log has one such head, up to what
/// the views of a head show, and one damage (`head`). If it has all samples of an hour, what is cut of it is the block of the log (`block`), and
/// there is one such block (`however_dealt`, clause `one`).
pub fn times_suffice()
    ensures head { (times : TimeRun) (log : Files) (m : ℤ) (damage other : Option LogDamage) (a b : Content) → IsReplayedAt times log m damage a → IsReplayedAt times log m other b → (damage ≡ other) × AreAlike a b }
    ensures block { (times : TimeRun) (encoding : Encoding) (log : Files) (m hour : ℤ) (ulid : Text) (damage : Option LogDamage) (content : Content) (block : Parts) →
        ((t : ℤ) → IsTrue (is_in_hour hour t) → IsTrue (spans times t)) → IsReplayedAt times log m damage content →
        IsBlockOf encoding block (record { ulid = ulid; hour = hour; rows = rows_of hour content }) → IsBlockOfLog encoding log m hour ulid block }
{
    // laws that the proof uses
    however_dealt();
    rows_suffice();
}
