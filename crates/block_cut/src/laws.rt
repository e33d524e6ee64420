//! Laws of the definitions.

ghost use Rattle.std.specs.Prelude.{◌≡◌, ◌↔◌, ℤ, List, Option, Contains, IsTrue};
ghost use Rattle.wal_log.specs.Inputs.{Files};
ghost use Rattle.wal_log.specs.Log.{IsReading, contents};
ghost use Rattle.wal_log.specs.declared.reading.Damage.{Damage as LogDamage};
ghost use Rattle.wal_log.specs.declared.reading.Placed.{Placed as PlacedRecord};
ghost use Rattle.head_column.specs.Samples.{Sample};
ghost use Rattle.head_column.specs.Histories.{History};
ghost use Rattle.head_column.specs.Hours.{IsEdge, is_in_hour};
ghost use Rattle.head_resolver.specs.Taken.{taken_of};
ghost use Rattle.head_core.specs.Content.{Content, IsContentOf};
ghost use Rattle.hw_bytes.specs.Sums.{Text};
ghost use Rattle.block_files.specs.declared.encoding.Encoding.{Encoding};
ghost use Rattle.block_read.specs.declared.block.Block.{Block as Parts};
ghost use Rattle.block_read.specs.Blocks.{IsBlockOf};
ghost use Rattle.block_cut.specs.Logs.{IsBlockOfLog};
ghost use Rattle.block_cut.specs.Ranges.{IsSampled};
ghost use Rattle.hour_rows.specs.Rows.{rows_of};

use head_core::one_content;
use wal_log::one_reading;

/// The bytes of a log and the least valid time determine every byte of its blocks. By the contracts of `replay_serial_from` and `cut_in`, the
/// block of the head of a log is a block of the log (`made`), and a log has at most one block for an hour, a name
/// and an encoding of chunks (`one`).
pub fn one_block()
    ensures made { (e : Encoding) (log : Files) (m hour : ℤ) (ulid : Text) (records : List PlacedRecord) (damage : Option LogDamage) (content : Content) (block : Parts) →
        IsReading log records damage → IsContentOf (taken_of m (contents records)) content → content.min_valid ≡ m →
        IsBlockOf e block (record { ulid = ulid; hour = hour; rows = rows_of hour content }) → IsBlockOfLog e log m hour ulid block }
    ensures one { (e : Encoding) (log : Files) (m hour : ℤ) (ulid : Text) (a b : Parts) → IsBlockOfLog e log m hour ulid a → IsBlockOfLog e log m hour ulid b → a ≡ b }
{
    // for the proof: the laws that this one rests on
    one_reading();
    one_content();
}

/// Proves that each accepted sample of a head is in one hour, and that this hour is among the hours that `sampled_hours` returns, unless it is
/// an edge.
pub fn one_hour()
    ensures { (c : Content) (history : History) (sample : Sample) (hours : List ℤ) → Contains c.histories history → Contains history.samples sample →
        ((k : ℤ) → Contains hours k ↔ IsSampled k c) →
        (k : ℤ) × IsTrue (is_in_hour k sample.time) × ((l : ℤ) → IsTrue (is_in_hour l sample.time) → l ≡ k) × ((IsEdge k → ⊥) → Contains hours k) }
{}
