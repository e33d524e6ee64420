//! The laws of the whole.

ghost use Rattle.std.specs.Prelude.{◌≡◌, ◌≤ℤ◌, ◌++◌, ℕ, ℤ, List, None, Option, Some};
ghost use Rattle.std.specs.List.{AllZip};
ghost use Rattle.wal_record.specs.Records.{IsRecord};
ghost use Rattle.wal_record.specs.Validity.{least_time};
ghost use Rattle.wal_log.specs.Checkpoints.{IsCheckpointOf, IsWholeCheckpointOf};
ghost use Rattle.wal_log.specs.Inputs.{Files};
ghost use Rattle.wal_log.specs.declared.input.Checkpoint.{Checkpoint as LogCheckpoint};
ghost use Rattle.wal_log.specs.declared.input.Segment.{Segment as LogSegment};
ghost use Rattle.wal_log.specs.declared.reading.Damage.{Damage as LogDamage};
ghost use Rattle.wal_log.specs.declared.reading.Placed.{Placed as PlacedRecord};
ghost use Rattle.wal_log.specs.Log.{IsReading, contents};
ghost use Rattle.head_resolver.specs.Taken.{taken_of};
ghost use Rattle.head_core.specs.Content.{AreAlike, Content};
ghost use Rattle.head_core.specs.Validity.{HaveFates};
ghost use Rattle.head_serial.specs.Replays.{IsReplayed};
ghost use Rattle.block_files.specs.declared.encoding.Encoding.{Encoding};
ghost use Rattle.hw_bytes.specs.Sums.{Text};
ghost use Rattle.block_read.specs.declared.block.Block.{Block as Parts};
ghost use Rattle.block_read.specs.Blocks.{IsBlockOf};
ghost use Rattle.block_cut.specs.Logs.{IsBlockOfLog};
ghost use Rattle.hour_rows.specs.Rows.{rows_of};
ghost use Rattle.headline.specs.Records.{IsLogOf};

use block_cut::one_block;
use head_core::{checkpoint, one_content, same_entries};
use wal_log::{checkpoint_reads, one_reading, whole_checkpoint_reads, whole_records};
use wal_page::one_file;
use wal_record::{one_record, valid_records};

/// For every checkpoint, list of segments and number of workers, where no memory and no thread is refused, the head that `replay` gives and
/// every byte of each block cut from it are those defined by the log's records read one after another, however the work was dealt.
///
/// `replay` ensures `IsReplayed` of its head, which speaks of the log's files and of the least valid time alone. With each least valid time
/// a log has one such head, up to what the views of a head show, and one damage (`head`): those of `replay_serial_from`. What `cut` ensures
/// of a block of such a head makes it the block of the log (`block`), and there is one such block for an encoding of chunks, an hour and a
/// name (`one`).
///
/// A rescue replays a log whose files have just the records of the stretches of the server's files (`IsRescuedLogIn`). Such a log reads as
/// these records, and has no damage of its own (`records`); and any two such logs have the same blocks (`rescued`): each byte of them is
/// defined by the records of the stretches, read one after another.
pub fn however_dealt()
    ensures head { (log : Files) (m : ℤ) (damage other : Option LogDamage) (a b : Content) → IsReplayed log m damage a → IsReplayed log m other b → (damage ≡ other) × AreAlike a b }
    ensures block { (encoding : Encoding) (log : Files) (m hour : ℤ) (ulid : Text) (damage : Option LogDamage) (content : Content) (block : Parts) →
        IsReplayed log m damage content → IsBlockOf encoding block (record { ulid = ulid; hour = hour; rows = rows_of hour content }) →
        IsBlockOfLog encoding log m hour ulid block }
    ensures one { (encoding : Encoding) (log : Files) (m hour : ℤ) (ulid : Text) (a b : Parts) → IsBlockOfLog encoding log m hour ulid a → IsBlockOfLog encoding log m hour ulid b → a ≡ b }
    ensures records { (records : List (List ℕ)) (log : Files) (placed : List PlacedRecord) (damage : Option LogDamage) → IsLogOf records log → IsReading log placed damage → (damage ≡ None) × AllZip IsRecord records (contents placed) }
    ensures rescued { (encoding : Encoding) (records : List (List ℕ)) (first second : Files) (m hour : ℤ) (ulid : Text) (a b : Parts) → IsLogOf records first → IsLogOf records second →
        IsBlockOfLog encoding first m hour ulid a → IsBlockOfLog encoding second m hour ulid b → a ≡ b }
{
    // laws that the proof uses
    one_file();
    one_record();
    one_reading();
    one_content();
    one_block();
}

/// Proves that the least time of 64 bits is no limit: with it as least valid time, all of a log's records are taken, and nothing of them is
/// expired.
pub fn no_limit()
    ensures { (log : Files) (records : List PlacedRecord) (damage : Option LogDamage) → IsReading log records damage →
        taken_of least_time (contents records) ≡ record { kept = contents records; expired_samples = 0; expired_stones = 0 } }
{
    // a law that the proof uses
    valid_records();
}

/// A checkpoint made by `make_checkpoint`, with the segments after it, replays to the same head.
///
/// Let a log be a checkpoint or none and segments, and let a new checkpoint be made of the first of these with a least valid time. The new
/// checkpoint with the other segments, and the whole log, replayed with that time or a later one, agree in series, samples, hidden runs,
/// postings, owners, all counts but those of records and of expired entries, and the damage.
pub fn checkpoint_equivalence()
    ensures { (pages : ℕ) (n m : ℤ) → n ≤ℤ m → (old : Option LogCheckpoint) (first others : List LogSegment) (new : LogCheckpoint) (damage other : Option LogDamage) (short whole : Content) →
        IsCheckpointOf pages n (record { checkpoint = old; segments = first }) new →
        IsReplayed (record { checkpoint = Some new; segments = others }) m damage short →
        IsReplayed (record { checkpoint = old; segments = first ++ others }) m other whole →
        (damage ≡ other) × AreAlike short (record whole { counts = short.counts }) × HaveFates short.counts whole.counts }
{
    // laws that the proof uses
    checkpoint_reads();
    checkpoint();
}

/// A checkpoint made by `make_whole_checkpoint`, with the segments after it, replays to the same head, too.
///
/// It agrees with the whole log as `checkpoint_equivalence` says.
pub fn whole_checkpoint_equivalence()
    ensures { (pages : ℕ) (n m : ℤ) → n ≤ℤ m → (old : Option LogCheckpoint) (first others : List LogSegment) (new : LogCheckpoint) (damage other : Option LogDamage) (short whole : Content) →
        IsWholeCheckpointOf pages n (record { checkpoint = old; segments = first }) new →
        IsReplayed (record { checkpoint = Some new; segments = others }) m damage short →
        IsReplayed (record { checkpoint = old; segments = first ++ others }) m other whole →
        (damage ≡ other) × AreAlike short (record whole { counts = short.counts }) × HaveFates short.counts whole.counts }
{
    // laws that the proof uses
    whole_checkpoint_reads();
    whole_records();
    same_entries();
}
