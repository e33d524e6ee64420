//! Writing and reading tombstones (tombstones.md of the public standard).

ghost use Rattle.std.specs.Prelude.{◌≡◌, ◌<◌, ◌++◌, List, All, length, Err, IfOk, IfSome, MatchOption, OnOk};
ghost use Rattle.hw_bytes.specs.Sums.{Text};
ghost use Rattle.block_files.specs.declared.tombstones.Tombstone.{Tombstone as Entry};
ghost use Rattle.block_files.specs.Tombstones.{IsFit, entries_text, entry_text, tombstones_text};

use crate::fields::{front_uvarint, front_varint};
use head_column::Run;
use hw_bytes::{put_sum, put_uvarint, put_varint};
use std::alloc::{AllocError, AllocFailed, Global};
use std::error::Error;
use std::fmt;

/// A hidden range of times of a series.
#[derive(Clone, Copy, Debug, PartialEq, Eq)]
pub struct Tombstone {
    /// The id of the series in the block's index.
    pub series: u64,
    /// The hidden times, both ends included.
    pub run: Run,
}

/// The error of reading tombstones.
#[derive(Clone, Copy, Debug, PartialEq, Eq)]
pub enum TombstonesFault {
    /// The bytes are not the text of any tombstones.
    BadTombstones,
    /// Out of memory.
    Memory,
}

impl fmt::Display for TombstonesFault {
    fn fmt<W: fmt::Write>(&self, f: &mut fmt::Formatter<W>) -> fmt::Result {
        f.write_str(match self {
            TombstonesFault::BadTombstones => "bad tombstones",
            TombstonesFault::Memory => "out of memory",
        })
    }
}

impl Error for TombstonesFault {}

impl From<AllocError> for TombstonesFault {
    ghost use Rattle.std.specs.Prelude.{◌≡◌};
    ghost use Rattle.block_files.specs.declared.tombstones.TombstonesFault.TheVariants.{Memory};

    ghost from_gives = { λ _ e. e ≡ Memory };

    fn from(_error: AllocError) -> TombstonesFault {
        TombstonesFault::Memory
    }
}

impl<T: Drop> From<AllocFailed<T>> for TombstonesFault {
    ghost use Rattle.std.specs.Prelude.{◌≡◌};
    ghost use Rattle.block_files.specs.declared.tombstones.TombstonesFault.TheVariants.{Memory};

    ghost from_gives = { λ _ e. e ≡ Memory };

    fn from(_error: AllocFailed<T>) -> TombstonesFault {
        TombstonesFault::Memory
    }
}

// the magic number and the version
const HEAD: [u8; 5] = [0x01, 0x30, 0xBA, 0x30, 1];

// the length of a checksum in bytes
const SUM_LEN: usize = 4;

// Appends an entry.
fn put_entry(bytes: &mut Vec<u8>, tombstone: &Tombstone) -> Result<(), AllocError>
    ensures { OnOk result (bytes.new.items ≡ bytes.old.items ++ entry_text tombstone.now) }
{
    put_uvarint(bytes, tombstone.series)?;
    put_varint(bytes, tombstone.run.min_time)?;
    put_varint(bytes, tombstone.run.max_time)
}

// Writes all entries.
fn write_entries(alloc: Global, tombstones: &[Tombstone]) -> Result<Vec<u8>, AllocError>
    ensures { IfOk result (λ text. text.items ≡ entries_text tombstones.now) }
{
    let mut entries = Vec::new(alloc);
    for tombstone in tombstones {
        put_entry(&mut entries, tombstone)?;
    }
    Ok(entries)
}

/// Writes tombstones: the magic number `0130BA30`, the version 1, an entry for each (the id of the series as a uvarint, the first and the
/// last hidden time as varints), and the CRC-32C of all entries.
#[tactic(auto, unfolding(crate::specs::Tombstones::tombstones_text))]
pub fn write_tombstones(alloc: Global, tombstones: &[Tombstone]) -> Result<Vec<u8>, AllocError>
    ensures { IfOk result (λ text. text.items ≡ tombstones_text tombstones.now) }
{
    let entries = write_entries(alloc, tombstones)?;
    let mut text = Vec::new(alloc);
    text.extend_from_slice(&HEAD)?;
    text.extend_from_slice(&entries)?;
    put_sum(&mut text, &entries)?;
    Ok(text)
}

// Reads an entry, and returns it with the bytes after it.
fn front_entry(bytes: &[u8]) -> Option<(Tombstone, &[u8])>
    ensures again { (t : Entry) (rest : Text) → IsFit t → bytes.now ≡ entry_text t ++ rest → MatchOption result ⊥ (λ found. (found.0 ≡ t) × (found.1.now ≡ rest)) }
    ensures fit { IfSome result (λ found. IsFit found.0) }
    ensures shorter { IfSome result (λ found. length found.1.now < length bytes.now) }
{
    let (series, rest) = front_uvarint(bytes)?;
    let (min_time, rest) = front_varint(rest)?;
    let (max_time, rest) = front_varint(rest)?;
    let run = Run { min_time, max_time };
    Some((Tombstone { series, run }, rest))
}

// Reads entries up to the end of the bytes. The spellings of their numbers are not checked.
fn read_entries(alloc: Global, bytes: &[u8]) -> Result<Vec<Tombstone>, TombstonesFault>
    ensures found { IfOk result (λ found. (tombstones : List Entry) → All IsFit tombstones → bytes.now ≡ entries_text tombstones → found.items ≡ tombstones) }
    ensures fit { IfOk result (λ found. All IsFit found.items) }
    ensures bad { result ≡ Err TombstonesFault.BadTombstones → (tombstones : List Entry) → All IsFit tombstones → bytes.now ≡ entries_text tombstones → ⊥ }
{
    let mut tombstones = Vec::new(alloc);
    let mut rest = bytes;
    while !rest.is_empty() {
        let Some((tombstone, others)) = front_entry(rest) else {
            return Err(TombstonesFault::BadTombstones);
        };
        tombstones.push(tombstone)?;
        rest = others;
    }
    Ok(tombstones)
}

/// Reads tombstones. If the bytes are not exactly what `write_tombstones` writes for them, `BadTombstones` is returned: the magic number,
/// the version or the checksum is wrong, an entry is cut off, or a number is not in its shortest form.
pub fn read_tombstones(alloc: Global, bytes: &[u8]) -> Result<Vec<Tombstone>, TombstonesFault>
    ensures found { IfOk result (λ tombstones. bytes.now ≡ tombstones_text tombstones.items) }
    ensures fit { IfOk result (λ tombstones. All IsFit tombstones.items) }
    ensures only { (tombstones : List Entry) → All IsFit tombstones → bytes.now ≡ tombstones_text tombstones → IfOk result (λ read. read.items ≡ tombstones) }
    ensures bad { result ≡ Err TombstonesFault.BadTombstones →
        (tombstones : List Entry) → All IsFit tombstones → bytes.now ≡ tombstones_text tombstones → ⊥ }
    // Whether bytes are too short for the magic number, the version and the checksum does not depend on memory.
    ensures short { length bytes.now < 9 → result ≡ Err TombstonesFault.BadTombstones }
{
    if bytes.len() < HEAD.len() + SUM_LEN {
        return Err(TombstonesFault::BadTombstones);
    }
    let (_, body) = bytes.split_at(HEAD.len());
    let (entries, _) = body.split_at(body.len() - SUM_LEN);
    let tombstones = read_entries(alloc, entries)?;
    let again = write_tombstones(alloc, &tombstones)?;
    if again.as_slice() != bytes {
        return Err(TombstonesFault::BadTombstones);
    }
    Ok(tombstones)
}
