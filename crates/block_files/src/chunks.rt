//! Appending chunks to chunk files (chunks.md of the public standard).

ghost use Rattle.std.specs.Prelude.{◌≡◌, ◌≤◌, ◌<◌, ◌+◌, ◌*◌, ◌^◌, ◌++◌, ◌∷◌, [], List, All, map, ◌↔◌, IsTrue, Err, IfOk, OnErr, OnOk, length};
ghost use Rattle.std.specs.List.{flat_map};
ghost use Rattle.hw_bytes.specs.Sums.{Text};
ghost use Rattle.head_column.specs.declared.chunk.Chunk.{Chunk as ChunkOfRow};
ghost use Rattle.hw_bytes.specs.Writing.{uvarint};
ghost use Rattle.block_files.specs.Files.{AreShort, all_texts, chunk_element, chunk_files, file_head, last_reference, longest_chunk, references, row_references, texts, with_chunk, with_last};

use crate::encoding::{Encoding, byte_of};
use head_column::Chunk;
use hw_bytes::{Items, WriteFault, crc32c, put_be32, put_uvarint};
use std::alloc::{AllocError, Global};
use std::marker::Model;

/// The limit of the length of a chunk file in a block, in bytes.
pub const CHUNK_FILE_LIMIT: u32 = 536_870_912;

// the header of a file: the magic number, the version and three zeros
const HEAD: [u8; 8] = [0x85, 0xBD, 0x40, 0xDD, 1, 0, 0, 0];

// how many files a block can have
pub(crate) const MOST_FILES: usize = 0x1_0000_0000;

// Returns how many bytes a chunk takes in its file whose data have `len` bytes.
#[tactic(auto, unfolding(hw_bytes::specs::Writing::uvarint, hw_bytes::specs::Writing::uvarint_in, hw_bytes::specs::Sums::sum_text))]
pub(crate) fn element_len(encoding: Encoding, len: usize) -> usize
    requires { len ≤ longest_chunk }
    ensures size { (body : Text) → length body ≡ len → result ≡ length (chunk_element encoding body) }
    ensures some { 0 < result }
    ensures short { result ≤ longest_chunk + 7 }
{
    let spelled = if len < 128 { 1 } else { 2 };
    spelled + 1 + len + 4
}

// Returns how many bytes a chunk with these data takes in its file.
fn chunk_len(encoding: Encoding, data: &[u8]) -> usize
    requires { length «data».now ≤ longest_chunk }
    ensures { result ≡ length (chunk_element encoding «data».now) }
{
    element_len(encoding, data.len())
}

/// Appends the header of a chunk file.
pub fn put_file_head(file: &mut Vec<u8>) -> Result<(), AllocError>
    ensures { OnOk result (file.new.items ≡ file.old.items ++ file_head) }
{
    file.extend_from_slice(&HEAD)
}

/// Appends a chunk to its file: the length of the data as a uvarint, the encoding, the data, and the CRC-32C of the encoding and the data.
#[tactic(auto, unfolding(hw_bytes::specs::Sums::sum_text))]
pub fn put_chunk(encoding: Encoding, file: &mut Vec<u8>, data: &[u8]) -> Result<(), AllocError>
    ensures put { OnOk result (file.new.items ≡ file.old.items ++ chunk_element encoding «data».now) }
    ensures kept { OnErr result (length file.old.items ≤ length file.new.items) }
{
    put_uvarint(file, data.len() as u64)?;
    let start = file.len();
    file.push(byte_of(encoding))?;
    file.extend_from_slice(data)?;
    let sum = crc32c(&file[start..]);
    put_be32(file, sum)
}

// Begins a new last file, and moves the previous one to the full files.
fn begin_file(
    alloc: Global,
    full: &mut Vec<Items<u8>>,
    last: &mut Vec<u8>,
) -> Result<(), WriteFault>
    requires few { length full.old.items < 2 ^ 32 }
    ensures files { OnOk result (full.new.items ≡ with_last full.old.items last.old.items) }
    ensures begun { OnOk result (last.new.items ≡ file_head) }
    ensures held { last.new.items ≡ [] → full.new.items ≡ full.old.items × (last.old.items ≡ []) }
    ensures few { length full.new.items < 2 ^ 32 }
    ensures large { result ≡ Err WriteFault.TooLarge → 2 ^ 32 ≤ length (with_last full.old.items last.old.items) }
{
    if full.len() + 1 == MOST_FILES && !last.is_empty() {
        return Err(WriteFault::TooLarge);
    }
    let mut file = Vec::new(alloc);
    put_file_head(&mut file)?;
    let before = std::mem::replace(last, file);
    if !before.is_empty() {
        full.push(Items::from_vec(before))?;
    }
    Ok(())
}

// Returns whether the file has begun and can take `len` more bytes.
fn has_room(limit: u32, file: &[u8], len: usize) -> bool
    ensures { IsTrue result ↔ (0 < length file.now) × (length file.now + len ≤ limit) }
{
    let limit = limit as usize;
    !file.is_empty() && file.len() <= limit && len <= limit - file.len()
}

// Begins a new last file if the current one has no room for a chunk of `len` bytes, which include its length and checksum.
fn make_room(
    alloc: Global,
    encoding: Encoding,
    limit: u32,
    full: &mut Vec<Items<u8>>,
    last: &mut Vec<u8>,
    len: usize,
) -> Result<(), WriteFault>
    requires few { length full.old.items < 2 ^ 32 }
    requires held { last.old.items ≡ [] → full.old.items ≡ [] }
    ensures placed { OnOk result ((body : Text) → length (chunk_element encoding body) ≡ len →
        with_chunk encoding limit (with_last full.old.items last.old.items) body ≡ with_last full.new.items (last.new.items ++ chunk_element encoding body)) }
    ensures low { OnOk result (length last.new.items < 2 ^ 32) }
    ensures few { length full.new.items < 2 ^ 32 }
    ensures held { last.new.items ≡ [] → full.new.items ≡ [] }
    ensures large { result ≡ Err WriteFault.TooLarge → (body : Text) → length (chunk_element encoding body) ≡ len →
        2 ^ 32 < length (with_chunk encoding limit (with_last full.old.items last.old.items) body) }
{
    if has_room(limit, last, len) {
        return Ok(());
    }
    begin_file(alloc, full, last)?;
    Ok(())
}

// Appends a chunk to the files, and returns its reference.
pub(crate) fn add_chunk(
    alloc: Global,
    encoding: Encoding,
    limit: u32,
    full: &mut Vec<Items<u8>>,
    last: &mut Vec<u8>,
    data: &[u8],
) -> Result<u64, WriteFault>
    requires few { length full.old.items < 2 ^ 32 }
    requires held { last.old.items ≡ [] → full.old.items ≡ [] }
    requires short { length «data».now ≤ longest_chunk }
    ensures files { OnOk result (with_last full.new.items last.new.items ≡ with_chunk encoding limit (with_last full.old.items last.old.items) «data».now) }
    ensures reference { IfOk result (λ reference. reference ≡ last_reference encoding (with_chunk encoding limit (with_last full.old.items last.old.items) «data».now) «data».now) }
    ensures few { length full.new.items < 2 ^ 32 }
    ensures held { last.new.items ≡ [] → full.new.items ≡ [] }
    ensures large { result ≡ Err WriteFault.TooLarge → 2 ^ 32 < length (with_chunk encoding limit (with_last full.old.items last.old.items) «data».now) }
{
    make_room(
        alloc,
        encoding,
        limit,
        full,
        last,
        chunk_len(encoding, data),
    )?;
    let file = full.len() as u64;
    let offset = last.len() as u64;
    put_chunk(encoding, last, data)?;
    Ok(file * 0x1_0000_0000 + offset)
}
