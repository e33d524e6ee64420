//! Writing chunk files row by row.

ghost use Rattle.std.specs.Prelude.{◌≡◌, ◌≤◌, ◌<◌, ◌^◌, ◌++◌, ◌∷◌, [], List, All, map, Err, IfOk, OnOk, length};
ghost use Rattle.std.specs.List.{flat_map};
ghost use Rattle.hw_bytes.specs.Sums.{Text};
ghost use Rattle.block_files.specs.declared.encoding.Encoding.TheVariants.{Raw};
ghost use Rattle.block_files.specs.Files.{AreShort, all_texts, chunk_files, last_reference, longest_chunk, references, row_references, row_texts, texts, with_chunk};

use crate::chunks::add_chunk;
use crate::encoding::Encoding;
use head_column::Chunk;
use hw_bytes::{Items, WriteFault};
use std::alloc::{AllocError, Global};
use std::marker::Model;

/// A writer of chunk files. Contracts see the encoding of the chunks, the limit of the length of files, and the files so far. After rows
/// were added, the files are the `chunk_files` of all their chunks.
#[derive(Debug, Drop)]
pub struct ChunkFiles {
    encoding: Encoding,
    limit: u32,
    // the full files
    full: Vec<Items<u8>>,
    // the last file, empty if no file has begun
    last: Vec<u8>,
}

impl Model for ChunkFiles {
    ghost use Rattle.std.specs.Prelude.{◌≡◌, ◌<◌, ◌≤◌, ◌^◌, [], length};
    ghost use Rattle.block_files.specs.Files.{Written, with_last};

    ghost Value = { Written };

    ghost view = { λ w. record { encoding = w.encoding; limit = w.limit; files = with_last w.full.items w.last.items } };

    ghost invariant = { λ w. (length w.full.items < 2 ^ 32) × (w.last.items ≡ [] → w.full.items ≡ []) };
}

impl ChunkFiles {
    /// Makes a writer of files of at most `limit` bytes, with chunks in this encoding. A file with a single chunk can be longer. There is
    /// no file until the first chunk.
    pub fn new(alloc: Global, encoding: Encoding, limit: u32) -> ChunkFiles
        ensures encoding { result.encoding ≡ encoding }
        ensures limit { result.limit ≡ limit }
        ensures none { result.files ≡ [] }
    {
        ChunkFiles {
            encoding,
            limit,
            full: Vec::new(alloc),
            last: Vec::new(alloc),
        }
    }

    // Appends a chunk, and returns its reference.
    fn add(&mut self, alloc: Global, chunk: &Chunk) -> Result<u64, WriteFault>
        requires { length chunk.now.text ≤ longest_chunk }
        ensures encoding { self.new.encoding ≡ self.old.encoding }
        ensures limit { self.new.limit ≡ self.old.limit }
        ensures files { OnOk result (self.new.files ≡ with_chunk self.old.encoding self.old.limit self.old.files chunk.now.text) }
        ensures reference { IfOk result (λ reference. reference ≡ last_reference self.old.encoding (with_chunk self.old.encoding self.old.limit self.old.files chunk.now.text) chunk.now.text) }
        ensures large { result ≡ Err WriteFault.TooLarge → 2 ^ 32 < length (with_chunk self.old.encoding self.old.limit self.old.files chunk.now.text) }
    {
        add_chunk(
            alloc,
            self.encoding,
            self.limit,
            &mut self.full,
            &mut self.last,
            chunk.text.as_slice(),
        )
    }

    /// Appends the chunks of a row, and returns their references. If an error is returned, some of the chunks may have been added.
    pub fn add_row(&mut self, alloc: Global, row: &[Chunk]) -> Result<Vec<u64>, WriteFault>
        requires short { All (λ body. length body ≤ longest_chunk) (row_texts row.now) }
        ensures encoding { self.new.encoding ≡ self.old.encoding }
        ensures limit { self.new.limit ≡ self.old.limit }
        ensures files { (before : List (List Text)) → self.old.files ≡ chunk_files self.old.encoding self.old.limit (flat_map (λ r. r) before) →
            OnOk result (self.new.files ≡ chunk_files self.old.encoding self.old.limit (flat_map (λ r. r) (before ++ row_texts row.now ∷ []))) }
        ensures references { (before : List (List Text)) → self.old.files ≡ chunk_files self.old.encoding self.old.limit (flat_map (λ r. r) before) →
            IfOk result (λ found. found.items ≡ row_references self.old.encoding self.old.limit before (row_texts row.now)) }
        ensures count { IfOk result (λ found. length found.items ≡ length row.now) }
        ensures large { (before : List (List Text)) → self.old.files ≡ chunk_files self.old.encoding self.old.limit (flat_map (λ r. r) before) →
            result ≡ Err WriteFault.TooLarge → 2 ^ 32 < length (chunk_files self.old.encoding self.old.limit (flat_map (λ r. r) (before ++ row_texts row.now ∷ []))) }
    {
        let mut found = Vec::new(alloc);
        for chunk in row {
            found.push(self.add(alloc, chunk)?)?;
        }
        Ok(found)
    }

    /// Returns the files.
    pub fn into_files(self) -> Result<Vec<Items<u8>>, AllocError>
        ensures files { IfOk result (λ files. files.items ≡ self.files) }
        ensures few { IfOk result (λ files. length files.items ≤ 2 ^ 32) }
    {
        let ChunkFiles { mut full, last, .. } = self;
        if !last.is_empty() {
            full.push(Items::from_vec(last))?;
        }
        Ok(full)
    }
}

/// Writes the chunk files of rows of raw chunks, and returns them with the references of the chunks of each row.
///
/// A file begins with the magic number `85BD40DD`, the version 1 and three zeros. A chunk is the length of its data as a uvarint, the
/// encoding `41`, the data, and the CRC-32C of the encoding and the data. A new file is begun if the next chunk would make the last
/// one longer than `limit` bytes. A reference is the number of the file, from 0, times 2^32, plus the offset of the chunk's length. If
/// there are no chunks, there are no files.
pub fn write_chunks(
    alloc: Global,
    rows: &[Items<Chunk>],
    limit: u32,
) -> Result<(Vec<Items<u8>>, Vec<Items<u64>>), WriteFault>
    requires short { AreShort rows.now }
    ensures files { IfOk result (λ written. written.0.items ≡ chunk_files Raw limit (all_texts rows.now)) }
    ensures references { IfOk result (λ written. written.1.items ≡ references Raw limit (texts rows.now)) }
    ensures few { IfOk result (λ written. length written.0.items ≤ 2 ^ 32) }
    ensures large { result ≡ Err WriteFault.TooLarge → 2 ^ 32 < length (chunk_files Raw limit (all_texts rows.now)) }
{
    let mut files = ChunkFiles::new(alloc, Encoding::Raw, limit);
    let mut found = Vec::new(alloc);
    for row in rows {
        found.push(Items::from_vec(files.add_row(alloc, row.as_slice())?))?;
    }
    Ok((files.into_files()?, found))
}
