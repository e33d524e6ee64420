//! Where chunks stand in files, by what is known of them without their data.

ghost use Rattle.std.specs.Prelude.{◌≡◌, ◌≤◌, ◌<◌, ◌+◌, ◌^◌, ◌++◌, ◌∷◌, [], ℕ, List, All, ◌↔◌, IsTrue, Err, IfOk, OnOk, map, length};
ghost use Rattle.std.specs.List.{flat_map};
ghost use Rattle.hw_bytes.specs.Sums.{Text};
ghost use Rattle.head_column.specs.declared.chunk.Chunk.{Chunk as ChunkOfRow};
ghost use Rattle.block_files.specs.Files.{all_texts, chunk_element, chunk_files, longest_chunk, reference_behind, references, row_references, row_texts, texts};
ghost use Rattle.block_files.specs.Layouts.{IsOpen, Stands};
ghost use Rattle.block_files.specs.Places.{file_at, span_of};

use crate::chunks::{MOST_FILES, element_len};
use crate::encoding::Encoding;
use head_column::Chunk;
use hw_bytes::{Items, WriteFault};
use std::alloc::{AllocError, Global};
use std::marker::Model;

/// What the index and the chunk files of a block need to know of a chunk: its first and its last time in milliseconds, how many samples it has,
/// and how many bytes its data have.
#[derive(Clone, Copy, Debug, PartialEq, Eq)]
pub struct ChunkSpan {
    pub min_time: i64,
    pub max_time: i64,
    pub count: usize,
    pub len: usize,
}

/// Which chunks are in a chunk file: how many of all chunks of the block come before its first one, and how many it has.
#[derive(Clone, Copy, Debug, PartialEq, Eq)]
pub struct FileSpan {
    pub first: usize,
    pub count: usize,
}

/// Returns what is known of chunks without their data.
pub fn spans_of(alloc: Global, chunks: &[Chunk]) -> Result<Vec<ChunkSpan>, AllocError>
    ensures { IfOk result (λ spans. spans.items ≡ map span_of chunks.now) }
{
    chunks
        .iter()
        .map(|chunk| ChunkSpan {
            min_time: chunk.min_time,
            max_time: chunk.max_time,
            count: chunk.count,
            len: chunk.text.len(),
        })
        .collect(alloc)
}

/// Where chunks stand: the references of the chunks of each row, and which chunks each file has.
#[derive(Debug, Drop)]
pub struct PlacedChunks {
    pub references: Vec<Items<u64>>,
    pub files: Vec<FileSpan>,
}

// Chunks that are being placed. Contracts see the spans of the full files, the span of the last one, and its length.
#[derive(Debug, Drop)]
struct Placing {
    // the full files
    full: Vec<FileSpan>,
    // the last file
    last: FileSpan,
    // the length of the last file, 0 if no file has begun
    len: u64,
}

impl Model for Placing {
    ghost use Rattle.std.specs.Prelude.{◌<◌, ◌≤◌, ◌*◌, ◌^◌, length};
    ghost use Rattle.block_files.specs.Layouts.{Layout};

    ghost Value = { Layout };

    ghost view = { λ p. record { full = p.full.items; last = p.last; len = p.len } };

    ghost invariant = { λ p. (length p.full.items < 2 ^ 32) × (p.last.first ≤ length p.full.items * 2 ^ 32) × (p.last.count ≤ p.len) × (p.len < 2 ^ 32) };
}

impl Placing {
    // Makes one with no chunks.
    fn new(alloc: Global) -> Placing
        ensures none { (e : Encoding) (limit : ℕ) → Stands e limit [] result }
    {
        Placing {
            full: Vec::new(alloc),
            last: FileSpan { first: 0, count: 0 },
            len: 0,
        }
    }

    // Begins a new last file, and moves the previous one to the full files.
    fn begin(&mut self) -> Result<(), WriteFault>
        ensures first { OnOk result (self.old.len ≡ 0 → self.new.full ≡ self.old.full) }
        ensures another { OnOk result (0 < self.old.len → self.new.full ≡ self.old.full ++ self.old.last ∷ []) }
        ensures from { OnOk result (self.new.last.first ≡ self.old.last.first + self.old.last.count) }
        ensures none { OnOk result (self.new.last.count ≡ 0) }
        ensures len { OnOk result (self.new.len ≡ 8) }
        ensures large { result ≡ Err WriteFault.TooLarge → (0 < self.old.len) × (2 ^ 32 ≤ length self.old.full + 1) }
    {
        if self.full.len() + 1 == MOST_FILES && self.len > 0 {
            return Err(WriteFault::TooLarge);
        }
        let first = self.last.first + self.last.count;
        if self.len > 0 {
            self.full.push(self.last)?;
        }
        self.last = FileSpan { first, count: 0 };
        // the header of a file
        self.len = 8;
        Ok(())
    }

    // Returns whether the last file has begun and can take `size` more bytes.
    fn has_room(&self, limit: u32, size: u64) -> bool
        requires short { size ≤ longest_chunk + 7 }
        ensures { IsTrue result ↔ (0 < self.now.len) × (self.now.len + size ≤ limit) }
    {
        self.len > 0 && self.len + size <= limit as u64
    }

    // Begins a new last file if the current one has no room for a chunk of `size` bytes, which include its length and checksum.
    fn make_room(&mut self, encoding: Encoding, limit: u32, size: u64) -> Result<(), WriteFault>
        requires short { size ≤ longest_chunk + 7 }
        ensures open { OnOk result ((all : List Text) (body : Text) → length (chunk_element encoding body) ≡ size → Stands encoding limit all self.old → IsOpen encoding limit all body self.new) }
        ensures low { OnOk result (self.new.len + size < 2 ^ 32) }
        ensures large { result ≡ Err WriteFault.TooLarge → (all : List Text) (body : Text) → length (chunk_element encoding body) ≡ size → Stands encoding limit all self.old →
            2 ^ 32 < length (chunk_files encoding limit (all ++ body ∷ [])) }
    {
        if self.has_room(limit, size) {
            return Ok(());
        }
        self.begin()?;
        Ok(())
    }

    // Places a chunk whose data have `len` bytes, and returns its reference.
    fn place(&mut self, encoding: Encoding, limit: u32, len: usize) -> Result<u64, WriteFault>
        requires short { len ≤ longest_chunk }
        ensures stands { OnOk result ((all : List Text) (body : Text) → length body ≡ len → Stands encoding limit all self.old → Stands encoding limit (all ++ body ∷ []) self.new) }
        ensures reference { IfOk result (λ reference. (all : List Text) (body : Text) → length body ≡ len → Stands encoding limit all self.old → reference ≡ reference_behind encoding limit all body) }
        ensures large { result ≡ Err WriteFault.TooLarge → (all : List Text) (body : Text) → length body ≡ len → Stands encoding limit all self.old →
            2 ^ 32 < length (chunk_files encoding limit (all ++ body ∷ [])) }
    {
        let size = element_len(encoding, len) as u64;
        self.make_room(encoding, limit, size)?;
        let file = self.full.len() as u64;
        let reference = file * 0x1_0000_0000 + self.len;
        self.last.count += 1;
        self.len += size;
        Ok(reference)
    }

    // Places the chunks of a row, and returns their references.
    fn place_row(
        &mut self,
        alloc: Global,
        encoding: Encoding,
        limit: u32,
        row: &[ChunkSpan],
    ) -> Result<Vec<u64>, WriteFault>
        requires short { All (λ span. span.len ≤ longest_chunk) row.now }
        ensures stands { OnOk result ((before : List (List Text)) (chunks : List ChunkOfRow) → map span_of chunks ≡ row.now → Stands encoding limit (flat_map (λ r. r) before) self.old →
            Stands encoding limit (flat_map (λ r. r) (before ++ row_texts chunks ∷ [])) self.new) }
        ensures references { IfOk result (λ found. (before : List (List Text)) (chunks : List ChunkOfRow) → map span_of chunks ≡ row.now → Stands encoding limit (flat_map (λ r. r) before) self.old →
            found.items ≡ row_references encoding limit before (row_texts chunks)) }
        ensures large { result ≡ Err WriteFault.TooLarge → (before : List (List Text)) (chunks : List ChunkOfRow) → map span_of chunks ≡ row.now → Stands encoding limit (flat_map (λ r. r) before) self.old →
            2 ^ 32 < length (chunk_files encoding limit (flat_map (λ r. r) (before ++ row_texts chunks ∷ []))) }
    {
        let mut found = Vec::new(alloc);
        for span in row {
            found.push(self.place(encoding, limit, span.len)?)?;
        }
        Ok(found)
    }

    // Returns which chunks each file has.
    fn into_files(self) -> Result<Vec<FileSpan>, AllocError>
        ensures files { IfOk result (λ files. (e : Encoding) (limit : ℕ) (all : List Text) → Stands e limit all self → map (file_at e all) files.items ≡ chunk_files e limit all) }
        ensures few { IfOk result (λ files. length files.items ≤ 2 ^ 32) }
    {
        let Placing {
            mut full,
            last,
            len,
        } = self;
        if len > 0 {
            full.push(last)?;
        }
        Ok(full)
    }
}

/// Places the chunks of rows in files of at most `limit` bytes, as `write_chunks` does, by the lengths of their data alone. So it is known
/// where each chunk will stand before its data are made.
///
/// Returned are the references of the chunks of each row, and of each file which chunks it has. `put_file_head`, and `put_chunk` for each of
/// its chunks in order, write the file.
pub fn place_spans(
    alloc: Global,
    encoding: Encoding,
    rows: &[Items<ChunkSpan>],
    limit: u32,
) -> Result<PlacedChunks, WriteFault>
    requires short { All (λ spans. All (λ span. span.len ≤ longest_chunk) spans) rows.now }
    ensures references { (chunks : List (List ChunkOfRow)) → map (map span_of) chunks ≡ rows.now → IfOk result (λ placed. placed.references.items ≡ references encoding limit (texts chunks)) }
    ensures files { (chunks : List (List ChunkOfRow)) → map (map span_of) chunks ≡ rows.now →
        IfOk result (λ placed. map (file_at encoding (all_texts chunks)) placed.files.items ≡ chunk_files encoding limit (all_texts chunks)) }
    ensures few { IfOk result (λ placed. length placed.files.items ≤ 2 ^ 32) }
    ensures large { (chunks : List (List ChunkOfRow)) → map (map span_of) chunks ≡ rows.now → result ≡ Err WriteFault.TooLarge → 2 ^ 32 < length (chunk_files encoding limit (all_texts chunks)) }
{
    let mut placing = Placing::new(alloc);
    let mut found = Vec::new(alloc);
    for row in rows {
        found.push(Items::from_vec(placing.place_row(alloc, encoding, limit, row.as_slice())?))?;
    }
    Ok(PlacedChunks {
        references: found,
        files: placing.into_files()?,
    })
}
