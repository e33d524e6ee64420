//! Reading the samples of a block.

ghost use Rattle.std.specs.Prelude.{◌≡◌, ◌≤◌, ◌^◌, ◌++◌, ◌∷◌, [], List, length, map, Err, IfOk, IsTrue};
ghost use Rattle.std.specs.List.{zip};
ghost use Rattle.hw_bytes.specs.Sums.{Text};
ghost use Rattle.head_column.specs.Samples.{Sample as Entry};
ghost use Rattle.head_column.specs.Chunks.{chunk_samples, parts};
ghost use Rattle.block_files.specs.Files.{row_texts};
ghost use Rattle.block_read.specs.Blocks.{HasSamples, IsColumn, chunks_in, file_limit, meta_of};
ghost use Rattle.block_read.specs.Reading.{AreThere, files_with, row_metas};

use crate::chunks::read_row;
use crate::fault::PartFault;
use block_files::{CHUNK_FILE_LIMIT, ChunkFiles, Encoding};
use block_index::{ChunkMeta, IndexRow};
use head_column::{Chunk, Sample};
use hw_bytes::Items;
use std::alloc::Global;
use xor_chunk::short_chunk;

// Returns whether the index has the times of the chunk and this reference.
fn is_named(meta: &ChunkMeta, chunk: &Chunk, reference: u64) -> bool
    ensures sound { IsTrue result → meta.now ≡ meta_of (chunk.now, reference) }
    ensures complete { meta.now ≡ meta_of (chunk.now, reference) → IsTrue result }
{
    meta.min_time == chunk.min_time
        && meta.max_time == chunk.max_time
        && meta.reference == reference
}

// Returns whether the index has the times of the chunks and these references.
fn are_named(metas: &[ChunkMeta], chunks: &[Chunk], references: &[u64]) -> bool
    requires { length references.now ≡ length chunks.now }
    ensures sound { IsTrue result → metas.now ≡ map meta_of (zip chunks.now references.now) }
    ensures complete { metas.now ≡ map meta_of (zip chunks.now references.now) → IsTrue result }
{
    if metas.len() != chunks.len() {
        return false;
    }
    for i in 0..metas.len() {
        if !is_named(&metas[i], &chunks[i], references[i]) {
            return false;
        }
    }
    true
}

// Returns whether two lists of files are equal.
fn are_same(files: &[Items<u8>], others: &[Items<u8>]) -> bool
    ensures sound { IsTrue result → files.now ≡ others.now }
    ensures complete { files.now ≡ others.now → IsTrue result }
{
    if files.len() != others.len() {
        return false;
    }
    for i in 0..files.len() {
        if files[i].as_slice() != others[i].as_slice() {
            return false;
        }
    }
    true
}

// Reads the samples of an index row, and appends their chunks to `again`, which gives the references that they must have.
fn read_checked_row(
    alloc: Global,
    files: &[Items<u8>],
    again: &mut ChunkFiles,
    metas: &[ChunkMeta],
    encoding: Encoding,
) -> Result<Vec<Sample>, PartFault>
    requires limit { again.old.limit ≡ file_limit }
    requires encoding { again.old.encoding ≡ encoding }
    ensures limit { again.new.limit ≡ file_limit }
    ensures encoding { again.new.encoding ≡ encoding }
    ensures column { IfOk result (λ samples. IsColumn samples.items) }
    ensures written { (before : List (List Text)) → again.old.files ≡ files_with encoding before →
        IfOk result (λ samples. again.new.files ≡ files_with encoding (before ++ row_texts (chunks_in encoding samples.items) ∷ [])) }
    ensures named { (before : List (List Text)) → again.old.files ≡ files_with encoding before →
        IfOk result (λ samples. metas.now ≡ row_metas encoding before samples.items) }
    ensures only { (samples : List Entry) → IsColumn samples → AreThere encoding files.now metas.now (parts chunk_samples samples) →
        IfOk result (λ read. read.items ≡ samples) }
    ensures bad { result ≡ Err PartFault.Bad → (before : List (List Text)) → again.old.files ≡ files_with encoding before →
        (samples : List Entry) → IsColumn samples → AreThere encoding files.now metas.now (parts chunk_samples samples) →
        metas.now ≡ row_metas encoding before samples →
        length (files_with encoding (before ++ row_texts (chunks_in encoding samples) ∷ [])) ≤ 2 ^ 32 → ⊥ }
{
    let read = read_row(alloc, files, metas, encoding)?;
    // for the proof: the data of a chunk are short
    short_chunk();
    let references = again.add_row(alloc, &read.chunks)?;
    if !are_named(metas, &read.chunks, &references) {
        return Err(PartFault::Bad);
    }
    Ok(read.samples)
}

// Reads the samples of a block with chunks in this encoding, a list for each row of its index.
pub(crate) fn read_samples(
    alloc: Global,
    files: &[Items<u8>],
    rows: &[IndexRow],
    encoding: Encoding,
) -> Result<Vec<Items<Sample>>, PartFault>
    ensures found { IfOk result (λ samples. HasSamples encoding files.now rows.now samples.items) }
    ensures only { (samples : List (List Entry)) → HasSamples encoding files.now rows.now samples → IfOk result (λ read. read.items ≡ samples) }
    ensures bad { result ≡ Err PartFault.Bad → (samples : List (List Entry)) → HasSamples encoding files.now rows.now samples → ⊥ }
{
    // for the proof: the data of a chunk are short
    short_chunk();
    let mut again = ChunkFiles::new(alloc, encoding, CHUNK_FILE_LIMIT);
    let mut samples = Vec::new(alloc);
    for row in rows {
        let read = read_checked_row(alloc, files, &mut again, row.chunks.as_slice(), encoding)?;
        samples.push(Items::from_vec(read))?;
    }
    let written = again.into_files()?;
    if !are_same(&written, files) {
        return Err(PartFault::Bad);
    }
    Ok(samples)
}
