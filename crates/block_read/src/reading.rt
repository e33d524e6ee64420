//! Reading a whole block.

ghost use Rattle.std.specs.Prelude.{◌≡◌, List, Err, IfErr, IfOk};
ghost use Rattle.block_files.specs.declared.encoding.Encoding.{Encoding as ChunkEncoding};
ghost use Rattle.block_files.specs.Files.{StandsAt};
ghost use Rattle.hw_bytes.specs.Sums.{Text};
ghost use Rattle.head_column.specs.declared.items.Run.{Run as HiddenRun};
ghost use Rattle.head_column.specs.Samples.{Sample as Entry};
ghost use Rattle.index_text.specs.declared.fault.ReadFault.{ReadFault};
ghost use Rattle.index_text.specs.declared.row.IndexRow.{IndexRow as Row};
ghost use Rattle.index_text.specs.Reading.{Answers, front_of};
ghost use Rattle.index_text.specs.Rows.{IsIndex};
ghost use Rattle.block_read.specs.declared.rows.BlockRows.{BlockRows as Rows};
ghost use Rattle.block_read.specs.Blocks.{HasHidden, HasSamples, IsBlockOf};
ghost use Rattle.block_read.specs.Faults.{of_index};

use crate::block::Block;
use crate::describing::read_meta;
use crate::fault::{BlockFault, PartFault};
use crate::hidden::read_hidden;
use crate::joining::join_rows;
use crate::rows::BlockRows;
use crate::samples::read_samples;
use block_files::{Encoding, chunk_at};
use block_index::{few_chunks, read_numbered_index};
use hw_bytes::Items;
use std::alloc::Global;
use xor_chunk::short_chunk;

// Returns the encoding of the first chunk of a block's files, or `Raw` if there is none.
fn encoding_of(files: &[Items<u8>]) -> Encoding
    ensures { (e : ChunkEncoding) (body : Text) → StandsAt e files.now 8 body → result ≡ e }
{
    match chunk_at(files, 8) {
        Some((encoding, _)) => encoding,
        None => Encoding::Raw,
    }
}

// Reads a block with chunks in this encoding.
fn read_as(alloc: Global, block: &Block, encoding: Encoding) -> Result<BlockRows, BlockFault>
    ensures found { IfOk result (λ rows. IsBlockOf encoding block.now rows) }
    ensures only { (rows : Rows) → IsBlockOf encoding block.now rows → IfOk result (λ read. read ≡ rows) }
    ensures refuses { (rows : Rows) → IsBlockOf encoding block.now rows → IfErr result (λ fault. fault ≡ BlockFault.Memory) }
    ensures front { (fault : ReadFault) → front_of block.now.index ≡ Err fault → result ≡ Err (of_index fault) }
    ensures bad_index { (fault : ReadFault) → result ≡ Err (BlockFault.Index fault) → Answers block.now.index fault × (fault ≡ ReadFault.Memory → ⊥) }
    ensures bad_chunks { result ≡ Err BlockFault.BadChunks →
        (index : List Row) × IsIndex block.now.index index × ((samples : List (List Entry)) → HasSamples encoding block.now.chunks index samples → ⊥) }
    ensures bad_tombstones { result ≡ Err BlockFault.BadTombstones →
        (index : List Row) × IsIndex block.now.index index × (samples : List (List Entry)) × HasSamples encoding block.now.chunks index samples
        × ((hidden : List (List HiddenRun)) → HasHidden block.now.tombstones index hidden → ⊥) }
    ensures bad_meta { result ≡ Err BlockFault.BadMeta →
        (index : List Row) × IsIndex block.now.index index × (samples : List (List Entry)) × HasSamples encoding block.now.chunks index samples
        × (hidden : List (List HiddenRun)) × HasHidden block.now.tombstones index hidden × ((rows : Rows) → IsBlockOf encoding block.now rows → ⊥) }
{
    let index = read_numbered_index(alloc, block.index.as_slice())?;
    let samples = match read_samples(
        alloc,
        block.chunks.as_slice(),
        index.rows.as_slice(),
        encoding,
    ) {
        Ok(samples) => samples,
        Err(PartFault::Bad) => return Err(BlockFault::BadChunks),
        Err(PartFault::Memory) => return Err(BlockFault::Memory),
    };
    let hidden = match read_hidden(alloc, block.tombstones.as_slice(), index.ids.as_slice()) {
        Ok(hidden) => hidden,
        Err(PartFault::Bad) => return Err(BlockFault::BadTombstones),
        Err(PartFault::Memory) => return Err(BlockFault::Memory),
    };
    // for the proof: the counts of chunks and of samples have 64 bits
    few_chunks();
    let (ulid, hour) = match read_meta(alloc, block.meta.as_slice(), &samples, &hidden) {
        Ok(meta) => meta,
        Err(PartFault::Bad) => return Err(BlockFault::BadMeta),
        Err(PartFault::Memory) => return Err(BlockFault::Memory),
    };
    let Ok(rows) = join_rows(alloc, index.rows.into_vec(), samples, hidden) else {
        return Err(BlockFault::Memory);
    };
    Ok(BlockRows {
        ulid,
        hour,
        rows: Items::from_vec(rows),
    })
}

/// Reads a block with chunks in the encoding `Raw`, and returns its ULID, its hour and its rows. The parts are checked in the order of the
/// errors: `Index` if `read_index` returns an error; `BadChunks` unless the chunk files are the text, in that encoding, of samples in
/// chunks of 120 with the references and times in the index; `BadTombstones` unless the tombstones are the text of runs of the series in
/// the index, ascending with a gap between any two of a series; `BadMeta` unless meta.json is the text for these rows with a ULID and an
/// hour that is no edge and has all samples and runs. A block with chunks in the encoding `Xor` is `BadChunks`.
pub fn read_block(alloc: Global, block: &Block) -> Result<BlockRows, BlockFault>
    // Rows are read only from their own block, and every block is read unless memory runs out.
    ensures found { IfOk result (λ rows. IsBlockOf Encoding.Raw block.now rows) }
    ensures only { (rows : Rows) → IsBlockOf Encoding.Raw block.now rows → IfOk result (λ read. read ≡ rows) }
    ensures refuses { (rows : Rows) → IsBlockOf Encoding.Raw block.now rows → IfErr result (λ fault. fault ≡ BlockFault.Memory) }

    // The error. That of the header or the table of contents of the index does not depend on memory.
    ensures front { (fault : ReadFault) → front_of block.now.index ≡ Err fault → result ≡ Err (of_index fault) }
    ensures bad_index { (fault : ReadFault) → result ≡ Err (BlockFault.Index fault) → Answers block.now.index fault × (fault ≡ ReadFault.Memory → ⊥) }
    ensures bad_chunks { result ≡ Err BlockFault.BadChunks →
        (index : List Row) × IsIndex block.now.index index × ((samples : List (List Entry)) → HasSamples Encoding.Raw block.now.chunks index samples → ⊥) }
    ensures bad_tombstones { result ≡ Err BlockFault.BadTombstones →
        (index : List Row) × IsIndex block.now.index index × (samples : List (List Entry)) × HasSamples Encoding.Raw block.now.chunks index samples
        × ((hidden : List (List HiddenRun)) → HasHidden block.now.tombstones index hidden → ⊥) }
    ensures bad_meta { result ≡ Err BlockFault.BadMeta →
        (index : List Row) × IsIndex block.now.index index × (samples : List (List Entry)) × HasSamples Encoding.Raw block.now.chunks index samples
        × (hidden : List (List HiddenRun)) × HasHidden block.now.tombstones index hidden × ((rows : Rows) → IsBlockOf Encoding.Raw block.now rows → ⊥) }
{
    read_as(alloc, block, Encoding::Raw)
}

/// Reads a block with chunks in either encoding, and returns the encoding with the ULID, the hour and the rows. The encoding is that of the
/// first chunk, and all chunks must have it. The parts are checked as by `read_block`, but `BadChunks` means that the chunk files are in
/// neither encoding the text of samples in chunks of 120 with the references and times in the index.
pub fn read_any_block(alloc: Global, block: &Block) -> Result<(Encoding, BlockRows), BlockFault>
    // Rows are read only from their own block, and every block is read unless memory runs out.
    ensures found { IfOk result (λ read. IsBlockOf read.0 block.now read.1) }
    ensures only { (e : ChunkEncoding) (rows : Rows) → IsBlockOf e block.now rows → IfOk result (λ read. (read.0 ≡ e) × (read.1 ≡ rows)) }
    ensures refuses { (e : ChunkEncoding) (rows : Rows) → IsBlockOf e block.now rows → IfErr result (λ fault. fault ≡ BlockFault.Memory) }

    // The error. That of the header or the table of contents of the index does not depend on memory.
    ensures front { (fault : ReadFault) → front_of block.now.index ≡ Err fault → result ≡ Err (of_index fault) }
    ensures bad_index { (fault : ReadFault) → result ≡ Err (BlockFault.Index fault) → Answers block.now.index fault × (fault ≡ ReadFault.Memory → ⊥) }
    ensures bad_chunks { result ≡ Err BlockFault.BadChunks →
        (index : List Row) × IsIndex block.now.index index
        × ((e : ChunkEncoding) (samples : List (List Entry)) → HasSamples e block.now.chunks index samples → ⊥) }
    ensures bad_tombstones { result ≡ Err BlockFault.BadTombstones →
        (index : List Row) × IsIndex block.now.index index
        × (e : ChunkEncoding) × (samples : List (List Entry)) × HasSamples e block.now.chunks index samples
        × ((hidden : List (List HiddenRun)) → HasHidden block.now.tombstones index hidden → ⊥) }
    ensures bad_meta { result ≡ Err BlockFault.BadMeta →
        (index : List Row) × IsIndex block.now.index index
        × (e : ChunkEncoding) × (samples : List (List Entry)) × HasSamples e block.now.chunks index samples
        × (hidden : List (List HiddenRun)) × HasHidden block.now.tombstones index hidden
        × ((d : ChunkEncoding) (rows : Rows) → IsBlockOf d block.now rows → ⊥) }
{
    // for the proof: the data of the first chunk are short
    short_chunk();
    let encoding = encoding_of(block.chunks.as_slice());
    let rows = read_as(alloc, block, encoding)?;
    Ok((encoding, rows))
}
