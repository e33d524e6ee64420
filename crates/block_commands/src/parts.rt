//! Reading the parts of a block from a folder.

ghost use Rattle.std.specs.Prelude.{◌≡◌, All, IfOk, map, string_bytes};
ghost use Rattle.store.specs.Found.{Bytes};
ghost use Rattle.block_commands.specs.Folders.{block_files, chunk_paths, chunks_in, numbered};

use answers::Fault;
use block_read::Block;
use hw_bytes::Items;
use log_directory::{names_in, read_in, read_paths};
use new_files::six_digits;
use std::alloc::{AllocError, Global};
use store::{Store, join};

// Returns whether this is the name of one of the first `most` chunk files.
fn is_chunk_name(alloc: Global, name: &str, most: u64) -> Result<bool, AllocError> {
    match name.parse::<u64>() {
        Ok(number) if 1 <= number && number <= most => {
            Ok(six_digits(alloc, number)?.as_str() == name)
        }
        _ => Ok(false),
    }
}

// Returns how many chunk files a directory has, by its names, which are distinct. Returns `None` unless they are 000001, 000002 and so on,
// in any order.
fn chunk_count(alloc: Global, names: &[String]) -> Result<Option<u64>, AllocError> {
    let count = names.len() as u64;
    for name in names {
        if !is_chunk_name(alloc, name, count)? {
            return Ok(None);
        }
    }
    Ok(Some(count))
}

// Returns the paths of so many chunk files in a directory.
fn paths_of(alloc: Global, dir: &str, count: u64) -> Result<Vec<String>, AllocError>
    ensures { IfOk result (λ paths. map string_bytes paths.items ≡ numbered dir.now 1 count) }
{
    let mut paths = Vec::new(alloc);
    for before in 0..count {
        let name = six_digits(alloc, before + 1)?;
        paths.push(join(alloc, dir, &name)?)?;
    }
    Ok(paths)
}

// Wraps the bytes of files.
fn wrapped(alloc: Global, files: Vec<Vec<u8>>) -> Result<Vec<Items<u8>>, AllocError>
    ensures { IfOk result (λ chunks. chunks.items ≡ map (λ file. file.items) files.items) }
{
    files.into_iter().map(Items::from_vec).collect(alloc)
}

// Reads the chunk files in a directory, or none if one of its names is no chunk file's: a block has a chunk, so such a folder is refused
// for its chunks once its index was accepted.
fn read_chunks<S: Store>(alloc: Global, store: &S, dir: &str) -> Result<Items<Items<u8>>, Fault>
    ensures { IfOk result (λ chunks. All (λ file. S.holds store.now file.path (Bytes file.bytes)) (chunk_paths dir.now 1 chunks)) }
{
    let names = names_in(alloc, store, dir)?;
    let count = chunk_count(alloc, &names)?.unwrap_or(0);
    let paths = paths_of(alloc, dir, count)?;
    let files = read_paths(alloc, store, &paths)?;
    Ok(Items::from_vec(wrapped(alloc, files)?))
}

/// Reads the parts of the block in a folder. All parts are read before any is checked. If one of the names in the folder's directory of chunk
/// files is no chunk file's, there are no chunks among the parts.
pub fn read_parts<S: Store>(alloc: Global, store: &S, path: &str) -> Result<Block, Fault>
    ensures { IfOk result (λ block. All (λ file. S.holds store.now file.path (Bytes file.bytes)) (block_files path.now (chunks_in path.now) block)) }
{
    let index = read_in(alloc, store, path, "index")?;
    let dir = join(alloc, path, "chunks")?;
    let chunks = read_chunks(alloc, store, &dir)?;
    let tombstones = read_in(alloc, store, path, "tombstones")?;
    let meta = read_in(alloc, store, path, "meta.json")?;
    Ok(Block {
        index,
        chunks,
        tombstones,
        meta,
    })
}
