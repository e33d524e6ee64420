//! A new file.

ghost use Rattle.std.specs.Prelude.{IfErr};
ghost use Rattle.new_files.specs.Faults.{NamesPath};
ghost use Rattle.new_files.specs.Files.{file_calls};
ghost use Rattle.new_files.specs.Orders.{Follows};

use crate::fault::{WriteFault, written};
use std::alloc::Global;
use store::{Pieces, Store, StoreFault};

// Creates a file, writes these bytes and syncs it.
pub(crate) fn write_file<S: Store>(
    store: &mut S,
    path: &str,
    bytes: &[u8],
) -> Result<(), StoreFault>
    ensures { Follows S.did store.old (file_calls path.now bytes.now) result store.new }
{
    let mut writer = store.create_new(path)?;
    store.write(&mut writer, bytes)?;
    store.sync_file(&mut writer)
}

/// Creates a file, writes these bytes and syncs it. Where a call fails, returns `CannotWrite` with the path, and what was written stays.
pub fn write_synced<S: Store>(
    alloc: Global,
    store: &mut S,
    path: &str,
    bytes: &[u8],
) -> Result<(), WriteFault>
    ensures calls { Follows S.did store.old (file_calls path.now bytes.now) result store.new }
    ensures told { IfErr result (λ fault. NamesPath path.now fault) }
{
    written(alloc, path, write_file(store, path, bytes))
}

// Creates a file, writes bytes as they come and syncs it.
fn write_file_of<S: Store, P: Pieces>(
    alloc: Global,
    store: &mut S,
    path: &str,
    pieces: &mut P,
) -> Result<(), StoreFault>
    ensures { Follows S.did store.old (file_calls path.now (P.text pieces.old)) result store.new }
{
    let mut writer = store.create_new(path)?;
    store.write_pieces(alloc, &mut writer, pieces)?;
    store.sync_file(&mut writer)
}

/// Creates a file, writes bytes as they come and syncs it, as `write_synced` does with bytes that are all there. Where making them fails, some may
/// be written.
pub fn write_pieces_synced<S: Store, P: Pieces>(
    alloc: Global,
    store: &mut S,
    path: &str,
    pieces: &mut P,
) -> Result<(), WriteFault>
    ensures calls { Follows S.did store.old (file_calls path.now (P.text pieces.old)) result store.new }
    ensures told { IfErr result (λ fault. NamesPath path.now fault) }
{
    written(alloc, path, write_file_of(alloc, store, path, pieces))
}
