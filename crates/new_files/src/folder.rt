//! A new folder.

ghost use Rattle.std.specs.Prelude.{◌≡◌, ◌++◌, ◌∷◌, [], IsOk, map, string_bytes, true};
ghost use Rattle.store.specs.Calls.{CreateDir, Rename, SyncDir};
ghost use Rattle.store.specs.Disk.{is_in};
ghost use Rattle.new_files.specs.Crashes.{IsCrashSafe};
ghost use Rattle.new_files.specs.Folders.{AreInside, LeavesFolder, LeavesOldOrFolder, create_dirs as dirs_created, file_at, files_calls, sync_dirs as dirs_synced};
ghost use Rattle.new_files.specs.Orders.{Follows};

use crate::fault::{WriteFault, written};
use crate::file::write_synced;
use crate::target::Target;
use std::alloc::Global;
use store::Store;

/// A file of a new folder.
#[derive(Debug, Drop)]
pub struct NewFile<'a> {
    pub path: String,
    pub bytes: &'a [u8],
}

fn create_dirs<S: Store>(alloc: Global, store: &mut S, dirs: &[String]) -> Result<(), WriteFault>
    ensures { Follows S.did store.old (dirs_created (map string_bytes dirs.now)) result store.new }
{
    for dir in dirs {
        let path = dir.as_str();
        written(alloc, path, store.create_dir(path))?;
    }
    Ok(())
}

fn sync_dirs<S: Store>(alloc: Global, store: &mut S, dirs: &[String]) -> Result<(), WriteFault>
    ensures { Follows S.did store.old (dirs_synced (map string_bytes dirs.now)) result store.new }
{
    for dir in dirs {
        let path = dir.as_str();
        written(alloc, path, store.sync_dir(path))?;
    }
    Ok(())
}

/// Writes files of a folder that `begin_folder` began. Each is synced before the next one is created. Where a call fails, returns
/// `CannotWrite` with its path, and what was written stays.
pub fn write_files<S: Store>(
    alloc: Global,
    store: &mut S,
    files: &[NewFile<'_>],
) -> Result<(), WriteFault>
    ensures { Follows S.did store.old (files_calls (map file_at files.now)) result store.new }
{
    for file in files {
        write_synced(alloc, store, file.path.as_str(), file.bytes)?;
    }
    Ok(())
}

/// Creates a folder and directories in it: the first part of a new folder, before its files. Where a call fails, returns `CannotWrite` with
/// its path, and what was created stays.
pub fn begin_folder<S: Store>(
    alloc: Global,
    store: &mut S,
    folder: &str,
    dirs: &[String],
) -> Result<(), WriteFault>
    ensures { Follows S.did store.old (CreateDir folder.now ∷ dirs_created (map string_bytes dirs.now)) result store.new }
{
    written(alloc, folder, store.create_dir(folder))?;
    create_dirs(alloc, store, dirs)
}

// Syncs the directories in the unfinished folder, and then the folder.
fn sync_folder<S: Store>(
    alloc: Global,
    store: &mut S,
    folder: &str,
    dirs: &[String],
) -> Result<(), WriteFault>
    ensures { Follows S.did store.old (dirs_synced (map string_bytes dirs.now) ++ SyncDir folder.now ∷ []) result store.new }
{
    sync_dirs(alloc, store, dirs)?;
    written(alloc, folder, store.sync_dir(folder))
}

// Renames the unfinished folder to the path, and syncs the directory that it is in.
fn move_folder<S: Store>(
    alloc: Global,
    store: &mut S,
    parent: &str,
    path: &str,
    unfinished: &str,
) -> Result<(), WriteFault>
    ensures { Follows S.did store.old (Rename unfinished.now path.now ∷ SyncDir parent.now ∷ []) result store.new }
{
    written(alloc, path, store.rename(unfinished, path))?;
    written(alloc, path, store.sync_dir(parent))
}

/// Finishes a folder that `begin_folder` began and whose files are written: syncs its directories and then the folder, renames it to the
/// path, and syncs the directory that it is in last. Where a call fails, returns `CannotWrite` with its path, and the folder stays.
///
/// With `begin_folder` and the calls of `write_files` or `write_synced` before it, these are the calls of a new folder.
pub fn finish_folder<S: Store>(
    alloc: Global,
    store: &mut S,
    target: &Target<'_>,
    dirs: &[String],
) -> Result<(), WriteFault>
    ensures calls { Follows S.did store.old (dirs_synced (map string_bytes dirs.now) ++ SyncDir target.now.unfinished ∷ Rename target.now.unfinished target.now.path ∷ SyncDir target.now.parent ∷ []) result store.new }
    ensures inside { is_in target.now.parent target.now.path ≡ true }
{
    let path = target.path();
    let unfinished = target.unfinished();
    sync_folder(alloc, store, unfinished, dirs)?;
    move_folder(alloc, store, target.parent(), path, unfinished)
}

/// Creates a folder with these directories and files. The unfinished folder is filled, its files and then its directories are synced, it is
/// renamed to the path, and the directory that it is in is synced last. Where a call fails, returns `CannotWrite` with its path, and the
/// unfinished folder stays.
///
/// A crash at any moment leaves at the path what was there, or the whole folder; after an `Ok`, the whole folder.
pub fn write_new_folder<S: Store>(
    alloc: Global,
    store: &mut S,
    target: &Target<'_>,
    dirs: &[String],
    files: &[NewFile<'_>],
) -> Result<(), WriteFault>
    requires inside { AreInside target.now.unfinished (map string_bytes dirs.now) (map file_at files.now) }
    ensures crash { IsCrashSafe S.did store.old (LeavesOldOrFolder target.now.path target.now.unfinished (map string_bytes dirs.now) (map file_at files.now))
        (LeavesFolder target.now.path target.now.unfinished (map string_bytes dirs.now) (map file_at files.now)) (IsOk result) store.new }
{
    begin_folder(alloc, store, target.unfinished(), dirs)?;
    write_files(alloc, store, files)?;
    finish_folder(alloc, store, target, dirs)
}
