//! Laws of the order in which a new file is written.

ghost use Rattle.std.specs.Prelude.{◌≢◌, ℕ, IsTrue, List, [], ◌∷◌};
ghost use Rattle.store.specs.Calls.{Create, Rename, Write};
ghost use Rattle.new_files.specs.Crashes.{AfterCrash};
ghost use Rattle.new_files.specs.Files.{LeavesOldOrFile};
ghost use Rattle.new_files.specs.Growing.{LeavesGrown, Step, growing_file};
ghost use Rattle.store.specs.Disk.{is_in};

/// Proves that the order matters: if the unfinished file is renamed before it is synced, a crash may leave at the path something else than
/// what was there, an empty file, or the whole file.
pub fn renamed_too_early()
    ensures { (path unfinished bytes : List ℕ) → path ≢ unfinished →
        AfterCrash (LeavesOldOrFile path unfinished bytes) (Create path ∷ Create unfinished ∷ Write unfinished bytes ∷ Rename unfinished path ∷ []) → ⊥ }
{}

/// Proves what a crash leaves of a file that grows, once it was created, and it and its name were synced: whatever was written and synced of it
/// since, the file is there with a first part of what was written, and at least with what was synced. All else is as it was.
pub fn grown_file()
    ensures { (parent path : List ℕ) (steps : List Step) → IsTrue (is_in parent path) → AfterCrash (LeavesGrown path steps) (growing_file parent path steps) }
{}
