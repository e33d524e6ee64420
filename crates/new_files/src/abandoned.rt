//! What runs that were killed left behind.

ghost use Rattle.std.specs.Prelude.{◌≡◌, Some};
ghost use Rattle.new_files.specs.Abandoned.{Clears};

use std::alloc::Global;
use store::{Store, join};
use wal_log::segment_number;

// Removes an unfinished file, if the name is that of one, and no run holds the segment that it was to become.
fn clear<S: Store>(alloc: Global, store: &mut S, dir: &str, name: &str)
    ensures { Clears S.did store.old dir.now store.new }
{
    let Some(whole) = name.strip_suffix(".tmp") else {
        return;
    };
    if segment_number(whole).is_none() {
        return;
    }
    let (Ok(claim), Ok(unfinished)) = (join(alloc, dir, whole), join(alloc, dir, name)) else {
        return;
    };
    if store.is_abandoned(&claim) {
        let _ = store.remove_file(&unfinished);
    }
}

/// Removes from the directory of a log the unfinished files of segments that no run writes any more: a run that is killed leaves one beside its
/// empty segment. The segment stays, since a later one may stand after it. Nothing else is changed, and what cannot be read or removed is
/// left.
pub fn clear_abandoned<S: Store>(alloc: Global, store: &mut S, dir: &str)
    ensures { Clears S.did store.old dir.now store.new }
{
    let Ok(names) = store.read_dir(dir) else {
        return;
    };
    for name in &names {
        clear(alloc, store, dir, name);
    }
}
