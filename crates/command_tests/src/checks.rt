//! What tests hold against what is wanted.

use crate::shelf::Shelf;
use std::alloc::Global;
use std::fmt::Debug;
use std::io::ErrorKind;
use std::process::Abort;
use store::{Reason, Store, StoreFault};

/// The name of all blocks of the tests.
pub const ULID: &str = "01ARZ3NDEKTSV4RRFFQ69G5FAV";

/// A store refused, and does not say why.
pub const UNSAID: StoreFault = StoreFault::Refused(Reason::Other(ErrorKind::Other));

/// Ends the test where what a case gives is not what it is to give.
pub fn same<C: Debug + Drop, T: PartialEq + Debug + Drop>(
    rt: &impl Abort,
    case: C,
    found: T,
    wanted: T,
) {
    assert_eq!(rt; found, wanted, "at {case:?}");
}

/// The names in a directory, each after a space.
pub fn names<S: Store>(alloc: Global, store: &S, dir: &str) -> Result<String, StoreFault> {
    let mut text = String::new(alloc);
    for name in store.read_dir(dir)? {
        write!(text, " {name}")?;
    }
    Ok(text)
}

/// Returns whether a directory has this name.
pub fn has_name<S: Store>(store: &S, dir: &str, wanted: &str) -> Result<bool, StoreFault> {
    let found = store.read_dir(dir)?;
    Ok(found.iter().any(|name| name.as_str() == wanted))
}

/// Ends the test unless just these names are in a directory, each after a space, in the order in which they were made.
pub fn assert_names<R: Abort + AllocGlobal>(
    rt: &R,
    shelf: &Shelf,
    dir: &str,
    wanted: &str,
) -> Result<(), StoreFault> {
    let found = names(rt.alloc(), shelf, dir)?;
    same(rt, dir, found.as_str(), wanted);
    Ok(())
}
