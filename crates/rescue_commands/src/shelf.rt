//! The directory in which blocks are written.

ghost use Rattle.std.specs.Prelude.{◌≡◌, IfOk, IfSome, false};
ghost use Rattle.rescue_commands.specs.Rescues.{Stands};
ghost use Rattle.rescue_commands.specs.Steps.{IsBlockOfHead};

use crate::cutting::{NamedBlock, cut_hour, stands};
use crate::standing::{Standing, standing_in};
use answers::Fault;
use block_read::Ulid;
use head_column::Hour;
use head_core::Head;
use log_directory::names_in;
use std::alloc::Global;
use std::thread::Threads;
use store::Store;

/// The directory in which blocks are written, and what was in it before the first was.
pub(crate) struct Shelf<'a> {
    /// The path of the directory.
    pub(crate) out: &'a str,
    /// The names in it.
    pub(crate) names: Vec<String>,
    /// The blocks in it.
    pub(crate) blocks: Vec<Standing>,
}

impl Drop for Shelf<'_> {
    fn drop(self) {
        let Shelf {
            out: _,
            names: _names,
            blocks: _blocks,
        } = self;
    }
}

/// Looks at a directory, whose names are sorted. Where no block is to be written in it, it is not looked at.
pub(crate) fn shelf_of<'a, S: Store>(
    alloc: Global,
    store: &S,
    out: &'a str,
    is_needed: bool,
) -> Result<Shelf<'a>, Fault>
    ensures { IfOk result (λ shelf. shelf.out.now ≡ out.now) }
{
    let names = if is_needed {
        sorted_names(alloc, store, out)?
    } else {
        Vec::new(alloc)
    };
    let blocks = standing_in(alloc, store, out, &names)?;
    Ok(Shelf { out, names, blocks })
}

// Returns the names in a directory, in the order of their bytes.
fn sorted_names<S: Store>(alloc: Global, store: &S, out: &str) -> Result<Vec<String>, Fault> {
    let mut names = names_in(alloc, store, out)?;
    names.sort()?;
    Ok(names)
}

// Returns whether the block is said to be of this hour.
fn is_of(block: &Standing, hour: Hour) -> bool {
    (i128::from(block.from), i128::from(block.to)) == hour.bounds()
}

// Cuts an hour of a head under the name of a block that is in a directory, and returns it if it is that block.
fn same_block<R: Threads + Sync, S: Store>(
    rt: &R,
    alloc: Global,
    store: &S,
    head: &Head,
    hour: Hour,
    out: &str,
    ulid: Ulid,
) -> Result<Option<NamedBlock>, Fault>
    requires { head.now.failed ≡ false }
    ensures { IfOk result (λ found. IfSome found (λ same. (same.hour ≡ hour) × IsBlockOfHead head.now.content hour same.ulid same.block × Stands (S.holds store.now) out.now same.ulid same.block)) }
{
    let named = cut_hour(rt, alloc, head, hour, ulid)?;
    if !stands(alloc, store, out, &named)? {
        return Ok(None);
    }
    Ok(Some(named))
}

impl Shelf<'_> {
    /// Returns whether a block that is in the directory is said to be of one of these hours.
    pub(crate) fn has_any(&self, hours: &[Hour]) -> bool {
        self.blocks
            .iter()
            .any(|block| hours.iter().any(|hour| is_of(block, *hour)))
    }

    /// Returns the block of an hour of a head, which must not have failed, if it is in the directory, byte for byte.
    pub(crate) fn find<R: Threads + Sync, S: Store>(
        &self,
        rt: &R,
        alloc: Global,
        store: &S,
        head: &Head,
        hour: Hour,
    ) -> Result<Option<NamedBlock>, Fault>
        requires { head.now.failed ≡ false }
        ensures { IfOk result (λ found. IfSome found (λ same. (same.hour ≡ hour) × IsBlockOfHead head.now.content hour same.ulid same.block × Stands (S.holds store.now) self.now.out.now same.ulid same.block)) }
    {
        for block in &self.blocks {
            if is_of(block, hour) {
                let found = same_block(rt, alloc, store, head, hour, self.out, block.ulid)?;
                if found.is_some() {
                    return Ok(found);
                }
            }
        }
        Ok(None)
    }
}
