//! The union of lists of slots.

ghost use Rattle.std.specs.Prelude.{IfOk};
ghost use Rattle.head_postings.specs.Slots.{IsAscending, IsUnion};

use series_references::Slot;
use std::alloc::{AllocError, Global};

// Returns the union of two ascending lists, in linear time.
pub(crate) fn united(
    alloc: Global,
    first: &[Slot],
    second: &[Slot],
) -> Result<Vec<Slot>, AllocError>
    requires first { IsAscending first.now }
    requires second { IsAscending second.now }
    ensures { IfOk result (λ union. IsUnion first.now second.now union.items) }
{
    let mut union = Vec::with_capacity(alloc, first.len().saturating_add(second.len()))?;
    let mut i = 0;
    let mut j = 0;
    while i < first.len() && j < second.len() {
        let left = first[i];
        let right = second[j];
        if left.index() < right.index() {
            union.push(left)?;
            i += 1;
        } else if right.index() < left.index() {
            union.push(right)?;
            j += 1;
        } else {
            union.push(left)?;
            i += 1;
            j += 1;
        }
    }
    union.extend_from_slice(&first[i..])?;
    union.extend_from_slice(&second[j..])?;
    Ok(union)
}
