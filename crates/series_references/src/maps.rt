//! Helpers for maps of numbers.

ghost use Rattle.std.specs.Prelude.{◌≡◌, ◌==◌, ℕ, Some, nat_eq, if◌then◌else◌, IfOk, OnOk};
ghost use Rattle.std.specs.Map.{lookup};

use hash_seed::HashSeed;
use indexmap::IndexMap;
use std::alloc::AllocError;

// Sets the value of a key.
fn put(map: &mut IndexMap<u64, u32, HashSeed>, key: u64, value: u32) -> Result<(), AllocError>
    ensures { OnOk result ((k : ℕ) → lookup (nat_eq k) map.new.entries ≡ (if key == k then Some value else lookup (nat_eq k) map.old.entries)) }
{
    map.insert(key, value)?;
    Ok(())
}

/// Returns a map with the same value for each key, or an error if out of memory.
pub fn copied(
    map: &IndexMap<u64, u32, HashSeed>,
) -> Result<IndexMap<u64, u32, HashSeed>, AllocError>
    ensures { IfOk result (λ copy. (k : ℕ) → lookup (nat_eq k) copy.entries ≡ lookup (nat_eq k) map.now.entries) }
{
    let mut copy = IndexMap::with_hasher(*map.allocator(), *map.hasher());
    copy.reserve(map.len())?;
    let mut left = map.len();
    while left > 0 {
        left -= 1;
        match map.get_index(left) {
            Some((key, value)) => put(&mut copy, *key, *value)?,
            None => unreachable!(),
        }
    }
    Ok(copy)
}
