//! How many items slots have.

ghost use Rattle.std.specs.Prelude.{◌≡◌, ◌+◌, [], ℕ, nat_eq, if◌then◌else◌, IfOk};
ghost use Rattle.head_core.specs.Draft.{count_in};

use hash_seed::HashSeed;
use indexmap::IndexMap;
use std::alloc::{AllocError, Global};
use std::marker::Model;

/// The numbers of items of slots. That of the first slot is kept apart, so that one slot alone takes no memory.
#[derive(Debug, Drop)]
pub(crate) struct SlotCounts {
    first: Option<(u32, usize)>,
    // of the other slots
    others: IndexMap<u32, usize, HashSeed>,
}

impl Model for SlotCounts {
    ghost use Rattle.std.specs.Prelude.{◌≡◌, [], ℕ, List, None};
    ghost use Rattle.head_core.specs.Draft.{first_and};

    ghost Value = { List (ℕ × ℕ) };

    ghost view = { λ c. first_and c.first c.others.entries };

    ghost invariant = { λ c. c.first ≡ None → c.others.entries ≡ [] };
}

impl SlotCounts {
    // Makes one of no items.
    pub(crate) fn new(alloc: Global, seed: HashSeed) -> SlotCounts
        ensures { result ≡ [] }
    {
        SlotCounts {
            first: None,
            others: IndexMap::with_hasher(alloc, seed),
        }
    }

    // Adds 1 to the number of items of a slot, and returns that number.
    pub(crate) fn add(&mut self, slot: u32) -> Result<usize, AllocError>
        ensures many { IfOk result (λ many. many ≡ count_in self.old slot + 1) }
        ensures counts { IfOk result (λ many. (s : ℕ) → count_in self.new s ≡ (if nat_eq slot s then many else count_in self.old s)) }
    {
        match self.first {
            None => {
                self.first = Some((slot, 1));
                Ok(1)
            }
            Some((first, count)) if first == slot => {
                let many = count.checked_add(1).ok_or(AllocError)?;
                self.first = Some((slot, many));
                Ok(many)
            }
            Some(_) => {
                let count = self.others.entry(slot)?.or_insert(0);
                let many = count.checked_add(1).ok_or(AllocError)?;
                *count = many;
                Ok(many)
            }
        }
    }
}
