//! Items of entries, and lists of them.

ghost use Rattle.std.specs.Prelude.{◌≡◌, ◌<◌, ◌≤◌, ◌++◌, ◌∷◌, [], Err, Some, None, count_by, length, IfOk, IfSome, IsOk, OnErr};
ghost use Rattle.std.specs.Option.{option_to_list};
ghost use Rattle.std.specs.Vec.{vec_capacity};
ghost use Rattle.wal_record.specs.Entries.{Entry, entries_in};
ghost use Rattle.wal_record.specs.Validity.{expired_samples, expired_stones, raised, valid_entry};
ghost use Rattle.head_resolver.specs.Counts.{sample_item, stone_item};
ghost use Rattle.head_resolver.specs.Resolving.{IsResolving, IsStopped, IsStoppedIn, Resolves};
ghost use Rattle.head_resolver.specs.Ahead.{AreItem};
ghost use Rattle.head_resolver.specs.Validity.{is_expired};

use crate::fault::CountFull;
use crate::resolver::Resolver;
use head_column::{Item, Run, Sample};
use head_series::Slot;
use std::alloc::AllocError;
use wal_record::{SampleEntry, StoneEntry, WalRecord};

/// An entry of the log that has an item: a sample or a deletion.
pub trait ItemEntry {
    ghost entry: { Self → Entry };

    /// Returns whether it is expired.
    fn is_expired(&self, min_valid: i64) -> bool
        ensures { result ≡ is_expired min_valid (entry self.now) };

    /// Returns its reference and the item of what the least valid time leaves of it, or `None` if it is expired.
    fn valid_item(&self, min_valid: i64) -> Option<(u64, Item)>
        ensures none { result ≡ None → valid_entry min_valid (entry self.now) ≡ [] }
        ensures some { IfSome result (λ found. AreItem (valid_entry min_valid (entry self.now)) found.0 found.1) };

    /// Returns its item with the slot of its reference's owner, or counts it as unknown and returns `None`. Returns `Full` if the count would
    /// pass its limit.
    fn find(&self, resolver: &mut Resolver) -> Result<Option<(Slot, Item)>, CountFull>
        ensures step { IfOk result (λ found. IsResolving resolver.old (entry self.now) (option_to_list found) resolver.new) }
        ensures full { OnErr result (IsStopped resolver.old (entry self.now)) }
        ensures kept { resolver.new.failed ≡ resolver.old.failed }
        ensures time { resolver.new.min_valid ≡ resolver.old.min_valid };

    /// Does the same with what the least valid time leaves of it. Returns `None` if it is expired.
    fn find_valid(&self, resolver: &mut Resolver) -> Result<Option<(Slot, Item)>, CountFull>
        ensures step { IfOk result (λ found. Resolves resolver.old (valid_entry resolver.old.min_valid (entry self.now)) (option_to_list found) resolver.new) }
        ensures full { OnErr result (IsStoppedIn resolver.old (valid_entry resolver.old.min_valid (entry self.now))) }
        ensures kept { resolver.new.failed ≡ resolver.old.failed }
        ensures time { resolver.new.min_valid ≡ resolver.old.min_valid };
}

impl ItemEntry for SampleEntry {
    ghost use Rattle.wal_record.specs.Entries.{sample};

    ghost entry = { sample };

    fn is_expired(&self, min_valid: i64) -> bool {
        self.time < min_valid
    }

    fn valid_item(&self, min_valid: i64) -> Option<(u64, Item)> {
        if self.is_expired(min_valid) {
            return None;
        }
        Some((self.reference, item_of_sample(self)))
    }

    fn find(&self, resolver: &mut Resolver) -> Result<Option<(Slot, Item)>, CountFull> {
        resolver.find_owner(self.reference, item_of_sample(self))
    }

    fn find_valid(&self, resolver: &mut Resolver) -> Result<Option<(Slot, Item)>, CountFull> {
        if self.is_expired(resolver.min_valid()) {
            return Ok(None);
        }
        self.find(resolver)
    }
}

impl ItemEntry for StoneEntry {
    ghost use Rattle.wal_record.specs.Entries.{stone};

    ghost entry = { stone };

    fn is_expired(&self, min_valid: i64) -> bool {
        self.max_time < min_valid
    }

    fn valid_item(&self, min_valid: i64) -> Option<(u64, Item)> {
        if self.is_expired(min_valid) {
            return None;
        }
        Some((self.reference, item_of_stone(&raised(self, min_valid))))
    }

    fn find(&self, resolver: &mut Resolver) -> Result<Option<(Slot, Item)>, CountFull> {
        resolver.find_owner(self.reference, item_of_stone(self))
    }

    fn find_valid(&self, resolver: &mut Resolver) -> Result<Option<(Slot, Item)>, CountFull> {
        let min_valid = resolver.min_valid();
        if self.is_expired(min_valid) {
            return Ok(None);
        }
        raised(self, min_valid).find(resolver)
    }
}

/// Returns the item of a sample.
pub fn item_of_sample(entry: &SampleEntry) -> Item
    ensures { result ≡ sample_item entry.now }
{
    Item::Sample(Sample {
        time: entry.time,
        value: entry.value,
    })
}

/// Returns the item of a deletion.
pub fn item_of_stone(entry: &StoneEntry) -> Item
    ensures { result ≡ stone_item entry.now }
{
    Item::Stone(Run {
        min_time: entry.min_time,
        max_time: entry.max_time,
    })
}

/// Returns the deletion without its times before `min_valid`.
pub fn raised(entry: &StoneEntry, min_valid: i64) -> StoneEntry
    ensures { result ≡ raised min_valid entry.now }
{
    StoneEntry {
        reference: entry.reference,
        min_time: entry.min_time.max(min_valid),
        max_time: entry.max_time,
    }
}

// Returns the number of expired entries.
pub(crate) fn count_expired<E: ItemEntry>(entries: &[E], min_valid: i64) -> usize
    ensures { result ≡ count_by (λ e. is_expired min_valid (E.entry e)) entries.now }
{
    let mut expired = 0;
    for entry in entries {
        if entry.is_expired(min_valid) {
            expired += 1;
        }
    }
    expired
}

// Returns the number of expired samples and that of expired deletions of a record.
pub(crate) fn expired_in(log_record: &WalRecord, min_valid: i64) -> (usize, usize)
    ensures samples { result.0 ≡ expired_samples min_valid (log_record.now ∷ []) }
    ensures stones { result.1 ≡ expired_stones min_valid (log_record.now ∷ []) }
{
    match log_record {
        WalRecord::Series(_) => (0, 0),
        WalRecord::Samples(entries) => (count_expired(entries.as_slice(), min_valid), 0),
        WalRecord::Stones(entries) => (0, count_expired(entries.as_slice(), min_valid)),
        WalRecord::Other(_) => (0, 0),
    }
}

// Pushes what was found, if anything, on the items, which have room for it.
pub(crate) fn put_reserved(items: &mut Vec<(Slot, Item)>, found: Option<(Slot, Item)>)
    requires { length items.old.items < vec_capacity items.old }
    ensures items { items.new.items ≡ items.old.items ++ option_to_list found }
    ensures capacity { vec_capacity items.new ≡ vec_capacity items.old }
{
    match found {
        Some(item) => items.push_reserved(item),
        None => {}
    }
}

// Returns the empty list, with room for at least `count` items.
pub(crate) fn with_room(
    mut items: Vec<(Slot, Item)>,
    count: usize,
) -> Result<Vec<(Slot, Item)>, AllocError>
    requires { items.items ≡ [] }
    ensures items { IfOk result (λ room. room.items ≡ []) }
    ensures room { IfOk result (λ room. count ≤ vec_capacity room) }
    ensures roomy { count ≤ vec_capacity items → IsOk result }
{
    if items.capacity() < count {
        items.reserve(count)?;
    }
    Ok(items)
}
