//! Binding the references of a window of the log ahead of its other records.

ghost use Rattle.std.specs.Prelude.{◌≡◌, ◌≤◌, ◌+◌, ◌++◌, [], ℕ, ℤ, List, Err, IfOk, OnOk, false, length};
ghost use Rattle.wal_record.specs.declared.record.WalRecord.{WalRecord as LogRecord};
ghost use Rattle.wal_log.specs.Log.{contents};
ghost use Rattle.head_resolver.specs.Ahead.{IsAhead};
ghost use Rattle.head_resolver.specs.Changes.{AreBelow};
ghost use Rattle.head_resolver.specs.Taken.{taken_of};
ghost use Rattle.head_core.specs.Content.{IsWithinLimits};
ghost use Rattle.replay_rounds.specs.Records.{records_of};

use head_core::{Changes, HeadFault, Resolver, limits_hold_before, spread_ahead, spread_records};
use wal_log::Placed;
use wal_scan::PageRecords;

/// The records of a window, page by page, and what their bindings changed, which were all made ahead.
#[derive(Drop)]
pub struct BoundPages {
    /// The records of each page.
    pub pages: Vec<PageRecords>,
    /// What each reference that they bind named before.
    pub changes: Changes,
}

// Binds the references of records, the first of which is at a place of the window, and returns the place after them.
fn bind_records(
    resolver: &mut Resolver,
    changes: &mut Changes,
    place: u64,
    records: &[Placed],
) -> Result<u64, HeadFault>
    requires { resolver.old.failed ≡ false }
    ensures ahead { (m : ℤ) (rs back : List LogRecord) → IsAhead (taken_of m rs) [] back changes.old resolver.old → place ≡ length back →
        IfOk result (λ _. IsAhead (taken_of m rs) [] (back ++ contents records.now) changes.new resolver.new) }
    ensures place { IfOk result (λ behind. behind ≡ place + length records.now) }
    ensures below { (n : ℕ) → length resolver.new.table.series ≤ n → AreBelow n changes.old → IfOk result (λ _. AreBelow n changes.new) }
    ensures more { length resolver.old.table.series ≤ length resolver.new.table.series }
    ensures full { result ≡ Err HeadFault.Full → (m : ℤ) (rs back : List LogRecord) → IsAhead (taken_of m rs) [] back changes.old resolver.old → resolver.old.min_valid ≡ m →
        place ≡ length back → IsWithinLimits (taken_of m (rs ++ (back ++ contents records.now))) → ⊥ }
    ensures time { resolver.new.min_valid ≡ resolver.old.min_valid }
    ensures sound { IfOk result (λ _. resolver.new.failed ≡ false) }
    ensures fault { result ≡ Err HeadFault.Failed → ⊥ }
{
    // laws that the proof rests on
    limits_hold_before();
    spread_records();
    let mut place = place;
    for placed in records {
        resolver.bind_ahead(&placed.content, place, changes)?;
        let Some(behind) = place.checked_add(1) else {
            return Err(HeadFault::Memory);
        };
        place = behind;
    }
    Ok(place)
}

// Does the same with the records of a page. Samples bind nothing.
fn bind_page(
    resolver: &mut Resolver,
    changes: &mut Changes,
    place: u64,
    page: &PageRecords,
) -> Result<u64, HeadFault>
    requires { resolver.old.failed ≡ false }
    ensures ahead { (m : ℤ) (rs back : List LogRecord) → IsAhead (taken_of m rs) [] back changes.old resolver.old → place ≡ length back →
        IfOk result (λ _. IsAhead (taken_of m rs) [] (back ++ contents page.now) changes.new resolver.new) }
    ensures place { IfOk result (λ behind. behind ≡ place + length page.now) }
    ensures below { (n : ℕ) → length resolver.new.table.series ≤ n → AreBelow n changes.old → IfOk result (λ _. AreBelow n changes.new) }
    ensures more { length resolver.old.table.series ≤ length resolver.new.table.series }
    ensures full { result ≡ Err HeadFault.Full → (m : ℤ) (rs back : List LogRecord) → IsAhead (taken_of m rs) [] back changes.old resolver.old → resolver.old.min_valid ≡ m →
        place ≡ length back → IsWithinLimits (taken_of m (rs ++ (back ++ contents page.now))) → ⊥ }
    ensures time { resolver.new.min_valid ≡ resolver.old.min_valid }
    ensures sound { IfOk result (λ _. resolver.new.failed ≡ false) }
    ensures fault { result ≡ Err HeadFault.Failed → ⊥ }
{
    // laws that the proof rests on
    limits_hold_before();
    spread_ahead();
    let (before, samples, behind) = page.parts();
    let first = bind_records(resolver, changes, place, before)?;
    let Some(next) = first.checked_add(samples.len() as u64) else {
        return Err(HeadFault::Memory);
    };
    bind_records(resolver, changes, next, behind)
}

/// Binds the references of the records of a window, page by page, and notes in `changes` what each named before.
pub fn bind_pages(
    resolver: &mut Resolver,
    changes: &mut Changes,
    pages: &[PageRecords],
) -> Result<(), HeadFault>
    requires { resolver.old.failed ≡ false }
    ensures ahead { (m : ℤ) (rs : List LogRecord) → IsAhead (taken_of m rs) [] [] changes.old resolver.old →
        OnOk result (IsAhead (taken_of m rs) [] (contents (records_of pages.now)) changes.new resolver.new) }
    ensures below { (n : ℕ) → length resolver.new.table.series ≤ n → AreBelow n changes.old → OnOk result (AreBelow n changes.new) }
    ensures more { length resolver.old.table.series ≤ length resolver.new.table.series }
    ensures full { result ≡ Err HeadFault.Full → (m : ℤ) (rs : List LogRecord) → IsAhead (taken_of m rs) [] [] changes.old resolver.old → resolver.old.min_valid ≡ m →
        IsWithinLimits (taken_of m (rs ++ contents (records_of pages.now))) → ⊥ }
    ensures time { resolver.new.min_valid ≡ resolver.old.min_valid }
    ensures sound { OnOk result (resolver.new.failed ≡ false) }
    ensures fault { result ≡ Err HeadFault.Failed → ⊥ }
{
    // a law that the proof rests on
    limits_hold_before();
    let mut place = 0;
    for page in pages {
        place = bind_page(resolver, changes, place, page)?;
    }
    Ok(())
}
