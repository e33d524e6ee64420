//! Laws of the definitions. Each is a function that does nothing; its clauses are the law.

ghost use Rattle.std.specs.Prelude.{◌≡◌, ◌≤ℤ◌, ◌++◌, ◌∷◌, [], ℕ, ℤ, List, None, Option, Some, filter, length, map, slice_get};
ghost use Rattle.std.specs.List.{flat_map};
ghost use Rattle.wal_record.specs.declared.record.WalRecord.{WalRecord as LogRecord};
ghost use Rattle.wal_record.specs.Entries.{Entry, entries_of};
ghost use Rattle.wal_record.specs.Labels.{same_labels};
ghost use Rattle.wal_record.specs.Validity.{rewritten, valid, valid_entry};
ghost use Rattle.head_column.specs.Chunks.{chunks_of};
ghost use Rattle.head_column.specs.Histories.{history_after, history_outcome, latest, no_history};
ghost use Rattle.head_column.specs.declared.items.Run.{Run as ARun};
ghost use Rattle.head_column.specs.Hours.{is_in_hour};
ghost use Rattle.head_column.specs.Kept.{kept_after, kept_of, kept_outcome};
ghost use Rattle.head_column.specs.Tallies.{latest_after, latest_outcome};
ghost use Rattle.head_series.specs.Bindings.{series_of};
ghost use Rattle.head_series.specs.Table.{IsLeast, Labels, after, labels_at, slot_at};
ghost use Rattle.head_series.specs.Texts.{Text, place};
ghost use Rattle.head_postings.specs.Postings.{selected};
ghost use Rattle.head_resolver.specs.Owners.{bindings};
ghost use Rattle.head_resolver.specs.Taken.{Taken, taken_after, taken_of};
ghost use Rattle.head_resolver.specs.Counts.{counts_of, fate_at};
ghost use Rattle.head_resolver.specs.Resolved.{resolved, IsResolvable};
ghost use Rattle.head_core.specs.Content.{AreAlike, AreHistoriesOf, Content, IsContentOf, IsShownBy, IsWithinLimits};
ghost use Rattle.head_core.specs.Heads.{history_at};
ghost use Rattle.head_core.specs.Validity.{HaveFates, IsValidEntry, content_from, entry_from};
ghost use Rattle.head_core.specs.Applied.{AreCountsOfOutcomes, new_slots, outcomes_after, values_after};

use head_column::{columns_follow_items, kept_follow_histories, tallies_follow_items};
use head_series::slot_is_place;

/// What was taken of a log has just one content, as far as any view of a head shows, where the same least valid time is in force. So the
/// head that `replay_serial` returns, and each head to which the same records were applied, is *the* head of those records.
pub fn one_content()
    ensures { (t : Taken) (c d : Content) → IsContentOf t c → IsContentOf t d → d.min_valid ≡ c.min_valid → AreAlike c d }
{
    // the laws that the proof rests on
    slot_is_place();
    columns_follow_items();
}

/// A head with one of two alike contents answers each call as a head with the other does. There is a clause for each view of a head, about
/// the value that this view ensures.
pub fn alike_answers()
    ensures counts { (c d : Content) → AreAlike c d → d.counts ≡ c.counts }
    ensures series { (c d : Content) → AreAlike c d → length d.table.series ≡ length c.table.series }
    ensures find { (c d : Content) → AreAlike c d → (l : Labels) → place (same_labels l) d.table.series ≡ place (same_labels l) c.table.series }
    ensures labels { (c d : Content) → AreAlike c d → (slot : ℕ) → labels_at d.table slot ≡ labels_at c.table slot }
    ensures pairs { (c d : Content) → AreAlike c d → (slot : ℕ) → length (labels_at d.table slot) ≡ length (labels_at c.table slot) }
    ensures pair { (c d : Content) → AreAlike c d → (slot i : ℕ) → slice_get (labels_at d.table slot) i ≡ slice_get (labels_at c.table slot) i }
    ensures reference { (c d : Content) → AreAlike c d → (slot : ℕ) (a b : Option ℕ) → IsLeast (λ r. slot_at c.table r ≡ Some slot) a → IsLeast (λ r. slot_at d.table r ≡ Some slot) b → b ≡ a }
    ensures next_reference { (c d : Content) → AreAlike c d → after d.table.greatest ≡ after c.table.greatest }
    ensures samples { (c d : Content) → AreAlike c d → (slot : ℕ) → (history_at d slot).samples ≡ (history_at c slot).samples }
    ensures sample_count { (c d : Content) → AreAlike c d → (slot : ℕ) → length (history_at d slot).samples ≡ length (history_at c slot).samples }
    ensures last_time { (c d : Content) → AreAlike c d → (slot : ℕ) → latest (history_at d slot).samples ≡ latest (history_at c slot).samples }
    ensures chunks_in { (c d : Content) → AreAlike c d → (slot : ℕ) (hour : ℤ) →
        chunks_of (filter (λ s. is_in_hour hour s.time) (history_at d slot).samples) ≡ chunks_of (filter (λ s. is_in_hour hour s.time) (history_at c slot).samples) }
    ensures hidden { (c d : Content) → AreAlike c d → (slot : ℕ) → (history_at d slot).hidden ≡ (history_at c slot).hidden }
    ensures select { (c d : Content) → AreAlike c d → (name value : Text) → selected d.postings name value ≡ selected c.postings name value }
    ensures all { (c d : Content) → AreAlike c d → d.postings.all ≡ c.postings.all }
    ensures max_time { (c d : Content) → AreAlike c d → d.max_time ≡ c.max_time }
    ensures min_valid { (c d : Content) → AreAlike c d → d.min_valid ≡ c.min_valid }
{}

/// Resolved items, applied in order to one new slot for each series, make the histories of the log's series, and their outcomes make its
/// counts of outcomes. The counts are the same if only the greatest time of each series is kept (`tallied`), or also the samples of some times
/// (`counted`); then the items make what is seen of the histories through these times (`kept`).
pub fn items_make_series()
    ensures histories { (es : List Entry) → AreHistoriesOf es (series_of (bindings es)) (map (λ p. p.1) (values_after history_after (new_slots no_history es) (resolved es))) }
    ensures outcomes { (t : Taken) → AreCountsOfOutcomes (outcomes_after history_after history_outcome (new_slots no_history (entries_of t.kept)) (resolved (entries_of t.kept))) (counts_of t) }
    ensures tallied { (t : Taken) →
        AreCountsOfOutcomes (outcomes_after latest_after latest_outcome (new_slots {V = Option ℤ} None (entries_of t.kept)) (resolved (entries_of t.kept))) (counts_of t) }
    ensures kept { (times : ARun) (es : List Entry) → map (λ p. p.1) (values_after kept_after (new_slots (kept_of times no_history) es) (resolved es)) ≡
        map (kept_of times) (map (λ p. p.1) (values_after history_after (new_slots no_history es) (resolved es))) }
    ensures counted { (times : ARun) (t : Taken) →
        AreCountsOfOutcomes (outcomes_after kept_after kept_outcome (new_slots (kept_of times no_history) (entries_of t.kept)) (resolved (entries_of t.kept))) (counts_of t) }
{
    // the laws that the proof rests on
    columns_follow_items();
    kept_follow_histories();
    tallies_follow_items();
}

/// If records are within the limits of a head, so are the first of them, and what is within the limits of a head is within those of a
/// resolver.
pub fn limits_hold_before()
    ensures front { (m : ℤ) (rs more : List LogRecord) → IsWithinLimits (taken_of m (rs ++ more)) → IsWithinLimits (taken_of m rs) }
    ensures resolvable { (t : Taken) → IsWithinLimits t → IsResolvable t }
{}

/// What a least valid time leaves of entries makes the content without the samples and the hidden times before it (`shown`), and the
/// outcome of an entry that is not expired is the same after what is left as after all (`fates`). So a head that is truncated still shows
/// what it took (`taken`), and what is taken of a log is found record by record (`record_by_record`). A head that took a log with a lesser
/// least valid time and is then truncated is like the head that took it with the greater one, except for the counts (`replayed`).
pub fn truncation()
    ensures shown { (m : ℤ) (es : List Entry) (c : Content) → IsShownBy es c → IsShownBy (flat_map (valid_entry m) es) (content_from m c) }
    ensures fates { (m : ℤ) (es : List Entry) (e : Entry) → IsValidEntry m e → fate_at (flat_map (valid_entry m) es) (entry_from m e) ≡ fate_at es e }
    ensures taken { (m : ℤ) (t : Taken) (c : Content) → c.min_valid ≤ℤ m → IsContentOf t c → IsContentOf t (content_from m c) }
    ensures record_by_record { (m : ℤ) (rs : List LogRecord) (r : LogRecord) → taken_of m (rs ++ r ∷ []) ≡ taken_after m (taken_of m rs) r }
    ensures replayed { (n m : ℤ) (rs : List LogRecord) (c d : Content) → n ≤ℤ m → IsContentOf (taken_of n rs) c → c.min_valid ≡ n → IsContentOf (taken_of m rs) d → d.min_valid ≡ m →
        AreAlike (record (content_from m c) { counts = d.counts }) d }
{
    // the laws that the proof rests on
    slot_is_place();
    columns_follow_items();
}

/// The records of a checkpoint, followed by any others, have the content of the records that it was made of, followed by the same
/// others, except for the counts of records and of expired entries: for the least valid time that it was made with and for every greater
/// one.
pub fn checkpoint()
    ensures { (n m : ℤ) → n ≤ℤ m → (rs more : List LogRecord) (c d : Content) → IsContentOf (taken_of m (rewritten n rs ++ more)) c → c.min_valid ≡ m →
        IsContentOf (taken_of m (rs ++ more)) d → d.min_valid ≡ m →
        AreAlike c (record d { counts = c.counts }) × HaveFates c.counts d.counts }
{
    // the laws that the proof rests on
    slot_is_place();
    columns_follow_items();
}

/// Records of which a least valid time leaves the same entries have the same content with it, except for the counts of records and of expired
/// entries. So have the records of any checkpoint that loses no valid entry.
pub fn same_entries()
    ensures { (m : ℤ) (rs qs : List LogRecord) (c d : Content) → entries_of (valid m rs) ≡ entries_of (valid m qs) → IsContentOf (taken_of m rs) c → c.min_valid ≡ m →
        IsContentOf (taken_of m qs) d → d.min_valid ≡ m →
        AreAlike c (record d { counts = c.counts }) × HaveFates c.counts d.counts }
{
    // the laws that the proof rests on
    slot_is_place();
    columns_follow_items();
}
