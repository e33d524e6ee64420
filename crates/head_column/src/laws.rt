//! Laws of the definitions.

ghost use Rattle.std.specs.Prelude.{◌≡◌, ◌↔◌, ◌⊎◌, ◌∷◌, ◌++◌, [], ℤ, pos, negsuc, ◌+ℤ◌, ◌-ℤ◌, ◌≤ℤ◌, Bool, IsTrue, FitsSigned, List, Option, None, filter, int_le};
ghost use Rattle.std.specs.List.{scan};
ghost use Rattle.head_column.specs.declared.items.Item.{Item as AnItem};
ghost use Rattle.head_column.specs.declared.items.Run.{Run as ARun};
ghost use Rattle.head_column.specs.Histories.{History, IsHistoryOf, has_reached, history_after, history_of, history_outcome, no_history};
ghost use Rattle.head_column.specs.Kept.{kept_after, kept_of, kept_outcome};
ghost use Rattle.head_column.specs.Items.{is_stale, outcome_of, outcomes_of, samples_of};
ghost use Rattle.head_column.specs.Runs.{AreRunsOf};
ghost use Rattle.head_column.specs.Tallies.{latest_after, latest_of, latest_outcome};
ghost use Rattle.std.specs.Int.{int_max, w64};
ghost use Rattle.xor_chunk.specs.declared.sample.Sample.{Sample as ASample};
ghost use Rattle.head_column.specs.Hours.{hour_start, is_in_hour, HasTime, IsEdge};
ghost use Rattle.head_column.specs.Chunks.{ArePartsOf, IsChunk, chunk_samples, chunk_text, parts};
ghost use Rattle.head_column.specs.Times.{greatest};
ghost use Rattle.head_column.specs.Validity.{IsValid, history_from, item_from, latest_from, samples_from, valid_items};
ghost use Rattle.hw_bytes.specs.Lists.{IsGreatest};

/// Proves that items make just one history, the one that `history_after` makes item by item, and that the outcomes of a column
/// are those of the items: to find a stale sample, the accepted samples suffice, though stale ones count as well.
pub fn columns_follow_items()
    ensures start { IsHistoryOf [] no_history }
    ensures push { (items : List AnItem) (h : History) (i : AnItem) → IsHistoryOf items h → IsHistoryOf (items ++ i ∷ []) (history_after h i) }
    ensures outcome { (items : List AnItem) (h : History) (i : AnItem) → IsHistoryOf items h → history_outcome h i ≡ outcome_of items i }
    ensures stale { (items : List AnItem) (t : ℤ) → is_stale items t ≡ has_reached (samples_of items) t }
    ensures made { (items : List AnItem) → IsHistoryOf items (history_of items) }
    ensures one_history { (items : List AnItem) (h k : History) → IsHistoryOf items h → IsHistoryOf items k → h ≡ k }
    ensures one_list { (test : ℤ → Bool) (qs rs : List ARun) → AreRunsOf test qs → AreRunsOf test rs → qs ≡ rs }
{}

/// Proves that the greatest accepted time suffices for the outcomes of any items, so that a tally and a column return the same.
pub fn tallies_follow_items()
    ensures start { latest_of [] ≡ None }
    ensures push { (items : List AnItem) (i : AnItem) → latest_of (items ++ i ∷ []) ≡ latest_after (latest_of items) i }
    ensures outcome { (items : List AnItem) (i : AnItem) → latest_outcome (latest_of items) i ≡ outcome_of items i }
    ensures column { (items : List AnItem) → scan history_after history_outcome no_history items ≡ outcomes_of items }
    ensures tally { (items : List AnItem) → scan latest_after latest_outcome None items ≡ outcomes_of items }
{}

/// Proves that the samples of some times and the greatest accepted time suffice to keep what is seen of a history through these times, and for
/// the outcomes of all items. So a column that keeps those samples alone judges each item as one that keeps all.
pub fn kept_follow_histories()
    ensures after { (times : ARun) (h : History) (i : AnItem) → kept_after (kept_of times h) i ≡ kept_of times (history_after h i) }
    ensures outcome { (times : ARun) (h : History) (i : AnItem) → kept_outcome (kept_of times h) i ≡ history_outcome h i }
{}

/// Proves that what a least valid time leaves of items suffices for those that come later: one that is not expired has the outcome
/// that it would have after all items. What is left makes the history without the samples and the hidden times before that time. A
/// second least valid time leaves of a history what the greater of both leaves. The greatest of the times left is that of all times, or
/// there is none.
pub fn valid_items_suffice()
    ensures stale { (m t : ℤ) → m ≤ℤ t → (items : List AnItem) → is_stale (valid_items m items) t ≡ is_stale items t }
    ensures outcome { (m : ℤ) (items : List AnItem) (i : AnItem) → IsValid m i → outcome_of (valid_items m items) (item_from m i) ≡ outcome_of items i }
    ensures samples { (m : ℤ) (items : List AnItem) → samples_of (valid_items m items) ≡ samples_from m (samples_of items) }
    ensures history { (m : ℤ) (items : List AnItem) (h : History) → IsHistoryOf items h → IsHistoryOf (valid_items m items) (history_from m h) }
    ensures greater { (m n : ℤ) (h : History) → history_from m (history_from n h) ≡ history_from (int_max m n) h }
    ensures latest { (m : ℤ) (ts : List ℤ) → greatest (filter (int_le m) ts) ≡ latest_from m (greatest ts) }
{}

/// Proves that a time is in at most one hour; that the hours with a time that is an `i64` are those from -2562047788016 to
/// 2562047788015, of which only the first and the last also have one that is not; and that any other hour's first and last times
/// are `i64`s.
pub fn hours()
    ensures one { (k l t : ℤ) → IsTrue (is_in_hour k t) → IsTrue (is_in_hour l t) → k ≡ l }
    ensures between { (k : ℤ) → HasTime k ↔ (negsuc 2562047788015 ≤ℤ k) × (k ≤ℤ pos 2562047788015) }
    ensures edges { (k : ℤ) → HasTime k → IsEdge k ↔ ((k ≡ negsuc 2562047788015) ⊎ (k ≡ pos 2562047788015)) }
    ensures inside { (k : ℤ) → (IsEdge k → ⊥) → FitsSigned w64 (hour_start k) × FitsSigned w64 (hour_start (k +ℤ pos 1) -ℤ pos 1) }
{}

/// Proves that `greatest` is one of the times, that none exceeds it, and that there is just one such time.
pub fn greatest_time()
    ensures is { (ts : List ℤ) → IsGreatest (λ t u. t ≤ℤ u) ts (greatest ts) }
    ensures one { (ts : List ℤ) (g h : Option ℤ) → IsGreatest (λ t u. t ≤ℤ u) ts g → IsGreatest (λ t u. t ≤ℤ u) ts h → g ≡ h }
{}

/// Proves that the parts of samples, joined, are the samples, that each part but the last has 120, and that there is just one such
/// list of parts. So the chunks of an hour have its samples, 120 to a chunk.
pub fn chunk_parts()
    ensures are { (samples : List ASample) → ArePartsOf chunk_samples samples (parts chunk_samples samples) }
    ensures one { (samples : List ASample) (ps qs : List (List ASample)) → ArePartsOf chunk_samples samples ps → ArePartsOf chunk_samples samples qs → ps ≡ qs }
{}

/// Proves that a text is the text of at most one chunk.
pub fn one_chunk()
    ensures { (samples others : List ASample) → IsChunk samples → IsChunk others → chunk_text samples ≡ chunk_text others → samples ≡ others }
{}
