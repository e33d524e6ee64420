//! What a block's meta.json says of its times.

ghost use Rattle.std.specs.Prelude.{◌≡◌, ◌↔◌, All, Any, IfOk, IsSome, IsTrue, MatchOption, Some, codes};
ghost use Rattle.serde_json.specs.Find.{as_str, get};
ghost use Rattle.serde_json.specs.View.{view};
ghost use Rattle.log_directory.specs.Metas.{AreHints, AreHintsIn, FindsLate, IsMeta, IsMetaText, late_hint};

use serde_json::Value;
use std::alloc::{AllocError, Global};

/// What meta.json says of the times of a block.
#[derive(Clone, Copy, Debug, PartialEq, Eq)]
pub struct BlockTimes {
    /// The block's `maxTime`, in milliseconds: its samples are before it.
    pub max_time: i64,
    /// Whether the block has the hint `from-out-of-order`: it was made of samples that came late.
    pub out_of_order: bool,
}

/// The hint of a block that was made of samples that came late.
const LATE_HINT: &str = "from-out-of-order";

// Returns whether all of these are texts.
fn are_texts(hints: &[Value]) -> bool
    ensures { IsTrue result ↔ All (λ hint. IsSome (as_str (view hint))) hints.now }
{
    hints.iter().all(Value::is_string)
}

// Returns whether a hint is that of samples that came late.
fn is_late(hint: &Value) -> bool
    ensures { IsTrue result ↔ (view hint.now ≡ late_hint) }
{
    match hint.as_str() {
        Some(text) => text == LATE_HINT,
        None => false,
    }
}

// Returns whether one of the hints is that of samples that came late.
fn has_late(hints: &[Value]) -> bool
    ensures { IsTrue result ↔ Any (λ hint. view hint ≡ late_hint) hints.now }
{
    hints.iter().any(is_late)
}

// Returns whether the member `hints` has the hint of samples that came late, or `None` where it is not a list of texts.
fn late_by_hints(hints: &Value) -> Option<bool>
    ensures { FindsLate (AreHints (Some (view hints.now))) result }
{
    let hints = hints.as_array()?.as_slice();
    if are_texts(hints) {
        Some(has_late(hints))
    } else {
        None
    }
}

// Returns the same by the member `compaction`, or `None` also where that is not an object.
fn late_by_compaction(compaction: &Value) -> Option<bool>
    ensures { FindsLate (AreHintsIn (Some (view compaction.now))) result }
{
    if !compaction.is_object() {
        return None;
    }
    match compaction.get("hints") {
        Some(hints) => late_by_hints(hints),
        None => Some(false),
    }
}

// Returns the same by the whole meta.json.
fn late_by_meta(meta: &Value) -> Option<bool>
    ensures { FindsLate (AreHintsIn (get (codes "compaction") (view meta.now))) result }
{
    match meta.get("compaction") {
        Some(compaction) => late_by_compaction(compaction),
        None => Some(false),
    }
}

// Returns what a meta.json says, or `None` where it says nothing.
fn times_of(meta: &Value) -> Option<BlockTimes>
    ensures { MatchOption result ((times : BlockTimes) → IsMeta (view meta.now) times → ⊥) (IsMeta (view meta.now)) }
{
    let max_time = meta.get("maxTime")?.as_i64()?;
    let out_of_order = late_by_meta(meta)?;
    Some(BlockTimes {
        max_time,
        out_of_order,
    })
}

/// Returns what these bytes say as the text of a block's meta.json. Returns `None` where they are not JSON, where `maxTime` is not an integer
/// of 64 bits with a sign, where `compaction` is there and no object, or where its `hints` are there and not a list of texts.
pub fn times_in(alloc: Global, bytes: &[u8]) -> Result<Option<BlockTimes>, AllocError>
    ensures { IfOk result (λ found. MatchOption found ((times : BlockTimes) → IsMetaText bytes.now times → ⊥) (IsMetaText bytes.now)) }
{
    match Value::from_slice(alloc, bytes) {
        Ok(meta) => Ok(times_of(&meta)),
        Err(error) if error.is_memory() => Err(AllocError),
        Err(_) => Ok(None),
    }
}
