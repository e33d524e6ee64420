//! One series: its accepted samples and the runs of its hidden times; hours of time, and chunks of samples.
//!
//! A `Column` is built item by item, samples and deletions in order. Contracts say what any list of items makes of it. A
//! `GatheringColumn` becomes the same `Column`; it merges deletions many at a time, so that their order does not matter. A `Tally`
//! returns the outcomes that a `Column` would, but keeps no samples, and a `KeepingColumn` those of some times alone.
#![tactic(auto)]

mod chunk;
mod column;
mod copying;
mod cutting;
mod decoding;
mod encoding;
mod gathering;
mod hour;
mod items;
mod keeping;
mod laws;
mod runs;
mod sealed;
mod stored;
mod tally;
mod times;

pub use chunk::{CHUNK_SAMPLES, Chunk, ChunkFault};
pub use column::Column;
pub use decoding::decode_chunk;
pub use encoding::encode_chunk;
pub use gathering::GatheringColumn;
pub use hour::{HOUR_LENGTH, Hour};
pub use items::{Item, Outcome, Run};
pub use keeping::KeepingColumn;
pub use laws::{
    chunk_parts, columns_follow_items, greatest_time, hours, kept_follow_histories, one_chunk,
    tallies_follow_items, valid_items_suffice,
};
pub use tally::Tally;
pub use times::reaches;
pub use xor_chunk::Sample;
