//! Writing and reading the parts of a block besides its index: chunk files, tombstones and meta.json.
#![tactic(auto)]

mod chunks;
mod encoding;
mod fields;
mod files;
mod front;
mod laws;
mod meta;
mod places;
mod tombstones;
mod ulid;

pub use chunks::{CHUNK_FILE_LIMIT, put_chunk, put_file_head};
pub use encoding::Encoding;
pub use files::{ChunkFiles, write_chunks};
pub use front::chunk_at;
pub use laws::{chunks_stand, one_chunk_at_reference};
pub use meta::{Meta, ulid_of, write_meta};
pub use places::{ChunkSpan, FileSpan, PlacedChunks, place_spans, spans_of};
pub use tombstones::{Tombstone, TombstonesFault, read_tombstones, write_tombstones};
pub use ulid::{BadUlid, Ulid};
