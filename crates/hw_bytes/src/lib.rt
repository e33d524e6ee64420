//! The bytes of the formats: the checksum, numbers, texts, what all parts of a block use, and the list type of public fields.
//!
//! Readers accept any bytes, allocate nothing, and return the spelling at the front, or `None` if there is none. Writers
//! append the shortest spelling; if memory runs out they return an error and leave the bytes unchanged. The parts of a block also share the
//! checksum that follows a text, the zeros that align an element, and the error of writing. Nothing here knows of pages or records.
#![tactic(auto)]

mod checksum;
mod items;
mod laws;
mod numbers;
mod padding;
mod sums;
mod table;
mod write_fault;
mod writing;

pub use checksum::crc32c;
pub use items::Items;
pub use laws::{checksum_fits, one_spelling, shortest_spelling};
pub use numbers::{be16_at, be32_at, be64_at, text_at, uvarint_at, varint_at};
pub use padding::put_padding;
pub use sums::{four_bytes_of, is_summed, put_sum};
pub use write_fault::WriteFault;
pub use writing::{
    put_be16, put_be32, put_be64, put_text, put_uvarint, put_varint, uvarint_len, varint_len,
    zigzag,
};
