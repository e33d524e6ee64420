//! Reading a block: the rows of which its parts are the text.
#![tactic(auto)]

mod block;
mod chunks;
mod counts;
mod describing;
mod fault;
mod hidden;
mod joining;
mod reading;
mod rows;
mod samples;

pub use block::Block;
pub use block_files::{BadUlid, Encoding, Ulid};
pub use block_index::ReadFault;
pub use counts::{BlockCounts, counts_of};
pub use fault::BlockFault;
pub use reading::{read_any_block, read_block};
pub use rows::{BlockRow, BlockRows};
