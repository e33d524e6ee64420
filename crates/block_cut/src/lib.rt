//! Cutting an hour of a head into a block.
#![tactic(auto)]

mod chunk_file;
mod cutting;
mod fault;
mod laws;
mod planned_block;
mod planning;
mod ranges;

pub use block_files::{Encoding, write_chunks};
pub use block_read::{
    BadUlid, Block, BlockFault, BlockRow, BlockRows, ReadFault, Ulid, read_block,
};
pub use chunk_file::ChunkFile;
pub use cutting::{cut, cut_any, cut_in};
pub use fault::CutFault;
pub use hw_bytes::WriteFault;
pub use laws::{one_block, one_hour};
pub use planned_block::{PlannedBlock, plan_in};
pub use ranges::{full_ranges, sampled_hours};
