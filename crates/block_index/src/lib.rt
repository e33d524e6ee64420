//! Writing and reading the index of a block (index.md of the public standard): its rows are read only from their own text.
#![tactic(auto)]

mod whole;

pub use hw_bytes::WriteFault;
pub use index_text::{
    ChunkMeta, IndexRow, NumberedIndex, ReadFault, few_chunks, write_index, write_numbered_index,
};
pub use whole::{NumberedRows, read_index, read_numbered_index};
