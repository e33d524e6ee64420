//! Writing the index of a block (index.md of the public standard), and the steps of reading one.
#![tactic(auto)]

mod arranging;
mod contents;
mod element;
mod fault;
mod fields;
mod gathering;
mod groups;
mod head;
mod laws;
mod lists;
mod numbering;
mod ordering;
mod passed;
mod row;
mod rows;
mod skips;
mod steps;
mod stored;
mod tables;
mod toc;
mod writer;
mod writing;

pub use fault::ReadFault;
pub use hw_bytes::WriteFault;
pub use laws::few_chunks;
pub use row::{ChunkMeta, IndexRow};
pub use rows::{are_rows, rows_of};
pub use steps::stored_index;
pub use stored::StoredSeries;
pub use writing::{NumberedIndex, write_index, write_numbered_index};
