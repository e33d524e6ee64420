//! Directories and files: what is asked of a store, what its calls find and do, and the store over real files.
#![tactic(auto)]

mod disk;
mod part;
mod part_store;
mod paths;
mod pieces;
mod reason;
mod several;
mod shown;
mod store;
mod whole;

pub use disk::{Disk, DiskReader, names_of};
pub use part_store::PartStore;
pub use paths::join;
pub use pieces::{Pieces, gather, write_each};
pub use reason::Reason;
pub use several::{ReadFile, read_several};
pub use shown::ShownPath;
pub use store::{PartRead, Store, StoreFault, Unread};
pub use whole::{fill_next, read_whole, write_whole};
