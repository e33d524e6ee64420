//! The parts of a block.

use hw_bytes::Items;

/// The parts of a block, each as the bytes of its file.
#[derive(Debug, Drop)]
pub struct Block {
    /// The file `index`.
    pub index: Items<u8>,
    /// The files `chunks/000001`, `chunks/000002` and so on.
    pub chunks: Items<Items<u8>>,
    /// The file `tombstones`.
    pub tombstones: Items<u8>,
    /// The file `meta.json`.
    pub meta: Items<u8>,
}
