//! A node that is filled, before it is a cell (docs/volume.md, "Squeezing").

use r4_base::{Block, Key};

/// A node that was filled, and the key with which its range begins.
#[derive(Drop)]
pub struct Filled {
    pub lo: Key,
    pub block: Block,
}
