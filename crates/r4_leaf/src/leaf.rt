//! A leaf that is made (docs/volume.md, "Leaves").

use r4_base::{Block, Key};

/// A leaf: its node, and the key from which its range begins.
#[derive(Drop)]
pub struct Leaf {
    pub lo: Key,
    pub block: Block,
}
