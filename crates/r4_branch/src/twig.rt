//! A twig that is made (docs/volume.md, "Twigs").

use r4_base::{Block, Key};

/// A twig: its node, and the key from which its range begins.
#[derive(Drop)]
pub struct Twig {
    pub lo: Key,
    pub block: Block,
}
