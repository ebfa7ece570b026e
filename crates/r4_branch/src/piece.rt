//! The pieces of which a twig is made (docs/volume.md, "Twigs").

use r4_base::{Key, NodeId, Unit};

/// What stands in a twig from a key on.
#[derive(Clone, Copy)]
pub struct TwigPiece {
    pub key: Key,
    pub part: TwigPart,
}

/// A pointer to a leaf, or one unit of an extent: a hole, a run of blocks, or a block that is not placed yet.
#[derive(Clone, Copy)]
pub enum TwigPart {
    Pointer(NodeId),
    Blocks(Unit),
}
