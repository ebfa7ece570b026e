//! What a command reads and writes of the cells of a tree, bodies in extents included.

use r4_content::Seen;
use r4_reaching::{Cells, Root};

/// What a command reads and writes, wherever the body that it changes stands (docs/volume.md, "Reach").
#[derive(Drop)]
pub struct Reach {
    /// The cells that it reads and does not write, by level, the lowest first, and within a level by their first keys.
    pub reads: Cells,
    /// The cells that it writes, in the same order.
    pub writes: Cells,
    /// All cells that were met, in the same order: these, and those on the ways to them.
    pub met: Cells,
    /// The root pair, where it is in the reach.
    pub root: Option<Root>,
    /// What was seen at the keys that the command asks for.
    pub seen: Seen,
    /// How many new cells come at most.
    pub most: u64,
    /// Whether the body that it changes stood in extents before.
    pub in_extents: bool,
    /// Whether all that it changes lies in leaves: no body stands in extents afterwards, and of the cells that were met
    /// none has an extent with a key that counts as changed.
    pub in_leaves: bool,
}
