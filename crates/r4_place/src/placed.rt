//! What is done with a cell.

use r4_base::{BlockNo, NodeId};

/// `Fresh`: the cell had no block and gets this one. `Relocate`: it had one and gets this one; nothing is relocated yet.
/// `Overwrite`: it keeps its block, which a commit overwrites by wandering (docs/space.md, "Places").
#[derive(Clone, Copy, Debug, PartialEq, Eq)]
pub enum How {
    Fresh(BlockNo),
    Relocate(BlockNo),
    Overwrite,
}

/// A cell by its name, and what is done with it.
#[derive(Clone, Copy, Debug, PartialEq, Eq)]
pub struct Placed {
    pub node: NodeId,
    pub how: How,
}
