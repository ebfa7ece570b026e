//! A node or a data block, with its name, its level and its range.

ghost use Rattle.std.specs.Prelude.{◌≡◌, ◌^◌, ◌≤◌, None, length, true};
ghost use Rattle.r4_base.specs.Cell.{cell_fault};
ghost use Rattle.r4_base.specs.Key.{rank};
ghost use Rattle.r4_base.specs.Node.{items_of};
ghost use Rattle.r4_node40.specs.View.{view_block, view_items};

use r4_base::{Block, Key, NodeId};
use r4_node40::NodeView;
use std::marker::Model;

/// A block as a cell: a node of a level from 1, a leaf, to 8, or a data block, at level 0. Its keys are at least `lo` and
/// below `hi`. It is named by its block's number, or by a number of at least 2^63 where it has no block yet. It is always
/// one that may stand at its level and range, in memory (docs/volume.md, "Cells").
#[derive(Drop)]
pub struct Cell {
    pub(crate) id: NodeId,
    pub(crate) level: u8,
    pub(crate) lo: Key,
    pub(crate) hi: Key,
    pub(crate) block: Block,
}

impl Model for Cell {
    ghost use Rattle.std.specs.Prelude.{IsTrue, true, ◌^◌};
    ghost use Rattle.std.specs.Option.{is_none};
    ghost use Rattle.r4_base.specs.Cell.{cell_fault};
    ghost use Rattle.r4_base.specs.Key.{rank};
    ghost use Rattle.r4_cell.specs.Seen.{CellSeen};

    ghost Value = { CellSeen };

    ghost view = { λ c. record { id = c.id.0; level = c.level; lo = c.lo; hi = c.hi; block = c.block } };

    ghost invariant = { λ c. IsTrue (is_none (cell_fault true (2 ^ 64) c.level (rank c.lo) (rank c.hi) c.block)) };
}

impl Cell {
    /// Its name.
    pub fn id(&self) -> NodeId
        ensures { result.0 ≡ self.now.id }
    {
        self.id
    }

    /// From 1, a leaf, to 8; a data block has level 0.
    pub fn level(&self) -> u8
        ensures { result ≡ self.now.level }
    {
        self.level
    }

    /// The least key that it may hold.
    pub fn lo(&self) -> Key
        ensures { result ≡ self.now.lo }
    {
        self.lo
    }

    /// The key that all its keys are below.
    pub fn hi(&self) -> Key
        ensures { result ≡ self.now.hi }
    {
        self.hi
    }

    /// Its bytes.
    pub fn block(&self) -> &Block
        ensures { result.now ≡ self.now.block }
    {
        &self.block
    }

    /// The node that it is, which is not looked at again; a data block, at level 0, is none.
    pub fn node(&self) -> NodeView<'_>
        requires { 1 ≤ self.now.level }
        ensures items { view_items result ≡ items_of self.now.block }
        ensures block { (view_block result).now ≡ self.now.block }
        ensures whole { length self.now.block ≡ 4096 }
        ensures stands { cell_fault true (2 ^ 64) self.now.level (rank self.now.lo) (rank self.now.hi) self.now.block ≡ None }
    {
        NodeView::of_node(self.block.bytes())
    }
}
