//! The block that a commit writes to a copy and to its home.

ghost use Rattle.std.specs.Prelude.{◌≡◌};
ghost use Rattle.std.specs.Arc.{arc_value};
ghost use Rattle.r4_wander.specs.Entries.{block_of};

use r4_base::Block;
use r4_cell::Cell;
use std::sync::Arc;

/// What a wandered copy and its home get: a block that was made for the commit, as a bitmap or the superblock, or the
/// block of a cell in memory, which is shared with the cell and not copied (docs/commit.md, "Order").
#[derive(Drop)]
pub enum HomeBlock {
    Made(Block),
    OfCell(Arc<Cell>),
}

impl HomeBlock {
    /// The block, to be read.
    pub fn block(&self) -> &Block
        ensures { result.now ≡ block_of self.now }
    {
        match self {
            HomeBlock::Made(block) => block,
            HomeBlock::OfCell(cell) => cell.block(),
        }
    }
}
