//! A write of a commit: a block, and what is written there.

ghost use Rattle.std.specs.Prelude.{◌≡◌, ◌<◌, IfOk};
ghost use Rattle.std.specs.Arc.{arc_value};
ghost use Rattle.r4_base.specs.Image.{IsBlock};
ghost use Rattle.r4_outside.specs.Device.{Writes};
ghost use Rattle.r4_wander.specs.Entries.{block_of, bytes_of};

use crate::home_block::HomeBlock;
use r4_base::{Block, BlockNo, Memory};
use r4_cell::Cell;
use r4_outside::{Device, Failed};
use std::alloc::Global;
use std::marker::Model;
use std::sync::Arc;

/// A cell's block, or a block by itself. Both are shared: a copy and its home write the same block.
#[derive(Drop)]
pub(crate) enum What {
    OfCell(Arc<Cell>),
    OfBlock(Arc<Block>),
}

impl What {
    /// The block of a home, from now on to be shared by the home and its copy. The block of a cell is shared with the
    /// cell too, and takes no memory.
    pub(crate) fn of_home(alloc: Global, home: HomeBlock) -> Result<What, Memory>
        ensures { IfOk result (λ what. bytes_of what ≡ block_of home) }
    {
        match home {
            HomeBlock::Made(block) => Ok(What::OfBlock(Arc::new(alloc, block)?)),
            HomeBlock::OfCell(cell) => Ok(What::OfCell(cell)),
        }
    }

    /// The same block once more.
    fn again(&self) -> Result<What, Memory>
        ensures { IfOk result (λ what. bytes_of what ≡ bytes_of self.now) }
    {
        match self {
            What::OfCell(cell) => Ok(What::OfCell(Arc::try_clone(cell)?)),
            What::OfBlock(block) => Ok(What::OfBlock(Arc::try_clone(block)?)),
        }
    }
}

/// What to write where.
#[derive(Drop)]
pub(crate) struct Entry {
    pub(crate) at: u64,
    pub(crate) what: What,
}

impl Model for Entry {
    ghost use Rattle.r4_wander.specs.Entries.{bytes_of};
    ghost use Rattle.r4_wander.specs.Torn.{Write};

    ghost Value = { Write };

    ghost view = { λ e. (e.at, bytes_of e.what) };
}

impl Entry {
    /// A cell's block at a block.
    pub(crate) fn of_cell(at: BlockNo, cell: &Arc<Cell>) -> Result<Entry, Memory>
        ensures { IfOk result (λ e. e ≡ (at.0, (arc_value cell.now).block)) }
    {
        let cell = Arc::try_clone(cell)?;
        Ok(Entry {
            at: at.0,
            what: What::OfCell(cell),
        })
    }

    /// A block that is written once.
    pub(crate) fn of_block(alloc: Global, at: BlockNo, block: Block) -> Result<Entry, Memory>
        ensures { IfOk result (λ e. e ≡ (at.0, block)) }
    {
        let block = Arc::new(alloc, block)?;
        Ok(Entry {
            at: at.0,
            what: What::OfBlock(block),
        })
    }

    /// A block that is also written elsewhere.
    pub(crate) fn of_shared(at: u64, what: &What) -> Result<Entry, Memory>
        ensures { IfOk result (λ e. e ≡ (at, bytes_of what.now)) }
    {
        let what = what.again()?;
        Ok(Entry { at, what })
    }

    /// Makes the write.
    pub(crate) fn write<D: Device>(&self, dev: &mut D) -> Result<(), Failed>
        requires { self.now.0 < (D.state dev.old).blocks }
        ensures { Writes self.now.0 self.now.1 (D.state dev.old) result (D.state dev.new) }
    {
        match &self.what {
            What::OfCell(cell) => dev.write(BlockNo(self.at), cell.block()),
            What::OfBlock(block) => dev.write(BlockNo(self.at), block),
        }
    }
}
