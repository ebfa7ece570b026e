//! Cells that are made of the blocks of a device.

ghost use Rattle.std.specs.Arc.{arc_value};
ghost use Rattle.r4_search.specs.OnDevice.{IsMadeOf};
ghost use Rattle.r4_search.specs.Pool.{called};

use crate::pool::FetchFault;
use r4_base::{Block, BlockNo, Key, NodeId};
use r4_cell::{Cell, CellRefused, read_cell};
use std::alloc::Global;
use std::sync::Arc;

/// The cell that a block is which was read for a name, at a level and for the keys from `lo` up to but without `hi`, on a
/// volume of so many blocks (docs/volume.md, "The tree"). `Damaged` where it may not stand there, by its first fault.
pub fn cell_from(
    alloc: Global,
    id: NodeId,
    level: u8,
    lo: Key,
    hi: Key,
    blocks: u64,
    block: Block,
) -> Result<Arc<Cell>, FetchFault>
    ensures { IsMadeOf (λ cell. arc_value cell) blocks (called id.0 level lo hi) block result }
{
    match read_cell(alloc, id, level, lo, hi, blocks, block) {
        Ok(cell) => Ok(cell),
        Err(CellRefused::Fault(fault)) => Err(FetchFault::Damaged {
            block: BlockNo(id.0),
            fault,
        }),
        Err(CellRefused::Memory) => Err(FetchFault::Memory),
    }
}
