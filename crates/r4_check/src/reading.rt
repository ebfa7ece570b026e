//! Nodes, read from a settled image.

ghost use Rattle.std.specs.Prelude.{◌≡◌, ℕ, ◌<◌, None, false, IfOk, IfErr};
ghost use Rattle.r4_base.specs.Cell.{cell_fault};
ghost use Rattle.r4_base.specs.Image.{Image};
ghost use Rattle.r4_base.specs.Key.{rank};
ghost use Rattle.r4_list.specs.r4_search.Pool.{LeavesDevice};
ghost use Rattle.r4_check.specs.Looking.{IsGround, IsReadCause, IsReadAs, StandsAs, blocks_of, name_of};

use crate::settled::Settled;
use crate::stop::Stop;
use r4_base::{Block, BlockNo, CellFault, Key, NodeId};
use r4_cell::{Cell, CellRefused, read_cell};
use r4_outside::Device;
use std::alloc::Global;
use std::sync::Arc;

/// A node as it is named: its block, and the level and the keys at which it is to stand there.
#[derive(Clone, Copy, Debug)]
pub struct Named {
    pub id: u64,
    pub level: u8,
    pub lo: Key,
    pub hi: Key,
}

/// What stands at a block: a cell, or one that is refused.
#[derive(Drop)]
pub enum Met {
    Cell(Arc<Cell>),
    Refused(CellFault),
}

/// What stands at the block of a name.
pub fn read_named<D: Device>(
    alloc: Global,
    dev: &mut D,
    settled: &Settled,
    named: &Named,
) -> Result<Met, Stop>
    requires device { settled.now.device_blocks ≡ (D.state dev.old).blocks }
    requires within { named.now.id < blocks_of settled.now }
    ensures device { LeavesDevice (D.state dev.old) (D.state dev.new) }
    ensures stands { IfOk result (StandsAs (blocks_of settled.now) named.now) }
    ensures read { (image : Image) → IsGround settled.now (D.state dev.old) image
        → IfOk result (IsReadAs (blocks_of settled.now) image (name_of named.now)) }
    ensures cause { IfErr result (λ e. IsReadCause (D.state dev.old) e (D.state dev.new)) }
{
    let mut block = Block::zeroed(alloc)?;
    let home = settled.log.home(BlockNo(named.id));
    if dev.read(home, &mut block).is_err() {
        return Err(Stop::Device);
    }
    let id = NodeId(named.id);
    let blocks = settled.blocks();
    match read_cell(alloc, id, named.level, named.lo, named.hi, blocks, block) {
        Ok(cell) => Ok(Met::Cell(cell)),
        Err(CellRefused::Fault(fault)) => Ok(Met::Refused(fault)),
        Err(CellRefused::Memory) => Err(Stop::Memory),
    }
}
