//! The cells of a settled image (docs/volume.md, "The tree").

ghost use Rattle.std.specs.Prelude.{◌≡◌, ◌≤◌, ◌<◌, ◌^◌};
ghost use Rattle.r4_replay.specs.Homes.{StaysWithin};

use r4_base::{Block, BlockNo, Key, NodeId};
use r4_cell::{Cell, Root};
use r4_outside::Device;
use r4_replay::Log;
use r4_search::{FetchFault, Pool, cell_from};
use std::alloc::Global;
use std::sync::Arc;

/// A pool over the settled image of a device, of the tree with this root: each cell is read where its block is at home, as
/// often as it is asked for. The volume has `blocks` blocks.
#[derive(Drop)]
pub struct SettledCells<D: Device> {
    dev: D,
    log: Log,
    root: Root,
    blocks: u64,
    ghost small: { blocks < 2 ^ 64 },
    ghost within: { blocks ≤ (D.state dev).blocks },
    ghost homes: { StaysWithin (D.state dev).blocks log },
}

impl<D: Device> SettledCells<D> {
    /// The device has at least as many blocks as the volume.
    pub fn new(dev: D, log: Log, root: Root, blocks: u64) -> SettledCells<D>
        requires within { blocks ≤ (D.state dev).blocks }
        requires homes { StaysWithin (D.state dev).blocks log }
        ensures device { result.dev ≡ dev }
        ensures log { result.log ≡ log }
        ensures root { result.root ≡ root }
        ensures blocks { result.blocks ≡ blocks }
    {
        SettledCells {
            dev,
            log,
            root,
            blocks,
        }
    }

    /// The device.
    pub fn into_device(self) -> D
        ensures { result ≡ self.dev }
    {
        self.dev
    }
}

impl<D: Device> Pool for SettledCells<D> {
    ghost use Rattle.r4_search.specs.OnDevice.{device_state};
    ghost use Rattle.r4_search.specs.Path.{root_name};
    ghost use Rattle.r4_list.specs.Pool.{settled_places};

    ghost state = { λ cells. device_state (settled_places (root_name cells.root) cells.log.homes cells.blocks) (D.state cells.dev) };

    ghost device = { λ cells. D.state cells.dev };

    fn faults(&self) -> u64 {
        self.dev.faults()
    }

    fn fetch(
        &mut self,
        alloc: Global,
        id: NodeId,
        level: u8,
        lo: Key,
        hi: Key,
    ) -> Result<Arc<Cell>, FetchFault> {
        let at = BlockNo(id.0);
        let mut block = Block::zeroed(alloc)?;
        if self.dev.read(self.log.home(at), &mut block).is_err() {
            let faults = self.dev.faults();
            return Err(FetchFault::Read { block: at, faults });
        }
        cell_from(alloc, id, level, lo, hi, self.blocks, block)
    }
}
