//! A pool of cells, by what its calls mean.

ghost use Rattle.std.specs.Prelude.{◌≡◌};
ghost use Rattle.std.specs.Arc.{arc_value};
ghost use Rattle.r4_outside.specs.Device.{State};
ghost use Rattle.r4_search.specs.Pool.{PoolState, IsKnown, Fetches, LeavesDevice, called};

use r4_base::{BlockNo, CellFault, Key, Memory, NodeId};
use r4_cell::Cell;
use std::alloc::{AllocFailed, Global};
use std::sync::Arc;

/// Why a cell was not fetched (docs/volume.md, "The tree").
#[derive(Clone, Copy, Debug, PartialEq, Eq)]
pub enum FetchFault {
    /// A device failed at this block, and counts so many faults now.
    Read { block: BlockNo, faults: u64 },
    /// The block may not stand at this level and range: its first fault (docs/volume.md, "Cells").
    Damaged { block: BlockNo, fault: CellFault },
    /// No memory was found.
    Memory,
}

impl From<Memory> for FetchFault {
    ghost use Rattle.std.specs.Prelude.{◌≡◌};
    ghost use Rattle.r4_search.specs.declared.pool.FetchFault.TheVariants.{Memory as NoMemory};

    ghost from_gives = { λ _ e. e ≡ NoMemory };

    fn from(_none: Memory) -> FetchFault {
        FetchFault::Memory
    }
}

impl<T: Drop> From<AllocFailed<T>> for FetchFault {
    ghost use Rattle.std.specs.Prelude.{◌≡◌};
    ghost use Rattle.r4_search.specs.declared.pool.FetchFault.TheVariants.{Memory as NoMemory};

    ghost from_gives = { λ _ e. e ≡ NoMemory };

    fn from(_none: AllocFailed<T>) -> FetchFault {
        FetchFault::Memory
    }
}

/// Cells by their names: those that it keeps, and those that it reads as they are asked for (docs/volume.md, "The tree").
///
/// It has a root, and a number of blocks, and is asked only for the root and for what cells name that it answered. Each
/// name that it does not keep and that is below this number means the block of a device, which no call changes, where the
/// pool tells it. It tells of which levels it keeps the cells that it answered; these were met from then on, and no
/// others.
pub trait Pool {
    /// What the pool tells of itself.
    ghost state: { Self → PoolState };

    /// What its device tells of itself.
    ghost device: { Self → State };

    /// The number of calls of its device that failed, which never falls and stands still at 2^64 - 1 (docs/volume.md, "The
    /// tree").
    fn faults(&self) -> u64
        ensures { result ≡ (state self.now).faults };

    /// The cell of a name, at a level and for the keys from `lo` up to but without `hi`: the one that is kept, else one
    /// that is read, which may be kept from then on. Nothing is written to the device. A kept cell of another level is `Damaged` by `Level`, and one of
    /// this level and another range by `Range` at item 0. Every other name is `Damaged` exactly as its block is refused
    /// there. `Read` comes only for a name that is not kept, and only where the count of faults rose (docs/volume.md, "The
    /// tree").
    fn fetch(
        &mut self,
        alloc: Global,
        id: NodeId,
        level: u8,
        lo: Key,
        hi: Key,
    ) -> Result<Arc<Cell>, FetchFault>
        requires { IsKnown (state self.old) (called id.0 level lo hi) }
        ensures fetches { Fetches (λ cell. arc_value cell) (called id.0 level lo hi) (state self.old) result (state self.new) }
        ensures device { LeavesDevice (device self.old) (device self.new) };
}

impl<P: Pool> Pool for &mut P {
    ghost state = { λ pool. P.state pool.now };

    ghost device = { λ pool. P.device pool.now };

    fn faults(&self) -> u64 {
        (**self).faults()
    }

    fn fetch(
        &mut self,
        alloc: Global,
        id: NodeId,
        level: u8,
        lo: Key,
        hi: Key,
    ) -> Result<Arc<Cell>, FetchFault> {
        (**self).fetch(alloc, id, level, lo, hi)
    }
}
