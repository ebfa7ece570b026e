//! What one step reads, over the cells in memory.

ghost use Rattle.std.specs.Prelude.{◌≡◌, ◌≤◌, ◌<◌, ◌^◌, ℕ, None, IfOk};
ghost use Rattle.std.specs.Arc.{arc_value};
ghost use Rattle.r4_search.specs.Pool.{StandsInMemory, called};
ghost use Rattle.r4_buffer.specs.Reading.{AreNamed, IsReadable};
ghost use Rattle.r4_buffer.specs.InMemory.{IsInMemory};

use crate::buffer::Buffer;
use r4_base::{Block, BlockNo, CellFault, Key, Memory, NodeId};
use r4_outside::Device;
use r4_search::{Cell, FetchFault, Pool, Root, cell_from, fault_of_place};
use std::alloc::Global;
use std::sync::Arc;

/// A pool for one step over the cells in memory and a device, of the tree with this root on a
/// volume of `blocks` blocks. A cell in memory that fits is answered; a captured one that is asked
/// for with another level or range is `Damaged`; each other name is read from the device. It keeps
/// nothing of what it answers: under `Keeping` each block is read once (docs/buffer.md).
#[derive(Drop)]
pub struct Reading<'a, E: Device> {
    dev: E,
    buffer: &'a Buffer,
    root: Root,
    blocks: u64,
    ghost small: { blocks < 2 ^ 64 },
    ghost within: { blocks ≤ (E.state dev).blocks },
    ghost named: { AreNamed buffer.now },
    ghost readable: { IsReadable (E.state dev) buffer.now blocks },
}

impl<'a, E: Device> Reading<'a, E> {
    /// The device has at least as many blocks as the volume, and the cells in memory can be read
    /// from.
    pub fn new(dev: E, buffer: &'a Buffer, root: Root, blocks: u64) -> Reading<'a, E>
        requires within { blocks ≤ (E.state dev).blocks }
        requires readable { IsReadable (E.state dev) buffer.now blocks }
        ensures device { result.dev ≡ dev }
        ensures buffer { result.buffer.now ≡ buffer.now }
        ensures root { result.root ≡ root }
        ensures blocks { result.blocks ≡ blocks }
    {
        buffer.lawful();
        Reading {
            dev,
            buffer,
            root,
            blocks,
        }
    }

    /// The device.
    pub fn into_device(self) -> E
        ensures { result ≡ self.entry.dev }
    {
        self.dev
    }
}

impl<'a, E: Device> Pool for Reading<'a, E> {
    ghost use Rattle.r4_search.specs.OnDevice.{device_state};
    ghost use Rattle.r4_search.specs.Path.{root_name};
    ghost use Rattle.r4_buffer.specs.Reading.{reading_places};

    ghost state = { λ r.
        device_state (reading_places (root_name r.root) r.buffer.now r.blocks) (E.state r.dev) };

    ghost device = { λ r. E.state r.dev };

    fn faults(&self) -> u64 {
        self.dev.faults()
    }

    fn fetch(
        &mut self,
        alloc: Global,
        id: NodeId,
        level: u8,
        lo: Key,
        hi: Key,
    ) -> Result<Arc<Cell>, FetchFault> {
        let at = BlockNo(id.0);
        match in_memory(self.buffer, id, level, lo, hi) {
            InMemory::Fits(cell) => return Ok(shared(cell)?),
            InMemory::Refused(fault) => return Err(FetchFault::Damaged { block: at, fault }),
            InMemory::Absent => {}
        }
        let mut block = Block::zeroed(alloc)?;
        if self.dev.read(at, &mut block).is_err() {
            let faults = self.dev.faults();
            return Err(FetchFault::Read { block: at, faults });
        }
        cell_from(alloc, id, level, lo, hi, self.blocks, block)
    }
}

// What the cells in memory say of a name that is asked for.
#[derive(Drop)]
enum InMemory<'a> {
    // The cell of this name fits.
    Fits(&'a Arc<Cell>),
    // It is captured, and does not fit.
    Refused(CellFault),
    // It is not captured.
    Absent,
}

fn in_memory(buffer: &Buffer, id: NodeId, level: u8, lo: Key, hi: Key) -> InMemory<'_>
    ensures { IsInMemory buffer.now (called id.0 level lo hi) result }
{
    let Some(cell) = buffer.get(id) else {
        return InMemory::Absent;
    };
    match fault_of_place(cell, level, lo, hi) {
        None => InMemory::Fits(cell),
        Some(fault) if buffer.is_captured(id) => InMemory::Refused(fault),
        Some(_) => InMemory::Absent,
    }
}

// The same cell once more. What a cell is in memory is known of it then.
fn shared(cell: &Arc<Cell>) -> Result<Arc<Cell>, Memory>
    ensures same { IfOk result (λ c. arc_value c ≡ arc_value cell.now) }
    ensures stands { StandsInMemory (arc_value cell.now) }
{
    stands(cell);
    Ok(Arc::try_clone(cell)?)
}

// What a cell is in memory.
fn stands(cell: &Cell)
    ensures { StandsInMemory cell.now }
{
    if cell.level() == 0 {
        return;
    }
    let _ = cell.node();
}
