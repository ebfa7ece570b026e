//! Cells to be committed.

ghost use Rattle.std.specs.Prelude.{◌≡◌, IfOk};
ghost use Rattle.std.specs.Arc.{arc_value};
ghost use Rattle.r4_outside.specs.Device.{Goes};
ghost use Rattle.r4_outside.specs.Memory.{memory_state};

use crate::blocks::{filled, read};
use r4_base::{Key, NodeId, Oid};
use r4_cell::{Cell, read_cell};
use r4_outside::MemoryDevice;
use std::alloc::Global;
use std::sync::Arc;
use std::test::Fail;

/// The leaf of a fresh volume, where the root directory belongs to user 7, and belonged to user 0.
pub fn leaf(alloc: Global, dev: &mut MemoryDevice) -> Result<Arc<Cell>, Fail>
    ensures goes { Goes (memory_state dev.old) (memory_state dev.new) }
    ensures at { IfOk result (λ c. (arc_value c).id ≡ 23) }
{
    let mut block = read(alloc, dev, 23)?;
    if block.bytes()[44] != 0 {
        return Err(Fail::from("the root directory belongs to another user"));
    }
    block.bytes_mut()[44] = 7;
    let lo = Key::stat(41, 0, Oid(42));
    let hi = Key::stat(41, 0, Oid(43));
    let Ok(cell) = read_cell(alloc, NodeId(23), 1, lo, hi, 64, block) else {
        return Err(Fail::from("a leaf is refused"));
    };
    Ok(cell)
}

/// A data block of this name, all of one byte.
pub fn data(alloc: Global, id: u64, byte: u8) -> Result<Arc<Cell>, Fail>
    ensures { IfOk result (λ c. (arc_value c).id ≡ id) }
{
    let lo = Key::body(41, 0, Oid(42), 0);
    let hi = Key::body(41, 0, Oid(42), 4096);
    let Ok(cell) = read_cell(alloc, NodeId(id), 0, lo, hi, 64, filled(alloc, byte)?) else {
        return Err(Fail::from("a data block is refused"));
    };
    Ok(cell)
}
