//! A change that is put in place on a device: each new cell that has no block gets one, and what
//! names it names that block.

ghost use Rattle.std.specs.Prelude.{◌≤◌, ◌+◌, IfSome};

use crate::volumes::Volume;
use r4_base::{Block, NodeId, UNPLACED, get16, get64, put64};
use r4_cell::{Cell, Change, Root};
use std::alloc::{AllocError, Global};
use std::sync::Arc;
use std::test::Fail;

/// The plugin of an item that points to a node.
const POINTER: u16 = 3;

/// How many bytes the header of an item has.
const HEADER: usize = 38;

/// Writes the new cells of a change to the volume, and names the new root where there is one. A
/// cell with a number from 2^63 on gets a free block, by its place among the new ones.
///
/// # Errors
/// Where there is no memory, or the device has too few blocks.
pub fn put_in_place(alloc: Global, volume: &mut Volume, change: &Change) -> Result<(), Fail> {
    let new = change.new.as_slice();
    let free = volume.free;
    for cell in new {
        let block = on_disk(alloc, new, free, cell)?;
        volume.write(place_of(new, free, cell.id().0), &block)?;
    }
    volume.free = free.saturating_add(new.len() as u64);
    if let Some(root) = change.root {
        let id = NodeId(place_of(new, free, root.id.0));
        let height = root.height;
        volume.set_root(alloc, Root { id, height })?;
    }
    Ok(())
}

// The block of a cell: its number, or for one that has none yet one from the first free one on.
fn place_of(new: &[Arc<Cell>], free: u64, id: u64) -> u64 {
    if id < UNPLACED {
        return id;
    }
    match new.iter().position(|cell| cell.id().0 == id) {
        Some(place) => free.saturating_add(place as u64),
        None => id,
    }
}

// The bytes of a cell, in which each pointer names a block.
fn on_disk(alloc: Global, new: &[Arc<Cell>], free: u64, cell: &Cell) -> Result<Block, AllocError> {
    let mut block = cell.block().copy(alloc)?;
    if cell.level() < 2 {
        return Ok(block);
    }
    let count = usize::from(get16(block.bytes(), 2));
    for item in 1..=count {
        if let Some(at) = pointer_at(&block, item.saturating_mul(HEADER)) {
            let to = place_of(new, free, get64(block.bytes(), at));
            put64(block.bytes_mut(), at, to);
        }
    }
    Ok(block)
}

// Where the pointer of an item stands whose header begins so many bytes before the end; none where
// it is no pointer.
fn pointer_at(block: &Block, from_end: usize) -> Option<usize>
    ensures { IfSome result (λ at. at + 8 ≤ 4096) }
{
    let header = 4096usize.checked_sub(from_end)?;
    if header + HEADER > 4096 || number_at(block, header + 36) != POINTER {
        return None;
    }
    let at = usize::from(number_at(block, header + 32));
    if at + 8 > 4096 {
        return None;
    }
    Some(at)
}

// The number of two bytes at a place.
fn number_at(block: &Block, at: usize) -> u16
    requires { at + 2 ≤ 4096 }
{
    get16(block.bytes(), at)
}
