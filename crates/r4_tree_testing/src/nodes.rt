//! Nodes of items, on a device.

use crate::items::Item;
use r4_base::{Block, BlockNo, Memory};
use r4_outside::{Device, MemoryDevice};
use std::alloc::Global;
use std::test::Fail;

/// How many blocks the device has.
pub const BLOCKS: u64 = 64;

// What a node begins with, behind its counts.
const MAGIC: u32 = 0x5234_4653;

/// A device of zeros.
///
/// # Errors
/// Where there is no memory.
pub fn empty_device(alloc: Global) -> Result<MemoryDevice, Fail> {
    Ok(MemoryDevice::plain(alloc, BLOCKS)?)
}

/// A node of these items, of a level (docs/layout.md, "Nodes"). What does not fit is left out.
///
/// # Errors
/// Where there is no memory.
pub fn node(alloc: Global, level: u8, items: &[Item]) -> Result<Block, Memory> {
    let mut block = Block::zeroed(alloc)?;
    let bytes = block.bytes_mut();
    let mut end: u16 = 28;
    let mut header: usize = 4096;
    for item in items {
        header = header.saturating_sub(38);
        set_header(bytes, header, item, end);
        set(bytes, usize::from(end), item.body.as_slice());
        end = end.saturating_add(short(item.body.len()));
    }
    let count = short(items.len());
    set(bytes, 2, &count.to_le_bytes());
    let free = short(header).saturating_sub(end);
    set(bytes, 4, &free.to_le_bytes());
    set(bytes, 6, &end.to_le_bytes());
    set(bytes, 8, &MAGIC.to_le_bytes());
    set(bytes, 26, &[level]);
    Ok(block)
}

/// Writes a node of these items, of a level, to a block, as `node` makes it.
///
/// # Errors
/// Where there is no memory, or the device fails or has no such block.
pub fn lay(
    alloc: Global,
    dev: &mut MemoryDevice,
    at: u64,
    level: u8,
    items: &[Item],
) -> Result<(), Fail> {
    put(dev, at, &node(alloc, level, items)?)
}

/// Writes a block of equal bytes.
///
/// # Errors
/// Where there is no memory, or the device fails or has no such block.
pub fn lay_bytes(alloc: Global, dev: &mut MemoryDevice, at: u64, byte: u8) -> Result<(), Fail> {
    let mut block = Block::zeroed(alloc)?;
    block.bytes_mut().fill(byte);
    put(dev, at, &block)
}

// Writes a block.
fn put(dev: &mut MemoryDevice, at: u64, block: &Block) -> Result<(), Fail> {
    if at >= dev.blocks()? {
        return Err(Fail::from("the device has no such block"));
    }
    dev.write(BlockNo(at), block)?;
    Ok(())
}

// A number of two bytes, the greatest where it is greater.
fn short(n: usize) -> u16 {
    u16::try_from(n).unwrap_or(u16::MAX)
}

// Writes the header of an item whose body begins at `from`.
fn set_header(bytes: &mut [u8], at: usize, item: &Item, from: u16) {
    let [locality, ordering, oid, offset] = item.key.el;
    set(bytes, at, &locality.to_le_bytes());
    set(bytes, at.saturating_add(8), &ordering.to_le_bytes());
    set(bytes, at.saturating_add(16), &oid.to_le_bytes());
    set(bytes, at.saturating_add(24), &offset.to_le_bytes());
    set(bytes, at.saturating_add(32), &from.to_le_bytes());
    set(bytes, at.saturating_add(36), &item.plugin.to_le_bytes());
}

// Puts these bytes over others from a place on, as far as there are some.
fn set(bytes: &mut [u8], at: usize, from: &[u8]) {
    let mut place = at;
    for byte in from {
        if let Some(there) = bytes.get_mut(place) {
            *there = *byte;
        }
        place = place.saturating_add(1);
    }
}
