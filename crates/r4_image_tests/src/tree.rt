//! Trees over leaves that are laid one after the other.

use crate::changed::change;
use crate::file::{FIRST, lay_file};
use r4_outside::MemoryDevice;
use r4_run_testing::{RUN, fresh, printed};
use r4_tree_testing::{Item, lay, pointer};
use std::alloc::Global;
use std::sync::Wait;
use std::test::Fail;
use std::thread::Threads;

/// How many bytes of the file each leaf has, how many leaves each twig names, and the height.
#[derive(Clone, Copy)]
pub struct Shape {
    pub name: &'static str,
    pub len: u16,
    pub leaves: usize,
    pub height: u8,
}

/// How many blocks the volume has.
pub const BLOCKS: u64 = 2048;

// Lays nodes of a level with these items, so many in each, in blocks one after the other, and gives the pointers to them.
fn lay_level(
    alloc: Global,
    dev: &mut MemoryDevice,
    next: &mut u64,
    level: u8,
    items: &[Item],
    count: usize,
) -> Result<Vec<Item>, Fail> {
    let mut pointers = Vec::new(alloc);
    for mine in items.chunks(count.max(1)) {
        let Some(first) = mine.first() else {
            return Ok(pointers);
        };
        pointers.push(pointer(alloc, first.key, *next)?)?;
        lay(alloc, dev, *next, level, mine)?;
        *next = next.saturating_add(1);
    }
    Ok(pointers)
}

// Lays all nodes; the root is the last one. At height 4 two nodes stand below it, each over half of the twigs.
fn lay_nodes(alloc: Global, dev: &mut MemoryDevice, shape: &Shape) -> Result<u64, Fail> {
    let leaves = lay_file(alloc, dev, shape.len)?;
    let mut next = FIRST.saturating_add(u64::try_from(leaves.len()).unwrap_or(0));
    let mut row = lay_level(alloc, dev, &mut next, 2, leaves.as_slice(), shape.leaves)?;
    if shape.height > 3 {
        let half = row.len().saturating_add(1) / 2;
        row = lay_level(alloc, dev, &mut next, 3, row.as_slice(), half)?;
    }
    let all = row.len();
    let _ = lay_level(alloc, dev, &mut next, shape.height, row.as_slice(), all)?;
    Ok(next.saturating_sub(1))
}

// The bytes of a bitmap in which so many of the first blocks are used, and no others.
fn bits(alloc: Global, used: u64) -> Result<Vec<u8>, Fail> {
    let mut bytes = Vec::new(alloc);
    for _ in 0..used / 8 {
        bytes.push(0xff)?;
    }
    let mut last = 0u8;
    for _ in 0..used % 8 {
        last = last.saturating_mul(2).saturating_add(1);
    }
    bytes.push(last)?;
    Ok(bytes)
}

// Puts the root and the height into the superblock, and the blocks in use into it and the bitmap.
fn mark(alloc: Global, dev: &mut MemoryDevice, root: u64, height: u8) -> Result<(), Fail> {
    let used = root.saturating_add(1);
    let free = BLOCKS.saturating_sub(used).to_le_bytes();
    let at = root.to_le_bytes();
    let tall = [height];
    let bitmap = bits(alloc, used)?;
    let changes = [
        (17, 8, free.as_slice()),
        (17, 16, at.as_slice()),
        (17, 68, tall.as_slice()),
        (18, 4, bitmap.as_slice()),
    ];
    change(alloc, dev, &changes)
}

/// A volume with the two files in a tree of this shape.
pub fn volume<X: Threads + Wait + Sync>(
    rt: &X,
    alloc: Global,
    shape: &Shape,
) -> Result<MemoryDevice, Fail> {
    let mut dev = fresh(rt, alloc, BLOCKS)?;
    let _ = printed(
        rt,
        alloc,
        &RUN,
        &mut dev,
        "script\ncreate /f\ncreate /g\n",
        0,
    )?;
    let root = lay_nodes(alloc, &mut dev, shape)?;
    mark(alloc, &mut dev, root, shape.height)?;
    Ok(dev)
}
