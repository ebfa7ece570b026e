//! Volumes of 64 blocks that are fresh but for what is laid into them.

use r4_base::{Block, BlockNo};
use r4_check::{Verdict, check};
use r4_mkfs::mkfs;
use r4_outside::{Device, MemoryDevice, MemorySink};
use std::alloc::Global;
use std::process::Abort;
use std::test::Fail;

// The superblock and the bitmap; where the numbers of free blocks, of the root's block, of objects and of levels stand,
// and the bits of blocks 24 to 31.
const SUPER: u64 = 17;

const BITMAP: u64 = 18;

const FREE: usize = 8;

const ROOT: usize = 16;

const FILES: usize = 32;

const HEIGHT: usize = 68;

const BITS: usize = 7;

/// What a fresh volume is made: the root's block, how many levels and objects it has, and which blocks from block 24 on
/// are in use, by bits and by number.
#[derive(Clone, Copy)]
pub struct Shape {
    pub root: u8,
    pub height: u8,
    pub files: u8,
    pub used: [u8; 3],
    pub count: u8,
}

// Sets bytes of a block.
fn set(block: &mut Block, bytes: &[(usize, u8)]) {
    for &(place, byte) in bytes {
        if place < 4096 {
            block.bytes_mut()[place] = byte;
        }
    }
}

// Changes bytes of a block of a device, by way of `block`.
fn change<D: Device>(
    dev: &mut D,
    block: &mut Block,
    at: u64,
    bytes: &[(usize, u8)],
) -> Result<(), Fail> {
    if at >= dev.blocks()? {
        return Err(Fail::from("there is no such block"));
    }
    dev.read(BlockNo(at), block)?;
    set(block, bytes);
    dev.write(BlockNo(at), block)?;
    Ok(())
}

// Makes a fresh volume of this shape.
fn shape_volume(dev: &mut MemoryDevice, block: &mut Block, shape: &Shape) -> Result<(), Fail> {
    let [first, second, third] = shape.used;
    let bits = [(BITS, first), (BITS + 1, second), (BITS + 2, third)];
    change(dev, block, BITMAP, &bits)?;
    let fields = [
        (FREE, 40u8.saturating_sub(shape.count)),
        (ROOT, shape.root),
        (FILES, shape.files),
        (HEIGHT, shape.height),
    ];
    change(dev, block, SUPER, &fields)
}

/// A fresh volume of this shape; its nodes are laid by the caller.
pub fn shaped(alloc: Global, shape: &Shape) -> Result<MemoryDevice, Fail> {
    let mut dev = MemoryDevice::plain(alloc, 64)?;
    mkfs(alloc, &mut dev, b"")?;
    shape_volume(&mut dev, &mut Block::zeroed(alloc)?, shape)?;
    Ok(dev)
}

/// What a check prints and counts.
pub fn finds<X: Abort>(
    rt: &X,
    alloc: Global,
    dev: &mut MemoryDevice,
    lines: &str,
    objects: u64,
    faults: u64,
) -> Result<(), Fail> {
    let mut out = MemorySink::new(alloc, 100)?;
    let verdict = check(alloc, dev, &mut out);
    assert_eq!(rt; verdict, Ok(Verdict { objects, faults }), "verdict");
    assert_eq!(rt; out.written(), lines.as_bytes(), "lines");
    Ok(())
}
