//! A stop over a device in memory.

use r4_base::{Block, BlockNo};
use r4_devices::StopDevice;
use r4_outside::{Device, MemoryDevice};
use std::alloc::Global;
use std::fmt::Debug;
use std::process::Abort;
use std::test::Fail;

// An assertion is proved at each place where it stands, so there is one for all of them.
fn same<T: PartialEq + Debug, X: Abort>(rt: &X, got: &T, wanted: &T, what: &str) {
    assert_eq!(rt; *got, *wanted, "{what}");
}

// A block whose bytes are all the same.
fn filled(alloc: Global, byte: u8) -> Result<Block, Fail> {
    let mut block = Block::zeroed(alloc)?;
    block.bytes_mut().fill(byte);
    Ok(block)
}

// Writes a block of one byte. Was it a call of a device that went well?
fn put<D: Device>(alloc: Global, dev: &mut D, at: u64, byte: u8) -> Result<bool, Fail> {
    let block = filled(alloc, byte)?;
    match dev.blocks() {
        Ok(blocks) if at < blocks => Ok(dev.write(BlockNo(at), &block).is_ok()),
        _ => Ok(false),
    }
}

// The first byte of each sector of a block.
fn sectors<D: Device>(alloc: Global, dev: &mut D, at: u64) -> Result<[u8; 8], Fail> {
    let mut block = Block::zeroed(alloc)?;
    let mut firsts = [0; 8];
    let Ok(blocks) = dev.blocks() else {
        return Ok(firsts);
    };
    if at >= blocks || dev.read(BlockNo(at), &mut block).is_err() {
        return Ok(firsts);
    }
    for s in 0..8usize {
        firsts[s] = block.bytes()[512 * s];
    }
    Ok(firsts)
}

// Three blocks, each of the byte that is ten more than its number, and synced.
fn three_blocks(alloc: Global) -> Result<MemoryDevice, Fail> {
    let mut dev = MemoryDevice::new(alloc, 3)?;
    for at in 0..3u8 {
        put(alloc, &mut dev, at as u64, 10 + at)?;
    }
    let _ = dev.sync();
    Ok(dev)
}

// Writes block 2, and block 1 twice, where the device stops at the third write.
fn write_three<X: Abort>(
    rt: &X,
    alloc: Global,
    dev: &mut StopDevice<MemoryDevice>,
) -> Result<(), Fail> {
    let first = put(alloc, dev, 2, 20)?;
    let second = put(alloc, dev, 1, 21)?;
    same(rt, &dev.starved(), &(!first || !second), "starved");
    same(rt, &put(alloc, dev, 1, 31)?, &false, "torn");
    Ok(())
}

// A device that passes two writes, of blocks 2 and 1, and stops at the third, of block 1 again: bits 0 and 2 are set.
fn stopped<X: Abort>(
    rt: &X,
    alloc: Global,
    dev: MemoryDevice,
    pick: Option<u64>,
) -> Result<StopDevice<MemoryDevice>, Fail> {
    let Ok(mut dev) = StopDevice::new(alloc, dev, 2, 5, pick) else {
        return Err(Fail::from("no memory for the torn write"));
    };
    write_three(rt, alloc, &mut dev)?;
    Ok(dev)
}

// By the pick: what is left of block 1 and of block 2.
static LEFT: [(Option<u64>, [u8; 8], [u8; 8]); 3] = [
    (None, [31, 21, 31, 21, 21, 21, 21, 21], [20; 8]),
    (
        Some(1),
        [31, 11, 31, 21, 21, 11, 21, 21],
        [20, 12, 20, 12, 20, 20, 20, 12],
    ),
    (
        Some(2),
        [31, 21, 31, 21, 21, 11, 11, 11],
        [12, 20, 12, 20, 20, 20, 20, 20],
    ),
];

// Looks at block 0, of which nothing was written, and at what is left of the other two.
fn is_left<X: Abort>(
    rt: &X,
    alloc: Global,
    dev: &mut MemoryDevice,
    first: &[u8; 8],
    second: &[u8; 8],
) -> Result<(), Fail> {
    same(rt, &sectors(alloc, dev, 0)?, &[10; 8], "block 0");
    same(rt, &sectors(alloc, dev, 1)?, first, "block 1");
    same(rt, &sectors(alloc, dev, 2)?, second, "block 2");
    Ok(())
}

#[test]
fn the_third_write_is_torn(rt: HostRuntime) -> Result<(), Fail> {
    for (pick, first, second) in &LEFT {
        let dev = stopped(&rt, rt.alloc(), three_blocks(rt.alloc())?, *pick)?;
        if dev.starved() {
            continue;
        }
        let mut left = dev.into_inner();
        is_left(&rt, rt.alloc(), &mut left, first, second)?;
    }
    Ok(())
}

#[test]
fn each_call_after_the_stop_fails(rt: HostRuntime) -> Result<(), Fail> {
    let mut dev = stopped(&rt, rt.alloc(), three_blocks(rt.alloc())?, None)?;
    same(&rt, &[dev.clock(), dev.faults()], &[7, 1], "at the stop");
    same(&rt, &dev.sync().is_err(), &true, "sync");
    same(&rt, &dev.blocks().is_err(), &true, "blocks");
    same(&rt, &[dev.clock(), dev.faults()], &[8, 3], "behind it");
    Ok(())
}

// A device that passes one write, for which it cannot read what is below, and stops at the next.
fn unread(alloc: Global) -> Result<StopDevice<MemoryDevice>, Fail> {
    let mut below = three_blocks(alloc)?;
    below.fail(alloc, 5)?;
    let Ok(dev) = StopDevice::new(alloc, below, 1, 0, Some(1)) else {
        return Err(Fail::from("no memory for the torn write"));
    };
    Ok(dev)
}

// Writes a block of such a device, and then another one, at which it stops.
fn is_written<X: Abort>(
    rt: &X,
    alloc: Global,
    dev: &mut StopDevice<MemoryDevice>,
) -> Result<(), Fail> {
    same(rt, &put(alloc, dev, 2, 20)?, &false, "answer");
    same(rt, &[dev.clock(), dev.faults()], &[5, 1], "counts");
    same(rt, &sectors(alloc, dev, 2)?, &[20; 8], "written");
    same(rt, &put(alloc, dev, 1, 21)?, &false, "stop");
    Ok(())
}

#[test]
fn a_block_that_cannot_be_read_is_written(rt: HostRuntime) -> Result<(), Fail> {
    let alloc = rt.alloc();
    let mut dev = unread(alloc)?;
    is_written(&rt, alloc, &mut dev)?;
    let mut left = dev.into_inner();
    same(&rt, &sectors(alloc, &mut left, 1)?, &[11; 8], "not written");
    same(
        &rt,
        &sectors(alloc, &mut left, 2)?,
        &[20; 8],
        "not held back",
    );
    Ok(())
}
