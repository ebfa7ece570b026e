//! A device that stops.

use crate::same::same;
use r4_base::{Block, BlockNo, Memory};
use r4_devices::StopDevice;
use r4_outside::{Device, MemoryDevice};
use std::alloc::Global;
use std::process::Abort;
use std::test::Fail;

// A device of two blocks; once more where memory was refused.
fn two_blocks(alloc: Global) -> Result<MemoryDevice, Memory> {
    match MemoryDevice::new(alloc, 2) {
        Ok(dev) => Ok(dev),
        Err(_refused) => MemoryDevice::new(alloc, 2),
    }
}

// The same that stops at the first write; the device comes back where memory was refused.
fn stopping(alloc: Global) -> Result<StopDevice<MemoryDevice>, Fail> {
    let dev = match StopDevice::new(alloc, two_blocks(alloc)?, 0, 0, Some(1)) {
        Ok(dev) => return Ok(dev),
        Err(unmade) => unmade.dev,
    };
    match StopDevice::new(alloc, dev, 0, 0, Some(1)) {
        Ok(dev) => Ok(dev),
        Err(_unmade) => Err(Fail::from("memory was refused once more")),
    }
}

// A block; once more where memory was refused.
fn block(alloc: Global) -> Result<Block, Fail> {
    match Block::zeroed(alloc) {
        Ok(block) => Ok(block),
        Err(_refused) => Ok(Block::zeroed(alloc)?),
    }
}

// The device stops at the write of a block, and reads nothing behind that.
fn stops<X: Abort>(
    rt: &X,
    dev: &mut StopDevice<MemoryDevice>,
    block: &mut Block,
) -> Result<(), Fail> {
    let Ok(2) = dev.blocks() else {
        return Err(Fail::from("two blocks"));
    };
    let written = dev.write(BlockNo(1), block).is_ok();
    same(rt, &written, &false, "the write at which it stops");
    let read = dev.read(BlockNo(1), block).is_ok();
    same(rt, &read, &false, "a read behind the stop");
    Ok(())
}

// The device stops, and counts the calls that failed.
fn stops_and_counts<X: Abort>(
    rt: &X,
    alloc: Global,
    dev: &mut StopDevice<MemoryDevice>,
) -> Result<(), Fail> {
    let mut block = block(alloc)?;
    stops(rt, dev, &mut block)?;
    same(rt, &dev.faults(), &2, "calls that failed");
    Ok(())
}

#[test]
fn a_device_stops_where_memory_is_refused(rt: HostRuntime) -> Result<(), Fail> {
    let alloc = rt.alloc();
    let mut dev = stopping(alloc)?;
    stops_and_counts(&rt, alloc, &mut dev)
}
