//! Images that are opened.

use crate::same::same;
use r4_base::{Memory, Super40};
use r4_mkfs::mkfs;
use r4_open::{Unopened, open_in_place};
use r4_outside::{Device, MemoryDevice};
use r4_replay::{ReplayFault, replay};
use std::alloc::Global;
use std::process::Abort;
use std::test::Fail;

const BLOCKS: u64 = 64;

// A device in memory; once more where memory was refused.
fn device(alloc: Global) -> Result<MemoryDevice, Memory> {
    match MemoryDevice::plain(alloc, BLOCKS) {
        Ok(dev) => Ok(dev),
        Err(_refused) => MemoryDevice::plain(alloc, BLOCKS),
    }
}

// A volume on it; once more where memory was refused.
fn volume(alloc: Global) -> Result<MemoryDevice, Fail> {
    let mut dev = device(alloc)?;
    if mkfs(alloc, &mut dev, b"").is_err() && mkfs(alloc, &mut dev, b"").is_err() {
        return Err(Fail::from("a volume"));
    }
    Ok(dev)
}

// Opens it, with the head of its log: its superblock.
fn opened<D: Device>(alloc: Global, dev: &mut D) -> Result<Super40, Unopened> {
    let placed = match replay(alloc, dev) {
        Ok(placed) => placed,
        Err(ReplayFault::Memory) => return Err(Unopened::Memory),
        Err(_) => return Err(Unopened::Failed),
    };
    let Ok(blocks) = dev.blocks() else {
        return Err(Unopened::Failed);
    };
    if blocks < 64 {
        return Err(Unopened::Failed);
    }
    let found = open_in_place(alloc, dev, placed.head, blocks)?;
    Ok(found.super40)
}

// Opens the volume; once more where memory was refused, and then the device stands as before.
fn open_again<X: Abort>(rt: &X, alloc: Global, dev: &mut MemoryDevice) {
    let mut found = opened(alloc, dev).map(|s| s.free_blocks);
    if found == Err(Unopened::Memory) {
        same(rt, &dev.faults(), &0, "the device, as before");
        found = opened(alloc, dev).map(|s| s.free_blocks);
    }
    same(rt, &found, &Ok(40), "the free blocks of the volume");
}

#[test]
fn an_image_stays_where_memory_is_refused(rt: HostRuntime) -> Result<(), Fail> {
    let alloc = rt.alloc();
    let mut dev = volume(alloc)?;
    open_again(&rt, alloc, &mut dev);
    Ok(())
}
