//! Fresh volumes, and what a device tells of itself.

ghost use Rattle.std.specs.Prelude.{◌≡◌, IfOk};
ghost use Rattle.r4_outside.specs.Device.{Goes, TellsCrashes};
ghost use Rattle.r4_outside.specs.Memory.{memory_state};

use crate::blocks::read;
use r4_base::Super40;
use r4_layout::read_super;
use r4_outside::{Device, MemoryDevice, MemorySink};
use r4_space::SpaceMap;
use r4_testing::call;
use std::alloc::Global;
use std::test::Fail;

/// A fresh volume of so many blocks, of which no call was made.
pub fn volume(alloc: Global, blocks: u64) -> Result<MemoryDevice, Fail>
    ensures tells { IfOk result (λ d. TellsCrashes (memory_state d)) }
    ensures blocks { IfOk result (λ d. (memory_state d).blocks ≡ blocks) }
{
    let mut dev = MemoryDevice::new(alloc, blocks)?;
    let mut out = MemorySink::new(alloc, 100)?;
    if call(alloc, &["mkfs", "image"], &mut dev, &mut out)? != 0 {
        return Err(Fail::from("no volume is made"));
    }
    let mut made = dev.crash(alloc, dev.clock(), 0)?;
    if made.blocks()? != blocks {
        return Err(Fail::from("the volume has another size"));
    }
    Ok(made)
}

/// The superblock of a device.
pub fn super_of(alloc: Global, dev: &mut MemoryDevice) -> Result<Super40, Fail>
    ensures goes { Goes (memory_state dev.old) (memory_state dev.new) }
    ensures blocks { IfOk result (λ s. s.block_count ≡ (memory_state dev.old).blocks) }
{
    let blocks = dev.blocks()?;
    let block = read(alloc, dev, 17)?;
    let Ok(super40) = read_super(block.bytes(), blocks) else {
        return Err(Fail::from("the superblock is refused"));
    };
    if super40.block_count != blocks {
        return Err(Fail::from("the superblock counts other blocks"));
    }
    Ok(super40)
}

/// The space of a device of one bitmap, of which so many blocks are free.
pub fn space_of(alloc: Global, dev: &mut MemoryDevice, free: u64) -> Result<SpaceMap, Fail>
    ensures goes { Goes (memory_state dev.old) (memory_state dev.new) }
    ensures blocks { IfOk result (λ s. s.block_count ≡ (memory_state dev.old).blocks) }
{
    let blocks = dev.blocks()?;
    if blocks < 64 || blocks > 32_736 {
        return Err(Fail::from("there is not one bitmap"));
    }
    let bitmaps = Vec::from_array(alloc, [read(alloc, dev, 18)?])?;
    let Ok(space) = SpaceMap::read(alloc, &bitmaps, blocks, free) else {
        return Err(Fail::from("the bitmap is refused"));
    };
    Ok(space)
}
