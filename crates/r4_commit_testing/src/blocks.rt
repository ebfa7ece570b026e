//! Blocks that are filled, and blocks of a device.

ghost use Rattle.r4_outside.specs.Device.{Goes};

use r4_base::{Block, BlockNo, get64};
use r4_outside::Device;
use std::alloc::Global;
use std::test::Fail;

/// A block of this byte.
pub fn filled(alloc: Global, byte: u8) -> Result<Block, Fail> {
    let mut block = Block::zeroed(alloc)?;
    block.bytes_mut().fill(byte);
    Ok(block)
}

/// A block of a device.
pub fn read<D: Device>(alloc: Global, dev: &mut D, at: u64) -> Result<Block, Fail>
    ensures { Goes (D.state dev.old) (D.state dev.new) }
{
    let mut block = Block::zeroed(alloc)?;
    let Ok(count) = dev.blocks() else {
        return Err(Fail::from("blocks are not counted"));
    };
    if at >= count || dev.read(BlockNo(at), &mut block).is_err() {
        return Err(Fail::from("a block is not read"));
    }
    Ok(block)
}

/// The number of eight bytes at a byte, or 0 where there is none.
pub fn number(block: &Block, at: usize) -> u64 {
    let bytes = block.bytes();
    if at <= 4088 { get64(bytes, at) } else { 0 }
}
