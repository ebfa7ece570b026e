//! A device with a whole volume, and its blocks.

use r4_base::{Block, BlockNo, NodeId, SUPER_BLOCK, Super40};
use r4_cell::Root;
use r4_layout::{read_super, write_super};
use r4_mkfs::mkfs;
use r4_outside::{Device, MemoryDevice};
use r4_tree_testing::BLOCKS;
use std::alloc::Global;
use std::test::Fail;

/// The first block that no tree of `r4_tree_testing` has or names, nor any behind it.
pub const FREE: u64 = 43;

/// A volume of `BLOCKS` blocks on a device, the root of its tree, which its superblock names, and
/// the next block for a cell that has none yet. The bitmaps mark none of the blocks of the tree.
#[derive(Drop)]
pub struct Volume {
    pub dev: MemoryDevice,
    pub root: Root,
    pub free: u64,
}

impl Volume {
    /// A new volume that has the tree of another device in the place of its own.
    ///
    /// # Errors
    /// Where there is no memory, or that device has fewer blocks than `BLOCKS`.
    pub fn with_tree(alloc: Global, tree: (MemoryDevice, Root)) -> Result<Volume, Fail> {
        let (mut from, root) = tree;
        let (mut dev, _) = new_tree(alloc)?;
        for at in 22..BLOCKS {
            write(&mut dev, at, &read(alloc, &mut from, at)?)?;
        }
        let mut volume = Volume {
            dev,
            root,
            free: FREE,
        };
        volume.set_root(alloc, root)?;
        Ok(volume)
    }

    /// Names another root in the superblock.
    ///
    /// # Errors
    /// Where there is no memory, or the superblock is refused.
    pub fn set_root(&mut self, alloc: Global, root: Root) -> Result<(), Fail> {
        let mut block = read(alloc, &mut self.dev, SUPER_BLOCK.0)?;
        let Ok(says) = read_super(block.bytes(), BLOCKS) else {
            return Err(Fail::from("the superblock is refused"));
        };
        let says = Super40 {
            root_block: root.id.0,
            tree_height: u16::from(root.height),
            ..says
        };
        write_super(block.bytes_mut(), &says);
        write(&mut self.dev, SUPER_BLOCK.0, &block)?;
        self.root = root;
        Ok(())
    }

    /// Writes a block.
    ///
    /// # Errors
    /// Where there is no such block.
    pub fn write(&mut self, at: u64, block: &Block) -> Result<(), Fail> {
        write(&mut self.dev, at, block)
    }
}

/// The device of a new volume of `BLOCKS` blocks: its root is twig 22, and its leaf block 23.
///
/// # Errors
/// Where there is no memory.
pub fn new_tree(alloc: Global) -> Result<(MemoryDevice, Root), Fail> {
    let mut dev = MemoryDevice::plain(alloc, BLOCKS)?;
    if mkfs(alloc, &mut dev, b"").is_err() {
        return Err(Fail::from("no volume is made"));
    }
    let id = NodeId(22);
    Ok((dev, Root { id, height: 2 }))
}

// The content of a block.
fn read(alloc: Global, dev: &mut MemoryDevice, at: u64) -> Result<Block, Fail> {
    if at >= dev.blocks()? {
        return Err(Fail::from("the device has no such block"));
    }
    let mut block = Block::zeroed(alloc)?;
    dev.read(BlockNo(at), &mut block)?;
    Ok(block)
}

// Writes a block.
fn write(dev: &mut MemoryDevice, at: u64, block: &Block) -> Result<(), Fail> {
    if at >= dev.blocks()? {
        return Err(Fail::from("the device has no such block"));
    }
    dev.write(BlockNo(at), block)?;
    Ok(())
}
