//! The two superblocks of a fresh volume (docs/layout.md, "Superblocks").

ghost use Rattle.std.specs.Prelude.{◌≡◌};
ghost use Rattle.r4_base.specs.Image.{IsLawful};
ghost use Rattle.r4_base.specs.Layout.{master_block, super_block};
ghost use Rattle.r4_base.specs.Fresh.{fresh_free, fresh_super};
ghost use Rattle.r4_mkfs.specs.Mkfs.{IsLabel, full_label};

use crate::nodes::MKFS_ID;
use r4_base::{Block, FIRST_OBJECT, FRESH_LEAF, FRESH_TWIG, Master, Super40, TWIG, bitmap_count};
use r4_layout::{write_master, write_super};

/// How many blocks of a fresh volume are free: all but the fixed ones, the root and the leaf.
pub fn free_blocks(blocks: u64) -> u64
    requires { IsLawful blocks }
    ensures { result ≡ fresh_free blocks }
{
    blocks - (FRESH_LEAF.0 + bitmap_count(blocks))
}

/// Makes the block the format superblock of a fresh volume.
#[tactic(auto, using(r4_base::proofs::Lent::refilled_is))]
pub fn fill_super(block: &mut Block, blocks: u64)
    requires { IsLawful blocks }
    ensures { block.new ≡ super_block (fresh_super blocks) }
{
    let says = Super40 {
        block_count: blocks,
        free_blocks: free_blocks(blocks),
        root_block: FRESH_TWIG.0,
        oid: FIRST_OBJECT,
        file_count: 1,
        flushes: 0,
        mkfs_id: MKFS_ID,
        tree_height: u16::from(TWIG),
        formatting_policy: 0,
        flags: 1,
        version: 0,
        node_pid: 0,
    };
    write_super(block.bytes_mut(), &says);
}

/// Makes the block the master superblock of a volume of this label.
#[tactic(auto, using(r4_base::proofs::Lent::refilled_is))]
pub fn fill_master(block: &mut Block, label: &[u8])
    requires { IsLabel label.now }
    ensures { block.new ≡ master_block (record { label = full_label label.now }) }
{
    let mut full = [0; 16];
    full[..label.len()].copy_from_slice(label);
    write_master(block.bytes_mut(), &Master { label: full });
}
