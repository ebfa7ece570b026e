//! The master superblock (docs/layout.md, "Superblocks").

ghost use Rattle.std.specs.Prelude.{◌≡◌, length, Ok};
ghost use Rattle.r4_base.specs.Layout.{master_of, master_block};

use crate::field::stands_at;
use r4_base::{LayoutFault, Master, blank, get16, put_bytes, put16};

const MAGIC: [u8; 16] = *b"ReIsEr4\0\0\0\0\0\0\0\0\0";

/// The master superblock that a block of 4096 bytes spells: `Magic` where the magic is false or the disk plugin is not
/// 0, and then `BlockSize` where the block size is not 4096. The uuid and the diskmap are not read
/// (docs/layout.md, "Superblocks").
#[tactic(auto, unfolding(r4_base::specs::Layout::master_of))]
pub fn read_master(block: &[u8]) -> Result<Master, LayoutFault>
    requires { length block.now ≡ 4096 }
    ensures { result ≡ master_of block.now }
{
    if !stands_at(block, 0, &MAGIC) || get16(block, 16) != 0 {
        return Err(LayoutFault::Magic);
    }
    if get16(block, 18) != 4096 {
        return Err(LayoutFault::BlockSize);
    }
    let mut label = [0; 16];
    label.copy_from_slice(&block[36..52]);
    Ok(Master { label })
}

/// Makes a block of 4096 bytes the spelling of a master superblock: all but the magic, the block size and the label is
/// zero (docs/layout.md, "Superblocks").
pub fn write_master(block: &mut [u8], m: &Master)
    requires { length block.old ≡ 4096 }
    ensures spelled { block.new ≡ master_block m.now }
    ensures again { master_of block.new ≡ Ok m.now }
{
    blank(block);
    put_bytes(block, 0, &MAGIC);
    put16(block, 16, 0);
    put16(block, 18, 4096);
    put_bytes(block, 36, &m.label);
}
