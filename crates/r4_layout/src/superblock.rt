//! The format superblock (docs/layout.md, "Superblocks").

ghost use Rattle.std.specs.Prelude.{◌≡◌, ℕ, length, Ok};
ghost use Rattle.r4_base.specs.Bitmap.{is_fixed};
ghost use Rattle.r4_base.specs.Bytes.{FieldsFit, put_all};
ghost use Rattle.r4_base.specs.Layout.{counts_are_good, super_fields, super_of, super_block, IsLawfulSuper, fields_before_magic, fields_behind_magic};

use crate::field::stands_at;
use r4_base::{
    FIRST_OBJECT, FIRST_PLACE, LEAST_BLOCKS, LayoutFault, MOST_BLOCKS, MOST_LEVELS, OBJECT_END,
    Super40, TWIG, blank, get16, get32, get64, is_fixed, put_bytes, put16, put32, put64,
};

const MAGIC: [u8; 16] = *b"ReIsEr40FoRmAt\0\0";

const MARK: [u8; 8] = *b"R4PROF01";

/// The format superblock that a block of 4096 bytes spells, on a device of `device_blocks` blocks. The faults are looked
/// for in this order: `Magic`; `Profile`, where the mark is false, the flags are not 1 or the node plugin is not 0;
/// `Height`, where the tree's is not 2 to 8; `Count`, where the number of blocks, the root or the next object id is out
/// of its range. The other fields may be any numbers (docs/layout.md, "Superblocks").
#[tactic(auto, unfolding(r4_base::specs::Layout::super_of))]
pub fn read_super(block: &[u8], device_blocks: u64) -> Result<Super40, LayoutFault>
    requires { length block.now ≡ 4096 }
    ensures { result ≡ super_of device_blocks block.now }
{
    if !stands_at(block, 52, &MAGIC) {
        return Err(LayoutFault::Magic);
    }
    let s = fields(block);
    if !stands_at(block, 88, &MARK) || s.flags != 1 || s.node_pid != 0 {
        return Err(LayoutFault::Profile);
    }
    if s.tree_height < u16::from(TWIG) || s.tree_height > u16::from(MOST_LEVELS) {
        return Err(LayoutFault::Height);
    }
    if !counts_are_good(&s, device_blocks) {
        return Err(LayoutFault::Count);
    }
    Ok(s)
}

/// The fields of a block, whatever they are.
#[tactic(auto, unfolding(r4_base::specs::Layout::super_fields))]
fn fields(block: &[u8]) -> Super40
    requires { length block.now ≡ 4096 }
    ensures { result ≡ super_fields block.now }
{
    Super40 {
        block_count: get64(block, 0),
        free_blocks: get64(block, 8),
        root_block: get64(block, 16),
        oid: get64(block, 24),
        file_count: get64(block, 32),
        flushes: get64(block, 40),
        mkfs_id: get32(block, 48),
        tree_height: get16(block, 68),
        formatting_policy: get16(block, 70),
        flags: get64(block, 72),
        version: get32(block, 80),
        node_pid: get32(block, 84),
    }
}

/// Whether the number of blocks, the root and the next object id are within their ranges.
fn counts_are_good(s: &Super40, device_blocks: u64) -> bool
    ensures { result ≡ counts_are_good device_blocks s.now }
{
    let blocks = s.block_count;
    let are_blocks = blocks >= LEAST_BLOCKS && blocks <= MOST_BLOCKS && blocks <= device_blocks;
    let root = s.root_block;
    let is_root = root >= FIRST_PLACE && root < blocks && !is_fixed(blocks, root);
    are_blocks && is_root && s.oid >= FIRST_OBJECT && s.oid < OBJECT_END
}

/// Makes a block of 4096 bytes the spelling of a format superblock: all past the mark is zero. What is read again is
/// what was written; it is refused unless the fields are lawful (docs/layout.md, "Superblocks").
pub fn write_super(block: &mut [u8], s: &Super40)
    requires { length block.old ≡ 4096 }
    ensures spelled { block.new ≡ super_block s.now }
    ensures again { (device_blocks : ℕ) → IsLawfulSuper device_blocks s.now → super_of device_blocks block.new ≡ Ok s.now }
    ensures fields { super_fields block.new ≡ s.now }
{
    blank(block);
    put_front(block, s);
    put_bytes(block, 52, &MAGIC);
    put_back(block, s);
    put_bytes(block, 88, &MARK);
}

/// Writes the fields that stand before the magic.
fn put_front(block: &mut [u8], s: &Super40)
    requires { length block.old ≡ 4096 }
    ensures fit { FieldsFit (fields_before_magic s.now) }
    ensures spelled { block.new ≡ put_all (fields_before_magic s.now) 0 block.old }
{
    put64(block, 0, s.block_count);
    put64(block, 8, s.free_blocks);
    put64(block, 16, s.root_block);
    put64(block, 24, s.oid);
    put64(block, 32, s.file_count);
    put64(block, 40, s.flushes);
    put32(block, 48, s.mkfs_id);
}

/// Writes the fields that stand between the magic and the mark.
fn put_back(block: &mut [u8], s: &Super40)
    requires { length block.old ≡ 4096 }
    ensures fit { FieldsFit (fields_behind_magic s.now) }
    ensures spelled { block.new ≡ put_all (fields_behind_magic s.now) 68 block.old }
{
    put16(block, 68, s.tree_height);
    put16(block, 70, s.formatting_policy);
    put64(block, 72, s.flags);
    put32(block, 80, s.version);
    put32(block, 84, s.node_pid);
}
