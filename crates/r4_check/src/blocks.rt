//! Sets of the blocks of a volume, a bit a block, laid out as its bitmaps are.

ghost use Rattle.std.specs.Prelude.{◌≡◌, ℕ, ◌<◌, ◌≤◌, ◌/◌, false, true, length, slice_set, IfOk};
ghost use Rattle.r4_base.specs.Bitmap.{bitmap_count, bits_of};
ghost use Rattle.r4_space.specs.Bitmaps.{marks};
ghost use Rattle.r4_check.specs.Blocks.{MarksOneMore};

use r4_base::{BITMAP_BITS, Block, Memory, bitmap_count};
use r4_bitmap::{BitmapMut, BitmapView};
use std::alloc::Global;

/// A set of the blocks of a volume of that many, in which none is.
pub fn no_blocks(alloc: Global, blocks: u64) -> Result<Vec<Block>, Memory>
    requires { blocks ≤ 1048576 }
    ensures size { IfOk result (λ v. length v.items ≡ bitmap_count blocks) }
    ensures none { IfOk result (λ v. (b : ℕ) → b < blocks → marks v.items b ≡ false) }
{
    let mut bitmaps = Vec::new(alloc);
    for n in 0..bitmap_count(blocks) {
        bitmaps.push(Block::zeroed(alloc)?)?;
    }
    Ok(bitmaps)
}

/// Whether a block is in a set.
pub fn has_block(bitmaps: &[Block], b: u64) -> bool
    requires { b / 32736 < length bitmaps.now }
    ensures { result ≡ marks bitmaps.now b }
{
    BitmapView::new(bitmaps[(b / BITMAP_BITS) as usize].bytes()).get(b % BITMAP_BITS)
}

/// Puts a block into a set.
pub fn put_block(bitmaps: &mut [Block], b: u64)
    requires { b / 32736 < length bitmaps.old }
    ensures { (blocks : ℕ) → bitmap_count blocks ≡ length bitmaps.old
        → MarksOneMore blocks b bitmaps.old bitmaps.new }
{
    mark_one(
        bitmaps[(b / BITMAP_BITS) as usize].bytes_mut(),
        b % BITMAP_BITS,
    );
}

// Makes bit `i` 1.
fn mark_one(bytes: &mut [u8], i: u64)
    requires whole { length bytes.old ≡ 4096 }
    requires within { i < 32736 }
    ensures { bits_of bytes.new ≡ slice_set (bits_of bytes.old) i true }
{
    BitmapMut::new(bytes).set(i);
}
