//! The fixed blocks of a volume (docs/layout.md, "Fixed blocks").

ghost use Rattle.std.specs.Prelude.{◌≡◌, ◌*◌, ◌<◌, ◌^◌, ◌↔◌, IsTrue};
ghost use Rattle.r4_base.specs.Bitmap.{bitmap_block, bitmap_count, is_fixed};
ghost use Rattle.r4_base.specs.Image.{IsLawful};

use crate::limits::{BITMAP_BITS, FIRST_BITMAP, FIRST_PLACE, LEAST_BLOCKS, MOST_BLOCKS};
use crate::things::BlockNo;

/// Whether a volume may have so many blocks: from 64 to 1,048,576 (docs/layout.md, "Superblocks").
pub fn is_lawful_count(blocks: u64) -> bool
    ensures { IsTrue result ↔ IsLawful blocks }
{
    LEAST_BLOCKS <= blocks && blocks <= MOST_BLOCKS
}

/// Whether block `b` is a fixed one of a volume of `blocks` blocks: 0 to 21, or a bitmap's below their number
/// (docs/layout.md, "Fixed blocks").
pub fn is_fixed(blocks: u64, b: u64) -> bool
    ensures { result ≡ is_fixed blocks b }
{
    b < FIRST_PLACE || (b > 0 && b % BITMAP_BITS == 0 && b < blocks)
}

/// How many bitmaps a volume of `blocks` blocks has: one for each 32736 of them, or part of as many (docs/layout.md,
/// "Bitmaps").
pub fn bitmap_count(blocks: u64) -> u64
    ensures { result ≡ bitmap_count blocks }
{
    blocks.div_ceil(BITMAP_BITS)
}

/// Where bitmap `n` stands, counted from 0: block 18, or the first of the blocks that it tells of (docs/layout.md,
/// "Bitmaps").
pub fn bitmap_block(n: u64) -> BlockNo
    requires { n * 32736 < 2 ^ 64 }
    ensures { result.0 ≡ bitmap_block n }
{
    if n == 0 {
        FIRST_BITMAP
    } else {
        BlockNo(n * BITMAP_BITS)
    }
}
