//! What the bitmaps of a volume tell.

ghost use Rattle.std.specs.Prelude.{◌≡◌, ℕ, ◌+◌, ◌*◌, ◌/◌, ◌<◌, ◌≤◌, length, map, count_by, not, true, false, ◌==◌, IfOk, if◌then◌else◌};
ghost use Rattle.std.specs.Int.{bit_at};
ghost use Rattle.std.specs.List.{range_with_len};
ghost use Rattle.r4_base.specs.Bitmap.{are_held, bits_of, bitmap_block, bitmap_count, is_always_used, is_used};
ghost use Rattle.r4_space.specs.Bitmaps.{HasUnheld, IsHeldIn, bitmaps_fault, first_unheld_of, free_bits, marks};

use crate::bits::Bits;
use crate::marks::HALVES;
use r4_base::{BITMAP_BITS, Block, BlockNo, FIRST_BITMAP, Memory, bitmap_block, get32, is_fixed};
use r4_bitmap::BitmapView;
use std::alloc::Global;

/// Whether bit `i` of a bitmap is 1.
fn is_used(block: &[u8], i: u64) -> bool
    requires whole { length block.now ≡ 4096 }
    requires within { i < 32736 }
    ensures { result ≡ is_used block.now i }
{
    BitmapView::new(block).get(i)
}

fn is_always_used(blocks: u64, b: u64) -> bool
    ensures { result ≡ is_always_used blocks b }
{
    is_fixed(blocks, b) || blocks <= b
}

/// Whether the bits of bitmap `n` are 1 where they always are.
fn is_held(block: &[u8], blocks: u64, n: u64) -> bool
    requires whole { length block.now ≡ 4096 }
    requires few { n < 64 }
    ensures { result ≡ are_held blocks (n * 32736) (bits_of block.now) }
{
    for j in 0..HALVES {
        if !is_half_held(block, blocks, n, j) {
            return false;
        }
    }
    true
}

/// Whether the 32 bits of bitmap `n` from bit `32 * j` on are 1 where they always are. They are looked at together, unless
/// some of them are 0 and some may stand for fixed blocks, which only the first ones do, or for numbers past the last block.
fn is_half_held(block: &[u8], blocks: u64, n: u64, j: u64) -> bool
    requires whole { length block.now ≡ 4096 }
    requires few { n < 64 }
    requires within { j < 1023 }
    ensures held { result ≡ true → IsHeldIn blocks (n * 32736) (32 * j) (32 * j + 32) block.now }
    ensures clear { result ≡ false → HasUnheld blocks (n * 32736) block.now }
{
    if j > 0 && 32 * (n * HALVES + j + 1) <= blocks {
        return true;
    }
    if get32(block, 4 + 4 * j as usize) == u32::MAX {
        return true;
    }
    for i in 32 * j..32 * j + 32 {
        if !is_used(block, i) && is_always_used(blocks, n * BITMAP_BITS + i) {
            return false;
        }
    }
    true
}

/// The number of 0 bits of a bitmap, counted 32 at a time.
fn count_free(block: &[u8]) -> u64
    requires { length block.now ≡ 4096 }
    ensures count { result ≡ count_by not (bits_of block.now) }
    ensures most { result ≤ 32736 }
{
    let mut count = 0;
    for j in 0..HALVES {
        let half = get32(block, 4 + 4 * j as usize);
        count += 32 - u64::from(half.count_ones());
    }
    count
}

/// The number of 0 bits of all bitmaps.
pub fn count_all_free(bitmaps: &[Block]) -> u64
    requires { length bitmaps.now ≤ 64 }
    ensures { result ≡ free_bits bitmaps.now }
{
    let mut count = 0;
    for bitmap in bitmaps {
        count += count_free(bitmap.bytes());
    }
    count
}

/// The block of the first bitmap with a 0 for a block that is always used.
fn find_unheld(bitmaps: &[Block], blocks: u64) -> Option<u64>
    requires { length bitmaps.now ≤ 64 }
    ensures { result ≡ first_unheld_of blocks 0 bitmaps.now }
{
    for (n, bitmap) in bitmaps.iter().enumerate() {
        if !is_held(bitmap.bytes(), blocks, n as u64) {
            return Some(bitmap_block(n as u64).0);
        }
    }
    None
}

/// What is wrong with the bitmaps of a volume: the block of the first one with a 0 for a block that is always used, or
/// else block 18, where the number of 0 bits is not `free_blocks`.
pub fn find_fault(bitmaps: &[Block], blocks: u64, free_blocks: u64) -> Option<u64>
    requires { length bitmaps.now ≤ 64 }
    ensures { result ≡ bitmaps_fault blocks free_blocks bitmaps.now }
{
    let unheld = find_unheld(bitmaps, blocks);
    if unheld.is_some() {
        return unheld;
    }
    if count_all_free(bitmaps) == free_blocks {
        None
    } else {
        Some(FIRST_BITMAP.0)
    }
}

/// For each block whether it is marked, read 32 bits at a time.
pub fn read_marks(alloc: Global, bitmaps: &[Block], blocks: u64) -> Result<Bits, Memory>
    requires most { blocks ≤ 1048576 }
    requires each { length bitmaps.now ≡ bitmap_count blocks }
    ensures { IfOk result (λ v. v ≡ map (marks bitmaps.now) (range_with_len 0 blocks)) }
{
    let count = blocks / 64 + 1;
    let mut words = Vec::with_capacity(alloc, count as usize)?;
    for w in 0..count {
        let low = half_at(bitmaps, 2 * w);
        let high = half_at(bitmaps, 2 * w + 1);
        words.push(u64::from(high) * (1 << 32) + u64::from(low))?;
    }
    Ok(Bits::of_words(blocks, words))
}

/// The 32 bits of the bitmaps from that of block `32 * h` on; none is 1 past the last bitmap.
fn half_at(bitmaps: &[Block], h: u64) -> u32
    ensures { (j : ℕ) → j < 32 → 32 * h + j < 32736 * length bitmaps.now
        → (bit_at result j == 1) ≡ marks bitmaps.now (32 * h + j) }
{
    match bitmaps.get((h / HALVES) as usize) {
        Some(bitmap) => get32(bitmap.bytes(), 4 + 4 * (h % HALVES) as usize),
        None => 0,
    }
}
