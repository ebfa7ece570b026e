//! The bitmaps of a fresh volume (docs/layout.md, "Bitmaps").

ghost use Rattle.std.specs.Prelude.{◌≡◌, ℕ, ◌+◌, ◌*◌, ◌<◌, ◌≤◌, ◌⊎◌, length, slice_set, take, replicate, true, ◌==◌, if◌then◌else◌};
ghost use Rattle.r4_base.specs.Image.{IsLawful};
ghost use Rattle.r4_base.specs.Bitmap.{bitmap_count, bits_of, is_used};
ghost use Rattle.r4_base.specs.Fresh.{is_taken};

use r4_base::{BITMAP_BITS, Block, FRESH_LEAF, blank};
use r4_bitmap::BitmapMut;

/// Makes the block bitmap `n` of a fresh volume: it marks the fixed blocks, the root, the leaf, and all past the volume's
/// end.
#[tactic(auto, using(r4_base::proofs::Lent::refilled_is))]
pub fn fill_bitmap(block: &mut Block, blocks: u64, n: u64)
    requires blocks { IsLawful blocks }
    requires within { n < bitmap_count blocks }
    ensures bits { (i : ℕ) → i < 32736 → is_used block.new i ≡ is_taken blocks (n * 32736 + i) }
    ensures front { take 4 block.new ≡ replicate 4 0 }
{
    fill_bits(block.bytes_mut(), blocks, n);
}

/// The same, of the block's bytes.
fn fill_bits(bytes: &mut [u8], blocks: u64, n: u64)
    requires whole { length bytes.old ≡ 4096 }
    requires blocks { IsLawful blocks }
    requires within { n < bitmap_count blocks }
    ensures bits { (i : ℕ) → i < 32736 → is_used bytes.new i ≡ is_taken blocks (n * 32736 + i) }
    ensures front { take 4 bytes.new ≡ replicate 4 0 }
{
    let end = BITMAP_BITS.min(blocks - n * BITMAP_BITS);
    blank(bytes);
    mark(bytes, 0, first_free(n));
    mark(bytes, end, BITMAP_BITS);
}

/// The first bit of bitmap `n` that is not for a fixed block, the root or the leaf.
fn first_free(n: u64) -> u64
    ensures { result ≡ (if n == 0 then 24 else 1) }
{
    if n == 0 { FRESH_LEAF.0 + 1 } else { 1 }
}

/// Makes the bits from `from` up to `to` 1.
fn mark(bytes: &mut [u8], from: u64, to: u64)
    requires whole { length bytes.old ≡ 4096 }
    requires order { from ≤ to }
    requires within { to ≤ 32736 }
    ensures inside { (i : ℕ) → from ≤ i → i < to → is_used bytes.new i ≡ true }
    ensures outside { (i : ℕ) → i < 32736 → (i < from) ⊎ (to ≤ i) → is_used bytes.new i ≡ is_used bytes.old i }
    ensures front { take 4 bytes.new ≡ take 4 bytes.old }
{
    for i in from..to {
        mark_one(bytes, i);
    }
}

/// Makes bit `i` 1.
fn mark_one(bytes: &mut [u8], i: u64)
    requires whole { length bytes.old ≡ 4096 }
    requires within { i < 32736 }
    ensures bits { bits_of bytes.new ≡ slice_set (bits_of bytes.old) i true }
    ensures front { take 4 bytes.new ≡ take 4 bytes.old }
{
    BitmapMut::new(bytes).set(i);
}
