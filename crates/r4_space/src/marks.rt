//! The bits of a bitmap, as the commit of an atom leaves them.

ghost use Rattle.std.specs.Prelude.{◌≡◌, ℕ, ◌+◌, ◌*◌, ◌<◌, ◌≤◌, length, take, replicate, true, false, not, ◌||◌, ◌&&◌, slice_index_or, slice_set, nat_le, ◌==◌};
ghost use Rattle.std.specs.Int.{bit_at};
ghost use Rattle.r4_base.specs.Bitmap.{bits_of, is_fixed, is_used};
ghost use Rattle.r4_space.specs.Accounts.{is_sealed};
ghost use Rattle.r4_space.specs.Kept.{AreWithin};
ghost use Rattle.r4_space.specs.Space.{freed_by, is_claimed, is_marked_after, up_to};

use crate::bits::Bits;
use crate::things::Claim;
use r4_base::{AtomNo, BITMAP_BITS, blank, is_fixed, put32};
use r4_bitmap::BitmapMut;

/// How many times 32 bits a bitmap has.
pub const HALVES: u64 = BITMAP_BITS / 32;

/// Makes bit `i` 0.
fn set_free(block: &mut [u8], i: u64)
    requires whole { length block.old ≡ 4096 }
    requires within { i < 32736 }
    ensures bits { bits_of block.new ≡ slice_set (bits_of block.old) i false }
    ensures front { take 4 block.new ≡ take 4 block.old }
{
    let mut bitmap = BitmapMut::new(block);
    bitmap.clear(i);
}

/// Makes the bit of block `b` 0 where it is freed and the bitmap has one; `first` is the number of the first bit.
fn free_bit(block: &mut [u8], first: u64, b: u64, freed: bool)
    requires whole { length block.old ≡ 4096 }
    ensures bits { (k : ℕ) → k < 32736 → is_used block.new k ≡ (is_used block.old k && not (freed && b == first + k)) }
    ensures front { take 4 block.new ≡ take 4 block.old }
{
    if freed && b >= first && b - first < BITMAP_BITS {
        set_free(block, b - first);
    }
}

/// Whether an atom, or one that was sealed before it, is `other`.
pub fn is_up_to(sealed: &[AtomNo], atom: AtomNo, other: AtomNo) -> bool
    ensures { result ≡ is_sealed (up_to sealed.now atom) other }
{
    for a in sealed {
        if a.0 == atom.0 {
            return other.0 == atom.0;
        }
        if a.0 == other.0 {
            return true;
        }
    }
    other.0 == atom.0
}

/// The 32 bits of which those from bit `from` on are 1.
fn ones_from(from: u64) -> u32
    ensures { (j : ℕ) → j < 32 → (bit_at result j == 1) ≡ nat_le from j }
{
    if from >= 32 {
        return 0;
    }
    u32::MAX - ((1 << from) - 1)
}

/// For each of the 32 blocks from block `32 * h` on a bit: whether it is marked or placed, or its number is past the last
/// block.
fn kept_half(marked: &Bits, placed: &Bits, h: u64) -> u32
    requires few { h < 4294967296 }
    requires size { length placed.now ≡ length marked.now }
    ensures { (j : ℕ) → j < 32 → (bit_at result j == 1) ≡ (nat_le (length marked.now) (32 * h + j) || (slice_index_or marked.now (32 * h + j) false || slice_index_or placed.now (32 * h + j) false)) }
{
    let blocks = marked.len();
    if blocks <= 32 * h {
        return u32::MAX;
    }
    marked.half(h) | placed.half(h) | ones_from(blocks - 32 * h)
}

/// Whether the block of a claim is freed by an atom or by one that was sealed before it. A fixed one never is.
fn is_freed(claim: &Claim, blocks: u64, sealed: &[AtomNo], atom: AtomNo) -> bool
    ensures { result ≡ (not (is_fixed blocks claim.now.block.0) && is_sealed (up_to sealed.now atom) claim.now.atom) }
{
    !is_fixed(blocks, claim.block.0) && is_up_to(sealed, atom, claim.atom)
}

/// Writes the bits of bitmap `n` for blocks that are marked or placed and for numbers past the last block, 32 at a time.
fn write_marks(block: &mut [u8], n: u64, marked: &Bits, placed: &Bits)
    requires whole { length block.old ≡ 4096 }
    requires few { n < 64 }
    requires size { length placed.now ≡ length marked.now }
    ensures bits { (i : ℕ) → i < 32736 → is_used block.new i ≡ (nat_le (length marked.now) (n * 32736 + i) || (slice_index_or marked.now (n * 32736 + i) false || slice_index_or placed.now (n * 32736 + i) false)) }
    ensures front { take 4 block.new ≡ replicate 4 0 }
{
    blank(block);
    for j in 0..HALVES {
        put32(
            block,
            4 + 4 * j as usize,
            kept_half(marked, placed, n * HALVES + j),
        );
    }
}

/// Makes the bits of blocks 0 that are freed by an atom or by one that was sealed before it, but for the fixed ones.
fn free_claims(
    block: &mut [u8],
    first: u64,
    blocks: u64,
    claims: &[Claim],
    sealed: &[AtomNo],
    atom: AtomNo,
)
    requires whole { length block.old ≡ 4096 }
    ensures bits { (i : ℕ) → i < 32736 → is_used block.new i ≡ (is_used block.old i && (is_fixed blocks (first + i) || not (is_claimed (freed_by (up_to sealed.now atom) claims.now) (first + i)))) }
    ensures front { take 4 block.new ≡ take 4 block.old }
{
    for claim in claims {
        free_bit(
            block,
            first,
            claim.block.0,
            is_freed(claim, blocks, sealed, atom),
        );
    }
}

/// Writes bitmap `n` of a volume with these marks and these deferred blocks, as the commit of a sealed atom leaves it.
pub fn write_bitmap(
    block: &mut [u8],
    n: u64,
    marked: &Bits,
    placed: &Bits,
    deferred: &[Claim],
    sealed: &[AtomNo],
    atom: AtomNo,
)
    requires whole { length block.old ≡ 4096 }
    requires few { n < 64 }
    requires size { length placed.now ≡ length marked.now }
    requires within { AreWithin (length marked.now) deferred.now }
    requires fixed { (b : ℕ) → b < length marked.now → is_fixed (length marked.now) b ≡ true → slice_index_or marked.now b false ≡ true }
    ensures bits { (i : ℕ) → i < 32736 → is_used block.new i ≡ (nat_le (length marked.now) (n * 32736 + i) || is_marked_after (length marked.now) marked.now placed.now (freed_by (up_to sealed.now atom) deferred.now) (n * 32736 + i)) }
    ensures front { take 4 block.new ≡ replicate 4 0 }
{
    write_marks(block, n, marked, placed);
    free_claims(block, n * BITMAP_BITS, marked.len(), deferred, sealed, atom);
}
