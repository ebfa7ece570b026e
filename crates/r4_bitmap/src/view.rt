//! A bitmap block that is read (docs/layout.md, "Bitmaps").

ghost use Rattle.std.specs.Prelude.{◌≡◌, ◌<◌, ◌+◌, ◌*◌, ◌≤◌, length, slice_get, Some, MatchOption};
ghost use Rattle.r4_base.specs.Bitmap.{is_used, IsFirstFree, IsFullFrom};
ghost use Rattle.r4_bitmap.specs.Words.{IsSeenFrom};

use r4_base::{BITMAP_BITS, get64};

/// A bitmap block that is read where it stands: 32736 bits, of which 1 means used (docs/layout.md, "Bitmaps").
#[derive(Drop)]
pub struct BitmapView<'a> {
    block: &'a [u8],
    ghost whole: { length block.now ≡ 4096 },
}

impl<'a> BitmapView<'a> {
    ghost use Rattle.r4_bitmap.specs.Seen.{view_bits, view_bytes};

    /// Reads a block of 4096 bytes as a bitmap: every such block is one (docs/layout.md, "Bitmaps").
    pub fn new(block: &'a [u8]) -> BitmapView<'a>
        requires { length block.now ≡ 4096 }
        ensures { view_bytes result ≡ block.now }
    {
        BitmapView { block }
    }

    /// Whether bit `i`, below 32736, is 1: bit `i % 8` of byte `4 + i / 8`, the lowest first (docs/layout.md, "Bitmaps").
    pub fn get(&self, i: u64) -> bool
        requires { i < 32736 }
        ensures { slice_get (view_bits self.now) i ≡ Some result }
    {
        bit(self.block, i)
    }

    /// The first 0 from bit `from` on, and `None` exactly where there is none, as for a `from` of 32736 or more. It looks
    /// at whole words of 64 bits (docs/layout.md, "Bitmaps").
    pub fn first_free(&self, from: u64) -> Option<u64>
        ensures { MatchOption result (IsFullFrom (view_bytes self.now) from) (λ j. IsFirstFree (view_bytes self.now) from j) }
    {
        if from >= BITMAP_BITS {
            return None;
        }
        first_zero(self.block, from)
    }
}

#[tactic(auto, unfolding(r4_base::specs::Bitmap::is_used))]
fn bit(b: &[u8], i: u64) -> bool
    requires whole { length b.now ≡ 4096 }
    requires within { i < 32736 }
    ensures { result ≡ is_used b.now i }
{
    (b[4 + (i / 8) as usize] >> (i % 8)) & 1 == 1
}

/// The first 0 from bit `from` on. Bit `i` is bit `i + 32` of the block's 512 words.
fn first_zero(b: &[u8], from: u64) -> Option<u64>
    requires whole { length b.now ≡ 4096 }
    requires within { from < 32736 }
    ensures { MatchOption result (IsFullFrom b.now from) (λ j. IsFirstFree b.now from j) }
{
    for w in (from + 32) / 64..512 {
        let word = word_from(b, w, from);
        if word != u64::MAX {
            return Some(64 * w + u64::from(word.trailing_ones()) - 32);
        }
    }
    None
}

/// Word `w` of a block, in which the bits before bit `from` of the bitmap count as 1.
fn word_from(b: &[u8], w: u64, from: u64) -> u64
    requires whole { length b.now ≡ 4096 }
    requires within { w < 512 }
    requires reached { from + 32 < 64 * w + 64 }
    ensures { IsSeenFrom b.now w from result }
{
    let word = get64(b, 8 * w as usize);
    let before = (from + 32).saturating_sub(64 * w);
    word | ((1 << before) - 1)
}
