//! A bitmap block that is written (docs/layout.md, "Bitmaps").

ghost use Rattle.std.specs.Prelude.{◌≡◌, ◌<◌, length, take, true, false, slice_set};

/// A bitmap block that is written where it stands: 32736 bits, of which 1 means used (docs/layout.md, "Bitmaps"). An
/// edit changes one bit, and nothing else.
#[derive(Drop)]
pub struct BitmapMut<'a> {
    block: &'a mut [u8],
    ghost whole: { length block.now ≡ 4096 },
}

impl<'a> BitmapMut<'a> {
    ghost use Rattle.r4_bitmap.specs.Seen.{mut_bits, mut_name, mut_bytes};

    /// Takes a block of 4096 bytes as a bitmap: every such block is one (docs/layout.md, "Bitmaps").
    pub fn new(block: &'a mut [u8]) -> BitmapMut<'a>
        requires { length block.old ≡ 4096 }
        ensures same_reference { mut_name result ≡ block.entry.ghost_name }
        ensures same { mut_bytes result ≡ block.old }
    {
        BitmapMut { block }
    }

    /// Makes bit `i`, below 32736, 1: used (docs/layout.md, "Bitmaps").
    pub fn set(&mut self, i: u64)
        requires { i < 32736 }
        ensures same_reference { mut_name self.new ≡ mut_name self.old }
        ensures bits { mut_bits self.new ≡ slice_set (mut_bits self.old) i true }
        ensures front { take 4 (mut_bytes self.new) ≡ take 4 (mut_bytes self.old) }
    {
        self.block[4 + (i / 8) as usize] |= 1 << (i % 8);
    }

    /// Makes bit `i`, below 32736, 0: free (docs/layout.md, "Bitmaps").
    pub fn clear(&mut self, i: u64)
        requires { i < 32736 }
        ensures same_reference { mut_name self.new ≡ mut_name self.old }
        ensures bits { mut_bits self.new ≡ slice_set (mut_bits self.old) i false }
        ensures front { take 4 (mut_bytes self.new) ≡ take 4 (mut_bytes self.old) }
    {
        self.block[4 + (i / 8) as usize] &= !(1 << (i % 8));
    }
}
