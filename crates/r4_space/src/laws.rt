//! Laws of the definitions. Each is the contract of a function that does nothing.

ghost use Rattle.std.specs.Prelude.{◌≡◌, ℕ, ◌+◌, ◌<◌, List, ◌∷◌, false, slice_index_or, ◌||◌, ◌==◌};
ghost use Rattle.r4_base.specs.Image.{Image};
ghost use Rattle.r4_base.specs.Bitmap.{bitmap_fault};
ghost use Rattle.r4_base.specs.declared.things.AtomNo.{AtomNo};
ghost use Rattle.r4_base.specs.declared.things.BlockNo.{BlockNo};
ghost use Rattle.r4_space.specs.Bitmaps.{AreBitmapsOf, bitmaps_fault};
ghost use Rattle.r4_space.specs.Lawful.{IsLawful};
ghost use Rattle.r4_space.specs.Space.{Space, is_marked_by, is_taken, settled, unused_count, with_deferred, with_held, with_placed};

/// The fault of bitmaps that are an image's is the image's (docs/layout.md, "Bitmaps").
pub fn bitmaps_law()
    ensures { (blocks free : ℕ) (image : Image) (bitmaps : List (List ℕ)) → AreBitmapsOf blocks image bitmaps → bitmaps_fault blocks free bitmaps ≡ bitmap_fault blocks free image }
{}

/// A block that is placed or held is one unused block fewer, and one that is deferred is used from then on.
pub fn used_law()
    ensures placed { (s : Space) (b : ℕ) → IsLawful s → b < s.block_count → is_taken s b ≡ false → unused_count (with_placed s b) + 1 ≡ unused_count s }
    ensures held { (s : Space) (atom : AtomNo) (b : BlockNo) → IsLawful s → b.0 < s.block_count → is_taken s b.0 ≡ false → unused_count (with_held s atom b) + 1 ≡ unused_count s }
    ensures deferred { (s : Space) (atom : AtomNo) (b : BlockNo) (k : ℕ) → k < s.block_count → is_taken (with_deferred s atom b) k ≡ (is_taken s k || k == b.0) }
{}

/// What the commit of the first sealed atom leaves marked is what is marked once that atom settles.
pub fn settled_law()
    ensures { (s : Space) (atom : AtomNo) (later : List AtomNo) (b : ℕ) → s.sealed ≡ atom ∷ later → b < s.block_count → slice_index_or (settled s atom).marked b false ≡ is_marked_by s atom b }
{}
