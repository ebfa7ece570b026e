//! Laws of a fresh volume, and of the smallest ones (docs/volume.md, "A fresh volume" and "Small images").

ghost use Rattle.std.specs.Prelude.{◌≡◌, ◌≢◌, ℕ, ◌<◌, ◌≤◌, List, None, false, true, length};
ghost use Rattle.r4_base.specs.Bitmap.{is_fixed, is_marked};
ghost use Rattle.r4_base.specs.Fresh.{IsFreshImage, fresh_super};
ghost use Rattle.r4_base.specs.Image.{Image, block_at};
ghost use Rattle.r4_base.specs.Node.{level_of, node_fault};
ghost use Rattle.r4_base.specs.Small.{HasOneObject, HasOnePointer};
ghost use Rattle.r4_base.specs.Value.{Content};
ghost use Rattle.r4_base.specs.Volume.{HasContent, HasVolume, IsLost, empty_volume, is_directory};
ghost use Rattle.r4_base.specs.declared.items.Attr.{Attr};
ghost use Rattle.r4_base.specs.declared.superblock.Super40.{Super40};

/// A fresh image has the empty volume, with the superblock of one and no lost block.
pub fn fresh_law()
    ensures { (n : ℕ) (label : List ℕ) (image : Image) → length label ≡ 16 → 64 ≤ n → n ≤ 1048576 → IsFreshImage n label image
        → (v : HasVolume n image empty_volume) × (v.content.super ≡ fresh_super n) × ((b : ℕ) → IsLost v.content b → ⊥) }
{}

/// An image whose root has one pointer has no content where that names the root itself, a block past the block count, a
/// fixed one or one that is not marked, or a block that is no node (as one with two equal keys) or no leaf.
pub fn pointer_law()
    ensures itself { (n to : ℕ) (image : Image) (m : Content) (super : Super40) → HasOnePointer n image super to → HasContent n image m → to ≢ 22 }
    ensures past { (n to : ℕ) (image : Image) (m : Content) (super : Super40) → HasOnePointer n image super to → HasContent n image m → to < super.block_count }
    ensures fixed { (n to : ℕ) (image : Image) (m : Content) (super : Super40) → HasOnePointer n image super to → HasContent n image m → is_fixed super.block_count to ≡ false }
    ensures unmarked { (n to : ℕ) (image : Image) (m : Content) (super : Super40) → HasOnePointer n image super to → HasContent n image m → is_marked image to ≡ true }
    ensures refused { (n to : ℕ) (image : Image) (m : Content) (super : Super40) → HasOnePointer n image super to → HasContent n image m → node_fault (block_at image to) ≡ None }
    ensures leaf { (n to : ℕ) (image : Image) (m : Content) (super : Super40) → HasOnePointer n image super to → HasContent n image m → level_of (block_at image to) ≡ 1 }
{}

/// Nor has one whose leaf has the root's stat data alone where these are no directory's, count links or entries that are
/// not there, or bytes other than the size, or where the superblock counts other objects than that one.
pub fn object_law()
    ensures directory { (n to : ℕ) (image : Image) (m : Content) (super : Super40) (a : Attr) → HasOneObject n image super to a → HasContent n image m → is_directory a ≡ true }
    ensures links { (n to : ℕ) (image : Image) (m : Content) (super : Super40) (a : Attr) → HasOneObject n image super to a → HasContent n image m → a.nlink ≡ 2 }
    ensures entries { (n to : ℕ) (image : Image) (m : Content) (super : Super40) (a : Attr) → HasOneObject n image super to a → HasContent n image m → a.size ≡ 0 }
    ensures bytes { (n to : ℕ) (image : Image) (m : Content) (super : Super40) (a : Attr) → HasOneObject n image super to a → HasContent n image m → a.bytes ≡ a.size }
    ensures files { (n to : ℕ) (image : Image) (m : Content) (super : Super40) (a : Attr) → HasOneObject n image super to a → HasContent n image m → super.file_count ≡ 1 }
{}
