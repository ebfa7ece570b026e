//! Laws of contents and volumes (docs/volume.md).

ghost use Rattle.std.specs.Prelude.{◌≡◌, ◌↔◌, ℕ, ◌^◌, ◌<◌, ◌≤◌, Contains, Some, false};
ghost use Rattle.r4_base.specs.declared.items.Attr.{Attr};
ghost use Rattle.r4_base.specs.declared.items.Target.{Target};
ghost use Rattle.r4_base.specs.Image.{AgreesOutside, Image, IsImage, block_at, put_pairs};
ghost use Rattle.r4_base.specs.Key.{least, top};
ghost use Rattle.r4_base.specs.Chain.{Settles, chain_pairs, committed, flushed, is_footer};
ghost use Rattle.r4_base.specs.Tree.{Node, InNode};
ghost use Rattle.r4_base.specs.Value.{Byte, Content, Value, at_key};
ghost use Rattle.r4_base.specs.Volume.{HasContent, HasStat, HasVolume, IsLost, IsMadeOf, Needs, byte_rank, is_directory};

/// An image has one content at most. Its keys are those of units in their cells' ranges; and of a file's bytes just those
/// below its size are in it. An image that agrees with it on the blocks of which its content is made has the same content,
/// superblock and cells.
pub fn content_law()
    ensures one { (n : ℕ) (image : Image) (m other : Content) → HasContent n image m → HasContent n image other → m ≡ other }
    ensures keys { (n : ℕ) (image : Image) (m : Content) (c : HasContent n image m) (k : ℕ) (v : Value) → at_key m k ≡ Some v
        → (i : ℕ) × (d : Node Value) × (c.store i ≡ Some d) × InNode d k × Contains d.units (k, v) × (least ≤ k) × (k < top) }
    ensures within { (n : ℕ) (image : Image) (m : Content) → HasContent n image m → (o : Target) (a : Attr) (offset x : ℕ) → HasStat m o a → offset < 2 ^ 64
        → at_key m (byte_rank o offset) ≡ Some (Byte x) → offset < a.size }
    ensures whole { (n : ℕ) (image : Image) (m : Content) → HasContent n image m → (o : Target) (a : Attr) (offset : ℕ) → HasStat m o a → is_directory a ≡ false
        → offset < a.size → (x : ℕ) × (at_key m (byte_rank o offset) ≡ Some (Byte x)) }
    ensures made { (n : ℕ) (image other : Image) (m : Content) (c : HasContent n image m)
        → ((b : ℕ) → IsMadeOf c b → block_at other b ≡ block_at image b)
        → (d : HasContent n other m) × (d.super ≡ c.super) × (d.store ≡ c.store) }
{}

/// An image has one volume at most, and its settled image settles to itself. A block that neither the tree nor the log
/// needs may hold anything, blocks 19 and 20 aside. What was replayed, its settled image but for the footer, with header and
/// footer equal, has the same volume. Which blocks are lost or needed is the image's own.
pub fn volume_law()
    ensures one { (n : ℕ) (image : Image) (m other : Content) → HasVolume n image m → HasVolume n image other → m ≡ other }
    ensures spare { (n : ℕ) (image other : Image) (m : Content) (v : HasVolume n image m) → IsImage n other → block_at other 19 ≡ block_at image 19 → block_at other 20 ≡ block_at image 20
        → ((b : ℕ) → Needs v b → block_at other b ≡ block_at image b) → HasVolume n other m }
    ensures settled { (n : ℕ) (image settled : Image) → Settles n image settled → Settles n settled settled }
    ensures replayed { (n : ℕ) (image other : Image) (m : Content) (v : HasVolume n image m)
        → IsImage n other → committed other ≡ flushed other
        → AgreesOutside is_footer (put_pairs (chain_pairs v.chain) image) other → HasVolume n other m }
    ensures lost { (n : ℕ) (image : Image) (m o : Content) (c : HasContent n image m)
        → (d : HasContent n image o) (b : ℕ) → IsLost c b → IsLost d b }
    ensures needed { (n : ℕ) (image : Image) (m o : Content) (v : HasVolume n image m)
        → (w : HasVolume n image o) (b : ℕ) → Needs v b → Needs w b }
{}
