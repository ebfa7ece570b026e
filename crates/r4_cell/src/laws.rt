//! Laws of cells. Each is the contract of a function that does nothing.

ghost use Rattle.std.specs.Prelude.{◌≡◌, ℕ, ◌+◌, ◌^◌, ◌<◌, ◌≤◌, List, All, Bool, None, Some, true, false, length, slice_get};
ghost use Rattle.r4_base.specs.Cell.{IsCellOf, cell_fault, cell_of};
ghost use Rattle.r4_base.specs.Image.{Image, IsImage, block_at};
ghost use Rattle.r4_base.specs.Key.{least, rank, top};
ghost use Rattle.r4_base.specs.Node.{Item, items_of};
ghost use Rattle.r4_base.specs.Small.{HasOnePointer};
ghost use Rattle.r4_base.specs.Tree.{IsNode, Node};
ghost use Rattle.r4_base.specs.Value.{Content, Value};
ghost use Rattle.r4_base.specs.Volume.{HasContent};
ghost use Rattle.r4_base.specs.declared.superblock.Super40.{Super40};
ghost use Rattle.r4_cell.specs.Patch.{by_name};
ghost use Rattle.r4_cell.specs.OnDisk.{AreBlocks};
ghost use Rattle.r4_cell.specs.Seen.{CellSeen, IsReadFrom};

/// A block that may stand as a cell at its level and for its range is a node by itself, in memory too; a data block is one
/// whatever its bytes are. Cells that were read from an image are, by their names, the cells that its content speaks of
/// (docs/volume.md, "Cells").
pub fn cell_law()
    ensures data_block { (lo : ℕ) (b : List ℕ) → length b ≡ 4096 → least ≤ lo → lo + 4096 ≤ top → IsNode (cell_of 0 lo (lo + 4096) b) }
    ensures node { (in_memory : Bool) (blocks level lo hi : ℕ) (b : List ℕ) → length b ≡ 4096 → 1 ≤ level → least ≤ lo → lo < hi → hi ≤ top
        → cell_fault in_memory blocks level lo hi b ≡ None → IsNode (cell_of level lo hi b) }
    ensures content { (blocks : ℕ) (image : Image) (cells : List CellSeen) → All (IsReadFrom blocks image) cells → (i : ℕ) (c : Node Value) → by_name cells i ≡ Some c → IsCellOf blocks (block_at image i) c }
{}

/// An image whose root has one pointer has no content where the block that it names has two neighbouring items of one key
/// (docs/volume.md, "Small images").
pub fn equal_keys_law()
    ensures { (n to k : ℕ) (image : Image) (m : Content) (super : Super40) (x y : Item) → IsImage n image → HasOnePointer n image super to
        → slice_get (items_of (block_at image to)) k ≡ Some x → slice_get (items_of (block_at image to)) (k + 1) ≡ Some y → rank x.key ≡ rank y.key → HasContent n image m → ⊥ }
{}

/// A cell in memory is accepted on disk too, on a volume of so many blocks, where each node and each block that it names is
/// a block of that volume and not a fixed one (docs/volume.md, "Cells").
pub fn on_disk_law()
    ensures { (blocks level lo hi : ℕ) (b : List ℕ)
        → cell_fault true (2 ^ 64) level lo hi b ≡ None → AreBlocks blocks (cell_of level lo hi b).names
        → cell_fault false blocks level lo hi b ≡ None }
{}
