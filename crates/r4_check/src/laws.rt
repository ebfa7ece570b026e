//! Laws of the walk over a tree. Each is the contract of a function that does nothing.

ghost use Rattle.std.specs.Prelude.{◌≡◌, ◌≤◌, ℕ, [], ◌∷◌, Contains, Some, false, true};
ghost use Rattle.r4_base.specs.Bitmap.{is_marked};
ghost use Rattle.r4_base.specs.Cell.{IsCellOf};
ghost use Rattle.r4_base.specs.Image.{AreDifferent, Image, IsImage, block_at};
ghost use Rattle.r4_base.specs.Layout.{IsLawfulSuper};
ghost use Rattle.r4_base.specs.Tree.{IsNode, Name, Node};
ghost use Rattle.r4_base.specs.Value.{Value};
ghost use Rattle.r4_base.specs.Volume.{IsPlace};
ghost use Rattle.r4_base.specs.declared.items.CellFault.{CellFault};
ghost use Rattle.r4_base.specs.declared.superblock.Super40.{Super40};
ghost use Rattle.r4_list.specs.Lists.{root_name_of};
ghost use Rattle.r4_check_objects.specs.Faults.{fault_at};
ghost use Rattle.r4_check.specs.Rows.{IsAccepted, IsFirstNamed, IsSmall};
ghost use Rattle.r4_check.specs.Walk.{HasCell, IsNamedIn, cell_at, look, nothing_met, refusal_at, walk_of};
ghost use Rattle.r4_check_objects.specs.declared.fault.What.TheVariants.{Cell, Twice, Unmarked};

/// What a walk finds in trees of one and two nodes: nothing; a root that names itself; a root that is refused; a
/// leaf whose bit is 0, of which the stat data are counted (docs/check.md).
pub fn small_trees()
    ensures sound { (blocks : ℕ) (image : Image) (root leaf : Name) → IsSmall blocks image root leaf
        → IsAccepted blocks image leaf → is_marked image leaf.id ≡ true
        → (look 2 blocks image nothing_met root).faults ≡ [] }
    ensures itself { (blocks : ℕ) (image : Image) (root child : Name)
        → IsFirstNamed blocks image root child
        → child.id ≡ root.id
        → (look 2 blocks image nothing_met root).faults ≡ fault_at root.id Twice ∷ [] }
    ensures refused { (levels blocks : ℕ) (image : Image) (root : Name) (f : CellFault)
        → is_marked image root.id ≡ true
        → refusal_at blocks image root ≡ Some f
        → (look levels blocks image nothing_met root).faults ≡ fault_at root.id (Cell f) ∷ [] }
    ensures unmarked { (blocks : ℕ) (image : Image) (root leaf : Name)
        → IsSmall blocks image root leaf
        → IsAccepted blocks image leaf → is_marked image leaf.id ≡ false
        → (look 2 blocks image nothing_met root).faults ≡ fault_at leaf.id Unmarked ∷ [] }
{}

/// Each cell that a walk has is what its block says at the level and for the keys where it is named. It stands by
/// itself as a cell of a tree does, not above the root's level, and is the root's or one that a cell of the walk
/// names. No block is reached twice, and where there is no fault each cell's block is one that a volume may use and
/// does (docs/check.md).
pub fn cells_are_read()
    ensures cells { (s : Super40) (image : Image) (i : ℕ) (c : Node Value)
        → Contains (walk_of s image).cells (i, c)
        → IsCellOf s.block_count (block_at image i) c }
    ensures nodes { (n : ℕ) (s : Super40) (image : Image) (i : ℕ) (c : Node Value) → IsImage n image
        → IsLawfulSuper n s → Contains (walk_of s image).cells (i, c) → IsNode c }
    ensures levels { (s : Super40) (image : Image) (i : ℕ) (c : Node Value)
        → Contains (walk_of s image).cells (i, c)
        → c.level ≤ s.tree_height }
    ensures named { (s : Super40) (image : Image) (i : ℕ) (c : Node Value)
        → Contains (walk_of s image).cells (i, c)
        → (n : Name) × IsNamedIn (root_name_of s) (walk_of s image) n × (i ≡ n.id)
        × (c ≡ cell_at image n) }
    ensures once { (s : Super40) (image : Image) → AreDifferent (walk_of s image).reached }
    ensures places { (n : ℕ) (s : Super40) (image : Image) (i : ℕ) (c : Node Value)
        → IsLawfulSuper n s
        → (walk_of s image).faults ≡ [] → Contains (walk_of s image).cells (i, c)
        → IsPlace s.block_count image i }
{}

/// Where a walk is whole, the root is one of its cells, and so is each node and each data block that one of its
/// cells names, at the level and for the keys of the name. A walk without a fault is whole (docs/check.md).
pub fn whole_walks_are_closed()
    ensures sound { (s : Super40) (image : Image) → (walk_of s image).faults ≡ []
        → (walk_of s image).whole ≡ true }
    ensures root { (s : Super40) (image : Image) → (walk_of s image).whole ≡ true
        → HasCell image (walk_of s image) (root_name_of s) }
    ensures named { (s : Super40) (image : Image) (i : ℕ) (c : Node Value) (n : Name)
        → (walk_of s image).whole ≡ true
        → Contains (walk_of s image).cells (i, c) → Contains c.names n
        → HasCell image (walk_of s image) n }
{}
