//! Laws of changes below a twig. Each is the contract of a function that does nothing.

ghost use Rattle.std.specs.Prelude.{◌≡◌, ◌≤◌, ◌↔◌, ◌++◌, ◌∷◌, [], ℕ, Contains, List, None, Option};
ghost use Rattle.r4_base.specs.Tree.{Root, Store};
ghost use Rattle.r4_base.specs.Value.{Value};
ghost use Rattle.r4_patch.specs.r4_cell.Patch.{HaveNames, IsChange, Meets, patch_of};
ghost use Rattle.r4_patch.specs.r4_cell.Seen.{CellSeen};
ghost use Rattle.r4_patch.specs.r4_cell.declared.change.Root.{Root as RootPair};
ghost use Rattle.r4_patch.specs.Part.{MeetsPart};
ghost use Rattle.r4_patch.specs.SecondRoot.{small_root};
ghost use Rattle.r4_path.specs.Sharing.{IsSound};
ghost use Rattle.r4_path.specs.Steps.{Step, news, olds, root_pair};
ghost use Rattle.r4_path.specs.ExtentPut.{back_below, back_step, back_tree, extent_below, extent_step, extent_tree};
ghost use Rattle.r4_path.specs.Twigs.{AreCounted, Below, CoversBelow, HaveNumbers, IsReordered, IsTwigChange};

/// A change of a twig, of what stands below it and of the nodes above it is a patch, and each part of a tree that has the
/// cells meets it. Below go and come leaves and data blocks alone; the leaves that come and the extents of the new twigs
/// cover the keys that the leaves that go and the old twig's extents covered (docs/volume.md, "Edits").
pub fn twig_changes_are_patches()
    ensures change { (t : Store Value) (r : Root) (b : Below) (s : Step) (more : List Step) (over : Option CellSeen)
        → IsTwigChange t r b s more over
        → IsChange (b.old ++ olds (s ∷ more)) (b.new ++ news (s ∷ more) over) (root_pair over) }
    ensures meets { (t : Store Value) (r : Root) (b : Below) (s : Step) (more : List Step) (over : Option CellSeen)
        → IsTwigChange t r b s more over
        → MeetsPart (patch_of (b.old ++ olds (s ∷ more)) (b.new ++ news (s ∷ more) over) (root_pair over)) t r }
    ensures levels { (t : Store Value) (r : Root) (b : Below) (s : Step) (more : List Step) (over : Option CellSeen)
        → IsTwigChange t r b s more over → (c : CellSeen) → Contains (b.old ++ b.new) c → c.level ≤ 1 }
    ensures covers { (t : Store Value) (r : Root) (b : Below) (s : Step) (more : List Step) (over : Option CellSeen)
        → IsTwigChange t r b s more over → (k : ℕ) → CoversBelow (s.old ∷ []) b.old k ↔ CoversBelow s.new b.new k }
{}

/// Numbers that count up from a free one serve such a change.
pub fn counted_numbers_serve()
    ensures { (t : Store Value) (b : Below) (from to : ℕ) (mine taken : List ℕ)
        → HaveNames b.old → HaveNames b.new → AreCounted t b from to mine taken → HaveNumbers t b taken }
{}

/// The cells of a change may stand in any order: with the same old and the same new cells in another order, no two of one
/// name, it is the same patch, and so it is a change too and is met where that one is.
pub fn order_says_nothing()
    ensures patch { (old new others come : List CellSeen) (root : Option RootPair)
        → IsChange old new root → IsReordered old others → IsReordered new come
        → patch_of old new root ≡ patch_of others come root }
    ensures change { (old new others come : List CellSeen) (root : Option RootPair)
        → IsChange old new root → IsReordered old others → IsReordered new come → IsChange others come root }
    ensures meets { (old new others come : List CellSeen) (root : Option RootPair)
        → IsChange old new root → IsReordered old others → IsReordered new come
        → (t : Store Value) (r : Root) → Meets (patch_of old new root) t r → Meets (patch_of others come root) t r }
    ensures part { (old new others come : List CellSeen) (root : Option RootPair)
        → IsChange old new root → IsReordered old others → IsReordered new come
        → (t : Store Value) (r : Root) → MeetsPart (patch_of old new root) t r → MeetsPart (patch_of others come root) t r }
{}

/// There are such changes: in a fresh volume's tree an extent of two blocks is put behind the leaf's one item, and is taken
/// away again. The leaf comes with less range, and with all keys again. Each cell may stand at its level and for its range.
pub fn an_extent_behind_a_leaf()
    ensures change { IsTwigChange extent_tree small_root extent_below extent_step [] None }
    ensures back { IsTwigChange back_tree small_root back_below back_step [] None }
    ensures sound { (c : CellSeen)
        → Contains (extent_below.old ++ (extent_step.old ∷ (extent_below.new ++ extent_step.new))) c → IsSound c }
{}
