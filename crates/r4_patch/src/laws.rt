//! Laws of patches. Each is the contract of a function that does nothing.

ghost use Rattle.std.specs.Prelude.{◌≡◌, ◌≤◌, ◌⊎◌, ◌↔◌, ℕ, List, None, Some};
ghost use Rattle.r4_base.specs.Tree.{Node, Store, Root, IsTree, UnitAt};
ghost use Rattle.r4_base.specs.Value.{Value};
ghost use Rattle.r4_cell.specs.Patch.{Patch, place, root_after, IsPatch, Meets, UnitKept, Apart, place_all, root_all, join, ArePatches, IsChange};
ghost use Rattle.r4_cell.specs.declared.change.Change.{Change};
ghost use Rattle.r4_patch.specs.Joining.{patch_of_change, AreApart, AreOfOneTree, IsJoined};
ghost use Rattle.r4_patch.specs.SecondRoot.{second_root, small_root, small_tree};

/// A tree with a patch in place is again a tree. Its units are those of the new cells and those of the untouched ones.
pub fn placing_keeps_a_tree()
    ensures tree { (p : Patch Value) (t : Store Value) (root : Root) → IsPatch p → IsTree t root → Meets p t root → IsTree (place p t) (root_after p root) }
    ensures units { (p : Patch Value) (t : Store Value) (root : Root) (k : ℕ) (v : Value) → Meets p t root → UnitAt (place p t) k v ↔ (UnitAt p.new k v ⊎ UnitKept p t k v) }
{}

/// Two patches with no node in common are put in place in either order, and after the first the second can still be put
/// in place.
pub fn placing_commutes()
    ensures cells { (p q : Patch Value) (t : Store Value) → Apart p q → place p (place q t) ≡ place q (place p t) }
    ensures root { (p q : Patch Value) (t : Store Value) (root : Root) → Meets p t root → Meets q t root → Apart p q → root_after p (root_after q root) ≡ root_after q (root_after p root) }
    ensures second { (p q : Patch Value) (t : Store Value) (root : Root) → Meets p t root → Meets q t root → Apart p q → Meets q (place p t) (root_after p root) }
{}

/// A tree with all patches of a list in place, of which no two have a node in common, is again a tree.
pub fn placing_all_keeps_a_tree()
    ensures tree { (ps : List (Patch Value)) (t : Store Value) (root : Root) → ArePatches ps t root → IsTree t root → IsTree (place_all ps t) (root_all ps root) }
{}

/// The points of a patch, with the old cells in the tree and the new names free, do not suffice: a patch may put a second
/// root beside the first. So where the root changes, the tree's root has to be an old cell.
pub fn root_has_to_be_old()
    ensures patch { (twig leaf : List ℕ) → IsPatch (second_root twig leaf) }
    ensures old { (twig leaf : List ℕ) (i : ℕ) (c : Node Value) → (second_root twig leaf).old i ≡ Some c → small_tree twig leaf i ≡ Some c }
    ensures free { (twig leaf : List ℕ) (i : ℕ) (c : Node Value) → (second_root twig leaf).new i ≡ Some c → (second_root twig leaf).old i ≡ None → small_tree twig leaf i ≡ None }
    ensures tree { (twig leaf : List ℕ) → IsTree (small_tree twig leaf) small_root }
    ensures broken { (twig leaf : List ℕ) (root : Root) → IsTree (place (second_root twig leaf) (small_tree twig leaf)) root → ⊥ }
{}

/// What takes a tree to a tree that is not lower is a patch.
pub fn trees_differ_by_patches()
    ensures patch { (p : Patch Value) (t : Store Value) (root : Root) → IsTree t root → Meets p t root → IsTree (place p t) (root_after p root) → root.height ≤ (root_after p root).height → IsPatch p }
{}

/// A patch over another is one patch with both effects.
pub fn patches_join()
    ensures patch { (p q : Patch Value) (t : Store Value) (root : Root) → IsTree t root → Meets p t root → Meets q (place p t) (root_after p root) → IsPatch p → IsPatch q → IsPatch (join p q) }
    ensures meets { (p q : Patch Value) (t : Store Value) (root : Root) → IsTree t root → Meets p t root → Meets q (place p t) (root_after p root) → Meets (join p q) t root }
    ensures cells { (p q : Patch Value) (t : Store Value) (root : Root) → Meets p t root → place (join p q) t ≡ place q (place p t) }
    ensures root { (p q : Patch Value) (root : Root) → root_after (join p q) root ≡ root_after q (root_after p root) }
{}

/// Two changes of one tree as one change, where no node is an old cell of both or a new cell of both: it is a change of the
/// tree, and it does what the first and then the second do.
pub fn joined_change()
    ensures change { (one two c : Change) (t : Store Value) (root : Root) → AreOfOneTree one two t root → IsJoined one two c → AreApart one.old two.old → IsChange c.old c.new c.root }
    ensures meets { (one two c : Change) (t : Store Value) (root : Root) → AreOfOneTree one two t root → IsJoined one two c → AreApart one.old two.old → Meets (patch_of_change c) t root }
    ensures cells { (one two c : Change) (t : Store Value) (root : Root) → AreOfOneTree one two t root → IsJoined one two c → AreApart one.old two.old → place (patch_of_change c) t ≡ place (patch_of_change two) (place (patch_of_change one) t) }
    ensures root { (one two c : Change) (t : Store Value) (root : Root) → AreOfOneTree one two t root → IsJoined one two c → AreApart one.old two.old → root_after (patch_of_change c) root ≡ root_after (patch_of_change two) (root_after (patch_of_change one) root) }
{}
