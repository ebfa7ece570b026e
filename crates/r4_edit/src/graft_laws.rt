//! Laws of twigs that are packed anew. Each is the contract of a function that does nothing.

ghost use Rattle.std.specs.Prelude.{◌++◌, ◌^◌, ◌<◌, ◌≤◌, ◌⊎◌, [], ℕ, List, Contains};
ghost use Rattle.r4_base.specs.Tree.{IsData, IsNode, Name, Root, Span, Store};
ghost use Rattle.r4_base.specs.Value.{Value};
ghost use Rattle.r4_path.specs.r4_branch.declared.piece.TwigPiece.{TwigPiece};
ghost use Rattle.r4_path.specs.r4_cell.Patch.{IsChange, patch_of};
ghost use Rattle.r4_path.specs.r4_cell.Seen.{CellSeen, node_of};
ghost use Rattle.r4_path.specs.r4_cell.declared.change.Change.{Change};
ghost use Rattle.r4_path.specs.r4_cell.declared.change.Fresh.{Fresh};
ghost use Rattle.r4_path.specs.r4_patch.Part.{MeetsPart};
ghost use Rattle.r4_path.specs.r4_patch.SecondRoot.{small_root};
ghost use Rattle.r4_path.specs.Grafts.{AreCountedBelow, Grafts, HasBelow, HaveGraftNumbers, IsGraft, IsGraftBelow, IsGraftOf};
ghost use Rattle.r4_path.specs.Grafts.{IsTwigGraft};
ghost use Rattle.r4_edit.specs.ExtentGraft.{all_fresh, put_below, put_blocks, put_pieces};
ghost use Rattle.r4_edit.specs.Extents.{AreAmongExtents};
ghost use Rattle.r4_path.specs.ExtentPut.{extent_tree, pointer_block, twig_cell};
ghost use Rattle.r4_path.specs.Twigs.{Below};

/// A twig that is packed anew, with what goes and comes below it and the nodes above it, is a change of the twig. With the
/// data blocks behind all other new cells it is a patch, and each part of a tree that has the cells meets it
/// (docs/volume.md, "Edits").
pub fn grafts_are_patches()
    ensures twig { (t : Store Value) (r : Root) (twig : CellSeen) (ups : List CellSeen) (qs : List TwigPiece) (b : Below)
        (blocks : List CellSeen) (before after : Fresh) (d : Change)
        → IsGraft t r twig ups qs b blocks before after d → IsTwigGraft t r b blocks d }
    ensures change { (t : Store Value) (r : Root) (twig : CellSeen) (ups : List CellSeen) (qs : List TwigPiece) (b : Below)
        (blocks : List CellSeen) (before after : Fresh) (d c : Change)
        → IsGraft t r twig ups qs b blocks before after d → HasBelow b.old b.new d c
        → IsChange c.old (c.new ++ blocks) c.root }
    ensures meets { (t : Store Value) (r : Root) (twig : CellSeen) (ups : List CellSeen) (qs : List TwigPiece) (b : Below)
        (blocks : List CellSeen) (before after : Fresh) (d c : Change)
        → IsGraft t r twig ups qs b blocks before after d → HasBelow b.old b.new d c
        → MeetsPart (patch_of c.old (c.new ++ blocks) c.root) t r }
{}

/// Numbers that count up from a free one serve where a twig is packed anew.
pub fn numbers_serve_below()
    ensures { (t : Store Value) (twig : CellSeen) (ups : List CellSeen) (qs : List TwigPiece) (b : Below)
        (data_names : List Name) (first : ℕ) (before after : Fresh) (d : Change)
        → Grafts twig ups qs before after d → IsGraftOf t twig qs b data_names
        → AreCountedBelow t b data_names first before → HaveGraftNumbers t b data_names before.next after.next }
{}

/// There are such grafts: in a fresh volume's tree an extent of two blocks is put behind the leaf's one item. The leaf comes
/// with less range; the twig's pieces are the pointer to it and the run.
pub fn an_extent_by_pieces()
    ensures { IsGraftBelow extent_tree small_root put_pieces put_below put_blocks (2 ^ 63) all_fresh (twig_cell pointer_block) [] }
{}

/// Keys that lie in the range of one extent are among extents, where no block of the twig and none of its units has one of
/// them: no leaf has one then. So whoever looked for the path to a key, and for what stands there, may put an item in.
pub fn keys_of_an_extent_are_among_extents()
    ensures { (twig : CellSeen) (s : Span) (from to : ℕ) → IsNode (node_of twig) → Contains (node_of twig).spans s
        → s.lo ≤ from → from < to → to ≤ s.hi
        → ((n : Name) → Contains (node_of twig).names n → IsData n → (n.hi ≤ from) ⊎ (to ≤ n.lo))
        → ((k : ℕ) (v : Value) → Contains (node_of twig).units (k, v) → (k < from) ⊎ (to ≤ k))
        → AreAmongExtents twig from to }
{}
