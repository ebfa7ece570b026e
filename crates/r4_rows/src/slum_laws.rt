//! Laws of a slum that is packed. Each is the contract of a function that does nothing.

ghost use Rattle.std.specs.Prelude.{◌≡◌, ◌<◌, ◌≤◌, ◌++◌, ◌∷◌, [], ℕ, false};
ghost use Rattle.std.specs.Prelude.{length, map, List, None};
ghost use Rattle.r4_base.specs.Cell.{units_in};
ghost use Rattle.r4_base.specs.Key.{rank};
ghost use Rattle.r4_base.specs.Node.{mkfs_id_of};
ghost use Rattle.r4_base.specs.Tree.{Root, Store};
ghost use Rattle.r4_base.specs.Value.{Value};
ghost use Rattle.r4_base.specs.declared.key.Key.{Key};
ghost use Rattle.r4_branch.specs.Pieces.{twig_bytes};
ghost use Rattle.r4_branch.specs.Twigs.{AreFewTwigs, PacksTwigs};
ghost use Rattle.r4_branch.specs.declared.piece.TwigPiece.{TwigPiece};
ghost use Rattle.r4_branch.specs.declared.twig.Twig.{Twig};
ghost use Rattle.r4_cell.specs.Patch.{IsChange};
ghost use Rattle.r4_cell.specs.Seen.{CellSeen};
ghost use Rattle.r4_leaf.specs.Leaves.{Packs};
ghost use Rattle.r4_leaf.specs.Remade.{CanPutAll, item_of, put_all};
ghost use Rattle.r4_leaf.specs.Units.{LeafUnit, leaf_bytes};
ghost use Rattle.r4_leaf.specs.declared.leaf.Leaf.{Leaf};
ghost use Rattle.r4_leaf.specs.declared.remaking.Given.{Given};
ghost use Rattle.r4_patch.specs.Effect.{HasEffect};
ghost use Rattle.r4_patch.specs.Joining.{ids_of};
ghost use Rattle.r4_patch.specs.Part.{MeetsPart};
ghost use Rattle.r4_path.specs.Grafts.{TwigsHaveMkfsId, twig_cells};
ghost use Rattle.r4_path.specs.LeafSteps.{leaf_cells};
ghost use Rattle.r4_path.specs.Levels.{units_of_cells};
ghost use Rattle.r4_path.specs.Steps.{Follow};
ghost use Rattle.r4_rows.specs.Behind.{EachMayBePut, UnitsRise};
ghost use Rattle.r4_rows.specs.Fewest.{EachFits, joined};
ghost use Rattle.r4_rows.specs.Packed.{ArePackedLeft, AreSlumPieces, AreTwigsLeft, renumbered};
ghost use Rattle.r4_rows.specs.Packed.{units_each};
ghost use Rattle.r4_rows.specs.Slum.{IsSlum, IsSqueezed, slum_patch, IsPackedSlum};

/// A slum, cells of one level beside each other below one cell, and cells in its place that have
/// its units in their order and name what it named, with the leftmost of its numbers: with the cell
/// above rewritten, that is a patch, which each part of a tree meets in which it is a slum, and
/// changes no unit (docs/volume.md, "Edits").
pub fn squeezing_is_a_patch()
    ensures change { (t : Store Value) (r : Root) (slum cells : List CellSeen)
        (parent over : CellSeen) → IsSlum t r slum parent → IsSqueezed slum parent cells over
        → IsChange (slum ++ parent ∷ []) (cells ++ over ∷ []) None }
    ensures meets { (t : Store Value) (r : Root) (slum cells : List CellSeen)
        (parent over : CellSeen) → IsSlum t r slum parent → IsSqueezed slum parent cells over
        → MeetsPart (slum_patch slum parent cells over) t r }
    ensures effect { (t : Store Value) (r : Root) (slum cells : List CellSeen)
        (parent over : CellSeen) → IsSlum t r slum parent → IsSqueezed slum parent cells over
        → HasEffect (slum_patch slum parent cells over) (λ k. false) (λ k. None) }
{}

/// Cells into which a slum is packed, with its units and names, and the cell above as a row over
/// them with its own units kept: these are a slum that is packed to the left (docs/volume.md,
/// "Edits").
pub fn packed_slums_are_squeezed()
    ensures { (t : Store Value) (slum cells : List CellSeen) (parent over : CellSeen)
        → IsPackedSlum t slum parent cells over → IsSqueezed slum parent cells over }
{}

/// Leaves and twigs that are filled from the left are no more than any others with the same in
/// them (docs/volume.md, "Edits").
pub fn filling_needs_fewest()
    ensures leaves { (lo hi : ℕ) (us : List LeafUnit) (leaves : List Leaf)
        (gs : List (List LeafUnit)) → Packs lo hi us leaves → us ≡ joined gs
        → EachFits leaf_bytes 4068 gs → 1 ≤ length gs → length leaves ≤ length gs }
    ensures twigs { (lo hi : ℕ) (ps : List TwigPiece) (twigs : List Twig)
        (gs : List (List TwigPiece)) → PacksTwigs lo hi ps twigs → ps ≡ joined gs
        → EachFits twig_bytes 4068 gs → 1 ≤ length gs → length twigs ≤ length gs }
{}

/// The leaves into which the units of a slum of leaves are packed, with the leftmost numbers: each
/// is dense, and full before the next one, and they are no more than before (docs/volume.md,
/// "Edits").
pub fn leaves_pack_to_the_left()
    ensures { (slum : List CellSeen) (from : ℕ) (hi : Key) (leaves : List Leaf)
        → Follow 1 from (rank hi) slum → from < rank hi
        → EachFits leaf_bytes 4068 (units_each slum)
        → Packs from (rank hi) (units_of_cells slum) leaves
        → ArePackedLeft slum from (rank hi)
        (renumbered (ids_of slum) (leaf_cells 0 0 hi leaves)) }
{}

/// The twigs into which the pieces of a slum of twigs are packed, with the leftmost numbers: they
/// are no more than before, and name what was named, with the units in their order
/// (docs/volume.md, "Edits").
pub fn twigs_pack_to_the_left()
    ensures { (slum : List CellSeen) (lo hi : Key) (ps : List TwigPiece)
        (each : List (List TwigPiece)) (twigs : List Twig) (b : List ℕ)
        → AreSlumPieces slum (rank lo) (rank hi) ps each → PacksTwigs (rank lo) (rank hi) ps twigs
        → AreFewTwigs ps twigs → TwigsHaveMkfsId (mkfs_id_of b) twigs
        → AreTwigsLeft slum (rank lo) (rank hi)
        (renumbered (ids_of slum) (twig_cells 0 0 hi twigs)) }
{}

/// Items whose units are above all that a leaf has, one item's above those before it, may be put in
/// one after another, and come behind these (docs/volume.md, "Leaves").
pub fn items_come_behind()
    ensures can { (gs : List Given) (us : List LeafUnit) → EachMayBePut gs
        → UnitsRise (us ++ units_in (map item_of gs)) → CanPutAll gs us }
    ensures units { (gs : List Given) (us : List LeafUnit)
        → UnitsRise (us ++ units_in (map item_of gs))
        → put_all gs us ≡ us ++ units_in (map item_of gs) }
{}
