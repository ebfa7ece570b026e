//! Laws of rows. Each is the contract of a function that does nothing.

ghost use Rattle.std.specs.Prelude.{◌≡◌, ◌<◌, ◌≤◌, ◌↔◌, ◌⊎◌, ◌++◌, ◌∷◌, [], ℕ, suc, All, Bool};
ghost use Rattle.std.specs.Prelude.{false, Contains, length, map, List, None, Option};
ghost use Rattle.r4_base.specs.Key.{rank};
ghost use Rattle.r4_base.specs.Node.{mkfs_id_of};
ghost use Rattle.r4_base.specs.Tree.{Root, Store};
ghost use Rattle.r4_base.specs.Value.{Value};
ghost use Rattle.r4_base.specs.declared.key.Key.{Key};
ghost use Rattle.r4_branch.specs.Pieces.{AreTwigPieces, units_of};
ghost use Rattle.r4_branch.specs.Twigs.{AreFewTwigs, PacksTwigs};
ghost use Rattle.r4_branch.specs.declared.piece.TwigPiece.{TwigPiece};
ghost use Rattle.r4_branch.specs.declared.twig.Twig.{Twig};
ghost use Rattle.r4_cell.specs.Patch.{HaveNames, IsChange};
ghost use Rattle.r4_cell.specs.Seen.{CellSeen};
ghost use Rattle.r4_leaf.specs.Units.{is_between};
ghost use Rattle.r4_patch.specs.Effect.{HasEffect, Placed, in_extent};
ghost use Rattle.r4_patch.specs.Joining.{ids_of};
ghost use Rattle.r4_patch.specs.Part.{MeetsPart};
ghost use Rattle.r4_path.specs.Grafts.{TwigsHaveMkfsId, twig_cells};
ghost use Rattle.r4_path.specs.Levels.{units_of_cells};
ghost use Rattle.r4_path.specs.Nodes.{IsPointable, pointer_item};
ghost use Rattle.r4_path.specs.Steps.{Follow, IsFree, IsPathChange, Step, root_pair};
ghost use Rattle.r4_path.specs.Twigs.{Below, IsTwigChange, IsUnused};
ghost use Rattle.r4_rows.specs.Fewest.{joined};
ghost use Rattle.r4_rows.specs.Numbers.{AreNumbered, IsNumberedChange};
ghost use Rattle.r4_rows.specs.Packed.{AreSlumPieces, AreTheirPieces, renumbered};
ghost use Rattle.r4_rows.specs.Pieces.{ArePointersTo, AreTwigsOfPieces, PiecesBelow, pointer_to};
ghost use Rattle.r4_rows.specs.Pointers.{PointTo, PointsBelow};
ghost use Rattle.r4_rows.specs.Rows.{AreThere, IsPlainRowChange, IsRow, IsRowChange, KeepsSpans};
ghost use Rattle.r4_rows.specs.Rows.{Row, all_news, all_olds, news_in, no_row, olds_in, rows_patch};
ghost use Rattle.r4_rows.specs.Steps.{row_below, row_of_step};
ghost use Rattle.r4_rows.specs.Turn.{IsTurn};
ghost use Rattle.r4_rows.specs.Units.{KeepUnits, TakeEffect};

/// Cells of neighbouring levels, on each level several beside each other, give way to others that
/// share out the same ranges, up to a level at which one stands: that is a patch, and each part of
/// a tree that has the cells meets it. Below the lowest row, where it is one of twigs, leaves and
/// data blocks go and come (docs/volume.md, "Edits").
pub fn rows_are_patches()
    ensures change { (t : Store Value) (r : Root) (level : ℕ) (b s : Row) (more : List Row)
        (over : Option CellSeen) → IsRowChange t r level b s more over
        → IsChange (all_olds b s more) (all_news b s more over) (root_pair over) }
    ensures meets { (t : Store Value) (r : Root) (level : ℕ) (b s : Row) (more : List Row)
        (over : Option CellSeen) → IsRowChange t r level b s more over
        → MeetsPart (rows_patch b s more over) t r }
{}

/// A change along a path is one of rows of one old cell each; and so is a change of a twig, over
/// the leaves and data blocks that go and come below it (docs/volume.md, "Edits").
pub fn steps_are_rows()
    ensures path { (t : Store Value) (r : Root) (from : ℕ) (s : Step) (more : List Step)
        (over : Option CellSeen) → IsPathChange t r from (s ∷ more) over
        → IsRowChange t r s.old.level no_row (row_of_step s) (map row_of_step more) over }
    ensures twig { (t : Store Value) (r : Root) (b : Below) (s : Step) (more : List Step)
        (over : Option CellSeen) → IsTwigChange t r b s more over
        → IsRowChange t r 2 (row_below b) (row_of_step s) (map row_of_step more) over }
{}

/// Where twigs or nodes above them are the lowest row, what happens to units is what happens to
/// those of this row and of the leaves and data blocks below: the levels above have none
/// (docs/volume.md, "Edits").
pub fn rows_take_effect()
    ensures { (t : Store Value) (r : Root) (level : ℕ) (b s : Row) (more : List Row)
        (over : Option CellSeen) (at : ℕ → Bool) (to : ℕ → Option (Placed Value))
        → IsRowChange t r level b s more over → 2 ≤ level
        → TakeEffect (b.old ++ s.old) (b.new ++ s.new) at to
        → HasEffect (rows_patch b s more over) at to }
{}

/// Rows alone, with nothing below the lowest, are such a change; where each has its units in their
/// order, it changes no unit and leaves each in its kind of cell (docs/volume.md, "Edits").
pub fn rows_keep_units()
    ensures row { (t : Store Value) (r : Root) (level : ℕ) (s : Row) (more : List Row)
        (over : Option CellSeen) → IsPlainRowChange t r level s more over
        → IsRowChange t r level no_row s more over }
    ensures effect { (t : Store Value) (r : Root) (level : ℕ) (s : Row) (more : List Row)
        (over : Option CellSeen) → IsRowChange t r level no_row s more over → KeepUnits (s ∷ more)
        → HasEffect (rows_patch no_row s more over) (λ k. false) (λ k. None) }
{}

/// Bytes of leaves that come to stand in an extent, of one twig or of several beside each other:
/// all keys of the range change, and what stands there then stands in twigs and data blocks; every
/// other key has what it had, in a leaf where it had it in one (docs/volume.md, "Edits").
pub fn turns_take_effect()
    ensures { (t : Store Value) (r : Root) (b s : Row) (more : List Row) (over : Option CellSeen)
        (from to : ℕ) (values : ℕ → Option Value) → IsRowChange t r 2 b s more over
        → IsTurn b s from to values
        → HasEffect (rows_patch b s more over) (is_between from to) (λ k. in_extent (values k)) }
{}

/// Cells that have pointers to the new cells below in the place of those to the old ones, and their
/// other items as they were, one cell's after the other's, are such a row over that one, with their
/// extents and their own units kept. `points`: the items that point to cells (docs/volume.md,
/// "Edits").
pub fn pointers_make_rows()
    ensures row { (t : Store Value) (l : ℕ) (b s : Row) → 1 ≤ l → PointsBelow l b s
        → AreThere t s.old → IsRow t (suc l) b s }
    ensures spans { (l : ℕ) (b s : Row) → 1 ≤ l → PointsBelow l b s → KeepsSpans s }
    ensures units { (l : ℕ) (b s : Row) → 1 ≤ l → PointsBelow l b s
        → units_of_cells s.new ≡ units_of_cells s.old }
    ensures points { (cells : List CellSeen) → All (λ c. IsPointable c.id) cells
        → PointTo (map pointer_item cells) cells }
{}

/// Twigs whose pieces, one twig's after the other's, have others in the place of those that name
/// the cells that go below, and name those that come, are such a row over them. `units`: where what
/// goes has none, the units of what comes are added; `keep`: where both have the same, all stay.
/// `packed`: twigs into which pieces are packed, with any numbers, have just these pieces' names
/// and units. `points`: the pieces that point to leaves (docs/volume.md, "Edits").
pub fn pieces_make_rows()
    ensures packed { (lo hi : Key) (ps : List TwigPiece) (twigs : List Twig) (ids b : List ℕ)
        → PacksTwigs (rank lo) (rank hi) ps twigs → AreFewTwigs ps twigs
        → TwigsHaveMkfsId (mkfs_id_of b) twigs → length ids ≡ length twigs
        → AreTwigsOfPieces (rank lo) (rank hi) ids ps
        (renumbered ids (twig_cells 0 0 hi twigs)) }
    ensures row { (t : Store Value) (b s : Row) → PiecesBelow b s → AreThere t s.old
        → IsRow t 2 b s }
    ensures units { (b s : Row) (p : PiecesBelow b s) → units_of p.gone ≡ []
        → (w : ℕ × Value) → Contains (units_of_cells s.new) w
        ↔ (Contains (units_of_cells s.old) w ⊎ Contains (units_of p.come) w) }
    ensures keep { (b s : Row) (p : PiecesBelow b s) → units_of p.come ≡ units_of p.gone
        → units_of_cells s.new ≡ units_of_cells s.old }
    ensures points { (from to : ℕ) (cells : List CellSeen) → Follow 1 from to cells
        → ArePointersTo from to cells (map pointer_to cells) }
{}

/// Where the new cells of each row have the first of its old numbers, and then free ones in turn,
/// no name stands twice, and each is an old cell's or unused. So such rows are a change of rows,
/// over what comes below with numbers of what goes there or other unused ones (docs/volume.md,
/// "Edits").
pub fn rows_are_numbered()
    ensures names { (t : Store Value) (n to : ℕ) (rows : List Row) (over : Option CellSeen)
        → AreNumbered n to rows over → HaveNames (olds_in rows) → AreThere t (olds_in rows)
        → IsFree n to t → HaveNames (news_in rows over) }
    ensures each { (t : Store Value) (n to : ℕ) (rows : List Row) (over : Option CellSeen)
        → AreNumbered n to rows over → IsFree n to t
        → (c : CellSeen) → Contains (news_in rows over) c
        → Contains (ids_of (olds_in rows)) c.id ⊎ IsUnused t c.id }
    ensures change { (t : Store Value) (r : Root) (level n to : ℕ) (b s : Row) (more : List Row)
        (over : Option CellSeen) → IsNumberedChange t r level n to b s more over
        → IsRowChange t r level b s more over }
{}

/// The pieces of twigs beside each other, one twig's after the other's, name what these name, and
/// have their units; and they may make a twig of the whole range, but for their bytes
/// (docs/volume.md, "Edits").
pub fn twigs_are_their_pieces()
    ensures slum { (slum : List CellSeen) (from to : ℕ) (each : List (List TwigPiece))
        → Follow 2 from to slum → from < to → AreTheirPieces slum each
        → AreSlumPieces slum from to (joined each) each }
    ensures pieces { (slum : List CellSeen) (from to : ℕ) (each : List (List TwigPiece))
        → Follow 2 from to slum → from < to → AreTheirPieces slum each
        → AreTwigPieces from to (joined each) }
{}
