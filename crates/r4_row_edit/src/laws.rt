//! Laws of rows. Each is the contract of a function that does nothing.

ghost use Rattle.std.specs.Prelude.{◌≡◌, ℕ, Bool, List, Option};
ghost use Rattle.r4_base.specs.Tree.{Root, Store};
ghost use Rattle.r4_base.specs.Value.{Value};
ghost use Rattle.r4_branch.specs.declared.piece.TwigPiece.{TwigPiece};
ghost use Rattle.r4_cell.specs.Patch.{IsChange, patch_of};
ghost use Rattle.r4_cell.specs.Seen.{CellSeen};
ghost use Rattle.r4_cell.specs.declared.change.Change.{Change};
ghost use Rattle.r4_cell.specs.declared.change.Fresh.{Fresh};
ghost use Rattle.r4_leaf.specs.Units.{is_between};
ghost use Rattle.r4_patch.specs.Effect.{HasEffect, Placed, in_extent};
ghost use Rattle.r4_patch.specs.Part.{MeetsPart};
ghost use Rattle.r4_rows.specs.Numbers.{IsNumberedChange};
ghost use Rattle.r4_rows.specs.Rows.{Row};
ghost use Rattle.r4_row_edit.specs.Climbing.{Climbed};
ghost use Rattle.r4_row_edit.specs.Shifting.{IsShiftIn, IsShifted, PiecesTakeEffect, PiecesTurn};
ghost use Rattle.r4_row_edit.specs.Twigs.{AreTwigsWith};

/// Twigs with other pieces in the place of a row, over what goes and comes below them, and the rows above, as `twigs_with`
/// and `climb` make them one after the other, are one change of rows, which has just those fresh numbers: so it is a patch
/// that each part of a tree meets in which they stand (`rows_are_numbered` and `rows_are_patches` of `r4_rows`).
pub fn shifted_rows_are_changes()
    ensures { (t : Store Value) (r : Root) (b : Row) (row cells : List CellSeen)
        (ps : List TwigPiece) (above : List (List CellSeen)) (before mid after : Fresh)
        (more : List Row) (over : Option CellSeen) → IsShiftIn t r b row ps above before
        → AreTwigsWith row ps before mid cells
        → Climbed 2 (record { old = row; new = cells }) above mid after more over
        → IsNumberedChange t r 2 before.next before.end b (record { old = row; new = cells }) more
        over }
{}

/// What `shift` makes is a patch, and the part of a tree in which all of it stands meets it. What happens to units is what
/// the pieces say, in whatever twigs they come to stand: any effect (`effect`), or the turn of bytes of leaves into an
/// extent of one twig or several (`turn`; docs/volume.md, "Edits").
pub fn shifts_are_patches()
    ensures change { (t : Store Value) (r : Root) (b : Row) (row : List CellSeen)
        (ps : List TwigPiece) (above : List (List CellSeen)) (before after : Fresh) (c : Change)
        → IsShiftIn t r b row ps above before → IsShifted b row ps above before after c
        → IsChange c.old c.new c.root }
    ensures meets { (t : Store Value) (r : Root) (b : Row) (row : List CellSeen)
        (ps : List TwigPiece) (above : List (List CellSeen)) (before after : Fresh) (c : Change)
        → IsShiftIn t r b row ps above before → IsShifted b row ps above before after c
        → MeetsPart (patch_of c.old c.new c.root) t r }
    ensures effect { (t : Store Value) (r : Root) (b : Row) (row : List CellSeen)
        (ps : List TwigPiece) (above : List (List CellSeen)) (before after : Fresh) (c : Change)
        (at : ℕ → Bool) (to : ℕ → Option (Placed Value)) → IsShiftIn t r b row ps above before
        → IsShifted b row ps above before after c → PiecesTakeEffect b row ps at to
        → HasEffect (patch_of c.old c.new c.root) at to }
    ensures turn { (t : Store Value) (r : Root) (b : Row) (row : List CellSeen)
        (ps : List TwigPiece) (above : List (List CellSeen)) (before after : Fresh) (c : Change)
        (from to : ℕ) (values : ℕ → Option Value) → IsShiftIn t r b row ps above before
        → IsShifted b row ps above before after c → PiecesTurn b row ps from to values
        → HasEffect (patch_of c.old c.new c.root) (is_between from to) (λ k. in_extent (values k)) }
{}
