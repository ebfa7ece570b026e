//! Laws of what may be turned of the cells of a task. Each is the contract of a function that does
//! nothing.

ghost use Rattle.std.specs.Prelude.{◌≡◌, List, Some};
ghost use Rattle.r4_base.specs.Tree.{Root as TreeRoot, Store};
ghost use Rattle.r4_base.specs.Value.{Value};
ghost use Rattle.r4_content.specs.Edited.{Edits};
ghost use Rattle.r4_extent_shrink.specs.r4_extent_growth.Coming.{SufficesFor};
ghost use Rattle.r4_extent_shrink.specs.r4_extent_growth.r4_extent_change.Changing.{AreMeasured};
ghost use Rattle.r4_extent_shrink.specs.r4_extent_growth.r4_measure.Budget.{AreUnplaced, Budget};
ghost use Rattle.r4_extent_shrink.specs.r4_extent_growth.r4_measure.Grafting.{IsQuietBelow};
ghost use Rattle.r4_extent_shrink.specs.r4_extent_growth.r4_measure.r4_cell.Patch.{HaveNames};
ghost use Rattle.r4_extent_shrink.specs.r4_extent_growth.r4_measure.r4_cell.Seen.{CellSeen};
ghost use Rattle.r4_extent_shrink.specs.r4_extent_growth.r4_measure.r4_cell.declared.change.Fresh.{Fresh};
ghost use Rattle.r4_extent_shrink.specs.r4_extent_growth.r4_measure.r4_reach.Touched.{Body};
ghost use Rattle.r4_extent_shrink.specs.r4_extent_growth.r4_measure.r4_work.Working.{AreCellsIn};
ghost use Rattle.r4_extent_turn.specs.Turning.{Turn};
ghost use Rattle.r4_extent_turned.specs.Finding.{turn_among};
ghost use Rattle.r4_extent_turned.specs.MayTurn.{MayTurnWhole, twig_turning};
ghost use Rattle.r4_extent_turned.specs.Whole.{CanTurn};

/// Where `may_turn` says so of the cells of a part of a tree that have the budget, and of the twig
/// and the leaves that `turning_among` finds among them, and the budget has what `twig_turning`
/// tells of the twig, `change_of_turning` may be asked for the change.
pub fn found_turns_can_be_made()
    ensures { (b : Body) (e : Edits) (u : Budget) (t : Store Value) (r : TreeRoot) (f : Fresh)
        (cells : List CellSeen) (x : Turn) → MayTurnWhole b e f cells x
        → turn_among b cells ≡ Some x → AreCellsIn t r f cells → HaveNames cells
        → AreMeasured t r u cells → IsQuietBelow u → AreUnplaced f
        → SufficesFor u (twig_turning b e x) → CanTurn b e u t r f cells x }
{}
