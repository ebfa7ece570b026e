//! Laws of what may be put among the extents of the cells of a task. Each is the contract of a
//! function that does nothing.

ghost use Rattle.std.specs.Prelude.{List, Option};
ghost use Rattle.r4_base.specs.Tree.{Root as TreeRoot, Store};
ghost use Rattle.r4_base.specs.Value.{Value};
ghost use Rattle.r4_content.specs.Edited.{Edits};
ghost use Rattle.r4_extent_turned.specs.r4_extent_growth.Coming.{SufficesFor};
ghost use Rattle.r4_extent_turned.specs.r4_extent_growth.r4_extent_change.Changing.{AreMeasured};
ghost use Rattle.r4_extent_turned.specs.r4_extent_growth.r4_measure.Budget.{AreUnplaced, Budget};
ghost use Rattle.r4_extent_turned.specs.r4_extent_growth.r4_measure.Grafting.{IsQuietBelow};
ghost use Rattle.r4_extent_turned.specs.r4_extent_growth.r4_measure.r4_cell.Patch.{HaveNames};
ghost use Rattle.r4_extent_turned.specs.r4_extent_growth.r4_measure.r4_cell.Seen.{CellSeen};
ghost use Rattle.r4_extent_turned.specs.r4_extent_growth.r4_measure.r4_cell.declared.change.Fresh.{Fresh};
ghost use Rattle.r4_extent_turned.specs.r4_extent_growth.r4_measure.r4_reach.Touched.{Body};
ghost use Rattle.r4_extent_turned.specs.r4_extent_growth.r4_measure.r4_work.Working.{AreCellsIn};
ghost use Rattle.r4_extent_put.specs.Allowing.{MayPutAll};
ghost use Rattle.r4_extent_put.specs.Putting.{CanPut};
ghost use Rattle.r4_extent_put.specs.Taking.{twigs_putting};

/// Where `may_put` says so of the cells of a part of a tree that have the budget, and the budget
/// has what `twigs_putting` tells of each twig, `change_of_putting` may be asked for the change.
pub fn found_puts_can_be_made()
    ensures { (b : Option Body) (e : Edits) (u : Budget) (t : Store Value) (r : TreeRoot)
        (f : Fresh) (cells : List CellSeen) → MayPutAll b e f cells → AreCellsIn t r f cells
        → HaveNames cells → AreMeasured t r u cells → IsQuietBelow u → AreUnplaced f
        → SufficesFor u (twigs_putting b e cells) → CanPut b e u t r f cells }
{}
