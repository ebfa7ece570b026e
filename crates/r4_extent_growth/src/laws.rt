//! Laws of what may be grown of the cells of a task. Each is the contract of a function that does
//! nothing.

ghost use Rattle.std.specs.Prelude.{◌≡◌, List, true};
ghost use Rattle.r4_base.specs.Tree.{Root as TreeRoot, Store};
ghost use Rattle.r4_base.specs.Value.{Value};
ghost use Rattle.r4_content.specs.Edited.{Edits};
ghost use Rattle.r4_extent_change.specs.r4_measure.Budget.{AreUnplaced, Budget};
ghost use Rattle.r4_extent_change.specs.r4_measure.Grafting.{IsQuietBelow};
ghost use Rattle.r4_extent_change.specs.r4_measure.r4_cell.Patch.{HaveNames};
ghost use Rattle.r4_extent_change.specs.r4_measure.r4_cell.Seen.{CellSeen};
ghost use Rattle.r4_extent_change.specs.r4_measure.r4_cell.declared.change.Fresh.{Fresh};
ghost use Rattle.r4_extent_change.specs.r4_measure.r4_reach.Touched.{Body};
ghost use Rattle.r4_extent_change.specs.r4_measure.r4_work.Working.{AreCellsIn};
ghost use Rattle.r4_extent_change.specs.Changing.{AreMeasured, CanGrow};
ghost use Rattle.r4_extent_growth.specs.Coming.{SufficesFor, twigs_coming};
ghost use Rattle.r4_extent_growth.specs.Growth.{EndInObjects, MayGrow, may_grow};
ghost use Rattle.r4_extent_growth.specs.Lying.{CutsOneByOne};

/// Where `may_grow` says so of the cells of a part of a tree that have the budget, and the budget
/// has what `twigs_coming` tells of each twig, `change_of_growing` may be asked for the change.
pub fn found_growths_can_be_made()
    ensures { (b : Body) (e : Edits) (u : Budget) (t : Store Value) (r : TreeRoot) (f : Fresh)
        (cells : List CellSeen) → MayGrow b e f cells → AreCellsIn t r f cells → HaveNames cells
        → AreMeasured t r u cells → IsQuietBelow u → AreUnplaced f
        → SufficesFor u (twigs_coming b e cells) → CanGrow b e u t r f cells }
{}

/// Where `change_of_growing` may be asked for a change, `may_grow` says so, if the edits cut no more
/// than one key at once where it is no body's, and no unit and no data block reaches the end of its
/// object.
pub fn growths_are_found()
    ensures { (b : Body) (e : Edits) (u : Budget) (t : Store Value) (r : TreeRoot) (f : Fresh)
        (cells : List CellSeen) → CanGrow b e u t r f cells
        → CutsOneByOne e → EndInObjects b e cells → may_grow b e f cells ≡ true }
{}
