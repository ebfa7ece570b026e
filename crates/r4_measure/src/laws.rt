//! Laws of budgets. Each is the contract of a function that does nothing.

ghost use Rattle.std.specs.Prelude.{◌≡◌, ◌⊎◌, ℕ, ◌+◌, ◌*◌, ◌≤◌, List, ◌∷◌, Option, length};
ghost use Rattle.r4_base.specs.Tree.{Root, Store};
ghost use Rattle.r4_base.specs.Value.{Value};
ghost use Rattle.r4_base.specs.declared.key.Key.{Key};
ghost use Rattle.r4_reach.specs.r4_cell.Seen.{CellSeen};
ghost use Rattle.r4_reach.specs.r4_cell.declared.change.Change.{Change};
ghost use Rattle.r4_reach.specs.r4_cell.declared.change.Fresh.{Fresh};
ghost use Rattle.r4_content.specs.Edited.{Edits, Intervals};
ghost use Rattle.r4_reach.specs.r4_leaf.Units.{LeafUnit, leaf_bytes};
ghost use Rattle.r4_reach.specs.r4_leaf.declared.remaking.Given.{Given};
ghost use Rattle.r4_reach.specs.r4_leaf.declared.remaking.KeyRange.{KeyRange};
ghost use Rattle.r4_reach.specs.r4_patch.Part.{IsPart};
ghost use Rattle.r4_reach.specs.r4_path.Levels.{IsLongEnough};
ghost use Rattle.r4_reach.specs.Leaves.{most_of};
ghost use Rattle.r4_reach.specs.Needs.{demand_of};
ghost use Rattle.r4_reach.specs.Touched.{Body};
ghost use Rattle.r4_work.specs.r4_edit.Editing.{extra_cells};
ghost use Rattle.r4_work.specs.r4_edit.Remaking.{after_edits};
ghost use Rattle.r4_work.specs.Remaking.{IsRemade};
ghost use Rattle.r4_work.specs.Working.{IsStart, path_of, root_of, standing};
ghost use Rattle.r4_work.specs.declared.working.WorkingSet.{WorkingSet};
ghost use Rattle.r4_measure.specs.Asked.{asked_of};
ghost use Rattle.r4_measure.specs.Begin.{AreEditsOf, IsQuiet, IsReachedFor};
ghost use Rattle.r4_measure.specs.Budget.{AreUnplaced, Budget, IsBudget, most_from};
ghost use Rattle.r4_measure.specs.Leaving.{AreEditsIn, HasBudget, LeavesBudget};
ghost use Rattle.r4_measure.specs.Loop.{AreReady, CanRemakeAll, LeafTurn, StandAtMost};
ghost use Rattle.r4_measure.specs.Measured.{IsMeasured, LeavesMeasure};

/// All edits of a leaf keep a budget, where what comes beside the leaf is in it: other cells keep theirs, and no old
/// one has more. How many cells there may be in the end is no more than before.
pub fn edits_keep_a_budget()
    ensures { (now : Store Value) (r : Root) (f after : Fresh) (b : Budget) (us : List LeafUnit)
        (leaf : CellSeen) (ups : List CellSeen) (d : Change) → HasBudget now r f b
        → AreEditsIn now r b us leaf ups f after d → LeavesBudget now r f b d }
{}

/// Where what comes beside a leaf that stands is in the budget, its path among the cells that stand is long enough.
pub fn a_budget_suffices()
    ensures { (t : Store Value) (r : Root) (f : Fresh) (w : WorkingSet) (b : Budget) (k : ℕ)
        (leaf : CellSeen) (ups : List CellSeen) (us : List LeafUnit) → IsMeasured t r f w b
        → path_of w k ≡ leaf ∷ ups → extra_cells us ≤ b 1 leaf.id
        → (leaf_bytes us ≤ 4068) ⊎ IsLongEnough (root_of w r) (extra_cells us) leaf ups }
{}

/// All edits of a leaf at its turn leave a working set of which is known what may still come: of another leaf as much
/// as before, and of all cells that stand no more than before.
pub fn turns_keep_the_measure()
    ensures { (t : Store Value) (r : Root) (before after : Fresh) (w now : WorkingSet) (b : Budget)
        (key : Key) (cuts : List KeyRange) (items : List Given)
        (made : IsRemade t r before after w now key cuts items)
        → IsMeasured t r before w b → AreUnplaced before
        → extra_cells (after_edits cuts items made.leaf) ≤ b 1 made.leaf.id
        → LeavesMeasure t r after w now b made.edit }
{}

/// Edits of leaves one after the other, each leaf once, in a working set of which is known what may still come: each
/// has its condition at its turn. 64 numbers for each leaf suffice. After all of them no more cells stand than might
/// come of those that stood, with a new root.
pub fn each_leaf_has_its_turn()
    ensures turns { (t : Store Value) (r : Root) (es : List LeafTurn) (is : List ℕ) (f : Fresh)
        (w : WorkingSet) (b : Budget) → IsMeasured t r f w b → AreReady t w b es is
        → AreUnplaced f → f.next + 64 * length es ≤ f.end → CanRemakeAll t r es f w }
    ensures few { (t : Store Value) (r : Root) (es : List LeafTurn) (is : List ℕ) (f : Fresh)
        (w : WorkingSet) (b : Budget) → IsMeasured t r f w b → AreReady t w b es is
        → AreUnplaced f → f.next + 64 * length es ≤ f.end
        → StandAtMost (most_from b (root_of w r) (standing w)) t r es f w }
{}

/// What a command asks of the cells of a tree is a budget for the edits of its leaves, where no block comes and no
/// pieces of twigs change, and where the root asks for something only below level 8.
pub fn what_is_asked_is_a_budget()
    ensures { (b : Option Body) (e : Edits) (reads rs : Intervals) (t : Store Value) (r : Root)
        → IsPart t r → IsQuiet b e reads rs t r
        → IsBudget t r (asked_of (demand_of b e reads rs) t) }
{}

/// Where the cells are there that such a command writes, the edits of its leaves, each leaf once, have each its
/// condition at its turn. After all of them no more cells stand than one in the place of each, those for which the
/// cells ask, and a new root.
pub fn reach_suffices_for_all_edits()
    ensures turns { (b : Option Body) (e : Edits) (reads rs : Intervals) (t : Store Value)
        (r : Root) (f : Fresh) (cells : List CellSeen) (w : WorkingSet) (us : List LeafTurn)
        (is : List ℕ)
        → IsReachedFor b e reads rs t r f cells → IsStart cells w
        → AreEditsOf b e reads rs t us is → AreUnplaced f → f.next + 64 * length us ≤ f.end
        → CanRemakeAll t r us f w }
    ensures few { (b : Option Body) (e : Edits) (reads rs : Intervals) (t : Store Value) (r : Root)
        (f : Fresh) (cells : List CellSeen) (w : WorkingSet) (us : List LeafTurn) (is : List ℕ)
        → IsReachedFor b e reads rs t r f cells → IsStart cells w
        → AreEditsOf b e reads rs t us is → AreUnplaced f → f.next + 64 * length us ≤ f.end
        → StandAtMost (most_of (demand_of b e reads rs) t r cells) t r us f w }
{}
