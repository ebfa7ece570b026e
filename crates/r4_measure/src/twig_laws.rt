//! Laws of budgets where twigs are packed anew. Each is the contract of a function that does nothing.

ghost use Rattle.std.specs.Prelude.{◌≡◌, ◌⊎◌, ℕ, ◌≤◌, List, ◌∷◌, Option};
ghost use Rattle.r4_base.specs.Tree.{Root, Store};
ghost use Rattle.r4_base.specs.Value.{Value};
ghost use Rattle.r4_reach.specs.r4_branch.Pieces.{twig_bytes};
ghost use Rattle.r4_reach.specs.r4_branch.declared.piece.TwigPiece.{TwigPiece};
ghost use Rattle.r4_reach.specs.r4_cell.Seen.{CellSeen};
ghost use Rattle.r4_reach.specs.r4_cell.declared.change.Change.{Change};
ghost use Rattle.r4_reach.specs.r4_cell.declared.change.Fresh.{Fresh};
ghost use Rattle.r4_content.specs.Edited.{Edits, Intervals};
ghost use Rattle.r4_reach.specs.r4_patch.Part.{IsPart};
ghost use Rattle.r4_reach.specs.r4_path.Grafts.{extra_twigs};
ghost use Rattle.r4_reach.specs.r4_path.Levels.{IsLongEnough};
ghost use Rattle.r4_reach.specs.Demand.{Demand};
ghost use Rattle.r4_reach.specs.Needs.{Ask, demand_of};
ghost use Rattle.r4_reach.specs.Touched.{Body};
ghost use Rattle.r4_work.specs.Working.{root_of, twig_path_of};
ghost use Rattle.r4_work.specs.declared.working.WorkingSet.{WorkingSet};
ghost use Rattle.r4_measure.specs.Asked.{AsksAbove, asked_above};
ghost use Rattle.r4_measure.specs.Budget.{AreUnplaced, Budget, IsBudget};
ghost use Rattle.r4_measure.specs.Grafting.{AreGraftsIn, Beside, IsQuietBelow, IsRegrafted};
ghost use Rattle.r4_measure.specs.Grafting.{LeavesTwigBudget, LeavesTwigMeasure};
ghost use Rattle.r4_measure.specs.Leaving.{HasBudget};
ghost use Rattle.r4_measure.specs.Measured.{IsMeasured};

/// A twig that is packed anew keeps a budget, with the leaves and blocks that go and come below it, where what comes
/// beside the twig is in the budget and nothing more comes below twigs: no old cell has more. How many cells there may
/// be in the end is no more than before, and what comes below the twig.
pub fn grafts_keep_a_budget()
    ensures { (now : Store Value) (r : Root) (f after : Fresh) (b : Budget) (twig : CellSeen)
        (ups : List CellSeen) (qs : List TwigPiece) (x : Beside) (d : Change)
        → HasBudget now r f b → AreGraftsIn now r b twig ups qs x f after d
        → LeavesTwigBudget now r f b x d }
{}

/// Where what comes beside a twig that stands is in the budget, its path among the cells that stand is long enough.
pub fn a_budget_suffices_for_twigs()
    ensures { (t : Store Value) (r : Root) (f : Fresh) (w : WorkingSet) (b : Budget) (k : ℕ)
        (twig : CellSeen) (ups : List CellSeen) (qs : List TwigPiece) → IsMeasured t r f w b
        → twig_path_of w k ≡ twig ∷ ups → extra_twigs qs ≤ b 2 twig.id
        → (twig_bytes qs ≤ 4068) ⊎ IsLongEnough (root_of w r) (extra_twigs qs) twig ups }
{}

/// A twig at its turn leaves a working set of which is known what may still come: of all cells that stand no more than
/// before, and what came below the twig; and still nothing of leaves and blocks.
pub fn twig_turns_keep_the_measure()
    ensures { (t : Store Value) (r : Root) (before after : Fresh) (w now : WorkingSet) (b : Budget)
        (k : ℕ) (qs : List TwigPiece) (x : Beside) (made : IsRegrafted t r before after w now k qs x)
        → IsMeasured t r before w b → IsQuietBelow b → AreUnplaced before
        → extra_twigs qs ≤ b 2 made.twig.id
        → LeavesTwigMeasure t r before after w now b x }
{}

/// What a command asks of twigs and of the nodes above them is a budget, of which nothing comes below twigs, where none
/// of them goes, no cell asks for more than 87, and the root asks for something only below level 8.
pub fn what_is_asked_of_twigs_is_a_budget()
    ensures budget { (b : Option Body) (e : Edits) (reads rs : Intervals) (t : Store Value)
        (r : Root) → IsPart t r → AsksAbove (demand_of b e reads rs) t r
        → IsBudget t r (asked_above (demand_of b e reads rs) t) }
    ensures quiet { (d : Demand Ask) (t : Store Value) → IsQuietBelow (asked_above d t) }
{}
