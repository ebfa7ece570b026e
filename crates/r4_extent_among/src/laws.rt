//! Laws of a twig among whose extents values are put. Each is the contract of a function that does
//! nothing.

ghost use Rattle.std.specs.Prelude.{◌≡◌, ◌≢◌, ◌<◌, ℕ, ◌+◌, ◌*◌, ◌^◌, ◌≤◌, [], List, Option, length};
ghost use Rattle.r4_base.specs.Tree.{Root as TreeRoot, Store};
ghost use Rattle.r4_base.specs.Value.{Value};
ghost use Rattle.r4_build.specs.r4_branch.Pieces.{twig_bytes};
ghost use Rattle.r4_build.specs.Building.{set_by};
ghost use Rattle.r4_extent_build.specs.r4_cell.Seen.{CellSeen, node_of};
ghost use Rattle.r4_extent_build.specs.r4_cell.declared.change.Fresh.{Fresh};
ghost use Rattle.r4_content.specs.Edited.{Edits};
ghost use Rattle.r4_extent_build.specs.Looping.{AreTurned};
ghost use Rattle.r4_extent_build.specs.r4_twig_turns.Turning.{IsReady, IsTurnOf, TurnAtMost};
ghost use Rattle.r4_extent_build.specs.r4_twig_turns.Turning.{behind, come_at_most};
ghost use Rattle.r4_build.specs.r4_measure.Budget.{AreUnplaced, Budget, most_from};
ghost use Rattle.r4_build.specs.r4_path.TwigPieces.{twig_pieces};
ghost use Rattle.r4_build.specs.r4_reach.Needs.{leaf_edits, pieces_after, put_among, twig_need};
ghost use Rattle.r4_build.specs.r4_reach.Touched.{Body};
ghost use Rattle.r4_extent_build.specs.r4_twig_work.Regrafting.{SetsBelow};
ghost use Rattle.r4_build.specs.r4_work.Remaking.{Changes};
ghost use Rattle.r4_build.specs.r4_work.Working.{IsWorking, root_of, standing};
ghost use Rattle.r4_build.specs.r4_work.declared.working.WorkingSet.{WorkingSet};
ghost use Rattle.r4_extent_among.specs.Among.{AreNewLeaves, IsAmong, among_need, among_turn};
ghost use Rattle.r4_extent_among.specs.Among.{is_put_among, more_twigs};
ghost use Rattle.r4_extent_among.specs.AmongIn.{CanPutAmong, IsAmongIn, MayPutAmong, numbers_among};
ghost use Rattle.r4_extent_among.specs.AmongIn.{turns_among};
ghost use Rattle.r4_extent_among.specs.AmongEach.{CanPutEach, HasPutEach, LeavesAll, MayPutEach};
ghost use Rattle.r4_extent_among.specs.AmongEach.{is_put_in_each};
ghost use Rattle.r4_extent_among.specs.LeavesLeft.{LeavesLeaves};

/// Where values come among the extents of a twig, the twig has its turn among those that are packed
/// anew, whatever the leaves are made of: it gets pointers to them, and names what it named, and
/// them, where it needs no more than 16000 bytes.
pub fn among_twigs_have_their_turn()
    ensures { (b : Option Body) (e : Edits) (twig : CellSeen) (cells : List CellSeen) (next : ℕ)
        → IsAmong b e twig → AreNewLeaves b e twig cells → among_need b e twig ≤ 16000
        → 2 ^ 63 ≤ next → IsTurnOf (node_of twig) (among_turn twig cells) next }
{}

/// That turn sets just the keys of the values that come into the ranges of the twig's extents: what
/// the edits put there stands there, in a leaf. At every other key stands what stood there.
pub fn among_turns_set_values()
    ensures { (b : Option Body) (e : Edits) (twig : CellSeen) (cells : List CellSeen) (next : ℕ)
        → IsAmong b e twig → AreNewLeaves b e twig cells → 2 ^ 63 ≤ next
        → SetsBelow twig ((among_turn twig cells).pieces next) ((among_turn twig cells).beside next)
        (is_put_among b e twig) (set_by (leaf_edits b e)) }
{}

/// Once the twig had its turn, these values are set in the set, and no other unit is changed.
pub fn turned_twigs_set_values()
    ensures { (b : Option Body) (e : Edits) (t : Store Value) (r : TreeRoot) (twig : CellSeen)
        (cells : List CellSeen) (f : Fresh) (w now : WorkingSet) → CanPutAmong b e t r twig f w
        → AreNewLeaves b e twig cells → AreTurned t r (turns_among twig cells) f w now
        → Changes w now (is_put_among b e twig) (set_by (leaf_edits b e)) }
{}

/// The twig is ready for its turn where it stands, and what comes beside it is in the budget. So
/// `each_twig_has_its_turn` of r4_twig_turns gives it its turn.
pub fn among_twigs_are_ready()
    ensures { (b : Option Body) (e : Edits) (t : Store Value) (r : TreeRoot) (f : Fresh)
        (w : WorkingSet) (u : Budget) (twig : CellSeen) (cells : List CellSeen)
        → IsWorking t r f w → IsAmongIn b e w twig → AreNewLeaves b e twig cells
        → among_need b e twig ≤ 16000 → more_twigs (among_need b e twig) ≤ u 2 twig.id
        → IsReady t w u (among_turn twig cells) twig.id }
{}

/// Where the twig stands in a part of a tree, what the laws above ask of it holds.
pub fn twigs_of_parts_are_among()
    ensures { (b : Option Body) (e : Edits) (t : Store Value) (r : TreeRoot) (f : Fresh)
        (w : WorkingSet) (twig : CellSeen) → IsWorking t r f w → IsAmongIn b e w twig
        → IsAmong b e twig }
{}

/// So in a measured set the twig may be packed anew, whatever the leaves are made of, and no more
/// cells stand then than might come before, and the leaves that come.
pub fn measured_twigs_may_be_put_among()
    ensures can { (b : Option Body) (e : Edits) (t : Store Value) (r : TreeRoot) (twig : CellSeen)
        (f : Fresh) (w : WorkingSet) (u : Budget)
        → MayPutAmong b e t r twig f w u → CanPutAmong b e t r twig f w }
    ensures few { (b : Option Body) (e : Edits) (t : Store Value) (r : TreeRoot) (twig : CellSeen)
        (cells : List CellSeen) (f : Fresh) (w : WorkingSet) (u : Budget)
        → MayPutAmong b e t r twig f w u → AreNewLeaves b e twig cells
        → TurnAtMost (most_from u (root_of w r) (standing w)
        + come_at_most (turns_among twig cells)) t r (turns_among twig cells) f w }
{}

/// It leaves a measured set, in which each leaf stands that stood, and the leaves that came: so the
/// edits of leaves may follow, with the numbers that are left. No more cells may stand in the end
/// than before, and the leaves that came.
pub fn among_twigs_leave_leaves()
    ensures { (b : Option Body) (e : Edits) (t : Store Value) (r : TreeRoot) (twig : CellSeen)
        (cells : List CellSeen) (f : Fresh) (w now : WorkingSet) (u : Budget)
        → MayPutAmong b e t r twig f w u → AreNewLeaves b e twig cells
        → AreTurned t r (turns_among twig cells) f w now
        → LeavesLeaves u t r f w now twig cells }
{}

/// So another twig of the set may follow, with the numbers that are left: what is asked of it holds
/// still, and what comes beside it is in what is left of the budget.
pub fn other_twigs_may_follow()
    ensures { (b : Option Body) (e : Edits) (t : Store Value) (r : TreeRoot)
        (twig other : CellSeen) (cells : List CellSeen) (f : Fresh) (w now : WorkingSet)
        (u : Budget) → (done : LeavesLeaves u t r f w now twig cells) → AreUnplaced f
        → IsAmongIn b e w other → other.id ≢ twig.id → among_need b e other ≤ 16000
        → more_twigs (among_need b e other) ≤ u 2 other.id
        → (behind (among_turn twig cells) f).next + numbers_among b e other ≤ f.end
        → MayPutAmong b e t r other (behind (among_turn twig cells) f) now done.left }
{}

/// So several twigs of a measured set may be packed anew, one after the other.
pub fn measured_twigs_may_each_be_put_among()
    ensures { (b : Option Body) (e : Edits) (t : Store Value) (r : TreeRoot)
        (twigs : List CellSeen) (f : Fresh) (w : WorkingSet) (u : Budget)
        → MayPutEach b e t r twigs f w u → CanPutEach b e t r twigs f w }
{}

/// Together they set just the values that come into the ranges of their extents.
pub fn each_twig_sets_values()
    ensures { (b : Option Body) (e : Edits) (t : Store Value) (r : TreeRoot)
        (twigs cells : List CellSeen) (f after : Fresh) (w now : WorkingSet)
        → CanPutEach b e t r twigs f w → HasPutEach b e twigs f after w now cells
        → Changes w now (is_put_in_each b e twigs) (set_by (leaf_edits b e)) }
{}

/// They leave a measured set, in which each leaf stands that stood, and the leaves that came.
pub fn each_twig_leaves_leaves()
    ensures { (b : Option Body) (e : Edits) (t : Store Value) (r : TreeRoot)
        (twigs cells : List CellSeen) (f after : Fresh) (w now : WorkingSet) (u : Budget)
        → MayPutEach b e t r twigs f w u → HasPutEach b e twigs f after w now cells
        → LeavesAll u t r f after w now cells }
{}

/// Each leaf that comes takes 46 bytes of the twig, and there are no more of them than `put_among`
/// counts. So the twig needs no more than what it is asked for, where its other pieces stay as they
/// are.
pub fn among_twigs_need_what_is_asked()
    ensures room { (b : Option Body) (e : Edits) (twig : CellSeen) (cells : List CellSeen)
        (next : ℕ) → IsAmong b e twig → AreNewLeaves b e twig cells
        → twig_bytes ((among_turn twig cells).pieces next)
        ≡ twig_bytes (twig_pieces twig) + 46 * length cells }
    ensures few { (b : Option Body) (e : Edits) (twig : CellSeen) (cells : List CellSeen)
        → AreNewLeaves b e twig cells → length cells ≤ put_among b e (node_of twig) }
    ensures asked { (b : Option Body) (e : Edits) (twig : CellSeen)
        → 0 < put_among b e (node_of twig)
        → pieces_after b e (node_of twig) [] ≡ twig_pieces twig
        → twig_need b e (node_of twig) [] ≡ among_need b e twig }
{}
