//! Laws of the twig of a body that comes out of tails to extents. Each is the contract of a
//! function that does nothing.

ghost use Rattle.std.specs.Prelude.{ℕ, ◌+◌, ◌*◌, ◌^◌, ◌≤◌, List, [], Some, length};
ghost use Rattle.r4_base.specs.Tree.{Name, Root as TreeRoot, Store};
ghost use Rattle.r4_base.specs.Value.{Value};
ghost use Rattle.r4_base.specs.declared.key.Key.{Key};
ghost use Rattle.r4_build.specs.r4_branch.Pieces.{twig_bytes};
ghost use Rattle.r4_extent_build.specs.r4_cell.Seen.{node_of};
ghost use Rattle.r4_extent_build.specs.r4_cell.declared.change.Fresh.{Fresh};
ghost use Rattle.r4_content.specs.Edited.{Edits};
ghost use Rattle.r4_extent_build.specs.r4_edit.Extents.{given_cells};
ghost use Rattle.r4_extent_build.specs.Looping.{AreTurned};
ghost use Rattle.r4_extent_build.specs.r4_twig_turns.Turning.{IsReady, IsTurnOf, TurnAtMost};
ghost use Rattle.r4_extent_build.specs.r4_twig_turns.Turning.{come_at_most};
ghost use Rattle.r4_build.specs.r4_measure.Budget.{Budget, most_from};
ghost use Rattle.r4_build.specs.r4_path.Grafts.{extra_twigs};
ghost use Rattle.r4_build.specs.r4_reach.Needs.{Ask, pieces_after};
ghost use Rattle.r4_build.specs.r4_reach.Touched.{Body};
ghost use Rattle.r4_extent_build.specs.r4_twig_work.Regrafting.{SetsBelow};
ghost use Rattle.r4_build.specs.r4_work.Remaking.{Changes};
ghost use Rattle.r4_build.specs.r4_work.Working.{IsWorking, root_of, standing};
ghost use Rattle.r4_build.specs.r4_work.declared.working.WorkingSet.{WorkingSet};
ghost use Rattle.r4_extent_turn.specs.Turning.{AreKept, IsTurnFor, IsTurningBody, Kept, Turn};
ghost use Rattle.r4_extent_turn.specs.Turning.{in_turned};
ghost use Rattle.r4_extent_turn.specs.Turning.{told_pieces, turned_values, turning_turn};
ghost use Rattle.r4_extent_turn.specs.Asked.{OnlyTurnedGo, pointers_left, without_turned};
ghost use Rattle.r4_extent_turn.specs.TurnedOut.{LeavesLeaves};
ghost use Rattle.r4_extent_turn.specs.TurningIn.{CanTurnOut, IsTurnIn, MayTurnOut, StandsTurn};
ghost use Rattle.r4_extent_turn.specs.TurningIn.{turns_to};

/// Where a body comes out of leaves below one twig, or had no bytes, to an extent there, the twig
/// has its turn among those that are packed anew, whatever stays of the leaves is made of: it gets
/// the pieces of the extent, with the numbers of the blocks that come, between pointers to what
/// stays of the leaves, where these need no more than 16000 bytes. They name what the twig named,
/// but for the leaves, and the blocks and what stays.
pub fn turning_twigs_have_their_turn()
    ensures { (b : Body) (first : Key) (e : Edits) (x : Turn) (s : Kept) (next : ℕ)
        → IsTurningBody b first → IsTurnFor b x → AreKept b x s
        → twig_bytes (told_pieces b e x s) ≤ 16000 → 2 ^ 63 ≤ next
        → IsTurnOf (node_of x.twig) (turning_turn b e x s) next }
{}

/// That turn sets the bytes of the body: at each key of the blocks that come stands, in an extent,
/// the byte that the edits set there, else the one that stood in the leaves, else a zero, padding
/// included; at every other key stands what stood there, so what stays of the leaves is as it was.
pub fn turning_turns_set_bytes()
    ensures { (b : Body) (first : Key) (e : Edits) (x : Turn) (s : Kept) (next : ℕ)
        → IsTurningBody b first → IsTurnFor b x → AreKept b x s → 2 ^ 63 ≤ next
        → SetsBelow x.twig ((turning_turn b e x s).pieces next) ((turning_turn b e x s).beside next)
        (in_turned b) (turned_values b e x) }
{}

/// Once the twig had its turn, these bytes are set in the set, and no other unit is changed.
pub fn turned_twigs_set_bytes()
    ensures { (b : Body) (e : Edits) (t : Store Value) (r : TreeRoot) (x : Turn) (s : Kept)
        (f : Fresh) (w now : WorkingSet) → CanTurnOut b e t r x f w → AreKept b x s
        → AreTurned t r (turns_to b e x s) f w now
        → Changes w now (in_turned b) (turned_values b e x) }
{}

/// The twig is ready for its turn where it stands, and its leaves do, and what comes beside it is
/// in the budget. So `each_twig_has_its_turn` of r4_twig_turns gives it its turn.
pub fn turning_twigs_are_ready()
    ensures { (t : Store Value) (r : TreeRoot) (f : Fresh) (w : WorkingSet) (u : Budget) (b : Body)
        (first : Key) (e : Edits) (x : Turn) (s : Kept) → IsWorking t r f w
        → IsTurningBody b first → IsTurnFor b x → AreKept b x s → StandsTurn w x
        → twig_bytes (told_pieces b e x s) ≤ 16000
        → extra_twigs (told_pieces b e x s) ≤ u 2 x.twig.id
        → IsReady t w u (turning_turn b e x s) x.twig.id }
{}

/// Where the twig and its leaves stand in a part of a tree, what the laws above ask of them holds.
pub fn turns_of_parts()
    ensures { (t : Store Value) (r : TreeRoot) (f : Fresh) (w : WorkingSet) (b : Body) (x : Turn)
        → IsWorking t r f w → IsTurnIn b w x → IsTurnFor b x }
{}

/// So in a measured set the twig may be packed anew, whatever stays of the leaves is made of, and
/// no more cells stand then than might come before, and the blocks that come and what stays of the
/// leaves.
pub fn measured_turns_may_be_made()
    ensures can { (b : Body) (first : Key) (e : Edits) (t : Store Value) (r : TreeRoot) (x : Turn)
        (f : Fresh) (w : WorkingSet) (u : Budget)
        → MayTurnOut b first e t r x f w u → CanTurnOut b e t r x f w }
    ensures few { (b : Body) (first : Key) (e : Edits) (t : Store Value) (r : TreeRoot) (x : Turn)
        (s : Kept) (f : Fresh) (w : WorkingSet) (u : Budget)
        → MayTurnOut b first e t r x f w u → AreKept b x s
        → TurnAtMost (most_from u (root_of w r) (standing w) + come_at_most (turns_to b e x s))
        t r (turns_to b e x s) f w }
{}

/// It leaves a measured set, in which the leaves stand that stood and were not turned, and what
/// stays of those that were: so the edits of leaves may follow, with the numbers that are left. No
/// more cells may stand in the end than before, without the leaves, which went, and with the blocks
/// that came and what stays of the leaves.
pub fn turned_bodies_leave_leaves()
    ensures { (b : Body) (first : Key) (e : Edits) (t : Store Value) (r : TreeRoot) (x : Turn)
        (s : Kept) (f : Fresh) (w now : WorkingSet) (u : Budget)
        → MayTurnOut b first e t r x f w u → AreKept b x s
        → AreTurned t r (turns_to b e x s) f w now → LeavesLeaves b e u t r f w now x s }
{}

/// What a turned twig needs is told by what its leaves ask: where of its pointers just some at the
/// keys of the blocks that come go by that, it needs no more room than `pieces_after` tells without
/// them, and 46 bytes for the pointer to what stays of the last leaf, unless one is left at these
/// keys.
pub fn turned_twigs_need_what_is_asked()
    ensures { (b : Body) (first : Key) (e : Edits) (x : Turn) (s : Kept) (hs : List (Name × Ask))
        (more : ℕ) → IsTurningBody b first → IsTurnFor b x → AreKept b x s → OnlyTurnedGo b x hs
        → length (given_cells s.right) ≤ pointers_left b x hs + more
        → twig_bytes (told_pieces b e x s)
        ≤ twig_bytes (pieces_after (Some b) e (node_of x.twig) hs) + 46 * more }
{}

/// Nor does it need more room than `pieces_after` tells without the pointers to leaves that begin
/// among the blocks that come, since these go, and 46 bytes for the pointer to what stays of the
/// last leaf, if something does.
pub fn turned_twigs_need_no_pointers_there()
    ensures { (b : Body) (first : Key) (e : Edits) (x : Turn) (s : Kept)
        → IsTurningBody b first → IsTurnFor b x → AreKept b x s
        → twig_bytes (told_pieces b e x s)
        ≤ twig_bytes (without_turned b (pieces_after (Some b) e (node_of x.twig) []))
        + 46 * length (given_cells s.right) }
{}
