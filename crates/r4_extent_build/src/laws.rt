//! Laws of twigs of a body in extents. Each is the contract of a function that does nothing.

ghost use Rattle.std.specs.Prelude.{◌≡◌, ℕ, ◌^◌, ◌≤◌, [], Bool, List, Contains, Some, length};
ghost use Rattle.r4_base.specs.Tree.{Root as TreeRoot, Store};
ghost use Rattle.r4_base.specs.Value.{Value};
ghost use Rattle.r4_base.specs.declared.key.Key.{Key};
ghost use Rattle.r4_extent_demands.specs.r4_cell.Seen.{CellSeen, node_of};
ghost use Rattle.r4_extent_demands.specs.r4_cell.declared.change.Fresh.{Fresh};
ghost use Rattle.r4_content.specs.Edited.{Edits};
ghost use Rattle.r4_extent_demands.specs.r4_branch.Pieces.{twig_bytes};
ghost use Rattle.r4_twig_turns.specs.r4_measure.Budget.{Budget};
ghost use Rattle.r4_extent_demands.specs.r4_path.Grafts.{extra_twigs};
ghost use Rattle.r4_extent_demands.specs.r4_reach.Needs.{pieces_after};
ghost use Rattle.r4_extent_demands.specs.r4_reach.Touched.{Body};
ghost use Rattle.r4_twig_turns.specs.Turning.{IsReady, IsTurnOf, TurnAtMost, TwigTurn};
ghost use Rattle.r4_twig_turns.specs.r4_twig_work.Regrafting.{SetsBelow};
ghost use Rattle.r4_twig_turns.specs.r4_work.Remaking.{Changes};
ghost use Rattle.r4_twig_turns.specs.r4_work.Working.{IsWorking, standing};
ghost use Rattle.r4_twig_turns.specs.r4_work.declared.working.WorkingSet.{WorkingSet};
ghost use Rattle.r4_extent_build.specs.Growing.{IsClearFor, IsGrowing, MayBePacked};
ghost use Rattle.r4_extent_build.specs.Looping.{AreKeysOfEach, AreTurned, CanTurnAll};
ghost use Rattle.r4_extent_build.specs.Looping.{behind_all, keys_of_each, turns_of};
ghost use Rattle.r4_extent_build.specs.Setting.{AreKeysOf, bytes_after};
ghost use Rattle.r4_extent_build.specs.Turns.{growing_turn};

/// Where a body in extents grows, or gets bytes into its holes, and nothing stands where its blocks come, the pieces that
/// `pieces_after` tells of a twig may be packed, with any numbers for the blocks that come: they name what the twig
/// named, and these blocks, and need the room that was told.
pub fn pieces_of_growing_bodies_may_be_packed()
    ensures { (b : Body) (first : Key) (e : Edits) (twig : CellSeen) (next : ℕ)
        → IsGrowing b first → IsClearFor b twig → 2 ^ 63 ≤ next
        → MayBePacked twig next (pieces_after (Some b) e (node_of twig) []) }
{}

/// So a twig of such a body has its turn among those that are packed anew: nothing goes below it, and just the data
/// blocks come that get bytes, where its pieces need no more than 16000 bytes.
pub fn growing_twigs_have_their_turn()
    ensures { (b : Body) (first : Key) (e : Edits) (twig : CellSeen) (next : ℕ)
        → IsGrowing b first → IsClearFor b twig
        → twig_bytes (pieces_after (Some b) e (node_of twig) []) ≤ 16000 → 2 ^ 63 ≤ next
        → IsTurnOf (node_of twig) (growing_turn b e twig) next }
{}

/// That turn sets the bytes of the body that the edits set: at the keys of its holes and of the blocks that come stands
/// the byte that is set there, or a zero, padding included; at every other key stands what stood there.
pub fn growing_turns_set_bytes()
    ensures { (b : Body) (first : Key) (e : Edits) (twig : CellSeen) (at : ℕ → Bool) (next : ℕ)
        → IsGrowing b first → IsClearFor b twig → AreKeysOf b e twig at → 1 ≤ next
        → SetsBelow twig ((growing_turn b e twig).pieces next)
        ((growing_turn b e twig).beside next) at (bytes_after e) }
{}

/// Once all twigs had their turns, the bytes of all of them are set, and no other unit is changed.
pub fn turned_twigs_set_bytes()
    ensures { (b : Body) (first : Key) (e : Edits) (t : Store Value) (r : TreeRoot)
        (twigs : List CellSeen) (f : Fresh) (w now : WorkingSet) (at : CellSeen → ℕ → Bool)
        → IsGrowing b first → AreKeysOfEach b e twigs at → CanTurnAll b e t r twigs f w
        → AreTurned t r (turns_of b e twigs) f w now
        → Changes w now (keys_of_each at twigs) (bytes_after e) }
{}

/// The set is one of the same part of the tree then, for the numbers that are left, and as many cells stand as was told
/// at most.
pub fn turned_twigs_leave_a_set()
    ensures { (most : ℕ) (t : Store Value) (r : TreeRoot) (es : List TwigTurn) (f : Fresh)
        (w now : WorkingSet) → TurnAtMost most t r es f w → AreTurned t r es f w now
        → IsWorking t r (behind_all es f) now × (length (standing now) ≤ most) }
{}

/// A standing twig of such a body is ready for its turn, where what comes beside it is in the budget. So
/// `each_twig_has_its_turn` of r4_twig_turns gives several of them their turns, and tells how many cells stand then.
pub fn growing_twigs_are_ready()
    ensures { (t : Store Value) (r : TreeRoot) (f : Fresh) (w : WorkingSet) (u : Budget) (b : Body)
        (first : Key) (e : Edits) (twig : CellSeen) → IsWorking t r f w → IsGrowing b first
        → IsClearFor b twig → twig.level ≡ 2 → Contains (standing w) twig
        → twig_bytes (pieces_after (Some b) e (node_of twig) []) ≤ 16000
        → extra_twigs (pieces_after (Some b) e (node_of twig) []) ≤ u 2 twig.id
        → IsReady t w u (growing_turn b e twig) twig.id }
{}
