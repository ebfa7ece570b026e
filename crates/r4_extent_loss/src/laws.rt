//! Laws of twigs of a body in extents that loses blocks. Each is the contract of a function that does nothing.

ghost use Rattle.std.specs.Prelude.{ℕ, ◌≡◌, ◌+◌, ◌^◌, ◌<◌, ◌≤◌, [], List, Some, true};
ghost use Rattle.r4_base.specs.Tree.{Root as TreeRoot, Store};
ghost use Rattle.r4_base.specs.Value.{Value};
ghost use Rattle.r4_base.specs.declared.key.Key.{Key};
ghost use Rattle.r4_extent_build.specs.r4_cell.Seen.{CellSeen, node_of};
ghost use Rattle.r4_extent_build.specs.r4_cell.declared.change.Fresh.{Fresh};
ghost use Rattle.r4_content.specs.Edited.{Edits};
ghost use Rattle.r4_extent_build.specs.r4_measure.Budget.{Budget, most_from};
ghost use Rattle.r4_extent_build.specs.r4_path.Grafts.{extra_twigs};
ghost use Rattle.r4_extent_build.specs.r4_path.TwigPieces.{ArePiecesOf, twig_pieces};
ghost use Rattle.r4_extent_build.specs.r4_reach.Needs.{changes_pieces, pieces_after, put_among};
ghost use Rattle.r4_extent_build.specs.r4_reach.Touched.{Body};
ghost use Rattle.r4_extent_build.specs.r4_twig_turns.Turning.{IsReady, IsTurnOf, TurnAtMost, come_at_most};
ghost use Rattle.r4_extent_build.specs.r4_twig_work.Regrafting.{SetsBelow};
ghost use Rattle.r4_extent_build.specs.r4_work.Remaking.{Changes};
ghost use Rattle.r4_extent_build.specs.r4_work.Working.{IsWorking, root_of, standing};
ghost use Rattle.r4_extent_build.specs.r4_work.declared.working.WorkingSet.{WorkingSet};
ghost use Rattle.r4_extent_build.specs.Looping.{AreTurned};
ghost use Rattle.r4_extent_loss.specs.Losing.{IsLosing, IsLossOf, Loss, gone_from, gone_to, in_gone};
ghost use Rattle.r4_extent_loss.specs.Losing.{losing_turn, no_value};
ghost use Rattle.r4_extent_loss.specs.LosingEach.{CanLoseAll, IsLossIn, MayGo, StandsLoss};
ghost use Rattle.r4_extent_loss.specs.LosingEach.{gone_of_each, losing_turns};

/// A twig of which blocks of a body go has its turn among those that are packed anew: it gets the pieces that
/// `pieces_after` tells, with the number of a new leaf where one takes up the range of what goes. These may be packed,
/// and need no more than 16000 bytes; they name what the twig named, but for the blocks that go and the leaf left of
/// them, and that leaf as it goes on, under its number.
pub fn losing_twigs_have_their_turn()
    ensures { (b : Body) (first : Key) (e : Edits) (x : Loss) (next : ℕ)
        → IsLosing b first e → IsLossOf b x → 2 ^ 63 ≤ next
        → IsTurnOf (node_of x.twig) (losing_turn b e x) next }
{}

/// That turn takes all that stood at the keys of the blocks that go, padding included; at every other key stands what
/// stood there, so the last block that stays is as it was.
pub fn losing_turns_take_bytes()
    ensures { (b : Body) (first : Key) (e : Edits) (x : Loss) (next : ℕ)
        → IsLosing b first e → IsLossOf b x → 2 ^ 63 ≤ next
        → SetsBelow x.twig ((losing_turn b e x).pieces next) ((losing_turn b e x).beside next)
        (in_gone b x.twig) no_value }
{}

/// Once all twigs had their turns, nothing stands at the keys that go of any of them, and no other unit is changed.
pub fn turned_twigs_take_bytes()
    ensures { (b : Body) (e : Edits) (t : Store Value) (r : TreeRoot) (xs : List Loss) (f : Fresh)
        (w now : WorkingSet) → CanLoseAll b e t r xs f w
        → AreTurned t r (losing_turns b e xs) f w now
        → Changes w now (gone_of_each b xs) no_value }
{}

/// A standing twig of which blocks go is ready for its turn, where what goes of it stands and what comes beside it is
/// in the budget. So `each_twig_has_its_turn` of r4_twig_turns gives all of them their turns, and tells how many cells
/// stand then.
pub fn losing_twigs_are_ready()
    ensures { (t : Store Value) (r : TreeRoot) (f : Fresh) (w : WorkingSet) (u : Budget) (b : Body)
        (first : Key) (e : Edits) (x : Loss) → IsWorking t r f w → IsLosing b first e
        → IsLossOf b x → StandsLoss w x
        → extra_twigs (pieces_after (Some b) e (node_of x.twig) []) ≤ u 2 x.twig.id
        → IsReady t w u (losing_turn b e x) x.twig.id }
{}

/// Pieces change of a twig of which blocks go: so it is among those that reach tells to be written.
pub fn losing_twigs_change_their_pieces()
    ensures { (b : Body) (first : Key) (e : Edits) (x : Loss) → IsLosing b first e → IsLossOf b x
        → changes_pieces (Some b) e (node_of x.twig) ≡ true }
{}

/// And back: where no value comes among the extents of a twig, its pieces change only where keys of its range go. So
/// the twigs that lose blocks are just those of which reach tells that they turn.
pub fn only_losing_twigs_change_their_pieces()
    ensures { (b : Body) (first : Key) (e : Edits) (c : CellSeen) → IsLosing b first e
        → ArePiecesOf c (twig_pieces c) → put_among (Some b) e (node_of c) ≡ 0
        → changes_pieces (Some b) e (node_of c) ≡ true → gone_from b c < gone_to b c }
{}

/// Where blocks go of a standing twig of a part of a tree, and their keys lie in its extents, no leaf has one of them,
/// and what goes are nodes of the part, no two of one number: so what the laws above ask of the twig holds.
pub fn losses_of_parts()
    ensures { (t : Store Value) (r : TreeRoot) (f : Fresh) (w : WorkingSet) (b : Body) (x : Loss)
        → IsWorking t r f w → IsLossIn b w x → IsLossOf b x }
{}

/// So in a measured set all twigs of a body of which blocks go may be packed anew, one after the other, and no more cells
/// stand then than might come before, and the leaves that take up the range of what goes.
pub fn measured_losses_may_go()
    ensures can { (b : Body) (first : Key) (e : Edits) (t : Store Value) (r : TreeRoot)
        (xs : List Loss) (f : Fresh) (w : WorkingSet) (u : Budget)
        → MayGo b first e t r xs f w u → CanLoseAll b e t r xs f w }
    ensures few { (b : Body) (first : Key) (e : Edits) (t : Store Value) (r : TreeRoot)
        (xs : List Loss) (f : Fresh) (w : WorkingSet) (u : Budget)
        → MayGo b first e t r xs f w u
        → TurnAtMost (most_from u (root_of w r) (standing w) + come_at_most (losing_turns b e xs))
        t r (losing_turns b e xs) f w }
{}
