//! Laws of twigs that have their turns. Each is the contract of a function that does nothing.

ghost use Rattle.std.specs.Prelude.{◌≡◌, ◌↔◌, ℕ, Contains, List, true};
ghost use Rattle.r4_base.specs.Tree.{Root as TreeRoot, Store};
ghost use Rattle.r4_base.specs.Value.{Value};
ghost use Rattle.r4_base.specs.declared.key.Key.{Key};
ghost use Rattle.r4_content.specs.Edited.{Edits};
ghost use Rattle.r4_extent_loss.specs.r4_extent_build.Growing.{IsGrowing};
ghost use Rattle.r4_extent_loss.specs.r4_extent_build.Looping.{AreTurned, turns_of};
ghost use Rattle.r4_extent_loss.specs.Losing.{Loss};
ghost use Rattle.r4_extent_loss.specs.LosingEach.{IsLossIn, MayGo, losing_turns};
ghost use Rattle.r4_build.specs.r4_measure.Budget.{Budget};
ghost use Rattle.r4_build.specs.r4_measure.r4_cell.Patch.{HaveNames};
ghost use Rattle.r4_build.specs.r4_measure.r4_cell.Seen.{CellSeen};
ghost use Rattle.r4_build.specs.r4_measure.r4_cell.declared.change.Fresh.{Fresh};
ghost use Rattle.r4_build.specs.r4_measure.r4_path.Sharing.{IsSound};
ghost use Rattle.r4_build.specs.r4_measure.r4_reach.Touched.{Body};
ghost use Rattle.r4_build.specs.r4_measure.r4_work.Working.{IsWorking, standing};
ghost use Rattle.r4_build.specs.r4_measure.r4_work.declared.working.WorkingSet.{WorkingSet};
ghost use Rattle.r4_extent_change.specs.Among.{GoesAt, gone_among, loss_among, losing_twigs};
ghost use Rattle.r4_extent_change.specs.Losing.{HasLoss, LeavesWider};
ghost use Rattle.r4_extent_change.specs.Turned.{LeavesLeaves, MayTurnAll};

/// Twigs of a growing body that had their turns leave a measured set, in which the leaves stand
/// that stood: so the edits of leaves may follow, with the numbers that are left. No more cells may
/// stand in the end than before, and the blocks that came.
pub fn turned_twigs_leave_leaves()
    ensures { (b : Body) (first : Key) (e : Edits) (u : Budget) (t : Store Value) (r : TreeRoot)
        (f : Fresh) (w now : WorkingSet) (twigs : List CellSeen) → IsGrowing b first
        → MayTurnAll b e u t r f w twigs → AreTurned t r (turns_of b e twigs) f w now
        → LeavesLeaves b e u t r f w now twigs }
{}

/// What `losing_among` tells of a twig is what goes of it in the part of a tree in which the task's
/// cells stand, no two of one number, where the keys that go lie in its extents, begin and end at
/// borders of blocks, and begin in a piece of it, and where what it names there is among the cells.
pub fn losses_among_cells()
    ensures { (t : Store Value) (r : TreeRoot) (f : Fresh) (w : WorkingSet) (b : Body)
        (cells : List CellSeen) (c : CellSeen) → IsWorking t r f w → HaveNames cells
        → ((d : CellSeen) → Contains cells d → Contains (standing w) d)
        → ((d : CellSeen) → Contains cells d → d.level ≡ 1 → IsSound d)
        → Contains (losing_twigs b cells) c → HasLoss b cells c
        → IsLossIn b w (loss_among b cells c) }
{}

/// Twigs of a body that loses blocks that had their turns leave a measured set, in which the leaves
/// stand that stood, or go on with a wider range under their numbers: so the edits of leaves may
/// follow, with the numbers that are left. No more cells may stand in the end than before, and the
/// leaves that came where nothing left of what goes took it up.
pub fn turned_losses_leave_leaves()
    ensures { (b : Body) (first : Key) (e : Edits) (u : Budget) (t : Store Value) (r : TreeRoot)
        (f : Fresh) (w now : WorkingSet) (xs : List Loss) → MayGo b first e t r xs f w u
        → AreTurned t r (losing_turns b e xs) f w now → LeavesWider b e u t r f w now xs }
{}

/// The keys that go of all twigs among some cells are those of the body's blocks that go, padding
/// included, as far as they lie in the ranges of these twigs.
pub fn keys_of_blocks_go()
    ensures { (b : Body) (cells : List CellSeen) (k : ℕ)
        → (gone_among b cells k ≡ true) ↔ GoesAt b cells k }
{}
