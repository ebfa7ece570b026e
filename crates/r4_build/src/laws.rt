//! Laws of what is built. Each is the contract of a function that does nothing.

ghost use Rattle.std.specs.Prelude.{◌≡◌, ℕ, true, List, Option};
ghost use Rattle.std.specs.Arc.{arc_value};
ghost use Rattle.r4_base.specs.Tree.{Root, Store};
ghost use Rattle.r4_base.specs.Value.{Content, Value};
ghost use Rattle.r4_base.specs.Volume.{HasUnits};
ghost use Rattle.r4_measure.specs.r4_cell.Patch.{Patch, place};
ghost use Rattle.r4_measure.specs.r4_cell.Seen.{CellSeen};
ghost use Rattle.r4_measure.specs.r4_cell.declared.change.Fresh.{Fresh};
ghost use Rattle.r4_content.specs.Counts.{born, gone};
ghost use Rattle.r4_content.specs.Edited.{Edits, Intervals, changed, edited, is_in};
ghost use Rattle.r4_content.specs.Held.{pairs_of};
ghost use Rattle.r4_content.specs.Meaning.{after, greatest_size, reply};
ghost use Rattle.r4_content.specs.Seen.{IsSeen};
ghost use Rattle.r4_measure.specs.r4_patch.Effect.{Affects};
ghost use Rattle.r4_measure.specs.r4_patch.Joining.{patch_of_change};
ghost use Rattle.r4_measure.specs.r4_patch.Part.{IsPart, MeetsPart};
ghost use Rattle.r4_measure.specs.r4_reach.Needs.{demand_of};
ghost use Rattle.r4_measure.specs.r4_reach.Reach.{HasTouched};
ghost use Rattle.r4_measure.specs.r4_reach.Touched.{Body};
ghost use Rattle.r4_measure.specs.r4_work.Working.{AreCellsIn, IsStart};
ghost use Rattle.r4_measure.specs.r4_work.declared.working.WorkingSet.{WorkingSet};
ghost use Rattle.r4_measure.specs.Begin.{IsReachedFor};
ghost use Rattle.r4_build.specs.Building.{CanBuild, HaveLawfulKeys, LiesInLeaf, SparesExtents};
ghost use Rattle.r4_build.specs.Building.{most_new, set_by};
ghost use Rattle.r4_build.specs.Built.{BuiltSeen, HasOldRoot, IsBuilt, IsPlain};
ghost use Rattle.r4_build.specs.Making.{CanMake, MakeAtMost};

/// A change that sets what edits set, and nothing else, makes of a tree's content what the edits make of it: in every
/// part of a tree that it is put into, whatever else stands there.
pub fn edits_are_made()
    ensures { (p : Patch Value) (t : Store Value) (root : Root) (e : Edits) (m : Content)
        → Affects p t root (is_in (changed e)) (set_by e) → HasUnits t m
        → HasUnits (place p t) (edited e m) }
{}

/// Where what is reached is there, the edits of the leaves may be made, one leaf after another. Then no more cells
/// stand than one in the place of each, those for which the cells ask, and a new root.
pub fn reach_suffices_to_build()
    ensures can { (b : Option Body) (e : Edits) (reads : Intervals) (t : Store Value) (r : Root)
        (f : Fresh) (cells : List CellSeen) (w : WorkingSet)
        → CanBuild b e reads t r f cells → IsStart cells w → CanMake t r e cells f w }
    ensures few { (b : Option Body) (e : Edits) (reads : Intervals) (t : Store Value) (r : Root)
        (f : Fresh) (cells : List CellSeen) (w : WorkingSet)
        → CanBuild b e reads t r f cells → IsStart cells w
        → MakeAtMost (most_new b e reads t r cells) t r e cells f w }
{}

/// Where the edits touch no extent, in a part that has what they touch and cells that have what they write, each key
/// that changes lies in a leaf among the cells.
pub fn spared_extents_leave_leaves()
    ensures { (b : Option Body) (e : Edits) (reads : Intervals) (t : Store Value) (r : Root)
        (f : Fresh) (cells : List CellSeen) (k : ℕ)
        → IsReachedFor b e reads (changed e) t r f cells
        → HasTouched (demand_of b e reads (changed e)) t → SparesExtents e t → HaveLawfulKeys e
        → is_in (changed e) k ≡ true → LiesInLeaf cells k }
{}

/// What was built of a task fits on each part of a tree that has the cells which the task writes, and where its numbers
/// are free: also with changes of others in place, or without them.
pub fn built_changes_fit()
    ensures { (x : BuiltSeen) (t : Store Value) (r : Root) → IsBuilt x
        → AreCellsIn t r x.task.fresh x.task.writes → HasOldRoot x r
        → MeetsPart (patch_of_change x.change) t r }
{}

/// What was built of a task in leaves makes of each part of a tree that it fits on what the command means. The reply is
/// the command's, as are the objects that come and go, wherever it was built. So it is where what was seen is what stands
/// there at the keys that the command asks for.
pub fn what_is_built_is_meant()
    ensures content { (x : BuiltSeen) (t : Store Value) (root : Root) (m : Content) → IsPlain x.task (patch_of_change x.change)
        → IsPart t root → MeetsPart (patch_of_change x.change) t root → HasUnits t m
        → IsSeen greatest_size x.task.command (pairs_of (arc_value x.task.seen)) m
        → HasUnits (place (patch_of_change x.change) t) (after greatest_size x.task.command m) }
    ensures reply { (x : BuiltSeen) (m : Content) → IsBuilt x
        → IsSeen greatest_size x.task.command (pairs_of (arc_value x.task.seen)) m
        → x.reply ≡ reply greatest_size x.task.command m }
    ensures born { (x : BuiltSeen) (m : Content) → IsBuilt x
        → IsSeen greatest_size x.task.command (pairs_of (arc_value x.task.seen)) m
        → x.objects.born ≡ born greatest_size x.task.command m }
    ensures gone { (x : BuiltSeen) (m : Content) → IsBuilt x
        → IsSeen greatest_size x.task.command (pairs_of (arc_value x.task.seen)) m
        → x.objects.gone ≡ gone greatest_size x.task.command m }
{}
