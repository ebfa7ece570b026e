//! Laws of commands that touch no extent. Each is the contract of a function that does nothing.

ghost use Rattle.std.specs.Prelude.{◌≡◌, ℕ, ◌<◌, ◌≤◌, Bool, IsSome, List, None, Option};
ghost use Rattle.r4_base.specs.Tree.{Root, Store};
ghost use Rattle.r4_base.specs.Value.{Content, Value};
ghost use Rattle.r4_base.specs.Volume.{HasIds, HasUnits};
ghost use Rattle.r4_base.specs.declared.superblock.Super40.{Super40};
ghost use Rattle.r4_search.specs.r4_cell.Patch.{by_name, root_of_pair};
ghost use Rattle.r4_search.specs.r4_cell.Seen.{CellSeen};
ghost use Rattle.r4_search.specs.r4_cell.declared.change.Fresh.{Fresh};
ghost use Rattle.r4_search.specs.r4_cell.declared.change.Root.{Root as RootPair};
ghost use Rattle.r4_content.specs.Edited.{Edits, Intervals, Pairs, changed, is_in};
ghost use Rattle.r4_content.specs.Fields.{HasBytePaths};
ghost use Rattle.r4_content.specs.Lawful.{IsLawful};
ghost use Rattle.r4_content.specs.Meaning.{greatest_size};
ghost use Rattle.r4_content.specs.Seen.{IsSeen};
ghost use Rattle.r4_content.specs.declared.command.Command.{Command};
ghost use Rattle.r4_build.specs.r4_leaf_edits.Made.{spread_keys};
ghost use Rattle.r4_build.specs.r4_patch.Part.{IsPart};
ghost use Rattle.r4_build.specs.r4_reach.Answer.{IsReachOf};
ghost use Rattle.r4_build.specs.r4_reach.Leaves.{LieInLeaves};
ghost use Rattle.r4_build.specs.r4_reach.Needs.{demand_of, demand_on};
ghost use Rattle.r4_build.specs.r4_reach.Touched.{Body, body_on, edits_on, reads_on};
ghost use Rattle.r4_suited.specs.Suited.{AreLawfulSeen};
ghost use Rattle.r4_build.specs.r4_measure.Asked.{asked_of};
ghost use Rattle.r4_build.specs.r4_measure.Begin.{IsQuiet};
ghost use Rattle.r4_build.specs.Building.{CanBuild, HaveLawfulKeys};
ghost use Rattle.r4_spared.specs.Spared.{AreAccepted, AreObjectsSeen, ChangesLeaves, HasTask};
ghost use Rattle.r4_spared.specs.Spared.{HasGoodObjects, IsAskedInLeaves, MayRise};
ghost use Rattle.r4_spared.specs.Spared.{HasNumbers, MayStandAll, Spares};

/// Where all keys that edits change lie in leaves, and no body stands in extents afterwards, no
/// extent is touched: no blocks come or go, and no twig's pieces change. So it is of each command;
/// what it asks of the tree is then what its edits ask.
pub fn keys_in_leaves_spare_extents()
    ensures edits { (t : Store Value) (root : Root) (b : Option Body) (e : Edits)
        → IsPart t root → AreAccepted t → spread_keys b ≡ None → LieInLeaves t (is_in (changed e))
        → Spares b e t }
    ensures command { (c : Command) (s : Pairs) (in_extents : Bool) (t : Store Value) (root : Root)
        → IsPart t root → AreAccepted t → spread_keys (body_on c s in_extents) ≡ None
        → LieInLeaves t (is_in (changed (edits_on c s)))
        → Spares (body_on c s in_extents) (edits_on c s) t × IsAskedInLeaves c s in_extents }
{}

/// No cell is asked for more than 26 pointers by a command whose keys lie in leaves. So the command
/// is quiet, where the root asks for something only below level 8.
pub fn asks_stay_small()
    ensures small { (c : Command) (s : Pairs) (in_extents : Bool) (reads rs : Intervals)
        (t : Store Value) (root : Root) (l i : ℕ) → ChangesLeaves c s in_extents t root
        → asked_of (demand_of (body_on c s in_extents) (edits_on c s) reads rs) t l i ≤ 26 }
    ensures command { (c : Command) (s : Pairs) (in_extents : Bool) (t : Store Value) (root : Root)
        (l i : ℕ) → ChangesLeaves c s in_extents t root
        → asked_of (demand_on c s in_extents) t l i ≤ 26 }
    ensures quiet { (c : Command) (s : Pairs) (in_extents : Bool) (reads rs : Intervals)
        (t : Store Value) (root : Root) → ChangesLeaves c s in_extents t root
        → MayRise (demand_of (body_on c s in_extents) (edits_on c s) reads rs) t root
        → IsQuiet (body_on c s in_extents) (edits_on c s) reads rs t root }
{}

/// The keys that a command changes are such as items may have, where the objects that it found have
/// ids from 42 on, keys from the least one on, and sizes of 64 bits.
pub fn commands_change_lawful_keys()
    ensures { (c : Command) (s : Pairs) → HasBytePaths c → AreLawfulSeen c s → AreObjectsSeen c s
        → HaveLawfulKeys (edits_on c s) }
{}

/// So are the objects that a command finds in a part of a tree, where those of its content are; and
/// those of a volume's content are.
pub fn objects_are_found_good()
    ensures seen { (c : Command) (s : Pairs) (m : Content) (t : Store Value) (root : Root)
        → IsSeen greatest_size c s m → IsPart t root → HasUnits t m → HasGoodObjects m
        → AreObjectsSeen c s }
    ensures volume { (super : Super40) (m : Content) → IsLawful greatest_size m → HasIds super m
        → HasGoodObjects m }
{}

/// A command whose keys lie in leaves can be built of a task that has the cells which it writes.
pub fn commands_can_be_built()
    ensures { (c : Command) (s : Pairs) (in_extents : Bool) (t : Store Value) (root : Root)
        (f : Fresh) (cells : List CellSeen) → ChangesLeaves c s in_extents t root
        → HaveLawfulKeys (edits_on c s) → HasTask (demand_on c s in_extents) t root f cells
        → CanBuild (body_on c s in_extents) (edits_on c s) (reads_on c s in_extents) t root f
        cells }
{}

/// So it can be built of the cells that an answer has as written, where those that were met may
/// stand, and hold all keys that it changes in leaves.
pub fn answers_can_be_built()
    ensures changes { (root : RootPair) (c : Command) (met reads writes : List CellSeen)
        (rises : Option RootPair) (h : IsReachOf root c met reads writes rises)
        → MayStandAll met → HasBytePaths c
        → spread_keys (body_on c h.seen h.in_extents) ≡ None
        → LieInLeaves (by_name met) (is_in (changed (edits_on c h.seen)))
        → ChangesLeaves c h.seen h.in_extents (by_name met) (root_of_pair root) }
    ensures builds { (root : RootPair) (c : Command) (met reads writes : List CellSeen)
        (rises : Option RootPair) (h : IsReachOf root c met reads writes rises) (f : Fresh)
        → MayStandAll met → HasBytePaths c
        → spread_keys (body_on c h.seen h.in_extents) ≡ None
        → LieInLeaves (by_name met) (is_in (changed (edits_on c h.seen)))
        → HaveLawfulKeys (edits_on c h.seen) → (root_of_pair root).height ≤ 8
        → (IsSome rises → (root_of_pair root).height < 8)
        → HasNumbers (by_name met) (root_of_pair root) f writes
        → CanBuild (body_on c h.seen h.in_extents) (edits_on c h.seen)
        (reads_on c h.seen h.in_extents) (by_name met) (root_of_pair root) f writes }
{}
