//! Laws of the demands of leaves. Each is the contract of a function that does nothing.

ghost use Rattle.std.specs.Prelude.{◌≡◌, ◌≤◌, length, Bool, Contains, List, Option};
ghost use Rattle.r4_base.specs.Node.{items_of};
ghost use Rattle.r4_base.specs.Tree.{Root};
ghost use Rattle.r4_cell.specs.Patch.{HaveNames, by_name};
ghost use Rattle.r4_cell.specs.Seen.{CellSeen, node_of};
ghost use Rattle.r4_content.specs.Edited.{Edits, Intervals, Pairs, changed};
ghost use Rattle.r4_content.specs.Fields.{HasBytePaths};
ghost use Rattle.r4_content.specs.Seen.{Rises};
ghost use Rattle.r4_content.specs.declared.command.Command.{Command};
ghost use Rattle.r4_leaf_demands.specs.Leaves.{AreLeafEdits, AreOfLeaves, IsInLeaves, leaf_demand};
ghost use Rattle.r4_marking.specs.Marks.{AreMarks};
ghost use Rattle.r4_marking.specs.r4_path.Nodes.{weight};
ghost use Rattle.r4_marking.specs.r4_reach.Demand.{ask};
ghost use Rattle.r4_marking.specs.r4_reach.Needs.{Ask, demand_of};
ghost use Rattle.r4_marking.specs.r4_reach.Touched.{Body, body_on, changes_on, edits_on};
ghost use Rattle.r4_marking.specs.r4_search.Pool.{StandsInMemory};
ghost use Rattle.r4_suited.specs.Suited.{AreLawfulSeen};

/// Where a command's edits are of leaves alone, what it reads and writes of the cells that were met
/// is what the demand of leaves tells, and each of these cells asks for the same. What a node has
/// fits into it where it may stand (docs/volume.md, "Reach").
pub fn edits_of_leaves_are_enough()
    ensures marks { (b : Option Body) (e : Edits) (reads : Intervals) (met : List CellSeen)
        (root : Root) (rs ws : List CellSeen) (rises : Option Ask)
        → AreOfLeaves b e met root → AreMarks (leaf_demand e reads) met root rs ws rises
        → AreMarks (demand_of b e reads (changed e)) met root rs ws rises }
    ensures asks { (b : Option Body) (e : Edits) (reads : Intervals) (met : List CellSeen)
        (root : Root) (c : CellSeen) → AreOfLeaves b e met root → HaveNames met → Contains met c
        → ask (leaf_demand e reads) (by_name met) c.level (node_of c)
        ≡ ask (demand_of b e reads (changed e)) (by_name met) c.level (node_of c) }
    ensures fits { (c : CellSeen) → 1 ≤ c.level → length c.block ≡ 4096 → StandsInMemory c
        → weight (items_of c.block) ≤ 4068 }
{}

/// The edits of a command, whose paths are of bytes, may be asked for where what was seen is lawful and no body stands
/// in extents afterwards; and then just the keys of its edits count as changed (docs/volume.md, "Reach").
pub fn commands_of_leaves_may_ask()
    ensures edits { (c : Command) (s : Pairs) (in_extents : Bool)
        → HasBytePaths c → Rises s → AreLawfulSeen c s → IsInLeaves (body_on c s in_extents)
        → AreLeafEdits (edits_on c s) }
    ensures keys { (c : Command) (s : Pairs) (in_extents : Bool)
        → IsInLeaves (body_on c s in_extents)
        → changes_on c s in_extents ≡ changed (edits_on c s) }
{}
