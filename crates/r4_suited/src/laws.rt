//! Laws of what the edits of commands are. Each is the contract of a function that does nothing.

ghost use Rattle.std.specs.Prelude.{◌≡◌, ℕ, ◌<◌, ◌≤◌, All, Bool, List, Option, None};
ghost use Rattle.std.specs.Option.{option_map};
ghost use Rattle.r4_base.specs.Cell.{cell_fault, cell_of};
ghost use Rattle.r4_base.specs.Key.{rank};
ghost use Rattle.r4_base.specs.Tree.{Node};
ghost use Rattle.r4_base.specs.Value.{Value};
ghost use Rattle.r4_leaf_edits.specs.r4_cell.Seen.{CellSeen, node_of};
ghost use Rattle.r4_leaf_edits.specs.r4_cell.declared.change.Root.{Root as RootPair};
ghost use Rattle.r4_content.specs.Edited.{Pairs};
ghost use Rattle.r4_content.specs.Fields.{HasBytePaths};
ghost use Rattle.r4_content.specs.Held.{interval_of};
ghost use Rattle.r4_content.specs.Seen.{Rises};
ghost use Rattle.r4_content.specs.declared.command.Command.{Command};
ghost use Rattle.r4_content.specs.declared.edits.Interval.{Interval};
ghost use Rattle.r4_leaf_edits.specs.r4_leaf.Leaves.{MayStand};
ghost use Rattle.r4_leaf_edits.specs.r4_leaf.Units.{leaf_bytes};
ghost use Rattle.r4_leaf_edits.specs.Made.{bytes_end, spread_keys};
ghost use Rattle.r4_leaf_edits.specs.Suiting.{SuitLeaves};
ghost use Rattle.r4_leaf_edits.specs.r4_reach.Answer.{IsReachOf};
ghost use Rattle.r4_leaf_edits.specs.r4_reach.Needs.{units_after};
ghost use Rattle.r4_leaf_edits.specs.r4_reach.Touched.{body_on, edits_on};
ghost use Rattle.r4_suited.specs.Suited.{AreLawfulSeen, IsAccepted, IsLawfulSeen, end_of_bytes};

/// The edits of a command, whose paths are of bytes, are such as leaves can take, where what was seen is lawful. So
/// they are for a leaf that is told all keys of a body that stands in extents afterwards.
pub fn plans_suit_leaves()
    ensures body { (c : Command) (s : Pairs) (in_extents : Bool)
        → HasBytePaths c → Rises s → AreLawfulSeen c s
        → SuitLeaves (end_of_bytes (body_on c s in_extents)) (edits_on c s) }
    ensures told { (c : Command) (s : Pairs) (in_extents : Bool) (spread : Option Interval)
        → HasBytePaths c → Rises s → AreLawfulSeen c s
        → option_map interval_of spread ≡ spread_keys (body_on c s in_extents)
        → SuitLeaves (bytes_end spread) (edits_on c s) }
{}

/// A leaf whose units took up no more than a leaf holds has so few bytes after a command that they can be parted. So it
/// is of each leaf that may stand.
pub fn leaves_stay_small()
    ensures units { (c : Command) (s : Pairs) (in_extents : Bool) (n : Node Value)
        → HasBytePaths c → Rises s → AreLawfulSeen c s → Rises n.units → leaf_bytes n.units ≤ 4068
        → leaf_bytes (units_after (body_on c s in_extents) (edits_on c s) n) < 58912 }
    ensures cell { (c : Command) (s : Pairs) (in_extents : Bool) (x : CellSeen)
        → HasBytePaths c → Rises s → AreLawfulSeen c s
        → x.level ≡ 1 → MayStand (rank x.lo) (rank x.hi) x.block → rank x.lo ≤ rank x.hi
        → leaf_bytes (units_after (body_on c s in_extents) (edits_on c s) (node_of x)) < 58912 }
{}

/// What was seen in cells that may stand is lawful: the units of each, and so what a command asks of the cells that
/// were met. Where all that was seen is lawful, what a command asks for is.
pub fn accepted_cells_are_lawful()
    ensures cell { (in_memory : Bool) (blocks level lo hi : ℕ) (b : List ℕ)
        → cell_fault in_memory blocks level lo hi b ≡ None
        → All IsLawfulSeen (cell_of level lo hi b).units }
    ensures reach { (root : RootPair) (c : Command) (met reads writes : List CellSeen)
        (rises : Option RootPair) (h : IsReachOf root c met reads writes rises)
        → All IsAccepted met → AreLawfulSeen c h.seen }
    ensures list { (c : Command) (s : Pairs) → All IsLawfulSeen s → AreLawfulSeen c s }
{}
