//! Laws of working sets. Each is the contract of a function that does nothing.

ghost use Rattle.std.specs.Prelude.{◌≡◌, ◌+◌, ◌≤◌, ℕ, Contains, None, Some};
ghost use Rattle.r4_base.specs.Tree.{Root, Store};
ghost use Rattle.r4_base.specs.Value.{Value};
ghost use Rattle.r4_edit.specs.r4_cell.Seen.{CellSeen, node_of};
ghost use Rattle.r4_edit.specs.r4_cell.declared.change.Fresh.{Fresh};
ghost use Rattle.r4_edit.specs.r4_patch.Part.{IsPart};
ghost use Rattle.r4_edit.specs.r4_path.Steps.{Ascends, name_of};
ghost use Rattle.r4_work.specs.Order.{AreRangesApart, HasKey};
ghost use Rattle.r4_work.specs.Working.{IsWorking, now_of, path_of, standing};
ghost use Rattle.r4_work.specs.declared.working.WorkingSet.{WorkingSet};

/// Of two cells of a part of a tree, one a level above the other, that have a key in common the upper one names the
/// lower. So the cells that have a key, one level after another, are a path of what stands.
pub fn paths_ascend()
    ensures named { (s : Store Value) (r : Root) (b c : CellSeen) (k : ℕ) → IsPart s r
        → s b.id ≡ Some (node_of b) → s c.id ≡ Some (node_of c) → 1 ≤ b.level
        → c.level ≡ b.level + 1 → HasKey b k → HasKey c k → Contains (node_of c).names (name_of b) }
    ensures ascends { (t : Store Value) (r : Root) (f : Fresh) (w : WorkingSet) (k : ℕ)
        → IsWorking t r f w → Ascends (now_of w t) None (path_of w k) }
{}

/// The standing cells are cells of the part with the change in place, and no two of one level have a key in common
/// unless they have one range.
pub fn standing_cells_are_apart()
    ensures stand { (t : Store Value) (r : Root) (f : Fresh) (w : WorkingSet) (c : CellSeen)
        → IsWorking t r f w → Contains (standing w) c → now_of w t c.id ≡ Some (node_of c) }
    ensures apart { (t : Store Value) (r : Root) (f : Fresh) (w : WorkingSet) → IsWorking t r f w
        → AreRangesApart (standing w) }
{}
