//! Laws of the cells that were met for a change. Each is the contract of a function that does nothing.

ghost use Rattle.r4_base.specs.Tree.{Root, Store};
ghost use Rattle.r4_base.specs.Value.{Value};
ghost use Rattle.r4_marking.specs.r4_patch.Part.{IsPart};
ghost use Rattle.r4_marking.specs.r4_reach.Demand.{Demand};
ghost use Rattle.r4_marking.specs.r4_reach.Reach.{HasTouched};
ghost use Rattle.r4_extent_touching.specs.Holding.{HoldsTouched};

/// Where a part of a tree has a cell for each key that is touched which holds it, and beside each twig that turns the
/// leaves, it has all that is touched: each leaf, each twig with an extent and each block.
pub fn held_cells_are_touched<A>()
    ensures { (d : Demand A) (t : Store Value) (root : Root) → IsPart t root → HoldsTouched d t
        → HasTouched d t }
{}
