//! Laws of tables. They are contracts of functions that do nothing.

ghost use Rattle.std.specs.Prelude.{ℕ, ◌+◌, ◌*◌, ◌≤◌, Contains, List};
ghost use Rattle.r4_base.specs.Tree.{Root as TreeRoot, Store};
ghost use Rattle.r4_base.specs.Value.{Value};
ghost use Rattle.r4_base.specs.declared.things.NodeId.{NodeId};
ghost use Rattle.r4_extent_put.specs.r4_extent_change.r4_measure.r4_cell.Patch.{HaveNames};
ghost use Rattle.r4_extent_put.specs.r4_extent_change.r4_measure.r4_cell.Seen.{CellSeen};
ghost use Rattle.r4_extent_put.specs.r4_extent_change.r4_measure.r4_cell.declared.change.Fresh.{Fresh};
ghost use Rattle.r4_allowed.specs.Allowing.{AreTaskCells, BearsBy, IsAllowed, IsMeasure};
ghost use Rattle.r4_allowed.specs.Making.{AreTold, IsRaised, partings, told_of};
ghost use Rattle.r4_allowed.specs.Table.{budget_of};
ghost use Rattle.r4_allowed.specs.declared.table.Allowance.{Allowance};

/// A table that is allowed is a budget of each part of a tree of which these are cells: its cells
/// may be changed one after another, each with what may come in its place, and nothing comes below
/// twigs. A node is named once in a part, so a cell that is not among these names none of which
/// something comes (docs/volume.md, "What may still come").
pub fn allowed_tables_are_budgets()
    ensures { (t : Store Value) (r : TreeRoot) (f : Fresh) (cells : List CellSeen)
        (table : List Allowance) → AreTaskCells t r f cells → IsAllowed r cells table
        → IsMeasure t r cells table }
{}

/// A table that was made of what comes of twigs lets each cell above the twigs suffice for what
/// comes below it, where the cells have names of their own and stand no higher than it was made
/// (docs/volume.md, "What may still come").
pub fn made_tables_suffice()
    ensures { (top : ℕ) (cells : List CellSeen) (given : ℕ → ℕ) (table : List Allowance)
        → HaveNames cells → IsRaised top cells given (budget_of table) → (c : CellSeen)
        → Contains cells c → c.level ≤ top → BearsBy table c }
{}

/// Of a twig may come what was told of it: so many by a table that was made, where that many or more
/// are told, each time (docs/volume.md, "What may still come").
pub fn told_twigs_may_grow()
    ensures { (top : ℕ) (cells : List CellSeen) (twigs : List (NodeId × ℕ)) (table : List Allowance)
        → IsRaised top cells (told_of twigs) (budget_of table) → (i n : ℕ)
        → AreTold twigs i n → n ≤ budget_of table 2 i }
{}

/// A node is parted no more often than its bytes need, each parting giving room for 1024
/// (docs/volume.md, "What may still come").
pub fn partings_are_least()
    ensures enough { (bytes : ℕ) → bytes ≤ 4068 + 1024 * partings bytes }
    ensures least { (bytes n : ℕ) → bytes ≤ 4068 + 1024 * n → partings bytes ≤ n }
{}
