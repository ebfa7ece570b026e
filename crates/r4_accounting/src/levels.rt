//! The levels of cells.

ghost use Rattle.std.specs.Prelude.{◌≤◌, Contains};
ghost use Rattle.r4_done.specs.r4_buffer.Seen.{cells_of};
ghost use Rattle.r4_cell.specs.Seen.{CellSeen};

use r4_cell::Cell;
use std::sync::Arc;

/// What holds of all cells: none is of more than eight levels. It does nothing.
pub fn levels_law(cells: &[Arc<Cell>])
    ensures { (x : CellSeen) → Contains (cells_of cells.now) x → x.level ≤ 8 }
{
    for cell in cells {
        level_law(cell);
    }
}

// A node has its level, which is eight at most.
fn level_law(cell: &Cell)
    ensures { cell.now.level ≤ 8 }
{
    if cell.level() > 0 {
        let _ = cell.node();
    }
}
