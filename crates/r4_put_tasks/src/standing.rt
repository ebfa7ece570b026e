//! What is known of the twigs of a task (docs/volume.md, "Cells").

ghost use Rattle.std.specs.Prelude.{◌≡◌, map};
ghost use Rattle.std.specs.Arc.{arc_value};
ghost use Rattle.r4_turned_tasks.specs.r4_extent_put.r4_extent_growth.r4_measure.r4_path.Sharing.{IsSound};
ghost use Rattle.r4_put_tasks.specs.Put.{TwigsMayStand};

use r4_turned_tasks::Cell;
use std::sync::Arc;

/// Looks at each twig among some cells, so that it is known to stand as a cell may, with no fault at
/// its level and for its range. It does nothing else, and takes no memory (docs/volume.md,
/// "Cells").
pub fn look_at_twigs(cells: &[Arc<Cell>])
    ensures { TwigsMayStand (map (λ c. arc_value c) cells.now) }
{
    for cell in cells {
        look_at(cell);
    }
}

// Looks at a cell, if it is a twig.
fn look_at(cell: &Arc<Cell>)
    ensures { (arc_value cell.now).level ≡ 2 → IsSound (arc_value cell.now) }
{
    if cell.level() == 2 {
        // that it may stand is known of its node
        let _node = cell.node();
    }
}
