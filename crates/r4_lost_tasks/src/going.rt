//! Whether the twigs among the cells of a task have the blocks that go (docs/volume.md, "Bodies in
//! extents").

ghost use Rattle.std.specs.Prelude.{◌≡◌, ◌&&◌, ◌==◌, map, nat_le, true};
ghost use Rattle.std.specs.Arc.{arc_value};
ghost use Rattle.r4_base.specs.Key.{rank};
ghost use Rattle.r4_content.specs.Edited.{is_between};
ghost use Rattle.r4_task_moves.specs.r4_extent_shrink.r4_extent_demands.Sizes.{IsSizedBody};
ghost use Rattle.r4_lost_tasks.specs.Going.{have_blocks};

use r4_base::Key;
use r4_task_moves::{Cell, SizedBody};
use std::sync::Arc;

/// Whether the twigs among some cells have the keys of all blocks of a body in extents that go, one
/// behind the other in the cells' order. It takes no memory (docs/volume.md, "Bodies in extents").
pub fn blocks_have_twigs(body: &SizedBody, cells: &[Arc<Cell>]) -> bool
    requires sized { IsSizedBody body.now }
    requires in_extents { body.now.in_extents ≡ true }
    ensures { result ≡ have_blocks body.now (map (λ c. arc_value c) cells.now) }
{
    let going = body.going();
    let mut at = going.from;
    for cell in cells {
        if has_twig_key(cell, &at) {
            at = cell.hi();
        }
    }
    !at.is_below(going.to)
}

// Whether a cell is a twig with a key.
fn has_twig_key(cell: &Cell, key: &Key) -> bool
    ensures { result ≡ ((cell.now.level == 2)
        && is_between (rank cell.now.lo) (rank cell.now.hi) (rank key.now)) }
{
    cell.level() == 2 && (!key.is_below(cell.lo()) && key.is_below(cell.hi()))
}
