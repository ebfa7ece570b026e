//! What goes and comes below the cells of a change (docs/volume.md, "Edits").

ghost use Rattle.std.specs.Prelude.{map, IfOk};
ghost use Rattle.std.specs.Arc.{arc_value};
ghost use Rattle.r4_path.specs.Grafts.{HasBelow};

use crate::gathering::add;
use r4_base::Memory;
use r4_patch::{Cell, Cells, Change};
use std::sync::Arc;

/// The change with these old cells before its own, and these new cells before its own; the root is as in the change.
pub fn with_below(
    old: Vec<Arc<Cell>>,
    new: Vec<Arc<Cell>>,
    change: &Change,
) -> Result<Change, Memory>
    ensures { IfOk result (λ c.
        HasBelow (map (λ x. arc_value x) old.items) (map (λ x. arc_value x) new.items) change.now c) }
{
    let mut all_old = old;
    let mut all_new = new;
    add(&mut all_old, change.old.as_slice())?;
    add(&mut all_new, change.new.as_slice())?;
    Ok(Change {
        old: Cells::from_vec(all_old),
        new: Cells::from_vec(all_new),
        root: change.root,
    })
}
