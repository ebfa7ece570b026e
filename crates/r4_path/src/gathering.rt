//! The levels of a change as one change (docs/volume.md, "Edits").

ghost use Rattle.std.specs.Prelude.{◌≡◌, ◌++◌, map, option_map, None, IfOk, OnOk};
ghost use Rattle.std.specs.Arc.{arc_value};
ghost use Rattle.r4_path.specs.Levels.{HasLevels, step_of};
ghost use Rattle.r4_path.specs.Steps.{news, olds};

use crate::level::Level;
use r4_base::Memory;
use r4_patch::{Cell, Cells, Change, Root};
use std::alloc::Global;
use std::sync::Arc;

/// The change that has these levels, the lowest first, and a new root where there is one.
pub fn gather(alloc: Global, levels: &[Level], over: Option<Arc<Cell>>) -> Result<Change, Memory>
    ensures { IfOk result (λ c. HasLevels (map step_of levels.now) (option_map (λ x. arc_value x) over) c) }
{
    let old = Cells::from_vec(old_cells(alloc, levels)?);
    let mut new = new_cells(alloc, levels)?;
    let Some(cell) = over else {
        return Ok(Change {
            old,
            new: Cells::from_vec(new),
            root: None,
        });
    };
    let root = Root {
        id: cell.id(),
        height: cell.level(),
    };
    new.push(cell)?;
    Ok(Change {
        old,
        new: Cells::from_vec(new),
        root: Some(root),
    })
}

/// The old cells of the levels.
fn old_cells(alloc: Global, levels: &[Level]) -> Result<Vec<Arc<Cell>>, Memory>
    ensures { IfOk result (λ v. map (λ x. arc_value x) v.items ≡ olds (map step_of levels.now)) }
{
    let mut cells = Vec::with_capacity(alloc, levels.len())?;
    for level in levels {
        cells.push(Arc::try_clone(&level.old)?)?;
    }
    Ok(cells)
}

/// The new cells of the levels.
fn new_cells(alloc: Global, levels: &[Level]) -> Result<Vec<Arc<Cell>>, Memory>
    ensures { IfOk result (λ v. map (λ x. arc_value x) v.items ≡ news (map step_of levels.now) None) }
{
    let mut cells = Vec::new(alloc);
    for level in levels {
        add(&mut cells, level.new.as_slice())?;
    }
    Ok(cells)
}

/// Puts these cells behind the others, as further owners of them.
pub fn add(cells: &mut Vec<Arc<Cell>>, more: &[Arc<Cell>]) -> Result<(), Memory>
    ensures { OnOk result (map (λ x. arc_value x) cells.new.items
        ≡ map (λ x. arc_value x) cells.old.items ++ map (λ x. arc_value x) more.now) }
{
    for cell in more {
        cells.push(Arc::try_clone(cell)?)?;
    }
    Ok(())
}
