//! Cells of nodes that were filled, with given numbers (docs/volume.md, "Squeezing").

ghost use Rattle.std.specs.Prelude.{◌≡◌, ◌+◌, ◌≤◌, ◌∷◌, ◌++◌, length, map, IfOk, OnOk};
ghost use Rattle.std.specs.Arc.{arc_value};
ghost use Rattle.std.specs.Vec.Iter.{into_iter_items};
ghost use Rattle.r4_base.specs.Key.{rank};
ghost use Rattle.r4_patch.specs.Joining.{ids_of};
ghost use Rattle.r4_squeeze.specs.Packing.{MayStandAll, cells_filled, numbers};

use crate::filled::Filled;
use r4_base::{Key, Memory, NodeId};
use r4_cell::{Cell, new_cell};
use std::alloc::Global;
use std::sync::Arc;
use std::vec::IntoIter;

/// The numbers of cells, in their order.
pub fn numbers_of(alloc: Global, cells: &[Arc<Cell>]) -> Result<Vec<NodeId>, Memory>
    ensures { IfOk result (λ v. numbers v.items ≡ ids_of (map (λ c. arc_value c) cells.now)) }
{
    let mut ids = Vec::with_capacity(alloc, cells.len())?;
    for cell in cells {
        ids.push(cell.id())?;
    }
    Ok(ids)
}

/// The cells of nodes of a level, with these numbers, of which there are as many at least. Each goes up to where the next
/// one begins, and the last up to `hi`. The only error is want of memory.
pub fn numbered(
    alloc: Global,
    level: u8,
    ids: &[NodeId],
    filled: Vec<Filled>,
    hi: Key,
) -> Result<Vec<Arc<Cell>>, Memory>
    requires few { length filled.items ≤ length ids.now }
    requires stand { MayStandAll level (rank hi) filled.items }
    ensures { IfOk result (λ v. map (λ c. arc_value c) v.items
        ≡ cells_filled level (numbers ids.now) hi filled.items) }
{
    let mut cells = Vec::with_capacity(alloc, filled.len())?;
    let mut rest = filled.into_iter();
    let Some(first) = rest.next() else {
        return Ok(cells);
    };
    add(alloc, level, ids, first, rest, hi, &mut cells)?;
    Ok(cells)
}

// Puts the cells of a node and of the further ones behind the others.
fn add(
    alloc: Global,
    level: u8,
    ids: &[NodeId],
    node: Filled,
    mut more: IntoIter<Filled>,
    hi: Key,
    cells: &mut Vec<Arc<Cell>>,
) -> Result<(), Memory>
    requires few { 1 + length (into_iter_items more) ≤ length ids.now }
    requires stand { MayStandAll level (rank hi) (node ∷ into_iter_items more) }
    ensures { OnOk result (map (λ c. arc_value c) cells.new.items
        ≡ map (λ c. arc_value c) cells.old.items ++ cells_filled level
        (numbers ids.now) hi (node ∷ into_iter_items more)) }
{
    let id = ids[0];
    let Some(next) = more.next() else {
        cells.push(new_cell(alloc, id, level, node.lo, hi, node.block)?)?;
        return Ok(());
    };
    cells.push(new_cell(alloc, id, level, node.lo, next.lo, node.block)?)?;
    add(alloc, level, &ids[1..], next, more, hi, cells)
}
