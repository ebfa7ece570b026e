//! The cells of an atom.

ghost use Rattle.std.specs.Prelude.{◌≡◌, ◌++◌, IfOk, OnOk, map};
ghost use Rattle.std.specs.Arc.{arc_value};
ghost use Rattle.r4_buffer.specs.Seen.{cell_at};
ghost use Rattle.r4_seal.specs.Cells.{cells_under, one_cell};

use r4_base::{Memory, NodeId};
use r4_buffer::Buffer;
use r4_cell::Cell;
use std::alloc::Global;
use std::sync::Arc;

// The cells that stand in memory under these nodes, in their order, each shared.
pub(crate) fn cells_under(
    alloc: Global,
    buffer: &Buffer,
    nodes: &[NodeId],
) -> Result<Vec<Arc<Cell>>, Memory>
    ensures { IfOk result (λ v. map (λ c. arc_value c) v.items ≡ cells_under buffer.now nodes.now) }
{
    let mut cells = Vec::with_capacity(alloc, nodes.len())?;
    for node in nodes {
        add_under(&mut cells, buffer, *node)?;
    }
    Ok(cells)
}

// Adds the cell that stands under a node, if one does.
fn add_under(cells: &mut Vec<Arc<Cell>>, buffer: &Buffer, node: NodeId) -> Result<(), Memory>
    ensures { OnOk result (map (λ c. arc_value c) cells.new.items
        ≡ map (λ c. arc_value c) cells.old.items ++ one_cell (cell_at buffer.now node.0)) }
{
    if let Some(cell) = buffer.get(node) {
        cells.push(Arc::try_clone(cell)?)?;
    }
    Ok(())
}
