//! What comes below a node by a table, and what it needs for that (docs/volume.md, "What may still
//! come").

ghost use Rattle.std.specs.Prelude.{◌≡◌, ◌+◌, ◌-◌, ◌*◌, ◌^◌, ◌<◌, ◌≤◌};
ghost use Rattle.r4_base.specs.Node.{items_of};
ghost use Rattle.r4_extent_put.specs.r4_extent_change.r4_measure.Budget.{below, of_item};
ghost use Rattle.r4_extent_put.specs.r4_extent_change.r4_measure.r4_path.Nodes.{weight};
ghost use Rattle.r4_extent_put.specs.r4_extent_change.r4_node40.View.{item_shown};
ghost use Rattle.r4_allowed.specs.Making.{partings};
ghost use Rattle.r4_allowed.specs.Table.{budget_of};

use crate::table::{Allowance, most_of};
use r4_base::{BlockNo, NODE_ROOM, NodeId, POINTER};
use r4_extent_put::{Cell, ItemView, POINTER_ROOM, node_bytes, pointer};

/// A node that is parted has room for so many bytes more, or for more of them.
pub(crate) const NODE_SHARE: u128 = 1024;

// How many cells come below a node by a table.
pub(crate) fn below(table: &[Allowance], node: &Cell) -> u128
    requires { 1 ≤ node.now.level }
    ensures sum { result
        ≡ below (budget_of table.now (node.now.level - 1)) (items_of node.now.block) }
    ensures small { result < 2 ^ 80 }
{
    let view = node.node();
    let level = node.level() - 1;
    let mut cells: u128 = 0;
    for i in 0..view.len() {
        cells += u128::from(coming_at(table, level, &view.item(i)));
    }
    cells
}

// How many come by a table of the node of this level to which an item points; none where it is no
// pointer.
fn coming_at(table: &[Allowance], level: u8, item: &ItemView<'_>) -> u64
    ensures { result ≡ of_item (budget_of table.now level) (item_shown item.now) }
{
    if item.plugin != POINTER {
        return 0;
    }
    match pointer(item.body) {
        Some(BlockNo(to)) => most_of(table, level, NodeId(to)),
        None => 0,
    }
}

// How many bytes a node needs for its items and for pointers to so many cells.
pub(crate) fn bytes_with(node: &Cell, cells: u128) -> u128
    requires level { 1 ≤ node.now.level }
    requires few { cells < 2 ^ 80 }
    ensures bytes { result ≡ weight (items_of node.now.block) + 46 * cells }
    ensures small { result < 2 ^ 90 }
{
    u128::from(node_bytes(node)) + u128::from(POINTER_ROOM) * cells
}

// How often a node has to be parted at least that needs so many bytes, where each parting gives
// room for 1024.
pub(crate) fn partings(bytes: u128) -> u128
    requires { bytes < 2 ^ 90 }
    ensures { result ≡ partings bytes }
{
    (bytes.saturating_sub(u128::from(NODE_ROOM)) + (NODE_SHARE - 1)) / NODE_SHARE
}
