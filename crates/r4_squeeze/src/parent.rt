//! The cell above a slum, with pointers to what comes in its place (docs/volume.md, "Squeezing").

ghost use Rattle.std.specs.Prelude.{◌≡◌, ◌+◌, ◌<◌, ◌≤◌, ◌++◌, ℕ, drop, length, map, slice_get, take};
ghost use Rattle.std.specs.Prelude.{IfOk, Some};
ghost use Rattle.std.specs.Arc.{arc_value};
ghost use Rattle.r4_base.specs.Key.{rank};
ghost use Rattle.r4_base.specs.Node.{Item};
ghost use Rattle.r4_node40.specs.View.{view_items};
ghost use Rattle.r4_path.specs.Nodes.{pointer_item};
ghost use Rattle.r4_squeeze.specs.Items.{items_meant};
ghost use Rattle.r4_squeeze.specs.Over.{ComesOver, IsOver, IsSlumOf};

use crate::items::{NodeItem, add_items, add_pointers, node_of};
use r4_base::{Key, Memory, get32};
use r4_cell::{Cell, new_cell};
use r4_node40::NodeView;
use std::alloc::Global;
use std::sync::Arc;

/// The cell above a slum, of its name, level and range, with pointers to other cells that share out the slum's range in
/// the place of those to the slum, and its other items as they were. There are no more of them than the slum has.
pub fn rewritten(
    alloc: Global,
    parent: &Cell,
    slum: &[Arc<Cell>],
    cells: &[Arc<Cell>],
) -> Result<Arc<Cell>, Memory>
    requires slum { IsSlumOf (map (λ c. arc_value c) slum.now) parent.now }
    requires come { ComesOver (map (λ c. arc_value c) slum.now)
        (map (λ c. arc_value c) cells.now) }
    ensures { IfOk result (λ c. IsOver parent.now (map (λ x. arc_value x) slum.now)
        (map (λ x. arc_value x) cells.now) (arc_value c)) }
{
    let node = parent.node();
    let at = place_of(&node, slum[0].lo());
    let items = items_over(alloc, &node, at, slum.len() as u16, cells)?;
    let mkfs_id = get32(parent.block().bytes(), 12);
    let block = node_of(alloc, parent.level(), mkfs_id, items.as_slice())?;
    new_cell(
        alloc,
        parent.id(),
        parent.level(),
        parent.lo(),
        parent.hi(),
        block,
    )
}

// The items of a node, with pointers to cells in the place of so many items from one on.
fn items_over<'a>(
    alloc: Global,
    node: &NodeView<'a>,
    at: u16,
    count: u16,
    cells: &'a [Arc<Cell>],
) -> Result<Vec<NodeItem<'a>>, Memory>
    requires { at + count ≤ length (view_items node.now) }
    ensures { IfOk result (λ v. items_meant v.items ≡ take at (view_items node.now)
        ++ (map (λ c. pointer_item (arc_value c)) cells.now
        ++ drop (at + count) (view_items node.now))) }
{
    let all = node.len();
    let behind = at + count;
    let mut items = Vec::new(alloc);
    add_items(&mut items, node, 0, at)?;
    add_pointers(&mut items, cells)?;
    add_items(&mut items, node, behind, all - behind)?;
    Ok(items)
}

/// The place of the first item whose key is not below this one.
pub fn place_of(node: &NodeView<'_>, key: Key) -> u16
    ensures within { result ≤ length (view_items node.now) }
    ensures below { (k : ℕ) (x : Item) → k < result
        → slice_get (view_items node.now) k ≡ Some x → rank x.key < rank key }
    ensures at { (x : Item) → slice_get (view_items node.now) result ≡ Some x
        → rank key ≤ rank x.key }
{
    for i in 0..node.len() {
        if !node.item(i).key.is_below(key) {
            return i;
        }
    }
    node.len()
}
