//! The way on inside a node.

ghost use Rattle.std.specs.Prelude.{◌≡◌, ◌+◌, ◌^◌, ◌<◌, ◌≤◌, true, length, drop, nat_lt, None, IfSome, IfNone};
ghost use Rattle.r4_base.specs.Cell.{cell_fault, next_key};
ghost use Rattle.r4_base.specs.Key.{rank};
ghost use Rattle.r4_base.specs.Node.{items_of};
ghost use Rattle.r4_cell.specs.r4_node40.View.{item_shown, view_items};
ghost use Rattle.r4_search.specs.Path.{LeadsTo, EndsAt};
ghost use Rattle.r4_search.specs.Place.{IsPlace, child_name};

use r4_base::{BlockNo, Key, LEAF, NodeId, POINTER};
use r4_cell::{Cell, NodeView, pointer};

/// A node as a pointer names it (docs/volume.md, "The tree").
#[derive(Clone, Copy, Debug)]
pub struct Child {
    pub id: NodeId,
    pub level: u8,
    pub lo: Key,
    pub hi: Key,
}

/// The node below a cell whose range has the key; none where the way ends, at a leaf and at an extent
/// (docs/volume.md, "The tree").
pub fn child_of(cell: &Cell, key: &Key) -> Option<Child>
    requires node { 1 ≤ cell.now.level }
    requires stands { cell_fault true (2 ^ 64) cell.now.level (rank cell.now.lo) (rank cell.now.hi) cell.now.block ≡ None }
    requires from { rank cell.now.lo ≤ rank key.now }
    requires below { rank key.now < rank cell.now.hi }
    ensures child { IfSome result (λ child. LeadsTo cell.now (rank key.now) (child_name child)) }
    ensures level { IfSome result (λ child. child.level + 1 ≡ cell.now.level) }
    ensures end { IfNone result (EndsAt cell.now (rank key.now)) }
{
    if cell.level() == LEAF {
        return None;
    }
    child_in(&cell.node(), cell, key)
}

// The same in the node that a cell above the leaves is.
fn child_in(node: &NodeView<'_>, cell: &Cell, key: &Key) -> Option<Child>
    requires whole { length cell.now.block ≡ 4096 }
    requires items { view_items node.now ≡ items_of cell.now.block }
    requires branch { 2 ≤ cell.now.level }
    requires stands { cell_fault true (2 ^ 64) cell.now.level (rank cell.now.lo) (rank cell.now.hi) cell.now.block ≡ None }
    requires from { rank cell.now.lo ≤ rank key.now }
    requires below { rank key.now < rank cell.now.hi }
    ensures child { IfSome result (λ child. LeadsTo cell.now (rank key.now) (child_name child)) }
    ensures level { IfSome result (λ child. child.level + 1 ≡ cell.now.level) }
    ensures end { IfNone result (EndsAt cell.now (rank key.now)) }
{
    let i = place_of(node, cell.hi(), key);
    let item = node.item(i);
    if item.plugin != POINTER {
        return None;
    }
    match pointer(item.body) {
        Some(BlockNo(to)) => Some(Child {
            id: NodeId(to),
            level: cell.level() - 1,
            lo: item.key,
            hi: node.key_behind(i, cell.hi()),
        }),
        None => None,
    }
}

/// The place of the last item of a node whose key is not above a key, which lies in the range of the items: below `hi`.
pub fn place_of(node: &NodeView<'_>, hi: Key, key: &Key) -> u16
    requires first { next_key (rank hi) (view_items node.now) ≤ rank key.now }
    requires below { rank key.now < rank hi }
    ensures { IsPlace (rank hi) (view_items node.now) (rank key.now) result }
{
    let mut low = 0;
    let mut high = node.len();
    while high - low > 1 {
        let middle = low + (high - low) / 2;
        if key.is_below(node.item(middle).key) {
            high = middle;
        } else {
            low = middle;
        }
    }
    low
}
