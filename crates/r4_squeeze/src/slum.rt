//! Whether cells are a slum (docs/volume.md, "Squeezing").

ghost use Rattle.std.specs.Prelude.{◌≡◌, ◌+◌, ◌-◌, ◌<◌, ◌≤◌, ◌↔◌, ℕ, drop, length, map, slice_get, true};
ghost use Rattle.std.specs.Prelude.{MatchBool, Some};
ghost use Rattle.std.specs.Arc.{arc_value};
ghost use Rattle.r4_base.specs.Key.{rank};
ghost use Rattle.r4_base.specs.Node.{Item, items_of};
ghost use Rattle.r4_node40.specs.View.{view_items};
ghost use Rattle.r4_squeeze.specs.Over.{ArePointedTo, IsSlumOf, PointsTo};

use crate::parent::place_of;
use r4_base::POINTER;
use r4_cell::Cell;
use r4_node40::NodeView;
use r4_twig::pointer;
use std::sync::Arc;

/// Whether cells are a slum of a cell above them: one or more nodes of the level below its own, each the right neighbour
/// of the one before, which it names (docs/volume.md, "Squeezing").
pub fn is_slum(slum: &[Arc<Cell>], parent: &Cell) -> bool
    ensures { MatchBool result (IsSlumOf (map (λ c. arc_value c) slum.now) parent.now)
        (IsSlumOf (map (λ c. arc_value c) slum.now) parent.now → ⊥) }
{
    let Some((first, _)) = slum.split_first() else {
        return false;
    };
    if first.level() == 0 {
        return false;
    }
    if parent.level() == 0 {
        return false;
    }
    if first.level() != parent.level() - 1 {
        return false;
    }
    let node = parent.node();
    let at = place_of(&node, first.lo());
    are_named(&node, parent, at, slum)
}

// Whether the items of a cell from a place on point to these cells, one after the other.
fn are_named(node: &NodeView<'_>, parent: &Cell, at: u16, slum: &[Arc<Cell>]) -> bool
    requires items { view_items node.now ≡ items_of parent.now.block }
    requires within { at ≤ length (view_items node.now) }
    requires level { 1 ≤ parent.now.level }
    ensures { (result ≡ true) ↔ ArePointedTo (parent.now.level - 1) (rank parent.now.hi)
        (drop at (items_of parent.now.block)) (map (λ c. arc_value c) slum.now) }
{
    match slum.split_first() {
        None => true,
        Some((first, rest)) => {
            if at >= node.len() {
                return false;
            }
            if !is_named(node, parent, at, first) {
                return false;
            }
            are_named(node, parent, at + 1, rest)
        }
    }
}

// Whether an item points to a cell.
fn is_named(node: &NodeView<'_>, parent: &Cell, at: u16, cell: &Cell) -> bool
    requires items { view_items node.now ≡ items_of parent.now.block }
    requires within { at < length (view_items node.now) }
    requires level { 1 ≤ parent.now.level }
    ensures { (it : Item) → slice_get (items_of parent.now.block) at ≡ Some it
        → (result ≡ true) ↔ ((cell.now.level ≡ parent.now.level - 1)
        × PointsTo (rank parent.now.hi) cell.now it
        (drop (at + 1) (items_of parent.now.block))) }
{
    let item = node.item(at);
    let Some(to) = pointer(item.body) else {
        return false;
    };
    item.plugin == POINTER
        && to.0 == cell.id().0
        && cell.level() == parent.level() - 1
        && item.key.is_same(cell.lo())
        && node.key_behind(at, parent.hi()).is_same(cell.hi())
}
