//! What the nodes that were met name.

ghost use Rattle.std.specs.Prelude.{◌≡◌, ◌+◌, ◌*◌, ◌^◌, ◌<◌, ◌≤◌, [], None, Some, length, map};
ghost use Rattle.std.specs.Prelude.{true};
ghost use Rattle.std.specs.Prelude.{if◌then◌else◌, slice_get};
ghost use Rattle.std.specs.Arc.{arc_value};
ghost use Rattle.std.specs.List.Sorted.{IsNonDecreasingBy};
ghost use Rattle.r4_base.specs.Cell.{block_names, run_names};
ghost use Rattle.r4_base.specs.Extents.{IsLawfulUnit, blocks_in, body_fault, is_hole, units_of};
ghost use Rattle.r4_base.specs.Key.{offset_of, rank, top};
ghost use Rattle.r4_base.specs.Node.{Item, items_of};
ghost use Rattle.r4_cell.specs.Seen.{node_of};
ghost use Rattle.r4_marking.specs.Marks.{names_at};
ghost use Rattle.r4_node40.specs.View.{view_items};
ghost use Rattle.r4_search.specs.Pool.{StandsInMemory};
ghost use Rattle.r4_judging.specs.Judging.{IsJudged, IsSound};

use crate::misfit::{Misfit, first_of};
use crate::named::Named;
use r4_base::{BLOCK_BYTES, EXTENT, Key, LEAF, Unit};
use r4_cell::Cell;
use r4_marking::child_at;
use r4_node40::{ItemView, NodeView};
use r4_twig::ExtentView;
use std::sync::Arc;

/// The first of the cells that a cell misnames. The cells stand by their numbers.
pub(crate) fn misfit_of(cell: &Cell, cells: &[Arc<Cell>]) -> Option<Misfit>
    requires { IsNonDecreasingBy (λ c. c.id) (map (λ c. arc_value c) cells.now) }
    ensures judged { IsJudged (node_of cell.now).names (map (λ c. arc_value c) cells.now) result }
    ensures sound { IsSound cell.now }
{
    if cell.level() == 0 {
        // a block has its bytes
        let _ = cell.block().bytes();
        return None;
    }
    let node = cell.node();
    if cell.level() == LEAF {
        return None;
    }
    misfit_in(&node, cell, cell.hi(), cells)
}

// The same of a cell above the leaves, item by item.
fn misfit_in(node: &NodeView<'_>, cell: &Cell, hi: Key, cells: &[Arc<Cell>]) -> Option<Misfit>
    requires hi { hi ≡ cell.now.hi }
    requires items { view_items node.now ≡ items_of cell.now.block }
    requires whole { length cell.now.block ≡ 4096 }
    requires stands { StandsInMemory cell.now }
    requires branch { 2 ≤ cell.now.level }
    requires order { IsNonDecreasingBy (λ c. c.id) (map (λ c. arc_value c) cells.now) }
    ensures { IsJudged (node_of cell.now).names (map (λ c. arc_value c) cells.now) result }
{
    let mut found = None;
    for i in 0..node.len() {
        found = first_of(found, misfit_at(node, cell, hi, i, cells));
    }
    found
}

// The same of one item.
fn misfit_at(
    node: &NodeView<'_>,
    cell: &Cell,
    hi: Key,
    place: u16,
    cells: &[Arc<Cell>],
) -> Option<Misfit>
    requires hi { hi ≡ cell.now.hi }
    requires items { view_items node.now ≡ items_of cell.now.block }
    requires whole { length cell.now.block ≡ 4096 }
    requires stands { StandsInMemory cell.now }
    requires branch { 2 ≤ cell.now.level }
    requires within { place < length (view_items node.now) }
    requires order { IsNonDecreasingBy (λ c. c.id) (map (λ c. arc_value c) cells.now) }
    ensures { (it : Item) → slice_get (items_of cell.now.block) place ≡ Some it
        → IsJudged (names_at cell.now place it) (map (λ c. arc_value c) cells.now) result }
{
    let _ = hi;
    let item = node.item(place);
    if item.plugin == EXTENT {
        return misfit_of_extent(&item, cells);
    }
    Named::Child(child_at(node, cell, place)?).misfit(cells)
}

// The same of an extent, unit by unit.
fn misfit_of_extent(item: &ItemView<'_>, cells: &[Arc<Cell>]) -> Option<Misfit>
    requires few { length item.now.body.now < 16 * 65536 }
    requires good { body_fault true (2 ^ 64) item.now.body.now ≡ None }
    requires fits { offset_of item.now.key + 4096 * blocks_in (units_of item.now.body.now)
        ≤ 2 ^ 64 }
    requires below { rank item.now.key + 4096 * blocks_in (units_of item.now.body.now) ≤ top }
    requires order { IsNonDecreasingBy (λ c. c.id) (map (λ c. arc_value c) cells.now) }
    ensures { IsJudged (block_names (rank item.now.key) (units_of item.now.body.now))
        (map (λ c. arc_value c) cells.now) result }
{
    let extent = ExtentView::of_item(item.body);
    let mut found = None;
    let mut behind = 0;
    for i in 0..extent.len() {
        let unit = extent.unit(i);
        let lo = item.key.behind(behind * BLOCK_BYTES);
        found = first_of(found, misfit_of_unit(unit, lo, cells));
        behind += unit.width;
    }
    found
}

// The same of a unit; a hole names nothing.
fn misfit_of_unit(unit: Unit, lo: Key, cells: &[Arc<Cell>]) -> Option<Misfit>
    requires fits { offset_of lo + 4096 * unit.width ≤ 2 ^ 64 }
    requires below { rank lo + 4096 * unit.width ≤ top }
    requires order { IsNonDecreasingBy (λ c. c.id) (map (λ c. arc_value c) cells.now) }
    ensures { IsJudged (if is_hole unit then [] else run_names (rank lo) unit.start unit.width)
        (map (λ c. arc_value c) cells.now) result }
{
    if unit.start == 0 {
        return None;
    }
    Named::Blocks(unit.start, unit.width, lo).misfit(cells)
}
