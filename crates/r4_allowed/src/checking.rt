//! Whether a table is what may still come in the place of the cells of a task (docs/volume.md,
//! "What may still come").

ghost use Rattle.std.specs.Prelude.{◌≡◌, ◌↔◌, ◌≤◌, suc, true, All, map};
ghost use Rattle.std.specs.Arc.{arc_value};
ghost use Rattle.r4_base.specs.Tree.{Store};
ghost use Rattle.r4_base.specs.Value.{Value};
ghost use Rattle.r4_extent_put.specs.r4_extent_change.r4_measure.r4_cell.Patch.{root_of_pair};
ghost use Rattle.r4_extent_put.specs.r4_extent_change.r4_measure.r4_cell.declared.change.Fresh.{Fresh};
ghost use Rattle.r4_extent_put.specs.r4_extent_change.r4_node40.View.{item_shown};
ghost use Rattle.r4_allowed.specs.Allowing.{AreTaskCells, BearsBy, Hangs, IsAllowed, IsAmong};
ghost use Rattle.r4_allowed.specs.Allowing.{IsEntry};
ghost use Rattle.r4_allowed.specs.Allowing.{IsLowRoot, IsMeasure, IsPointedTo, IsPointerTo};
ghost use Rattle.r4_allowed.specs.Allowing.{LetsCome, PointsTo};

use crate::bearing::{NODE_SHARE, below, bytes_with};
use crate::table::{Allowance, most_of};
use r4_base::{BlockNo, NODE_ROOM, NodeId, POINTER, TWIG};
use r4_extent_put::{Cell, ItemView, Root, pointer};
use std::sync::Arc;

/// No more cells than so many come in the place of one.
const MOST_OF_ONE: u64 = 87;

/// The root may be parted below this level.
const MOST_HEIGHT: u8 = 8;

/// Whether a table is what may still come in the place of these cells: of each at most 87, of none
/// below twigs, and of those alone that are among them and are the root, below level 8, or are
/// pointed to from among them; and each node above the twigs suffices for what comes below it. Then
/// it is a budget of any part of a tree of which these are cells (`allowed_tables_are_budgets`). It
/// takes no memory (docs/volume.md, "What may still come").
pub fn is_allowed(root: &Root, cells: &[Arc<Cell>], table: &[Allowance]) -> bool
    ensures allowed { (result ≡ true) ↔ IsAllowed (root_of_pair root.now)
        (map (λ c. arc_value c) cells.now) table.now }
    ensures budget { result ≡ true → (t : Store Value) (f : Fresh)
        → AreTaskCells t (root_of_pair root.now) f (map (λ c. arc_value c) cells.now)
        → IsMeasure t (root_of_pair root.now) (map (λ c. arc_value c) cells.now) table.now }
{
    are_entries(root, cells, table) && all_bear(table, cells)
}

// Whether each of these entries lets no cell come, or may.
fn are_entries(root: &Root, cells: &[Arc<Cell>], entries: &[Allowance]) -> bool
    ensures { (result ≡ true) ↔ All (IsEntry (root_of_pair root.now)
        (map (λ c. arc_value c) cells.now)) entries.now }
{
    for entry in entries {
        if !is_entry(root, cells, entry) {
            return false;
        }
    }
    true
}

// Whether an entry lets no cell come, or may.
fn is_entry(root: &Root, cells: &[Arc<Cell>], entry: &Allowance) -> bool
    ensures { (result ≡ true) ↔ IsEntry (root_of_pair root.now)
        (map (λ c. arc_value c) cells.now) entry.now }
{
    entry.most == 0 || lets_come(root, cells, entry)
}

// Whether cells may come of the one of an entry.
fn lets_come(root: &Root, cells: &[Arc<Cell>], entry: &Allowance) -> bool
    requires { 1 ≤ entry.now.most }
    ensures { (result ≡ true) ↔ LetsCome (root_of_pair root.now)
        (map (λ c. arc_value c) cells.now) entry.now }
{
    entry.most <= MOST_OF_ONE
        && entry.level >= TWIG
        && is_among(cells, entry.level, entry.id)
        && hangs(root, cells, entry)
}

// Whether one of the cells has this level and this number.
fn is_among(cells: &[Arc<Cell>], level: u8, id: NodeId) -> bool
    ensures { (result ≡ true) ↔ IsAmong (map (λ c. arc_value c) cells.now) level id.0 }
{
    match cells.split_first() {
        None => false,
        Some((first, rest)) => is_at(first, level, id) || is_among(rest, level, id),
    }
}

// Whether a cell has this level and this number.
fn is_at(cell: &Cell, level: u8, id: NodeId) -> bool
    ensures { (result ≡ true) ↔ ((cell.now.level ≡ level) × (cell.now.id ≡ id.0)) }
{
    cell.level() == level && cell.id().0 == id.0
}

// Whether an entry is the root's, which stands below level 8, or one of the cells points to its
// cell.
fn hangs(root: &Root, cells: &[Arc<Cell>], entry: &Allowance) -> bool
    ensures { (result ≡ true) ↔ Hangs (root_of_pair root.now)
        (map (λ c. arc_value c) cells.now) entry.now }
{
    is_low_root(root, entry) || is_pointed_to(cells, entry.level, entry.id)
}

// Whether an entry is the root's, which stands below level 8.
fn is_low_root(root: &Root, entry: &Allowance) -> bool
    ensures { (result ≡ true) ↔ IsLowRoot (root_of_pair root.now) entry.now }
{
    entry.level == root.height && entry.id.0 == root.id.0 && root.height < MOST_HEIGHT
}

// Whether one of the cells above a level points to this number.
fn is_pointed_to(cells: &[Arc<Cell>], level: u8, id: NodeId) -> bool
    ensures { (result ≡ true) ↔ IsPointedTo (map (λ c. arc_value c) cells.now) (suc level) id.0 }
{
    match cells.split_first() {
        None => false,
        Some((first, rest)) => {
            points_from_above(first, level, id) || is_pointed_to(rest, level, id)
        }
    }
}

// Whether a cell is one above a level, and points to this number.
fn points_from_above(cell: &Cell, level: u8, id: NodeId) -> bool
    ensures { (result ≡ true) ↔ ((cell.now.level ≡ suc level) × PointsTo cell.now id.0) }
{
    cell.level() > level && cell.level() - 1 == level && points_to(cell, id)
}

// Whether a node points to this number.
fn points_to(node: &Cell, id: NodeId) -> bool
    requires { 1 ≤ node.now.level }
    ensures { (result ≡ true) ↔ PointsTo node.now id.0 }
{
    let view = node.node();
    for i in 0..view.len() {
        if is_pointer_to(&view.item(i), id) {
            return true;
        }
    }
    false
}

// Whether an item is a pointer to this number.
fn is_pointer_to(item: &ItemView<'_>, id: NodeId) -> bool
    ensures { (result ≡ true) ↔ IsPointerTo (item_shown item.now) id.0 }
{
    if item.plugin != POINTER {
        return false;
    }
    match pointer(item.body) {
        Some(BlockNo(to)) => to == id.0,
        None => false,
    }
}

// Whether each of the cells that stands above the twigs suffices for what comes below it.
fn all_bear(table: &[Allowance], cells: &[Arc<Cell>]) -> bool
    ensures { (result ≡ true) ↔ All (BearsBy table.now) (map (λ c. arc_value c) cells.now) }
{
    match cells.split_first() {
        None => true,
        Some((first, rest)) => bears(table, first) && all_bear(table, rest),
    }
}

// Whether a cell is no node above the twigs, or suffices for what comes below it.
fn bears(table: &[Allowance], cell: &Cell) -> bool
    ensures { (result ≡ true) ↔ BearsBy table.now cell.now }
{
    if cell.level() <= TWIG {
        return true;
    }
    let coming = below(table, cell);
    let parts = most_of(table, cell.level(), cell.id());
    coming == 0
        || bytes_with(cell, coming) <= u128::from(NODE_ROOM) + NODE_SHARE * u128::from(parts)
}
