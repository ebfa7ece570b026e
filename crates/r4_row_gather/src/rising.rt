//! The rows above a row of twigs (docs/volume.md, "Bodies in extents").

ghost use Rattle.std.specs.Prelude.{◌≡◌, ◌<◌, ◌≤◌, ℕ, IfOk, IfSome, map, true};
ghost use Rattle.std.specs.Arc.{arc_value};
ghost use Rattle.r4_base.specs.Cell.{next_key};
ghost use Rattle.r4_base.specs.Key.{rank};
ghost use Rattle.r4_row_edit.specs.Over.{StandsOver};
ghost use Rattle.r4_squeeze.specs.Items.{item_meant, items_meant};
ghost use Rattle.r4_row_gather.specs.Rising.{AreRowsOver, IsRowAbove, MayStandOver, PointFirst};
ghost use Rattle.r4_row_gather.specs.Rising.{PointsTo, StandBeside};

use crate::finding::row_among;
use r4_base::{Key, Memory, POINTER, TWIG};
use r4_patch::{Cell, Cells};
use r4_row_edit::place_in;
use r4_squeeze::{NodeItem, items_of_all};
use r4_twig::pointer;
use std::alloc::Global;
use std::sync::Arc;

/// How high a node may stand.
const HIGHEST: u8 = 8;

/// The rows above a row of twigs, the lowest first, up to one cell: each is of nodes among some cells that stand beside
/// each other and point to the one before. `None` where one of them is not among the cells. The only error is want of
/// memory (docs/volume.md, "Bodies in extents").
pub(crate) fn rows_over(
    alloc: Global,
    cells: &[Arc<Cell>],
    row: &[Arc<Cell>],
) -> Result<Option<Vec<Cells>>, Memory>
    requires { StandBeside 2 (map (λ c. arc_value c) row.now) }
    ensures { IfOk result (λ o. IfSome o (λ v. AreRowsOver (map (λ c. arc_value c) cells.now) 2
        (map (λ c. arc_value c) row.now) v.items)) }
{
    rows_from(alloc, cells, row, TWIG)
}

// The same of a row of any level.
fn rows_from(
    alloc: Global,
    cells: &[Arc<Cell>],
    low: &[Arc<Cell>],
    level: u8,
) -> Result<Option<Vec<Cells>>, Memory>
    requires level { (2 ≤ level) × (level ≤ 8) }
    requires beside { StandBeside level (map (λ c. arc_value c) low.now) }
    ensures { IfOk result (λ o. IfSome o (λ v. AreRowsOver (map (λ c. arc_value c) cells.now) level
        (map (λ c. arc_value c) low.now) v.items)) }
{
    if low.len() == 1 {
        return Ok(Some(Vec::new(alloc)));
    }
    if level == HIGHEST {
        return Ok(None);
    }
    let Some(row) = row_above(alloc, cells, low, level)? else {
        return Ok(None);
    };
    let Some(mut above) = rows_from(alloc, cells, row.as_slice(), level + 1)? else {
        return Ok(None);
    };
    let mut rows = Vec::new(alloc);
    rows.push(row)?;
    rows.append(&mut above)?;
    Ok(Some(rows))
}

// The nodes among some cells that stand beside each other and point to a row.
fn row_above(
    alloc: Global,
    cells: &[Arc<Cell>],
    low: &[Arc<Cell>],
    level: u8,
) -> Result<Option<Cells>, Memory>
    requires level { (2 ≤ level) × (level < 8) }
    requires beside { StandBeside level (map (λ c. arc_value c) low.now) }
    ensures { IfOk result (λ o. IfSome o (IsRowAbove (map (λ c. arc_value c) cells.now) level
        (map (λ c. arc_value c) low.now))) }
{
    let lo = low[0].lo();
    let hi = low[low.len() - 1].hi();
    let Some(row) = row_among(alloc, cells, level + 1, lo, hi)? else {
        return Ok(None);
    };
    if !stand_over(alloc, row.as_slice(), low)? {
        return Ok(None);
    }
    Ok(Some(row))
}

// Whether nodes beside each other point to a row, one cell after the other.
fn stand_over(alloc: Global, row: &[Arc<Cell>], low: &[Arc<Cell>]) -> Result<bool, Memory>
    requires { (l : ℕ) × MayStandOver l (map (λ c. arc_value c) low.now)
        (map (λ c. arc_value c) row.now) }
    ensures { IfOk result (λ ok. ok ≡ true → (l : ℕ)
        → MayStandOver l (map (λ c. arc_value c) low.now)
        (map (λ c. arc_value c) row.now) → StandsOver l (map (λ c. arc_value c) low.now)
        (map (λ c. arc_value c) row.now)) }
{
    let items = items_of_all(alloc, row)?;
    let at = place_in(items.as_slice(), low[0].lo());
    let (_, from) = items.as_slice().split_at(at);
    Ok(point_to(from, low, row[row.len() - 1].hi(), low[low.len() - 1].hi()))
}

// Whether the first of some items point to these cells, one after the other, and the next one begins with a key.
fn point_to(items: &[NodeItem<'_>], low: &[Arc<Cell>], hi: Key, end: Key) -> bool
    ensures { result ≡ true → PointFirst (rank hi) (rank end) (items_meant items.now)
        (map (λ c. arc_value c) low.now) }
{
    let Some((cell, cells)) = low.split_first() else {
        return key_of_first(items, hi).is_same(end);
    };
    let Some((item, behind)) = items.split_first() else {
        return false;
    };
    points_to(item, cell) && point_to(behind, cells, hi, end)
}

// The key of the first of some items, or where their range ends.
fn key_of_first(items: &[NodeItem<'_>], hi: Key) -> Key
    ensures { rank result ≡ next_key (rank hi) (items_meant items.now) }
{
    match items.first() {
        Some(item) => item.key(),
        None => hi,
    }
}

// Whether an item of a node points to a cell.
fn points_to(item: &NodeItem<'_>, cell: &Cell) -> bool
    ensures { result ≡ true → PointsTo (item_meant item.now) cell.now }
{
    let NodeItem::Stays(item) = item else {
        return false;
    };
    let Some(to) = pointer(item.body) else {
        return false;
    };
    item.plugin == POINTER && to.0 == cell.id().0 && item.key.is_same(cell.lo())
}
