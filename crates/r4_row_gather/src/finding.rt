//! Cells of one level beside each other, looked for among some cells (docs/volume.md, "Bodies in extents").

ghost use Rattle.std.specs.Prelude.{◌≡◌, ◌<◌, Contains, IfOk, IfSome, map};
ghost use Rattle.std.specs.Arc.{arc_value};
ghost use Rattle.r4_base.specs.Key.{rank};
ghost use Rattle.r4_work.specs.Order.{IsAt, is_at};
ghost use Rattle.r4_row_gather.specs.Finding.{BeginsAt, IsRowAmong};

use r4_base::{Key, Memory};
use r4_patch::{Cell, Cells};
use std::alloc::Global;
use std::sync::Arc;

/// The cells of a level, among some cells, that stand beside each other from the one that has a key up to one that ends
/// at another key or behind it; `None` where one of them is not among these. The only error is want of memory.
pub(crate) fn row_among(
    alloc: Global,
    cells: &[Arc<Cell>],
    level: u8,
    from: Key,
    to: Key,
) -> Result<Option<Cells>, Memory>
    ensures { IfOk result (λ o. IfSome o (IsRowAmong (map (λ c. arc_value c) cells.now) level
        (rank from) (rank to))) }
{
    let Some(first) = cell_at(cells, level, from) else {
        return Ok(None);
    };
    let mut row = Vec::new(alloc);
    row.push(Arc::try_clone(first)?)?;
    let mut hi = first.hi();
    for _ in 0..cells.len() {
        if !hi.is_below(to) {
            return Ok(Some(Cells::from_vec(row)));
        }
        let Some(next) = cell_from(cells, level, hi) else {
            return Ok(None);
        };
        row.push(Arc::try_clone(next)?)?;
        hi = next.hi();
    }
    Ok(None)
}

/// A cell of a level, among some cells, that has a key.
pub(crate) fn cell_at(cells: &[Arc<Cell>], level: u8, key: Key) -> Option<&Arc<Cell>>
    ensures { IfSome result (λ c. IsAt (map (λ x. arc_value x) cells.now) level (rank key)
        (arc_value c.now)) }
{
    for cell in cells {
        if has_key(cell, level, key) {
            return Some(cell);
        }
    }
    None
}

// Whether a cell has the level, and the key lies in its range.
fn has_key(cell: &Cell, level: u8, key: Key) -> bool
    ensures { result ≡ is_at level (rank key) cell.now }
{
    cell.level() == level && !key.is_below(cell.lo()) && key.is_below(cell.hi())
}

// A cell of a level that begins with a key, and ends behind it.
fn cell_from(cells: &[Arc<Cell>], level: u8, key: Key) -> Option<&Arc<Cell>>
    ensures { IfSome result (λ c. BeginsAt (map (λ x. arc_value x) cells.now) level (rank key)
        (arc_value c.now)) }
{
    for cell in cells {
        if cell.lo().is_same(key) && has_key(cell, level, key) {
            return Some(cell);
        }
    }
    None
}
