//! How a change of cells changes the numbers of its atom.

ghost use Rattle.std.specs.Prelude.{◌≡◌, ◌+◌, ◌≤◌, count_by, length};
ghost use Rattle.r4_atoms.specs.Atoms.{FitTogether};
ghost use Rattle.r4_done.specs.r4_buffer.Changed.{has_name};
ghost use Rattle.r4_done.specs.r4_buffer.Seen.{cells_of};
ghost use Rattle.r4_accounting.specs.Accounting.{added, is_fresh, is_fresh_less, is_fresh_more};
ghost use Rattle.r4_done.specs.Doing.{IsCount, is_less, is_more};

use r4_atoms::Account;
use r4_base::{NodeId, UNPLACED};
use r4_cell::Cell;
use r4_done::Buffer;
use std::sync::Arc;

// Whether one of these cells has the name.
pub(crate) fn has_name(cells: &[Arc<Cell>], id: NodeId) -> bool
    ensures { result ≡ has_name (cells_of cells.now) id.0 }
{
    cells.iter().any(|cell| cell.id().0 == id.0)
}

// Whether a cell has no block yet.
pub(crate) fn is_fresh(cell: &Cell) -> bool
    ensures { result ≡ is_fresh cell.now }
{
    UNPLACED <= cell.id().0
}

// Whether an old cell was counted and goes.
fn is_less(buffer: &Buffer, new: &[Arc<Cell>], cell: &Cell) -> bool
    ensures { result ≡ is_less buffer.now (cells_of new.now) cell.now }
{
    buffer.is_dirty(cell.id()) && !has_name(new, cell.id())
}

// Whether a new cell was not counted.
fn is_more(buffer: &Buffer, cell: &Cell) -> bool
    ensures { result ≡ is_more buffer.now cell.now }
{
    !buffer.is_dirty(cell.id())
}

// How many of the counted cells go.
fn less(buffer: &Buffer, old: &[Arc<Cell>], new: &[Arc<Cell>]) -> u64
    ensures { result ≡ count_by (is_less buffer.now (cells_of new.now)) (cells_of old.now) }
{
    let cells = old.iter();
    cells.filter(|cell| is_less(buffer, new, cell)).count() as u64
}

// How many of these have no block.
fn less_fresh(buffer: &Buffer, old: &[Arc<Cell>], new: &[Arc<Cell>]) -> u64
    ensures { result ≡ count_by (is_fresh_less buffer.now (cells_of new.now)) (cells_of old.now) }
{
    let cells = old.iter();
    cells
        .filter(|cell| is_less(buffer, new, cell) && is_fresh(cell))
        .count() as u64
}

// How many cells come to the counted ones.
fn more(buffer: &Buffer, new: &[Arc<Cell>]) -> u64
    ensures { result ≡ count_by (is_more buffer.now) (cells_of new.now) }
{
    let cells = new.iter();
    cells.filter(|cell| is_more(buffer, cell)).count() as u64
}

// How many of these have no block.
fn more_fresh(buffer: &Buffer, new: &[Arc<Cell>]) -> u64
    ensures { result ≡ count_by (is_fresh_more buffer.now) (cells_of new.now) }
{
    let cells = new.iter();
    cells
        .filter(|cell| is_more(buffer, cell) && is_fresh(cell))
        .count() as u64
}

/// What an atom's account is after a change that makes and takes away so many objects: its cells,
/// and those of them that have no block, as the flags of the cells in memory tell which of the old
/// ones were counted. No more cells go than were counted. No memory (docs/core.md, "Little steps").
pub fn account_after(
    buffer: &Buffer,
    before: Account,
    old: &[Arc<Cell>],
    new: &[Arc<Cell>],
    born: u64,
    gone: u64,
) -> Account
    requires cells { count_by (is_less buffer.now (cells_of new.now)) (cells_of old.now)
        ≤ before.cells }
    requires fresh { count_by (is_fresh_less buffer.now (cells_of new.now)) (cells_of old.now)
        ≤ before.fresh }
    requires fit { FitTogether before (added (length new.now) born gone) }
    ensures counts { IsCount buffer.now (cells_of old.now) (cells_of new.now) before result }
    ensures born { result.born ≡ before.born + born }
    ensures gone { result.gone ≡ before.gone + gone }
{
    Account {
        cells: before.cells - less(buffer, old, new) + more(buffer, new),
        fresh: before.fresh - less_fresh(buffer, old, new) + more_fresh(buffer, new),
        born: before.born + born,
        gone: before.gone + gone,
    }
}
