//! Cells in order, looked for by halves (docs/volume.md, "The working set").

ghost use Rattle.std.specs.Prelude.{◌≡◌, ◌==◌, ◌^◌, ◌≤◌, [], map, not, nat_le, nat_lt, IfOk, IfSome};
ghost use Rattle.std.specs.Arc.{arc_value};
ghost use Rattle.std.specs.List.{filter};
ghost use Rattle.std.specs.List.Sorted.{IsPermutation};
ghost use Rattle.std.specs.Option.{option_copied, option_map};
ghost use Rattle.std.specs.Ordering.{nat_cmp};
ghost use Rattle.r4_base.specs.Key.{rank};
ghost use Rattle.r4_work.specs.Order.{AreInOrder, AreRangesApart, IsAt, cell_at, is_at, place, place_of};
ghost use Rattle.r4_work.specs.Order.{places_of, without_places};

use r4_base::{Key, Memory};
use r4_edit::Cell;
use std::alloc::Global;
use std::cmp::Ordering;
use std::marker::Model;
use std::sync::Arc;

/// Cells in the order of their levels, and within a level of the keys with which they begin.
#[derive(Drop)]
pub struct OrderedCells {
    cells: Vec<Arc<Cell>>,
}

impl Model for OrderedCells {
    ghost use Rattle.std.specs.Prelude.{List, map};
    ghost use Rattle.std.specs.Arc.{arc_value};
    ghost use Rattle.r4_edit.specs.r4_cell.Seen.{CellSeen};
    ghost use Rattle.r4_work.specs.Order.{AreInOrder};

    ghost Value = { List CellSeen };

    ghost view = { λ o. map (λ c. arc_value c) o.cells.items };

    ghost invariant = { λ o. AreInOrder (map (λ c. arc_value c) o.cells.items) };
}

impl OrderedCells {
    /// No cells.
    pub fn new(alloc: Global) -> OrderedCells
        ensures { result ≡ [] }
    {
        OrderedCells {
            cells: Vec::new(alloc),
        }
    }

    /// These cells, in order; they are shared, and no block is copied.
    pub fn from_cells(alloc: Global, cells: &[Arc<Cell>]) -> Result<OrderedCells, Memory>
        ensures same { IfOk result (λ o. IsPermutation (map (λ c. arc_value c) cells.now) o) }
        ensures order { IfOk result (λ o. AreInOrder o) }
    {
        let mut ordered = shared(alloc, cells)?;
        ordered.sort_unstable_by(|a, b| by_place(a, b));
        Ok(OrderedCells { cells: ordered })
    }

    /// The last cell of a level that has a key.
    pub fn find(&self, level: u8, key: Key) -> Option<&Arc<Cell>>
        ensures stands { IfSome result (λ c. IsAt self.now level (rank key) (arc_value c.now)) }
        ensures exact { AreRangesApart self.now
            → option_map (λ c. arc_value c) (option_copied result)
            ≡ cell_at self.now level (rank key) }
    {
        let behind = self.cells.partition_point(|c| begins_by(c, level, key));
        if behind == 0 {
            return None;
        }
        let cell = &self.cells[behind - 1];
        if has(cell, level, key) {
            Some(cell)
        } else {
            None
        }
    }

    /// Takes the cells out that stand at the place of one of these, which are to be few: for each of them those
    /// behind it are moved.
    pub fn take_out_all(&mut self, cells: &[Arc<Cell>])
        ensures { self.new
            ≡ without_places (places_of (map (λ c. arc_value c) cells.now)) self.old }
    {
        for cell in cells {
            self.take_out(cell);
        }
    }

    // Takes the cells out that stand at the place of a cell.
    fn take_out(&mut self, cell: &Cell)
        ensures { self.new ≡ filter (λ c. not (place cell.now == place c)) self.old }
    {
        let from = self.cells.partition_point(|c| is_before(c, cell));
        let to = self.cells.partition_point(|c| !is_before(cell, c));
        self.cells.drain(from..to);
    }
}

// The cells, as a further owner of them.
fn shared(alloc: Global, cells: &[Arc<Cell>]) -> Result<Vec<Arc<Cell>>, Memory>
    ensures { IfOk result (λ v. map (λ c. arc_value c) v.items ≡ map (λ c. arc_value c) cells.now) }
{
    let mut all = Vec::with_capacity(alloc, cells.len())?;
    for cell in cells {
        all.push(Arc::try_clone(cell)?)?;
    }
    Ok(all)
}

/// How two cells stand to one another in the order of their levels, and within a level of the keys with which they begin
/// (docs/volume.md, "The working set").
pub fn by_place(one: &Cell, other: &Cell) -> Ordering
    ensures { result ≡ nat_cmp (place one.now) (place other.now) }
{
    if is_before(one, other) {
        Ordering::Less
    } else if is_before(other, one) {
        Ordering::Greater
    } else {
        Ordering::Equal
    }
}

// Whether a cell stands before another one.
fn is_before(one: &Cell, other: &Cell) -> bool
    ensures { result ≡ nat_lt (place one.now) (place other.now) }
{
    comes_before(one.level(), one.lo(), other.level(), other.lo())
}

// Whether a cell stands no further than one of the level would that begins with the key.
fn begins_by(cell: &Cell, level: u8, key: Key) -> bool
    ensures { result ≡ nat_le (place cell.now) (place_of level (rank key)) }
{
    !comes_before(level, key, cell.level(), cell.lo())
}

// Whether the place of a level and a key comes before another one.
fn comes_before(level: u8, key: Key, other: u8, other_key: Key) -> bool
    ensures { result ≡ nat_lt (place_of level (rank key)) (place_of other (rank other_key)) }
{
    level < other || (level == other && key.is_below(other_key))
}

// Whether a cell has the level, and the key lies in its range.
fn has(cell: &Cell, level: u8, key: Key) -> bool
    ensures { result ≡ is_at level (rank key) cell.now }
{
    cell.level() == level && !key.is_below(cell.lo()) && key.is_below(cell.hi())
}
