//! From the new cells of a row to those of the rows above it (docs/volume.md, "Edits").

ghost use Rattle.std.specs.Prelude.{◌≡◌, ◌+◌, ◌&&◌, ◌==◌, ◌∷◌, ◌++◌, ℕ, IfOk, List, OnOk, length, map};
ghost use Rattle.std.specs.Option.{option_map};
ghost use Rattle.std.specs.Arc.{arc_value};
ghost use Rattle.std.specs.Vec.Iter.{into_iter_items};
ghost use Rattle.r4_path.specs.Nodes.{IsPointingTo};
ghost use Rattle.r4_rows.specs.Rows.{Row};
ghost use Rattle.r4_row_edit.specs.Climbing.{CanClimb, CanRise, Climbed, row_of};

use crate::repacking::repacked;
use r4_base::Memory;
use r4_cell::{Cell, Cells, Fresh};
use r4_path::root_over;
use std::alloc::Global;
use std::sync::Arc;
use std::vec::IntoIter;

/// One level of a change: cells beside each other that go, and those that come in their place.
#[derive(Drop)]
pub struct RowChange {
    pub old: Cells,
    pub new: Cells,
}

/// The rows of a change from one on, with the rows of nodes above it, the lowest first: each is packed anew, with pointers
/// to what comes below, until one cell stands in the place of one. The highest row is one cell; and the root, where the
/// lowest row grows, by 87 cells at most. They are put behind the rows that there are. Answers the new root, where the old
/// one gives way to several. Each row above takes no more numbers than it grows by, and a new root one: none where the
/// lowest row does not grow. The only error is want of memory; then numbers may have been taken (docs/volume.md, "Rows
/// that are packed anew").
pub fn climb(
    alloc: Global,
    above: IntoIter<Cells>,
    row: RowChange,
    fresh: &mut Fresh,
    rows: &mut Vec<RowChange>,
) -> Result<Option<Arc<Cell>>, Memory>
    requires { (l : ℕ) × CanClimb l (row_of row) (into_iter_items above) fresh.old }
    ensures { IfOk result (λ over. (l : ℕ)
        → CanClimb l (row_of row) (into_iter_items above) fresh.old
        → (more : List Row) × Climbed l (row_of row) (into_iter_items above) fresh.old
        fresh.new more (option_map (λ c. arc_value c) over)
        × (map row_of rows.new.items ≡ map row_of rows.old.items ++ row_of row ∷ more)) }
{
    if is_one_for_one(&row) {
        rows.push(row)?;
        return Ok(None);
    }
    let mut above = above;
    match above.next() {
        None => {
            let root = root_of(alloc, &row, fresh)?;
            rows.push(row)?;
            Ok(Some(root))
        }
        Some(old) => {
            let new = repacked(
                alloc,
                old.as_slice(),
                row.old.as_slice(),
                row.new.as_slice(),
                fresh,
            )?;
            rows.push(row)?;
            let next = RowChange {
                old,
                new: Cells::from_vec(new),
            };
            climb(alloc, above, next, fresh, rows)
        }
    }
}

// Whether one cell stands in the place of one.
fn is_one_for_one(row: &RowChange) -> bool
    ensures { result ≡ (length row.now.old == 1 && length row.now.new == 1) }
{
    row.old.as_slice().len() == 1 && row.new.as_slice().len() == 1
}

// The new root over the cells in the place of the old one.
fn root_of(alloc: Global, row: &RowChange, fresh: &mut Fresh) -> Result<Arc<Cell>, Memory>
    requires { (l : ℕ) × CanRise l (row_of row.now) fresh.old }
    ensures root { IfOk result (λ c. (l : ℕ) → CanRise l (row_of row.now) fresh.old
        → IsPointingTo row.now.new (l + 1) fresh.old.next (arc_value c)) }
    ensures fresh { OnOk result (fresh.new ≡ record fresh.old { next = fresh.old.next + 1 }) }
{
    let level = row.old.as_slice()[0].level();
    root_over(alloc, row.new.as_slice(), level, fresh)
}
