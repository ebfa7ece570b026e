//! Twigs beside each other that get other pieces, with the rows above them, as one change (docs/volume.md, "Edits").

ghost use Rattle.std.specs.Prelude.{◌≡◌, ◌++◌, ℕ, IfOk, None, OnOk, map};
ghost use Rattle.std.specs.Arc.{arc_value};
ghost use Rattle.std.specs.Option.{option_map};
ghost use Rattle.r4_path.specs.Steps.{root_pair};
ghost use Rattle.r4_rows.specs.Rows.{news_in, olds_in};
ghost use Rattle.r4_row_edit.specs.Climbing.{CanClimb, row_of};
ghost use Rattle.r4_row_edit.specs.Shifting.{CanShift, HasRows, IsShifted};

use crate::climbing::{RowChange, climb};
use crate::twigs::twigs_with;
use r4_base::Memory;
use r4_branch::TwigPiece;
use r4_cell::{Cell, Cells, Change, Fresh, Root};
use r4_path::add;
use std::alloc::Global;
use std::sync::Arc;

/// Gives twigs that stand beside each other these pieces, where leaves go below them and leaves and data blocks come, and
/// packs the rows above anew, the lowest first, up to one cell that stays one: as one change. The twigs may become 87 more
/// at most. Where they may become more, the rows go up to the root, which stands below level 8; else no number is taken.
/// The only error is want of memory; then numbers may have been taken (docs/volume.md, "Rows that are packed anew").
pub fn shift(
    alloc: Global,
    below: RowChange,
    pieces: &[TwigPiece],
    row: Cells,
    above: Vec<Cells>,
    fresh: &mut Fresh,
) -> Result<Change, Memory>
    requires { (more : ℕ) × CanShift row pieces.now above.items more fresh.old }
    ensures { IfOk result (IsShifted (row_of below) row pieces.now above.items fresh.old fresh.new) }
{
    let new = twigs_with(alloc, row.as_slice(), pieces, fresh)?;
    let twigs = RowChange {
        old: row,
        new: Cells::from_vec(new),
    };
    with_rows(alloc, below, twigs, above, fresh)
}

/// What goes and comes below a row of twigs, the row, and the rows above it packed anew, as one change.
pub fn with_rows(
    alloc: Global,
    below: RowChange,
    twigs: RowChange,
    above: Vec<Cells>,
    fresh: &mut Fresh,
) -> Result<Change, Memory>
    requires { CanClimb 2 (row_of twigs) above.items fresh.old }
    ensures { IfOk result (HasRows (row_of below) (row_of twigs) above.items fresh.old fresh.new) }
{
    let mut rows = Vec::new(alloc);
    rows.push(below)?;
    let over = climb(alloc, above.into_iter(), twigs, fresh, &mut rows)?;
    gather(alloc, rows.as_slice(), over)
}

// The change that has these rows, and a new root where there is one.
fn gather(alloc: Global, rows: &[RowChange], over: Option<Arc<Cell>>) -> Result<Change, Memory>
    ensures old { IfOk result (λ c. c.old ≡ olds_in (map row_of rows.now)) }
    ensures new { IfOk result (λ c. c.new
        ≡ news_in (map row_of rows.now) (option_map (λ x. arc_value x) over)) }
    ensures root { IfOk result (λ c. c.root ≡ root_pair (option_map (λ x. arc_value x) over)) }
{
    let mut old = Vec::new(alloc);
    add_old(&mut old, rows)?;
    let mut new = Vec::new(alloc);
    add_new(&mut new, rows)?;
    let Some(cell) = over else {
        return Ok(Change {
            old: Cells::from_vec(old),
            new: Cells::from_vec(new),
            root: None,
        });
    };
    let root = Root {
        id: cell.id(),
        height: cell.level(),
    };
    new.push(cell)?;
    Ok(Change {
        old: Cells::from_vec(old),
        new: Cells::from_vec(new),
        root: Some(root),
    })
}

// The old cells of rows come behind the others.
fn add_old(cells: &mut Vec<Arc<Cell>>, rows: &[RowChange]) -> Result<(), Memory>
    ensures { OnOk result (map (λ x. arc_value x) cells.new.items
        ≡ map (λ x. arc_value x) cells.old.items ++ olds_in (map row_of rows.now)) }
{
    match rows.split_first() {
        None => Ok(()),
        Some((first, rest)) => {
            add(cells, first.old.as_slice())?;
            add_old(cells, rest)
        }
    }
}

// The new cells of rows come behind the others.
fn add_new(cells: &mut Vec<Arc<Cell>>, rows: &[RowChange]) -> Result<(), Memory>
    ensures { OnOk result (map (λ x. arc_value x) cells.new.items
        ≡ map (λ x. arc_value x) cells.old.items ++ news_in (map row_of rows.now) None) }
{
    match rows.split_first() {
        None => Ok(()),
        Some((first, rest)) => {
            add(cells, first.new.as_slice())?;
            add_new(cells, rest)
        }
    }
}
