//! Keys gathered below one twig (docs/volume.md, "Bodies in extents").

ghost use Rattle.std.specs.Prelude.{◌≡◌, ◌++◌, IfOk, IfSome, map, true};
ghost use Rattle.std.specs.Arc.{arc_value};
ghost use Rattle.r4_base.specs.Key.{rank};
ghost use Rattle.r4_work.specs.r4_patch.Following.{without};
ghost use Rattle.r4_work.specs.r4_patch.Joining.{ids_of};
ghost use Rattle.r4_row_gather.specs.Gathering.{HasTwigOf, IsGathered, is_twig_of};

use crate::planning::{Plan, planned};
use crate::rising::rows_over;
use r4_base::{Memory, TWIG};
use r4_patch::{Cell, Cells, Change, follow};
use r4_row_edit::shift_parted;
use r4_work::{KeyRange, add};
use std::alloc::Global;
use std::sync::Arc;

/// A change that gathers, and the cells that stand once it is made.
#[derive(Drop)]
pub struct Gathered {
    pub change: Change,
    pub cells: Cells,
}

/// Brings all that has keys of a range below one twig, of some cells of a tree, and takes leaves without units out of the
/// way that begin in the range. Each unit stays, in its kind of cell; no number is taken, and the root stays. `None` where
/// nothing is to be done, or these cells do not suffice for it, or the twigs have no room to part what stands in them so.
/// The only error is want of memory (docs/volume.md, "Bodies in extents").
pub fn gather(
    alloc: Global,
    cells: &[Arc<Cell>],
    keys: &KeyRange,
) -> Result<Option<Gathered>, Memory>
    ensures { IfOk result (λ o. IfSome o (IsGathered (map (λ c. arc_value c) cells.now)
        (rank keys.now.from) (rank keys.now.to))) }
{
    let Some(plan) = planned(alloc, cells, keys)? else {
        return Ok(None);
    };
    let Some(above) = rows_over(alloc, cells, plan.row.as_slice())? else {
        return Ok(None);
    };
    let Plan { row, below, parts } = plan;
    let change = shift_parted(alloc, below, parts.as_slice(), row, above)?;
    if !has_twig_of(change.new.as_slice(), keys) {
        return Ok(None);
    }
    let cells = standing(alloc, cells, &change)?;
    Ok(Some(Gathered { change, cells }))
}

// Whether one of the cells is a twig that has all keys of a range.
fn has_twig_of(cells: &[Arc<Cell>], keys: &KeyRange) -> bool
    ensures { result ≡ true → HasTwigOf (map (λ c. arc_value c) cells.now) (rank keys.now.from)
        (rank keys.now.to) }
{
    for cell in cells {
        if is_twig_of(cell, keys) {
            return true;
        }
    }
    false
}

// Whether a cell is a twig that has all keys of a range.
fn is_twig_of(cell: &Cell, keys: &KeyRange) -> bool
    ensures { result ≡ is_twig_of (rank keys.now.from) (rank keys.now.to) cell.now }
{
    cell.level() == TWIG && !keys.from.is_below(cell.lo()) && !cell.hi().is_below(keys.to)
}

/// The cells that stand once a change is made of some: its new ones, and those that it does not replace. The only error is
/// want of memory.
pub(crate) fn standing(alloc: Global, cells: &[Arc<Cell>], change: &Change) -> Result<Cells, Memory>
    ensures { IfOk result (λ s. s ≡ change.now.new
        ++ without (ids_of change.now.old) (map (λ c. arc_value c) cells.now)) }
{
    let mut stood = Vec::with_capacity(alloc, cells.len())?;
    add(&mut stood, cells)?;
    let made = Change {
        old: Cells::new(alloc),
        new: Cells::from_vec(stood),
        root: None,
    };
    let both = follow(alloc, &made, change)?;
    Ok(both.new)
}
