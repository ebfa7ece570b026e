//! Which twigs get which pieces, so that certain keys come below one (docs/volume.md, "Bodies in extents").

ghost use Rattle.std.specs.Prelude.{◌≡◌, ◌≤◌, IfOk, IfSome, map};
ghost use Rattle.std.specs.Arc.{arc_value};
ghost use Rattle.r4_base.specs.Key.{rank};
ghost use Rattle.r4_row_gather.specs.Planning.{IsPlanOf};

use crate::clearing::{Clearing, cleared};
use crate::finding::row_among;
use crate::parting::parted;
use r4_base::{Key, Memory, TWIG};
use r4_patch::{Cell, Cells};
use r4_row_edit::RowChange;
use r4_squeeze::pieces_of_all;
use r4_work::{KeyRange, TwigPiece};
use std::alloc::Global;
use std::sync::Arc;

/// Twigs beside each other, the leaves that go and come below them, and what pieces the twigs get, part by part.
#[derive(Drop)]
pub(crate) struct Plan {
    pub row: Cells,
    pub below: RowChange,
    pub parts: Vec<Vec<TwigPiece>>,
}

/// What twigs get so that all keys of a range come below one. Where leaves begin in the range they go, or begin behind it,
/// if they may. The only error is want of memory (docs/volume.md, "Bodies in extents").
pub(crate) fn planned(
    alloc: Global,
    cells: &[Arc<Cell>],
    keys: &KeyRange,
) -> Result<Option<Plan>, Memory>
    ensures { IfOk result (λ o. IfSome o (IsPlanOf (map (λ c. arc_value c) cells.now)
        (rank keys.now.from) (rank keys.now.to))) }
{
    if !keys.from.is_below(keys.to) {
        return Ok(None);
    }
    if let Some(plan) = clearing(alloc, cells, keys)? {
        return Ok(Some(plan));
    }
    gathering(alloc, cells, keys)
}

// A plan by which leaves go or begin later.
fn clearing(alloc: Global, cells: &[Arc<Cell>], keys: &KeyRange) -> Result<Option<Plan>, Memory>
    ensures { IfOk result (λ o. IfSome o (IsPlanOf (map (λ c. arc_value c) cells.now)
        (rank keys.now.from) (rank keys.now.to))) }
{
    let Some(row) = row_among(alloc, cells, TWIG, begin_before(cells, keys.from), keys.to)? else {
        return Ok(None);
    };
    let twigs = row.as_slice();
    let pieces = pieces_of_all(alloc, twigs)?;
    let hi = twigs[twigs.len() - 1].hi();
    let Some(rest) = cleared(alloc, cells, pieces.as_slice(), hi, keys)? else {
        return Ok(None);
    };
    let Clearing { pieces, gone, come } = rest;
    let Some(parts) = parted(alloc, pieces.as_slice(), keys, twigs.len())? else {
        return Ok(None);
    };
    let below = RowChange {
        old: Cells::from_vec(gone),
        new: Cells::from_vec(come),
    };
    Ok(Some(Plan { row, below, parts }))
}

// Where the twig among some cells begins that ends at a key; or the key itself, where there is none.
fn begin_before(cells: &[Arc<Cell>], key: Key) -> Key
    ensures { rank result ≤ rank key }
{
    for cell in cells {
        if cell.level() == TWIG && cell.hi().is_same(key) && cell.lo().is_below(key) {
            return cell.lo();
        }
    }
    key
}

// A plan by which no leaf goes.
fn gathering(alloc: Global, cells: &[Arc<Cell>], keys: &KeyRange) -> Result<Option<Plan>, Memory>
    ensures { IfOk result (λ o. IfSome o (IsPlanOf (map (λ c. arc_value c) cells.now)
        (rank keys.now.from) (rank keys.now.to))) }
{
    let Some(row) = row_among(alloc, cells, TWIG, keys.from, keys.to)? else {
        return Ok(None);
    };
    let twigs = row.as_slice();
    if twigs.len() == 1 {
        return Ok(None);
    }
    let pieces = pieces_of_all(alloc, twigs)?;
    let Some(parts) = parted(alloc, pieces.as_slice(), keys, twigs.len())? else {
        return Ok(None);
    };
    let below = RowChange {
        old: Cells::new(alloc),
        new: Cells::new(alloc),
    };
    Ok(Some(Plan { row, below, parts }))
}
